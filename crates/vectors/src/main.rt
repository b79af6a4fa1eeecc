// Answers cases about checks and blocks, one a line of standard input, so that a second program can be held to the same answers.
#![tactic(auto)]

ghost use Rattle.cases.specs.Answers.{OfBlocks, NoOther};

use anyhow::anyhow;
use cases::{Kinds, Stop, Words, answer_lines, check_case, decode_case, encode_case};
use std::alloc::Global;

fn main(rt: HostRuntime) -> anyhow::Result<()> {
    answer_lines(&rt, &Blocks)
}

// The kinds of cases about checks and blocks.
#[derive(Clone, Copy)]
struct Blocks;

impl Kinds for Blocks {
    ghost answers = { λ _ kind words answer. OfBlocks kind words answer × NoOther kind answer };

    fn answer(&self, heap: Global, kind: &str, case: &mut Words<'_>) -> Result<String, Stop> {
        match kind {
            "check" => check_case(heap, case),
            "encode" => encode_case(heap, case),
            "decode" => decode_case(heap, case),
            _ => Err(Stop::Broken(anyhow!("a case of no known kind"))),
        }
    }
}
