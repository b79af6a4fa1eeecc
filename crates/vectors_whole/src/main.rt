// Answers cases, one a line of standard input, so that a second program can be held to the same answers.
#![tactic(auto)]

ghost use Rattle.cases.specs.Answers.{OfBlocks};

use anyhow::anyhow;
use cases::{Kinds, Stop, Words, answer_lines, check_case, decode_case, encode_case};
use deliveries::deliver_case;
use formats::{pictures_case, stripe_case};
use gathers::{gather_case, start_case};
use images::{elements_case, image_case, mended_case, seal_case};
use places::place_case;
use reads::read_case;
use scenes::scene_case;
use std::alloc::Global;
use tables::slots_case;

mod deliveries;
mod formats;
mod gathers;
mod images;
mod memory;
mod places;
mod reads;
mod scenes;
mod tables;
mod told;

fn main(rt: HostRuntime) -> anyhow::Result<()> {
    answer_lines(&rt, &All)
}

// The kinds of cases about all calls.
#[derive(Clone, Copy)]
struct All;

// Of the kinds about checks and blocks it says what they answer. The others are held to the second program's answers.
impl Kinds for All {
    ghost answers = { λ _ kind words answer. OfBlocks kind words answer };

    fn answer(&self, heap: Global, kind: &str, case: &mut Words<'_>) -> Result<String, Stop> {
        match kind {
            "check" => check_case(heap, case),
            "encode" => encode_case(heap, case),
            "decode" => decode_case(heap, case),
            "stripe" => stripe_case(heap, case),
            "pictures" => pictures_case(heap, case),
            "slots" => slots_case(heap, case),
            "seal" => seal_case(heap, case),
            "elements" => elements_case(heap, case),
            "image" => image_case(heap, case),
            "mended" => mended_case(heap, case),
            "place" => place_case(heap, case),
            "read" => read_case(heap, case),
            "start" => start_case(heap, case),
            "gather" => gather_case(heap, case),
            "deliver" => deliver_case(heap, case),
            "scene" => scene_case(heap, case),
            _ => Err(Stop::Broken(anyhow!("a case of no known kind"))),
        }
    }
}
