// A program of cases: each line of standard input is one, and its first word is its kind.
ghost use Rattle.std.specs.Prelude.{List, ℕ, [], ◌∷◌, ◌++◌, Result, IfOk, IfSome, OnOk, map};
ghost use Rattle.std.specs.declared.string.String.{String};
ghost use Rattle.std.specs.declared.alloc.Global.{Global};
ghost use Rattle.std.specs.Io.KnownBytes.{Appends};
ghost use Rattle.cases.specs.declared.stop.Stop.{Stop};
ghost use Rattle.cases.specs.Answers.{Told};
ghost use Rattle.cases.specs.Lines.{AnswersLine, AnswersAll, IsCut, IsTextOf, lines_of};
ghost use Rattle.cases.specs.Words.{left};

use crate::text::Refusal;
use crate::{Stop, Words};
use std::alloc::{AllocError, Global};
use std::io::{BufRead, BufReader, Write, writer};

// What a program answers to the kinds of cases that it knows. It is no closure: who calls one has to ask that it may be called.
pub trait Kinds {
    // What may be answered to a kind of case and the words after it.
    ghost answers: { Self → List ℕ → List (List ℕ) → Result (String Global) Stop → Type 0 };

    fn answer(&self, heap: Global, kind: &str, case: &mut Words<'_>) -> Result<String, Stop>
        ensures { answers self.now kind.now (left case.old) result };
}

// Prints the answer to each line of standard input, up to the first that is no case.
pub fn answer_lines<K: Kinds>(rt: &HostRuntime, kinds: &K) -> anyhow::Result<()> {
    let input = BufReader::new(rt.alloc(), rt.stdin())?;
    answer_all(rt.alloc(), kinds, input, &mut writer(rt))
}

// The same of any reader and writer; only where their bytes are known does the contract say what is written.
pub fn answer_all<K: Kinds, R: BufRead + Drop, W: Write>(
    heap: Global,
    kinds: &K,
    input: R,
    output: &mut W,
) -> anyhow::Result<()>
    ensures { OnOk result (IfSome (R.Read.remaining input) (λ bytes. (texts : List (List ℕ)) × AnswersAll (K.answers kinds.now) bytes texts × Appends (W.contents output.old) (W.contents output.new) (lines_of texts))) }
{
    for line in input.lines(heap) {
        let text = line?;
        answer_line(heap, kinds, text.as_str(), output)?;
    }
    Ok(())
}

fn answer_line<K: Kinds, W: Write>(
    heap: Global,
    kinds: &K,
    line: &str,
    output: &mut W,
) -> anyhow::Result<()>
    ensures { OnOk result ((answer : Result (String Global) Stop) × (text : List ℕ) × AnswersLine (K.answers kinds.now) line.now answer × IsTextOf answer text × Appends (W.contents output.old) (W.contents output.new) (text ++ 10 ∷ [])) }
{
    // One write, so that whoever reads or writes beside it meets whole lines. By `writeln!` the line break is a write of its own.
    let mut answer = told(heap, answer_of(heap, line, kinds))?;
    answer.push('\n')?;
    output.write_all(answer.as_bytes())?;
    Ok(())
}

fn answer_of<K: Kinds>(heap: Global, line: &str, kinds: &K) -> Result<String, Stop>
    ensures { AnswersLine (K.answers kinds.now) line.now result }
{
    let words = words_of(heap, line)?;
    let mut case = Words::new(&words);
    let kind = case.word()?;
    kinds.answer(heap, kind, &mut case)
}

fn words_of(heap: Global, line: &str) -> Result<Vec<&str>, AllocError>
    ensures { IfOk result (λ words. IsCut line.now (map (λ word. word.now) words.items)) }
{
    Ok(line.split(' ').collect(heap)?)
}

// A refusal is an answer too.
fn told(heap: Global, answer: Result<String, Stop>) -> anyhow::Result<String>
    ensures { Told answer result }
{
    match answer {
        Ok(text) => Ok(text),
        Err(Stop::Refused(fault)) => {
            let refusal = Refusal(fault);
            Ok(format!(in heap; "{refusal}")?)
        }
        Err(Stop::Broken(error)) => Err(error),
        Err(Stop::NoMemory) => Err(AllocError.into()),
    }
}
