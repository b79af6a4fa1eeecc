// Answers about gathering: rows are embedded in columns of a slab, and macroblocks are gathered.
use crate::memory::{OnSlab, SlabCase};
use crate::tables::{Offer, Shown, add_slots};
use crate::told::Told;
use anyhow::Context;
use block::encode;
use cases::{Refusal, Stop, Words, parsed, rows_of};
use column::embed;
use crc::check;
use extractor::{Gathering, start};
use fault::Fault;
use format::ELEMENTS;
use raster::Raster;
use record::{Block, PictureFlags, Record};
use slots::{Slot, Table, empty_slots};
use std::alloc::Global;
use std::fmt;
use std::fmt::Write;
use std::str::FromStr;

// Starts on a table with some offers made, and tells what it holds then.
pub fn start_case(heap: Global, case: &mut Words<'_>) -> Result<String, Stop> {
    let number = case.take()?;
    let first = case.take()?;
    let mut slots = empty_slots(heap, usize::from(case.take::<u16>()?))?;
    let mut table = Table::new(&mut slots);
    for word in case.rest() {
        parsed::<Offer>(word)?.make(&mut table)?;
    }
    let mut line = match start(number, first, &mut table) {
        Ok(_) => String::from_str(heap, "started")?,
        Err(fault) => {
            let refusal = Refusal(fault);
            format!(in heap; "{refusal}")?
        }
    };
    add_slots(&mut line, &slots)?;
    Ok(line)
}

// What each gather answers, and what table and sheet hold at the end.
pub fn gather_case(heap: Global, case: &mut Words<'_>) -> Result<String, Stop> {
    let slab = SlabCase::of(case)?;
    let run = Run::of(heap, case)?;
    slab.filled(heap)?.lend(run)
}

// A gathering that is started, the lengths of the table and the sheet that it is given, and the steps to take.
#[derive(Drop)]
struct Run<'a> {
    heap: Global,
    gathering: Gathering,
    slots: u16,
    lines: u16,
    steps: &'a [&'a str],
}

impl<'a> Run<'a> {
    fn of(heap: Global, case: &mut Words<'a>) -> Result<Run<'a>, Stop> {
        let number = case.take()?;
        let first = case.take()?;
        Ok(Run {
            heap,
            slots: case.take()?,
            lines: case.take()?,
            gathering: started(number, first)?,
            steps: case.rest(),
        })
    }

    fn take<R: Raster>(
        &self,
        slab: &mut R,
        table: &mut Table<'_, u32>,
        sheet: &mut Table<'_, Record>,
        line: &mut String,
    ) -> Result<(), Stop> {
        for word in self.steps {
            match parsed(word)? {
                // Where there is no column to embed in, nothing is embedded.
                Step::Embed(at, rows) => {
                    let _ = embed(slab, at, &rows);
                }
                Step::Gather(stripe, column) => {
                    let answer = self.gathering.gather(stripe, column, &*slab, table, sheet);
                    let said = Told(answer.map(Gathered));
                    write!(line, " {said}")?;
                }
            }
        }
        Ok(())
    }
}

impl OnSlab for Run<'_> {
    type Said = Result<String, Stop>;

    fn on<R: Raster>(self, slab: &mut R) -> Result<String, Stop> {
        let mut slots = empty_slots(self.heap, usize::from(self.slots))?;
        let mut lines = empty_slots(self.heap, usize::from(self.lines))?;
        let mut table = Table::new(&mut slots);
        let mut sheet = Table::new(&mut lines);
        let mut line = String::from_str(self.heap, "gather")?;
        self.take(slab, &mut table, &mut sheet, &mut line)?;
        line.push_str(" table")?;
        add_slots(&mut line, &slots)?;
        line.push_str(" sheet")?;
        add_slots(&mut line, &lines)?;
        Ok(line)
    }
}

// A gathering that is started on a table of its own.
fn started(number: u32, first: u32) -> Result<Gathering, Fault> {
    let mut slots = [Slot::Empty; ELEMENTS];
    let mut table = Table::new(&mut slots);
    start(number, first, &mut table)
}

// Embeds rows, as in 7=F800.., or gathers a macroblock, as in 2:7.
#[derive(Clone, Copy)]
enum Step {
    Embed(usize, [u16; 16]),
    Gather(usize, usize),
}

impl FromStr for Step {
    type Err = anyhow::Error;

    fn from_str(word: &str) -> anyhow::Result<Step> {
        if let Some((at, rows)) = word.split_once('=') {
            return Ok(Step::Embed(parsed(at)?, rows_of(rows)?));
        }
        let (stripe, column) = word.split_once(':').context("a step of no known kind")?;
        Ok(Step::Gather(parsed(stripe)?, parsed(column)?))
    }
}

// What is told of a block that was gathered: its reference and element.
#[derive(Clone, Copy)]
struct Gathered(Block);

impl fmt::Display for Gathered {
    fn fmt<W: fmt::Write>(&self, f: &mut fmt::Formatter<W>) -> fmt::Result {
        let Block {
            reference,
            element,
            ..
        } = self.0;
        write!(f, "{reference}:{element:08X}")
    }
}

// A record is told by the check of a block with it and zeros.
#[derive(Clone, Copy)]
pub struct Check(u32);

impl fmt::Display for Check {
    fn fmt<W: fmt::Write>(&self, f: &mut fmt::Formatter<W>) -> fmt::Result {
        let check = self.0;
        write!(f, "{check:08X}")
    }
}

impl Shown for Record {
    type Text = Check;

    fn shown(&self) -> Result<Check, Fault> {
        let block = Block {
            picture: PictureFlags::default(),
            reference: 0,
            element: 0,
            record: *self,
        };
        Ok(Check(check(&encode(&block)?[..14])))
    }
}
