// Answers about whole pictures: macroblocks are placed in a slab, damaged and gathered, stripe after stripe, and the table is
// delivered.
use crate::deliveries::Delivered;
use crate::images::{Change, data_in};
use crate::memory::{OnSlab, SlabCase};
use crate::tables::States;
use anyhow::{Context, anyhow};
use cases::{Stop, Words, parsed};
use extractor::{Gathering, start};
use fault::Fault;
use format::ELEMENTS;
use image::SealedImage;
use inserter::{Inserter, Picture};
use raster::Raster;
use record::Record;
use slots::{Slot, Table, empty_slots};
use std::alloc::Global;
use std::fmt;
use std::str::FromStr;

// How the places and the gathers end, what table and sheet hold then, and what deliver answers.
pub fn scene_case(heap: Global, case: &mut Words<'_>) -> Result<String, Stop> {
    let slab = SlabCase::of(case)?;
    let scene = Scene::of(heap, slab.columns(), case)?;
    slab.filled(heap)?.lend(scene)
}

// A format, the first references of the picture that is placed and of the one that is gathered, the slots of the sheet, and the
// steps to take.
#[derive(Drop)]
struct Scene<'a> {
    heap: Global,
    number: u32,
    placed: u32,
    gathered: u32,
    lines: u16,
    steps: &'a [&'a str],
}

impl<'a> Scene<'a> {
    fn of(heap: Global, lines: u16, case: &mut Words<'a>) -> anyhow::Result<Scene<'a>> {
        Ok(Scene {
            heap,
            number: case.take()?,
            placed: case.take()?,
            gathered: case.take()?,
            lines,
            steps: case.rest(),
        })
    }

    fn run<R: Raster>(&self, picture: &Picture<'_>, slab: &mut R) -> Result<String, Stop> {
        let mut slots = [Slot::Empty; ELEMENTS];
        let mut lines = empty_slots(self.heap, usize::from(self.lines))?;
        let mut table = Table::new(&mut slots);
        let mut sheet = Table::new(&mut lines);
        let gathering = start(self.number, self.gathered, &mut table)?;
        let mut placed = Ends::none();
        let mut gathered = Ends::none();
        let mut image = SealedImage::blank();
        for word in self.steps {
            match parsed(word)? {
                Step::Change(change) => replace_in(self.heap, &mut image, change)?,
                Step::Flip(flip) => flip.on(slab),
                Step::Place(span) => span.place(picture, slab, &image, &mut placed),
                Step::Gather(span) => {
                    span.gather(&gathering, &*slab, &mut table, &mut sheet, &mut gathered)
                }
            }
        }
        let said = Delivered::of(&table);
        let slots = States::of(&slots);
        let lines = States::of(&lines);
        let line = format!(in self.heap;
            "scene placed {placed} gathered {gathered} table {slots} sheet {lines} {said}"
        )?;
        Ok(line)
    }
}

impl OnSlab for Scene<'_> {
    type Said = Result<String, Stop>;

    // All places are in one open picture.
    fn on<R: Raster>(self, slab: &mut R) -> Result<String, Stop> {
        let mut inserter = Inserter::new(self.number, self.placed)?;
        let picture = inserter.counter.open();
        self.run(&picture, slab)
    }
}

// Replaces a byte of the image's data and seals it anew.
fn replace_in(heap: Global, image: &mut SealedImage, change: Change) -> Result<(), Stop> {
    let mut bytes = data_in(heap, image)?;
    change.replace(&mut bytes)?;
    image.seal(&bytes)?;
    Ok(())
}

// One step: a byte of the image is replaced (15=80), bits of a row of a block are flipped (flip:COLUMN:ROW:BITS), or columns FROM
// up to TO of a stripe are placed or gathered (place:STRIPE:FROM:TO).
#[derive(Clone, Copy)]
enum Step {
    Change(Change),
    Flip(Flip),
    Place(Span),
    Gather(Span),
}

impl FromStr for Step {
    type Err = anyhow::Error;

    fn from_str(word: &str) -> anyhow::Result<Step> {
        match word.split_once(':') {
            None => Ok(Step::Change(parsed(word)?)),
            Some(("flip", numbers)) => Ok(Step::Flip(parsed(numbers)?)),
            Some(("place", numbers)) => Ok(Step::Place(parsed(numbers)?)),
            Some(("gather", numbers)) => Ok(Step::Gather(parsed(numbers)?)),
            Some(_) => Err(anyhow!("a step of no known kind")),
        }
    }
}

// The three numbers of a step.
fn parted(numbers: &str) -> anyhow::Result<(&str, &str, &str)> {
    let mut parts = numbers.splitn(3, ':');
    let mut next = || parts.next().context("a step of too few numbers");
    Ok((next()?, next()?, next()?))
}

// Bits of a row of the block in a column.
#[derive(Clone, Copy)]
struct Flip {
    column: u16,
    row: u16,
    bits: u16,
}

impl FromStr for Flip {
    type Err = anyhow::Error;

    fn from_str(numbers: &str) -> anyhow::Result<Flip> {
        let (column, row, bits) = parted(numbers)?;
        Ok(Flip {
            column: parsed(column)?,
            row: parsed(row)?,
            bits: u16::from_str_radix(bits, 16)?,
        })
    }
}

impl Flip {
    // The first bit of a row is the highest. Where there is no such word, nothing is flipped.
    fn on<R: Raster>(&self, slab: &mut R) {
        let row = usize::from(self.row);
        let first = 32 * usize::from(self.column);
        // By its number: it names both a bit and the word that carries it.
        for k in 0..16 {
            if self.bits >> (15 - k) & 1 == 1 {
                let _ = flip_word(slab, row, first + 2 * k);
            }
        }
    }
}

fn flip_word<R: Raster>(slab: &mut R, row: usize, place: usize) -> Result<(), Fault> {
    let word = slab.look(row, place)?;
    slab.set(row, place, word % 2 == 0)
}

// Columns of a stripe.
#[derive(Clone, Copy)]
struct Span {
    stripe: u16,
    from: u16,
    to: u16,
}

impl FromStr for Span {
    type Err = anyhow::Error;

    fn from_str(numbers: &str) -> anyhow::Result<Span> {
        let (stripe, from, to) = parted(numbers)?;
        Ok(Span {
            stripe: parsed(stripe)?,
            from: parsed(from)?,
            to: parsed(to)?,
        })
    }
}

impl Span {
    fn place<R: Raster>(
        &self,
        picture: &Picture<'_>,
        slab: &mut R,
        image: &SealedImage,
        ends: &mut Ends,
    ) {
        let stripe = usize::from(self.stripe);
        for column in self.from..self.to {
            let record = record_at(self.stripe, column);
            ends.add(picture.place(stripe, usize::from(column), slab, image, &record));
        }
    }

    fn gather<R: Raster>(
        &self,
        gathering: &Gathering,
        slab: &R,
        table: &mut Table<'_, u32>,
        sheet: &mut Table<'_, Record>,
        ends: &mut Ends,
    ) {
        let stripe = usize::from(self.stripe);
        sheet.clear();
        for column in self.from..self.to {
            ends.add(gathering.gather(stripe, usize::from(column), slab, table, sheet));
        }
    }
}

// Zeros, but for mb_intra in odd columns, q_scale_code, which counts the stripes, and num_coef_bits, the columns.
fn record_at(stripe: u16, column: u16) -> Record {
    Record {
        mb_intra: column % 2 == 1,
        q_scale_code: (stripe % 32) as u8,
        num_coef_bits: column % 16384,
        ..Record::default()
    }
}

// How many calls were accepted, and how many refused with each number, of which 26 is the greatest.
#[derive(Drop)]
struct Ends {
    accepted: u32,
    refused: [u32; 27],
}

impl Ends {
    fn none() -> Ends {
        Ends {
            accepted: 0,
            refused: [0; 27],
        }
    }

    fn add<T: Drop>(&mut self, answer: Result<T, Fault>) {
        match answer {
            Ok(_) => self.accepted = self.accepted.saturating_add(1),
            Err(fault) => {
                let number = usize::from(fault.number());
                self.refused[number] = self.refused[number].saturating_add(1);
            }
        }
    }
}

impl fmt::Display for Ends {
    fn fmt<W: fmt::Write>(&self, f: &mut fmt::Formatter<W>) -> fmt::Result {
        let accepted = self.accepted;
        write!(f, "{accepted}")?;
        for (number, count) in self.refused.iter().enumerate() {
            if *count > 0 {
                write!(f, " !{number}={count}")?;
            }
        }
        Ok(())
    }
}
