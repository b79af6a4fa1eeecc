// Answers about delivering: elements of an image and single values are offered to a table, and it is delivered.
ghost use Rattle.std.specs.Prelude.{◌≡◌, Some};
ghost use Rattle.fault.specs.Refusing.{done};
ghost use Rattle.image.specs.Image.{overwritten, blank_image};
ghost use Rattle.image.specs.Elements.{element_at};
ghost use Rattle.extractor.specs.Delivery.{delivering};

use crate::images::{Change, element_in, last_element, mend};
use crate::tables::Offer;
use cases::{Refusal, Stop, Words, parsed};
use extractor::deliver;
use fault::Fault;
use image::SealedImage;
use slots::{Table, empty_slots};
use std::alloc::Global;
use std::fmt;
use std::str::FromStr;

// What deliver answers over the blank image, and the check that the image has then.
pub fn deliver_case(heap: Global, case: &mut Words<'_>) -> Result<String, Stop> {
    let mut slots = empty_slots(heap, usize::from(case.take::<u16>()?))?;
    let mut table = Table::new(&mut slots);
    let mut bytes = *SealedImage::blank().bytes();
    for word in case.rest() {
        let step: Step = parsed(word)?;
        step.on(&mut table, &mut bytes)?;
    }
    let said = Delivered::of(&table);
    Ok(format!(in heap; "{said}")?)
}

// What comes before the delivery: the image's bits are inverted (15^40) or its check mended, its elements are offered (0:135 is
// all of them), or a value is (5=70).
#[derive(Clone, Copy)]
enum Step {
    Mend,
    Invert(Change),
    Elements { from: usize, to: usize },
    Offer(Offer),
}

impl FromStr for Step {
    type Err = anyhow::Error;

    fn from_str(word: &str) -> anyhow::Result<Step> {
        if word == "mend" {
            return Ok(Step::Mend);
        }
        if let Some((from, to)) = word.split_once(':') {
            return Ok(Step::Elements {
                from: parsed(from)?,
                to: parsed(to)?,
            });
        }
        match word.split_once('^') {
            Some((place, bits)) => Ok(Step::Invert(Change::at(place, bits)?)),
            None => Ok(Step::Offer(parsed(word)?)),
        }
    }
}

impl Step {
    fn on(&self, table: &mut Table<'_, u32>, bytes: &mut [u8; 540]) -> Result<(), Stop> {
        match self {
            Step::Mend => mend(bytes),
            Step::Invert(change) => change.invert(bytes)?,
            Step::Elements { from, to } => offer_elements(table, bytes, *from, *to)?,
            Step::Offer(offer) => offer.make(table)?,
        }
        Ok(())
    }
}

// Offers the elements from one index up to another, each to the slot of its index; from 135 on, where there is none, 0.
fn offer_elements(
    table: &mut Table<'_, u32>,
    bytes: &[u8; 540],
    from: usize,
    to: usize,
) -> Result<(), Fault> {
    for index in from..to {
        table.offer(index, element_in(bytes, index).unwrap_or(0))?;
    }
    Ok(())
}

// What a delivery over the blank image comes to, and the check that the image has then.
#[derive(Drop)]
pub struct Delivered {
    answer: Result<(), Fault>,
    check: u32,
}

impl Delivered {
    pub fn of(table: &Table<'_, u32>) -> Delivered
        ensures answer { result.answer ≡ done (delivering table.now.slots.now) }
        ensures check { element_at (overwritten (delivering table.now.slots.now) blank_image) 134 ≡ Some result.check }
    {
        let mut image = SealedImage::blank();
        let answer = deliver(table, &mut image);
        let check = last_element(&image);
        Delivered { answer, check }
    }
}

impl fmt::Display for Delivered {
    fn fmt<W: fmt::Write>(&self, f: &mut fmt::Formatter<W>) -> fmt::Result {
        let check = self.check;
        match self.answer {
            Ok(()) => write!(f, "delivered {check:08X}"),
            Err(fault) => {
                let refusal = Refusal(fault);
                write!(f, "{refusal} {check:08X}")
            }
        }
    }
}
