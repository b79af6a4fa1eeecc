// Answers about placing: a record on a macroblock of a new picture.
ghost use Rattle.std.specs.Prelude.{◌≡◌, min, Ok};
ghost use Rattle.raster.specs.Difference.{differing};

use crate::images::image_of;
use crate::memory::{OnSlab, Slab, SlabCase};
use cases::{Refusal, Stop, Words};
use fault::Fault;
use image::SealedImage;
use inserter::Inserter;
use raster::{Raster, count_differing};
use record::Record;
use std::alloc::Global;

// How many words moved, or the refusal; and the check of all the memory afterwards.
pub fn place_case(heap: Global, case: &mut Words<'_>) -> Result<String, Stop> {
    let slab = SlabCase::of(case)?;
    let placing = Placing::of(case)?;
    let image = image_of(heap, case.rest())?;
    let mut before = slab.filled(heap)?;
    let mut after = before.clone()?;
    let moved = after.lend(Placed {
        placing,
        image: &image,
        before: &mut before,
    });
    let digest = after.check();
    match moved {
        Ok(count) => Ok(format!(in heap; "placed {count} {digest:08X}")?),
        Err(fault) => {
            let refusal = Refusal(fault);
            Ok(format!(in heap; "{refusal} {digest:08X}")?)
        }
    }
}

// What is placed, and where.
#[derive(Drop)]
struct Placing {
    // It may be no format's, and the first reference too large: the calls refuse them.
    number: u32,
    first: u32,
    stripe: usize,
    column: usize,
    record: Record,
}

impl Placing {
    fn of(case: &mut Words<'_>) -> anyhow::Result<Placing> {
        Ok(Placing {
            number: case.take()?,
            first: case.take()?,
            stripe: case.take()?,
            column: case.take()?,
            record: case.record()?,
        })
    }

    fn place<R: Raster>(&self, slab: &mut R, image: &SealedImage) -> Result<(), Fault> {
        let mut inserter = Inserter::new(self.number, self.first)?;
        let picture = inserter.counter.open();
        picture.place(self.stripe, self.column, slab, image, &self.record)
    }
}

// Places in a slab, and counts the words that differ from those before.
#[derive(Drop)]
struct Placed<'a> {
    placing: Placing,
    image: &'a SealedImage,
    before: &'a mut Slab,
}

impl OnSlab for Placed<'_> {
    type Said = Result<u128, Fault>;

    fn on<R: Raster>(self, slab: &mut R) -> Result<u128, Fault> {
        self.placing.place(slab, self.image)?;
        self.before.lend(Differing(&*slab))
    }
}

// Counts the words in which a slab differs from another.
#[derive(Drop)]
struct Differing<'a, P>(&'a P);

impl<P: Raster> OnSlab for Differing<'_, P> {
    type Said = Result<u128, Fault>;

    ghost says = { λ other rows words at said. said ≡ Ok (differing at (P.Raster.at other.0.now) (min rows (P.Raster.rows other.0.now)) (min words (P.Raster.words other.0.now))) };

    fn on<R: Raster>(self, slab: &mut R) -> Result<u128, Fault> {
        count_differing(&*slab, self.0)
    }
}
