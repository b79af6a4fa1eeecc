// Placing records on the macroblocks of a picture.
ghost use Rattle.std.specs.Prelude.{◌≡◌, ℕ, ◌<◌, Ok};
ghost use Rattle.format.specs.declared.table.Format.TheVariants.{Bench};
ghost use Rattle.bench.specs.Memory.{memory_in, memory};
ghost use Rattle.carry_picture.specs.Content.{block_at};
ghost use Rattle.carry_picture.specs.Stripe.{LadenSlab};

use crate::content::{BlankImage, zero_record};
use bench::{Slab, Slabs, Spot, Stripe, Writer, write_stripe};
use fault::Fault;
use format::Format;
use inserter::{Inserter, Picture};
use raster::Raster;

// The open picture, and the image under which records of zeros are placed.
#[derive(Drop)]
struct Placing<'a, 'p> {
    picture: &'a Picture<'p>,
    image: &'a BlankImage,
    ghost format: { picture.now.format ≡ Bench },
    ghost first: { picture.now.first ≡ 0 },
}

impl Writer for Placing<'_, '_> {
    ghost block = { block_at };

    fn write<R: Raster>(&self, slab: &mut R, spot: Spot) -> Result<(), Fault> {
        self.picture.place(
            spot.stripe.number,
            spot.column,
            slab,
            &self.image.sealed,
            &zero_record(),
        )
    }
}

// Places a record of zeros on every macroblock of a picture of three slabs, under the blank image.
pub(crate) fn place_picture(slabs: &mut Slabs) -> Result<(), Fault>
    ensures answer { result ≡ Ok tt }
    ensures laden { (stripe : ℕ) → stripe < 3 → LadenSlab stripe (memory slabs.old stripe) (memory slabs.new stripe) }
{
    let image = BlankImage::new();
    let mut inserter = Inserter::new(Format::Bench.number(), 0)?;
    let picture = inserter.counter.open();
    let placing = Placing {
        picture: &picture,
        image: &image,
    };
    place_stripes(&placing, &mut slabs.stripes)?;
    picture.close();
    Ok(())
}

// Each stripe in its slab. It takes an array, since the proof knows no length of one behind a field.
fn place_stripes(placing: &Placing<'_, '_>, slabs: &mut [Slab; 3]) -> Result<(), Fault>
    ensures answer { result ≡ Ok tt }
    ensures laden { (stripe : ℕ) → stripe < 3 → LadenSlab stripe (memory_in slabs.old stripe) (memory_in slabs.new stripe) }
{
    for (number, slab) in slabs.iter_mut().enumerate() {
        place_stripe(placing, slab, number)?;
    }
    Ok(())
}

fn place_stripe(placing: &Placing<'_, '_>, slab: &mut Slab, number: usize) -> Result<(), Fault>
    requires { number < 3 }
    ensures answer { result ≡ Ok tt }
    ensures laden { LadenSlab number slab.old.bytes.items slab.new.bytes.items }
{
    write_stripe(placing, slab, Stripe { number })
}
