// One stripe: writing the blocks, and reading them back.
ghost use Rattle.std.specs.Prelude.{◌≡◌, Ok};
ghost use Rattle.buffer.specs.Packed.{packed_at};
ghost use Rattle.bench.specs.Line.{line_of};
ghost use Rattle.bench.specs.Stripe.{Laden};
ghost use Rattle.carry.specs.Content.{block_in};

use crate::content::block_at;
use bench::{Reader, Slab, Spot, Stripe, StripeLine, Writer, stripe_line, write_stripe};
use block::{read_block, write_block};
use fault::Fault;
use raster::Raster;
use record::Block;

// The blocks of the picture, written and read as they are.
struct Blocks;

impl Writer for Blocks {
    ghost block = { block_in };

    fn write<R: Raster>(&self, slab: &mut R, spot: Spot) -> Result<(), Fault> {
        write_block(slab, spot.column, &block_at(spot))
    }
}

impl Reader for Blocks {
    ghost block = { block_in };

    fn block(&self, spot: Spot) -> Block {
        block_at(spot)
    }

    fn read<R: Raster>(&self, slab: &R, spot: Spot) -> Result<Block, Fault> {
        read_block(slab, spot.column)
    }
}

// Carries the blocks through one packed slab: `after` is written and read, and compared with `before`.
pub(crate) fn carry_stripe(
    stripe: Stripe,
    before: &mut Slab,
    after: &mut Slab,
) -> Result<StripeLine, Fault>
    ensures answer { result ≡ Ok (line_of stripe.number before.old.bytes.items after.new.bytes.items) }
    ensures before { before.new.bytes.items ≡ before.old.bytes.items }
    ensures laden { Laden block_in stripe.number 1440 45 (packed_at after.old.bytes.items 1440) (packed_at after.new.bytes.items 1440) }
{
    write_stripe(&Blocks, after, stripe)?;
    stripe_line(&Blocks, stripe, before, after)
}
