// Carrying blocks through the slab of a stripe: writing them, reading them back, and saying what moved.
ghost use Rattle.std.specs.Prelude.{◌≡◌, ℕ, ◌<◌, length, Ok};
ghost use Rattle.raster.specs.Difference.{differing};
ghost use Rattle.column.specs.Column.{carried_rows};
ghost use Rattle.record.specs.declared.record.Block.{Block};
ghost use Rattle.block.specs.Code.{decoded};
ghost use Rattle.buffer.specs.Packed.{packed_at};
ghost use Rattle.bench.specs.Stripe.{Reads, reads, count_read, Written, Laden};
ghost use Rattle.bench.specs.Line.{line_of};

use crate::line::StripeLine;
use crate::moved::count_moved;
use crate::slab::slab_in;
use crate::slabs::Slab;
use crate::spot::{Spot, Stripe};
use exact::is_same;
use fault::Fault;
use format::Format;
use raster::Raster;
use record::Block;

// A call that writes the block of each macroblock of the bench picture.
// What it promises is of a raster of 16 rows and 1440 words.
pub trait Writer {
    // The block of a stripe and a column.
    ghost block: { ℕ → ℕ → Block };

    fn write<R: Raster>(&self, slab: &mut R, spot: Spot) -> Result<(), Fault>
        ensures answer { R.Raster.rows slab.old ≡ 16 → R.Raster.words slab.old ≡ 1440 → result ≡ Ok tt }
        ensures kept { R.Raster.kept slab.old slab.new }
        ensures one { R.Raster.rows slab.old ≡ 16 → R.Raster.words slab.old ≡ 1440 → Written block spot.stripe.number spot.column 1440 (R.Raster.at slab.old) (R.Raster.at slab.new) };
}

// A call that reads a macroblock of the bench picture, and the block that it is to answer.
pub trait Reader {
    // The block of a stripe and a column.
    ghost block: { ℕ → ℕ → Block };

    fn block(&self, spot: Spot) -> Block
        ensures { result ≡ block spot.stripe.number spot.column };

    fn read<R: Raster>(&self, slab: &R, spot: Spot) -> Result<Block, Fault>
        ensures { R.Raster.rows slab.now ≡ 16 → R.Raster.words slab.now ≡ 1440 → result ≡ decoded (carried_rows (R.Raster.at slab.now) spot.column) };
}

// Writes each macroblock's block.
pub fn write_stripe<W: Writer>(writer: &W, slab: &mut Slab, stripe: Stripe) -> Result<(), Fault>
    ensures answer { result ≡ Ok tt }
    ensures laden { Laden W.block stripe.number 1440 45 (packed_at slab.old.bytes.items 1440) (packed_at slab.new.bytes.items 1440) }
{
    write_in(writer, &mut slab.bytes, stripe)
}

// Over the slab's bytes, since the proof does not close where the buffer over them lives in the function that has the slab.
fn write_in<W: Writer>(writer: &W, memory: &mut [u8], stripe: Stripe) -> Result<(), Fault>
    requires { length memory.old ≡ 28800 }
    ensures answer { result ≡ Ok tt }
    ensures laden { Laden W.block stripe.number 1440 45 (packed_at memory.old 1440) (packed_at memory.new 1440) }
{
    let mut slab = slab_in(memory);
    write_columns(writer, &mut slab, stripe)
}

fn write_columns<W: Writer, R: Raster>(
    writer: &W,
    slab: &mut R,
    stripe: Stripe,
) -> Result<(), Fault>
    requires { (R.Raster.rows slab.old ≡ 16) × (R.Raster.words slab.old ≡ 1440) }
    ensures answer { result ≡ Ok tt }
    ensures kept { R.Raster.kept slab.old slab.new }
    ensures laden { Laden W.block stripe.number 1440 45 (R.Raster.at slab.old) (R.Raster.at slab.new) }
{
    for column in 0..Format::Bench.columns() {
        writer.write(slab, Spot { stripe, column })?;
    }
    Ok(())
}

// How many macroblocks of a slab are read as their blocks.
pub fn count_read<C: Reader>(reader: &C, slab: &mut Slab, stripe: Stripe) -> usize
    ensures answer { result ≡ count_read C.block (packed_at slab.old.bytes.items 1440) stripe.number 45 }
    ensures slab { slab.new.bytes.items ≡ slab.old.bytes.items }
{
    count_in(reader, &mut slab.bytes, stripe)
}

// Over the slab's bytes, as `write_in`.
fn count_in<C: Reader>(reader: &C, memory: &mut [u8], stripe: Stripe) -> usize
    requires { length memory.old ≡ 28800 }
    ensures answer { result ≡ count_read C.block (packed_at memory.old 1440) stripe.number 45 }
    ensures memory { memory.new ≡ memory.old }
{
    let slab = slab_in(memory);
    count_columns(reader, &slab, stripe)
}

fn count_columns<C: Reader, R: Raster>(reader: &C, slab: &R, stripe: Stripe) -> usize
    requires { (R.Raster.rows slab.now ≡ 16) × (R.Raster.words slab.now ≡ 1440) }
    ensures { result ≡ count_read C.block (R.Raster.at slab.now) stripe.number 45 }
{
    (0..Format::Bench.columns())
        .filter(|column| reads_back(reader, slab, stripe, *column))
        .count()
}

// Whether a macroblock is read as its block. It takes a column and no spot: in the closure of a filter the proof does not find a spot's invariant.
fn reads_back<C: Reader, R: Raster>(reader: &C, slab: &R, stripe: Stripe, column: usize) -> bool
    requires { (column < 45) × ((R.Raster.rows slab.now ≡ 16) × (R.Raster.words slab.now ≡ 1440)) }
    ensures { result ≡ reads C.block (R.Raster.at slab.now) stripe.number column }
{
    let spot = Spot { stripe, column };
    match reader.read(slab, spot) {
        Ok(block) => is_same(&block, &reader.block(spot)),
        Err(_) => false,
    }
}

// The line of a stripe: `after` is read, and compared with `before`.
pub fn stripe_line<C: Reader>(
    reader: &C,
    stripe: Stripe,
    before: &mut Slab,
    after: &mut Slab,
) -> Result<StripeLine, Fault>
    ensures answer { result ≡ Ok (record { stripe = stripe.number; moved = differing (packed_at before.old.bytes.items 1440) (packed_at after.old.bytes.items 1440) 16 1440; read = count_read C.block (packed_at after.old.bytes.items 1440) stripe.number 45 }) }
    ensures all { ((c : ℕ) → c < 45 → Reads C.block (packed_at after.old.bytes.items 1440) stripe.number c) → result ≡ Ok (line_of stripe.number before.old.bytes.items after.old.bytes.items) }
    ensures before { before.new.bytes.items ≡ before.old.bytes.items }
    ensures after { after.new.bytes.items ≡ after.old.bytes.items }
{
    counted(reader, stripe, before, after)
}

// In a function that needs no answer of ours, so that a wrong body is refused here and not in the answer of `stripe_line`.
fn counted<C: Reader>(
    reader: &C,
    stripe: Stripe,
    before: &mut Slab,
    after: &mut Slab,
) -> Result<StripeLine, Fault>
    ensures answer { result ≡ Ok (record { stripe = stripe.number; moved = differing (packed_at before.old.bytes.items 1440) (packed_at after.old.bytes.items 1440) 16 1440; read = count_read C.block (packed_at after.old.bytes.items 1440) stripe.number 45 }) }
    ensures before { before.new.bytes.items ≡ before.old.bytes.items }
    ensures after { after.new.bytes.items ≡ after.old.bytes.items }
{
    let read = count_read(reader, after, stripe);
    let moved = count_moved(&mut before.bytes, &mut after.bytes)?;
    Ok(StripeLine {
        stripe: stripe.number,
        moved,
        read,
    })
}
