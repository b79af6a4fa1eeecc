// A block in a column of any slab.
ghost use Rattle.std.specs.Prelude.{◌≡◌, ℕ, ◌<◌, ◌≤◌, is_ok, IfOk, if◌then◌else◌, Ok};
ghost use Rattle.column.specs.Column.{within, embedded, OthersKept, OnlyLowBits, FewDiffer};
ghost use Rattle.block.specs.Code.{rows_of, decoded};
ghost use Rattle.fault.specs.Refusing.{done};
ghost use Rattle.block.specs.Slab.{writable, readable};

use crate::code::{decode, encode};
use column::{carried, check_column, embed};
use fault::Fault;
use raster::{Extent, Raster};
use record::Block;

// Writes a block in a column. Reading then answers it, if its reference is at most 65520, and nothing moves but what embedding moves.
pub fn write_block<R: Raster>(slab: &mut R, column: usize, block: &Block) -> Result<(), Fault>
    ensures answer { result ≡ done (writable (R.Raster.rows slab.old) (R.Raster.words slab.old) column block.now) }
    ensures kept { R.Raster.kept slab.old slab.new }
    ensures after { (i j : ℕ) → i < R.Raster.rows slab.old → j < R.Raster.words slab.old → R.Raster.at slab.new i j ≡ (if is_ok result then embedded (R.Raster.at slab.old) column (rows_of block.now) i j else R.Raster.at slab.old i j) }
    ensures reads { result ≡ Ok tt → block.now.reference ≤ 65520 → readable (R.Raster.rows slab.new) (R.Raster.words slab.new) column (R.Raster.at slab.new) ≡ Ok block.now }
    ensures others { OthersKept (R.Raster.at slab.old) (R.Raster.at slab.new) (R.Raster.rows slab.old) (R.Raster.words slab.old) column }
    ensures only { OnlyLowBits (R.Raster.at slab.old) (R.Raster.at slab.new) (R.Raster.rows slab.old) (R.Raster.words slab.old) column }
    ensures few { FewDiffer (R.Raster.at slab.old) (R.Raster.at slab.new) (R.Raster.rows slab.old) (R.Raster.words slab.old) }
{
    let rows = rows_for(slab.extent(), column, block)?;
    embed(slab, column, &rows)
}

// The rows to embed, once slab, column and record are judged.
fn rows_for(extent: Extent, column: usize, block: &Block) -> Result<[u16; 16], Fault>
    ensures answer { result ≡ writable extent.rows extent.words column block.now }
    ensures rows { IfOk result (λ rows. (rows ≡ rows_of block.now) × (within {A = Unit {0}} extent.rows extent.words column tt ≡ Ok tt)) }
    ensures back { block.now.reference ≤ 65520 → IfOk result (λ rows. decoded rows ≡ Ok block.now) }
{
    check_column(extent, column)?;
    encode(block)
}

// The block that a column carries.
pub fn read_block<R: Raster>(slab: &R, column: usize) -> Result<Block, Fault>
    ensures { result ≡ readable (R.Raster.rows slab.now) (R.Raster.words slab.now) column (R.Raster.at slab.now) }
{
    let rows = carried(slab, column)?;
    decode(&rows)
}
