// Reading one block.
ghost use Rattle.std.specs.Prelude.{◌≡◌, false, is_ok, Decides};
ghost use Rattle.column.specs.Column.{carried_rows};
ghost use Rattle.extractor.specs.Reading.{reading_in, reading, Readable, BurstIn};

use block::read_block;
use fault::Fault;
use format::Format;
use raster::Raster;
use record::Block;

// The block that a column carries, in a slab of the format of that number. It accepts exactly the well-formed blocks, and
// none that differs from a well-formed one within two neighbouring rows only. That the number may be no format's (3) is part of the call.
pub fn read<R: Raster>(number: u32, column: usize, slab: &R) -> Result<Block, Fault>
    ensures answer { result ≡ reading number column (R.Raster.rows slab.now) (R.Raster.words slab.now) (R.Raster.at slab.now) }
    ensures accepts { Decides (is_ok result) (Readable number column (R.Raster.rows slab.now) (R.Raster.words slab.now) (R.Raster.at slab.now)) }
    ensures burst { BurstIn (carried_rows (R.Raster.at slab.now) column) → is_ok result ≡ false }
{
    read_numbered(number, column, slab)
}

fn read_numbered<R: Raster>(number: u32, column: usize, slab: &R) -> Result<Block, Fault>
    ensures { result ≡ reading number column (R.Raster.rows slab.now) (R.Raster.words slab.now) (R.Raster.at slab.now) }
{
    let format = Format::try_from(number)?;
    read_in(format, column, slab)
}

// The same in a format.
fn read_in<R: Raster>(format: Format, column: usize, slab: &R) -> Result<Block, Fault>
    ensures { result ≡ reading_in format column (R.Raster.rows slab.now) (R.Raster.words slab.now) (R.Raster.at slab.now) }
{
    if !format.fits_slab(slab.extent()) {
        return Err(Fault::SlabExtent);
    }
    if column >= format.columns() {
        return Err(Fault::NotInFormat);
    }
    read_block(slab, column)
}
