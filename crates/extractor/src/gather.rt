// Gathering the elements and records of a picture.
ghost use Rattle.std.specs.Prelude.{◌≡◌, ◌+◌, ◌*◌, ◌<◌, ◌≤◌, true, false, length, is_ok, IfOk, if◌then◌else◌};
ghost use Rattle.format.specs.Formats.{in_format, index_of};
ghost use Rattle.column.specs.Column.{carried_rows};
ghost use Rattle.slots.specs.Slots.{cleared};
ghost use Rattle.extractor.specs.Reading.{BurstIn};
ghost use Rattle.extractor.specs.Gather.{settled, starting, admitted, then_block, expected, gathered, elements_after, sheet_after};

use crate::Gathering;
use block::read_block;
use fault::Fault;
use format::{ELEMENTS, Format, first_reference};
use raster::{Extent, Raster};
use record::{Block, Record};
use slots::Table;

// Begins to gather a picture of a format from a first reference, with a cleared table of elements. Both come as numbers, since to refuse
// those that are neither (3 and 4) is part of the call.
pub fn start(number: u32, first: u32, table: &mut Table<'_, u32>) -> Result<Gathering, Fault>
    ensures answer { result ≡ starting number first (length table.old.slots.now) }
    ensures table { table.new.slots.now ≡ (if is_ok result then cleared table.old.slots.now else table.old.slots.now) }
    ensures name { table.new.slots.ghost_name ≡ table.old.slots.ghost_name }
{
    let gathering = begun(number, first, (*table).len())?;
    table.clear();
    Ok(gathering)
}

// The refusals of a start, with a table of so many slots.
fn begun(number: u32, first: u32, slots: usize) -> Result<Gathering, Fault>
    ensures { result ≡ starting number first slots }
{
    let format = Format::try_from(number)?;
    let first = first_reference(first)?;
    if slots != ELEMENTS {
        return Err(Fault::Length);
    }
    Ok(Gathering { format, first })
}

impl Gathering {
    // Gathers a macroblock: reads its block, offers the element to the table and the record to the stripe's sheet.
    // No block passes that differs from a well-formed one within two neighbouring rows only.
    pub fn gather<R: Raster>(
        &self,
        stripe: usize,
        column: usize,
        slab: &R,
        table: &mut Table<'_, u32>,
        sheet: &mut Table<'_, Record>,
    ) -> Result<Block, Fault>
        ensures answer { result ≡ gathered self.now stripe column (R.Raster.rows slab.now) (R.Raster.words slab.now) (R.Raster.at slab.now) (length table.old.slots.now) (length sheet.old.slots.now) }
        ensures table { table.new.slots.now ≡ settled result table.old.slots.now (elements_after stripe column table.old.slots.now) }
        ensures sheet { sheet.new.slots.now ≡ settled result sheet.old.slots.now (sheet_after column sheet.old.slots.now) }
        ensures burst { BurstIn (carried_rows (R.Raster.at slab.now) column) → is_ok result ≡ false }
        ensures table_name { table.new.slots.ghost_name ≡ table.old.slots.ghost_name }
        ensures sheet_name { sheet.new.slots.ghost_name ≡ sheet.old.slots.ghost_name }
    {
        self.take(stripe, column, slab, table, sheet)
    }

    fn take<R: Raster>(
        &self,
        stripe: usize,
        column: usize,
        slab: &R,
        table: &mut Table<'_, u32>,
        sheet: &mut Table<'_, Record>,
    ) -> Result<Block, Fault>
        ensures answer { result ≡ gathered self.now stripe column (R.Raster.rows slab.now) (R.Raster.words slab.now) (R.Raster.at slab.now) (length table.old.slots.now) (length sheet.old.slots.now) }
        ensures table { table.new.slots.now ≡ settled result table.old.slots.now (elements_after stripe column table.old.slots.now) }
        ensures sheet { sheet.new.slots.now ≡ settled result sheet.old.slots.now (sheet_after column sheet.old.slots.now) }
        ensures table_name { table.new.slots.ghost_name ≡ table.old.slots.ghost_name }
        ensures sheet_name { sheet.new.slots.ghost_name ≡ sheet.old.slots.ghost_name }
    {
        let (index, block) = self.judge(stripe, column, slab, (*table).len(), (*sheet).len())?;
        table.offer(index, block.element)?;
        sheet.offer(column, block.record)?;
        Ok(block)
    }

    // The block of a macroblock, and where its element belongs.
    fn judge<R: Raster>(
        &self,
        stripe: usize,
        column: usize,
        slab: &R,
        slots: usize,
        sheet: usize,
    ) -> Result<(usize, Block), Fault>
        ensures answer { then_block result ≡ gathered self.now stripe column (R.Raster.rows slab.now) (R.Raster.words slab.now) (R.Raster.at slab.now) slots sheet }
        ensures there { IfOk result (λ x. (x.0 ≡ index_of stripe column) × (x.0 < slots) × (column < sheet)) }
    {
        let index = self.admit(stripe, column, slab.extent(), slots, sheet)?;
        let block = self.expect(stripe, column, read_block(slab, column)?)?;
        Ok((index, block))
    }

    // Where the element of a macroblock belongs, in a table of so many slots.
    fn admit(
        &self,
        stripe: usize,
        column: usize,
        slab: Extent,
        slots: usize,
        sheet: usize,
    ) -> Result<usize, Fault>
        ensures answer { result ≡ admitted self.now stripe column slab.rows slab.words slots sheet }
        ensures there { IfOk result (λ index. (index ≡ index_of stripe column) × (in_format self.now.format stripe column ≡ true) × (index < slots) × (column < sheet) × (32 * column + 32 ≤ slab.words) × (slab.rows ≡ 16)) }
    {
        if slots != ELEMENTS {
            return Err(Fault::Length);
        }
        if sheet != self.format.columns() {
            return Err(Fault::Length);
        }
        if !self.format.fits_slab(slab) {
            return Err(Fault::SlabExtent);
        }
        self.format.index(stripe, column)
    }

    // A block that was read, if it is the one that is due.
    fn expect(&self, stripe: usize, column: usize, block: Block) -> Result<Block, Fault>
        requires { in_format self.now.format stripe column ≡ true }
        ensures { result ≡ expected self.now stripe column block }
    {
        if block.picture.fr_fl_srib != self.format.is_frame() {
            return Err(Fault::FrameOrField);
        }
        if block.reference != self.format.reference(self.first, stripe, column)? {
            return Err(Fault::UnexpectedReference);
        }
        Ok(block)
    }
}
