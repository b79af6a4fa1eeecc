// Gathering a stripe.
ghost use Rattle.std.specs.Prelude.{◌≡◌, length};
ghost use Rattle.slots.specs.declared.slot.State.{State};
ghost use Rattle.slots.specs.Slots.{lowest_in};
ghost use Rattle.tally.specs.Stripe.{answers_along, tallied, elements_offered, records_offered};

use crate::{Kind, Tally};
use extractor::Gathering;
use raster::Raster;
use record::Record;
use slots::{State, Table};

// Gathers the macroblocks of a stripe in order, as many as its sheet has slots, and counts what came of it.
pub fn gather_stripe<R: Raster>(
    gathering: &Gathering,
    stripe: usize,
    slab: &R,
    table: &mut Table<'_, u32>,
    sheet: &mut Table<'_, Record>,
) -> Tally
    ensures tally { result ≡ tallied (answers_along gathering.now stripe (R.Raster.rows slab.now) (R.Raster.words slab.now) (R.Raster.at slab.now) (length table.old.slots.now) (length sheet.old.slots.now)) (length sheet.old.slots.now) }
    ensures table { table.new.slots.now ≡ elements_offered (answers_along gathering.now stripe (R.Raster.rows slab.now) (R.Raster.words slab.now) (R.Raster.at slab.now) (length table.old.slots.now) (length sheet.old.slots.now)) stripe (length sheet.old.slots.now) table.old.slots.now }
    ensures sheet { sheet.new.slots.now ≡ records_offered (answers_along gathering.now stripe (R.Raster.rows slab.now) (R.Raster.words slab.now) (R.Raster.at slab.now) (length table.old.slots.now) (length sheet.old.slots.now)) (length sheet.old.slots.now) sheet.old.slots.now }
    ensures table_name { table.new.slots.ghost_name ≡ table.old.slots.ghost_name }
    ensures sheet_name { sheet.new.slots.ghost_name ≡ sheet.old.slots.ghost_name }
{
    let mut tally = Tally::default();
    for column in 0..(*sheet).len() {
        let answer = gathering.gather(stripe, column, slab, table, sheet);
        tally = tally.told(Kind::from(&answer));
    }
    tally
}

// The lowest column of a stripe whose sheet has no record, or none if each has one.
pub fn first_missing(sheet: &Table<'_, Record>) -> Option<usize>
    ensures { result ≡ lowest_in State.Empty sheet.now.slots.now }
{
    sheet.lowest(State::Empty)
}
