// Gathering a slab in packed memory.
ghost use Rattle.std.specs.Prelude.{◌≡◌, ◌≤◌, length};
ghost use Rattle.bench.specs.Gather.{tally_in, table_after, sheet_after};

use crate::slab::slab_in;
use extractor::Gathering;
use record::Record;
use slots::{Slot, Table};
use tally::{Tally, gather_stripe};

// Gathers the stripe that the memory holds, with a cleared sheet, and counts what came of it.
pub fn gather_slab(
    gathering: &Gathering,
    stripe: usize,
    memory: &mut [u8],
    table: &mut Table<'_, u32>,
    sheet: &mut [Slot<Record>],
) -> Tally
    ensures tally { result ≡ tally_in gathering.now stripe memory.old (length table.old.slots.now) (length sheet.old) }
    ensures few { result.good ≤ length sheet.old }
    ensures memory { memory.new ≡ memory.old }
    ensures table { table.new.slots.now ≡ table_after gathering.now stripe memory.old (length sheet.old) table.old.slots.now }
    ensures slots { length table.new.slots.now ≡ length table.old.slots.now }
    ensures sheet { sheet.new ≡ sheet_after gathering.now stripe memory.old (length table.old.slots.now) sheet.old }
    ensures name { table.new.slots.ghost_name ≡ table.old.slots.ghost_name }
{
    let slab = slab_in(memory);
    let mut records = Table::new(sheet);
    records.clear();
    gather_stripe(gathering, stripe, &slab, table, &mut records)
}
