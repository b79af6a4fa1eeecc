// The whole picture: begun, and gathered from its three slabs.
ghost use Rattle.std.specs.Prelude.{◌≡◌, length, is_ok, if◌then◌else◌, Ok};
ghost use Rattle.slots.specs.Slots.{cleared};
ghost use Rattle.extractor.specs.Gather.{starting};
ghost use Rattle.bench.specs.Gather.{bench_picture, tallies_in, table_of, sheet_of};
ghost use Rattle.bench.specs.Memory.{memories, memory};

use crate::Slabs;
use crate::gather::gather_slab;
use extractor::{Gathering, start};
use fault::Fault;
use format::Format;
use record::Record;
use slots::{Slot, Table};
use tally::Tally;

// Begins to gather the picture that starts at reference 0, with a cleared table of elements.
pub fn start_picture(table: &mut Table<'_, u32>) -> Result<Gathering, Fault>
    ensures answer { result ≡ starting 4 0 (length table.old.slots.now) }
    ensures bench { length table.old.slots.now ≡ 135 → result ≡ Ok bench_picture }
    ensures table { table.new.slots.now ≡ (if is_ok result then cleared table.old.slots.now else table.old.slots.now) }
    ensures name { table.new.slots.ghost_name ≡ table.old.slots.ghost_name }
{
    start(Format::Bench.number(), 0, table)
}

// Gathers the macroblocks in order of position, and counts what came of each stripe. The sheet serves one stripe after the other.
pub fn gather_picture(
    gathering: &Gathering,
    slabs: &mut Slabs,
    table: &mut Table<'_, u32>,
    sheet: &mut [Slot<Record>],
) -> [Tally; 3]
    ensures tallies { result ≡ tallies_in gathering.now (memory slabs.old) (length table.old.slots.now) (length sheet.old) }
    ensures table { table.new.slots.now ≡ table_of gathering.now (memory slabs.old) (length sheet.old) table.old.slots.now }
    ensures sheet { sheet.new ≡ sheet_of gathering.now (memory slabs.old) (length table.old.slots.now) sheet.old }
    ensures slabs { memories slabs.new.stripes ≡ memories slabs.old.stripes }
    ensures name { table.new.slots.ghost_name ≡ table.old.slots.ghost_name }
{
    let mut tallies = [Tally::default(); 3];
    for (stripe, slab) in slabs.stripes.iter_mut().enumerate() {
        tallies[stripe] = gather_slab(gathering, stripe, &mut slab.bytes, table, sheet);
    }
    tallies
}
