// Gathering what was placed.
ghost use Rattle.std.specs.Prelude.{◌≡◌, Ok, count_by};
ghost use Rattle.bench.specs.Memory.{memories, memory};
ghost use Rattle.carry_picture.specs.Picture.{is_held, held_in, gathered_of};

use crate::line::PictureLine;
use bench::{Slabs, gather_picture, start_picture};
use fault::Fault;
use slots::{Slot, State, Table};

// Gathers the picture that the slabs hold, and counts the gathers that are accepted and the slots that are then held.
pub(crate) fn gather_line(slabs: &mut Slabs) -> Result<PictureLine, Fault>
    ensures answer { result ≡ Ok (gathered_of (memory slabs.old)) }
    ensures slabs { memories slabs.new.stripes ≡ memories slabs.old.stripes }
{
    let mut slots = [Slot::Empty; 135];
    let mut sheet = [Slot::Empty; 45];
    let mut table = Table::new(&mut slots);
    let gathering = start_picture(&mut table)?;
    let [first, second, third] = gather_picture(&gathering, slabs, &mut table, &mut sheet);
    let gathered = first.good + second.good + third.good;
    let held = count_held(&slots);
    Ok(PictureLine { gathered, held })
}

// How many slots hold an element.
fn count_held(slots: &[Slot<u32>]) -> usize
    ensures { result ≡ held_in slots.now }
{
    slots.iter().filter(|slot| is_held(slot)).count()
}

fn is_held(slot: &Slot<u32>) -> bool
    ensures { result ≡ is_held slot.now }
{
    slot.state() == State::Held
}
