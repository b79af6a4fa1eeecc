// Delivering a picture's image.
ghost use Rattle.std.specs.Prelude.{◌≡◌, ℕ, ◌<◌, List, map, length, is_ok, Ok, Decides, slice_index_or};
ghost use Rattle.slots.specs.declared.slot.Slot.TheVariants.{Empty};
ghost use Rattle.fault.specs.Refusing.{done};
ghost use Rattle.image.specs.Image.{overwritten};
ghost use Rattle.image.specs.Elements.{elements_of, joined};
ghost use Rattle.extractor.specs.Delivery.{held_in, collected, delivering, Whole};

use fault::Fault;
use format::ELEMENTS;
use image::{SealedImage, join};
use slots::{Slot, State, Table};

// Joins the elements of a table and overwrites the image with them, or refuses and leaves it. It accepts exactly the tables that hold all
// elements of a sealed image.
pub fn deliver(table: &Table<'_, u32>, image: &mut SealedImage) -> Result<(), Fault>
    ensures answer { result ≡ done (delivering table.now.slots.now) }
    ensures image { image.new.bytes ≡ overwritten (delivering table.now.slots.now) image.old.bytes }
    ensures accepts { Decides (is_ok result) (Whole table.now.slots.now) }
{
    deliver_elements(table, image)
}

// The same. Elements that were collected come back from what they join to.
fn deliver_elements(table: &Table<'_, u32>, image: &mut SealedImage) -> Result<(), Fault>
    ensures answer { result ≡ done (delivering table.now.slots.now) }
    ensures image { image.new.bytes ≡ overwritten (delivering table.now.slots.now) image.old.bytes }
    ensures back { (elements : List ℕ) → collected table.now.slots.now ≡ Ok elements → elements_of (joined elements) ≡ elements }
{
    let elements = collect(table)?;
    image.receive(&join(&elements))
}

// The elements that the slots hold, if each holds one.
fn collect(table: &Table<'_, u32>) -> Result<[u32; 135], Fault>
    ensures { result ≡ collected table.now.slots.now }
{
    if table.len() != ELEMENTS {
        return Err(Fault::Length);
    }
    if let Some(slot) = table.lowest(State::Empty) {
        return Err(Fault::EmptySlot(slot));
    }
    if let Some(slot) = table.lowest(State::Disputed) {
        return Err(Fault::DisputedSlot(slot));
    }
    Ok(elements_in(table))
}

// What the slots hold, each of which holds an element.
fn elements_in(table: &Table<'_, u32>) -> [u32; 135]
    requires { length table.now.slots.now ≡ 135 }
    ensures { result ≡ map held_in table.now.slots.now }
{
    std::array::from_fn(|i| element_at(table, i))
}

fn element_at(table: &Table<'_, u32>, i: usize) -> u32
    requires { i < length table.now.slots.now }
    ensures { result ≡ held_in (slice_index_or table.now.slots.now i Empty) }
{
    held_in(table.slot(i).unwrap())
}

// The element that a slot holds. No option: where this is called each slot holds one, as `collect` has judged, so that the 0 is never read.
fn held_in(slot: Slot<u32>) -> u32
    ensures { result ≡ held_in slot }
{
    match slot {
        Slot::Held(element) => element,
        Slot::Empty | Slot::Disputed => 0,
    }
}
