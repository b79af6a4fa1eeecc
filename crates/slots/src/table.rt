// A table over a caller's slots: its methods pass the slice on.
ghost use Rattle.std.specs.Prelude.{◌≡◌, ℕ, ◌≤◌, length, OnOk, ◌≢◌, slice_index_or};
ghost use Rattle.slots.specs.declared.slot.Slot.TheVariants.{Empty};
ghost use Rattle.slots.specs.Slots.{cleared, offered_at, lowest_in, numbered, slot_at, Lowest, Settled, OffersSettle};

use crate::same::Exact;
use crate::search::lowest;
use crate::{Slot, State};
use fault::Fault;

#[derive(Drop)]
pub struct Table<'a, V> {
    slots: &'a mut [Slot<V>],
}

impl<'a, V> Table<'a, V> {
    pub fn new(slots: &'a mut [Slot<V>]) -> Table<'a, V>
        ensures slots { result.slots.now ≡ slots.old }
        ensures name { result.slots.ghost_name ≡ slots.entry.ghost_name }
    {
        Table { slots }
    }
}

impl<V> Table<'_, V> {
    // How many slots it has.
    pub fn len(&self) -> usize
        ensures { result ≡ length self.now.slots.now }
    {
        self.slots.len()
    }

    // The number of the lowest slot in the state, or none.
    pub fn lowest(&self, state: State) -> Option<usize>
        ensures answer { result ≡ lowest_in state self.now.slots.now }
        ensures lowest { Lowest state self.now.slots.now result }
    {
        lowest(self.slots, state)
    }
}

impl<V: Copy> Table<'_, V> {
    // Empties every slot.
    pub fn clear(&mut self)
        ensures slots { self.new.slots.now ≡ cleared self.old.slots.now }
        ensures name { self.new.slots.ghost_name ≡ self.old.slots.ghost_name }
    {
        self.slots.fill(Slot::Empty);
    }

    // The slot of a number. Refuses a number outside.
    pub fn slot(&self, number: usize) -> Result<Slot<V>, Fault>
        ensures { result ≡ slot_at self.now.slots.now number }
    {
        slot_at(self.slots, number)
    }
}

impl<V: Exact> Table<'_, V> {
    // Offers a value to the slot of a number. Refuses a number outside, and then writes nothing.
    pub fn offer(&mut self, number: usize, value: V) -> Result<(), Fault>
        ensures answer { result ≡ numbered (length self.old.slots.now) number tt }
        ensures slots { self.new.slots.now ≡ offered_at V.Exact.same self.old.slots.now number value }
        ensures name { self.new.slots.ghost_name ≡ self.old.slots.ghost_name }
        ensures settled { OnOk result (Settled (slice_index_or self.old.slots.now number Empty) value (slice_index_or self.new.slots.now number Empty)) }
        ensures others { (k : ℕ) → (k ≢ number) → slice_index_or self.new.slots.now k Empty ≡ slice_index_or self.old.slots.now k Empty }
        ensures refused { length self.old.slots.now ≤ number → self.new.slots.now ≡ self.old.slots.now }
        ensures run { OffersSettle V.Exact.same }
    {
        offer_at(self.slots, number, value)
    }
}

fn slot_at<V: Copy>(slots: &[Slot<V>], number: usize) -> Result<Slot<V>, Fault>
    ensures { result ≡ slot_at slots.now number }
{
    slots.get(number).copied().ok_or(Fault::SlotNumber)
}

fn offer_at<V: Exact>(slots: &mut [Slot<V>], number: usize, value: V) -> Result<(), Fault>
    ensures answer { result ≡ numbered (length slots.old) number tt }
    ensures slots { slots.new ≡ offered_at V.Exact.same slots.old number value }
{
    // By get_mut the proof did not close: what it leaves of the slots hangs on a loan's end.
    let slot = slot_at(slots, number)?;
    slots[number] = slot.offered(value);
    Ok(())
}
