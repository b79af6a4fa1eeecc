// The search for the lowest slot in a state.
ghost use Rattle.std.specs.Prelude.{◌≡◌};
ghost use Rattle.slots.specs.Slots.{lowest_in, Lowest};

use crate::{Slot, State};

// The number of the lowest slot in the state, or none.
pub fn lowest<V>(slots: &[Slot<V>], state: State) -> Option<usize>
    ensures answer { result ≡ lowest_in state slots.now }
    ensures lowest { Lowest state slots.now result }
{
    first_in(slots, state)
}

fn first_in<V>(slots: &[Slot<V>], state: State) -> Option<usize>
    ensures { Lowest state slots.now result }
{
    slots.iter().position(|slot| slot.state() == state)
}
