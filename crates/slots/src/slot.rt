// A slot, and what an offer makes of it.
ghost use Rattle.std.specs.Prelude.{◌≡◌};
ghost use Rattle.slots.specs.Slots.{states, state_of, offered, Listed};

use crate::same::Exact;

// Empty, held with the value that was offered, or disputed: unequal values were.
#[derive(Clone, Copy, Drop)]
pub enum Slot<V> {
    Empty,
    Held(V),
    Disputed,
}

// The kind of a slot, whatever value it holds.
#[derive(Clone, Copy, Debug, PartialEq, Eq)]
pub enum State {
    Empty,
    Held,
    Disputed,
}

impl State {
    // Every state once.
    pub fn all() -> [State; 3]
        ensures answer { result ≡ states }
        ensures listed { Listed }
    {
        [State::Empty, State::Held, State::Disputed]
    }
}

impl<V> Slot<V> {
    pub fn state(&self) -> State
        ensures { result ≡ state_of self.now }
    {
        match self {
            Slot::Empty => State::Empty,
            Slot::Held(_) => State::Held,
            Slot::Disputed => State::Disputed,
        }
    }
}

impl<V: Exact> Slot<V> {
    // The slot after a value is offered.
    pub fn offered(self, value: V) -> Slot<V>
        ensures { result ≡ offered V.Exact.same self value }
    {
        match self {
            Slot::Empty => Slot::Held(value),
            Slot::Held(held) if held.is_same(&value) => Slot::Held(held),
            Slot::Held(_) | Slot::Disputed => Slot::Disputed,
        }
    }
}
