// Slots, which hold a value that was offered, or the fact that unequal values were, and tables of them.
#![tactic(auto)]

mod empty;
mod same;
mod search;
mod slot;
mod table;

pub use empty::empty_slots;
pub use same::Exact;
pub use search::lowest;
pub use slot::{Slot, State};
pub use table::Table;
