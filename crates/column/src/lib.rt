// Columns: how the 16 rows of 16 bits of a block travel in one column of a slab.
#![tactic(auto)]

mod column;
mod scramble;

pub use column::{carried, check_column, embed};
pub use scramble::{carried_bit, scrambled_bit};
