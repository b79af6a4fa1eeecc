// Blocks: a record with its check in 16 rows of 16 bits, and in a column of any slab.
#![tactic(auto)]

mod code;
mod slab;

pub use code::{decode, encode};
pub use slab::{read_block, write_block};
