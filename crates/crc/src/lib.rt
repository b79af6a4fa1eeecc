// The check over a block's rows and over an image's bytes.
#![tactic(auto)]

mod burst;
mod register;
mod symbol;
mod table;

pub use burst::{burst_never_passes, fits, with_check};
pub use register::{check, known_check};
pub use symbol::Symbol;
