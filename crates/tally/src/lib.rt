// Tallies: gathering a stripe at a time, and counting what came of it.
#![tactic(auto)]

mod kind;
mod stripe;
mod telling;

pub use kind::{Kind, Tally};
pub use stripe::{first_missing, gather_stripe};
