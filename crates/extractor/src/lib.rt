// The extractor: reads blocks out of slabs, and gathers a picture's elements and records.
#![tactic(auto)]

mod delivery;
mod gather;
mod gathering;
mod laws;
mod reading;

pub use delivery::deliver;
pub use gather::start;
pub use gathering::Gathering;
pub use laws::reading_undoes_placing;
pub use reading::read;
