// The inserter: counts references from picture to picture, and places records on the macroblocks of an open picture.
#![tactic(auto)]

mod alone;
mod counter;
mod inserter;
mod picture;
mod place;

pub use alone::place_alone;
pub use counter::Counter;
pub use inserter::Inserter;
pub use picture::Picture;
pub use place::flags_of;
