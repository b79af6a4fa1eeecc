// A picture's image: its table, sealing, and its elements.
#![tactic(auto)]

mod elements;
mod equality;
mod image;
mod judge;
mod table;
mod value;

pub use elements::join;
pub use image::SealedImage;
pub use judge::check_image;
pub use table::{Category, Parameter, parameters};
