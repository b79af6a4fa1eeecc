// Picture formats: their shape, where a macroblock stands in a picture, and which element it carries.
#![tactic(auto)]

mod laws;
mod place;
mod table;

pub use laws::every_element_has_its_carriers;
pub use place::{ELEMENTS, LAST_REFERENCE, first_reference};
pub use table::Format;
