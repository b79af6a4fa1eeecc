// What a start begins.
use format::Format;

// The picture that is gathered: its format and its first reference. Only a start makes one.
#[derive(Clone, Copy)]
pub struct Gathering {
    pub(crate) format: Format,
    pub(crate) first: u16,
}
