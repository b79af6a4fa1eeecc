// A macroblock's record, the block that carries it, and the block's data rows.
#![tactic(auto)]

mod decode;
mod encode;
mod laws;
mod record;
mod rules;

pub use decode::{block_of, has_sync, reserved_clear};
pub use encode::data_rows;
pub use record::{Block, PictureFlags, Record};
pub use rules::check_record;

// The sync code, with which every block begins: five ones.
const SYNC_CODE: u16 = 0b11111;
