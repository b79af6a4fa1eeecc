// The bench picture, format 4: three slabs of 16 rows of 1,440 words, each packed in 28,800 bytes.
#![tactic(auto)]

mod carry;
mod gather;
mod input;
mod line;
mod moved;
mod picture;
mod slab;
mod slabs;
mod spot;

pub use carry::{Reader, Writer, count_read, stripe_line, write_stripe};
pub use gather::gather_slab;
pub use input::{pad, read_slab};
pub use line::StripeLine;
pub use moved::count_moved;
pub use picture::{gather_picture, start_picture};
pub use slab::slab_in;
pub use slabs::{Buffers, Slab, Slabs};
pub use spot::{Spot, Stripe};
