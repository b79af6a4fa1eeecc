// The block of each macroblock of the bench picture.
ghost use Rattle.std.specs.Prelude.{◌≡◌, ◌<◌, ◌≤◌};
ghost use Rattle.carry.specs.Content.{record_at, block_in};

use bench::Spot;
use record::{Block, PictureFlags, Record};

// A frame picture, with the position as its reference.
#[tactic(auto, unfolding(crate::specs::Content::block_at))]
pub fn block_at(spot: Spot) -> Block
    ensures value { result ≡ block_in spot.stripe.number spot.column }
    ensures reference { result.reference ≤ 65520 }
{
    let position = spot.position();
    Block {
        picture: PictureFlags {
            fr_fl_srib: true,
            ..PictureFlags::default()
        },
        reference: position as u16,
        element: (position as u64 * 2654435761 % 4294967296) as u32,
        record: record_at(position),
    }
}

// Zeros, but for mb_intra at odd positions and mv000, which counts from -67.
fn record_at(position: usize) -> Record
    requires { position < 135 }
    ensures { result ≡ record_at position }
{
    Record {
        mb_intra: position % 2 == 1,
        mv000: position as i16 - 67,
        ..Record::default()
    }
}
