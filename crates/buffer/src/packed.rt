// The packed buffer: four words in five bytes of lent memory, most significant bit first, with no gap between rows.
ghost use Rattle.std.specs.Prelude.{◌≡◌, ◌%◌, ◌^◌, ◌<◌, refl};
ghost use Rattle.buffer.specs.Size.{bytes_of};
ghost use Rattle.buffer.specs.Packed.{bytes_enough, home_of, bytes_within, packed_word, packed_ten, packed_above, byte_written, across, with_unit, unit_of};

use crate::Buffer;
use crate::cell::Cell;
use raster::Extent;

pub type PackedBuffer<'a> = Buffer<'a, u8>;

impl Cell for u8 {
    ghost needed = { bytes_of };

    ghost none = { refl };

    ghost enough = { bytes_enough };

    ghost home = { home_of };

    ghost within = { bytes_within };

    ghost word = { packed_word };

    ghost ten = { packed_ten };

    ghost above = { packed_above };

    ghost written = { byte_written };

    fn needed(extent: Extent) -> usize {
        extent.rows * (extent.words / 4) * 5
    }

    // A word begins in the byte before its home.
    #[tactic(auto, using(crate::proofs::Packing::word_across))]
    fn word(memory: &[u8], n: usize) -> u16 {
        let home = home(n);
        across(memory[home - 1], memory[home], n % 4)
    }

    #[tactic(auto, using(crate::proofs::Packing::every_word, crate::proofs::Packing::every_above))]
    fn write(memory: &mut [u8], n: usize, bit: bool) {
        let home = home(n);
        memory[home] = with_unit(memory[home], n % 4, bit);
    }
}

// The byte that the n-th word ends in.
fn home(n: usize) -> usize
    requires { home_of n < 2 ^ 64 }
    ensures { result ≡ home_of n }
{
    n / 4 * 5 + 1 + n % 4
}

// The q-th word of five bytes, from the two that it lies in.
fn across(first: u8, second: u8, q: usize) -> u16
    requires { q < 4 }
    ensures { result ≡ across q (first % 256) (second % 256) }
{
    (u16::from_be_bytes([first, second]) >> (6 - 2 * q)) % 1024
}

// The byte with bit 0 of the q-th word replaced, which ends in it.
#[tactic(auto, using(crate::proofs::Bytes::unit_set, crate::proofs::Bytes::unit_cleared))]
fn with_unit(byte: u8, q: usize, bit: bool) -> u8
    requires { q < 4 }
    ensures { result ≡ with_unit (byte % 256) (unit_of q) bit }
{
    let unit = 1 << (6 - 2 * q);
    if bit { byte | unit } else { byte & !unit }
}
