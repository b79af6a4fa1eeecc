// The bits of an image, and the numbers that they spell.
ghost use Rattle.std.specs.Prelude.{◌≡◌, ◌+◌, ◌<◌, ◌≤◌};
ghost use Rattle.image.specs.Table.{parameter_of};
ghost use Rattle.image.specs.Value.{bit_of, spelled as spelledBits, value_of};

use crate::table::Name;

// The number that the bits of a parameter spell.
pub(crate) fn value(bytes: &[u8; 540], name: Name) -> u64
    ensures { result ≡ value_of bytes.now (parameter_of name) }
{
    let parameter = name.parameter();
    spelled(
        bytes,
        usize::from(parameter.first_bit),
        usize::from(parameter.width),
    )
}

// The number that so many bits spell, the most significant first.
fn spelled(bytes: &[u8; 540], first: usize, width: usize) -> u64
    requires { (first + width ≤ 4320) × (width ≤ 41) }
    ensures { result ≡ spelledBits bytes.now first width }
{
    (0..width).fold(0, |number, n| number * 2 + bit(bytes, first + n))
}

// A bit. Bit 0 is the most significant of byte 0.
fn bit(bytes: &[u8; 540], index: usize) -> u64
    requires { index < 4320 }
    ensures { result ≡ bit_of bytes.now index }
{
    u64::from(bytes[index / 8] >> (7 - index % 8)) % 2
}
