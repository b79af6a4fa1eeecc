// What a message is made of: bytes, or rows of 16 bits.
ghost use Rattle.std.specs.Prelude.{◌≡◌, Bool, List, [], ◌∷◌, ◌++◌};
ghost use Rattle.crc.specs.Register.{run, word_bits, bits_of, bits_none, bits_more};

use crate::table::{fed_byte, fed_row};

// A symbol enters the register at once, all its bits.
pub trait Symbol: Copy {
    // Its bits, and those of symbols one after the other.
    ghost bits: { Self → List Bool };

    ghost all_bits: { List Self → List Bool };

    // The register after it.
    fn enter(self, register: u32) -> u32
        ensures { result ≡ run register (bits self) };

    ghost none: { all_bits [] ≡ [] };

    ghost more: { (x : Self) (xs : List Self) → all_bits (x ∷ xs) ≡ bits x ++ all_bits xs };
}

// A byte, the most significant bit first.
impl Symbol for u8 {
    ghost bits = { word_bits 8 };

    ghost all_bits = { bits_of 8 };

    ghost none = { bits_none 8 };

    ghost more = { bits_more 8 };

    #[tactic(auto, using(crate::proofs::Bytes::byte_enters))]
    fn enter(self, register: u32) -> u32 {
        fed_byte(register, self)
    }
}

// A row, the most significant bit first.
impl Symbol for u16 {
    ghost bits = { word_bits 16 };

    ghost all_bits = { bits_of 16 };

    ghost none = { bits_none 16 };

    ghost more = { bits_more 16 };

    #[tactic(auto, using(crate::proofs::Bytes::row_enters))]
    fn enter(self, register: u32) -> u32 {
        fed_row(register, self)
    }
}
