// One bit in bit 0 of a chroma word, scrambled by the parities of that word and of the luma word after it.
ghost use Rattle.std.specs.Prelude.{◌≡◌, ◌<◌};
ghost use Rattle.raster.specs.Meaning.{with_bit};
ghost use Rattle.column.specs.Scramble.{parity, scrambled, unscrambled, is_one, one_if};

// What bit 0 of the chroma word becomes, so that it carries the bit. The carried bit of the new word is then that bit.
pub fn scrambled_bit(chroma: u16, luma: u16, bit: bool) -> bool
    ensures value { result ≡ is_one (scrambled chroma luma (one_if bit)) }
    ensures back { unscrambled (with_bit chroma result) luma ≡ one_if bit }
{
    (u32::from(bit) + word_parity(chroma) + word_parity(luma)) % 2 == 1
}

// The bit that the chroma word carries: what its own bit 0 is scrambled to, since to scramble twice undoes it.
pub fn carried_bit(chroma: u16, luma: u16) -> bool
    ensures { result ≡ is_one (unscrambled chroma luma) }
{
    scrambled_bit(chroma, luma, chroma % 2 == 1)
}

fn word_parity(word: u16) -> u32
    ensures value { result ≡ parity word }
    ensures small { result < 2 }
{
    (word / 4 % 256).count_ones() % 2
}
