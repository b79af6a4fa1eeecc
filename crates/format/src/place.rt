// Where a macroblock stands in a picture, its reference, and the element that it carries.
ghost use Rattle.std.specs.Prelude.{◌≡◌, ◌*◌, ◌%◌, ◌^◌, ◌<◌, ◌≤◌, true, is_ok, IfOk, OnOk, Decides};
ghost use Rattle.format.specs.Formats.{in_format, within, macroblocks_of, position_of, reference_of, next_first, index_of, first_of};

use crate::Format;
use fault::Fault;

// The elements of an image.
pub const ELEMENTS: usize = 135;

// References go from 0 to the last one, and on from 0 again.
pub const LAST_REFERENCE: u16 = 65520;

const REFERENCES: usize = LAST_REFERENCE as usize + 1;

// The first reference of a picture, of that number. Refuses one above 65520.
pub fn first_reference(number: u32) -> Result<u16, Fault>
    ensures answer { result ≡ first_of number }
    ensures decides { Decides (is_ok result) (number ≤ 65520) }
    ensures small { IfOk result (λ first. first ≤ 65520) }
{
    if number > u32::from(LAST_REFERENCE) {
        return Err(Fault::FirstReference);
    }
    Ok(number as u16)
}

impl Format {
    // How many macroblocks a picture has.
    pub fn macroblocks(self) -> usize
        ensures count { result ≡ macroblocks_of self }
        ensures few { result ≤ 8160 }
    {
        times(self.stripes(), self.columns())
    }

    // Whether the macroblock is in the format.
    pub fn holds(self, stripe: usize, column: usize) -> bool
        ensures answer { result ≡ in_format self stripe column }
        ensures near { result ≡ true → (stripe < 68) × (column < 120) }
    {
        stripe < self.stripes() && column < self.columns()
    }

    // Refuses a macroblock that is not in the format.
    fn check(self, stripe: usize, column: usize) -> Result<(), Fault>
        ensures answer { result ≡ within self stripe column tt }
        ensures near { OnOk result ((stripe < 68) × (column < 120)) }
    {
        if self.holds(stripe, column) {
            Ok(())
        } else {
            Err(Fault::NotInFormat)
        }
    }

    // The place of a macroblock, counted along the stripes.
    pub fn position(self, stripe: usize, column: usize) -> Result<usize, Fault>
        ensures answer { result ≡ within self stripe column (position_of self stripe column) }
        ensures few { IfOk result (λ p. p < 2 ^ 16) }
    {
        self.check(stripe, column)?;
        Ok(times(stripe, self.columns()) + column)
    }

    // The reference of a macroblock, in a picture that begins at the reference `first`.
    pub fn reference(self, first: u16, stripe: usize, column: usize) -> Result<u16, Fault>
        ensures answer { result ≡ within self stripe column (reference_of self first stripe column) }
        ensures small { IfOk result (λ n. n ≤ 65520) }
    {
        let position = self.position(stripe, column)?;
        Ok(around(usize::from(first) + position))
    }

    // The element that a macroblock carries.
    pub fn index(self, stripe: usize, column: usize) -> Result<usize, Fault>
        ensures answer { result ≡ within self stripe column (index_of stripe column) }
        ensures small { IfOk result (λ i. i < 135) }
    {
        self.check(stripe, column)?;
        Ok((stripe % 3 * 45 + column + 27 * (stripe / 3)) % ELEMENTS)
    }

    // The first reference of the picture after one that begins at the reference `first`.
    pub fn next_first(self, first: u16) -> u16
        ensures answer { result ≡ next_first self first }
        ensures small { result ≤ 65520 }
    {
        around(usize::from(first) + self.macroblocks())
    }
}

// The reference that counting so far comes to.
fn around(count: usize) -> u16
    ensures answer { result ≡ count % 65521 }
    ensures small { result ≤ 65520 }
{
    (count % REFERENCES) as u16
}

// The macroblocks of so many stripes.
fn times(stripes: usize, columns: usize) -> usize
    requires { (stripes ≤ 68) × (columns ≤ 120) }
    ensures product { result ≡ stripes * columns }
    ensures few { result ≤ 8160 }
{
    stripes * columns
}
