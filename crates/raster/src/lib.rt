// Rasters: rows of ten-bit sample words, and what it means to look at them and to set them.
#![tactic(auto)]

ghost use Rattle.std.specs.Prelude.{◌≡◌, ℕ, ◌<◌};
ghost use Rattle.raster.specs.Meaning.{answered, replaced};

use fault::Fault;

mod difference;
mod extent;
mod lent;

pub use difference::count_differing;
pub use extent::Extent;

// What a raster is. Whoever implements it shows this meaning, and all code above then holds of it.
pub trait Raster {
    // Its extent, and the word at a row and a place, which says something inside the extent only.
    ghost rows: { Self → ℕ };

    ghost words: { Self → ℕ };

    ghost at: { Self → ℕ → ℕ → ℕ };

    ghost ten: { (x : Self) (i j : ℕ) → at x i j < 1024 };

    // The frame: from the first to the second, all is the same that the raster has and does not show, which is
    // its extent, the loans it holds, the other bits of its memory, and the words below it that lie outside it.
    ghost kept: { Self → Self → Type 0 };

    ghost rows_kept: { (x y : Self) → kept x y → rows y ≡ rows x };

    ghost words_kept: { (x y : Self) → kept x y → words y ≡ words x };

    ghost still: { (x : Self) → kept x x };

    ghost onward: { (x y z : Self) → kept x y → kept y z → kept x z };

    fn extent(&self) -> Extent
        ensures { result ≡ record { rows = rows self.now; words = words self.now } };

    // The word at a row and a place.
    fn look(&self, row: usize, place: usize) -> Result<u16, Fault>
        ensures { result ≡ answered (rows self.now) (words self.now) row place (at self.now row place) };

    // Replaces bit 0 of the word at a row and a place.
    fn set(&mut self, row: usize, place: usize, bit: bool) -> Result<(), Fault>
        ensures kept { kept self.old self.new }
        ensures answer { result ≡ answered (rows self.old) (words self.old) row place tt }
        ensures after { (i : ℕ) (j : ℕ) → i < rows self.old → j < words self.old → at self.new i j ≡ replaced (at self.old) row place bit i j };
}
