// A raster that the libraries do not know: the rows of another, from the last to the first. It shows the meaning of a raster, so
// everything above holds of it with no new proof (it is no layer of the crate layer, which would be known); the test runs place, gather and deliver through it.
#![tactic(auto)]

ghost use Rattle.std.specs.Prelude.{◌≡◌, ℕ, ◌+◌, ◌-◌, ◌<◌, Ok};
ghost use Rattle.raster.specs.Meaning.{answered, replaced};
ghost use Rattle.reversed.specs.Rows.{mirrored};

use fault::Fault;
use raster::{Extent, Raster};

#[cfg(test)]
mod whole;

#[derive(Drop)]
pub struct Reversed<R> {
    below: R,
}

impl<R: Raster> Reversed<R> {
    pub fn new(below: R) -> Reversed<R>
        ensures { result ≡ record { below = below } }
    {
        Reversed { below }
    }

    // The row below of a row, if the word at the place lies inside.
    fn row_below(&self, row: usize, place: usize) -> Result<usize, Fault>
        ensures { result ≡ answered (R.Raster.rows self.now.below) (R.Raster.words self.now.below) row place (mirrored (R.Raster.rows self.now.below) row) }
    {
        let whole = self.below.extent();
        whole.check(row, place)?;
        Ok(whole.rows - 1 - row)
    }
}

impl<R: Raster> Raster for Reversed<R> {
    ghost rows = { λ s. R.Raster.rows s.below };

    ghost words = { λ s. R.Raster.words s.below };

    ghost at = { λ s i j. R.Raster.at s.below (mirrored (R.Raster.rows s.below) i) j };

    ghost ten = { λ s i j. R.Raster.ten s.below (mirrored (R.Raster.rows s.below) i) j };

    ghost kept = { λ s t. R.Raster.kept s.below t.below };

    ghost rows_kept = { λ s t. R.Raster.rows_kept s.below t.below };

    ghost words_kept = { λ s t. R.Raster.words_kept s.below t.below };

    ghost still = { λ s. R.Raster.still s.below };

    ghost onward = { λ s t u. R.Raster.onward s.below t.below u.below };

    fn extent(&self) -> Extent {
        self.below.extent()
    }

    fn look(&self, row: usize, place: usize) -> Result<u16, Fault> {
        let below = self.row_below(row, place)?;
        self.below.look(below, place)
    }

    #[tactic(auto, using(crate::proofs::Mirror::mirror_inside, crate::proofs::Mirror::mirror_same))]
    fn set(&mut self, row: usize, place: usize, bit: bool) -> Result<(), Fault> {
        let below = self.row_below(row, place)?;
        self.below.set(below, place, bit)
    }
}
