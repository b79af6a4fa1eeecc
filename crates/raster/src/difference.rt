// Counting the words that differ between two rasters.
ghost use Rattle.std.specs.Prelude.{◌≡◌, ℕ, ◌^◌, ◌<◌, ◌≤◌, min, if◌then◌else◌, Ok, ◌==◌};
ghost use Rattle.raster.specs.Difference.{differing_words, differing};

use crate::{Extent, Raster};
use fault::Fault;

// How many words differ, of the rows and words that both rasters have. The count of any two rasters fits.
pub fn count_differing<P: Raster, Q: Raster>(a: &P, b: &Q) -> Result<u128, Fault>
    ensures { result ≡ Ok (differing (P.Raster.at a.now) (Q.Raster.at b.now) (min (P.Raster.rows a.now) (Q.Raster.rows b.now)) (min (P.Raster.words a.now) (Q.Raster.words b.now))) }
{
    let left = a.extent();
    let right = b.extent();
    let both = Extent {
        rows: left.rows.min(right.rows),
        words: left.words.min(right.words),
    };
    Pair { a, b, both }.differing()
}

// Two rasters, and the rows and words that both have.
#[derive(Drop)]
struct Pair<'a, P: Raster, Q: Raster> {
    a: &'a P,
    b: &'a Q,
    both: Extent,
    ghost fits: { (both.rows < 2 ^ 64) × (both.words < 2 ^ 64) },
    ghost inside: { ((both.rows ≤ P.Raster.rows a.now) × (both.words ≤ P.Raster.words a.now)) × ((both.rows ≤ Q.Raster.rows b.now) × (both.words ≤ Q.Raster.words b.now)) },
}

impl<P: Raster, Q: Raster> Pair<'_, P, Q> {
    // How many words differ.
    fn differing(&self) -> Result<u128, Fault>
        ensures { result ≡ Ok (differing (P.Raster.at self.now.a.now) (Q.Raster.at self.now.b.now) self.now.both.rows self.now.both.words) }
    {
        (0..self.both.rows).try_fold(0u128, |count, row| {
            Ok(count + self.differing_in_row(row)? as u128)
        })
    }

    // How many words of a row differ.
    fn differing_in_row(&self, row: usize) -> Result<usize, Fault>
        requires { row < self.now.both.rows }
        ensures { result ≡ Ok (differing_words (P.Raster.at self.now.a.now row) (Q.Raster.at self.now.b.now row) self.now.both.words) }
    {
        (0..self.both.words).try_fold(0, |count, place| {
            Ok(count + self.differing_at(row, place)?)
        })
    }

    // 1 if the words at a row and a place differ, else 0.
    fn differing_at(&self, row: usize, place: usize) -> Result<usize, Fault>
        requires { (row < self.now.both.rows) × (place < self.now.both.words) }
        ensures { result ≡ Ok (if P.Raster.at self.now.a.now row place == Q.Raster.at self.now.b.now row place then 0 else 1) }
    {
        Ok(usize::from(self.a.look(row, place)? != self.b.look(row, place)?))
    }
}
