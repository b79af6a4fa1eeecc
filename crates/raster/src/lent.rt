// A lent raster is a raster, so that a layer can be put over one that is wanted again.
ghost use Rattle.std.specs.Prelude.{◌≡◌, refl};
ghost use Rattle.std.proofs.Common.{◌∙◌};

use crate::{Extent, Raster};
use fault::Fault;

impl<'a, R: Raster> Raster for &'a mut R {
    ghost rows = { λ s. R.Raster.rows s.now };

    ghost words = { λ s. R.Raster.words s.now };

    ghost at = { λ s. R.Raster.at s.now };

    ghost ten = { λ s. R.Raster.ten s.now };

    ghost kept = { λ s t. (t.ghost_name ≡ s.ghost_name) × R.Raster.kept s.now t.now };

    ghost rows_kept = { λ s t p. R.Raster.rows_kept s.now t.now p.1 };

    ghost words_kept = { λ s t p. R.Raster.words_kept s.now t.now p.1 };

    ghost still = { λ s. (refl, R.Raster.still s.now) };

    ghost onward = { λ s t u p q. (q.0 ∙ p.0, R.Raster.onward s.now t.now u.now p.1 q.1) };

    fn extent(&self) -> Extent {
        (**self).extent()
    }

    fn look(&self, row: usize, place: usize) -> Result<u16, Fault> {
        (**self).look(row, place)
    }

    fn set(&mut self, row: usize, place: usize, bit: bool) -> Result<(), Fault> {
        (**self).set(row, place, bit)
    }
}
