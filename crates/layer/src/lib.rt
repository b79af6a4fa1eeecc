// Layers: rasters over any raster, which show a part of it.
#![tactic(auto)]

ghost use Rattle.std.specs.Prelude.{◌≡◌, refl};
ghost use Rattle.std.proofs.Common.{◌∙◌, subst};
ghost use Rattle.raster.specs.Meaning.{answered};
ghost use Rattle.layer.specs.Parts.{extent_of, BesideKept, beside_onward};

use fault::Fault;
use part::Part;
use raster::{Extent, Raster};

mod beside;
mod field;
mod part;
mod window;

pub use beside::layers_apart;
pub use field::{Field, FieldKind};
pub use window::{Bounds, Window};

// A raster that shows a part of the one below.
#[derive(Drop)]
pub struct Layer<R, P> {
    below: R,
    part: P,
}

impl<R: Raster, P: Part> Layer<R, P> {
    pub fn new(below: R, part: P) -> Self
        ensures { result ≡ record { below = below; part = part } }
    {
        Layer { below, part }
    }

    // The row and the place below of a word of the layer, if it lies inside.
    fn spot(&self, row: usize, place: usize) -> Result<(usize, usize), Fault>
        ensures { let own = P.shown self.now.part (extent_of (R.Raster.rows self.now.below) (R.Raster.words self.now.below)) in result ≡ answered own.rows own.words row place (P.spot self.now.part row place) }
    {
        let own = self.part.shown(self.below.extent());
        own.check(row, place)?;
        Ok(self.part.spot(row, place))
    }
}

impl<R: Raster, P: Part> Raster for Layer<R, P> {
    ghost rows = { λ s. (P.shown s.part (extent_of (R.Raster.rows s.below) (R.Raster.words s.below))).rows };

    ghost words = { λ s. (P.shown s.part (extent_of (R.Raster.rows s.below) (R.Raster.words s.below))).words };

    ghost at = { λ s i j. R.Raster.at s.below (P.spot s.part i j).0 (P.spot s.part i j).1 };

    ghost ten = { λ s i j. R.Raster.ten s.below (P.spot s.part i j).0 (P.spot s.part i j).1 };

    ghost kept = { λ s t. (t.part ≡ s.part) × (R.Raster.rows t.below ≡ R.Raster.rows s.below) × (R.Raster.words t.below ≡ R.Raster.words s.below) × R.Raster.kept s.below t.below × BesideKept (P.beside s.part) (R.Raster.rows s.below) (R.Raster.words s.below) (R.Raster.at s.below) (R.Raster.at t.below) };

    ghost rows_kept = { λ s t p i. (P.shown (p.0 i) (extent_of (p.1 i) (p.2 i))).rows };

    ghost words_kept = { λ s t p i. (P.shown (p.0 i) (extent_of (p.1 i) (p.2 i))).words };

    ghost still = { λ s. (refl, refl, refl, R.Raster.still s.below, λ i j _ _ _. refl) };

    ghost onward = { λ s t u p q. (q.0 ∙ p.0, q.1 ∙ p.1, q.2 ∙ p.2, R.Raster.onward s.below t.below u.below p.3 q.3, beside_onward p.1 p.2 p.4 (subst (λ k. BesideKept (P.beside k) (R.Raster.rows t.below) (R.Raster.words t.below) (R.Raster.at t.below) (R.Raster.at u.below)) p.0 q.4)) };

    fn extent(&self) -> Extent {
        self.part.shown(self.below.extent())
    }

    fn look(&self, row: usize, place: usize) -> Result<u16, Fault> {
        let (row_below, place_below) = self.spot(row, place)?;
        self.below.look(row_below, place_below)
    }

    fn set(&mut self, row: usize, place: usize, bit: bool) -> Result<(), Fault> {
        let (row_below, place_below) = self.spot(row, place)?;
        self.below.set(row_below, place_below, bit)
    }
}
