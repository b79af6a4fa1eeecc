// What a layer shows of the raster below.
ghost use Rattle.std.specs.Prelude.{◌≡◌, ℕ, ◌^◌, ◌<◌};
ghost use Rattle.raster.specs.declared.extent.Extent.{Extent};

use raster::Extent;

// A part of a raster, whatever the raster's extent.
// Callers of the crate do not see it, since `spot` asks that the spot can be counted.
pub trait Part: Copy {
    // The extent of the part of a raster of this extent.
    ghost shown: { Self → Extent → Extent };

    // The row and the place below of the part's word at a row and a place.
    ghost spot: { Self → ℕ → ℕ → ℕ × ℕ };

    // That a row and a place below are not in the part.
    ghost beside: { Self → ℕ → ℕ → Type 0 };

    // A word that is shown lies inside the raster below and in the part.
    ghost inside: { (p : Self) (whole : Extent) (i j : ℕ) → i < (shown p whole).rows → j < (shown p whole).words → ((spot p i j).0 < whole.rows) × ((spot p i j).1 < whole.words) × (beside p (spot p i j).0 (spot p i j).1 → ⊥) };

    // Two words do not lie at one spot.
    ghost apart: { (p : Self) (i j r q : ℕ) → (spot p i j).0 ≡ (spot p r q).0 → (spot p i j).1 ≡ (spot p r q).1 → (i ≡ r) × (j ≡ q) };

    fn shown(self, whole: Extent) -> Extent
        ensures { result ≡ shown self whole };

    fn spot(self, row: usize, place: usize) -> (usize, usize)
        requires { ((spot self row place).0 < 2 ^ 64) × ((spot self row place).1 < 2 ^ 64) }
        ensures { result ≡ spot self row place };
}
