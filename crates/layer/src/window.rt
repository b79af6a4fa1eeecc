// The window layer: a part of the raster below, cut to what lies inside it.
ghost use Rattle.std.specs.Prelude.{◌≡◌};
ghost use Rattle.layer.specs.Window.{window_shown, window_spot, around_window, window_inside, window_apart};

use crate::Layer;
use crate::part::Part;
use raster::Extent;

pub type Window<R> = Layer<R, Bounds>;

// Where a window lies: its first row, its first word, and the size that is wanted. Any numbers will do.
#[derive(Clone, Copy, Debug, PartialEq, Eq)]
pub struct Bounds {
    pub top: usize,
    pub left: usize,
    pub size: Extent,
}

impl Bounds {
    // What the window shows of a raster of this extent: rows and words are cut each alone, even to none.
    pub fn shown_of(self, whole: Extent) -> Extent
        ensures { result ≡ window_shown self whole }
    {
        Extent {
            rows: whole.rows.saturating_sub(self.top).min(self.size.rows),
            words: whole.words.saturating_sub(self.left).min(self.size.words),
        }
    }
}

impl Part for Bounds {
    ghost shown = { window_shown };

    ghost spot = { window_spot };

    ghost beside = { around_window };

    ghost inside = { window_inside };

    ghost apart = { window_apart };

    fn shown(self, whole: Extent) -> Extent {
        self.shown_of(whole)
    }

    fn spot(self, row: usize, place: usize) -> (usize, usize) {
        (self.top + row, self.left + place)
    }
}
