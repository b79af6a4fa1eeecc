// How many rows a raster has, and how many words each.
ghost use Rattle.std.specs.Prelude.{◌≡◌, ◌<◌, OnOk};
ghost use Rattle.raster.specs.Meaning.{answered};

use fault::Fault;

#[derive(Clone, Copy, Debug, PartialEq, Eq)]
pub struct Extent {
    pub rows: usize,
    pub words: usize,
}

impl Extent {
    // Refuses a row and a place that lie outside.
    pub fn check(self, row: usize, place: usize) -> Result<(), Fault>
        ensures answer { result ≡ answered self.rows self.words row place tt }
        ensures inside { OnOk result ((row < self.rows) × (place < self.words)) }
    {
        if row < self.rows && place < self.words {
            Ok(())
        } else {
            Err(Fault::Outside { row, word: place })
        }
    }
}
