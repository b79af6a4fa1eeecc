// Buffers: rasters in lent memory, a cell for each word, or four words packed into five bytes.
#![tactic(auto)]

ghost use Rattle.std.specs.Prelude.{◌≡◌, ℕ, ◌+◌, ◌*◌, ◌%◌, ◌<◌, ◌≤◌, length, IfOk, refl};
ghost use Rattle.std.proofs.Common.{ap, ◌∙◌, subst};
ghost use Rattle.raster.specs.Meaning.{answered, replaced, Numbered};
ghost use Rattle.buffer.specs.Size.{sized, granted};
ghost use Rattle.buffer.specs.Cells.{word_at, memory_after, Kept, kept_still, kept_onward};

use cell::Cell;
use fault::Fault;
use raster::{Extent, Raster};
use size::{index, is_lawful};

mod cell;
mod packed;
mod size;
mod word;

pub use packed::PackedBuffer;
pub use word::WordBuffer;

// A raster in lent memory of cells.
#[derive(Drop)]
pub struct Buffer<'a, C: Cell> {
    extent: Extent,
    memory: &'a mut [C],
    ghost fours: { extent.words % 4 ≡ 0 },
    ghost room: { C.needed extent ≤ length memory.now },
}

impl<'a, C: Cell> Buffer<'a, C> {
    // Whether memory of so many cells has the length that this extent needs, and the extent is lawful.
    pub fn check_size(extent: Extent, cells: usize) -> Result<(), Fault>
        ensures { result ≡ sized extent (C.needed extent) cells }
    {
        if is_lawful(extent) && cells == C::needed(extent) {
            Ok(())
        } else {
            Err(Fault::Size)
        }
    }

    // Never refuses: made of what the size check refuses it has no rows and no words.
    pub fn new(extent: Extent, memory: &'a mut [C]) -> Self
        ensures extent { result.extent ≡ granted extent (C.needed extent) (length memory.old) }
        ensures value { result.memory.now ≡ memory.old }
        ensures name { result.memory.ghost_name ≡ memory.entry.ghost_name }
    {
        let extent = match Self::check_size(extent, memory.len()) {
            Ok(()) => extent,
            Err(_) => Extent { rows: 0, words: 0 },
        };
        Buffer { extent, memory }
    }

    // The number of a word, counted along the rows: its cell lies in memory.
    fn number(&self, row: usize, place: usize) -> Result<usize, Fault>
        ensures answer { result ≡ answered self.now.extent.rows self.now.extent.words row place (row * self.now.extent.words + place) }
        ensures within { IfOk result (λ n. C.home n < length self.now.memory.now) }
        ensures numbered { IfOk result (Numbered self.now.extent.rows self.now.extent.words row place) }
    {
        index(self.extent, row, place)
    }
}

impl<C: Cell> Raster for Buffer<'_, C> {
    ghost rows = { λ s. s.extent.rows };

    ghost words = { λ s. s.extent.words };

    ghost at = { λ s. word_at C.word s.memory.now s.extent.words };

    ghost ten = { λ s i j. C.ten s.memory.now (i * s.extent.words + j) };

    ghost kept = { λ s t. (t.extent ≡ s.extent) × (t.memory.ghost_name ≡ s.memory.ghost_name) × Kept C.above (C.needed s.extent) s.memory.now t.memory.now };

    ghost rows_kept = { λ s t p. ap (λ e. e.rows) p.0 };

    ghost words_kept = { λ s t p. ap (λ e. e.words) p.0 };

    ghost still = { λ s. (refl, refl, kept_still C.above (C.needed s.extent) s.memory.now) };

    ghost onward = { λ s t u p q. (q.0 ∙ p.0, q.1 ∙ p.1, kept_onward p.2 (subst (λ e. Kept C.above (C.needed e) t.memory.now u.memory.now) p.0 q.2)) };

    fn extent(&self) -> Extent {
        self.extent
    }

    fn look(&self, row: usize, place: usize) -> Result<u16, Fault> {
        let n = self.number(row, place)?;
        Ok(C::word(self.memory, n))
    }

    #[tactic(auto, using(raster::proofs::Flat::same_place))]
    fn set(&mut self, row: usize, place: usize, bit: bool) -> Result<(), Fault>
        ensures kept { (self.new.extent ≡ self.old.extent) × (self.new.memory.ghost_name ≡ self.old.memory.ghost_name) × Kept C.above (C.needed self.old.extent) self.old.memory.now self.new.memory.now }
        ensures answer { result ≡ answered self.old.extent.rows self.old.extent.words row place tt }
        ensures after { (i : ℕ) (j : ℕ) → i < self.old.extent.rows → j < self.old.extent.words → word_at C.word self.new.memory.now self.new.extent.words i j ≡ replaced (word_at C.word self.old.memory.now self.old.extent.words) row place bit i j }
        ensures memory { self.new.memory.now ≡ memory_after C.home C.written self.old.memory.now self.old.extent.rows self.old.extent.words row place bit }
    {
        let n = self.number(row, place)?;
        C::write(self.memory, n, bit);
        Ok(())
    }
}
