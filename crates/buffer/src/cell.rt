// What a buffer's memory is made of.
ghost use Rattle.std.specs.Prelude.{◌≡◌, ℕ, ◌*◌, ◌%◌, ◌<◌, ◌≤◌, Bool, cond, IsTrue, List, length, nat_eq, slice_set};
ghost use Rattle.raster.specs.Meaning.{with_bit};
ghost use Rattle.raster.specs.declared.extent.Extent.{Extent};
ghost use Rattle.buffer.specs.Size.{lawful};

use raster::Extent;

// A cell of memory. The words of a raster stand in such cells one after the other, counted along its rows.
// Callers of the crate do not see it, since its calls ask that a word lies in memory.
pub trait Cell: Copy {
    // How many cells an extent needs: none without rows and words, and no fewer than it has words.
    ghost needed: { Extent → ℕ };

    ghost none: { needed (record { rows = 0; words = 0 }) ≡ 0 };

    ghost enough: { (e : Extent) → e.words % 4 ≡ 0 → e.rows * e.words ≤ needed e };

    // The cell that bit 0 of the n-th word stands in, among those needed.
    ghost home: { ℕ → ℕ };

    ghost within: { (e : Extent) (n : ℕ) → e.words % 4 ≡ 0 → n < e.rows * e.words → home n < needed e };

    // The n-th word of memory, and what stands above its bit 0.
    ghost word: { List Self → ℕ → ℕ };

    ghost ten: { (m : List Self) (n : ℕ) → word m n < 1024 };

    ghost above: { List Self → ℕ → ℕ };

    // The n-th word's home after its bit 0 is replaced.
    ghost written: { List Self → ℕ → Bool → Self };

    fn needed(extent: Extent) -> usize
        requires { IsTrue (lawful extent) }
        ensures { result ≡ needed extent };

    fn word(memory: &[Self], n: usize) -> u16
        requires { home n < length memory.now }
        ensures { result ≡ word memory.now n };

    // Replaces bit 0 of the n-th word.
    fn write(memory: &mut [Self], n: usize, bit: bool)
        requires { home n < length memory.old }
        ensures cell { memory.new ≡ slice_set memory.old (home n) (written memory.old n bit) }
        ensures words { (k : ℕ) → word memory.new k ≡ cond (nat_eq k n) (with_bit (word memory.old k) bit) (word memory.old k) }
        ensures above { (k : ℕ) → above memory.new k ≡ above memory.old k };
}
