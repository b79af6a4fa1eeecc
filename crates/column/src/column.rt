// A block in one column of a slab, a macroblock: its embedding, and what the column carries.
ghost use Rattle.std.specs.Prelude.{◌≡◌, ℕ, ◌+◌, ◌*◌, ◌<◌, is_ok, if◌then◌else◌, Ok, nat_eq};
ghost use Rattle.raster.specs.Meaning.{replaced};
ghost use Rattle.column.specs.Scramble.{scrambled, is_one, one_if};
ghost use Rattle.column.specs.Column.{within, bit_at, embedded, spelled, carried_rows, OthersKept, OnlyLowBits, FewDiffer};
ghost use Rattle.column.specs.Window.{Lies, line_to, rows_to, row_of, rows_of};

use crate::scramble::{carried_bit, scrambled_bit};
use fault::Fault;
use raster::{Extent, Raster};

// Embeds the rows of a block in a column: 512 looks and 256 sets. It refuses a raster that has not 16 rows, then a
// column that does not lie wholly inside; a refused call writes nothing. What was embedded is what the column then
// carries, no other column carries anything new, only bit 0 of even words of the column changes, and so at most 256 words.
pub fn embed<R: Raster>(slab: &mut R, column: usize, rows: &[u16; 16]) -> Result<(), Fault>
    ensures answer { result ≡ within (R.Raster.rows slab.old) (R.Raster.words slab.old) column tt }
    ensures kept { R.Raster.kept slab.old slab.new }
    ensures after { (i j : ℕ) → i < R.Raster.rows slab.old → j < R.Raster.words slab.old → R.Raster.at slab.new i j ≡ (if is_ok result then embedded (R.Raster.at slab.old) column rows.now i j else R.Raster.at slab.old i j) }
    ensures reads { result ≡ Ok tt → carried_rows (R.Raster.at slab.new) column ≡ rows.now }
    ensures others { OthersKept (R.Raster.at slab.old) (R.Raster.at slab.new) (R.Raster.rows slab.old) (R.Raster.words slab.old) column }
    ensures only { OnlyLowBits (R.Raster.at slab.old) (R.Raster.at slab.new) (R.Raster.rows slab.old) (R.Raster.words slab.old) column }
    ensures few { FewDiffer (R.Raster.at slab.old) (R.Raster.at slab.new) (R.Raster.rows slab.old) (R.Raster.words slab.old) }
{
    let first = first_word((*slab).extent(), column)?;
    embed_rows(slab, first, rows)
}

// The rows of the block that a column carries, with the refusals of `embed`.
pub fn carried<R: Raster>(slab: &R, column: usize) -> Result<[u16; 16], Fault>
    ensures { result ≡ within (R.Raster.rows slab.now) (R.Raster.words slab.now) column (carried_rows (R.Raster.at slab.now) column) }
{
    let first = first_word(slab.extent(), column)?;
    Seen { slab, first }.rows()
}

// Whether a raster of this extent is a slab, and the column lies wholly inside it.
pub fn check_column(extent: Extent, column: usize) -> Result<(), Fault>
    ensures { result ≡ within extent.rows extent.words column tt }
{
    first_word(extent, column)?;
    Ok(())
}

// The first word of a column's window, which is 32 words of each of the 16 rows. The one place that refuses.
fn first_word(extent: Extent, column: usize) -> Result<usize, Fault>
    ensures { result ≡ within extent.rows extent.words column (32 * column) }
{
    if extent.rows != 16 {
        return Err(Fault::SlabExtent);
    }
    if column >= extent.words / 32 {
        return Err(Fault::NotInFormat);
    }
    Ok(32 * column)
}

// Where a bit of the block travels: its row, and its number in the row, 0 for the most significant.
#[derive(Clone, Copy)]
struct BitPlace {
    row: usize,
    k: usize,
    ghost inside: { (row < 16) × (k < 16) },
}

// Each row of the block into its row of the window. That the window lies in the slab is asked of each function that writes: a struct over the
// lent slab would have each say instead that its window and its loan stay, which is more.
fn embed_rows<R: Raster>(slab: &mut R, first: usize, rows: &[u16; 16]) -> Result<(), Fault>
    requires { Lies first (R.Raster.rows slab.old) (R.Raster.words slab.old) }
    ensures answer { result ≡ Ok tt }
    ensures kept { R.Raster.kept slab.old slab.new }
    ensures after { (i j : ℕ) → i < R.Raster.rows slab.old → j < R.Raster.words slab.old → R.Raster.at slab.new i j ≡ rows_to (R.Raster.at slab.old) first rows.now 16 i j }
{
    // By try_for_each the proof does not close, here and below: it does not know what a closure leaves in a slab that is lent to it.
    for (row, value) in rows.iter().enumerate() {
        embed_row(slab, first, row, *value)?;
    }
    Ok(())
}

// Each bit of a row into its chroma word, the most significant first.
fn embed_row<R: Raster>(slab: &mut R, first: usize, row: usize, value: u16) -> Result<(), Fault>
    requires { (Lies first (R.Raster.rows slab.old) (R.Raster.words slab.old)) × (row < 16) }
    ensures answer { result ≡ Ok tt }
    ensures kept { R.Raster.kept slab.old slab.new }
    ensures after { (i j : ℕ) → i < R.Raster.rows slab.old → j < R.Raster.words slab.old → R.Raster.at slab.new i j ≡ (if nat_eq i row then line_to (R.Raster.at slab.old i) first value 16 j else R.Raster.at slab.old i j) }
{
    for k in 0..16 {
        embed_bit(slab, first, BitPlace { row, k }, bit_of(value, k))?;
    }
    Ok(())
}

// Bit k of a row of the block.
fn bit_of(value: u16, k: usize) -> bool
    requires { k < 16 }
    ensures { result ≡ is_one (bit_at value k) }
{
    (value >> (15 - k)) % 2 == 1
}

// One bit: two looks and one set.
fn embed_bit<R: Raster>(slab: &mut R, first: usize, place: BitPlace, bit: bool) -> Result<(), Fault>
    requires { Lies first (R.Raster.rows slab.old) (R.Raster.words slab.old) }
    ensures answer { result ≡ Ok tt }
    ensures kept { R.Raster.kept slab.old slab.new }
    ensures after { (i j : ℕ) → i < R.Raster.rows slab.old → j < R.Raster.words slab.old → R.Raster.at slab.new i j ≡ replaced (R.Raster.at slab.old) place.row (first + 2 * place.k) (is_one (scrambled (R.Raster.at slab.old place.row (first + 2 * place.k)) (R.Raster.at slab.old place.row (first + 2 * place.k + 1)) (one_if bit))) i j }
{
    let (chroma, luma) = Seen {
        slab: &*slab,
        first,
    }
    .pair(place)?;
    slab.set(
        place.row,
        first + 2 * place.k,
        scrambled_bit(chroma, luma, bit),
    )
}

// A window in a slab, inside which it lies, to be read.
#[derive(Drop)]
struct Seen<'a, R: Raster> {
    slab: &'a R,
    first: usize,
    ghost lies: { Lies first (R.Raster.rows slab.now) (R.Raster.words slab.now) },
}

impl<R: Raster> Seen<'_, R> {
    // Each row that the window carries.
    fn rows(&self) -> Result<[u16; 16], Fault>
        ensures { result ≡ Ok (rows_of (R.Raster.at self.now.slab.now) self.now.first) }
    {
        let mut rows = [0u16; 16];
        // By try_from_fn the proof does not close: it does not say that the closure which answered is the one that was passed.
        for (i, row) in rows.iter_mut().enumerate() {
            *row = self.row(i)?;
        }
        Ok(rows)
    }

    // The row that the chroma words of a row carry, the most significant bit first.
    fn row(&self, row: usize) -> Result<u16, Fault>
        requires { row < 16 }
        ensures { result ≡ Ok (row_of (R.Raster.at self.now.slab.now) self.now.first row) }
    {
        (0..16).try_fold(
            0,
            |before, k|
                requires { (row < 16) × ((k < 16) × (before ≡ spelled (R.Raster.at self.now.slab.now row) self.now.first k)) }
            { self.bit(BitPlace { row, k }, before) },
        )
    }

    // The bits before bit k, and that bit after them: two looks.
    #[tactic(auto, using(crate::proofs::Spelled::spelled_more, crate::proofs::Spelled::spelled_below))]
    fn bit(&self, place: BitPlace, before: u16) -> Result<u16, Fault>
        requires { before ≡ spelled (R.Raster.at self.now.slab.now place.row) self.now.first place.k }
        ensures { result ≡ Ok (spelled (R.Raster.at self.now.slab.now place.row) self.now.first (place.k + 1)) }
    {
        let (chroma, luma) = self.pair(place)?;
        Ok(before * 2 + u16::from(carried_bit(chroma, luma)))
    }

    // The chroma word of bit k of a row, and the luma word after it.
    fn pair(&self, place: BitPlace) -> Result<(u16, u16), Fault>
        ensures { result ≡ Ok (R.Raster.at self.now.slab.now place.row (self.now.first + 2 * place.k), R.Raster.at self.now.slab.now place.row (self.now.first + 2 * place.k + 1)) }
    {
        let chroma = self.slab.look(place.row, self.first + 2 * place.k)?;
        let luma = self.slab.look(place.row, self.first + 2 * place.k + 1)?;
        Ok((chroma, luma))
    }
}
