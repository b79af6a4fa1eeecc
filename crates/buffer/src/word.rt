// The word buffer: a word in each sixteen-bit cell of lent memory, row after row.
ghost use Rattle.std.specs.Prelude.{◌≡◌, refl};
ghost use Rattle.raster.specs.Meaning.{with_bit};
ghost use Rattle.buffer.specs.Size.{cells_of};
ghost use Rattle.buffer.specs.Word.{cells_enough, own_cell, cells_within, cell_word, cell_ten, cell_above, cell_written};

use crate::Buffer;
use crate::cell::Cell;
use raster::Extent;

pub type WordBuffer<'a> = Buffer<'a, u16>;

impl Cell for u16 {
    ghost needed = { cells_of };

    ghost none = { refl };

    ghost enough = { cells_enough };

    ghost home = { own_cell };

    ghost within = { cells_within };

    ghost word = { cell_word };

    ghost ten = { cell_ten };

    ghost above = { cell_above };

    ghost written = { cell_written };

    fn needed(extent: Extent) -> usize {
        extent.rows * extent.words
    }

    fn word(memory: &[u16], n: usize) -> u16 {
        memory[n] % 1024
    }

    fn write(memory: &mut [u16], n: usize, bit: bool) {
        memory[n] = with_bit(memory[n], bit);
    }
}

// The cell with its bit 0 replaced.
fn with_bit(cell: u16, bit: bool) -> u16
    ensures { result ≡ with_bit cell bit }
{
    cell / 2 * 2 + u16::from(bit)
}
