// Which sizes a buffer may have, and where a word stands in it.
ghost use Rattle.std.specs.Prelude.{◌≡◌, ◌+◌, ◌*◌, ◌^◌, ◌<◌, IfOk};
ghost use Rattle.raster.specs.Meaning.{answered, Numbered};
ghost use Rattle.buffer.specs.Size.{lawful};

use fault::Fault;
use raster::Extent;

// Whether a buffer may have this extent.
pub(crate) fn is_lawful(extent: Extent) -> bool
    ensures { result ≡ lawful extent }
{
    (1..=1088).contains(&extent.rows) && (4..=3840).contains(&extent.words) && extent.words % 4 == 0
}

// The number of the word at a row and a place, counted along the rows.
#[tactic(auto, using(crate::proofs::Places::before_end))]
pub(crate) fn index(extent: Extent, row: usize, place: usize) -> Result<usize, Fault>
    requires { extent.rows * extent.words < 2 ^ 64 }
    ensures answer { result ≡ answered extent.rows extent.words row place (row * extent.words + place) }
    ensures within { IfOk result (Numbered extent.rows extent.words row place) }
{
    extent.check(row, place)?;
    Ok(row * extent.words + place)
}
