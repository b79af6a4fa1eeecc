// One macroblock in a picture of its own.
ghost use Rattle.std.specs.Prelude.{◌≡◌, ℕ, ◌<◌};
ghost use Rattle.fault.specs.Refusing.{done};
ghost use Rattle.format.specs.Formats.{next_first};
ghost use Rattle.inserter.specs.Place.{placing, placed_at};

use crate::Inserter;
use fault::Fault;
use image::SealedImage;
use raster::Raster;
use record::Record;

// Opens a picture and places one record in it. A refused place leaves the picture early, and the references go on all the same.
pub fn place_alone<R: Raster>(
    inserter: &mut Inserter,
    stripe: usize,
    column: usize,
    slab: &mut R,
    image: &SealedImage,
    record: &Record,
) -> Result<(), Fault>
    ensures answer { result ≡ done (placing inserter.old.counter.format inserter.old.counter.next stripe column (R.Raster.rows slab.old) (R.Raster.words slab.old) image.now.bytes «record».now) }
    ensures next { inserter.new.counter.next ≡ next_first inserter.old.counter.format inserter.old.counter.next }
    ensures format { inserter.new.counter.format ≡ inserter.old.counter.format }
    ensures kept { R.Raster.kept slab.old slab.new }
    ensures after { (i j : ℕ) → i < R.Raster.rows slab.old → j < R.Raster.words slab.old → R.Raster.at slab.new i j ≡ placed_at (placing inserter.old.counter.format inserter.old.counter.next stripe column (R.Raster.rows slab.old) (R.Raster.words slab.old) image.now.bytes «record».now) (R.Raster.at slab.old) column i j }
{
    let picture = inserter.counter.open();
    picture.place(stripe, column, slab, image, record)?;
    picture.close();
    Ok(())
}
