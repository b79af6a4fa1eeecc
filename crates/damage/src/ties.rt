// The calls as steps of a run. Each function makes one call, and its contract says that what the call promises, of any raster, is the step
// of every chain that it could be made in. Where this takes an answer of ours, the call itself stands alone in a function below, which the
// check proves with none, so that a wrong call is refused there.
ghost use Rattle.std.specs.Prelude.{◌≡◌, ℕ, ◌<◌, length};
ghost use Rattle.fault.specs.Refusing.{done};
ghost use Rattle.format.specs.Formats.{next_first};
ghost use Rattle.image.specs.Elements.{elements_of, joined};
ghost use Rattle.image.specs.Image.{sealing, overwritten};
ghost use Rattle.inserter.specs.Place.{placing, placed_at};
ghost use Rattle.extractor.specs.Gather.{starting, gathered};
ghost use Rattle.extractor.specs.Delivery.{delivering};
ghost use Rattle.damage.specs.Ties.{grid_of, StepsMakeARun, IsImage, PlaceStep, GatherStep, StartStep, DeliverStep, SealStep, OpenStep, CloseStep, Places, Gathers};

use extractor::{Gathering, deliver, start};
use fault::Fault;
use image::SealedImage;
use inserter::{Counter, Picture};
use raster::Raster;
use record::{Block, Record};
use slots::Table;

// Steps make a run of the law. Nothing runs, callers learn it.
pub fn steps_make_a_run()
    ensures { StepsMakeARun }
{}

// The elements of an image. Any image can be one of a run.
pub fn image_in_run(image: &SealedImage) -> [u32; 135]
    ensures answer { result ≡ elements_of image.now.bytes }
    ensures image { IsImage image.now.bytes }
{
    elements_from(image)
}

fn elements_from(image: &SealedImage) -> [u32; 135]
    ensures elements { result ≡ elements_of image.now.bytes }
    ensures back { joined result ≡ image.now.bytes }
{
    image.elements()
}

// Places a record on a macroblock of an open picture.
pub fn place_in_run<R: Raster>(
    picture: &Picture<'_>,
    stripe: usize,
    column: usize,
    slab: &mut R,
    image: &SealedImage,
    record: &Record,
) -> Result<(), Fault>
    ensures answer { result ≡ done (placing picture.now.format picture.now.first stripe column (R.Raster.rows slab.old) (R.Raster.words slab.old) image.now.bytes «record».now) }
    ensures kept { R.Raster.kept slab.old slab.new }
    ensures step { PlaceStep picture.now.format picture.now.first stripe column image.now.bytes «record».now (grid_of R.Raster.rows R.Raster.words R.Raster.at slab.old) (grid_of R.Raster.rows R.Raster.words R.Raster.at slab.new) result }
{
    place_on(picture, stripe, column, slab, image, record)
}

fn place_on<R: Raster>(
    picture: &Picture<'_>,
    stripe: usize,
    column: usize,
    slab: &mut R,
    image: &SealedImage,
    record: &Record,
) -> Result<(), Fault>
    ensures kept { R.Raster.kept slab.old slab.new }
    ensures places { Places picture.now.format picture.now.first stripe column image.now.bytes «record».now (grid_of R.Raster.rows R.Raster.words R.Raster.at slab.old) (grid_of R.Raster.rows R.Raster.words R.Raster.at slab.new) result }
{
    placed_on(picture, stripe, column, slab, image, record)
}

// The call alone: its answer, what is kept, and each word.
fn placed_on<R: Raster>(
    picture: &Picture<'_>,
    stripe: usize,
    column: usize,
    slab: &mut R,
    image: &SealedImage,
    record: &Record,
) -> Result<(), Fault>
    ensures answer { result ≡ done (placing picture.now.format picture.now.first stripe column (R.Raster.rows slab.old) (R.Raster.words slab.old) image.now.bytes «record».now) }
    ensures kept { R.Raster.kept slab.old slab.new }
    ensures after { (i j : ℕ) → i < R.Raster.rows slab.old → j < R.Raster.words slab.old → R.Raster.at slab.new i j ≡ placed_at (placing picture.now.format picture.now.first stripe column (R.Raster.rows slab.old) (R.Raster.words slab.old) image.now.bytes «record».now) (R.Raster.at slab.old) column i j }
{
    picture.place(stripe, column, slab, image, record)
}

// Gathers a macroblock.
pub fn gather_in_run<R: Raster>(
    gathering: &Gathering,
    stripe: usize,
    column: usize,
    slab: &R,
    table: &mut Table<'_, u32>,
    sheet: &mut Table<'_, Record>,
) -> Result<Block, Fault>
    ensures answer { result ≡ gathered gathering.now stripe column (R.Raster.rows slab.now) (R.Raster.words slab.now) (R.Raster.at slab.now) (length table.old.slots.now) (length sheet.old.slots.now) }
    ensures step { GatherStep gathering.now stripe column (grid_of R.Raster.rows R.Raster.words R.Raster.at slab.now) table.old.slots.now table.new.slots.now sheet.old.slots.now sheet.new.slots.now result }
    ensures table_name { table.new.slots.ghost_name ≡ table.old.slots.ghost_name }
    ensures sheet_name { sheet.new.slots.ghost_name ≡ sheet.old.slots.ghost_name }
{
    gather_from(gathering, stripe, column, slab, table, sheet)
}

fn gather_from<R: Raster>(
    gathering: &Gathering,
    stripe: usize,
    column: usize,
    slab: &R,
    table: &mut Table<'_, u32>,
    sheet: &mut Table<'_, Record>,
) -> Result<Block, Fault>
    ensures gathers { Gathers gathering.now stripe column (grid_of R.Raster.rows R.Raster.words R.Raster.at slab.now) table.old.slots.now table.new.slots.now sheet.old.slots.now sheet.new.slots.now result }
    ensures table_name { table.new.slots.ghost_name ≡ table.old.slots.ghost_name }
    ensures sheet_name { sheet.new.slots.ghost_name ≡ sheet.old.slots.ghost_name }
{
    gathering.gather(stripe, column, slab, table, sheet)
}

// Begins to gather a picture.
pub fn start_in_run(number: u32, first: u32, table: &mut Table<'_, u32>) -> Result<Gathering, Fault>
    ensures answer { result ≡ starting number first (length table.old.slots.now) }
    ensures step { StartStep number first table.old.slots.now table.new.slots.now result }
    ensures name { table.new.slots.ghost_name ≡ table.old.slots.ghost_name }
{
    start(number, first, table)
}

// Delivers a picture's image.
pub fn deliver_in_run(table: &Table<'_, u32>, image: &mut SealedImage) -> Result<(), Fault>
    ensures answer { result ≡ done (delivering table.now.slots.now) }
    ensures step { DeliverStep table.now.slots.now image.old.bytes image.new.bytes result }
{
    deliver_into(table, image)
}

fn deliver_into(table: &Table<'_, u32>, image: &mut SealedImage) -> Result<(), Fault>
    ensures answer { result ≡ done (delivering table.now.slots.now) }
    ensures image { image.new.bytes ≡ overwritten (delivering table.now.slots.now) image.old.bytes }
{
    deliver(table, image)
}

// Seals data.
pub fn seal_in_run(data: &[u8], image: &mut SealedImage) -> Result<(), Fault>
    ensures answer { result ≡ done (sealing «data».now) }
    ensures step { SealStep «data».now image.old.bytes image.new.bytes result }
{
    image.seal(data)
}

// Opens a picture.
pub fn open_in_run(counter: &mut Counter) -> Picture<'_>
    ensures step { OpenStep counter.old.format counter.old.next result.format result.first }
    ensures counter { (result.counter.now.format ≡ counter.old.format) × (result.counter.ghost_name ≡ counter.entry.ghost_name) }
{
    counter.open()
}

// Closes a picture.
pub fn close_in_run(picture: Picture<'_>)
    ensures step { CloseStep picture.entry.format picture.entry.first picture.exit.0.now.next }
    ensures format { picture.exit.0.now.format ≡ picture.entry.counter.now.format }
{
    picture.close();
}

// Leaves a picture, which ends it as well.
pub fn leave_in_run(_picture: Picture<'_>)
    ensures step { CloseStep _picture.entry.format _picture.entry.first _picture.exit.0.now.next }
    ensures format { _picture.exit.0.now.format ≡ _picture.entry.counter.now.format }
{}
