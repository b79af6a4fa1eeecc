// Gathering a picture of three slabs.
ghost use Rattle.std.specs.Prelude.{◌≡◌, length, Ok};
ghost use Rattle.bench.specs.Memory.{memories, memory};
ghost use Rattle.survey.specs.Picture.{surveyed, surveyed_by};

use crate::report::Survey;
use bench::{Slabs, gather_picture, start_picture};
use extractor::{Gathering, deliver};
use fault::Fault;
use image::SealedImage;
use record::Record;
use slots::{Slot, Table};

// Gathers the macroblocks in order of position from reference 0, and asks for the image. The sheet serves one stripe after the other.
pub(crate) fn survey_picture(slabs: &mut Slabs) -> Result<Survey, Fault>
    ensures answer { result ≡ Ok (surveyed (memory slabs.old)) }
    ensures slabs { memories slabs.new.stripes ≡ memories slabs.old.stripes }
{
    let mut slots = [Slot::Empty; 135];
    let mut sheet = [Slot::Empty; 45];
    let mut table = Table::new(&mut slots);
    let gathering = start_picture(&mut table)?;
    Ok(survey_stripes(&gathering, slabs, &mut table, &mut sheet))
}

fn survey_stripes(
    gathering: &Gathering,
    slabs: &mut Slabs,
    table: &mut Table<'_, u32>,
    sheet: &mut [Slot<Record>],
) -> Survey
    requires { (length table.old.slots.now ≡ 135) × (length sheet.old ≡ 45) }
    ensures answer { result ≡ surveyed_by gathering.now (memory slabs.old) table.old.slots.now }
    ensures slabs { memories slabs.new.stripes ≡ memories slabs.old.stripes }
    ensures name { table.new.slots.ghost_name ≡ table.old.slots.ghost_name }
{
    let tallies = gather_picture(gathering, slabs, table, sheet);
    let mut image = SealedImage::blank();
    Survey {
        tallies,
        delivered: deliver(&*table, &mut image),
    }
}
