// How a refusal is told to people: its number, its layer, where it applies and what is wrong.
ghost use Rattle.std.specs.Prelude.{◌≡◌, Some};
ghost use Rattle.fault.specs.Text.{layer_text, place_text, reason_of, fault_text};

use crate::{Fault, Layer, Place};
use std::error::Error;
use std::fmt;

impl fmt::Display for Layer {
    ghost output = { λ layer. Some (layer_text layer) };

    fn fmt<W: fmt::Write>(&self, f: &mut fmt::Formatter<W>) -> fmt::Result {
        match self {
            Layer::Raster => f.pad("raster"),
            Layer::Block => f.pad("block"),
            Layer::Picture => f.pad("picture"),
        }
    }
}

impl fmt::Display for Place {
    ghost output = { λ place. Some (place_text place) };

    fn fmt<W: fmt::Write>(&self, f: &mut fmt::Formatter<W>) -> fmt::Result {
        match self {
            Place::Word { row, word } => write!(f, "row {row}, word {word}"),
            Place::Slot(slot) => write!(f, "slot {slot}"),
        }
    }
}

// What is wrong; of a refusal that names a place, what is wrong with that place.
fn reason(fault: &Fault) -> &'static str
    ensures { result.now ≡ reason_of fault.now }
{
    match fault {
        Fault::Size => "the size is not allowed or the memory has another length",
        Fault::Outside { .. } => "lies outside the raster",
        Fault::Format => "the format is not 1 to 4",
        Fault::FirstReference => "the first reference exceeds 65520",
        Fault::Length => "the data, the element table or the sheet has the wrong length",
        Fault::SlotNumber => "the slot number is outside its table",
        Fault::SlabExtent => "the slab's extent is not that of the format",
        Fault::NotInFormat => "the stripe or the column is not in the format",
        Fault::ComponentWidth => "a component of the record does not fit its width",
        Fault::Sync => "the sync code is not 11111",
        Fault::BlockCheck => "the block's check does not fit",
        Fault::ReservedBit => "a reserved bit is 1",
        Fault::ReferenceRange => "the reference exceeds 65520",
        Fault::RecordRule => "the record breaks a rule on mb_intra or skipped_mb",
        Fault::FrameOrField => "frame or field differs from the format",
        Fault::UnexpectedReference => "the reference is not the one expected",
        Fault::EmptySlot(_) => "is empty",
        Fault::DisputedSlot(_) => "is disputed",
        Fault::ImageCheck => "the image's check does not fit",
        Fault::MpegStandard => "the MPEG standard flag is 1",
        Fault::PictureStructure => "picture_structure is 0",
        Fault::ChromaFormat => "chroma_format is 0 or 3",
        Fault::SpareBit => "a spare bit is 1",
    }
}

impl fmt::Display for Fault {
    ghost output = { λ fault. Some (fault_text fault) };

    fn fmt<W: fmt::Write>(&self, f: &mut fmt::Formatter<W>) -> fmt::Result {
        let number = self.number();
        let layer = self.layer();
        let reason = reason(self);
        match self.place() {
            None => write!(f, "{number} {layer}: {reason}"),
            Some(place) => write!(f, "{number} {layer}: {place} {reason}"),
        }
    }
}

impl Error for Fault {}
