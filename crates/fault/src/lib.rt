// The refusal: one type for every layer, carried whole by `?` from raster to block to picture.
#![tactic(auto)]

ghost use Rattle.std.specs.Prelude.{◌≡◌};
ghost use Rattle.std.proofs.Common.{rules};
ghost use Rattle.fault.specs.Table.{number_of, layer_of, place_of, table_numbers, Listed, Used, Apart, ByNumberAndPlace, Ascending};

use exact::Exact;

mod place;
mod printing;

pub use place::{Layer, Place};

// Why a call refused. Each case has one number and one layer (specs/Table.antt), and holds its place if it has one.
#[derive(Clone, Copy, Debug, PartialEq, Eq)]
pub enum Fault {
    Size,
    Outside { row: usize, word: usize },
    Format,
    FirstReference,
    Length,
    SlotNumber,
    SlabExtent,
    NotInFormat,
    ComponentWidth,
    Sync,
    BlockCheck,
    ReservedBit,
    ReferenceRange,
    RecordRule,
    FrameOrField,
    UnexpectedReference,
    EmptySlot(usize),
    DisputedSlot(usize),
    ImageCheck,
    MpegStandard,
    PictureStructure,
    ChromaFormat,
    SpareBit,
}

impl Fault {
    pub fn number(&self) -> u8
        ensures { result ≡ number_of self.now }
    {
        match self {
            Fault::Size => 1,
            Fault::Outside { .. } => 2,
            Fault::Format => 3,
            Fault::FirstReference => 4,
            Fault::Length => 5,
            Fault::SlotNumber => 6,
            Fault::SlabExtent => 10,
            Fault::NotInFormat => 11,
            Fault::ComponentWidth => 12,
            Fault::Sync => 13,
            Fault::BlockCheck => 14,
            Fault::ReservedBit => 15,
            Fault::ReferenceRange => 16,
            Fault::RecordRule => 17,
            Fault::FrameOrField => 18,
            Fault::UnexpectedReference => 19,
            Fault::EmptySlot(_) => 20,
            Fault::DisputedSlot(_) => 21,
            Fault::ImageCheck => 22,
            Fault::MpegStandard => 23,
            Fault::PictureStructure => 24,
            Fault::ChromaFormat => 25,
            Fault::SpareBit => 26,
        }
    }

    pub fn layer(&self) -> Layer
        ensures { result ≡ layer_of self.now }
    {
        match self {
            Fault::Size | Fault::Outside { .. } => Layer::Raster,
            Fault::SlabExtent
            | Fault::NotInFormat
            | Fault::ComponentWidth
            | Fault::Sync
            | Fault::BlockCheck
            | Fault::ReservedBit
            | Fault::ReferenceRange
            | Fault::RecordRule => Layer::Block,
            Fault::Format
            | Fault::FirstReference
            | Fault::Length
            | Fault::SlotNumber
            | Fault::FrameOrField
            | Fault::UnexpectedReference
            | Fault::EmptySlot(_)
            | Fault::DisputedSlot(_)
            | Fault::ImageCheck
            | Fault::MpegStandard
            | Fault::PictureStructure
            | Fault::ChromaFormat
            | Fault::SpareBit => Layer::Picture,
        }
    }

    // The place that it names, if it names one.
    pub fn place(&self) -> Option<Place>
        ensures { result ≡ place_of self.now }
    {
        match self {
            Fault::Outside { row, word } => Some(Place::Word {
                row: *row,
                word: *word,
            }),
            Fault::EmptySlot(slot) | Fault::DisputedSlot(slot) => Some(Place::Slot(*slot)),
            _ => None,
        }
    }
}

// `==` holds of a refusal and itself, and of no two others.
impl Exact for Fault {
    ghost exact = { λ x y. Prim.search rules };
}

// That the table has each refusal once: nothing runs, callers learn it.
fn table_is_whole()
    ensures listed { Listed }
    ensures used { Used }
    ensures apart { Apart }
    ensures told { ByNumberAndPlace }
    ensures ascending { Ascending }
{}

// The number of every refusal, in ascending order.
pub fn numbers() -> [u8; 23]
    ensures column { result ≡ table_numbers }
    ensures listed { Listed }
    ensures used { Used }
    ensures apart { Apart }
    ensures told { ByNumberAndPlace }
    ensures ascending { Ascending }
{
    table_is_whole();
    [
        Fault::Size.number(),
        Fault::Outside { row: 0, word: 0 }.number(),
        Fault::Format.number(),
        Fault::FirstReference.number(),
        Fault::Length.number(),
        Fault::SlotNumber.number(),
        Fault::SlabExtent.number(),
        Fault::NotInFormat.number(),
        Fault::ComponentWidth.number(),
        Fault::Sync.number(),
        Fault::BlockCheck.number(),
        Fault::ReservedBit.number(),
        Fault::ReferenceRange.number(),
        Fault::RecordRule.number(),
        Fault::FrameOrField.number(),
        Fault::UnexpectedReference.number(),
        Fault::EmptySlot(0).number(),
        Fault::DisputedSlot(0).number(),
        Fault::ImageCheck.number(),
        Fault::MpegStandard.number(),
        Fault::PictureStructure.number(),
        Fault::ChromaFormat.number(),
        Fault::SpareBit.number(),
    ]
}
