// The four formats, and the columns of their table.
ghost use Rattle.std.specs.Prelude.{◌≡◌, ◌≤◌, Some};
ghost use Rattle.format.specs.Formats.{line_of_table, number_of, columns_of, stripes_of, carriers_of, frame_of, format_of, accepted, slab_of, is_slab, Listed, Used};
ghost use Rattle.format.specs.Carriers.{EachCarried, SomeNoMore, LeftOfSets, LeftOfLists};

use crate::laws::{every_element_has_its_carriers, table_is_whole};
use fault::Fault;
use raster::Extent;

// What a picture measures, and how many macroblocks carry each element of its image.
#[derive(Clone, Copy, Debug, PartialEq, Eq)]
pub enum Format {
    Frame1080,
    Field1080,
    Frame720,
    Bench,
}

// A line of the table: the format's number, its columns and stripes of 16 × 16 luma samples, how many macroblocks carry an element at
// the least, and whether its pictures are frames (else they are fields).
#[derive(Clone, Copy)]
struct Line {
    number: u32,
    columns: usize,
    stripes: usize,
    carriers: usize,
    frame: bool,
}

// The format of a number, 1 to 4.
impl TryFrom<u32> for Format {
    type Error = Fault;

    ghost try_from_gives = { λ number answer. answer ≡ accepted number };

    fn try_from(number: u32) -> Result<Format, Fault>
        ensures answer { result ≡ accepted number }
        ensures listed { Listed }
        ensures used { Used }
    {
        table_is_whole();
        match number {
            1 => Ok(Format::Frame1080),
            2 => Ok(Format::Field1080),
            3 => Ok(Format::Frame720),
            4 => Ok(Format::Bench),
            _ => Err(Fault::Format),
        }
    }
}

impl Format {
    fn line(self) -> Line
        ensures { result ≡ line_of_table self }
    {
        match self {
            Format::Frame1080 => Line {
                number: 1,
                columns: 120,
                stripes: 68,
                carriers: 58,
                frame: true,
            },
            Format::Field1080 => Line {
                number: 2,
                columns: 120,
                stripes: 34,
                carriers: 29,
                frame: false,
            },
            Format::Frame720 => Line {
                number: 3,
                columns: 80,
                stripes: 45,
                carriers: 24,
                frame: true,
            },
            Format::Bench => Line {
                number: 4,
                columns: 45,
                stripes: 3,
                carriers: 1,
                frame: true,
            },
        }
    }

    pub fn number(self) -> u32
        ensures number { result ≡ number_of self }
        ensures back { format_of result ≡ Some self }
    {
        self.line().number
    }

    // How many macroblocks a stripe has.
    pub fn columns(self) -> usize
        ensures columns { result ≡ columns_of self }
        ensures few { result ≤ 120 }
    {
        self.line().columns
    }

    // How many stripes a picture has.
    pub fn stripes(self) -> usize
        ensures stripes { result ≡ stripes_of self }
        ensures few { result ≤ 68 }
    {
        self.line().stripes
    }

    // How many macroblocks carry an element at the least.
    pub fn carriers(self) -> usize
        ensures carriers { result ≡ carriers_of self }
        ensures carried { EachCarried }
        ensures least { SomeNoMore }
        ensures sets { LeftOfSets }
        ensures lists { LeftOfLists }
    {
        every_element_has_its_carriers();
        self.line().carriers
    }

    // Whether its pictures are frames; else they are fields.
    pub fn is_frame(self) -> bool
        ensures { result ≡ frame_of self }
    {
        self.line().frame
    }

    // The extent of a slab, which holds one stripe.
    pub fn slab(self) -> Extent
        ensures { result ≡ slab_of self }
    {
        Extent {
            rows: 16,
            words: 32 * self.columns(),
        }
    }

    // Whether a raster of this extent can be one.
    pub fn fits_slab(self, extent: Extent) -> bool
        ensures { result ≡ is_slab self extent.rows extent.words }
    {
        extent == self.slab()
    }
}
