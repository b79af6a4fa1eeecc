// What each macroblock of the picture carries: a record of zeros, under the blank image.
ghost use Rattle.std.specs.Prelude.{◌≡◌, true};
ghost use Rattle.image.specs.Image.{is_frame};
ghost use Rattle.carry_picture.specs.Content.{zero_record, blank};

use image::SealedImage;
use record::Record;

// The image of the picture.
#[derive(Drop)]
pub(crate) struct BlankImage {
    pub(crate) sealed: SealedImage,
    ghost blank: { sealed.bytes ≡ blank },
    ghost frame: { is_frame sealed.bytes ≡ true },
}

impl BlankImage {
    pub(crate) fn new() -> BlankImage {
        BlankImage {
            sealed: blank_image(),
        }
    }
}

// Apart from `new`, so that the answer it needs is to its own clauses, and the facts of the type are found alone.
fn blank_image() -> SealedImage
    ensures bytes { result.bytes ≡ blank }
    ensures frame { is_frame result.bytes ≡ true }
{
    SealedImage::blank()
}

pub(crate) fn zero_record() -> Record
    ensures { result ≡ zero_record }
{
    Record::default()
}
