// Placing records on the macroblocks of an open picture.
ghost use Rattle.std.specs.Prelude.{◌≡◌, ℕ, ◌<◌, IfOk, Ok};
ghost use Rattle.column.specs.Column.{carried_rows, OthersKept, OnlyLowBits, FewDiffer};
ghost use Rattle.block.specs.Code.{decoded};
ghost use Rattle.fault.specs.Refusing.{done};
ghost use Rattle.inserter.specs.Place.{flags_of, block_for, placing, placed_at, Ready};

use crate::Picture;
use block::write_block;
use fault::Fault;
use image::SealedImage;
use raster::{Extent, Raster};
use record::{Block, PictureFlags, Record, check_record};

impl Picture<'_> {
    // Places a record on a macroblock under an image: writes the block in its column of the slab. The column then carries it, and
    // nothing moves but bit 0 of even words of the column.
    pub fn place<R: Raster>(
        &self,
        stripe: usize,
        column: usize,
        slab: &mut R,
        image: &SealedImage,
        record: &Record,
    ) -> Result<(), Fault>
        ensures answer { result ≡ done (placing self.now.format self.now.first stripe column (R.Raster.rows slab.old) (R.Raster.words slab.old) image.now.bytes «record».now) }
        ensures kept { R.Raster.kept slab.old slab.new }
        ensures after { (i j : ℕ) → i < R.Raster.rows slab.old → j < R.Raster.words slab.old → R.Raster.at slab.new i j ≡ placed_at (placing self.now.format self.now.first stripe column (R.Raster.rows slab.old) (R.Raster.words slab.old) image.now.bytes «record».now) (R.Raster.at slab.old) column i j }
        ensures reads { result ≡ Ok tt → decoded (carried_rows (R.Raster.at slab.new) column) ≡ Ok (block_for self.now.format self.now.first stripe column image.now.bytes «record».now) }
        ensures others { OthersKept (R.Raster.at slab.old) (R.Raster.at slab.new) (R.Raster.rows slab.old) (R.Raster.words slab.old) column }
        ensures only { OnlyLowBits (R.Raster.at slab.old) (R.Raster.at slab.new) (R.Raster.rows slab.old) (R.Raster.words slab.old) column }
        ensures few { FewDiffer (R.Raster.at slab.old) (R.Raster.at slab.new) (R.Raster.rows slab.old) (R.Raster.words slab.old) }
    {
        let block = self.block_for(stripe, column, (*slab).extent(), image, record)?;
        write_block(slab, column, &block)
    }

    // The block to write, once all is judged, and what writing it takes.
    fn block_for(
        &self,
        stripe: usize,
        column: usize,
        slab: Extent,
        image: &SealedImage,
        record: &Record,
    ) -> Result<Block, Fault>
        ensures answer { result ≡ placing self.now.format self.now.first stripe column slab.rows slab.words image.now.bytes «record».now }
        ensures ready { IfOk result (Ready self.now.format self.now.first stripe column slab.rows slab.words image.now.bytes «record».now) }
    {
        self.judge(stripe, column, slab, image, record)
    }

    fn judge(
        &self,
        stripe: usize,
        column: usize,
        slab: Extent,
        image: &SealedImage,
        record: &Record,
    ) -> Result<Block, Fault>
        ensures { result ≡ placing self.now.format self.now.first stripe column slab.rows slab.words image.now.bytes «record».now }
    {
        if !self.format.fits_slab(slab) {
            return Err(Fault::SlabExtent);
        }
        let reference = self.format.reference(self.first, stripe, column)?;
        let index = self.format.index(stripe, column)?;
        check_record(record)?;
        if image.is_frame() != self.format.is_frame() {
            return Err(Fault::FrameOrField);
        }
        let element = image.element(index).ok_or(Fault::SlotNumber)?;
        Ok(Block {
            picture: flags_of(image),
            reference,
            element,
            record: *record,
        })
    }
}

// The flags of every block of a picture with this image.
pub fn flags_of(image: &SealedImage) -> PictureFlags
    ensures { result ≡ flags_of image.now.bytes }
{
    PictureFlags {
        fr_fl_srib: image.is_frame(),
        top_field_first: image.top_field_first(),
        repeat_first_field: image.repeat_first_field(),
        chroma_422_420: image.is_422(),
        q_scale_type: image.q_scale_type(),
    }
}
