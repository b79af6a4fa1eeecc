// Reading the macroblocks back.
ghost use Rattle.carry_picture.specs.Content.{block_at};

use crate::content::{BlankImage, zero_record};
use bench::{Reader, Spot};
use extractor::read;
use fault::Fault;
use format::Format;
use inserter::flags_of;
use raster::Raster;
use record::Block;

impl Reader for BlankImage {
    ghost block = { block_at };

    fn block(&self, spot: Spot) -> Block {
        let position = spot.position();
        Block {
            picture: flags_of(&self.sealed),
            reference: position as u16,
            element: self.sealed.element(position).unwrap_or(0),
            record: zero_record(),
        }
    }

    fn read<R: Raster>(&self, slab: &R, spot: Spot) -> Result<Block, Fault> {
        read(Format::Bench.number(), spot.column, slab)
    }
}
