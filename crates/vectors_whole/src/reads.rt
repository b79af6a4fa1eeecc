// Answers about reading: rows are embedded in one column of a slab, and a column is read.
use crate::memory::{OnSlab, SlabCase};
use cases::{BlockLine, Stop, Words};
use column::embed;
use extractor::read;
use fault::Fault;
use raster::Raster;
use record::Block;
use std::alloc::Global;

pub fn read_case(heap: Global, case: &mut Words<'_>) -> Result<String, Stop> {
    let slab = SlabCase::of(case)?;
    let reading = Reading::of(case)?;
    let line = BlockLine(slab.filled(heap)?.lend(reading)?);
    Ok(format!(in heap; "{line}")?)
}

// What is read, and the rows that are embedded first.
#[derive(Drop)]
struct Reading {
    number: u32,
    column: usize,
    at: usize,
    rows: [u16; 16],
}

impl Reading {
    fn of(case: &mut Words<'_>) -> anyhow::Result<Reading> {
        Ok(Reading {
            number: case.take()?,
            column: case.take()?,
            at: case.take()?,
            rows: case.rows()?,
        })
    }
}

impl OnSlab for Reading {
    type Said = Result<Block, Fault>;

    // Where there is no column to embed in, nothing is embedded.
    fn on<R: Raster>(self, slab: &mut R) -> Result<Block, Fault> {
        let _ = embed(slab, self.at, &self.rows);
        read(self.number, self.column, &*slab)
    }
}
