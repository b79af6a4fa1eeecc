// A whole picture through reversed slabs.
use crate::Reversed;
use buffer::PackedBuffer;
use extractor::{Gathering, deliver, start};
use fault::Fault;
use image::SealedImage;
use inserter::{Inserter, Picture};
use raster::{Extent, Raster};
use record::Record;
use slots::{Slot, Table};
use std::test::Fail;

const SLAB: Extent = Extent {
    rows: 16,
    words: 1440,
};

fn place_all<R: Raster>(
    picture: &Picture<'_>,
    stripe: usize,
    slab: &mut R,
    image: &SealedImage,
) -> Result<(), Fault> {
    for column in 0..45 {
        picture.place(stripe, column, slab, image, &Record::default())?;
    }
    Ok(())
}

fn gather_all<R: Raster>(
    gathering: &Gathering,
    stripe: usize,
    slab: &R,
    table: &mut Table<'_, u32>,
) -> Result<(), Fault> {
    let mut slots = [Slot::<Record>::Empty; 45];
    let mut sheet = Table::new(&mut slots);
    for column in 0..45 {
        gathering.gather(stripe, column, slab, table, &mut sheet)?;
    }
    Ok(())
}

// An image that differs from the blank one.
fn marked() -> Result<SealedImage, Fault> {
    let mut data = [0; 536];
    data[15] = 0x40;
    data[32] = 0x06;
    data[300] = 0x5a;
    let mut image = SealedImage::blank();
    image.seal(&data)?;
    Ok(image)
}

#[test]
fn a_picture_through_reversed_slabs(rt: HostRuntime) -> Result<(), Fail> {
    let sent = marked()?;
    let mut inserter = Inserter::new(4, 65500)?;
    let mut slots = [Slot::<u32>::Empty; 135];
    let mut table = Table::new(&mut slots);
    let gathering = start(4, 65500, &mut table)?;
    let picture = inserter.counter.open();
    for stripe in 0..3 {
        let mut memory = vec![in rt.alloc(); 0x5cu8; 28800]?;
        let mut packed = PackedBuffer::new(SLAB, &mut memory);
        let mut slab = Reversed::new(&mut packed);
        place_all(&picture, stripe, &mut slab, &sent)?;
        gather_all(&gathering, stripe, &slab, &mut table)?;
    }
    picture.close();
    let mut received = SealedImage::blank();
    deliver(&table, &mut received)?;
    assert!(rt; received == sent);
    Ok(())
}
