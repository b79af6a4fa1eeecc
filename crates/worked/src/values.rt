// Values that anyone can check by hand.
use buffer::{PackedBuffer, WordBuffer};
use column::{carried, carried_bit, embed, scrambled_bit};
use fault::Fault;
use raster::{Extent, Raster};
use std::test::Fail;

#[test]
fn four_words_in_five_bytes(rt: HostRuntime) -> Result<(), Fail> {
    let mut memory = [0xff, 0xc0, 0x08, 0x00, 0x01];
    let packed = PackedBuffer::new(Extent { rows: 1, words: 4 }, &mut memory);
    assert_eq!(rt; packed.look(0, 0)?, 1023);
    assert_eq!(rt; packed.look(0, 1)?, 0);
    assert_eq!(rt; packed.look(0, 2)?, 512);
    assert_eq!(rt; packed.look(0, 3)?, 1);
    Ok(())
}

// The chroma word after its bit 0 is set to carry a bit, in a buffer of one row.
fn carrying(chroma: u16, luma: u16, bit: bool) -> Result<u16, Fault> {
    let mut memory = [chroma, luma, 0, 0];
    let mut words = WordBuffer::new(Extent { rows: 1, words: 4 }, &mut memory);
    words.set(0, 0, scrambled_bit(chroma, luma, bit))?;
    words.look(0, 0)
}

#[test]
fn scrambled_by_both_parities(rt: HostRuntime) -> Result<(), Fail> {
    assert_eq!(rt; carrying(512, 64, true)?, 513);
    assert_eq!(rt; carrying(1019, 940, true)?, 1018);
    assert!(rt; carried_bit(513, 64));
    assert!(rt; carried_bit(1018, 940));
    Ok(())
}

// Chroma words of 512, in cells whose upper six bits are ones, and luma words of 64.
fn filled() -> [u16; 512] {
    std::array::from_fn(|i| if i % 2 == 0 { 0xfc00 + 512 } else { 64 })
}

#[test]
fn ones_through_a_column(rt: HostRuntime) -> Result<(), Fail> {
    let mut memory = filled();
    let mut slab = WordBuffer::new(
        Extent {
            rows: 16,
            words: 32,
        },
        &mut memory,
    );
    embed(&mut slab, 0, &[0xffff; 16])?;
    assert_eq!(rt; carried(&slab, 0)?, [0xffff; 16]);
    assert_eq!(rt; embed(&mut slab, 1, &[0; 16]), Err(Fault::NotInFormat));
    assert_eq!(rt; slab.look(3, 4)?, 513);
    assert_eq!(rt; slab.look(3, 5)?, 64);
    assert_eq!(rt; slab.look(16, 4), Err(Fault::Outside { row: 16, word: 4 }));
    // the upper six bits stay
    assert_eq!(rt; memory[100], 0xfc00 + 513);
    Ok(())
}
