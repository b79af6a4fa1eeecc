// A field over a window over a packed buffer: sets on each word that it shows, and none beside.
use buffer::PackedBuffer;
use fault::Fault;
use layer::{Bounds, Field, FieldKind, Window};
use raster::{Extent, Raster};
use std::process::Abort;
use std::test::Fail;

// The buffer, and the part of it that the window shows: rows 1 to 5 and words 3 to 7, since no row 6 and no word 8 is there.
const BELOW: Extent = Extent { rows: 6, words: 8 };

const BOUNDS: Bounds = Bounds {
    top: 1,
    left: 3,
    size: Extent { rows: 9, words: 9 },
};

fn set_all<R: Raster>(raster: &mut R, bit: bool) -> Result<(), Fault> {
    let Extent { rows, words } = (*raster).extent();
    for row in 0..rows {
        for place in 0..words {
            raster.set(row, place, bit)?;
        }
    }
    Ok(())
}

// Sets all that the pile shows, looks at it through the pile, and says what it is refused outside.
fn set_through(
    rt: &impl Abort,
    memory: &mut [u8],
    kind: FieldKind,
    extent: Extent,
    bit: bool,
) -> Result<(), Fail> {
    let mut packed = PackedBuffer::new(BELOW, memory);
    let mut pile = Field::new(Window::new(&mut packed, BOUNDS), kind);
    assert_eq!(rt; pile.extent(), extent);
    assert_eq!(rt;
        pile.set(extent.rows, 2, bit),
        Err(Fault::Outside {
            row: extent.rows,
            word: 2,
        })
    );
    assert_eq!(rt;
        pile.look(0, extent.words),
        Err(Fault::Outside {
            row: 0,
            word: extent.words,
        })
    );
    set_all(&mut pile, bit)?;
    assert_eq!(rt; pile.look(1, 4)? % 2, u16::from(bit));
    Ok(())
}

// In each row the words from 3 on are one if the pile shows the row, and all others are the other.
fn shown_and_no_other(
    rt: &impl Abort,
    memory: &mut [u8],
    shown: [bool; 6],
    one: u16,
    other: u16,
) -> Result<(), Fail> {
    let packed = PackedBuffer::new(BELOW, memory);
    for (row, is_shown) in shown.into_iter().enumerate() {
        for place in 0..8 {
            let word = if is_shown && place >= 3 { one } else { other };
            assert_eq!(rt; packed.look(row, place)?, word);
        }
    }
    Ok(())
}

#[test]
fn top_field_of_a_window(rt: HostRuntime) -> Result<(), Fail> {
    let mut memory = [0u8; 60];
    set_through(
        &rt,
        &mut memory,
        FieldKind::Top,
        Extent { rows: 3, words: 5 },
        true,
    )?;
    shown_and_no_other(
        &rt,
        &mut memory,
        [false, true, false, true, false, true],
        1,
        0,
    )
}

#[test]
fn bottom_field_of_a_window(rt: HostRuntime) -> Result<(), Fail> {
    let mut memory = [0xffu8; 60];
    set_through(
        &rt,
        &mut memory,
        FieldKind::Bottom,
        Extent { rows: 2, words: 5 },
        false,
    )?;
    shown_and_no_other(
        &rt,
        &mut memory,
        [false, false, true, false, true, false],
        1022,
        1023,
    )
}

#[test]
fn a_size_that_is_refused_has_no_rows(rt: HostRuntime) {
    let mut memory = [0u8; 59];
    assert_eq!(rt; PackedBuffer::check_size(BELOW, 59), Err(Fault::Size));
    assert_eq!(rt; PackedBuffer::check_size(BELOW, 60), Ok(()));
    let packed = PackedBuffer::new(BELOW, &mut memory);
    assert_eq!(rt; packed.extent(), Extent { rows: 0, words: 0 });
    assert_eq!(rt; packed.look(0, 0), Err(Fault::Outside { row: 0, word: 0 }));
}
