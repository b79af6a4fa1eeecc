// What the data rows of a block spell, and whether they are well-formed.
ghost use Rattle.std.specs.Prelude.{◌≡◌, ◌/◌, ◌+◌, ◌-◌, ◌*◌, ◌%◌, ◌^◌, ◌<◌, ◌≤◌, true, ◌==◌};
ghost use Rattle.record.specs.Layout.{layout, Sync, Reference, Element, sync_code, is_one, signed, flags_with, record_with, found, data_rows, block_of, has_sync, clear_from, reserved_clear};
ghost use Rattle.record.specs.Laws.{Fitting, EncodingUndoesDecoding, SpeltOnce};

use crate::laws::layout_stands;
use crate::{Block, PictureFlags, Record, SYNC_CODE};

// Whether the rows begin with the sync code.
#[tactic(auto, unfolding(crate::specs::Layout::has_sync))]
pub fn has_sync(rows: &[u16; 14]) -> bool
    ensures { result ≡ has_sync rows.now }
{
    bits::<5>(rows[0], 11) == SYNC_CODE
}

// Whether all reserved bits, which stand at the ends of rows, are 0.
#[tactic(auto, unfolding(crate::specs::Layout::reserved_clear))]
pub fn reserved_clear(rows: &[u16; 14]) -> bool
    ensures { result ≡ reserved_clear rows.now }
{
    bits::<2>(rows[6], 0) == 0
        && bits::<1>(rows[7], 0) == 0
        && bits::<3>(rows[8], 0) == 0
        && bits::<3>(rows[10], 0) == 0
        && bits::<3>(rows[11], 0) == 0
        && bits::<2>(rows[12], 0) == 0
        && bits::<8>(rows[13], 0) == 0
}

// The block that the rows spell, whatever their sync code and reserved bits are. It always fits the widths, and its data rows are
// these rows if they are well-formed.
pub fn block_of(rows: &[u16; 14]) -> Block
    ensures answer { result ≡ block_of rows.now }
    ensures fitting { Fitting result }
    ensures back { has_sync rows.now ≡ true → reserved_clear rows.now ≡ true → data_rows result ≡ rows.now }
    ensures redone { EncodingUndoesDecoding }
    ensures once { SpeltOnce }
{
    layout_stands();
    spelt(rows)
}

#[tactic(auto, unfolding(crate::specs::Layout::block_of))]
fn spelt(rows: &[u16; 14]) -> Block
    ensures { result ≡ block_of rows.now }
{
    Block {
        picture: picture_of(rows),
        reference: reference_of(rows),
        element: element_of(rows),
        record: record_of(rows),
    }
}

fn picture_of(rows: &[u16; 14]) -> PictureFlags
    ensures { result ≡ flags_with (found rows.now) }
{
    PictureFlags {
        fr_fl_srib: flag(rows[0], 10),
        top_field_first: flag(rows[0], 9),
        repeat_first_field: flag(rows[0], 8),
        chroma_422_420: flag(rows[0], 7),
        q_scale_type: flag(rows[0], 6),
    }
}

fn reference_of(rows: &[u16; 14]) -> u16
    ensures { result ≡ found rows.now Reference }
{
    rows[1]
}

// Element, by a shift: to part the rows into bytes for `from_be_bytes` is no plainer.
fn element_of(rows: &[u16; 14]) -> u32
    ensures { result ≡ found rows.now Element }
{
    u32::from(rows[2]) << 16 | u32::from(rows[3])
}

#[tactic(auto, using(crate::proofs::Signs::casts))]
fn record_of(rows: &[u16; 14]) -> Record
    ensures { result ≡ record_with (found rows.now) }
{
    Record {
        mb_quant: flag(rows[0], 5),
        mb_mfwd: flag(rows[0], 4),
        mb_mbwd: flag(rows[0], 3),
        mb_pattern: flag(rows[0], 2),
        mb_intra: flag(rows[0], 1),
        dct_type: flag(rows[0], 0),
        mv000: component::<13>(rows[4]),
        mv001: component::<9>(rows[5]),
        mv010: component::<13>(rows[6]),
        mv011: component::<9>(rows[7]),
        mv100: component::<13>(rows[8]),
        mv101: component::<9>(rows[9]),
        mv110: component::<13>(rows[10]),
        mv111: component::<9>(rows[11]),
        motion_type: bits::<2>(rows[4], 1) as u8,
        skipped_mb: flag(rows[4], 0),
        num_other_bits: bits::<7>(rows[5], 0) as u8,
        slice_start_flag: flag(rows[6], 2),
        num_mv_bits: mv_bits(rows[7], rows[9]),
        q_scale_code: bits::<5>(rows[9], 2) as u8,
        mb_vert_field_sel: bits::<4>(rows[11], 3) as u8,
        num_coef_bits: bits::<14>(rows[12], 2),
        coded_block_pattern: bits::<8>(rows[13], 8) as u8,
    }
}

// num_mv_bits, the upper 6 bits of which stand in row 7 and the lower 2 in row 9. The clause is what the table computes to.
fn mv_bits(row_7: u16, row_9: u16) -> u8
    ensures { result ≡ row_7 / 2 % 64 * 4 + (row_9 / 1 % 4 * 1 + 0) }
{
    (bits::<6>(row_7, 1) * 4 + bits::<2>(row_9, 0)) as u8
}

// The flag of a row after which so many bits follow.
fn flag(row: u16, after: u32) -> bool
    requires { after < 16 }
    ensures { result ≡ is_one (row / 2 ^ after % 2) }
{
    bits::<1>(row, after) == 1
}

// The component of a vector at the front of a row.
fn component<const WIDTH: u32>(row: u16) -> i16
    requires some { 0 < WIDTH }
    requires few { WIDTH < 15 }
    ensures { result ≡ signed WIDTH (row / 2 ^ (16 - WIDTH) % 2 ^ WIDTH) }
{
    signed::<WIDTH>(bits::<WIDTH>(row, 16 - WIDTH))
}

// What WIDTH bits are in two's complement.
#[tactic(auto, using(crate::proofs::Signs::power_small))]
fn signed<const WIDTH: u32>(bits: u16) -> i16
    requires some { 0 < WIDTH }
    requires few { WIDTH < 15 }
    requires small { bits < 2 ^ WIDTH }
    ensures { result ≡ signed WIDTH bits }
{
    if bits < 1 << (WIDTH - 1) {
        bits as i16
    } else {
        bits as i16 - (1 << WIDTH)
    }
}

// The WIDTH bits of a row after which so many others follow.
fn bits<const WIDTH: u32>(row: u16, after: u32) -> u16
    requires few { WIDTH < 16 }
    requires within { after < 16 }
    ensures { result ≡ row / 2 ^ after % 2 ^ WIDTH }
{
    (row >> after) % (1 << WIDTH)
}
