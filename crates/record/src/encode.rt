// The data rows of a block: a function for each, filled from the most significant bit.
ghost use Rattle.std.specs.Prelude.{◌≡◌, ◌+◌, ◌*◌, ◌^◌, ◌<◌, ◌≤◌, true, IfOk, fold};
ghost use Rattle.record.specs.Layout.{bit, twos, row_of, data_rows, block_of};
ghost use Rattle.record.specs.Laws.{Formed, RowsFilled, DecodingUndoesEncoding, Samples};
ghost use Rattle.record.specs.Rules.{fits_signed, Within, encoded};

use crate::laws::layout_stands;
use crate::{Block, SYNC_CODE, check_record};
use fault::Fault;

// The data rows, well-formed and spelling the block. Refuses as `check_record` does.
pub fn data_rows(block: &Block) -> Result<[u16; 14], Fault>
    ensures answer { result ≡ encoded block.now }
    ensures formed { IfOk result Formed }
    ensures back { IfOk result (λ rows. block_of rows ≡ block.now) }
    ensures undone { DecodingUndoesEncoding }
    ensures filled { RowsFilled }
    ensures samples { Samples }
{
    layout_stands();
    check_record(&block.record)?;
    Ok(Fitted { block }.rows())
}

// A block whose numbers fit their widths.
#[derive(Clone, Copy)]
struct Fitted<'a> {
    block: &'a Block,
    ghost within: { Within block.now.«record» },
}

// A function for each row, filled from the most significant bit.
impl Fitted<'_> {
    fn rows(&self) -> [u16; 14]
        ensures value { result ≡ data_rows self.now.block.now }
        ensures formed { Formed result }
        ensures back { block_of result ≡ self.now.block.now }
    {
        self.filled()
    }

    #[tactic(auto, unfolding(crate::specs::Layout::data_rows))]
    fn filled(&self) -> [u16; 14]
        ensures value { result ≡ data_rows self.now.block.now }
        ensures reference { self.now.block.now.reference < 2 ^ 16 }
        ensures element { self.now.block.now.element < 2 ^ 32 }
    {
        [
            self.row_0(),
            self.row_1(),
            self.row_2(),
            self.row_3(),
            self.row_4(),
            self.row_5(),
            self.row_6(),
            self.row_7(),
            self.row_8(),
            self.row_9(),
            self.row_10(),
            self.row_11(),
            self.row_12(),
            self.row_13(),
        ]
    }

    // Row 0: sync 5, the picture's flags 5, the flags of the macroblock's type 6.
    fn row_0(&self) -> u16
        ensures { result ≡ row_of self.now.block.now 0 }
    {
        let picture = &self.block.picture;
        let record = &self.block.record;
        SYNC_CODE * 2048
            + joined([
                picture.fr_fl_srib,
                picture.top_field_first,
                picture.repeat_first_field,
                picture.chroma_422_420,
                picture.q_scale_type,
                record.mb_quant,
                record.mb_mfwd,
                record.mb_mbwd,
                record.mb_pattern,
                record.mb_intra,
                record.dct_type,
            ])
    }

    // Row 1: reference 16.
    fn row_1(&self) -> u16
        ensures { result ≡ row_of self.now.block.now 1 }
    {
        self.block.reference
    }

    // Row 2: the upper 16 bits of element, by a shift: to join two bytes of `to_be_bytes` is no plainer. That element has no more than 32 is said here, where it is read.
    fn row_2(&self) -> u16
        ensures value { result ≡ row_of self.now.block.now 2 }
        ensures narrow { self.now.block.now.element < 2 ^ 32 }
    {
        (self.block.element >> 16) as u16
    }

    // Row 3: the lower 16 bits of element.
    fn row_3(&self) -> u16
        ensures { result ≡ row_of self.now.block.now 3 }
    {
        (self.block.element & 0xffff) as u16
    }

    // Row 4: mv000 13, motion_type 2, skipped_mb 1.
    fn row_4(&self) -> u16
        ensures { result ≡ row_of self.now.block.now 4 }
    {
        let record = &self.block.record;
        twos_complement::<13>(record.mv000) * 8
            + u16::from(record.motion_type) * 2
            + u16::from(record.skipped_mb)
    }

    // Row 5: mv001 9, num_other_bits 7.
    fn row_5(&self) -> u16
        ensures { result ≡ row_of self.now.block.now 5 }
    {
        twos_complement::<9>(self.block.record.mv001) * 128
            + u16::from(self.block.record.num_other_bits)
    }

    // Row 6: mv010 13, slice_start_flag 1, reserved 2.
    fn row_6(&self) -> u16
        ensures { result ≡ row_of self.now.block.now 6 }
    {
        twos_complement::<13>(self.block.record.mv010) * 8
            + u16::from(self.block.record.slice_start_flag) * 4
    }

    // Row 7: mv011 9, the upper 6 bits of num_mv_bits, reserved 1.
    fn row_7(&self) -> u16
        ensures { result ≡ row_of self.now.block.now 7 }
    {
        twos_complement::<9>(self.block.record.mv011) * 128
            + u16::from(self.block.record.num_mv_bits / 4) * 2
    }

    // Row 8: mv100 13, reserved 3.
    fn row_8(&self) -> u16
        ensures { result ≡ row_of self.now.block.now 8 }
    {
        twos_complement::<13>(self.block.record.mv100) * 8
    }

    // Row 9: mv101 9, q_scale_code 5, the lower 2 bits of num_mv_bits.
    fn row_9(&self) -> u16
        ensures { result ≡ row_of self.now.block.now 9 }
    {
        let record = &self.block.record;
        twos_complement::<9>(record.mv101) * 128
            + u16::from(record.q_scale_code) * 4
            + u16::from(record.num_mv_bits % 4)
    }

    // Row 10: mv110 13, reserved 3.
    fn row_10(&self) -> u16
        ensures { result ≡ row_of self.now.block.now 10 }
    {
        twos_complement::<13>(self.block.record.mv110) * 8
    }

    // Row 11: mv111 9, mb_vert_field_sel 4, reserved 3.
    fn row_11(&self) -> u16
        ensures { result ≡ row_of self.now.block.now 11 }
    {
        twos_complement::<9>(self.block.record.mv111) * 128
            + u16::from(self.block.record.mb_vert_field_sel) * 8
    }

    // Row 12: num_coef_bits 14, reserved 2.
    fn row_12(&self) -> u16
        ensures { result ≡ row_of self.now.block.now 12 }
    {
        self.block.record.num_coef_bits * 4
    }

    // Row 13: coded_block_pattern 8, reserved 8.
    fn row_13(&self) -> u16
        ensures { result ≡ row_of self.now.block.now 13 }
    {
        u16::from(self.block.record.coded_block_pattern) * 256
    }
}

// Flags as a number, the first in the most significant bit.
fn joined<const N: usize>(flags: [bool; N]) -> u16
    requires { N ≤ 16 }
    ensures value { result ≡ fold (λ number flag. number * 2 + bit flag) 0 flags.entry }
    ensures small { result < 2 ^ N }
{
    let mut number = 0;
    for flag in flags {
        number = number * 2 + u16::from(flag);
    }
    number
}

// A number in two's complement of WIDTH bits: modulo 2 ^ WIDTH.
#[tactic(auto, using(crate::proofs::Signs::powers))]
fn twos_complement<const WIDTH: u32>(x: i16) -> u16
    requires few { WIDTH < 15 }
    requires fits { fits_signed WIDTH x ≡ true }
    ensures value { result ≡ twos WIDTH x }
    ensures small { result < 2 ^ WIDTH }
{
    x.rem_euclid(1 << WIDTH) as u16
}
