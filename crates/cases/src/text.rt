// How an answer is printed.
ghost use Rattle.std.specs.Prelude.{◌≡◌, Some};
ghost use Rattle.cases.specs.Numbers.{picture_numbers, flag_numbers, vector_numbers, other_numbers};
ghost use Rattle.cases.specs.Text.{refusal_text, rows_text, numbers_text, block_text};

use fault::{Fault, Place};
use record::{Block, PictureFlags, Record};
use std::fmt;

// A refusal: its number, and the slot if it names one.
#[derive(Clone, Copy)]
pub struct Refusal(pub Fault);

impl fmt::Display for Refusal {
    ghost output = { λ r. Some (refusal_text r.0) };

    fn fmt<W: fmt::Write>(&self, f: &mut fmt::Formatter<W>) -> fmt::Result {
        let number = self.0.number();
        match self.0.place() {
            Some(Place::Slot(slot)) => write!(f, "refused {number} {slot}"),
            _ => write!(f, "refused {number}"),
        }
    }
}

// Sixteen rows, in hex.
#[derive(Clone, Copy)]
pub(crate) struct RowsLine(pub [u16; 16]);

impl fmt::Display for RowsLine {
    ghost output = { λ l. Some (rows_text l.0) };

    fn fmt<W: fmt::Write>(&self, f: &mut fmt::Formatter<W>) -> fmt::Result {
        write!(f, "rows")?;
        for row in self.0 {
            write!(f, " {row:04X}")?;
        }
        Ok(())
    }
}

// The numbers of a block, in the order of a case.
#[derive(Clone, Copy)]
pub struct BlockLine(pub Block);

impl fmt::Display for BlockLine {
    ghost output = { λ l. Some (block_text l.0) };

    fn fmt<W: fmt::Write>(&self, f: &mut fmt::Formatter<W>) -> fmt::Result {
        let block = &self.0;
        let picture = Numbers(picture_numbers(&block.picture));
        let reference = block.reference;
        let element = block.element;
        let flags = Numbers(flag_numbers(&block.record));
        let vectors = Numbers(vector_numbers(&block.record));
        let others = Numbers(other_numbers(&block.record));
        write!(
            f,
            "block{picture} {reference} {element}{flags}{vectors}{others}"
        )
    }
}

// Each number after a blank.
#[derive(Clone, Copy)]
struct Numbers<const N: usize>([i64; N]);

impl<const N: usize> fmt::Display for Numbers<N> {
    ghost output = { λ numbers. Some (numbers_text numbers.0) };

    #[tactic(auto, unfolding(crate::specs::Text::numbers_text))]
    fn fmt<W: fmt::Write>(&self, f: &mut fmt::Formatter<W>) -> fmt::Result {
        for number in self.0 {
            write!(f, " {number}")?;
        }
        Ok(())
    }
}

// Number by number, here and below: of an array's `map` the search proves five elements, and not six.
fn picture_numbers(flags: &PictureFlags) -> [i64; 5]
    ensures { result ≡ picture_numbers flags.now }
{
    [
        i64::from(flags.fr_fl_srib),
        i64::from(flags.top_field_first),
        i64::from(flags.repeat_first_field),
        i64::from(flags.chroma_422_420),
        i64::from(flags.q_scale_type),
    ]
}

fn flag_numbers(record: &Record) -> [i64; 6]
    ensures { result ≡ flag_numbers «record».now }
{
    [
        i64::from(record.mb_quant),
        i64::from(record.mb_mfwd),
        i64::from(record.mb_mbwd),
        i64::from(record.mb_pattern),
        i64::from(record.mb_intra),
        i64::from(record.dct_type),
    ]
}

fn vector_numbers(record: &Record) -> [i64; 8]
    ensures { result ≡ vector_numbers «record».now }
{
    [
        i64::from(record.mv000),
        i64::from(record.mv010),
        i64::from(record.mv100),
        i64::from(record.mv110),
        i64::from(record.mv001),
        i64::from(record.mv011),
        i64::from(record.mv101),
        i64::from(record.mv111),
    ]
}

fn other_numbers(record: &Record) -> [i64; 9]
    ensures { result ≡ other_numbers «record».now }
{
    [
        i64::from(record.motion_type),
        i64::from(record.skipped_mb),
        i64::from(record.num_other_bits),
        i64::from(record.slice_start_flag),
        i64::from(record.num_mv_bits),
        i64::from(record.q_scale_code),
        i64::from(record.mb_vert_field_sel),
        i64::from(record.num_coef_bits),
        i64::from(record.coded_block_pattern),
    ]
}
