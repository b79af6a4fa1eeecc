// Answers about checks and blocks.
ghost use Rattle.std.specs.Prelude.{[], Ok, map, pos};
ghost use Rattle.crc.specs.Register.{check_of, byte_bits};
ghost use Rattle.block.specs.Code.{encoded, decoded};
ghost use Rattle.cases.specs.Answers.{Answers};
ghost use Rattle.cases.specs.Numbers.{block_numbers};
ghost use Rattle.cases.specs.Text.{hex_text, rows_text, block_text};
ghost use Rattle.cases.specs.Words.{left, Spells, SpellsBytes, block_forms, row_forms};

use crate::text::{BlockLine, RowsLine};
use crate::{Stop, Words};
use block::{decode, encode};
use crc::check;
use std::alloc::Global;

// The check over the bytes of a case.
pub fn check_case(heap: Global, case: &mut Words<'_>) -> Result<String, Stop>
    ensures { Answers (SpellsBytes (left case.old)) (λ bytes. Ok (check_of (byte_bits bytes))) (hex_text 8) result }
{
    let bytes = case.bytes(heap)?;
    let check = check(&bytes);
    Ok(format!(in heap; "{check:08X}")?)
}

// The rows of the block of a case.
pub fn encode_case(heap: Global, case: &mut Words<'_>) -> Result<String, Stop>
    ensures { Answers (λ b. Spells block_forms (left case.old) (block_numbers b) []) encoded rows_text result }
{
    let block = case.block()?;
    let line = RowsLine(encode(&block)?);
    Ok(format!(in heap; "{line}")?)
}

// The block that the rows of a case are.
pub fn decode_case(heap: Global, case: &mut Words<'_>) -> Result<String, Stop>
    ensures { Answers (λ rows. Spells row_forms (left case.old) (map pos rows) []) decoded block_text result }
{
    let rows = case.rows()?;
    let line = BlockLine(decode(&rows)?);
    Ok(format!(in heap; "{line}")?)
}
