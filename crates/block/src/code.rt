// Encoding a block in 16 rows, and decoding it.
ghost use Rattle.std.specs.Prelude.{◌≡◌, ◌<◌, ◌≤◌, take, is_ok, IfOk, Ok, Err, Decides, OnOk};
ghost use Rattle.fault.specs.declared.Fault.TheVariants.{ReferenceRange};
ghost use Rattle.record.specs.Layout.{data_rows, block_of};
ghost use Rattle.record.specs.Laws.{Formed};
ghost use Rattle.block.specs.Code.{encoded, decoded, WellFormed, NoneNear, OnlyThese};

use crc::{fits, with_check};
use fault::Fault;
use format::LAST_REFERENCE;
use record::{Block, block_of, data_rows, has_sync, reserved_clear};

// The rows of a block. Decoding gives the block back, or refuses with 16 if its reference exceeds 65520.
pub fn encode(block: &Block) -> Result<[u16; 16], Fault>
    ensures answer { result ≡ encoded block.now }
    ensures back { block.now.reference ≤ 65520 → IfOk result (λ rows. decoded rows ≡ Ok block.now) }
    ensures above { 65520 < block.now.reference → IfOk result (λ rows. decoded rows ≡ Err ReferenceRange) }
    ensures burst { IfOk result NoneNear }
{
    rows_of(block)
}

// The block in 16 rows. It accepts exactly the well-formed ones, and encoding gives them back.
pub fn decode(rows: &[u16; 16]) -> Result<Block, Fault>
    ensures answer { result ≡ decoded rows.now }
    ensures accepts { Decides (is_ok result) (WellFormed rows.now) }
    ensures back { IfOk result (λ b. encoded b ≡ Ok rows.now) }
    ensures only { IfOk result (OnlyThese rows.now) }
    ensures burst { OnOk result (NoneNear rows.now) }
{
    judge(rows)
}

fn rows_of(block: &Block) -> Result<[u16; 16], Fault>
    ensures answer { result ≡ encoded block.now }
    ensures spelt { OnOk result (Formed (data_rows block.now) × (block_of (data_rows block.now) ≡ block.now)) }
{
    let data = data_rows(block)?;
    Ok(with_check(&data))
}

// The tests, in checking order.
fn judge(rows: &[u16; 16]) -> Result<Block, Fault>
    ensures { result ≡ decoded rows.now }
{
    let data = data_of(rows);
    if !has_sync(data) {
        return Err(Fault::Sync);
    }
    if !fits(rows) {
        return Err(Fault::BlockCheck);
    }
    if !reserved_clear(data) {
        return Err(Fault::ReservedBit);
    }
    let block = block_of(data);
    if block.reference > LAST_REFERENCE {
        return Err(Fault::ReferenceRange);
    }
    if !block.record.keeps_rules() {
        return Err(Fault::RecordRule);
    }
    Ok(block)
}

// The rows before the check.
fn data_of(rows: &[u16; 16]) -> &[u16; 14]
    ensures { result.now ≡ take 14 rows.now }
{
    rows.first_chunk().unwrap()
}
