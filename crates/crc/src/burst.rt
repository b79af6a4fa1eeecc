// A block with its check: 14 rows of 16 bits, and the check over them in rows 14 and 15, high half first.
ghost use Rattle.std.specs.Prelude.{◌≡◌, true, Decides};
ghost use Rattle.crc.specs.Register.{check_of, row_bits};
ghost use Rattle.crc.specs.Burst.{spelled_at, CheckFits, check_fits, Alone, with_check, BurstNeverPasses, EndsAtZero, CheckedFits};

use crate::register::check;

// Whether the check of a block fits: exactly if the register over all 16 rows ends at 0. If it does, then no other block
// fits that differs from this one within two neighbouring rows.
pub fn fits(rows: &[u16; 16]) -> bool
    ensures value { result ≡ check_fits rows.now }
    ensures decides { Decides result (CheckFits rows.now) }
    ensures zero { Decides result (check_of (row_bits rows.now) ≡ 0) }
    ensures alone { result ≡ true → Alone rows.now }
{
    is_fitting(rows)
}

// The rows with their check after them. This block fits, and no other does that differs from it within two neighbouring rows.
pub fn with_check(rows: &[u16; 14]) -> [u16; 16]
    ensures value { result ≡ with_check rows.now }
    ensures fits { CheckFits result }
    ensures alone { Alone result }
{
    checked(rows)
}

// The laws of all blocks, as a program has them by calling this.
pub fn burst_never_passes()
    ensures burst { BurstNeverPasses }
    ensures ends { EndsAtZero }
    ensures checked { CheckedFits }
{}

fn is_fitting(rows: &[u16; 16]) -> bool
    ensures { result ≡ check_fits rows.now }
{
    spelled_check(rows) == check(&rows[0..14])
}

// The number that the last two rows spell, by a shift: to part the rows into bytes for `from_be_bytes` is no plainer.
fn spelled_check(rows: &[u16; 16]) -> u32
    ensures { result ≡ spelled_at rows.now 14 }
{
    u32::from(rows[14]) << 16 | u32::from(rows[15])
}

// The rows and their check, parted by a shift and a mask: to join the bytes of `to_be_bytes` by twos is no plainer.
fn checked(rows: &[u16; 14]) -> [u16; 16]
    ensures { result ≡ with_check rows.now }
{
    let check = check(rows);
    let mut block = [0; 16];
    block[14] = (check >> 16) as u16;
    block[15] = (check & 0xffff) as u16;
    block[0..14].copy_from_slice(rows);
    block
}
