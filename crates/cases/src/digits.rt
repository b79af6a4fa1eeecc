// Hex digits: 0 to 9, and A to F in upper case. Rattle's crate `hex` takes lower case too, which is no digit of the bytes of a check
// or of embedded rows.
ghost use Rattle.std.specs.Prelude.{◌≡◌, ℕ, ◌+◌, ◌*◌, ◌%◌, ◌<◌, ◌&&◌, ◌==◌, ◌∷◌, ◌⊎◌, ◌↔◌, [], is_ok, IsOk, true, false, nat_le, length, map, IfOk, IfErr, OnOk, OnErr, MatchResult};
ghost use Rattle.std.specs.List.{list_all};
ghost use Rattle.std.specs.Str.Iter.{bytes_rest};
ghost use Rattle.cases.specs.Digits.{is_hex, hex_value, hex_pair, are_pairs, byte_in, bytes_in, rows_in};
ghost use Rattle.cases.specs.Stop.{Unread};

use crate::Stop;
use anyhow::{Context, anyhow, ensure};
use std::alloc::Global;
use std::str::Bytes;

// The bytes that pairs of digits spell.
pub(crate) fn bytes_of(heap: Global, text: &str) -> Result<Vec<u8>, Stop>
    ensures value { IfOk result (λ bytes. bytes.items ≡ bytes_in text.now) }
    ensures pairs { OnOk result (are_pairs text.now ≡ true) }
    ensures stop { IfErr result (λ stop. Unread (are_pairs text.now) stop) }
{
    let (pairs, half) = text.as_bytes().as_chunks::<2>();
    let mut bytes = Vec::new(heap);
    for pair in pairs {
        bytes.push(byte_of(pair)?)?;
    }
    none_left(half)?;
    Ok(bytes)
}

// Refuses a digit that makes no pair.
fn none_left(half: &[u8]) -> anyhow::Result<()>
    ensures { IsOk result ↔ (half.now ≡ []) }
{
    match half {
        [] => Ok(()),
        [digit, ..] => {
            nibble(*digit)?;
            Err(anyhow!("half a byte"))
        }
    }
}

fn byte_of(pair: &[u8; 2]) -> anyhow::Result<u8>
    ensures value { IfOk result (λ byte. byte ≡ byte_in pair.now) }
    ensures digits { is_ok result ≡ hex_pair pair.now }
{
    let [high, low] = *pair;
    Ok(16 * nibble(high)? + nibble(low)?)
}

// Sixteen rows of four digits each.
pub fn rows_of(text: &str) -> anyhow::Result<[u16; 16]>
    ensures rows { IfOk result (λ rows. rows ≡ rows_in text.now) }
    ensures accepts { is_ok result ≡ (length text.now == 64 && list_all is_hex text.now) }
{
    let mut digits = text.bytes();
    let mut rows = [0; 16];
    for row in rows.iter_mut() {
        *row = next_row(&mut digits)?;
    }
    ensure!(digits.next().is_none(), "rows of more than 64 digits");
    Ok(rows)
}

fn next_row(digits: &mut Bytes<'_>) -> anyhow::Result<u16>
    ensures row { IfOk result (λ row. rows_in (bytes_rest digits.old) ≡ row ∷ rows_in (bytes_rest digits.new)) }
    ensures taken { IfOk result (λ _. (length (bytes_rest digits.old) ≡ 4 + length (bytes_rest digits.new)) × (list_all is_hex (bytes_rest digits.old) ≡ list_all is_hex (bytes_rest digits.new))) }
    ensures refused { OnErr result ((nat_le 4 (length (bytes_rest digits.old)) && list_all is_hex (bytes_rest digits.old)) ≡ false) }
{
    let a = next_digit(digits)?;
    let b = next_digit(digits)?;
    let c = next_digit(digits)?;
    let d = next_digit(digits)?;
    Ok(u16::from_be_bytes([16 * a + b, 16 * c + d]))
}

fn next_digit(digits: &mut Bytes<'_>) -> anyhow::Result<u8>
    ensures { MatchResult result (λ v. (d : ℕ) × (bytes_rest digits.old ≡ d ∷ bytes_rest digits.new) × (is_hex d ≡ true) × (v ≡ hex_value d)) (λ _. (bytes_rest digits.old ≡ []) ⊎ ((d : ℕ) × (bytes_rest digits.old ≡ d ∷ bytes_rest digits.new) × (is_hex d ≡ false))) }
{
    nibble(digits.next().context("rows of less than 64 digits")?)
}

fn nibble(digit: u8) -> anyhow::Result<u8>
    ensures test { is_ok result ≡ is_hex digit }
    ensures value { IfOk result (λ v. v ≡ hex_value digit) }
{
    match digit {
        b'0'..=b'9' => Ok(digit - b'0'),
        b'A'..=b'F' => Ok(digit - b'A' + 10),
        _ => Err(anyhow!("a digit that is not hex")),
    }
}
