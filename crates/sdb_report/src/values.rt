//! Values and rows at the start of a text.
ghost use Rattle.std.specs.Prelude.{◌≡◌, ◌≤◌, [], ◌∷◌, Some, false, length};
ghost use Rattle.std.specs.List.{prefix_len};
ghost use Rattle.std.specs.Result.{result_ok};
ghost use Rattle.hex.specs.Hex.{decode_of};
ghost use Rattle.sdb_report.specs.FieldReading as spec;
ghost use Rattle.sdb_report.specs.FieldReading.{Gives};

use crate::numbers::integer_at;
use crate::unread::Unread;
use crate::words::{after, expect, text_of};
use hex::FromHexError;
use sdb_types::{Octets, Value, Values};
use std::alloc::Global;

// What is quoted, after the first quote.
fn quoted_at(alloc: Global, bytes: &[u8]) -> Result<(Vec<u8>, &[u8]), Unread>
    ensures { Gives (λ x. (x.0.items, x.1.now)) result (spec.quoted_on false [] bytes.now) }
{
    let mut text = Vec::new(alloc);
    let mut rest = bytes;
    let mut second = false;
    while let [b, more @ ..] = rest {
        if second && *b != b'\'' {
            return Ok((text, rest));
        }
        second = !second && *b == b'\'';
        if !second {
            text.push(*b)?;
        }
        rest = more;
    }
    if second {
        Ok((text, rest))
    } else {
        Err(Unread::Bad)
    }
}

#[tactic(auto, unfolding(crate::specs::FieldReading::text_at))]
fn text_at(alloc: Global, bytes: &[u8]) -> Result<(Value, &[u8]), Unread>
    ensures { Gives (λ x. (x.0, x.1.now)) result (spec.text_at bytes.now) }
{
    let (text, rest) = quoted_at(alloc, bytes)?;
    Ok((Value::Text(text_of(alloc, text.as_slice())?), rest))
}

// Where the next quote is, or the length.
fn quote_place(bytes: &[u8]) -> usize
    ensures place { result ≡ prefix_len spec.is_unquoted bytes.now }
    ensures within { result ≤ length bytes.now }
{
    bytes.iter().take_while(|b| **b != b'\'').count()
}

fn hex_of(alloc: Global, digits: &[u8]) -> Result<Octets, Unread>
    ensures { Gives (λ x. x) result (result_ok (decode_of digits.now)) }
{
    match hex::decode(alloc, digits) {
        Ok(bytes) => Ok(Octets::from_vec(bytes)),
        Err(FromHexError::OutOfMemory) => Err(Unread::NoMemory),
        Err(_) => Err(Unread::Bad),
    }
}

#[tactic(auto, unfolding(crate::specs::FieldReading::blob_at))]
fn blob_at(alloc: Global, bytes: &[u8]) -> Result<(Value, &[u8]), Unread>
    ensures { Gives (λ x. (x.0, x.1.now)) result (spec.blob_at bytes.now) }
{
    let blob = hex_of(alloc, &bytes[..quote_place(bytes)])?;
    let digits = hex::encode_upper(alloc, blob.as_slice())?;
    let rest = expect(digits.as_bytes(), bytes)?;
    let rest = expect(b"'", rest)?;
    Ok((Value::Blob(blob), rest))
}

fn int_of(n: i64) -> Result<i32, Unread>
    ensures { Gives (λ x. x) result (spec.int_of n) }
{
    i32::try_from(n).map_err(|_| Unread::Bad)
}

fn begins_number(bytes: &[u8]) -> bool
    ensures { result ≡ spec.begins_number bytes.now }
{
    match bytes {
        [b, ..] => b.is_ascii_digit() || *b == b'-',
        [] => false,
    }
}

#[tactic(auto, unfolding(crate::specs::FieldReading::numeral_at))]
fn numeral_at(bytes: &[u8]) -> Result<(Value, &[u8]), Unread>
    ensures { Gives (λ x. (x.0, x.1.now)) result (spec.numeral_at bytes.now) }
{
    let (n, rest) = integer_at(bytes)?;
    if let Some(rest) = after(b"L", rest) {
        return Ok((Value::BigInt(n), rest));
    }
    Ok((Value::Int(int_of(n)?), rest))
}

/// The value at the start.
#[tactic(auto, unfolding(crate::specs::FieldReading::value_at))]
pub fn value_at(alloc: Global, bytes: &[u8]) -> Result<(Value, &[u8]), Unread>
    ensures { Gives (λ x. (x.0, x.1.now)) result (spec.value_at bytes.now) }
{
    if begins_number(bytes) {
        return numeral_at(bytes);
    }
    if let Some(rest) = after(b"NULL", bytes) {
        return Ok((Value::Null, rest));
    }
    if let Some(rest) = after(b"TRUE", bytes) {
        return Ok((Value::Bool(true), rest));
    }
    if let Some(rest) = after(b"FALSE", bytes) {
        return Ok((Value::Bool(false), rest));
    }
    if let Some(rest) = after(b"'", bytes) {
        return text_at(alloc, rest);
    }
    if let Some(rest) = after(b"X'", bytes) {
        return blob_at(alloc, rest);
    }
    Err(Unread::Bad)
}

fn next_value_at(alloc: Global, bytes: &[u8]) -> Result<(Value, &[u8]), Unread>
    ensures { Gives (λ x. (x.0, x.1.now)) result (spec.next_value_at [] bytes.now) }
{
    let rest = expect(b",", bytes)?;
    value_at(alloc, rest)
}

// More values, each after a comma.
fn values_on(alloc: Global, first: Value, bytes: &[u8]) -> Result<(Values, &[u8]), Unread>
    ensures { Gives (λ x. (x.0, x.1.now)) result (Some (spec.many spec.next_value_at (length bytes.now) (first ∷ []) bytes.now)) }
{
    let mut values = Values::new(alloc);
    values.push(first)?;
    let mut rest = bytes;
    for _ in 0..bytes.len() {
        match next_value_at(alloc, rest) {
            Ok((value, more)) => {
                values.push(value)?;
                rest = more;
            }
            Err(Unread::Bad) => return Ok((values, rest)),
            Err(Unread::NoMemory) => return Err(Unread::NoMemory),
        }
    }
    Ok((values, rest))
}

/// Values with commas between them, one or more.
#[tactic(auto, unfolding(crate::specs::FieldReading::some_values_at))]
pub fn some_values_at(alloc: Global, bytes: &[u8]) -> Result<(Values, &[u8]), Unread>
    ensures { Gives (λ x. (x.0, x.1.now)) result (spec.some_values_at bytes.now) }
{
    let (first, rest) = value_at(alloc, bytes)?;
    values_on(alloc, first, rest)
}

/// The same, or none.
#[tactic(auto, unfolding(crate::specs::FieldReading::values_at))]
pub fn values_at(alloc: Global, bytes: &[u8]) -> Result<(Values, &[u8]), Unread>
    ensures { Gives (λ x. (x.0, x.1.now)) result (spec.values_at bytes.now) }
{
    match some_values_at(alloc, bytes) {
        Ok(found) => Ok(found),
        Err(Unread::Bad) => Ok((Values::new(alloc), bytes)),
        Err(Unread::NoMemory) => Err(Unread::NoMemory),
    }
}

/// The row at the start.
#[tactic(auto, unfolding(crate::specs::FieldReading::row_at))]
pub fn row_at(alloc: Global, bytes: &[u8]) -> Result<(Values, &[u8]), Unread>
    ensures { Gives (λ x. (x.0, x.1.now)) result (spec.row_at bytes.now) }
{
    let rest = expect(b"(", bytes)?;
    let (values, rest) = values_at(alloc, rest)?;
    let rest = expect(b")", rest)?;
    Ok((values, rest))
}
