//! Numbers and ids at the start of a text.
ghost use Rattle.std.specs.Prelude.{◌≡◌, ◌^◌};
ghost use Rattle.sdb_record.specs.Ids.{id_of_text};
ghost use Rattle.sdb_report.specs.FieldReading as spec;
ghost use Rattle.sdb_report.specs.FieldReading.{Gives};

use crate::unread::Unread;
use crate::words::{after, expect, text_of};
use itoa::Buffer;
use sdb_types::{TxId, Txt};
use std::alloc::Global;

// The number of the digits at the start, at most the widest.
fn number_in(bytes: &[u8]) -> u64
    ensures { result ≡ spec.number_on 0 bytes.now }
{
    let mut n: u64 = 0;
    let mut rest = bytes;
    while let [b, more @ ..] = rest {
        if !b.is_ascii_digit() {
            return n;
        }
        n = n.saturating_mul(10).saturating_add(u64::from(*b - b'0'));
        rest = more;
    }
    n
}

/// The number at the start, in its shortest decimal.
#[tactic(auto, unfolding(crate::specs::FieldReading::natural_at))]
pub fn natural_at(bytes: &[u8]) -> Result<(u64, &[u8]), Unread>
    ensures { Gives (λ x. (x.0, x.1.now)) result (spec.natural_at bytes.now) }
{
    let n = number_in(bytes);
    let mut digits = Buffer::new();
    let rest = expect(digits.format(n).as_bytes(), bytes)?;
    Ok((n, rest))
}

pub fn u32_at(bytes: &[u8]) -> Result<(u32, &[u8]), Unread>
    ensures { Gives (λ x. (x.0, x.1.now)) result (spec.natural_below (2 ^ 32) bytes.now) }
{
    let (n, rest) = natural_at(bytes)?;
    if n < 1 << 32 {
        Ok((n as u32, rest))
    } else {
        Err(Unread::Bad)
    }
}

pub fn u8_at(bytes: &[u8]) -> Result<(u8, &[u8]), Unread>
    ensures { Gives (λ x. (x.0, x.1.now)) result (spec.natural_below (2 ^ 8) bytes.now) }
{
    let (n, rest) = natural_at(bytes)?;
    if n < 1 << 8 {
        Ok((n as u8, rest))
    } else {
        Err(Unread::Bad)
    }
}

fn positive(n: u64) -> i64
    ensures { result ≡ spec.positive n }
{
    n.min(0x7fff_ffff_ffff_ffff) as i64
}

fn negative(n: u64) -> i64
    ensures { result ≡ spec.negative n }
{
    if n == 0 {
        return 0;
    }
    let below = (n - 1).min(0x7fff_ffff_ffff_ffff);
    -(below as i64) - 1
}

// The number with its sign, at most the longest.
fn signed_at(bytes: &[u8]) -> i64
    ensures { result ≡ spec.number_at bytes.now }
{
    match after(b"-", bytes) {
        Some(rest) => negative(number_in(rest)),
        None => positive(number_in(bytes)),
    }
}

/// The number with its sign at the start, in its shortest decimal.
#[tactic(auto, unfolding(crate::specs::FieldReading::integer_at))]
pub fn integer_at(bytes: &[u8]) -> Result<(i64, &[u8]), Unread>
    ensures { Gives (λ x. (x.0, x.1.now)) result (spec.integer_at bytes.now) }
{
    let n = signed_at(bytes);
    let mut digits = Buffer::new();
    let rest = expect(digits.format(n).as_bytes(), bytes)?;
    Ok((n, rest))
}

fn id_of(text: &Txt) -> Option<TxId>
    ensures { result ≡ id_of_text text.now }
{
    TxId::from_text(text)
}

/// The id at the start.
#[tactic(auto, unfolding(crate::specs::FieldReading::id_at))]
pub fn id_at(alloc: Global, bytes: &[u8]) -> Result<(TxId, &[u8]), Unread>
    ensures { Gives (λ x. (x.0, x.1.now)) result (spec.id_at bytes.now) }
{
    if bytes.len() < 36 {
        return Err(Unread::Bad);
    }
    let (front, rest) = bytes.split_at(36);
    let text = text_of(alloc, front)?;
    match id_of(&text) {
        Some(id) => Ok((id, rest)),
        None => Err(Unread::Bad),
    }
}
