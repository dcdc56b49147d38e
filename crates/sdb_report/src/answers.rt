//! Answers at the start of a text.
ghost use Rattle.std.specs.Prelude.{◌≡◌, [], ◌^◌};
ghost use Rattle.sdb_report.specs.FieldReading as spec;
ghost use Rattle.sdb_report.specs.FieldReading.{Gives};
ghost use Rattle.sdb_report.specs.Lines as form;

use crate::keys::{columns_at, key_at};
use crate::numbers::{id_at, integer_at, natural_at, u8_at, u32_at};
use crate::unread::Unread;
use crate::values::row_at;
use crate::words::{after, expect};
use sdb_model::{Answer, Refusal, Rows};
use sdb_types::{Duplicate, Key, Record, TxId, Values};
use std::alloc::Global;

fn next_row_at(alloc: Global, bytes: &[u8]) -> Result<(Values, &[u8]), Unread>
    ensures { Gives (λ x. (x.0, x.1.now)) result (form.behind_space spec.row_at bytes.now) }
{
    let rest = expect(b" ", bytes)?;
    row_at(alloc, rest)
}

// So many rows, each after a space.
fn rows_on(alloc: Global, count: u64, bytes: &[u8]) -> Result<(Rows, &[u8]), Unread>
    ensures { Gives (λ x. (x.0, x.1.now)) result (spec.counted (form.behind_space spec.row_at) count [] bytes.now) }
{
    let mut rows = Rows::new(alloc);
    let mut rest = bytes;
    for _ in 0..count {
        let (row, more) = next_row_at(alloc, rest)?;
        rows.push(row)?;
        rest = more;
    }
    Ok((rows, rest))
}

#[tactic(auto, unfolding(crate::specs::Lines::rows_at))]
fn rows_at(alloc: Global, bytes: &[u8]) -> Result<(Rows, &[u8]), Unread>
    ensures { Gives (λ x. (x.0, x.1.now)) result (form.rows_at bytes.now) }
{
    let (count, rest) = natural_at(bytes)?;
    rows_on(alloc, count, rest)
}

/// An id after a space.
pub fn next_id_at(alloc: Global, bytes: &[u8]) -> Result<(TxId, &[u8]), Unread>
    ensures { Gives (λ x. (x.0, x.1.now)) result (form.behind_space spec.id_at bytes.now) }
{
    let rest = expect(b" ", bytes)?;
    id_at(alloc, rest)
}

fn next_integer_at(bytes: &[u8]) -> Result<(i64, &[u8]), Unread>
    ensures { Gives (λ x. (x.0, x.1.now)) result (form.behind_space spec.integer_at bytes.now) }
{
    let rest = expect(b" ", bytes)?;
    integer_at(rest)
}

#[tactic(auto, unfolding(crate::specs::Lines::busy_at))]
fn busy_at(alloc: Global, bytes: &[u8]) -> Result<(Answer, &[u8]), Unread>
    ensures { Gives (λ x. (x.0, x.1.now)) result (form.busy_at bytes.now) }
{
    let (key, rest) = key_at(alloc, bytes)?;
    let (id, rest) = next_id_at(alloc, rest)?;
    let (at, rest) = next_integer_at(rest)?;
    Ok((Answer::Busy(key, id, at), rest))
}

#[tactic(auto, unfolding(crate::specs::Lines::found_columns_at))]
fn found_columns_at<'a>(
    alloc: Global,
    key: &Key,
    bytes: &'a [u8],
) -> Result<(Option<Record>, &'a [u8]), Unread>
    ensures { Gives (λ x. (x.0, x.1.now)) result (form.found_columns_at key.now bytes.now) }
{
    if let Some(rest) = after(b"none", bytes) {
        return Ok((None, rest));
    }
    let (columns, rest) = columns_at(alloc, bytes)?;
    let key = key.copy()?;
    Ok((Some(Record { key, columns }), rest))
}

fn next_found_columns_at<'a>(
    alloc: Global,
    key: &Key,
    bytes: &'a [u8],
) -> Result<(Option<Record>, &'a [u8]), Unread>
    ensures { Gives (λ x. (x.0, x.1.now)) result (form.behind_space (form.found_columns_at key.now) bytes.now) }
{
    let rest = expect(b" ", bytes)?;
    found_columns_at(alloc, key, rest)
}

#[tactic(auto, unfolding(crate::specs::Lines::conflict_at))]
fn conflict_at(alloc: Global, bytes: &[u8]) -> Result<(Answer, &[u8]), Unread>
    ensures { Gives (λ x. (x.0, x.1.now)) result (form.conflict_at bytes.now) }
{
    let (key, rest) = key_at(alloc, bytes)?;
    let (found, rest) = next_found_columns_at(alloc, &key, rest)?;
    Ok((Answer::Conflict(key, found), rest))
}

fn next_u32_at(bytes: &[u8]) -> Result<(u32, &[u8]), Unread>
    ensures { Gives (λ x. (x.0, x.1.now)) result (form.behind_space (spec.natural_below (2 ^ 32)) bytes.now) }
{
    let rest = expect(b" ", bytes)?;
    u32_at(rest)
}

#[tactic(auto, unfolding(crate::specs::Lines::refusal_at))]
fn refusal_at(bytes: &[u8]) -> Result<(Answer, &[u8]), Unread>
    ensures { Gives (λ x. (x.0, x.1.now)) result (form.refusal_at bytes.now) }
{
    let (kind, rest) = u8_at(bytes)?;
    let (place, rest) = next_u32_at(rest)?;
    Ok((Answer::Refused(Refusal { kind, place }), rest))
}

fn rows_answer_at(alloc: Global, bytes: &[u8]) -> Result<(Answer, &[u8]), Unread>
    ensures { Gives (λ x. (x.0, x.1.now)) result (form.rows_answer_at bytes.now) }
{
    let (rows, rest) = rows_at(alloc, bytes)?;
    Ok((Answer::Rows(rows), rest))
}

fn count_at(bytes: &[u8]) -> Result<(Answer, &[u8]), Unread>
    ensures { Gives (λ x. (x.0, x.1.now)) result (form.count_at bytes.now) }
{
    let (n, rest) = natural_at(bytes)?;
    Ok((Answer::Count(n), rest))
}

fn duplicate_at(alloc: Global, bytes: &[u8]) -> Result<(Answer, &[u8]), Unread>
    ensures { Gives (λ x. (x.0, x.1.now)) result (form.duplicate_at bytes.now) }
{
    let (key, rest) = key_at(alloc, bytes)?;
    Ok((Answer::Duplicate(key), rest))
}

fn expired_at(alloc: Global, bytes: &[u8]) -> Result<(Answer, &[u8]), Unread>
    ensures { Gives (λ x. (x.0, x.1.now)) result (form.expired_at bytes.now) }
{
    let (id, rest) = id_at(alloc, bytes)?;
    Ok((Answer::Expired(id), rest))
}

fn unknown_at(alloc: Global, bytes: &[u8]) -> Result<(Answer, &[u8]), Unread>
    ensures { Gives (λ x. (x.0, x.1.now)) result (form.unknown_at bytes.now) }
{
    let (id, rest) = id_at(alloc, bytes)?;
    Ok((Answer::Unknown(id), rest))
}

fn bad_record_at(alloc: Global, bytes: &[u8]) -> Result<(Answer, &[u8]), Unread>
    ensures { Gives (λ x. (x.0, x.1.now)) result (form.bad_record_at bytes.now) }
{
    let (key, rest) = key_at(alloc, bytes)?;
    Ok((Answer::BadRecord(key), rest))
}

// The answers that are more than a word.
#[tactic(auto, unfolding(crate::specs::Lines::long_answer_at))]
fn long_answer_at(alloc: Global, bytes: &[u8]) -> Result<(Answer, &[u8]), Unread>
    ensures { Gives (λ x. (x.0, x.1.now)) result (form.long_answer_at bytes.now) }
{
    if let Some(rest) = after(b"rows ", bytes) {
        return rows_answer_at(alloc, rest);
    }
    if let Some(rest) = after(b"count ", bytes) {
        return count_at(rest);
    }
    if let Some(rest) = after(b"duplicate ", bytes) {
        return duplicate_at(alloc, rest);
    }
    if let Some(rest) = after(b"busy ", bytes) {
        return busy_at(alloc, rest);
    }
    if let Some(rest) = after(b"conflict ", bytes) {
        return conflict_at(alloc, rest);
    }
    if let Some(rest) = after(b"expired ", bytes) {
        return expired_at(alloc, rest);
    }
    if let Some(rest) = after(b"unknown ", bytes) {
        return unknown_at(alloc, rest);
    }
    if let Some(rest) = after(b"badrecord ", bytes) {
        return bad_record_at(alloc, rest);
    }
    if let Some(rest) = after(b"refused ", bytes) {
        return refusal_at(rest);
    }
    Err(Unread::Bad)
}

/// The answer at the start.
#[tactic(auto, unfolding(crate::specs::Lines::answer_at))]
pub fn answer_at(alloc: Global, bytes: &[u8]) -> Result<(Answer, &[u8]), Unread>
    ensures { Gives (λ x. (x.0, x.1.now)) result (form.answer_at bytes.now) }
{
    if let Some(rest) = after(b"done", bytes) {
        return Ok((Answer::Done, rest));
    }
    if let Some(rest) = after(b"committed", bytes) {
        return Ok((Answer::Committed, rest));
    }
    if let Some(rest) = after(b"faulted", bytes) {
        return Ok((Answer::Faulted, rest));
    }
    if let Some(rest) = after(b"vacuuming", bytes) {
        return Ok((Answer::Vacuuming, rest));
    }
    if let Some(rest) = after(b"opentransactions", bytes) {
        return Ok((Answer::OpenTransactions, rest));
    }
    if let Some(rest) = after(b"nomemory", bytes) {
        return Ok((Answer::NoMemory, rest));
    }
    long_answer_at(alloc, bytes)
}

/// The answer at the start, or `-`.
#[tactic(auto, unfolding(crate::specs::Lines::given_at))]
pub fn given_at(alloc: Global, bytes: &[u8]) -> Result<(Option<Answer>, &[u8]), Unread>
    ensures { Gives (λ x. (x.0, x.1.now)) result (form.given_at bytes.now) }
{
    if let Some(rest) = after(b"-", bytes) {
        return Ok((None, rest));
    }
    let (answer, rest) = answer_at(alloc, bytes)?;
    Ok((Some(answer), rest))
}
