//! Requests, what became of them, and replies at the start of a text.
ghost use Rattle.std.specs.Prelude.{◌≡◌, []};
ghost use Rattle.sdb_report.specs.FieldReading as spec;
ghost use Rattle.sdb_report.specs.FieldReading.{Gives};
ghost use Rattle.sdb_report.specs.Lines as form;

use crate::keys::{key_at, record_at, span_at};
use crate::numbers::{id_at, natural_at, u32_at};
use crate::unread::Unread;
use crate::words::{after, expect};
use sdb_model::How;
use sdb_types::{Batch, Condition, Put, Record, Records, Reply, Request, State};
use std::alloc::Global;

#[tactic(auto, unfolding(crate::specs::Lines::state_at))]
fn state_at(bytes: &[u8]) -> Result<(State, &[u8]), Unread>
    ensures { Gives (λ x. (x.0, x.1.now)) result (form.state_at bytes.now) }
{
    if let Some(rest) = after(b"1", bytes) {
        return Ok((State::Prepared, rest));
    }
    if let Some(rest) = after(b"2", bytes) {
        return Ok((State::Deleted, rest));
    }
    if let Some(rest) = after(b"3", bytes) {
        return Ok((State::Committed, rest));
    }
    if let Some(rest) = after(b"4", bytes) {
        return Ok((State::Aborted, rest));
    }
    Err(Unread::Bad)
}

fn next_state_at(bytes: &[u8]) -> Result<(State, &[u8]), Unread>
    ensures { Gives (λ x. (x.0, x.1.now)) result (form.behind_space form.state_at bytes.now) }
{
    let rest = expect(b" ", bytes)?;
    state_at(rest)
}

#[tactic(auto, unfolding(crate::specs::Lines::version_at))]
fn version_at(alloc: Global, bytes: &[u8]) -> Result<(Condition, &[u8]), Unread>
    ensures { Gives (λ x. (x.0, x.1.now)) result (form.version_at bytes.now) }
{
    let (id, rest) = id_at(alloc, bytes)?;
    let (state, rest) = next_state_at(rest)?;
    Ok((Condition::Version(id, state), rest))
}

#[tactic(auto, unfolding(crate::specs::Lines::condition_at))]
fn condition_at(alloc: Global, bytes: &[u8]) -> Result<(Condition, &[u8]), Unread>
    ensures { Gives (λ x. (x.0, x.1.now)) result (form.condition_at bytes.now) }
{
    if let Some(rest) = after(b"absent", bytes) {
        return Ok((Condition::Absent, rest));
    }
    version_at(alloc, bytes)
}

fn get_at(alloc: Global, bytes: &[u8]) -> Result<(Request, &[u8]), Unread>
    ensures { Gives (λ x. (x.0, x.1.now)) result (form.get_at bytes.now) }
{
    let (key, rest) = key_at(alloc, bytes)?;
    Ok((Request::Get(key), rest))
}

fn scan_at(alloc: Global, bytes: &[u8]) -> Result<(Request, &[u8]), Unread>
    ensures { Gives (λ x. (x.0, x.1.now)) result (form.scan_at bytes.now) }
{
    let (span, rest) = span_at(alloc, bytes)?;
    Ok((Request::Scan(span), rest))
}

#[tactic(auto, unfolding(crate::specs::Lines::put_at))]
fn put_at(alloc: Global, bytes: &[u8]) -> Result<(Request, &[u8]), Unread>
    ensures { Gives (λ x. (x.0, x.1.now)) result (form.put_at bytes.now) }
{
    let (written, rest) = record_at(alloc, bytes)?;
    let rest = expect(b" if ", rest)?;
    let (condition, rest) = condition_at(alloc, rest)?;
    Ok((Request::PutIf(written, condition), rest))
}

#[tactic(auto, unfolding(crate::specs::Lines::delete_at))]
fn delete_at(alloc: Global, bytes: &[u8]) -> Result<(Request, &[u8]), Unread>
    ensures { Gives (λ x. (x.0, x.1.now)) result (form.delete_at bytes.now) }
{
    let (key, rest) = key_at(alloc, bytes)?;
    let rest = expect(b" if ", rest)?;
    let (condition, rest) = condition_at(alloc, rest)?;
    Ok((Request::DeleteIf(key, condition), rest))
}

#[tactic(auto, unfolding(crate::specs::Lines::one_put_at))]
fn one_put_at(alloc: Global, bytes: &[u8]) -> Result<(Put, &[u8]), Unread>
    ensures { Gives (λ x. (x.0, x.1.now)) result (form.one_put_at bytes.now) }
{
    let (rec, rest) = record_at(alloc, bytes)?;
    let rest = expect(b" if ", rest)?;
    let (condition, rest) = condition_at(alloc, rest)?;
    Ok((Put { rec, condition }, rest))
}

fn next_put_at(alloc: Global, bytes: &[u8]) -> Result<(Put, &[u8]), Unread>
    ensures { Gives (λ x. (x.0, x.1.now)) result (form.behind_space form.one_put_at bytes.now) }
{
    let rest = expect(b" ", bytes)?;
    one_put_at(alloc, rest)
}

// So many puts, each after a space.
fn puts_on(alloc: Global, count: u64, bytes: &[u8]) -> Result<(Batch, &[u8]), Unread>
    ensures { Gives (λ x. (x.0, x.1.now)) result (spec.counted (form.behind_space form.one_put_at) count [] bytes.now) }
{
    let mut puts = Batch::new(alloc);
    let mut rest = bytes;
    for _ in 0..count {
        let (there, more) = next_put_at(alloc, rest)?;
        puts.push(there)?;
        rest = more;
    }
    Ok((puts, rest))
}

#[tactic(auto, unfolding(crate::specs::Lines::puts_at))]
fn puts_at(alloc: Global, bytes: &[u8]) -> Result<(Batch, &[u8]), Unread>
    ensures { Gives (λ x. (x.0, x.1.now)) result (form.puts_at bytes.now) }
{
    let (count, rest) = natural_at(bytes)?;
    puts_on(alloc, count, rest)
}

fn put_all_at(alloc: Global, bytes: &[u8]) -> Result<(Request, &[u8]), Unread>
    ensures { Gives (λ x. (x.0, x.1.now)) result (form.put_all_at bytes.now) }
{
    let (puts, rest) = puts_at(alloc, bytes)?;
    Ok((Request::PutAll(puts), rest))
}

/// The request at the start.
#[tactic(auto, unfolding(crate::specs::Lines::request_at))]
pub fn request_at(alloc: Global, bytes: &[u8]) -> Result<(Request, &[u8]), Unread>
    ensures { Gives (λ x. (x.0, x.1.now)) result (form.request_at bytes.now) }
{
    if let Some(rest) = after(b"get ", bytes) {
        return get_at(alloc, rest);
    }
    if let Some(rest) = after(b"scan ", bytes) {
        return scan_at(alloc, rest);
    }
    if let Some(rest) = after(b"put ", bytes) {
        return put_at(alloc, rest);
    }
    if let Some(rest) = after(b"delete ", bytes) {
        return delete_at(alloc, rest);
    }
    if let Some(rest) = after(b"putall ", bytes) {
        return put_all_at(alloc, rest);
    }
    Err(Unread::Bad)
}

#[tactic(auto, unfolding(crate::specs::Lines::how_at))]
fn how_at(bytes: &[u8]) -> Result<(How, &[u8]), Unread>
    ensures { Gives (λ x. (x.0, x.1.now)) result (form.how_at bytes.now) }
{
    if let Some(rest) = after(b"seen", bytes) {
        return Ok((How::Seen, rest));
    }
    if let Some(rest) = after(b"lost", bytes) {
        return Ok((How::Lost, rest));
    }
    if let Some(rest) = after(b"dropped", bytes) {
        return Ok((How::Discarded, rest));
    }
    if let Some(rest) = after(b"delayed", bytes) {
        return Ok((How::Delayed, rest));
    }
    if let Some(rest) = after(b"failed", bytes) {
        return Ok((How::Broken, rest));
    }
    Err(Unread::Bad)
}

#[tactic(auto, unfolding(crate::specs::Lines::landed_how_at))]
fn landed_how_at(bytes: &[u8]) -> Result<(How, &[u8]), Unread>
    ensures { Gives (λ x. (x.0, x.1.now)) result (form.landed_how_at bytes.now) }
{
    if let Some(rest) = after(b"seen", bytes) {
        return Ok((How::Seen, rest));
    }
    if let Some(rest) = after(b"failed", bytes) {
        return Ok((How::Broken, rest));
    }
    Err(Unread::Bad)
}

/// What became of a landing, after a space.
pub fn next_landed_how_at(bytes: &[u8]) -> Result<(How, &[u8]), Unread>
    ensures { Gives (λ x. (x.0, x.1.now)) result (form.behind_space form.landed_how_at bytes.now) }
{
    let rest = expect(b" ", bytes)?;
    landed_how_at(rest)
}

/// What became of a call, after a space.
pub fn next_how_at(bytes: &[u8]) -> Result<(How, &[u8]), Unread>
    ensures { Gives (λ x. (x.0, x.1.now)) result (form.behind_space form.how_at bytes.now) }
{
    let rest = expect(b" ", bytes)?;
    how_at(rest)
}

#[tactic(auto, unfolding(crate::specs::Lines::found_at))]
fn found_at(alloc: Global, bytes: &[u8]) -> Result<(Option<Record>, &[u8]), Unread>
    ensures { Gives (λ x. (x.0, x.1.now)) result (form.found_at bytes.now) }
{
    match record_at(alloc, bytes) {
        Ok((found, rest)) => Ok((Some(found), rest)),
        Err(Unread::Bad) => {
            let rest = expect(b"none", bytes)?;
            Ok((None, rest))
        }
        Err(Unread::NoMemory) => Err(Unread::NoMemory),
    }
}

fn next_record_at(alloc: Global, bytes: &[u8]) -> Result<(Record, &[u8]), Unread>
    ensures { Gives (λ x. (x.0, x.1.now)) result (form.behind_space spec.record_at bytes.now) }
{
    let rest = expect(b" ", bytes)?;
    record_at(alloc, rest)
}

// So many records, each after a space.
fn records_on(alloc: Global, count: u64, bytes: &[u8]) -> Result<(Records, &[u8]), Unread>
    ensures { Gives (λ x. (x.0, x.1.now)) result (spec.counted (form.behind_space spec.record_at) count [] bytes.now) }
{
    let mut records = Records::new(alloc);
    let mut rest = bytes;
    for _ in 0..count {
        let (there, more) = next_record_at(alloc, rest)?;
        records.push(there)?;
        rest = more;
    }
    Ok((records, rest))
}

#[tactic(auto, unfolding(crate::specs::Lines::records_at))]
fn records_at(alloc: Global, bytes: &[u8]) -> Result<(Records, &[u8]), Unread>
    ensures { Gives (λ x. (x.0, x.1.now)) result (form.records_at bytes.now) }
{
    let (count, rest) = natural_at(bytes)?;
    records_on(alloc, count, rest)
}

fn found_reply_at(alloc: Global, bytes: &[u8]) -> Result<(Reply, &[u8]), Unread>
    ensures { Gives (λ x. (x.0, x.1.now)) result (form.found_reply_at bytes.now) }
{
    let (found, rest) = found_at(alloc, bytes)?;
    Ok((Reply::Found(found), rest))
}

fn rows_reply_at(alloc: Global, bytes: &[u8]) -> Result<(Reply, &[u8]), Unread>
    ensures { Gives (λ x. (x.0, x.1.now)) result (form.rows_reply_at bytes.now) }
{
    let (records, rest) = records_at(alloc, bytes)?;
    Ok((Reply::Rows(records), rest))
}

fn not_met_at(alloc: Global, bytes: &[u8]) -> Result<(Reply, &[u8]), Unread>
    ensures { Gives (λ x. (x.0, x.1.now)) result (form.not_met_at bytes.now) }
{
    let (found, rest) = found_at(alloc, bytes)?;
    Ok((Reply::NotMet(found), rest))
}

fn next_found_at(alloc: Global, bytes: &[u8]) -> Result<(Option<Record>, &[u8]), Unread>
    ensures { Gives (λ x. (x.0, x.1.now)) result (form.behind_space form.found_at bytes.now) }
{
    let rest = expect(b" ", bytes)?;
    found_at(alloc, rest)
}

#[tactic(auto, unfolding(crate::specs::Lines::not_all_at))]
fn not_all_at(alloc: Global, bytes: &[u8]) -> Result<(Reply, &[u8]), Unread>
    ensures { Gives (λ x. (x.0, x.1.now)) result (form.not_all_at bytes.now) }
{
    let (place, rest) = u32_at(bytes)?;
    let (found, rest) = next_found_at(alloc, rest)?;
    Ok((Reply::NotAll(place, found), rest))
}

/// The reply at the start.
#[tactic(auto, unfolding(crate::specs::Lines::reply_at))]
pub fn reply_at(alloc: Global, bytes: &[u8]) -> Result<(Reply, &[u8]), Unread>
    ensures { Gives (λ x. (x.0, x.1.now)) result (form.reply_at bytes.now) }
{
    if let Some(rest) = after(b"found ", bytes) {
        return found_reply_at(alloc, rest);
    }
    if let Some(rest) = after(b"rows ", bytes) {
        return rows_reply_at(alloc, rest);
    }
    if let Some(rest) = after(b"applied", bytes) {
        return Ok((Reply::Applied, rest));
    }
    if let Some(rest) = after(b"notmet ", bytes) {
        return not_met_at(alloc, rest);
    }
    if let Some(rest) = after(b"fault", bytes) {
        return Ok((Reply::Fault, rest));
    }
    if let Some(rest) = after(b"nomemory", bytes) {
        return Ok((Reply::NoMemory, rest));
    }
    if let Some(rest) = after(b"notall ", bytes) {
        return not_all_at(alloc, rest);
    }
    Err(Unread::Bad)
}
