//! Which replies a request can get, from any store.
ghost use Rattle.std.specs.Prelude.{◌≡◌, IfSome};
ghost use Rattle.std.specs.Bool.{Decides};
ghost use Rattle.std.specs.List.{list_all};
ghost use Rattle.sdb_types.specs.declared.record.Record.{Record as RecordValue};
ghost use Rattle.sdb_types.specs.declared.record.Request.TheVariants.{Get, Scan, PutIf, DeleteIf, PutAll};
ghost use Rattle.sdb_types.specs.Contents.{CanAnswer, IsUnmet, IsUnmetAt, are_rows_of as are_rows_of_lem, in_span, rise, starts_after as starts_after_lem};

use crate::condition::holds;
use sdb_types::{Batch, Condition, Key, Record, Reply, Request, Span, same};

// A record, if there is one, is at a key.
fn is_at(key: &Key, found: &Option<Record>) -> bool
    ensures { Decides result (IfSome found.now (λ r. r.key ≡ key.now)) }
{
    match found {
        Some(rec) => same(&rec.key, key),
        None => true,
    }
}

// The condition fails of what was found at a key.
fn is_unmet(condition: &Condition, key: &Key, found: &Option<Record>) -> bool
    ensures { Decides result (IsUnmet condition.now key.now found.now) }
{
    is_at(key, found) && !holds(condition, found.as_ref())
}

// The condition of the put of a place, counted from 1, fails of what was found at its key.
fn is_unmet_at(batch: &Batch, place: u32, found: &Option<Record>) -> bool
    ensures { Decides result (IsUnmetAt batch.now place found.now) }
{
    if place == 0 {
        return false;
    }
    match batch.at((place - 1) as usize) {
        Some(put) => is_unmet(&put.condition, &put.rec.key, found),
        None => false,
    }
}

fn starts_after(key: &Key, records: &[Record]) -> bool
    ensures { result ≡ starts_after_lem key.now records.now }
{
    match records {
        [] => true,
        [first, ..] => key.compare(&first.key).is_lt(),
    }
}

// The keys rise strictly.
fn rises(records: &[Record]) -> bool
    ensures { result ≡ rise records.now }
{
    let mut rest = records;
    while let [first, others @ ..] = rest {
        if !starts_after(&first.key, others) {
            return false;
        }
        rest = others;
    }
    true
}

// Each is inside the span.
fn are_inside(span: &Span, records: &[Record]) -> bool
    ensures { result ≡ list_all (λ r. in_span span.now r.key) records.now }
{
    records.iter().all(|rec| span.contains(&rec.key))
}

// The rows are those of a span, in the order of their keys.
fn are_rows_of(span: &Span, records: &[Record]) -> bool
    ensures { result ≡ are_rows_of_lem span.now records.now }
{
    rises(records) && are_inside(span, records)
}

/// Whether a get can have this reply, from any store.
pub(crate) fn can_get(key: &Key, reply: &Reply) -> bool
    ensures { Decides result (CanAnswer (Get key.now) reply.now) }
{
    match reply {
        Reply::Found(found) => is_at(key, found),
        Reply::Fault | Reply::NoMemory => true,
        Reply::Rows(_) | Reply::Applied | Reply::NotMet(_) | Reply::NotAll(_, _) => false,
    }
}

/// Whether a scan can have this reply, from any store.
pub(crate) fn can_scan(span: &Span, reply: &Reply) -> bool
    ensures { Decides result (CanAnswer (Scan span.now) reply.now) }
{
    match reply {
        Reply::Rows(rows) => are_rows_of(span, rows.as_slice()),
        Reply::Fault | Reply::NoMemory => true,
        Reply::Found(_) | Reply::Applied | Reply::NotMet(_) | Reply::NotAll(_, _) => false,
    }
}

/// Whether a write at a key can have this reply, from any store.
pub(crate) fn can_write(key: &Key, condition: &Condition, reply: &Reply) -> bool
    ensures put { (r : RecordValue) → r.key ≡ key.now → Decides result (CanAnswer (PutIf r condition.now) reply.now) }
    ensures delete { Decides result (CanAnswer (DeleteIf key.now condition.now) reply.now) }
{
    match reply {
        Reply::NotMet(found) => is_unmet(condition, key, found),
        Reply::Applied | Reply::Fault | Reply::NoMemory => true,
        Reply::Found(_) | Reply::Rows(_) | Reply::NotAll(_, _) => false,
    }
}

/// Whether a batch can have this reply, from any store.
pub(crate) fn can_put_all(batch: &Batch, reply: &Reply) -> bool
    ensures { Decides result (CanAnswer (PutAll batch.now) reply.now) }
{
    match reply {
        Reply::NotAll(place, found) => is_unmet_at(batch, *place, found),
        Reply::Applied | Reply::Fault | Reply::NoMemory => true,
        Reply::Found(_) | Reply::Rows(_) | Reply::NotMet(_) => false,
    }
}

/// Whether a request can have this reply, from any store.
pub fn can_answer(request: &Request, reply: &Reply) -> bool
    ensures { Decides result (CanAnswer request.now reply.now) }
{
    match request {
        Request::Get(key) => can_get(key, reply),
        Request::Scan(span) => can_scan(span, reply),
        Request::PutIf(rec, condition) => can_write(&rec.key, condition, reply),
        Request::DeleteIf(key, condition) => can_write(key, condition, reply),
        Request::PutAll(batch) => can_put_all(batch, reply),
    }
}
