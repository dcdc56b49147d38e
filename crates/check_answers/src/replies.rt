//! Which replies a request can get.
ghost use Rattle.std.specs.Prelude.{◌≡◌, true, IfSome};
ghost use Rattle.std.specs.List.{list_all};
ghost use Rattle.std.specs.Option.{option_copied};
ghost use Rattle.sdb_record.specs.Meta.{is_moment as is_moment_lem};
ghost use Rattle.sdb_types.specs.Contents.{CanAnswer, IsUnmet, IsUnmetAt, are_rows_of as are_rows_of_lem, in_span, rise, starts_after as starts_after_lem};

use sdb_store::holds;
use sdb_types::{Condition, Key, Put, Record, Reply, Request, Span, put_at, same};

const LAST_MOMENT: i64 = 9_007_199_254_740_992;

// A record, if there is one, is at a key.
fn is_at(key: &Key, found: &Option<Record>) -> bool
    ensures { result ≡ true → IfSome found.now (λ r. r.key ≡ key.now) }
{
    match found {
        Some(rec) => same(&rec.key, key),
        None => true,
    }
}

// The condition fails of what was found at a key.
fn is_unmet(condition: &Condition, key: &Key, found: &Option<Record>) -> bool
    ensures { result ≡ true → IsUnmet condition.now key.now found.now }
{
    is_at(key, found) && !holds(condition, found.as_ref())
}

fn starts_after(key: &Key, records: &[Record]) -> bool
    ensures { result ≡ starts_after_lem key.now records.now }
{
    match records {
        [] => true,
        [first, ..] => key.compare(&first.key).is_lt(),
    }
}

// The keys rise strictly.
fn rises(records: &[Record]) -> bool
    ensures { result ≡ rise records.now }
{
    let mut rest = records;
    while let [first, others @ ..] = rest {
        if !starts_after(&first.key, others) {
            return false;
        }
        rest = others;
    }
    true
}

// Each is inside the span.
fn are_inside(span: &Span, records: &[Record]) -> bool
    ensures { result ≡ list_all (λ r. in_span span.now r.key) records.now }
{
    records.iter().all(|rec| span.contains(&rec.key))
}

// The rows are those of a span, in the order of their keys.
fn are_rows_of(span: &Span, records: &[Record]) -> bool
    ensures { result ≡ are_rows_of_lem span.now records.now }
{
    rises(records) && are_inside(span, records)
}

/// Whether a number is a moment of the clock.
pub fn is_moment(moment: i64) -> bool
    ensures { result ≡ is_moment_lem moment }
{
    moment >= 0 && moment <= LAST_MOMENT
}

// The condition of the put of a place, counted from 1, fails of what was found at its key.
fn is_unmet_at(puts: &[Put], place: u32, found: &Option<Record>) -> bool
    ensures { result ≡ true → IsUnmetAt puts.now place found.now }
{
    if place == 0 {
        return false;
    }
    match put_at(puts, place) {
        Some(put) => is_unmet(&put.condition, &put.rec.key, found),
        None => false,
    }
}

/// Whether a request can get a reply, from any store.
pub fn can_answer(request: &Request, reply: &Reply) -> bool
    ensures { result ≡ true → CanAnswer request.now reply.now }
{
    match (request, reply) {
        (_, Reply::Fault) | (_, Reply::NoMemory) => true,
        (Request::Get(key), Reply::Found(found)) => is_at(key, found),
        (Request::Scan(span), Reply::Rows(rows)) => are_rows_of(span, rows.as_slice()),
        (Request::PutIf(_, _), Reply::Applied)
        | (Request::DeleteIf(_, _), Reply::Applied)
        | (Request::PutAll(_), Reply::Applied) => true,
        (Request::PutIf(rec, condition), Reply::NotMet(found)) => is_unmet(
            condition, &rec.key, found,
        ),
        (Request::DeleteIf(key, condition), Reply::NotMet(found)) => is_unmet(
            condition, key, found,
        ),
        (Request::PutAll(batch), Reply::NotAll(place, found)) => is_unmet_at(
            batch.as_slice(),
            *place,
            found,
        ),
        _ => false,
    }
}
