//! Transactions among the events of a run, and their order.
ghost use Rattle.std.specs.Prelude.{◌≡◌, ◌<◌, [], IfOk, OnOk, Some, None, map, fold, length, option_map, find, take_while, nat_le};
ghost use Rattle.sdb_types.specs.declared.record.Request.TheVariants.{PutAll};
ghost use Rattle.sdb_model.specs.Transactions.{from_begin as from_begin_lem, ends as ends_lem, is_prepared_record as is_prepared_record_lem, prepares as prepares_lem, is_prepared_by, last_prepare as last_prepare_lem, point as point_lem, point_at};
ghost use Rattle.sdb_contents.specs.Commits.{executed_of, all_executed};
ghost use Rattle.check_tables.specs.Points.{inserted_point, order_of as order_of_lem};

use crate::transaction::{client_of, commit_of, ordinal_of};
use sdb_contents::{Executed, begins, ends, statements_by};
use sdb_model::{Event, How, Point, Points};
use sdb_record::has_version;
use sdb_types::{NoMemory, Put, Record, Reply, Request, State, TxId};
use std::alloc::Global;

/// Whether a record is one of a transaction in state PREPARED or DELETED.
pub fn is_prepared_record(rec: &Record, id: TxId) -> bool
    ensures { result ≡ is_prepared_record_lem id rec.now }
{
    has_version(rec, id, State::Prepared) || has_version(rec, id, State::Deleted)
}

// Whether some of the puts are of such records.
fn puts_prepared(puts: &[Put], id: TxId) -> bool
    ensures { result ≡ prepares_lem id (PutAll puts.now) }
{
    match puts {
        [] => false,
        [put] => is_prepared_record(&put.rec, id),
        [put, rest @ ..] => is_prepared_record(&put.rec, id) || puts_prepared(rest, id),
    }
}

/// Whether a request is a prepare of a transaction.
pub fn is_prepare(request: &Request, id: TxId) -> bool
    ensures { result ≡ prepares_lem id request.now }
{
    match request {
        Request::PutIf(rec, _) => is_prepared_record(rec, id),
        Request::PutAll(batch) => puts_prepared(batch.as_slice(), id),
        Request::Get(_) | Request::Scan(_) | Request::DeleteIf(_, _) => false,
    }
}

fn is_applied_prepare(event: &Event, id: TxId) -> bool
    ensures { result ≡ is_prepared_by id event.now }
{
    match event {
        Event::Call(_, _, request, How::Seen, reply, _) => {
            matches!(reply.get(), Reply::Applied) && is_prepare(request.get(), id)
        }
        _ => false,
    }
}

/// The number of a transaction's last prepare that was seen and applied.
pub fn last_prepare(events: &[Event], id: TxId) -> Option<u64>
    ensures { result ≡ last_prepare_lem events.now id }
{
    let mut found = None;
    let mut i = 0;
    while i < events.len() {
        if is_applied_prepare(&events[i], id) {
            found = Some(i as u64 + 1);
        }
        i += 1;
    }
    found
}

/// The BEGIN of the k-th transaction, k from 1, and the statements after it.
pub fn from_begin(alloc: Global, k: u64, executed: &[Executed]) -> Result<&[Executed], NoMemory>
    ensures { IfOk result (λ since. all_executed since.now ≡ from_begin_lem k (all_executed executed.now)) }
{
    if k == 0 {
        return Ok(&[]);
    }
    let Some((first, rest)) = executed.split_first() else {
        return Ok(executed);
    };
    let begins = begins(alloc, first)?;
    if !begins {
        let since = from_begin(alloc, k, rest)?;
        Ok(since)
    } else if k == 1 {
        Ok(executed)
    } else {
        let since = from_begin(alloc, k - 1, rest)?;
        Ok(since)
    }
}

/// The first statement that ends a transaction.
pub fn first_ending(alloc: Global, executed: &[Executed]) -> Result<Option<&Executed>, NoMemory>
    ensures { IfOk result (λ found. option_map (λ s. executed_of s.now) found ≡ find ends_lem (all_executed executed.now)) }
{
    let Some((first, rest)) = executed.split_first() else {
        return Ok(None);
    };
    if ends(alloc, first)? {
        Ok(Some(first))
    } else {
        first_ending(alloc, rest)
    }
}

/// A transaction's point: the number of its last prepare that was seen and applied; without one that of the event that took
/// its COMMIT, and 0 without that.
pub fn point(alloc: Global, events: &[Event], id: TxId) -> Result<u64, NoMemory>
    ensures { IfOk result (λ n. n ≡ point_lem events.now id) }
{
    if let Some(number) = last_prepare(events, id) {
        return Ok(number);
    }
    let all = statements_by(alloc, client_of(id), events)?;
    match commit_of(alloc, all.as_slice(), ordinal_of(id))? {
        Some(commit) => Ok(commit.accepted),
        None => Ok(0),
    }
}

fn place_of(points: &[Point], point: Point) -> usize
    ensures { result ≡ length (take_while (λ q. nat_le q.event point.event) points.now) }
{
    points
        .iter()
        .take_while(|other| other.event <= point.event)
        .count()
}

fn place(points: &mut Points, point: Point) -> Result<(), NoMemory>
    ensures { OnOk result (points.new ≡ inserted_point points.old point) }
{
    let at = place_of(points.as_slice(), point);
    points.insert(at, point)
}

fn points_of(alloc: Global, events: &[Event], ids: &[TxId]) -> Result<Points, NoMemory>
    ensures { IfOk result (λ points. points ≡ map (point_at events.now) ids.now) }
{
    let mut points = Points::new(alloc);
    for id in ids {
        let event = point(alloc, events, *id)?;
        points.push(Point { id: *id, event })?;
    }
    Ok(points)
}

fn in_order(alloc: Global, points: &[Point]) -> Result<Points, NoMemory>
    ensures { IfOk result (λ order. order ≡ fold inserted_point [] points.now) }
{
    let mut order = Points::new(alloc);
    for point in points {
        place(&mut order, *point)?;
    }
    Ok(order)
}

/// Transactions, each with its point, by rising point: of the recorded transactions, the order of a run.
pub fn order_of(alloc: Global, events: &[Event], ids: &[TxId]) -> Result<Points, NoMemory>
    ensures { IfOk result (λ order. order ≡ order_of_lem events.now ids.now) }
{
    let points = points_of(alloc, events, ids)?;
    in_order(alloc, points.as_slice())
}
