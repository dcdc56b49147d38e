//! The replies to pending calls.
ghost use Rattle.std.specs.Prelude.{◌≡◌, IfOk, IfSome, IsSome};
ghost use Rattle.std.specs.Option.{option_copied};
ghost use Rattle.sdb_types.specs.Contents.{CanAnswer};
ghost use Rattle.sdb_phases.specs.Steps.{CanGet};
ghost use Rattle.sdb_types.specs.declared.record.Request.TheVariants.{Get, PutIf};
ghost use Rattle.sdb_types.specs.declared.record.Condition.TheVariants.{Absent};

use sdb_types::{Columns, Condition, Duplicate, Key, NameRefused, Record, Records, Reply, Request};
use std::alloc::Global;
use test_builders::{Cell, columns_of};

/// How a call is answered: it takes effect, fails, finds no memory or no row; it finds a row with these columns, or is not
/// met for it; a write over a version is not met, since nothing is there.
#[derive(Clone, Copy)]
pub enum Answer {
    Applied,
    Fault,
    Starved,
    NoRow,
    Row(&'static [(&'static str, Cell)]),
    NotMet,
}

/// The row of a decision that was made at the moment 1,020.
pub const COMMITTED: Answer = Answer::Row(&[
    ("tx_created_at", Cell::BigInt(1_020)),
    ("tx_state", Cell::Int(3)),
]);

pub const ABORTED: Answer = Answer::Row(&[
    ("tx_created_at", Cell::BigInt(1_020)),
    ("tx_state", Cell::Int(4)),
]);

/// A row that says nothing.
pub const BAD_ROW: Answer = Answer::Row(&[]);

fn row_at(key: &Key, columns: Columns) -> Result<Record, NameRefused>
    ensures { IfOk result (λ rec. rec.key ≡ key.now) }
{
    Ok(Record {
        key: key.copy()?,
        columns,
    })
}

fn found_at(key: &Key, columns: Columns) -> Option<Reply>
    ensures { IfSome result (CanAnswer (Get key.now)) }
{
    match row_at(key, columns) {
        Ok(row) => Some(Reply::Found(Some(row))),
        Err(_) => None,
    }
}

fn not_met_at(rec: &Record, columns: Columns) -> Option<Reply>
    ensures { IfSome result (CanAnswer (PutIf rec.now Absent)) }
{
    match row_at(&rec.key, columns) {
        Ok(row) => Some(Reply::NotMet(Some(row))),
        Err(_) => None,
    }
}

// A get finds the row; a put where nothing is to be isn't met.
fn found(request: &Request, columns: Columns) -> Option<Reply>
    ensures { IfSome result (CanAnswer request.now) }
{
    match request {
        Request::Get(key) => found_at(key, columns),
        Request::PutIf(rec, Condition::Absent) => not_met_at(rec, columns),
        _ => None,
    }
}

fn applied(request: &Request) -> Option<Reply>
    ensures { IfSome result (CanAnswer request.now) }
{
    match request {
        Request::PutIf(_, _) | Request::DeleteIf(_, _) => Some(Reply::Applied),
        _ => None,
    }
}

// A get finds no record, and a scan no rows.
fn no_row(alloc: Global, request: &Request) -> Option<Reply>
    ensures { IfSome result (CanAnswer request.now) }
{
    match request {
        Request::Get(_) => Some(Reply::Found(None)),
        Request::Scan(_) => Some(Reply::Rows(Records::new(alloc))),
        _ => None,
    }
}

fn not_met(request: &Request) -> Option<Reply>
    ensures { IfSome result (CanAnswer request.now) }
{
    match request {
        Request::PutIf(_, Condition::Version(_, _))
        | Request::DeleteIf(_, Condition::Version(_, _)) => Some(Reply::NotMet(None)),
        _ => None,
    }
}

fn row_found(
    alloc: Global,
    request: &Request,
    cells: &'static [(&'static str, Cell)],
) -> Option<Reply>
    ensures { IfSome result (CanAnswer request.now) }
{
    match columns_of(alloc, cells) {
        Ok(columns) => found(request, columns),
        Err(_) => None,
    }
}

fn answered(alloc: Global, request: &Request, answer: Answer) -> Option<Reply>
    ensures { IfSome result (CanAnswer request.now) }
{
    match answer {
        Answer::Applied => applied(request),
        Answer::Fault => Some(Reply::Fault),
        Answer::Starved => Some(Reply::NoMemory),
        Answer::NoRow => no_row(alloc, request),
        Answer::Row(cells) => row_found(alloc, request, cells),
        Answer::NotMet => not_met(request),
    }
}

/// The reply that answers the pending call so; none where no call is pending, or none that is answered so.
pub fn reply_to(alloc: Global, pending: Option<&Request>, answer: Answer) -> Option<Reply>
    ensures asked { IfSome result (λ _. IsSome (option_copied pending.entry)) }
    ensures fits { IfSome result (CanGet (option_copied pending.entry)) }
{
    match pending {
        Some(request) => answered(alloc, request, answer),
        None => None,
    }
}
