//! What calls ask.
ghost use Rattle.std.specs.Prelude.{◌≡◌};
ghost use Rattle.std.specs.Option.{option_copied};
ghost use Rattle.sdb_model.specs.Calls.{key_asked as key_asked_lem, is_read as is_read_lem, is_removal as is_removal_lem, put_by as put_by_lem};
ghost use Rattle.sdb_types.specs.declared.record.Request.TheVariants.{PutAll};
ghost use Rattle.sdb_model.specs.ReadSet.{reads_rows as reads_rows_lem};
ghost use Rattle.check_tables.specs.Values.{made_of, asks_row as asks_row_lem};

use crate::made::Made;
use sdb_record::is_coordinator;
use sdb_types::{Condition, Key, Put, Record, Request, State};

// The key of a put that is alone.
fn key_alone(puts: &[Put]) -> Option<&Key>
    ensures { option_copied result ≡ key_asked_lem (PutAll puts.now) }
{
    match puts {
        [put] => Some(&put.rec.key),
        _ => None,
    }
}

// The record of a put that is alone.
fn put_alone(puts: &[Put]) -> Option<&Record>
    ensures { option_copied result ≡ put_by_lem (PutAll puts.now) }
{
    match puts {
        [put] => Some(&put.rec),
        _ => None,
    }
}

/// The one key that a request asks for.
pub fn key_asked(request: &Request) -> Option<&Key>
    ensures { option_copied result ≡ key_asked_lem request.now }
{
    match request {
        Request::Get(key) => Some(key),
        Request::Scan(_) => None,
        Request::PutIf(rec, _) => Some(&rec.key),
        Request::DeleteIf(key, _) => Some(key),
        Request::PutAll(batch) => key_alone(batch.as_slice()),
    }
}

/// Whether a request reads.
pub fn is_read(request: &Request) -> bool
    ensures { result ≡ is_read_lem request.now }
{
    matches!(request, Request::Get(_) | Request::Scan(_))
}

/// Whether a request deletes a committed record.
pub fn is_removal(request: &Request) -> bool
    ensures { result ≡ is_removal_lem request.now }
{
    matches!(
        request,
        Request::DeleteIf(_, Condition::Version(_, State::Committed))
    )
}

/// The record that a request puts.
pub fn put_by(request: &Request) -> Option<&Record>
    ensures { option_copied result ≡ put_by_lem request.now }
{
    match request {
        Request::PutIf(rec, _) => Some(rec),
        Request::PutAll(batch) => put_alone(batch.as_slice()),
        _ => None,
    }
}

/// Whether a request asks for the coordinator's row of this key, or puts it.
pub fn asks_row(row: &Key, request: &Request) -> bool
    ensures { result ≡ asks_row_lem row.now request.now }
{
    match key_asked(request) {
        Some(key) => key.compare(row).is_eq(),
        None => false,
    }
}

/// Whether a call reads rows of tables, and not the coordinator's.
pub fn reads_rows(made: &Made) -> bool
    ensures { result ≡ reads_rows_lem (made_of made.now) }
{
    match &made.request {
        Request::Get(key) => !is_coordinator(&key.table),
        Request::Scan(span) => !is_coordinator(&span.table),
        Request::PutIf(_, _) | Request::DeleteIf(_, _) | Request::PutAll(_) => false,
    }
}
