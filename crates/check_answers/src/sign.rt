//! What is looked for among the calls of a statement.
ghost use Rattle.std.specs.Prelude.{◌≡◌};
ghost use Rattle.std.specs.List.{list_any};
ghost use Rattle.check_answers.specs.Tests.{has_sign as has_sign_lem};

use crate::busy::looks_early;
use crate::commit::{fails_later, puts_row};
use crate::conflict::{is_unmet, read_observes, scan_observes};
use crate::puts::prepares_key;
use check_tables::Made;
use sdb_model::Event;
use sdb_record::Decision;
use sdb_types::{Key, Record, Reply, TxId};
use std::alloc::Global;

#[derive(Clone, Copy)]
pub enum Sign<'a> {
    /// A get of a transaction's row after an event that found none, before a record of this moment expired.
    Look(&'a [Event], u64, &'a Key, i64),
    /// A put of a transaction's row ABORTED before an event.
    Abort(&'a Key, u64),
    /// A call for a transaction's row after an event that was answered with a fault or out of memory.
    Failure(&'a Key, u64),
    /// A prepare of a key.
    Prepare(TxId, &'a Key),
    /// One that was not met, where this was found.
    Unmet(TxId, &'a Key, &'a Option<Record>),
    /// A get or a scan that shows this at a key.
    Read(&'a Key, &'a Option<Record>),
    Scan(&'a Key, &'a Option<Record>),
    Fault,
}

fn has_sign(alloc: Global, made: &Made, sign: Sign) -> bool
    ensures { result ≡ has_sign_lem sign.entry made.now }
{
    match sign {
        Sign::Look(events, after, row, at) => looks_early(events, after, row, at, made),
        Sign::Abort(row, at) => made.at < at && puts_row(alloc, row, Decision::Aborted, made),
        Sign::Failure(row, at) => fails_later(row, at, made),
        Sign::Prepare(id, key) => prepares_key(id, key, made),
        Sign::Unmet(id, key, found) => is_unmet(id, key, found, made),
        Sign::Read(key, found) => read_observes(made, key, found),
        Sign::Scan(key, found) => scan_observes(made, key, found),
        Sign::Fault => matches!(made.reply, Reply::Fault),
    }
}

/// Whether a call has this sign.
pub fn any(alloc: Global, calls: &[Made], sign: Sign) -> bool
    ensures { result ≡ list_any (has_sign_lem sign.entry) calls.now }
{
    for made in calls {
        if has_sign(alloc, made, sign) {
            return true;
        }
    }
    false
}
