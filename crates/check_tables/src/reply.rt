//! What replies show.
ghost use Rattle.std.specs.Prelude.{◌≡◌, find, is_some};
ghost use Rattle.std.specs.Option.{option_and_then, option_copied};
ghost use Rattle.std.specs.Result.{result_ok};
ghost use Rattle.sdb_record.specs.Coordinator.{decision_in};
ghost use Rattle.sdb_model.specs.Calls.{put_by as put_by_lem, decision_in_reply as decision_in_reply_lem, record_at_key as record_at_key_lem};
ghost use Rattle.check_tables.specs.Values.{decision_at as decision_at_lem, decision_found_at as decision_found_at_lem, decision_learned_at as decision_learned_at_lem};

use crate::made::Made;
use crate::request::{asks_row, put_by};
use check_protocol::decided;
use sdb_record::Decided;
use sdb_types::{Key, Record, Reply, Request, put_at};
use std::alloc::Global;

/// What a reply says is at the one key that its request names.
pub fn record_at_key<'a>(request: &Request, reply: &'a Reply) -> Option<&'a Option<Record>>
    ensures { option_copied result ≡ record_at_key_lem request.now reply.now }
{
    match (request, reply) {
        (Request::Get(_), Reply::Found(found)) => Some(found),
        (Request::PutIf(_, _), Reply::NotMet(found)) => Some(found),
        (Request::DeleteIf(_, _), Reply::NotMet(found)) => Some(found),
        (Request::PutAll(batch), Reply::NotAll(place, found)) => {
            if put_at(batch.as_slice(), *place).is_some() {
                Some(found)
            } else {
                None
            }
        }
        _ => None,
    }
}

fn decided_in(alloc: Global, found: &Option<Record>) -> Option<Decided>
    ensures { result ≡ option_and_then (λ r. result_ok (decision_in r)) found.now }
{
    match found {
        Some(row) => decided(alloc, row),
        None => None,
    }
}

fn put_decided(alloc: Global, request: &Request) -> Option<Decided>
    ensures { result ≡ option_and_then (λ r. result_ok (decision_in r)) (put_by_lem request.now) }
{
    match put_by(request) {
        Some(row) => decided(alloc, row),
        None => None,
    }
}

fn found_decided(alloc: Global, request: &Request, reply: &Reply) -> Option<Decided>
    ensures { result ≡ option_and_then (λ found. option_and_then (λ r. result_ok (decision_in r)) found) (record_at_key_lem request.now reply.now) }
{
    match record_at_key(request, reply) {
        Some(found) => decided_in(alloc, found),
        None => None,
    }
}

fn decision_observed_in(alloc: Global, request: &Request, reply: &Reply) -> Option<Decided>
    ensures { result ≡ decision_in_reply_lem request.now reply.now }
{
    match reply {
        Reply::Applied => put_decided(alloc, request),
        _ => found_decided(alloc, request, reply),
    }
}

/// The decision that a call on the row of this key showed: that of the row found, or of the row that was put.
pub fn decision_at(alloc: Global, row: &Key, made: &Made) -> Option<Decided>
    ensures { result ≡ decision_at_lem row.now made.now }
{
    if asks_row(row, &made.request) {
        decision_observed_in(alloc, &made.request, &made.reply)
    } else {
        None
    }
}

/// The decision in the row of this key that a call found, and did not put.
pub fn decision_found_at(alloc: Global, row: &Key, made: &Made) -> Option<Decided>
    ensures { result ≡ decision_found_at_lem row.now made.now }
{
    if asks_row(row, &made.request) {
        found_decided(alloc, &made.request, &made.reply)
    } else {
        None
    }
}

// The first call that showed a decision.
fn first_decided<'a>(alloc: Global, calls: &'a [Made], row: &Key) -> Option<&'a Made>
    ensures { option_copied result ≡ find (λ m. is_some (decision_at_lem row.now m)) calls.now }
{
    for made in calls {
        if decision_at(alloc, row, made).is_some() {
            return Some(made);
        }
    }
    None
}

/// The decision in the row of this key that calls showed first.
pub fn decision_learned_at(alloc: Global, calls: &[Made], row: &Key) -> Option<Decided>
    ensures { result ≡ decision_learned_at_lem calls.now row.now }
{
    match first_decided(alloc, calls, row) {
        Some(made) => decision_at(alloc, row, made),
        None => None,
    }
}
