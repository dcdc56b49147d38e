//! The cause of Conflict: what is found at a key has changed since it was read.
ghost use Rattle.std.specs.Prelude.{◌≡◌, ◌&&◌, IfOk, IsTrue, ◌↔◌};
ghost use Rattle.std.specs.Option.{option_and_then, option_copied};
ghost use Rattle.std.specs.List.{list_any};
ghost use Rattle.sdb_types.specs.declared.record.Request.TheVariants.{PutAll};
ghost use Rattle.sdb_model.specs.Causes.{IsConflict};
ghost use Rattle.sdb_model.specs.Requests.{records_put};
ghost use Rattle.sdb_model.specs.ReadSet.{meaning_of as meaning_of_lem, read_set_of as read_set_of_lem};
ghost use Rattle.sdb_model.specs.Transactions.{id_of as id_of_lem};
ghost use Rattle.sdb_contents.specs.Commits.{executed_of};
ghost use Rattle.sdb_record.specs.Moved.{is_unchanged as is_unchanged_lem};
ghost use Rattle.check_protocol.specs.Values.{item_of};
ghost use Rattle.check_tables.specs.Values.{all_made, all_items};
ghost use Rattle.check_answers.specs.Tests.{conflict_at_scan, is_changed as is_changed_lem, has_changed_from as has_changed_from_lem, get_observes as get_observes_lem, is_found_by as is_found_by_lem, is_unmet as is_unmet_lem, read_observes as read_observes_lem, scan_observes as scan_observes_lem, base_put as base_put_lem, scan_differs as scan_differs_lem, is_rebase as is_rebase_lem, is_rebased as is_rebased_lem, conflict_at_commit as conflict_at_commit_lem, same_found, any_upto, conflict_of as conflict_of_lem, means as means_lem};

use crate::commit::{is_commit_of, is_in};
use crate::puts::{is_prepared_at, observes, prepares_key};
use crate::same::is_same_found;
use crate::sign::{Sign, any};
use check_protocol::{
    ReadItem, before_writer, is_same_key, record_among, version_among, version_read,
};
use check_tables::{Made, calls_of, id_of, meaning_of, read_set_of};
use sdb_contents::{Executed, is_word, statements_by};
use sdb_model::{Event, Keyword};
use sdb_record::{Scan, is_same_version, is_unchanged};
use sdb_types::{Key, NoMemory, Put, Record, Reply, Request, TxId};
use std::alloc::Global;

fn is_moved(item: &ReadItem, key: &Key, found: &Option<Record>) -> bool
    ensures { result ≡ is_changed_lem key.now found.now (item_of item.now) }
{
    match version_read(item, key) {
        Some(version) => !is_unchanged(found, version),
        None => false,
    }
}

fn any_moved(read_set: &[ReadItem], key: &Key, found: &Option<Record>) -> bool
    ensures { result ≡ list_any (λ n. is_changed_lem key.now found.now (item_of n)) read_set.now }
{
    for item in read_set {
        if is_moved(item, key, found) {
            return true;
        }
    }
    false
}

fn has_moved(read_set: &[ReadItem], key: &Key, found: &Option<Record>) -> bool
    ensures { result ≡ has_changed_from_lem (all_items read_set.now) key.now found.now }
{
    any_moved(read_set, key, found)
}

/// Whether a scan shows this at a key.
pub fn scan_observes(made: &Made, key: &Key, found: &Option<Record>) -> bool
    ensures { result ≡ scan_observes_lem made.now key.now found.now }
{
    match (&made.request, &made.reply) {
        (Request::Scan(span), Reply::Rows(rows)) => {
            span.contains(key) && is_same_found(record_among(rows.as_slice(), key), found)
        }
        _ => false,
    }
}

/// Whether a call is a prepare of the key that was not met, where this was found.
pub fn is_unmet(id: TxId, key: &Key, found: &Option<Record>, made: &Made) -> bool
    ensures { result ≡ is_unmet_lem id key.now found.now made.now }
{
    prepares_key(id, key, made) && observes(&made.request, &made.reply, key, found)
}

fn get_shows(made: &Made, key: &Key, found: &Option<Record>) -> bool
    ensures { result ≡ get_observes_lem made.now.request made.now.reply key.now found.now }
{
    match (&made.request, &made.reply) {
        (Request::Get(asked), Reply::Found(stored_at)) => {
            is_same_key(asked, key) && is_same_found(stored_at.as_ref(), found)
        }
        _ => false,
    }
}

/// Whether a get or a scan shows this at a key.
pub fn read_observes(made: &Made, key: &Key, found: &Option<Record>) -> bool
    ensures { result ≡ read_observes_lem made.now key.now found.now }
{
    get_shows(made, key, found) || scan_observes(made, key, found)
}

// Whether this was found by a prepare that was not met, or by a check of a key that was not prepared.
fn is_found_by(alloc: Global, calls: &[Made], id: TxId, key: &Key, found: &Option<Record>) -> bool
    ensures { result ≡ is_found_by_lem calls.now id key.now found.now }
{
    any(alloc, calls, Sign::Unmet(id, key, found))
        || (!any(alloc, calls, Sign::Prepare(id, key)) && any(alloc, calls, Sign::Read(key, found)))
}

// The version of the base of a record that is put.
#[tactic(auto, using(check_protocol::proofs::Public::kept_writer_is))]
fn base_put(rec: &Record) -> Option<TxId>
    ensures { result ≡ base_put_lem rec.now }
{
    before_writer(&rec.columns)
}

fn scan_differs(item: &ReadItem, key: &Key, base: Option<TxId>) -> bool
    ensures { result ≡ scan_differs_lem key.now base (item_of item.now) }
{
    match item {
        ReadItem::KeyRead(_) => false,
        ReadItem::SpanRead(scan) => {
            scan.span.contains(key)
                && !is_same_version(base, version_among(scan.found.as_slice(), key))
        }
    }
}

fn any_scan_differs(read_set: &[ReadItem], key: &Key, base: Option<TxId>) -> bool
    ensures { result ≡ list_any (λ n. scan_differs_lem key.now base (item_of n)) read_set.now }
{
    for item in read_set {
        if scan_differs(item, key, base) {
            return true;
        }
    }
    false
}

fn any_differs(read_set: &[ReadItem], key: &Key, base: Option<TxId>) -> bool
    ensures { result ≡ list_any (scan_differs_lem key.now base) (all_items read_set.now) }
{
    any_scan_differs(read_set, key, base)
}

// Whether a record is prepared at the key over another version than a scan was recorded with.
fn is_rebase(read_set: &[ReadItem], id: TxId, key: &Key, rec: &Record) -> bool
    ensures { result ≡ is_rebase_lem (all_items read_set.now) id key.now rec.now }
{
    is_prepared_at(rec, id, key) && any_differs(read_set, key, base_put(rec))
}

fn any_rebase(read_set: &[ReadItem], id: TxId, key: &Key, puts: &[Put]) -> bool
    ensures { result ≡ list_any (is_rebase_lem (all_items read_set.now) id key.now) (records_put (PutAll puts.now)) }
{
    match puts {
        [] => false,
        [put, rest @ ..] => {
            is_rebase(read_set, id, key, &put.rec) || any_rebase(read_set, id, key, rest)
        }
    }
}

#[tactic(auto, using(crate::proofs::Finds::one_found))]
fn puts_rebase(read_set: &[ReadItem], id: TxId, key: &Key, request: &Request) -> bool
    ensures { result ≡ list_any (is_rebase_lem (all_items read_set.now) id key.now) (records_put request.now) }
{
    match request {
        Request::PutIf(rec, _) => is_rebase(read_set, id, key, rec),
        Request::PutAll(batch) => any_rebase(read_set, id, key, batch.as_slice()),
        Request::Get(_) | Request::Scan(_) | Request::DeleteIf(_, _) => false,
    }
}

// Whether a scan was recorded with another version of a key than the prepare's base has.
fn is_rebased(calls: &[Made], read_set: &[ReadItem], id: TxId, key: &Key) -> bool
    ensures { result ≡ is_rebased_lem calls.now (all_items read_set.now) id key.now }
{
    for made in calls {
        if puts_rebase(read_set, id, key, &made.request) {
            return true;
        }
    }
    false
}

fn conflicts_at_commit(
    alloc: Global,
    calls: &[Made],
    read_set: &[ReadItem],
    id: TxId,
    key: &Key,
    found: &Option<Record>,
) -> bool
    ensures { result ≡ conflict_at_commit_lem calls.now (all_items read_set.now) id key.now found.now }
{
    (has_moved(read_set, key, found) && is_found_by(alloc, calls, id, key, found))
        || (any(alloc, calls, Sign::Scan(key, found)) && is_rebased(calls, read_set, id, key))
}

// Whether this is what a found record means to the statement with these calls, or none where none was found.
fn is_meant(calls: &[Made], rec: Option<&Record>, found: &Option<Record>) -> bool
    ensures { result ≡ same_found (option_and_then (meaning_of_lem (all_made calls.now)) (option_copied rec.entry)) found.now }
{
    match rec {
        Some(rec) => is_same_found(meaning_of(calls, rec), found),
        None => found.is_none(),
    }
}

// Whether a scan of the statement found this at the key, by what its rows mean.
fn scan_means(calls: &[Made], made: &Made, key: &Key, found: &Option<Record>) -> bool
    ensures { result ≡ means_lem calls.now key.now found.now made.now }
{
    match (&made.request, &made.reply) {
        (Request::Scan(span), Reply::Rows(rows)) => {
            span.contains(key) && is_meant(calls, record_among(rows.as_slice(), key), found)
        }
        _ => false,
    }
}

fn any_means(calls: &[Made], key: &Key, found: &Option<Record>) -> bool
    ensures { result ≡ list_any (means_lem calls.now key.now found.now) calls.now }
{
    for made in calls {
        if scan_means(calls, made, key, found) {
            return true;
        }
    }
    false
}

fn commit_conflicts(
    alloc: Global,
    events: &[Event],
    calls: &[Made],
    id: TxId,
    key: &Key,
    found: &Option<Record>,
) -> Result<bool, NoMemory>
    ensures { IfOk result (λ is. is ≡ conflict_at_commit_lem calls.now (read_set_of_lem events.now id) id key.now found.now) }
{
    let read_set = read_set_of(alloc, events, id)?;
    Ok(conflicts_at_commit(alloc, calls, read_set.as_slice(), id, key, found))
}

fn scan_conflicts(
    alloc: Global,
    events: &[Event],
    calls: &[Made],
    id: TxId,
    key: &Key,
    found: &Option<Record>,
) -> Result<bool, NoMemory>
    ensures { IfOk result (λ is. is ≡ conflict_at_scan calls.now (read_set_of_lem events.now id) key.now found.now) }
{
    let read_set = read_set_of(alloc, events, id)?;
    Ok(has_moved(read_set.as_slice(), key, found) && any_means(calls, key, found))
}

// Whether a statement ends this transaction by a conflict.
fn conflicts_in(
    alloc: Global,
    events: &[Event],
    client: u64,
    executed: &Executed,
    calls: &[Made],
    id: TxId,
    key: &Key,
    found: &Option<Record>,
) -> Result<bool, NoMemory>
    ensures { IfOk result (λ is. is ≡ conflict_of_lem events.now client (executed_of executed.now) calls.now key.now found.now id) }
{
    if is_commit_of(alloc, events, client, executed, id)?
        && commit_conflicts(alloc, events, calls, id, key, found)?
    {
        return Ok(true);
    }
    if is_word(alloc, executed, Keyword::Commit)? || !is_in(alloc, events, client, executed, id)? {
        return Ok(false);
    }
    scan_conflicts(alloc, events, calls, id, key, found)
}

// Whether a statement has this conflict in one of its client's first transactions.
#[tactic(auto, using(crate::proofs::IdLaws::upto_step))]
fn conflicts_among(
    alloc: Global,
    events: &[Event],
    client: u64,
    executed: &Executed,
    calls: &[Made],
    key: &Key,
    found: &Option<Record>,
    count: u64,
) -> Result<bool, NoMemory>
    ensures { IfOk result (λ is. is ≡ any_upto (λ k. conflict_of_lem events.now client (executed_of executed.now) calls.now key.now found.now (id_of_lem client k)) count) }
{
    if count == 0 {
        return Ok(false);
    }
    let id = id_of(client, count);
    let conflicts = conflicts_in(alloc, events, client, executed, calls, id, key, found)?;
    if conflicts {
        return Ok(true);
    }
    conflicts_among(
        alloc,
        events,
        client,
        executed,
        calls,
        key,
        found,
        count - 1,
    )
}

/// Whether a call of the statement found something else at the key than was read there.
pub fn is_conflict(
    alloc: Global,
    events: &[Event],
    client: u64,
    executed: &Executed,
    key: &Key,
    found: &Option<Record>,
) -> Result<bool, NoMemory>
    ensures { IfOk result (λ is. IsTrue is ↔ IsConflict events.now client (executed_of executed.now) key.now found.now) }
{
    let calls = calls_of(alloc, events, client, executed)?;
    let all = statements_by(alloc, client, events)?;
    let count = all.len() as u64;
    conflicts_among(
        alloc,
        events,
        client,
        executed,
        calls.as_slice(),
        key,
        found,
        count,
    )
}
