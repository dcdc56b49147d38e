//! The causes of the answers of a COMMIT.
ghost use Rattle.std.specs.Prelude.{◌≡◌, IfOk, IsTrue, ◌↔◌};
ghost use Rattle.std.specs.List.{list_any};
ghost use Rattle.sdb_record.specs.declared.coordinator.Decision.TheVariants as decision;
ghost use Rattle.sdb_model.specs.Calls.{decision_learned};
ghost use Rattle.sdb_model.specs.Causes.{IsExpired, IsOfCommit, IsUnknown};
ghost use Rattle.sdb_model.specs.Transactions.{id_of as id_of_lem, through_end};
ghost use Rattle.sdb_contents.specs.Commits.{executed_of, all_executed};
ghost use Rattle.check_tables.specs.Values.{all_made};
ghost use Rattle.check_answers.specs.Tests.{any_upto, commits_as as commits_as_lem, is_commit_of as is_commit_of_lem, is_in as is_in_lem, same_executed, is_decided as is_decided_lem, puts_row as puts_row_lem, found_aborted as found_aborted_lem, expired_among as expired_among_lem, fails_later as fails_later_lem, is_lost_put as is_lost_put_lem, unknown_among as unknown_among_lem};

use crate::same::is_same_executed;
use crate::sign::{Sign, any};
use check_protocol::decided;
use check_tables::{
    Made, asks_row, calls_of, client_of, commit_of, decision_found_at, decision_learned_at,
    from_begin, id_of, ordinal_of, put_by, rest_of,
};
use sdb_contents::{Executed, ends, statements_by};
use sdb_model::Event;
use sdb_record::{Decided, Decision, coordinator_key};
use sdb_types::{Key, NoMemory, Reply, TxId};
use std::alloc::Global;

/// Whether a statement of a client is the COMMIT of this transaction.
pub fn is_commit_of(
    alloc: Global,
    events: &[Event],
    client: u64,
    executed: &Executed,
    id: TxId,
) -> Result<bool, NoMemory>
    ensures { IfOk result (λ is. is ≡ is_commit_of_lem events.now client (executed_of executed.now) id) }
{
    if client_of(id) != client {
        return Ok(false);
    }
    let all = statements_by(alloc, client_of(id), events)?;
    match commit_of(alloc, all.as_slice(), ordinal_of(id))? {
        Some(commit) => Ok(is_same_executed(commit, executed)),
        None => Ok(false),
    }
}

// Whether a statement is one of these, up to the one that ends the transaction.
#[tactic(auto, using(crate::proofs::Finds::one_found))]
fn is_through_end(alloc: Global, all: &[Executed], executed: &Executed) -> Result<bool, NoMemory>
    ensures { IfOk result (λ is. is ≡ list_any (same_executed (executed_of executed.now)) (through_end (all_executed all.now))) }
{
    let Some((first, rest)) = all.split_first() else {
        return Ok(false);
    };
    if ends(alloc, first)? {
        return Ok(is_same_executed(executed, first));
    }
    if is_same_executed(executed, first) {
        return Ok(true);
    }
    is_through_end(alloc, rest, executed)
}

/// Whether a statement of a client is one of this transaction, after its BEGIN.
pub fn is_in(
    alloc: Global,
    events: &[Event],
    client: u64,
    executed: &Executed,
    id: TxId,
) -> Result<bool, NoMemory>
    ensures { IfOk result (λ is. is ≡ is_in_lem events.now client (executed_of executed.now) id) }
{
    if client_of(id) != client {
        return Ok(false);
    }
    let all = statements_by(alloc, client_of(id), events)?;
    let since = from_begin(alloc, ordinal_of(id), all.as_slice())?;
    is_through_end(alloc, rest_of(since), executed)
}

fn is_decided(found: Option<Decided>, wanted: Decision) -> bool
    ensures { result ≡ is_decided_lem wanted found }
{
    match found {
        Some(found) => found.decision == wanted,
        None => false,
    }
}

// Whether the first decision on a transaction that calls showed is COMMITTED.
#[tactic(auto, using(check_tables::proofs::Public::learned_is))]
fn is_learned(alloc: Global, calls: &[Made], id: TxId) -> Result<bool, NoMemory>
    ensures { IfOk result (λ is. is ≡ is_decided_lem decision.Committed (decision_learned (all_made calls.now) id)) }
{
    let row = coordinator_key(alloc, id)?;
    Ok(is_decided(decision_learned_at(alloc, calls, &row), Decision::Committed))
}

// Whether a statement is the COMMIT of this transaction, and its calls showed first that this is committed.
fn commits_as(
    alloc: Global,
    events: &[Event],
    client: u64,
    executed: &Executed,
    calls: &[Made],
    id: TxId,
) -> Result<bool, NoMemory>
    ensures { IfOk result (λ is. is ≡ commits_as_lem events.now client (executed_of executed.now) calls.now id) }
{
    let commits = is_commit_of(alloc, events, client, executed, id)?;
    if commits {
        return is_learned(alloc, calls, id);
    }
    Ok(false)
}

// Whether it holds of one of a client's first transactions.
#[tactic(auto, using(crate::proofs::IdLaws::upto_step))]
fn is_among_commits(
    alloc: Global,
    events: &[Event],
    client: u64,
    executed: &Executed,
    calls: &[Made],
    count: u64,
) -> Result<bool, NoMemory>
    ensures { IfOk result (λ is. is ≡ any_upto (λ k. commits_as_lem events.now client (executed_of executed.now) calls.now (id_of_lem client k)) count) }
{
    if count == 0 {
        return Ok(false);
    }
    let commits = commits_as(alloc, events, client, executed, calls, id_of(client, count))?;
    if commits {
        return Ok(true);
    }
    is_among_commits(alloc, events, client, executed, calls, count - 1)
}

/// Whether a statement is the COMMIT of some transaction of its client, and its calls showed first that this is committed.
pub fn is_of_commit(
    alloc: Global,
    events: &[Event],
    client: u64,
    executed: &Executed,
) -> Result<bool, NoMemory>
    ensures { IfOk result (λ is. IsTrue is ↔ IsOfCommit events.now client (executed_of executed.now)) }
{
    let calls = calls_of(alloc, events, client, executed)?;
    let all = statements_by(alloc, client, events)?;
    let count = all.len() as u64;
    is_among_commits(alloc, events, client, executed, calls.as_slice(), count)
}

/// Whether a call puts a transaction's row with this decision.
pub fn puts_row(alloc: Global, row: &Key, wanted: Decision, made: &Made) -> bool
    ensures { result ≡ puts_row_lem row.now wanted made.now }
{
    asks_row(row, &made.request)
        && match put_by(&made.request) {
            Some(put) => is_decided(decided(alloc, put), wanted),
            None => false,
        }
}

fn found_aborted(alloc: Global, calls: &[Made], row: &Key, made: &Made) -> bool
    ensures { result ≡ found_aborted_lem calls.now row.now made.now }
{
    is_decided(decision_found_at(alloc, row, made), Decision::Aborted)
        && !any(alloc, calls, Sign::Abort(row, made.at))
}

/// Whether a call of the COMMIT found its transaction's row ABORTED, and none of it before had put that row.
pub fn is_expired(
    alloc: Global,
    events: &[Event],
    client: u64,
    executed: &Executed,
    id: TxId,
) -> Result<bool, NoMemory>
    ensures { IfOk result (λ is. IsTrue is ↔ IsExpired events.now client (executed_of executed.now) id) }
{
    let commits = is_commit_of(alloc, events, client, executed, id)?;
    if commits {
        let calls = calls_of(alloc, events, client, executed)?;
        let row = coordinator_key(alloc, id)?;
        return Ok(expired_among(alloc, calls.as_slice(), &row));
    }
    Ok(false)
}

fn expired_among(alloc: Global, calls: &[Made], row: &Key) -> bool
    ensures { result ≡ expired_among_lem calls.now row.now }
{
    for made in calls {
        if found_aborted(alloc, calls, row, made) {
            return true;
        }
    }
    false
}

/// Whether a call for a transaction's row after an event was answered with a fault or out of memory.
pub fn fails_later(row: &Key, at: u64, made: &Made) -> bool
    ensures { result ≡ fails_later_lem row.now at made.now }
{
    at < made.at
        && (asks_row(row, &made.request) && matches!(made.reply, Reply::Fault | Reply::NoMemory))
}

fn is_lost_put(alloc: Global, calls: &[Made], row: &Key, put: &Made) -> bool
    ensures { result ≡ is_lost_put_lem calls.now row.now put.now }
{
    puts_row(alloc, row, Decision::Committed, put)
        && (matches!(put.reply, Reply::Fault) && any(alloc, calls, Sign::Failure(row, put.at)))
}

fn unknown_among(alloc: Global, calls: &[Made], row: &Key) -> bool
    ensures { result ≡ unknown_among_lem calls.now row.now }
{
    for put in calls {
        if is_lost_put(alloc, calls, row, put) {
            return true;
        }
    }
    false
}

/// Whether the deciding put of the COMMIT was answered with a fault, and a later call for the row with a fault or out of memory.
pub fn is_unknown(
    alloc: Global,
    events: &[Event],
    client: u64,
    executed: &Executed,
    id: TxId,
) -> Result<bool, NoMemory>
    ensures { IfOk result (λ is. IsTrue is ↔ IsUnknown events.now client (executed_of executed.now) id) }
{
    let commits = is_commit_of(alloc, events, client, executed, id)?;
    if commits {
        let calls = calls_of(alloc, events, client, executed)?;
        let row = coordinator_key(alloc, id)?;
        return Ok(unknown_among(alloc, calls.as_slice(), &row));
    }
    Ok(false)
}
