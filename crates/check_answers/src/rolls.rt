//! How unresolved records are rolled.
ghost use Rattle.std.specs.Prelude.{◌≡◌, ◌↔◌, true, IfOk, IsTrue};
ghost use Rattle.std.specs.List.{list_all, list_any};
ghost use Rattle.sdb_record.specs.Meta.{is_unresolved as is_unresolved_lem, numbered_state, state_in};
ghost use Rattle.sdb_record.specs.Coordinator.{coordinator_key_of};
ghost use Rattle.sdb_record.specs.Rolls.{back_of};
ghost use Rattle.sdb_model.specs.Counted.{request_of_back, roll_by as roll_by_lem};
ghost use Rattle.sdb_contents.specs.Commits.{executed_of};
ghost use Rattle.check_answers.specs.Counts.{IsExecutedResolved, are_well_left as are_well_left_lem, is_passed_over as is_passed_over_lem, is_roll as is_roll_lem, is_rolled as is_rolled_lem, is_rolled_by as is_rolled_by_lem, is_well_left as is_well_left_lem, is_well_read as is_well_read_lem, rolled_after as rolled_after_lem};

use crate::{is_early, is_unresolved, prepared_moment};
use check_protocol::{is_same_request, writer};
use check_tables::{Made, calls_of, decision_at, has_finished, reads_rows};
use sdb_contents::{Executed, is_word};
use sdb_model::{Event, How, Keyword};
use sdb_record::{Back, Decided, Decision, coordinator_key, rolled_back, rolled_forward};
use sdb_types::{
    Condition, Duplicate, Key, NoMemory, Record, Reply, Request, State, TxId, Value, value_named,
};
use std::alloc::Global;

// The state of a record.
fn state_numbered(n: i64) -> Option<State>
    ensures { result ≡ numbered_state n }
{
    match n {
        1 => Some(State::Prepared),
        2 => Some(State::Deleted),
        3 => Some(State::Committed),
        _ => None,
    }
}

fn state_of(rec: &Record) -> Option<State>
    ensures { result ≡ state_in rec.now.columns }
{
    match value_named(rec.columns.pairs(), "tx_state") {
        Some(Value::Int(n)) => state_numbered(i64::from(*n)),
        _ => None,
    }
}

// The request that undoes a record.
fn roll_back(alloc: Global, rec: &Record, found: Condition) -> Result<Request, NoMemory>
    requires { is_unresolved_lem rec.now ≡ true }
    ensures { IfOk result (λ q. q ≡ request_of_back (back_of rec.now) found) }
{
    let back = rolled_back(alloc, rec)?;
    match &back {
        Back::Put(base) => Ok(Request::PutIf(base.copy()?, found)),
        Back::Remove(key) => Ok(Request::DeleteIf(key.copy()?, found)),
    }
}

// The request that rolls a record by the decision on its transaction.
fn roll_by(
    alloc: Global,
    rec: &Record,
    found: Condition,
    decided: Decided,
) -> Result<Request, NoMemory>
    requires { is_unresolved_lem rec.now ≡ true }
    ensures { IfOk result (λ q. q ≡ roll_by_lem rec.now found decided) }
{
    match decided.decision {
        Decision::Committed => {
            let forward = rolled_forward(alloc, rec, decided.created_at)?;
            Ok(Request::PutIf(forward, found))
        }
        Decision::Aborted => roll_back(alloc, rec, found),
    }
}

fn is_roll(after: u64, request: &Request, made: &Made) -> bool
    ensures { result ≡ is_roll_lem after request.now made.now }
{
    after < made.at
        && (matches!(made.how, How::Seen)
            && (matches!(
                made.reply,
                Reply::Applied | Reply::NotMet(_) | Reply::NotAll(_, _)
            ) && is_same_request(&made.request, request)))
}

fn rolled_after(calls: &[Made], after: u64, request: &Request) -> bool
    ensures { result ≡ rolled_after_lem calls.now after request.now }
{
    for made in calls {
        if is_roll(after, request, made) {
            return true;
        }
    }
    false
}

// Whether a call after the read showed the decision, and a later one rolled the record by it.
fn is_rolled_by(
    alloc: Global,
    calls: &[Made],
    read: &Made,
    rec: &Record,
    id: TxId,
    state: State,
    row: &Key,
    look: &Made,
) -> Result<bool, NoMemory>
    requires unresolved { is_unresolved_lem rec.now ≡ true }
    requires row { row.now ≡ coordinator_key_of id }
    ensures { IfOk result (λ is. is ≡ is_rolled_by_lem calls.now read.now rec.now id state look.now) }
{
    if look.at <= read.at {
        return Ok(false);
    }
    match decision_at(alloc, row, look) {
        Some(decided) => {
            let roll = roll_by(alloc, rec, Condition::Version(id, state), decided)?;
            Ok(rolled_after(calls, look.at, &roll))
        }
        None => Ok(false),
    }
}

fn any_rolled(
    alloc: Global,
    calls: &[Made],
    read: &Made,
    rec: &Record,
    id: TxId,
    state: State,
    row: &Key,
    looks: &[Made],
) -> Result<bool, NoMemory>
    requires unresolved { is_unresolved_lem rec.now ≡ true }
    requires row { row.now ≡ coordinator_key_of id }
    ensures { IfOk result (λ is. is ≡ list_any (is_rolled_by_lem calls.now read.now rec.now id state) looks.now) }
{
    let Some((first, rest)) = looks.split_first() else {
        return Ok(false);
    };
    let is = is_rolled_by(alloc, calls, read, rec, id, state, row, first)?;
    if is {
        return Ok(true);
    }
    any_rolled(alloc, calls, read, rec, id, state, row, rest)
}

// Whether an unresolved record that a read found was rolled later.
fn is_rolled(alloc: Global, calls: &[Made], read: &Made, rec: &Record) -> Result<bool, NoMemory>
    requires { is_unresolved_lem rec.now ≡ true }
    ensures { IfOk result (λ is. is ≡ is_rolled_lem calls.now read.now rec.now) }
{
    let Some(id) = writer(rec) else {
        return Ok(false);
    };
    let Some(state) = state_of(rec) else {
        return Ok(false);
    };
    let row = coordinator_key(alloc, id)?;
    any_rolled(alloc, calls, read, rec, id, state, &row, calls)
}

// Whether VACUUM passes over a record that a read found.
fn is_passed_over(
    alloc: Global,
    events: &[Event],
    vacuums: bool,
    calls: &[Made],
    read: &Made,
    rec: &Record,
) -> Result<bool, NoMemory>
    ensures { IfOk result (λ is. is ≡ is_passed_over_lem events.now vacuums calls.now read.now rec.now) }
{
    if !vacuums {
        return Ok(false);
    }
    let Some(id) = writer(rec) else {
        return Ok(false);
    };
    let Some(at) = prepared_moment(rec) else {
        return Ok(false);
    };
    let row = coordinator_key(alloc, id)?;
    Ok(is_early(alloc, events, calls, read, rec, id, &row, at))
}

// Whether a record that a read found needs no roll, or had it.
fn is_well_left(
    alloc: Global,
    events: &[Event],
    vacuums: bool,
    calls: &[Made],
    read: &Made,
    rec: &Record,
) -> Result<bool, NoMemory>
    ensures { IfOk result (λ is. is ≡ is_well_left_lem events.now vacuums calls.now read.now rec.now) }
{
    if !is_unresolved(alloc, rec) {
        return Ok(true);
    }
    let rolled = is_rolled(alloc, calls, read, rec)?;
    if rolled {
        return Ok(true);
    }
    is_passed_over(alloc, events, vacuums, calls, read, rec)
}

fn are_well_left(
    alloc: Global,
    events: &[Event],
    vacuums: bool,
    calls: &[Made],
    read: &Made,
    rows: &[Record],
) -> Result<bool, NoMemory>
    ensures { IfOk result (λ are. are ≡ are_well_left_lem events.now vacuums calls.now read.now rows.now) }
{
    let Some((first, rest)) = rows.split_first() else {
        return Ok(true);
    };
    let is = is_well_left(alloc, events, vacuums, calls, read, first)?;
    if !is {
        return Ok(false);
    }
    are_well_left(alloc, events, vacuums, calls, read, rest)
}

// Whether it holds of each record that a call found.
#[tactic(auto, using(crate::proofs::Maps::one_left))]
fn is_well_read(
    alloc: Global,
    events: &[Event],
    vacuums: bool,
    calls: &[Made],
    read: &Made,
) -> Result<bool, NoMemory>
    ensures { IfOk result (λ is. is ≡ is_well_read_lem events.now vacuums calls.now read.now) }
{
    if !reads_rows(read) {
        return Ok(true);
    }
    match &read.reply {
        Reply::Found(Some(rec)) => is_well_left(alloc, events, vacuums, calls, read, rec),
        Reply::Rows(rows) => are_well_left(alloc, events, vacuums, calls, read, rows.as_slice()),
        _ => Ok(true),
    }
}

fn are_well_read(
    alloc: Global,
    events: &[Event],
    vacuums: bool,
    calls: &[Made],
    reads: &[Made],
) -> Result<bool, NoMemory>
    ensures { IfOk result (λ are. are ≡ list_all (is_well_read_lem events.now vacuums calls.now) reads.now) }
{
    let Some((first, rest)) = reads.split_first() else {
        return Ok(true);
    };
    let is = is_well_read(alloc, events, vacuums, calls, first)?;
    if !is {
        return Ok(false);
    }
    are_well_read(alloc, events, vacuums, calls, rest)
}

/// Whether each unresolved record that a statement was answered from was rolled first, or passed over by VACUUM.
pub fn is_executed_resolved(
    alloc: Global,
    events: &[Event],
    client: u64,
    executed: &Executed,
) -> Result<bool, NoMemory>
    ensures { IfOk result (λ is. IsTrue is ↔ IsExecutedResolved events.now client (executed_of executed.now)) }
{
    let calls = calls_of(alloc, events, client, executed)?;
    let all = calls.as_slice();
    if !has_finished(alloc, all, executed) {
        return Ok(true);
    }
    let vacuums = is_word(alloc, executed, Keyword::Vacuum)?;
    are_well_read(alloc, events, vacuums, all, all)
}
