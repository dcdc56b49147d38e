//! The calls of a COMMIT, made from what it writes.
ghost use Rattle.std.specs.Prelude.{◌≡◌, IfOk};
ghost use Rattle.sdb_record.specs.Rolls.{IsWrite, state_of_change};
ghost use Rattle.sdb_phases.specs.Work.{prepare_of, forward_of, back_of, decide_of, abort_of, look_of, is_as_prepared};

use sdb_record::{
    Change, Decision, Write, committed, condition_of, coordinator_key, coordinator_row,
    decision_row, prepared, version_of,
};
use sdb_types::{Condition, Duplicate, NoMemory, Put, Request, State, TxId};
use std::alloc::Global;

// The state in which a change leaves its key prepared.
fn state_left(change: &Change) -> State
    ensures { result ≡ state_of_change change.now }
{
    match change {
        Change::Row(_) => State::Prepared,
        Change::Delete => State::Deleted,
    }
}

fn as_prepared(write: &Write, id: TxId) -> Condition
    ensures { result ≡ is_as_prepared id write.now }
{
    Condition::Version(id, state_left(&write.change))
}

/// The prepare of a write, at a moment from 0 to 2^53.
pub fn prepare(alloc: Global, write: &Write, id: TxId, now: i64) -> Result<Put, NoMemory>
    requires { IsWrite write.now }
    ensures { IfOk result (λ put. put ≡ prepare_of id now write.now) }
{
    Ok(Put {
        rec: prepared(alloc, write, id, now)?,
        condition: condition_of(version_of(&write.base)),
    })
}

/// The roll forward of a write that was prepared at a moment from 0 to 2^53, and is committed at that moment.
pub fn forward(alloc: Global, write: &Write, id: TxId, now: i64) -> Result<Put, NoMemory>
    requires { IsWrite write.now }
    ensures { IfOk result (λ put. put ≡ forward_of id now write.now) }
{
    Ok(Put {
        rec: committed(alloc, write, id, now, now)?,
        condition: as_prepared(write, id),
    })
}

/// The roll back of a write.
pub fn back(write: &Write, id: TxId) -> Result<Request, NoMemory>
    ensures { IfOk result (λ request. request ≡ back_of id write.now) }
{
    let condition = as_prepared(write, id);
    match &write.base {
        Some(base) => Ok(Request::PutIf(base.copy()?, condition)),
        None => Ok(Request::DeleteIf(write.key.copy()?, condition)),
    }
}

/// The put of a transaction's row ABORTED, made at a moment from 0 to 2^53.
pub fn abort_row(alloc: Global, id: TxId, now: i64) -> Result<Request, NoMemory>
    ensures { IfOk result (λ request. request ≡ abort_of id now) }
{
    Ok(Request::PutIf(
        coordinator_row(alloc, id, Decision::Aborted, now)?,
        Condition::Absent,
    ))
}

/// The calls that decide on a transaction, at a moment from 0 to 2^53: the put of its row COMMITTED, the look for its row, and the put of its
/// row ABORTED. They share the row's key.
#[tactic(auto, unfolding(sdb_record::specs::Coordinator::coordinator_row_of))]
pub fn decisions(alloc: Global, id: TxId, now: i64) -> Result<(Request, Request, Request), NoMemory>
    ensures put { IfOk result (λ x. x.0 ≡ decide_of id now) }
    ensures look { IfOk result (λ x. x.1 ≡ look_of id) }
    ensures abort { IfOk result (λ x. x.2 ≡ abort_of id now) }
{
    let key = coordinator_key(alloc, id)?;
    let committed = decision_row(alloc, key.copy()?, Decision::Committed, now)?;
    let aborted = decision_row(alloc, key.copy()?, Decision::Aborted, now)?;
    Ok((
        Request::PutIf(committed, Condition::Absent),
        Request::Get(key),
        Request::PutIf(aborted, Condition::Absent),
    ))
}

/// The look for a transaction's row.
pub fn look(alloc: Global, id: TxId) -> Result<Request, NoMemory>
    ensures { IfOk result (λ request. request ≡ look_of id) }
{
    Ok(Request::Get(coordinator_key(alloc, id)?))
}
