//! What the calls of a client lead to.
ghost use Rattle.std.specs.Prelude.{◌≡◌, IsSome, None, Some};
ghost use Rattle.sdb_phases.specs.Steps.{CanGet};
ghost use Rattle.sdb_txn.specs.Txn.{IfReading, pending};
ghost use Rattle.sdb_client.specs.Client.{CallPost, NextPost, answer_in, pending_of};
ghost use Rattle.sdb_client.specs.Inside.{IsClient, IsLeft, IsReadOf, IsUnder, OpenNext, plan_after, txn_after};

use crate::answers::next_of;
use crate::finish::finish_read;
use crate::next::Next;
use sdb_exec::Plan;
use sdb_model::Answer;
use sdb_txn::{Progress, Txn};
use sdb_types::Reply;

// Takes the reply to a call of a statement's read.
fn read_took(txn: &mut Txn, plan: &mut Plan, reply: Reply, now: i64) -> Next
    requires at { IsReadOf txn.old.doing plan.old }
    requires pending { IsSome (pending txn.old) }
    requires reply { CanGet (pending txn.old) reply }
    ensures answered { IfReading txn.old.doing (λ a x. CallPost txn.old plan.old a x reply now result txn.new) }
    ensures plan { result ≡ Next.Call → plan.new ≡ plan.old }
{
    let mark = txn.mark();
    match txn.advance(reply, now) {
        Progress::More => Next::Call,
        Progress::Rows(rows) => Next::Answer(finish_read(txn, plan, rows, mark)),
        Progress::Conflict(key, found) => Next::End(Answer::Conflict(key, found)),
        Progress::Busy(key, id, at) => Next::Answer(Answer::Busy(key, id, at)),
        Progress::Faulted => Next::Answer(Answer::Faulted),
        Progress::BadRecord(key) => Next::Answer(Answer::BadRecord(key)),
        Progress::NoMemory | Progress::Committed | Progress::Expired(_) | Progress::Unknown(_) =>
            Next::Answer(Answer::NoMemory),
    }
}

// Takes the reply to the pending call of a transaction.
fn took(txn: &mut Txn, plan: &mut Option<Plan>, reply: Reply, now: i64) -> Next
    requires under { IsUnder txn.old.doing plan.old }
    requires pending { IsSome (pending txn.old) }
    requires reply { CanGet (pending txn.old) reply }
    ensures answered { NextPost txn.old txn.old.doing plan.old reply now result txn.new }
    ensures left { IsLeft result txn.new plan.new }
    ensures plan { result ≡ Next.Call → plan.new ≡ plan.old }
{
    match plan {
        Some(plan) => read_took(txn, plan, reply, now),
        None => next_of(txn.advance(reply, now)),
    }
}

/// Takes the reply to the pending call of a client.
pub fn take_reply(txn: &mut Option<Txn>, plan: &mut Option<Plan>, reply: Reply, now: i64) -> Next
    requires client { IsClient txn.old plan.old }
    requires pending { IsSome (pending_of txn.old) }
    requires reply { CanGet (pending_of txn.old) reply }
    ensures answered { OpenNext txn.old plan.old reply now result txn.new }
    ensures client { IsClient (txn_after txn.new result) (plan_after plan.new result) }
    ensures plan { result ≡ Next.Call → plan.new ≡ plan.old }
{
    match txn {
        Some(txn) => took(txn, plan, reply, now),
        None => Next::End(Answer::NoMemory),
    }
}

/// Leaves a client as a call does.
pub fn leave(txn: &mut Option<Txn>, plan: &mut Option<Plan>, next: Next) -> Option<Answer>
    ensures answer { result ≡ answer_in next }
    ensures txn { txn.new ≡ txn_after txn.old next }
    ensures plan { plan.new ≡ plan_after plan.old next }
{
    match next {
        Next::Call => None,
        Next::Answer(answer) => {
            *plan = None;
            Some(answer)
        }
        Next::End(answer) => {
            *plan = None;
            *txn = None;
            Some(answer)
        }
    }
}
