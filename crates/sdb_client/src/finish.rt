//! A statement is answered from the rows that its transaction sees.
ghost use Rattle.std.specs.Prelude.{◌≡◌, ◌≢◌, true, take};
ghost use Rattle.sdb_exec.specs.declared.plan.PlanStep.TheVariants.{Finished};
ghost use Rattle.sdb_exec.specs.Plans.{step_of};
ghost use Rattle.sdb_model.specs.Reads.{access_of};
ghost use Rattle.sdb_snapshot.specs.Sets.{IsSetInvariant};
ghost use Rattle.sdb_snapshot.specs.Seen.{forgotten, overlay};
ghost use Rattle.sdb_snapshot.specs.Written.{AreChanges};
ghost use Rattle.sdb_txn.specs.declared.txn.Doing.TheVariants as doing;
ghost use Rattle.sdb_client.specs.Client.{given_answer, given_left};
ghost use Rattle.sdb_client.specs.Inside.{IsValidPlan, IsKeyRead};

use crate::answers::{changes_nothing, is_out_of_memory, refused};
use sdb_exec::{Plan, PlanStep};
use sdb_model::Answer;
use sdb_record::{Changes, Images};
use sdb_snapshot::{Mark, WriteRefused};
use sdb_txn::Txn;

// Writes the changes of a statement, all or none.
fn write(txn: &mut Txn, answer: Answer, changes: Changes) -> Answer
    requires idle { txn.old.doing ≡ doing.Idle }
    requires valid { AreChanges txn.old.seen.read_set changes }
    ensures idle { txn.new.doing ≡ doing.Idle }
    ensures answer { result ≢ Answer.NoMemory → result ≡ given_answer txn.old (Finished answer changes) }
    ensures left { result ≢ Answer.NoMemory → txn.new ≡ given_left txn.old (Finished answer changes) }
    ensures memory { result ≡ Answer.NoMemory → txn.new ≡ txn.old }
{
    if changes_nothing(&answer) || changes.len() == 0 {
        return answer;
    }
    match txn.write(changes) {
        Ok(()) => answer,
        Err(WriteRefused::TooManyWrites) => refused(15),
        Err(WriteRefused::NoMemory) => Answer::NoMemory,
    }
}

/// Answers a statement on rows, and writes its changes. Where it is answered that it changed nothing, nothing is written.
pub fn finish(txn: &mut Txn, plan: &mut Plan, rows: Images) -> Answer
    requires idle { txn.old.doing ≡ doing.Idle }
    requires valid { IsValidPlan plan.old }
    requires rows { rows ≡ overlay (access_of plan.old.table plan.old.statement) txn.old.seen }
    requires read { IsKeyRead txn.old.seen.read_set (access_of plan.old.table plan.old.statement) }
    ensures idle { txn.new.doing ≡ doing.Idle }
    ensures answer { result ≢ Answer.NoMemory → result ≡ given_answer txn.old (step_of plan.old rows) }
    ensures left { result ≢ Answer.NoMemory → txn.new ≡ given_left txn.old (step_of plan.old rows) }
    ensures memory { result ≡ Answer.NoMemory → txn.new ≡ txn.old }
{
    let _mark = txn.mark();
    match plan.next(rows) {
        Ok(PlanStep::Finished(answer, changes)) => write(txn, answer, changes),
        _ => Answer::NoMemory,
    }
}

/// Answers a statement on rows that it read after a mark. What it read stays in the read set, whatever the answer; where memory runs out, it
/// is forgotten.
pub fn finish_read(txn: &mut Txn, plan: &mut Plan, rows: Images, mark: Mark) -> Answer
    requires idle { txn.old.doing ≡ doing.Idle }
    requires valid { IsValidPlan plan.old }
    requires rows { rows ≡ overlay (access_of plan.old.table plan.old.statement) txn.old.seen }
    requires read { IsKeyRead txn.old.seen.read_set (access_of plan.old.table plan.old.statement) }
    requires kept { IsSetInvariant (take mark.read_set txn.old.seen.read_set) txn.old.seen.writes }
    ensures idle { txn.new.doing ≡ doing.Idle }
    ensures answer { result ≢ Answer.NoMemory → result ≡ given_answer txn.old (step_of plan.old rows) }
    ensures left { result ≢ Answer.NoMemory → txn.new ≡ given_left txn.old (step_of plan.old rows) }
    ensures memory { result ≡ Answer.NoMemory → txn.new ≡ record txn.old { seen = forgotten mark txn.old.seen } }
{
    let answer = finish(txn, plan, rows);
    if is_out_of_memory(&answer) {
        txn.forget(mark);
    }
    answer
}
