//! A statement on a table is planned, and begins to read.
ghost use Rattle.std.specs.Prelude.{◌≡◌, ◌≢◌, true, false, IfOk, IfErr, IsSomeAnd, Some, None};
ghost use Rattle.sdb_schema.specs.Catalog.{is_catalog};
ghost use Rattle.sdb_model.specs.declared.answer.Answer.TheVariants as answer;
ghost use Rattle.sdb_model.specs.declared.answer.Refusal.{Refusal as RefusalValue};
ghost use Rattle.sdb_model.specs.Refused.{refusal_of};
ghost use Rattle.sdb_exec.specs.Plans.{has_all_literals};
ghost use Rattle.sdb_model.specs.Reads.{access_of};
ghost use Rattle.sdb_snapshot.specs.Seen.{overlay};
ghost use Rattle.sdb_txn.specs.declared.txn.Doing.TheVariants as doing;
ghost use Rattle.sdb_txn.specs.Txn.{reading};
ghost use Rattle.sdb_client.specs.Client.{is_covered};
ghost use Rattle.sdb_client.specs.Inside.{IfRows, IsValidPlan, IsPlanOf, IsUnder, StatementReads, TxnReads};

use crate::finish::finish;
use sdb_exec::{Plan, PlanRefused, PlanStep};
use sdb_model::{Answer, Statement};
use sdb_record::{Access, Images};
use sdb_schema::Catalog;
use sdb_txn::{Progress, Txn};
use sdb_types::Duplicate;
use std::alloc::Global;

// The plan of a statement and the rows that it wants, or why there is none.
fn planned(alloc: Global, catalog: &Catalog, statement: Statement) -> Result<(Plan, Access), Answer>
    ensures catalog { is_catalog catalog.now ≡ true }
    ensures plan { IfOk result (λ x. IsPlanOf catalog.now statement x.0) }
    ensures access { IfOk result (λ x. x.1 ≡ access_of x.0.table x.0.statement) }
    ensures refused { IfErr result (λ z. z ≢ answer.NoMemory → IsSomeAnd (refusal_of catalog.now statement) (λ r. z ≡ answer.Refused r)) }
{
    let _tables = catalog.len();
    match Plan::new(alloc, catalog, statement) {
        Ok(mut plan) => match plan.next(Images::new(alloc)) {
            Ok(PlanStep::Read(access)) => Ok((plan, access)),
            _ => Err(Answer::NoMemory),
        },
        Err(PlanRefused::Refused(refusal)) => Err(Answer::Refused(refusal)),
        Err(PlanRefused::NoMemory) => Err(Answer::NoMemory),
    }
}

// Reads an access: its rows at once where they were read, and else by a call.
fn read(txn: &mut Txn, access: &Access) -> Progress
    requires idle { txn.old.doing ≡ doing.Idle }
    ensures rows { IfRows result (λ rows. (is_covered txn.old.seen access.now ≡ true) × (rows ≡ overlay access.now txn.old.seen)) }
    ensures more { result ≡ Progress.More → (is_covered txn.old.seen access.now ≡ false) × (txn.new ≡ reading txn.old access.now) }
    ensures same { result ≢ Progress.More → txn.new ≡ txn.old }
{
    match access {
        Access::Get(key) => match key.copy() {
            Ok(key) => txn.get(key),
            Err(_) => Progress::NoMemory,
        },
        Access::Scan(span) => match span.copy() {
            Ok(span) => txn.scan(span),
            Err(_) => Progress::NoMemory,
        },
    }
}

// Begins the read of a statement, or answers it where its rows were read.
fn begin_read(
    txn: &mut Txn,
    running: &mut Option<Plan>,
    mut plan: Plan,
    access: Access,
) -> Option<Answer>
    requires idle { txn.old.doing ≡ doing.Idle }
    requires valid { IsValidPlan plan }
    requires at { access ≡ access_of plan.table plan.statement }
    requires alone { running.old ≡ None }
    ensures under { IsUnder txn.new.doing running.new }
    ensures memory { result ≡ Some answer.NoMemory → (txn.new ≡ txn.old) × (running.new ≡ None) }
    ensures reads { result ≢ Some answer.NoMemory → TxnReads plan access txn.old result txn.new running.new }
{
    match read(txn, &access) {
        Progress::More => {
            *running = Some(plan);
            None
        }
        Progress::Rows(rows) => Some(finish(txn, &mut plan, rows)),
        _ => Some(Answer::NoMemory),
    }
}

/// Takes a statement on a table, inside of a transaction.
pub fn ask(
    alloc: Global,
    txn: &mut Txn,
    running: &mut Option<Plan>,
    catalog: &Catalog,
    statement: Statement,
) -> Option<Answer>
    requires idle { txn.old.doing ≡ doing.Idle }
    requires literals { has_all_literals statement ≡ true }
    requires alone { running.old ≡ None }
    ensures under { IsUnder txn.new.doing running.new }
    ensures memory { result ≡ Some answer.NoMemory → (txn.new ≡ txn.old) × (running.new ≡ None) }
    ensures refused { result ≢ Some answer.NoMemory → (r : RefusalValue) → refusal_of catalog.now statement ≡ Some r → (result ≡ Some (answer.Refused r)) × (txn.new ≡ txn.old) × (running.new ≡ None) }
    ensures reads { result ≢ Some answer.NoMemory → StatementReads catalog.now statement txn.old result txn.new running.new }
{
    match planned(alloc, catalog, statement) {
        Ok((plan, access)) => begin_read(txn, running, plan, access),
        Err(answer) => Some(answer),
    }
}
