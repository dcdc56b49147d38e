//! A store that keeps its records in memory, and whose calls fail as listed.
ghost use Rattle.std.specs.Prelude.{◌≡◌, IfOk, MatchResult};
ghost use Rattle.std.specs.FinMap as map;
ghost use Rattle.sdb_types.specs.declared.record.Request.TheVariants.{Get, Scan, PutIf, DeleteIf, PutAll};
ghost use Rattle.sdb_types.specs.Contents.{IsBatch};
ghost use Rattle.sdb_store.specs.Store.{Answers, IsStoreCall};
ghost use Rattle.sdb_store.specs.FaultPlans.{Serves, memory_state};

use crate::batch::put_all;
use crate::fail::{Calls, Fails, FaultPlan};
use crate::rows::Rows;
use crate::store::Store;
use sdb_types::{Batch, Condition, Key, NoMemory, Record, Reply, Span};
use std::alloc::Global;
use std::marker::Model;

/// A store in memory.
pub struct Memory<R: Rows> {
    rows: R,
    calls: Calls,
}

// By hand: each drop is then one call, where a derived one is written out at each exit, with a call for each field.
impl<R: Rows> Drop for Memory<R> {
    fn drop(self) {
        let Memory { rows: _, calls: _ } = self;
    }
}

impl<R: Rows> Model for Memory<R> {
    ghost use Rattle.sdb_store.specs.FaultPlans.{Held};
    ghost use Rattle.sdb_store.specs.HeldCode.{code_of_contents};

    ghost Value = { Held };

    ghost coded = { code_of_contents };

    ghost view = { λ m. record { contents = R.contents m.rows; failing = m.calls.failing; made = m.calls.made; failed = m.calls.failed } };
}

impl<R: Rows> Memory<R> {
    /// An empty store, whose calls fail as listed.
    pub fn new(alloc: Global, failing: Fails) -> Memory<R>
        ensures { result ≡ record { contents = map.empty; failing = failing; made = 0; failed = 0 } }
    {
        Memory {
            rows: R::new(alloc),
            calls: Calls::new(failing),
        }
    }

    /// The rows that hold its records.
    pub fn rows(&self) -> &R
        ensures { R.contents result.now ≡ self.now.contents }
    {
        &self.rows
    }
}

// A get that does not fail.
fn found<R: Rows>(rows: &R, key: &Key) -> Result<Reply, NoMemory>
    ensures { IfOk result (λ reply. Answers (Get key.now) reply (R.contents rows.now) (R.contents rows.now)) }
{
    Ok(Reply::Found(rows.find(key)?))
}

// A scan that does not fail.
fn listed<R: Rows>(rows: &R, span: &Span) -> Result<Reply, NoMemory>
    ensures { IfOk result (λ reply. Answers (Scan span.now) reply (R.contents rows.now) (R.contents rows.now)) }
{
    Ok(Reply::Rows(rows.list(span)?))
}

fn reply_of(answer: Result<Reply, NoMemory>) -> Reply
    ensures { MatchResult answer (λ reply. result ≡ reply) (λ _. result ≡ Reply.NoMemory) }
{
    match answer {
        Ok(reply) => reply,
        Err(NoMemory) => Reply::NoMemory,
    }
}

impl<R: Rows> Store for Memory<R> {
    ghost state = { memory_state };

    fn get(&mut self, key: &Key) -> Reply
        ensures called { IsStoreCall (Get key.now) result (memory_state self.old) (memory_state self.new) }
        ensures exact { Serves (Get key.now) result self.old self.new }
    {
        match self.calls.next() {
            FaultPlan::Answers => reply_of(found(&self.rows, key)),
            FaultPlan::FailsBefore => self.calls.fail(),
            FaultPlan::FailsAfter => self.calls.fail_after(found(&self.rows, key)),
        }
    }

    #[tactic(auto, using(crate::proofs::Lawful::rows_lawful))]
    fn scan(&mut self, span: &Span) -> Reply
        ensures called { IsStoreCall (Scan span.now) result (memory_state self.old) (memory_state self.new) }
        ensures exact { Serves (Scan span.now) result self.old self.new }
    {
        match self.calls.next() {
            FaultPlan::Answers => reply_of(listed(&self.rows, span)),
            FaultPlan::FailsBefore => self.calls.fail(),
            FaultPlan::FailsAfter => self.calls.fail_after(listed(&self.rows, span)),
        }
    }

    fn put_if(&mut self, rec: &Record, condition: &Condition) -> Reply
        ensures called { IsStoreCall (PutIf rec.now condition.now) result (memory_state self.old) (memory_state self.new) }
        ensures exact { Serves (PutIf rec.now condition.now) result self.old self.new }
    {
        match self.calls.next() {
            FaultPlan::Answers => reply_of(self.rows.put(rec, condition)),
            FaultPlan::FailsBefore => self.calls.fail(),
            FaultPlan::FailsAfter => self.calls.fail_after(self.rows.put(rec, condition)),
        }
    }

    fn delete_if(&mut self, key: &Key, condition: &Condition) -> Reply
        ensures called { IsStoreCall (DeleteIf key.now condition.now) result (memory_state self.old) (memory_state self.new) }
        ensures exact { Serves (DeleteIf key.now condition.now) result self.old self.new }
    {
        match self.calls.next() {
            FaultPlan::Answers => reply_of(self.rows.delete(key, condition)),
            FaultPlan::FailsBefore => self.calls.fail(),
            FaultPlan::FailsAfter => self.calls.fail_after(self.rows.delete(key, condition)),
        }
    }

    #[tactic(auto, using(crate::proofs::Lawful::batch_lawful))]
    fn put_all(&mut self, batch: &Batch) -> Reply
        requires { IsBatch batch.now }
        ensures called { IsStoreCall (PutAll batch.now) result (memory_state self.old) (memory_state self.new) }
        ensures exact { Serves (PutAll batch.now) result self.old self.new }
    {
        match self.calls.next() {
            FaultPlan::Answers => reply_of(put_all(&mut self.rows, batch)),
            FaultPlan::FailsBefore => self.calls.fail(),
            FaultPlan::FailsAfter => self.calls.fail_after(put_all(&mut self.rows, batch)),
        }
    }
}
