//! Plans: a statement asks for rows once, and then has its answer and its changes.
ghost use Rattle.std.specs.Prelude.{◌≡◌, true, false, Some, None, IfOk, IfErr, OnOk, OnErr};
ghost use Rattle.std.specs.Option.{option_copied};
ghost use Rattle.sdb_schema.specs.Catalog.{is_catalog};
ghost use Rattle.sdb_model.specs.Exec.{named_table};
ghost use Rattle.sdb_exec.specs.declared.plan.PlanRefused.TheVariants.{NoMemory as OutOfMemory};
ghost use Rattle.sdb_model.specs.Refused.{refusal_of};
ghost use Rattle.sdb_exec.specs.Plans.{IsRefusedAs, step_of};

use crate::access::access;
use crate::finish::finish;
use crate::refuse::refusal_on_table;
use sdb_model::{Answer, Refusal, Statement};
use sdb_record::{Access, Changes, Images};
use sdb_schema::{Catalog, Table};
use sdb_types::{Duplicate, NoMemory};
use std::alloc::Global;
use std::marker::Model;
use thiserror::Error;

/// Why there is no plan of a statement.
#[derive(Clone, Copy, Debug, PartialEq, Eq, Error)]
pub enum PlanRefused {
    /// The kinds 6 to 14, in their order: no such table; no such column; a column named twice in an insert's list or in SET;
    /// SET of a column of the primary key; a literal of another kind; NULL in the primary key; a number outside its kind; a
    /// text or blob of more than 4,096 bytes; an insert that lacks a column of the primary key. The place is that of the
    /// column among those that the statement mentions, from 1; for kind 14 among those of the primary key; for kind 6 it is 0.
    #[error("refused")]
    Refused(Refusal),
    #[error("out of memory")]
    NoMemory,
}

impl From<NoMemory> for PlanRefused {
    ghost from_gives = { λ _ e. e ≡ OutOfMemory };

    fn from(_e: NoMemory) -> PlanRefused {
        PlanRefused::NoMemory
    }
}

/// What a plan asks for, or gives.
#[derive(Debug, Drop)]
pub enum PlanStep {
    /// The rows at these keys are wanted, in the order of their keys.
    Read(Access),
    /// The answer, and the changes in the order of the rows that were read.
    Finished(Answer, Changes),
}

/// A statement on its table. Its first step asks for rows; the second answers on them.
pub struct Plan {
    alloc: Global,
    table: Table,
    statement: Statement,
    asked: bool,
}

// By hand: each drop is then one call, where a derived one is written out at each exit, with a call for each field.
impl Drop for Plan {
    fn drop(self) {
        let Plan {
            alloc: _,
            table: _,
            statement: _,
            asked: _,
        } = self;
    }
}

impl Model for Plan {
    ghost use Rattle.sdb_exec.specs.Plans.{Planned};

    ghost Value = { Planned };

    ghost view = { λ p. record { table = p.table; statement = p.statement; asked = p.asked } };
}

// The table that a statement names, and that the catalog is one.
fn find_table<'a>(catalog: &'a Catalog, statement: &Statement) -> Option<&'a Table>
    ensures table { option_copied result ≡ named_table catalog.now statement.now }
    ensures catalog { is_catalog catalog.now ≡ true }
{
    let _tables = catalog.len();
    match statement {
        Statement::Insert(s) => catalog.find(&s.table),
        Statement::Upsert(s) => catalog.find(&s.table),
        Statement::Update(s) => catalog.find(&s.table),
        Statement::Delete(s) => catalog.find(&s.table),
        Statement::Select(s) => catalog.find(&s.table),
        _ => None,
    }
}

impl Plan {
    /// The plan of a statement, or its refusal. Takes time linear in the statement. A statement that mentions more columns than
    /// 32 bits can number counts as out of memory.
    pub fn new(alloc: Global, catalog: &Catalog, statement: Statement) -> Result<Plan, PlanRefused>
        ensures valid { OnOk result (refusal_of catalog.now statement ≡ None) }
        ensures table { IfOk result (λ p. named_table catalog.now statement ≡ Some p.table) }
        ensures statement { IfOk result (λ p. p.statement ≡ statement) }
        ensures first { IfOk result (λ p. p.asked ≡ false) }
        ensures refused { IfErr result (IsRefusedAs (refusal_of catalog.now statement)) }
    {
        let Some(table) = find_table(catalog, &statement) else {
            return Err(PlanRefused::Refused(Refusal { kind: 6, place: 0 }));
        };
        if let Some(refusal) = refusal_on_table(alloc, table, &statement)? {
            return Err(PlanRefused::Refused(refusal));
        }
        Ok(Plan {
            alloc,
            table: table.copy()?,
            statement,
            asked: false,
        })
    }

    /// First the rows that the plan wants, whatever rows are handed in; then, on the rows read, the answer and the changes.
    /// Rows are handed in in the order of their keys, as reads give them: then BadRecord names the first key in key order
    /// whose row doesn't fit, and the changes are in key order. Takes time linear in the rows, and n log n comparisons for
    /// the order of the n rows that a SELECT finds. After `NoMemory` the plan is as it was.
    pub fn next(&mut self, rows: Images) -> Result<PlanStep, NoMemory>
        ensures step { IfOk result (λ s. s ≡ step_of self.old rows) }
        ensures asked { OnOk result (self.new ≡ record self.old { asked = true }) }
        ensures err { OnErr result (self.new ≡ self.old) }
    {
        if self.asked {
            return finish(self.alloc, &self.table, &self.statement, rows);
        }
        let wanted = access(self.alloc, &self.table, &self.statement)?;
        self.asked = true;
        Ok(PlanStep::Read(wanted))
    }
}
