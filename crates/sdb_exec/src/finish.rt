//! What a statement gives on the rows that it read.
ghost use Rattle.std.specs.Prelude.{◌≡◌, ◌∷◌, [], true, IfOk, find, unwrap_or};
ghost use Rattle.std.specs.Option.{option_copied, option_map};
ghost use Rattle.sdb_schema.specs.Table.{rises};
ghost use Rattle.sdb_model.specs.Exec.{not_a_table as not_a_table_lem, with_named};
ghost use Rattle.sdb_model.specs.declared.statement.Statement.TheVariants as statement;
ghost use Rattle.sdb_exec.specs.declared.plan.PlanStep.TheVariants as step;
ghost use Rattle.sdb_exec.specs.Plans.{is_unfit as is_unfit_lem, first_unfit as first_unfit_lem, columns_at, put_row, answer_on, changes_on, finished};

use crate::column::columns_rise;
use crate::plan::PlanStep;
use crate::select::selected;
use crate::{deletes, inserted_key, named_columns, passing, updates};
use sdb_model::{Answer, Delete, Insert, Refusal, Select, Statement, Update};
use sdb_record::{Change, Changes, Image, Images, Keyed};
use sdb_schema::Table;
use sdb_types::{Columns, Duplicate, Key, NoMemory, Seq};
use std::alloc::Global;

type Step = Result<PlanStep, NoMemory>;

// Whether the table's columns are in the order of their names: for one row it isn't worth to look.
fn is_known_to_rise(table: &Table, rows: &[Image]) -> bool
    ensures { result ≡ true → rises table.now.columns ≡ true }
{
    rows.len() > 1 && columns_rise(table)
}

fn is_unfit(table: &Table, rising: bool, row: &Image) -> bool
    requires { rising ≡ true → rises table.now.columns ≡ true }
    ensures { result ≡ is_unfit_lem table.now row.now }
{
    !table.fits_where(rising, &row.key, &row.columns)
}

fn first_unfit<'a>(table: &Table, rows: &'a [Image]) -> Option<&'a Key>
    ensures { option_copied result ≡ first_unfit_lem table.now rows.now }
{
    let rising = is_known_to_rise(table, rows);
    rows.iter()
        .find(|row| is_unfit(table, rising, row))
        .map(|row| &row.key)
}

fn columns_of<'a>(rows: &'a [Image], key: &Key) -> Option<&'a Columns>
    ensures { option_copied result ≡ columns_at key.now rows.now }
{
    rows.iter()
        .find(|row| key.compare(&row.key).is_eq())
        .map(|row| &row.columns)
}

fn columns_or_none(alloc: Global, found: Option<&Columns>) -> Result<Columns, NoMemory>
    ensures { IfOk result (λ columns. columns ≡ unwrap_or (option_copied found.entry) []) }
{
    match found {
        Some(columns) => columns.copy(),
        None => Ok(Columns::new(alloc)),
    }
}

fn one_change(alloc: Global, key: Key, columns: Columns) -> Result<Changes, NoMemory>
    ensures { IfOk result (λ changes. changes ≡ put_row key columns ∷ []) }
{
    let mut changes = Seq::new(alloc);
    changes.push(Keyed {
        key,
        change: Change::Row(columns),
    })?;
    Ok(changes)
}

fn insert(alloc: Global, table: &Table, insert: &Insert, rows: &[Image]) -> Step
    ensures { IfOk result (λ s. s ≡ step.Finished (answer_on table.now (statement.Insert insert.now) rows.now) (changes_on table.now (statement.Insert insert.now) rows.now)) }
{
    let key = inserted_key(alloc, table, insert)?;
    if columns_of(rows, &key).is_some() {
        return Ok(PlanStep::Finished(Answer::Duplicate(key), Seq::new(alloc)));
    }
    let columns = named_columns(
        table,
        insert.columns.as_slice(),
        insert.values.as_slice(),
        Columns::with_room(alloc, insert.columns.len())?,
    )?;
    let changes = one_change(alloc, key, columns)?;
    Ok(PlanStep::Finished(Answer::Count(1), changes))
}

fn upsert(alloc: Global, table: &Table, insert: &Insert, rows: &[Image]) -> Step
    ensures { IfOk result (λ s. s ≡ step.Finished (answer_on table.now (statement.Upsert insert.now) rows.now) (changes_on table.now (statement.Upsert insert.now) rows.now)) }
{
    let key = inserted_key(alloc, table, insert)?;
    let before = columns_or_none(alloc, columns_of(rows, &key))?;
    let columns = named_columns(
        table,
        insert.columns.as_slice(),
        insert.values.as_slice(),
        before,
    )?;
    let changes = one_change(alloc, key, columns)?;
    Ok(PlanStep::Finished(Answer::Count(1), changes))
}

fn update(alloc: Global, table: &Table, update: &Update, rows: Images) -> Step
    ensures { IfOk result (λ s. s ≡ step.Finished (answer_on table.now (statement.Update update.now) rows) (changes_on table.now (statement.Update update.now) rows)) }
{
    let found = passing(table, update.tests.as_slice(), rows);
    let changes = updates(alloc, table, update.sets.as_slice(), found.as_slice())?;
    let count = found.len() as u64;
    Ok(PlanStep::Finished(Answer::Count(count), changes))
}

fn delete(alloc: Global, table: &Table, delete: &Delete, rows: Images) -> Step
    ensures { IfOk result (λ s. s ≡ step.Finished (answer_on table.now (statement.Delete delete.now) rows) (changes_on table.now (statement.Delete delete.now) rows)) }
{
    let found = passing(table, delete.tests.as_slice(), rows);
    let changes = deletes(alloc, found.as_slice())?;
    let deleted = found.len() as u64;
    Ok(PlanStep::Finished(Answer::Count(deleted), changes))
}

fn select(alloc: Global, table: &Table, select: &Select, rows: Images) -> Step
    ensures { IfOk result (λ s. s ≡ step.Finished (answer_on table.now (statement.Select select.now) rows) (changes_on table.now (statement.Select select.now) rows)) }
{
    let found = passing(table, select.tests.as_slice(), rows);
    let observed = selected(alloc, table, select, found)?;
    Ok(PlanStep::Finished(Answer::Rows(observed), Seq::new(alloc)))
}

// What a statement is answered that names no table.
fn not_a_table() -> Answer
    ensures { result ≡ not_a_table_lem }
{
    Answer::Refused(Refusal { kind: 6, place: 0 })
}

/// The answer and the changes of a statement on rows; over rows of which some don't fit, BadRecord of the first.
pub fn finish(alloc: Global, table: &Table, statement: &Statement, rows: Images) -> Step
    ensures { IfOk result (λ s. s ≡ finished table.now statement.now rows (first_unfit_lem table.now rows)) }
{
    if let Some(key) = first_unfit(table, rows.as_slice()) {
        return Ok(PlanStep::Finished(Answer::BadRecord(key.copy()?), Seq::new(alloc)));
    }
    match statement {
        Statement::Insert(s) => insert(alloc, table, s, rows.as_slice()),
        Statement::Upsert(s) => upsert(alloc, table, s, rows.as_slice()),
        Statement::Update(s) => update(alloc, table, s, rows),
        Statement::Delete(s) => delete(alloc, table, s, rows),
        Statement::Select(s) => select(alloc, table, s, rows),
        _ => Ok(PlanStep::Finished(not_a_table(), Seq::new(alloc))),
    }
}
