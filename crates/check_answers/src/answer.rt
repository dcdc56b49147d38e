//! Whether the rows that single answers show are rows that their transaction has.
ghost use Rattle.std.specs.Prelude.{◌≡◌, IfOk, map};
ghost use Rattle.std.specs.List.{list_all, list_any};
ghost use Rattle.sdb_model.specs.Rows.{value_of};
ghost use Rattle.sdb_contents.specs.Commits.{executed_of};
ghost use Rattle.check_answers.specs.Rows.{had_at, same_values, select_is_of as select_is_of_lem, some_had as some_had_lem, statement_is_of as statement_is_of_lem, turn_is_of, turn_is_under};

use crate::had::{add_had, images_had};
use crate::keys::keys_of;
use crate::plain::before;
use crate::stores::Stores;
use crate::turn::Turn;
use check_tables::catalog_after;
use sdb_contents::Executed;
use sdb_exec::{observed, projected_names};
use sdb_model::{Answer, Event, Select, Statement};
use sdb_record::{Image, Images};
use sdb_schema::{Catalog, Table};
use sdb_types::{Key, Name, NoMemory, Values};
use std::alloc::Global;

fn is_same_row(a: &Values, b: &Values) -> bool
    ensures { result ≡ same_values a.now b.now }
{
    a.cmp(b).is_eq()
}

// Whether one of these images shows this row.
fn any_shows(
    alloc: Global,
    table: &Table,
    names: &[Name],
    row: &Values,
    images: &[Image],
) -> Result<bool, NoMemory>
    ensures { IfOk result (λ any. any ≡ list_any (λ image. same_values (map (value_of table.now image) names.now) row.now) images.now) }
{
    let Some((first, rest)) = images.split_first() else {
        return Ok(false);
    };
    let values = observed(alloc, table, names, first)?;
    if is_same_row(&values, row) {
        return Ok(true);
    }
    any_shows(alloc, table, names, row, rest)
}

fn are_projected(
    alloc: Global,
    table: &Table,
    names: &[Name],
    rows: &[Values],
    images: &[Image],
) -> Result<bool, NoMemory>
    ensures { IfOk result (λ are. are ≡ list_all (λ row. list_any (λ image. same_values (map (value_of table.now image) names.now) row) images.now) rows.now) }
{
    let Some((first, rest)) = rows.split_first() else {
        return Ok(true);
    };
    let any = any_shows(alloc, table, names, first, images)?;
    if !any {
        return Ok(false);
    }
    are_projected(alloc, table, names, rest, images)
}

fn is_select_of(
    alloc: Global,
    catalog: &Catalog,
    select: &Select,
    rows: &[Values],
    images: &[Image],
) -> Result<bool, NoMemory>
    ensures { IfOk result (λ are. are ≡ select_is_of_lem catalog.now select.now rows.now images.now) }
{
    match catalog.find(&select.table) {
        Some(table) => {
            let names = projected_names(alloc, table, &select.columns)?;
            are_projected(alloc, table, names.as_slice(), rows, images)
        }
        None => Ok(false),
    }
}

// Whether the statement is a SELECT by which these images show these rows.
fn is_statement_of(
    alloc: Global,
    catalog: &Catalog,
    statement: &Option<Statement>,
    rows: &[Values],
    images: &[Image],
) -> Result<bool, NoMemory>
    ensures { IfOk result (λ are. are ≡ statement_is_of_lem catalog.now statement.now rows.now images.now) }
{
    match statement {
        Some(Statement::Select(select)) => is_select_of(alloc, catalog, select, rows, images),
        _ => Ok(false),
    }
}

// Whether the transaction has a row at a key.
fn some_had(
    alloc: Global,
    catalog: &Catalog,
    stores: &Stores,
    executed: &Executed,
    key: &Key,
    turns: &[Turn],
) -> Result<bool, NoMemory>
    ensures { IfOk result (λ some. some ≡ some_had_lem (had_at catalog.now stores.now (executed_of executed.now) key.now turns.now)) }
{
    let mut images = Images::new(alloc);
    add_had(alloc, &mut images, catalog, stores, executed, key, turns)?;
    Ok(images.first().is_some())
}

// Whether the answer of a turn shows rows that its transaction has, under these tables.
fn is_answer_of(
    alloc: Global,
    catalog: &Catalog,
    stores: &Stores,
    turns: &[Turn],
    turn: &Turn,
) -> Result<bool, NoMemory>
    ensures { IfOk result (λ is. is ≡ turn_is_under catalog.now stores.now turns.now turn.now) }
{
    match &turn.executed.answer {
        Some(Answer::Rows(rows)) => {
            let keys = keys_of(alloc, catalog, stores, turns)?;
            let keys = keys.as_slice();
            let images = images_had(alloc, catalog, stores, &turn.executed, keys, turns)?;
            let observed = rows.as_slice();
            is_statement_of(alloc, catalog, &turn.statement, observed, images.as_slice())
        }
        Some(Answer::Duplicate(key)) => {
            some_had(alloc, catalog, stores, &turn.executed, key, turns)
        }
        _ => Ok(true),
    }
}

// Whether it holds under the tables with which the statement was accepted.
fn is_answer_of_then(
    alloc: Global,
    catalog: &Catalog,
    events: &[Event],
    stores: &Stores,
    turns: &[Turn],
    turn: &Turn,
) -> Result<bool, NoMemory>
    ensures { IfOk result (λ is. is ≡ turn_is_of catalog.now events.now stores.now turns.now turn.now) }
{
    let then = catalog_after(catalog, before(&turn.executed, events))?;
    is_answer_of(alloc, &then, stores, turns, turn)
}

/// Whether it holds of each of these statements.
pub fn answers_have_rows(
    alloc: Global,
    catalog: &Catalog,
    events: &[Event],
    stores: &Stores,
    turns: &[Turn],
    some: &[Turn],
) -> Result<bool, NoMemory>
    ensures { IfOk result (λ are. are ≡ list_all (turn_is_of catalog.now events.now stores.now turns.now) some.now) }
{
    let Some((first, rest)) = some.split_first() else {
        return Ok(true);
    };
    let is = is_answer_of_then(alloc, catalog, events, stores, turns, first)?;
    if !is {
        return Ok(false);
    }
    answers_have_rows(alloc, catalog, events, stores, turns, rest)
}
