//! The causes that are in the text of a statement, or in its replies alone.
ghost use Rattle.sdb_types.specs.Replies.{is_fault as is_fault_lem};
ghost use Rattle.std.specs.Prelude.{◌≡◌, IfOk, IsTrue, ◌↔◌, ◌≤◌, false, length};
ghost use Rattle.std.specs.Option.{option_map_or};
ghost use Rattle.sdb_model.specs.Calls.{calls_of as calls_of_lem};
ghost use Rattle.sdb_model.specs.Causes.{HasReply, before as before_lem, is_select as is_select_lem, removes as removes_lem};
ghost use Rattle.sdb_contents.specs.Commits.{executed_of};
ghost use Rattle.check_tables.specs.Values.{made_of};
ghost use Rattle.check_answers.specs.Tests.{Inserts, counts_so as counts_so_lem, is_done as is_done_lem, IsOfRows, IsOfCount, IsOfDone, IsOfDuplicate, removed_by};

use crate::reading::statement_in;
use crate::sign::{Sign, any};
use check_protocol::is_same_key;
use check_tables::{Made, calls_of, is_open, is_removal, prefix};
use sdb_contents::Executed;
use sdb_exec::inserted_key;
use sdb_model::{Event, Statement};
use sdb_schema::Catalog;
use sdb_types::{Key, NoMemory, Reply};
use std::alloc::Global;

/// The events before a statement was accepted.
pub fn before<'a>(executed: &Executed, events: &'a [Event]) -> &'a [Event]
    ensures { result.now ≡ before_lem (executed_of executed.now) events.now }
{
    if executed.accepted == 0 {
        prefix(events, 0)
    } else {
        prefix(events, executed.accepted - 1)
    }
}

fn is_select(statement: &Option<Statement>) -> bool
    ensures { result ≡ option_map_or is_select_lem statement.now false }
{
    matches!(statement, Some(Statement::Select(_)))
}

/// The cause of Rows: it is a SELECT inside a transaction.
pub fn is_of_rows(
    alloc: Global,
    events: &[Event],
    client: u64,
    executed: &Executed,
) -> Result<bool, NoMemory>
    ensures { IfOk result (λ is. IsTrue is ↔ IsOfRows events.now client (executed_of executed.now)) }
{
    let statement = statement_in(alloc, &executed.text)?;
    if is_select(&statement) {
        let inside = is_open(alloc, before(executed, events), client)?;
        return Ok(inside);
    }
    Ok(false)
}

/// Whether a call is a delete of a committed record that took effect.
fn removes(made: &Made) -> bool
    ensures { result ≡ removes_lem (made_of made.now) }
{
    is_removal(&made.request) && matches!(made.reply, Reply::Applied)
}

fn removed(calls: &[Made]) -> usize
    ensures count { result ≡ removed_by calls.now }
    ensures most { result ≤ length calls.now }
{
    let Some((first, rest)) = calls.split_first() else {
        return 0;
    };
    let more = removed(rest);
    if removes(first) { more + 1 } else { more }
}

// Whether a statement counts so many rows, where so many tombstones were removed.
fn counts_so(removed: usize, count: u64, statement: &Option<Statement>) -> bool
    ensures { result ≡ option_map_or (counts_so_lem removed count) statement.now false }
{
    match statement {
        Some(Statement::Insert(_) | Statement::Upsert(_)) => count == 1,
        Some(Statement::Update(_) | Statement::Delete(_)) => true,
        Some(Statement::Vacuum) => count == removed as u64,
        _ => false,
    }
}

/// The cause of Count: it is a statement that counts, INSERT and UPSERT count one row, and VACUUM counts what it removed.
pub fn is_of_count(
    alloc: Global,
    events: &[Event],
    client: u64,
    executed: &Executed,
    count: u64,
) -> Result<bool, NoMemory>
    ensures { IfOk result (λ is. IsTrue is ↔ IsOfCount events.now client (executed_of executed.now) count) }
{
    let statement = statement_in(alloc, &executed.text)?;
    let calls = calls_of(alloc, events, client, executed)?;
    let removed = removed(calls.as_slice());
    Ok(counts_so(removed, count, &statement))
}

fn is_done(statement: &Option<Statement>) -> bool
    ensures { result ≡ option_map_or is_done_lem statement.now false }
{
    matches!(statement, Some(Statement::Begin | Statement::Rollback))
}

/// The cause of Done: it is BEGIN or ROLLBACK.
pub fn is_of_done(alloc: Global, executed: &Executed) -> Result<bool, NoMemory>
    ensures { IfOk result (λ is. IsTrue is ↔ IsOfDone (executed_of executed.now)) }
{
    let statement = statement_in(alloc, &executed.text)?;
    Ok(is_done(&statement))
}

fn inserts(
    alloc: Global,
    catalog: &Catalog,
    statement: &Option<Statement>,
    key: &Key,
) -> Result<bool, NoMemory>
    ensures { IfOk result (λ is. IsTrue is ↔ Inserts catalog.now statement.now key.now) }
{
    let Some(Statement::Insert(insert)) = statement else {
        return Ok(false);
    };
    match catalog.find(&insert.table) {
        Some(table) => {
            let inserted = inserted_key(alloc, table, insert)?;
            Ok(is_same_key(&inserted, key))
        }
        None => Ok(false),
    }
}

/// The cause of Duplicate: it is an INSERT of this key.
pub fn is_of_duplicate(
    alloc: Global,
    catalog: &Catalog,
    executed: &Executed,
    key: &Key,
) -> Result<bool, NoMemory>
    ensures { IfOk result (λ is. IsTrue is ↔ IsOfDuplicate catalog.now (executed_of executed.now) key.now) }
{
    let statement = statement_in(alloc, &executed.text)?;
    inserts(alloc, catalog, &statement, key)
}

/// The cause of Faulted: a call of the statement was answered with a fault.
pub fn has_fault(
    alloc: Global,
    events: &[Event],
    client: u64,
    executed: &Executed,
) -> Result<bool, NoMemory>
    ensures { IfOk result (λ is. IsTrue is ↔ HasReply is_fault_lem (calls_of_lem events.now client (executed_of executed.now))) }
{
    let calls = calls_of(alloc, events, client, executed)?;
    Ok(any(alloc, calls.as_slice(), Sign::Fault))
}
