//! Statements that are turned away when they are accepted.
ghost use Rattle.std.specs.Prelude.{◌≡◌, IfOk};
ghost use Rattle.sdb_model.specs.Causes.{refused as refused_lem};
ghost use Rattle.check_answers.specs.Tests.{refusal_met, begin_turned as begin_turned_lem, vacuum_turned as vacuum_turned_lem, inside_turned as inside_turned_lem, turned_by as turned_by_lem, IsTurned};

use crate::reading::{refusal_in, statement_in};
use check_tables::{Work, catalog_after, is_open, someone_does};
use sdb_exec::{Plan, PlanRefused};
use sdb_model::{Answer, Event, Refusal, Statement};
use sdb_schema::Catalog;
use sdb_sqltext::laws::one_reading;
use sdb_types::{Duplicate, NoMemory, Txt};
use std::alloc::Global;

// The refusal of a statement that has to be inside a transaction, and is.
fn refusal_of(
    alloc: Global,
    catalog: &Catalog,
    statement: &Statement,
) -> Result<Option<Refusal>, NoMemory>
    ensures { IfOk result (λ refusal. refusal ≡ refusal_met catalog.now statement.now) }
{
    match statement {
        Statement::Commit | Statement::Rollback => Ok(None),
        _ => match Plan::new(alloc, catalog, statement.copy()?) {
            Ok(_) => Ok(None),
            Err(PlanRefused::Refused(refusal)) => Ok(Some(refusal)),
            Err(PlanRefused::NoMemory) => Err(NoMemory),
        },
    }
}

fn refused(kind: u8) -> Answer
    ensures { result ≡ refused_lem kind }
{
    Answer::Refused(Refusal { kind, place: 0 })
}

fn begin_turned(alloc: Global, past: &[Event], client: u64) -> Result<Option<Answer>, NoMemory>
    ensures { IfOk result (λ turned. turned ≡ begin_turned_lem past.now client) }
{
    if is_open(alloc, past, client)? {
        return Ok(Some(refused(4)));
    }
    if someone_does(alloc, Work::Vacuum, past)? {
        return Ok(Some(Answer::Vacuuming));
    }
    Ok(None)
}

fn vacuum_turned(alloc: Global, past: &[Event]) -> Result<Option<Answer>, NoMemory>
    ensures { IfOk result (λ turned. turned ≡ vacuum_turned_lem past.now) }
{
    if someone_does(alloc, Work::Transaction, past)? {
        Ok(Some(Answer::OpenTransactions))
    } else {
        Ok(None)
    }
}

fn inside_turned(
    alloc: Global,
    catalog: &Catalog,
    past: &[Event],
    client: u64,
    statement: &Statement,
) -> Result<Option<Answer>, NoMemory>
    ensures { IfOk result (λ turned. turned ≡ inside_turned_lem catalog.now past.now client statement.now) }
{
    if !is_open(alloc, past, client)? {
        return Ok(Some(refused(5)));
    }
    let now = catalog_after(catalog, past)?;
    match refusal_of(alloc, &now, statement)? {
        Some(refusal) => Ok(Some(Answer::Refused(refusal))),
        None => Ok(None),
    }
}

fn turned_by(
    alloc: Global,
    catalog: &Catalog,
    past: &[Event],
    client: u64,
    statement: &Statement,
) -> Result<Option<Answer>, NoMemory>
    ensures { IfOk result (λ turned. turned ≡ turned_by_lem catalog.now past.now client statement.now) }
{
    match statement {
        Statement::Begin => begin_turned(alloc, past, client),
        Statement::Vacuum => vacuum_turned(alloc, past),
        _ => inside_turned(alloc, catalog, past, client, statement),
    }
}

/// The answer with which a statement that a client takes after these events is turned away, if it is. A text of 2^32 bytes
/// counts as out of memory.
pub fn turned_away(
    alloc: Global,
    catalog: &Catalog,
    past: &[Event],
    client: u64,
    text: &Txt,
) -> Result<Option<Answer>, NoMemory>
    ensures { IfOk result (IsTurned catalog.now past.now client text.now) }
{
    one_reading();
    match refusal_in(alloc, text)? {
        Some(refusal) => Ok(Some(Answer::Refused(refusal))),
        None => match statement_in(alloc, text)? {
            Some(statement) => turned_by(alloc, catalog, past, client, &statement),
            None => Ok(None),
        },
    }
}
