//! A table, exported as CSV.
ghost use Rattle.std.specs.Prelude.{◌≡◌, ◌<◌, length, true, IfOk, IfErr, OnOk};
ghost use Rattle.sdb_contents.specs.Board.{GoOn};
ghost use Rattle.sdb_shell.specs.Ends.{ends};
ghost use Rattle.sdb_client.specs.Client.{IsIdle, is_out_of_memory};
ghost use Rattle.sdb_shell.specs.Exports.{IsAnsweredAsWanted, IsExport, IsNotAnswered, IsNotExported, IsTableRead, IsTableUnread, IsTextOf, is_rows, is_wanted as is_wanted_lem};
ghost use Rattle.sdb_shell.specs.Statements as spec;
ghost use Rattle.sdb_shell.specs.Turns.{turn};

use crate::account::Session;
use crate::export_refused::ExportRefused;
use crate::saying::say;
use sdb_data::print_table;
use sdb_model::{Answer, Select, Statement, Tests};
use sdb_schema::{Catalog, Table};
use sdb_stores::Registry;
use sdb_types::{Clock, Duplicate, Ids, NoMemory, Octets};
use std::alloc::Global;

fn select_all(alloc: Global, table: &Table) -> Result<Statement, NoMemory>
    ensures { IfOk result (λ st. st ≡ spec.select_all table.now) }
{
    Ok(Statement::Select(Select {
        table: table.name.copy()?,
        columns: None,
        tests: Tests::new(alloc),
        limit: None,
    }))
}

// Whether an export continues after this answer.
fn is_wanted(statement: &Statement, answer: &Answer) -> bool
    ensures { result ≡ is_wanted_lem statement.now answer.now }
{
    match statement {
        Statement::Begin => matches!(answer, Answer::Done),
        Statement::Select(_) => matches!(answer, Answer::Rows(_)),
        Statement::Commit => matches!(answer, Answer::Committed),
        _ => false,
    }
}

fn is_no_memory(answer: &Answer) -> bool
    ensures { result ≡ is_out_of_memory answer.now }
{
    matches!(answer, Answer::NoMemory)
}

// Takes a statement whose answer has to be the one that is wanted.
fn ask<S: Registry, C: Clock, I: Ids>(
    alloc: Global,
    session: &mut Session,
    statement: &Statement,
    catalog: &Catalog,
    stores: &mut S,
    clock: &mut C,
    ids: &mut I,
) -> Result<Answer, ExportRefused>
    requires some { 0 < length (S.state stores.old).views }
    requires idle { IsIdle session.old.client }
    ensures answered { IfOk result (IsAnsweredAsWanted S.state catalog.now statement.now
        (turn C.answered I.answered stores.old stores.new clock.old clock.new ids.old ids.new session.old session.new)) }
    ensures refused { IfErr result (IsNotAnswered S.state catalog.now statement.now
        (turn C.answered I.answered stores.old stores.new clock.old clock.new ids.old ids.new session.old session.new)) }
    ensures idle { OnOk result (IsIdle session.new.client) }
    ensures goes { GoOn (S.state stores.old) (S.state stores.new) }
{
    let answer = say(alloc, session, statement, catalog, stores, clock, ids)?;
    if is_wanted(statement, &answer) {
        Ok(answer)
    } else if is_no_memory(&answer) {
        Err(ExportRefused::NoMemory)
    } else {
        Err(ExportRefused::NotCommitted(answer))
    }
}

// The rows of an answer as CSV.
fn text_of(alloc: Global, table: &Table, answer: &Answer) -> Result<Octets, NoMemory>
    requires { is_rows answer.now ≡ true }
    ensures { IfOk result (IsTextOf table.now answer.now) }
{
    match answer {
        Answer::Rows(rows) => print_table(alloc, table, rows),
        _ => unreachable!(),
    }
}

// Reads a table as one transaction, and returns the answer that has its rows.
fn read_rows<S: Registry, C: Clock, I: Ids>(
    alloc: Global,
    session: &mut Session,
    table: &Table,
    catalog: &Catalog,
    stores: &mut S,
    clock: &mut C,
    ids: &mut I,
) -> Result<Answer, ExportRefused>
    requires some { 0 < length (S.state stores.old).views }
    requires idle { IsIdle session.old.client }
    ensures read { IfOk result (IsTableRead S.state catalog.now table.now
        (turn C.answered I.answered stores.old stores.new clock.old clock.new ids.old ids.new session.old session.new)) }
    ensures refused { IfErr result (IsTableUnread S.state catalog.now table.now
        (turn C.answered I.answered stores.old stores.new clock.old clock.new ids.old ids.new session.old session.new)) }
    ensures goes { GoOn (S.state stores.old) (S.state stores.new) }
{
    let select = select_all(alloc, table)?;
    ask(
        alloc,
        session,
        &Statement::Begin,
        catalog,
        stores,
        clock,
        ids,
    )?;
    let rows = ask(alloc, session, &select, catalog, stores, clock, ids)?;
    ask(
        alloc,
        session,
        &Statement::Commit,
        catalog,
        stores,
        clock,
        ids,
    )?;
    Ok(rows)
}

/// Reads a table of the catalog as one transaction, and returns its rows as CSV: the names of all columns, and then each row, in the
/// order of the table. Where a statement isn't answered as it should be, no other is accepted after it.
pub fn export_table<S: Registry, C: Clock, I: Ids>(
    alloc: Global,
    catalog: &Catalog,
    table: &Table,
    stores: &mut S,
    clock: &mut C,
    ids: &mut I,
) -> Result<Octets, ExportRefused>
    requires some { 0 < length (S.state stores.old).views }
    ensures exported { IfOk result (IsExport catalog.now table.now (ends S.state C.answered I.answered stores.old stores.new clock.old clock.new ids.old ids.new)) }
    ensures refused { IfErr result (IsNotExported catalog.now table.now (ends S.state C.answered I.answered stores.old stores.new clock.old clock.new ids.old ids.new)) }
    ensures goes { GoOn (S.state stores.old) (S.state stores.new) }
{
    let mut session = Session::new(alloc, ids);
    let rows = read_rows(alloc, &mut session, table, catalog, stores, clock, ids)?;
    Ok(text_of(alloc, table, &rows)?)
}
