//! The rows of a group.
ghost use Rattle.std.specs.Prelude.{◌≡◌, ◌<◌, length, IfOk, OnOk};
ghost use Rattle.sdb_contents.specs.Board.{GoOn};
ghost use Rattle.sdb_client.specs.Client.{IsIdle};
ghost use Rattle.sdb_shell.specs.Groups.{is_loaded as is_loaded_lem, is_written as is_written_lem};
ghost use Rattle.sdb_shell.specs.Statements.{row_statement as row_statement_lem};
ghost use Rattle.sdb_shell.specs.Turns.{AreRowsLoaded, IsAnsweredIn, turn};

use crate::account::Session;
use crate::load::{Load, row_statement};
use crate::saying::say;
use sdb_model::Answer;
use sdb_schema::Catalog;
use sdb_stores::Registry;
use sdb_types::{Clock, Ids, NoMemory, Value, Values};
use std::alloc::Global;

/// How the rows of a group were accepted: how many were written, and the answer that stopped them, if one did.
#[derive(Drop)]
pub struct RowsTaken {
    pub written: usize,
    pub bad: Option<Answer>,
}

fn is_loaded(answer: &Answer) -> bool
    ensures { result ≡ is_loaded_lem answer.now }
{
    matches!(answer, Answer::Count(_) | Answer::Duplicate(_))
}

fn is_written(answer: &Answer) -> bool
    ensures { result ≡ is_written_lem answer.now }
{
    matches!(answer, Answer::Count(1))
}

// Takes the statement of a row.
fn take_row<S: Registry, C: Clock, I: Ids>(
    alloc: Global,
    session: &mut Session,
    load: &Load,
    row: &[Value],
    catalog: &Catalog,
    stores: &mut S,
    clock: &mut C,
    ids: &mut I,
) -> Result<Answer, NoMemory>
    requires some { 0 < length (S.state stores.old).views }
    requires idle { IsIdle session.old.client }
    ensures answered { IfOk result (IsAnsweredIn S.state catalog.now (row_statement_lem load.now row.now)
        (turn C.answered I.answered stores.old stores.new clock.old clock.new ids.old ids.new session.old session.new)) }
    ensures goes { GoOn (S.state stores.old) (S.state stores.new) }
{
    let statement = row_statement(alloc, load, row)?;
    say(alloc, session, &statement, catalog, stores, clock, ids)
}

/// Takes the statement of each row, until one is answered neither Count nor Duplicate.
pub fn take_rows<S: Registry, C: Clock, I: Ids>(
    alloc: Global,
    session: &mut Session,
    load: &Load,
    rows: &[Values],
    catalog: &Catalog,
    stores: &mut S,
    clock: &mut C,
    ids: &mut I,
) -> Result<RowsTaken, NoMemory>
    requires some { 0 < length (S.state stores.old).views }
    requires idle { IsIdle session.old.client }
    ensures accepted { IfOk result (AreRowsLoaded S.state catalog.now load.now rows.now
        (turn C.answered I.answered stores.old stores.new clock.old clock.new ids.old ids.new session.old session.new)) }
    ensures idle { OnOk result (IsIdle session.new.client) }
    ensures goes { GoOn (S.state stores.old) (S.state stores.new) }
{
    let mut written = 0;
    for row in rows {
        let answer = take_row(
            alloc,
            session,
            load,
            row.as_slice(),
            catalog,
            stores,
            clock,
            ids,
        )?;
        if !is_loaded(&answer) {
            return Ok(RowsTaken {
                written,
                bad: Some(answer),
            });
        }
        if is_written(&answer) {
            written += 1;
        }
    }
    Ok(RowsTaken { written, bad: None })
}
