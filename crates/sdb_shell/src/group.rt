//! A group of rows, loaded as one transaction.
ghost use Rattle.std.specs.Prelude.{◌≡◌, ◌<◌, length, Some, IfOk, OnOk};
ghost use Rattle.sdb_contents.specs.Board.{GoOn};
ghost use Rattle.sdb_client.specs.Client.{IsIdle};
ghost use Rattle.sdb_model.specs.Transactions.{is_done as is_done_lem};
ghost use Rattle.sdb_shell.specs.Turns.{IsBegunLoaded, IsEndedIn, IsGroupLoaded, turn};

use crate::account::Session;
use crate::load::Load;
use crate::loaded_rows::{RowsTaken, take_rows};
use crate::saying::{roll_back, say};
use sdb_model::{Answer, Statement};
use sdb_schema::Catalog;
use sdb_stores::Registry;
use sdb_types::{Clock, Ids, NoMemory, Values};
use std::alloc::Global;

/// How a group ended: how many of its rows were written, and the answer that ended it.
#[derive(Drop)]
pub struct Ending {
    pub written: usize,
    pub answer: Answer,
}

fn is_done(answer: &Answer) -> bool
    ensures { result ≡ is_done_lem (Some answer.now) }
{
    matches!(answer, Answer::Done)
}

// Takes COMMIT, or where an answer stopped the rows ROLLBACK.
fn end_rows<S: Registry, C: Clock, I: Ids>(
    alloc: Global,
    session: &mut Session,
    accepted: RowsTaken,
    catalog: &Catalog,
    stores: &mut S,
    clock: &mut C,
    ids: &mut I,
) -> Result<Ending, NoMemory>
    requires some { 0 < length (S.state stores.old).views }
    requires idle { IsIdle session.old.client }
    ensures ended { IfOk result (IsEndedIn S.state catalog.now accepted
        (turn C.answered I.answered stores.old stores.new clock.old clock.new ids.old ids.new session.old session.new)) }
    ensures idle { OnOk result (IsIdle session.new.client) }
    ensures goes { GoOn (S.state stores.old) (S.state stores.new) }
{
    let written = accepted.written;
    match accepted.bad {
        Some(answer) => {
            roll_back(alloc, session, catalog, stores, clock, ids)?;
            Ok(Ending { written, answer })
        }
        None => {
            let commit = Statement::Commit;
            let answer = say(alloc, session, &commit, catalog, stores, clock, ids)?;
            Ok(Ending { written, answer })
        }
    }
}

// Takes the statements of the rows of a transaction that was begun, and ends it.
fn load_group<S: Registry, C: Clock, I: Ids>(
    alloc: Global,
    session: &mut Session,
    load: &Load,
    rows: &[Values],
    catalog: &Catalog,
    stores: &mut S,
    clock: &mut C,
    ids: &mut I,
) -> Result<Ending, NoMemory>
    requires some { 0 < length (S.state stores.old).views }
    requires idle { IsIdle session.old.client }
    ensures loaded { IfOk result (IsBegunLoaded S.state catalog.now load.now rows.now
        (turn C.answered I.answered stores.old stores.new clock.old clock.new ids.old ids.new session.old session.new)) }
    ensures idle { OnOk result (IsIdle session.new.client) }
    ensures goes { GoOn (S.state stores.old) (S.state stores.new) }
{
    let accepted = take_rows(alloc, session, load, rows, catalog, stores, clock, ids)?;
    end_rows(alloc, session, accepted, catalog, stores, clock, ids)
}

/// Loads a group of rows as one transaction.
pub fn take_group<S: Registry, C: Clock, I: Ids>(
    alloc: Global,
    session: &mut Session,
    load: &Load,
    rows: &[Values],
    catalog: &Catalog,
    stores: &mut S,
    clock: &mut C,
    ids: &mut I,
) -> Result<Ending, NoMemory>
    requires some { 0 < length (S.state stores.old).views }
    requires idle { IsIdle session.old.client }
    ensures loaded { IfOk result (IsGroupLoaded S.state catalog.now load.now rows.now
        (turn C.answered I.answered stores.old stores.new clock.old clock.new ids.old ids.new session.old session.new)) }
    ensures idle { OnOk result (IsIdle session.new.client) }
    ensures goes { GoOn (S.state stores.old) (S.state stores.new) }
{
    let begin = Statement::Begin;
    let answer = say(alloc, session, &begin, catalog, stores, clock, ids)?;
    if is_done(&answer) {
        load_group(alloc, session, load, rows, catalog, stores, clock, ids)
    } else {
        roll_back(alloc, session, catalog, stores, clock, ids)?;
        Ok(Ending { written: 0, answer })
    }
}
