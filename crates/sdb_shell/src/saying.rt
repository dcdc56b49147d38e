//! One statement of a session, accepted by the text that it is printed as.
ghost use Rattle.std.specs.Prelude.{◌<◌, length, IfOk, OnOk};
ghost use Rattle.sdb_contents.specs.Board.{GoOn};
ghost use Rattle.sdb_client.specs.Client.{IsIdle};
ghost use Rattle.sdb_shell.specs.Turns.{IsAnsweredIn, IsRolledBackIn, turn};

use crate::account::Session;
use sdb_model::{Answer, Statement};
use sdb_schema::Catalog;
use sdb_sqltext::print_statement;
use sdb_stores::Registry;
use sdb_types::{Clock, Ids, NoMemory};
use std::alloc::Global;

// A text of as many bytes counts as out of memory.
const LONGEST: usize = 1 << 32;

/// Takes a statement, and makes its calls until it is answered.
pub fn say<S: Registry, C: Clock, I: Ids>(
    alloc: Global,
    session: &mut Session,
    statement: &Statement,
    catalog: &Catalog,
    stores: &mut S,
    clock: &mut C,
    ids: &mut I,
) -> Result<Answer, NoMemory>
    requires some { 0 < length (S.state stores.old).views }
    requires idle { IsIdle session.old.client }
    ensures answered { IfOk result (IsAnsweredIn S.state catalog.now statement.now
        (turn C.answered I.answered stores.old stores.new clock.old clock.new ids.old ids.new session.old session.new)) }
    ensures goes { GoOn (S.state stores.old) (S.state stores.new) }
{
    let text = print_statement(alloc, statement)?;
    if text.len() >= LONGEST {
        return Err(NoMemory);
    }
    session.answer(catalog, &text, stores, clock, ids)
}

/// Takes ROLLBACK where a transaction is open.
pub fn roll_back<S: Registry, C: Clock, I: Ids>(
    alloc: Global,
    session: &mut Session,
    catalog: &Catalog,
    stores: &mut S,
    clock: &mut C,
    ids: &mut I,
) -> Result<(), NoMemory>
    requires some { 0 < length (S.state stores.old).views }
    requires idle { IsIdle session.old.client }
    ensures rolled_back { OnOk result (IsRolledBackIn S.state catalog.now
        (turn C.answered I.answered stores.old stores.new clock.old clock.new ids.old ids.new session.old session.new)) }
    ensures idle { OnOk result (IsIdle session.new.client) }
    ensures goes { GoOn (S.state stores.old) (S.state stores.new) }
{
    if session.is_open() {
        say(
            alloc,
            session,
            &Statement::Rollback,
            catalog,
            stores,
            clock,
            ids,
        )?;
    }
    Ok(())
}
