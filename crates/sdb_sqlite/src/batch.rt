//! Several records put in one transaction.
ghost use Rattle.sdb_types.specs.Contents.{IsBatch};
ghost use Rattle.sdb_sqlite.specs.Asked.{Commits, Ends, PutsAll, PutsEach, RollsBack};

use crate::calls::{Written, put};
use crate::held::Held;
use crate::refused::Stopped;
use crate::statements::{begin, commit, roll_back};
use sdb_types::{Batch, Put, Record};
use sqlite::Connection;
use std::alloc::Global;

/// What became of a batch.
#[derive(Drop)]
pub enum BatchWritten {
    AllWritten,
    /// The place of the first put whose condition does not hold, counted from 1, and what is at its key.
    FirstUnmet(u32, Option<Record>),
}

// Puts records one after another, up to the first whose condition does not hold.
fn put_each<S: Held>(
    alloc: Global,
    connection: &mut Connection<S>,
    puts: &[Put],
) -> Result<BatchWritten, Stopped>
    requires { IsBatch puts.now }
    ensures { PutsEach S.Store 1 puts.now connection.old connection.new result }
{
    let mut place: u32 = 0;
    for one in puts {
        place += 1;
        match put(alloc, connection, &one.rec, &one.condition) {
            Ok(Written::Applied) => {}
            Ok(Written::NotMet(found)) => return Ok(BatchWritten::FirstUnmet(place, found)),
            Err(stopped) => return Err(stopped),
        }
    }
    Ok(BatchWritten::AllWritten)
}

// Takes back what was written in a transaction, where one is open.
fn take_back<S: Held>(connection: &mut Connection<S>)
    ensures { RollsBack S.Store connection.old connection.new }
{
    let _answer = roll_back(connection);
}

// Makes what was written last, or takes it back where that is refused.
fn keep<S: Held>(connection: &mut Connection<S>) -> Result<BatchWritten, Stopped>
    ensures { Commits S.Store connection.old connection.new result }
{
    match commit(connection) {
        Ok(_) => Ok(BatchWritten::AllWritten),
        Err(error) => {
            take_back(connection);
            Err(Stopped::from(error))
        }
    }
}

// Ends the transaction of a batch.
fn end<S: Held>(
    connection: &mut Connection<S>,
    written: Result<BatchWritten, Stopped>,
) -> Result<BatchWritten, Stopped>
    ensures { Ends S.Store connection.old connection.new result written }
{
    match written {
        Ok(BatchWritten::AllWritten) => keep(connection),
        Ok(BatchWritten::FirstUnmet(place, found)) => {
            take_back(connection);
            Ok(BatchWritten::FirstUnmet(place, found))
        }
        Err(stopped) => {
            take_back(connection);
            Err(stopped)
        }
    }
}

/// Puts each record of a batch at its key, in one transaction, where each condition holds of what is there, and otherwise none.
pub fn put_all<S: Held>(
    alloc: Global,
    connection: &mut Connection<S>,
    batch: &Batch,
) -> Result<BatchWritten, Stopped>
    requires { IsBatch batch.now }
    ensures { PutsAll S.Store batch.now connection.old connection.new result }
{
    match begin(connection) {
        Ok(_) => {
            let written = put_each(alloc, connection, batch.as_slice());
            end(connection, written)
        }
        Err(error) => Err(Stopped::from(error)),
    }
}
