//! The statements of a transaction, with what is asked of each.
ghost use Rattle.std.specs.Prelude.{◌≡◌, ◌++◌, ◌∷◌, [], IfOk, OnOk, List};
ghost use Rattle.sdb_model.specs.Transactions.{Executed as SaidOf, client_of as client_of_lem, statements_of, through_end};
ghost use Rattle.sdb_contents.specs.Commits.{all_executed, executed_of};
ghost use Rattle.check_answers.specs.Turns.{AreTurns, IsTurn};

use crate::statement_in;
use check_tables::{Made, calls_of, client_of, end_of, from_begin, ordinal_of, rest_of};
use sdb_contents::{Executed, ends, statements_by};
use sdb_model::{Event, Statement};
use sdb_types::{Duplicate, NoMemory, Seq, TxId};
use std::alloc::Global;

/// An executed statement, what its text is read as, its calls, and the number of the event that it ends at.
pub struct Turn {
    pub executed: Executed,
    pub statement: Option<Statement>,
    pub calls: Seq<Made>,
    pub end: u64,
}

// By hand: each drop is then one call, where a derived one is written out at each exit, with a call for each field.
impl Drop for Turn {
    fn drop(self) {
        let Turn {
            executed: _,
            statement: _,
            calls: _,
            end: _,
        } = self;
    }
}

pub type Turns = Seq<Turn>;

fn copied(executed: &Executed) -> Result<Executed, NoMemory>
    ensures { IfOk result (λ copy. copy ≡ executed.now) }
{
    Ok(Executed {
        accepted: executed.accepted,
        text: executed.text.copy()?,
        answer: executed.answer.copy()?,
        reached: executed.reached,
    })
}

fn turn_of(
    alloc: Global,
    events: &[Event],
    client: u64,
    executed: &Executed,
) -> Result<Turn, NoMemory>
    ensures { IfOk result (IsTurn events.now client (executed_of executed.now)) }
{
    Ok(Turn {
        executed: copied(executed)?,
        statement: statement_in(alloc, &executed.text)?,
        calls: calls_of(alloc, events, client, executed)?,
        end: end_of(events, executed),
    })
}

// Adds the statement.
fn add_turn(
    alloc: Global,
    turns: &mut Turns,
    events: &[Event],
    client: u64,
    executed: &Executed,
) -> Result<(), NoMemory>
    ensures { OnOk result ((past : List SaidOf) → AreTurns events.now client past turns.old → AreTurns events.now client (past ++ executed_of executed.now ∷ []) turns.new) }
{
    let turn = turn_of(alloc, events, client, executed)?;
    turns.push(turn)?;
    Ok(())
}

// Adds the statements up to the one that ends the transaction.
fn add_turns(
    alloc: Global,
    turns: &mut Turns,
    events: &[Event],
    client: u64,
    executed: &[Executed],
) -> Result<(), NoMemory>
    ensures { OnOk result ((past : List SaidOf) → AreTurns events.now client past turns.old → AreTurns events.now client (past ++ through_end (all_executed executed.now)) turns.new) }
{
    let Some((first, rest)) = executed.split_first() else {
        return Ok(());
    };
    add_turn(alloc, turns, events, client, first)?;
    if ends(alloc, first)? {
        return Ok(());
    }
    add_turns(alloc, turns, events, client, rest)
}

/// The statements of a transaction.
pub fn turns_of(alloc: Global, events: &[Event], id: TxId) -> Result<Turns, NoMemory>
    ensures { IfOk result (AreTurns events.now (client_of_lem id) (statements_of events.now id)) }
{
    let client = client_of(id);
    let all = statements_by(alloc, client, events)?;
    let since = from_begin(alloc, ordinal_of(id), all.as_slice())?;
    let mut turns = Turns::new(alloc);
    add_turns(alloc, &mut turns, events, client, rest_of(since))?;
    Ok(turns)
}
