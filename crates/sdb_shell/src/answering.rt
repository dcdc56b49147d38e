//! A statement of a client, from its text to its answer.
ghost use Rattle.std.specs.Prelude.{◌≡◌, ◌<◌, ◌^◌, length, IfOk};
ghost use Rattle.sdb_contents.specs.Board.{GoOn};
ghost use Rattle.sdb_client.specs.Client.{IsIdle};
ghost use Rattle.sdb_shell.specs.Answering.{AreMade, HasCalled, IsAnswered, IsWorking};

use sdb_client::{Client, Gate};
use sdb_contents::call;
use sdb_model::Answer;
use sdb_schema::Catalog;
use sdb_stores::Registry;
use sdb_types::{NoMemory, TxId, Txt};

// No other client is at work.
const ALONE: Gate = Gate {
    vacuum_runs: false,
    open_elsewhere: false,
};

// Makes the pending call, and hands its reply to the client.
fn make_call<S: Registry>(client: &mut Client, stores: &mut S, now: i64) -> Option<Answer>
    requires some { 0 < length (S.state stores.old).views }
    requires works { IsWorking client.old }
    ensures called { HasCalled now (S.state stores.old) client.old result (S.state stores.new) client.new }
    ensures goes { GoOn (S.state stores.old) (S.state stores.new) }
{
    let reply = match client.pending() {
        Some(request) => call(stores, request),
        None => unreachable!(),
    };
    client.advance(reply, now)
}

// Makes calls until the statement is answered. More than 2^64 - 1 count as out of memory.
fn make_calls<S: Registry>(
    client: &mut Client,
    stores: &mut S,
    now: i64,
) -> Result<Answer, NoMemory>
    requires some { 0 < length (S.state stores.old).views }
    requires works { IsWorking client.old }
    ensures made { IfOk result (λ a. AreMade now (S.state stores.old) client.old a (S.state stores.new) client.new) }
    ensures goes { GoOn (S.state stores.old) (S.state stores.new) }
{
    for _ in 0..u64::MAX {
        if let Some(answer) = make_call(client, stores, now) {
            return Ok(answer);
        }
    }
    Err(NoMemory)
}

/// Takes a statement at a moment from 0 to 2^53 and makes its calls until it is answered, while no other client is at work. A transaction
/// that it begins has the id `fresh`. More than 2^64 - 1 calls count as out of memory; the client isn't used again after it.
pub fn answer<S: Registry>(
    client: &mut Client,
    catalog: &Catalog,
    text: &Txt,
    fresh: TxId,
    now: i64,
    stores: &mut S,
) -> Result<Answer, NoMemory>
    requires some { 0 < length (S.state stores.old).views }
    requires idle { IsIdle client.old }
    requires short { length text.now < 2 ^ 32 }
    ensures answered { IfOk result (λ a. IsAnswered catalog.now text.now fresh now (S.state stores.old) client.old a (S.state stores.new) client.new) }
    ensures goes { GoOn (S.state stores.old) (S.state stores.new) }
{
    match client.take(catalog, text, ALONE, fresh, now) {
        Some(answer) => Ok(answer),
        None => make_calls(client, stores, now),
    }
}
