//! The clients of a bench: one that inserts the rows, and eight that write.
ghost use Rattle.std.specs.Prelude.{◌≡◌, ◌<◌, ◌++◌, ◌∷◌, ◌*◌, [], map, true, codes, IfOk, OnOk};
ghost use Rattle.std.specs.String.{string_bytes};
ghost use Rattle.sdb_types.specs.Identifier.{is_name};
ghost use Rattle.sdb_bench.specs.Draws.{numbers_below, state_after};
ghost use Rattle.sdb_bench.specs.Script.{bench_clients as bench_clients_lem, bench_turns, setup_client, turn_of, writer_name as writer_name_lem, writer_of};

use crate::draws::Draws;
use crate::texts::{Turn, setup_texts, writer_texts};
use sdb_model::{Clients, ScriptClient};
use sdb_types::{Name, NoMemory};
use std::alloc::Global;

/// The name that a text is.
pub fn named(alloc: Global, text: &str) -> Result<Name, NoMemory>
    requires { is_name text.now ≡ true }
    ensures { IfOk result (λ name. name ≡ text.now) }
{
    Name::from_string(String::from_str(alloc, text)?)
}

fn writer_name(alloc: Global, writer: u32) -> Result<Name, NoMemory>
    requires { writer < 8 }
    ensures { IfOk result (λ name. name ≡ writer_name_lem writer) }
{
    let number = writer + 1;
    Name::from_string(format!(in alloc; "w{number}")?)
}

fn writer_client(alloc: Global, turns: &[Turn], writer: u32) -> Result<ScriptClient, NoMemory>
    requires { writer < 8 }
    ensures { IfOk result (λ client. client ≡ writer_of turns.now writer) }
{
    let name = writer_name(alloc, writer)?;
    let statements = writer_texts(alloc, turns, writer)?;
    Ok(ScriptClient { name, statements })
}

fn put_setup_client(alloc: Global, clients: &mut Clients) -> Result<(), NoMemory>
    ensures { OnOk result (clients.new ≡ clients.old ++ setup_client ∷ []) }
{
    let name = named(alloc, "setup")?;
    let statements = setup_texts(alloc)?;
    clients.push(ScriptClient { name, statements })
}

fn put_writers(alloc: Global, clients: &mut Clients, turns: &[Turn]) -> Result<(), NoMemory>
    ensures { OnOk result (clients.new ≡ clients.old ++ map (writer_of turns.now) (numbers_below 8)) }
{
    for writer in 0..8 {
        clients.push(writer_client(alloc, turns, writer)?)?;
    }
    Ok(())
}

// All transactions of a bench of n, and the generator after their draws.
fn drawn_turns(alloc: Global, draws: &mut Draws, n: u32) -> Result<Vec<Turn>, NoMemory>
    requires { draws.old.state ≡ n }
    ensures turns { IfOk result (λ turns. turns.items ≡ bench_turns n) }
    ensures state { OnOk result (draws.new.state ≡ state_after n (4 * n)) }
{
    let mut turns = Vec::new(alloc);
    for number in 0..n {
        turns.push(Turn::draw(draws, number))?;
    }
    Ok(turns)
}

/// The clients of a bench of n transactions, by a generator at n, and the generator after their draws.
pub fn bench_clients(alloc: Global, draws: &mut Draws, n: u32) -> Result<Clients, NoMemory>
    requires { draws.old.state ≡ n }
    ensures clients { IfOk result (λ clients. clients ≡ bench_clients_lem n) }
    ensures state { OnOk result (draws.new.state ≡ state_after n (4 * n)) }
{
    let turns = drawn_turns(alloc, draws, n)?;
    let mut clients = Clients::new(alloc);
    put_setup_client(alloc, &mut clients)?;
    put_writers(alloc, &mut clients, turns.as_slice())?;
    Ok(clients)
}
