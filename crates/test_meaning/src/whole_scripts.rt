//! Scripts of every form that are read, and texts that are refused at a line.
use sdb_loader::SchemaFault;
use sdb_model::{Act, Move, Moves, Script, ScriptClient, Which};
use sdb_schema::Kind;
use sdb_script::{LineFault, ScriptRefused, print_script, read_script};
use sdb_types::{Name, Names, TableName};
use std::alloc::{AllocError, Global};
use std::test::Fail;
use test_builders::{Case, all_cases, names_of};

fn put_number(alloc: Global, out: &mut String, prefix: &str, n: i64) -> Result<(), AllocError> {
    let text = format!(in alloc; "{prefix}{n}")?;
    out.push_str(text.as_str())
}

fn kind_word(kind: Kind) -> &'static str {
    match kind {
        Kind::Boolean => "boolean",
        Kind::Int => "int",
        Kind::BigInt => "bigint",
        Kind::Text => "text",
        Kind::Blob => "blob",
    }
}

fn put_alter(
    out: &mut String,
    table: &TableName,
    column: &Name,
    kind: Kind,
) -> Result<(), AllocError> {
    out.push_str(" alter ")?;
    out.push_str(table.ns.as_str())?;
    out.push_str(" ")?;
    out.push_str(table.table.as_str())?;
    out.push_str(" ")?;
    out.push_str(column.as_str())?;
    out.push_str(" ")?;
    out.push_str(kind_word(kind))
}

fn put_act(alloc: Global, out: &mut String, act: &Act) -> Result<(), AllocError> {
    match act {
        Act::Step(client) => put_number(alloc, out, " step ", i64::from(*client)),
        Act::Lose(client) => put_number(alloc, out, " lose ", i64::from(*client)),
        Act::Discard(client) => put_number(alloc, out, " drop ", i64::from(*client)),
        Act::Delay(client) => put_number(alloc, out, " delay ", i64::from(*client)),
        Act::Land(number) => put_number(alloc, out, " land ", i64::from(*number)),
        Act::Stop(client) => put_number(alloc, out, " stop ", i64::from(*client)),
        Act::Clock(ms) => put_number(alloc, out, " clock ", *ms),
        Act::Alter(table, column, kind) => put_alter(out, table, column, *kind),
    }
}

fn put_move(alloc: Global, out: &mut String, m: &Move) -> Result<(), AllocError> {
    match m {
        Move::Act(act) => put_act(alloc, out, act),
        Move::Repeat(client, count) => {
            put_number(alloc, out, " step ", i64::from(*client))?;
            put_number(alloc, out, "x", i64::from(*count))
        }
        Move::Rest => out.push_str(" rest"),
    }
}

fn put_moves(alloc: Global, out: &mut String, moves: &Moves) -> Result<(), AllocError> {
    for m in moves {
        put_move(alloc, out, m)?;
    }
    Ok(())
}

fn put_all(out: &mut String, parts: &[&str]) -> Result<(), AllocError> {
    for part in parts {
        out.push_str(part)?;
    }
    Ok(())
}

fn put_places(out: &mut String, script: &Script) -> Result<(), AllocError> {
    for place in &script.places {
        put_all(out, &[place.ns.as_str(), "=", place.store.as_str(), " "])?;
    }
    Ok(())
}

fn put_client(out: &mut String, client: &ScriptClient) -> Result<(), AllocError> {
    put_all(out, &[" ", client.name.as_str()])?;
    for text in &client.statements {
        put_all(out, &[" [", text.as_str(), "]"])?;
    }
    Ok(())
}

fn put_clients(out: &mut String, script: &Script) -> Result<(), AllocError> {
    for client in &script.clients {
        put_client(out, client)?;
    }
    out.push_str(" run")
}

fn put_script(alloc: Global, out: &mut String, script: &Script) -> Result<(), AllocError> {
    put_places(out, script)?;
    put_number(alloc, out, "tables ", script.catalog.len() as i64)?;
    put_clients(out, script)?;
    put_moves(alloc, out, &script.moves)
}

// A script in one line: its places, the number of its tables, its clients with their statements, and its moves.
fn observed(alloc: Global, script: &Script) -> Result<String, AllocError> {
    let mut out = String::new(alloc);
    put_script(alloc, &mut out, script)?;
    Ok(out)
}

fn fault_word(fault: &SchemaFault) -> &'static str {
    match fault {
        SchemaFault::NotJson => "not JSON",
        SchemaFault::NotAnObject => "not an object",
        SchemaFault::BadTableName(_) => "bad table name",
        SchemaFault::NonTransactional(_) => "not transactional",
        SchemaFault::BadField(_, _) => "bad field",
        SchemaFault::UnknownType(_, _) => "unknown type",
        SchemaFault::BadTable(_, _) => "bad table",
        SchemaFault::TooManyTables => "too many tables",
        SchemaFault::NoMemory => "no memory",
    }
}

fn line_word(fault: &LineFault) -> &'static str {
    match fault {
        LineFault::Text => "text",
        LineFault::Form => "form",
        LineFault::Store => "store",
        LineFault::Schema(fault) => fault_word(fault),
        LineFault::Missing => "missing",
    }
}

fn limit_word(which: Which) -> &'static str {
    match which {
        Which::LineBytes => "line bytes",
        Which::InputBytes => "input bytes",
        Which::Clients => "clients",
        Which::Statements => "statements",
        Which::Moves => "moves",
    }
}

fn told_at(alloc: Global, n: u64, over: &str, word: &str) -> Result<String, AllocError> {
    format!(in alloc; "{n} {over}{word}")
}

fn refusal(alloc: Global, refused: &ScriptRefused) -> Result<String, AllocError> {
    match refused {
        ScriptRefused::BadLine(line, fault) => told_at(alloc, *line, "", line_word(fault)),
        ScriptRefused::Limit(line, which) => told_at(alloc, *line, "over ", limit_word(*which)),
        ScriptRefused::NoMemory => String::from_str(alloc, "no memory"),
    }
}

// A script over the attached stores, or its refusal, in one line.
fn answered(alloc: Global, text: &[u8], stores: &Names) -> Result<String, AllocError> {
    match read_script(alloc, text, stores) {
        Ok(script) => observed(alloc, &script),
        Err(refused) => refusal(alloc, &refused),
    }
}

fn is_printed(alloc: Global, script: &Script, wanted: &str) -> Result<bool, Fail> {
    Ok(print_script(alloc, script)?.as_str() == wanted)
}

fn printed(alloc: Global, text: &[u8], stores: &Names, wanted: &str) -> Result<bool, Fail> {
    match read_script(alloc, text, stores) {
        Ok(script) => is_printed(alloc, &script, wanted),
        Err(_) => Ok(false),
    }
}

fn attached(alloc: Global) -> Result<Names, Fail> {
    Ok(names_of(alloc, ["ordered", "hashed", "sqlite"].as_slice())?)
}

fn is_known(alloc: Global, text: &[u8], wanted: &str) -> Result<bool, Fail> {
    let stores = attached(alloc)?;
    Ok(answered(alloc, text, &stores)?.as_str() == wanted)
}

fn prints(alloc: Global, text: &str, wanted: &str) -> Result<bool, Fail> {
    let stores = attached(alloc)?;
    printed(alloc, text.as_bytes(), &stores, wanted)
}

/// Puts so many copies of a piece.
pub fn put_often(out: &mut String, piece: &str, count: usize) -> Result<(), AllocError> {
    for _ in 0..count {
        out.push_str(piece)?;
    }
    Ok(())
}

// A prefix, so many copies of a piece, and an end.
fn repeated(
    alloc: Global,
    front: &str,
    piece: &str,
    count: usize,
    end: &str,
) -> Result<String, AllocError> {
    let mut text = String::from_str(alloc, front)?;
    put_often(&mut text, piece, count)?;
    text.push_str(end)?;
    Ok(text)
}

fn counts(
    alloc: Global,
    front: &str,
    piece: &str,
    count: usize,
    end: &str,
    wanted: &str,
) -> Result<bool, Fail> {
    let text = repeated(alloc, front, piece, count, end)?;
    is_known(alloc, text.as_bytes(), wanted)
}

fn put_numbered(alloc: Global, out: &mut String, count: u32) -> Result<(), AllocError> {
    for i in 0..count {
        put_number(alloc, out, "client c", i64::from(i))?;
        out.push_str("\n")?;
    }
    Ok(())
}

// So many clients of different names, and a line that may not come.
fn clients(alloc: Global, count: u32) -> Result<String, AllocError> {
    let mut text = String::new(alloc);
    put_numbered(alloc, &mut text, count)?;
    text.push_str("walk\n")?;
    Ok(text)
}

fn tells_clients(alloc: Global, count: u32, wanted: &str) -> Result<bool, Fail> {
    let text = clients(alloc, count)?;
    is_known(alloc, text.as_bytes(), wanted)
}

// A text, and what it says or why it is refused.
#[derive(Clone, Copy)]
enum Check {
    Tells(&'static str, &'static str),
    Bytes(&'static [u8], &'static str),
    // A prefix, a piece, how often it comes, and an end.
    Long(&'static str, &'static str, usize, &'static str, &'static str),
    // So many clients.
    Clients(u32, &'static str),
    // How a script is printed, and that this is printed as itself.
    Prints(&'static str, &'static str),
}

impl Case for Check {
    fn holds(self, alloc: Global) -> Result<bool, Fail> {
        match self {
            Check::Tells(text, wanted) => is_known(alloc, text.as_bytes(), wanted),
            Check::Bytes(text, wanted) => is_known(alloc, text, wanted),
            Check::Long(front, piece, count, end, wanted) => {
                counts(alloc, front, piece, count, end, wanted)
            }
            Check::Clients(count, wanted) => tells_clients(alloc, count, wanted),
            Check::Prints(text, wanted) => {
                Ok(prints(alloc, text, wanted)? && prints(alloc, wanted, wanted)?)
            }
        }
    }
}

// Worked scripts, bytes that are no text, alone and after a fault of form, and limits.
static WORKED: [Check; 19] = [
    Check::Tells(
        "schema {\"bank.account\":{\"partition-key\":[\"id\"],\"columns\":{\"id\":\"INT\",\"balance\":\"INT\"}}}\nclient a\n  BEGIN\n  INSERT INTO bank.account (id, balance) VALUES (1, 100)\n  COMMIT\nrun\nrest\n",
        "tables 1 a [BEGIN] [INSERT INTO bank.account (id, balance) VALUES (1, 100)] [COMMIT] run rest",
    ),
    Check::Tells("run\n", "tables 0 run"),
    Check::Tells(
        "client c1\n  BEGIN\n  COMMIT\nrun\nrest\n",
        "tables 0 c1 [BEGIN] [COMMIT] run rest",
    ),
    Check::Tells(
        "schema {\"bank.account\":{\"partition-key\":[\"id\"],\"columns\":{\"id\":\"INT\",\"balance\":\"INT\"}}}\nclient c1\n  BEGIN\n  INSERT INTO bank.account (id, balance) VALUES (1, 100)\n  COMMIT\nclient c2\n  BEGIN\n  UPDATE bank.account SET balance = 7 WHERE id = 1\n  COMMIT\nrun\nstep 1 7\nstep 2 5\nlose 2\nrest\n",
        "tables 1 c1 [BEGIN] [INSERT INTO bank.account (id, balance) VALUES (1, 100)] [COMMIT] c2 [BEGIN] [UPDATE bank.account SET balance = 7 WHERE id = 1] [COMMIT] run step 1x7 step 2x5 lose 2 rest",
    ),
    Check::Tells(
        "schema {\"bank.account\":{\"partition-key\":[\"id\"],\"columns\":{\"id\":\"INT\",\"balance\":\"INT\"}}}\nclient c1\n  BEGIN\n  INSERT INTO bank.account (id, balance) VALUES (1, 100)\n  COMMIT\nclient c2\n  BEGIN\n  UPDATE bank.account SET balance = 7 WHERE id = 1\n  COMMIT\nrun\nstep 1 7\nstep 2 5\ndrop 2\nrest\n",
        "tables 1 c1 [BEGIN] [INSERT INTO bank.account (id, balance) VALUES (1, 100)] [COMMIT] c2 [BEGIN] [UPDATE bank.account SET balance = 7 WHERE id = 1] [COMMIT] run step 1x7 step 2x5 drop 2 rest",
    ),
    Check::Tells(
        "schema {\"bank.account\":{\"partition-key\":[\"id\"],\"columns\":{\"id\":\"INT\",\"balance\":\"INT\"}}}\nclient c1\n  BEGIN\n  INSERT INTO bank.account (id, balance) VALUES (1, 100)\n  INSERT INTO bank.account (id, balance) VALUES (2, 100)\n  COMMIT\nclient c2\n  BEGIN\n  UPDATE bank.account SET balance = 7 WHERE id = 1\n  UPDATE bank.account SET balance = 8 WHERE id = 2\n  COMMIT\nclient c3\n  BEGIN\n  SELECT balance FROM bank.account WHERE id = 1\n  SELECT balance FROM bank.account WHERE id = 2\n  COMMIT\nrun\nstep 1 11\nstep 2 6\nstop 2\nclock 15000\nrest\n",
        "tables 1 c1 [BEGIN] [INSERT INTO bank.account (id, balance) VALUES (1, 100)] [INSERT INTO bank.account (id, balance) VALUES (2, 100)] [COMMIT] c2 [BEGIN] [UPDATE bank.account SET balance = 7 WHERE id = 1] [UPDATE bank.account SET balance = 8 WHERE id = 2] [COMMIT] c3 [BEGIN] [SELECT balance FROM bank.account WHERE id = 1] [SELECT balance FROM bank.account WHERE id = 2] [COMMIT] run step 1x11 step 2x6 stop 2 clock 15000 rest",
    ),
    Check::Tells(
        "schema {\"shop.item\":{\"partition-key\":[\"cat\"],\"clustering-key\":[\"n\"],\"columns\":{\"cat\":\"INT\",\"n\":\"INT\",\"qty\":\"INT\"}}}\nclient c1\n  BEGIN\n  SELECT * FROM shop.item WHERE cat = 1\n  INSERT INTO shop.item (cat, n) VALUES (1, 3)\n  SELECT * FROM shop.item WHERE cat = 1\n  COMMIT\nrun\nrest\n",
        "tables 1 c1 [BEGIN] [SELECT * FROM shop.item WHERE cat = 1] [INSERT INTO shop.item (cat, n) VALUES (1, 3)] [SELECT * FROM shop.item WHERE cat = 1] [COMMIT] run rest",
    ),
    Check::Tells(
        "schema {\"bank.account\":{\"partition-key\":[\"id\"],\"columns\":{\"id\":\"INT\",\"balance\":\"INT\"}}}\nclient c1\n  BEGIN\n  INSERT INTO bank.account (id, balance) VALUES (1, 100)\n  COMMIT\nclient c2\n  BEGIN\n  UPDATE bank.account SET balance = 7 WHERE id = 1\n  COMMIT\nrun\nstep 1 7\nstep 2 5\nlose 2\nlose 2\nrest\n",
        "tables 1 c1 [BEGIN] [INSERT INTO bank.account (id, balance) VALUES (1, 100)] [COMMIT] c2 [BEGIN] [UPDATE bank.account SET balance = 7 WHERE id = 1] [COMMIT] run step 1x7 step 2x5 lose 2 lose 2 rest",
    ),
    Check::Bytes(b"run\n\xFF\n", "2 text"),
    Check::Bytes(b"client a\n  \xC3\xA9\nrun\n", "tables 0 a [\u{e9}] run"),
    Check::Bytes(b"client a\n  \xC3\nrun\n", "2 text"),
    Check::Bytes(b"walk\n\xFF\n", "1 form"),
    Check::Bytes(b"client a\n  a\x00b\nrun\x00\n", "3 form"),
    Check::Long("client a\n  ", "x", 65_534, "\nwalk\n", "3 form"),
    Check::Long("client a\n  ", "x", 65_535, "\nrun\n", "2 over line bytes"),
    Check::Long("client a\n", "  x\n", 20_000, "walk\n", "20002 form"),
    Check::Long(
        "client a\n",
        "  x\n",
        20_001,
        "walk\n",
        "20002 over statements",
    ),
    Check::Clients(64, "65 form"),
    Check::Clients(65, "65 over clients"),
];

fn worked(alloc: Global) -> Result<(), Fail> {
    all_cases(alloc, "worked", WORKED.as_slice())
}

static PLACES: [Check; 23] = [
    Check::Tells("", "1 missing"),
    Check::Tells("client a\n", "2 missing"),
    Check::Tells("client a\n  BEGIN", "3 missing"),
    Check::Tells("run", "tables 0 run"),
    Check::Tells("run\n\n", "2 form"),
    Check::Tells("\nrun\n", "1 form"),
    Check::Tells("run\r\n", "1 form"),
    Check::Tells("run\nrest\r\n", "2 form"),
    Check::Tells("run \n", "1 form"),
    Check::Tells("run\nrun\n", "2 form"),
    Check::Tells("Run\n", "1 form"),
    Check::Tells("place bank ordered\nrun\n", "bank=ordered tables 0 run"),
    Check::Tells("place bank none\nrun\n", "1 store"),
    Check::Tells("place bank ordered\nplace bank hashed\nrun\n", "2 store"),
    Check::Tells("place scalardb ordered\nrun\n", "1 store"),
    Check::Tells(
        "place coordinator sqlite\nrun\n",
        "coordinator=sqlite tables 0 run",
    ),
    Check::Tells("place 1bank ordered\nrun\n", "1 form"),
    Check::Tells("place bank 1none\nrun\n", "1 form"),
    Check::Tells("place bank  ordered\nrun\n", "1 form"),
    Check::Tells("place bank ordered \nrun\n", "1 form"),
    Check::Tells("place bank\nrun\n", "1 form"),
    Check::Tells(
        "place bbbbbbbbbbbbbbbbbbbbbbbbbbbbbbbbbbbbbbbbbbbbbbbbbbbbbbbbbbbbbbbb ordered\nrun\n",
        "bbbbbbbbbbbbbbbbbbbbbbbbbbbbbbbbbbbbbbbbbbbbbbbbbbbbbbbbbbbbbbbb=ordered tables 0 run",
    ),
    Check::Tells(
        "place bbbbbbbbbbbbbbbbbbbbbbbbbbbbbbbbbbbbbbbbbbbbbbbbbbbbbbbbbbbbbbbbb ordered\nrun\n",
        "1 form",
    ),
];

fn places(alloc: Global) -> Result<(), Fail> {
    all_cases(alloc, "places", PLACES.as_slice())
}

static CLIENTS: [Check; 18] = [
    Check::Tells("schema\nrun\n", "1 form"),
    Check::Tells("schema \nrun\n", "1 not JSON"),
    Check::Tells("schema []\nrun\n", "1 not an object"),
    Check::Tells("schema {}\nschema {}\nrun\n", "2 form"),
    Check::Tells("schema {}\nplace bank ordered\nrun\n", "2 form"),
    Check::Tells(
        "schema {\"bank.account\":{\"partition-key\":[\"id\"],\"columns\":{\"id\":\"FLOAT\"}}}\nrun\n",
        "1 unknown type",
    ),
    Check::Tells(
        "schema {\"scalardb.x\":{\"partition-key\":[\"id\"],\"columns\":{\"id\":\"INT\"}}}\nrun\n",
        "1 bad table name",
    ),
    Check::Tells("client a\nclient a\nrun\n", "2 form"),
    Check::Tells("client a\nclient A\nrun\n", "tables 0 a A run"),
    Check::Tells("client 1a\nrun\n", "1 form"),
    Check::Tells("client a b\nrun\n", "1 form"),
    Check::Tells("client\nrun\n", "1 form"),
    Check::Tells("client a\nschema {}\nrun\n", "2 form"),
    Check::Tells("client a\n  \nrun\n", "2 form"),
    Check::Tells("client a\n   \nrun\n", "tables 0 a [ ] run"),
    Check::Tells("client a\n x\nrun\n", "2 form"),
    Check::Tells("  BEGIN\nrun\n", "1 form"),
    Check::Tells("client a\nrun\n  BEGIN\n", "3 form"),
];

fn client_lines(alloc: Global) -> Result<(), Fail> {
    all_cases(alloc, "clients", CLIENTS.as_slice())
}

static MOVES: [Check; 26] = [
    Check::Tells(
        "client a\nrun\nstep 1\nstep 1 2\nlose 1\ndrop 1\nstop 1\nclock 0\nrest\n",
        "tables 0 a run step 1 step 1x2 lose 1 drop 1 stop 1 clock 0 rest",
    ),
    Check::Tells("client a\nrun\nstep 0\n", "3 form"),
    Check::Tells("client a\nrun\nstep 2\n", "3 form"),
    Check::Tells("run\nstep 1\n", "2 form"),
    Check::Tells("client a\nrun\nstep 01\n", "3 form"),
    Check::Tells("client a\nrun\nstep +1\n", "3 form"),
    Check::Tells("client a\nrun\nstep\n", "3 form"),
    Check::Tells("client a\nrun\nstep 1 0\n", "3 form"),
    Check::Tells("client a\nrun\nstep 1 1\n", "3 form"),
    Check::Tells("client a\nrun\nstep 1 02\n", "3 form"),
    Check::Tells("client a\nrun\nstep 1  2\n", "3 form"),
    Check::Tells("client a\nrun\nstep 1 2 \n", "3 form"),
    Check::Tells("client a\nrun\nstep 18446744073709551617\n", "3 form"),
    Check::Tells(
        "client a\nrun\nstep 1 200000\n",
        "tables 0 a run step 1x200000",
    ),
    Check::Tells("client a\nrun\nstep 1 200001\n", "3 over moves"),
    Check::Tells("client a\nrun\nstep 1 200000\nrest\n", "4 over moves"),
    Check::Tells(
        "client a\nrun\nstep 1 18446744073709551618\n",
        "3 over moves",
    ),
    Check::Tells(
        "client a\nrun\nstep 1 100000000000000000000000000000000000000000000000000000000000000000000000\n",
        "3 over moves",
    ),
    Check::Tells("client a\nrun\nlose 2\n", "3 form"),
    Check::Tells("client a\nrun\ndrop 1 2\n", "3 form"),
    Check::Tells(
        "run\nclock 9007199254740992\n",
        "tables 0 run clock 9007199254740992",
    ),
    Check::Tells("run\nclock 9007199254740993\n", "2 form"),
    Check::Tells("run\nclock -1\n", "2 form"),
    Check::Tells("run\nclock 00\n", "2 form"),
    Check::Tells("run\nrest 1\n", "2 form"),
    Check::Tells("run\ndelay 1\n", "2 form"),
];

fn moves(alloc: Global) -> Result<(), Fail> {
    all_cases(alloc, "moves", MOVES.as_slice())
}

// Calls that are delayed, and requests that land.
static LATE: [Check; 21] = [
    Check::Tells(
        "client a\nrun\ndelay 1\nland 1\nland 200000\nrest\n",
        "tables 0 a run delay 1 land 1 land 200000 rest",
    ),
    Check::Tells("run\nland 1\n", "tables 0 run land 1"),
    Check::Tells("client a\nrun\nland 0\n", "3 form"),
    Check::Tells("client a\nrun\nland 200001\n", "3 form"),
    Check::Tells("client a\nrun\nland 18446744073709551617\n", "3 form"),
    Check::Tells("client a\nrun\nland 01\n", "3 form"),
    Check::Tells("client a\nrun\nland +1\n", "3 form"),
    Check::Tells("client a\nrun\nland -1\n", "3 form"),
    Check::Tells("client a\nrun\nland\n", "3 form"),
    Check::Tells("client a\nrun\nland \n", "3 form"),
    Check::Tells("client a\nrun\nland 1 2\n", "3 form"),
    Check::Tells("client a\nrun\nland 1 \n", "3 form"),
    Check::Tells("client a\nland 1\nrun\n", "2 form"),
    Check::Tells("client a\nrun\ndelay 0\n", "3 form"),
    Check::Tells("client a\nrun\ndelay 9\n", "3 form"),
    Check::Tells("client a\nrun\ndelay 01\n", "3 form"),
    Check::Tells("client a\nrun\ndelay 1 2\n", "3 form"),
    Check::Tells("client a\nrun\nDELAY 1\n", "3 form"),
    Check::Tells(
        "client a\nrun\nstep 1 199999\nland 1\n",
        "tables 0 a run step 1x199999 land 1",
    ),
    Check::Tells("client a\nrun\nstep 1 200000\nland 1\n", "4 over moves"),
    Check::Tells("client a\nrun\nstep 1 200000\nland 0\n", "4 form"),
];

fn late(alloc: Global) -> Result<(), Fail> {
    all_cases(alloc, "late", LATE.as_slice())
}

// Columns that are added.
static ADDED: [Check; 30] = [
    Check::Tells(
        "run\nalter bank.account note TEXT\n",
        "tables 0 run alter bank account note text",
    ),
    Check::Tells(
        "run\nalter bank.account a boolean\nalter bank.account b Int\nalter bank.account c bigINT\nalter bank.account d BLOB\n",
        "tables 0 run alter bank account a boolean alter bank account b int alter bank account c bigint alter bank account d blob",
    ),
    Check::Tells(
        "run\nalter coordinator.state tx_id TEXT\nalter scalardb.x before_x INT\n",
        "tables 0 run alter coordinator state tx_id text alter scalardb x before_x int",
    ),
    Check::Tells(
        "run\nalter a.b TEXT TEXT\n",
        "tables 0 run alter a b TEXT text",
    ),
    Check::Tells(
        "run\nalter nnnnnnnnnnnnnnnnnnnnnnnnnnnnnnnnnnnnnnnnnnnnnnnnnnnnnnnnnnnnnnnn.nnnnnnnnnnnnnnnnnnnnnnnnnnnnnnnnnnnnnnnnnnnnnnnnnnnnnnnnnnnnnnnn nnnnnnnnnnnnnnnnnnnnnnnnnnnnnnnnnnnnnnnnnnnnnnnnnnnnnnnnnnnnnnnn TEXT\n",
        "tables 0 run alter nnnnnnnnnnnnnnnnnnnnnnnnnnnnnnnnnnnnnnnnnnnnnnnnnnnnnnnnnnnnnnnn nnnnnnnnnnnnnnnnnnnnnnnnnnnnnnnnnnnnnnnnnnnnnnnnnnnnnnnnnnnnnnnn nnnnnnnnnnnnnnnnnnnnnnnnnnnnnnnnnnnnnnnnnnnnnnnnnnnnnnnnnnnnnnnn text",
    ),
    Check::Tells(
        "run\nalter nnnnnnnnnnnnnnnnnnnnnnnnnnnnnnnnnnnnnnnnnnnnnnnnnnnnnnnnnnnnnnnnn.b c TEXT\n",
        "2 form",
    ),
    Check::Tells(
        "run\nalter a.nnnnnnnnnnnnnnnnnnnnnnnnnnnnnnnnnnnnnnnnnnnnnnnnnnnnnnnnnnnnnnnnn c TEXT\n",
        "2 form",
    ),
    Check::Tells(
        "run\nalter a.b nnnnnnnnnnnnnnnnnnnnnnnnnnnnnnnnnnnnnnnnnnnnnnnnnnnnnnnnnnnnnnnnn TEXT\n",
        "2 form",
    ),
    Check::Tells("run\nalter a.b c VARCHAR\n", "2 form"),
    Check::Tells("run\nalter a.b c INTEGER\n", "2 form"),
    Check::Tells("run\nalter a.b c\n", "2 form"),
    Check::Tells("run\nalter a.b c \n", "2 form"),
    Check::Tells("run\nalter a.b\n", "2 form"),
    Check::Tells("run\nalter\n", "2 form"),
    Check::Tells("run\nalter b c TEXT\n", "2 form"),
    Check::Tells("run\nalter a.b.c d TEXT\n", "2 form"),
    Check::Tells("run\nalter .b c TEXT\n", "2 form"),
    Check::Tells("run\nalter a. c TEXT\n", "2 form"),
    Check::Tells("run\nalter a.b 1c TEXT\n", "2 form"),
    Check::Tells("run\nalter a.b \"c\" TEXT\n", "2 form"),
    Check::Tells("run\nalter a.b  c TEXT\n", "2 form"),
    Check::Tells("run\nalter  a.b c TEXT\n", "2 form"),
    Check::Tells("run\nalter a.b c  TEXT\n", "2 form"),
    Check::Tells("run\nalter a.b c TEXT \n", "2 form"),
    Check::Tells("run\nalter a.b c TEXT done\n", "2 form"),
    Check::Tells("run\nALTER a.b c TEXT\n", "2 form"),
    Check::Tells("alter a.b c TEXT\nrun\n", "1 form"),
    Check::Tells(
        "client a\nrun\nstep 1 199999\nalter a.b c TEXT\n",
        "tables 0 a run step 1x199999 alter a b c text",
    ),
    Check::Tells(
        "client a\nrun\nstep 1 200000\nalter a.b c TEXT\n",
        "4 over moves",
    ),
    Check::Tells("client a\nrun\nstep 1 200000\nalter a.b c\n", "4 form"),
];

fn added(alloc: Global) -> Result<(), Fail> {
    all_cases(alloc, "added", ADDED.as_slice())
}

// Worked ones first.
static PRINTED: [Check; 13] = [
    Check::Prints(
        "schema {\"bank.account\":{\"partition-key\":[\"id\"],\"columns\":{\"id\":\"INT\",\"balance\":\"INT\"}}}\nclient a\n  BEGIN\n  INSERT INTO bank.account (id, balance) VALUES (1, 100)\n  COMMIT\nrun\nrest\n",
        "schema {\"bank.account\":{\"clustering-key\":[],\"columns\":{\"balance\":\"INT\",\"id\":\"INT\"},\"partition-key\":[\"id\"],\"secondary-index\":[]}}\nclient a\n  BEGIN\n  INSERT INTO bank.account (id, balance) VALUES (1, 100)\n  COMMIT\nrun\nrest\n",
    ),
    Check::Prints("run\n", "run\n"),
    Check::Prints(
        "client c1\n  BEGIN\n  COMMIT\nrun\nrest\n",
        "client c1\n  BEGIN\n  COMMIT\nrun\nrest\n",
    ),
    Check::Prints(
        "schema {\"bank.account\":{\"partition-key\":[\"id\"],\"columns\":{\"id\":\"INT\",\"balance\":\"INT\"}}}\nclient c1\n  BEGIN\n  INSERT INTO bank.account (id, balance) VALUES (1, 100)\n  COMMIT\nclient c2\n  BEGIN\n  UPDATE bank.account SET balance = 7 WHERE id = 1\n  COMMIT\nrun\nstep 1 7\nstep 2 5\nlose 2\nrest\n",
        "schema {\"bank.account\":{\"clustering-key\":[],\"columns\":{\"balance\":\"INT\",\"id\":\"INT\"},\"partition-key\":[\"id\"],\"secondary-index\":[]}}\nclient c1\n  BEGIN\n  INSERT INTO bank.account (id, balance) VALUES (1, 100)\n  COMMIT\nclient c2\n  BEGIN\n  UPDATE bank.account SET balance = 7 WHERE id = 1\n  COMMIT\nrun\nstep 1 7\nstep 2 5\nlose 2\nrest\n",
    ),
    Check::Prints(
        "schema {\"bank.account\":{\"partition-key\":[\"id\"],\"columns\":{\"id\":\"INT\",\"balance\":\"INT\"}}}\nclient c1\n  BEGIN\n  INSERT INTO bank.account (id, balance) VALUES (1, 100)\n  COMMIT\nclient c2\n  BEGIN\n  UPDATE bank.account SET balance = 7 WHERE id = 1\n  COMMIT\nrun\nstep 1 7\nstep 2 5\ndrop 2\nrest\n",
        "schema {\"bank.account\":{\"clustering-key\":[],\"columns\":{\"balance\":\"INT\",\"id\":\"INT\"},\"partition-key\":[\"id\"],\"secondary-index\":[]}}\nclient c1\n  BEGIN\n  INSERT INTO bank.account (id, balance) VALUES (1, 100)\n  COMMIT\nclient c2\n  BEGIN\n  UPDATE bank.account SET balance = 7 WHERE id = 1\n  COMMIT\nrun\nstep 1 7\nstep 2 5\ndrop 2\nrest\n",
    ),
    Check::Prints(
        "schema {\"bank.account\":{\"partition-key\":[\"id\"],\"columns\":{\"id\":\"INT\",\"balance\":\"INT\"}}}\nclient c1\n  BEGIN\n  INSERT INTO bank.account (id, balance) VALUES (1, 100)\n  INSERT INTO bank.account (id, balance) VALUES (2, 100)\n  COMMIT\nclient c2\n  BEGIN\n  UPDATE bank.account SET balance = 7 WHERE id = 1\n  UPDATE bank.account SET balance = 8 WHERE id = 2\n  COMMIT\nclient c3\n  BEGIN\n  SELECT balance FROM bank.account WHERE id = 1\n  SELECT balance FROM bank.account WHERE id = 2\n  COMMIT\nrun\nstep 1 11\nstep 2 6\nstop 2\nclock 15000\nrest\n",
        "schema {\"bank.account\":{\"clustering-key\":[],\"columns\":{\"balance\":\"INT\",\"id\":\"INT\"},\"partition-key\":[\"id\"],\"secondary-index\":[]}}\nclient c1\n  BEGIN\n  INSERT INTO bank.account (id, balance) VALUES (1, 100)\n  INSERT INTO bank.account (id, balance) VALUES (2, 100)\n  COMMIT\nclient c2\n  BEGIN\n  UPDATE bank.account SET balance = 7 WHERE id = 1\n  UPDATE bank.account SET balance = 8 WHERE id = 2\n  COMMIT\nclient c3\n  BEGIN\n  SELECT balance FROM bank.account WHERE id = 1\n  SELECT balance FROM bank.account WHERE id = 2\n  COMMIT\nrun\nstep 1 11\nstep 2 6\nstop 2\nclock 15000\nrest\n",
    ),
    Check::Prints(
        "schema {\"shop.item\":{\"partition-key\":[\"cat\"],\"clustering-key\":[\"n\"],\"columns\":{\"cat\":\"INT\",\"n\":\"INT\",\"qty\":\"INT\"}}}\nclient c1\n  BEGIN\n  SELECT * FROM shop.item WHERE cat = 1\n  INSERT INTO shop.item (cat, n) VALUES (1, 3)\n  SELECT * FROM shop.item WHERE cat = 1\n  COMMIT\nrun\nrest\n",
        "schema {\"shop.item\":{\"clustering-key\":[\"n ASC\"],\"columns\":{\"cat\":\"INT\",\"n\":\"INT\",\"qty\":\"INT\"},\"partition-key\":[\"cat\"],\"secondary-index\":[]}}\nclient c1\n  BEGIN\n  SELECT * FROM shop.item WHERE cat = 1\n  INSERT INTO shop.item (cat, n) VALUES (1, 3)\n  SELECT * FROM shop.item WHERE cat = 1\n  COMMIT\nrun\nrest\n",
    ),
    Check::Prints(
        "schema {\"bank.account\":{\"partition-key\":[\"id\"],\"columns\":{\"id\":\"INT\",\"balance\":\"INT\"}}}\nclient c1\n  BEGIN\n  INSERT INTO bank.account (id, balance) VALUES (1, 100)\n  COMMIT\nclient c2\n  BEGIN\n  UPDATE bank.account SET balance = 7 WHERE id = 1\n  COMMIT\nrun\nstep 1 7\nstep 2 5\nlose 2\nlose 2\nrest\n",
        "schema {\"bank.account\":{\"clustering-key\":[],\"columns\":{\"balance\":\"INT\",\"id\":\"INT\"},\"partition-key\":[\"id\"],\"secondary-index\":[]}}\nclient c1\n  BEGIN\n  INSERT INTO bank.account (id, balance) VALUES (1, 100)\n  COMMIT\nclient c2\n  BEGIN\n  UPDATE bank.account SET balance = 7 WHERE id = 1\n  COMMIT\nrun\nstep 1 7\nstep 2 5\nlose 2\nlose 2\nrest\n",
    ),
    Check::Prints(
        "place shop ordered\nplace coordinator sqlite\nschema {\"shop.orders\":{\"columns\":{\"note\":\"text\",\"customer\":\"INT\",\"placed\":\"BigInt\",\"paid\":\"boolean\",\"raw\":\"BLOB\"},\"secondary-index\":[\"note\",\"paid\"],\"clustering-key\":[\"placed desc\",\"raw\"],\"partition-key\":[\"customer\"],\"transaction\":true},\"bank.account\":{\"partition-key\":[\"id\"],\"columns\":{\"id\":\"INT\"}}}\nclient a\nclient b\n  SELECT *\n   \nrun\nstep 2\nstep 1 200\nlose 1\ndrop 2\nstop 1\nclock 9007199254740992\nclock 0",
        "place shop ordered\nplace coordinator sqlite\nschema {\"bank.account\":{\"clustering-key\":[],\"columns\":{\"id\":\"INT\"},\"partition-key\":[\"id\"],\"secondary-index\":[]},\"shop.orders\":{\"clustering-key\":[\"placed DESC\",\"raw ASC\"],\"columns\":{\"customer\":\"INT\",\"note\":\"TEXT\",\"paid\":\"BOOLEAN\",\"placed\":\"BIGINT\",\"raw\":\"BLOB\"},\"partition-key\":[\"customer\"],\"secondary-index\":[\"note\",\"paid\"]}}\nclient a\nclient b\n  SELECT *\n   \nrun\nstep 2\nstep 1 200\nlose 1\ndrop 2\nstop 1\nclock 9007199254740992\nclock 0\n",
    ),
    Check::Prints("schema {}\nrun", "run\n"),
    Check::Prints(
        "client a\nrun\ndelay 1\nland 1\nland 200000",
        "client a\nrun\ndelay 1\nland 1\nland 200000\n",
    ),
    Check::Prints(
        "schema {\"bank.account\":{\"partition-key\":[\"id\"],\"columns\":{\"id\":\"INT\",\"balance\":\"INT\"}}}\nclient c1\n  BEGIN\n  INSERT INTO bank.account (id, balance) VALUES (1, 100)\n  COMMIT\nclient c2\n  BEGIN\n  SELECT * FROM bank.account WHERE id = 1\n  UPDATE bank.account SET note = 'x' WHERE id = 1\n  COMMIT\nrun\nstep 1 7\nalter bank.account note TEXT\nrest\n",
        "schema {\"bank.account\":{\"clustering-key\":[],\"columns\":{\"balance\":\"INT\",\"id\":\"INT\"},\"partition-key\":[\"id\"],\"secondary-index\":[]}}\nclient c1\n  BEGIN\n  INSERT INTO bank.account (id, balance) VALUES (1, 100)\n  COMMIT\nclient c2\n  BEGIN\n  SELECT * FROM bank.account WHERE id = 1\n  UPDATE bank.account SET note = 'x' WHERE id = 1\n  COMMIT\nrun\nstep 1 7\nalter bank.account note TEXT\nrest\n",
    ),
    Check::Prints(
        "run\nalter a.b c boolean\nalter a.b d iNt\nalter scalardb.x e BigInt\nalter a.b f text\nalter a.b g BLOB",
        "run\nalter a.b c BOOLEAN\nalter a.b d INT\nalter scalardb.x e BIGINT\nalter a.b f TEXT\nalter a.b g BLOB\n",
    ),
];

fn are_printed(alloc: Global) -> Result<(), Fail> {
    all_cases(alloc, "printed", PRINTED.as_slice())
}

#[test]
fn scripts_are_read(rt: HostRuntime) -> Result<(), Fail> {
    worked(rt.alloc())?;
    places(rt.alloc())?;
    client_lines(rt.alloc())?;
    moves(rt.alloc())?;
    late(rt.alloc())?;
    added(rt.alloc())
}

#[test]
fn scripts_are_printed(rt: HostRuntime) -> Result<(), Fail> {
    are_printed(rt.alloc())
}
