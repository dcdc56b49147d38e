//! The script of a bench, against what a program apart from this one made from the words of its definition.
ghost use Rattle.std.specs.Prelude.{◌≤◌};

use sdb_bench::{bench_script, bench_text};
use sdb_model::{Answer, Event, Events, Outcome, Points, Rows, TableDump, TableRows};
use sdb_script::print_script;
use sdb_types::{Name, NoMemory, TableName, Txt, Value, Values};
use std::alloc::Global;
use std::test::Fail;

// The places, the schema and the first client, of every bench on these two stores.
const SETUP: &str =
    "place benchl file\nplace benchr sqlite\nschema {\"benchl.cell\":{\"clustering-key\":[\"n ASC\"],\"columns\":{\"n\":\"INT\",\"p\":\"INT\",\"v\":\"INT\"},\"partition-key\":[\"p\"],\"secondary-index\":[]},\"benchr.cell\":{\"clustering-key\":[\"n ASC\"],\"columns\":{\"n\":\"INT\",\"p\":\"INT\",\"v\":\"INT\"},\"partition-key\":[\"p\"],\"secondary-index\":[]}}\nclient setup\n  BEGIN\n  INSERT INTO benchl.cell (p, n, v) VALUES (0, 0, 0)\n  INSERT INTO benchl.cell (p, n, v) VALUES (0, 1, 0)\n  INSERT INTO benchl.cell (p, n, v) VALUES (0, 2, 0)\n  INSERT INTO benchl.cell (p, n, v) VALUES (0, 3, 0)\n  INSERT INTO benchl.cell (p, n, v) VALUES (1, 0, 0)\n  INSERT INTO benchl.cell (p, n, v) VALUES (1, 1, 0)\n  INSERT INTO benchl.cell (p, n, v) VALUES (1, 2, 0)\n  INSERT INTO benchl.cell (p, n, v) VALUES (1, 3, 0)\n  INSERT INTO benchl.cell (p, n, v) VALUES (2, 0, 0)\n  INSERT INTO benchl.cell (p, n, v) VALUES (2, 1, 0)\n  INSERT INTO benchl.cell (p, n, v) VALUES (2, 2, 0)\n  INSERT INTO benchl.cell (p, n, v) VALUES (2, 3, 0)\n  INSERT INTO benchl.cell (p, n, v) VALUES (3, 0, 0)\n  INSERT INTO benchl.cell (p, n, v) VALUES (3, 1, 0)\n  INSERT INTO benchl.cell (p, n, v) VALUES (3, 2, 0)\n  INSERT INTO benchl.cell (p, n, v) VALUES (3, 3, 0)\n  INSERT INTO benchl.cell (p, n, v) VALUES (4, 0, 0)\n  INSERT INTO benchl.cell (p, n, v) VALUES (4, 1, 0)\n  INSERT INTO benchl.cell (p, n, v) VALUES (4, 2, 0)\n  INSERT INTO benchl.cell (p, n, v) VALUES (4, 3, 0)\n  INSERT INTO benchl.cell (p, n, v) VALUES (5, 0, 0)\n  INSERT INTO benchl.cell (p, n, v) VALUES (5, 1, 0)\n  INSERT INTO benchl.cell (p, n, v) VALUES (5, 2, 0)\n  INSERT INTO benchl.cell (p, n, v) VALUES (5, 3, 0)\n  INSERT INTO benchl.cell (p, n, v) VALUES (6, 0, 0)\n  INSERT INTO benchl.cell (p, n, v) VALUES (6, 1, 0)\n  INSERT INTO benchl.cell (p, n, v) VALUES (6, 2, 0)\n  INSERT INTO benchl.cell (p, n, v) VALUES (6, 3, 0)\n  INSERT INTO benchl.cell (p, n, v) VALUES (7, 0, 0)\n  INSERT INTO benchl.cell (p, n, v) VALUES (7, 1, 0)\n  INSERT INTO benchl.cell (p, n, v) VALUES (7, 2, 0)\n  INSERT INTO benchl.cell (p, n, v) VALUES (7, 3, 0)\n  INSERT INTO benchr.cell (p, n, v) VALUES (0, 0, 0)\n  INSERT INTO benchr.cell (p, n, v) VALUES (0, 1, 0)\n  INSERT INTO benchr.cell (p, n, v) VALUES (0, 2, 0)\n  INSERT INTO benchr.cell (p, n, v) VALUES (0, 3, 0)\n  INSERT INTO benchr.cell (p, n, v) VALUES (1, 0, 0)\n  INSERT INTO benchr.cell (p, n, v) VALUES (1, 1, 0)\n  INSERT INTO benchr.cell (p, n, v) VALUES (1, 2, 0)\n  INSERT INTO benchr.cell (p, n, v) VALUES (1, 3, 0)\n  INSERT INTO benchr.cell (p, n, v) VALUES (2, 0, 0)\n  INSERT INTO benchr.cell (p, n, v) VALUES (2, 1, 0)\n  INSERT INTO benchr.cell (p, n, v) VALUES (2, 2, 0)\n  INSERT INTO benchr.cell (p, n, v) VALUES (2, 3, 0)\n  INSERT INTO benchr.cell (p, n, v) VALUES (3, 0, 0)\n  INSERT INTO benchr.cell (p, n, v) VALUES (3, 1, 0)\n  INSERT INTO benchr.cell (p, n, v) VALUES (3, 2, 0)\n  INSERT INTO benchr.cell (p, n, v) VALUES (3, 3, 0)\n  INSERT INTO benchr.cell (p, n, v) VALUES (4, 0, 0)\n  INSERT INTO benchr.cell (p, n, v) VALUES (4, 1, 0)\n  INSERT INTO benchr.cell (p, n, v) VALUES (4, 2, 0)\n  INSERT INTO benchr.cell (p, n, v) VALUES (4, 3, 0)\n  INSERT INTO benchr.cell (p, n, v) VALUES (5, 0, 0)\n  INSERT INTO benchr.cell (p, n, v) VALUES (5, 1, 0)\n  INSERT INTO benchr.cell (p, n, v) VALUES (5, 2, 0)\n  INSERT INTO benchr.cell (p, n, v) VALUES (5, 3, 0)\n  INSERT INTO benchr.cell (p, n, v) VALUES (6, 0, 0)\n  INSERT INTO benchr.cell (p, n, v) VALUES (6, 1, 0)\n  INSERT INTO benchr.cell (p, n, v) VALUES (6, 2, 0)\n  INSERT INTO benchr.cell (p, n, v) VALUES (6, 3, 0)\n  INSERT INTO benchr.cell (p, n, v) VALUES (7, 0, 0)\n  INSERT INTO benchr.cell (p, n, v) VALUES (7, 1, 0)\n  INSERT INTO benchr.cell (p, n, v) VALUES (7, 2, 0)\n  INSERT INTO benchr.cell (p, n, v) VALUES (7, 3, 0)\n  COMMIT\n";

// The writers and the moves of a bench of one transaction.
const ONE: &str =
    "client w1\n  BEGIN\n  UPDATE benchl.cell SET v = 153 WHERE p = 6\n  UPDATE benchr.cell SET v = 870 WHERE p = 4\n  COMMIT\nclient w2\nclient w3\nclient w4\nclient w5\nclient w6\nclient w7\nclient w8\nrun\nstep 1 163\nstep 4\nstep 5\nstep 4\nstep 8\nstep 3\nstep 4\nstep 5\nstep 4\nrest\n";

// Of two.
const TWO: &str =
    "client w1\n  BEGIN\n  UPDATE benchl.cell SET v = 882 WHERE p = 4\n  UPDATE benchr.cell SET v = 504 WHERE p = 0\n  COMMIT\nclient w2\n  BEGIN\n  UPDATE benchl.cell SET v = 699 WHERE p = 7\n  UPDATE benchr.cell SET v = 478 WHERE p = 4\n  COMMIT\nclient w3\nclient w4\nclient w5\nclient w6\nclient w7\nclient w8\nrun\nstep 1 163\nstep 3\nstep 4\nstep 9\nstep 4\nstep 4\nstep 4\nstep 2\nstep 4\nstep 4\nstep 7\nstep 8\nstep 9\nstep 2\nstep 8\nstep 6\nstep 4\nrest\n";

// Of nine, of which the first writer has two.
const NINE: &str =
    "client w1\n  BEGIN\n  UPDATE benchl.cell SET v = 41 WHERE p = 3\n  UPDATE benchr.cell SET v = 940 WHERE p = 0\n  COMMIT\n  BEGIN\n  UPDATE benchl.cell SET v = 309 WHERE p = 2\n  UPDATE benchr.cell SET v = 224 WHERE p = 0\n  COMMIT\nclient w2\n  BEGIN\n  UPDATE benchl.cell SET v = 27 WHERE p = 3\n  UPDATE benchr.cell SET v = 267 WHERE p = 4\n  COMMIT\nclient w3\n  BEGIN\n  UPDATE benchl.cell SET v = 901 WHERE p = 3\n  UPDATE benchr.cell SET v = 715 WHERE p = 3\n  COMMIT\nclient w4\n  BEGIN\n  UPDATE benchl.cell SET v = 142 WHERE p = 4\n  UPDATE benchr.cell SET v = 894 WHERE p = 1\n  COMMIT\nclient w5\n  BEGIN\n  UPDATE benchl.cell SET v = 583 WHERE p = 6\n  UPDATE benchr.cell SET v = 714 WHERE p = 7\n  COMMIT\nclient w6\n  BEGIN\n  UPDATE benchl.cell SET v = 370 WHERE p = 2\n  UPDATE benchr.cell SET v = 994 WHERE p = 3\n  COMMIT\nclient w7\n  BEGIN\n  UPDATE benchl.cell SET v = 947 WHERE p = 5\n  UPDATE benchr.cell SET v = 988 WHERE p = 7\n  COMMIT\nclient w8\n  BEGIN\n  UPDATE benchl.cell SET v = 637 WHERE p = 1\n  UPDATE benchr.cell SET v = 393 WHERE p = 5\n  COMMIT\nrun\nstep 1 163\nstep 3\nstep 2\nstep 6\nstep 8\nstep 7\nstep 2\nstep 3\nstep 2\nstep 5\nstep 5\nstep 3\nstep 6\nstep 2\nstep 4\nstep 9\nstep 2\nstep 5\nstep 9\nstep 8\nstep 7\nstep 2\nstep 9\nstep 6\nstep 4\nstep 3\nstep 7\nstep 2\nstep 5\nstep 9\nstep 6\nstep 6\nstep 6\nstep 6\nstep 8\nstep 6\nstep 5\nstep 9\nstep 8\nstep 8\nstep 7\nstep 2\nstep 7\nstep 8\nstep 5\nstep 5\nstep 5\nstep 8\nstep 2\nstep 6\nstep 4\nstep 8\nstep 3\nstep 6\nstep 7\nstep 4\nstep 6\nstep 7\nstep 6\nstep 9\nstep 7\nstep 7\nstep 3\nstep 2\nstep 8\nstep 2\nstep 8\nstep 7\nstep 4\nstep 2\nstep 2\nstep 2\nstep 3\nrest\n";

fn is_printed(alloc: Global, n: u32, rest: &str) -> Result<bool, Fail>
    requires { n ≤ 20000 }
{
    let first = Name::new(alloc, "file")?;
    let last = Name::new(alloc, "sqlite")?;
    let script = bench_script(alloc, n, &first, &last)?;
    let text = print_script(alloc, &script)?;
    Ok(text.as_str().strip_prefix(SETUP) == Some(rest))
}

#[test]
fn benches_are_made(rt: HostRuntime) -> Result<(), Fail> {
    let alloc = rt.alloc();
    assert!(rt; is_printed(alloc, 1, ONE)?);
    assert!(rt; is_printed(alloc, 2, TWO)?);
    assert!(rt; is_printed(alloc, 9, NINE)?);
    assert!(rt; !is_printed(alloc, 9, TWO)?);
    Ok(())
}

fn committed(alloc: Global, events: &mut Events, client: u32) -> Result<(), NoMemory> {
    let text = Txt::new(alloc, "COMMIT")?;
    events.push(Event::take(alloc, client, text, Some(Answer::Committed))?)
}

fn put_row(alloc: Global, rows: &mut Rows, n: i32, p: i32, v: i32) -> Result<(), NoMemory> {
    let mut row = Values::new(alloc);
    row.push(Value::Int(n))?;
    row.push(Value::Int(p))?;
    row.push(Value::Int(v))?;
    rows.push(row)
}

// Of p 0 two rows have one v, and of p 1 they don't.
fn rows_of(alloc: Global) -> Result<Rows, NoMemory> {
    let mut rows = Rows::new(alloc);
    put_row(alloc, &mut rows, 0, 0, 5)?;
    put_row(alloc, &mut rows, 1, 0, 5)?;
    put_row(alloc, &mut rows, 0, 1, 5)?;
    put_row(alloc, &mut rows, 1, 1, 6)?;
    Ok(rows)
}

#[test]
fn runs_are_counted(rt: HostRuntime) -> Result<(), Fail> {
    let alloc = rt.alloc();
    let mut events = Events::new(alloc);
    committed(alloc, &mut events, 1)?;
    committed(alloc, &mut events, 2)?;
    committed(alloc, &mut events, 9)?;
    let name = TableName {
        ns: Name::new(alloc, "benchl")?,
        table: Name::new(alloc, "cell")?,
    };
    let mut tables = TableRows::new(alloc);
    tables.push(TableDump {
        name,
        rows: rows_of(alloc)?,
    })?;
    let outcome = Outcome {
        events,
        order: Points::new(alloc),
        tables,
    };
    let text = bench_text(alloc, 5, &outcome)?;
    assert_eq!(rt;
        text.as_str(),
        "transactions 5\ncommitted 2\nother 3\ncalls 0\nuneven 1\n"
    );
    Ok(())
}
