//! A script or a report on standard input, read and counted, or printed again.
use sdb_model::report_text;
use sdb_report::read_report;
use sdb_script::{print_script, read_script};
use sdb_types::{Name, Names};
use std::alloc::Global;
use std::env::Args;
use std::io::{Read, Write};
use std::rt::HostRuntime;

// All of standard input.
fn input(rt: &HostRuntime) -> Option<Vec<u8>> {
    let mut bytes = Vec::new(rt.alloc());
    rt.stdin().read_to_end(&mut bytes).ok()?;
    Some(bytes)
}

// The stores that a script may name.
fn stores(alloc: Global) -> Option<Names> {
    let mut names = Names::new(alloc);
    for name in ["ordered", "hashed", "sqlite", "sharded"] {
        names.push(Name::new(alloc, name).ok()?).ok()?;
    }
    Some(names)
}

fn moves(alloc: Global, bytes: &[u8]) -> Option<usize> {
    let names = stores(alloc)?;
    let script = read_script(alloc, bytes, &names).ok()?;
    Some(script.moves.len())
}

fn events(alloc: Global, bytes: &[u8]) -> Option<usize> {
    let outcome = read_report(alloc, bytes).ok()?;
    Some(outcome.events.len())
}

// Prints a text, and returns how many bytes it has.
fn print_bytes(rt: &HostRuntime, bytes: &[u8]) -> Option<usize> {
    rt.stdout().write_all(bytes).ok()?;
    Some(bytes.len())
}

fn script_again(rt: &HostRuntime, bytes: &[u8]) -> Option<usize> {
    let alloc = rt.alloc();
    let names = stores(alloc)?;
    let script = read_script(alloc, bytes, &names).ok()?;
    let text = print_script(alloc, &script).ok()?;
    print_bytes(rt, text.as_str().as_bytes())
}

fn report_again(rt: &HostRuntime, bytes: &[u8]) -> Option<usize> {
    let alloc = rt.alloc();
    let outcome = read_report(alloc, bytes).ok()?;
    let text = report_text(alloc, &outcome).ok()?;
    print_bytes(rt, text.as_bytes())
}

/// Reads what the next word says, `script` or `report`, and counts its moves or events, or, where the word after is `again`, prints it
/// and counts the bytes.
pub fn play(rt: &HostRuntime, words: &mut Args) -> Option<usize> {
    let what = words.next()?;
    let task = words.next()?;
    let bytes = input(rt)?;
    match (what.as_str(), task.as_str()) {
        ("script", "count") => moves(rt.alloc(), &bytes),
        ("report", "count") => events(rt.alloc(), &bytes),
        ("script", "again") => script_again(rt, &bytes),
        ("report", "again") => report_again(rt, &bytes),
        _ => None,
    }
}
