//! The five lines that count the run of a bench.
ghost use Rattle.std.specs.Prelude.{◌≡◌, ◌++◌, ◌≤◌, ℕ, pos, count_by, codes, IfOk, OnOk};
ghost use Rattle.std.specs.Option.{option_copied};
ghost use Rattle.std.specs.List.{list_any};
ghost use Rattle.std.specs.String.{string_bytes};
ghost use Rattle.sdb_types.specs.declared.value.Value.TheVariants as value;
ghost use Rattle.sdb_model.specs.Transactions.{is_committed_answer};
ghost use Rattle.sdb_bench.specs.Counts.{bench_text_of, count_line, counts_text, differ as differ_lem, is_at as is_at_lem, is_call as is_call_lem, is_commit as is_commit_lem, is_uneven as is_uneven_lem, is_writer as is_writer_lem, same_found as same_found_lem, uneven_in as uneven_in_lem, uneven_of};

use sdb_model::{Answer, Boxed, Event, Outcome, TableDump, put_number};
use sdb_types::{NoMemory, Value, Values};
use std::alloc::Global;

// ---- events

fn is_writer(client: u32) -> bool
    ensures { result ≡ is_writer_lem client }
{
    2 <= client && client <= 9
}

fn is_committed(answer: &Option<Boxed<Answer>>) -> bool
    ensures { result ≡ is_committed_answer answer.now }
{
    match answer {
        Some(answer) => matches!(answer.get(), Answer::Committed),
        None => false,
    }
}

// Whether an event answers a writer that its transaction is committed.
#[tactic(auto, unfolding(crate::specs::Counts::is_commit))]
fn is_commit(event: &Event) -> bool
    ensures { result ≡ is_commit_lem event.now }
{
    match event {
        Event::Take(client, _, answer) => is_writer(*client) && is_committed(answer),
        Event::Call(client, _, _, _, _, answer) => is_writer(*client) && is_committed(answer),
        Event::Stop(_) => false,
        Event::Clock(_) => false,
        Event::Idle(_) => false,
        Event::Land(_, _, _, _, _) => false,
        Event::Alter(_, _, _, _) => false,
    }
}

#[tactic(auto, unfolding(crate::specs::Counts::is_call))]
fn is_call(event: &Event) -> bool
    ensures { result ≡ is_call_lem event.now }
{
    match event {
        Event::Call(_, _, _, _, _, _) => true,
        Event::Take(_, _, _) => false,
        Event::Stop(_) => false,
        Event::Clock(_) => false,
        Event::Idle(_) => false,
        Event::Land(_, _, _, _, _) => false,
        Event::Alter(_, _, _, _) => false,
    }
}

fn commits_in(events: &[Event]) -> usize
    ensures { result ≡ count_by is_commit_lem events.now }
{
    let mut commits = 0;
    for event in events {
        if is_commit(event) {
            commits += 1;
        }
    }
    commits
}

fn calls_in(events: &[Event]) -> usize
    ensures { result ≡ count_by is_call_lem events.now }
{
    let mut calls = 0;
    for event in events {
        if is_call(event) {
            calls += 1;
        }
    }
    calls
}

// ---- rows

fn same_found(value: Option<&Value>, other: Option<&Value>) -> bool
    ensures { result ≡ same_found_lem (option_copied value.entry) (option_copied other.entry) }
{
    match (value, other) {
        (Some(value), Some(other)) => value.cmp(other).is_eq(),
        (None, None) => true,
        _ => false,
    }
}

fn is_at(p: &Value, row: &Values) -> bool
    ensures { result ≡ is_at_lem p.now row.now }
{
    same_found(row.at(1), Some(p))
}

#[tactic(auto, unfolding(crate::specs::Counts::differ))]
fn differ(p: &Value, row: &Values, other: &Values) -> bool
    ensures { result ≡ differ_lem p.now row.now other.now }
{
    is_at(p, row) && is_at(p, other) && !same_found(row.at(2), other.at(2))
}

fn differs_from(p: &Value, row: &Values, rows: &[Values]) -> bool
    ensures { result ≡ list_any (differ_lem p.now row.now) rows.now }
{
    rows.iter().any(|other| differ(p, row, other))
}

fn has_two(p: &Value, rows: &[Values]) -> bool
    ensures { result ≡ list_any (λ row. list_any (differ_lem p.now row) rows.now) rows.now }
{
    rows.iter().any(|row| differs_from(p, row, rows))
}

#[tactic(auto, unfolding(crate::specs::Counts::is_uneven))]
fn is_uneven(rows: &[Values], p: u8) -> bool
    ensures { result ≡ is_uneven_lem rows.now p }
{
    let p = Value::Int(i32::from(p));
    has_two(&p, rows)
}

#[tactic(auto, unfolding(crate::specs::Counts::uneven_in))]
fn uneven_in(table: &TableDump) -> u64
    ensures count { result ≡ uneven_in_lem table.now }
    ensures few { result ≤ 8 }
{
    let mut uneven = 0;
    for p in 0..8 {
        if is_uneven(table.rows.as_slice(), p) {
            uneven += 1;
        }
    }
    uneven
}

// How many pairs of a table and a p are uneven. There is no memory for so many tables that the sum would not fit.
fn uneven_in_all(tables: &[TableDump]) -> Result<u64, NoMemory>
    ensures { IfOk result (λ n. n ≡ uneven_of tables.now) }
{
    let mut uneven: u64 = 0;
    for table in tables {
        uneven = uneven.checked_add(uneven_in(table)).ok_or(NoMemory)?;
    }
    Ok(uneven)
}

// ---- lines

fn put_count(out: &mut String, word: &str, n: u64) -> Result<(), NoMemory>
    ensures { OnOk result (string_bytes out.new ≡ string_bytes out.old ++ count_line word.now n) }
{
    out.push_str(word)?;
    out.push_str(" ")?;
    put_number(out, n)?;
    out.push_str("\n")?;
    Ok(())
}

fn put_counts(out: &mut String, n: u32, events: &[Event]) -> Result<(), NoMemory>
    ensures { OnOk result (string_bytes out.new ≡ string_bytes out.old ++ counts_text n events.now) }
{
    let commits = commits_in(events) as u64;
    put_count(out, "transactions", u64::from(n))?;
    put_count(out, "committed", commits)?;
    put_count(out, "other", u64::from(n).saturating_sub(commits))?;
    put_count(out, "calls", calls_in(events) as u64)
}

/// The five lines of a bench of n transactions with this outcome: how many transactions there are, how many the writers were
/// answered Committed, how many others there are, the calls, and the uneven pairs of a table and a p.
#[tactic(auto, unfolding(crate::specs::Counts::bench_text_of))]
pub fn bench_text(alloc: Global, n: u32, outcome: &Outcome) -> Result<String, NoMemory>
    ensures { IfOk result (λ text. string_bytes text ≡ bench_text_of n outcome.now) }
{
    let mut out = String::new(alloc);
    let uneven = uneven_in_all(outcome.tables.as_slice())?;
    put_counts(&mut out, n, outcome.events.as_slice())?;
    put_count(&mut out, "uneven", uneven)?;
    Ok(out)
}
