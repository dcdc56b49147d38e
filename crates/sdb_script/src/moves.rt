//! Lines that say moves.
ghost use Rattle.std.specs.Prelude.{◌≡◌, ◌≤◌, ◌^◌, ◌-◌, min, IfOk};
ghost use Rattle.std.specs.Option.{option_map, option_copied};
ghost use Rattle.sdb_model.specs.declared.script.Act.TheVariants as act;
ghost use Rattle.sdb_script.specs.Lines.{are_names as are_names_lem};
ghost use Rattle.sdb_script.specs.Reading as spec;

use crate::words::{after, around_dot, around_space, is_short_name, numeral_in};
use sdb_loader::{kind_named, known_name};
use sdb_model::{Act, Move};
use sdb_types::{NoMemory, TableName};
use std::alloc::Global;

// One past the number of moves that a script may have.
const TOO_MANY: u64 = 200_001;

// The most calls that a script can delay: it has no more moves.
const MOST_DELAYED: u64 = 200_000;

// The latest moment that a clock can show.
const LATEST: u64 = 9_007_199_254_740_992;

// The client whose number a word says.
fn client_in(clients: u32, word: &str) -> Option<u32>
    ensures { result ≡ spec.client_in clients word.now }
{
    let n = numeral_in(word)?;
    if 1 <= n && n <= u64::from(clients) {
        Some(n as u32)
    } else {
        None
    }
}

fn step_in(clients: u32, words: &str) -> Option<Move>
    ensures { result ≡ option_map spec.capped (spec.step_in clients words.now) }
{
    match around_space(words) {
        Some((word, more)) => {
            let client = client_in(clients, word)?;
            repeat_of(client, numeral_in(more)?)
        }
        None => Some(Move::Act(Act::Step(client_in(clients, words)?))),
    }
}

// So many steps of a client, or one past the limit.
fn repeat_of(client: u32, count: u64) -> Option<Move>
    ensures { result ≡ option_map spec.capped (spec.repeat_of client count) }
{
    if 2 <= count {
        Some(Move::Repeat(client, count.min(TOO_MANY) as u32))
    } else {
        None
    }
}

fn lose_in(clients: u32, word: &str) -> Option<Move>
    ensures { result ≡ spec.act_in clients act.Lose word.now }
{
    Some(Move::Act(Act::Lose(client_in(clients, word)?)))
}

fn drop_in(clients: u32, word: &str) -> Option<Move>
    ensures { result ≡ spec.act_in clients act.Discard word.now }
{
    Some(Move::Act(Act::Discard(client_in(clients, word)?)))
}

fn delay_in(clients: u32, word: &str) -> Option<Move>
    ensures { result ≡ spec.act_in clients act.Delay word.now }
{
    Some(Move::Act(Act::Delay(client_in(clients, word)?)))
}

// The landing of the delayed call whose number a word says.
fn land_in(word: &str) -> Option<Move>
    ensures { result ≡ spec.land_in word.now }
{
    let number = numeral_in(word)?;
    if 1 <= number && number <= MOST_DELAYED {
        Some(Move::Act(Act::Land(number as u32)))
    } else {
        None
    }
}

fn stop_in(clients: u32, word: &str) -> Option<Move>
    ensures { result ≡ spec.act_in clients act.Stop word.now }
{
    Some(Move::Act(Act::Stop(client_in(clients, word)?)))
}

fn clock_in(word: &str) -> Option<Move>
    ensures { result ≡ spec.clock_in word.now }
{
    let ms = numeral_in(word)?;
    if ms <= LATEST {
        Some(Move::Act(Act::Clock(ms as i64)))
    } else {
        None
    }
}

fn rest_in(line: &str) -> Option<Move>
    ensures { result ≡ spec.rest_in line.now }
{
    if line == "rest" {
        Some(Move::Rest)
    } else {
        None
    }
}

// The move of a line, but for one that adds a column.
fn step_or(clients: u32, line: &str) -> Option<Move>
    ensures { result ≡ option_map spec.capped (spec.step_or clients line.now) }
{
    if let Some(words) = after("step ", line) {
        step_in(clients, words)
    } else if let Some(word) = after("lose ", line) {
        lose_in(clients, word)
    } else if let Some(word) = after("drop ", line) {
        drop_in(clients, word)
    } else if let Some(word) = after("delay ", line) {
        delay_in(clients, word)
    } else if let Some(word) = after("land ", line) {
        land_in(word)
    } else if let Some(word) = after("stop ", line) {
        stop_in(clients, word)
    } else if let Some(word) = after("clock ", line) {
        clock_in(word)
    } else {
        rest_in(line)
    }
}

fn are_names(ns: &str, table: &str, column: &str) -> bool
    ensures { result ≡ are_names_lem ns.now table.now column.now }
{
    is_short_name(ns) && is_short_name(table) && is_short_name(column)
}

// A column of the kind that a word names is to be added to a table.
fn alter_of(
    alloc: Global,
    ns: &str,
    table: &str,
    column: &str,
    word: &str,
) -> Result<Option<Move>, NoMemory>
    ensures { IfOk result (λ m. m ≡ option_map spec.capped (spec.alter_of (ns.now, table.now) column.now word.now)) }
{
    if !are_names(ns, table, column) {
        return Ok(None);
    }
    let Some(kind) = kind_named(word) else {
        return Ok(None);
    };
    let table = TableName {
        ns: known_name(alloc, ns)?,
        table: known_name(alloc, table)?,
    };
    let column = known_name(alloc, column)?;
    Ok(Some(Move::Act(Act::Alter(table, column, kind))))
}

fn column_of(alloc: Global, table: &str, column: &str, word: &str) -> Result<Option<Move>, NoMemory>
    ensures { IfOk result (λ m. m ≡ option_map spec.capped (spec.column_of table.now (column.now, word.now))) }
{
    match around_dot(table) {
        Some((ns, table)) => alter_of(alloc, ns, table, column, word),
        None => Ok(None),
    }
}

fn alter_in(alloc: Global, words: &str) -> Result<Option<Move>, NoMemory>
    ensures { IfOk result (λ m. m ≡ option_map spec.capped (spec.alter_in words.now)) }
{
    let Some((table, more)) = around_space(words) else {
        return Ok(None);
    };
    match around_space(more) {
        Some((column, word)) => column_of(alloc, table, column, word),
        None => Ok(None),
    }
}

/// The move of a line, over so many clients. Of steps that are more than a script may have, one more than that means all.
#[tactic(auto, unfolding(crate::specs::Reading::move_in))]
pub fn move_in(alloc: Global, clients: u32, line: &str) -> Result<Option<Move>, NoMemory>
    ensures { IfOk result (λ m. m ≡ option_map spec.capped (spec.move_in clients line.now)) }
{
    match after("alter ", line) {
        Some(words) => alter_in(alloc, words),
        None => Ok(step_or(clients, line)),
    }
}
