//! The columns that a statement mentions.
ghost use Rattle.std.specs.Prelude.{◌≡◌, ◌++◌, IfOk, OnOk, length, map, unwrap_or, []};
ghost use Rattle.std.specs.Option.{option_map_or};
ghost use Rattle.sdb_model.specs.Refused.{mention_of_name, mention_of_set, mention_of_test, listed as listed_lem, written as written_lem, mentions as mentions_lem};

use sdb_model::{Mention, Mentions, Select, Statement, Test};
use sdb_types::{Duplicate, Name, NoMemory, Pair, Seq, Value};
use std::alloc::Global;

fn of_name(name: &Name) -> Result<Mention, NoMemory>
    ensures { IfOk result (λ m. m ≡ mention_of_name name.now) }
{
    Ok(Mention {
        name: name.copy()?,
        literal: None,
    })
}

fn of_literal(name: &Name, literal: &Value) -> Result<Mention, NoMemory>
    ensures { IfOk result (λ m. m ≡ record { name = name.now; literal = Some literal.now }) }
{
    Ok(Mention {
        name: name.copy()?,
        literal: Some(literal.copy()?),
    })
}

fn of_test(test: &Test) -> Result<Mention, NoMemory>
    ensures { IfOk result (λ m. m ≡ mention_of_test test.now) }
{
    match test {
        Test::Compare(name, _, literal) => of_literal(name, literal),
        Test::IsNull(name) => of_name(name),
        Test::NotNull(name) => of_name(name),
    }
}

// Each name of an insert with the literal at its place.
fn listed(alloc: Global, names: &[Name], values: &[Value]) -> Result<Mentions, NoMemory>
    ensures { IfOk result (λ ms. ms ≡ listed_lem names.now values.now) }
{
    let mut found = Seq::with_room(alloc, names.len())?;
    let mut values = values;
    for name in names {
        match values.split_first() {
            Some((value, rest)) => {
                found.push(of_literal(name, value)?)?;
                values = rest;
            }
            None => found.push(of_name(name)?)?,
        }
    }
    Ok(found)
}

// Those of SET, with room for so many in all.
fn of_sets(alloc: Global, room: usize, sets: &[Pair]) -> Result<Mentions, NoMemory>
    ensures { IfOk result (λ ms. ms ≡ map mention_of_set sets.now) }
{
    let mut found = Seq::with_room(alloc, room)?;
    for pair in sets {
        found.push(of_literal(&pair.name, &pair.value)?)?;
    }
    Ok(found)
}

/// How many mentions there are of columns that an insert lists or SET names.
pub fn written_count(statement: &Statement) -> usize
    ensures { result ≡ length (written_lem statement.now) }
{
    match statement {
        Statement::Insert(s) => s.columns.len(),
        Statement::Upsert(s) => s.columns.len(),
        Statement::Update(s) => s.sets.len(),
        _ => 0,
    }
}

// How many columns a SELECT names.
fn selected_count(select: &Select) -> usize
    ensures { result ≡ option_map_or length select.now.columns 0 }
{
    match &select.columns {
        Some(names) => names.len(),
        None => 0,
    }
}

// The mentions of the columns that an insert lists or SET names, with room for all others.
fn written_in(alloc: Global, statement: &Statement) -> Result<Mentions, NoMemory>
    ensures { IfOk result (λ ms. ms ≡ written_lem statement.now) }
{
    match statement {
        Statement::Insert(s) => listed(alloc, s.columns.as_slice(), s.values.as_slice()),
        Statement::Upsert(s) => listed(alloc, s.columns.as_slice(), s.values.as_slice()),
        Statement::Update(s) => of_sets(
            alloc,
            s.sets.len().saturating_add(s.tests.len()),
            s.sets.as_slice(),
        ),
        Statement::Select(s) => Seq::with_room(
            alloc,
            selected_count(s).saturating_add(s.tests.len()),
        ),
        Statement::Delete(s) => Seq::with_room(alloc, s.tests.len()),
        _ => Ok(Seq::new(alloc)),
    }
}

fn add_names(mentions: &mut Mentions, names: &[Name]) -> Result<(), NoMemory>
    ensures { OnOk result (mentions.new ≡ mentions.old ++ map mention_of_name names.now) }
{
    for name in names {
        mentions.push(of_name(name)?)?;
    }
    Ok(())
}

fn add_tests(mentions: &mut Mentions, tests: &[Test]) -> Result<(), NoMemory>
    ensures { OnOk result (mentions.new ≡ mentions.old ++ map mention_of_test tests.now) }
{
    for test in tests {
        mentions.push(of_test(test)?)?;
    }
    Ok(())
}

/// All mentions of a statement, in the order in which they appear.
pub fn mentions_of(alloc: Global, statement: &Statement) -> Result<Mentions, NoMemory>
    ensures { IfOk result (λ ms. ms ≡ mentions_lem statement.now) }
{
    let mut found = written_in(alloc, statement)?;
    match statement {
        Statement::Update(s) => add_tests(&mut found, s.tests.as_slice())?,
        Statement::Delete(s) => add_tests(&mut found, s.tests.as_slice())?,
        Statement::Select(s) => {
            if let Some(names) = &s.columns {
                add_names(&mut found, names.as_slice())?;
            }
            add_tests(&mut found, s.tests.as_slice())?
        }
        _ => {}
    }
    Ok(found)
}
