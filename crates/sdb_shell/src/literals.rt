//! The parts of a row's statement.
ghost use Rattle.std.specs.Prelude.{◌≡◌, map, IfOk};
ghost use Rattle.sdb_shell.specs.Statements as spec;

use sdb_model::{Comparison, Sets, Test, Tests};
use sdb_schema::Table;
use sdb_types::{Duplicate, Name, NoMemory, Pair, Value, Values};
use std::alloc::Global;

fn literal_of(value: &Value) -> Result<Value, NoMemory>
    ensures { IfOk result (λ literal. literal ≡ spec.literal_of value.now) }
{
    match value {
        Value::Int(n) => Ok(Value::BigInt(i64::from(*n))),
        other => other.copy(),
    }
}

/// The literals of a row.
pub fn literals_of(alloc: Global, row: &[Value]) -> Result<Values, NoMemory>
    ensures { IfOk result (λ literals. literals ≡ map spec.literal_of row.now) }
{
    let mut literals = Values::new(alloc);
    for value in row {
        literals.push(literal_of(value)?)?;
    }
    Ok(literals)
}

fn pair_of(name: &Name, value: &Value) -> Result<Pair, NoMemory>
    ensures { IfOk result (λ p. p ≡ spec.pair_of name.now value.now) }
{
    Ok(Pair {
        name: name.copy()?,
        value: literal_of(value)?,
    })
}

/// Each named column with its literal.
pub fn pairs_of(alloc: Global, names: &[Name], row: &[Value]) -> Result<Sets, NoMemory>
    ensures { IfOk result (λ pairs. pairs ≡ spec.pairs_of names.now row.now) }
{
    let mut pairs = Sets::new(alloc);
    for (i, name) in names.iter().enumerate() {
        if i < row.len() {
            pairs.push(pair_of(name, &row[i])?)?;
        }
    }
    Ok(pairs)
}

/// The columns outside the primary key, each set to its literal.
pub fn sets_of(alloc: Global, table: &Table, pairs: &[Pair]) -> Result<Sets, NoMemory>
    ensures { IfOk result (λ sets. sets ≡ spec.sets_of table.now pairs.now) }
{
    let mut sets = Sets::new(alloc);
    for pair in pairs {
        if !table.has_in_key(&pair.name) {
            sets.push(pair.copy()?)?;
        }
    }
    Ok(sets)
}

fn test_of(pair: &Pair) -> Result<Test, NoMemory>
    ensures { IfOk result (λ t. t ≡ spec.test_of pair.now) }
{
    Ok(Test::Compare(pair.name.copy()?, Comparison::Eq, pair.value.copy()?))
}

/// The columns of the primary key, each compared with its literal.
pub fn tests_of(alloc: Global, table: &Table, pairs: &[Pair]) -> Result<Tests, NoMemory>
    ensures { IfOk result (λ tests. tests ≡ spec.tests_of table.now pairs.now) }
{
    let mut tests = Tests::new(alloc);
    for pair in pairs {
        if table.has_in_key(&pair.name) {
            tests.push(test_of(pair)?)?;
        }
    }
    Ok(tests)
}
