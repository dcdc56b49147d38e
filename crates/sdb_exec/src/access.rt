//! The access of a statement.
ghost use Rattle.std.specs.Prelude.{◌≡◌, IfOk, Some};
ghost use Rattle.sdb_model.specs.Rows.{order_names};
ghost use Rattle.sdb_model.specs.Reads.{is_equals, fixed, all_fixed, access_for, access_of};

use crate::{inserted_key, literal_at};
use sdb_model::{Comparison, Statement, Test};
use sdb_record::Access;
use sdb_schema::{Order, Table};
use sdb_types::{Duplicate, Key, Name, Names, NoMemory, Span, Value, Values};
use std::alloc::Global;

fn is_equality(comparison: Comparison) -> bool
    ensures { result ≡ is_equals comparison }
{
    match comparison {
        Comparison::Eq => true,
        _ => false,
    }
}

// The value that the first `=` test of a column gives it.
fn fixed_value(table: &Table, tests: &[Test], name: &Name) -> Result<Option<Value>, NoMemory>
    ensures { IfOk result (λ v. v ≡ fixed table.now tests.now name.now) }
{
    for test in tests {
        if let Test::Compare(column, comparison, literal) = test {
            if is_equality(*comparison) && column.is_same(name) {
                return Ok(Some(literal_at(table, column, literal)?));
            }
        }
    }
    Ok(None)
}

fn fixed_values(
    alloc: Global,
    table: &Table,
    tests: &[Test],
    names: &[Name],
) -> Result<Option<Values>, NoMemory>
    ensures { IfOk result (λ v. v ≡ all_fixed table.now tests.now names.now) }
{
    let mut values = Values::new(alloc);
    for name in names {
        match fixed_value(table, tests, name)? {
            Some(value) => values.push(value)?,
            None => return Ok(None),
        }
    }
    Ok(Some(values))
}

fn names_of(alloc: Global, orders: &[Order]) -> Result<Names, NoMemory>
    ensures { IfOk result (λ names. names ≡ order_names orders.now) }
{
    let mut names = Names::new(alloc);
    for order in orders {
        names.push(order.name.copy()?)?;
    }
    Ok(names)
}

fn tested_access(alloc: Global, table: &Table, tests: &[Test]) -> Result<Access, NoMemory>
    ensures { IfOk result (λ a. a ≡ access_for table.now tests.now) }
{
    let name = table.name.copy()?;
    let clustering = names_of(alloc, table.clustering.as_slice())?;
    let Some(partition) = fixed_values(alloc, table, tests, table.partition.as_slice())? else {
        return Ok(Access::Scan(Span {
            table: name,
            partition: None,
        }));
    };
    match fixed_values(alloc, table, tests, clustering.as_slice())? {
        None => Ok(Access::Scan(Span {
            table: name,
            partition: Some(partition),
        })),
        Some(clustering) => Ok(Access::Get(Key {
            table: name,
            partition,
            clustering,
        })),
    }
}

/// The rows that a statement wants to read.
pub fn access(alloc: Global, table: &Table, statement: &Statement) -> Result<Access, NoMemory>
    ensures { IfOk result (λ a. a ≡ access_of table.now statement.now) }
{
    match statement {
        Statement::Insert(s) => Ok(Access::Get(inserted_key(alloc, table, s)?)),
        Statement::Upsert(s) => Ok(Access::Get(inserted_key(alloc, table, s)?)),
        Statement::Update(s) => tested_access(alloc, table, s.tests.as_slice()),
        Statement::Delete(s) => tested_access(alloc, table, s.tests.as_slice()),
        Statement::Select(s) => tested_access(alloc, table, s.tests.as_slice()),
        _ => tested_access(alloc, table, &[]),
    }
}
