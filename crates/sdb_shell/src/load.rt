//! What is loaded, and the statement of each row.
ghost use Rattle.std.specs.Prelude.{◌≡◌, IfOk};
ghost use Rattle.sdb_shell.specs.Statements as spec;

use crate::literals::{literals_of, pairs_of, sets_of, tests_of};
use sdb_data::Mode;
use sdb_model::{Insert, Statement, Update};
use sdb_schema::Table;
use sdb_types::{Duplicate, Names, NoMemory, Value};
use std::alloc::Global;

/// How rows are loaded: the mode, the table, and the columns that each row has values of, in their order.
pub struct Load {
    pub mode: Mode,
    pub table: Table,
    pub names: Names,
}

// By hand: each drop is then one call, where a derived one is written out at each exit, with a call for each field.
impl Drop for Load {
    fn drop(self) {
        let Load {
            mode: _,
            table: _,
            names: _,
        } = self;
    }
}

fn insert_of(alloc: Global, load: &Load, row: &[Value]) -> Result<Insert, NoMemory>
    ensures { IfOk result (λ i. i ≡ spec.insert_of load.now row.now) }
{
    Ok(Insert {
        table: load.table.name.copy()?,
        columns: load.names.copy()?,
        values: literals_of(alloc, row)?,
    })
}

fn update_of(alloc: Global, load: &Load, row: &[Value]) -> Result<Update, NoMemory>
    ensures { IfOk result (λ u. u ≡ spec.update_of load.now row.now) }
{
    let pairs = pairs_of(alloc, load.names.as_slice(), row)?;
    Ok(Update {
        table: load.table.name.copy()?,
        sets: sets_of(alloc, &load.table, pairs.as_slice())?,
        tests: tests_of(alloc, &load.table, pairs.as_slice())?,
    })
}

/// The statement that loads a row.
pub fn row_statement(alloc: Global, load: &Load, row: &[Value]) -> Result<Statement, NoMemory>
    ensures { IfOk result (λ st. st ≡ spec.row_statement load.now row.now) }
{
    match load.mode {
        Mode::Insert => Ok(Statement::Insert(insert_of(alloc, load, row)?)),
        Mode::Update => Ok(Statement::Update(update_of(alloc, load, row)?)),
        Mode::Upsert => Ok(Statement::Upsert(insert_of(alloc, load, row)?)),
    }
}
