//! A column added to a table.
ghost use Rattle.std.specs.Prelude.{◌≡◌, true, nat_le, length, Some, None, IfOk, IfErr, OnOk};
ghost use Rattle.sdb_schema.specs.declared.added.ColumnRefused.TheVariants.{NoMemory as OutOfMemory};
ghost use Rattle.sdb_schema.specs.Added.{column_refused_by, grown, number_of};
ghost use Rattle.sdb_schema.specs.Table.{is_table};

use crate::make::{lists, put};
use crate::table::{Column, Table};
use sdb_record::is_user_name;
use sdb_types::{Duplicate, NoMemory};
use thiserror::Error;

/// Why a column is not added.
#[derive(Clone, Copy, Debug, PartialEq, Eq, Error)]
pub enum ColumnRefused {
    /// The catalog has no table of that name.
    #[error("no such table")]
    NoTable,
    /// The table has a column of that name.
    #[error("repeated column")]
    RepeatedColumn,
    #[error("reserved name")]
    ReservedName,
    /// The table has 64 columns.
    #[error("too many columns")]
    TooMany,
    #[error("out of memory")]
    NoMemory,
}

impl From<NoMemory> for ColumnRefused {
    ghost from_gives = { λ _ e. e ≡ OutOfMemory };

    fn from(_e: NoMemory) -> ColumnRefused {
        ColumnRefused::NoMemory
    }
}

impl ColumnRefused {
    /// The number of a cause, from 1 to 4. Out of memory has none.
    pub fn number(self) -> Option<u8>
        ensures { result ≡ number_of self }
    {
        match self {
            ColumnRefused::NoTable => Some(1),
            ColumnRefused::RepeatedColumn => Some(2),
            ColumnRefused::ReservedName => Some(3),
            ColumnRefused::TooMany => Some(4),
            ColumnRefused::NoMemory => None,
        }
    }
}

// Whether a table takes a column.
fn check(table: &Table, column: &Column) -> Result<(), ColumnRefused>
    ensures allowed { OnOk result (column_refused_by table.now column.now ≡ None) }
    ensures refused { IfErr result (λ e. number_of e ≡ column_refused_by table.now column.now) }
{
    if lists(table.columns.as_slice(), &column.name) {
        return Err(ColumnRefused::RepeatedColumn);
    }
    if !is_user_name(column.name.as_str()) {
        return Err(ColumnRefused::ReservedName);
    }
    if table.columns.len() >= 64 {
        return Err(ColumnRefused::TooMany);
    }
    Ok(())
}

impl Table {
    ghost use Rattle.std.specs.Prelude.{◌≡◌, true, nat_le, length, None, IfOk, IfErr, OnOk};
    ghost use Rattle.sdb_schema.specs.Added.{column_refused_by, grown, number_of};
    ghost use Rattle.sdb_schema.specs.Table.{is_table};

    /// The table with a column more, in its place. Its condition is that the name of the column has at most 64 bytes.
    pub fn with_column(&self, column: &Column) -> Result<Table, ColumnRefused>
        requires { nat_le (length column.now.name) 64 ≡ true }
        ensures ok { IfOk result (λ t. t ≡ grown self.now column.now) }
        ensures allowed { OnOk result (column_refused_by self.now column.now ≡ None) }
        ensures table { IfOk result (λ t. is_table self.now ≡ true → is_table t ≡ true) }
        ensures refused { IfErr result (λ e. number_of e ≡ column_refused_by self.now column.now) }
    {
        let _text = column.name.as_str();
        check(self, column)?;
        let mut table = self.copy()?;
        put(&mut table.columns, column.copy()?)?;
        Ok(table)
    }
}
