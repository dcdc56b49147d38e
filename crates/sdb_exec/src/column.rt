//! Columns of a table by their names. Where these rise, as those of a catalog's tables do, half of the columns that are left is passed over at
//! each step.
ghost use Rattle.std.specs.Prelude.{◌≡◌, true};
ghost use Rattle.sdb_schema.specs.Table.{rises, has_column as has_column_lem, kind_in};
ghost use Rattle.sdb_model.specs.Rows.{kind_of_column};

use sdb_schema::{Kind, Table, all_rise, find_column, find_column_near};
use sdb_types::Name;

/// Whether a table's columns are in the order of their names.
pub fn columns_rise(table: &Table) -> bool
    ensures { result ≡ rises table.now.columns }
{
    all_rise(table.columns.as_slice())
}

/// Whether a table has a column of this name.
pub fn has_column(table: &Table, name: &Name) -> bool
    requires { rises table.now.columns ≡ true }
    ensures { result ≡ has_column_lem table.now.columns name.now }
{
    find_column(table.columns.as_slice(), true, name).is_some()
}

/// The kind of a column, where the table has one of that name. It is looked for as `find_column_near` does.
pub fn find_kind(table: &Table, place: &mut usize, name: &Name) -> Option<Kind>
    requires { rises table.now.columns ≡ true }
    ensures { result ≡ kind_in table.now.columns name.now }
{
    match find_column_near(table.columns.as_slice(), true, place, name) {
        Some(column) => Some(column.kind),
        None => None,
    }
}

/// The kind of a column, and Text where the table has none of that name.
pub fn kind_of_known(table: &Table, name: &Name) -> Kind
    requires { rises table.now.columns ≡ true }
    ensures { result ≡ kind_of_column table.now name.now }
{
    match find_column(table.columns.as_slice(), true, name) {
        Some(column) => column.kind,
        None => Kind::Text,
    }
}
