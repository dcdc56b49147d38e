//! The tables that a run is about.
ghost use Rattle.std.specs.Prelude.{◌≡◌, ◌<◌, length, map, take_while, Some, IfOk};
ghost use Rattle.std.specs.List.{slice_get};
ghost use Rattle.std.specs.Ordering.{is_lt};
ghost use Rattle.sdb_types.specs.Order.{table_cmp};
ghost use Rattle.sdb_contents.specs.Opening.{run_tables as run_tables_lem, table_names as table_names_lem};

use sdb_record::coordinator_table;
use sdb_schema::{Catalog, Table};
use sdb_types::{Duplicate, NoMemory, Seq, TableName};
use std::alloc::Global;

/// The names of tables.
pub type TableNames = Seq<TableName>;

/// The i-th table of a catalog.
pub fn table_at(catalog: &Catalog, i: usize) -> &Table
    requires { i < length catalog.now }
    ensures { slice_get catalog.now i ≡ Some result.now }
{
    match catalog.at(i) {
        Some(table) => table,
        None => unreachable!(),
    }
}

fn table_names(alloc: Global, catalog: &Catalog) -> Result<TableNames, NoMemory>
    ensures { IfOk result (λ names. names ≡ table_names_lem catalog.now) }
{
    let mut names = TableNames::new(alloc);
    for i in 0..catalog.len() {
        let name = table_at(catalog, i).name.copy()?;
        names.push(name)?;
    }
    Ok(names)
}

// How many names come before the first that isn't below another.
fn count_below(names: &[TableName], other: &TableName) -> usize
    ensures { result ≡ length (take_while (λ n. is_lt (table_cmp n other.now)) names.now) }
{
    names
        .iter()
        .take_while(|name| (*name).cmp(other).is_lt())
        .count()
}

/// The names of a run's tables, in their order: those of its catalog and the coordinator's.
pub fn run_tables(alloc: Global, catalog: &Catalog) -> Result<TableNames, NoMemory>
    ensures { IfOk result (λ names. names ≡ run_tables_lem catalog.now) }
{
    let mut names = table_names(alloc, catalog)?;
    let coordinator = coordinator_table();
    let place = count_below(names.as_slice(), &coordinator);
    names.insert(place, coordinator)?;
    Ok(names)
}
