//! Tables that are refused, rows of a table, and the tables of a catalog.
ghost use Rattle.std.specs.Prelude.{◌≡◌, ◌≤◌, true, length, nat_le, IfOk};
ghost use Rattle.sdb_schema.specs.Table.{are_short, is_table};

use sdb_schema::{AddRefused, Catalog, Column, ColumnList, Kind, RowRefused, Table, TableRefused};
use sdb_types::{Columns, Name, Names, Seq};
use std::alloc::Global;
use std::test::Fail;
use test_builders::{Case, Cell, all_cases, columns_of, names_of, table_of};

// How a table without columns, and of this partition key, is refused.
fn refused_without_columns(alloc: Global, key: Names) -> Result<TableRefused, Fail> {
    let none = Seq::new(alloc);
    let name = table_of(alloc, "shop", "item")?;
    match Table::new(alloc, name, none, key, Seq::new(alloc), Seq::new(alloc)) {
        Ok(_) => Ok(TableRefused::NoMemory),
        Err(refused) => Ok(refused),
    }
}

// Whether a table wants a key, and that of its columns.
fn wants(alloc: Global, key: &[&str]) -> Result<bool, Fail> {
    match refused_without_columns(alloc, names_of(alloc, key)?)? {
        TableRefused::NoPartitionKey => Ok(key.is_empty()),
        TableRefused::UnknownColumn(_) => Ok(!key.is_empty()),
        _ => Ok(false),
    }
}

fn column(alloc: Global, name: &str, kind: Kind) -> Result<Column, Fail>
    requires { length name.now ≤ 64 }
    ensures { IfOk result (λ c. nat_le (length c.name) 64 ≡ true) }
{
    let name = Name::new(alloc, name)?;
    Ok(Column { name, kind })
}

// `k`, a TEXT, and `n`, a BIGINT.
fn columns(alloc: Global) -> Result<ColumnList, Fail>
    ensures { IfOk result (λ cs. are_short cs ≡ true) }
{
    let mut columns = ColumnList::new(alloc);
    columns.push(column(alloc, "k", Kind::Text)?)?;
    columns.push(column(alloc, "n", Kind::BigInt)?)?;
    Ok(columns)
}

// A table of this name with the key `k`.
fn keyed(alloc: Global, name: &str) -> Result<Table, Fail>
    ensures { IfOk result (λ t. is_table t ≡ true) }
{
    let name = table_of(alloc, "shop", name)?;
    let key = names_of(alloc, ["k"].as_slice())?;
    let columns = columns(alloc)?;
    Ok(Table::new(alloc, name, columns, key, Seq::new(alloc), Seq::new(alloc))?)
}

// What a row is refused for, if it is.
#[derive(Clone, Copy, PartialEq, Eq)]
enum Fault {
    Nothing,
    NullInKey,
    WrongType,
    OutOfRange,
    Other,
}

fn if_named(name: &Name, wanted: &str, fault: Fault) -> Fault {
    if name.as_str() == wanted {
        fault
    } else {
        Fault::Other
    }
}

// The fault of a refusal at the column of this name.
fn fault_at(refused: &RowRefused, column: &str) -> Fault {
    match refused {
        RowRefused::NullInKey(name) => if_named(name, column, Fault::NullInKey),
        RowRefused::WrongType(name) => if_named(name, column, Fault::WrongType),
        RowRefused::OutOfRange(name) => if_named(name, column, Fault::OutOfRange),
        RowRefused::NoMemory => Fault::Other,
    }
}

fn fault_of(table: &Table, row: &Columns, column: &str) -> Fault {
    match table.check_row(row) {
        Ok(()) => Fault::Nothing,
        Err(refused) => fault_at(&refused, column),
    }
}

fn has_fault(
    alloc: Global,
    key: Cell,
    number: Cell,
    fault: Fault,
    column: &str,
) -> Result<bool, Fail> {
    let row = columns_of(alloc, [("k", key), ("n", number)].as_slice())?;
    let table = keyed(alloc, "item")?;
    Ok(fault_of(&table, &row, column) == fault)
}

fn add(alloc: Global, catalog: &mut Catalog, name: &str) -> Result<Option<AddRefused>, Fail> {
    Ok(catalog.add(keyed(alloc, name)?).err())
}

fn add_numbered(alloc: Global, catalog: &mut Catalog, i: u32) -> Result<bool, Fail> {
    let name = format!(in alloc; "t{i}")?;
    Ok(add(alloc, catalog, name.as_str())?.is_none())
}

// How a catalog answers to the last of so many tables, each of another name.
fn added(alloc: Global, count: u32) -> Result<Option<AddRefused>, Fail> {
    let mut catalog = Catalog::new(alloc);
    for i in 1..count {
        if !add_numbered(alloc, &mut catalog, i)? {
            return Ok(Some(AddRefused::NoMemory));
        }
    }
    add(alloc, &mut catalog, "t0")
}

// How a catalog answers to a table of a name that it has.
fn added_again(alloc: Global) -> Result<Option<AddRefused>, Fail> {
    let mut catalog = Catalog::new(alloc);
    add(alloc, &mut catalog, "item")?;
    add(alloc, &mut catalog, "item")
}

// What is asked of tables and catalogs.
#[derive(Clone, Copy)]
enum Check {
    // The partition key of a table without columns.
    Wants(&'static [&'static str]),
    // The values of `k` and `n` in a row, and its fault at a column.
    Row(Cell, Cell, Fault, &'static str),
    // How many tables a catalog is given, and how the last is refused, if it is.
    Adds(u32, Option<AddRefused>),
    AddsAgain(Option<AddRefused>),
}

impl Case for Check {
    fn holds(self, alloc: Global) -> Result<bool, Fail> {
        match self {
            Check::Wants(key) => wants(alloc, key),
            Check::Row(key, number, fault, column) => has_fault(alloc, key, number, fault, column),
            Check::Adds(count, refused) => Ok(added(alloc, count)? == refused),
            Check::AddsAgain(refused) => Ok(added_again(alloc)? == refused),
        }
    }
}

const OUTSIDE: i64 = 9_007_199_254_740_993;

static CHECKS: [Check; 10] = [
    Check::Wants(&[]),
    Check::Wants(&["shelf"]),
    // A row with several faults has the first of its key, of its types, of its ranges.
    Check::Row(Cell::Null, Cell::Int(1), Fault::NullInKey, "k"),
    Check::Row(Cell::Int(1), Cell::BigInt(OUTSIDE), Fault::WrongType, "k"),
    Check::Row(Cell::Text("a"), Cell::Int(1), Fault::WrongType, "n"),
    Check::Row(
        Cell::Text("a"),
        Cell::BigInt(OUTSIDE),
        Fault::OutOfRange,
        "n",
    ),
    Check::Row(
        Cell::Text("a"),
        Cell::BigInt(9_007_199_254_740_992),
        Fault::Nothing,
        "n",
    ),
    // A catalog takes 64 tables, and a name once.
    Check::Adds(64, None),
    Check::Adds(65, Some(AddRefused::TooMany)),
    Check::AddsAgain(Some(AddRefused::Known)),
];

#[test]
fn tables_and_catalogs_are_checked(rt: HostRuntime) -> Result<(), Fail> {
    all_cases(rt.alloc(), "schema", CHECKS.as_slice())
}
