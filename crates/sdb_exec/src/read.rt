//! What a row gives a column, and whether it passes tests.
ghost use Rattle.std.specs.Prelude.{◌≡◌, unwrap_or, find, filter};
ghost use Rattle.std.specs.Option.{option_copied};
ghost use Rattle.std.specs.List.{list_all, list_any};
ghost use Rattle.sdb_types.specs.Order.{value_cmp};
ghost use Rattle.sdb_types.specs.Columns.{is_null};
ghost use Rattle.sdb_types.specs.declared.value.Value.TheVariants as value;
ghost use Rattle.sdb_model.specs.Rows.{value_in, value_of, order_names, same_name, kind_of_column, is_key_column, at_kind};
ghost use Rattle.sdb_model.specs.Exec.{agrees as agrees_lem, is_row_of as is_row_of_lem, passes_test, passes as passes_lem};
ghost use Rattle.sdb_model.specs.Refused.{mention_of_test};
ghost use Rattle.sdb_exec.specs.Beside.{beside, in_key};
ghost use Rattle.sdb_types.specs.Fits.{fits_int as fits_int_lem};

use sdb_model::{Comparison, Test};
use sdb_record::{Image, Images};
use sdb_schema::{Column, Kind, Order, Table};
use sdb_types::{Name, Seq, Value};
use std::cmp::Ordering;

fn find_beside<'a>(names: &[Name], values: &'a [Value], name: &Name) -> Option<&'a Value>
    ensures { option_copied result ≡ beside names.now values.now name.now }
{
    match (names.split_first(), values.split_first()) {
        (Some((n, ns)), Some((v, vs))) => {
            if n.is_same(name) {
                Some(v)
            } else {
                find_beside(ns, vs, name)
            }
        }
        _ => None,
    }
}

fn find_in_order<'a>(orders: &[Order], values: &'a [Value], name: &Name) -> Option<&'a Value>
    ensures { option_copied result ≡ beside (order_names orders.now) values.now name.now }
{
    match (orders.split_first(), values.split_first()) {
        (Some((o, os)), Some((v, vs))) => {
            if o.name.is_same(name) {
                Some(v)
            } else {
                find_in_order(os, vs, name)
            }
        }
        _ => None,
    }
}

/// The value that is beside a name, or else `rest`.
pub fn value_beside<'a>(
    names: &[Name],
    values: &'a [Value],
    name: &Name,
    rest: Option<&'a Value>,
) -> Option<&'a Value>
    ensures { unwrap_or (option_copied result) value.Null ≡ value_in names.now values.now name.now (unwrap_or (option_copied rest.entry) value.Null) }
{
    match find_beside(names, values, name) {
        Some(value) => Some(value),
        None => rest,
    }
}

// The value in the row's key, where the column is one of the key and has one there.
fn find_in_key<'a>(table: &Table, row: &'a Image, name: &Name) -> Option<&'a Value>
    ensures { option_copied result ≡ in_key table.now row.now name.now }
{
    let key = &row.key;
    match find_beside(table.partition.as_slice(), key.partition.as_slice(), name) {
        Some(value) => Some(value),
        None => find_in_order(table.clustering.as_slice(), key.clustering.as_slice(), name),
    }
}

/// What the row gives the column: the value in its key, or the user column; none or Null where it is NULL. Takes no memory.
pub fn value_at<'a>(table: &Table, row: &'a Image, name: &Name) -> Option<&'a Value>
    ensures { unwrap_or (option_copied result) value.Null ≡ value_of table.now row.now name.now }
{
    match find_in_key(table, row, name) {
        Some(value) => Some(value),
        None => row.columns.get(name),
    }
}

// The same. Among the row's columns the one at a place is looked at first.
fn value_near<'a>(table: &Table, place: usize, row: &'a Image, name: &Name) -> Option<&'a Value>
    ensures { unwrap_or (option_copied result) value.Null ≡ value_of table.now row.now name.now }
{
    match find_in_key(table, row, name) {
        Some(value) => Some(value),
        None => row.columns.get_near(place, name),
    }
}

fn is_among(names: &[Name], name: &Name) -> bool
    ensures { result ≡ list_any (λ n. same_name n name.now) names.now }
{
    names.iter().any(|n| n.is_same(name))
}

fn is_in_order(orders: &[Order], name: &Name) -> bool
    ensures { result ≡ list_any (λ o. same_name o.name name.now) orders.now }
{
    orders.iter().any(|o| o.name.is_same(name))
}

/// Whether a column is one of the primary key. Takes no memory.
pub fn is_key_name(table: &Table, name: &Name) -> bool
    ensures { result ≡ is_key_column table.now name.now }
{
    is_among(table.partition.as_slice(), name) || is_in_order(table.clustering.as_slice(), name)
}

fn column_named<'a>(columns: &'a [Column], name: &Name) -> Option<&'a Column>
    ensures { option_copied result ≡ find (λ c. same_name c.name name.now) columns.now }
{
    columns.iter().find(|c| c.name.is_same(name))
}

/// The kind of a column, and Text where the table has none of that name. Takes no memory.
pub fn kind_of(table: &Table, name: &Name) -> Kind
    ensures { result ≡ kind_of_column table.now name.now }
{
    match column_named(table.columns.as_slice(), name) {
        Some(column) => column.kind,
        None => Kind::Text,
    }
}

/// Whether a number fits an INT.
pub fn fits_int(n: i64) -> bool
    ensures { result ≡ fits_int_lem n }
{
    (-2147483648..=2147483647).contains(&n)
}

fn compare_at(value: &Value, kind: Kind, literal: &Value) -> Ordering
    ensures { result ≡ value_cmp value.now (at_kind kind literal.now) }
{
    match (kind, literal) {
        (Kind::Int, Value::BigInt(n)) if fits_int(*n) => value.cmp(&Value::Int(*n as i32)),
        _ => value.cmp(literal),
    }
}

fn agrees(comparison: Comparison, order: Ordering) -> bool
    ensures { result ≡ agrees_lem comparison order }
{
    match comparison {
        Comparison::Eq => order.is_eq(),
        Comparison::Ne => order.is_ne(),
        Comparison::Lt => order.is_lt(),
        Comparison::Le => order.is_le(),
        Comparison::Gt => order.is_gt(),
        Comparison::Ge => order.is_ge(),
    }
}

fn is_null_near(table: &Table, place: usize, row: &Image, name: &Name) -> bool
    ensures { result ≡ is_null (value_of table.now row.now name.now) }
{
    match value_near(table, place, row, name) {
        None => true,
        Some(Value::Null) => true,
        Some(_) => false,
    }
}

fn name_of(test: &Test) -> &Name
    ensures { result.now ≡ (mention_of_test test.now).name }
{
    match test {
        Test::Compare(name, _, _) => name,
        Test::IsNull(name) => name,
        Test::NotNull(name) => name,
    }
}

// Whether a row passes a test of a column of a kind. The column is looked for first at a place.
fn passes_near(table: &Table, kind: Kind, place: usize, row: &Image, test: &Test) -> bool
    requires { kind ≡ kind_of_column table.now (mention_of_test test.now).name }
    ensures { result ≡ passes_test table.now row.now test.now }
{
    match test {
        Test::Compare(name, comparison, literal) => match value_near(table, place, row, name) {
            None => false,
            Some(Value::Null) => false,
            Some(value) => agrees(*comparison, compare_at(value, kind, literal)),
        },
        Test::IsNull(name) => is_null_near(table, place, row, name),
        Test::NotNull(name) => !is_null_near(table, place, row, name),
    }
}

fn passes_one(table: &Table, row: &Image, test: &Test) -> bool
    ensures { result ≡ passes_test table.now row.now test.now }
{
    passes_near(table, kind_of(table, name_of(test)), 0, row, test)
}

fn is_row_of(table: &Table, row: &Image) -> bool
    ensures { result ≡ is_row_of_lem table.now row.now }
{
    row.key.table.cmp(&table.name).is_eq()
}

fn all_pass(table: &Table, tests: &[Test], row: &Image) -> bool
    ensures { result ≡ list_all (passes_test table.now row.now) tests.now }
{
    tests.iter().all(|test| passes_one(table, row, test))
}

/// Whether a row is one of the table and passes all tests. Takes no memory.
pub fn passes(table: &Table, tests: &[Test], row: &Image) -> bool
    ensures { result ≡ passes_lem table.now tests.now row.now }
{
    is_row_of(table, row) && all_pass(table, tests, row)
}

fn rows_of(table: &Table, rows: Images) -> Images
    ensures { result ≡ filter (is_row_of_lem table.now) rows }
{
    let mut rows = rows.into_vec();
    rows.retain(|row| is_row_of(table, row));
    Seq::from_vec(rows)
}

// Where the first row has the column, as most of the others do.
fn first_place(rows: &[Image], name: &Name) -> usize {
    match rows.first() {
        Some(row) => row.columns.find_place(name),
        None => 0,
    }
}

// The rows that pass a test. The kind of its column is looked for once.
fn passing_one(table: &Table, test: &Test, rows: Images) -> Images
    ensures { result ≡ filter (λ r. passes_test table.now r test.now) rows }
{
    let name = name_of(test);
    let kind = kind_of(table, name);
    let place = first_place(rows.as_slice(), name);
    let mut rows = rows.into_vec();
    rows.retain(|row| passes_near(table, kind, place, row, test));
    Seq::from_vec(rows)
}

fn passing_all(table: &Table, tests: &[Test], rows: Images) -> Images
    ensures { result ≡ filter (λ r. list_all (passes_test table.now r) tests.now) rows }
{
    match tests.split_first() {
        Some((test, others)) => passing_all(table, others, passing_one(table, test, rows)),
        None => rows,
    }
}

/// The rows of the table that pass all tests, in their order. Takes no memory.
pub fn passing(table: &Table, tests: &[Test], rows: Images) -> Images
    ensures { result ≡ filter (passes_lem table.now tests.now) rows }
{
    passing_all(table, tests, rows_of(table, rows))
}
