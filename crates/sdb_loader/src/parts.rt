//! The parts of a table that its value describes.
ghost use Rattle.std.specs.Prelude.{◌≡◌, IfOk, map};
ghost use Rattle.std.specs.List.{filter_map};
ghost use Rattle.std.specs.Option.{option_map, option_and_then};
ghost use Rattle.serde_json.specs.Find.{get, as_array};
ghost use Rattle.serde_json.specs.View.{view, members_view, items_view};
ghost use Rattle.sdb_loader.specs.Fields.{name_given as name_given_lem, order_given as order_given_lem, column_given as column_given_lem, entries_at as entries_at_lem, names_at as names_at_lem, orders_at as orders_at_lem, columns_among as columns_among_lem, columns_in as columns_in_lem};

use crate::fields::{columns_of, kind_given};
use crate::words::{column_named, order_named};
use sdb_schema::{Column, ColumnList, Order, Orders};
use sdb_types::{Name, Names, NoMemory, Seq};
use serde_json::{Map, Value};
use std::alloc::Global;

// The column that a string names.
fn name_in(alloc: Global, value: &Value) -> Result<Option<Name>, NoMemory>
    ensures { IfOk result (λ name. name ≡ name_given_lem (view value.now)) }
{
    match value.as_str() {
        Some(text) => column_named(alloc, text),
        None => Ok(None),
    }
}

// The clustering column that a string is.
fn order_in(alloc: Global, value: &Value) -> Result<Option<Order>, NoMemory>
    ensures { IfOk result (λ order. order ≡ order_given_lem (view value.now)) }
{
    match value.as_str() {
        Some(text) => order_named(alloc, text),
        None => Ok(None),
    }
}

fn array_at<'a>(value: &'a Value, member: &str) -> Option<&'a Vec<Value>>
    ensures { option_map (λ v. items_view v.now.items) result ≡ option_and_then as_array (get member.now (view value.now)) }
{
    match value.get(member) {
        Some(array) => array.as_array(),
        None => None,
    }
}

// The entries of an array among the members, or none.
fn entries_at<'a>(value: &'a Value, member: &str) -> &'a [Value]
    ensures { map view result.now ≡ entries_at_lem member.now (view value.now) }
{
    match array_at(value, member) {
        Some(items) => items.as_slice(),
        None => &[],
    }
}

fn names_among(alloc: Global, items: &[Value]) -> Result<Names, NoMemory>
    ensures { IfOk result (λ names. names ≡ filter_map name_given_lem (map view items.now)) }
{
    let mut names = Seq::new(alloc);
    for item in items {
        if let Some(name) = name_in(alloc, item)? {
            names.push(name)?;
        }
    }
    Ok(names)
}

fn orders_among(alloc: Global, items: &[Value]) -> Result<Orders, NoMemory>
    ensures { IfOk result (λ orders. orders ≡ filter_map order_given_lem (map view items.now)) }
{
    let mut orders = Seq::new(alloc);
    for item in items {
        if let Some(order) = order_in(alloc, item)? {
            orders.push(order)?;
        }
    }
    Ok(orders)
}

/// The columns that an array among the members lists.
pub fn names_at(alloc: Global, value: &Value, member: &str) -> Result<Names, NoMemory>
    ensures { IfOk result (λ names. names ≡ names_at_lem member.now (view value.now)) }
{
    names_among(alloc, entries_at(value, member))
}

/// The clustering columns that an array among the members lists.
pub fn orders_at(alloc: Global, value: &Value, member: &str) -> Result<Orders, NoMemory>
    ensures { IfOk result (λ orders. orders ≡ orders_at_lem member.now (view value.now)) }
{
    orders_among(alloc, entries_at(value, member))
}

// The column of a member that has a column's name and a kind.
fn column_in(alloc: Global, name: &str, value: &Value) -> Result<Option<Column>, NoMemory>
    ensures { IfOk result (λ column. column ≡ column_given_lem name.now (view value.now)) }
{
    match column_named(alloc, name)? {
        Some(name) => Ok(kind_given(value).map(|kind| Column { name, kind })),
        None => Ok(None),
    }
}

fn columns_among(alloc: Global, members: &Map<String, Value>) -> Result<ColumnList, NoMemory>
    ensures { IfOk result (λ columns. columns ≡ columns_among_lem (members_view members.now.entries)) }
{
    let mut columns = Seq::new(alloc);
    for (name, value) in members {
        if let Some(column) = column_in(alloc, name.as_str(), value)? {
            columns.push(column)?;
        }
    }
    Ok(columns)
}

/// The columns with their kinds.
pub fn columns_in(alloc: Global, value: &Value) -> Result<ColumnList, NoMemory>
    ensures { IfOk result (λ columns. columns ≡ columns_in_lem (view value.now)) }
{
    match columns_of(value) {
        Some(members) => columns_among(alloc, members),
        None => Ok(Seq::new(alloc)),
    }
}
