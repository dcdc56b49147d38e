//! Tables as JSON.
ghost use Rattle.std.specs.Prelude.{◌≡◌, true, IfOk, OnOk, string_bytes};
ghost use Rattle.serde_json.specs.Data.{object, string, put as with_member};
ghost use Rattle.serde_json.specs.View.{view, members_view};
ghost use Rattle.sdb_schema.specs.Table.{rises};
ghost use Rattle.sdb_catalog.specs.Definition.{columns_data, definition_of, definition_text as definition_text_lem, direction_text as direction_text_lem, keys_of, names_data, order_text as order_text_lem, orders_data};

use sdb_schema::{Column, Direction, Order, Orders, Table};
use sdb_types::{Name, Names, NoMemory, Txt};
use serde_json::{Map, Value, put};
use std::alloc::Global;

fn direction_text(direction: Direction) -> &'static str
    ensures { result.now ≡ direction_text_lem direction }
{
    match direction {
        Direction::Asc => "ASC",
        Direction::Desc => "DESC",
    }
}

// A string of this text.
fn string_value(alloc: Global, text: &str) -> Result<Value, NoMemory>
    ensures { IfOk result (λ v. view v ≡ string text.now) }
{
    Ok(Value::String(String::from_str(alloc, text)?))
}

// The name of a clustering column, a space and its direction.
fn order_text(alloc: Global, order: &Order) -> Result<String, NoMemory>
    ensures { IfOk result (λ text. string_bytes text ≡ order_text_lem order.now) }
{
    let mut text = String::from_str(alloc, order.name.as_str())?;
    text.push_str(" ")?;
    text.push_str(direction_text(order.direction))?;
    Ok(text)
}

fn names_value(alloc: Global, names: &[Name]) -> Result<Value, NoMemory>
    ensures { IfOk result (λ v. view v ≡ names_data names.now) }
{
    let mut items = Vec::new(alloc);
    for name in names {
        items.push(string_value(alloc, name.as_str())?)?;
    }
    Ok(Value::Array(items))
}

fn orders_value(alloc: Global, orders: &[Order]) -> Result<Value, NoMemory>
    ensures { IfOk result (λ v. view v ≡ orders_data orders.now) }
{
    let mut items = Vec::new(alloc);
    for order in orders {
        items.push(Value::String(order_text(alloc, order)?))?;
    }
    Ok(Value::Array(items))
}

// The columns with their kinds. The last is put first, so that each comes before those that are there.
fn columns_map(alloc: Global, columns: &[Column]) -> Result<Map<String, Value>, NoMemory>
    requires { rises columns.now ≡ true }
    ensures { IfOk result (λ map. members_view map.entries ≡ columns_data columns.now) }
{
    let [column, later @ ..] = columns else {
        return Ok(Map::new(alloc));
    };
    let mut map = columns_map(alloc, later)?;
    let kind = string_value(alloc, column.kind.as_str())?;
    put(&mut map, alloc, column.name.as_str(), kind)?;
    Ok(map)
}

fn put_names(
    alloc: Global,
    map: &mut Map<String, Value>,
    key: &str,
    names: &Names,
) -> Result<(), NoMemory>
    ensures { OnOk result (members_view map.new.entries ≡ with_member key.now (names_data names.now) (members_view map.old.entries)) }
{
    let value = names_value(alloc, names.as_slice())?;
    put(map, alloc, key, value)?;
    Ok(())
}

fn put_orders(
    alloc: Global,
    map: &mut Map<String, Value>,
    key: &str,
    orders: &Orders,
) -> Result<(), NoMemory>
    ensures { OnOk result (members_view map.new.entries ≡ with_member key.now (orders_data orders.now) (members_view map.old.entries)) }
{
    let value = orders_value(alloc, orders.as_slice())?;
    put(map, alloc, key, value)?;
    Ok(())
}

// The members of a table's value, but for its columns.
fn keys_map(alloc: Global, table: &Table) -> Result<Map<String, Value>, NoMemory>
    ensures { IfOk result (λ map. members_view map.entries ≡ keys_of table.now) }
{
    let mut map = Map::new(alloc);
    put_orders(alloc, &mut map, "clustering-key", &table.clustering)?;
    put_names(alloc, &mut map, "partition-key", &table.partition)?;
    put_names(alloc, &mut map, "secondary-index", &table.indexed)?;
    Ok(map)
}

// The value of a table in a schema.
fn definition_value(alloc: Global, table: &Table) -> Result<Value, NoMemory>
    requires { rises table.now.columns ≡ true }
    ensures { IfOk result (λ v. view v ≡ definition_of table.now) }
{
    let mut map = keys_map(alloc, table)?;
    let columns = columns_map(alloc, table.columns.as_slice())?;
    put(&mut map, alloc, "columns", Value::Object(columns))?;
    Ok(Value::Object(map))
}

/// The definition of a table, whose columns are in the order of their names: its value in a schema, as compact JSON.
#[tactic(auto, using(crate::proofs::Texts::plain), unfolding(crate::specs::Definition::definition_text))]
pub fn definition_text(alloc: Global, table: &Table) -> Result<Txt, NoMemory>
    requires { rises table.now.columns ≡ true }
    ensures { IfOk result (λ text. text ≡ definition_text_lem table.now) }
{
    let text = definition_value(alloc, table)?.to_string(alloc)?;
    Txt::new(alloc, text.as_str())
}
