//! The texts of a schema: names, kinds and directions.
ghost use Rattle.sdb_types.specs.NameText.{around};
ghost use Rattle.std.specs.Prelude.{◌≡◌, ◌&&◌, true, Some, None, IfOk, is_some};
ghost use Rattle.std.specs.Option.{option_map};
ghost use Rattle.sdb_record.specs.Parts.{is_column_name};
ghost use Rattle.sdb_loader.specs.Words.{is_spelled as is_spelled_lem, is_open as is_open_lem, names_table as names_table_lem, table_named as table_named_lem, column_named as column_named_lem, kind_named as kind_named_lem, direction_named as direction_named_lem, ordered_by as ordered_by_lem, order_named as order_named_lem};

use sdb_schema::{Direction, Kind, Order};
use sdb_types::{Name, NameRefused, NoMemory, TableName, is_identifier_text};
use std::alloc::Global;

/// Whether a text is an identifier of at most 64 bytes.
pub fn is_short_name(text: &str) -> bool
    ensures { result ≡ is_column_name text.now }
{
    text.len() <= 64 && is_identifier_text(text.as_bytes())
}

/// The name with this text.
pub fn known_name(alloc: Global, text: &str) -> Result<Name, NoMemory>
    requires { is_column_name text.now ≡ true }
    ensures { IfOk result (λ name. name ≡ text.now) }
{
    match Name::new(alloc, text) {
        Ok(name) => Ok(name),
        Err(NameRefused::NoMemory) => Err(NoMemory),
        Err(NameRefused::BadName) => unreachable!(),
    }
}

/// The column that a text names.
pub fn column_named(alloc: Global, text: &str) -> Result<Option<Name>, NoMemory>
    ensures { IfOk result (λ name. name ≡ column_named_lem text.now) }
{
    if !is_short_name(text) {
        return Ok(None);
    }
    Ok(Some(known_name(alloc, text)?))
}

fn is_open(ns: &str) -> bool
    ensures { result ≡ is_open_lem ns.now }
{
    ns != "coordinator" && ns != "scalardb"
}

fn names_table(ns: &str, table: &str) -> bool
    ensures { result ≡ names_table_lem ns.now table.now }
{
    is_short_name(ns) && is_open(ns) && is_short_name(table)
}

fn around_dot(text: &str) -> Option<(&str, &str)>
    ensures { option_map (λ p. (p.0.now, p.1.now)) result ≡ around 46 text.now }
{
    text.split_once('.')
}

fn around_space(text: &str) -> Option<(&str, &str)>
    ensures { option_map (λ p. (p.0.now, p.1.now)) result ≡ around 32 text.now }
{
    text.split_once(' ')
}

/// The table whose name a text is.
#[tactic(auto, unfolding(crate::specs::Words::table_named))]
pub fn table_named(alloc: Global, text: &str) -> Result<Option<TableName>, NoMemory>
    ensures { IfOk result (λ name. name ≡ table_named_lem text.now) }
{
    let Some((ns, table)) = around_dot(text) else {
        return Ok(None);
    };
    if !names_table(ns, table) {
        return Ok(None);
    }
    Ok(Some(TableName {
        ns: known_name(alloc, ns)?,
        table: known_name(alloc, table)?,
    }))
}

fn is_spelled(word: &str, text: &str) -> bool
    ensures { result ≡ is_spelled_lem word.now text.now }
{
    text.eq_ignore_ascii_case(word)
}

/// The kind that a word names, in any case.
#[tactic(auto, unfolding(crate::specs::Words::kind_named))]
pub fn kind_named(text: &str) -> Option<Kind>
    ensures { result ≡ kind_named_lem text.now }
{
    if is_spelled("BOOLEAN", text) {
        Some(Kind::Boolean)
    } else if is_spelled("INT", text) {
        Some(Kind::Int)
    } else if is_spelled("BIGINT", text) {
        Some(Kind::BigInt)
    } else if is_spelled("TEXT", text) {
        Some(Kind::Text)
    } else if is_spelled("BLOB", text) {
        Some(Kind::Blob)
    } else {
        None
    }
}

#[tactic(auto, unfolding(crate::specs::Words::direction_named))]
fn direction_named(word: &str) -> Option<Direction>
    ensures { result ≡ direction_named_lem word.now }
{
    if is_spelled("ASC", word) {
        Some(Direction::Asc)
    } else if is_spelled("DESC", word) {
        Some(Direction::Desc)
    } else {
        None
    }
}

fn ordered_by(alloc: Global, name: &str, direction: Direction) -> Result<Option<Order>, NoMemory>
    ensures { IfOk result (λ order. order ≡ ordered_by_lem name.now direction) }
{
    match column_named(alloc, name)? {
        Some(name) => Ok(Some(Order { name, direction })),
        None => Ok(None),
    }
}

/// The clustering column that a text is: a name, and ASC or DESC in any case after one space, or nothing.
#[tactic(auto, unfolding(crate::specs::Words::order_named))]
pub fn order_named(alloc: Global, text: &str) -> Result<Option<Order>, NoMemory>
    ensures { IfOk result (λ order. order ≡ order_named_lem text.now) }
{
    let Some((name, word)) = around_space(text) else {
        return ordered_by(alloc, text, Direction::Asc);
    };
    match direction_named(word) {
        Some(direction) => ordered_by(alloc, name, direction),
        None => Ok(None),
    }
}

/// Whether a text is a clustering column.
#[tactic(auto, unfolding(crate::specs::Words::order_named))]
pub fn is_order(text: &str) -> bool
    ensures { result ≡ is_some (order_named_lem text.now) }
{
    match around_space(text) {
        Some((name, word)) => is_short_name(name) && direction_named(word).is_some(),
        None => is_short_name(text),
    }
}
