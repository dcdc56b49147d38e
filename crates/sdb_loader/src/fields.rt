//! The members of a table's value: which are of their form.
ghost use Rattle.std.specs.Prelude.{◌≡◌, Some, None, is_some, true, false, IfSome};
ghost use Rattle.std.specs.Option.{option_map, option_and_then};
ghost use Rattle.sdb_record.specs.Parts.{is_column_name};
ghost use Rattle.serde_json.specs.Find.{get, as_object, as_array};
ghost use Rattle.serde_json.specs.View.{view, members_view, items_view};
ghost use Rattle.sdb_loader.specs.Fields.{name_given, order_given, kind_given as kind_given_lem, is_unknown as is_unknown_lem, each_item, is_array_of, each_named as each_named_lem, is_column_object as is_column_object_lem, is_flag as is_flag_lem, is_of_form, bad_member as bad_member_lem, is_untransactional as is_untransactional_lem, unknown_among as unknown_among_lem, unknown_column as unknown_column_lem, columns, transaction};

use crate::words::{is_order, is_short_name, kind_named};
use sdb_schema::Kind;
use serde_json::{Map, Value};

fn says_name(value: &Value) -> bool
    ensures { result ≡ is_some (name_given (view value.now)) }
{
    match value.as_str() {
        Some(text) => is_short_name(text),
        None => false,
    }
}

fn says_order(value: &Value) -> bool
    ensures { result ≡ is_some (order_given (view value.now)) }
{
    match value.as_str() {
        Some(text) => is_order(text),
        None => false,
    }
}

/// The kind that a string names.
pub fn kind_given(value: &Value) -> Option<Kind>
    ensures { result ≡ kind_given_lem (view value.now) }
{
    match value.as_str() {
        Some(text) => kind_named(text),
        None => None,
    }
}

fn all_say_names(items: &[Value]) -> bool
    ensures { result ≡ each_item (λ e. is_some (name_given e)) (items_view items.now) }
{
    for item in items {
        if !says_name(item) {
            return false;
        }
    }
    true
}

fn all_say_orders(items: &[Value]) -> bool
    ensures { result ≡ each_item (λ e. is_some (order_given e)) (items_view items.now) }
{
    for item in items {
        if !says_order(item) {
            return false;
        }
    }
    true
}

// An array of names of columns.
fn is_name_array(value: &Value) -> bool
    ensures { result ≡ is_array_of name_given (view value.now) }
{
    match value.as_array() {
        Some(items) => all_say_names(items.as_slice()),
        None => false,
    }
}

// An array of clustering columns.
fn is_order_array(value: &Value) -> bool
    ensures { result ≡ is_array_of order_given (view value.now) }
{
    match value.as_array() {
        Some(items) => all_say_orders(items.as_slice()),
        None => false,
    }
}

fn each_named(members: &Map<String, Value>) -> bool
    ensures { result ≡ each_named_lem (members_view members.now.entries) }
{
    for (name, _value) in members {
        if !is_short_name(name.as_str()) {
            return false;
        }
    }
    true
}

fn is_column_object(value: &Value) -> bool
    ensures { result ≡ is_column_object_lem (view value.now) }
{
    match value.as_object() {
        Some(members) => each_named(members),
        None => false,
    }
}

fn has_order_array(value: &Value, member: &str) -> bool
    ensures { result ≡ is_of_form (is_array_of order_given) true member.now (view value.now) }
{
    match value.get(member) {
        Some(orders) => is_order_array(orders),
        None => true,
    }
}

// A member that is an array of names of columns, where a missing one counts as given.
fn has_name_array(value: &Value, member: &str, missing: bool) -> bool
    ensures { result ≡ is_of_form (is_array_of name_given) missing member.now (view value.now) }
{
    match value.get(member) {
        Some(names) => is_name_array(names),
        None => missing,
    }
}

fn has_columns(value: &Value) -> bool
    ensures { result ≡ is_of_form is_column_object_lem false columns (view value.now) }
{
    match value.get("columns") {
        Some(columns) => is_column_object(columns),
        None => false,
    }
}

fn has_flag(value: &Value) -> bool
    ensures { result ≡ is_of_form is_flag_lem true transaction (view value.now) }
{
    match value.get("transaction") {
        Some(flag) => flag.as_bool().is_some(),
        None => true,
    }
}

/// The first member, in the order of names, that is missing or isn't of its form.
#[tactic(auto, unfolding(crate::specs::Fields::bad_member))]
pub fn bad_member(value: &Value) -> Option<&'static str>
    ensures { option_map (λ name. name.now) result ≡ bad_member_lem (view value.now) }
{
    if !has_order_array(value, "clustering-key") {
        return Some("clustering-key");
    }
    if !has_columns(value) {
        return Some("columns");
    }
    if !has_name_array(value, "partition-key", false) {
        return Some("partition-key");
    }
    if !has_name_array(value, "secondary-index", true) {
        return Some("secondary-index");
    }
    if !has_flag(value) {
        return Some("transaction");
    }
    None
}

/// Whether a table's value says that it isn't transactional.
pub fn is_untransactional(value: &Value) -> bool
    ensures { result ≡ is_untransactional_lem (view value.now) }
{
    match value.get("transaction").and_then(Value::as_bool) {
        Some(flag) => !flag,
        None => false,
    }
}

fn is_unknown(name: &str, kind: &Value) -> bool
    ensures { result ≡ is_unknown_lem name.now (view kind.now) }
{
    is_short_name(name) && kind_given(kind).is_none()
}

fn unknown_among(members: &Map<String, Value>) -> Option<&str>
    ensures column { option_map (λ name. name.now) result ≡ unknown_among_lem (members_view members.now.entries) }
    ensures named { IfSome result (λ name. is_column_name name.now ≡ true) }
{
    for (name, kind) in members {
        if is_unknown(name.as_str(), kind) {
            return Some(name.as_str());
        }
    }
    None
}

/// The object that has a table's columns with their kinds.
pub fn columns_of(value: &Value) -> Option<&Map<String, Value>>
    ensures { option_map (λ m. members_view m.now.entries) result ≡ option_and_then as_object (get columns (view value.now)) }
{
    match value.get("columns") {
        Some(columns) => columns.as_object(),
        None => None,
    }
}

/// The first column, in the order of names, whose kind isn't known.
pub fn unknown_column(value: &Value) -> Option<&str>
    ensures column { option_map (λ name. name.now) result ≡ unknown_column_lem (view value.now) }
    ensures named { IfSome result (λ name. is_column_name name.now ≡ true) }
{
    match columns_of(value) {
        Some(columns) => unknown_among(columns),
        None => None,
    }
}
