//! The header of a text: the names of columns.
ghost use Rattle.std.specs.Prelude.{◌≡◌, ◌<◌, ◌∷◌, [], ◌&&◌, not, IfOk, IfSome, OnOk, position, length, Some, None, if◌then◌else◌};
ghost use Rattle.std.specs.Option.{option_map, option_map_or};
ghost use Rattle.std.specs.List.{list_all, list_any, filter_map};
ghost use Rattle.std.specs.Str.{is_utf8};
ghost use Rattle.csv.specs.Records.{fields_of};
ghost use Rattle.sdb_record.specs.Names.{same_name};
ghost use Rattle.sdb_schema.specs.Table as schema;
ghost use Rattle.sdb_data.specs.Tables as spec;

use crate::fault::{CsvFault, Mode};
use crate::field::{Head, as_text};
use crate::records::field_at;
use csv::ByteRecord;
use sdb_schema::{Column, Kind, Order, Table};
use sdb_types::{Duplicate, Name, Names, NoMemory, Seq, Txt, Value, Values};
use std::alloc::Global;

/// A column that the header names: its kind, and the place of its field, from 0.
#[derive(Clone, Copy)]
pub struct ColumnFound {
    pub kind: Kind,
    pub place: usize,
}

/// The fields of the header, where all are UTF-8.
pub fn texts_of(alloc: Global, fields: &ByteRecord) -> Result<Option<Seq<Txt>>, NoMemory>
    ensures { IfOk result (λ names. names ≡ (if list_all is_utf8 (fields_of fields.now) then Some (fields_of fields.now) else None)) }
{
    let mut names = Seq::new(alloc);
    for place in 0..fields.len() {
        match as_text(field_at(fields, place)) {
            Some(text) => names.push(Txt::new(alloc, text)?)?,
            None => return Ok(None),
        }
    }
    Ok(Some(names))
}

fn is_same(column: &Name, name: &str) -> bool
    ensures { result ≡ same_name column.now name.now }
{
    column.as_str().cmp(name).is_eq()
}

fn has_column(columns: &[Column], name: &str) -> bool
    ensures { result ≡ schema.has_column columns.now name.now }
{
    columns.iter().any(|column| is_same(&column.name, name))
}

fn find_unknown(columns: &[Column], header: &[Txt]) -> Option<usize>
    ensures { result ≡ position (λ name. not (schema.has_column columns.now name)) header.now }
{
    header
        .iter()
        .position(|name| !has_column(columns, name.as_str()))
}

fn is_text(name: &Txt, text: &str) -> bool
    ensures { result ≡ same_name name.now text.now }
{
    name.as_str().cmp(text).is_eq()
}

fn is_named(header: &[Txt], name: &str) -> bool
    ensures { result ≡ spec.is_named header.now name.now }
{
    header.iter().any(|other| is_text(other, name))
}

// The first name that comes before too. Compares each with those before it, which are columns of the table.
fn find_repeat(header: &[Txt]) -> Option<usize>
    ensures place { result ≡ spec.repeat_place [] header.now }
    ensures within { IfSome result (λ i. i < length header.now) }
{
    let mut i = 0;
    while i < header.len() {
        if is_named(&header[..i], header[i].as_str()) {
            return Some(i);
        }
        i += 1;
    }
    None
}

// The columns of the primary key.
fn key_names(alloc: Global, table: &Table) -> Result<Names, NoMemory>
    ensures { IfOk result (λ names. names ≡ schema.key_names table.now) }
{
    let mut names = table.partition.copy()?;
    for order in table.clustering.as_slice() {
        names.push(order.name.copy()?)?;
    }
    Ok(names)
}

fn find_missing(keys: &[Name], header: &[Txt]) -> Option<usize>
    ensures { result ≡ position (λ name. not (spec.is_named header.now name)) keys.now }
{
    keys.iter().position(|key| !is_named(header, key.as_str()))
}

fn is_among(names: &[Name], name: &str) -> bool
    ensures { result ≡ schema.is_among names.now name.now }
{
    names.iter().any(|other| name.cmp(other.as_str()).is_eq())
}

fn orders_by(orders: &[Order], name: &str) -> bool
    ensures { result ≡ list_any (λ o. same_name name.now o.name) orders.now }
{
    orders
        .iter()
        .any(|order| name.cmp(order.name.as_str()).is_eq())
}

fn is_key_column(table: &Table, name: &str) -> bool
    ensures { result ≡ schema.is_key_column table.now name.now }
{
    is_among(table.partition.as_slice(), name) || orders_by(table.clustering.as_slice(), name)
}

fn are_of_key(table: &Table, header: &[Txt]) -> bool
    ensures { result ≡ list_all (schema.is_key_column table.now) header.now }
{
    header
        .iter()
        .all(|name| is_key_column(table, name.as_str()))
}

fn nothing_to_set(table: &Table, mode: Mode, header: &[Txt]) -> Option<CsvFault>
    ensures { result ≡ spec.nothing_to_set table.now mode header.now }
{
    match mode {
        Mode::Update => {
            if are_of_key(table, header) {
                Some(CsvFault::MissingKey(0))
            } else {
                None
            }
        }
        Mode::Insert => None,
        Mode::Upsert => None,
    }
}

#[tactic(auto, unfolding(crate::specs::Tables::names_fault))]
fn fault_among(table: &Table, keys: &[Name], mode: Mode, header: &[Txt]) -> Option<CsvFault>
    requires { keys.now ≡ schema.key_names table.now }
    ensures { result ≡ spec.names_fault table.now mode header.now }
{
    if let Some(place) = find_unknown(table.columns.as_slice(), header) {
        return Some(CsvFault::NoColumn(place as u64 + 1));
    }
    if let Some(place) = find_repeat(header) {
        return Some(CsvFault::RepeatedColumn(place as u64 + 1));
    }
    if let Some(place) = find_missing(keys, header) {
        return Some(CsvFault::MissingKey(place as u64 + 1));
    }
    nothing_to_set(table, mode, header)
}

/// Why names make no header, if they don't.
pub fn names_fault(
    alloc: Global,
    table: &Table,
    mode: Mode,
    header: &[Txt],
) -> Result<Option<CsvFault>, NoMemory>
    ensures { IfOk result (λ found. found ≡ spec.names_fault table.now mode header.now) }
{
    let keys = key_names(alloc, table)?;
    Ok(fault_among(table, keys.as_slice(), mode, header))
}

fn kind_of(columns: &[Column], name: &str) -> Option<Kind>
    ensures { result ≡ schema.kind_in columns.now name.now }
{
    columns
        .iter()
        .find(|column| is_same(&column.name, name))
        .map(|column| column.kind)
}

fn known_kind(columns: &[Column], name: &str) -> Kind
    ensures { result ≡ option_map_or (λ k. k) (schema.kind_in columns.now name.now) Kind.Text }
{
    match kind_of(columns, name) {
        Some(kind) => kind,
        None => Kind::Text,
    }
}

fn head_of(table: &Table, name: &str) -> Head
    ensures { result ≡ spec.head_of table.now name.now }
{
    Head {
        kind: known_kind(table.columns.as_slice(), name),
        in_key: is_key_column(table, name),
    }
}

/// What the fields under each name are read as.
pub fn heads_of(alloc: Global, table: &Table, header: &[Txt]) -> Result<Seq<Head>, NoMemory>
    ensures { IfOk result (λ heads. heads ≡ spec.heads_of table.now header.now) }
{
    let mut heads = Seq::new(alloc);
    for name in header {
        heads.push(head_of(table, name.as_str()))?;
    }
    Ok(heads)
}

fn place_of(header: &[Txt], name: &str) -> Option<usize>
    ensures { result ≡ position (λ n. same_name n name.now) header.now }
{
    header.iter().position(|other| is_text(other, name))
}

fn accepted_at(header: &[Txt], column: &Column) -> Option<ColumnFound>
    ensures { result ≡ spec.column_found header.now column.now }
{
    match place_of(header, column.name.as_str()) {
        Some(place) => Some(ColumnFound {
            kind: column.kind,
            place,
        }),
        None => None,
    }
}

/// The columns that the header names, in the order of their names.
pub fn columns_found(
    alloc: Global,
    columns: &[Column],
    header: &[Txt],
) -> Result<Seq<ColumnFound>, NoMemory>
    ensures { IfOk result (λ accepted. accepted ≡ spec.columns_found columns.now header.now) }
{
    let mut accepted = Seq::new(alloc);
    for column in columns {
        if let Some(found) = accepted_at(header, column) {
            accepted.push(found)?;
        }
    }
    Ok(accepted)
}

fn named_at(alloc: Global, header: &[Txt], column: &Column) -> Result<Option<Value>, NoMemory>
    ensures { IfOk result (λ name. name ≡ spec.named_at header.now column.now) }
{
    if is_named(header, column.name.as_str()) {
        Ok(Some(Value::Text(Txt::new(alloc, column.name.as_str())?)))
    } else {
        Ok(None)
    }
}

/// Their names.
pub fn named_row(alloc: Global, columns: &[Column], header: &[Txt]) -> Result<Values, NoMemory>
    ensures { IfOk result (λ row. row ≡ spec.named_row columns.now header.now) }
{
    let mut row = Values::new(alloc);
    for column in columns {
        if let Some(name) = named_at(alloc, header, column)? {
            row.push(name)?;
        }
    }
    Ok(row)
}
