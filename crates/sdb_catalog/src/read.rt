//! What a record says as a row of the catalog.
ghost use Rattle.std.specs.Prelude.{◌≡◌, ◌≢◌, ◌↔◌, Some, Err, OnOk, IfOk, IfSome, IsTrue, true, find};
ghost use Rattle.std.specs.Option.{option_map, option_copied};
ghost use Rattle.std.specs.Result.{result_ok};
ghost use Rattle.std.specs.Str.{bytes_eq};
ghost use Rattle.sdb_types.specs.Columns.{column, is_named as is_named_lem};
ghost use Rattle.sdb_types.specs.Order.{table_text};
ghost use Rattle.sdb_schema.specs.declared.table.Table.{Table};
ghost use Rattle.sdb_schema.specs.Table.{rises};
ghost use Rattle.sdb_catalog.specs.declared.entry.Entry.{Entry};
ghost use Rattle.sdb_catalog.specs.Definition.{definition_text};
ghost use Rattle.sdb_catalog.specs.Opened.{IsEntry};
ghost use Rattle.sdb_catalog.specs.Rows.{MayHaveRow, only_text as only_text_lem, row_of as row_of_lem, text_at as text_at_lem, texts_of as texts_of_lem};
ghost use Rattle.sdb_catalog.specs.Borrowed.{names_of_borrowed};

use crate::entry::Entry;
use crate::rows::{coordinators, row_of};
use sdb_loader::{SchemaFault, table_named, table_of};
use sdb_schema::Table;
use sdb_types::{Duplicate, Name, NoMemory, Pair, Record, TxId, Txt, Value, same};
use std::alloc::Global;

/// The texts of a row.
#[derive(Clone, Copy)]
pub struct Texts<'a> {
    pub name: &'a Txt,
    pub definition: &'a Txt,
    pub store: &'a Txt,
    pub revision: &'a Txt,
}

// The text that is the only value.
fn only_text(values: &[Value]) -> Option<&Txt>
    ensures { option_map (λ t. t.now) result ≡ only_text_lem values.now }
{
    match values {
        [Value::Text(text)] => Some(text),
        _ => None,
    }
}

#[tactic(auto, using(sdb_types::proofs::Public::equal_texts))]
fn is_named(pair: &Pair, name: &str) -> bool
    ensures { result ≡ is_named_lem name.now pair.now }
{
    pair.name.as_str() == name
}

fn value_at<'a>(pairs: &'a [Pair], name: &str) -> Option<&'a Value>
    ensures { option_copied result ≡ column pairs.now name.now }
{
    pairs
        .iter()
        .find(|pair| is_named(pair, name))
        .map(|pair| &pair.value)
}

/// The text in a column.
pub fn text_at<'a>(row: &'a Record, name: &str) -> Option<&'a Txt>
    ensures { option_map (λ t. t.now) result ≡ text_at_lem name.now row.now }
{
    match value_at(row.columns.pairs(), name) {
        Some(Value::Text(text)) => Some(text),
        _ => None,
    }
}

// The texts of a record that has one text as its partition, and texts in the three columns.
#[tactic(auto, unfolding(crate::specs::Rows::texts_of))]
fn texts_of(row: &Record) -> Option<Texts<'_>>
    ensures { option_map names_of_borrowed result ≡ texts_of_lem row.now }
{
    Some(Texts {
        name: only_text(row.key.partition.as_slice())?,
        definition: text_at(row, "definition")?,
        store: text_at(row, "store")?,
        revision: text_at(row, "tx_id")?,
    })
}

// The table that was read, or none where its definition is at fault.
fn table_found(read: Result<Table, SchemaFault>) -> Result<Option<Table>, NoMemory>
    ensures found { IfOk result (λ found. found ≡ result_ok read) }
    ensures memory { OnOk result (read ≢ Err SchemaFault.NoMemory) }
{
    match read {
        Ok(table) => Ok(Some(table)),
        Err(SchemaFault::NoMemory) => Err(NoMemory),
        Err(_fault) => Ok(None),
    }
}

// The table that may have a row of this name with this definition.
fn table_in(alloc: Global, name: &str, definition: &str) -> Result<Option<Table>, NoMemory>
    ensures kept { IfOk result (λ found. IfSome found MayHaveRow) }
    ensures read { IfOk result (λ found. (t : Table) → MayHaveRow t → table_text t.name ≡ name.now → definition_text t ≡ definition.now → found ≡ Some t) }
{
    if name == "coordinator.state" {
        return Ok(Some(coordinators(alloc)?));
    }
    let Some(name) = table_named(alloc, name)? else {
        return Ok(None);
    };
    table_found(table_of(alloc, name, definition))
}

// The store of that name.
fn store_named<'a>(names: &'a [Name], text: &str) -> Option<&'a Name>
    ensures { option_copied result ≡ find (λ n. bytes_eq n text.now) names.now }
{
    names.iter().find(|name| name.as_str() == text)
}

// The entry of the row that a record may be.
fn candidate(alloc: Global, names: &[Name], row: &Record) -> Result<Option<Entry>, NoMemory>
    ensures entry { IfOk result (λ found. IfSome found (λ e. IsEntry names.now e)) }
    ensures read { IfOk result (λ found. (e : Entry) → IsEntry names.now e → row_of_lem e ≡ row.now → found ≡ Some e) }
{
    let Some(texts) = texts_of(row) else {
        return Ok(None);
    };
    let Some(revision) = TxId::from_text(texts.revision) else {
        return Ok(None);
    };
    let Some(store) = store_named(names, texts.store.as_str()) else {
        return Ok(None);
    };
    let store = store.copy()?;
    match table_in(alloc, texts.name.as_str(), texts.definition.as_str())? {
        Some(table) => Ok(Some(Entry {
            table,
            store,
            revision,
        })),
        None => Ok(None),
    }
}

// Whether a record is the row of an entry.
fn is_row_of(alloc: Global, entry: &Entry, row: &Record) -> Result<bool, NoMemory>
    requires { rises entry.now.table.columns ≡ true }
    ensures { IfOk result (λ b. IsTrue b ↔ (row_of_lem entry.now ≡ row.now)) }
{
    let own = row_of(alloc, entry)?;
    Ok(same(&own, row))
}

/// The entry whose row a record is, in the catalog of these stores. No record is the row of two.
pub fn entry_of(alloc: Global, names: &[Name], row: &Record) -> Result<Option<Entry>, NoMemory>
    ensures entry { IfOk result (λ found. IfSome found (λ e. IsEntry names.now e)) }
    ensures row { IfOk result (λ found. IfSome found (λ e. row_of_lem e ≡ row.now)) }
    ensures read { IfOk result (λ found. (e : Entry) → IsEntry names.now e → row_of_lem e ≡ row.now → found ≡ Some e) }
{
    let Some(entry) = candidate(alloc, names, row)? else {
        return Ok(None);
    };
    if is_row_of(alloc, &entry, row)? {
        Ok(Some(entry))
    } else {
        Ok(None)
    }
}
