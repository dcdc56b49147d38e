//! The rows of the catalog, as they are made.
ghost use Rattle.std.specs.Prelude.{◌≡◌, ◌∷◌, [], true, IfOk, OnOk, string_bytes};
ghost use Rattle.sdb_types.specs.Order.{table_text as table_text_lem};
ghost use Rattle.sdb_schema.specs.Table.{rises};
ghost use Rattle.sdb_catalog.specs.Rows.{coordinators as coordinators_lem, metadata_columns_of, metadata_key_of, metadata_table as metadata_table_lem, row_of as row_of_lem, with_texts};

use crate::definition::definition_text;
use crate::entry::Entry;
use sdb_loader::known_name;
use sdb_record::coordinator_table;
use sdb_schema::{Column, Kind, Table};
use sdb_types::{
    Columns, Key, Known, Name, NoMemory, Record, Seq, TableName, TxId, Txt, Value, Values,
};
use std::alloc::Global;

/// The table of the catalog's rows.
pub fn metadata_table(alloc: Global) -> Result<TableName, NoMemory>
    ensures { IfOk result (λ t. t ≡ metadata_table_lem) }
{
    Ok(TableName {
        ns: known_name(alloc, "scalardb")?,
        table: known_name(alloc, "metadata")?,
    })
}

/// A table's name as `ns.table`.
pub fn table_text(alloc: Global, table: &TableName) -> Result<String, NoMemory>
    ensures { IfOk result (λ text. string_bytes text ≡ table_text_lem table.now) }
{
    let mut text = String::from_str(alloc, table.ns.as_str())?;
    text.push_str(".")?;
    text.push_str(table.table.as_str())?;
    Ok(text)
}

// The key of a table's row.
#[tactic(auto, unfolding(crate::specs::Rows::metadata_key_of))]
fn metadata_key(alloc: Global, table: &TableName) -> Result<Key, NoMemory>
    ensures { IfOk result (λ key. key ≡ metadata_key_of table.now) }
{
    let text = table_text(alloc, table)?;
    let mut partition = Values::new(alloc);
    partition.push(Value::Text(Txt::new(alloc, text.as_str())?))?;
    Ok(Key {
        table: metadata_table(alloc)?,
        partition,
        clustering: Values::new(alloc),
    })
}

// Sets what a table's row says of the table and of its store.
fn set_texts(
    alloc: Global,
    columns: &mut Columns,
    definition: Txt,
    store: &Name,
) -> Result<(), NoMemory>
    ensures { OnOk result (columns.new ≡ with_texts definition store.now columns.old) }
{
    columns.set(known_name(alloc, "definition")?, Value::Text(definition))?;
    let store = Value::Text(Txt::new(alloc, store.as_str())?);
    columns.set(known_name(alloc, "store")?, store)
}

// The columns of a table's row.
fn metadata_columns(
    alloc: Global,
    definition: Txt,
    store: &Name,
    revision: TxId,
) -> Result<Columns, NoMemory>
    ensures { IfOk result (λ columns. columns ≡ metadata_columns_of definition store.now revision) }
{
    let mut columns = Columns::new(alloc);
    set_texts(alloc, &mut columns, definition, store)?;
    let revision = Value::Text(revision.text(alloc)?);
    columns.set(Name::known(Known::TxId), revision)?;
    columns.set(Name::known(Known::TxState), Value::Int(3))?;
    Ok(columns)
}

/// The row that says this of a table, whose columns are in the order of their names.
#[tactic(auto, unfolding(crate::specs::Rows::row_of))]
pub fn row_of(alloc: Global, entry: &Entry) -> Result<Record, NoMemory>
    requires { rises entry.now.table.columns ≡ true }
    ensures { IfOk result (λ row. row ≡ row_of_lem entry.now) }
{
    let definition = definition_text(alloc, &entry.table)?;
    let columns = metadata_columns(alloc, definition, &entry.store, entry.revision)?;
    Ok(Record {
        key: metadata_key(alloc, &entry.table.name)?,
        columns,
    })
}

// The columns of the coordinator's rows.
#[tactic(auto, unfolding(crate::specs::Rows::coordinators))]
fn coordinator_columns(alloc: Global) -> Result<Seq<Column>, NoMemory>
    ensures { IfOk result (λ columns. columns ≡ coordinators_lem.columns) }
{
    let mut columns = Seq::new(alloc);
    columns.push(Column {
        name: Name::known(Known::TxCreatedAt),
        kind: Kind::BigInt,
    })?;
    columns.push(Column {
        name: Name::known(Known::TxId),
        kind: Kind::Text,
    })?;
    columns.push(Column {
        name: Name::known(Known::TxState),
        kind: Kind::Int,
    })?;
    Ok(columns)
}

/// The coordinator's table, as its row describes it. No statement names it, so its columns have names that other tables may not use.
#[tactic(auto, unfolding(crate::specs::Rows::coordinators))]
pub fn coordinators(alloc: Global) -> Result<Table, NoMemory>
    ensures { IfOk result (λ t. t ≡ coordinators_lem) }
{
    let columns = coordinator_columns(alloc)?;
    let mut partition = Seq::new(alloc);
    partition.push(Name::known(Known::TxId))?;
    Ok(Table {
        name: coordinator_table(),
        columns,
        partition,
        clustering: Seq::new(alloc),
        indexed: Seq::new(alloc),
    })
}
