//! Catalogs read from the JSON of a schema.
ghost use Rattle.std.specs.Prelude.{◌≡◌, ◌<◌, [], ◌∷◌, ◌++◌, OnOk, IfOk, IfErr, length, true, Some, Ok, Err};
ghost use Rattle.std.specs.List.{list_all};
ghost use Rattle.serde_json.specs.View.{view, members_view};
ghost use Rattle.sdb_schema.specs.Table.{is_table};
ghost use Rattle.sdb_schema.specs.Catalog.{rises};
ghost use Rattle.serde_json.specs.Read.{read};
ghost use Rattle.sdb_loader.specs.Described.{Faults, catalog_in, json_of, described_members, described_table, within_limit};

use crate::fault::SchemaFault;
use crate::tables::{named_tables, table_in, tables_of};
use sdb_schema::{AddRefused, Catalog, Table};
use sdb_types::{Seq, TableName};
use serde_json::{Map, Value};
use std::alloc::Global;

// The value of a text.
fn value_of(alloc: Global, json: &[u8]) -> Result<Value, SchemaFault>
    ensures ok { IfOk result (λ v. json_of json.now ≡ Some (view v)) }
    ensures fault { IfErr result (Faults (catalog_in json.now)) }
{
    match Value::from_slice(alloc, json) {
        Ok(value) => Ok(value),
        Err(error) => {
            if error.is_memory() {
                Err(SchemaFault::NoMemory)
            } else {
                Err(SchemaFault::NotJson)
            }
        }
    }
}

// Adds a table whose name is above the names of the catalog.
fn put(catalog: &mut Catalog, table: Table) -> Result<(), SchemaFault>
    requires table { is_table table ≡ true }
    requires room { length catalog.old < 64 }
    requires above { rises (catalog.old ++ table ∷ []) ≡ true }
    ensures ok { OnOk result (catalog.new ≡ catalog.old ++ table ∷ []) }
    ensures memory { IfErr result (λ f. f ≡ SchemaFault.NoMemory) }
{
    match catalog.add(table) {
        Ok(()) => Ok(()),
        Err(AddRefused::NoMemory) => Err(SchemaFault::NoMemory),
        Err(AddRefused::Known) => unreachable!(),
        Err(AddRefused::TooMany) => unreachable!(),
    }
}

/// The catalog of tables whose names rise, or too many tables.
pub fn catalog_with(alloc: Global, tables: Seq<Table>) -> Result<Catalog, SchemaFault>
    requires tables { list_all is_table tables ≡ true }
    requires rise { rises tables ≡ true }
    ensures ok { IfOk result (λ c. within_limit tables ≡ Ok c) }
    ensures fault { IfErr result (Faults (within_limit tables)) }
{
    if tables.len() > 64 {
        return Err(SchemaFault::TooManyTables);
    }
    let mut catalog = Catalog::new(alloc);
    for table in tables.into_vec() {
        put(&mut catalog, table)?;
    }
    Ok(catalog)
}

// The catalog that the members of a schema describe.
#[tactic(auto, unfolding(crate::specs::Described::described_members))]
fn catalog_among(alloc: Global, members: &Map<String, Value>) -> Result<Catalog, SchemaFault>
    ensures ok { IfOk result (λ c. described_members (members_view members.now.entries) ≡ Ok c) }
    ensures fault { IfErr result (Faults (described_members (members_view members.now.entries))) }
{
    let named = named_tables(alloc, members)?;
    let tables = tables_of(alloc, named.as_slice())?;
    catalog_with(alloc, tables)
}

/// The catalog that the JSON of a schema describes: an object from `"ns.table"` to a table's value, each an object.
///
/// Its members are `partition-key`, an array of names of columns; `columns`, an object from names to kinds (BOOLEAN, INT,
/// BIGINT, TEXT, BLOB, in any case); and, where they are there, `clustering-key`, an array of `"c"`, `"c ASC"` or `"c DESC"`;
/// `secondary-index`, an array of names of columns; and `transaction`, true. Further members have no effect. Of members given
/// twice the last counts.
pub fn catalog_of(alloc: Global, json: &[u8]) -> Result<Catalog, SchemaFault>
    ensures ok { IfOk result (λ c. catalog_in json.now ≡ Ok c) }
    ensures fault { IfErr result (Faults (catalog_in json.now)) }
{
    let value = value_of(alloc, json)?;
    match value.as_object() {
        Some(members) => catalog_among(alloc, members),
        None => Err(SchemaFault::NotAnObject),
    }
}

// The value of a text.
fn value_in(alloc: Global, name: &TableName, json: &str) -> Result<Value, SchemaFault>
    ensures ok { IfOk result (λ v. read json.now ≡ Some (view v)) }
    ensures fault { IfErr result (Faults (described_table name.now json.now)) }
{
    match Value::from_str(alloc, json) {
        Ok(value) => Ok(value),
        Err(error) => {
            if error.is_memory() {
                Err(SchemaFault::NoMemory)
            } else {
                Err(SchemaFault::NotJson)
            }
        }
    }
}

/// The table that the JSON of its definition describes under a name: a table's value in a schema, as `catalog_of` reads it.
pub fn table_of(alloc: Global, name: TableName, json: &str) -> Result<Table, SchemaFault>
    ensures ok { IfOk result (λ t. described_table name json.now ≡ Ok (t ∷ [])) }
    ensures table { IfOk result (λ t. is_table t ≡ true) }
    ensures named { IfOk result (λ t. t.name ≡ name) }
    ensures fault { IfErr result (Faults (described_table name json.now)) }
{
    let value = value_in(alloc, &name, json)?;
    table_in(alloc, name, &value)
}
