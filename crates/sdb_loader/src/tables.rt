//! The tables that a schema names, and the first fault among them.
ghost use Rattle.std.specs.Prelude.{◌≡◌, ◌∷◌, [], IfOk, IfErr, OnOk, IfSome, map, true, None, Some, Ok, string_cmp};
ghost use Rattle.std.specs.BTreeMap.{IsOrdered};
ghost use Rattle.std.specs.Option.{option_map, option_copied};
ghost use Rattle.std.specs.List.{list_all};
ghost use Rattle.serde_json.specs.View.{view, members_view};
ghost use Rattle.sdb_record.specs.Parts.{is_column_name};
ghost use Rattle.sdb_schema.specs.Table.{checked_table, is_table, Refuses};
ghost use Rattle.sdb_loader.specs.Described.{Faults, bad_name, named, table_of, untransactional, bad_field, unknown_type, bad_table, first_given, described_members, described_tables, within_limit};
ghost use Rattle.sdb_loader.specs.NamedData.{named_data, IsRefusedAs};

use crate::fault::SchemaFault;
use crate::fields::{bad_member, is_untransactional, unknown_column};
use crate::parts::{columns_in, names_at, orders_at};
use crate::words::{known_name, table_named};
use sdb_schema::{Table, TableRefused};
use sdb_types::{Duplicate, NoMemory, Seq, TableName, Txt};
use serde_json::{Map, Value};
use std::alloc::Global;

/// A table that a schema names, with its value.
#[derive(Drop)]
pub struct Named<'a> {
    pub name: TableName,
    pub value: &'a Value,
}

/// The tables that the members of a schema name, in the order of their names, or the first member whose name is no table's.
#[tactic(auto, unfolding(crate::specs::Described::described_members))]
pub fn named_tables(
    alloc: Global,
    members: &Map<String, Value>,
) -> Result<Seq<Named<'_>>, SchemaFault>
    ensures named { IfOk result (λ ts. map named_data ts ≡ named (members_view members.now.entries)) }
    ensures good { OnOk result (bad_name (members_view members.now.entries) ≡ None) }
    ensures ordered { OnOk result (IsOrdered string_cmp members.now) }
    ensures fault { IfErr result (Faults (described_members (members_view members.now.entries))) }
{
    let mut tables = Seq::new(alloc);
    for (text, value) in members {
        match table_named(alloc, text.as_str())? {
            Some(name) => tables.push(Named { name, value })?,
            None => return Err(SchemaFault::BadTableName(Txt::new(alloc, text.as_str())?)),
        }
    }
    Ok(tables)
}

fn find_untransactional<'a>(tables: &'a [Named<'_>]) -> Option<&'a TableName>
    ensures { option_copied result ≡ first_given untransactional (map named_data tables.now) }
{
    for table in tables {
        if is_untransactional(table.value) {
            return Some(&table.name);
        }
    }
    None
}

fn find_bad_field<'a>(tables: &'a [Named<'_>]) -> Option<(&'a TableName, &'static str)>
    ensures { option_map (λ f. (f.0.now, f.1.now)) result ≡ first_given bad_field (map named_data tables.now) }
{
    for table in tables {
        if let Some(member) = bad_member(table.value) {
            return Some((&table.name, member));
        }
    }
    None
}

fn find_unknown_type<'a>(tables: &'a [Named<'_>]) -> Option<(&'a TableName, &'a str)>
    ensures column { option_map (λ f. (f.0.now, f.1.now)) result ≡ first_given unknown_type (map named_data tables.now) }
    ensures named { IfSome result (λ f. is_column_name f.1.now ≡ true) }
{
    for table in tables {
        if let Some(column) = unknown_column(table.value) {
            return Some((&table.name, column));
        }
    }
    None
}

// The table that a value describes.
fn made(alloc: Global, table: &Named<'_>) -> Result<Table, TableRefused>
    ensures ok { IfOk result (λ t. t ≡ table_of (named_data table.now)) }
    ensures table { IfOk result (λ t. is_table t ≡ true) }
    ensures refused { IfErr result (Refuses (checked_table (table_of (named_data table.now)))) }
{
    let name = table.name.copy()?;
    let columns = columns_in(alloc, table.value)?;
    let partition = names_at(alloc, table.value, "partition-key")?;
    let clustering = orders_at(alloc, table.value, "clustering-key")?;
    let indexed = names_at(alloc, table.value, "secondary-index")?;
    Table::new(alloc, name, columns, partition, clustering, indexed)
}

// The same, with its refusal as a fault of the schema.
fn table_made(alloc: Global, table: &Named<'_>) -> Result<Table, SchemaFault>
    ensures ok { IfOk result (λ t. t ≡ table_of (named_data table.now)) }
    ensures table { IfOk result (λ t. is_table t ≡ true) }
    ensures good { OnOk result (bad_table (named_data table.now) ≡ None) }
    ensures refused { IfErr result (IsRefusedAs (bad_table (named_data table.now))) }
{
    match made(alloc, table) {
        Ok(made) => Ok(made),
        Err(TableRefused::NoMemory) => Err(SchemaFault::NoMemory),
        Err(refused) => Err(SchemaFault::BadTable(table.name.copy()?, refused)),
    }
}

fn all_made(alloc: Global, tables: &[Named<'_>]) -> Result<Seq<Table>, SchemaFault>
    ensures made { IfOk result (λ ts. ts ≡ map table_of (map named_data tables.now)) }
    ensures tables { IfOk result (λ ts. list_all is_table ts ≡ true) }
    ensures good { OnOk result (first_given bad_table (map named_data tables.now) ≡ None) }
    ensures refused { IfErr result (IsRefusedAs (first_given bad_table (map named_data tables.now))) }
{
    let mut made = Seq::new(alloc);
    for table in tables {
        made.push(table_made(alloc, table)?)?;
    }
    Ok(made)
}

// The fault of the first table that is refused before tables are made of the values.
#[tactic(auto, unfolding(crate::specs::Described::described_tables))]
fn fault_before(alloc: Global, tables: &[Named<'_>]) -> Result<(), SchemaFault>
    ensures transactional { OnOk result (first_given untransactional (map named_data tables.now) ≡ None) }
    ensures fields { OnOk result (first_given bad_field (map named_data tables.now) ≡ None) }
    ensures types { OnOk result (first_given unknown_type (map named_data tables.now) ≡ None) }
    ensures fault { IfErr result (Faults (described_tables (map named_data tables.now))) }
{
    if let Some(name) = find_untransactional(tables) {
        return Err(SchemaFault::NonTransactional(name.copy()?));
    }
    if let Some((name, member)) = find_bad_field(tables) {
        return Err(SchemaFault::BadField(name.copy()?, Txt::new(alloc, member)?));
    }
    if let Some((name, column)) = find_unknown_type(tables) {
        return Err(SchemaFault::UnknownType(name.copy()?, known_name(alloc, column)?));
    }
    Ok(())
}

/// The tables that the values describe, or the first fault.
#[tactic(auto, unfolding(crate::specs::Described::described_tables))]
pub fn tables_of(alloc: Global, tables: &[Named<'_>]) -> Result<Seq<Table>, SchemaFault>
    ensures made { IfOk result (λ ts. ts ≡ map table_of (map named_data tables.now)) }
    ensures tables { IfOk result (λ ts. list_all is_table ts ≡ true) }
    ensures good { IfOk result (λ ts. described_tables (map named_data tables.now) ≡ within_limit ts) }
    ensures fault { IfErr result (Faults (described_tables (map named_data tables.now))) }
{
    fault_before(alloc, tables)?;
    all_made(alloc, tables)
}

/// The table that a value describes under a name, or its first fault.
#[tactic(auto, unfolding(crate::specs::Described::described_tables))]
pub fn table_in(alloc: Global, name: TableName, value: &Value) -> Result<Table, SchemaFault>
    ensures ok { IfOk result (λ t. described_tables ((name, view value.now) ∷ []) ≡ Ok (t ∷ [])) }
    ensures table { IfOk result (λ t. is_table t ≡ true) }
    ensures named { IfOk result (λ t. t.name ≡ name) }
    ensures fault { IfErr result (Faults (described_tables ((name, view value.now) ∷ []))) }
{
    let named = [Named { name, value }];
    fault_before(alloc, &named)?;
    table_made(alloc, &named[0])
}
