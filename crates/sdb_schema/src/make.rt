//! Tables made of columns and keys.
ghost use Rattle.std.specs.Prelude.{◌≡◌, ◌∷◌, [], ◌++◌, ◌≤◌, true, not, length, drop, find, map, IfOk, IfErr, OnOk, OnErr, take_while, Ok, Err, Some, None};
ghost use Rattle.std.specs.Option.{option_copied, option_map};
ghost use Rattle.std.specs.List.{list_all};
ghost use Rattle.std.specs.Ordering.{is_lt};
ghost use Rattle.sdb_types.specs.Order.{name_cmp};
ghost use Rattle.sdb_types.specs.Identifier.{is_name};
ghost use Rattle.sdb_schema.specs.declared.make.TableRefused.TheVariants.{NoMemory as OutOfMemory};
ghost use Rattle.sdb_schema.specs.Table.{has_column, put_column, put_columns, in_order, rises, is_above_column, first_unknown, first_listed_twice, first_repeated, first_reserved, limit_passed, checked_table, is_table, column_names, key_names, order_names, is_among, next_repeats, Refuses};

use crate::table::{Column, ColumnList, Order, Orders, Table};
use sdb_record::is_user_name;
use sdb_types::{Duplicate, Name, Names, NoMemory, Seq, TableName};
use std::alloc::Global;
use thiserror::Error;

/// Why columns and keys make no table.
#[derive(Debug, Drop, Error)]
pub enum TableRefused {
    #[error("no partition key")]
    NoPartitionKey,
    /// A column of the key or of an index that isn't listed: the first of the partition, the clustering and the indexed
    /// columns.
    #[error("unknown column")]
    UnknownColumn(Name),
    /// A column that is listed twice, or twice in the primary key.
    #[error("repeated column")]
    RepeatedColumn(Name),
    #[error("reserved name")]
    ReservedName(Name),
    /// More than 64 columns, 8 partition columns or 8 clustering columns.
    #[error("too many columns")]
    TooMany(u64),
    #[error("out of memory")]
    NoMemory,
}

impl From<NoMemory> for TableRefused {
    ghost from_gives = { λ _ e. e ≡ OutOfMemory };

    fn from(_e: NoMemory) -> TableRefused {
        TableRefused::NoMemory
    }
}

/// Whether a table lists a column.
pub fn lists(columns: &[Column], name: &Name) -> bool
    ensures { result ≡ has_column columns.now name.now }
{
    columns.iter().any(|column| column.name.is_same(name))
}

// The first name that is no column's.
fn find_unknown<'a>(columns: &[Column], names: &'a [Name]) -> Option<&'a Name>
    ensures { option_copied result ≡ first_unknown columns.now names.now }
{
    names.iter().find(|name| !lists(columns, name))
}

fn find_reserved(columns: &[Column]) -> Option<&Name>
    ensures { option_copied result ≡ first_reserved columns.now }
{
    columns
        .iter()
        .find(|column| !is_user_name(column.name.as_str()))
        .map(|column| &column.name)
}

fn is_below(first: &Column, second: &Column) -> bool
    ensures { result ≡ is_lt (name_cmp first.now.name second.now.name) }
{
    first.name.as_str().cmp(second.name.as_str()).is_lt()
}

fn is_below_next(column: &Column, others: &[Column]) -> bool
    ensures { result ≡ is_above_column column.now.name others.now }
{
    match others.first() {
        Some(next) => is_below(column, next),
        None => true,
    }
}

fn is_next(column: &Column, others: &[Column]) -> bool
    ensures { result ≡ next_repeats column.now.name others.now }
{
    match others.first() {
        Some(next) => column.name.is_same(&next.name),
        None => false,
    }
}

fn names_rise(columns: &[Column]) -> bool
    ensures { result ≡ rises columns.now }
{
    let mut rest = columns;
    while let Some((column, others)) = rest.split_first() {
        if !is_below_next(column, others) {
            return false;
        }
        rest = others;
    }
    true
}

fn find_listed_twice(columns: &[Column]) -> Option<&Name>
    ensures { option_copied result ≡ first_listed_twice columns.now }
{
    let mut rest = columns;
    while let Some((column, others)) = rest.split_first() {
        if is_next(column, others) {
            return Some(&column.name);
        }
        rest = others;
    }
    None
}

/// Whether a name is among these.
pub fn is_listed(names: &[Name], name: &Name) -> bool
    ensures { result ≡ is_among names.now name.now }
{
    names.iter().any(|other| name.is_same(other))
}

// The first name that comes before too.
fn find_repeated(names: &[Name]) -> Option<&Name>
    ensures { option_copied result ≡ first_repeated [] names.now }
{
    for (i, name) in names.iter().enumerate() {
        if is_listed(&names[..i], name) {
            return Some(name);
        }
    }
    None
}

fn place_of(columns: &[Column], column: &Column) -> usize
    ensures { result ≡ length (take_while (λ c. is_lt (name_cmp c.name column.now.name)) columns.now) }
{
    columns
        .iter()
        .take_while(|other| is_below(other, column))
        .count()
}

/// Puts a column in its place.
pub fn put(columns: &mut ColumnList, column: Column) -> Result<(), NoMemory>
    ensures ok { OnOk result (columns.new ≡ put_column column columns.old) }
    ensures err { OnErr result (columns.new ≡ columns.old) }
{
    let place = place_of(columns.as_slice(), &column);
    columns.insert(place, column)
}

fn put_all(columns: &mut ColumnList, others: &[Column]) -> Result<(), NoMemory>
    ensures { OnOk result (columns.new ≡ put_columns others.now columns.old) }
{
    for column in others {
        put(columns, column.copy()?)?;
    }
    Ok(())
}

// Columns in the order of their names, as they mostly come.
fn ordered(alloc: Global, columns: ColumnList) -> Result<ColumnList, NoMemory>
    ensures { IfOk result (λ cs. cs ≡ in_order columns) }
{
    if names_rise(columns.as_slice()) {
        return Ok(columns);
    }
    let mut list = Seq::new(alloc);
    put_all(&mut list, columns.as_slice())?;
    Ok(list)
}

fn add_orders(names: &mut Names, orders: &[Order]) -> Result<(), NoMemory>
    ensures { OnOk result (names.new ≡ names.old ++ order_names orders.now) }
{
    for order in orders {
        names.push(order.name.copy()?)?;
    }
    Ok(())
}

// The columns of the primary key.
fn names_in_key(table: &Table) -> Result<Names, NoMemory>
    ensures { IfOk result (λ names. names ≡ key_names table.now) }
{
    let mut names = table.partition.copy()?;
    add_orders(&mut names, table.clustering.as_slice())?;
    Ok(names)
}

fn limit_of(table: &Table) -> Option<u64>
    ensures { result ≡ limit_passed table.now }
{
    if table.columns.len() > 64 {
        return Some(64);
    }
    if table.partition.len() > 8 || table.clustering.len() > 8 {
        return Some(8);
    }
    None
}

// The table, or the first refusal.
#[tactic(auto, unfolding(crate::specs::Table::checked_table))]
fn check(table: &Table) -> Result<(), TableRefused>
    ensures ok { OnOk result (checked_table table.now ≡ Ok table.now) }
    ensures refused { IfErr result (Refuses (checked_table table.now)) }
{
    if table.partition.len() == 0 {
        return Err(TableRefused::NoPartitionKey);
    }
    let columns = table.columns.as_slice();
    let keys = names_in_key(table)?;
    if let Some(name) = find_unknown(columns, keys.as_slice()) {
        return Err(TableRefused::UnknownColumn(name.copy()?));
    }
    if let Some(name) = find_unknown(columns, table.indexed.as_slice()) {
        return Err(TableRefused::UnknownColumn(name.copy()?));
    }
    if let Some(name) = find_listed_twice(columns) {
        return Err(TableRefused::RepeatedColumn(name.copy()?));
    }
    if let Some(name) = find_repeated(keys.as_slice()) {
        return Err(TableRefused::RepeatedColumn(name.copy()?));
    }
    if let Some(name) = find_reserved(columns) {
        return Err(TableRefused::ReservedName(name.copy()?));
    }
    if let Some(limit) = limit_of(table) {
        return Err(TableRefused::TooMany(limit));
    }
    Ok(())
}

// Each column's name is an identifier.
fn are_identifiers(columns: &[Column])
    ensures { list_all (λ c. is_name c.name) columns.now ≡ true }
{
    for column in columns {
        let _text = column.name.as_str();
    }
}

impl Table {
    ghost use Rattle.std.specs.Prelude.{◌≡◌, true, IfOk, IfErr, Ok};
    ghost use Rattle.sdb_schema.specs.Table.{in_order, are_short, checked_table, is_table, Refuses};

    /// The table of these columns, which may come in any order, and keys. Its condition is that the names of the columns
    /// have at most 64 bytes.
    pub fn new(
        alloc: Global,
        name: TableName,
        columns: ColumnList,
        partition: Names,
        clustering: Orders,
        indexed: Names,
    ) -> Result<Table, TableRefused>
        requires { are_short columns ≡ true }
        ensures ok { IfOk result (λ t. t ≡ record { name = name; columns = in_order columns; partition = partition; clustering = clustering; indexed = indexed }) }
        ensures table { IfOk result (λ t. is_table t ≡ true) }
        ensures refused { IfErr result (Refuses (checked_table (record { name = name; columns = in_order columns; partition = partition; clustering = clustering; indexed = indexed }))) }
    {
        are_identifiers(columns.as_slice());
        let table = Table {
            name,
            columns: ordered(alloc, columns)?,
            partition,
            clustering,
            indexed,
        };
        check(&table)?;
        Ok(table)
    }
}
