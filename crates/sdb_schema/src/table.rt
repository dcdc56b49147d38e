//! Tables.
ghost use Rattle.std.specs.Prelude.{◌≡◌, IfOk};

use sdb_types::{Duplicate, Name, Names, NoMemory, Seq, TableName};

/// What a column's values are.
#[derive(Clone, Copy, Debug, PartialEq, Eq)]
pub enum Kind {
    Boolean,
    Int,
    BigInt,
    Text,
    Blob,
}

impl Kind {
    ghost use Rattle.std.specs.Prelude.{◌≡◌};
    ghost use Rattle.sdb_schema.specs.Kinds.{kind_text};

    /// The word of the kind, in upper case. Takes no memory.
    pub fn as_str(self) -> &'static str
        ensures { result.now ≡ kind_text self }
    {
        match self {
            Kind::Boolean => "BOOLEAN",
            Kind::Int => "INT",
            Kind::BigInt => "BIGINT",
            Kind::Text => "TEXT",
            Kind::Blob => "BLOB",
        }
    }
}

/// Which way a clustering column is ordered.
#[derive(Clone, Copy, Debug, PartialEq, Eq)]
pub enum Direction {
    Asc,
    Desc,
}

#[derive(Debug, PartialEq, Eq)]
pub struct Column {
    pub name: Name,
    pub kind: Kind,
}

// By hand: each drop is then one call, where a derived one is written out at each exit, with a call for each field.
impl Drop for Column {
    fn drop(self) {
        let Column { name: _, kind: _ } = self;
    }
}

/// A clustering column.
#[derive(Debug, PartialEq, Eq)]
pub struct Order {
    pub name: Name,
    pub direction: Direction,
}

// By hand: each drop is then one call, where a derived one is written out at each exit, with a call for each field.
impl Drop for Order {
    fn drop(self) {
        let Order {
            name: _,
            direction: _,
        } = self;
    }
}

pub type ColumnList = Seq<Column>;

pub type Orders = Seq<Order>;

/// A table: its columns in the order of their names, its primary key (the partition columns, then the clustering
/// columns), and the columns that are indexed.
#[derive(Debug, PartialEq, Eq)]
pub struct Table {
    pub name: TableName,
    pub columns: ColumnList,
    pub partition: Names,
    pub clustering: Orders,
    pub indexed: Names,
}

// By hand: each drop is then one call, where a derived one is written out at each exit, with a call for each field.
impl Drop for Table {
    fn drop(self) {
        let Table {
            name: _,
            columns: _,
            partition: _,
            clustering: _,
            indexed: _,
        } = self;
    }
}

impl Duplicate for Column {
    fn copy(&self) -> Result<Column, NoMemory> {
        Ok(Column {
            name: self.name.copy()?,
            kind: self.kind,
        })
    }
}

impl Duplicate for Order {
    fn copy(&self) -> Result<Order, NoMemory> {
        Ok(Order {
            name: self.name.copy()?,
            direction: self.direction,
        })
    }
}

impl Duplicate for Table {
    fn copy(&self) -> Result<Table, NoMemory> {
        Ok(Table {
            name: self.name.copy()?,
            columns: self.columns.copy()?,
            partition: self.partition.copy()?,
            clustering: self.clustering.copy()?,
            indexed: self.indexed.copy()?,
        })
    }
}
