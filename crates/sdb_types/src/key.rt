//! Names of tables, and keys of records.
ghost use Rattle.std.specs.Prelude.{◌≡◌, IfOk};
ghost use Rattle.sdb_types.specs.Order.{key_cmp, same_partition};

use crate::memory::{Duplicate, NoMemory};
use crate::name::Name;
use crate::value::Values;
use std::cmp::Ordering;

/// A table's name: its namespace, and its own name.
#[derive(Debug, PartialEq, Eq, PartialOrd, Ord, Hash)]
pub struct TableName {
    pub ns: Name,
    pub table: Name,
}

// By hand: each drop is then one call, where a derived one is written out at each exit, with a call for each field.
impl Drop for TableName {
    fn drop(self) {
        let TableName { ns: _, table: _ } = self;
    }
}

impl Duplicate for TableName {
    fn copy(&self) -> Result<TableName, NoMemory> {
        Ok(TableName {
            ns: self.ns.copy()?,
            table: self.table.copy()?,
        })
    }
}

/// A record's primary key: the values of its partition columns, and of its clustering columns.
#[derive(Debug, PartialEq, Eq, PartialOrd, Ord, Hash)]
pub struct Key {
    pub table: TableName,
    pub partition: Values,
    pub clustering: Values,
}

// By hand: each drop is then one call, where a derived one is written out at each exit, with a call for each field.
impl Drop for Key {
    fn drop(self) {
        let Key {
            table: _,
            partition: _,
            clustering: _,
        } = self;
    }
}

impl Duplicate for Key {
    fn copy(&self) -> Result<Key, NoMemory> {
        Ok(Key {
            table: self.table.copy()?,
            partition: self.partition.copy()?,
            clustering: self.clustering.copy()?,
        })
    }
}

impl Key {
    /// The order of keys: by namespace and table, then by partition, then by clustering. Lists compare item by
    /// item, and a prefix comes before the whole. Takes no memory.
    pub fn compare(&self, other: &Key) -> Ordering
        ensures { result ≡ key_cmp self.now other.now }
    {
        self.cmp(other)
    }

    /// Whether two keys are of one partition of one table. Takes no memory.
    pub fn is_beside(&self, other: &Key) -> bool
        ensures { result ≡ same_partition self.now other.now }
    {
        self.table.cmp(&other.table).is_eq() && self.partition.cmp(&other.partition).is_eq()
    }
}
