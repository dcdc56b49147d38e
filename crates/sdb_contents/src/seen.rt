//! What the two stores showed of a table.
use sdb_types::{Records, TableName};

/// What the two stores showed of a table, in the order of keys.
pub struct Seen {
    pub table: TableName,
    pub in_to: Records,
    pub in_from: Records,
}

// By hand: each drop is then one call, where a derived one is written out at each exit, with a call for each field.
impl Drop for Seen {
    fn drop(self) {
        let Seen {
            table: _,
            in_to: _,
            in_from: _,
        } = self;
    }
}
