//! What a transaction writes.
ghost use Rattle.std.specs.Prelude.{◌≡◌, IfOk};

use sdb_types::{Columns, Duplicate, Key, NoMemory, Record, Seq};

/// What becomes of a key: a row with these user columns, or none.
#[derive(Debug, PartialEq, Eq)]
pub enum Change {
    Row(Columns),
    Delete,
}

// By hand: each drop is then one call, where a derived one is written out at each exit, with a call for each field.
impl Drop for Change {
    fn drop(self) {
        match self {
            Change::Row(_) => {}
            Change::Delete => {}
        }
    }
}

/// A change of a key.
#[derive(Debug, PartialEq, Eq)]
pub struct Keyed {
    pub key: Key,
    pub change: Change,
}

// By hand: each drop is then one call, where a derived one is written out at each exit, with a call for each field.
impl Drop for Keyed {
    fn drop(self) {
        let Keyed { key: _, change: _ } = self;
    }
}

impl Keyed {
    /// The key, and what becomes of it.
    pub fn into_parts(self) -> (Key, Change)
        ensures { result ≡ (self.key, self.change) }
    {
        let Keyed { key, change } = self;
        (key, change)
    }
}

pub type Changes = Seq<Keyed>;

/// A change of a key, with its base: the committed record that was read there, or none.
#[derive(Debug, PartialEq, Eq)]
pub struct Write {
    pub key: Key,
    pub base: Option<Record>,
    pub change: Change,
}

// By hand: each drop is then one call, where a derived one is written out at each exit, with a call for each field.
impl Drop for Write {
    fn drop(self) {
        let Write {
            key: _,
            base: _,
            change: _,
        } = self;
    }
}

pub type Writes = Seq<Write>;

impl Duplicate for Change {
    fn copy(&self) -> Result<Change, NoMemory> {
        match self {
            Change::Row(columns) => Ok(Change::Row(columns.copy()?)),
            Change::Delete => Ok(Change::Delete),
        }
    }
}

impl Duplicate for Keyed {
    fn copy(&self) -> Result<Keyed, NoMemory> {
        Ok(Keyed {
            key: self.key.copy()?,
            change: self.change.copy()?,
        })
    }
}

impl Duplicate for Write {
    fn copy(&self) -> Result<Write, NoMemory> {
        Ok(Write {
            key: self.key.copy()?,
            base: self.base.copy()?,
            change: self.change.copy()?,
        })
    }
}
