//! The extra reads of a COMMIT, and what each is to find.
use sdb_types::{Key, Request, Seq, TxId};

/// What a rescan is to find at a key.
#[derive(Clone, Copy)]
pub enum Expected {
    /// The key isn't written: the version that the scan found, or no record.
    Unchanged(Option<TxId>),
    /// The key is written, and left out: whether its base has the version that the scan found.
    Based(bool),
}

/// A key, with what a rescan is to find there.
pub struct Wanted {
    pub key: Key,
    pub wish: Expected,
}

// By hand: each drop is then one call, where a derived one is written out at each exit, with a call for each field.
impl Drop for Wanted {
    fn drop(self) {
        let Wanted { key: _, wish: _ } = self;
    }
}

pub type Expectations = Seq<Wanted>;

/// What an extra read is to find.
pub enum Target {
    /// The version that a get found, or no record.
    Version(Option<TxId>),
    /// What is here, in key order, and no other record.
    Rows(Expectations),
}

// By hand: each drop is then one call, where a derived one is written out at each exit, with a call for each field.
impl Drop for Target {
    fn drop(self) {
        match self {
            Target::Version(_) => {}
            Target::Rows(_) => {}
        }
    }
}

/// An extra read, with what it is to find.
pub struct Check {
    pub request: Request,
    pub target: Target,
}

// By hand: each drop is then one call, where a derived one is written out at each exit, with a call for each field.
impl Drop for Check {
    fn drop(self) {
        let Check {
            request: _,
            target: _,
        } = self;
    }
}

pub type Checks = Seq<Check>;
