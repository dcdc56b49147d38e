//! What a transaction reads.
ghost use Rattle.std.specs.Prelude.{◌≡◌, IfOk};

use sdb_types::{Columns, Duplicate, Key, NoMemory, Seq, Span, TxId};

/// The keys that a statement reads: one key, or those of a span.
#[derive(Debug, PartialEq, Eq)]
pub enum Access {
    Get(Key),
    Scan(Span),
}

// By hand: each drop is then one call, where a derived one is written out at each exit, with a call for each field.
impl Drop for Access {
    fn drop(self) {
        match self {
            Access::Get(_) => {}
            Access::Scan(_) => {}
        }
    }
}

/// A row as it is read: its key, and its user columns.
#[derive(Debug, PartialEq, Eq)]
pub struct Image {
    pub key: Key,
    pub columns: Columns,
}

// By hand: each drop is then one call, where a derived one is written out at each exit, with a call for each field.
impl Drop for Image {
    fn drop(self) {
        let Image { key: _, columns: _ } = self;
    }
}

pub type Images = Seq<Image>;

/// A key that was read, with the version found: the transaction that wrote the committed record, or none where there
/// was no record.
#[derive(Debug, PartialEq, Eq)]
pub struct Read {
    pub key: Key,
    pub version: Option<TxId>,
}

// By hand: each drop is then one call, where a derived one is written out at each exit, with a call for each field.
impl Drop for Read {
    fn drop(self) {
        let Read { key: _, version: _ } = self;
    }
}

pub type Reads = Seq<Read>;

/// A span that was scanned, with the committed records found and their versions, tombstones included.
#[derive(Debug, PartialEq, Eq)]
pub struct Scan {
    pub span: Span,
    pub found: Reads,
}

// By hand: each drop is then one call, where a derived one is written out at each exit, with a call for each field.
impl Drop for Scan {
    fn drop(self) {
        let Scan { span: _, found: _ } = self;
    }
}

pub type Scans = Seq<Scan>;

impl Duplicate for Access {
    fn copy(&self) -> Result<Access, NoMemory> {
        match self {
            Access::Get(key) => Ok(Access::Get(key.copy()?)),
            Access::Scan(span) => Ok(Access::Scan(span.copy()?)),
        }
    }
}

impl Duplicate for Image {
    fn copy(&self) -> Result<Image, NoMemory> {
        Ok(Image {
            key: self.key.copy()?,
            columns: self.columns.copy()?,
        })
    }
}

impl Duplicate for Read {
    fn copy(&self) -> Result<Read, NoMemory> {
        Ok(Read {
            key: self.key.copy()?,
            version: self.version,
        })
    }
}

impl Duplicate for Scan {
    fn copy(&self) -> Result<Scan, NoMemory> {
        Ok(Scan {
            span: self.span.copy()?,
            found: self.found.copy()?,
        })
    }
}
