//! Records, and what a store is asked and answers.
ghost use Rattle.std.specs.Prelude.{◌≡◌, IfOk};
ghost use Rattle.sdb_types.specs.Contents.{in_span, state_number};

use crate::columns::Columns;
use crate::key::{Key, TableName};
use crate::memory::{Duplicate, NoMemory};
use crate::seq::Seq;
use crate::txid::TxId;
use crate::value::Values;

/// A record of a store. Its key columns are in its key alone.
#[derive(Debug, PartialEq, Eq)]
pub struct Record {
    pub key: Key,
    pub columns: Columns,
}

// By hand: each drop is then one call, where a derived one is written out at each exit, with a call for each field.
impl Drop for Record {
    fn drop(self) {
        let Record { key: _, columns: _ } = self;
    }
}

impl Duplicate for Record {
    fn copy(&self) -> Result<Record, NoMemory> {
        Ok(Record {
            key: self.key.copy()?,
            columns: self.columns.copy()?,
        })
    }
}

impl Record {
    /// The key alone.
    pub fn into_key(self) -> Key
        ensures { result ≡ self.key }
    {
        let Record { key, columns: _ } = self;
        key
    }

    /// Its key and its columns.
    pub fn into_parts(self) -> (Key, Columns)
        ensures key { result.0 ≡ self.key }
        ensures columns { result.1 ≡ self.columns }
    {
        let Record { key, columns } = self;
        (key, columns)
    }
}

pub type Records = Seq<Record>;

/// One partition of a table, or the whole table where no partition is named.
#[derive(Debug, PartialEq, Eq, Hash)]
pub struct Span {
    pub table: TableName,
    pub partition: Option<Values>,
}

// By hand: each drop is then one call, where a derived one is written out at each exit, with a call for each field.
impl Drop for Span {
    fn drop(self) {
        let Span {
            table: _,
            partition: _,
        } = self;
    }
}

impl Duplicate for Span {
    fn copy(&self) -> Result<Span, NoMemory> {
        Ok(Span {
            table: self.table.copy()?,
            partition: self.partition.copy()?,
        })
    }
}

impl Span {
    /// Whether a key is of the span's table, and of its partition where the span names one. Takes no memory.
    pub fn contains(&self, key: &Key) -> bool
        ensures { result ≡ in_span self.now key.now }
    {
        if self.table.cmp(&key.table).is_ne() {
            return false;
        }
        match &self.partition {
            Some(part) => part.cmp(&key.partition).is_eq(),
            None => true,
        }
    }
}

/// The state of a transactional record or of a coordinator row.
#[derive(Clone, Copy, Debug, PartialEq, Eq)]
pub enum State {
    Prepared,
    Deleted,
    Committed,
    Aborted,
}

impl Duplicate for State {
    fn copy(&self) -> Result<State, NoMemory> {
        Ok(*self)
    }
}

impl State {
    /// The state's number, from 1 to 4, as the column `tx_state` contains it.
    pub fn number(self) -> i32
        ensures { result ≡ state_number self }
    {
        match self {
            State::Prepared => 1,
            State::Deleted => 2,
            State::Committed => 3,
            State::Aborted => 4,
        }
    }
}

/// What has to hold of the record at a key for a write to take effect: that there is none, or that it is in this
/// state and was written by this transaction.
#[derive(Clone, Copy, Debug, PartialEq, Eq)]
pub enum Condition {
    Absent,
    Version(TxId, State),
}

impl Duplicate for Condition {
    fn copy(&self) -> Result<Condition, NoMemory> {
        Ok(*self)
    }
}

/// A record to be put at its key, where the condition holds of what is there.
#[derive(Debug, PartialEq, Eq)]
pub struct Put {
    pub rec: Record,
    pub condition: Condition,
}

// By hand: each drop is then one call, where a derived one is written out at each exit, with a call for each field.
impl Drop for Put {
    fn drop(self) {
        let Put {
            rec: _,
            condition: _,
        } = self;
    }
}

impl Put {
    /// Its record and its condition.
    pub fn into_parts(self) -> (Record, Condition)
        ensures rec { result.0 ≡ self.rec }
        ensures condition { result.1 ≡ self.condition }
    {
        let Put { rec, condition } = self;
        (rec, condition)
    }
}

impl Duplicate for Put {
    fn copy(&self) -> Result<Put, NoMemory> {
        Ok(Put {
            rec: self.rec.copy()?,
            condition: self.condition,
        })
    }
}

/// The puts of one call.
pub type Batch = Seq<Put>;

/// One call on one store.
#[derive(Debug, Drop, PartialEq, Eq)]
pub enum Request {
    Get(Key),
    Scan(Span),
    PutIf(Record, Condition),
    DeleteIf(Key, Condition),
    PutAll(Batch),
}

impl Duplicate for Request {
    fn copy(&self) -> Result<Request, NoMemory> {
        match self {
            Request::Get(key) => Ok(Request::Get(key.copy()?)),
            Request::Scan(span) => Ok(Request::Scan(span.copy()?)),
            Request::PutIf(rec, condition) => Ok(Request::PutIf(rec.copy()?, *condition)),
            Request::DeleteIf(key, condition) => Ok(Request::DeleteIf(key.copy()?, *condition)),
            Request::PutAll(batch) => Ok(Request::PutAll(batch.copy()?)),
        }
    }
}

/// What a store answers to a request.
#[derive(Debug, Drop, PartialEq, Eq)]
pub enum Reply {
    Found(Option<Record>),
    Rows(Records),
    Applied,
    NotMet(Option<Record>),
    /// The place of the first put whose condition does not hold, counted from 1, and what is at its key.
    NotAll(u32, Option<Record>),
    Fault,
    NoMemory,
}

impl Duplicate for Reply {
    fn copy(&self) -> Result<Reply, NoMemory> {
        match self {
            Reply::Found(found) => Ok(Reply::Found(found.copy()?)),
            Reply::Rows(rows) => Ok(Reply::Rows(rows.copy()?)),
            Reply::Applied => Ok(Reply::Applied),
            Reply::NotMet(found) => Ok(Reply::NotMet(found.copy()?)),
            Reply::NotAll(place, found) => Ok(Reply::NotAll(*place, found.copy()?)),
            Reply::Fault => Ok(Reply::Fault),
            Reply::NoMemory => Ok(Reply::NoMemory),
        }
    }
}
