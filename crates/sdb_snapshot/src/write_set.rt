//! What a transaction writes.
ghost use Rattle.std.specs.Prelude.{◌≡◌, ◌≤◌, ◌<◌, ◌++◌, [], ◌∷◌, IfOk, OnOk, OnErr, length, take, true, Err};
ghost use Rattle.std.specs.Option.{option_copied};
ghost use Rattle.sdb_record.specs.Among.{write_among};
ghost use Rattle.sdb_snapshot.specs.Written.{most_writes, with_writes, write_of};
ghost use Rattle.sdb_snapshot.specs.Sets.{AreIndexed, StartsWith};
ghost use Rattle.sdb_snapshot.specs.Opened.{with_laid, with_laids, with_new, with_news};
ghost use Rattle.sdb_snapshot.specs.declared.write_set.WriteRefused.TheVariants as refused;

use crate::KeyMap;
use crate::prefix::cut;
use crate::read_set::ReadSet;
use sdb_record::{Changes, Keyed, Write, Writes};
use sdb_types::{Duplicate, Key, NoMemory};
use std::alloc::Global;
use std::marker::Model;
use std::mem;
use thiserror::Error;

/// How many keys a transaction may write.
pub const MOST_WRITES: usize = 4096;

/// Why changes were not written.
#[derive(Debug, Drop, Error, PartialEq, Eq)]
pub enum WriteRefused {
    /// They would write more than `MOST_WRITES` keys.
    #[error("too many writes")]
    TooManyWrites,
    #[error("out of memory")]
    NoMemory,
}

/// One write for each key, in the order of first writing, and the place of each key.
pub struct WriteSet {
    alloc: Global,
    places: KeyMap<()>,
    writes: Writes,
}

// By hand: each drop is then one call, where a derived one is written out at each exit, with a call for each field.
impl Drop for WriteSet {
    fn drop(self) {
        let WriteSet {
            alloc: _,
            places: _,
            writes: _,
        } = self;
    }
}

impl Model for WriteSet {
    ghost use Rattle.std.specs.Prelude.{List};
    ghost use Rattle.sdb_record.specs.declared.write.Write.{Write as WriteValue};
    ghost use Rattle.sdb_snapshot.specs.Sets.{AreIndexed};

    ghost Value = { List WriteValue };

    ghost view = { λ d. d.writes };

    ghost invariant = { λ d. AreIndexed d.places d.writes };
}

fn write_with_base(read_set: &ReadSet, keyed: &Keyed) -> Result<Write, NoMemory>
    ensures { IfOk result (λ write. write ≡ write_of read_set.now keyed.now) }
{
    let base = read_set.base(&keyed.key)?;
    let (key, change) = keyed.copy()?.into_parts();
    Ok(Write { key, base, change })
}

// Puts a change in the place of what was written at its key.
fn lay(places: &KeyMap<()>, writes: &mut Vec<Write>, keyed: Keyed)
    requires { AreIndexed places.now writes.old.items }
    ensures { writes.new.items ≡ with_laid writes.old.items keyed }
{
    let (key, change) = keyed.into_parts();
    match places.place(&key) {
        Some(i) => writes[i].change = change,
        None => {}
    }
}

// Puts changes in their places, one after the other.
fn lay_each(places: &KeyMap<()>, writes: &mut Vec<Write>, changes: Changes)
    requires { AreIndexed places.now writes.old.items }
    ensures laid { writes.new.items ≡ with_laids writes.old.items changes }
    ensures places { AreIndexed places.now writes.new.items }
{
    for keyed in changes.into_vec() {
        lay(places, writes, keyed);
    }
}

impl WriteSet {
    pub fn new(alloc: Global) -> WriteSet
        ensures { result ≡ [] }
    {
        WriteSet {
            alloc,
            places: KeyMap::new(alloc),
            writes: Writes::new(alloc),
        }
    }

    /// The write of a key, where it was written.
    pub fn get(&self, key: &Key) -> Option<&Write>
        ensures { option_copied result ≡ write_among self.now key.now }
    {
        match self.places.place(key) {
            Some(i) => self.writes.at(i),
            None => None,
        }
    }

    /// The writes alone.
    pub fn into_writes(self) -> Writes
        ensures { result ≡ self }
    {
        let WriteSet {
            alloc: _,
            places: _,
            writes,
        } = self;
        writes
    }

    /// All writes, in the order in which their keys were first written.
    pub fn all(&self) -> &Writes
        ensures { result.now ≡ self.now }
    {
        &self.writes
    }

    // Puts a write whose key is new last.
    fn open(&mut self, write: Write) -> Result<(), NoMemory>
        ensures ok { OnOk result (self.new ≡ with_new self.old write) }
        ensures err { OnErr result (self.new ≡ self.old) }
    {
        if self.places.place(&write.key).is_some() {
            return Ok(());
        }
        let len = self.writes.len();
        self.places.put(write.key.copy()?, ())?;
        match self.writes.push(write) {
            Ok(()) => Ok(()),
            Err(NoMemory) => {
                self.places.truncate(len);
                Err(NoMemory)
            }
        }
    }

    // Puts the writes of new keys last, and stops where there is no memory.
    fn open_each(&mut self, read_set: &ReadSet, changes: &[Keyed]) -> Result<(), NoMemory>
        ensures ok { OnOk result (self.new ≡ with_news read_set.now self.old changes.now) }
        ensures front { StartsWith self.old self.new }
    {
        for keyed in changes {
            self.open(write_with_base(read_set, keyed)?)?;
        }
        Ok(())
    }

    // Keeps those that were written first, so many.
    fn cut(&mut self, len: usize)
        ensures { self.new ≡ take len self.old }
    {
        cut(self.alloc, &mut self.writes, len);
        self.places.truncate(len);
    }

    // Puts each change in the place of what was written at its key.
    fn lay_all(&mut self, changes: Changes)
        ensures { self.new ≡ with_laids self.old changes }
    {
        let mut writes = mem::replace(&mut self.writes, Writes::new(self.alloc)).into_vec();
        lay_each(&self.places, &mut writes, changes);
        self.writes = Writes::from_vec(writes);
    }

    /// Writes changes, one after the other: all or, where they are refused, none. A change costs time as the logarithm of the number of
    /// keys written, but for its own length.
    pub fn write(&mut self, read_set: &ReadSet, changes: Changes) -> Result<(), WriteRefused>
        ensures ok { OnOk result (self.new ≡ with_writes read_set.now self.old changes) }
        ensures fits { OnOk result (length (with_writes read_set.now self.old changes) ≤ most_writes) }
        ensures many { result ≡ Err refused.TooManyWrites → most_writes < length (with_writes read_set.now self.old changes) }
        ensures err { OnErr result (self.new ≡ self.old) }
    {
        let len = self.writes.len();
        if self.open_each(read_set, changes.as_slice()).is_err() {
            self.cut(len);
            return Err(WriteRefused::NoMemory);
        }
        if self.writes.len() > MOST_WRITES {
            self.cut(len);
            return Err(WriteRefused::TooManyWrites);
        }
        self.lay_all(changes);
        Ok(())
    }
}
