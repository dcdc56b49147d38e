//! What was found at the keys that were read.
ghost use Rattle.std.specs.Prelude.{◌≡◌, ◌++◌, [], ◌∷◌, IfOk, OnOk, OnErr, IfSome, length, take, map, true, false};
ghost use Rattle.std.specs.Option.{option_copied};
ghost use Rattle.sdb_types.specs.Contents.{rise};
ghost use Rattle.sdb_snapshot.specs.Entries.{value_at};
ghost use Rattle.sdb_snapshot.specs.Sets.{StartsWith};
ghost use Rattle.sdb_snapshot.specs.Reads.{AreKeysOf, base_at, is_key_read as is_key_read_lem, record_read_at, with_images, with_read_record};
ghost use Rattle.sdb_snapshot.specs.Filled.{found_in};

use crate::KeyMap;
use sdb_types::{Duplicate, Key, NoMemory, Record, Records, Seq, Span};
use std::alloc::Global;
use std::marker::Model;

/// What was found at each key that was read, in the order of first reading. The keys of a span are found without the others.
pub struct ReadSet {
    alloc: Global,
    found: KeyMap<Option<Record>>,
}

// By hand: each drop is then one call, where a derived one is written out at each exit, with a call for each field.
impl Drop for ReadSet {
    fn drop(self) {
        let ReadSet { alloc: _, found: _ } = self;
    }
}

impl Model for ReadSet {
    ghost use Rattle.std.specs.Prelude.{List};
    ghost use Rattle.sdb_snapshot.specs.Reads.{ReadRecord};

    ghost Value = { List ReadRecord };

    ghost view = { λ n. n.found };
}

// The records of a scan by their keys.
fn found_of(alloc: Global, records: Records) -> Result<Seq<(Key, Option<Record>)>, NoMemory>
    ensures { IfOk result (λ found. found ≡ map found_in records) }
{
    let mut found = Seq::with_room(alloc, records.len())?;
    for rec in records.into_vec() {
        found.push((rec.key.copy()?, Some(rec)))?;
    }
    Ok(found)
}

impl ReadSet {
    pub fn new(alloc: Global) -> ReadSet
        ensures { result ≡ [] }
    {
        ReadSet {
            alloc,
            found: KeyMap::new(alloc),
        }
    }

    /// What was found at a key, where it was read.
    pub fn get(&self, key: &Key) -> Option<&Option<Record>>
        ensures { option_copied result ≡ record_read_at self.now key.now }
    {
        self.found.get(key)
    }

    /// What was found at a key, where it was read. It is looked for first at the place `next`, which is then the one after.
    pub fn get_next(&self, next: &mut usize, key: &Key) -> Option<&Option<Record>>
        ensures { option_copied result ≡ record_read_at self.now key.now }
    {
        self.found.get_next(next, key)
    }

    /// What was found at a key: none where it has no record or was not read.
    pub fn base(&self, key: &Key) -> Result<Option<Record>, NoMemory>
        ensures { IfOk result (λ base. base ≡ base_at self.now key.now) }
    {
        match self.get(key) {
            Some(found) => found.copy(),
            None => Ok(None),
        }
    }

    pub fn is_key_read(&self, key: &Key) -> bool
        ensures { result ≡ is_key_read_lem self.now key.now }
    {
        self.found.get(key).is_some()
    }

    /// Adds a key that was not read.
    pub fn record_found(&mut self, key: Key, found: Option<Record>) -> Result<(), NoMemory>
        requires { is_key_read_lem self.old key ≡ false }
        ensures ok { OnOk result (self.new ≡ self.old ++ (key, found) ∷ []) }
        ensures err { OnErr result (self.new ≡ self.old) }
    {
        self.found.push(key, found)
    }

    // Adds a record of a scan, where its key was not read.
    fn note_record(&mut self, rec: &Record) -> Result<(), NoMemory>
        ensures ok { OnOk result (self.new ≡ with_read_record self.old rec.now.key (Some rec.now)) }
        ensures err { OnErr result (self.new ≡ self.old) }
    {
        if self.is_key_read(&rec.key) {
            return Ok(());
        }
        let found = rec.copy()?;
        self.record_found(rec.key.copy()?, Some(found))
    }

    // Adds records one after the other, and stops where there is no memory.
    fn note_each(&mut self, records: &[Record]) -> Result<(), NoMemory>
        ensures ok { OnOk result (self.new ≡ with_images self.old records.now) }
        ensures err { OnErr result (StartsWith self.old self.new) }
    {
        for rec in records {
            self.note_record(rec)?;
        }
        Ok(())
    }

    /// The number of keys that were read.
    pub fn len(&self) -> usize
        ensures { result ≡ length self.now }
    {
        self.found.len()
    }

    /// Keeps those that were recorded first, so many.
    pub fn cut(&mut self, len: usize)
        ensures { self.new ≡ take len self.old }
    {
        self.found.truncate(len);
    }

    // Adds the records of a scan where no key was read.
    fn fill(&mut self, records: Records) -> Result<(), NoMemory>
        requires empty { self.old ≡ [] }
        requires rise { rise records ≡ true }
        ensures ok { OnOk result (self.new ≡ with_images self.old records) }
        ensures err { OnErr result (self.new ≡ self.old) }
    {
        self.found.fill(found_of(self.alloc, records)?)
    }

    // Adds each record of a scan whose key was not read: all or, without memory, none.
    fn add(&mut self, records: &[Record]) -> Result<(), NoMemory>
        ensures ok { OnOk result (self.new ≡ with_images self.old records.now) }
        ensures err { OnErr result (self.new ≡ self.old) }
    {
        let len = self.found.len();
        match self.note_each(records) {
            Ok(()) => Ok(()),
            Err(NoMemory) => {
                self.cut(len);
                Err(NoMemory)
            }
        }
    }

    /// Adds each record of a scan, in the order of their keys, whose key was not read: all or, without memory, none.
    pub fn record_all(&mut self, records: Records) -> Result<(), NoMemory>
        requires { rise records ≡ true }
        ensures ok { OnOk result (self.new ≡ with_images self.old records) }
        ensures err { OnErr result (self.new ≡ self.old) }
    {
        if self.found.len() == 0 {
            self.fill(records)
        } else {
            self.add(records.as_slice())
        }
    }

    /// The keys read in a span, in their order, and perhaps others of the span.
    pub fn keys_in(&self, span: &Span) -> Result<Records, NoMemory>
        ensures { IfOk result (λ keys. AreKeysOf self.now span.now keys) }
    {
        self.found.keys_in(span)
    }
}
