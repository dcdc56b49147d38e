//! The records of a partition.
ghost use Rattle.std.specs.Prelude.{◌≡◌, true, filter, length, IfOk, IfErr, OnOk, OnErr};
ghost use Rattle.std.specs.Option.{option_copied};
ghost use Rattle.std.specs.Slice.{IsItemAt};
ghost use Rattle.sdb_types.specs.Contents.{in_span, record_at, rise};
ghost use Rattle.sdb_hashed.specs.Bucket.{IsAt, IsGapFor, contents_of_bucket};

use sdb_store::Rows;
use sdb_types::{Duplicate, Key, NoMemory, Record, Records, Seq, Span};
use std::alloc::Global;
use std::marker::Model;

/// Records in the order of `Key::compare`, seen as a list. A search takes time as the logarithm of their number, and a record that is
/// added or accepted out moves those after it.
pub struct Bucket {
    alloc: Global,
    records: Records,
}

// By hand: each drop is then one call, where a derived one is written out at each exit, with a call for each field.
impl Drop for Bucket {
    fn drop(self) {
        let Bucket {
            alloc: _,
            records: _,
        } = self;
    }
}

impl Model for Bucket {
    ghost use Rattle.std.specs.Prelude.{◌≡◌, List, true};
    ghost use Rattle.sdb_types.specs.declared.record.Record.{Record};
    ghost use Rattle.sdb_types.specs.Contents.{rise};

    ghost Value = { List Record };

    ghost view = { λ b. b.records };

    ghost invariant = { λ b. rise b.records ≡ true };
}

impl Bucket {
    /// How many records it has.
    pub fn len(&self) -> usize
        ensures { result ≡ length self.now }
    {
        self.records.len()
    }

    /// The record at a place, from 0.
    pub fn at(&self, i: usize) -> Option<&Record>
        ensures { IsItemAt self.now i result }
    {
        self.records.at(i)
    }

    /// Its records rise strictly by key. The function changes nothing; it says so where a proof needs it.
    pub fn order_facts(&self)
        ensures { rise self.now ≡ true }
    {
        let _records = &self.records;
    }

    // Where the record of a key is, or where it would go.
    fn search(&self, key: &Key) -> Result<usize, usize>
        ensures found { IfOk result (IsAt self.now key.now) }
        ensures absent { IfErr result (IsGapFor self.now key.now) }
    {
        self.records
            .as_slice()
            .binary_search_by(|rec| rec.key.compare(key))
    }

    // The record of a key.
    fn record(&self, key: &Key) -> Option<&Record>
        ensures { option_copied result ≡ record_at (contents_of_bucket self.now) key.now }
    {
        match self.search(key) {
            Ok(i) => self.records.at(i),
            Err(_) => None,
        }
    }
}

// The records of a list that lie in a span.
fn records_in(alloc: Global, span: &Span, records: &[Record]) -> Result<Records, NoMemory>
    ensures { IfOk result (λ rows. rows ≡ filter (λ r. in_span span.now r.key) records.now) }
{
    let mut found = Seq::new(alloc);
    for rec in records {
        if span.contains(&rec.key) {
            found.push(rec.copy()?)?;
        }
    }
    Ok(found)
}

impl Rows for Bucket {
    ghost contents = { λ b. contents_of_bucket b };

    fn new(alloc: Global) -> Bucket {
        Bucket {
            alloc,
            records: Seq::new(alloc),
        }
    }

    fn find(&self, key: &Key) -> Result<Option<Record>, NoMemory> {
        match self.record(key) {
            Some(rec) => Ok(Some(rec.copy()?)),
            None => Ok(None),
        }
    }

    fn list(&self, span: &Span) -> Result<Records, NoMemory> {
        records_in(self.alloc, span, self.records.as_slice())
    }

    fn insert(&mut self, rec: Record) -> Result<(), NoMemory> {
        match self.search(&rec.key) {
            Ok(i) => {
                self.records.replace(i, rec);
                Ok(())
            }
            Err(i) => self.records.insert(i, rec),
        }
    }

    fn replace(&mut self, rec: Record) {
        match self.search(&rec.key) {
            Ok(i) => self.records.replace(i, rec),
            Err(_) => {}
        }
    }

    fn remove(&mut self, key: &Key) {
        match self.search(key) {
            Ok(i) => self.records.remove(i),
            Err(_) => {}
        }
    }
}
