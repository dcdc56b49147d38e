//! A list of boxes.
ghost use Rattle.std.specs.Prelude.{◌≡◌, ◌<◌, ◌≤◌, ◌^◌, ◌++◌, ◌∷◌, [], length, IfSome, IfNone, OnOk, OnErr};
ghost use Rattle.sdb_types.specs.declared.record.Request.TheVariants.{Get, Scan, PutIf, DeleteIf, PutAll};
ghost use Rattle.sdb_types.specs.Contents.{IsBatch};
ghost use Rattle.sdb_shards.specs.Boxes.{IsBoxCall};

use crate::part::Part;
use sdb_store::Store;
use sdb_types::{Batch, Condition, Key, NoMemory, Record, Reply, Span};
use std::alloc::Global;
use std::marker::Model;

/// Boxes, seen as a list. Beside it is how many calls each had as the home of a partition since the counts began anew.
pub struct Parts {
    parts: Vec<Part>,
    calls: Vec<u64>,
}

// By hand: each drop is then one call, where a derived one is written out at each exit, with a call for each field.
impl Drop for Parts {
    fn drop(self) {
        let Parts { parts: _, calls: _ } = self;
    }
}

impl Model for Parts {
    ghost use Rattle.std.specs.Prelude.{List};
    ghost use Rattle.sdb_shards.specs.declared.part.Part.{Part};
    ghost use Rattle.sdb_shards.specs.PartCode.{code_of_parts};

    ghost Value = { List Part };

    ghost coded = { code_of_parts };

    ghost view = { λ p. p.parts.items };
}

impl Parts {
    /// No boxes.
    pub fn new(alloc: Global) -> Parts
        ensures { result ≡ [] }
    {
        Parts {
            parts: Vec::new(alloc),
            calls: Vec::new(alloc),
        }
    }

    /// Adds a box after the others.
    pub fn push(&mut self, part: Part) -> Result<(), NoMemory>
        ensures ok { OnOk result (self.new ≡ self.old ++ part ∷ []) }
        ensures err { OnErr result (self.new ≡ self.old) }
    {
        self.calls.push(0)?;
        self.parts.push(part)?;
        Ok(())
    }

    /// Takes the last box out. None says that there is none.
    pub fn pop(&mut self) -> Option<Part>
        ensures some { IfSome result (λ part. self.old ≡ self.new ++ part ∷ []) }
        ensures none { IfNone result (self.old ≡ []) }
        ensures left { IfNone result (self.new ≡ []) }
    {
        let part = self.parts.pop()?;
        self.calls.truncate(self.parts.len());
        Some(part)
    }

    /// How many boxes there are.
    pub fn len(&self) -> usize
        ensures { result ≡ length self.now }
    {
        self.parts.len()
    }

    /// The allocator of its memory.
    pub(crate) fn allocator(&self) -> Global {
        *self.parts.allocator()
    }

    /// Finds the record at a key in a box.
    pub(crate) fn get(&mut self, at: u32, key: &Key) -> Reply
        requires { at < length self.old }
        ensures { IsBoxCall at (Get key.now) result self.old self.new }
    {
        let part = &mut self.parts[at as usize];
        part.get(key)
    }

    /// Finds the records of a span in a box.
    pub(crate) fn scan(&mut self, at: u32, span: &Span) -> Reply
        requires { at < length self.old }
        ensures { IsBoxCall at (Scan span.now) result self.old self.new }
    {
        let part = &mut self.parts[at as usize];
        part.scan(span)
    }

    /// Puts a record in a box, where the condition holds.
    pub(crate) fn put_if(&mut self, at: u32, rec: &Record, condition: &Condition) -> Reply
        requires { at < length self.old }
        ensures { IsBoxCall at (PutIf rec.now condition.now) result self.old self.new }
    {
        let part = &mut self.parts[at as usize];
        part.put_if(rec, condition)
    }

    /// Takes a record out of a box, where the condition holds.
    pub(crate) fn delete_if(&mut self, at: u32, key: &Key, condition: &Condition) -> Reply
        requires { at < length self.old }
        ensures { IsBoxCall at (DeleteIf key.now condition.now) result self.old self.new }
    {
        let part = &mut self.parts[at as usize];
        part.delete_if(key, condition)
    }

    /// Puts the records of a batch in a box, where each condition holds, and otherwise none.
    pub(crate) fn put_all(&mut self, at: u32, batch: &Batch) -> Reply
        requires inside { at < length self.old }
        requires batch { IsBatch batch.now }
        ensures { IsBoxCall at (PutAll batch.now) result self.old self.new }
    {
        let part = &mut self.parts[at as usize];
        part.put_all(batch)
    }

    /// Counts one more call of a box.
    pub(crate) fn count(&mut self, at: u32)
        ensures { self.new ≡ self.old }
    {
        if let Some(calls) = self.calls.get_mut(at as usize) {
            *calls = calls.saturating_add(1);
        }
    }

    /// How many calls of a box were counted.
    pub(crate) fn counted(&self, at: u32) -> u64 {
        match self.calls.get(at as usize) {
            Some(calls) => *calls,
            None => 0,
        }
    }

    /// The box with the smallest count, the first of several.
    pub(crate) fn least(&self) -> u32
        requires some { 0 < length self.now }
        requires few { length self.now < 2 ^ 32 }
        ensures { result < length self.now }
    {
        let mut least = 0;
        for at in 0..self.parts.len() as u32 {
            if self.counted(at) < self.counted(least) {
                least = at;
            }
        }
        least
    }

    /// Begins all counts anew.
    pub(crate) fn clear(&mut self)
        ensures { self.new ≡ self.old }
    {
        self.calls.fill(0);
    }
}
