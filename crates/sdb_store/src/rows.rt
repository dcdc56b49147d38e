//! Records in memory.
ghost use Rattle.std.specs.Prelude.{◌≡◌, IfOk, OnOk, OnErr};
ghost use Rattle.std.specs.FinMap as map;
ghost use Rattle.sdb_types.specs.declared.record.Request.TheVariants.{PutIf, DeleteIf};
ghost use Rattle.sdb_types.specs.Contents.{Contents, record_at, rows_in};
ghost use Rattle.sdb_store.specs.Batches.{replaced};
ghost use Rattle.sdb_store.specs.Store.{Answers, unmet_reply};

use crate::condition::holds;
use sdb_types::{Condition, Duplicate, Key, NoMemory, Record, Records, Reply, Span};
use std::alloc::Global;

// The reply to a write whose condition does not hold of what was found at its key.
fn unmet(condition: &Condition, found: Option<Record>) -> Option<Reply>
    ensures { result ≡ unmet_reply condition.now found }
{
    if holds(condition, found.as_ref()) {
        None
    } else {
        Some(Reply::NotMet(found))
    }
}

/// Records by key, kept in memory.
pub trait Rows: Drop {
    /// What is kept.
    ghost contents: { Self → Contents };

    /// No records.
    fn new(alloc: Global) -> Self
        ensures { contents result ≡ map.empty };

    /// The record at a key.
    fn find(&self, key: &Key) -> Result<Option<Record>, NoMemory>
        ensures { IfOk result (λ found. found ≡ record_at (contents self.now) key.now) };

    /// The records of a span, in the order of their keys.
    fn list(&self, span: &Span) -> Result<Records, NoMemory>
        ensures { IfOk result (λ rows. rows ≡ rows_in span.now (contents self.now)) };

    /// Puts a record at its key.
    fn insert(&mut self, rec: Record) -> Result<(), NoMemory>
        ensures ok { OnOk result (contents self.new ≡ map.insert (contents self.old) rec.key rec.columns) }
        ensures err { OnErr result (contents self.new ≡ contents self.old) };

    /// Puts a record over the one at its key, if there is one. Takes no memory.
    fn replace(&mut self, rec: Record)
        ensures { contents self.new ≡ replaced rec (contents self.old) };

    /// Takes the record at a key out, if there is one. Takes no memory.
    fn remove(&mut self, key: &Key)
        ensures { contents self.new ≡ map.remove (contents self.old) key.now };

    /// Puts a record at its key, where the condition holds of what is there.
    fn put(&mut self, rec: &Record, condition: &Condition) -> Result<Reply, NoMemory>
        ensures ok { IfOk result (λ reply. Answers (PutIf rec.now condition.now) reply (contents self.old) (contents self.new)) }
        ensures err { OnErr result (contents self.new ≡ contents self.old) }
    {
        match unmet(condition, self.find(&rec.key)?) {
            Some(reply) => Ok(reply),
            None => {
                self.insert(rec.copy()?)?;
                Ok(Reply::Applied)
            }
        }
    }

    /// Takes the record at a key out, where the condition holds of what is there.
    fn delete(&mut self, key: &Key, condition: &Condition) -> Result<Reply, NoMemory>
        ensures ok { IfOk result (λ reply. Answers (DeleteIf key.now condition.now) reply (contents self.old) (contents self.new)) }
        ensures err { OnErr result (contents self.new ≡ contents self.old) }
    {
        match unmet(condition, self.find(key)?) {
            Some(reply) => Ok(reply),
            None => {
                self.remove(key);
                Ok(Reply::Applied)
            }
        }
    }
}
