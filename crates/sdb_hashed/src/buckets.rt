//! Records by table and partition.
ghost use Rattle.std.specs.Prelude.{◌≡◌, [], true, IsSome, IfSome, IfNone};
ghost use Rattle.std.specs.Option.{option_copied};
ghost use Rattle.sdb_types.specs.Contents.{Contents, rise, rows_in};

use crate::bucket::Bucket;
use crate::parts::Parts;
use sdb_store::{Memory, Rows};
use sdb_types::{Condition, Key, NoMemory, Record, Records, Reply, Span, TableName, Values};
use std::alloc::Global;
use std::marker::Model;

/// Records by table and partition: each table has partitions of its own, and each partition a bucket.
//
// A struct of its own, so that the checker reads one type where a store over it is named, and not three in one another.
pub struct Buckets {
    tables: Parts<TableName, Parts<Values, Bucket>>,
}

impl Drop for Buckets {
    fn drop(self) {
        let Buckets { tables: _ } = self;
    }
}

impl Model for Buckets {
    ghost use Rattle.sdb_types.specs.Contents.{Contents};
    ghost use Rattle.sdb_store.specs.HeldCode.{coded_contents};

    ghost Value = { Contents };

    ghost coded = { coded_contents };

    ghost view = { λ b. b.tables };
}

// A bucket, of which it is known that its records are in order.
fn in_order(bucket: Option<&Bucket>) -> Option<&Bucket>
    ensures same { option_copied result ≡ option_copied bucket.entry }
    ensures rising { IfSome result (λ bucket. rise bucket.now ≡ true) }
{
    match bucket {
        Some(bucket) => {
            bucket.order_facts();
            Some(bucket)
        }
        None => None,
    }
}

impl Buckets {
    // The records of a partition, in the order of their keys.
    fn bucket(&self, at: &Span) -> Option<&Bucket>
        requires { IsSome at.now.partition }
        ensures some { IfSome result (λ bucket. bucket.now ≡ rows_in at.now self.now) }
        ensures none { IfNone result (rows_in at.now self.now ≡ []) }
    {
        match &at.partition {
            Some(partition) => match self.tables.part(&at.table) {
                Some(table) => in_order(table.part(partition)),
                None => None,
            },
            None => None,
        }
    }
}

impl Rows for Buckets {
    ghost contents = { λ b. b };

    fn new(alloc: Global) -> Buckets {
        Buckets {
            tables: Parts::new(alloc),
        }
    }

    fn find(&self, key: &Key) -> Result<Option<Record>, NoMemory> {
        self.tables.find(key)
    }

    fn list(&self, span: &Span) -> Result<Records, NoMemory> {
        self.tables.list(span)
    }

    fn insert(&mut self, rec: Record) -> Result<(), NoMemory> {
        self.tables.insert(rec)
    }

    fn replace(&mut self, rec: Record) {
        self.tables.replace(rec)
    }

    fn remove(&mut self, key: &Key) {
        self.tables.remove(key)
    }

    fn put(&mut self, rec: &Record, condition: &Condition) -> Result<Reply, NoMemory> {
        self.tables.put(rec, condition)
    }

    fn delete(&mut self, key: &Key, condition: &Condition) -> Result<Reply, NoMemory> {
        self.tables.delete(key, condition)
    }
}

/// The store in memory over buckets of partitions. Its contents are known.
pub type Hashed = Memory<Buckets>;

/// A store that lends the records of a partition.
//
// A trait, since a type of another crate takes no methods of its own here.
pub trait Bucketed {
    /// What the store holds.
    ghost contents: { Self → Contents };

    /// The records of the partition that a span names, in the order of `Key::compare`, or none where there are none. Takes no memory.
    fn bucket(&self, at: &Span) -> Option<&Bucket>
        requires { IsSome at.now.partition }
        ensures some { IfSome result (λ bucket. bucket.now ≡ rows_in at.now (contents self.now)) }
        ensures none { IfNone result (rows_in at.now (contents self.now) ≡ []) };
}

impl Bucketed for Memory<Buckets> {
    ghost contents = { λ hashed. hashed.contents };

    fn bucket(&self, at: &Span) -> Option<&Bucket> {
        self.rows().bucket(at)
    }
}
