//! The calls of a store over several boxes.
ghost use Rattle.std.specs.Prelude.{◌≡◌, ◌≢◌, ◌⊎◌, ◌<◌, ◌==◌, Some, Err, filter, length, slice_index_or, IfErr, IfOk, OnOk, OnErr};
ghost use Rattle.std.specs.BTreeMap.{get};
ghost use Rattle.sdb_types.specs.declared.record.Request.TheVariants.{Get, Scan, PutIf, DeleteIf, PutAll};
ghost use Rattle.sdb_types.specs.Draws.{counted};
ghost use Rattle.sdb_types.specs.Order.{key_cmp};
ghost use Rattle.sdb_types.specs.declared.record.Put.{Put};
ghost use Rattle.sdb_types.specs.Contents.{IsBatch, rows_in};
ghost use Rattle.sdb_store.specs.Store.{IsStoreCall, faults_after};
ghost use Rattle.sdb_hashed.specs.Put.{with_rows};
ghost use Rattle.sdb_shards.specs.Homes.{AreHomes, home_of as home_of_lem, partition_key as partition_key_lem};
ghost use Rattle.sdb_shards.specs.Boxes.{HaveRisen, held_in};
ghost use Rattle.sdb_shards.specs.Moves.{IsStop};
ghost use Rattle.sdb_shards.specs.Whole.{ShowsSame, home_in, state_of, whole};

use crate::homes::is_home;
use crate::moves::rows_at;
use crate::parts::Parts;
use crate::refused::MoveRefused;
use crate::shards::Shards;
use sdb_ordered::Tree;
use sdb_store::{Rows, Store};
use sdb_types::{Batch, Condition, Key, NoMemory, Record, Records, Reply, Span, TableName, Values};
use std::collections::BTreeMap;

// One more, as far as a count of 64 bits goes.
fn one_more(n: u64) -> u64
    ensures { result ≡ counted n }
{
    if n < u64::MAX { n + 1 } else { n }
}

// Puts the records that are at home in a box among others, from the last to the first.
fn add_own(
    all: &mut Tree,
    rows: Records,
    moved: &BTreeMap<Key, u32>,
    boxes: u32,
    at: u32,
) -> Result<(), NoMemory>
    requires { 0 < boxes }
    ensures { OnOk result (all.new ≡ with_rows (filter (λ r. home_of_lem (get key_cmp moved.now) boxes r.key == at) rows) all.old) }
{
    let alloc = rows.allocator();
    let mut left = rows.into_vec();
    while let Some(rec) = left.pop() {
        let own = is_home(alloc, moved, boxes, &rec.key, at)?;
        if own {
            all.insert(rec)?;
        }
    }
    Ok(())
}

// The records of a span that are at home, in the order of their keys.
fn gather(
    boxes: &mut Parts,
    moved: &BTreeMap<Key, u32>,
    span: &Span,
) -> Result<Records, MoveRefused>
    requires { AreHomes (length boxes.old) moved.now }
    ensures held { held_in boxes.new ≡ held_in boxes.old }
    ensures rows { IfOk result (λ rows. rows ≡ rows_in span.now (whole moved.now boxes.old)) }
    ensures err { IfErr result (IsStop boxes.old boxes.new) }
{
    let mut all = Tree::new(boxes.allocator());
    let count = boxes.len() as u32;
    let mut at: u32 = 0;
    while at < count {
        let rows = rows_at(boxes, at, span)?;
        add_own(&mut all, rows, moved, count, at)?;
        at += 1;
    }
    Ok(all.list(span)?)
}

// The reply to a scan.
fn listed(found: Result<Records, MoveRefused>) -> Reply
    ensures rows { IfOk found (λ rows. result ≡ Reply.Rows rows) }
    ensures err { OnErr found ((result ≡ Reply.Fault) ⊎ (result ≡ Reply.NoMemory)) }
    ensures fault { result ≡ Reply.Fault → found ≡ Err MoveRefused.Fault }
{
    match found {
        Ok(rows) => Reply::Rows(rows),
        Err(MoveRefused::Fault) => Reply::Fault,
        Err(_) => Reply::NoMemory,
    }
}

// The key of the first put of a batch.
fn first_key(batch: &Batch) -> &Key
    requires { IsBatch batch.now }
    ensures { (put : Put) → result.now ≡ (slice_index_or batch.now 0 put).rec.key }
{
    &batch.as_slice()[0].rec.key
}

impl Shards {
    // The home of a partition, which counts one call more.
    fn begin(&mut self, table: &TableName, partition: &Values) -> Result<u32, NoMemory>
        ensures at { IfOk result (λ at. at ≡ home_in self.old (partition_key_lem table.now partition.now)) }
        ensures inside { IfOk result (λ at. at < length self.old.boxes) }
        ensures boxes { self.new.boxes ≡ self.old.boxes }
        ensures moved { self.new.moved ≡ self.old.moved }
        ensures every { self.new.every ≡ self.old.every }
        ensures calls { self.new.calls ≡ self.old.calls }
        ensures faults { self.new.faults ≡ self.old.faults }
    {
        let at = self.home(table, partition)?;
        self.boxes.count(at);
        Ok(at)
    }

    // Counts a call that is answered so.
    fn answered(&mut self, reply: Reply) -> Reply
        ensures reply { result ≡ reply }
        ensures boxes { self.new.boxes ≡ self.old.boxes }
        ensures moved { self.new.moved ≡ self.old.moved }
        ensures calls { self.new.calls ≡ counted self.old.calls }
        ensures faults { self.new.faults ≡ faults_after reply self.old.faults }
    {
        self.calls = one_more(self.calls);
        if let Reply::Fault = reply {
            self.faults = one_more(self.faults);
        }
        reply
    }

    // Moves a partition after a put in it was applied, where its home has had so many calls.
    fn spread(&mut self, at: u32, reply: &Reply, key: &Key)
        requires { at < length self.old.boxes }
        ensures shows { ShowsSame self.old self.new }
        ensures unmoved { reply.now ≢ Reply.Applied → self.new.boxes ≡ self.old.boxes }
        ensures never { self.old.every ≡ 0 → (self.new.boxes ≡ self.old.boxes) × (self.new.moved ≡ self.old.moved) }
    {
        if let Reply::Applied = reply {
            if self.every != 0 && self.boxes.counted(at) >= self.every as u64 {
                let to = self.boxes.least();
                let _moved = self.move_partition(&key.table, &key.partition, to);
                self.boxes.clear();
            }
        }
    }

    // A scan of a partition.
    fn scan_partition(&mut self, span: &Span, partition: &Values) -> Reply
        requires { span.now.partition ≡ Some partition.now }
        ensures called { IsStoreCall (Scan span.now) result (state_of self.old) (state_of self.new) }
        ensures fault { result ≡ Reply.Fault → HaveRisen self.old.boxes self.new.boxes }
    {
        match self.begin(&span.table, partition) {
            Ok(at) => {
                let reply = self.boxes.scan(at, span);
                self.answered(reply)
            }
            Err(NoMemory) => self.answered(Reply::NoMemory),
        }
    }
}

impl Store for Shards {
    ghost state = { state_of };

    fn get(&mut self, key: &Key) -> Reply
        ensures called { IsStoreCall (Get key.now) result (state_of self.old) (state_of self.new) }
        ensures fault { result ≡ Reply.Fault → HaveRisen self.old.boxes self.new.boxes }
    {
        match self.begin(&key.table, &key.partition) {
            Ok(at) => {
                let reply = self.boxes.get(at, key);
                self.answered(reply)
            }
            Err(NoMemory) => self.answered(Reply::NoMemory),
        }
    }

    fn scan(&mut self, span: &Span) -> Reply
        ensures called { IsStoreCall (Scan span.now) result (state_of self.old) (state_of self.new) }
        ensures fault { result ≡ Reply.Fault → HaveRisen self.old.boxes self.new.boxes }
    {
        match &span.partition {
            Some(partition) => self.scan_partition(span, partition),
            None => {
                let reply = listed(gather(&mut self.boxes, &self.moved, span));
                self.answered(reply)
            }
        }
    }

    fn put_if(&mut self, rec: &Record, condition: &Condition) -> Reply
        ensures called { IsStoreCall (PutIf rec.now condition.now) result (state_of self.old) (state_of self.new) }
        ensures fault { result ≡ Reply.Fault → HaveRisen self.old.boxes self.new.boxes }
        ensures never { self.old.every ≡ 0 → self.new.moved ≡ self.old.moved }
    {
        match self.begin(&rec.key.table, &rec.key.partition) {
            Ok(at) => {
                let reply = self.boxes.put_if(at, rec, condition);
                self.spread(at, &reply, &rec.key);
                self.answered(reply)
            }
            Err(NoMemory) => self.answered(Reply::NoMemory),
        }
    }

    fn delete_if(&mut self, key: &Key, condition: &Condition) -> Reply
        ensures called { IsStoreCall (DeleteIf key.now condition.now) result (state_of self.old) (state_of self.new) }
        ensures fault { result ≡ Reply.Fault → HaveRisen self.old.boxes self.new.boxes }
    {
        match self.begin(&key.table, &key.partition) {
            Ok(at) => {
                let reply = self.boxes.delete_if(at, key, condition);
                self.answered(reply)
            }
            Err(NoMemory) => self.answered(Reply::NoMemory),
        }
    }

    fn put_all(&mut self, batch: &Batch) -> Reply
        requires { IsBatch batch.now }
        ensures called { IsStoreCall (PutAll batch.now) result (state_of self.old) (state_of self.new) }
        ensures fault { result ≡ Reply.Fault → HaveRisen self.old.boxes self.new.boxes }
        ensures never { self.old.every ≡ 0 → self.new.moved ≡ self.old.moved }
    {
        let key = first_key(batch);
        match self.begin(&key.table, &key.partition) {
            Ok(at) => {
                let reply = self.boxes.put_all(at, batch);
                self.spread(at, &reply, key);
                self.answered(reply)
            }
            Err(NoMemory) => self.answered(Reply::NoMemory),
        }
    }
}
