//! The store.
ghost use Rattle.std.specs.Prelude.{◌≡◌, ◌⊎◌, Ok, IfOk, IfErr};
ghost use Rattle.sqlite.specs.Steps.{over_memory};
ghost use Rattle.sdb_types.specs.Contents.{IsBatch};
ghost use Rattle.sdb_types.specs.declared.record.Request.TheVariants.{Get, Scan, PutIf, DeleteIf, PutAll};
ghost use Rattle.sdb_codec.specs.Spelling.{KeyIsEncodable, RecordIsEncodable};
ghost use Rattle.sdb_store.specs.Store.{IsNewStore, IsStoreCall};
ghost use Rattle.sdb_sqlite.specs.Spans.{SpanIsEncodable};
ghost use Rattle.sdb_sqlite.specs.Database.{IsNewDatabase, IsStoreOn, store_state_of};
ghost use Rattle.sdb_sqlite.specs.Released.{IsReleased};
ghost use Rattle.sdb_sqlite.specs.Making.{IsMade, IsNotMade, IsRefusedIn, refused_by};
ghost use Rattle.sdb_sqlite.specs.Asked.{Gets, Scans, Puts, PutsAll, Removes, IsAnswered, batch_reply, got_reply, rows_reply, write_reply};
ghost use Rattle.sdb_sqlite.specs.Stopping.{stopped_by};

use crate::batch::{BatchWritten, put_all};
use crate::calls::{Written, delete, find, list, put};
use crate::facts::span_facts;
use crate::held::Held;
use crate::refused::{KeptRefused, one_more, stop};
use crate::statements::make_table;
use sdb_store::Store;
use sdb_types::{Batch, Condition, Key, Record, Reply, Span, batch_facts, key_facts, record_facts};
use sqlite::{Connection, Error, ErrorCode, MemStore};
use std::alloc::Global;

/// Records in the table `records` of a database.
///
/// A row has the bytes of a key, the table's name, the bytes of the key's partition, and the bytes of the record. A row
/// whose body spells no record of its key means a record without columns. An index by the table's name and the partition
/// finds the rows of a scan. A call that changes anything changes it in one statement, and a batch in one transaction.
pub struct Kept<S: Held + Drop> {
    alloc: Global,
    connection: Connection<S>,
    faults: u64,
    calls: u64,
}

// By hand: each drop is then one call, where a derived one is written out at each exit, with a call for each field.
impl<S: Held + Drop> Drop for Kept<S> {
    fn drop(self) {
        let Kept {
            alloc: _,
            connection: _,
            faults: _,
            calls: _,
        } = self;
    }
}

fn refused(error: Error) -> KeptRefused
    ensures { result ≡ refused_by (stopped_by error) }
{
    match error {
        Error::SqliteFailure(ErrorCode::OutOfMemory) => KeptRefused::NoMemory,
        _ => KeptRefused::Database,
    }
}

impl<S: Held + Drop> Kept<S> {
    /// A store over a connection. The table is made where there is none of its name, and also its index by table and
    /// partition. The connection is dropped where that is refused: `Database` comes only for another cause than memory.
    pub fn new(alloc: Global, mut connection: Connection<S>) -> Result<Kept<S>, KeptRefused>
        ensures made { IfOk result (λ kept. IsMade S.Store connection kept.connection) }
        ensures sound { IfOk result (λ kept. (⟦<Kept<S> as Store>⟧.state kept).faults ≡ 0) }
        ensures unused { IfOk result (λ kept. (⟦<Kept<S> as Store>⟧.state kept).calls ≡ 0) }
        ensures refused { IfErr result (IsNotMade S.Store connection) }
        ensures blank { IfOk result (λ kept. IsNewDatabase S.Store S.Held.is_known connection kept.connection) }
        ensures found { IfOk result (λ kept. IsStoreOn S.Store S.Held.is_known connection kept.connection) }
    {
        match make_table(&mut connection) {
            Ok(_) => Ok(Kept {
                alloc,
                connection,
                faults: 0,
                calls: 0,
            }),
            Err(error) => Err(refused(error)),
        }
    }

    /// The connection, as it is. Where the contents are known, its table has one row for each record held, and no other row, and a
    /// store that is made over it holds the same.
    pub fn release(self) -> Connection<S>
        ensures connection { result ≡ self.connection }
        ensures released { (⟦<Kept<S> as Store>⟧.state self).known → IsReleased S.Store (⟦<Kept<S> as Store>⟧.state self).contents result }
    {
        let Kept {
            alloc: _,
            connection,
            faults: _,
            calls: _,
        } = self;
        connection
    }
}

impl Kept<MemStore> {
    /// A store over a new database in memory.
    pub fn in_memory(alloc: Global) -> Result<Kept<MemStore>, KeptRefused>
        ensures new { IfOk result (λ kept. IsNewStore (⟦<Kept<MemStore> as Store>⟧.state kept)) }
        ensures refused { IfErr result (λ refused. (refused ≡ KeptRefused.NoMemory) ⊎ IsRefusedIn over_memory refused) }
    {
        match Connection::open_in_memory(alloc) {
            Ok(connection) => Kept::new(alloc, connection),
            Err(_) => Err(KeptRefused::NoMemory),
        }
    }
}

fn reply_of(written: Written) -> Reply
    ensures { result ≡ write_reply (Ok written) }
{
    match written {
        Written::Applied => Reply::Applied,
        Written::NotMet(found) => Reply::NotMet(found),
    }
}

fn reply_of_batch(written: BatchWritten) -> Reply
    ensures { result ≡ batch_reply (Ok written) }
{
    match written {
        BatchWritten::AllWritten => Reply::Applied,
        BatchWritten::FirstUnmet(place, found) => Reply::NotAll(place, found),
    }
}

impl<S: Held + Drop> Store for Kept<S> {
    // In memory its contents are known, where the database has its table and index and nothing else.
    ghost state = { λ kept. store_state_of S.Store S.Held.is_known kept.connection kept.faults kept.calls };

    fn get(&mut self, key: &Key) -> Reply
        ensures called { IsStoreCall (Get key.now) result (⟦<Kept<S> as Store>⟧.state self.old) (⟦<Kept<S> as Store>⟧.state self.new) }
        ensures asked { IsAnswered got_reply (Gets S.Store key.now self.old.connection self.new.connection) result }
        ensures unfit { ¬ KeyIsEncodable key.now → (result ≡ Reply.Fault) × (self.new.connection ≡ self.old.connection) }
    {
        key_facts(key);
        self.calls = one_more(self.calls);
        match find(self.alloc, &mut self.connection, key) {
            Ok(found) => Reply::Found(found),
            Err(stopped) => stop(&mut self.faults, stopped),
        }
    }

    fn scan(&mut self, span: &Span) -> Reply
        ensures called { IsStoreCall (Scan span.now) result (⟦<Kept<S> as Store>⟧.state self.old) (⟦<Kept<S> as Store>⟧.state self.new) }
        ensures asked { IsAnswered rows_reply (Scans S.Store span.now self.old.connection self.new.connection) result }
        ensures unfit { ¬ SpanIsEncodable span.now → ((result ≡ Reply.Fault) ⊎ (result ≡ Reply.NoMemory)) × (self.new.connection ≡ self.old.connection) }
    {
        span_facts(span);
        self.calls = one_more(self.calls);
        match list(self.alloc, &mut self.connection, span) {
            Ok(rows) => Reply::Rows(rows),
            Err(stopped) => stop(&mut self.faults, stopped),
        }
    }

    fn put_if(&mut self, rec: &Record, condition: &Condition) -> Reply
        ensures called { IsStoreCall (PutIf rec.now condition.now) result (⟦<Kept<S> as Store>⟧.state self.old) (⟦<Kept<S> as Store>⟧.state self.new) }
        ensures asked { IsAnswered write_reply (Puts S.Store rec.now condition.now self.old.connection self.new.connection) result }
        ensures unfit { ¬ RecordIsEncodable rec.now → (result ≡ Reply.Fault) × (self.new.connection ≡ self.old.connection) }
    {
        record_facts(rec);
        self.calls = one_more(self.calls);
        match put(self.alloc, &mut self.connection, rec, condition) {
            Ok(written) => reply_of(written),
            Err(stopped) => stop(&mut self.faults, stopped),
        }
    }

    fn delete_if(&mut self, key: &Key, condition: &Condition) -> Reply
        ensures called { IsStoreCall (DeleteIf key.now condition.now) result (⟦<Kept<S> as Store>⟧.state self.old) (⟦<Kept<S> as Store>⟧.state self.new) }
        ensures asked { IsAnswered write_reply (Removes S.Store key.now condition.now self.old.connection self.new.connection) result }
        ensures unfit { ¬ KeyIsEncodable key.now → (result ≡ Reply.Fault) × (self.new.connection ≡ self.old.connection) }
    {
        key_facts(key);
        self.calls = one_more(self.calls);
        match delete(self.alloc, &mut self.connection, key, condition) {
            Ok(written) => reply_of(written),
            Err(stopped) => stop(&mut self.faults, stopped),
        }
    }

    fn put_all(&mut self, batch: &Batch) -> Reply
        requires { IsBatch batch.now }
        ensures called { IsStoreCall (PutAll batch.now) result (⟦<Kept<S> as Store>⟧.state self.old) (⟦<Kept<S> as Store>⟧.state self.new) }
        ensures asked { IsAnswered batch_reply (PutsAll S.Store batch.now self.old.connection self.new.connection) result }
    {
        batch_facts(batch);
        self.calls = one_more(self.calls);
        match put_all(self.alloc, &mut self.connection, batch) {
            Ok(written) => reply_of_batch(written),
            Err(stopped) => stop(&mut self.faults, stopped),
        }
    }
}
