//! The calls of a store.
ghost use Rattle.sdb_types.specs.declared.record.Request.TheVariants.{Get, Scan, PutIf, DeleteIf, PutAll};
ghost use Rattle.sdb_types.specs.Contents.{IsBatch, IsWellFormed};
ghost use Rattle.sdb_store.specs.Store.{StoreState, IsStoreCall};

use sdb_types::{Batch, Condition, Key, Record, Reply, Request, Span};

/// Records by key. Each call takes effect at once, wholly or not at all.
///
/// A store of known contents answers as a map from key to record does. `Reply::Fault` says that the call failed:
/// it may have accepted effect or not, and nothing else counts as a failure. `Reply::NoMemory` says that it took none.
pub trait Store: Drop {
    /// What it shows: whether its contents are known, what it then holds, how many calls have failed, and how many were made.
    ghost state: { Self → StoreState };

    /// Finds the record at a key.
    fn get(&mut self, key: &Key) -> Reply
        ensures called { IsStoreCall (Get key.now) result (state self.old) (state self.new) };

    /// Finds the records of a span, in the order of their keys.
    fn scan(&mut self, span: &Span) -> Reply
        ensures called { IsStoreCall (Scan span.now) result (state self.old) (state self.new) };

    /// Puts a record at its key, where the condition holds of what is there.
    fn put_if(&mut self, rec: &Record, condition: &Condition) -> Reply
        ensures called { IsStoreCall (PutIf rec.now condition.now) result (state self.old) (state self.new) };

    /// Takes the record at a key out, where the condition holds of what is there.
    fn delete_if(&mut self, key: &Key, condition: &Condition) -> Reply
        ensures called { IsStoreCall (DeleteIf key.now condition.now) result (state self.old) (state self.new) };

    /// Puts each record of a batch at its key, where each condition holds of what is there, and otherwise none.
    fn put_all(&mut self, batch: &Batch) -> Reply
        requires { IsBatch batch.now }
        ensures called { IsStoreCall (PutAll batch.now) result (state self.old) (state self.new) };
}

// A call of a box is a call of the store inside.
impl Store for Box<dyn Store> {
    ghost state = { λ b. (Store-box b).state b.value };

    fn get(&mut self, key: &Key) -> Reply {
        (**self).get(key)
    }

    fn scan(&mut self, span: &Span) -> Reply {
        (**self).scan(span)
    }

    fn put_if(&mut self, rec: &Record, condition: &Condition) -> Reply {
        (**self).put_if(rec, condition)
    }

    fn delete_if(&mut self, key: &Key, condition: &Condition) -> Reply {
        (**self).delete_if(key, condition)
    }

    fn put_all(&mut self, batch: &Batch) -> Reply {
        (**self).put_all(batch)
    }
}

/// The call that a request asks for.
pub fn call<S: Store>(store: &mut S, request: &Request) -> Reply
    requires { IsWellFormed request.now }
    ensures called { IsStoreCall request.now result (S.state store.old) (S.state store.new) }
{
    match request {
        Request::Get(key) => store.get(key),
        Request::Scan(span) => store.scan(span),
        Request::PutIf(rec, condition) => store.put_if(rec, condition),
        Request::DeleteIf(key, condition) => store.delete_if(key, condition),
        Request::PutAll(batch) => store.put_all(batch),
    }
}
