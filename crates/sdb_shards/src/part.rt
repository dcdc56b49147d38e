//! A box: a store of its own among several.
ghost use Rattle.sdb_shards.specs.Boxes.{part_state};

use sdb_hashed::Hashed;
use sdb_ordered::Ordered;
use sdb_store::Store;
use sdb_types::{Batch, Condition, Key, Record, Reply, Span};

/// A box.
pub enum Part {
    Ordered(Ordered),
    Hashed(Hashed),
}

// By hand: each drop is then one call, where a derived one is written out at each exit, with a call for each field.
impl Drop for Part {
    fn drop(self) {
        match self {
            Part::Ordered(_) => {}
            Part::Hashed(_) => {}
        }
    }
}

// A call of a box is a call of the store inside.
impl Store for Part {
    ghost state = { part_state };

    fn get(&mut self, key: &Key) -> Reply {
        match self {
            Part::Ordered(store) => store.get(key),
            Part::Hashed(store) => store.get(key),
        }
    }

    fn scan(&mut self, span: &Span) -> Reply {
        match self {
            Part::Ordered(store) => store.scan(span),
            Part::Hashed(store) => store.scan(span),
        }
    }

    fn put_if(&mut self, rec: &Record, condition: &Condition) -> Reply {
        match self {
            Part::Ordered(store) => store.put_if(rec, condition),
            Part::Hashed(store) => store.put_if(rec, condition),
        }
    }

    fn delete_if(&mut self, key: &Key, condition: &Condition) -> Reply {
        match self {
            Part::Ordered(store) => store.delete_if(key, condition),
            Part::Hashed(store) => store.delete_if(key, condition),
        }
    }

    fn put_all(&mut self, batch: &Batch) -> Reply {
        match self {
            Part::Ordered(store) => store.put_all(batch),
            Part::Hashed(store) => store.put_all(batch),
        }
    }
}
