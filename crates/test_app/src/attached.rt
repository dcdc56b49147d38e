//! The stores that tests play on.
ghost use Rattle.std.specs.Prelude.{◌≡◌};
ghost use Rattle.std.specs.FinMap as map;
ghost use Rattle.sdb_types.specs.Draws.{counted as next_number};

use crate::run::{Call, On, ends};
use sdb_hashed::Hashed;
use sdb_ordered::Ordered;
use sdb_shards::{Part, Parts, Shards};
use sdb_sqlite::Kept;
use sdb_store::{Fails, Store};
use sdb_stores::Stores;
use sdb_types::{Batch, Condition, Key, Name, Record, Reply, Span};
use std::alloc::Global;
use std::test::Fail;

// A store in memory, of which the call with this number finds no memory.
#[derive(Drop)]
struct Short {
    ordered: Ordered,
    made: u64,
    wanting: u64,
}

impl Short {
    // Counts a call more: whether it finds memory.
    fn finds_memory(&mut self) -> bool
        ensures ordered { self.new.ordered ≡ self.old.ordered }
        ensures counted { self.new.made ≡ next_number self.old.made }
    {
        self.made = self.made.saturating_add(1);
        self.made != self.wanting
    }
}

impl Store for Short {
    ghost state = { λ s. record { known = ⊥; contents = map.empty; faults = (⟦<Ordered as Store>⟧.state s.ordered).faults; calls = s.made } };

    fn get(&mut self, key: &Key) -> Reply {
        if !self.finds_memory() {
            return Reply::NoMemory;
        }
        self.ordered.get(key)
    }

    fn scan(&mut self, span: &Span) -> Reply {
        if !self.finds_memory() {
            return Reply::NoMemory;
        }
        self.ordered.scan(span)
    }

    fn put_if(&mut self, rec: &Record, condition: &Condition) -> Reply {
        if !self.finds_memory() {
            return Reply::NoMemory;
        }
        self.ordered.put_if(rec, condition)
    }

    fn delete_if(&mut self, key: &Key, condition: &Condition) -> Reply {
        if !self.finds_memory() {
            return Reply::NoMemory;
        }
        self.ordered.delete_if(key, condition)
    }

    fn put_all(&mut self, batch: &Batch) -> Reply {
        if !self.finds_memory() {
            return Reply::NoMemory;
        }
        self.ordered.put_all(batch)
    }
}

fn attach(
    alloc: Global,
    stores: &mut Stores,
    name: &str,
    store: Box<dyn Store>,
) -> Result<bool, Fail> {
    let name = Name::new(alloc, name)?;
    Ok(stores.attach(name, store).is_ok())
}

// The store `ordered`, of which these calls fail.
fn attach_ordered(alloc: Global, stores: &mut Stores, failing: Fails) -> Result<bool, Fail> {
    attach(
        alloc,
        stores,
        "ordered",
        Box::new(alloc, Ordered::new(alloc, failing))?,
    )
}

fn attach_hashed(alloc: Global, stores: &mut Stores) -> Result<bool, Fail> {
    let hashed = Hashed::new(alloc, Fails::new(alloc));
    attach(alloc, stores, "hashed", Box::new(alloc, hashed)?)
}

fn attach_sqlite(alloc: Global, stores: &mut Stores) -> Result<bool, Fail> {
    let database = Kept::in_memory(alloc)?;
    attach(alloc, stores, "sqlite", Box::new(alloc, database)?)
}

// The store `sharded` over three boxes, which moves a partition when its home has had two calls.
fn attach_sharded(alloc: Global, stores: &mut Stores) -> Result<bool, Fail> {
    let mut boxes = Parts::new(alloc);
    boxes.push(Part::Ordered(Ordered::new(alloc, Fails::new(alloc))))?;
    boxes.push(Part::Hashed(Hashed::new(alloc, Fails::new(alloc))))?;
    boxes.push(Part::Ordered(Ordered::new(alloc, Fails::new(alloc))))?;
    if boxes.len() != 3 {
        return Ok(false);
    }
    let shards = Shards::new(boxes, 2);
    attach(alloc, stores, "sharded", Box::new(alloc, shards)?)
}

// The store `ordered`, of which the call with this number finds no memory.
fn attach_short(alloc: Global, stores: &mut Stores, call: u64) -> Result<bool, Fail> {
    let short = Short {
        ordered: Ordered::new(alloc, Fails::new(alloc)),
        made: 0,
        wanting: call,
    };
    attach(alloc, stores, "ordered", Box::new(alloc, short)?)
}

fn fails_at(alloc: Global, call: u64, after: bool) -> Result<Fails, Fail> {
    let mut failing = Fails::new(alloc);
    failing.push(sdb_store::Fail { call, after })?;
    Ok(failing)
}

/// Attaches the stores of a call.
pub fn attach_all(alloc: Global, stores: &mut Stores, on: On) -> Result<bool, Fail> {
    match on {
        On::Two => {
            Ok(attach_ordered(alloc, stores, Fails::new(alloc))? && attach_hashed(alloc, stores)?)
        }
        On::Three => {
            Ok(
                attach_ordered(alloc, stores, Fails::new(alloc))?
                    && attach_hashed(alloc, stores)?
                    && attach_sqlite(alloc, stores)?,
            )
        }
        On::Four => {
            Ok(
                attach_ordered(alloc, stores, Fails::new(alloc))?
                    && attach_hashed(alloc, stores)?
                    && attach_sqlite(alloc, stores)?
                    && attach_sharded(alloc, stores)?,
            )
        }
        On::TwoFailing(call, after) => {
            let failing = fails_at(alloc, call, after)?;
            Ok(attach_ordered(alloc, stores, failing)? && attach_hashed(alloc, stores)?)
        }
        On::TwoShort(call) => {
            Ok(attach_short(alloc, stores, call)? && attach_hashed(alloc, stores)?)
        }
        On::One => attach_ordered(alloc, stores, Fails::new(alloc)),
        On::Failing(call, after) => { attach_ordered(alloc, stores, fails_at(alloc, call, after)?) }
        On::Short(call) => attach_short(alloc, stores, call),
    }
}

/// Whether a call of the program ends as listed.
pub fn gives(alloc: Global, call: Call<'_>) -> Result<bool, Fail> {
    let mut stores = Stores::new(alloc);
    Ok(attach_all(alloc, &mut stores, call.on)? && ends(alloc, &mut stores, call)?)
}
