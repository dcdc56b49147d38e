//! Puts in a store over three boxes, of which four in five go to three partitions that have one home at first, and how many of them the
//! box of a number got.
use crate::records::{ID, columns_of, key_of, table};
use crate::words::number;
use sdb_hashed::Hashed;
use sdb_ordered::Ordered;
use sdb_shards::{Part, Parts, Shards};
use sdb_store::{Fails, Store};
use sdb_types::{Condition, Record, Reply, State};
use std::alloc::Global;
use std::env::Args;

// How many boxes there are.
const BOXES: i64 = 3;

// How many partitions there are beside those that get most puts.
const OTHERS: i64 = 97;

// The partition of a put: of five puts one goes round the others. The sums of the keys of the partitions 0, 3 and 6 differ by three.
fn partition_of(turn: i64) -> Option<i64> {
    if turn.checked_rem(5)? == 0 {
        turn.checked_div(5)?.checked_rem(OTHERS)?.checked_add(7)
    } else {
        turn.checked_rem(BOXES)?.checked_mul(BOXES)
    }
}

fn record_of(alloc: Global, partition: i64) -> Option<Record> {
    let key = key_of(alloc, &table(alloc)?, partition, 0)?;
    let columns = columns_of(alloc)?;
    Some(Record { key, columns })
}

fn boxes(alloc: Global) -> Option<Parts> {
    let mut boxes = Parts::new(alloc);
    boxes
        .push(Part::Ordered(Ordered::new(alloc, Fails::new(alloc))))
        .ok()?;
    boxes
        .push(Part::Hashed(Hashed::new(alloc, Fails::new(alloc))))
        .ok()?;
    boxes
        .push(Part::Ordered(Ordered::new(alloc, Fails::new(alloc))))
        .ok()?;
    Some(boxes)
}

// Puts a record, over that which is there, and says which box had it.
fn put(alloc: Global, shards: &mut Shards, partition: i64) -> Option<i64> {
    let rec = record_of(alloc, partition)?;
    let home = shards.home(&rec.key.table, &rec.key.partition).ok()?;
    let reply = match shards.get(&rec.key) {
        Reply::Found(None) => shards.put_if(&rec, &Condition::Absent),
        _ => shards.put_if(&rec, &Condition::Version(ID, State::Committed)),
    };
    match reply {
        Reply::Applied => Some(i64::from(home)),
        _ => None,
    }
}

/// How many of so many puts the box of a number got, where a partition is moved as soon as its home has had so many calls, or never at 0.
pub fn play(alloc: Global, words: &mut Args) -> Option<usize> {
    let every = u32::try_from(number(words)?).ok()?;
    let turns = number(words)?;
    let at = number(words)?;
    let boxes = boxes(alloc)?;
    if boxes.len() != 3 {
        return None;
    }
    let mut shards = Shards::new(boxes, every);
    let mut count: usize = 0;
    for turn in 0..turns {
        if put(alloc, &mut shards, partition_of(turn)?)? == at {
            count = count.checked_add(1)?;
        }
    }
    Some(count)
}
