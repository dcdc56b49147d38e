//! One store over several boxes.
use crate::answers::{BATCHES, STEPS};
use crate::calls::{replies, replies_of};
use sdb_hashed::Hashed;
use sdb_ordered::Ordered;
use sdb_shards::{MoveRefused, Part, Parts, Shards};
use sdb_store::{Fail as Failing, Fails};
use sdb_types::{Key, NoMemory};
use std::alloc::Global;
use std::test::Fail;
use test_builders::{account, hold};

// Three accounts that are put.
const PUTS: &str =
    "scalardb report 1\nevents 3\n1 call 1 s put bank.account(1){balance=10,tx_id='00000000-0000-0000-0000-000000000007',tx_state=3} if absent seen applied -\n2 call 1 s put bank.account(2){balance=20,tx_id='00000000-0000-0000-0000-000000000007',tx_state=3} if absent seen applied -\n3 call 1 s put bank.account(3){balance=30,tx_id='00000000-0000-0000-0000-000000000007',tx_state=3} if absent seen applied -\norder 0\ntables 0\nend\n";

// What is then read of them.
const READS: &str =
    "scalardb report 1\nevents 2\n1 call 1 s get bank.account(1) seen found bank.account(1){balance=10,tx_id='00000000-0000-0000-0000-000000000007',tx_state=3} -\n2 call 1 s scan bank.account seen rows 3 bank.account(1){balance=10,tx_id='00000000-0000-0000-0000-000000000007',tx_state=3} bank.account(2){balance=20,tx_id='00000000-0000-0000-0000-000000000007',tx_state=3} bank.account(3){balance=30,tx_id='00000000-0000-0000-0000-000000000007',tx_state=3} -\norder 0\ntables 0\nend\n";

// A put where there is none, one over the version that is then there, and a get.
const FIRST: &str =
    "scalardb report 1\nevents 1\n1 call 1 s put bank.account(1){balance=10,tx_id='00000000-0000-0000-0000-000000000007',tx_state=3} if absent seen applied -\norder 0\ntables 0\nend\n";

const AGAIN: &str =
    "scalardb report 1\nevents 1\n1 call 1 s put bank.account(1){balance=10,tx_id='00000000-0000-0000-0000-000000000007',tx_state=3} if 00000000-0000-0000-0000-000000000007 3 seen applied -\norder 0\ntables 0\nend\n";

const GET: &str =
    "scalardb report 1\nevents 1\n1 call 1 s get bank.account(1) seen found bank.account(1){balance=10,tx_id='00000000-0000-0000-0000-000000000007',tx_state=3} -\norder 0\ntables 0\nend\n";

// A box without records.
const EMPTY: &str =
    "scalardb report 1\nevents 1\n1 call 1 s scan bank.account seen rows 0 -\norder 0\ntables 0\nend\n";

// Three boxes, of which the first fails as listed.
fn boxes(alloc: Global, failing: Fails) -> Result<Parts, NoMemory> {
    let mut boxes = Parts::new(alloc);
    boxes.push(Part::Ordered(Ordered::new(alloc, failing)))?;
    boxes.push(Part::Hashed(Hashed::new(alloc, Fails::new(alloc))))?;
    boxes.push(Part::Ordered(Ordered::new(alloc, Fails::new(alloc))))?;
    Ok(boxes)
}

fn shards(alloc: Global, failing: Fails, every: u32) -> Result<Option<Shards>, NoMemory> {
    let boxes = boxes(alloc, failing)?;
    if boxes.len() == 0 || boxes.len() >= 4_294_967_296 {
        return Ok(None);
    }
    Ok(Some(Shards::new(boxes, every)))
}

fn is_home(shards: &Shards, key: &Key, at: u32) -> Result<bool, NoMemory> {
    Ok(shards.home(&key.table, &key.partition)? == at)
}

fn moves(shards: &mut Shards, key: &Key, to: u32, copied: u64) -> bool {
    match shards.move_partition(&key.table, &key.partition, to) {
        Ok(n) => n == copied,
        Err(_) => false,
    }
}

// The last box has no record.
fn last_is_empty(alloc: Global, boxes: &mut Parts) -> Result<bool, Fail> {
    match boxes.pop() {
        Some(part) => {
            let mut part = part;
            replies(alloc, "box", &mut part, EMPTY)?;
            Ok(true)
        }
        None => Ok(false),
    }
}

fn has_homes(alloc: Global, shards: &Shards) -> Result<bool, Fail> {
    Ok(
        is_home(shards, &account(alloc, 1)?, 2)?
            && is_home(shards, &account(alloc, 2)?, 0)?
            && is_home(shards, &account(alloc, 3)?, 1)?,
    )
}

fn moves_one(alloc: Global) -> Result<bool, Fail> {
    let Some(mut shards) = shards(alloc, Fails::new(alloc), 0)? else {
        return Ok(false);
    };
    replies(alloc, "puts", &mut shards, PUTS)?;
    let key = account(alloc, 1)?;
    let homes = has_homes(alloc, &shards)? && moves(&mut shards, &key, 0, 1);
    replies(alloc, "reads", &mut shards, READS)?;
    let refused = match shards.move_partition(&key.table, &key.partition, 3) {
        Err(MoveRefused::NoBox) => true,
        _ => false,
    };
    let moved = is_home(&shards, &key, 0)?;
    let mut boxes = shards.take_apart();
    Ok(homes && refused && moved && last_is_empty(alloc, &mut boxes)?)
}

fn fails_to_move(alloc: Global) -> Result<bool, Fail> {
    let mut failing = Fails::new(alloc);
    failing.push(Failing {
        call: 3,
        after: false,
    })?;
    let Some(mut shards) = shards(alloc, failing, 0)? else {
        return Ok(false);
    };
    replies(alloc, "puts", &mut shards, PUTS)?;
    let key = account(alloc, 1)?;
    let refused = match shards.move_partition(&key.table, &key.partition, 0) {
        Err(MoveRefused::Fault) => true,
        _ => false,
    };
    replies(alloc, "reads", &mut shards, READS)?;
    Ok(refused && is_home(&shards, &key, 2)?)
}

fn spreads(alloc: Global) -> Result<bool, Fail> {
    let Some(mut shards) = shards(alloc, Fails::new(alloc), 2)? else {
        return Ok(false);
    };
    let key = account(alloc, 1)?;
    replies(alloc, "first", &mut shards, FIRST)?;
    let first = is_home(&shards, &key, 2)?;
    replies(alloc, "again", &mut shards, AGAIN)?;
    let second = is_home(&shards, &key, 0)?;
    replies(alloc, "get", &mut shards, GET)?;
    replies(alloc, "again", &mut shards, AGAIN)?;
    let third = is_home(&shards, &key, 1)?;
    replies(alloc, "get", &mut shards, GET)?;
    let mut boxes = shards.take_apart();
    let last = last_is_empty(alloc, &mut boxes)?;
    let _middle = boxes.pop();
    Ok(first && second && third && last && last_is_empty(alloc, &mut boxes)?)
}

#[test]
fn moves_a_partition(rt: HostRuntime) -> Result<(), Fail> {
    hold(moves_one(rt.alloc()))
}

#[test]
fn keeps_a_partition_that_is_not_moved(rt: HostRuntime) -> Result<(), Fail> {
    hold(fails_to_move(rt.alloc()))
}

#[test]
fn spreads_partitions_by_their_calls(rt: HostRuntime) -> Result<(), Fail> {
    hold(spreads(rt.alloc()))
}

// A store of its own for these calls, which moves partitions between them.
fn answers(alloc: Global, name: &'static str, report: &str) -> Result<bool, Fail> {
    match shards(alloc, Fails::new(alloc), 2)? {
        Some(shards) => {
            replies_of(alloc, name, shards, report)?;
            Ok(true)
        }
        None => Ok(false),
    }
}

fn answers_all(alloc: Global) -> Result<bool, Fail> {
    Ok(answers(alloc, "sharded", STEPS)? && answers(alloc, "sharded batches", BATCHES)?)
}

#[test]
fn answers_as_a_map_does(rt: HostRuntime) -> Result<(), Fail> {
    hold(answers_all(rt.alloc()))
}
