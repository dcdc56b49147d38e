//! A store in memory filled with records in partitions of ten, and one kind of call again and again, at keys spread over all of them.
use crate::records::{ID, columns_of, key_of, span_of, table};
use crate::words::number;
use sdb_hashed::Hashed;
use sdb_ordered::Ordered;
use sdb_store::{Fails, Store, call};
use sdb_types::{Condition, Key, Record, Reply, Request, Span, State, is_well_formed};
use std::alloc::Global;
use std::env::Args;

// How many records a partition has.
const ROWS: i64 = 10;

// From one call's record to the next one's: a prime, so that each power of ten has all its records called.
const STRIDE: i64 = 7919;

/// The store that is filled. A further store gets its name in `store_of` and its line in `play_load`.
#[derive(Clone, Copy)]
enum StoreKind {
    Ordered,
    Hashed,
}

/// The call that is made: a get of a record, a put over a record, or a scan of a partition.
#[derive(Clone, Copy)]
enum CallKind {
    Get,
    Put,
    Scan,
}

/// The store and the call, how many records there are, and how often the call is made.
#[derive(Clone, Copy)]
struct Load {
    store: StoreKind,
    call: CallKind,
    records: i64,
    turns: i64,
}

// The key of a record: its partition, and its row there.
fn key_at(alloc: Global, number: i64) -> Option<Key> {
    key_of(alloc, &table(alloc)?, number / ROWS, number % ROWS)
}

fn record_of(alloc: Global, number: i64) -> Option<Record> {
    let key = key_at(alloc, number)?;
    let columns = columns_of(alloc)?;
    Some(Record { key, columns })
}

fn put_of(alloc: Global, number: i64) -> Option<Request> {
    let rec = record_of(alloc, number)?;
    Some(Request::PutIf(rec, Condition::Version(ID, State::Committed)))
}

// The scan of the partition that a record lies in.
fn scan_of(alloc: Global, number: i64) -> Option<Request> {
    Some(Request::Scan(span_of(alloc, &table(alloc)?, number / ROWS)?))
}

fn request_of(alloc: Global, call: CallKind, number: i64) -> Option<Request> {
    match call {
        CallKind::Get => Some(Request::Get(key_at(alloc, number)?)),
        CallKind::Put => put_of(alloc, number),
        CallKind::Scan => scan_of(alloc, number),
    }
}

// The record whose turn is next.
fn after(number: i64, records: i64) -> Option<i64> {
    number.checked_add(STRIDE)?.checked_rem(records)
}

// As many requests as there are records, one at each, or at its partition.
fn add_requests(alloc: Global, requests: &mut Vec<Request>, load: Load) -> Option<()> {
    let mut number = 0;
    for _ in 0..load.records {
        requests.push(request_of(alloc, load.call, number)?).ok()?;
        number = after(number, load.records)?;
    }
    Some(())
}

// How many records a reply shows, or was applied to.
fn counted(reply: &Reply) -> Option<usize> {
    match reply {
        Reply::Found(Some(_)) | Reply::Applied => Some(1),
        Reply::Rows(rows) => Some(rows.len()),
        _ => None,
    }
}

fn insert<S: Store>(store: &mut S, rec: &Record) -> Option<usize> {
    counted(&store.put_if(rec, &Condition::Absent))
}

fn fill<S: Store>(alloc: Global, store: &mut S, records: i64) -> Option<()> {
    for number in 0..records {
        insert(store, &record_of(alloc, number)?)?;
    }
    Some(())
}

fn make<S: Store>(store: &mut S, request: &Request) -> Option<usize> {
    if is_well_formed(request) {
        counted(&call(store, request))
    } else {
        None
    }
}

// Goes through the requests, one a turn, and returns how many records all replies showed.
fn play_turns<S: Store>(store: &mut S, requests: &[Request], turns: i64) -> Option<usize> {
    let mut total: usize = 0;
    let mut place = 0;
    for _ in 0..turns {
        let observed = make(store, requests.get(place)?)?;
        total = total.checked_add(observed)?;
        place = if place + 1 < requests.len() {
            place + 1
        } else {
            0
        };
    }
    Some(total)
}

fn play_requests<S: Store>(alloc: Global, store: &mut S, load: Load) -> Option<usize> {
    let mut requests = Vec::new(alloc);
    add_requests(alloc, &mut requests, load)?;
    play_turns(store, requests.as_slice(), load.turns)
}

fn play_on<S: Store>(alloc: Global, store: &mut S, load: Load) -> Option<usize> {
    fill(alloc, store, load.records)?;
    play_requests(alloc, store, load)
}

fn play_load(alloc: Global, load: Load) -> Option<usize> {
    let fails = Fails::new(alloc);
    match load.store {
        StoreKind::Ordered => play_on(alloc, &mut Ordered::new(alloc, fails), load),
        StoreKind::Hashed => play_on(alloc, &mut Hashed::new(alloc, fails), load),
    }
}

fn store_of(word: &str) -> Option<StoreKind> {
    match word {
        "ordered" => Some(StoreKind::Ordered),
        "hashed" => Some(StoreKind::Hashed),
        _ => None,
    }
}

fn call_of(word: &str) -> Option<CallKind> {
    match word {
        "get" => Some(CallKind::Get),
        "put" => Some(CallKind::Put),
        "scan" => Some(CallKind::Scan),
        _ => None,
    }
}

fn load_of(store: StoreKind, call: CallKind, words: &mut Args) -> Option<Load> {
    let records = number(words)?;
    let turns = number(words)?;
    Some(Load {
        store,
        call,
        records,
        turns,
    })
}

/// Plays the load of the words: the store, the call, the records, and the turns.
pub fn play(alloc: Global, words: &mut Args) -> Option<usize> {
    let store = store_of(words.next()?.as_str())?;
    let call = call_of(words.next()?.as_str())?;
    play_load(alloc, load_of(store, call, words)?)
}
