//! The buckets that a hashed store lends.
use crate::calls::replies;
use sdb_hashed::{Bucket, Bucketed, Hashed};
use sdb_model::Event;
use sdb_report::read_report;
use sdb_store::Fails;
use sdb_types::{Records, Reply, Request, Span};
use std::alloc::Global;
use std::test::Fail;
use test_builders::hold;

// Puts that don't come in the order of their keys, and a delete.
const STEPS: &str =
    "scalardb report 1\nevents 6\n1 call 1 s put shop.item(1;3){amount=5,tx_id='00000000-0000-0000-0000-000000000007',tx_state=3} if absent seen applied -\n2 call 1 s put shop.item(1;1){amount=5,tx_id='00000000-0000-0000-0000-000000000007',tx_state=3} if absent seen applied -\n3 call 1 s put shop.item(2;9){amount=6,tx_id='00000000-0000-0000-0000-000000000007',tx_state=3} if absent seen applied -\n4 call 1 s put shop.item(1;2){amount=5,tx_id='00000000-0000-0000-0000-000000000007',tx_state=3} if absent seen applied -\n5 call 1 s put shop.item(1;1){amount=7,tx_id='00000000-0000-0000-0000-000000000007',tx_state=3} if 00000000-0000-0000-0000-000000000007 3 seen applied -\n6 call 1 s delete shop.item(1;2) if 00000000-0000-0000-0000-000000000007 3 seen applied -\norder 0\ntables 0\nend\n";

// What the buckets then are, as scans of their partitions: those of a partition of two records, of one, and of none.
const LENT: &str =
    "scalardb report 1\nevents 3\n1 call 1 s scan shop.item(1) seen rows 2 shop.item(1;1){amount=7,tx_id='00000000-0000-0000-0000-000000000007',tx_state=3} shop.item(1;3){amount=5,tx_id='00000000-0000-0000-0000-000000000007',tx_state=3} -\n2 call 1 s scan shop.item(2) seen rows 1 shop.item(2;9){amount=6,tx_id='00000000-0000-0000-0000-000000000007',tx_state=3} -\n3 call 1 s scan shop.item(3) seen rows 0 -\norder 0\ntables 0\nend\n";

fn is_record(bucket: &Bucket, rows: &Records, i: usize) -> bool {
    match (bucket.at(i), rows.at(i)) {
        (Some(rec), Some(row)) => *rec == *row,
        _ => false,
    }
}

fn has_rows(bucket: &Bucket, rows: &Records) -> bool {
    for i in 0..rows.len() {
        if !is_record(bucket, rows, i) {
            return false;
        }
    }
    bucket.len() == rows.len() && bucket.at(rows.len()).is_none()
}

// Whether the bucket of a partition has these rows.
fn lends(hashed: &Hashed, at: &Span, rows: &Records) -> bool {
    if at.partition.is_none() {
        return false;
    }
    match hashed.bucket(at) {
        Some(bucket) => has_rows(bucket, rows),
        None => rows.is_empty(),
    }
}

fn lends_as(hashed: &Hashed, event: &Event) -> bool {
    match event {
        Event::Call(_, _, request, _, reply, _) => match (request.get(), reply.get()) {
            (Request::Scan(at), Reply::Rows(rows)) => lends(hashed, at, rows),
            _ => false,
        },
        _ => false,
    }
}

fn lends_all(hashed: &Hashed, events: &[Event]) -> bool {
    events.iter().all(|event| lends_as(hashed, event))
}

fn lends_buckets(alloc: Global) -> Result<bool, Fail> {
    let mut hashed = Hashed::new(alloc, Fails::new(alloc));
    replies(alloc, "hashed", &mut hashed, STEPS)?;
    let report = read_report(alloc, LENT.as_bytes())?;
    Ok(lends_all(&hashed, report.events.as_slice()))
}

#[test]
fn lends_the_records_of_a_partition(rt: HostRuntime) -> Result<(), Fail> {
    hold(lends_buckets(rt.alloc()))
}
