//! The recorded transactions, and their order.
use crate::contents::records_in;
use crate::moments::{closing_of, rows_of, store_of};
use check_answers::Stores;
use check_protocol::decided;
use check_tables::{PlainTables, order_of};
use sdb_model::{Event, Points};
use sdb_record::{Decision, coordinator_table, id_of_row};
use sdb_types::{NoMemory, Record, Seq, Span, TxId};
use std::alloc::Global;

// The transaction that a row of the coordinator records as committed.
fn recorded_by(alloc: Global, row: &Record) -> Option<TxId> {
    let decided = decided(alloc, row)?;
    match decided.decision {
        Decision::Committed => id_of_row(&row.key),
        Decision::Aborted => None,
    }
}

fn recorded_among(alloc: Global, rows: &[Record]) -> Result<Seq<TxId>, NoMemory> {
    let mut ids = Seq::new(alloc);
    for row in rows {
        if let Some(id) = recorded_by(alloc, row) {
            ids.push(id)?;
        }
    }
    Ok(ids)
}

fn coordinator_rows(stores: &Stores) -> Option<&PlainTables> {
    let closing = closing_of(stores);
    let table = coordinator_table();
    let name = store_of(stores.places.as_slice(), closing, &table.ns)?;
    rows_of(closing, name)
}

/// The transactions that the stores record in the end.
pub fn recorded(alloc: Global, stores: &Stores) -> Result<Seq<TxId>, NoMemory> {
    let Some(rows) = coordinator_rows(stores) else {
        return Ok(Seq::new(alloc));
    };
    let span = Span {
        table: coordinator_table(),
        partition: None,
    };
    let found = records_in(alloc, rows, &span)?;
    recorded_among(alloc, found.as_slice())
}

fn rises(order: &Points) -> bool {
    let mut last = 0;
    for point in order.iter() {
        if point.event <= last {
            return false;
        }
        last = point.event;
    }
    true
}

/// Whether an order is the recorded transactions, each with its point, by rising points.
pub fn is_in_order(
    alloc: Global,
    events: &[Event],
    order: &Points,
    stores: &Stores,
) -> Result<bool, NoMemory> {
    let ids = recorded(alloc, stores)?;
    let own = order_of(alloc, events, ids.as_slice())?;
    Ok(own == *order && rises(order))
}
