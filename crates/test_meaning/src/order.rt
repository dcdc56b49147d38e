//! One client runs a transaction that only reads, one that writes, and one that it rolls back: the order of those recorded.
use sdb_model::{Events, Point, Points};
use sdb_types::{Condition, Seq, TxId};
use std::alloc::Global;
use std::test::Fail;
use test_builders::{AnswerCase, Ask, Cell, Happening, Place, ReplyCase, Row, events_of, hold};

const READER: TxId = TxId(0x1_0000_0000_0000_0001);

const WRITER: TxId = TxId(0x1_0000_0000_0000_0002);

const ROLLED_BACK: TxId = TxId(0x1_0000_0000_0000_0003);

const ACCOUNT: Place = Place {
    ns: "bank",
    table: "account",
    partition: &[Cell::Int(1)],
    clustering: &[],
};

const PREPARED: Row = Row {
    place: ACCOUNT,
    columns: &[
        ("tx_id", Cell::Text("00000000-0000-0001-0000-000000000002")),
        ("tx_state", Cell::Int(1)),
    ],
};

static EVENTS: [Happening; 7] = [
    Happening::Take("BEGIN", Some(AnswerCase::Done)),
    Happening::Take("COMMIT", Some(AnswerCase::Committed)),
    Happening::Take("BEGIN", Some(AnswerCase::Done)),
    Happening::Take("COMMIT", None),
    Happening::Call(
        Ask::Put(PREPARED, Condition::Absent),
        ReplyCase::Applied,
        Some(AnswerCase::Committed),
    ),
    Happening::Take("BEGIN", Some(AnswerCase::Done)),
    Happening::Take("ROLLBACK", Some(AnswerCase::Done)),
];

const WANTED: [Point; 2] = [
    Point {
        id: READER,
        event: 2,
    },
    Point {
        id: WRITER,
        event: 5,
    },
];

fn events(alloc: Global) -> Result<Events, Fail> {
    Ok(events_of(alloc, EVENTS.as_slice())?)
}

fn quick(alloc: Global) -> Result<Points, Fail> {
    let events = events(alloc)?;
    let ids = Seq::from_slice(alloc, [ROLLED_BACK, WRITER, READER].as_slice())?;
    Ok(sdb_contents::order_of(alloc, events.as_slice(), ids.as_slice())?)
}

fn slow(alloc: Global) -> Result<Points, Fail> {
    let events = events(alloc)?;
    let ids = Seq::from_slice(alloc, [WRITER, READER].as_slice())?;
    Ok(check_tables::order_of(alloc, events.as_slice(), ids.as_slice())?)
}

fn is_wanted(points: &Points) -> bool {
    points.as_slice() == WANTED.as_slice()
}

// Points rise, and the slow order is the same.
#[test]
fn points_rise(rt: HostRuntime) -> Result<(), Fail> {
    hold(Ok(is_wanted(&quick(rt.alloc())?)))?;
    hold(Ok(is_wanted(&slow(rt.alloc())?)))
}
