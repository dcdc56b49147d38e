//! The report of a whole run, and of a run of nothing.
use sdb_model::{Altered, Events, Outcome, Point, Points, Rows, TableDump, TableRows, report_text};
use sdb_schema::Kind;
use sdb_types::{Condition, NameRefused, State, TxId};
use std::alloc::Global;
use std::test::Fail;
use test_builders::{
    AnswerCase, Ask, Case, Cell, Happening, Place, ReplyCase, Row, all_cases, events_of, hold,
    table_of, values_of,
};

const ID: TxId = TxId((1 << 64) + 1);

const ID_TEXT: Cell = Cell::Text("00000000-0000-0001-0000-000000000001");

const ACCOUNT: Place = Place {
    ns: "bank",
    table: "account",
    partition: &[Cell::Int(1)],
    clustering: &[],
};

const PREPARED: Row = Row {
    place: ACCOUNT,
    columns: &[
        ("balance", Cell::Int(100)),
        ("tx_id", ID_TEXT),
        ("tx_state", Cell::Int(1)),
        ("tx_version", Cell::Int(1)),
        ("tx_prepared_at", Cell::BigInt(0)),
    ],
};

const COMMITTED: Row = Row {
    place: ACCOUNT,
    columns: &[
        ("balance", Cell::Int(100)),
        ("tx_id", ID_TEXT),
        ("tx_state", Cell::Int(3)),
        ("tx_version", Cell::Int(1)),
        ("tx_prepared_at", Cell::BigInt(0)),
        ("tx_committed_at", Cell::BigInt(0)),
    ],
};

const DECISION: Row = Row {
    place: Place {
        ns: "coordinator",
        table: "state",
        partition: &[ID_TEXT],
        clustering: &[],
    },
    columns: &[
        ("tx_state", Cell::Int(3)),
        ("tx_created_at", Cell::BigInt(0)),
    ],
};

static RUN: [Happening; 7] = [
    Happening::Take("BEGIN", Some(AnswerCase::Done)),
    Happening::Take(
        "INSERT INTO bank.account (id, balance) VALUES (1, 100)",
        None,
    ),
    Happening::Call(
        Ask::Get(ACCOUNT),
        ReplyCase::Found(None),
        Some(AnswerCase::Count(1)),
    ),
    Happening::Take("COMMIT", None),
    Happening::Call(
        Ask::Put(PREPARED, Condition::Absent),
        ReplyCase::Applied,
        None,
    ),
    Happening::Call(
        Ask::Put(DECISION, Condition::Absent),
        ReplyCase::Applied,
        None,
    ),
    Happening::Call(
        Ask::Put(COMMITTED, Condition::Version(ID, State::Prepared)),
        ReplyCase::Applied,
        Some(AnswerCase::Committed),
    ),
];

fn only_events(alloc: Global, events: Events) -> Outcome {
    Outcome {
        events,
        order: Points::new(alloc),
        tables: TableRows::new(alloc),
    }
}

fn rows(alloc: Global) -> Result<Rows, NameRefused> {
    let row = values_of(alloc, [Cell::Int(100), Cell::Int(1)].as_slice())?;
    let mut rows = Rows::new(alloc);
    rows.push(row)?;
    Ok(rows)
}

fn tables(alloc: Global) -> Result<TableRows, NameRefused> {
    let name = table_of(alloc, "bank", "account")?;
    let rows = rows(alloc)?;
    let mut tables = TableRows::new(alloc);
    tables.push(TableDump { name, rows })?;
    Ok(tables)
}

fn order(alloc: Global) -> Result<Points, NameRefused> {
    let mut order = Points::new(alloc);
    order.push(Point { id: ID, event: 5 })?;
    Ok(order)
}

fn first_transaction(alloc: Global) -> Result<Outcome, NameRefused> {
    let order = order(alloc)?;
    let tables = tables(alloc)?;
    let events = events_of(alloc, RUN.as_slice())?;
    Ok(Outcome {
        events,
        order,
        tables,
    })
}

const FIRST: &str =
    "scalardb report 1\nevents 7\n1 take 1 done : BEGIN\n2 take 1 - : INSERT INTO bank.account (id, balance) VALUES (1, 100)\n3 call 1 ordered get bank.account(1) seen found none count 1\n4 take 1 - : COMMIT\n5 call 1 ordered put bank.account(1){balance=100,tx_id='00000000-0000-0001-0000-000000000001',tx_prepared_at=0L,tx_state=1,tx_version=1} if absent seen applied -\n6 call 1 ordered put coordinator.state('00000000-0000-0001-0000-000000000001'){tx_created_at=0L,tx_state=3} if absent seen applied -\n7 call 1 ordered put bank.account(1){balance=100,tx_committed_at=0L,tx_id='00000000-0000-0001-0000-000000000001',tx_prepared_at=0L,tx_state=3,tx_version=1} if 00000000-0000-0001-0000-000000000001 1 seen applied committed\norder 1\n00000000-0000-0001-0000-000000000001 5\ntables 1\ntable bank.account 1\n(100,1)\nend\n";

/// Whether an outcome has this report.
pub fn is_reported(alloc: Global, outcome: &Outcome, text: &str) -> Result<bool, Fail> {
    Ok(report_text(alloc, outcome)?.as_str() == text)
}

fn reports_first(alloc: Global) -> Result<bool, Fail> {
    let outcome = first_transaction(alloc)?;
    is_reported(alloc, &outcome, FIRST)
}

// Events alone, and their report.
#[derive(Clone, Copy)]
struct Reported(&'static [Happening], &'static str);

impl Case for Reported {
    fn holds(self, alloc: Global) -> Result<bool, Fail> {
        let outcome = only_events(alloc, events_of(alloc, self.0)?);
        is_reported(alloc, &outcome, self.1)
    }
}

static EVENTS: [Reported; 4] = [
    Reported(&[], "scalardb report 1\nevents 0\norder 0\ntables 0\nend\n"),
    Reported(
        &[
            Happening::Stop(2),
            Happening::Clock(15000),
            Happening::Idle(2),
        ],
        "scalardb report 1\nevents 3\n1 stop 2\n2 clock 15000\n3 idle 2\norder 0\ntables 0\nend\n",
    ),
    Reported(
        &[
            Happening::Land(1, Ask::Put(DECISION, Condition::Absent), ReplyCase::Applied),
            Happening::Land(2, Ask::Get(ACCOUNT), ReplyCase::Found(None)),
            Happening::Idle(0),
        ],
        "scalardb report 1\nevents 3\n1 land 1 ordered put coordinator.state('00000000-0000-0001-0000-000000000001'){tx_created_at=0L,tx_state=3} if absent seen applied\n2 land 2 ordered get bank.account(1) seen found none\n3 idle 0\norder 0\ntables 0\nend\n",
    ),
    Reported(
        &[
            Happening::Alter("bank", "account", "note", Kind::Text, Altered::Done),
            Happening::Alter("bank", "account", "open", Kind::Boolean, Altered::Open),
            Happening::Alter("shop", "item", "n", Kind::Int, Altered::Refused(2)),
            Happening::Alter("shop", "item", "m", Kind::BigInt, Altered::Refused(0)),
            Happening::Alter("scalardb", "x", "tx_id", Kind::Blob, Altered::Refused(255)),
        ],
        "scalardb report 1\nevents 5\n1 alter bank.account note TEXT done\n2 alter bank.account open BOOLEAN open\n3 alter shop.item n INT refused 2\n4 alter shop.item m BIGINT refused 0\n5 alter scalardb.x tx_id BLOB refused 255\norder 0\ntables 0\nend\n",
    ),
];

#[test]
fn runs_are_reported(rt: HostRuntime) -> Result<(), Fail> {
    hold(reports_first(rt.alloc()))?;
    all_cases(rt.alloc(), "events", EVENTS.as_slice())
}
