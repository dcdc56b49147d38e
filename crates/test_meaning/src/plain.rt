//! One client inserts one account: the answers, the row, and the place in the order.
use check_tables::{Answers, Bodies, Body, PlainTables, order_of, point, serial};
use sdb_loader::catalog_of;
use sdb_model::{Answer, Point};
use sdb_sqltext::parse_statement;
use sdb_types::{Condition, Name, Seq, TxId, Value};
use std::alloc::Global;
use std::test::Fail;
use test_builders::{
    AnswerCase, Ask, Cell, Happening, Place, ReplyCase, Row, account, events_of, hold,
};

const FIRST: TxId = TxId(0x1_0000_0000_0000_0001);

const FIRST_TEXT: Cell = Cell::Text("00000000-0000-0001-0000-000000000001");

const BANK: &[u8] =
    b"{\"bank.account\":{\"partition-key\":[\"id\"],\"columns\":{\"id\":\"INT\",\"balance\":\"INT\"}}}";

const INSERT: &str = "INSERT INTO bank.account (id, balance) VALUES (1, 100)";

fn push_insert(alloc: Global, body: &mut Body) -> Result<(), Fail> {
    Ok(body.push(parse_statement(alloc, INSERT)?)?)
}

// The INSERT twice.
fn two_inserts(alloc: Global) -> Result<Body, Fail> {
    let mut body = Body::new(alloc);
    push_insert(alloc, &mut body)?;
    push_insert(alloc, &mut body)?;
    Ok(body)
}

// The same in one transaction.
fn bodies(alloc: Global) -> Result<Bodies, Fail> {
    let body = two_inserts(alloc)?;
    let mut bodies = Bodies::new(alloc);
    bodies.push(body)?;
    Ok(bodies)
}

// The answers to it on no rows, and the tables after it.
fn ran(alloc: Global) -> Result<(Seq<Answers>, PlainTables), Fail> {
    let bodies = bodies(alloc)?;
    let catalog = catalog_of(alloc, BANK)?;
    Ok(serial(alloc, &catalog, bodies.as_slice(), PlainTables::new(alloc))?)
}

fn second_is(answers: &Seq<Answers>, wanted: &Answer) -> bool {
    answers.at(0).and_then(|answered| answered.at(1)) == Some(wanted)
}

fn is_duplicate(alloc: Global) -> Result<bool, Fail> {
    let twice = Answer::Duplicate(account(alloc, 1)?);
    let (answers, _) = ran(alloc)?;
    Ok(second_is(&answers, &twice))
}

// Whether the account has that balance.
fn has_balance(alloc: Global, tables: &PlainTables, number: i32) -> Result<bool, Fail> {
    let key = account(alloc, 1)?;
    let balance = Name::new(alloc, "balance")?;
    let found = tables.find(&key).and_then(|row| row.get(&balance));
    Ok(found == Some(&Value::Int(number)))
}

fn has_row(alloc: Global) -> Result<bool, Fail> {
    let (_, tables) = ran(alloc)?;
    Ok(has_balance(alloc, &tables, 100)? && tables.all()?.len() == 1)
}

// An INSERT counts, and then is a duplicate; the row is there.
#[test]
fn a_serial_run_inserts_once(rt: HostRuntime) -> Result<(), Fail> {
    hold(is_duplicate(rt.alloc()))?;
    hold(has_row(rt.alloc()))
}

const ACCOUNT: Place = Place {
    ns: "bank",
    table: "account",
    partition: &[Cell::Int(1)],
    clustering: &[],
};

const PREPARED: Row = Row {
    place: ACCOUNT,
    columns: &[("tx_id", FIRST_TEXT), ("tx_state", Cell::Int(1))],
};

const COMMITTED: Row = Row {
    place: ACCOUNT,
    columns: &[("tx_id", FIRST_TEXT), ("tx_state", Cell::Int(3))],
};

static EVENTS: [Happening; 6] = [
    Happening::Take("BEGIN", Some(AnswerCase::Done)),
    Happening::Take(INSERT, None),
    Happening::Call(
        Ask::Get(ACCOUNT),
        ReplyCase::Found(None),
        Some(AnswerCase::Count(1)),
    ),
    Happening::Take("COMMIT", None),
    Happening::Call(
        Ask::Put(PREPARED, Condition::Absent),
        ReplyCase::Applied,
        None,
    ),
    Happening::Call(
        Ask::Put(COMMITTED, Condition::Absent),
        ReplyCase::Applied,
        Some(AnswerCase::Committed),
    ),
];

fn first_point(alloc: Global) -> Result<Option<Point>, Fail> {
    let events = events_of(alloc, EVENTS.as_slice())?;
    let ids = Seq::from_slice(alloc, [FIRST].as_slice())?;
    let order = order_of(alloc, events.as_slice(), ids.as_slice())?;
    Ok(order.at(0).copied())
}

fn is_at_last_prepare(alloc: Global) -> Result<bool, Fail> {
    let point = Point {
        id: FIRST,
        event: 5,
    };
    Ok(first_point(alloc)? == Some(point))
}

static WITHOUT_PREPARES: [Happening; 2] = [
    Happening::Take("BEGIN", Some(AnswerCase::Done)),
    Happening::Take("COMMIT", Some(AnswerCase::Committed)),
];

fn is_at_commit(alloc: Global) -> Result<bool, Fail> {
    let events = events_of(alloc, WITHOUT_PREPARES.as_slice())?;
    Ok(point(alloc, events.as_slice(), FIRST)? == 2)
}

// The first transaction is at its last prepare, and without a prepare its COMMIT counts.
#[test]
fn points_are_last_prepares(rt: HostRuntime) -> Result<(), Fail> {
    hold(is_at_last_prepare(rt.alloc()))?;
    hold(is_at_commit(rt.alloc()))
}
