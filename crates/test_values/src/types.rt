//! Ids, names, columns, copies and the order of keys.
use sdb_types::{
    Columns, Condition, Duplicate, Exact, Known, Name, NameRefused, State, TxId, Txt, Value, same,
};
use std::alloc::Global;
use std::test::Fail;
use test_builders::{
    Ask, Case, Cell, Place, ReplyCase, Row, account, account_with, all_cases, columns_of, reply_of,
    request_of, set_column,
};

// What is asked, and the answer.
#[derive(Clone, Copy)]
enum Check {
    // A text, and the id that it is.
    Id(&'static str, Option<TxId>),
    IdText(TxId, &'static str),
    // A text, its length in bytes, and whether it is a name.
    Name(&'static str, usize, bool),
    // The name of a column of the protocol.
    Known,
    // The columns that are set one after the other, of which one is left: a balance.
    Left(&'static [(&'static str, Cell)], i32),
    // A copy is equal.
    Call(Ask),
    Reply(ReplyCase),
    // A column that is set on columns that a copy shares, and what they are then.
    Change(&'static str, Cell, &'static [(&'static str, Cell)]),
    // The accounts of these numbers are in this order.
    Accounts(i32, i32),
}

fn id_is(alloc: Global, text: &str, id: Option<TxId>) -> Result<bool, Fail> {
    Ok(TxId::from_text(&Txt::new(alloc, text)?) == id)
}

fn id_has_text(alloc: Global, id: TxId, text: &str) -> Result<bool, Fail> {
    Ok(id.text(alloc)?.as_str() == text)
}

fn is_name(alloc: Global, text: &str, wanted: bool) -> bool {
    match Name::new(alloc, text) {
        Ok(name) => wanted && name.as_str() == text,
        Err(refused) => !wanted && refused == NameRefused::BadName,
    }
}

fn is_copied<T: Exact + Duplicate>(value: &T) -> Result<bool, Fail> {
    Ok(same(value, &value.copy()?))
}

fn is_tx_id(name: &Name) -> Result<bool, Fail> {
    Ok(Name::known(Known::TxId) == *name && is_copied(name)?)
}

fn is_known(alloc: Global) -> Result<bool, Fail> {
    is_tx_id(&Name::from_string(String::from_str(alloc, "tx_id")?)?)
}

fn is_one(columns: &Columns, name: &Name, number: i32) -> bool {
    columns.len() == 1 && columns.get(name) == Some(&Value::Int(number))
}

fn is_left(alloc: Global, cells: &[(&'static str, Cell)], balance: i32) -> Result<bool, Fail> {
    let record = account_with(alloc, 1, cells)?;
    Ok(is_one(&record.columns, &Name::new(alloc, "balance")?, balance))
}

fn call_is_copied(alloc: Global, ask: Ask) -> Result<bool, Fail> {
    is_copied(&request_of(alloc, ask)?)
}

fn reply_is_copied(alloc: Global, answered: ReplyCase) -> Result<bool, Fail> {
    is_copied(&reply_of(alloc, answered)?)
}

const SHARED: &[(&str, Cell)] = &[("a", Cell::Int(1)), ("c", Cell::Int(3))];

fn are(alloc: Global, columns: &Columns, cells: &[(&str, Cell)]) -> Result<bool, Fail> {
    Ok(same(columns, &columns_of(alloc, cells)?))
}

// Whether a change of columns is made, and leaves a copy as it was.
fn leaves(
    alloc: Global,
    columns: &mut Columns,
    copy: &Columns,
    change: (&str, Cell),
    after: &[(&str, Cell)],
) -> Result<bool, Fail> {
    set_column(alloc, columns, change.0, change.1)?;
    Ok(are(alloc, columns, after)? && are(alloc, copy, SHARED)?)
}

fn leaves_the_copy(
    alloc: Global,
    change: (&str, Cell),
    after: &[(&str, Cell)],
) -> Result<bool, Fail> {
    let mut columns = columns_of(alloc, SHARED)?;
    let copy = columns.copy()?;
    leaves(alloc, &mut columns, &copy, change, after)
}

fn are_in_order(alloc: Global, low: i32, high: i32) -> Result<bool, Fail> {
    let low = account(alloc, low)?;
    let high = account(alloc, high)?;
    Ok(low.compare(&high).is_lt() && high.compare(&high).is_eq())
}

impl Case for Check {
    fn holds(self, alloc: Global) -> Result<bool, Fail> {
        match self {
            Check::Id(text, id) => id_is(alloc, text, id),
            Check::IdText(id, text) => id_has_text(alloc, id, text),
            Check::Name(text, length, wanted) => {
                Ok(text.len() == length && is_name(alloc, text, wanted))
            }
            Check::Known => is_known(alloc),
            Check::Left(columns, balance) => is_left(alloc, columns, balance),
            Check::Call(ask) => call_is_copied(alloc, ask),
            Check::Reply(answered) => reply_is_copied(alloc, answered),
            Check::Change(name, cell, after) => leaves_the_copy(alloc, (name, cell), after),
            Check::Accounts(low, high) => are_in_order(alloc, low, high),
        }
    }
}

const FIRST: TxId = TxId(18446744073709551617);

const FIRST_TEXT: &str = "00000000-0000-0001-0000-000000000001";

const LONGEST: &str = "a23456789012345678901234567890123456789012345678901234567890123456789_1";

const TOO_LONG: &str = "a23456789012345678901234567890123456789012345678901234567890123456789_12";

const KEY: Place = Place {
    ns: "bank",
    table: "account",
    partition: &[Cell::Int(2)],
    clustering: &[],
};

const RECORD: Row = Row {
    place: KEY,
    columns: &[("balance", Cell::Int(100))],
};

static CHECKS: [Check; 31] = [
    // Ids have the hyphenated form.
    Check::IdText(FIRST, FIRST_TEXT),
    Check::Id(FIRST_TEXT, Some(FIRST)),
    Check::Id("0000000000000001-0000-000000000001", None),
    Check::Id("{00000000-0000-0001-0000-000000000001}", None),
    Check::Id("00000000-0000-0001-0000-00000000000A", None),
    Check::Id("", None),
    // Names are identifiers of 1 to 71 bytes.
    Check::Known,
    Check::Name("a", 1, true),
    Check::Name("_", 1, true),
    Check::Name("Z9", 2, true),
    Check::Name(LONGEST, 71, true),
    Check::Name("", 0, false),
    Check::Name("9a", 2, false),
    Check::Name("a-b", 3, false),
    Check::Name("a b", 3, false),
    Check::Name("é", 2, false),
    Check::Name(TOO_LONG, 72, false),
    // The column owner is set, and then set to NULL, which no column holds.
    Check::Left(
        &[
            ("owner", Cell::Text("it's")),
            ("balance", Cell::Int(100)),
            ("owner", Cell::Null),
        ],
        100,
    ),
    Check::Call(Ask::Get(KEY)),
    Check::Call(Ask::Scan("bank", "account", Some(&[Cell::Int(2)]))),
    Check::Call(Ask::Put(RECORD, Condition::Absent)),
    Check::Call(Ask::Delete(KEY, Condition::Version(TxId(1), State::Committed))),
    Check::Reply(ReplyCase::Found(Some(RECORD))),
    Check::Reply(ReplyCase::Rows(&[RECORD])),
    Check::Reply(ReplyCase::Applied),
    Check::Reply(ReplyCase::NotMet(None)),
    Check::Reply(ReplyCase::Fault),
    Check::Change(
        "b",
        Cell::Int(2),
        &[
            ("a", Cell::Int(1)),
            ("b", Cell::Int(2)),
            ("c", Cell::Int(3)),
        ],
    ),
    Check::Change(
        "a",
        Cell::Int(5),
        &[("a", Cell::Int(5)), ("c", Cell::Int(3))],
    ),
    Check::Change("c", Cell::Null, &[("a", Cell::Int(1))]),
    Check::Accounts(-1, 1),
];

#[test]
fn types_answer(rt: HostRuntime) -> Result<(), Fail> {
    all_cases(rt.alloc(), "types", CHECKS.as_slice())
}
