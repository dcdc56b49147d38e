//! Texts of values, keys, records and answers.
use sdb_model::{answer_text, key_text, put_id, put_record, put_row, put_span, put_value};
use sdb_types::{NoMemory, TxId};
use std::alloc::Global;
use std::test::Fail;
use test_builders::{
    AnswerCase, Case, Cell, Place, Row, all_cases, answer_of, key_of, record_of, span_of, value_of,
    values_of,
};

const CLUSTERING: &[Cell] = &[Cell::Int(2), Cell::Text("a")];

// The partition 1, and the clustering 2 and 'a'.
const KEY: Place = Place {
    ns: "bank",
    table: "item",
    partition: &[Cell::Int(1)],
    clustering: CLUSTERING,
};

// Its columns are b and a, set in that order.
const RECORD: Row = Row {
    place: KEY,
    columns: &[("b", Cell::Bool(true)), ("a", Cell::Int(-7))],
};

// What is printed, and its text.
#[derive(Clone, Copy)]
enum Shown {
    Value(Cell, &'static str),
    Key(Place, &'static str),
    // The table `bank.item`, or one of its partitions.
    Span(Option<&'static [Cell]>, &'static str),
    Record(Row, &'static str),
    Row(&'static [Cell], &'static str),
    Id(TxId, &'static str),
    Answer(AnswerCase, &'static str),
}

fn put_key(alloc: Global, out: &mut String, place: Place) -> Result<(), Fail> {
    let key = key_of(alloc, place)?;
    Ok(out.push_str(key_text(alloc, &key)?.as_str())?)
}

fn put_partition(
    alloc: Global,
    out: &mut String,
    partition: Option<&'static [Cell]>,
) -> Result<(), Fail> {
    Ok(put_span(out, &span_of(alloc, "bank", "item", partition)?)?)
}

fn put_answer(alloc: Global, out: &mut String, case: AnswerCase) -> Result<(), Fail> {
    let answer = answer_of(alloc, case)?;
    Ok(out.push_str(answer_text(alloc, &answer)?.as_str())?)
}

fn put_cell(alloc: Global, out: &mut String, cell: Cell) -> Result<(), NoMemory> {
    put_value(out, &value_of(alloc, cell)?)
}

fn put_cells(alloc: Global, out: &mut String, cells: &[Cell]) -> Result<(), NoMemory> {
    put_row(out, &values_of(alloc, cells)?)
}

fn put_row_of(alloc: Global, out: &mut String, row: Row) -> Result<(), Fail> {
    Ok(put_record(out, &record_of(alloc, row)?)?)
}

impl Shown {
    fn text(self) -> &'static str {
        match self {
            Shown::Value(_, text) => text,
            Shown::Key(_, text) => text,
            Shown::Span(_, text) => text,
            Shown::Record(_, text) => text,
            Shown::Row(_, text) => text,
            Shown::Id(_, text) => text,
            Shown::Answer(_, text) => text,
        }
    }

    fn put(self, alloc: Global, out: &mut String) -> Result<(), Fail> {
        match self {
            Shown::Value(cell, _) => Ok(put_cell(alloc, out, cell)?),
            Shown::Key(place, _) => put_key(alloc, out, place),
            Shown::Span(partition, _) => put_partition(alloc, out, partition),
            Shown::Record(row, _) => put_row_of(alloc, out, row),
            Shown::Row(cells, _) => Ok(put_cells(alloc, out, cells)?),
            Shown::Id(id, _) => Ok(put_id(out, id)?),
            Shown::Answer(case, _) => put_answer(alloc, out, case),
        }
    }
}

impl Case for Shown {
    fn holds(self, alloc: Global) -> Result<bool, Fail> {
        let mut out = String::new(alloc);
        self.put(alloc, &mut out)?;
        Ok(out.as_str() == self.text())
    }
}

static PARTS: [Shown; 12] = [
    Shown::Value(Cell::Null, "NULL"),
    Shown::Value(Cell::Bool(false), "FALSE"),
    Shown::Value(Cell::Int(-2147483648), "-2147483648"),
    Shown::Value(Cell::BigInt(9007199254740992), "9007199254740992L"),
    Shown::Value(Cell::Text("it's ''"), "'it''s '''''"),
    Shown::Value(Cell::Blob(&[0x0a, 0xff]), "X'0AFF'"),
    Shown::Key(KEY, "bank.item(1;2,'a')"),
    Shown::Span(Some(&[Cell::Int(1)]), "bank.item(1)"),
    Shown::Span(None, "bank.item"),
    Shown::Record(RECORD, "bank.item(1;2,'a'){a=-7,b=TRUE}"),
    Shown::Row(CLUSTERING, "(2,'a')"),
    Shown::Id(TxId((1 << 64) + 1), "00000000-0000-0001-0000-000000000001"),
];

fn parts_show(alloc: Global) -> Result<(), Fail> {
    all_cases(alloc, "parts", PARTS.as_slice())
}

static ANSWERS: [Shown; 17] = [
    Shown::Answer(AnswerCase::Rows(&[]), "rows 0"),
    Shown::Answer(
        AnswerCase::Rows(&[&[Cell::Int(1)], CLUSTERING]),
        "rows 2 (1) (2,'a')",
    ),
    Shown::Answer(AnswerCase::Duplicate(KEY), "duplicate bank.item(1;2,'a')"),
    Shown::Answer(AnswerCase::BadRecord(KEY), "badrecord bank.item(1;2,'a')"),
    Shown::Answer(
        AnswerCase::Busy(KEY, TxId(1), 15000),
        "busy bank.item(1;2,'a') 00000000-0000-0000-0000-000000000001 15000",
    ),
    Shown::Answer(
        AnswerCase::Conflict(KEY, None),
        "conflict bank.item(1;2,'a') none",
    ),
    Shown::Answer(
        AnswerCase::Conflict(KEY, Some(RECORD)),
        "conflict bank.item(1;2,'a') {a=-7,b=TRUE}",
    ),
    Shown::Answer(AnswerCase::Count(3), "count 3"),
    Shown::Answer(AnswerCase::Done, "done"),
    Shown::Answer(AnswerCase::Committed, "committed"),
    Shown::Answer(AnswerCase::Faulted, "faulted"),
    Shown::Answer(AnswerCase::Vacuuming, "vacuuming"),
    Shown::Answer(AnswerCase::OpenTransactions, "opentransactions"),
    Shown::Answer(AnswerCase::NoMemory, "nomemory"),
    Shown::Answer(
        AnswerCase::Expired(TxId(2)),
        "expired 00000000-0000-0000-0000-000000000002",
    ),
    Shown::Answer(
        AnswerCase::Unknown(TxId(2)),
        "unknown 00000000-0000-0000-0000-000000000002",
    ),
    Shown::Answer(AnswerCase::Refused(12, 2), "refused 12 2"),
];

fn answers_show(alloc: Global) -> Result<(), Fail> {
    all_cases(alloc, "answers", ANSWERS.as_slice())
}

#[test]
fn texts_show(rt: HostRuntime) -> Result<(), Fail> {
    parts_show(rt.alloc())?;
    answers_show(rt.alloc())
}
