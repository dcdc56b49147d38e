//! Statements one after the other: the answer of each plan, and what it leaves, beside those of the slow functions.
use crate::shop::shop;
use check_tables::{PlainTables, exec};
use sdb_exec::{Plan, PlanStep};
use sdb_model::{Answer, Statement, answer_text};
use sdb_record::{Access, Change, Changes, Image, Images, Keyed};
use sdb_schema::Catalog;
use sdb_sqltext::parse_statement;
use sdb_types::{Columns, Duplicate, Key, Seq, Span};
use std::alloc::Global;
use std::test::Fail;
use test_builders::{Cell, Otherwise, Place, hold, key_of};

fn is_in(span: &Span, key: &Key) -> bool {
    match &span.partition {
        Some(partition) => span.table == key.table && *partition == key.partition,
        None => span.table == key.table,
    }
}

fn reads(access: &Access, key: &Key) -> bool {
    match access {
        Access::Get(wanted) => wanted == key,
        Access::Scan(span) => is_in(span, key),
    }
}

fn rows_at(alloc: Global, access: &Access, rows: &[Image]) -> Result<Images, Fail> {
    let mut found = Seq::new(alloc);
    for row in rows {
        if reads(access, &row.key) {
            found.push(row.copy()?)?;
        }
    }
    Ok(found)
}

// The rows without the one at a key.
fn without(alloc: Global, rows: &[Image], key: &Key) -> Result<Images, Fail> {
    let mut found = Seq::new(alloc);
    for row in rows {
        if row.key != *key {
            found.push(row.copy()?)?;
        }
    }
    Ok(found)
}

fn put_change(rows: &mut Images, keyed: &Keyed) -> Result<(), Fail> {
    if let Change::Row(columns) = &keyed.change {
        let key = keyed.key.copy()?;
        let columns = columns.copy()?;
        rows.push(Image { key, columns })?;
    }
    Ok(())
}

// The rows after a change.
fn changed(alloc: Global, rows: &[Image], keyed: &Keyed) -> Result<Images, Fail> {
    let mut left = without(alloc, rows, &keyed.key)?;
    put_change(&mut left, keyed)?;
    Ok(left)
}

// The rows in the order of their keys.
fn in_order(alloc: Global, rows: &[Image]) -> Result<Images, Fail> {
    Ok(PlainTables::of_rows(alloc, rows)?.all()?)
}

fn change_all(alloc: Global, rows: Images, changes: &Changes) -> Result<Images, Fail> {
    let mut left = rows;
    for keyed in changes {
        left = changed(alloc, left.as_slice(), keyed)?;
    }
    Ok(left)
}

// The rows after all changes, in the order of their keys.
fn with_changes(alloc: Global, rows: &[Image], changes: &Changes) -> Result<Images, Fail> {
    let left = change_all(alloc, in_order(alloc, rows)?, changes)?;
    in_order(alloc, left.as_slice())
}

// An answer, and changes.
struct Planned {
    answer: Answer,
    changes: Changes,
}

// By hand, so that each drop is one call.
impl Drop for Planned {
    fn drop(self) {
        let Planned {
            answer: _,
            changes: _,
        } = self;
    }
}

// The rows that a plan reads.
fn wanted(alloc: Global, plan: &mut Plan, rows: &[Image]) -> Result<Images, Fail> {
    match plan.next(Seq::new(alloc))? {
        PlanStep::Read(access) => rows_at(alloc, &access, rows),
        PlanStep::Finished(_, _) => Ok(Images::new(alloc)),
    }
}

fn finish(plan: &mut Plan, read: Images) -> Result<Planned, Fail> {
    match plan.next(read)? {
        PlanStep::Finished(answer, changes) => Ok(Planned { answer, changes }),
        PlanStep::Read(_) => Err(Fail::from("reads again")),
    }
}

fn run(alloc: Global, plan: &mut Plan, rows: &[Image]) -> Result<Planned, Fail> {
    let read = wanted(alloc, plan, rows)?;
    finish(plan, read)
}

// The answer of a plan on the rows that it reads, and its changes.
fn plan_on(
    alloc: Global,
    catalog: &Catalog,
    statement: &Statement,
    rows: &[Image],
) -> Result<Planned, Fail> {
    let mut plan = Plan::new(alloc, catalog, statement.copy()?)?;
    run(alloc, &mut plan, rows)
}

fn shows(alloc: Global, answer: &Answer, text: &str) -> Result<bool, Fail> {
    Ok(answer_text(alloc, answer)?.as_str() == text)
}

// Whether the slow function has the same answer, and leaves these rows.
fn is_plain(
    alloc: Global,
    catalog: &Catalog,
    statement: &Statement,
    rows: &[Image],
    planned: &Planned,
    left: &Images,
) -> Result<bool, Fail> {
    let tables = PlainTables::of_rows(alloc, rows)?;
    let (answer, after) = exec(alloc, catalog, statement, tables)?;
    Ok(answer == planned.answer && after.all()? == *left)
}

// The rows after a statement, or none where an answer is another.
fn after_statement(
    alloc: Global,
    catalog: &Catalog,
    statement: &Statement,
    text: &str,
    rows: &[Image],
) -> Result<Option<Images>, Fail> {
    let planned = plan_on(alloc, catalog, statement, rows)?;
    let left = with_changes(alloc, rows, &planned.changes)?;
    let plain = is_plain(alloc, catalog, statement, rows, &planned, &left)?;
    if plain && shows(alloc, &planned.answer, text)? {
        Ok(Some(left))
    } else {
        Ok(None)
    }
}

fn after(
    alloc: Global,
    catalog: &Catalog,
    case: (&str, &str),
    rows: &[Image],
) -> Result<Option<Images>, Fail> {
    let statement = parse_statement(alloc, case.0)?;
    after_statement(alloc, catalog, &statement, case.1, rows)
}

static STATEMENTS: [(&str, &str); 32] = [
    (
        "INSERT INTO shop.item (cat, n, qty) VALUES (1, 1, 5)",
        "count 1",
    ),
    (
        "INSERT INTO shop.item (cat, n, qty, note) VALUES (1, 2, 7, 'b')",
        "count 1",
    ),
    (
        "INSERT INTO shop.item (n, cat, flag, data, big) VALUES (1, 2, TRUE, X'00FF', 9007199254740992)",
        "count 1",
    ),
    (
        "INSERT INTO shop.item (cat, n) VALUES (1, 2)",
        "duplicate shop.item(1;2)",
    ),
    (
        "UPSERT INTO shop.item (cat, n, note) VALUES (1, 1, 'a')",
        "count 1",
    ),
    (
        "UPSERT INTO shop.item (cat, n, qty) VALUES (3, 1, NULL)",
        "count 1",
    ),
    (
        "SELECT * FROM shop.item",
        "rows 4 (NULL,1,NULL,NULL,2,'b',7) (NULL,1,NULL,NULL,1,'a',5) (9007199254740992L,2,X'00FF',TRUE,1,NULL,NULL) (NULL,3,NULL,NULL,1,NULL,NULL)",
    ),
    ("SELECT n FROM shop.item WHERE cat = 1", "rows 2 (2) (1)"),
    (
        "SELECT n FROM shop.item WHERE cat = 1 LIMIT 1",
        "rows 1 (2)",
    ),
    ("SELECT n FROM shop.item LIMIT 0", "rows 0"),
    (
        "SELECT note, note FROM shop.item WHERE cat = 1 AND n = 2",
        "rows 1 ('b','b')",
    ),
    ("SELECT n FROM shop.item WHERE qty = 5", "rows 1 (1)"),
    ("SELECT n FROM shop.item WHERE qty <> 5", "rows 1 (2)"),
    ("SELECT n FROM shop.item WHERE qty < 7", "rows 1 (1)"),
    ("SELECT n FROM shop.item WHERE qty <= 7", "rows 2 (2) (1)"),
    ("SELECT n FROM shop.item WHERE qty > 5", "rows 1 (2)"),
    ("SELECT n FROM shop.item WHERE qty >= 5", "rows 2 (2) (1)"),
    (
        "SELECT cat FROM shop.item WHERE qty IS NULL",
        "rows 2 (2) (3)",
    ),
    (
        "SELECT cat FROM shop.item WHERE note IS NOT NULL AND note < 'b'",
        "rows 1 (1)",
    ),
    ("SELECT cat FROM shop.item WHERE flag > FALSE", "rows 1 (2)"),
    (
        "SELECT cat FROM shop.item WHERE data >= X'00'",
        "rows 1 (2)",
    ),
    (
        "SELECT n FROM shop.item WHERE cat = 1 AND cat = 2",
        "rows 0",
    ),
    (
        "SELECT n FROM shop.item WHERE cat = 1 AND n = 1 AND n = 2",
        "rows 0",
    ),
    ("UPDATE shop.item SET qty = 5 WHERE cat = 1", "count 2"),
    (
        "UPDATE shop.item SET qty = 5 WHERE cat = 1 AND n = 1",
        "count 1",
    ),
    (
        "UPDATE shop.item SET note = NULL, big = 3 WHERE note = 'a'",
        "count 1",
    ),
    (
        "SELECT big, note, qty FROM shop.item WHERE cat = 1",
        "rows 2 (NULL,'b',5) (3L,NULL,5)",
    ),
    ("UPDATE shop.item SET flag = FALSE", "count 4"),
    ("DELETE FROM shop.item WHERE cat = 1 AND n = 9", "count 0"),
    ("DELETE FROM shop.item WHERE cat = 1 AND n >= 2", "count 1"),
    ("DELETE FROM shop.item WHERE flag = FALSE", "count 3"),
    ("SELECT * FROM shop.item", "rows 0"),
];

// Whether each statement is answered as listed, on the rows that those before it leave.
fn all_answered(alloc: Global, catalog: &Catalog) -> Result<(), Fail> {
    let mut rows = Images::new(alloc);
    for (place, case) in STATEMENTS.iter().enumerate() {
        match after(alloc, catalog, *case, rows.as_slice())? {
            Some(left) => rows = left,
            None => {
                return Err(Fail::from(Otherwise {
                    table: "statements",
                    place,
                }));
            }
        }
    }
    Ok(())
}

#[test]
fn plans_answer_as_plain_tables_do(rt: HostRuntime) -> Result<(), Fail> {
    let catalog = shop(rt.alloc())?;
    all_answered(rt.alloc(), &catalog)
}

// Keys that have no value for the clustering column.
static UNFIT: [Place; 2] = [
    Place {
        ns: "shop",
        table: "item",
        partition: &[Cell::Int(1)],
        clustering: &[],
    },
    Place {
        ns: "shop",
        table: "item",
        partition: &[Cell::Int(2)],
        clustering: &[],
    },
];

fn unfit(alloc: Global) -> Result<Images, Fail> {
    let mut rows = Images::new(alloc);
    for place in UNFIT.iter() {
        let key = key_of(alloc, *place)?;
        let columns = Columns::new(alloc);
        rows.push(Image { key, columns })?;
    }
    Ok(rows)
}

fn names_first(alloc: Global, catalog: &Catalog, rows: &[Image]) -> Result<bool, Fail> {
    let statement = parse_statement(alloc, "DELETE FROM shop.item WHERE note = 'a'")?;
    let planned = plan_on(alloc, catalog, &statement, rows)?;
    Ok(planned.changes.len() == 0 && shows(alloc, &planned.answer, "badrecord shop.item(1)")?)
}

#[test]
fn the_first_row_that_does_not_fit_is_named(rt: HostRuntime) -> Result<(), Fail> {
    let catalog = shop(rt.alloc())?;
    let rows = unfit(rt.alloc())?;
    hold(names_first(rt.alloc(), &catalog, rows.as_slice()))
}
