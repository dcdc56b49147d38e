//! Statements that are refused, one or more for each kind.
use crate::shop::shop;
use crate::whole_scripts::put_often;
use sdb_exec::{Plan, PlanRefused};
use sdb_model::{Refusal, Statement};
use sdb_schema::Catalog;
use sdb_sqltext::parse_statement;
use std::alloc::{AllocError, Global};
use std::test::Fail;
use test_builders::{Case, all_cases};

// What becomes of the plan of a statement.
#[derive(Clone, Copy, PartialEq, Eq)]
enum Fate {
    Planned,
    Refused(u8, u32),
    NoMemory,
}

fn fate_of(alloc: Global, catalog: &Catalog, statement: Statement) -> Fate {
    match Plan::new(alloc, catalog, statement) {
        Ok(_plan) => Fate::Planned,
        Err(PlanRefused::Refused(Refusal { kind, place })) => Fate::Refused(kind, place),
        Err(PlanRefused::NoMemory) => Fate::NoMemory,
    }
}

fn has_fate(alloc: Global, catalog: &Catalog, text: &str, fate: Fate) -> Result<bool, Fail> {
    let statement = parse_statement(alloc, text)?;
    Ok(fate_of(alloc, catalog, statement) == fate)
}

// A statement that tests a note against a text of so many bytes.
fn long_test(alloc: Global, length: usize) -> Result<String, AllocError> {
    let mut text = String::from_str(alloc, "SELECT n FROM shop.item WHERE qty = 1 AND note < '")?;
    put_often(&mut text, "x", length)?;
    text.push('\'')?;
    Ok(text)
}

fn long_has_fate(
    alloc: Global,
    catalog: &Catalog,
    length: usize,
    fate: Fate,
) -> Result<bool, Fail> {
    let text = long_test(alloc, length)?;
    has_fate(alloc, catalog, text.as_str(), fate)
}

// A statement, or one with a text of so many bytes, and what becomes of it.
#[derive(Clone, Copy)]
enum Check {
    Text(&'static str, Fate),
    Long(usize, Fate),
}

impl Case for Check {
    fn holds(self, alloc: Global) -> Result<bool, Fail> {
        let catalog = shop(alloc)?;
        match self {
            Check::Text(text, fate) => has_fate(alloc, &catalog, text, fate),
            Check::Long(length, fate) => long_has_fate(alloc, &catalog, length, fate),
        }
    }
}

// The kind and the place of each refusal.
static REFUSED: [Check; 28] = [
    Check::Text("SELECT x FROM shop.other", Fate::Refused(6, 0)),
    Check::Text("BEGIN", Fate::Refused(6, 0)),
    Check::Text(
        "SELECT n, x FROM shop.item WHERE y = 1",
        Fate::Refused(7, 2),
    ),
    Check::Text(
        "SELECT * FROM shop.item WHERE n = 1 AND y IS NULL",
        Fate::Refused(7, 2),
    ),
    Check::Text("UPDATE shop.item SET qty = 'a', x = 1", Fate::Refused(7, 2)),
    Check::Text(
        "DELETE FROM shop.item WHERE x IS NOT NULL",
        Fate::Refused(7, 1),
    ),
    Check::Text(
        "INSERT INTO shop.item (cat, n, cat) VALUES (1, 2, 'a')",
        Fate::Refused(8, 3),
    ),
    Check::Text(
        "UPDATE shop.item SET qty = 1, note = 2, qty = 3",
        Fate::Refused(8, 3),
    ),
    Check::Text("UPDATE shop.item SET qty = 'a', n = 2", Fate::Refused(9, 2)),
    Check::Text("UPDATE shop.item SET cat = NULL", Fate::Refused(9, 1)),
    Check::Text(
        "INSERT INTO shop.item (cat, n, qty) VALUES (NULL, 1, 'a')",
        Fate::Refused(10, 3),
    ),
    Check::Text(
        "SELECT n FROM shop.item WHERE flag = 1",
        Fate::Refused(10, 2),
    ),
    Check::Text(
        "UPDATE shop.item SET note = X'00' WHERE cat = 'a'",
        Fate::Refused(10, 1),
    ),
    Check::Text(
        "UPSERT INTO shop.item (n, cat, qty) VALUES (2147483648, NULL, 1)",
        Fate::Refused(11, 2),
    ),
    Check::Text(
        "INSERT INTO shop.item (cat, n) VALUES (1, -2147483649)",
        Fate::Refused(12, 2),
    ),
    Check::Text(
        "SELECT big FROM shop.item WHERE big > 9007199254740993",
        Fate::Refused(12, 2),
    ),
    Check::Text(
        "UPDATE shop.item SET big = -9007199254740993 WHERE qty = 2147483648",
        Fate::Refused(12, 1),
    ),
    Check::Text(
        "INSERT INTO shop.item (qty, n) VALUES (1, 1)",
        Fate::Refused(14, 1),
    ),
    Check::Text(
        "UPSERT INTO shop.item (qty, cat) VALUES (NULL, 1)",
        Fate::Refused(14, 2),
    ),
    Check::Text("COMMIT", Fate::Refused(6, 0)),
    Check::Text("VACUUM", Fate::Refused(6, 0)),
    Check::Text(
        "SELECT note FROM shop.item WHERE note = TRUE",
        Fate::Refused(10, 2),
    ),
    Check::Text(
        "SELECT data FROM shop.item WHERE data = 'a'",
        Fate::Refused(10, 2),
    ),
    Check::Text(
        "INSERT INTO shop.item (x, x) VALUES (1, 1)",
        Fate::Refused(7, 1),
    ),
    // More mentions than are compared with one another: one of them repeated, and none.
    Check::Text(
        "INSERT INTO shop.item (qty, note, n, flag, data, cat, big, qty) VALUES (1, 'a', 1, TRUE, X'00', 1, 1, 1)",
        Fate::Refused(8, 8),
    ),
    Check::Text(
        "INSERT INTO shop.item (qty, note, n, flag, data, cat, big) VALUES (1, 'a', 1, TRUE, X'00', 1, 1)",
        Fate::Planned,
    ),
    Check::Long(4097, Fate::Refused(13, 3)),
    Check::Long(4096, Fate::Planned),
];

#[test]
fn statements_are_refused(rt: HostRuntime) -> Result<(), Fail> {
    all_cases(rt.alloc(), "refused", REFUSED.as_slice())
}
