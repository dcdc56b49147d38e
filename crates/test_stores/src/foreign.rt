//! Rows of a database that the store did not write.
use crate::calls::replies_of;
use sdb_sqlite::Kept;
use sqlite::{Connection, Error, MemStore, params};
use std::alloc::Global;
use std::test::Fail;
use test_builders::{Case, all_cases};

// The bytes of the item's key: the length of `shop.item`, the name, and twice a count, a kind and a number.
const KEY: &[u8] = b"\x00\x00\x00\x09shop.item\x01\x02\x00\x00\x00\x01\x01\x02\x00\x00\x00\x02";

// A key of another table.
const OTHER_KEY: &[u8] =
    b"\x00\x00\x00\x09shop.shop\x01\x02\x00\x00\x00\x01\x01\x02\x00\x00\x00\x02";

// A record of another item, without columns.
const OTHER_BODY: &[u8] =
    b"\x01\x00\x00\x00\x09shop.item\x01\x02\x00\x00\x00\x01\x01\x02\x00\x00\x00\x03\x00\x00";

// Writes a row of the table `shop.item` as a stranger does.
fn write_row(
    connection: &mut Connection<MemStore>,
    key: &[u8],
    body: &[u8],
) -> Result<usize, Error> {
    connection.execute(
        "CREATE TABLE records(k BLOB NOT NULL PRIMARY KEY, t TEXT NOT NULL, p BLOB NOT NULL, r BLOB NOT NULL) STRICT",
        &[],
    )?;
    connection.execute(
        "INSERT INTO records (k, t, p, r) VALUES (?1, 'shop.item', x'00', ?2)",
        params![key, body],
    )
}

// The key and the body of a row, and a call with its reply.
#[derive(Clone, Copy)]
struct Foreign(&'static [u8], &'static [u8], &'static str);

// A database with that row.
fn database_with(alloc: Global, key: &[u8], body: &[u8]) -> Result<Connection<MemStore>, Fail> {
    let mut connection = Connection::open_in_memory(alloc)?;
    if write_row(&mut connection, key, body).is_err() {
        return Err(Fail::from("no row was written"));
    }
    Ok(connection)
}

impl Case for Foreign {
    fn holds(self, alloc: Global) -> Result<bool, Fail> {
        let connection = database_with(alloc, self.0, self.1)?;
        replies_of(alloc, "foreign", Kept::new(alloc, connection)?, self.2)?;
        Ok(true)
    }
}

// The record without columns.
const GET: &str =
    "scalardb report 1\nevents 1\n1 call 1 s get shop.item(1;2) seen found shop.item(1;2){} -\norder 0\ntables 0\nend\n";

const SCAN: &str =
    "scalardb report 1\nevents 1\n1 call 1 s scan shop.item seen fault -\norder 0\ntables 0\nend\n";

// Foreign bodies are records without columns, and foreign keys are faults.
static ROWS: [Foreign; 4] = [
    Foreign(KEY, b"\x01", GET),
    Foreign(KEY, OTHER_BODY, GET),
    Foreign(b"\x00", OTHER_BODY, SCAN),
    Foreign(OTHER_KEY, OTHER_BODY, SCAN),
];

#[test]
fn foreign_rows_are_bare_records_or_faults(rt: HostRuntime) -> Result<(), Fail> {
    all_cases(rt.alloc(), "rows", ROWS.as_slice())
}
