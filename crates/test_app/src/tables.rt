//! The commands `load` and `export`, on stores in memory.
use crate::attached::attach_all;
use crate::commands::{
    CREATED, Refusal, SCHEMA, SHOP, STORE_FAULT, Step, Steps, follow, puts, writes_schema,
};
use crate::run::{End, On};
use crate::session::PREPARED;
use sdb_data::CsvFault;
use sdb_stores::Stores;
use std::alloc::Global;
use std::test::Fail;
use test_builders::{Case, all_cases};

pub const INSERT: &[&str] = &["load", "shop.orders", "insert", "2"];

const UPDATE: &[&str] = &["load", "shop.orders", "update", "2"];

const UPSERT: &[&str] = &["load", "shop.orders", "upsert", "1000"];

pub const EXPORT: &[&str] = &["export", "shop.orders"];

pub const ORDERS: &[u8] = b"customer,placed,note\n1,100,first\n1,200,\"a,b\"\n2,50,\\N\n";

pub const LOADED: &[u8] = b"1 rows 2 written 2 committed\n2 rows 1 written 1 committed\n";

pub const EXPORTED: &[u8] = b"customer,note,placed\n1,\"a,b\",200\n1,first,100\n2,\\N,50\n";

pub const NO_TABLE: Refusal = Refusal {
    end: End::NoTable,
    line: "no such table",
    code: 11,
};

static TABLES: [Steps; 4] = [
    // A schema is kept, rows are loaded, a session changes others, and the rows are exported.
    Steps {
        on: On::Two,
        steps: &[
            Step::Done(SHOP, SCHEMA, CREATED),
            Step::Done(INSERT, ORDERS, LOADED),
            Step::Done(
                &["sql"],
                b"BEGIN\nINSERT INTO bank.account (id, balance) VALUES (1, 100)\nINSERT INTO bank.account (id, balance) VALUES (2, 50)\nCOMMIT\nBEGIN\nUPDATE bank.account SET balance = 70 WHERE id = 1\nUPDATE bank.account SET balance = 80 WHERE id = 2\nSELECT * FROM shop.orders WHERE customer = 1 LIMIT 1\nCOMMIT;\n",
                b"done\ncount 1\ncount 1\ncommitted\ndone\ncount 1\ncount 1\nrows 1 (1,'a,b',200L)\ncommitted\n",
            ),
            Step::Done(EXPORT, b"", EXPORTED),
        ],
    },
    // Rows that are there, or aren't, in each mode; what is exported is loaded as the same rows.
    Steps {
        on: On::Two,
        steps: &[
            Step::Done(SHOP, SCHEMA, CREATED),
            Step::Done(EXPORT, b"", b"customer,note,placed\n"),
            Step::Done(INSERT, b"customer,placed,note\n", b""),
            Step::Done(
                UPDATE,
                b"placed,note,customer\n100,first,1\n",
                b"1 rows 1 written 0 committed\n",
            ),
            Step::Done(INSERT, ORDERS, LOADED),
            Step::Done(
                INSERT,
                b"note,placed,customer\nsecond,100,1\nthird,7,7\n",
                b"1 rows 2 written 1 committed\n",
            ),
            Step::Done(
                UPDATE,
                b"note,placed,customer\nchanged,100,1\n\\N,7,7\nnone,8,8\n",
                b"1 rows 2 written 2 committed\n2 rows 1 written 0 committed\n",
            ),
            Step::Done(
                UPSERT,
                b"customer,placed\r\n1,100\r\n9,9\r\n",
                b"1 rows 2 written 2 committed\n",
            ),
            Step::Done(
                EXPORT,
                b"",
                b"customer,note,placed\n1,\"a,b\",200\n1,changed,100\n2,\\N,50\n7,\\N,7\n9,\\N,9\n",
            ),
            Step::Done(
                UPSERT,
                b"customer,note,placed\n1,\"a,b\",200\n1,changed,100\n2,\\N,50\n7,\\N,7\n9,\\N,9\n",
                b"1 rows 5 written 5 committed\n",
            ),
            Step::Done(
                EXPORT,
                b"",
                b"customer,note,placed\n1,\"a,b\",200\n1,changed,100\n2,\\N,50\n7,\\N,7\n9,\\N,9\n",
            ),
        ],
    },
    // What is refused, in this order: the table, the input, its records.
    Steps {
        on: On::Two,
        steps: &[
            Step::Refused(INSERT, ORDERS, NO_TABLE),
            Step::Refused(EXPORT, b"", NO_TABLE),
            Step::Done(SHOP, SCHEMA, CREATED),
            Step::Refused(&["load", "shop.order", "insert", "1"], b"", NO_TABLE),
            Step::Refused(&["export", "bank.orders"], b"", NO_TABLE),
            Step::ReadFails(INSERT, ORDERS, &[1]),
            Step::BadRecord(INSERT, b"", 1, "bad input at 1", CsvFault::MissingKey(1)),
            Step::BadRecord(
                INSERT,
                b"customer,placed,colour\n",
                1,
                "bad input at 1",
                CsvFault::NoColumn(3),
            ),
            Step::BadRecord(
                INSERT,
                b"customer,placed,customer\n",
                1,
                "bad input at 1",
                CsvFault::RepeatedColumn(3),
            ),
            Step::BadRecord(
                INSERT,
                b"customer,note\n1,a\n",
                1,
                "bad input at 1",
                CsvFault::MissingKey(2),
            ),
            Step::BadRecord(
                UPDATE,
                b"customer,placed\n1,2\n",
                1,
                "bad input at 1",
                CsvFault::MissingKey(0),
            ),
            Step::BadRecord(
                INSERT,
                b"customer,placed\n1,2\n\n3\n",
                3,
                "bad input at 3",
                CsvFault::Fields,
            ),
            Step::BadRecord(
                INSERT,
                b"customer,placed\n1,2\n3,007\n",
                3,
                "bad input at 3",
                CsvFault::BadValue(2),
            ),
            Step::BadRecord(
                INSERT,
                b"customer,placed\n+1,2\n",
                2,
                "bad input at 2",
                CsvFault::BadValue(1),
            ),
            Step::BadRecord(
                INSERT,
                b"customer,placed\n\\N,2\n",
                2,
                "bad input at 2",
                CsvFault::BadValue(1),
            ),
            Step::BadRecord(
                INSERT,
                b"customer,placed,note\n1,2,\xff\n",
                2,
                "bad input at 2",
                CsvFault::NotUtf8,
            ),
            Step::BadRecord(
                INSERT,
                b"customer,nope,customer,\xff\n",
                1,
                "bad input at 1",
                CsvFault::NotUtf8,
            ),
            Step::BadRecord(
                INSERT,
                b"customer,placed,note\n1,2,\\x\n",
                2,
                "bad input at 2",
                CsvFault::BadValue(3),
            ),
            Step::BadRecord(
                INSERT,
                b"customer,placed\n2147483648,2\n",
                2,
                "bad input at 2",
                CsvFault::BadValue(1),
            ),
            Step::BadRecord(
                UPSERT,
                b"customer,placed\n1,9007199254740993\n",
                2,
                "bad input at 2",
                CsvFault::BadValue(2),
            ),
            Step::Done(EXPORT, b"", b"customer,note,placed\n"),
            // A byte order mark is dropped, `-0` is 0, blank lines are no records, and a text that begins with `\` has one more before it.
            Step::Done(
                INSERT,
                b"\xef\xbb\xbfcustomer,placed,note\r\n\r\n-0,-2,\\\\N\n\n",
                b"1 rows 1 written 1 committed\n",
            ),
            Step::Done(EXPORT, b"", b"customer,note,placed\n0,\\\\N,-2\n"),
        ],
    },
    // Nothing is written before the work has ended; then at most a prefix is.
    Steps {
        on: On::Two,
        steps: &[
            Step::Done(SHOP, SCHEMA, CREATED),
            Step::WriteFails(INSERT, ORDERS, &[2], b"1 rows 2 w"),
            Step::WriteFails(EXPORT, b"", &[2], b"customer,n"),
            Step::Done(EXPORT, b"", EXPORTED),
        ],
    },
];

// A store that fails one call. Its calls are one scan and two puts for the schema, a scan that opens the catalog, and then a get, a prepare,
// a decision and a roll for the one row that is loaded, or a scan, a check and a decision for the export.
static FAULTS: [Steps; 6] = [
    Steps {
        on: On::Failing(4, false),
        steps: &[
            Step::Done(BANK, ACCOUNTS, KEPT),
            Step::Refused(LOAD, ROW, STORE_FAULT),
            Step::Done(LOAD, ROW, b"1 rows 1 written 1 committed\n"),
        ],
    },
    Steps {
        on: On::Failing(4, false),
        steps: &[
            Step::Done(BANK, ACCOUNTS, KEPT),
            Step::Refused(SHOW, b"", STORE_FAULT),
            Step::Done(SHOW, b"", b"balance,id\n"),
        ],
    },
    Steps {
        on: On::Failing(5, false),
        steps: &[
            Step::Done(BANK, ACCOUNTS, KEPT),
            Step::Done(LOAD, ROW, b"1 rows 1 written 0 faulted\n"),
            Step::Done(SHOW, b"", b"balance,id\n"),
        ],
    },
    Steps {
        on: On::Failing(5, false),
        steps: &[
            Step::Done(BANK, ACCOUNTS, KEPT),
            Step::Refused(SHOW, b"", FAULTED),
            Step::Done(SHOW, b"", b"balance,id\n"),
        ],
    },
    Steps {
        on: On::Failing(7, false),
        steps: &[
            Step::Done(BANK, ACCOUNTS, KEPT),
            Step::Done(LOAD, ROW, b"1 rows 1 written 1 faulted\n"),
            Step::Done(SHOW, b"", b"balance,id\n"),
        ],
    },
    Steps {
        on: On::Failing(8, false),
        steps: &[
            Step::Done(BANK, ACCOUNTS, KEPT),
            Step::Done(LOAD, ROW, b"1 rows 1 written 1 committed\n"),
            Step::Done(SHOW, b"", b"balance,id\n100,1\n"),
        ],
    },
];

const BANK: &[&str] = &["schema"];

const ACCOUNTS: &[u8] =
    b"{\"bank.account\":{\"partition-key\":[\"id\"],\"columns\":{\"id\":\"INT\",\"balance\":\"INT\"}}}";

const KEPT: &[u8] = b"created bank.account\ncreated coordinator.state\n";

const LOAD: &[&str] = &["load", "bank.account", "insert", "2"];

const ROW: &[u8] = b"id,balance\n1,100\n";

const SHOW: &[&str] = &["export", "bank.account"];

const FAULTED: Refusal = Refusal {
    end: End::NotCommitted,
    line: "not committed: faulted",
    code: 12,
};

/// Commands over a record that another transaction prepared and did not decide.
#[derive(Clone, Copy)]
struct OverPrepared(&'static [Step]);

impl Case for OverPrepared {
    fn holds(self, alloc: Global) -> Result<bool, Fail> {
        let mut stores = Stores::new(alloc);
        Ok(
            attach_all(alloc, &mut stores, On::Two)?
                && writes_schema(alloc, &mut stores, On::Two)?
                && puts(alloc, &mut stores, PREPARED)?
                && follow(alloc, &mut stores, self.0)?,
        )
    }
}

static PREPARED_ONES: [OverPrepared; 1] = [
    // The group that meets it ends so, and is rolled back; the next is loaded. An export that meets it is not committed.
    OverPrepared(&[
        Step::Done(
            &["load", "bank.account", "upsert", "2"],
            b"id,balance\n5,50\n1,10\n2,20\n3,30\n",
            b"1 rows 2 written 1 busy bank.account(1) 00000000-0000-0002-0000-000000000001 0\n2 rows 2 written 2 committed\n",
        ),
        Step::Refused(
            SHOW,
            b"",
            Refusal {
                end: End::NotCommitted,
                line: "not committed: busy bank.account(1) 00000000-0000-0002-0000-000000000001 0",
                code: 12,
            },
        ),
    ]),
];

#[test]
fn tables_are_loaded_and_exported(rt: HostRuntime) -> Result<(), Fail> {
    all_cases(rt.alloc(), "tables", TABLES.as_slice())
}

#[test]
fn faults_of_loads_are_answered(rt: HostRuntime) -> Result<(), Fail> {
    all_cases(rt.alloc(), "faults of loads", FAULTS.as_slice())
}

#[test]
fn busy_rows_end_their_group(rt: HostRuntime) -> Result<(), Fail> {
    all_cases(rt.alloc(), "prepared", PREPARED_ONES.as_slice())
}
