//! The command `alter`: each way in which it ends, and what the rows then are.
use crate::attached::attach_all;
use crate::commands::{BAD_ROW, CREATED, Refusal, SCHEMA, SHOP, Step, Steps, USAGE, follow, puts};
use crate::run::{End, On};
use crate::tables::{EXPORT, INSERT, LOADED, NO_TABLE, ORDERS};
use sdb_stores::Stores;
use std::test::Fail;
use test_builders::{all_cases, hold};

const PAID: &[&str] = &["alter", "shop.orders", "paid", "Boolean"];

static ALTERED: [Steps; 2] = [
    // The rows that are there have no value of the column; one that is written then has.
    Steps {
        on: On::Two,
        steps: &[
            Step::Done(SHOP, SCHEMA, CREATED),
            Step::Done(INSERT, ORDERS, LOADED),
            Step::Done(PAID, b"", b"altered shop.orders\n"),
            Step::Done(
                EXPORT,
                b"",
                b"customer,note,paid,placed\n1,\"a,b\",\\N,200\n1,first,\\N,100\n2,\\N,\\N,50\n",
            ),
            Step::Done(
                &["load", "shop.orders", "upsert", "2"],
                b"customer,placed,paid\n2,50,true\n3,7,false\n",
                b"1 rows 2 written 2 committed\n",
            ),
            Step::Done(
                EXPORT,
                b"",
                b"customer,note,paid,placed\n1,\"a,b\",\\N,200\n1,first,\\N,100\n2,\\N,true,50\n3,\\N,false,7\n",
            ),
            Step::Done(
                SHOP,
                SCHEMA,
                b"exists bank.account\nexists coordinator.state\ndiffers shop.orders\n",
            ),
        ],
    },
    // A column that the table refuses, a table that isn't there, and words of no command. Standard input is not read.
    Steps {
        on: On::Two,
        steps: &[
            Step::Refused(PAID, b"", NO_TABLE),
            Step::Done(SHOP, SCHEMA, CREATED),
            Step::Done(PAID, b"\xff", b"altered shop.orders\n"),
            Step::Done(PAID, b"", b"refused 2\n"),
            Step::Done(
                &["alter", "shop.orders", "before_paid", "int"],
                b"",
                b"refused 3\n",
            ),
            Step::Refused(&["alter", "shop.order", "paid", "int"], b"", NO_TABLE),
            Step::Refused(
                &["alter", "coordinator.state", "paid", "int"],
                b"",
                NO_TABLE,
            ),
            Step::Refused(&["alter", "shop.orders", "paid"], b"", USAGE),
            Step::Refused(&["alter", "orders", "paid", "int"], b"", USAGE),
            Step::Refused(&["alter", "shop.orders", "1st", "int"], b"", USAGE),
            Step::Refused(&["alter", "shop.orders", "paid", "date"], b"", USAGE),
            Step::WriteFails(&["alter", "bank.account", "note", "text"], b"", &[1], b""),
            Step::Done(
                &["alter", "bank.account", "note", "text"],
                b"",
                b"refused 2\n",
            ),
        ],
    },
];

#[test]
fn tables_are_altered(rt: HostRuntime) -> Result<(), Fail> {
    all_cases(rt.alloc(), "altered", ALTERED.as_slice())
}

#[test]
fn a_bad_row_is_named(rt: HostRuntime) -> Result<(), Fail> {
    let alloc = rt.alloc();
    let mut stores = Stores::new(alloc);
    let bad = Refusal {
        end: End::BadStore,
        line: "bad record: scalardb.metadata('a.b')",
        code: 9,
    };
    hold(Ok(
        attach_all(alloc, &mut stores, On::Two)?
            && puts(alloc, &mut stores, BAD_ROW)?
            && follow(alloc, &mut stores, &[Step::Refused(PAID, b"", bad)])?,
    ))
}
