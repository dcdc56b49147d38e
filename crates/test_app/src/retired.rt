//! The command `retire`: each way in which it ends, and each call of the first store failing once.
use crate::attached::attach_all;
use crate::commands::{
    BAD_ROW, CREATED, NO_MEMORY, Refusal, SCHEMA, SHOP, STORE_FAULT, Step, Steps, USAGE, follow,
    puts,
};
use crate::run::{End, On};
use crate::tables::{EXPORT, EXPORTED, INSERT, LOADED, ORDERS};
use sdb_stores::Stores;
use std::alloc::Global;
use std::test::Fail;
use test_builders::{Case, Cell, Place, Row, all_cases};

const EXISTS: &[u8] = b"exists bank.account\nexists coordinator.state\nexists shop.orders\n";

// `shop` and the coordinator in `hashed`.
const BOTH: &[&str] = &["schema", "shop=hashed", "coordinator=hashed"];

const TO_SQLITE: &[&str] = &["retire", "hashed", "sqlite"];

const TO_FIRST: &[&str] = &["retire", "hashed", "ordered"];

const MOVED: &[u8] = b"moved 3\n";

static RETIRED: [Steps; 6] = [
    // The rows are there still, in the store that they moved to. The store is attached no more, and the first one stays.
    Steps {
        on: On::Three,
        steps: &[
            Step::Done(SHOP, SCHEMA, CREATED),
            Step::Done(SHOP, SCHEMA, EXISTS),
            Step::Done(INSERT, ORDERS, LOADED),
            Step::Done(
                &["sql"],
                b"BEGIN\nINSERT INTO bank.account (id, balance) VALUES (1, 100)\nINSERT INTO bank.account (id, balance) VALUES (2, 50)\nCOMMIT\nBEGIN\nUPDATE bank.account SET balance = 70 WHERE id = 1\nUPDATE bank.account SET balance = 80 WHERE id = 2\nSELECT * FROM shop.orders WHERE customer = 1 LIMIT 1\nCOMMIT;\n",
                b"done\ncount 1\ncount 1\ncommitted\ndone\ncount 1\ncount 1\nrows 1 (1,'a,b',200L)\ncommitted\n",
            ),
            Step::Done(EXPORT, b"", EXPORTED),
            Step::Done(TO_SQLITE, b"", MOVED),
            Step::Done(EXPORT, b"", EXPORTED),
            Step::Refused(TO_SQLITE, b"", USAGE),
            Step::Refused(&["retire", "ordered", "sqlite"], b"", USAGE),
            Step::Done(&["schema"], SCHEMA, EXISTS),
            Step::Done(
                &["export", "bank.account"],
                b"",
                b"balance,id\n70,1\n80,2\n",
            ),
            // Rows that moved are changed there, and move on.
            Step::Done(
                &["load", "shop.orders", "update", "1"],
                b"customer,placed,note\n2,50,last\n",
                b"1 rows 1 written 1 committed\n",
            ),
            Step::Done(&["retire", "sqlite", "ordered"], b"", MOVED),
            Step::Done(
                EXPORT,
                b"",
                b"customer,note,placed\n1,\"a,b\",200\n1,first,100\n2,last,50\n",
            ),
        ],
    },
    // The decisions of the two transactions that loaded the rows move with them.
    Steps {
        on: On::Three,
        steps: &[
            Step::Done(BOTH, SCHEMA, CREATED),
            Step::Done(INSERT, ORDERS, LOADED),
            Step::Done(TO_SQLITE, b"", b"moved 5\n"),
            Step::Done(EXPORT, b"", EXPORTED),
            Step::Done(&["schema"], SCHEMA, EXISTS),
        ],
    },
    // Where no table is in the store, or no catalog is kept, nothing is copied.
    Steps {
        on: On::Three,
        steps: &[
            Step::Done(&["retire", "sqlite", "hashed"], b"", b"moved 0\n"),
            Step::Done(SHOP, SCHEMA, CREATED),
            Step::Refused(&["schema", "shop=sqlite"], SCHEMA, USAGE),
            Step::Done(TO_FIRST, b"", b"moved 0\n"),
            Step::Done(&["schema"], SCHEMA, EXISTS),
            Step::Refused(TO_FIRST, b"", USAGE),
        ],
    },
    // Words that retire no store.
    Steps {
        on: On::Two,
        steps: &[
            Step::Refused(&["retire"], b"", USAGE),
            Step::Refused(&["retire", "hashed"], b"", USAGE),
            Step::Refused(&["retire", "hashed", "hashed"], b"", USAGE),
            Step::Refused(&["retire", "hashed", "sqlite"], b"", USAGE),
            Step::Refused(&["retire", "sqlite", "hashed"], b"", USAGE),
            Step::Refused(&["retire", "ordered", "hashed"], b"", USAGE),
            Step::Refused(&["retire", "hashed", "ordered", "hashed"], b"", USAGE),
            Step::Done(TO_FIRST, b"", b"moved 0\n"),
        ],
    },
    // The store is dropped where the answer was not written, or a prefix of it was.
    Steps {
        on: On::Three,
        steps: &[
            Step::Done(SHOP, SCHEMA, CREATED),
            Step::Done(INSERT, ORDERS, LOADED),
            Step::WriteFails(TO_SQLITE, b"", &[1], b""),
            Step::Refused(TO_SQLITE, b"", USAGE),
            Step::Done(EXPORT, b"", EXPORTED),
        ],
    },
    // Standard input is not read.
    Steps {
        on: On::Two,
        steps: &[
            Step::Done(SHOP, SCHEMA, CREATED),
            Step::Done(INSERT, ORDERS, LOADED),
            Step::Done(TO_FIRST, b"\xff", MOVED),
            Step::Done(EXPORT, b"", EXPORTED),
        ],
    },
];

#[test]
fn stores_are_retired(rt: HostRuntime) -> Result<(), Fail> {
    all_cases(rt.alloc(), "retired", RETIRED.as_slice())
}

// Whether `retire` is refused once on these stores, where `ordered` fails or finds no memory; the rows are there then, the second `retire`
// writes this, and they are there still.
fn finishes(
    alloc: Global,
    on: On,
    schema: &'static [&'static str],
    refusal: Refusal,
    moved: &'static [u8],
) -> Result<bool, Fail> {
    let mut stores = Stores::new(alloc);
    let steps = [
        Step::Done(schema, SCHEMA, CREATED),
        Step::Done(INSERT, ORDERS, LOADED),
        Step::Refused(TO_FIRST, b"", refusal),
        Step::Done(EXPORT, b"", EXPORTED),
        Step::Done(TO_FIRST, b"", moved),
        Step::Done(EXPORT, b"", EXPORTED),
        Step::Refused(TO_FIRST, b"", USAGE),
    ];
    Ok(attach_all(alloc, &mut stores, on)? && follow(alloc, &mut stores, steps.as_slice())?)
}

/// The call of `ordered` with this number fails, after its effect or before it, and the second `retire` writes this.
#[derive(Clone, Copy)]
struct Faulted(&'static [&'static str], u64, bool, &'static [u8]);

impl Case for Faulted {
    fn holds(self, alloc: Global) -> Result<bool, Fail> {
        let Faulted(schema, call, after, moved) = self;
        finishes(
            alloc,
            On::TwoFailing(call, after),
            schema,
            STORE_FAULT,
            moved,
        )
    }
}

// The first store has had seven calls: a scan and three puts for the schema, a scan that opens the catalog, and two decisions. `retire` scans
// the rows of the catalog and the table, puts three records, and renews a row of the catalog.
static FAULTED: [Faulted; 12] = [
    Faulted(SHOP, 8, false, MOVED),
    Faulted(SHOP, 8, true, MOVED),
    Faulted(SHOP, 9, false, MOVED),
    Faulted(SHOP, 9, true, MOVED),
    Faulted(SHOP, 10, false, MOVED),
    Faulted(SHOP, 10, true, MOVED),
    Faulted(SHOP, 11, false, MOVED),
    Faulted(SHOP, 11, true, MOVED),
    Faulted(SHOP, 12, false, MOVED),
    Faulted(SHOP, 12, true, MOVED),
    Faulted(SHOP, 13, false, MOVED),
    // The table had moved.
    Faulted(SHOP, 13, true, NONE),
];

// The coordinator's decisions are in `hashed` too: the first store has had five calls. It scans three tables, takes five records, and two
// rows are renewed. The export before the second `retire` adds a decision.
static FAULTED_BOTH: [Faulted; 16] = [
    Faulted(BOTH, 6, false, ALL),
    Faulted(BOTH, 7, true, ALL),
    Faulted(BOTH, 8, false, ALL),
    Faulted(BOTH, 9, false, ALL),
    Faulted(BOTH, 9, true, ALL),
    Faulted(BOTH, 10, false, ALL),
    Faulted(BOTH, 10, true, ALL),
    Faulted(BOTH, 11, false, ALL),
    Faulted(BOTH, 11, true, ALL),
    Faulted(BOTH, 12, true, ALL),
    Faulted(BOTH, 13, false, ALL),
    Faulted(BOTH, 13, true, ALL),
    Faulted(BOTH, 14, false, ALL),
    // The decisions had moved, and the rows had not.
    Faulted(BOTH, 14, true, MOVED),
    Faulted(BOTH, 15, false, MOVED),
    Faulted(BOTH, 15, true, NONE),
];

const ALL: &[u8] = b"moved 6
";

const NONE: &[u8] = b"moved 0
";

#[test]
fn faults_are_finished(rt: HostRuntime) -> Result<(), Fail> {
    all_cases(rt.alloc(), "faults", FAULTED.as_slice())
}

#[test]
fn faults_with_decisions_are_finished(rt: HostRuntime) -> Result<(), Fail> {
    all_cases(rt.alloc(), "faults with decisions", FAULTED_BOTH.as_slice())
}

/// The call of `ordered` with this number finds no memory.
#[derive(Clone, Copy)]
struct Starved(u64);

impl Case for Starved {
    fn holds(self, alloc: Global) -> Result<bool, Fail> {
        finishes(alloc, On::TwoShort(self.0), SHOP, NO_MEMORY, MOVED)
    }
}

static STARVED: [Starved; 6] = [
    Starved(8),
    Starved(9),
    Starved(10),
    Starved(11),
    Starved(12),
    Starved(13),
];

#[test]
fn starved_calls_are_finished(rt: HostRuntime) -> Result<(), Fail> {
    all_cases(rt.alloc(), "starved", STARVED.as_slice())
}

/// What another program left in the first store, and commands after it.
#[derive(Clone, Copy)]
struct Foreign(Row, &'static [Step]);

impl Case for Foreign {
    fn holds(self, alloc: Global) -> Result<bool, Fail> {
        let mut stores = Stores::new(alloc);
        Ok(
            attach_all(alloc, &mut stores, On::Two)?
                && puts(alloc, &mut stores, self.0)?
                && follow(alloc, &mut stores, self.1)?,
        )
    }
}

// A row of no transaction.
const BARE: Row = Row {
    place: Place {
        ns: "shop",
        table: "orders",
        partition: &[Cell::Int(9)],
        clustering: &[Cell::BigInt(9)],
    },
    columns: &[("note", Cell::Text("bare"))],
};

// A committed row that is in no table of the catalog.
const STALE: Row = Row {
    place: Place {
        ns: "shop",
        table: "orders",
        partition: &[Cell::Int(9)],
        clustering: &[Cell::BigInt(9)],
    },
    columns: &[
        ("note", Cell::Text("stale")),
        ("tx_id", Cell::Text("00000000-0000-0009-0000-000000000001")),
        ("tx_state", Cell::Int(3)),
    ],
};

// Another at the key of a row that is loaded.
const OTHER: Row = Row {
    place: Place {
        ns: "shop",
        table: "orders",
        partition: &[Cell::Int(1)],
        clustering: &[Cell::BigInt(100)],
    },
    columns: &[
        ("note", Cell::Text("other")),
        ("tx_id", Cell::Text("00000000-0000-0009-0000-000000000001")),
        ("tx_state", Cell::Int(1)),
    ],
};

const CAN_MOVE: &[Step] = &[
    Step::Done(SHOP, SCHEMA, CREATED),
    Step::Done(INSERT, ORDERS, LOADED),
    Step::Done(TO_FIRST, b"", MOVED),
    Step::Done(EXPORT, b"", EXPORTED),
];

static FOREIGN: [Foreign; 4] = [
    // A row of the catalog without a definition.
    Foreign(
        BAD_ROW,
        &[
            Step::Refused(
                TO_FIRST,
                b"",
                Refusal {
                    end: End::BadStore,
                    line: "bad record: scalardb.metadata('a.b')",
                    code: 9,
                },
            ),
            Step::Refused(
                TO_FIRST,
                b"",
                Refusal {
                    end: End::BadStore,
                    line: "bad record: scalardb.metadata('a.b')",
                    code: 9,
                },
            ),
        ],
    ),
    // A record that can't be deleted: nothing moves.
    Foreign(
        BARE,
        &[
            Step::Done(SHOP, SCHEMA, CREATED),
            Step::Done(INSERT, ORDERS, LOADED),
            Step::Refused(
                TO_FIRST,
                b"",
                Refusal {
                    end: End::BadStore,
                    line: "bad record: shop.orders(9;9L)",
                    code: 9,
                },
            ),
            Step::Done(EXPORT, b"", EXPORTED),
            Step::Done(SHOP, SCHEMA, EXISTS),
        ],
    ),
    // Records that can be are removed.
    Foreign(STALE, CAN_MOVE),
    Foreign(OTHER, CAN_MOVE),
];

#[test]
fn foreign_records_bar_or_go(rt: HostRuntime) -> Result<(), Fail> {
    all_cases(rt.alloc(), "foreign", FOREIGN.as_slice())
}
