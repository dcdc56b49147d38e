//! Sessions of `sdb_shell` over the catalog that the command `schema` kept, on stores in memory.
ghost use Rattle.std.specs.Prelude.{◌≡◌, ◌<◌, length};

use crate::attached::attach_all;
use crate::commands::{puts, writes_schema};
use crate::run::{On, feed, tray};
use sdb_catalog::open_catalog;
use sdb_model::Which;
use sdb_schema::Catalog;
use sdb_shell::{SessionRefused, session};
use sdb_stores::{Registry, Stores};
use sdb_types::{Moments, NoMemory, Numbers, Ticks};
use std::alloc::Global;
use std::test::Fail;
use test_builders::{Case, Cell, Place, Row, all_cases};

/// How a session ends.
#[derive(Clone, Copy, PartialEq, Eq)]
enum End {
    Done,
    ReadFault,
    WriteFault,
    BadLine(u64),
    Limit(u64, Which),
    NoMemory,
}

fn end_of(ended: Result<(), SessionRefused>) -> End {
    match ended {
        Ok(()) => End::Done,
        Err(SessionRefused::ReadFault) => End::ReadFault,
        Err(SessionRefused::WriteFault) => End::WriteFault,
        Err(SessionRefused::BadLine(n)) => End::BadLine(n),
        Err(SessionRefused::Limit(n, which)) => End::Limit(n, which),
        Err(SessionRefused::NoMemory) => End::NoMemory,
    }
}

/// The first id of a session, the moment of its clock, its input, and what it writes.
#[derive(Clone, Copy)]
struct Lines {
    first: u64,
    moment: u16,
    input: &'static [u8],
    written: &'static [u8],
}

/// A session.
#[derive(Clone, Copy)]
enum Sitting {
    /// It is done.
    Done(Lines),
    /// It ends so.
    Stops(Lines, End),
    /// These reads fail.
    ReadFails(Lines, &'static [u64]),
    /// These writes fail.
    WriteFails(Lines, &'static [u64]),
}

/// A session, with the reads and the writes that fail and how it ends.
#[derive(Clone, Copy)]
struct Session {
    lines: Lines,
    reads_fail: &'static [u64],
    writes_fail: &'static [u64],
    end: End,
}

fn session_of(sitting: Sitting) -> Session {
    let (lines, reads_fail, writes_fail, end): (Lines, &'static [u64], &'static [u64], End) =
        match sitting {
            Sitting::Done(lines) => (lines, &[], &[], End::Done),
            Sitting::Stops(lines, end) => (lines, &[], &[], end),
            Sitting::ReadFails(lines, calls) => (lines, calls, &[], End::ReadFault),
            Sitting::WriteFails(lines, calls) => (lines, &[], calls, End::WriteFault),
        };
    Session {
        lines,
        reads_fail,
        writes_fail,
        end,
    }
}

fn ticks(alloc: Global, moment: u16) -> Result<Ticks, NoMemory> {
    let mut moments = Moments::new(alloc);
    moments.push(i64::from(moment))?;
    Ok(Ticks::new(moments))
}

// Whether a session over this catalog ends as listed, and writes as listed.
fn sits<S: Registry>(
    alloc: Global,
    catalog: &Catalog,
    stores: &mut S,
    sitting: Session,
) -> Result<bool, Fail>
    requires { 0 < length (S.state stores.old).views }
{
    let mut input = feed(alloc, sitting.lines.input, sitting.reads_fail)?;
    let mut output = tray(alloc, sitting.writes_fail)?;
    let mut clock = ticks(alloc, sitting.lines.moment)?;
    let mut ids = Numbers::new(u128::from(sitting.lines.first));
    let ended = session(
        alloc,
        catalog,
        stores,
        &mut input,
        &mut output,
        &mut clock,
        &mut ids,
    );
    Ok(end_of(ended) == sitting.end && output.written().as_slice() == sitting.lines.written)
}

// Whether a session over the catalog of the first store does so.
fn opens_and_sits(alloc: Global, stores: &mut Stores, sitting: Sitting) -> Result<bool, Fail> {
    stores.clear_places();
    if stores.len() == 0 {
        return Ok(false);
    }
    let Ok(catalog) = open_catalog(alloc, stores) else {
        return Ok(false);
    };
    sits(alloc, &catalog, stores, session_of(sitting))
}

/// Records that are put into stores of a kept schema, and sessions there, one after the other.
#[derive(Clone, Copy)]
struct Sittings {
    on: On,
    left: &'static [Row],
    sittings: &'static [Sitting],
}

impl Case for Sittings {
    fn holds(self, alloc: Global) -> Result<bool, Fail> {
        let mut stores = Stores::new(alloc);
        if !attach_all(alloc, &mut stores, self.on)?
            || !writes_schema(alloc, &mut stores, self.on)?
        {
            return Ok(false);
        }
        for row in self.left {
            if !puts(alloc, &mut stores, *row)? {
                return Ok(false);
            }
        }
        for sitting in self.sittings {
            if !opens_and_sits(alloc, &mut stores, *sitting)? {
                return Ok(false);
            }
        }
        Ok(true)
    }
}

const READ: &[u8] = b"BEGIN\nSELECT balance FROM bank.account WHERE id = 1\nCOMMIT\n";

// An account that a transaction prepared and did not decide, or decided elsewhere.
pub const PREPARED: Row = Row {
    place: Place {
        ns: "bank",
        table: "account",
        partition: &[Cell::Int(1)],
        clustering: &[],
    },
    columns: &[
        ("balance", Cell::Int(93)),
        ("before_balance", Cell::Int(100)),
        ("before_tx_committed_at", Cell::BigInt(0)),
        (
            "before_tx_id",
            Cell::Text("00000000-0000-0001-0000-000000000001"),
        ),
        ("before_tx_prepared_at", Cell::BigInt(0)),
        ("before_tx_state", Cell::Int(3)),
        ("before_tx_version", Cell::Int(1)),
        ("tx_id", Cell::Text("00000000-0000-0002-0000-000000000001")),
        ("tx_prepared_at", Cell::BigInt(0)),
        ("tx_state", Cell::Int(1)),
        ("tx_version", Cell::Int(2)),
    ],
};

const DECISION: Row = Row {
    place: Place {
        ns: "coordinator",
        table: "state",
        partition: &[Cell::Text("00000000-0000-0002-0000-000000000001")],
        clustering: &[],
    },
    columns: &[
        ("tx_created_at", Cell::BigInt(0)),
        ("tx_state", Cell::Int(3)),
    ],
};

// An account in a state that no transaction leaves.
const WRONG: Row = Row {
    place: Place {
        ns: "bank",
        table: "account",
        partition: &[Cell::Int(1)],
        clustering: &[],
    },
    columns: &[
        ("balance", Cell::Int(93)),
        ("tx_id", Cell::Text("00000000-0000-0002-0000-000000000001")),
        ("tx_prepared_at", Cell::BigInt(0)),
        ("tx_state", Cell::Int(7)),
        ("tx_version", Cell::Int(2)),
    ],
};

const WRITE: Lines = Lines {
    first: 1,
    moment: 0,
    input: b"BEGIN\nINSERT INTO bank.account (id, balance) VALUES (1, 100)\nCOMMIT\n",
    written: b"done\ncount 1\ncommitted\n",
};

const FOUND: Lines = Lines {
    first: 100,
    moment: 1,
    input: READ,
    written: b"done\nrows 1 (100)\ncommitted\n",
};

// A store that fails a call of the COMMIT. Its calls are one scan and three puts for the schema, a scan that opens the catalog, a get of the
// INSERT, and then the prepare, the decision and the roll.
static FAULTS: [Sittings; 3] = [
    // The decision was put, and its row is found.
    Sittings {
        on: On::Failing(8, true),
        left: &[],
        sittings: &[Sitting::Done(WRITE), Sitting::Done(FOUND)],
    },
    // The decision was not put: the transaction is given up.
    Sittings {
        on: On::Failing(8, false),
        left: &[],
        sittings: &[
            Sitting::Done(Lines {
                written: b"done\ncount 1\nfaulted\n",
                first: 1,
                moment: 0,
                input: b"BEGIN\nINSERT INTO bank.account (id, balance) VALUES (1, 100)\nCOMMIT\n",
            }),
            Sitting::Done(Lines {
                first: 100,
                moment: 1,
                input: READ,
                written: b"done\nrows 0\ncommitted\n",
            }),
        ],
    },
    // The record was not rolled forward: the next session does that.
    Sittings {
        on: On::Failing(9, false),
        left: &[],
        sittings: &[Sitting::Done(WRITE), Sitting::Done(FOUND)],
    },
];

static SITTINGS: [Sittings; 5] = [
    Sittings {
        on: On::Two,
        left: &[],
        sittings: &[
            Sitting::Done(Lines {
                first: 1,
                moment: 0,
                input: b"BEGIN\nINSERT INTO shop.orders (customer, placed, note) VALUES (1, 100, 'first')\nINSERT INTO shop.orders (customer, placed, note) VALUES (1, 200, 'a,b')\nINSERT INTO shop.orders (customer, placed) VALUES (2, 50)\nCOMMIT\n",
                written: b"done\ncount 1\ncount 1\ncount 1\ncommitted\n",
            }),
            Sitting::Done(Lines {
                first: 100,
                moment: 1,
                input: b"BEGIN\nINSERT INTO bank.account (id, balance) VALUES (1, 100)\nINSERT INTO bank.account (id, balance) VALUES (2, 50)\nCOMMIT\nBEGIN\nUPDATE bank.account SET balance = 70 WHERE id = 1\nUPDATE bank.account SET balance = 80 WHERE id = 2\nSELECT * FROM shop.orders WHERE customer = 1 LIMIT 1\nCOMMIT;\n",
                written: b"done\ncount 1\ncount 1\ncommitted\ndone\ncount 1\ncount 1\nrows 1 (1,'a,b',200L)\ncommitted\n",
            }),
            Sitting::Done(Lines {
                first: 200,
                moment: 2,
                input: b"\nBEGIN\n\n\nSELECT balance FROM bank.account WHERE id = 2\nINSERT INTO bank.account (id, balance) VALUES (1, 5)\nROLLBACK\nBEGIN\nDELETE FROM bank.account WHERE id = 1",
                written: b"done\nrows 1 (80)\nduplicate bank.account(1)\ndone\ndone\ncount 1\n",
            }),
        ],
    },
    Sittings {
        on: On::Two,
        left: &[PREPARED, DECISION],
        sittings: &[Sitting::Done(Lines {
            first: 1,
            moment: 14_000,
            input: READ,
            written: b"done\nrows 1 (93)\ncommitted\n",
        })],
    },
    Sittings {
        on: On::Two,
        left: &[PREPARED],
        sittings: &[
            Sitting::Done(Lines {
                first: 1,
                moment: 14_000,
                input: b"BEGIN\nSELECT balance FROM bank.account WHERE id = 1\nROLLBACK\n",
                written: b"done\nbusy bank.account(1) 00000000-0000-0002-0000-000000000001 0\ndone\n",
            }),
            Sitting::Done(Lines {
                first: 100,
                moment: 16_000,
                input: READ,
                written: b"done\nrows 1 (100)\ncommitted\n",
            }),
        ],
    },
    Sittings {
        on: On::Two,
        left: &[WRONG],
        sittings: &[Sitting::Done(Lines {
            first: 1,
            moment: 0,
            input: b"BEGIN\nSELECT balance FROM bank.account WHERE id = 1\n",
            written: b"done\nbadrecord bank.account(1)\n",
        })],
    },
    Sittings {
        on: On::Two,
        left: &[],
        sittings: &[
            Sitting::Stops(
                Lines {
                    first: 1,
                    moment: 0,
                    input: b"BEGIN\n\xff\nCOMMIT\n",
                    written: b"done\n",
                },
                End::BadLine(2),
            ),
            Sitting::ReadFails(
                Lines {
                    first: 100,
                    moment: 0,
                    input: b"BEGIN\nINSERT INTO bank.account (id, balance) VALUES (1, 100)\nINSERT INTO bank.account (id, balance) VALUES (2, 50)\nCOMMIT\n",
                    written: b"done\ncount 1\n",
                },
                &[2],
            ),
            Sitting::WriteFails(
                Lines {
                    first: 200,
                    moment: 0,
                    input: b"BEGIN\nINSERT INTO bank.account (id, balance) VALUES (1, 100)\nCOMMIT\n",
                    written: b"done\n",
                },
                &[2],
            ),
        ],
    },
];

#[test]
fn sessions_are_answered(rt: HostRuntime) -> Result<(), Fail> {
    all_cases(rt.alloc(), "sittings", SITTINGS.as_slice())
}

#[test]
fn faults_of_a_commit_are_settled(rt: HostRuntime) -> Result<(), Fail> {
    all_cases(rt.alloc(), "faults", FAULTS.as_slice())
}

const ID: Cell = Cell::Text("00000000-0000-0002-0000-000000000001");

const BEFORE: Cell = Cell::Text("00000000-0000-0001-0000-000000000001");

/// A record of an account, by its columns, or one that was prepared with a row of the coordinator: that no transaction leaves it there.
#[derive(Clone, Copy)]
enum Broken {
    Record(&'static [(&'static str, Cell)]),
    Decision(&'static [(&'static str, Cell)]),
}

const ASKS: &[u8] = b"BEGIN\nSELECT balance FROM bank.account WHERE id = 1\n";

// The session that finds it.
fn finds(written: &'static [u8]) -> Sitting {
    Sitting::Done(Lines {
        first: 1,
        moment: 0,
        input: ASKS,
        written,
    })
}

impl Case for Broken {
    fn holds(self, alloc: Global) -> Result<bool, Fail> {
        let mut stores = Stores::new(alloc);
        if !attach_all(alloc, &mut stores, On::Two)?
            || !writes_schema(alloc, &mut stores, On::Two)?
        {
            return Ok(false);
        }
        match self {
            Broken::Record(columns) => {
                let row = Row {
                    place: PREPARED.place,
                    columns,
                };
                Ok(
                    puts(alloc, &mut stores, row)?
                        && opens_and_sits(
                            alloc,
                            &mut stores,
                            finds(b"done\nbadrecord bank.account(1)\n"),
                        )?,
                )
            }
            Broken::Decision(columns) => {
                let row = Row {
                    place: DECISION.place,
                    columns,
                };
                Ok(
                    puts(alloc, &mut stores, PREPARED)?
                        && puts(alloc, &mut stores, row)?
                        && opens_and_sits(
                            alloc,
                            &mut stores,
                            finds(
                                b"done\nbadrecord coordinator.state('00000000-0000-0002-0000-000000000001')\n",
                            ),
                        )?,
                )
            }
        }
    }
}

static BROKEN: [Broken; 13] = [
    Broken::Record(&[]),
    Broken::Record(&[
        ("balance", Cell::Int(93)),
        ("tx_id", ID),
        ("tx_prepared_at", Cell::BigInt(0)),
        ("tx_state", Cell::Int(4)),
        ("tx_version", Cell::Int(1)),
    ]),
    Broken::Record(&[
        ("balance", Cell::Int(93)),
        ("tx_committed_at", Cell::BigInt(0)),
        ("tx_id", ID),
        ("tx_prepared_at", Cell::BigInt(0)),
        ("tx_state", Cell::Int(3)),
        ("tx_version", Cell::Int(0)),
    ]),
    Broken::Record(&[
        ("balance", Cell::Int(93)),
        ("tx_committed_at", Cell::BigInt(0)),
        ("tx_id", ID),
        ("tx_prepared_at", Cell::BigInt(-1)),
        ("tx_state", Cell::Int(3)),
        ("tx_version", Cell::Int(1)),
    ]),
    Broken::Record(&[
        ("balance", Cell::Int(93)),
        ("tx_id", ID),
        ("tx_prepared_at", Cell::BigInt(0)),
        ("tx_state", Cell::Int(3)),
        ("tx_version", Cell::Int(1)),
    ]),
    Broken::Record(&[
        ("balance", Cell::Int(93)),
        ("tx_id", ID),
        ("tx_prepared_at", Cell::BigInt(0)),
        ("tx_state", Cell::Int(1)),
        ("tx_tombstone", Cell::Bool(true)),
        ("tx_version", Cell::Int(1)),
    ]),
    Broken::Record(&[
        ("balance", Cell::Int(93)),
        ("tx_id", ID),
        ("tx_prepared_at", Cell::BigInt(0)),
        ("tx_state", Cell::Int(2)),
        ("tx_version", Cell::Int(1)),
    ]),
    Broken::Record(&[
        ("balance", Cell::Int(93)),
        ("before_balance", Cell::Int(100)),
        ("tx_committed_at", Cell::BigInt(0)),
        ("tx_id", ID),
        ("tx_prepared_at", Cell::BigInt(0)),
        ("tx_state", Cell::Int(3)),
        ("tx_version", Cell::Int(1)),
    ]),
    Broken::Record(&[
        ("balance", Cell::Int(93)),
        ("before_tx_id", BEFORE),
        ("tx_id", ID),
        ("tx_prepared_at", Cell::BigInt(0)),
        ("tx_state", Cell::Int(1)),
        ("tx_version", Cell::Int(1)),
    ]),
    Broken::Record(&[
        ("balance", Cell::Int(93)),
        ("before_balance", Cell::Int(100)),
        ("tx_id", ID),
        ("tx_prepared_at", Cell::BigInt(0)),
        ("tx_state", Cell::Int(1)),
        ("tx_version", Cell::Int(1)),
    ]),
    Broken::Record(&[
        ("balance", Cell::Text("much")),
        ("tx_committed_at", Cell::BigInt(0)),
        ("tx_id", ID),
        ("tx_prepared_at", Cell::BigInt(0)),
        ("tx_state", Cell::Int(3)),
        ("tx_version", Cell::Int(1)),
    ]),
    Broken::Decision(&[
        ("tx_created_at", Cell::BigInt(0)),
        ("tx_state", Cell::Int(1)),
    ]),
    Broken::Decision(&[("tx_state", Cell::Int(3))]),
];

#[test]
fn bad_records_are_named(rt: HostRuntime) -> Result<(), Fail> {
    all_cases(rt.alloc(), "broken", BROKEN.as_slice())
}
