//! The commands `schema` and `bench`, on stores in memory, and words of no command.
use crate::attached::attach_all;
use crate::run::{Bad, Call, End, On, ends, ends_from};
use sdb_data::CsvFault;
use sdb_stores::{Registry, Stores};
use sdb_types::{Condition, Reply, Request};
use std::alloc::Global;
use std::test::Fail;
use test_builders::{Case, Cell, Place, Row, all_cases, hold, record_of};

pub const SHOP: &[&str] = &["schema", "shop=hashed"];

pub const SCHEMA: &[u8] =
    b"{\"bank.account\":{\"transaction\":true,\"partition-key\":[\"id\"],\"clustering-key\":[],\"columns\":{\"id\":\"INT\",\"balance\":\"INT\"},\"compaction-strategy\":\"LCS\"},\"shop.orders\":{\"transaction\":true,\"partition-key\":[\"customer\"],\"clustering-key\":[\"placed DESC\"],\"columns\":{\"customer\":\"INT\",\"placed\":\"BIGINT\",\"note\":\"TEXT\"},\"secondary-index\":[\"note\"]}}";

pub const CREATED: &[u8] =
    b"created bank.account\ncreated coordinator.state\ncreated shop.orders\n";

/// How a command ends that writes nothing: its status, by which line and which code.
#[derive(Clone, Copy)]
pub struct Refusal {
    pub end: End,
    pub line: &'static str,
    pub code: u8,
}

/// A command on these words and this input.
#[derive(Clone, Copy)]
pub enum Step {
    /// It is done, and writes this.
    Done(&'static [&'static str], &'static [u8], &'static [u8]),
    /// It is refused.
    Refused(&'static [&'static str], &'static [u8], Refusal),
    /// A record of its CSV is refused, by its number and this line, because of this fault.
    BadRecord(&'static [&'static str], &'static [u8], u64, &'static str, CsvFault),
    /// These reads fail.
    ReadFails(&'static [&'static str], &'static [u8], &'static [u64]),
    /// These writes fail, after this was written.
    WriteFails(&'static [&'static str], &'static [u8], &'static [u64], &'static [u8]),
}

// The call of a command that ends so.
fn call_with(
    words: &'static [&'static str],
    input: &'static [u8],
    refusal: Refusal,
) -> Call<'static> {
    Call {
        on: On::Two,
        words,
        input,
        reads_fail: &[],
        writes_fail: &[],
        end: refusal.end,
        line: refusal.line,
        code: refusal.code,
        written: b"",
    }
}

// The call of a step.
fn call_of(step: Step) -> Call<'static> {
    match step {
        Step::Done(words, input, written) => Call {
            written,
            ..call_with(words, input, DONE)
        },
        Step::Refused(words, input, refusal) => call_with(words, input, refusal),
        Step::BadRecord(words, input, n, line, fault) => call_with(
            words,
            input,
            Refusal {
                end: End::BadInput(n, Bad::Csv(fault)),
                line,
                code: 3,
            },
        ),
        Step::ReadFails(words, input, reads_fail) => Call {
            reads_fail,
            ..call_with(words, input, READ_FAULT)
        },
        Step::WriteFails(words, input, writes_fail, written) => Call {
            writes_fail,
            written,
            ..call_with(words, input, WRITE_FAULT)
        },
    }
}

const DONE: Refusal = Refusal {
    end: End::Done,
    line: "",
    code: 0,
};

const READ_FAULT: Refusal = Refusal {
    end: End::ReadFault,
    line: "read fault",
    code: 4,
};

const WRITE_FAULT: Refusal = Refusal {
    end: End::WriteFault,
    line: "write fault",
    code: 5,
};

pub const STORE_FAULT: Refusal = Refusal {
    end: End::StoreFault,
    line: "store fault",
    code: 6,
};

pub const NO_MEMORY: Refusal = Refusal {
    end: End::NoMemory,
    line: "out of memory",
    code: 7,
};

const NO_SCHEMA: Refusal = Refusal {
    end: End::BadInput(1, Bad::Json),
    line: "bad input at 1",
    code: 3,
};

pub const USAGE: Refusal = Refusal {
    end: End::Usage,
    line: "usage: scalardb replay | sql | schema [NS=STORE]... | load NS.TABLE insert|update|upsert N | export NS.TABLE | bench N | retire FROM TO | alter NS.TABLE COLUMN KIND",
    code: 2,
};

/// Commands, one after the other on the same stores.
#[derive(Clone, Copy)]
pub struct Steps {
    pub on: On,
    pub steps: &'static [Step],
}

/// Whether each command ends as listed; each draws ids of its own.
pub fn follow(alloc: Global, stores: &mut Stores, steps: &[Step]) -> Result<bool, Fail> {
    let mut first = 1;
    for step in steps {
        if !ends_from(alloc, stores, first, call_of(*step))? {
            return Ok(false);
        }
        first = first.saturating_add(1000);
    }
    Ok(true)
}

impl Case for Steps {
    fn holds(self, alloc: Global) -> Result<bool, Fail> {
        let mut stores = Stores::new(alloc);
        Ok(attach_all(alloc, &mut stores, self.on)? && follow(alloc, &mut stores, self.steps)?)
    }
}

static SCHEMAS: [Steps; 6] = [
    // What is created is there the next time.
    Steps {
        on: On::Two,
        steps: &[
            Step::Done(SHOP, SCHEMA, CREATED),
            Step::Done(
                SHOP,
                SCHEMA,
                b"exists bank.account\nexists coordinator.state\nexists shop.orders\n",
            ),
        ],
    },
    // A table that is there with another definition stays, and a new one is created beside it.
    Steps {
        on: On::Two,
        steps: &[
            Step::Done(SHOP, SCHEMA, CREATED),
            Step::Done(
                &["schema"],
                b"{\"bank.account\":{\"partition-key\":[\"id\"],\"columns\":{\"id\":\"BIGINT\"}},\"bank.book\":{\"partition-key\":[\"id\"],\"columns\":{\"id\":\"INT\"}}}",
                b"differs bank.account\ncreated bank.book\nexists coordinator.state\n",
            ),
        ],
    },
    // No table at all.
    Steps {
        on: On::One,
        steps: &[Step::Done(&["schema"], b"{}", b"created coordinator.state\n")],
    },
    // An input that describes no catalog, or that isn't read, touches no store.
    Steps {
        on: On::Two,
        steps: &[
            Step::Refused(
                &["schema"],
                b"{\"a.b\":{\"partition-key\":[\"k\"],\"columns\":{\"k\":\"FLOAT\"}}}",
                NO_SCHEMA,
            ),
            Step::Refused(&["schema"], b"", NO_SCHEMA),
            Step::ReadFails(SHOP, SCHEMA, &[2]),
            Step::Done(SHOP, SCHEMA, CREATED),
        ],
    },
    // The rows are there where the answer was not written whole.
    Steps {
        on: On::Two,
        steps: &[
            Step::WriteFails(SHOP, SCHEMA, &[2], b"created ba"),
            Step::Done(
                SHOP,
                SCHEMA,
                b"exists bank.account\nexists coordinator.state\nexists shop.orders\n",
            ),
        ],
    },
    // A namespace keeps its store.
    Steps {
        on: On::Two,
        steps: &[
            Step::Done(SHOP, SCHEMA, CREATED),
            Step::Done(
                &["schema", "shop=ordered"],
                SCHEMA,
                b"exists bank.account\nexists coordinator.state\nexists shop.orders\n",
            ),
        ],
    },
];

#[test]
fn schemas_are_kept(rt: HostRuntime) -> Result<(), Fail> {
    all_cases(rt.alloc(), "schemas", SCHEMAS.as_slice())
}

// A store that fails, or finds no memory, at the scan or at a put. What was put before stays.
static STOPPED: [Steps; 5] = [
    Steps {
        on: On::Failing(1, false),
        steps: &[
            Step::Refused(&["schema"], SCHEMA, STORE_FAULT),
            Step::Done(&["schema"], SCHEMA, CREATED),
        ],
    },
    Steps {
        on: On::Failing(3, false),
        steps: &[
            Step::Refused(&["schema"], SCHEMA, STORE_FAULT),
            Step::Done(
                &["schema"],
                SCHEMA,
                b"exists bank.account\ncreated coordinator.state\ncreated shop.orders\n",
            ),
        ],
    },
    Steps {
        on: On::Failing(3, true),
        steps: &[
            Step::Refused(&["schema"], SCHEMA, STORE_FAULT),
            Step::Done(
                &["schema"],
                SCHEMA,
                b"exists bank.account\nexists coordinator.state\ncreated shop.orders\n",
            ),
        ],
    },
    Steps {
        on: On::Short(1),
        steps: &[
            Step::Refused(&["schema"], SCHEMA, NO_MEMORY),
            Step::Done(&["schema"], SCHEMA, CREATED),
        ],
    },
    Steps {
        on: On::Short(3),
        steps: &[
            Step::Refused(&["schema"], SCHEMA, NO_MEMORY),
            Step::Done(
                &["schema"],
                SCHEMA,
                b"exists bank.account\ncreated coordinator.state\ncreated shop.orders\n",
            ),
        ],
    },
];

#[test]
fn schemas_are_stopped(rt: HostRuntime) -> Result<(), Fail> {
    all_cases(rt.alloc(), "stopped schemas", STOPPED.as_slice())
}

static BENCHES: [Steps; 3] = [
    // The tables of a bench are empty once.
    Steps {
        on: On::Two,
        steps: &[
            Step::Done(
                &["bench", "1"],
                b"",
                b"transactions 1\ncommitted 1\nother 0\ncalls 106\nuneven 0\n",
            ),
            Step::Refused(
                &["bench", "1"],
                b"",
                Refusal {
                    end: End::NotEmpty,
                    line: "not empty: benchl.cell(0;0)",
                    code: 8,
                },
            ),
        ],
    },
    // No part of it is run where a table can't be looked through.
    Steps {
        on: On::Failing(1, false),
        steps: &[
            Step::Refused(&["bench", "1"], b"", STORE_FAULT),
            Step::Done(
                &["bench", "1"],
                b"",
                b"transactions 1\ncommitted 1\nother 0\ncalls 106\nuneven 0\n",
            ),
        ],
    },
    Steps {
        on: On::One,
        steps: &[Step::WriteFails(&["bench", "1"], b"", &[1], b"")],
    },
];

// Sessions over a schema that was kept, with the ids from 1 on and the moment 0.
static SESSIONS: [Steps; 3] = [
    Steps {
        on: On::Two,
        steps: &[
            Step::Done(SHOP, SCHEMA, CREATED),
            Step::Done(
                &["sql"],
                b"BEGIN\nINSERT INTO bank.account (id, balance) VALUES (1, 100)\n\nINSERT INTO shop.orders (customer, placed, note) VALUES (1, 200, 'a,b')\nCOMMIT;\n",
                b"done\ncount 1\ncount 1\ncommitted\n",
            ),
            Step::Done(
                &["sql"],
                b"BEGIN\nSELECT * FROM shop.orders WHERE customer = 1 LIMIT 1\nSELECT balance FROM bank.account WHERE id = 1\nROLLBACK\n",
                b"done\nrows 1 (1,'a,b',200L)\nrows 1 (100)\ndone\n",
            ),
        ],
    },
    // No table at all, and no line.
    Steps {
        on: On::One,
        steps: &[
            Step::Done(&["sql"], b"", b""),
            Step::Done(&["sql"], b"COMMIT\n", b"refused 5 0\n"),
        ],
    },
    // A line that is no text, a source and a sink that fail, and a store that fails the opening.
    Steps {
        on: On::Failing(5, false),
        steps: &[
            Step::Done(&["schema"], SCHEMA, CREATED),
            Step::Refused(&["sql"], b"BEGIN\n", STORE_FAULT),
            Step::Refused(
                &["sql"],
                b"\n\xff\n",
                Refusal {
                    end: End::BadInput(2, Bad::Text),
                    line: "bad input at 2",
                    code: 3,
                },
            ),
            Step::WriteFails(&["sql"], b"BEGIN\nROLLBACK\n", &[2], b"done\n"),
        ],
    },
];

#[test]
fn sessions_are_run(rt: HostRuntime) -> Result<(), Fail> {
    all_cases(rt.alloc(), "sessions", SESSIONS.as_slice())
}

#[test]
fn benches_are_counted(rt: HostRuntime) -> Result<(), Fail> {
    all_cases(rt.alloc(), "benches", BENCHES.as_slice())
}

/// Words of no command.
#[derive(Clone, Copy)]
struct Unknown(&'static [&'static str]);

impl Case for Unknown {
    fn holds(self, alloc: Global) -> Result<bool, Fail> {
        let mut stores = Stores::new(alloc);
        let step = Step::Refused(self.0, b"", USAGE);
        Ok(attach_all(alloc, &mut stores, On::Two)? && ends(alloc, &mut stores, call_of(step))?)
    }
}

static UNKNOWN: [Unknown; 17] = [
    Unknown(&[]),
    Unknown(&["bench", "0"]),
    Unknown(&["bench", "01"]),
    Unknown(&["bench", "20001"]),
    Unknown(&["bench", "--help"]),
    Unknown(&["bench"]),
    Unknown(&["replay", "x"]),
    Unknown(&["--help"]),
    Unknown(&["schema", "shop=sqlite"]),
    Unknown(&["schema", "shop=hashed", "shop=hashed"]),
    Unknown(&["schema", "scalardb=hashed"]),
    Unknown(&["schema", "shop"]),
    Unknown(&["export", "orders"]),
    Unknown(&["load", "shop.orders", "insert", "0"]),
    Unknown(&["load", "shop.orders", "insert", "1001"]),
    Unknown(&["load", "shop.orders", "merge", "1"]),
    Unknown(&["audit"]),
];

#[test]
fn words_of_no_command(rt: HostRuntime) -> Result<(), Fail> {
    all_cases(rt.alloc(), "words", UNKNOWN.as_slice())
}

/// A row of the catalog without a definition.
pub const BAD_ROW: Row = Row {
    place: Place {
        ns: "scalardb",
        table: "metadata",
        partition: &[Cell::Text("a.b")],
        clustering: &[],
    },
    columns: &[("store", Cell::Text("ordered"))],
};

/// Puts a row where there is none.
pub fn puts(alloc: Global, stores: &mut Stores, row: Row) -> Result<bool, Fail> {
    if stores.len() == 0 {
        return Ok(false);
    }
    let request = Request::PutIf(record_of(alloc, row)?, Condition::Absent);
    Ok(matches!(stores.perform(&request), Reply::Applied))
}

/// Keeps the schema of these tests, of which the namespace `shop` is in the store `hashed` where there is one.
pub fn writes_schema(alloc: Global, stores: &mut Stores, on: On) -> Result<bool, Fail> {
    let words = if matches!(on, On::Two) {
        SHOP
    } else {
        &["schema"]
    };
    ends(alloc, stores, call_of(Step::Done(words, SCHEMA, CREATED)))
}

fn is_bad_store(alloc: Global) -> Result<bool, Fail> {
    let mut stores = Stores::new(alloc);
    let step = Step::Refused(
        &["schema"],
        SCHEMA,
        Refusal {
            end: End::BadStore,
            line: "bad record: scalardb.metadata('a.b')",
            code: 9,
        },
    );
    Ok(
        attach_all(alloc, &mut stores, On::One)?
            && puts(alloc, &mut stores, BAD_ROW)?
            && ends(alloc, &mut stores, call_of(step))?,
    )
}

#[test]
fn a_row_of_the_catalog_is_bad(rt: HostRuntime) -> Result<(), Fail> {
    hold(is_bad_store(rt.alloc()))
}
