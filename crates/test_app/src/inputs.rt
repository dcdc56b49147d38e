//! Inputs at their limits and past them, and statements that are refused.
use crate::asked::{Asked, REPLAY, attach_two, ends, feed, follow, tray};
use crate::statements::{outcome_of, statements_of};
use sdb_app::{InputFault, Status};
use sdb_data::CsvFault;
use sdb_loader::SchemaFault;
use sdb_model::{Event, Events, Which};
use sdb_script::LineFault;
use sdb_stores::{Registry, Stores};
use std::alloc::Global;
use std::test::Fail;
use test_builders::{Case, all_cases, hold};

/// What is wrong with an input.
#[derive(Clone, Copy, PartialEq, Eq)]
enum Why {
    Form,
    NotAnObject,
    NotJson,
    BadTableName,
    BadField,
    Csv(CsvFault),
    Other,
}

/// How a call of the program ends.
#[derive(Clone, Copy, PartialEq, Eq)]
enum End {
    Done,
    BadInput(u64, Why),
    Limit(u64, Which),
    Other,
}

fn why_of(fault: &InputFault) -> Why {
    match fault {
        InputFault::Line(LineFault::Form) => Why::Form,
        InputFault::Json(SchemaFault::NotAnObject) => Why::NotAnObject,
        InputFault::Json(SchemaFault::NotJson) => Why::NotJson,
        InputFault::Json(SchemaFault::BadTableName(_)) => Why::BadTableName,
        InputFault::Json(SchemaFault::BadField(_, _)) => Why::BadField,
        InputFault::Csv(fault) => Why::Csv(*fault),
        _ => Why::Other,
    }
}

fn end_of(status: &Status) -> End {
    match status {
        Status::Done => End::Done,
        Status::BadInput(n, fault) => End::BadInput(*n, why_of(fault)),
        Status::Limit(n, which) => End::Limit(*n, *which),
        _ => End::Other,
    }
}

/// A call of the program after other calls, and how it ends.
#[derive(Clone, Copy)]
struct Input {
    before: &'static [Asked<'static>],
    words: &'static [&'static str],
    text: &'static str,
    end: End,
}

impl Input {
    fn ends_on<S: Registry>(self, alloc: Global, stores: &mut S) -> Result<bool, Fail> {
        follow(alloc, stores, self.before)?;
        let mut input = feed(alloc, self.text.as_bytes(), 0)?;
        let mut output = tray(alloc, 0)?;
        let status = ends(alloc, stores, self.words, 5000, &mut input, &mut output)?;
        Ok(end_of(&status) == self.end)
    }
}

impl Case for Input {
    fn holds(self, alloc: Global) -> Result<bool, Fail> {
        let mut stores = Stores::new(alloc);
        Ok(attach_two(alloc, &mut stores)? && self.ends_on(alloc, &mut stores)?)
    }
}

const SCHEMA: &[&str] = &["schema"];

const LOAD: &[&str] = &["load", "bank.account", "insert", "1"];

const BANK: &[Asked<'static>] = &[Asked {
    words: SCHEMA,
    input: b"{\"bank.account\":{\"partition-key\":[\"id\"],\"columns\":{\"id\":\"INT\",\"balance\":\"INT\"}}}",
}];

static INPUTS: [Input; 14] = [
    Input {
        before: &[],
        words: REPLAY,
        text: "client a\nrun\nstep 1 200000\n",
        end: End::Done,
    },
    Input {
        before: &[],
        words: REPLAY,
        text: "client a\nrun\nstep 1 200000\nstep 1\n",
        end: End::Limit(4, Which::Moves),
    },
    Input {
        before: &[],
        words: REPLAY,
        text: "client a\nrun\ndelay 1\nland 200000\n",
        end: End::Done,
    },
    Input {
        before: &[],
        words: REPLAY,
        text: "client a\nrun\nland 200001\n",
        end: End::BadInput(3, Why::Form),
    },
    Input {
        before: &[],
        words: REPLAY,
        text: "client a\nrun\ndelay 2\n",
        end: End::BadInput(3, Why::Form),
    },
    Input {
        before: &[],
        words: REPLAY,
        text: "client c1\nclient c2\nclient c3\nclient c4\nclient c5\nclient c6\nclient c7\nclient c8\nclient c9\nclient c10\nclient c11\nclient c12\nclient c13\nclient c14\nclient c15\nclient c16\nclient c17\nclient c18\nclient c19\nclient c20\nclient c21\nclient c22\nclient c23\nclient c24\nclient c25\nclient c26\nclient c27\nclient c28\nclient c29\nclient c30\nclient c31\nclient c32\nclient c33\nclient c34\nclient c35\nclient c36\nclient c37\nclient c38\nclient c39\nclient c40\nclient c41\nclient c42\nclient c43\nclient c44\nclient c45\nclient c46\nclient c47\nclient c48\nclient c49\nclient c50\nclient c51\nclient c52\nclient c53\nclient c54\nclient c55\nclient c56\nclient c57\nclient c58\nclient c59\nclient c60\nclient c61\nclient c62\nclient c63\nclient c64\nrun\n",
        end: End::Done,
    },
    Input {
        before: &[],
        words: REPLAY,
        text: "client c1\nclient c2\nclient c3\nclient c4\nclient c5\nclient c6\nclient c7\nclient c8\nclient c9\nclient c10\nclient c11\nclient c12\nclient c13\nclient c14\nclient c15\nclient c16\nclient c17\nclient c18\nclient c19\nclient c20\nclient c21\nclient c22\nclient c23\nclient c24\nclient c25\nclient c26\nclient c27\nclient c28\nclient c29\nclient c30\nclient c31\nclient c32\nclient c33\nclient c34\nclient c35\nclient c36\nclient c37\nclient c38\nclient c39\nclient c40\nclient c41\nclient c42\nclient c43\nclient c44\nclient c45\nclient c46\nclient c47\nclient c48\nclient c49\nclient c50\nclient c51\nclient c52\nclient c53\nclient c54\nclient c55\nclient c56\nclient c57\nclient c58\nclient c59\nclient c60\nclient c61\nclient c62\nclient c63\nclient c64\nclient c65\nrun\n",
        end: End::Limit(65, Which::Clients),
    },
    Input {
        before: &[],
        words: SCHEMA,
        text: "[]",
        end: End::BadInput(1, Why::NotAnObject),
    },
    Input {
        before: &[],
        words: SCHEMA,
        text: "{\"a.b\":{}}",
        end: End::BadInput(1, Why::BadField),
    },
    // Lists in lists, one deeper than may be.
    Input {
        before: &[],
        words: SCHEMA,
        text: "[[[[[[[[[[[[[[[[[[[[[[[[[[[[[[[[[[[[[[[[[[[[[[[[[[[[[[[[[[[[[[[[[[[[[[[[[[[[[[[[[[[[[[[[[[[[[[[[[[[[[[[[[[[[[[[[[[[[[[[[[[[[[[[[]]]]]]]]]]]]]]]]]]]]]]]]]]]]]]]]]]]]]]]]]]]]]]]]]]]]]]]]]]]]]]]]]]]]]]]]]]]]]]]]]]]]]]]]]]]]]]]]]]]]]]]]]]]]]]]]]]]]]]]]]]]]]]]]",
        end: End::BadInput(1, Why::NotJson),
    },
    Input {
        before: &[],
        words: SCHEMA,
        text: "{\"coordinator.x\":{}}",
        end: End::BadInput(1, Why::BadTableName),
    },
    Input {
        before: BANK,
        words: LOAD,
        text: "",
        end: End::BadInput(1, Why::Csv(CsvFault::MissingKey(1))),
    },
    Input {
        before: BANK,
        words: LOAD,
        text: "id,id\n",
        end: End::BadInput(1, Why::Csv(CsvFault::RepeatedColumn(2))),
    },
    Input {
        before: BANK,
        words: LOAD,
        text: "id\n2147483648\n",
        end: End::BadInput(2, Why::Csv(CsvFault::BadValue(1))),
    },
];

#[test]
fn inputs_end(rt: HostRuntime) -> Result<(), Fail> {
    all_cases(rt.alloc(), "inputs", INPUTS.as_slice())
}

// Each event is idle.
fn are_idle(events: &Events) -> bool {
    events
        .as_slice()
        .iter()
        .all(|event| matches!(event, Event::Idle(1)))
}

fn idles(alloc: Global) -> Result<bool, Fail> {
    let outcome = outcome_of(alloc, b"client a\nrun\nstep 1 200000\n")?;
    Ok(outcome.events.len() == 200_000 && are_idle(&outcome.events))
}

#[test]
fn as_many_steps_as_may_be_are_idle(rt: HostRuntime) -> Result<(), Fail> {
    hold(idles(rt.alloc()))
}

const REFUSED: &[u8] =
    b"schema {\"bank.account\":{\"partition-key\":[\"id\"],\"columns\":{\"id\":\"INT\",\"balance\":\"INT\"}}}\nclient c1\n  BEGIN\n  SELECT * FROM a.b WHERE x = 'abc\n  COMMIT COMMIT\n   \n  SELECT * FROM a.b LIMIT -1\n  SELECT * FROM a.b LIMIT 9223372036854775808\n  INSERT INTO a.b (c) VALUES (X'0')\n  select * from \"SELECT\".\"from\"\nrun\nrest\n";

fn refuses(alloc: Global) -> Result<bool, Fail> {
    let outcome = outcome_of(alloc, REFUSED)?;
    let statements = statements_of(alloc, outcome.events.as_slice(), 1)?;
    Ok(
        statements.as_str()
            == "0 done; 0 refused 1 28; 0 refused 2 7; 0 refused 2 1; 0 refused 2 24; 0 refused 3 24; 0 refused 2 28; 0 refused 6 0; ",
    )
}

#[test]
fn statements_are_refused(rt: HostRuntime) -> Result<(), Fail> {
    hold(refuses(rt.alloc()))
}
