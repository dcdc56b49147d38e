//! Sources and sinks of which one call fails, each in turn.
use crate::asked::{Asked, REPLAY, attach_two, ends, feed, follow, tray, writes};
use sdb_app::Status;
use sdb_stores::{Registry, Stores};
use sdb_types::{Feed, Tray};
use std::alloc::Global;
use std::test::Fail;
use test_builders::{Case, all_cases};

#[derive(Clone, Copy, PartialEq, Eq)]
enum Ending {
    Done,
    ReadFault,
    WriteFault,
    Other,
}

fn ending_of(status: &Status) -> Ending {
    match status {
        Status::Done => Ending::Done,
        Status::ReadFault => Ending::ReadFault,
        Status::WriteFault => Ending::WriteFault,
        _ => Ending::Other,
    }
}

/// A call of the program after others, and how many reads of its source and writes of its sink it makes.
#[derive(Clone, Copy)]
struct Whole {
    before: &'static [Asked<'static>],
    asked: Asked<'static>,
    reads: u64,
    writes: u64,
}

/// The read and the write that fail, from 1; none is 0.
#[derive(Clone, Copy)]
struct Failing {
    read: u64,
    write: u64,
}

impl Whole {
    fn ends_on<S: Registry>(
        self,
        alloc: Global,
        stores: &mut S,
        input: &mut Feed,
        output: &mut Tray,
    ) -> Result<Ending, Fail> {
        follow(alloc, stores, self.before)?;
        let status = ends(alloc, stores, self.asked.words, 5000, input, output)?;
        Ok(ending_of(&status))
    }

    // On stores of its own.
    fn ends(self, alloc: Global, input: &mut Feed, output: &mut Tray) -> Result<Ending, Fail> {
        let mut stores = Stores::new(alloc);
        if !attach_two(alloc, &mut stores)? {
            return Ok(Ending::Other);
        }
        self.ends_on(alloc, &mut stores, input, output)
    }

    // Whether it ends so, having written a prefix of the whole output, and all of it where it is done.
    fn writes_prefix(
        self,
        alloc: Global,
        failing: Failing,
        wanted: Ending,
        whole: &[u8],
    ) -> Result<bool, Fail> {
        let mut input = feed(alloc, self.asked.input, failing.read)?;
        let mut output = tray(alloc, failing.write)?;
        let ending = self.ends(alloc, &mut input, &mut output)?;
        let written = output.written().as_slice();
        Ok(
            ending == wanted
                && whole.starts_with(written)
                && (ending != Ending::Done || written.len() == whole.len()),
        )
    }

    // Each read fails in turn, and then none.
    fn reads_fail(self, alloc: Global, whole: &[u8]) -> Result<bool, Fail> {
        for read in 1..=self.reads {
            let failing = Failing { read, write: 0 };
            if !self.writes_prefix(alloc, failing, Ending::ReadFault, whole)? {
                return Ok(false);
            }
        }
        let none = Failing {
            read: self.reads.saturating_add(1),
            write: 0,
        };
        self.writes_prefix(alloc, none, Ending::Done, whole)
    }

    // Each write fails in turn, and then none.
    fn writes_fail(self, alloc: Global, whole: &[u8]) -> Result<bool, Fail> {
        for write in 1..=self.writes {
            let failing = Failing { read: 0, write };
            if !self.writes_prefix(alloc, failing, Ending::WriteFault, whole)? {
                return Ok(false);
            }
        }
        let none = Failing {
            read: 0,
            write: self.writes.saturating_add(1),
        };
        self.writes_prefix(alloc, none, Ending::Done, whole)
    }

    // What it writes where nothing fails.
    fn output<S: Registry>(self, alloc: Global, stores: &mut S) -> Result<Tray, Fail> {
        follow(alloc, stores, self.before)?;
        writes(alloc, stores, self.asked, 5000)
    }
}

impl Case for Whole {
    fn holds(self, alloc: Global) -> Result<bool, Fail> {
        let mut stores = Stores::new(alloc);
        if !attach_two(alloc, &mut stores)? {
            return Ok(false);
        }
        let output = self.output(alloc, &mut stores)?;
        let whole = output.written().as_slice();
        Ok(self.reads_fail(alloc, whole)? && self.writes_fail(alloc, whole)?)
    }
}

// Two clients recover what a third has prepared, and the third wins.
const SCRIPT: &[u8] =
    b"schema {\"bank.account\":{\"partition-key\":[\"id\"],\"columns\":{\"id\":\"INT\",\"balance\":\"INT\"}}}\nclient c1\n  BEGIN\n  INSERT INTO bank.account (id, balance) VALUES (1, 100)\n  COMMIT\nclient c2\n  BEGIN\n  UPDATE bank.account SET balance = 7 WHERE id = 1\n  COMMIT\nclient c3\n  BEGIN\n  SELECT balance FROM bank.account WHERE id = 1\n  COMMIT\nclient c4\n  BEGIN\n  SELECT balance FROM bank.account WHERE id = 1\n  COMMIT\nrun\nstep 1 7\nstep 2 5\nclock 15000\nstep 3 4\nstep 4 4\nstep 2\nstep 3 2\nstep 4 2\nrest\n";

const SCHEMA: Asked<'static> = Asked {
    words: &["schema", "shop=hashed"],
    input: b"{\"bank.account\":{\"partition-key\":[\"id\"],\"columns\":{\"id\":\"INT\",\"balance\":\"INT\"}},\"shop.orders\":{\"partition-key\":[\"customer\"],\"clustering-key\":[\"placed\"],\"columns\":{\"customer\":\"INT\",\"placed\":\"BIGINT\",\"note\":\"TEXT\"}}}",
};

const LOAD: Asked<'static> = Asked {
    words: &["load", "shop.orders", "insert", "2"],
    input: b"customer,placed,note\n1,100,first\n1,200,\"a,b\"\n2,50,\\N\n3,1,a long note that is written in two pieces of its own\n4,1,x\n5,1,y\n",
};

const SQL: Asked<'static> = Asked {
    words: &["sql"],
    input: b"BEGIN\nINSERT INTO bank.account (id, balance) VALUES (1, 100)\nINSERT INTO bank.account (id, balance) VALUES (2, 50)\nCOMMIT\nBEGIN\nUPDATE bank.account SET balance = 70 WHERE id = 1\nSELECT * FROM shop.orders WHERE customer = 1 LIMIT 1\nCOMMIT;\n",
};

const EXPORT: Asked<'static> = Asked {
    words: &["export", "shop.orders"],
    input: b"",
};

static WHOLES: [Whole; 5] = [
    Whole {
        before: &[],
        asked: Asked {
            words: REPLAY,
            input: SCRIPT,
        },
        reads: 6,
        writes: 76,
    },
    Whole {
        before: &[],
        asked: SCHEMA,
        reads: 4,
        writes: 2,
    },
    Whole {
        before: &[SCHEMA],
        asked: LOAD,
        reads: 3,
        writes: 2,
    },
    Whole {
        before: &[SCHEMA, LOAD],
        asked: SQL,
        reads: 4,
        writes: 8,
    },
    Whole {
        before: &[SCHEMA, LOAD, SQL],
        asked: EXPORT,
        reads: 0,
        writes: 2,
    },
];

#[test]
fn reads_and_writes_fail_in_turn(rt: HostRuntime) -> Result<(), Fail> {
    all_cases(rt.alloc(), "failing", WHOLES.as_slice())
}
