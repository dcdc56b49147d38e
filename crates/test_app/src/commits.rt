//! A COMMIT of two writes that is cut off: each of its calls lost or discarded, and its client stopped after each call.
use crate::statements::{outcome_of, points_of, statements_of};
use sdb_model::Outcome;
use sdb_types::NoMemory;
use std::alloc::{AllocError, Global};
use std::test::Fail;
use test_builders::{Case, all_cases};

// Two accounts with the balance 100. The second client has written 7 and 8 into them and takes its COMMIT, which makes five calls:
// two that prepare, one that decides, two that commit records. The third client reads both accounts afterwards.
const BEFORE: &str =
    "schema {\"bank.account\":{\"partition-key\":[\"id\"],\"columns\":{\"id\":\"INT\",\"balance\":\"INT\"}}}\nclient c1\n  BEGIN\n  INSERT INTO bank.account (id, balance) VALUES (1, 100)\n  INSERT INTO bank.account (id, balance) VALUES (2, 100)\n  COMMIT\nclient c2\n  BEGIN\n  UPDATE bank.account SET balance = 7 WHERE id = 1\n  UPDATE bank.account SET balance = 8 WHERE id = 2\n  COMMIT\nclient c3\n  BEGIN\n  SELECT balance FROM bank.account WHERE id = 1\n  SELECT balance FROM bank.account WHERE id = 2\n  COMMIT\nrun\nstep 1 11\nstep 2 6\n";

/// The moves that cut the COMMIT off, and for the second client and the third the calls of each statement with its answer, and the
/// events that give the order.
#[derive(Clone, Copy)]
struct Cut {
    moves: &'static str,
    writer: &'static str,
    reader: &'static str,
    order: &'static str,
}

impl Cut {
    fn script(self, alloc: Global) -> Result<String, AllocError> {
        let mut text = String::from_str(alloc, BEFORE)?;
        text.push_str(self.moves)?;
        Ok(text)
    }

    fn is_of(self, alloc: Global, outcome: &Outcome) -> Result<bool, NoMemory> {
        let events = outcome.events.as_slice();
        Ok(
            statements_of(alloc, events, 2)?.as_str() == self.writer
                && statements_of(alloc, events, 3)?.as_str() == self.reader
                && points_of(alloc, &outcome.order)?.as_str() == self.order,
        )
    }
}

impl Case for Cut {
    fn holds(self, alloc: Global) -> Result<bool, Fail> {
        let script = self.script(alloc)?;
        let outcome = outcome_of(alloc, script.as_str().as_bytes())?;
        Ok(self.is_of(alloc, &outcome)?)
    }
}

// Each call lost, and discarded.
static LOST: [Cut; 10] = [
    Cut {
        moves: "lose 2\nstep 2\nstep 2\nrest\n",
        writer: "0 done; 1 count 1; 1 count 1; 3 faulted; ",
        reader: "0 done; 1 rows 1 (100); 1 rows 1 (100); 3 committed; ",
        order: "8 26 ",
    },
    Cut {
        moves: "drop 2\nstep 2\nstep 2\nrest\n",
        writer: "0 done; 1 count 1; 1 count 1; 3 faulted; ",
        reader: "0 done; 1 rows 1 (100); 1 rows 1 (100); 3 committed; ",
        order: "8 26 ",
    },
    Cut {
        moves: "step 2\nlose 2\nstep 2\nstep 2\nstep 2\nrest\n",
        writer: "0 done; 1 count 1; 1 count 1; 5 faulted; ",
        reader: "0 done; 1 rows 1 (100); 1 rows 1 (100); 3 committed; ",
        order: "8 28 ",
    },
    Cut {
        moves: "step 2\ndrop 2\nstep 2\nstep 2\nstep 2\nrest\n",
        writer: "0 done; 1 count 1; 1 count 1; 5 faulted; ",
        reader: "0 done; 1 rows 1 (100); 1 rows 1 (100); 3 committed; ",
        order: "8 28 ",
    },
    Cut {
        moves: "step 2\nstep 2\nlose 2\nstep 2\nstep 2\nstep 2\nrest\n",
        writer: "0 done; 1 count 1; 1 count 1; 6 committed; ",
        reader: "0 done; 1 rows 1 (7); 1 rows 1 (8); 3 committed; ",
        order: "8 19 29 ",
    },
    Cut {
        moves: "step 2\nstep 2\ndrop 2\nstep 2\nstep 2\nstep 2\nstep 2\nrest\n",
        writer: "0 done; 1 count 1; 1 count 1; 7 faulted; ",
        reader: "0 done; 1 rows 1 (100); 1 rows 1 (100); 3 committed; ",
        order: "8 30 ",
    },
    Cut {
        moves: "step 2\nstep 2\nstep 2\nlose 2\nstep 2\nrest\n",
        writer: "0 done; 1 count 1; 1 count 1; 5 committed; ",
        reader: "0 done; 1 rows 1 (7); 1 rows 1 (8); 3 committed; ",
        order: "8 19 28 ",
    },
    Cut {
        moves: "step 2\nstep 2\nstep 2\ndrop 2\nstep 2\nrest\n",
        writer: "0 done; 1 count 1; 1 count 1; 5 committed; ",
        reader: "0 done; 3 rows 1 (7); 1 rows 1 (8); 3 committed; ",
        order: "8 19 30 ",
    },
    Cut {
        moves: "step 2\nstep 2\nstep 2\nstep 2\nlose 2\nrest\n",
        writer: "0 done; 1 count 1; 1 count 1; 5 committed; ",
        reader: "0 done; 1 rows 1 (7); 1 rows 1 (8); 3 committed; ",
        order: "8 19 28 ",
    },
    Cut {
        moves: "step 2\nstep 2\nstep 2\nstep 2\ndrop 2\nrest\n",
        writer: "0 done; 1 count 1; 1 count 1; 5 committed; ",
        reader: "0 done; 1 rows 1 (7); 3 rows 1 (8); 3 committed; ",
        order: "8 19 30 ",
    },
];

// The client stopped after no call, and after each, and the clock moved past the time after which others may abort it.
static STOPPED: [Cut; 6] = [
    Cut {
        moves: "stop 2\nclock 15000\nrest\n",
        writer: "0 done; 1 count 1; 1 count 1; ",
        reader: "0 done; 1 rows 1 (100); 1 rows 1 (100); 3 committed; ",
        order: "8 25 ",
    },
    Cut {
        moves: "step 2\nstop 2\nclock 15000\nrest\n",
        writer: "0 done; 1 count 1; 1 count 1; ",
        reader: "0 done; 4 rows 1 (100); 1 rows 1 (100); 3 committed; ",
        order: "8 29 ",
    },
    Cut {
        moves: "step 2\nstep 2\nstop 2\nclock 15000\nrest\n",
        writer: "0 done; 1 count 1; 1 count 1; ",
        reader: "0 done; 4 rows 1 (100); 3 rows 1 (100); 3 committed; ",
        order: "8 32 ",
    },
    Cut {
        moves: "step 2\nstep 2\nstep 2\nstop 2\nclock 15000\nrest\n",
        writer: "0 done; 1 count 1; 1 count 1; ",
        reader: "0 done; 3 rows 1 (7); 3 rows 1 (8); 3 committed; ",
        order: "8 19 32 ",
    },
    Cut {
        moves: "step 2\nstep 2\nstep 2\nstep 2\nstop 2\nclock 15000\nrest\n",
        writer: "0 done; 1 count 1; 1 count 1; ",
        reader: "0 done; 1 rows 1 (7); 3 rows 1 (8); 3 committed; ",
        order: "8 19 31 ",
    },
    Cut {
        moves: "step 2\nstep 2\nstep 2\nstep 2\nstep 2\nstop 2\nclock 15000\nrest\n",
        writer: "0 done; 1 count 1; 1 count 1; 5 committed; ",
        reader: "0 done; 1 rows 1 (7); 1 rows 1 (8); 3 committed; ",
        order: "8 19 30 ",
    },
];

#[test]
fn calls_of_a_commit_are_lost(rt: HostRuntime) -> Result<(), Fail> {
    all_cases(rt.alloc(), "lost", LOST.as_slice())
}

#[test]
fn clients_stop_in_a_commit(rt: HostRuntime) -> Result<(), Fail> {
    all_cases(rt.alloc(), "stopped", STOPPED.as_slice())
}
