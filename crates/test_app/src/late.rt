//! Requests that take effect late: each kind of request of a COMMIT and of VACUUM is delayed, and lands alone or while another client
//! recovers what it is about.
use crate::statements::{outcome_of, points_of, statements_of};
use sdb_model::Outcome;
use sdb_types::NoMemory;
use std::alloc::{AllocError, Global};
use std::test::Fail;
use test_builders::{Case, all_cases};

// An account with the balance 100. The second client has written 7 into it and has its COMMIT accepted, which makes three calls: one that
// prepares, one that decides, one that commits the record. The third client reads the account.
const UPDATED: &str =
    "schema {\"bank.account\":{\"partition-key\":[\"id\"],\"columns\":{\"id\":\"INT\",\"balance\":\"INT\"}}}\nclient c1\n  BEGIN\n  INSERT INTO bank.account (id, balance) VALUES (1, 100)\n  COMMIT\nclient c2\n  BEGIN\n  UPDATE bank.account SET balance = 7 WHERE id = 1\n  COMMIT\nclient c3\n  BEGIN\n  SELECT balance FROM bank.account WHERE id = 1\n  COMMIT\nrun\nstep 1 7\nstep 2 4\n";

// The second client has deleted the account, the third runs VACUUM, which has scanned the table and is to remove the tombstone, and the
// fourth inserts the account again.
const REMOVED: &str =
    "schema {\"bank.account\":{\"partition-key\":[\"id\"],\"columns\":{\"id\":\"INT\",\"balance\":\"INT\"}}}\nclient c1\n  BEGIN\n  INSERT INTO bank.account (id, balance) VALUES (1, 100)\n  COMMIT\nclient c2\n  BEGIN\n  DELETE FROM bank.account WHERE id = 1\n  COMMIT\nclient c3\n  VACUUM\nclient c4\n  BEGIN\n  INSERT INTO bank.account (id, balance) VALUES (1, 5)\n  COMMIT\nrun\nstep 1 7\nstep 2 7\nstep 3 2\n";

/// A script up to the request that is delayed, the moves after it, the calls of each statement of two clients with its answer, and the events
/// that give the order.
#[derive(Clone, Copy)]
struct Late {
    before: &'static str,
    moves: &'static str,
    one: u32,
    answers_one: &'static str,
    other: u32,
    answers_other: &'static str,
    order: &'static str,
}

impl Late {
    fn script(self, alloc: Global) -> Result<String, AllocError> {
        let mut text = String::from_str(alloc, self.before)?;
        text.push_str(self.moves)?;
        Ok(text)
    }

    fn is_of(self, alloc: Global, outcome: &Outcome) -> Result<bool, NoMemory> {
        let events = outcome.events.as_slice();
        Ok(
            statements_of(alloc, events, self.one)?.as_str() == self.answers_one
                && statements_of(alloc, events, self.other)?.as_str() == self.answers_other
                && points_of(alloc, &outcome.order)?.as_str() == self.order,
        )
    }
}

impl Case for Late {
    fn holds(self, alloc: Global) -> Result<bool, Fail> {
        let script = self.script(alloc)?;
        let outcome = outcome_of(alloc, script.as_str().as_bytes())?;
        Ok(self.is_of(alloc, &outcome)?)
    }
}

// The put of the COMMITTED row lands before its owner looks a second time, before the owner puts ABORTED, and while another client
// looks for the row.
static DECISIONS: [Late; 3] = [
    Late {
        before: UPDATED,
        moves: "step 2\ndelay 2\nstep 2\ndrop 2\nland 1\nrest\n",
        one: 2,
        answers_one: "0 done; 1 count 1; 6 committed; ",
        other: 3,
        answers_other: "0 done; 1 rows 1 (7); 2 committed; ",
        order: "5 12 22 ",
    },
    Late {
        before: UPDATED,
        moves: "step 2\ndelay 2\nstep 2\nland 1\nrest\n",
        one: 2,
        answers_one: "0 done; 1 count 1; 5 committed; ",
        other: 3,
        answers_other: "0 done; 1 rows 1 (7); 2 committed; ",
        order: "5 12 21 ",
    },
    // A recoverer has put ABORTED.
    Late {
        before: UPDATED,
        moves: "step 2\ndelay 2\nstop 2\nclock 15000\nstep 3 5\nland 1\nrest\n",
        one: 2,
        answers_one: "0 done; 1 count 1; ",
        other: 3,
        answers_other: "0 done; 4 rows 1 (100); 2 committed; ",
        order: "5 23 ",
    },
];

// The roll forward lands alone, after another client's, and between that client's look at the row and its roll.
static FORWARDS: [Late; 3] = [
    Late {
        before: UPDATED,
        moves: "step 2 2\ndelay 2\nland 1\nrest\n",
        one: 2,
        answers_one: "0 done; 1 count 1; 3 committed; ",
        other: 3,
        answers_other: "0 done; 1 rows 1 (7); 2 committed; ",
        order: "5 12 19 ",
    },
    Late {
        before: UPDATED,
        moves: "step 2 2\ndelay 2\nstep 3 5\nland 1\nrest\n",
        one: 2,
        answers_one: "0 done; 1 count 1; 3 committed; ",
        other: 3,
        answers_other: "0 done; 3 rows 1 (7); 2 committed; ",
        order: "5 12 21 ",
    },
    Late {
        before: UPDATED,
        moves: "step 2 2\ndelay 2\nstep 3 4\nland 1\nrest\n",
        one: 2,
        answers_one: "0 done; 1 count 1; 3 committed; ",
        other: 3,
        answers_other: "0 done; 3 rows 1 (7); 2 committed; ",
        order: "5 12 21 ",
    },
];

// The roll back lands alone, and between another client's look at the row and its roll.
static BACKS: [Late; 2] = [
    Late {
        before: UPDATED,
        moves: "step 2\ndrop 2\nstep 2 2\ndelay 2\nland 1\nrest\n",
        one: 2,
        answers_one: "0 done; 1 count 1; 5 faulted; ",
        other: 3,
        answers_other: "0 done; 1 rows 1 (100); 2 committed; ",
        order: "5 21 ",
    },
    Late {
        before: UPDATED,
        moves: "step 2\ndrop 2\nstep 2 2\ndelay 2\nstep 3 4\nland 1\nrest\n",
        one: 2,
        answers_one: "0 done; 1 count 1; 5 faulted; ",
        other: 3,
        answers_other: "0 done; 3 rows 1 (100); 2 committed; ",
        order: "5 23 ",
    },
];

// VACUUM's removal lands alone, and after another transaction has prepared a record over the tombstone.
static REMOVALS: [Late; 2] = [
    Late {
        before: REMOVED,
        moves: "delay 3\nland 1\nrest\n",
        one: 3,
        answers_one: "2 faulted; ",
        other: 4,
        answers_other: "0 done; 1 count 1; 3 committed; ",
        order: "5 12 23 ",
    },
    Late {
        before: REMOVED,
        moves: "delay 3\nstep 4 5\nland 1\nrest\n",
        one: 3,
        answers_one: "2 faulted; ",
        other: 4,
        answers_other: "0 done; 1 count 1; 3 committed; ",
        order: "5 12 22 ",
    },
];

#[test]
fn decisions_land(rt: HostRuntime) -> Result<(), Fail> {
    all_cases(rt.alloc(), "decisions", DECISIONS.as_slice())
}

#[test]
fn rolls_land(rt: HostRuntime) -> Result<(), Fail> {
    all_cases(rt.alloc(), "forwards", FORWARDS.as_slice())?;
    all_cases(rt.alloc(), "backs", BACKS.as_slice())
}

#[test]
fn removals_land(rt: HostRuntime) -> Result<(), Fail> {
    all_cases(rt.alloc(), "removals", REMOVALS.as_slice())
}
