//! The prepares of two deletes, of two partitions.
ghost use Rattle.std.specs.Prelude.{All};
ghost use Rattle.sdb_record.specs.Rolls.{IsWrite};

use crate::machine::{AnswerGiven, Machine, conflict_at, runs_as};
use crate::replies::{Answer, BAD_ROW, reply_to};
use crate::writes::two_deletes;
use sdb_prepare::{Prepare, PrepareStep};
use sdb_record::{Writes, grouped};
use sdb_types::{NoMemory, TxId};
use std::alloc::Global;
use std::test::Fail;
use test_builders::{Case, all_cases};

const OWN: TxId = TxId(0x1_0000_0000_0000_0001);

// A conflict is with a record that is there.
fn told_by(step: &PrepareStep) -> AnswerGiven {
    match step {
        PrepareStep::More => AnswerGiven::More,
        PrepareStep::Done => AnswerGiven::Done,
        PrepareStep::Conflict(key, Some(_)) => conflict_at(key, None),
        PrepareStep::Conflict(_, None) => AnswerGiven::Other,
        PrepareStep::Faulted => AnswerGiven::Faulted,
        PrepareStep::NoMemory => AnswerGiven::NoMemory,
    }
}

impl Machine for Prepare {
    fn give(&mut self, alloc: Global, answer: Answer, _now: i64) -> AnswerGiven {
        match reply_to(alloc, self.request(), answer) {
            Some(reply) => told_by(&self.take(reply)),
            None => AnswerGiven::Other,
        }
    }

    fn is_over(&self) -> bool {
        self.request().is_none()
    }
}

// Answers with what they tell, and how many writes may have accepted effect in the end.
#[derive(Clone, Copy)]
struct Prepared {
    steps: &'static [(Answer, AnswerGiven)],
    touched: usize,
}

static CASES: [Prepared; 4] = [
    // Each write is prepared.
    Prepared {
        steps: &[
            (Answer::Applied, AnswerGiven::More),
            (Answer::Applied, AnswerGiven::Done),
        ],
        touched: 2,
    },
    // What is there is a conflict.
    Prepared {
        steps: &[
            (Answer::Applied, AnswerGiven::More),
            (BAD_ROW, AnswerGiven::Conflict(2, None)),
        ],
        touched: 1,
    },
    // A fault may have accepted effect.
    Prepared {
        steps: &[(Answer::Fault, AnswerGiven::Faulted)],
        touched: 1,
    },
    // Out of memory there is no effect.
    Prepared {
        steps: &[(Answer::Starved, AnswerGiven::NoMemory)],
        touched: 0,
    },
];

impl Prepared {
    fn runs_as(self, alloc: Global, prepare: Prepare) -> bool {
        let mut prepare = prepare;
        runs_as(alloc, &mut prepare, self.steps) && prepare.touched() == self.touched
    }
}

#[tactic(auto, using(crate::proofs::Groups::groups_fit))]
fn begin(alloc: Global, writes: &Writes) -> Result<Prepare, NoMemory>
    requires { All IsWrite writes.now }
{
    let _count = writes.len();
    let groups = grouped(writes)?;
    Prepare::new(alloc, &groups, OWN, 7)
}

impl Case for Prepared {
    fn holds(self, alloc: Global) -> Result<bool, Fail> {
        match begin(alloc, &two_deletes(alloc)?) {
            Ok(prepare) => Ok(self.runs_as(alloc, prepare)),
            Err(_) => Ok(false),
        }
    }
}

#[test]
fn prepares_are_answered(rt: HostRuntime) -> Result<(), Fail> {
    all_cases(rt.alloc(), "prepare", CASES.as_slice())
}
