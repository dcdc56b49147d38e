//! The rolls of two deletes, forward and back.
ghost use Rattle.std.specs.Prelude.{All};
ghost use Rattle.sdb_record.specs.Rolls.{IsWrite};

use crate::machine::{AnswerGiven, Machine, runs_to_end, written_key};
use crate::replies::{Answer, reply_to};
use crate::writes::two_deletes;
use sdb_decide::{Abort, Commit};
use sdb_record::{Writes, grouped};
use sdb_types::{Condition, NoMemory, Request, TxId};
use std::alloc::Global;
use std::test::Fail;
use test_builders::{Case, all_cases, number_of};

const OWN: TxId = TxId(0x2_0000_0000_0000_0001);

// The call that is pending.
#[derive(Clone, Copy)]
enum Pending {
    Roll(i32),
    Row,
    Other,
}

fn is_put_of_new(request: Option<&Request>) -> bool {
    matches!(request, Some(Request::PutIf(_, Condition::Absent)))
}

fn pending_of(request: Option<&Request>) -> Pending {
    match written_key(request) {
        Some(key) => match number_of(key) {
            Some(number) => Pending::Roll(number),
            None if is_put_of_new(request) => Pending::Row,
            None => Pending::Other,
        },
        None => Pending::Other,
    }
}

fn told_of(pending: Pending, left: bool) -> AnswerGiven {
    match pending {
        Pending::Roll(number) => AnswerGiven::Rolled(number, left),
        Pending::Row => AnswerGiven::Put(left),
        Pending::Other => AnswerGiven::Other,
    }
}

impl Machine for Commit {
    fn give(&mut self, alloc: Global, answer: Answer, _now: i64) -> AnswerGiven {
        let pending = pending_of(self.request());
        match reply_to(alloc, self.request(), answer) {
            Some(reply) => told_of(pending, self.take(reply)),
            None => AnswerGiven::Other,
        }
    }

    fn is_over(&self) -> bool {
        self.request().is_none()
    }
}

impl Machine for Abort {
    fn give(&mut self, alloc: Global, answer: Answer, _now: i64) -> AnswerGiven {
        let pending = pending_of(self.request());
        match reply_to(alloc, self.request(), answer) {
            Some(reply) => told_of(pending, self.take(reply)),
            None => AnswerGiven::Other,
        }
    }

    fn is_over(&self) -> bool {
        self.request().is_none()
    }
}

const EACH: [(Answer, AnswerGiven); 2] = [
    (Answer::Fault, AnswerGiven::Rolled(1, true)),
    (Answer::Fault, AnswerGiven::Rolled(2, false)),
];

// Answers to rolls, with what they tell: forward, or back, where so many writes may have accepted effect, after the row where
// it is put.
#[derive(Clone, Copy)]
enum Rolls {
    Forward(&'static [(Answer, AnswerGiven)]),
    Back(usize, bool, &'static [(Answer, AnswerGiven)]),
}

static ROLLS: [Rolls; 4] = [
    Rolls::Forward(&EACH),
    // Each write is rolled back.
    Rolls::Back(2, false, &EACH),
    // What was touched is rolled back after the row.
    Rolls::Back(
        1,
        true,
        &[
            (Answer::Applied, AnswerGiven::Put(true)),
            (Answer::Fault, AnswerGiven::Rolled(1, false)),
        ],
    ),
    // Nothing is rolled back after a fault of the row.
    Rolls::Back(2, true, &[(Answer::Fault, AnswerGiven::Put(false))]),
];

// The abort of these writes.
#[tactic(auto, using(crate::proofs::Groups::within_groups))]
fn begin(alloc: Global, writes: &Writes, touched: usize, with_row: bool) -> Result<Abort, NoMemory>
    requires { All IsWrite writes.now }
{
    let groups = grouped(writes)?;
    let mut abort = Abort::new(alloc, &groups, OWN, 7)?;
    if touched <= writes.len() {
        abort.start(touched, with_row);
    }
    Ok(abort)
}

fn plays_back(
    alloc: Global,
    writes: &Writes,
    touched: usize,
    with_row: bool,
    steps: &[(Answer, AnswerGiven)],
) -> bool
    requires { All IsWrite writes.now }
{
    match begin(alloc, writes, touched, with_row) {
        Ok(abort) => runs_to_end(alloc, abort, steps),
        Err(_) => false,
    }
}

fn forward(alloc: Global, writes: &Writes) -> Result<Commit, NoMemory>
    requires { All IsWrite writes.now }
{
    let groups = grouped(writes)?;
    Commit::new(alloc, &groups, OWN, 7)
}

fn plays_forward(alloc: Global, writes: &Writes, steps: &[(Answer, AnswerGiven)]) -> bool
    requires { All IsWrite writes.now }
{
    match forward(alloc, writes) {
        Ok(commit) => runs_to_end(alloc, commit, steps),
        Err(_) => false,
    }
}

impl Rolls {
    fn is_answered(self, alloc: Global, writes: &Writes) -> bool
        requires { All IsWrite writes.now }
    {
        match self {
            Rolls::Forward(steps) => plays_forward(alloc, writes, steps),
            Rolls::Back(touched, with_row, steps) => {
                plays_back(alloc, writes, touched, with_row, steps)
            }
        }
    }
}

impl Case for Rolls {
    fn holds(self, alloc: Global) -> Result<bool, Fail> {
        Ok(self.is_answered(alloc, &two_deletes(alloc)?))
    }
}

#[test]
fn rolls_every_write(rt: HostRuntime) -> Result<(), Fail> {
    all_cases(rt.alloc(), "rolls", ROLLS.as_slice())
}
