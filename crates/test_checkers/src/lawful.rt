//! Worked runs, and runs that leave a rule at one event.
use crate::events::{Found, Step, add_plans, add_steps};
use crate::writes::{ONE, Second, THREE, TWO};
use check_protocol::{Labelled, Plan, is_lawful};
use sdb_types::{Condition, State};
use std::alloc::Global;
use std::test::Fail;
use test_builders::{Case, all_cases};

// Client 1 inserts the account; client 2 reads it, and begins its COMMIT.
static START: [Step; 9] = [
    Step::Begins(ONE, 1),
    Step::Reads(1, Found::Nothing),
    Step::Takes(ONE, 1),
    Step::Prepares(ONE, 1),
    Step::Decides(ONE, 1),
    Step::Finishes(ONE, 1),
    Step::Begins(TWO, 2),
    Step::Reads(2, Found::Left(ONE)),
    Step::Takes(TWO, 2),
];

// What client 2 does, the steps after the start, and whether the whole is lawful.
#[derive(Clone, Copy)]
struct Run(Second, &'static [Step], bool);

fn add_run(
    alloc: Global,
    run: &mut Vec<Labelled>,
    second: Second,
    steps: &[Step],
) -> Result<(), Fail> {
    add_steps(alloc, run, second, START.as_slice())?;
    add_steps(alloc, run, second, steps)?;
    run.reverse();
    Ok(())
}

fn is_judged(alloc: Global, plans: &[Plan], judged: Run) -> Result<bool, Fail> {
    let mut run = Vec::new(alloc);
    add_run(alloc, &mut run, judged.0, judged.1)?;
    Ok(is_lawful(alloc, plans, run.as_slice())? == judged.2)
}

impl Case for Run {
    fn holds(self, alloc: Global) -> Result<bool, Fail> {
        let mut plans = Vec::new(alloc);
        add_plans(alloc, &mut plans, self.0)?;
        is_judged(alloc, plans.as_slice(), self)
    }
}

// The put of COMMITTED is delayed, and takes effect after its client was answered a fault. How often it does is no matter of the
// rules. Not where the put was lost, nor where none was asked; nor does its client learn of it without a look.
static LATE: [Run; 6] = [
    Run(
        Second::Updates,
        &[
            Step::Prepares(TWO, 2),
            Step::Delays(TWO, 2),
            Step::Lands(TWO),
            Step::Sees(2, TWO),
            Step::Finishes(TWO, 2),
        ],
        true,
    ),
    Run(
        Second::Updates,
        &[
            Step::Prepares(TWO, 2),
            Step::Delays(TWO, 2),
            Step::Lands(TWO),
            Step::Lands(TWO),
        ],
        true,
    ),
    Run(
        Second::Updates,
        &[
            Step::Prepares(TWO, 2),
            Step::Delays(TWO, 2),
            Step::Lands(TWO),
            Step::Finishes(TWO, 2),
        ],
        false,
    ),
    Run(
        Second::Updates,
        &[
            Step::Prepares(TWO, 2),
            Step::Loses(TWO, 2),
            Step::Lands(TWO),
        ],
        false,
    ),
    Run(
        Second::Updates,
        &[Step::Prepares(TWO, 2), Step::Lands(TWO)],
        false,
    ),
    Run(
        Second::Updates,
        &[
            Step::Prepares(TWO, 2),
            Step::Delays(TWO, 2),
            Step::Lands(ONE),
        ],
        false,
    ),
];

static RUNS: [Run; 21] = [
    // The reply to a decision is lost; its client looks, finds its row, and rolls forward. Not without the look, nor without the
    // prepare, nor is it denied.
    Run(
        Second::Updates,
        &[
            Step::Prepares(TWO, 2),
            Step::Loses(TWO, 2),
            Step::Sees(2, TWO),
            Step::Finishes(TWO, 2),
        ],
        true,
    ),
    Run(
        Second::Updates,
        &[
            Step::Prepares(TWO, 2),
            Step::Loses(TWO, 2),
            Step::Finishes(TWO, 2),
        ],
        false,
    ),
    Run(
        Second::Updates,
        &[
            Step::Loses(TWO, 2),
            Step::Sees(2, TWO),
            Step::Finishes(TWO, 2),
        ],
        false,
    ),
    Run(
        Second::Updates,
        &[Step::Prepares(TWO, 2), Step::Denies(TWO, 2)],
        false,
    ),
    // Client 2 stops after its put of COMMITTED; client 3 finds what it prepared and its row, rolls it forward, checks and
    // commits. Not without the look at the row, nor the roll, nor the check; nor where the check finds what is undecided.
    Run(
        Second::Updates,
        &[
            Step::Prepares(TWO, 2),
            Step::Decides(TWO, 2),
            Step::Stops(2, 2),
            Step::Begins(THREE, 3),
            Step::Reads(3, Found::Held(TWO)),
            Step::Sees(3, TWO),
            Step::Rolls(TWO, 3),
            Step::Takes(THREE, 3),
            Step::Checks(THREE, 3, Found::Left(TWO)),
            Step::Ends(THREE, 3),
        ],
        true,
    ),
    Run(
        Second::Updates,
        &[
            Step::Prepares(TWO, 2),
            Step::Stops(2, 2),
            Step::Begins(THREE, 3),
            Step::Reads(3, Found::Held(TWO)),
            Step::Rolls(TWO, 3),
        ],
        false,
    ),
    Run(
        Second::Updates,
        &[
            Step::Prepares(TWO, 2),
            Step::Decides(TWO, 2),
            Step::Begins(THREE, 3),
            Step::Reads(3, Found::Held(TWO)),
            Step::Takes(THREE, 3),
        ],
        false,
    ),
    Run(
        Second::Updates,
        &[
            Step::Prepares(TWO, 2),
            Step::Decides(TWO, 2),
            Step::Begins(THREE, 3),
            Step::Reads(3, Found::Left(TWO)),
            Step::Takes(THREE, 3),
            Step::Ends(THREE, 3),
        ],
        false,
    ),
    Run(
        Second::Updates,
        &[
            Step::Prepares(TWO, 2),
            Step::Decides(TWO, 2),
            Step::Begins(THREE, 3),
            Step::Reads(3, Found::Left(TWO)),
            Step::Takes(THREE, 3),
            Step::Checks(THREE, 3, Found::Held(TWO)),
        ],
        false,
    ),
    // VACUUM reads a tombstone and removes it. Not where nothing was read, nor while a transaction is open.
    Run(
        Second::Deletes,
        &[
            Step::Prepares(TWO, 2),
            Step::Decides(TWO, 2),
            Step::Finishes(TWO, 2),
            Step::Scans(4),
            Step::Removes(TWO, 4),
        ],
        true,
    ),
    Run(
        Second::Deletes,
        &[
            Step::Prepares(TWO, 2),
            Step::Decides(TWO, 2),
            Step::Finishes(TWO, 2),
            Step::Removes(TWO, 4),
        ],
        false,
    ),
    Run(
        Second::Deletes,
        &[
            Step::Prepares(TWO, 2),
            Step::Decides(TWO, 2),
            Step::Finishes(TWO, 2),
            Step::Begins(THREE, 3),
            Step::Scans(4),
            Step::Removes(TWO, 4),
        ],
        false,
    ),
    // What was aborted is rolled back, and what was not isn't; a row ABORTED is put where there is none.
    Run(
        Second::Updates,
        &[
            Step::Prepares(TWO, 2),
            Step::Aborts(TWO, 3, Condition::Absent),
            Step::Undoes(TWO, 3),
        ],
        true,
    ),
    Run(
        Second::Updates,
        &[Step::Prepares(TWO, 2), Step::Undoes(TWO, 3)],
        false,
    ),
    Run(
        Second::Updates,
        &[
            Step::Prepares(TWO, 2),
            Step::Aborts(TWO, 3, Condition::Version(TWO, State::Committed)),
        ],
        false,
    ),
    // An id begins again, a COMMIT is accepted again, a key is prepared again; a client stops in the name of another; a put plays no
    // part; Committed is answered where nothing says so.
    Run(Second::Updates, &[Step::Begins(ONE, 1)], false),
    Run(Second::Updates, &[Step::Takes(TWO, 2)], false),
    Run(
        Second::Updates,
        &[Step::Prepares(TWO, 2), Step::Prepares(TWO, 2)],
        false,
    ),
    Run(Second::Updates, &[Step::Stops(2, 1)], false),
    Run(Second::Updates, &[Step::Puts(TWO, 2)], false),
    Run(Second::Updates, &[Step::Claims(TWO, 2)], false),
];

#[test]
fn runs_are_lawful_or_not(rt: HostRuntime) -> Result<(), Fail> {
    all_cases(rt.alloc(), "lawful", RUNS.as_slice())
}

#[test]
fn late_runs_are_lawful_or_not(rt: HostRuntime) -> Result<(), Fail> {
    all_cases(rt.alloc(), "late", LATE.as_slice())
}
