//! Runs of a transaction that writes two accounts, which one call may prepare or roll forward.
use crate::writes::{ONE, prepared_of};
use check_protocol::{Ack, Action, Keys, Labelled, Plan, is_lawful};
use sdb_model::{Answer, Event, How};
use sdb_record::{Change, Decision, Write, Writes, coordinator_row, rolled_forward};
use sdb_types::{Batch, Condition, Name, Put, Reply, Request, Seq, State, Txt, sent};
use std::alloc::Global;
use std::test::Fail;
use test_builders::{Case, Cell, account, all_cases, columns_of};

// The accounts that a call is said to be about, those whose records it puts, and whether it is a batch even of one.
#[derive(Clone, Copy)]
struct Call(&'static [i32], &'static [i32], bool);

// The prepares of a transaction that writes accounts 1 and 2, its rolls after the put of COMMITTED, and whether all this is lawful.
#[derive(Clone, Copy)]
struct Grouped(&'static [Call], &'static [Call], bool);

#[derive(Clone, Copy)]
enum Phase {
    Prepares,
    Rolls,
}

fn write_of(alloc: Global, id: i32) -> Result<Write, Fail> {
    let columns = columns_of(alloc, [("balance", Cell::Int(100))].as_slice())?;
    Ok(Write {
        key: account(alloc, id)?,
        base: None,
        change: Change::Row(columns),
    })
}

fn put_of(alloc: Global, phase: Phase, id: i32) -> Result<Put, Fail> {
    let rec = prepared_of(alloc, &write_of(alloc, id)?, ONE)?;
    match phase {
        Phase::Prepares => Ok(Put {
            rec,
            condition: Condition::Absent,
        }),
        Phase::Rolls => Ok(Put {
            rec: rolled_forward(alloc, &rec, 0)?,
            condition: Condition::Version(ONE, State::Prepared),
        }),
    }
}

fn puts_of(alloc: Global, phase: Phase, ids: &[i32]) -> Result<Batch, Fail> {
    let mut puts = Batch::new(alloc);
    for id in ids {
        puts.push(put_of(alloc, phase, *id)?)?;
    }
    Ok(puts)
}

fn request_of(alloc: Global, phase: Phase, call: Call) -> Result<Request, Fail> {
    let puts = puts_of(alloc, phase, call.1)?;
    if call.2 {
        Ok(Request::PutAll(puts))
    } else {
        Ok(sent(puts))
    }
}

fn keys_of(alloc: Global, ids: &[i32]) -> Result<Keys, Fail> {
    let mut keys = Keys::new(alloc);
    for id in ids {
        keys.push(account(alloc, *id)?)?;
    }
    Ok(keys)
}

fn action_of(alloc: Global, phase: Phase, call: Call) -> Result<Action, Fail> {
    let keys = keys_of(alloc, call.0)?;
    match phase {
        Phase::Prepares => Ok(Action::Prepares(ONE, keys, Ack::Yes)),
        Phase::Rolls => Ok(Action::Rolls(ONE, keys, Decision::Committed)),
    }
}

// A call that is seen and applied.
fn called(alloc: Global, request: Request, action: Action) -> Result<Labelled, Fail> {
    let store = Name::new(alloc, "ordered")?;
    Ok(Labelled {
        event: Event::call(alloc, 1, store, request, How::Seen, Reply::Applied, None)?,
        action,
        ends: None,
    })
}

fn add_calls(
    alloc: Global,
    run: &mut Vec<Labelled>,
    phase: Phase,
    calls: &[Call],
) -> Result<(), Fail> {
    for call in calls {
        let request = request_of(alloc, phase, *call)?;
        let action = action_of(alloc, phase, *call)?;
        run.push(called(alloc, request, action)?)?;
    }
    Ok(())
}

fn taken(alloc: Global, text: &str, action: Action) -> Result<Labelled, Fail> {
    let answer = match &action {
        Action::Begins(_, _) => Some(Answer::Done),
        _ => None,
    };
    let text = Txt::new(alloc, text)?;
    Ok(Labelled {
        event: Event::take(alloc, 1, text, answer)?,
        action,
        ends: None,
    })
}

fn decided(alloc: Global) -> Result<Labelled, Fail> {
    let row = coordinator_row(alloc, ONE, Decision::Committed, 0)?;
    let request = Request::PutIf(row, Condition::Absent);
    called(alloc, request, Action::Decides(ONE, Ack::Yes))
}

fn add_run(alloc: Global, run: &mut Vec<Labelled>, grouped: Grouped) -> Result<(), Fail> {
    run.push(taken(alloc, "BEGIN", Action::Begins(ONE, 1))?)?;
    run.push(taken(alloc, "COMMIT", Action::Takes(ONE))?)?;
    add_calls(alloc, run, Phase::Prepares, grouped.0)?;
    run.push(decided(alloc)?)?;
    add_calls(alloc, run, Phase::Rolls, grouped.1)?;
    run.reverse();
    Ok(())
}

fn plan_of(alloc: Global) -> Result<Plan, Fail> {
    let mut writes = Writes::new(alloc);
    writes.push(write_of(alloc, 1)?)?;
    writes.push(write_of(alloc, 2)?)?;
    Ok(Plan {
        id: ONE,
        writes,
        read_set: Seq::new(alloc),
        now: 0,
    })
}

impl Case for Grouped {
    fn holds(self, alloc: Global) -> Result<bool, Fail> {
        let mut plans = Vec::new(alloc);
        plans.push(plan_of(alloc)?)?;
        let mut run = Vec::new(alloc);
        add_run(alloc, &mut run, self)?;
        Ok(is_lawful(alloc, plans.as_slice(), run.as_slice())? == self.2)
    }
}

static RUNS: [Grouped; 12] = [
    // In one call, or in two; and what was prepared in one is rolled in two.
    Grouped(
        &[Call(&[1, 2], &[1, 2], false)],
        &[Call(&[1, 2], &[1, 2], false)],
        true,
    ),
    Grouped(
        &[Call(&[1], &[1], false), Call(&[2], &[2], false)],
        &[Call(&[1, 2], &[1, 2], false)],
        true,
    ),
    Grouped(
        &[Call(&[1, 2], &[1, 2], false)],
        &[Call(&[2], &[2], false), Call(&[1], &[1], false)],
        true,
    ),
    // A call is about the records that it puts, in their order: neither fewer nor more.
    Grouped(&[Call(&[1], &[1, 2], false)], &[], false),
    Grouped(&[Call(&[1, 2], &[1], false)], &[], false),
    Grouped(&[Call(&[2, 1], &[1, 2], false)], &[], false),
    // One record alone is put by itself, and none twice; nor is an empty batch put.
    Grouped(
        &[Call(&[1], &[1], true), Call(&[2], &[2], false)],
        &[],
        false,
    ),
    Grouped(&[Call(&[1, 2, 1], &[1, 2, 1], false)], &[], false),
    Grouped(
        &[Call(&[1, 2], &[1, 2], false), Call(&[], &[], false)],
        &[],
        false,
    ),
    // A key has one prepare, alone or with others, and each has one before the decision.
    Grouped(
        &[Call(&[1, 2], &[1, 2], false), Call(&[2], &[2], false)],
        &[],
        false,
    ),
    Grouped(&[Call(&[1], &[1], false)], &[], false),
    // The same of rolls.
    Grouped(
        &[Call(&[1, 2], &[1, 2], false)],
        &[Call(&[1], &[1, 2], false)],
        false,
    ),
];

#[test]
fn groups_are_lawful_or_not(rt: HostRuntime) -> Result<(), Fail> {
    all_cases(rt.alloc(), "groups", RUNS.as_slice())
}
