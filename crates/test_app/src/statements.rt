//! The statements of a client in a report: the calls that each made, with its answer.
use crate::asked::{Asked, REPLAY, attach_two, writes};
use sdb_model::{Answer, Boxed, Event, Outcome, Points, put_answer, put_number};
use sdb_report::read_report;
use sdb_stores::Stores;
use sdb_types::NoMemory;
use std::alloc::Global;
use std::test::Fail;

#[derive(Drop)]
struct Statements {
    client: u32,
    calls: u64,
    text: String,
}

impl Statements {
    fn end(&mut self, answer: &Answer) -> Result<(), NoMemory> {
        put_number(&mut self.text, self.calls)?;
        self.text.push_str(" ")?;
        put_answer(&mut self.text, answer)?;
        self.text.push_str("; ")?;
        self.calls = 0;
        Ok(())
    }

    // Adds a step of the client, that makes so many calls.
    fn add(
        &mut self,
        client: u32,
        calls: u64,
        answer: &Option<Boxed<Answer>>,
    ) -> Result<(), NoMemory> {
        if client != self.client {
            return Ok(());
        }
        self.calls = self.calls.saturating_add(calls);
        match answer {
            Some(answer) => self.end(answer.get()),
            None => Ok(()),
        }
    }
}

/// For each statement of a client the number of its calls, and its answer: `3 faulted; `.
pub fn statements_of(alloc: Global, events: &[Event], client: u32) -> Result<String, NoMemory> {
    let mut statements = Statements {
        client,
        calls: 0,
        text: String::new(alloc),
    };
    for event in events {
        match event {
            Event::Take(client, _, answer) => statements.add(*client, 0, answer)?,
            Event::Call(client, _, _, _, _, answer) => statements.add(*client, 1, answer)?,
            Event::Stop(_)
            | Event::Clock(_)
            | Event::Idle(_)
            | Event::Land(_, _, _, _, _)
            | Event::Alter(_, _, _, _) => {}
        }
    }
    Ok(statements.text)
}

/// The events of an order: `8 26 `.
pub fn points_of(alloc: Global, order: &Points) -> Result<String, NoMemory> {
    let mut text = String::new(alloc);
    for point in order {
        put_number(&mut text, point.event)?;
        text.push_str(" ")?;
    }
    Ok(text)
}

/// The outcome of a script on empty stores, by its report.
pub fn outcome_of(alloc: Global, script: &[u8]) -> Result<Outcome, Fail> {
    let mut stores = Stores::new(alloc);
    if !attach_two(alloc, &mut stores)? {
        return Err(Fail::from("not attached"));
    }
    let asked = Asked {
        words: REPLAY,
        input: script,
    };
    let output = writes(alloc, &mut stores, asked, 1)?;
    Ok(read_report(alloc, output.written().as_slice())?)
}
