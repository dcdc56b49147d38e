//! Events from constants.
use crate::answers::{AnswerCase, answer_of};
use crate::asked::{Ask, ReplyCase, reply_of, request_of};
use crate::keys::table_of;
use sdb_model::{Altered, Answer, Event, Events, How};
use sdb_schema::Kind;
use sdb_types::{Name, NameRefused, Txt};
use std::alloc::Global;

/// An event of the client 1 as a constant. Its calls are made on the store `ordered`, and the client is handed the reply; late requests land
/// there too.
#[derive(Clone, Copy)]
pub enum Happening {
    Take(&'static str, Option<AnswerCase>),
    Call(Ask, ReplyCase, Option<AnswerCase>),
    Stop(u32),
    Clock(i64),
    Idle(u32),
    Land(u32, Ask, ReplyCase),
    /// A column of this name and kind is to be added to the table of this namespace and name.
    Alter(&'static str, &'static str, &'static str, Kind, Altered),
}

fn answer_in(alloc: Global, case: Option<AnswerCase>) -> Result<Option<Answer>, NameRefused> {
    match case {
        Some(case) => Ok(Some(answer_of(alloc, case)?)),
        None => Ok(None),
    }
}

fn accepted(alloc: Global, text: &str, case: Option<AnswerCase>) -> Result<Event, NameRefused> {
    let text = Txt::new(alloc, text)?;
    let answer = answer_in(alloc, case)?;
    Ok(Event::take(alloc, 1, text, answer)?)
}

fn called(
    alloc: Global,
    ask: Ask,
    answered: ReplyCase,
    case: Option<AnswerCase>,
) -> Result<Event, NameRefused> {
    let store = Name::new(alloc, "ordered")?;
    let answer = answer_in(alloc, case)?;
    let request = request_of(alloc, ask)?;
    let reply = reply_of(alloc, answered)?;
    Ok(Event::call(alloc, 1, store, request, How::Seen, reply, answer)?)
}

fn landed(alloc: Global, number: u32, ask: Ask, answered: ReplyCase) -> Result<Event, NameRefused> {
    let store = Name::new(alloc, "ordered")?;
    let request = request_of(alloc, ask)?;
    let reply = reply_of(alloc, answered)?;
    Ok(Event::land(alloc, number, store, request, How::Seen, reply)?)
}

fn added(
    alloc: Global,
    ns: &str,
    table: &str,
    column: &str,
    kind: Kind,
    altered: Altered,
) -> Result<Event, NameRefused> {
    let table = table_of(alloc, ns, table)?;
    let column = Name::new(alloc, column)?;
    Ok(Event::Alter(table, column, kind, altered))
}

pub fn event_of(alloc: Global, happening: Happening) -> Result<Event, NameRefused> {
    match happening {
        Happening::Take(text, case) => accepted(alloc, text, case),
        Happening::Call(ask, answered, case) => called(alloc, ask, answered, case),
        Happening::Stop(client) => Ok(Event::Stop(client)),
        Happening::Clock(moment) => Ok(Event::Clock(moment)),
        Happening::Idle(client) => Ok(Event::Idle(client)),
        Happening::Land(number, ask, answered) => landed(alloc, number, ask, answered),
        Happening::Alter(ns, table, column, kind, altered) => {
            added(alloc, ns, table, column, kind, altered)
        }
    }
}

pub fn events_of(alloc: Global, happenings: &[Happening]) -> Result<Events, NameRefused> {
    let mut events = Events::new(alloc);
    for happening in happenings {
        events.push(event_of(alloc, *happening)?)?;
    }
    Ok(events)
}
