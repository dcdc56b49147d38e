//! The boxes that most events share.
ghost use Rattle.std.specs.Prelude.{◌≡◌, IfOk, IfSome};

use crate::answer::Answer;
use crate::boxed::Boxed;
use crate::event::{Event, How};
use sdb_types::{Duplicate, Name, NoMemory, Reply, Request, Txt};
use std::alloc::Global;
use std::marker::Model;

/// The answers and replies that most events have, each in one box that all of them share. The events that it makes are those of `Event`'s own
/// functions, and take less memory.
pub struct CommonBoxes {
    done: Boxed<Answer>,
    committed: Boxed<Answer>,
    one: Boxed<Answer>,
    applied: Boxed<Reply>,
    absent: Boxed<Reply>,
}

// By hand: each drop is then one call, where a derived one is written out at each exit, with a call for each field.
impl Drop for CommonBoxes {
    fn drop(self) {
        let CommonBoxes {
            done: _,
            committed: _,
            one: _,
            applied: _,
            absent: _,
        } = self;
    }
}

impl Model for CommonBoxes {
    ghost use Rattle.std.specs.Prelude.{◌≡◌, None};
    ghost use Rattle.sdb_types.specs.declared.record.Reply.TheVariants as reply;
    ghost use Rattle.sdb_model.specs.declared.answer.Answer.TheVariants as answer;

    ghost Value = { Unit {0} };

    ghost view = { λ _. tt };

    ghost invariant = { λ b. (b.done ≡ answer.Done) × (b.committed ≡ answer.Committed) × (b.one ≡ answer.Count 1) × (b.applied ≡ reply.Applied) × (b.absent ≡ reply.Found None) };
}

impl CommonBoxes {
    pub fn new(alloc: Global) -> Result<CommonBoxes, NoMemory> {
        Ok(CommonBoxes {
            done: Boxed::new(alloc, Answer::Done)?,
            committed: Boxed::new(alloc, Answer::Committed)?,
            one: Boxed::new(alloc, Answer::Count(1))?,
            applied: Boxed::new(alloc, Reply::Applied)?,
            absent: Boxed::new(alloc, Reply::Found(None))?,
        })
    }

    // The box that all events with this answer share, if there is one.
    fn of_answer(&self, answer: &Answer) -> Option<&Boxed<Answer>>
        ensures { IfSome result (λ b. b.now ≡ answer.now) }
    {
        match answer {
            Answer::Done => Some(&self.done),
            Answer::Committed => Some(&self.committed),
            Answer::Count(1) => Some(&self.one),
            _ => None,
        }
    }

    // The box that all events with this reply share, if there is one.
    fn of_reply(&self, reply: &Reply) -> Option<&Boxed<Reply>>
        ensures { IfSome result (λ b. b.now ≡ reply.now) }
    {
        match reply {
            Reply::Applied => Some(&self.applied),
            Reply::Found(None) => Some(&self.absent),
            _ => None,
        }
    }

    // The box of an answer. Takes no memory where it is shared.
    fn answer(&self, alloc: Global, answer: Answer) -> Result<Boxed<Answer>, NoMemory>
        ensures { IfOk result (λ b. b ≡ answer) }
    {
        match self.of_answer(&answer) {
            Some(shared) => shared.copy(),
            None => Boxed::new(alloc, answer),
        }
    }

    // The box of the answer that may be there.
    fn option(
        &self,
        alloc: Global,
        answer: Option<Answer>,
    ) -> Result<Option<Boxed<Answer>>, NoMemory>
        ensures { IfOk result (λ b. b ≡ answer) }
    {
        match answer {
            Some(answer) => Ok(Some(self.answer(alloc, answer)?)),
            None => Ok(None),
        }
    }

    // The box of a reply. Takes no memory where it is shared.
    fn reply(&self, alloc: Global, reply: Reply) -> Result<Boxed<Reply>, NoMemory>
        ensures { IfOk result (λ b. b ≡ reply) }
    {
        match self.of_reply(&reply) {
            Some(shared) => shared.copy(),
            None => Boxed::new(alloc, reply),
        }
    }

    /// A client takes a statement.
    pub fn take(
        &self,
        alloc: Global,
        client: u32,
        text: Txt,
        answer: Option<Answer>,
    ) -> Result<Event, NoMemory>
        ensures { IfOk result (λ e. e ≡ Event.Take client text answer) }
    {
        Ok(Event::Take(client, text, self.option(alloc, answer)?))
    }

    /// A client makes a call and digests the reply.
    pub fn call(
        &self,
        alloc: Global,
        client: u32,
        store: Name,
        request: Request,
        how: How,
        reply: Reply,
        answer: Option<Answer>,
    ) -> Result<Event, NoMemory>
        ensures { IfOk result (λ e. e ≡ Event.Call client store request how reply answer) }
    {
        let request = Boxed::new(alloc, request)?;
        let reply = self.reply(alloc, reply)?;
        let answer = self.option(alloc, answer)?;
        Ok(Event::Call(client, store, request, how, reply, answer))
    }

    /// A late request takes effect.
    pub fn land(
        &self,
        alloc: Global,
        number: u32,
        store: Name,
        request: Request,
        how: How,
        reply: Reply,
    ) -> Result<Event, NoMemory>
        ensures { IfOk result (λ e. e ≡ Event.Land number store request how reply) }
    {
        let request = Boxed::new(alloc, request)?;
        let reply = self.reply(alloc, reply)?;
        Ok(Event::Land(number, store, request, how, reply))
    }
}
