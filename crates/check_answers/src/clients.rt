//! The clients of a script, and what each event does to them.
ghost use Rattle.std.specs.Prelude.{◌≡◌, ◌↔◌, ◌<◌, ◌-◌, ◌^◌, [], pos, suc, true, false, length, Some, IfOk, IfSome, IsTrue, OnOk, slice_get};
ghost use Rattle.sdb_record.specs.Meta.{is_moment as is_moment_lem};
ghost use Rattle.sdb_model.specs.Follows.{IsHowOfStep, texts_of};
ghost use Rattle.sdb_client.specs.Client.{IsIdle, client_pending};
ghost use Rattle.sdb_client.specs.Execution.{AlterStep, AreFresh, AreQuiet, CallStep, LandStep, SomeActive, StopStep, flights_after, with_flights};
ghost use Rattle.check_answers.specs.Steps.{IsStepUnder, IsTakenUnder};

use crate::is_answered_so;
use crate::replies::{can_answer, is_moment};
use check_tables::{column_refusal, is_short_name};
use sdb_client::{Client, ClientSlot, fresh_slots, gate_at, prove_order};
use sdb_model::{Altered, Answer, Boxed, Event, How, Script};
use sdb_schema::{Catalog, Kind};
use sdb_types::{Duplicate, Name, NoMemory, Reply, Request, TableName, Txt, same};
use std::alloc::Global;
use std::marker::Model;

/// A state of an execution: the clients, the requests of the calls that were delayed, each none once it has landed, and the clock.
pub struct Clients {
    client_slots: Vec<ClientSlot>,
    flights: Vec<Option<Request>>,
    clock: i64,
}

// By hand: each drop is then one call, where a derived one is written out at each exit, with a call for each field.
impl Drop for Clients {
    fn drop(self) {
        let Clients {
            client_slots: _,
            flights: _,
            clock: _,
        } = self;
    }
}

impl Model for Clients {
    ghost use Rattle.sdb_client.specs.Execution.{State};

    ghost Value = { State };

    ghost view = { λ c. record { client_slots = c.client_slots.items; flights = c.flights.items; clock = c.clock } };
}

// A text is a client's next statement.
fn is_next(script: &Script, at: usize, accepted: usize, text: &Txt) -> bool
    ensures { result ≡ true → slice_get (texts_of script.now.clients (suc at)) accepted ≡ Some text.now }
{
    match script.clients.at(at) {
        Some(client) => match client.statements.at(accepted) {
            Some(next) => same(next, text),
            None => false,
        },
        None => false,
    }
}

// A text is no longer than a statement may be.
fn is_short(text: &Txt) -> bool
    ensures { result ≡ true → length text.now < 2 ^ 32 }
{
    text.len() < 0x1_0000_0000
}

// A request is the call that a client has pending.
fn is_pending(client: &Client, request: &Request) -> bool
    ensures { result ≡ true → client_pending client.now ≡ Some request.now }
{
    match client.pending() {
        Some(pending) => same(pending, request),
        None => false,
    }
}

// A delayed call is answered a fault.
fn has_reply(how: How, reply: &Reply) -> bool
    ensures { IsTrue result ↔ (how ≡ How.Delayed → reply.now ≡ Reply.Fault) }
{
    match how {
        How::Delayed => matches!(reply, Reply::Fault),
        How::Seen | How::Lost | How::Discarded | How::Broken => true,
    }
}

// A landing is seen, and no fault, or the store failed.
fn may_land(how: How, reply: &Reply) -> bool
    ensures { IsTrue result ↔ IsHowOfStep how reply.now }
{
    match how {
        How::Seen => !matches!(reply, Reply::Fault),
        How::Broken => matches!(reply, Reply::Fault),
        How::Lost | How::Discarded | How::Delayed => false,
    }
}

// The request at a place is in flight.
fn is_in_flight(flights: &[Option<Request>], at: usize, request: &Request) -> bool
    ensures { IsTrue result ↔ (slice_get flights.now at ≡ Some (Some request.now)) }
{
    match flights.get(at) {
        Some(Some(flight)) => same(flight, request),
        _ => false,
    }
}

impl Clients {
    /// So many clients that have done nothing, with nothing in flight, at moment 0.
    pub fn new(alloc: Global, count: usize) -> Result<Clients, NoMemory>
        requires few { count < 2 ^ 32 - 1 }
        ensures client_slots { IfOk result (λ c. AreFresh count c.client_slots) }
        ensures flights { IfOk result (λ c. c.flights ≡ []) }
        ensures clock { IfOk result (λ c. c.clock ≡ pos 0) }
    {
        let client_slots = fresh_slots(alloc, count)?;
        Ok(Clients {
            client_slots,
            flights: Vec::new(alloc),
            clock: 0,
        })
    }

    // The index of a client that hasn't stopped.
    fn place(&self, client: u32) -> Option<usize>
        ensures { IfSome result (λ at. (client ≡ suc at) × (at < length self.now.client_slots) × IfSome (slice_get self.now.client_slots at) (λ s. s.stopped ≡ false)) }
    {
        let at = (client as usize).checked_sub(1)?;
        match self.client_slots.get(at) {
            Some(client_slot) if !client_slot.stopped => Some(at),
            _ => None,
        }
    }

    // A client takes its next statement under a catalog, which is answered so.
    fn take(
        &mut self,
        script: &Script,
        catalog: &Catalog,
        client: u32,
        text: &Txt,
        answer: &Option<Boxed<Answer>>,
    ) -> bool
        ensures { result ≡ true → IsTakenUnder script.now catalog.now self.old client text.now answer.now self.new }
    {
        let Some(at) = self.place(client) else {
            return false;
        };
        let gate = gate_at(&self.client_slots, at);
        let client_slot = &mut self.client_slots[at];
        let Some(accepted) = client_slot.accepted.checked_add(1) else {
            return false;
        };
        if !client_slot.client.is_idle()
            || !is_next(script, at, client_slot.accepted, text)
            || !is_short(text)
        {
            return false;
        }
        let fresh = client_slot.client.next_id();
        let answered = client_slot
            .client
            .take(catalog, text, gate, fresh, self.clock);
        let _begun = client_slot.client.begun();
        client_slot.accepted = accepted;
        is_answered_so(&answered, answer)
    }

    // A client takes the reply to the call that it has pending, which is answered so.
    fn receive(
        &mut self,
        client: u32,
        request: &Request,
        reply: Reply,
        answer: &Option<Boxed<Answer>>,
    ) -> bool
        ensures { result ≡ true → CallStep self.old client request.now How.Seen reply answer.now self.new }
    {
        let Some(at) = self.place(client) else {
            return false;
        };
        let client_slot = &mut self.client_slots[at];
        if !is_pending(&client_slot.client, request) || !can_answer(request, &reply) {
            return false;
        }
        prove_order(&reply);
        let answered = client_slot.client.advance(reply, self.clock);
        is_answered_so(&answered, answer)
    }

    // A call is made, or discarded, or goes into flight.
    fn depart(&mut self, how: How, request: &Request) -> Result<(), NoMemory>
        ensures { OnOk result (self.new ≡ with_flights self.old (flights_after self.old.flights how request.now)) }
    {
        match how {
            How::Delayed => self.flights.push(Some(request.copy()?))?,
            How::Seen | How::Lost | How::Discarded | How::Broken => {}
        }
        Ok(())
    }

    // A client makes the call that it has pending, and takes the reply, which is answered so.
    #[tactic(auto, using(crate::proofs::Steps::departed))]
    fn call(
        &mut self,
        client: u32,
        request: &Request,
        how: How,
        reply: Reply,
        answer: &Option<Boxed<Answer>>,
    ) -> Result<bool, NoMemory>
        ensures { IfOk result (λ so. so ≡ true → CallStep self.old client request.now how reply answer.now self.new) }
    {
        if !has_reply(how, &reply) {
            return Ok(false);
        }
        let so = self.receive(client, request, reply, answer);
        self.depart(how, request)?;
        Ok(so)
    }

    // The request of a delayed call takes effect.
    fn land(&mut self, number: u32, request: &Request, how: How, reply: &Reply) -> bool
        ensures { result ≡ true → LandStep self.old number request.now how reply.now self.new }
    {
        let Some(at) = (number as usize).checked_sub(1) else {
            return false;
        };
        if !is_in_flight(&self.flights, at, request)
            || !may_land(how, reply)
            || !can_answer(request, reply)
        {
            return false;
        }
        prove_order(reply);
        self.flights[at] = None;
        true
    }

    // A client stops.
    fn stop(&mut self, client: u32) -> bool
        ensures { result ≡ true → StopStep self.old client self.new }
    {
        let Some(at) = (client as usize).checked_sub(1) else {
            return false;
        };
        if at >= self.client_slots.len() {
            return false;
        }
        self.client_slots[at].stopped = true;
        true
    }

    // The clock shows a moment.
    fn tick(&mut self, moment: i64) -> bool
        ensures { result ≡ true → (is_moment_lem moment ≡ true) × (self.new ≡ record { client_slots = self.old.client_slots; flights = self.old.flights; clock = moment }) }
    {
        self.clock = moment;
        is_moment(moment)
    }

    // Some client that hasn't stopped has a transaction open or runs VACUUM.
    fn is_any_active(&self) -> bool
        ensures active { result ≡ true → SomeActive self.now.client_slots }
        ensures quiet { result ≡ false → AreQuiet self.now.client_slots }
    {
        let gate = gate_at(&self.client_slots, self.client_slots.len());
        gate.vacuum_runs || gate.open_elsewhere
    }

    // What becomes of a column that is to be added to a table of a catalog.
    fn alter(
        &self,
        catalog: &Catalog,
        table: &TableName,
        column: &Name,
        kind: Kind,
        altered: Altered,
    ) -> Result<bool, NoMemory>
        ensures { IfOk result (λ so. so ≡ true → AlterStep catalog.now self.now.client_slots table.now (record { name = column.now; kind = kind }) altered) }
    {
        if self.is_any_active() {
            return Ok(matches!(altered, Altered::Open));
        }
        if !is_short_name(column) {
            return Ok(false);
        }
        let refusal = column_refusal(catalog, table, column, kind)?;
        match altered {
            Altered::Done => Ok(refusal.is_none()),
            Altered::Refused(number) => Ok(refusal == Some(number)),
            Altered::Open => Ok(false),
        }
    }

    /// Whether an event is a step of the clients, under the catalog as it is after the events so far. Where it isn't they are not used again.
    pub fn step(
        &mut self,
        script: &Script,
        catalog: &Catalog,
        event: &Event,
    ) -> Result<bool, NoMemory>
        ensures { IfOk result (λ so. so ≡ true → IsStepUnder script.now catalog.now self.old event.now self.new) }
    {
        match event {
            Event::Take(client, text, answer) => {
                Ok(self.take(script, catalog, *client, text, answer))
            }
            Event::Alter(table, column, kind, altered) => {
                self.alter(catalog, table, column, *kind, *altered)
            }
            Event::Call(client, _, request, how, reply, answer) => {
                self.call(*client, request.get(), *how, reply.get().copy()?, answer)
            }
            Event::Stop(client) => Ok(self.stop(*client)),
            Event::Clock(moment) => Ok(self.tick(*moment)),
            Event::Idle(_) => Ok(true),
            Event::Land(number, _, request, how, reply) => {
                Ok(self.land(*number, request.get(), *how, reply.get()))
            }
        }
    }
}
