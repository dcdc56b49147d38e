//! A world, the state of a run: the clients of a script, its tables as they are now, the requests in flight, and the events so far.
ghost use Rattle.std.specs.Prelude.{◌≡◌, ◌<◌, ◌≤◌, true, [], suc, length, Some, IfOk, OnOk, IfSome, slice_get};
ghost use Rattle.sdb_types.specs.Contents.{IsWellFormed};
ghost use Rattle.sdb_record.specs.Parts.{is_column_name};
ghost use Rattle.sdb_model.specs.Catalogs.{catalog_after};
ghost use Rattle.sdb_model.specs.Follows.{has_work as has_work_lem, texts_of};
ghost use Rattle.sdb_contents.specs.Board.{GoOn};
ghost use Rattle.sdb_client.specs.Execution.{IsGateAt, IsInitial, IsPlayable};
ghost use Rattle.law_runs.specs.World.{IsWorld, state_of};
ghost use Rattle.sdb_world.specs.Asked.{AsksOnce};
ghost use Rattle.sdb_world.specs.Broken.{BreaksWithin};
ghost use Rattle.sdb_world.specs.Explained.{IsExplainedAfter};
ghost use Rattle.sdb_world.specs.Step.{AddsTo, CanAct, HasActed, HasAltered, HasCalled, HasLeft, HasStopped, HasStarted, IsBusyAt, IsIdleAt, LeavesFlight, IsNumber, IsPendingAt, act_of};

use crate::delivery::Delivery;
use crate::flights::Flights;
use crate::perform::perform;
use sdb_client::{ClientSlot, Gate, fresh_slots, gate_at, prove_order};
use sdb_model::{Act, Altered, CommonBoxes, Event, Events, Script, Texts};
use sdb_schema::{Catalog, Column, Kind};
use sdb_stores::{Registry, table_of};
use sdb_types::{Duplicate, Name, NoMemory, Request, TableName, Txt};
use std::alloc::Global;
use std::marker::Model;

// Adds a column to a table, or gives the number of why the catalog refuses it.
fn add(
    catalog: &mut Catalog,
    table: &TableName,
    column: &Name,
    kind: Kind,
) -> Result<Altered, NoMemory>
    requires name { is_column_name column.now ≡ true }
    ensures { IfOk result (λ altered. AddsTo catalog.old table.now (record { name = column.now; kind = kind }) altered catalog.new) }
{
    let column = Column {
        name: column.copy()?,
        kind,
    };
    match catalog.add_column(table, column) {
        Ok(()) => Ok(Altered::Done),
        Err(refused) => match refused.number() {
            Some(number) => Ok(Altered::Refused(number)),
            None => Err(NoMemory),
        },
    }
}

/// The clients of a script at work.
pub struct World {
    script: Script,
    // The script's tables, with the columns that were added.
    catalog: Catalog,
    client_slots: Vec<ClientSlot>,
    flights: Flights,
    events: Events,
    common_boxes: CommonBoxes,
    clock: i64,
}

// By hand: each drop is then one call, where a derived one is written out at each exit, with a call for each field.
impl Drop for World {
    fn drop(self) {
        let World {
            script: _,
            catalog: _,
            client_slots: _,
            flights: _,
            events: _,
            common_boxes: _,
            clock: _,
        } = self;
    }
}

impl Model for World {
    ghost use Rattle.std.specs.Prelude.{◌≡◌};
    ghost use Rattle.sdb_model.specs.Catalogs.{catalog_after};
    ghost use Rattle.law_runs.specs.World.{WorldAt};

    ghost Value = { WorldAt };

    ghost view = { λ w. record { script = w.script; client_slots = w.client_slots.items; flights = w.flights; events = w.events; clock = w.clock } };

    ghost invariant = { λ w. w.catalog ≡ catalog_after w.script.catalog w.events };
}

impl World {
    /// The clients of a script before their first statement, at moment 0.
    pub fn new(alloc: Global, script: Script) -> Result<World, NoMemory>
        requires playable { IsPlayable script }
        ensures world { IfOk result IsWorld }
        ensures script { IfOk result (λ w. w.script ≡ script) }
        ensures events { IfOk result (λ w. w.events ≡ []) }
        ensures initial { IfOk result (λ w. IsInitial w.script (state_of w)) }
    {
        let common_boxes = CommonBoxes::new(alloc)?;
        let client_slots = fresh_slots(alloc, script.clients.len())?;
        let catalog = script.catalog.copy()?;
        let flights = Flights::new(alloc);
        let events = Events::new(alloc);
        Ok(World {
            script,
            catalog,
            client_slots,
            flights,
            events,
            common_boxes,
            clock: 0,
        })
    }

    /// The script. Takes no memory.
    pub fn script(&self) -> &Script
        ensures { result.now ≡ self.now.script }
    {
        &self.script
    }

    /// What has happened, in order. Takes no memory.
    pub fn events(&self) -> &Events
        ensures { result.now ≡ self.now.events }
    {
        &self.events
    }

    // The script, its tables as they are now, and what has happened.
    pub(crate) fn into_parts(self) -> (Script, Catalog, Events)
        ensures script { result.0 ≡ self.script }
        ensures catalog { result.1 ≡ catalog_after self.script.catalog self.events }
        ensures events { result.2 ≡ self.events }
    {
        let World {
            script,
            catalog,
            client_slots: _,
            flights: _,
            events,
            common_boxes: _,
            clock: _,
        } = self;
        (script, catalog, events)
    }

    // The texts of a client's statements.
    fn statements(&self, at: usize) -> &Texts
        requires at { at < length self.now.script.clients }
        ensures { result.now ≡ texts_of self.now.script.clients (suc at) }
    {
        match self.script.clients.at(at) {
            Some(client) => &client.statements,
            None => unreachable!(),
        }
    }

    // Whether a client has work: it hasn't stopped, and a call of it is pending or a statement is left.
    pub(crate) fn has_work(&self, at: usize) -> bool
        requires world { IsWorld self.now }
        requires at { at < length self.now.client_slots }
        ensures { result ≡ has_work_lem self.now.script.clients (suc at) self.now.events }
    {
        let client_slot = &self.client_slots[at];
        !client_slot.stopped
            && (!client_slot.client.is_idle() || client_slot.accepted < self.statements(at).len())
    }

    // What the other clients do that go on.
    fn gate(&self, at: usize) -> Gate
        ensures { IsGateAt result self.now.client_slots at }
    {
        gate_at(&self.client_slots, at)
    }

    // The text of a client's next statement.
    fn next_text(&self, at: usize) -> Result<Txt, NoMemory>
        requires at { at < length self.now.client_slots }
        requires clients { length self.now.client_slots ≡ length self.now.script.clients }
        requires left { HasLeft self.now at }
        ensures { IfOk result (λ text. IfSome (slice_get self.now.client_slots at) (λ s. slice_get (texts_of self.now.script.clients (suc at)) s.accepted ≡ Some text)) }
    {
        match self.statements(at).at(self.client_slots[at].accepted) {
            Some(text) => text.copy(),
            None => unreachable!(),
        }
    }

    // A client takes its next statement.
    fn take(&mut self, at: usize) -> Result<(), NoMemory>
        requires world { IsWorld self.old }
        requires at { at < length self.old.client_slots }
        requires idle { IsIdleAt self.old at }
        requires left { HasLeft self.old at }
        ensures { OnOk result (HasStarted self.old at self.new) }
    {
        let _left = self.statements(at).len();
        let text = self.next_text(at)?;
        let gate = self.gate(at);
        let client_slot = &mut self.client_slots[at];
        let fresh = client_slot.client.next_id();
        let answer = client_slot
            .client
            .take(&self.catalog, &text, gate, fresh, self.clock);
        let _begun = client_slot.client.begun();
        client_slot.accepted += 1;
        let alloc = self.events.allocator();
        let number = at as u32 + 1;
        let event = self.common_boxes.take(alloc, number, text, answer)?;
        self.events.push(event)?;
        Ok(())
    }

    // The call that a client has pending.
    fn request(&self, at: usize) -> Result<Request, NoMemory>
        requires at { at < length self.now.client_slots }
        requires busy { IsBusyAt self.now at }
        ensures pending { IfOk result (λ request. IsPendingAt self.now at request) }
        ensures formed { IfOk result IsWellFormed }
    {
        match self.client_slots[at].client.pending() {
            Some(request) => request.copy(),
            None => unreachable!(),
        }
    }

    // The pending call of a client is made in some way, and the client has the reply.
    fn call<R: Registry>(
        &mut self,
        stores: &mut R,
        at: usize,
        way: Delivery,
    ) -> Result<(), NoMemory>
        requires some { 0 < length (R.state stores.old).views }
        requires world { IsWorld self.old }
        requires at { at < length self.old.client_slots }
        requires busy { IsBusyAt self.old at }
        ensures called { OnOk result (HasCalled (R.state stores.old) (R.state stores.new) self.old at way self.new) }
        ensures asked { OnOk result (AsksOnce (R.state stores.old) (R.state stores.new) self.old.events self.new.events) }
        ensures broken { OnOk result (BreaksWithin self.old.events self.new.events (R.state stores.old).views (R.state stores.new).views) }
        ensures goes { GoOn (R.state stores.old) (R.state stores.new) }
    {
        let request = self.request(at)?;
        let store = stores.store_of(table_of(&request)).copy()?;
        let (how, reply) = perform(stores, &request, way);
        self.flights.delay(how, &request)?;
        prove_order(&reply);
        let answered = reply.copy()?;
        let answer = self.client_slots[at].client.advance(reply, self.clock);
        let alloc = self.events.allocator();
        let number = at as u32 + 1;
        let event = self
            .common_boxes
            .call(alloc, number, store, request, how, answered, answer)?;
        self.events.push(event)?;
        Ok(())
    }

    // A step of a client, whose call is made in some way.
    pub(crate) fn go<R: Registry>(
        &mut self,
        stores: &mut R,
        client: u32,
        way: Delivery,
    ) -> Result<(), NoMemory>
        requires some { 0 < length (R.state stores.old).views }
        requires world { IsWorld self.old }
        requires client { IsNumber self.old.script client }
        ensures world { OnOk result (IsWorld self.new) }
        ensures acted { OnOk result (HasActed (act_of way client) (R.state stores.old) (R.state stores.new) self.old self.new) }
        ensures asked { OnOk result (AsksOnce (R.state stores.old) (R.state stores.new) self.old.events self.new.events) }
        ensures broken { OnOk result (BreaksWithin self.old.events self.new.events (R.state stores.old).views (R.state stores.new).views) }
        ensures goes { GoOn (R.state stores.old) (R.state stores.new) }
    {
        let at = client as usize - 1;
        if !self.has_work(at) {
            self.events.push(Event::Idle(client))?;
            return Ok(());
        }
        if self.client_slots[at].client.is_idle() {
            self.take(at)
        } else {
            self.call(stores, at, way)
        }
    }

    // The request in flight of this number, if there is one: it is in flight no more.
    fn landing(&mut self, number: u32) -> Option<Request>
        ensures left { LeavesFlight number self.old result self.new }
        ensures formed { IfSome result IsWellFormed }
    {
        let place = (number as usize).checked_sub(1)?;
        if place < self.flights.len() {
            self.flights.take(place)
        } else {
            None
        }
    }

    // The request in flight of this number lands on the store of its table. Where there is none, nothing happens.
    pub(crate) fn land<R: Registry>(&mut self, stores: &mut R, number: u32) -> Result<(), NoMemory>
        requires some { 0 < length (R.state stores.old).views }
        requires world { IsWorld self.old }
        ensures world { OnOk result (IsWorld self.new) }
        ensures acted { OnOk result (HasActed (Act.Land number) (R.state stores.old) (R.state stores.new) self.old self.new) }
        ensures asked { OnOk result (AsksOnce (R.state stores.old) (R.state stores.new) self.old.events self.new.events) }
        ensures broken { OnOk result (BreaksWithin self.old.events self.new.events (R.state stores.old).views (R.state stores.new).views) }
        ensures goes { GoOn (R.state stores.old) (R.state stores.new) }
    {
        match self.landing(number) {
            None => {
                self.events.push(Event::Idle(0))?;
                Ok(())
            }
            Some(request) => {
                let store = stores.store_of(table_of(&request)).copy()?;
                let (how, reply) = perform(stores, &request, Delivery::Step);
                prove_order(&reply);
                let alloc = self.events.allocator();
                let event = self
                    .common_boxes
                    .land(alloc, number, store, request, how, reply)?;
                self.events.push(event)?;
                Ok(())
            }
        }
    }

    // A client stops.
    fn stop(&mut self, client: u32) -> Result<(), NoMemory>
        requires client { (0 < client) × (client ≤ length self.old.client_slots) }
        ensures { OnOk result (HasStopped self.old client self.new) }
    {
        self.client_slots[client as usize - 1].stopped = true;
        self.events.push(Event::Stop(client))?;
        Ok(())
    }

    // A column is to be added to a table: it is where no client that goes on has a transaction open or runs VACUUM, and the catalog takes it.
    fn alter(&mut self, table: TableName, column: Name, kind: Kind) -> Result<(), NoMemory>
        requires name { is_column_name column ≡ true }
        ensures { OnOk result (HasAltered self.old table column kind self.new) }
    {
        let gate = self.gate(self.client_slots.len());
        if gate.vacuum_runs || gate.open_elsewhere {
            self.events
                .push(Event::Alter(table, column, kind, Altered::Open))?;
            return Ok(());
        }
        let mut catalog = self.catalog.copy()?;
        let altered = add(&mut catalog, &table, &column, kind)?;
        self.events
            .push(Event::Alter(table, column, kind, altered))?;
        self.catalog = catalog;
        Ok(())
    }

    /// Does one act, which gives exactly one event: a step of a client, whose call is made on the store of its table, and whose reply may be
    /// lost, or which is discarded or delayed; a landing; a stop; a setting of the clock; or a column that is to be added to a table. On stores
    /// that are fit for the run, and that held nothing of the script's tables when it began, what is there, and in flight, at each moment is
    /// explained by the events, and what each recorded transaction read is current at its point. After `NoMemory` the world isn't used again.
    pub fn step<R: Registry>(&mut self, stores: &mut R, act: Act) -> Result<(), NoMemory>
        requires some { 0 < length (R.state stores.old).views }
        requires world { IsWorld self.old }
        requires act { CanAct self.old.script act }
        ensures world { OnOk result (IsWorld self.new) }
        ensures acted { OnOk result (HasActed act (R.state stores.old) (R.state stores.new) self.old self.new) }
        ensures explained { OnOk result (IsExplainedAfter (R.state stores.old) (R.state stores.new) self.old self.new) }
        ensures asked { OnOk result (AsksOnce (R.state stores.old) (R.state stores.new) self.old.events self.new.events) }
        ensures broken { OnOk result (BreaksWithin self.old.events self.new.events (R.state stores.old).views (R.state stores.new).views) }
        ensures goes { GoOn (R.state stores.old) (R.state stores.new) }
    {
        match &act {
            Act::Step(client) => self.go(stores, *client, Delivery::Step),
            Act::Lose(client) => self.go(stores, *client, Delivery::Lose),
            Act::Discard(client) => self.go(stores, *client, Delivery::Discard),
            Act::Delay(client) => self.go(stores, *client, Delivery::Delay),
            Act::Land(number) => self.land(stores, *number),
            Act::Stop(client) => self.stop(*client),
            Act::Alter(table, column, kind) => self.alter(table.copy()?, column.copy()?, *kind),
            Act::Clock(moment) => {
                self.clock = *moment;
                self.events.push(Event::Clock(*moment))?;
                Ok(())
            }
        }
    }
}
