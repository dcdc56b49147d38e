//! The lanes of a picture: a client, a store or a record each.
ghost use Rattle.std.specs.Prelude.{◌≡◌, ◌==◌, ◌∷◌, ◌++◌, [], OnOk, IfOk, fold, position};
ghost use Rattle.sdb_model.specs.Rows.{same_name};
ghost use Rattle.sdb_picture.specs.Lanes as spec;

use crate::effect::{Effect, effect_of, is_decision, is_same_place, may_change, same_name_as};
use sdb_model::Event;
use sdb_types::{Batch, Duplicate, Key, Name, NoMemory, Record, Request, Seq};
use std::alloc::Global;

/// A record: a key of a store.
#[derive(Debug)]
pub struct Place {
    pub store: Name,
    pub key: Key,
}

// By hand: each drop is then one call, where a derived one is written out at each exit, with a call for each field.
impl Drop for Place {
    fn drop(self) {
        let Place { store: _, key: _ } = self;
    }
}

/// The lanes, each list in the order in which its first events come.
#[derive(Debug)]
pub struct Lanes {
    pub clients: Seq<u32>,
    pub stores: Seq<Name>,
    pub records: Seq<Place>,
}

// By hand: each drop is then one call, where a derived one is written out at each exit, with a call for each field.
impl Drop for Lanes {
    fn drop(self) {
        let Lanes {
            clients: _,
            stores: _,
            records: _,
        } = self;
    }
}

fn client_place(clients: &[u32], client: u32) -> Option<usize>
    ensures { result ≡ position (λ c. c == client) clients.now }
{
    clients.iter().position(|c| *c == client)
}

fn store_place(stores: &[Name], store: &Name) -> Option<usize>
    ensures { result ≡ position (λ s. same_name s store.now) stores.now }
{
    stores.iter().position(|s| same_name_as(s, store))
}

fn is_at(place: &Place, store: &Name, key: &Key) -> bool
    ensures { result ≡ spec.is_at store.now key.now place.now }
{
    is_same_place(&place.store, &place.key, store, key)
}

fn record_place(records: &[Place], store: &Name, key: &Key) -> Option<usize>
    ensures { result ≡ position (spec.is_at store.now key.now) records.now }
{
    records.iter().position(|place| is_at(place, store, key))
}

impl Lanes {
    ghost use Rattle.std.specs.Prelude.{◌≡◌};
    ghost use Rattle.sdb_picture.specs.Lanes as spec;

    /// The lane of a client.
    pub fn of_client(&self, client: u32) -> usize
        ensures { result ≡ spec.client_lane self.now client }
    {
        match client_place(self.clients.as_slice(), client) {
            Some(lane) => lane,
            None => 0,
        }
    }

    /// The lane of a store.
    pub fn of_store(&self, store: &Name) -> usize
        ensures { result ≡ spec.store_lane self.now store.now }
    {
        match store_place(self.stores.as_slice(), store) {
            Some(lane) => lane,
            None => 0,
        }
    }

    /// The lane of the record at a key of a store.
    pub fn of_record(&self, store: &Name, key: &Key) -> usize
        ensures { result ≡ spec.record_lane self.now store.now key.now }
    {
        match record_place(self.records.as_slice(), store, key) {
            Some(lane) => lane,
            None => 0,
        }
    }
}

fn add_client(clients: &mut Seq<u32>, client: u32) -> Result<(), NoMemory>
    ensures { OnOk result (clients.new ≡ spec.with_client clients.old client) }
{
    match client_place(clients.as_slice(), client) {
        Some(_) => Ok(()),
        None => clients.push(client),
    }
}

fn add_client_of(clients: &mut Seq<u32>, event: &Event) -> Result<(), NoMemory>
    ensures { OnOk result (clients.new ≡ spec.with_client_of clients.old event.now) }
{
    match event {
        Event::Take(client, _, _) => add_client(clients, *client),
        Event::Call(client, _, _, _, _, _) => add_client(clients, *client),
        Event::Stop(client) => add_client(clients, *client),
        Event::Clock(_) => Ok(()),
        Event::Idle(client) => {
            if *client == 0 {
                Ok(())
            } else {
                add_client(clients, *client)
            }
        }
        Event::Land(_, _, _, _, _) => Ok(()),
        Event::Alter(_, _, _, _) => Ok(()),
    }
}

fn clients_of(alloc: Global, events: &[Event]) -> Result<Seq<u32>, NoMemory>
    ensures { IfOk result (λ clients. clients ≡ spec.clients_of events.now) }
{
    let mut clients = Seq::new(alloc);
    for event in events {
        add_client_of(&mut clients, event)?;
    }
    Ok(clients)
}

fn push_store(stores: &mut Seq<Name>, store: &Name) -> Result<(), NoMemory>
    ensures { OnOk result (stores.new ≡ stores.old ++ store.now ∷ []) }
{
    stores.push(store.copy()?)
}

fn add_store(stores: &mut Seq<Name>, store: &Name) -> Result<(), NoMemory>
    ensures { OnOk result (stores.new ≡ spec.with_store stores.old store.now) }
{
    match store_place(stores.as_slice(), store) {
        Some(_) => Ok(()),
        None => push_store(stores, store),
    }
}

fn add_store_of(stores: &mut Seq<Name>, event: &Event) -> Result<(), NoMemory>
    ensures { OnOk result (stores.new ≡ spec.with_store_of stores.old event.now) }
{
    match event {
        Event::Take(_, _, _) => Ok(()),
        Event::Call(_, store, _, _, _, _) => add_store(stores, store),
        Event::Stop(_) => Ok(()),
        Event::Clock(_) => Ok(()),
        Event::Idle(_) => Ok(()),
        Event::Land(_, store, _, _, _) => add_store(stores, store),
        Event::Alter(_, _, _, _) => Ok(()),
    }
}

fn stores_of(alloc: Global, events: &[Event]) -> Result<Seq<Name>, NoMemory>
    ensures { IfOk result (λ stores. stores ≡ spec.stores_of events.now) }
{
    let mut stores = Seq::new(alloc);
    for event in events {
        add_store_of(&mut stores, event)?;
    }
    Ok(stores)
}

fn place_of(store: &Name, rec: &Record) -> Result<Place, NoMemory>
    ensures { IfOk result (λ place. place ≡ record { store = store.now; key = rec.now.key }) }
{
    Ok(Place {
        store: store.copy()?,
        key: rec.key.copy()?,
    })
}

fn add_record(records: &mut Seq<Place>, store: &Name, rec: &Record) -> Result<(), NoMemory>
    ensures { OnOk result (records.new ≡ spec.with_record records.old store.now rec.now) }
{
    match record_place(records.as_slice(), store, &rec.key) {
        Some(_) => Ok(()),
        None => records.push(place_of(store, rec)?),
    }
}

// Adds a record that is put, unless it is a coordinator's row.
fn add_put(records: &mut Seq<Place>, store: &Name, rec: &Record) -> Result<(), NoMemory>
    ensures { OnOk result (records.new ≡ spec.with_put store.now records.old rec.now) }
{
    if is_decision(rec) {
        Ok(())
    } else {
        add_record(records, store, rec)
    }
}

fn add_batch(records: &mut Seq<Place>, store: &Name, batch: &Batch) -> Result<(), NoMemory>
    ensures { OnOk result (records.new ≡ fold (λ places p. spec.with_put store.now places p.rec) records.old batch.now) }
{
    for put in batch.as_slice() {
        add_put(records, store, &put.rec)?;
    }
    Ok(())
}

fn add_puts(records: &mut Seq<Place>, store: &Name, request: &Request) -> Result<(), NoMemory>
    ensures { OnOk result (records.new ≡ spec.with_puts records.old store.now request.now) }
{
    match request {
        Request::Get(_) => Ok(()),
        Request::Scan(_) => Ok(()),
        Request::PutIf(rec, _) => add_put(records, store, rec),
        Request::DeleteIf(_, _) => Ok(()),
        Request::PutAll(batch) => add_batch(records, store, batch),
    }
}

// Adds the records whose bands may begin at a call.
fn add_begun(
    records: &mut Seq<Place>,
    store: &Name,
    request: &Request,
    effect: Effect,
) -> Result<(), NoMemory>
    ensures { OnOk result (records.new ≡ spec.with_begun records.old store.now request.now effect) }
{
    if may_change(effect) {
        add_puts(records, store, request)
    } else {
        Ok(())
    }
}

fn add_record_of(records: &mut Seq<Place>, event: &Event) -> Result<(), NoMemory>
    ensures { OnOk result (records.new ≡ spec.with_record_of records.old event.now) }
{
    match event {
        Event::Take(_, _, _) => Ok(()),
        Event::Call(_, store, request, how, reply, _) => {
            add_begun(records, store, request.get(), effect_of(*how, reply.get()))
        }
        Event::Stop(_) => Ok(()),
        Event::Clock(_) => Ok(()),
        Event::Idle(_) => Ok(()),
        Event::Land(_, store, request, how, reply) => {
            add_begun(records, store, request.get(), effect_of(*how, reply.get()))
        }
        Event::Alter(_, _, _, _) => Ok(()),
    }
}

fn records_of(alloc: Global, events: &[Event]) -> Result<Seq<Place>, NoMemory>
    ensures { IfOk result (λ records. records ≡ spec.records_of events.now) }
{
    let mut records = Seq::new(alloc);
    for event in events {
        add_record_of(&mut records, event)?;
    }
    Ok(records)
}

/// The lanes of a picture of these events.
pub fn lanes_of(alloc: Global, events: &[Event]) -> Result<Lanes, NoMemory>
    ensures { IfOk result (λ lanes. lanes ≡ spec.lanes_of events.now) }
{
    let clients = clients_of(alloc, events)?;
    let stores = stores_of(alloc, events)?;
    let records = records_of(alloc, events)?;
    Ok(Lanes {
        clients,
        stores,
        records,
    })
}
