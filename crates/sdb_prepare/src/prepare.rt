//! The prepares of a COMMIT.
ghost use Rattle.std.specs.Prelude.{◌≡◌, ◌<◌, ◌^◌, [], map, All, IfOk, IsSome, IfSome, Some, length, slice_get, nat_lt};
ghost use Rattle.std.specs.Option.{option_copied};
ghost use Rattle.sdb_types.specs.declared.record.Request.TheVariants as ask;
ghost use Rattle.sdb_record.specs.Groups.{ungrouped};
ghost use Rattle.sdb_record.specs.Rolls.{IsWrite};
ghost use Rattle.sdb_phases.specs.Work.{prepare_of, prepares_of};
ghost use Rattle.sdb_phases.specs.Steps.{CanGet, prepare_request, prepare_result, prepare_next, puts_of, refused};

use sdb_phases::{PrepareStep, prepare};
use sdb_record::{Groups, Write, Writes};
use sdb_types::{Batch, NoMemory, Record, Reply, Request, Seq, TxId, sent};
use std::alloc::Global;
use std::marker::Model;
use std::mem;

type Requests = Seq<Request>;

/// The prepares of a COMMIT, one for each group of its writes, each asked for once the one before it was applied.
pub struct Prepare {
    alloc: Global,
    asks: Requests,
    at: usize,
    touched: usize,
}

// By hand: each drop is then one call, where a derived one is written out at each exit, with a call for each field.
impl Drop for Prepare {
    fn drop(self) {
        let Prepare {
            alloc: _,
            asks: _,
            at: _,
            touched: _,
        } = self;
    }
}

impl Model for Prepare {
    ghost use Rattle.sdb_phases.specs.Steps.{Prepares};

    ghost Value = { Prepares };

    ghost view = { λ p. record { asks = p.asks; at = p.at; touched = p.touched } };

    ghost use Rattle.std.specs.Prelude.{◌+◌, ◌<◌, ◌^◌};
    ghost use Rattle.sdb_phases.specs.Steps.{puts_from};

    ghost invariant = { λ p. p.touched + puts_from p.asks p.at < 2 ^ 64 };
}

// The put of each write of a group, in order.
fn puts(alloc: Global, group: &[Write], id: TxId, now: i64) -> Result<Batch, NoMemory>
    requires { All IsWrite group.now }
    ensures { IfOk result (λ puts. puts ≡ map (prepare_of id now) group.now) }
{
    let mut puts = Batch::with_room(alloc, group.len())?;
    for write in group {
        puts.push(prepare(alloc, write, id, now)?)?;
    }
    Ok(puts)
}

// The prepare of each group, in order.
fn prepares(alloc: Global, groups: &[Writes], id: TxId, now: i64) -> Result<Requests, NoMemory>
    requires { All (All IsWrite) groups.now }
    ensures { IfOk result (λ asks. asks ≡ map (prepares_of id now) groups.now) }
{
    let mut asks = Requests::new(alloc);
    for group in groups {
        asks.push(sent(puts(alloc, group.as_slice(), id, now)?))?;
    }
    Ok(asks)
}

// How many records a prepare puts.
fn count(request: Option<&Request>) -> usize
    ensures { result ≡ puts_of (option_copied request.entry) }
{
    match request {
        Some(Request::PutAll(batch)) => batch.len(),
        _ => 1,
    }
}

// The conflict at the key of the put of that place, from 1. Takes no memory.
fn unmet(batch: Batch, place: u32, found: Option<Record>) -> PrepareStep
    ensures { result ≡ refused (Some (ask.PutAll batch)) place found }
{
    let mut puts = batch.into_vec();
    let at = place.saturating_sub(1) as usize;
    if at >= puts.len() {
        return PrepareStep::NoMemory;
    }
    let (rec, _) = puts.swap_remove(at).into_parts();
    PrepareStep::Conflict(rec.into_key(), found)
}

// A prepare that isn't met is a conflict at the key whose condition failed. Takes no memory.
fn conflict(asks: Requests, at: usize, place: u32, found: Option<Record>) -> PrepareStep
    requires { at < length asks }
    ensures { result ≡ refused (slice_get asks at) place found }
{
    match asks.into_vec().swap_remove(at) {
        Request::PutIf(rec, _) => PrepareStep::Conflict(rec.into_key(), found),
        Request::PutAll(batch) => unmet(batch, place, found),
        _ => PrepareStep::NoMemory,
    }
}

// Nothing is asked any more. The requests that there were.
fn end(alloc: Global, asks: &mut Requests, at: &mut usize) -> Requests
    ensures before { result ≡ asks.old }
    ensures asks { asks.new ≡ [] }
    ensures at { at.new ≡ 0 }
{
    *at = 0;
    mem::replace(asks, Requests::new(alloc))
}

impl Prepare {
    /// The prepares of these groups of writes, for a transaction whose COMMIT was accepted at a moment from 0 to 2^53.
    pub fn new(alloc: Global, groups: &Groups, id: TxId, now: i64) -> Result<Prepare, NoMemory>
        requires writes { All (All IsWrite) groups.now }
        requires few { length (ungrouped groups.now) < 2 ^ 64 }
        ensures { IfOk result (λ p. p ≡ record { asks = map (prepares_of id now) groups.now; at = 0; touched = 0 }) }
    {
        Ok(Prepare {
            alloc,
            asks: prepares(alloc, groups.as_slice(), id, now)?,
            at: 0,
            touched: 0,
        })
    }

    /// The call that is pending; none where it has ended. Takes no memory.
    pub fn request(&self) -> Option<&Request>
        ensures { option_copied result ≡ prepare_request self.now }
    {
        self.asks.at(self.at)
    }

    /// How many writes, from the first in the order of the groups, may have accepted effect: those whose prepare was applied or faulted.
    pub fn touched(&self) -> usize
        ensures { result ≡ self.now.touched }
    {
        self.touched
    }

    /// Takes the reply to the pending call. Takes no memory.
    pub fn take(&mut self, reply: Reply) -> PrepareStep
        requires pending { IsSome (prepare_request self.old) }
        requires reply { CanGet (prepare_request self.old) reply }
        ensures step { result ≡ prepare_result self.old reply }
        ensures after { self.new ≡ prepare_next self.old reply }
    {
        let calls = self.asks.len();
        let at = self.at;
        let puts = count(self.request());
        match reply {
            Reply::Applied => {
                self.at = at + 1;
                self.touched += puts;
                if at + 1 < calls {
                    PrepareStep::More
                } else {
                    PrepareStep::Done
                }
            }
            Reply::NotMet(found) => conflict(
                end(self.alloc, &mut self.asks, &mut self.at),
                at,
                1,
                found,
            ),
            Reply::NotAll(place, found) => conflict(
                end(self.alloc, &mut self.asks, &mut self.at),
                at,
                place,
                found,
            ),
            Reply::Fault => {
                self.touched += puts;
                end(self.alloc, &mut self.asks, &mut self.at);
                PrepareStep::Faulted
            }
            _ => {
                end(self.alloc, &mut self.asks, &mut self.at);
                PrepareStep::NoMemory
            }
        }
    }
}
