//! A read under way.
ghost use Rattle.std.specs.Prelude.{◌≡◌, ◌≢◌, [], ◌∷◌, IfOk, IsSome, IsSomeAnd, Ok, Some, None, true};
ghost use Rattle.std.specs.Option.{option_copied};
ghost use Rattle.sdb_record.specs.Meta.{checked, is_unresolved};
ghost use Rattle.sdb_phases.specs.Steps.{CanGet};
ghost use Rattle.sdb_phases.specs.declared.step.RecoverPhase.TheVariants.{Look};
ghost use Rattle.sdb_txn.specs.Read.{Asking, IsAsking, IsResolving, answered, read_pending, read_result, read_step, request_of, resolved as resolved_lem, settle as settle_lem};
ghost use Rattle.sdb_txn.specs.Rows.{AreRowsOf, stage_in};

use crate::held::Held;
use crate::row_kinds::{Settled, settle};
use sdb_phases::RecoverStep;
use sdb_record::Access;
use sdb_recover::Recover;
use sdb_types::{Duplicate, Key, NoMemory, Record, Records, Reply, Request, TxId};
use std::alloc::Global;
use std::collections::VecDeque;
use std::marker::Model;
use std::mem;

/// What became of a call of a read.
#[derive(Debug, Drop, PartialEq, Eq)]
pub enum ReadStep {
    /// Another call is pending.
    More,
    /// The committed records that the rows mean, in the order of their keys.
    Images(Records),
    /// The record at this key is unresolved, and its transaction may still decide: its id, and when it prepared the record.
    Busy(Key, TxId, i64),
    Faulted,
    /// The record or the coordinator row at this key isn't well formed.
    BadRecord(Key),
    NoMemory,
}

// The call that is pending.
#[derive(Clone, Copy, Debug, PartialEq, Eq)]
enum Phase {
    Asking,
    Resolving,
    Ended,
}

/// A read under way: its rows are asked for by one call, and settled one after the other, each unresolved one by a recovery.
pub struct ReadPhases {
    alloc: Global,
    request: Request,
    images: Records,
    left: VecDeque<Record>,
    recover: Option<Held<Recover>>,
    phase: Phase,
}

// By hand: each drop is then one call, where a derived one is written out at each exit, with a call for each field.
impl Drop for ReadPhases {
    fn drop(self) {
        let ReadPhases {
            alloc: _,
            request: _,
            images: _,
            left: _,
            recover: _,
            phase: _,
        } = self;
    }
}

impl Model for ReadPhases {
    ghost use Rattle.sdb_txn.specs.Read.{ReadAt};
    ghost use Rattle.sdb_txn.specs.ReadInside.{read_of, IsRead};

    ghost Value = { ReadAt };

    ghost view = { read_of };

    ghost invariant = { IsRead };
}

fn request(access: &Access) -> Result<Request, NoMemory>
    ensures { IfOk result (λ request. request ≡ request_of access.now) }
{
    match access {
        Access::Get(key) => Ok(Request::Get(key.copy()?)),
        Access::Scan(span) => Ok(Request::Scan(span.copy()?)),
    }
}

// The rows of a reply, or how a reply without rows ends the read.
fn rows_in(alloc: Global, reply: Reply) -> Result<Records, ReadStep>
    ensures { AreRowsOf reply result }
{
    match reply {
        Reply::Found(None) => Ok(Records::new(alloc)),
        Reply::Found(Some(row)) => {
            let mut rows = Records::new(alloc);
            match rows.push(row) {
                Ok(()) => Ok(rows),
                Err(_) => Err(ReadStep::NoMemory),
            }
        }
        Reply::Rows(rows) => Ok(rows),
        Reply::Fault => Err(ReadStep::Faulted),
        _ => Err(ReadStep::NoMemory),
    }
}

// The recovery of an unresolved record. Most reads have none, so it lies on the heap.
fn recovery_of(alloc: Global, row: Record) -> Result<Held<Recover>, NoMemory>
    requires { is_unresolved row ≡ true }
    ensures rec { IfOk result (λ r. r.rec ≡ row) }
    ensures meta { IfOk result (λ r. checked row.columns ≡ Ok r.meta) }
    ensures phase { IfOk result (λ r. r.phase ≡ Look) }
{
    Held::new(alloc, Recover::new(alloc, row)?)
}

// Goes on with the rows that are left.
#[tactic(auto, using(crate::proofs::Firm::open_unresolved, crate::proofs::Firm::open_kind))]
fn go_on(
    alloc: Global,
    images: &mut Records,
    left: &mut VecDeque<Record>,
    recover: &mut Option<Held<Recover>>,
) -> ReadStep
    ensures step { result ≢ ReadStep.NoMemory → result ≡ read_result (settle_lem images.old left.old.items) }
    ensures after { result ≡ ReadStep.More → stage_in recover.new images.new left.new.items ≡ settle_lem images.old left.old.items }
    ensures open { result ≡ ReadStep.More → IsSome recover.new }
{
    match settle(alloc, images, left) {
        Ok(Settled::All) => ReadStep::Images(mem::replace(images, Records::new(alloc))),
        Ok(Settled::Open(row)) => match recovery_of(alloc, row) {
            Ok(recovery) => {
                *recover = Some(recovery);
                ReadStep::More
            }
            Err(_) => ReadStep::NoMemory,
        },
        Ok(Settled::Bad(key)) => ReadStep::BadRecord(key),
        Err(_) => ReadStep::NoMemory,
    }
}

// The record that is resolved may still be decided by its transaction.
fn busy(recover: &Option<Held<Recover>>, id: TxId, at: i64) -> ReadStep
    ensures { result ≢ ReadStep.NoMemory → IsSomeAnd recover.now (λ r. result ≡ ReadStep.Busy r.rec.key id at) }
{
    match recover {
        Some(recovery) => match recovery.get().key().copy() {
            Ok(key) => ReadStep::Busy(key, id, at),
            Err(_) => ReadStep::NoMemory,
        },
        None => ReadStep::NoMemory,
    }
}

// Goes on with what became of the record that is resolved.
fn resolved(
    alloc: Global,
    images: &mut Records,
    left: &mut VecDeque<Record>,
    recover: &mut Option<Held<Recover>>,
    step: RecoverStep,
) -> ReadStep
    requires { IsSome recover.old }
    ensures step { IsSomeAnd recover.old (λ r. result ≢ ReadStep.NoMemory → result ≡ read_result (resolved_lem images.old r.rec r.meta left.old.items (r.phase, step))) }
    ensures after { IsSomeAnd recover.old (λ r. result ≡ ReadStep.More → stage_in recover.new images.new left.new.items ≡ resolved_lem images.old r.rec r.meta left.old.items (r.phase, step)) }
    ensures open { result ≡ ReadStep.More → IsSome recover.new }
{
    match step {
        RecoverStep::More => ReadStep::More,
        RecoverStep::Image(None) => go_on(alloc, images, left, recover),
        RecoverStep::Image(Some(image)) => match images.push(image) {
            Ok(()) => go_on(alloc, images, left, recover),
            Err(_) => ReadStep::NoMemory,
        },
        RecoverStep::Busy(id, at) => busy(recover, id, at),
        RecoverStep::Faulted => ReadStep::Faulted,
        RecoverStep::BadRecord(key) => ReadStep::BadRecord(key),
        RecoverStep::NoMemory => ReadStep::NoMemory,
    }
}

// The phase after a step.
fn phase_after(step: &ReadStep) -> Phase
    ensures begun { result ≢ Phase.Asking }
    ensures more { step.now ≡ ReadStep.More → result ≡ Phase.Resolving }
    ensures open { result ≡ Phase.Resolving → step.now ≡ ReadStep.More }
    ensures ended { step.now ≢ ReadStep.More → result ≡ Phase.Ended }
{
    match step {
        ReadStep::More => Phase::Resolving,
        _ => Phase::Ended,
    }
}

impl ReadPhases {
    /// A read of one key, or of a span.
    pub fn new(alloc: Global, access: &Access) -> Result<ReadPhases, NoMemory>
        ensures { IfOk result (λ r. r ≡ record { request = request_of access.now; stage = Asking }) }
    {
        Ok(ReadPhases {
            alloc,
            request: request(access)?,
            images: Records::new(alloc),
            left: VecDeque::new(alloc),
            recover: None,
            phase: Phase::Asking,
        })
    }

    /// The call that is pending; none where it has ended. Takes no memory.
    pub fn request(&self) -> Option<&Request>
        ensures { option_copied result ≡ read_pending self.now }
    {
        match (self.phase, &self.recover) {
            (Phase::Asking, _) => Some(&self.request),
            (Phase::Resolving, Some(recover)) => recover.get().request(),
            _ => None,
        }
    }

    /// Takes the reply to the pending call, at a moment from 0 to 2^53. It may be out of memory at any call.
    pub fn take(&mut self, reply: Reply, now: i64) -> ReadStep
        requires pending { IsSome (read_pending self.old) }
        requires reply { CanGet (read_pending self.old) reply }
        ensures step { result ≢ ReadStep.NoMemory → result ≡ read_result (read_step self.old.stage now reply) }
        ensures after { result ≡ ReadStep.More → self.new ≡ record self.old { stage = read_step self.old.stage now reply } }
        ensures ended { result ≢ ReadStep.More → read_pending self.new ≡ None }
    {
        match self.phase {
            Phase::Asking => self.rows_took(reply),
            Phase::Resolving => self.recovery_took(reply, now),
            Phase::Ended => ReadStep::NoMemory,
        }
    }

    // Takes the reply that has the rows.
    fn rows_took(&mut self, reply: Reply) -> ReadStep
        requires at { IsAsking self.old.stage }
        ensures step { result ≢ ReadStep.NoMemory → result ≡ read_result (answered reply) }
        ensures after { result ≡ ReadStep.More → self.new ≡ record self.old { stage = answered reply } }
        ensures ended { result ≢ ReadStep.More → read_pending self.new ≡ None }
    {
        let step = match rows_in(self.alloc, reply) {
            Ok(rows) => {
                self.left = VecDeque::from(rows.into_vec());
                go_on(
                    self.alloc,
                    &mut self.images,
                    &mut self.left,
                    &mut self.recover,
                )
            }
            Err(step) => step,
        };
        self.phase = phase_after(&step);
        step
    }

    // Takes a reply to a call of a recovery.
    fn recovery_took(&mut self, reply: Reply, now: i64) -> ReadStep
        requires at { IsResolving self.old.stage }
        requires pending { IsSome (read_pending self.old) }
        requires reply { CanGet (read_pending self.old) reply }
        ensures step { result ≢ ReadStep.NoMemory → result ≡ read_result (read_step self.old.stage now reply) }
        ensures after { result ≡ ReadStep.More → self.new ≡ record self.old { stage = read_step self.old.stage now reply } }
        ensures ended { result ≢ ReadStep.More → read_pending self.new ≡ None }
    {
        let step = match &mut self.recover {
            Some(recovery) => recovery.get_mut().take(reply, now),
            None => RecoverStep::NoMemory,
        };
        let step = resolved(
            self.alloc,
            &mut self.images,
            &mut self.left,
            &mut self.recover,
            step,
        );
        self.phase = phase_after(&step);
        step
    }
}
