//! The recovery of one record.
ghost use Rattle.std.specs.Prelude.{◌≡◌, true, IfOk, IsSome};
ghost use Rattle.std.specs.Option.{option_copied};
ghost use Rattle.sdb_types.specs.declared.record.Record.{Record as RecordValue};
ghost use Rattle.sdb_record.specs.Meta.{checked, is_unresolved, is_moment};
ghost use Rattle.sdb_record.specs.Parts.{before_record};
ghost use Rattle.sdb_record.specs.Rolls.{forward_record};
ghost use Rattle.sdb_record.specs.Coordinator.{coordinator_key_of};
ghost use Rattle.sdb_phases.specs.Work.{look_of, abort_of};
ghost use Rattle.sdb_phases.specs.Steps.{CanGet};
ghost use Rattle.sdb_phases.specs.Recover.{recover_request, recover_request_at, recover_next, recover_forward, recover_back, row_followed, undecided, Gives};
ghost use Rattle.sdb_phases.specs.declared.step.RecoverPhase.TheVariants.{Look, Again, Back};
ghost use Rattle.sdb_recover.specs.Inside.{IsMade, record_put, rolled};

use sdb_phases::{RecoverPhase, RecoverStep, abort_row, look};
use sdb_record::{
    Decided, Decision, Meta, committed_image, decision_of, expired, meta_of, rolled_forward,
};
use sdb_types::{Condition, Duplicate, Key, NoMemory, Record, Reply, Request};
use std::alloc::Global;
use std::marker::Model;

/// The recovery of one unresolved record, which a read has found.
pub struct Recover {
    alloc: Global,
    rec: Record,
    meta: Meta,
    phase: RecoverPhase,
    look: Request,
    back: Request,
    base: Option<Record>,
    made: Option<Request>,
}

// By hand: each drop is then one call, where a derived one is written out at each exit, with a call for each field.
impl Drop for Recover {
    fn drop(self) {
        let Recover {
            alloc: _,
            rec: _,
            meta: _,
            phase: _,
            look: _,
            back: _,
            base: _,
            made: _,
        } = self;
    }
}

impl Model for Recover {
    ghost use Rattle.sdb_phases.specs.Recover.{Recovers};
    ghost use Rattle.sdb_recover.specs.Inside.{IsRecovering};

    ghost Value = { Recovers };

    ghost view = { λ r. record { rec = r.rec; meta = r.meta; phase = r.phase } };

    ghost invariant = { IsRecovering };
}

// Where a reply leads: the phase, the answer, and the call made for the phase.
#[derive(Drop)]
struct Next {
    phase: RecoverPhase,
    step: RecoverStep,
    made: Option<Request>,
}

fn goes_on(phase: RecoverPhase) -> Next
    ensures { result ≡ record { phase = phase; step = RecoverStep.More; made = None } }
{
    Next {
        phase,
        step: RecoverStep::More,
        made: None,
    }
}

fn ends(step: RecoverStep) -> Next
    ensures { result ≡ record { phase = RecoverPhase.Ended; step = step; made = None } }
{
    Next {
        phase: RecoverPhase::Ended,
        step,
        made: None,
    }
}

// The roll forward of a record, by a row made at a moment from 0 to 2^53.
fn forward(alloc: Global, rec: &Record, meta: &Meta, created_at: i64) -> Result<Request, NoMemory>
    ensures { IfOk result (λ call. call ≡ recover_forward rec.now meta.now created_at) }
{
    let image = rolled_forward(alloc, rec, created_at)?;
    Ok(Request::PutIf(image, Condition::Version(meta.id, meta.state)))
}

// The roll back of a record, to what was there before.
fn back(rec: &Record, meta: &Meta, base: &Option<Record>) -> Result<Request, NoMemory>
    requires { base.now ≡ before_record rec.now }
    ensures { IfOk result (λ call. call ≡ recover_back rec.now meta.now) }
{
    let condition = Condition::Version(meta.id, meta.state);
    match base {
        Some(base) => Ok(Request::PutIf(base.copy()?, condition)),
        None => Ok(Request::DeleteIf(rec.key.copy()?, condition)),
    }
}

// What was at a record's key before.
fn base_of(alloc: Global, rec: &Record) -> Result<Option<Record>, NoMemory>
    requires { is_unresolved rec.now ≡ true }
    ensures { IfOk result (λ base. base ≡ before_record rec.now) }
{
    committed_image(alloc, rec, None)
}

fn go_forward(alloc: Global, rec: &Record, meta: &Meta, created_at: i64) -> Next
    ensures gives { Gives (RecoverPhase.Forward created_at, RecoverStep.More) result.phase result.step }
    ensures made { IsMade rec.now meta.now result.phase result.made }
{
    match forward(alloc, rec, meta, created_at) {
        Ok(call) => Next {
            phase: RecoverPhase::Forward(created_at),
            step: RecoverStep::More,
            made: Some(call),
        },
        Err(_) => ends(RecoverStep::NoMemory),
    }
}

// A coordinator row at the key of the record's transaction is followed.
fn follow(alloc: Global, rec: &Record, meta: &Meta, row: Record) -> Next
    requires { row.key ≡ coordinator_key_of meta.now.id }
    ensures gives { Gives (row_followed meta.now row) result.phase result.step }
    ensures made { IsMade rec.now meta.now result.phase result.made }
{
    match decision_of(alloc, &row) {
        Ok(
            Decided {
                decision: Decision::Committed,
                created_at,
            },
        ) => go_forward(alloc, rec, meta, created_at),
        Ok(
            Decided {
                decision: Decision::Aborted,
                ..
            },
        ) => goes_on(RecoverPhase::Back),
        Err(_) => ends(RecoverStep::BadRecord(row.into_key())),
    }
}

// There is no row: ABORTED is put once the record has expired.
fn give_up(alloc: Global, meta: &Meta, now: i64) -> Next
    ensures gives { Gives (undecided meta.now now) result.phase result.step }
    ensures made { (rec : RecordValue) → IsMade rec meta.now result.phase result.made }
{
    if !expired(meta.prepared_at, now) {
        return ends(RecoverStep::Busy(meta.id, meta.prepared_at));
    }
    match abort_row(alloc, meta.id, now) {
        Ok(call) => Next {
            phase: RecoverPhase::Abort(now),
            step: RecoverStep::More,
            made: Some(call),
        },
        Err(_) => ends(RecoverStep::NoMemory),
    }
}

// The first look was answered.
fn look_next(alloc: Global, rec: &Record, meta: &Meta, reply: Reply, now: i64) -> Next
    requires { CanGet (Some (look_of meta.now.id)) reply }
    ensures gives { Gives (recover_next rec.now meta.now Look now reply) result.phase result.step }
    ensures made { IsMade rec.now meta.now result.phase result.made }
{
    match reply {
        Reply::Found(Some(row)) => follow(alloc, rec, meta, row),
        Reply::Found(None) => give_up(alloc, meta, now),
        Reply::Fault => ends(RecoverStep::Faulted),
        _ => ends(RecoverStep::NoMemory),
    }
}

// The put of ABORTED was answered.
fn abort_next(alloc: Global, rec: &Record, meta: &Meta, moment: i64, reply: Reply, now: i64) -> Next
    requires { CanGet (Some (abort_of meta.now.id moment)) reply }
    ensures gives { Gives (recover_next rec.now meta.now (RecoverPhase.Abort moment) now reply) result.phase result.step }
    ensures made { IsMade rec.now meta.now result.phase result.made }
{
    match reply {
        Reply::Applied => goes_on(RecoverPhase::Back),
        Reply::NotMet(Some(row)) => follow(alloc, rec, meta, row),
        Reply::Fault => goes_on(RecoverPhase::Again),
        _ => ends(RecoverStep::NoMemory),
    }
}

// The second look was answered.
fn again_next(alloc: Global, rec: &Record, meta: &Meta, reply: Reply, now: i64) -> Next
    requires { CanGet (Some (look_of meta.now.id)) reply }
    ensures gives { Gives (recover_next rec.now meta.now Again now reply) result.phase result.step }
    ensures made { IsMade rec.now meta.now result.phase result.made }
{
    match reply {
        Reply::Found(Some(row)) => follow(alloc, rec, meta, row),
        Reply::Found(None) | Reply::Fault => ends(RecoverStep::Faulted),
        _ => ends(RecoverStep::NoMemory),
    }
}

// The record that a call puts.
fn put_record(made: Option<Request>) -> Option<Record>
    ensures { result ≡ record_put made }
{
    match made {
        Some(Request::PutIf(rec, _)) => Some(rec),
        _ => None,
    }
}

// The roll was answered: the record was rolled to this image, or something else was there.
fn roll_step(image: Option<Record>, reply: Reply) -> RecoverStep
    ensures { result ≡ rolled image reply }
{
    match reply {
        Reply::Applied | Reply::NotMet(_) => RecoverStep::Image(image),
        Reply::Fault => RecoverStep::Faulted,
        _ => RecoverStep::NoMemory,
    }
}

impl Recover {
    /// The recovery of this record.
    pub fn new(alloc: Global, rec: Record) -> Result<Recover, NoMemory>
        requires { is_unresolved rec ≡ true }
        ensures rec { IfOk result (λ r. r.rec ≡ rec) }
        ensures meta { IfOk result (λ r. checked rec.columns ≡ Ok r.meta) }
        ensures phase { IfOk result (λ r. r.phase ≡ Look) }
    {
        let Ok(meta) = meta_of(alloc, &rec) else {
            return Err(NoMemory);
        };
        let base = base_of(alloc, &rec)?;
        let undo = back(&rec, &meta, &base)?;
        let look = look(alloc, meta.id)?;
        Ok(Recover {
            alloc,
            look,
            back: undo,
            rec,
            meta,
            phase: RecoverPhase::Look,
            base,
            made: None,
        })
    }

    /// The call that is pending; none where it has ended. Takes no memory.
    pub fn request(&self) -> Option<&Request>
        ensures { option_copied result ≡ recover_request self.now }
    {
        match self.phase {
            RecoverPhase::Look | RecoverPhase::Again => Some(&self.look),
            RecoverPhase::Abort(_) | RecoverPhase::Forward(_) => self.made.as_ref(),
            RecoverPhase::Back => Some(&self.back),
            RecoverPhase::Ended => None,
        }
    }

    /// The key of the record.
    pub fn key(&self) -> &Key
        ensures { result.now ≡ self.now.rec.key }
    {
        &self.rec.key
    }

    /// Takes the reply to the pending call, at a moment from 0 to 2^53.
    pub fn take(&mut self, reply: Reply, now: i64) -> RecoverStep
        requires pending { IsSome (recover_request self.old) }
        requires reply { CanGet (recover_request self.old) reply }
        ensures step { Gives (recover_next self.old.rec self.old.meta self.old.phase now reply) self.new.phase result }
        ensures rest { self.new ≡ record self.old { phase = self.new.phase } }
    {
        match self.phase {
            RecoverPhase::Look => self.look_took(reply, now),
            RecoverPhase::Abort(moment) => self.abort_took(moment, reply, now),
            RecoverPhase::Again => self.again_took(reply, now),
            RecoverPhase::Forward(created_at) => self.forward_took(created_at, reply),
            RecoverPhase::Back => self.back_took(reply),
            RecoverPhase::Ended => RecoverStep::NoMemory,
        }
    }

    fn look_took(&mut self, reply: Reply, now: i64) -> RecoverStep
        requires phase { self.old.phase ≡ Look }
        requires reply { CanGet (recover_request self.old) reply }
        ensures step { Gives (recover_next self.old.rec self.old.meta Look now reply) self.new.phase result }
        ensures rest { self.new ≡ record self.old { phase = self.new.phase } }
    {
        let next = look_next(self.alloc, &self.rec, &self.meta, reply, now);
        self.phase = next.phase;
        self.made = next.made;
        next.step
    }

    fn abort_took(&mut self, moment: i64, reply: Reply, now: i64) -> RecoverStep
        requires phase { self.old.phase ≡ RecoverPhase.Abort moment }
        requires reply { CanGet (recover_request self.old) reply }
        ensures step { Gives (recover_next self.old.rec self.old.meta (RecoverPhase.Abort moment) now reply) self.new.phase result }
        ensures rest { self.new ≡ record self.old { phase = self.new.phase } }
    {
        let next = abort_next(self.alloc, &self.rec, &self.meta, moment, reply, now);
        self.phase = next.phase;
        self.made = next.made;
        next.step
    }

    fn again_took(&mut self, reply: Reply, now: i64) -> RecoverStep
        requires phase { self.old.phase ≡ Again }
        requires reply { CanGet (recover_request self.old) reply }
        ensures step { Gives (recover_next self.old.rec self.old.meta Again now reply) self.new.phase result }
        ensures rest { self.new ≡ record self.old { phase = self.new.phase } }
    {
        let next = again_next(self.alloc, &self.rec, &self.meta, reply, now);
        self.phase = next.phase;
        self.made = next.made;
        next.step
    }

    fn forward_took(&mut self, created_at: i64, reply: Reply) -> RecoverStep
        requires phase { self.old.phase ≡ RecoverPhase.Forward created_at }
        ensures step { result ≡ rolled (Some (forward_record self.old.rec created_at)) reply }
        ensures ended { self.new ≡ record self.old { phase = RecoverPhase.Ended } }
    {
        let image = put_record(self.made.take());
        self.phase = RecoverPhase::Ended;
        roll_step(image, reply)
    }

    fn back_took(&mut self, reply: Reply) -> RecoverStep
        requires phase { self.old.phase ≡ Back }
        ensures step { result ≡ rolled (before_record self.old.rec) reply }
        ensures ended { self.new ≡ record self.old { phase = RecoverPhase.Ended } }
    {
        let image = self.base.take();
        self.phase = RecoverPhase::Ended;
        roll_step(image, reply)
    }
}
