//! A COMMIT under way: its phases, one after another.
ghost use Rattle.std.specs.Prelude.{◌≡◌, ◌<◌, ◌≤◌, All, IfOk, IfSome, IsSome, IsNone, Some, is_some, length, nat_lt, false};
ghost use Rattle.std.specs.Option.{option_copied};
ghost use Rattle.sdb_types.specs.Contents.{IsWellFormed};
ghost use Rattle.sdb_snapshot.specs.Written.{HaveKeysOnce};
ghost use Rattle.sdb_record.specs.Meta.{is_moment};
ghost use Rattle.sdb_record.specs.Rolls.{IsWrite};
ghost use Rattle.sdb_phases.specs.Steps.{CanGet, validate_request};
ghost use Rattle.sdb_phases.specs.Commit.{pending, preparing as preparing_lem, back as back_lem, forward as forward_lem, step};
ghost use Rattle.sdb_phases.specs.declared.step.AbortPhase.TheVariants.{Idle, Row, Rolling};
ghost use Rattle.sdb_txn.specs.Phases.{IsNext, ended_at};
ghost use Rattle.sdb_txn.specs.CommitInside.{IsPreparing, IsChecking, IsDeciding, IsForward, IsUndoing, first};

use sdb_decide::{Abort, Commit, Decide, DecideStep};
use sdb_phases::{Outcome, PrepareStep, ValidateStep};
use sdb_prepare::Prepare;
use sdb_record::{Reads, Scans, Writes, grouped};
use sdb_types::{NoMemory, Reply, Request, TxId};
use sdb_validate::Validate;
use std::alloc::Global;
use std::marker::Model;

// The phase that asks the pending call.
#[derive(Clone, Copy)]
enum Phase {
    Prepare,
    Validate,
    Decide,
    Forward,
    Abort,
    Ended,
}

/// A COMMIT under way. All requests that it may make are made when it is accepted, so that from then on no call needs memory, but
/// for the key of a conflict that an extra read finds.
pub struct CommitPhases {
    id: TxId,
    moment: i64,
    writes: Writes,
    reads: Reads,
    scans: Scans,
    prepare: Prepare,
    validate: Validate,
    decide: Decide,
    commit: Commit,
    abort: Abort,
    answer: Option<Outcome>,
    phase: Phase,
}

// By hand: each drop is then one call, where a derived one is written out at each exit, with a call for each field.
impl Drop for CommitPhases {
    fn drop(self) {
        let CommitPhases {
            id: _,
            moment: _,
            writes: _,
            reads: _,
            scans: _,
            prepare: _,
            validate: _,
            decide: _,
            commit: _,
            abort: _,
            answer: _,
            phase: _,
        } = self;
    }
}

impl Model for CommitPhases {
    ghost use Rattle.sdb_txn.specs.Phases.{CommitAt};
    ghost use Rattle.sdb_txn.specs.CommitInside.{commit_of, IsCommit};

    ghost Value = { CommitAt };

    ghost view = { commit_of };

    ghost invariant = { IsCommit };
}

// The phase of the first extra read, or of the decision where there is none.
fn checking(validate: &Validate) -> Phase
    ensures { result ≡ first false (is_some (validate_request validate.now)) }
{
    if validate.request().is_some() {
        Phase::Validate
    } else {
        Phase::Decide
    }
}

// The phase that a COMMIT of so many writes begins with.
fn first_phase(writes: usize, validate: &Validate) -> Phase
    ensures { result ≡ first (nat_lt 0 writes) (is_some (validate_request validate.now)) }
{
    if writes > 0 {
        Phase::Prepare
    } else {
        checking(validate)
    }
}

// The put of ABORTED is started, and then the roll back of the first so many writes; the answer is kept until they have ended.
fn stop(abort: &mut Abort, touched: usize, kept: &mut Option<Outcome>, answer: Outcome) -> Phase
    requires idle { abort.old.phase ≡ Idle }
    requires within { touched ≤ length abort.old.asks }
    ensures phase { result ≡ Phase.Abort }
    ensures kept { kept.new ≡ Some answer }
    ensures started { abort.new ≡ record abort.old { phase = Row; at = 0; upto = touched } }
{
    abort.start(touched, true);
    *kept = Some(answer);
    Phase::Abort
}

// The roll back of so many writes is started, without a put of ABORTED.
fn undo(abort: &mut Abort, count: usize, kept: &mut Option<Outcome>, answer: Outcome) -> Phase
    requires idle { abort.old.phase ≡ Idle }
    requires within { count ≤ length abort.old.asks }
    ensures phase { result ≡ Phase.Abort }
    ensures kept { kept.new ≡ Some answer }
    ensures started { abort.new ≡ record abort.old { phase = Rolling; at = 0; upto = count } }
{
    abort.start(count, false);
    *kept = Some(answer);
    Phase::Abort
}

impl CommitPhases {
    /// The COMMIT, accepted at a moment from 0 to 2^53, of a transaction with these writes, keys read by gets, and spans scanned.
    pub fn new(
        alloc: Global,
        id: TxId,
        now: i64,
        writes: Writes,
        reads: Reads,
        scans: Scans,
    ) -> Result<CommitPhases, NoMemory>
        requires valid { All IsWrite writes }
        requires once { HaveKeysOnce writes }
        ensures work { IfOk result (λ c. c.work ≡ record { id = id; now = now; writes = writes; reads = reads; scans = scans }) }
        ensures stage { IfOk result (λ c. c.stage ≡ preparing_lem c.work 0) }
    {
        let count = writes.len();
        let groups = grouped(&writes)?;
        let prepare = Prepare::new(alloc, &groups, id, now)?;
        let validate = Validate::new(alloc, &reads, &scans, &writes)?;
        let decide = Decide::new(alloc, id, now)?;
        let commit = Commit::new(alloc, &groups, id, now)?;
        let abort = Abort::new(alloc, &groups, id, now)?;
        let phase = first_phase(count, &validate);
        Ok(CommitPhases {
            id,
            moment: now,
            writes,
            reads,
            scans,
            prepare,
            validate,
            decide,
            commit,
            abort,
            answer: None,
            phase,
        })
    }

    /// The call that is pending; none where it has ended. Takes no memory.
    pub fn request(&self) -> Option<&Request>
        ensures call { option_copied result ≡ pending self.now.work self.now.stage }
        ensures formed { IfSome result (λ request. IsWellFormed request.now) }
    {
        match self.phase {
            Phase::Prepare => self.prepare.request(),
            Phase::Validate => self.validate.request(),
            Phase::Decide => self.decide.request(),
            Phase::Forward => self.commit.request(),
            Phase::Abort => self.abort.request(),
            Phase::Ended => None,
        }
    }

    /// Takes the reply to the pending call, and returns the answer where that ends the COMMIT. A conflict that an extra read finds
    /// may be answered as out of memory.
    pub fn take(&mut self, reply: Reply) -> Option<Outcome>
        requires pending { IsSome (pending self.old.work self.old.stage) }
        requires reply { CanGet (pending self.old.work self.old.stage) reply }
        ensures answer { result ≡ ended_at (step self.old.work self.old.stage reply) }
        ensures work { IsNone result → self.new.work ≡ self.old.work }
        ensures stage { IsNone result → IsNext self.old.work self.old.stage reply self.new.stage }
    {
        match self.phase {
            Phase::Prepare => self.prepare_took(reply),
            Phase::Validate => self.validate_took(reply),
            Phase::Decide => self.decide_took(reply),
            Phase::Forward => self.forward_took(reply),
            Phase::Abort => self.abort_took(reply),
            Phase::Ended => None,
        }
    }

    fn prepare_took(&mut self, reply: Reply) -> Option<Outcome>
        requires at { IsPreparing self.old.stage }
        requires pending { IsSome (pending self.old.work self.old.stage) }
        requires reply { CanGet (pending self.old.work self.old.stage) reply }
        ensures answer { result ≡ ended_at (step self.old.work self.old.stage reply) }
        ensures work { self.new.work ≡ self.old.work }
        ensures stage { self.new.stage ≡ step self.old.work self.old.stage reply }
    {
        let step = self.prepare.take(reply);
        let touched = self.prepare.touched();
        match step {
            PrepareStep::More => {}
            PrepareStep::Done => self.phase = checking(&self.validate),
            PrepareStep::Conflict(key, found) => {
                let answer = Outcome::Conflict(key, found);
                self.phase = stop(&mut self.abort, touched, &mut self.answer, answer);
            }
            PrepareStep::Faulted => {
                self.phase = stop(&mut self.abort, touched, &mut self.answer, Outcome::Faulted);
            }
            PrepareStep::NoMemory => {
                self.phase = stop(
                    &mut self.abort,
                    touched,
                    &mut self.answer,
                    Outcome::NoMemory,
                );
            }
        }
        None
    }

    fn validate_took(&mut self, reply: Reply) -> Option<Outcome>
        requires at { IsChecking self.old.stage }
        requires pending { IsSome (pending self.old.work self.old.stage) }
        requires reply { CanGet (pending self.old.work self.old.stage) reply }
        ensures answer { result ≡ ended_at (step self.old.work self.old.stage reply) }
        ensures work { self.new.work ≡ self.old.work }
        ensures stage { IsNext self.old.work self.old.stage reply self.new.stage }
    {
        let step = self.validate.take(reply);
        let count = self.writes.len();
        match step {
            ValidateStep::More => {}
            ValidateStep::Valid => self.phase = Phase::Decide,
            ValidateStep::Conflict(key, found) => {
                let answer = Outcome::Conflict(key, found);
                self.phase = stop(&mut self.abort, count, &mut self.answer, answer);
            }
            ValidateStep::Faulted => {
                self.phase = stop(&mut self.abort, count, &mut self.answer, Outcome::Faulted);
            }
            ValidateStep::NoMemory => {
                self.phase = stop(&mut self.abort, count, &mut self.answer, Outcome::NoMemory);
            }
        }
        None
    }

    // Rolls back what was prepared, or has ended where there is nothing.
    fn rolled_back(&mut self, answer: Outcome) -> Option<Outcome>
        requires at { IsDeciding self.old.stage }
        ensures answer { result ≡ ended_at (back_lem answer (length self.old.work.writes) 0) }
        ensures work { self.new.work ≡ self.old.work }
        ensures stage { IsNone result → self.new.stage ≡ back_lem answer (length self.old.work.writes) 0 }
    {
        let count = self.writes.len();
        if count > 0 {
            self.phase = undo(&mut self.abort, count, &mut self.answer, answer);
            return None;
        }
        self.phase = Phase::Ended;
        Some(answer)
    }

    // Rolls forward what was prepared, or has ended where there is nothing.
    fn rolled_forward(&mut self) -> Option<Outcome>
        requires at { IsDeciding self.old.stage }
        ensures answer { result ≡ ended_at (forward_lem self.old.work 0) }
        ensures work { self.new.work ≡ self.old.work }
        ensures stage { IsNone result → self.new.stage ≡ forward_lem self.old.work 0 }
    {
        if self.commit.request().is_some() {
            self.phase = Phase::Forward;
            return None;
        }
        self.phase = Phase::Ended;
        Some(Outcome::Committed)
    }

    fn decide_took(&mut self, reply: Reply) -> Option<Outcome>
        requires at { IsDeciding self.old.stage }
        requires pending { IsSome (pending self.old.work self.old.stage) }
        requires reply { CanGet (pending self.old.work self.old.stage) reply }
        ensures answer { result ≡ ended_at (step self.old.work self.old.stage reply) }
        ensures work { self.new.work ≡ self.old.work }
        ensures stage { IsNone result → self.new.stage ≡ step self.old.work self.old.stage reply }
    {
        match self.decide.take(reply) {
            DecideStep::More => None,
            DecideStep::Committed => self.rolled_forward(),
            DecideStep::Expired(id) => self.rolled_back(Outcome::Expired(id)),
            DecideStep::Faulted => self.rolled_back(Outcome::Faulted),
            DecideStep::Unknown(id) => {
                self.phase = Phase::Ended;
                Some(Outcome::Unknown(id))
            }
            DecideStep::BadRecord(key) => {
                self.phase = Phase::Ended;
                Some(Outcome::BadRecord(key))
            }
            DecideStep::NoMemory => {
                let count = self.writes.len();
                self.phase = stop(&mut self.abort, count, &mut self.answer, Outcome::NoMemory);
                None
            }
        }
    }

    fn forward_took(&mut self, reply: Reply) -> Option<Outcome>
        requires at { IsForward self.old.stage }
        requires pending { IsSome (pending self.old.work self.old.stage) }
        requires reply { CanGet (pending self.old.work self.old.stage) reply }
        ensures answer { result ≡ ended_at (step self.old.work self.old.stage reply) }
        ensures work { self.new.work ≡ self.old.work }
        ensures stage { IsNone result → self.new.stage ≡ step self.old.work self.old.stage reply }
    {
        if self.commit.take(reply) {
            return None;
        }
        self.phase = Phase::Ended;
        Some(Outcome::Committed)
    }

    fn abort_took(&mut self, reply: Reply) -> Option<Outcome>
        requires at { IsUndoing self.old.stage }
        requires pending { IsSome (pending self.old.work self.old.stage) }
        requires reply { CanGet (pending self.old.work self.old.stage) reply }
        ensures answer { result ≡ ended_at (step self.old.work self.old.stage reply) }
        ensures work { self.new.work ≡ self.old.work }
        ensures stage { IsNone result → self.new.stage ≡ step self.old.work self.old.stage reply }
    {
        if self.abort.take(reply) {
            return None;
        }
        self.phase = Phase::Ended;
        self.answer.take()
    }
}
