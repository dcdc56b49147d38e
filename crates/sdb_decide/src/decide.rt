//! The deciding put, and what its reply leads to.
ghost use Rattle.std.specs.Prelude.{◌≡◌, IfOk, IsSome};
ghost use Rattle.std.specs.Option.{option_copied};
ghost use Rattle.sdb_record.specs.Coordinator.{coordinator_key_of};
ghost use Rattle.sdb_phases.specs.Work.{look_of};
ghost use Rattle.sdb_phases.specs.Steps.{CanGet, decide_request, decide_request_at, decide_next, followed};
ghost use Rattle.sdb_phases.specs.declared.step.DecidePhase.TheVariants.{Put, Look, Abort, Again};

use sdb_phases::{DecidePhase, DecideStep, decisions};
use sdb_record::{Decided, Decision, decision_of};
use sdb_types::{NoMemory, Record, Reply, Request, TxId};
use std::alloc::Global;
use std::marker::Model;

/// The decision on a transaction.
pub struct Decide {
    alloc: Global,
    id: TxId,
    moment: i64,
    phase: DecidePhase,
    put: Request,
    look: Request,
    abort: Request,
}

// By hand: each drop is then one call, where a derived one is written out at each exit, with a call for each field.
impl Drop for Decide {
    fn drop(self) {
        let Decide {
            alloc: _,
            id: _,
            moment: _,
            phase: _,
            put: _,
            look: _,
            abort: _,
        } = self;
    }
}

impl Model for Decide {
    ghost use Rattle.sdb_phases.specs.Steps.{Decides};
    ghost use Rattle.sdb_decide.specs.Inside.{HasCalls};

    ghost Value = { Decides };

    ghost view = { λ d. record { id = d.id; moment = d.moment; phase = d.phase } };

    ghost invariant = { HasCalls };
}

// What a coordinator row at the transaction's key says, where ABORTED gives that answer. Where memory is wanting the row is
// refused in any case.
fn follow(alloc: Global, id: TxId, row: Record, aborted: DecideStep) -> DecideStep
    requires { row.key ≡ coordinator_key_of id }
    ensures { result ≡ followed id aborted row }
{
    match decision_of(alloc, &row) {
        Ok(
            Decided {
                decision: Decision::Committed,
                ..
            },
        ) => DecideStep::Committed,
        Ok(
            Decided {
                decision: Decision::Aborted,
                ..
            },
        ) => aborted,
        Err(_) => DecideStep::BadRecord(row.into_key()),
    }
}

impl Decide {
    /// The decision on a transaction whose COMMIT was accepted at a moment from 0 to 2^53.
    pub fn new(alloc: Global, id: TxId, now: i64) -> Result<Decide, NoMemory>
        ensures { IfOk result (λ d. d ≡ record { id = id; moment = now; phase = Put }) }
    {
        let (put, look, abort) = decisions(alloc, id, now)?;
        Ok(Decide {
            alloc,
            id,
            moment: now,
            phase: DecidePhase::Put,
            put,
            look,
            abort,
        })
    }

    /// The call that is pending; none where it has ended. Takes no memory.
    pub fn request(&self) -> Option<&Request>
        ensures { option_copied result ≡ decide_request self.now }
    {
        match self.phase {
            DecidePhase::Put => Some(&self.put),
            DecidePhase::Look | DecidePhase::Again => Some(&self.look),
            DecidePhase::Abort => Some(&self.abort),
            DecidePhase::Ended => None,
        }
    }

    /// Takes the reply to the pending call. Its answer is the same whether or not there is memory.
    pub fn take(&mut self, reply: Reply) -> DecideStep
        requires pending { IsSome (decide_request self.old) }
        requires reply { CanGet (decide_request self.old) reply }
        ensures step { result ≡ (decide_next self.old.id self.old.phase reply).1 }
        ensures after { self.new ≡ record self.old { phase = (decide_next self.old.id self.old.phase reply).0 } }
    {
        let (phase, step) = match self.phase {
            DecidePhase::Put => put_took(self.alloc, self.id, self.moment, reply),
            DecidePhase::Look => look_took(self.alloc, self.id, reply),
            DecidePhase::Abort => abort_took(self.alloc, self.id, self.moment, reply),
            DecidePhase::Again => again_took(self.alloc, self.id, reply),
            DecidePhase::Ended => (DecidePhase::Ended, DecideStep::Unknown(self.id)),
        };
        self.phase = phase;
        step
    }
}

// The deciding put was answered.
fn put_took(alloc: Global, id: TxId, now: i64, reply: Reply) -> (DecidePhase, DecideStep)
    requires { CanGet (decide_request_at id now Put) reply }
    ensures { result ≡ decide_next id Put reply }
{
    match reply {
        Reply::Applied => (DecidePhase::Ended, DecideStep::Committed),
        Reply::NotMet(Some(row)) => {
            let step = follow(alloc, id, row, DecideStep::Expired(id));
            (DecidePhase::Ended, step)
        }
        Reply::Fault => (DecidePhase::Look, DecideStep::More),
        _ => (DecidePhase::Ended, DecideStep::NoMemory),
    }
}

// The first look was answered.
fn look_took(alloc: Global, id: TxId, reply: Reply) -> (DecidePhase, DecideStep)
    requires { CanGet (Some (look_of id)) reply }
    ensures { result ≡ decide_next id Look reply }
{
    match reply {
        Reply::Found(None) => (DecidePhase::Abort, DecideStep::More),
        Reply::Found(Some(row)) => {
            let step = follow(alloc, id, row, DecideStep::Expired(id));
            (DecidePhase::Ended, step)
        }
        _ => (DecidePhase::Ended, DecideStep::Unknown(id)),
    }
}

// The put of ABORTED was answered.
fn abort_took(alloc: Global, id: TxId, now: i64, reply: Reply) -> (DecidePhase, DecideStep)
    requires { CanGet (decide_request_at id now Abort) reply }
    ensures { result ≡ decide_next id Abort reply }
{
    match reply {
        Reply::Applied => (DecidePhase::Ended, DecideStep::Faulted),
        Reply::NotMet(Some(row)) => {
            let step = follow(alloc, id, row, DecideStep::Expired(id));
            (DecidePhase::Ended, step)
        }
        Reply::Fault => (DecidePhase::Again, DecideStep::More),
        _ => (DecidePhase::Ended, DecideStep::Unknown(id)),
    }
}

// The second look was answered.
fn again_took(alloc: Global, id: TxId, reply: Reply) -> (DecidePhase, DecideStep)
    requires { CanGet (Some (look_of id)) reply }
    ensures { result ≡ decide_next id Again reply }
{
    match reply {
        Reply::Found(Some(row)) => {
            let step = follow(alloc, id, row, DecideStep::Faulted);
            (DecidePhase::Ended, step)
        }
        _ => (DecidePhase::Ended, DecideStep::Unknown(id)),
    }
}
