//! Putting ABORTED, and rolling back.
ghost use Rattle.std.specs.Prelude.{◌≡◌, ◌≤◌, ◌<◌, ◌+◌, ◌++◌, map, IfOk, OnOk, IsSome, length, slice_get, nat_lt};
ghost use Rattle.std.specs.Option.{option_copied};
ghost use Rattle.sdb_record.specs.Groups.{ungrouped};
ghost use Rattle.sdb_phases.specs.Work.{back_of, abort_of};
ghost use Rattle.sdb_phases.specs.Steps.{CanGet, abort_request, abort_next, abort_phase, aborts_more};
ghost use Rattle.sdb_phases.specs.declared.step.AbortPhase.TheVariants.{Idle};

use sdb_phases::{AbortPhase, abort_row, back};
use sdb_record::{Groups, Write, Writes};
use sdb_types::{NoMemory, Reply, Request, Seq, TxId};
use std::alloc::Global;
use std::marker::Model;

/// The put of the row ABORTED, and the roll back of each write that may have accepted effect, in order. What the roll backs are
/// answered has no effect.
pub struct Abort {
    row: Request,
    asks: Seq<Request>,
    phase: AbortPhase,
    at: usize,
    upto: usize,
}

// By hand: each drop is then one call, where a derived one is written out at each exit, with a call for each field.
impl Drop for Abort {
    fn drop(self) {
        let Abort {
            row: _,
            asks: _,
            phase: _,
            at: _,
            upto: _,
        } = self;
    }
}

impl Model for Abort {
    ghost use Rattle.std.specs.Prelude.{◌≤◌, length};
    ghost use Rattle.sdb_phases.specs.Steps.{Aborting};

    ghost Value = { Aborting };

    ghost view = { λ a. record { row = a.row; asks = a.asks; phase = a.phase; at = a.at; upto = a.upto } };

    ghost invariant = { λ a. a.upto ≤ length a.asks };
}

// The roll backs of a group, in order, behind others.
fn push_backs(asks: &mut Seq<Request>, group: &[Write], id: TxId) -> Result<(), NoMemory>
    ensures { OnOk result (asks.new ≡ asks.old ++ map (back_of id) group.now) }
{
    for write in group {
        asks.push(back(write, id)?)?;
    }
    Ok(())
}

// The roll back of each write, in the order of the groups.
fn backs(alloc: Global, groups: &[Writes], id: TxId) -> Result<Seq<Request>, NoMemory>
    ensures { IfOk result (λ asks. asks ≡ map (back_of id) (ungrouped groups.now)) }
{
    let mut asks = Seq::new(alloc);
    for group in groups {
        push_backs(&mut asks, group.as_slice(), id)?;
    }
    Ok(asks)
}

fn started(with_row: bool) -> AbortPhase
    ensures { result ≡ abort_phase with_row }
{
    if with_row {
        AbortPhase::Row
    } else {
        AbortPhase::Rolling
    }
}

impl Abort {
    /// The abort of a transaction with these groups of writes, whose COMMIT was accepted at a moment from 0 to 2^53.
    pub fn new(alloc: Global, groups: &Groups, id: TxId, now: i64) -> Result<Abort, NoMemory>
        ensures { IfOk result (λ a. a ≡ record { row = abort_of id now; asks = map (back_of id) (ungrouped groups.now); phase = Idle; at = 0; upto = 0 }) }
    {
        Ok(Abort {
            row: abort_row(alloc, id, now)?,
            asks: backs(alloc, groups.as_slice(), id)?,
            phase: AbortPhase::Idle,
            at: 0,
            upto: 0,
        })
    }

    /// Starts: the row ABORTED is put where that is asked for, and then the first so many writes are rolled back. Takes no
    /// memory.
    pub fn start(&mut self, touched: usize, with_row: bool)
        requires idle { self.old.phase ≡ Idle }
        requires within { touched ≤ length self.old.asks }
        ensures { self.new ≡ record self.old { phase = abort_phase with_row; at = 0; upto = touched } }
    {
        self.phase = started(with_row);
        self.at = 0;
        self.upto = touched;
    }

    /// The call that is pending; none where it has ended or wasn't started. Takes no memory.
    pub fn request(&self) -> Option<&Request>
        ensures { option_copied result ≡ abort_request self.now }
    {
        match self.phase {
            AbortPhase::Idle => None,
            AbortPhase::Row => Some(&self.row),
            AbortPhase::Rolling => {
                if self.at < self.upto {
                    self.asks.at(self.at)
                } else {
                    None
                }
            }
        }
    }

    /// Takes the reply to the pending call. Whether a call is left. Takes no memory.
    pub fn take(&mut self, reply: Reply) -> bool
        requires pending { IsSome (abort_request self.old) }
        requires reply { CanGet (abort_request self.old) reply }
        ensures left { result ≡ aborts_more self.new }
        ensures after { self.new ≡ abort_next self.old reply }
    {
        match (self.phase, reply) {
            (AbortPhase::Row, Reply::Applied | Reply::NotMet(_)) => {
                self.phase = AbortPhase::Rolling;
                self.at = 0;
            }
            (AbortPhase::Row, _) => {
                self.phase = AbortPhase::Rolling;
                self.at = self.upto;
            }
            (AbortPhase::Rolling, _) => self.at += 1,
            (AbortPhase::Idle, _) => {}
        }
        match self.phase {
            AbortPhase::Idle => false,
            AbortPhase::Row => true,
            AbortPhase::Rolling => self.at < self.upto,
        }
    }
}
