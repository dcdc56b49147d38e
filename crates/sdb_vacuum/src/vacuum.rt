//! A VACUUM under way.
ghost use Rattle.std.specs.Prelude.{◌≡◌, ◌≢◌, ◌<◌, ℤ, IfOk, IfSome, IsSome, None, Some, length, slice_get};
ghost use Rattle.std.specs.Option.{option_copied};
ghost use Rattle.sdb_types.specs.Contents.{IsWellFormed};
ghost use Rattle.sdb_phases.specs.Recover.{recover_next};
ghost use Rattle.sdb_phases.specs.Steps.{CanGet};
ghost use Rattle.sdb_vacuum.specs.Vacuum.{Gives, IsRemoving, IsResolving, IsScanning, begun, spans_of as spans_of_lem, vacuum_pending, vacuum_step};
ghost use Rattle.sdb_vacuum.specs.Inside.{IfRecovering, IsRecovering, doing_pending};

use crate::work::{Doing, VacuumStep, Work};
use sdb_recover::RecoverStep;
use sdb_schema::{Catalog, Table};
use sdb_types::{Duplicate, NoMemory, Reply, Request, Seq, Span};
use std::alloc::Global;
use std::collections::VecDeque;
use std::marker::Model;

/// A VACUUM under way: each table is scanned, in the order of names. Of its rows each unresolved one is resolved, by a recovery, and
/// each tombstone is removed, by a delete on condition that it is still there.
pub struct Vacuum {
    work: Work,
    doing: Doing,
}

// By hand: each drop is then one call, where a derived one is written out at each exit, with a call for each field.
impl Drop for Vacuum {
    fn drop(self) {
        let Vacuum { work: _, doing: _ } = self;
    }
}

impl Model for Vacuum {
    ghost use Rattle.sdb_vacuum.specs.Vacuum.{VacuumAt};
    ghost use Rattle.sdb_vacuum.specs.Inside.{IsDoing, at_of};

    ghost Value = { VacuumAt };

    ghost view = { λ v. at_of v.work v.doing };

    ghost invariant = { λ v. IsDoing v.doing };
}

// The i-th table of a catalog.
fn table_at(catalog: &Catalog, i: usize) -> &Table
    requires { i < length catalog.now }
    ensures { slice_get catalog.now i ≡ Some result.now }
{
    match catalog.at(i) {
        Some(table) => table,
        None => unreachable!(),
    }
}

// The whole of each table, in the order of names.
fn spans_of(alloc: Global, catalog: &Catalog) -> Result<Seq<Span>, NoMemory>
    ensures { IfOk result (λ spans. spans ≡ spans_of_lem catalog.now) }
{
    let mut spans = Seq::new(alloc);
    for i in 0..catalog.len() {
        spans.push(Span {
            table: table_at(catalog, i).name.copy()?,
            partition: None,
        })?;
    }
    Ok(spans)
}

// Hands the reply to the recovery that is under way.
fn recover_on(doing: &mut Doing, reply: Reply, now: i64) -> RecoverStep
    requires at { IsRecovering doing.old }
    requires pending { IsSome (doing_pending doing.old) }
    requires reply { CanGet (doing_pending doing.old) reply }
    ensures step { IfRecovering doing.old (λ r. result ≢ RecoverStep.NoMemory → result ≡ (recover_next r.rec r.meta r.phase now reply).1) }
    ensures after { IfRecovering doing.old (λ r. result ≡ RecoverStep.More → doing.new ≡ Doing.Resolving (record r { phase = (recover_next r.rec r.meta r.phase now reply).0 })) }
{
    match doing {
        Doing::Resolving(recover) => recover.take(reply, now),
        _ => RecoverStep::NoMemory,
    }
}

impl Vacuum {
    /// A VACUUM of all tables of a catalog, which has scanned none; over an empty catalog no call is pending.
    pub fn new(alloc: Global, catalog: &Catalog) -> Result<Vacuum, NoMemory>
        ensures { IfOk result (λ v. v ≡ begun catalog.now) }
    {
        let mut work = Work {
            alloc,
            spans: VecDeque::from(spans_of(alloc, catalog)?.into_vec()),
            left: VecDeque::new(alloc),
            removed: 0,
        };
        let next = work.next_table();
        Ok(Vacuum {
            work,
            doing: next.doing,
        })
    }

    /// The call that is pending; none where it has ended. Takes no memory.
    pub fn pending(&self) -> Option<&Request>
        ensures call { option_copied result ≡ vacuum_pending self.now }
        ensures formed { IfSome result (λ request. IsWellFormed request.now) }
    {
        match &self.doing {
            Doing::Scanning(call) => Some(call),
            Doing::Resolving(recover) => recover.request(),
            Doing::Removing(_, call) => Some(call),
            Doing::Over => None,
        }
    }

    /// Takes the reply to the pending call, at a moment from 0 to 2^53. It may be out of memory at any call.
    pub fn advance(&mut self, reply: Reply, now: i64) -> VacuumStep
        requires pending { IsSome (vacuum_pending self.old) }
        requires reply { CanGet (vacuum_pending self.old) reply }
        ensures step { Gives (vacuum_step self.old now reply) self.new result }
        ensures more { result ≡ VacuumStep.More → IsSome (vacuum_pending self.new) }
        ensures ended { result ≢ VacuumStep.More → vacuum_pending self.new ≡ None }
    {
        match &self.doing {
            Doing::Scanning(_) => self.scan_took(reply),
            Doing::Resolving(_) => self.recovery_took(reply, now),
            Doing::Removing(_, _) => self.removal_took(reply),
            Doing::Over => VacuumStep::NoMemory,
        }
    }

    // Takes the reply to a scan.
    fn scan_took(&mut self, reply: Reply) -> VacuumStep
        requires at { IsScanning self.old.stage }
        ensures step { (now : ℤ) → Gives (vacuum_step self.old now reply) self.new result }
        ensures more { result ≡ VacuumStep.More → IsSome (vacuum_pending self.new) }
        ensures ended { result ≢ VacuumStep.More → vacuum_pending self.new ≡ None }
    {
        let next = self.work.scanned(reply);
        self.doing = next.doing;
        next.step
    }

    // Takes the reply to a call of a recovery.
    fn recovery_took(&mut self, reply: Reply, now: i64) -> VacuumStep
        requires at { IsResolving self.old.stage }
        requires pending { IsSome (vacuum_pending self.old) }
        requires reply { CanGet (vacuum_pending self.old) reply }
        ensures step { Gives (vacuum_step self.old now reply) self.new result }
        ensures more { result ≡ VacuumStep.More → IsSome (vacuum_pending self.new) }
        ensures ended { result ≢ VacuumStep.More → vacuum_pending self.new ≡ None }
    {
        match recover_on(&mut self.doing, reply, now) {
            RecoverStep::More => VacuumStep::More,
            step => {
                let next = self.work.resolved(step);
                self.doing = next.doing;
                next.step
            }
        }
    }

    // Takes the reply to the delete of a tombstone.
    fn removal_took(&mut self, reply: Reply) -> VacuumStep
        requires at { IsRemoving self.old.stage }
        ensures step { (now : ℤ) → Gives (vacuum_step self.old now reply) self.new result }
        ensures more { result ≡ VacuumStep.More → IsSome (vacuum_pending self.new) }
        ensures ended { result ≢ VacuumStep.More → vacuum_pending self.new ≡ None }
    {
        let next = self.work.deleted(reply);
        self.doing = next.doing;
        next.step
    }
}
