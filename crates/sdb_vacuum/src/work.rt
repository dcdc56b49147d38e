//! What a VACUUM has left to do, and what it does next.
ghost use Rattle.std.specs.Prelude.{◌≡◌, ◌≢◌, ◌+◌, IfOk, IsSome, Some};
ghost use Rattle.sdb_txn.specs.Read.{kind_of};
ghost use Rattle.sdb_vacuum.specs.Vacuum.{Gives, Removing, answered, first_of, with_call, next_of_row, next_table as next_table_lem, removal_answered, resolved_to, tombstone_or};
ghost use Rattle.sdb_vacuum.specs.Rows.{open_first};
ghost use Rattle.sdb_txn.specs.declared.row_kinds.Sort.TheVariants as sort;
ghost use Rattle.sdb_vacuum.specs.Inside.{IsDoing, at_of, doing_pending};
ghost use Rattle.sdb_txn.specs.Rows.{sort_of};
ghost use Rattle.sdb_record.specs.Rolls.{remove_request};

use crate::rows::{Found, first};
use sdb_record::{is_tombstone, meta_of};
use sdb_recover::{Recover, RecoverStep};
use sdb_types::{Condition, Duplicate, Key, NoMemory, Record, Reply, Request, Span, State};
use std::alloc::Global;
use std::collections::VecDeque;

/// What became of a call of a VACUUM.
#[derive(Debug, Drop, PartialEq, Eq)]
pub enum VacuumStep {
    /// Another call is pending.
    More,
    /// All tables are done, and so many tombstones were removed.
    Count(u64),
    Faulted,
    /// The record or the coordinator row at this key isn't well formed.
    BadRecord(Key),
    NoMemory,
}

/// What a VACUUM does: it asks for the rows of a table, it resolves a record, it removes a tombstone, or it makes no call.
#[derive(Drop)]
pub enum Doing {
    Scanning(Request),
    Resolving(Recover),
    Removing(Record, Request),
    Over,
}

/// What a VACUUM does next, and what it answers.
#[derive(Drop)]
pub struct Next {
    pub doing: Doing,
    pub step: VacuumStep,
}

/// The tables that a VACUUM hasn't scanned, the rows of the last scan that are left, and how many tombstones it has removed.
pub struct Work {
    pub alloc: Global,
    pub spans: VecDeque<Span>,
    pub left: VecDeque<Record>,
    pub removed: u64,
}

// By hand: each drop is then one call, where a derived one is written out at each exit, with a call for each field.
impl Drop for Work {
    fn drop(self) {
        let Work {
            alloc: _,
            spans: _,
            left: _,
            removed: _,
        } = self;
    }
}

fn ends(step: VacuumStep) -> Next
    ensures { result ≡ record { doing = Doing.Over; step = step } }
{
    Next {
        doing: Doing::Over,
        step,
    }
}

// The delete of a tombstone, on condition that it is still there.
#[tactic(auto, using(crate::proofs::Firm::writer_of))]
fn removal(alloc: Global, tombstone: &Record) -> Result<Request, NoMemory>
    ensures { IfOk result (λ call. remove_request tombstone.now ≡ Some call) }
{
    match meta_of(alloc, tombstone) {
        Ok(meta) => Ok(Request::DeleteIf(
            tombstone.key.copy()?,
            Condition::Version(meta.id, State::Committed),
        )),
        Err(_) => Err(NoMemory),
    }
}

impl Work {
    // Goes on with the next table.
    pub fn next_table(&mut self) -> Next
        ensures at { at_of self.new result.doing ≡ (next_table_lem self.old.spans.items self.old.removed).0 }
        ensures step { result.step ≡ (next_table_lem self.old.spans.items self.old.removed).1 }
        ensures doing { IsDoing result.doing }
        ensures more { result.step ≡ VacuumStep.More → IsSome (doing_pending result.doing) }
        ensures ended { result.step ≢ VacuumStep.More → result.doing ≡ Doing.Over }
    {
        match self.spans.pop_front() {
            Some(span) => Next {
                doing: Doing::Scanning(Request::Scan(span)),
                step: VacuumStep::More,
            },
            None => ends(VacuumStep::Count(self.removed)),
        }
    }

    // Removes a tombstone.
    fn remove(&self, tombstone: Record) -> Next
        ensures next { Gives (with_call self.now.spans.items self.now.removed (Removing tombstone self.now.left.items)) (at_of self.now result.doing) result.step }
        ensures doing { IsDoing result.doing }
        ensures more { result.step ≡ VacuumStep.More → IsSome (doing_pending result.doing) }
        ensures ended { result.step ≢ VacuumStep.More → result.doing ≡ Doing.Over }
    {
        match removal(self.alloc, &tombstone) {
            Ok(call) => Next {
                doing: Doing::Removing(tombstone, call),
                step: VacuumStep::More,
            },
            Err(_) => ends(VacuumStep::NoMemory),
        }
    }

    // Resolves a record.
    #[tactic(auto, using(sdb_txn::proofs::Public::open_unresolved, sdb_txn::proofs::Public::open_kind))]
    fn resolve(&self, row: Record) -> Next
        requires { sort_of (kind_of row) ≡ sort.Open }
        ensures next { Gives (next_of_row self.now.spans.items self.now.removed (open_first (kind_of row) row self.now.left.items)) (at_of self.now result.doing) result.step }
        ensures doing { IsDoing result.doing }
        ensures more { result.step ≡ VacuumStep.More → IsSome (doing_pending result.doing) }
        ensures ended { result.step ≢ VacuumStep.More → result.doing ≡ Doing.Over }
    {
        match Recover::new(self.alloc, row) {
            Ok(recover) => Next {
                doing: Doing::Resolving(recover),
                step: VacuumStep::More,
            },
            Err(_) => ends(VacuumStep::NoMemory),
        }
    }

    // Goes on with the rows that are left, and then with the next table.
    fn go_on(&mut self) -> Next
        ensures next { Gives (next_of_row self.old.spans.items self.old.removed (first_of self.old.left.items)) (at_of self.new result.doing) result.step }
        ensures doing { IsDoing result.doing }
        ensures more { result.step ≡ VacuumStep.More → IsSome (doing_pending result.doing) }
        ensures ended { result.step ≢ VacuumStep.More → result.doing ≡ Doing.Over }
    {
        match first(self.alloc, &mut self.left) {
            Ok(Found::Nothing) => self.next_table(),
            Ok(Found::Tombstone(row)) => self.remove(row),
            Ok(Found::Unresolved(row)) => self.resolve(row),
            Ok(Found::Malformed(key)) => ends(VacuumStep::BadRecord(key)),
            Err(_) => ends(VacuumStep::NoMemory),
        }
    }

    /// Goes on from the reply to a scan.
    pub fn scanned(&mut self, reply: Reply) -> Next
        ensures next { Gives (answered self.old.spans.items self.old.removed reply) (at_of self.new result.doing) result.step }
        ensures doing { IsDoing result.doing }
        ensures more { result.step ≡ VacuumStep.More → IsSome (doing_pending result.doing) }
        ensures ended { result.step ≢ VacuumStep.More → result.doing ≡ Doing.Over }
    {
        match reply {
            Reply::Rows(rows) => {
                self.left = VecDeque::from(rows.into_vec());
                self.go_on()
            }
            Reply::Fault => ends(VacuumStep::Faulted),
            _ => ends(VacuumStep::NoMemory),
        }
    }

    // Removes the image of a record where it is a tombstone, and else goes on.
    fn remove_or(&mut self, image: Record) -> Next
        ensures next { Gives (tombstone_or self.old.spans.items self.old.removed self.old.left.items image) (at_of self.new result.doing) result.step }
        ensures doing { IsDoing result.doing }
        ensures more { result.step ≡ VacuumStep.More → IsSome (doing_pending result.doing) }
        ensures ended { result.step ≢ VacuumStep.More → result.doing ≡ Doing.Over }
    {
        if is_tombstone(&image) {
            self.remove(image)
        } else {
            self.go_on()
        }
    }

    /// Goes on from the end of a recovery.
    pub fn resolved(&mut self, step: RecoverStep) -> Next
        ensures next { Gives (resolved_to self.old.spans.items self.old.removed self.old.left.items step) (at_of self.new result.doing) result.step }
        ensures doing { IsDoing result.doing }
        ensures more { result.step ≡ VacuumStep.More → IsSome (doing_pending result.doing) }
        ensures ended { result.step ≢ VacuumStep.More → result.doing ≡ Doing.Over }
    {
        match step {
            RecoverStep::Image(Some(image)) => self.remove_or(image),
            RecoverStep::Image(None) | RecoverStep::Busy(_, _) => self.go_on(),
            RecoverStep::Faulted => ends(VacuumStep::Faulted),
            RecoverStep::BadRecord(key) => ends(VacuumStep::BadRecord(key)),
            RecoverStep::More | RecoverStep::NoMemory => ends(VacuumStep::NoMemory),
        }
    }

    // Counts a tombstone that was removed. A VACUUM that has removed 2^64 - 1 tombstones counts as out of memory.
    fn count(&mut self) -> Next
        ensures next { Gives (next_of_row self.old.spans.items (self.old.removed + 1) (first_of self.old.left.items)) (at_of self.new result.doing) result.step }
        ensures doing { IsDoing result.doing }
        ensures more { result.step ≡ VacuumStep.More → IsSome (doing_pending result.doing) }
        ensures ended { result.step ≢ VacuumStep.More → result.doing ≡ Doing.Over }
    {
        match self.removed.checked_add(1) {
            Some(removed) => {
                self.removed = removed;
                self.go_on()
            }
            None => ends(VacuumStep::NoMemory),
        }
    }

    /// Goes on from the reply to the delete of a tombstone.
    pub fn deleted(&mut self, reply: Reply) -> Next
        ensures next { Gives (removal_answered self.old.spans.items self.old.removed self.old.left.items reply) (at_of self.new result.doing) result.step }
        ensures doing { IsDoing result.doing }
        ensures more { result.step ≡ VacuumStep.More → IsSome (doing_pending result.doing) }
        ensures ended { result.step ≢ VacuumStep.More → result.doing ≡ Doing.Over }
    {
        match reply {
            Reply::Applied => self.count(),
            Reply::NotMet(_) => self.go_on(),
            Reply::Fault => ends(VacuumStep::Faulted),
            _ => ends(VacuumStep::NoMemory),
        }
    }
}
