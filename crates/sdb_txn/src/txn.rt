//! A transaction.
ghost use Rattle.std.specs.Prelude.{◌≡◌, ◌≢◌, ◌≤◌, ◌<◌, All, OnOk, OnErr, IfOk, IfSome, IsSome, Err, length, slice_get, take, true, false};
ghost use Rattle.std.specs.Option.{option_copied};
ghost use Rattle.sdb_types.specs.Contents.{IsWellFormed};
ghost use Rattle.sdb_record.specs.declared.access.Access.TheVariants as access;
ghost use Rattle.sdb_record.specs.Rolls.{IsWrite};
ghost use Rattle.sdb_phases.specs.Commit.{preparing};
ghost use Rattle.sdb_phases.specs.CommitLaws.{IsWork};
ghost use Rattle.sdb_phases.specs.Steps.{CanGet};
ghost use Rattle.sdb_txn.specs.Read.{Asking, read_result, read_step, request_of};
ghost use Rattle.sdb_snapshot.specs.Reads.{is_key_read};
ghost use Rattle.sdb_snapshot.specs.Written.{AreChanges, HaveKeysOnce, most_writes};
ghost use Rattle.sdb_snapshot.specs.Sets.{IsSetInvariant};
ghost use Rattle.sdb_snapshot.specs.Seen.{forgotten, is_scanned, mark_of, overlay, with_written};
ghost use Rattle.sdb_snapshot.specs.declared.write_set.WriteRefused.TheVariants as refused;
ghost use Rattle.sdb_txn.specs.Txn.{AreCallsCounted, CommitPost, EndPost, IfCommitting, IsCommitting, IsReading, IfReading, ImagesPost, IsBegun, IsLookedUp, IsUnread, KeyPost, ReadPost, SpanPost, begun, committing, idle, pending, pending_in, reading, work_of};
ghost use Rattle.sdb_txn.specs.Inside.{CanEnd, CanRecord, IsReadOf};

use crate::held::Held;
use crate::progress::{Progress, answered};
use crate::{CommitPhases, ReadPhases, ReadStep};
use sdb_record::{Access, Changes, Reads, Scans, Writes};
use sdb_snapshot::{Mark, NoteRefused, Snapshot, WriteRefused};
use sdb_types::{Duplicate, Key, NoMemory, Record, Records, Reply, Request, Span, TxId};
use std::alloc::Global;
use std::marker::Model;
use std::mem;

/// What a transaction does: nothing, a read, or its COMMIT; or it has ended.
#[derive(Drop)]
pub enum Doing {
    Idle,
    Read(Access, Held<ReadPhases>),
    Commit(Held<CommitPhases>),
    Over,
}

/// A transaction, from its BEGIN to its end.
pub struct Txn {
    alloc: Global,
    id: TxId,
    snapshot: Snapshot,
    doing: Doing,
}

// By hand: each drop is then one call, where a derived one is written out at each exit, with a call for each field.
impl Drop for Txn {
    fn drop(self) {
        let Txn {
            alloc: _,
            id: _,
            snapshot: _,
            doing: _,
        } = self;
    }
}

impl Model for Txn {
    ghost use Rattle.sdb_txn.specs.Txn.{TxnAt};
    ghost use Rattle.sdb_txn.specs.Inside.{IsTxn};

    ghost Value = { TxnAt };

    ghost view = { λ t. record { id = t.id; seen = t.snapshot; doing = t.doing } };

    ghost invariant = { λ t. IsTxn t.doing t.snapshot };
}

// The first of some records.
fn first(images: Records) -> Option<Record>
    ensures { result ≡ slice_get images 0 }
{
    let mut rows = images.into_vec();
    if rows.is_empty() {
        None
    } else {
        Some(rows.swap_remove(0))
    }
}

// A read, before its first call.
fn read_begun(alloc: Global, access: &Access) -> Result<Held<ReadPhases>, NoMemory>
    ensures { IfOk result (λ r. r ≡ record { request = request_of access.now; stage = Asking }) }
{
    Held::new(alloc, ReadPhases::new(alloc, access)?)
}

// A COMMIT, before its first call.
fn commit_begun(
    alloc: Global,
    id: TxId,
    now: i64,
    writes: Writes,
    reads: Reads,
    scans: Scans,
) -> Result<Held<CommitPhases>, NoMemory>
    requires valid { All IsWrite writes }
    requires once { HaveKeysOnce writes }
    ensures work { IfOk result (λ c. c.work ≡ record { id = id; now = now; writes = writes; reads = reads; scans = scans }) }
    ensures stage { IfOk result (λ c. c.stage ≡ preparing c.work 0) }
{
    Held::new(
        alloc,
        CommitPhases::new(alloc, id, now, writes, reads, scans)?,
    )
}

// Hands the reply to the read that is under way.
fn read_on(doing: &mut Doing, reply: Reply, now: i64) -> ReadStep
    requires at { IsReading doing.old }
    requires pending { IsSome (pending_in doing.old) }
    requires reply { CanGet (pending_in doing.old) reply }
    ensures step { IfReading doing.old (λ a x. result ≢ ReadStep.NoMemory → result ≡ read_result (read_step x.stage now reply)) }
    ensures after { IfReading doing.old (λ a x. result ≡ ReadStep.More → doing.new ≡ Doing.Read a (record x { stage = read_step x.stage now reply })) }
    ensures same { IfReading doing.old (λ a x. IsReadOf a doing.new) }
{
    match doing {
        Doing::Read(_, read) => read.get_mut().take(reply, now),
        _ => ReadStep::NoMemory,
    }
}

impl Txn {
    /// A transaction that has read and written nothing.
    pub fn begin(alloc: Global, id: TxId) -> Txn
        ensures { result ≡ begun id }
    {
        Txn {
            alloc,
            id,
            snapshot: Snapshot::new(alloc),
            doing: Doing::Idle,
        }
    }

    pub fn id(&self) -> TxId
        ensures { result ≡ self.now.id }
    {
        self.id
    }

    /// Whether it may read, write and commit: no call is pending, and it hasn't ended. Takes no memory.
    pub fn is_idle(&self) -> bool
        ensures idle { result ≡ true → self.now.doing ≡ Doing.Idle }
        ensures busy { result ≡ false → self.now.doing ≢ Doing.Idle }
    {
        matches!(self.doing, Doing::Idle)
    }

    /// Whether a key was read: by a get, or as a row of a scan. Takes no memory.
    pub fn has_read(&self, key: &Key) -> bool
        ensures { result ≡ is_key_read self.now.seen.read_set key.now }
    {
        self.snapshot.lookup(key).is_some()
    }

    /// The call that is pending; none where nothing is done. Takes no memory.
    pub fn pending(&self) -> Option<&Request>
        ensures call { option_copied result ≡ pending self.now }
        ensures formed { IfSome result (λ request. IsWellFormed request.now) }
    {
        match &self.doing {
            Doing::Read(_, read) => read.get().request(),
            Doing::Commit(commit) => commit.get().request(),
            Doing::Idle | Doing::Over => None,
        }
    }

    // Begins a read that makes a call.
    fn read(&mut self, access: Access) -> Progress
        requires idle { self.old.doing ≡ Doing.Idle }
        requires unread { IsUnread self.old.seen access }
        ensures more { result ≡ Progress.More → self.new ≡ reading self.old access }
        ensures memory { result ≢ Progress.More → (result ≡ Progress.NoMemory) × (self.new ≡ self.old) }
    {
        match read_begun(self.alloc, &access) {
            Ok(read) => {
                self.doing = Doing::Read(access, read);
                Progress::More
            }
            Err(_) => Progress::NoMemory,
        }
    }

    /// Reads a key: its row at once where it was read or written, and else by a call.
    pub fn get(&mut self, key: Key) -> Progress
        requires idle { self.old.doing ≡ Doing.Idle }
        ensures known { is_key_read self.old.seen.read_set key ≡ true → IsLookedUp self.old (access.Get key) result self.new }
        ensures unknown { is_key_read self.old.seen.read_set key ≡ false → IsBegun self.old (access.Get key) result self.new }
    {
        if self.snapshot.lookup(&key).is_none() {
            return self.read(Access::Get(key));
        }
        match self.snapshot.overlay_key(&key) {
            Ok(rows) => Progress::Rows(rows),
            Err(_) => Progress::NoMemory,
        }
    }

    /// Reads a span: its rows at once where it was scanned, and else by a call.
    pub fn scan(&mut self, span: Span) -> Progress
        requires idle { self.old.doing ≡ Doing.Idle }
        ensures known { is_scanned self.old.seen.scans span ≡ true → IsLookedUp self.old (access.Scan span) result self.new }
        ensures unknown { is_scanned self.old.seen.scans span ≡ false → IsBegun self.old (access.Scan span) result self.new }
    {
        if !self.snapshot.scanned(&span) {
            return self.read(Access::Scan(span));
        }
        match self.snapshot.overlay_span(&span) {
            Ok(rows) => Progress::Rows(rows),
            Err(_) => Progress::NoMemory,
        }
    }

    /// Writes changes of keys that were read, in order: all or, where they are refused, none.
    pub fn write(&mut self, changes: Changes) -> Result<(), WriteRefused>
        requires idle { self.old.doing ≡ Doing.Idle }
        requires read { AreChanges self.old.seen.read_set changes }
        ensures ok { OnOk result (self.new ≡ record self.old { seen = with_written self.old.seen changes }) }
        ensures fits { OnOk result (length (with_written self.old.seen changes).writes ≤ most_writes) }
        ensures many { result ≡ Err refused.TooManyWrites → most_writes < length (with_written self.old.seen changes).writes }
        ensures err { OnErr result (self.new ≡ self.old) }
    {
        self.snapshot.write(changes)
    }

    /// How much it has read now. Takes no memory.
    pub fn mark(&self) -> Mark
        ensures mark { result ≡ mark_of self.now.seen }
        ensures kept { IsSetInvariant self.now.seen.read_set self.now.seen.writes }
    {
        self.snapshot.mark()
    }

    /// Forgets what was read after a mark, of which nothing was written. Takes no memory.
    pub fn forget(&mut self, mark: Mark)
        requires idle { self.old.doing ≡ Doing.Idle }
        requires kept { IsSetInvariant (take mark.read_set self.old.seen.read_set) self.old.seen.writes }
        ensures { self.new ≡ record self.old { seen = forgotten mark self.old.seen } }
    {
        self.snapshot.forget(mark);
    }

    /// Takes the COMMIT, at a moment from 0 to 2^53. All requests that it may make are made now: where that is out of memory the
    /// transaction ends before any call.
    #[tactic(auto, using(crate::proofs::Counts::counted))]
    pub fn commit(&mut self, now: i64) -> Progress
        requires idle { self.old.doing ≡ Doing.Idle }
        ensures more { result ≡ Progress.More → self.new ≡ committing self.old now }
        ensures counted { IsWork (work_of self.old now) → AreCallsCounted (work_of self.old now) }
        ensures memory { result ≢ Progress.More → (result ≡ Progress.NoMemory) × (self.new.doing ≡ Doing.Over) }
        ensures same { self.new.id ≡ self.old.id }
    {
        let snapshot = mem::replace(&mut self.snapshot, Snapshot::new(self.alloc));
        let (writes, reads, scans) = snapshot.into_parts();
        match commit_begun(self.alloc, self.id, now, writes, reads, scans) {
            Ok(commit) => {
                self.doing = Doing::Commit(commit);
                Progress::More
            }
            Err(_) => {
                self.doing = Doing::Over;
                Progress::NoMemory
            }
        }
    }

    /// Ends the transaction without a call.
    pub fn rollback(self) {}

    /// Takes the reply to the pending call, at a moment from 0 to 2^53. A read may be out of memory at any call, and has then recorded
    /// nothing; a COMMIT only as its phases say.
    pub fn advance(&mut self, reply: Reply, now: i64) -> Progress
        requires pending { IsSome (pending self.old) }
        requires reply { CanGet (pending self.old) reply }
        ensures read { IfReading self.old.doing (λ a x. ReadPost self.old a x reply now result self.new) }
        ensures commit { IfCommitting self.old.doing (λ c. CommitPost self.old c reply result self.new) }
    {
        match &self.doing {
            Doing::Read(_, _) => self.read_took(reply, now),
            Doing::Commit(_) => self.commit_took(reply),
            Doing::Idle | Doing::Over => Progress::NoMemory,
        }
    }

    // Takes the reply to a call of a read.
    fn read_took(&mut self, reply: Reply, now: i64) -> Progress
        requires at { IsReading self.old.doing }
        requires pending { IsSome (pending self.old) }
        requires reply { CanGet (pending self.old) reply }
        ensures { IfReading self.old.doing (λ a x. ReadPost self.old a x reply now result self.new) }
    {
        let step = read_on(&mut self.doing, reply, now);
        if step == ReadStep::More {
            return Progress::More;
        }
        match mem::replace(&mut self.doing, Doing::Idle) {
            Doing::Read(access, _) => self.read_ended(&access, step),
            _ => Progress::NoMemory,
        }
    }

    // A read has ended.
    fn read_ended(&mut self, access: &Access, step: ReadStep) -> Progress
        requires idle { self.old.doing ≡ Doing.Idle }
        requires valid { CanEnd self.old.seen access.now step }
        ensures memory { result ≡ Progress.NoMemory → self.new ≡ self.old }
        ensures answered { result ≢ Progress.NoMemory → EndPost self.old access.now step result self.new }
    {
        match step {
            ReadStep::Images(images) => self.record_read(access, images),
            ReadStep::Busy(key, id, at) => Progress::Busy(key, id, at),
            ReadStep::Faulted => Progress::Faulted,
            ReadStep::BadRecord(key) => Progress::BadRecord(key),
            ReadStep::More | ReadStep::NoMemory => Progress::NoMemory,
        }
    }

    // Takes the reply to a call of a COMMIT.
    fn commit_took(&mut self, reply: Reply) -> Progress
        requires at { IsCommitting self.old.doing (λ c. Unit {0}) }
        requires pending { IsSome (pending self.old) }
        requires reply { CanGet (pending self.old) reply }
        ensures { IfCommitting self.old.doing (λ c. CommitPost self.old c reply result self.new) }
    {
        let answer = match &mut self.doing {
            Doing::Commit(commit) => commit.get_mut().take(reply),
            _ => None,
        };
        if answer.is_some() {
            self.doing = Doing::Over;
        }
        answered(answer)
    }

    // Returns the rows that are seen where a read was recorded, or forgets what was recorded after the mark.
    fn show(&mut self, access: &Access, mark: Mark) -> Progress
        requires idle { self.old.doing ≡ Doing.Idle }
        requires kept { IsSetInvariant (take mark.read_set self.old.seen.read_set) self.old.seen.writes }
        ensures rows { result ≢ Progress.NoMemory → result ≡ Progress.Rows (overlay access.now self.old.seen) }
        ensures same { result ≢ Progress.NoMemory → self.new ≡ self.old }
        ensures memory { result ≡ Progress.NoMemory → self.new ≡ record self.old { seen = forgotten mark self.old.seen } }
    {
        let rows = match access {
            Access::Get(key) => self.snapshot.overlay_key(key),
            Access::Scan(span) => self.snapshot.overlay_span(span),
        };
        match rows {
            Ok(rows) => Progress::Rows(rows),
            Err(_) => {
                self.snapshot.forget(mark);
                Progress::NoMemory
            }
        }
    }

    // A key that was read differs: the transaction has ended.
    fn conflict(&mut self, key: Key, found: Option<Record>) -> Progress
        ensures answered { result ≡ Progress.Conflict key found }
        ensures over { self.new ≡ record self.old { doing = Doing.Over } }
    {
        self.doing = Doing::Over;
        Progress::Conflict(key, found)
    }

    // Records the record of a key, and returns the row that is seen then.
    fn note_key(&mut self, whole: &Access, key: &Key, images: Records) -> Progress
        requires idle { self.old.doing ≡ Doing.Idle }
        requires of { whole.now ≡ access.Get key.now }
        requires valid { CanRecord self.old.seen (access.Get key.now) images }
        ensures memory { result ≡ Progress.NoMemory → self.new ≡ self.old }
        ensures answered { result ≢ Progress.NoMemory → KeyPost self.old key.now images result self.new }
    {
        let mark = self.snapshot.mark();
        let Ok(as_read) = key.copy() else {
            return Progress::NoMemory;
        };
        match self.snapshot.note_get(as_read, first(images)) {
            Ok(()) => self.show(whole, mark),
            Err(_) => Progress::NoMemory,
        }
    }

    // Records the records of a span, and returns the rows that are seen then. A key that differs ends the transaction.
    fn note_span(&mut self, whole: &Access, span: &Span, images: Records) -> Progress
        requires idle { self.old.doing ≡ Doing.Idle }
        requires of { whole.now ≡ access.Scan span.now }
        requires valid { CanRecord self.old.seen (access.Scan span.now) images }
        ensures memory { result ≡ Progress.NoMemory → self.new ≡ self.old }
        ensures answered { result ≢ Progress.NoMemory → SpanPost self.old span.now images result self.new }
    {
        let mark = self.snapshot.mark();
        let Ok(as_read) = span.copy() else {
            return Progress::NoMemory;
        };
        match self.snapshot.note_scan(as_read, images) {
            Ok(()) => self.show(whole, mark),
            Err(NoteRefused::Differs(key, found)) => self.conflict(key, found),
            Err(NoteRefused::NoMemory) => Progress::NoMemory,
        }
    }

    fn record_read(&mut self, access: &Access, images: Records) -> Progress
        requires idle { self.old.doing ≡ Doing.Idle }
        requires valid { CanRecord self.old.seen access.now images }
        ensures memory { result ≡ Progress.NoMemory → self.new ≡ self.old }
        ensures answered { result ≢ Progress.NoMemory → ImagesPost self.old access.now images result self.new }
    {
        match access {
            Access::Get(key) => self.note_key(access, key, images),
            Access::Scan(span) => self.note_span(access, span, images),
        }
    }
}
