//! The invariant of every moment, in terms of the model: which records are in the stores, and which event put them.
ghost use Rattle.std.specs.Prelude.{◌≡◌, ◌≤◌, Some, false, take, ℕ};
ghost use Rattle.sdb_model.specs.Explained.{AbortedRemoved, CommittedRecorded, PreparedPersists, ReadsCurrent, RowsFinal, UnchangedResolved, UnresolvedPrepared, WritesPersist};
ghost use Rattle.sdb_model.specs.Follows.{in_flight};
ghost use Rattle.sdb_model.specs.InFlight.{FlightsExplained};
ghost use Rattle.sdb_model.specs.Transactions.{prepares};
ghost use Rattle.sdb_types.specs.declared.record.Request.{Request};
ghost use Rattle.law_protocol.specs.Explained.{RecordedAnswered};
ghost use Rattle.law_protocol.specs.Lawful.{id};
ghost use Rattle.law_protocol.specs.Flight.{HasForm, StaysAllowed};
ghost use Rattle.law_protocol.specs.Runs.{AgreesOnOpenRun, DataTables, DelayedCall, IsFaithfulRun, IsMomentOf, IsRecordedAt, HasReadSets, RunInOrder, WasDelayedBy, events_in, contents_at, history_at};

/// At each moment a record in state COMMITTED names a transaction that is recorded by then.
pub fn committed_recorded()
    ensures { (r : RunInOrder) (d : DataTables) (n : ℕ) → IsMomentOf r n → CommittedRecorded d.catalog r.places (contents_at r n) }
{}

/// At each moment there is nothing of a transaction whose row is ABORTED but what it prepared.
pub fn aborted_is_removed()
    ensures { (r : RunInOrder) (d : DataTables) (n : ℕ) → IsMomentOf r n → AbortedRemoved d.catalog r.places (contents_at r n) }
{}

/// A row of the coordinator's table that there is at a moment is there at each later one.
pub fn rows_persist()
    ensures { (r : RunInOrder) (early late : ℕ) → early ≤ late → IsMomentOf r late → RowsFinal r.places (contents_at r early) (contents_at r late) }
{}

/// At each moment an unresolved record was put by a prepare of the transaction that it names, over what it is rolled back to.
pub fn unresolved_is_prepared()
    ensures { (r : RunInOrder) (d : DataTables) (n : ℕ) → IsMomentOf r n → UnresolvedPrepared d.catalog r.places (events_in r) r.opening r.moments n }
{}

/// At each moment what a transaction without a row has prepared is there.
pub fn prepared_record_persists()
    ensures { (r : RunInOrder) (d : DataTables) (n : ℕ) → IsMomentOf r n → PreparedPersists d.catalog r.places (events_in r) r.opening r.moments n }
{}

/// Whatever a read found unchanged, each transaction whose prepare of that key was put before has its row by then.
pub fn unchanged_is_resolved()
    ensures { (r : RunInOrder) (d : DataTables) → UnchangedResolved d.catalog r.places (events_in r) r.opening r.moments }
{}

/// After the events of a run whose parts are those that the texts say, each key that a recorded transaction wrote shows what it
/// left there, or what a later one did.
pub fn writes_persist()
    ensures { (r : RunInOrder) (d : DataTables) → IsFaithfulRun r → WritesPersist d.catalog r.places (events_in r) r.opening r.moments }
{}

/// And where its plan's read set is what its statements read, each version that it read is of the last writer before its point.
pub fn reads_are_current()
    ensures { (r : RunInOrder) (d : DataTables) → IsFaithfulRun r → HasReadSets r → ReadsCurrent d.catalog r.places (events_in r) r.opening r.moments }
{}

/// At each moment a request in flight is of a call that was delayed; it is what the call's action asks, by the plan of its transaction;
/// and what it needs to take effect is so.
pub fn delayed_stays_allowed()
    ensures in_flight { (r : RunInOrder) (n k : ℕ) (q : Request) → IsMomentOf r n → in_flight k (take n (events_in r)) ≡ Some q → WasDelayedBy r n q }
    ensures form { (r : RunInOrder) (n : ℕ) (d : DelayedCall r n) → IsMomentOf r n → HasForm r.plan d.request d.action }
    ensures allowed { (r : RunInOrder) (n : ℕ) (d : DelayedCall r n) → IsMomentOf r n → StaysAllowed r.plan (history_at r n) d.action }
{}

/// At each moment every prepare that a recorded transaction asked was seen and applied, so none was delayed.
pub fn recorded_was_prepared()
    ensures answered { (r : RunInOrder) (n : ℕ) → IsMomentOf r n → RecordedAnswered (history_at r n) }
    ensures none_delayed { (r : RunInOrder) (n t : ℕ) (d : DelayedCall r n) → IsMomentOf r n → IsRecordedAt r n t → prepares (id t) d.request ≡ false }
{}

/// At each moment, in terms of the model: what is put, rolled or removed by a request in flight, and that each prepare of a recorded
/// transaction was seen and applied.
pub fn flights_are_explained()
    ensures { (r : RunInOrder) (d : DataTables) → IsFaithfulRun r → HasReadSets r → AgreesOnOpenRun r → FlightsExplained d.catalog r.places (events_in r) r.opening r.moments }
{}
