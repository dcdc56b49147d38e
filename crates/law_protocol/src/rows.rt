//! Laws of rows and records.
ghost use Rattle.std.specs.Prelude.{◌++◌};
ghost use Rattle.law_protocol.specs.Explained.{AbortedRemoved, CommittedIsCanon, PreparedPersists, RecordedIsPut, RowsFinal, SettledIsCommitted, UnresolvedPrepared};
ghost use Rattle.law_protocol.specs.Records.{ContainsHistory};
ghost use Rattle.law_protocol.specs.Runs.{LawfulRun, LongerRun, history_of, contents_of_run};
ghost use Rattle.law_protocol.specs.Trace.{closing};

/// The stores hold what the history says: at each key of a table of records, and of each row of a transaction.
pub fn stores_hold_history()
    ensures { (r : LawfulRun) → ContainsHistory r.plan r.places (history_of r) (contents_of_run r) }
{}

/// A row of the coordinator never changes.
pub fn rows_final()
    ensures { (r : LongerRun) → RowsFinal r.places (closing r.opening r.moments) (closing r.opening (r.more ++ r.moments)) }
{}

/// A transaction is recorded where its own put of COMMITTED took effect: after each of its prepares was seen and applied, at a
/// point between its BEGIN and that put.
pub fn recorded_is_put()
    ensures { (r : LawfulRun) → RecordedIsPut r.plan r.places (history_of r) (contents_of_run r) }
{}

/// A record that is not in state 3 is what its transaction prepared there.
pub fn unresolved_prepared()
    ensures { (r : LawfulRun) → UnresolvedPrepared r.plan r.places (history_of r) (contents_of_run r) }
{}

/// A record in state 3 is the one record that its transaction leaves at that key, and the transaction is recorded.
pub fn committed_is_canon()
    ensures { (r : LawfulRun) → CommittedIsCanon r.plan r.places (history_of r) (contents_of_run r) }
{}

/// A committed record to which a read comes by what was observed, be it itself, or rolled forward or back, is the one that a recorded
/// writer of the key leaves there.
pub fn settled_is_committed()
    ensures { (r : LawfulRun) → SettledIsCommitted r.plan (history_of r) r.past }
{}

/// What a transaction prepared stays while it has no row.
pub fn prepared_persists()
    ensures { (r : LawfulRun) → PreparedPersists r.plan r.places (history_of r) (contents_of_run r) }
{}

/// Nothing of an aborted transaction is in state 3, nor as a row before.
pub fn aborted_removed()
    ensures { (r : LawfulRun) → AbortedRemoved r.plan r.places (history_of r) (contents_of_run r) }
{}
