//! Laws over more events than one, and of traces in order.
ghost use Rattle.std.specs.Prelude.{◌≡◌, ◌≢◌, ◌<◌, Some, unwrap_or, ℕ};
ghost use Rattle.sdb_types.specs.declared.key.Key.{Key};
ghost use Rattle.sdb_record.specs.declared.coordinator.Decision.TheVariants.{Committed};
ghost use Rattle.sdb_model.specs.Transactions.{last_prepare};
ghost use Rattle.law_protocol.specs.Changed.{Changed, changes_in};
ghost use Rattle.law_protocol.specs.Explained.{IsDenied, IsAnsweredCommitted, StoodBefore, newest_first};
ghost use Rattle.law_protocol.specs.Lawful.{id, protocol_state};
ghost use Rattle.law_protocol.specs.Runs.{BeginsAfterAnswered, EventInRun, IsCommitStarted, LawfulRun, PreparesKey, RunInOrder, TraceInOrder, events_in, history_of, run_with, contents_before, protocol_state_in};
ghost use Rattle.law_protocol.specs.Trace.{IsTraced, closing, has_effect};

/// The protocol's state depends on the events alone: the history has the same state whatever the trace.
pub fn protocol_state_is_decidable()
    ensures { (r : LawfulRun) → protocol_state r.past ≡ (history_of r).protocol }
{}

/// An event changed each key that its request asks to change, where each condition held, or none of them; and no other key.
pub fn events_change_all_or_none()
    ensures { (e : EventInRun) → Changed e.places (changes_in e.event.event) (contents_before e) e.after (has_effect e.places e.event.event (contents_before e) e.after) }
{}

/// Before a prepare that took effect there was what it is rolled back to.
pub fn stood_before()
    ensures { (e : EventInRun) (t : ℕ) (k : Key) → PreparesKey e t k → StoodBefore e.plan e.places (contents_before e) t k }
{}

/// Who was answered Committed is recorded.
pub fn answered_is_recorded()
    ensures { (r : LawfulRun) (t : ℕ) → IsAnsweredCommitted r.past t → (history_of r).row t ≡ Some Committed }
{}

/// Whose COMMIT was answered, but neither Committed nor Unknown, is not recorded, nor ever will be.
pub fn denied_is_not_recorded()
    ensures { (r : LawfulRun) (t : ℕ) → IsDenied r.past t → (history_of r).row t ≢ Some Committed }
{}

/// A recorded transaction that began after another was answered Committed has a later point.
pub fn real_time()
    ensures { (e : EventInRun) (t u : ℕ) → BeginsAfterAnswered e t u → (history_of (run_with e)).protocol.point t < (history_of (run_with e)).protocol.point u }
{}

/// A trace of events in order is one of the events newest first, with the same end.
pub fn trace_turned()
    ensures traced { (r : TraceInOrder) → IsTraced r.places r.opening (newest_first r.labelled) (newest_first r.moments) }
    ensures end { (r : TraceInOrder) → closing r.opening (newest_first r.moments) ≡ r.end }
{}

/// A transaction's point is the event of its last prepare that was seen and applied, or else the event that took its COMMIT.
pub fn point_is_last_prepare()
    ensures { (r : RunInOrder) (t : ℕ) → IsCommitStarted r t → (protocol_state_in r).point t ≡ unwrap_or (last_prepare (events_in r) (id t)) ((protocol_state_in r).accepted_at t) }
{}
