//! Which store a table lies on changes nothing of a run but the names of the stores in its calls.
ghost use Rattle.std.specs.Prelude.{◌≡◌};
ghost use Rattle.sdb_types.specs.Contents.{after, reply_to};
ghost use Rattle.sdb_model.specs.Rows.{Name};
ghost use Rattle.sdb_model.specs.Serial.{IsRun};
ghost use Rattle.sdb_model.specs.Form.{script_with_places};
ghost use Rattle.law_protocol.specs.Spread.{CallOnMany, HasTraceOnMany, HasTraceOnOne, HoldAs, RelocatedRun, TraceOnMany, TraceOnOne, relocated_outcome};

/// A run on one store, whose events agree with several stores too, and leave in them what the one store holds, is a run on
/// these: its calls go to the stores of their tables, and its order, its answers and its rows stay.
pub fn runs_on_many_stores()
    ensures run { (r : RelocatedRun) → IsRun (script_with_places r.script r.places) r.opening r.closing (relocated_outcome r.at r.outcome) }
{}

/// Each list of events that agrees with one store agrees with several that hold the same to begin with, and leaves the same in
/// them.
pub fn traces_on_many_stores()
    ensures traced { (t : TraceOnOne) → HasTraceOnMany t }
{}

/// Each list of events that agrees with several stores agrees, with its calls moved there, with one that holds the same to begin
/// with of the tables of the run, whatever else the several hold; and what they hold of these tables in the end is what it
/// holds.
pub fn traces_on_one_store()
    ensures traced { (t : TraceOnMany) (name : Name) → HasTraceOnOne t name }
{}

/// A call that was seen, and found memory, is answered as by the one store, and leaves the same.
pub fn calls_on_many_stores()
    ensures called { (c : CallOnMany) → (c.reply ≡ reply_to c.request c.held) × HoldAs c.catalog c.places c.now (after c.request c.held) }
{}
