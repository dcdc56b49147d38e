//! Turns: each event of a client preserves the invariant of all clients.
ghost use Rattle.std.specs.Prelude.{ℕ, ℤ, List};
ghost use Rattle.sdb_model.specs.declared.event.Event.{Event};
ghost use Rattle.sdb_model.specs.declared.event.Event.TheVariants as event;
ghost use Rattle.law_protocol.specs.History.{Other, Stops};
ghost use Rattle.law_protocol.specs.Lawful.{labelled_with, ends_with};
ghost use Rattle.law_clients.specs.Knowledge.{AnsweredRead, VacuumReplyAt, CommitReply, Knowledge, MayBegin, OpenClient, Landing, StartsCommitWith, TurnsAt, TurnsTo, commit_next, landing_labelled, read_after, read_ended, read_labelled, vacuum_after, vacuum_labelled, with_opened};
ghost use Rattle.law_clients.specs.Reads.{work_of};
ghost use Rattle.law_clients.specs.System.{IsBy, IsCommit, IsQuiet, Resting, Stopped, begin_labelled, commit_left, commit_labelled};

/// BEGIN is answered Done to a client without an open transaction, while no client that hasn't stopped runs VACUUM: a transaction is
/// open, under an id that was never used, and has read and written nothing.
pub fn begin_turn()
    ensures { (k : Knowledge) (c : ℕ) (text : List ℕ) → MayBegin k.sys c text → TurnsTo k (begin_labelled k.sys c text) (with_opened k.sys c) }
{}

/// A COMMIT is accepted of an open transaction that makes no call: what the transaction has read and written is its plan from
/// then on, and the first call of the COMMIT is pending.
pub fn take_turn()
    ensures { (k : Knowledge) (o : OpenClient k.sys) (text : List ℕ) (now : ℤ) → IsCommit text now → StartsCommitWith k o.client text (work_of o.id now o.seen) }
{}

/// Whatever call of a COMMIT is pending and whatever its reply, the COMMIT goes on by its next stage, and where it is over its
/// answer ends the transaction.
pub fn commit_turn()
    ensures { (k : Knowledge) (r : CommitReply k.sys) → TurnsAt k (commit_labelled r.work r.stage r.call) r.call.client (commit_left r.work (commit_next r)) }
{}

/// Whatever call of a statement's read is pending, of its own or of a recovery on its way, and whatever its reply, the read goes
/// on. An answer to the call may end the transaction.
pub fn read_turn()
    ensures goes_on { (k : Knowledge) (r : AnsweredRead k.sys) → TurnsAt k (read_labelled r) r.call.client (read_after r) }
    ensures ends { (k : Knowledge) (r : AnsweredRead k.sys) → TurnsAt k (read_ended r) r.call.client Resting }
{}

/// Whatever call of a VACUUM is pending, a scan, one of a recovery or the removal of a tombstone, and whatever its reply, the
/// VACUUM goes on.
pub fn vacuum_turn()
    ensures { (k : Knowledge) (r : VacuumReplyAt k.sys) → TurnsAt k (vacuum_labelled r) r.call.client (vacuum_after r) }
{}

/// A statement that is accepted, answered or not, an idle step, a move of the clock, a get or a scan: all clients are where they
/// were. Such an event may end a transaction that makes no call and whose COMMIT was not accepted.
pub fn quiet_turn()
    ensures stays { (k : Knowledge) (e : Event) → IsQuiet e → TurnsTo k (labelled_with Other e) k.sys }
    ensures ends { (k : Knowledge) (o : OpenClient k.sys) (e : Event) → IsBy o.client e → IsQuiet e → TurnsAt k (ends_with o.id.0 Other e) o.client Resting }
{}

/// A request whose call was delayed lands, wherever its client is, and whether or not it has stopped: all clients are where they were.
pub fn land_turn()
    ensures { (k : Knowledge) (l : Landing k.past) → TurnsTo k (landing_labelled l) k.sys }
{}

/// A client stops, wherever it is.
pub fn stop_turn()
    ensures { (k : Knowledge) (c : ℕ) → TurnsAt k (labelled_with (Stops c) (event.Stop c)) c Stopped }
{}
