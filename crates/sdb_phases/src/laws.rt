//! Laws of the phases, for every list of replies that the calls can get.
ghost use Rattle.std.specs.Prelude.{◌≡◌, ◌≤◌, ◌+◌, ℕ, ℤ, true, false, IfSome, Option, Some, length};
ghost use Rattle.sdb_phases.specs.Types.{Key, Meta, Record, Reply, Request, TxId};
ghost use Rattle.sdb_phases.specs.Recover.{recover_request_at};
ghost use Rattle.sdb_phases.specs.declared.step.RecoverPhase.{RecoverPhase};
ghost use Rattle.sdb_types.specs.Contents.{IsWellFormed};
ghost use Rattle.sdb_record.specs.Groups.{AreGroups, grouped};
ghost use Rattle.sdb_types.specs.declared.record.Reply.TheVariants as reply;
ghost use Rattle.sdb_record.specs.Coordinator.{coordinator_key_of};
ghost use Rattle.sdb_phases.specs.declared.step.Outcome.{Outcome};
ghost use Rattle.sdb_phases.specs.declared.step.Outcome.TheVariants as outcome;
ghost use Rattle.sdb_phases.specs.declared.step.DecidePhase.TheVariants as phase;
ghost use Rattle.sdb_phases.specs.declared.step.RecoverPhase.TheVariants as recovering;
ghost use Rattle.sdb_phases.specs.declared.step.RecoverStep.TheVariants as recover_step;
ghost use Rattle.sdb_phases.specs.Work.{Work, decide_of, groups_of};
ghost use Rattle.sdb_phases.specs.Commit.{Stage, Preparing, Checking, Deciding, Forward, Back, Over, step, pending, out_of_memory, has_stopped};
ghost use Rattle.sdb_phases.specs.CommitLaws.{may_undo, IsLost, is_unrecorded, reads_of, exact_calls, most_calls};
ghost use Rattle.sdb_phases.specs.RecoverLaws.{learned_committed, learned_aborted, found_expired, found_pending, WasRolled, received_fault, received_malformed};
ghost use Rattle.sdb_phases.specs.Run.{CommitRun, RecoverRun, answer_of, phase_after, seen_in, stage_after};

/// A COMMIT asks for its prepares in order, each after all before it were applied, and then for its checks in order, each
/// after all before it have passed. It asks for the deciding put only after every prepare was applied and every check has
/// passed, and at no other number of replies, so at most once.
pub fn commit_order()
    ensures prepares { (r : CommitRun) (i : ℕ) → stage_after r ≡ Preparing i → (length r.past ≡ i) × ((seen_in r).passed ≡ true) }
    ensures checks { (r : CommitRun) (i : ℕ) → stage_after r ≡ Checking i → (length r.past ≡ groups_of r.work + i) × ((seen_in r).passed ≡ true) }
    ensures decides { (r : CommitRun) → stage_after r ≡ Deciding phase.Put → (length r.past ≡ groups_of r.work + reads_of r.work) × ((seen_in r).passed ≡ true) }
    ensures alone { (p : Work) (s : Stage) → pending p s ≡ Some (decide_of p.id p.now) → s ≡ Deciding phase.Put }
{}

/// A COMMIT rolls forward only after it learned that its row is COMMITTED. It rolls back only after it learned that the row
/// is ABORTED, or where its own put of ABORTED after a stop was applied or found a row, and its deciding put was not made or
/// had no effect.
pub fn commit_rolls()
    ensures forward { (r : CommitRun) (i : ℕ) → stage_after r ≡ Forward i → (seen_in r).committed ≡ true }
    ensures back { (r : CommitRun) (a : Outcome) (n i : ℕ) → stage_after r ≡ Back a n i → may_undo (seen_in r) ≡ true }
{}

/// Committed is answered only where COMMITTED was learned. Conflict, Expired, Faulted and NoMemory are answered only where
/// the deciding put was not made or had no effect, or ABORTED was learned; Conflict of these only where a prepare or a check
/// was not passed, Expired where ABORTED was learned, Faulted where a call faulted. Unknown comes only where the deciding put
/// faulted and a later call for the row was answered Fault or NoMemory. BadRecord comes only where the newest reply holds a
/// record at the transaction's coordinator key that isn't a well formed row.
pub fn commit_ends()
    ensures committed { (r : CommitRun) → stage_after r ≡ Over outcome.Committed → (seen_in r).committed ≡ true }
    ensures lost { (r : CommitRun) (a : Outcome) → stage_after r ≡ Over a → IsLost a → is_unrecorded (seen_in r) ≡ true }
    ensures unknown { (r : CommitRun) (id : TxId) → stage_after r ≡ Over (outcome.Unknown id) → (id ≡ r.work.id) × ((seen_in r).put ≡ Some reply.Fault) × ((seen_in r).failed ≡ true) }
    ensures bad { (r : CommitRun) (key : Key) → stage_after r ≡ Over (outcome.BadRecord key) → (key ≡ coordinator_key_of r.work.id) × ((seen_in r).malformed ≡ true) }
    ensures conflict { (r : CommitRun) (key : Key) (found : Option Record) → stage_after r ≡ Over (outcome.Conflict key found) → (seen_in r).passed ≡ false }
    ensures expired { (r : CommitRun) (id : TxId) → stage_after r ≡ Over (outcome.Expired id) → (id ≡ r.work.id) × ((seen_in r).aborted ≡ true) }
    ensures faulted { (r : CommitRun) → stage_after r ≡ Over outcome.Faulted → (seen_in r).faulted ≡ true }
{}

/// A COMMIT that is answered Committed makes exactly two calls for each group of its writes, one for each extra read, and the
/// deciding put, where none faulted. No COMMIT makes more than one call for each group, one for each write, one for each extra
/// read, and four.
pub fn commit_calls()
    ensures exact { (r : CommitRun) → stage_after r ≡ Over outcome.Committed → (seen_in r).faulted ≡ false → length r.past ≡ exact_calls r.work }
    ensures most { (r : CommitRun) → length r.past ≤ most_calls r.work }
{}

/// Each call of a COMMIT whose writes have keys that differ is well formed.
pub fn requests_are_well_formed()
    ensures { (p : Work) (s : Stage) (q : Request) → AreGroups (grouped p.writes) → pending p s ≡ Some q → IsWellFormed q }
{}

/// A COMMIT that answers out of memory in place of a conflict makes the same calls, to the end.
pub fn out_of_memory_like()
    ensures calls { (p : Work) (s : Stage) → pending p (out_of_memory s) ≡ pending p s }
    ensures steps { (p : Work) (s : Stage) (r : Reply) → has_stopped s ≡ true → step p (out_of_memory s) r ≡ out_of_memory (step p s r) }
    ensures stays { (p : Work) (s : Stage) (r : Reply) → has_stopped s ≡ true → has_stopped (step p s r) ≡ true }
{}

/// Each call of a recovery is well formed.
pub fn recoveries_are_well_formed()
    ensures { (rec : Record) (meta : Meta) (p : RecoverPhase) → IfSome (recover_request_at rec meta p) IsWellFormed }
{}

/// A recovery makes at most four calls. It puts ABORTED only as its second call, after a look that found no row at a moment
/// at which the record had expired. It rolls forward only after it learned that the row is COMMITTED, to what that row
/// says, and back only after it learned that the row is ABORTED.
pub fn recovers()
    ensures most { (r : RecoverRun) → length r.past ≤ 4 }
    ensures aborts { (r : RecoverRun) (now : ℤ) → phase_after r ≡ recovering.Abort now → (length r.past ≡ 1) × (found_expired r.meta r.past ≡ true) }
    ensures forward { (r : RecoverRun) (at : ℤ) → phase_after r ≡ recovering.Forward at → learned_committed r.found r.meta at r.past ≡ true }
    ensures back { (r : RecoverRun) → phase_after r ≡ recovering.Back → learned_aborted r.found r.meta r.past ≡ true }
{}

/// A recovery is Busy only where its first look, and only call, found no row before the record has expired. Its image is what
/// the roll leaves, and comes only with the roll's reply. It is Faulted only where a call faulted. BadRecord comes only where
/// the newest reply holds a record at the coordinator key that isn't a well formed row.
pub fn recover_ends()
    ensures busy { (r : RecoverRun) (id : TxId) (at : ℤ) → answer_of r ≡ recover_step.Busy id at → (id ≡ r.meta.id) × (at ≡ r.meta.prepared_at) × (found_pending r.meta r.past ≡ true) }
    ensures image { (r : RecoverRun) (image : Option Record) → answer_of r ≡ recover_step.Image image → WasRolled r.found r.meta r.past image }
    ensures faulted { (r : RecoverRun) → answer_of r ≡ recover_step.Faulted → received_fault r.past ≡ true }
    ensures bad { (r : RecoverRun) (key : Key) → answer_of r ≡ recover_step.BadRecord key → (key ≡ coordinator_key_of r.meta.id) × (received_malformed r.meta r.past ≡ true) }
{}
