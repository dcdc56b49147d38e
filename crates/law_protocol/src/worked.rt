//! Runs that the rules allow, and runs that they don't.
ghost use Rattle.std.specs.Prelude.{◌≡◌, ℕ, List, [], Some};
ghost use Rattle.std.specs.FinMap.{empty};
ghost use Rattle.sdb_record.specs.declared.coordinator.Decision.TheVariants.{Committed};
ghost use Rattle.law_protocol.specs.Types.{Table, Write};
ghost use Rattle.sdb_model.specs.Causes.{AreCaused};
ghost use Rattle.law_protocol.specs.Plan.{Plan};
ghost use Rattle.law_protocol.specs.Faithful.{AreReadSets};
ghost use Rattle.law_protocol.specs.Forged.{HaveNoCause, AreOfNoRun, accused, broken, counting, liar, oracle, twice, unchecked};
ghost use Rattle.law_protocol.specs.Lawful.{Labelled, IsLawful};
ghost use Rattle.law_protocol.specs.Trace.{history};
ghost use Rattle.law_protocol.specs.Explained.{IsRunOf, events_of, newest_first};
ghost use Rattle.law_protocol.specs.Worked.{one, store_with, first_run, first_moments, updates, deletes_it, plan_with, lost_decision, recovery, vacuumed, decided_early, prepared_twice, rolled_blindly, checked_changed, removed_while_open};

/// There are runs: one client inserts a record into an empty store, and its transaction is recorded.
pub fn a_run_exists()
    ensures run { (w : Write) → IsRunOf (plan_with w) [] (store_with empty) first_run first_moments }
    ensures recorded { (w : Write) → (history (plan_with w) [] (store_with empty) first_run first_moments).row one ≡ Some Committed }
{}

/// These runs are lawful: the reply to a decision is lost; a reader rolls a decided transaction forward; VACUUM removes a
/// tombstone.
pub fn worked_runs_are_lawful()
    ensures lost_decision { IsLawful (plan_with updates) lost_decision }
    ensures recovery { IsLawful (plan_with updates) recovery }
    ensures vacuum { IsLawful (plan_with deletes_it) vacuumed }
{}

/// These aren't: COMMITTED is put before the prepare; a key is prepared twice; what isn't known to be committed is rolled
/// forward; a check finds an undecided record; a tombstone is removed while a transaction is open.
pub fn other_runs_are_refused()
    ensures decided_early { (w : Write) → IsLawful (plan_with w) decided_early → ⊥ }
    ensures prepared_twice { IsLawful (plan_with updates) prepared_twice → ⊥ }
    ensures rolled_blindly { IsLawful (plan_with updates) rolled_blindly → ⊥ }
    ensures checked_changed { (past : List Labelled) → IsLawful (plan_with updates) (checked_changed past) → ⊥ }
    ensures removed_while_open { IsLawful (plan_with deletes_it) removed_while_open → ⊥ }
{}

/// A report in which Committed is answered to a COMMIT of no transaction is the report of no run, whatever its script, stores, order
/// and rows.
pub fn forged_reports_are_no_runs()
    ensures liar { AreOfNoRun liar }
    ensures twice { AreOfNoRun twice }
{}

/// Answers that no call explains have no cause, whatever the catalog, the places and the stores: a row that was not found, a Conflict
/// without a read, a fault without a call, and a count of tombstones that were not removed.
pub fn forged_answers_have_no_cause()
    ensures oracle { HaveNoCause oracle }
    ensures accused { (catalog : List Table) → AreCaused catalog accused → ⊥ }
    ensures broken { (catalog : List Table) → AreCaused catalog broken → ⊥ }
    ensures counting { (catalog : List Table) → AreCaused catalog counting → ⊥ }
{}

/// A COMMIT that does not check what its transaction read is lawful under no plan that has what was read.
pub fn unchecked_reads_are_refused()
    ensures { (plan : ℕ → Plan) → AreReadSets plan (newest_first (events_of unchecked)) unchecked → IsLawful plan unchecked → ⊥ }
{}
