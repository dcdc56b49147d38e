//! The calls of a recovery, for every list of replies that they can get.
ghost use Rattle.std.specs.Prelude.{◌≡◌, ◌≢◌, List, length, map, reverse};
ghost use Rattle.law_answers.specs.Types.{Meta, Record};
ghost use Rattle.sdb_phases.specs.declared.step.RecoverStep.TheVariants as recover_step;
ghost use Rattle.sdb_phases.specs.Recover.{Received, AreRecoverReplies, recover_answer};
ghost use Rattle.law_answers.specs.Recoveries.{HasEnded, RecoveryRun, RecoveryRunsWell, Resolves, calls_of_recovery, received_of};

/// The calls hold the replies, each in its turn.
pub fn recoveries_are_decided()
    ensures { (rec : Record) (meta : Meta) (past : List Received) → AreRecoverReplies rec meta past → map received_of (calls_of_recovery rec meta past) ≡ reverse past }
{}

/// A recovery none of whose calls faulted, was out of memory or observed a malformed row continues, or ends with the record's
/// image, or is busy, and that only where its look found no row before the record has expired.
pub fn resolves()
    ensures { (rec : Record) (meta : Meta) (past : List Received) → RecoveryRunsWell rec meta past → Resolves rec meta past (recover_answer rec meta past) }
{}

/// Any answer ends a recovery, out of memory too, and so does the fourth reply.
pub fn ended()
    ensures answered { (rec : Record) (meta : Meta) (past : List Received) → recover_answer rec meta past ≢ recover_step.More → HasEnded rec meta past }
    ensures fourth { (rec : Record) (meta : Meta) (past : List Received) → RecoveryRun rec meta past → length past ≡ 4 → HasEnded rec meta past }
{}
