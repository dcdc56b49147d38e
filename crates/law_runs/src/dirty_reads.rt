//! Which rows statements observed: those of committed images.
ghost use Rattle.std.specs.Prelude.{List, Option};
ghost use Rattle.sdb_types.specs.declared.pair.Pair.{Pair};
ghost use Rattle.sdb_model.specs.Counted.{AreResolved};
ghost use Rattle.law_runs.specs.DirtyReads.{IsReader};
ghost use Rattle.law_runs.specs.Traces.{IsApart, ExecutedAtKey, AnswersAsRead, HasNoDirtyReads, IsExplainedTrace, HasTransactional, Traced, WasCommittedAt, WasFoundAt, WereDecidedAt};

/// Where no table of the catalog is the coordinator's, and a statement's calls showed a row at a key of a table, and the decision on each
/// record that they found there unresolved, that row was the one of the committed image at a moment between the statement's Take and its
/// last event.
pub fn found_rows_are_committed()
    ensures { (t : Traced) (x : ExecutedAtKey t) (row : Option (List Pair)) → IsApart t → IsExplainedTrace t → WereDecidedAt x → WasFoundAt x row → WasCommittedAt x row }
{}

/// Where each statement whose read finished had each unresolved record rolled that was found, the calls of such a statement that is no
/// VACUUM showed the decision on each.
pub fn resolved_are_decided()
    ensures { (t : Traced) (x : ExecutedAtKey t) → IsApart t → HasTransactional t → AreResolved t.events → IsReader t.events x.client x.executed → WereDecidedAt x }
{}

/// Where answers have rows that their transactions have, as the calls of statements whose reads finished observed them, no transaction
/// observed a row that was neither its own nor committed.
pub fn answers_have_committed_rows()
    ensures { (t : Traced) → IsApart t → IsExplainedTrace t → HasTransactional t → AreResolved t.events → AnswersAsRead t → HasNoDirtyReads t }
{}
