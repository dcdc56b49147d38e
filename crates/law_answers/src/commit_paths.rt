//! The calls of a COMMIT, for every list of replies that they can get.
ghost use Rattle.std.specs.Prelude.{◌≡◌, ◌<◌, ℕ, true, false, Option, Some, is_some, List, [], length, slice_get, reverse, take};
ghost use Rattle.std.specs.List.{AllByRecursion};
ghost use Rattle.law_answers.specs.Types.{Key, Outcome, Record, Reply, TxId};
ghost use Rattle.sdb_types.specs.Contents.{CanAnswer};
ghost use Rattle.sdb_record.specs.declared.coordinator.Decision.TheVariants as decision;
ghost use Rattle.sdb_phases.specs.declared.step.Outcome.TheVariants as outcome;
ghost use Rattle.sdb_phases.specs.Work.{Work, forwards, decide_of};
ghost use Rattle.sdb_phases.specs.Steps.{CanGet};
ghost use Rattle.sdb_phases.specs.Commit.{Stage, Forward, Back, Over, after, pending, preparing, step};
ghost use Rattle.sdb_phases.specs.CommitLaws.{AreReplies, seen, IsLost, exact_calls};
ghost use Rattle.law_answers.specs.Paths.{Call, Asks, Begins, EndsIn, IsAsked, Makes, calls_of_path, is_over, replies_of, undone, was_observed, with_call};
ghost use Rattle.law_answers.specs.Ends.{HasChangedBy, HasPassed, IsApplied, IsGivenUp, IsLearned, IsPutOutOfMemory, IsReady, IsUndecided, IsUndone, MakesWell, calls_before, has_committed, is_checked, is_prepared};

/// A COMMIT makes its calls one after the other, from none on, and has one pending until it ends.
pub fn made()
    ensures starts { (p : Work) → Makes p [] (preparing p 0) }
    ensures steps { (p : Work) (calls : List Call) (s : Stage) (r : Reply) → Makes p calls s → CanGet (pending p s) r → Makes p (with_call (pending p s) r calls) (step p s r) }
    ensures asks { (p : Work) (calls : List Call) (s : Stage) → Makes p calls s → is_over s ≡ false → is_some (pending p s) ≡ true }
{}

/// The calls hold the replies, each in its turn, and each reply is one that its call can get. The first calls are the prepares
/// of the groups, each after the one before was applied. What was learned of the row is what they say.
pub fn path()
    ensures replies { (p : Work) (past : List Reply) → AreReplies p past → replies_of (calls_of_path p past) ≡ reverse past }
    ensures fits { (p : Work) (calls : List Call) (s : Stage) → Makes p calls s → AllByRecursion (λ c. CanAnswer c.request c.reply) calls }
    ensures begins { (p : Work) (calls : List Call) (s : Stage) → Makes p calls s → Begins p calls }
    ensures committed { (p : Work) (past : List Reply) → AreReplies p past → (seen p past).committed ≡ was_observed p decision.Committed (calls_of_path p past) }
    ensures aborted { (p : Work) (past : List Reply) → AreReplies p past → (seen p past).aborted ≡ was_observed p decision.Aborted (calls_of_path p past) }
{}

/// A COMMIT that is answered Committed rolls each group of its writes forward, once and in order, and none back. One that is
/// answered Conflict, Expired, Faulted or NoMemory rolls back, once and in the order of the groups, each write of a group whose
/// prepare was applied or faulted, and no other, or none where its newest call, the put of ABORTED, failed; it rolls none
/// forward. With any other answer it rolls nothing.
pub fn rolls()
    ensures committed { (p : Work) (calls : List Call) → EndsIn p calls outcome.Committed → Asks p calls (forwards p) }
    ensures lost { (p : Work) (calls : List Call) (a : Outcome) → IsLost a → EndsIn p calls a → IsUndone p calls }
    ensures unknown { (p : Work) (calls : List Call) (id : TxId) → EndsIn p calls (outcome.Unknown id) → Asks p calls [] }
    ensures bad { (p : Work) (calls : List Call) (key : Key) → EndsIn p calls (outcome.BadRecord key) → Asks p calls [] }
{}

/// While it rolls it has made the rolls before, and asks for the next.
pub fn rolling()
    ensures forward { (p : Work) (calls : List Call) (i : ℕ) → Makes p calls (Forward i) → Asks p calls (take i (forwards p)) }
    ensures back { (p : Work) (calls : List Call) (a : Outcome) (n i : ℕ) → Makes p calls (Back a n i) → Asks p calls (take i (undone p calls)) }
    ensures next { (p : Work) (calls : List Call) (a : Outcome) (n i : ℕ) → Makes p calls (Back a n i) → pending p (Back a n i) ≡ slice_get (undone p calls) i }
{}

/// A conflict is observed in the reply to the prepare of a group with its key, or to a check of its key, and isn't what was read
/// there, and the deciding put was not asked. Expired is answered only where a call for the row observed ABORTED and none before had put that. Out of
/// memory ends a COMMIT that asked for its deciding put only where that put was out of memory.
pub fn causes()
    ensures conflict { (p : Work) (calls : List Call) (key : Key) (found : Option Record) → EndsIn p calls (outcome.Conflict key found) → HasChangedBy p calls key found }
    ensures undecided { (p : Work) (calls : List Call) (key : Key) (found : Option Record) → EndsIn p calls (outcome.Conflict key found) → IsUndecided p calls }
    ensures expired { (p : Work) (calls : List Call) (id : TxId) → EndsIn p calls (outcome.Expired id) → (id ≡ p.id) × IsGivenUp p calls }
    ensures out_of_memory { (p : Work) (calls : List Call) → EndsIn p calls outcome.NoMemory → IsPutOutOfMemory p calls }
{}

/// Each prepare that it went on from was the call in its place, and was applied; each check that it went on from was the call
/// in its place after them, and found what it was to find. So did all of them where the deciding put was asked. Where it
/// rolls forward, or is answered Committed, that put was applied or the row was observed COMMITTED.
pub fn places()
    ensures prepared { (p : Work) (calls : List Call) (s : Stage) (i : ℕ) → Makes p calls s → is_prepared i s ≡ true → IsApplied p calls i }
    ensures checked { (p : Work) (calls : List Call) (s : Stage) (i : ℕ) → Makes p calls s → is_checked i s ≡ true → HasPassed p calls i }
    ensures decides { (p : Work) (calls : List Call) (s : Stage) → Makes p calls s → IsAsked (decide_of p.id p.now) calls → IsReady p calls }
    ensures learned { (p : Work) (calls : List Call) (s : Stage) → Makes p calls s → has_committed s ≡ true → IsLearned p calls }
{}

/// A COMMIT whose prepares and deciding put are applied, and whose checks find what they are to find, asks for its deciding
/// put after them, goes on, and ends in Committed after its rolls, whatever these are answered.
pub fn completes()
    ensures decides { (p : Work) (calls : List Call) (s : Stage) → MakesWell p calls s → length calls ≡ calls_before p → pending p s ≡ Some (decide_of p.id p.now) }
    ensures goes_on { (p : Work) (calls : List Call) (s : Stage) → MakesWell p calls s → length calls < exact_calls p → is_over s ≡ false }
    ensures ends { (p : Work) (calls : List Call) (s : Stage) → MakesWell p calls s → length calls ≡ exact_calls p → s ≡ Over outcome.Committed }
    ensures committed { (p : Work) (calls : List Call) (a : Outcome) → MakesWell p calls (Over a) → a ≡ outcome.Committed }
{}
