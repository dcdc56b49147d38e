//! What holds before any event, and what follows at the end.
ghost use Rattle.std.specs.Prelude.{◌≡◌, [], ℕ, ℤ, pos, false, List};
ghost use Rattle.law_answers.specs.Types.{Event, Table};
ghost use Rattle.sdb_client.specs.Client.{nothing_done};
ghost use Rattle.law_clients.specs.States.{ClientState};
ghost use Rattle.sdb_model.specs.Counted.{AreCounted, AreResolved};
ghost use Rattle.sdb_model.specs.DirtyReads.{AnswersHaveRows};
ghost use Rattle.law_answers.specs.Counts.{CallsAreCounted};
ghost use Rattle.law_answers.specs.Rolled.{RecordsAreRolled};
ghost use Rattle.law_answers.specs.Views.{RowsAreOwn, WasRead};
ghost use Rattle.law_answers.specs.Invariant.{AnswersHaveCauses, CauseInvariant};
ghost use Rattle.law_answers.specs.Turns.{ScriptEvents};

/// It holds before any event, where no client has done anything and the clock shows 0.
pub fn starts()
    ensures { (catalog : List Table) (states : ℕ → ClientState) → ((c : ℕ) → states c ≡ record { client = nothing_done c; stopped = false }) → CauseInvariant catalog [] (pos 0) states }
{}

/// Then the answers have their causes, and what is to be turned away is.
pub fn answers_are_explained()
    ensures { (catalog : List Table) (events : List Event) (now : ℤ) (states : ℕ → ClientState) → CauseInvariant catalog events now states → AnswersHaveCauses catalog events }
{}

/// And the calls of all statements are counted; so they are by what was seen, where the events follow a script: then no call that was
/// seen was answered a fault.
pub fn calls_are_counted()
    ensures fits { (catalog : List Table) (events : List Event) (now : ℤ) (states : ℕ → ClientState) → CauseInvariant catalog events now states → CallsAreCounted catalog events }
    ensures seen { (catalog : List Table) (s : ScriptEvents) → CallsAreCounted catalog s.events → AreCounted catalog s.events }
{}

/// And the unresolved records that were found were rolled first; so they are by what was seen, where the events follow a
/// script: then each call that was answered was seen.
pub fn records_are_rolled()
    ensures rolled { (catalog : List Table) (events : List Event) (now : ℤ) (states : ℕ → ClientState) → CauseInvariant catalog events now states → RecordsAreRolled events }
    ensures seen { (s : ScriptEvents) → RecordsAreRolled s.events → AreResolved s.events }
{}

/// And each row in an answer is one that its transaction has by what the calls of its statements observed, of those whose reads
/// finished, at keys of tables.
pub fn answers_have_own_rows()
    ensures each { (catalog : List Table) (events : List Event) (now : ℤ) (states : ℕ → ClientState) → CauseInvariant catalog events now states → RowsAreOwn catalog events }
    ensures all { (catalog : List Table) (events : List Event) → RowsAreOwn catalog events → AnswersHaveRows catalog (WasRead catalog events) events }
{}
