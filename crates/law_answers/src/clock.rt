//! Events that are neither a statement nor a call of a client.
ghost use Rattle.std.specs.Prelude.{◌++◌, ◌∷◌, [], ℕ, ℤ};
ghost use Rattle.law_answers.specs.Types.{Event, How, Reply, Request};
ghost use Rattle.sdb_model.specs.Rows.{Name};
ghost use Rattle.sdb_model.specs.declared.event.Event.TheVariants as event;
ghost use Rattle.law_answers.specs.Invariant.{AddsWithNoneOpen, CauseInvariant, with_stopped};
ghost use Rattle.law_answers.specs.Turns.{CauseInvariantAt};

/// The cause invariant is preserved where a client stops, where one without work idles, where the clock moves, where a late
/// request takes effect, and where a column is to be added to a table.
pub fn stops_and_clock()
    ensures stops { (k : CauseInvariantAt) (c : ℕ) → CauseInvariant k.catalog (k.events ++ event.Stop c ∷ []) k.now (with_stopped k.states c) }
    ensures idles { (k : CauseInvariantAt) (c : ℕ) → CauseInvariant k.catalog (k.events ++ event.Idle c ∷ []) k.now k.states }
    ensures moves { (k : CauseInvariantAt) (moment : ℤ) → CauseInvariant k.catalog (k.events ++ event.Clock moment ∷ []) moment k.states }
    ensures lands { (k : CauseInvariantAt) (number : ℕ) (store : Name) (q : Request) (how : How) (r : Reply) → CauseInvariant k.catalog (k.events ++ event.Land number store q how r ∷ []) k.now k.states }
    ensures alters { (k : CauseInvariantAt) (e : Event) → AddsWithNoneOpen k.states e → CauseInvariant k.catalog (k.events ++ e ∷ []) k.now k.states }
{}
