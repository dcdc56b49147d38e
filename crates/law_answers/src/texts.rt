//! A client that takes a statement.
ghost use Rattle.std.specs.Prelude.{◌++◌, ◌∷◌, []};
ghost use Rattle.law_clients.specs.Turns.{states_after_text, take_event};
ghost use Rattle.law_answers.specs.Turns.{CauseInvariantAtTake, TextWithCauses};

/// Whatever text a client takes, and whatever that comes to by its contract, the event of its taking preserves the cause invariant,
/// where the text is taken under the catalog as it is after the events, and the gate says what the other clients do.
pub fn causes_of_text()
    ensures { (t : TextWithCauses) → CauseInvariantAtTake t.catalog t.taken (t.events ++ take_event t.taken ∷ []) (states_after_text t.taken) }
{}
