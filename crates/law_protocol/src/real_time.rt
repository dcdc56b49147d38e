//! Laws in terms of the model, where the actions are those of the texts of the events.
ghost use Rattle.std.specs.Prelude.{◌≡◌, ◌≤◌, List, Some, length, map, ℕ};
ghost use Rattle.sdb_record.specs.declared.coordinator.Decision.TheVariants.{Committed};
ghost use Rattle.sdb_model.specs.declared.event.Point.{Point};
ghost use Rattle.sdb_model.specs.Serial.{TransactionsInRealTime};
ghost use Rattle.law_protocol.specs.Faithful.{AnswersAreTrue, IsAnsweredCommittedAt};
ghost use Rattle.law_protocol.specs.Lawful.{IsLawful, Labelled, protocol_state};
ghost use Rattle.law_protocol.specs.Plan.{Plan};
ghost use Rattle.law_protocol.specs.Runs.{AreOfIds, IsFaithfulRun, IsOrderOf, LawfulRun, RunInOrder, events_in, history_in, history_of, final_contents};
ghost use Rattle.law_protocol.specs.Serial.{IsOrdered};

/// The clock of the protocol's state counts events, and not their actions.
pub fn clock_counts_events()
    ensures { (plan : ℕ → Plan) (past : List Labelled) → IsLawful plan past → (protocol_state past).now ≡ length past }
{}

/// Who was answered Committed by an event was recorded by then.
pub fn answered_was_decided()
    ensures recorded { (r : LawfulRun) (t n : ℕ) → IsAnsweredCommittedAt r.past t n → (history_of r).row t ≡ Some Committed }
    ensures by_then { (r : LawfulRun) (t n : ℕ) → IsAnsweredCommittedAt r.past t n → (history_of r).decided_at t ≤ n }
{}

/// The order of the recorded transactions respects real time.
pub fn respects_real_time()
    ensures { (r : RunInOrder) (order : List Point) → IsFaithfulRun r → IsOrderOf r order → TransactionsInRealTime r.places (events_in r) (final_contents r) order }
{}

/// The order of the model is the order that the laws of the order speak of.
pub fn order_is_by_point()
    ensures { (r : RunInOrder) (order : List Point) → IsFaithfulRun r → IsOrderOf r order → AreOfIds order → IsOrdered (history_in r) (map (λ p. p.id.0) order) }
{}

/// What a COMMIT was answered is true.
pub fn answers_are_true()
    ensures { (r : RunInOrder) → IsFaithfulRun r → AnswersAreTrue r.places (events_in r) (final_contents r) }
{}
