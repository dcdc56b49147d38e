//! How a client's story is extended, event by event, and how it is filed.
ghost use Rattle.std.specs.Prelude.{◌≡◌, ◌≢◌, ℕ, List, ◌++◌, ◌∷◌, [], Some};
ghost use Rattle.law_clients.specs.Types.{Answer, Event};
ghost use Rattle.sdb_model.specs.declared.answer.Answer.TheVariants as answer;
ghost use Rattle.sdb_model.specs.Transactions.{Executed, statements_by};
ghost use Rattle.law_protocol.specs.Plan.{Plan};
ghost use Rattle.law_protocol.specs.Lawful.{Labelled, IsEnabled};
ghost use Rattle.law_clients.specs.System.{ClientAt, SystemAt, SystemOk, IsBy, idle, with_begun, with_client};
ghost use Rattle.law_clients.specs.Account.{Account, AnswersWaiting, IsOrdinaryStatement, IsExtendedBy, Leaves, IsExtendedWith, IsUnchangedBy, StoryTurn, StartsTransaction, StartsCommit, TakesTextAt, answered_with, waits_with};
ghost use Rattle.law_clients.specs.Filed.{Filed};
ghost use Rattle.law_clients.specs.History.{AllStories, OthersUnchanged, with_history, nothing_yet, with_answered, HistoryInvariant, IsApart, EndsOpen, executed_of_take, executed_with_answer, begun_labelled, commit_started};

/// Before the first event a client has no statements.
pub fn initial_story()
    ensures { (c : ℕ) → HistoryInvariant [] [] idle c nothing_yet }
{}

/// An event that changes no statement of a client, and is apart from its transactions, leaves its story as it was. So does each lawful
/// event of another client.
pub fn story_is_unchanged()
    ensures silent { (k : Account) (next : SystemAt) (q : Labelled) → Leaves k q next → IsUnchangedBy k q → IsExtendedBy k q next k.answered }
    ensures others { (plan : ℕ → Plan) (past : List Labelled) (c d : ℕ) (q : Labelled) → d ≢ c → IsBy d q.event → IsEnabled plan past q.event q.action → IsApart past c q.action }
    ensures unsaid { (events : List Event) (c d : ℕ) (e : Event) → d ≢ c → IsBy d e → statements_by c (events ++ e ∷ []) ≡ statements_by c events }
{}

/// A statement is accepted and waits for its answer; it may be the COMMIT of the open transaction.
pub fn statement_waits()
    ensures asks { (k : Account) (next : SystemAt) (q : Labelled) (text : List ℕ) → TakesTextAt k q text None → Leaves k q next → IsExtendedBy k q next (waits_with k text) }
    ensures takes { (k : Account) (next : SystemAt) (text : List ℕ) → StartsCommit k next text → IsExtendedBy k (commit_started k.client k.answered text) next (waits_with k text) }
{}

/// A statement has its answer: at once as it is accepted, or later by a call of its client.
pub fn statement_is_recorded()
    ensures at_once { (k : Account) (q : Labelled) (text : List ℕ) (a : Answer) → TakesTextAt k q text (Some a) → IsExtendedWith k q (executed_of_take k.events text (Some a)) }
    ensures later { (k : Account) (q : Labelled) (a : Answer) (r : AnswersWaiting k q a) → IsExtendedWith k q (executed_with_answer k.events r.waiting a) }
{}

/// A story is extended by an answered statement: an ordinary one, a BEGIN that is answered Done, or one that ends the open
/// transaction.
pub fn story_is_extended()
    ensures ordinary { (k : Account) (next : SystemAt) (q : Labelled) (s : Executed) → IsExtendedWith k q s → IsOrdinaryStatement k s → Leaves k q next → IsExtendedBy k q next (with_answered k.answered s) }
    ensures begins { (k : Account) (next : SystemAt) (text : List ℕ) → StartsTransaction k next text → IsExtendedBy k (begun_labelled k.client k.answered text) next (answered_with k text answer.Done) }
    ensures ends { (k : Account) (next : SystemAt) (q : Labelled) (s : Executed) → IsExtendedWith k q s → EndsOpen k.past k.sys next k.client k.answered q s → IsExtendedBy k q next (with_answered k.answered s) }
{}

/// Where the events stop, a client's story is filed: a statement that waits has no answer, and a COMMIT that waits ends its
/// transaction.
pub fn story_is_filed()
    ensures { (plan : ℕ → Plan) (k : Account) → SystemOk plan k.past k.sys → Filed k.client k.events k.past }
{}

/// Where a turn of one client keeps the invariant of all clients, and its own story is extended, all stories are: the turn leaves the
/// others where they are.
pub fn stories_go_on()
    ensures all { (t : StoryTurn) → AllStories (t.events ++ t.turn.event ∷ []) (t.turn ∷ t.past) t.next (with_history t.answered t.client t.more) }
    ensures moved { (sys : SystemAt) (c : ℕ) (x : ClientAt) → OthersUnchanged c sys (with_client sys c x) }
    ensures begun { (sys : SystemAt) (c : ℕ) (x : ClientAt) → OthersUnchanged c sys (with_begun sys c x) }
{}
