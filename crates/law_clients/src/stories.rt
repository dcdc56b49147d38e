//! Stories: a client's statements in order, and where each transaction of it begins and ends.
ghost use Rattle.std.specs.Prelude.{◌≡◌, ◌≤◌, ◌<◌, ◌*◌, ◌^◌, ℕ, List, ◌++◌, ◌∷◌, [], length, filter, Some, None, true};
ghost use Rattle.std.specs.List.{AllByRecursion};
ghost use Rattle.sdb_model.specs.declared.event.Event.{Event};
ghost use Rattle.sdb_model.specs.Transactions.{Executed, body, is_effective};
ghost use Rattle.law_protocol.specs.Lawful.{Labelled, protocol_state};
ghost use Rattle.law_protocol.specs.Faithful.{IsFaithful};
ghost use Rattle.law_clients.specs.Story.{Finished, Rest, Closed, settle, saids_of, statements_in, all_of, commit_in, IsEndedTxn, IsRest, IsWellFormedStory, MayCome, txn_ended_at};
ghost use Rattle.law_clients.specs.Knowledge.{Knowledge};
ghost use Rattle.law_clients.specs.Filed.{Filed};
ghost use Rattle.law_clients.specs.Sought.{IsOpenWith, Sought, TextsGive};
ghost use Rattle.law_clients.specs.History.{AllStories, ClientHistory};

/// One statement more, with its answer, goes last in a client's story and leaves it one.
pub fn story_grows()
    ensures same { (whole : List Finished) (rest : Rest) (s : Executed) → all_of (settle whole rest s) ≡ (saids_of whole ++ statements_in rest) ++ s ∷ [] }
    ensures kept { (whole : List Finished) (rest : Rest) (s : Executed) → AllByRecursion IsEndedTxn whole → IsRest rest → MayCome rest s → IsWellFormedStory (settle whole rest s) }
{}

/// Of a story's transactions the texts say when each began and what its COMMIT is: of the k-th that ended, of the open one, and
/// that there is no other.
pub fn story_is_history()
    ensures finished { (x : Sought) (f : Finished) → txn_ended_at x.whole x.k ≡ Some f → TextsGive x (Some f.begin.accepted) (commit_in f.last) }
    ensures opened { (x : Sought) (b : Executed) (body : List Executed) → IsOpenWith x b body → x.k ≡ length x.whole → TextsGive x (Some b.accepted) None }
    ensures none { (x : Sought) (gap : List Executed) → x.rest ≡ Closed gap → IsRest x.rest → length x.whole ≤ x.k → TextsGive x None None }
    ensures past { (x : Sought) (b : Executed) (body : List Executed) → IsOpenWith x b body → length x.whole < x.k → TextsGive x None None }
{}

/// The body of a transaction is what changed something of its statements: of one that ended, and of an open one.
pub fn story_bodies()
    ensures finished { (x : Sought) (f : Finished) → txn_ended_at x.whole x.k ≡ Some f → body x.events x.id ≡ filter is_effective f.body }
    ensures opened { (x : Sought) (b : Executed) (inside : List Executed) → IsOpenWith x b inside → x.k ≡ length x.whole → body x.events x.id ≡ filter is_effective inside }
{}

/// Where each client's story is filed, and no transaction of ordinal 0 was accepted, the actions are those that the texts
/// say.
pub fn faithful()
    ensures { (events : List Event) (past : List Labelled) → ((c : ℕ) → Filed c events past) → ((c : ℕ) → (protocol_state past).accepted (c * 2 ^ 64) ≡ true → ⊥) → IsFaithful events past }
{}

/// Where the invariant of all clients holds, and each client has its story, the actions are those that the texts give.
pub fn clients_are_faithful()
    ensures { (k : Knowledge) (events : List Event) (answered : ℕ → ClientHistory) → AllStories events k.past k.sys answered → IsFaithful events k.past }
{}
