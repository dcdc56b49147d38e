//! The answers and the writes of a transaction's statements.
ghost use Rattle.std.specs.Prelude.{◌≤◌, ◌+◌, length, ◌↔◌, ◌⊎◌, ℤ, filter, false, true, ◌≡◌, ℕ, List, ◌++◌, ◌∷◌, [], Bool};
ghost use Rattle.law_clients.specs.Types.{Access, Event, Record, Table};
ghost use Rattle.sdb_model.specs.Exec.{Tables};
ghost use Rattle.sdb_model.specs.Transactions.{Executed, body, is_effective};
ghost use Rattle.std.specs.List.{AllByRecursion};
ghost use Rattle.law_protocol.specs.Plan.{Plan};
ghost use Rattle.law_protocol.specs.Lawful.{Labelled, id};
ghost use Rattle.law_protocol.specs.Faithful.{AreReadSets};
ghost use Rattle.sdb_phases.specs.Work.{Work};
ghost use Rattle.law_clients.specs.Left.{AllAreReads, AreReads, BodyIsExecuted, Execution};
ghost use Rattle.law_clients.specs.BodyTexts.{BodyExecuted, RunsOneMore};
ghost use Rattle.sdb_snapshot.specs.Seen.{Seen, Agrees, nothing, with_written};
ghost use Rattle.law_clients.specs.Reads.{SeenOk, with_read, work_of};
ghost use Rattle.law_clients.specs.ReadAt.{Done};
ghost use Rattle.sdb_model.specs.Calls.{StoreCall, calls_of, end_of};
ghost use Rattle.sdb_model.specs.ReadSet.{ReadItem, finds_transactional, read_items};
ghost use Rattle.law_clients.specs.Calls.{AsksRows, HasReadItem, IsMade, IsReadSetIn, IsCommitStartedWith, MadeReply, BodyReadSet, ReadSetWith, ReadsNothing, RecordsRead, ReadMade, WasAnswered, call_made, calls_since, read_item_with, stage_after};
ghost use Rattle.law_clients.specs.Body.{AgreesAll, Body, BodyOk, ComeTo, IsCovered, NextStatement};

/// Before its first statement a transaction asks nothing of the tables and leaves them as they are.
pub fn no_statements()
    ensures { (catalog : List Table) (fit : Tables → Bool) → BodyOk catalog fit [] [] nothing }
{}

/// A read that is recorded leaves what the statements so far come to: tables that agree with all that was read agreed before it.
pub fn read_more()
    ensures { (b : Body) (a : Access) (images : List Record) → ComeTo b b.statements b.answers (with_read b.seen a images) }
{}

/// A statement whose access was read, which is answered from the rows that its transaction sees there as it is on all tables that
/// have these rows there, and whose changes are written, is one more.
pub fn statement_more()
    ensures { (b : Body) (n : NextStatement b) → ComeTo b (b.statements ++ n.statement ∷ []) (b.answers ++ n.answer ∷ []) (with_written b.seen n.changes) }
{}

/// Tables that agree with each thing that was recorded have, at an access that was read, the rows that are recorded there.
pub fn reads_observe_rows()
    ensures { (past : List Labelled) (s : Seen) (a : Access) (d : Tables) → SeenOk past s → IsCovered s a → AgreesAll s d → Agrees s a d }
{}

/// A statement that changed nothing adds nothing to what the statements of a transaction ran; one that changed something is one more;
/// and a statement inside of a transaction is one of its body.
pub fn body_is_executed()
    ensures nothing { (ss : List Executed) (s : Executed) (r : Execution) → BodyExecuted ss r → is_effective s ≡ false → BodyExecuted (ss ++ s ∷ []) r }
    ensures one { (ss : List Executed) (s : Executed) (r next : Execution) → BodyExecuted ss r → RunsOneMore r next s → BodyExecuted (ss ++ s ∷ []) next }
    ensures whole { (events : List Event) (t : ℕ) (ss : List Executed) (r : Execution) → body events (id t) ≡ filter is_effective ss → BodyExecuted ss r → BodyIsExecuted events t r }
{}

/// Where the gets and the scans of what each COMMIT took are what the statements of its transaction read, the read sets of the plans are too.
pub fn read_items_are_reads()
    ensures { (plan : ℕ → Plan) (events : List Event) (past : List Labelled) (works : ℕ → Work) → AllAreReads plan events past works → AreReadSets plan events past }
{}

/// Whatever call of a read is pending and whatever its reply, the rows that the read has settled mean by its calls what it has settled them as,
/// and its calls have rolled none of those that are left.
pub fn calls_observe_rows()
    ensures { (r : MadeReply) (m : StoreCall) → IsMade m r.call.request r.call.reply → ReadMade (r.made ++ m ∷ []) r.asked (stage_after r) }
{}

/// The model's read item of the calls of a read is what the read returned, and nothing else; each record that such a read found passes the
/// checks; and what it returned is what the read set grows by.
pub fn read_is_recorded()
    ensures calls { (ms : List StoreCall) (a : Access) (images : List Record) → ReadMade ms a (Done images) → AsksRows a → read_items ms ≡ read_item_with a images ∷ [] }
    ensures checks { (ms : List StoreCall) (a : Access) (images : List Record) → ReadMade ms a (Done images) → AsksRows a → finds_transactional ms ≡ true }
    ensures adds { (s : Seen) (a : Access) (images : List Record) (n : ReadItem) → HasReadItem (with_read s a images) n ↔ (HasReadItem s n ⊎ (n ≡ read_item_with a images)) }
{}

/// The calls of a statement: none at its Take; each event adds the call that it is; those of one that waits or was just answered are all
/// since its Take; and those of one that was answered before stay.
pub fn calls_go_on()
    ensures none { (events : List Event) (c n : ℕ) → length events ≤ n → calls_since events c n ≡ [] }
    ensures more { (events : List Event) (c n : ℕ) (e : Event) → n ≤ length events → calls_since (events ++ e ∷ []) c n ≡ calls_since events c n ++ call_made c (1 + length events) e }
    ensures just { (events : List Event) (c : ℕ) (s : Executed) → end_of events s ≡ length events → calls_of events c s ≡ calls_since events c s.accepted }
    ensures stay { (events : List Event) (c : ℕ) (s : Executed) (e : Event) → WasAnswered events s → calls_of (events ++ e ∷ []) c s ≡ calls_of events c s }
{}

/// What a transaction has read stays what its statements read: at its start; while events come after its statements were answered; with
/// a statement that records no read, or that records what a read returned; and as its COMMIT takes it.
pub fn read_items_are_extended()
    ensures starts { (events : List Event) (c : ℕ) → IsReadSetIn events c [] nothing }
    ensures later { (b : BodyReadSet) (e : Event) → AllByRecursion (WasAnswered b.events) b.executed → IsReadSetIn (b.events ++ e ∷ []) b.client b.executed b.seen }
    ensures nothing { (b : BodyReadSet) (s : Executed) → ReadsNothing b.events b.client s → ReadSetWith b s b.seen }
    ensures read { (b : BodyReadSet) (s : Executed) (a : Access) (images : List Record) → RecordsRead b.events b.client s a images → ReadSetWith b s (with_read b.seen a images) }
    ensures whole { (plan : ℕ → Plan) (b : BodyReadSet) (t : ℕ) (now : ℤ) → IsCommitStartedWith plan b t now → AreReads plan b.events (work_of (id t) now b.seen) t }
{}
