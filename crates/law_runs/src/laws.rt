//! Laws of executions, whatever the stores reply.
ghost use Rattle.std.specs.Prelude.{[], ◌∷◌, ◌≡◌, ◌≢◌, ◌<◌, ◌^◌, List, Some, pos, take, true, ℕ, ℤ};
ghost use Rattle.law_runs.specs.Types.{Decision, Key, Record, Reply, Request, Table, TxId, Value, Write};
ghost use Rattle.sdb_types.specs.declared.record.Put.{Put};
ghost use Rattle.sdb_model.specs.Sql.{reads_begin, reads_commit, reads_vacuum};
ghost use Rattle.sdb_client.specs.Execution.{IsExecution};
ghost use Rattle.sdb_model.specs.Causes.{AreCaused};
ghost use Rattle.sdb_model.specs.Counted.{AreCounted, AreResolved};
ghost use Rattle.law_protocol.specs.Spread.{AreAbout};
ghost use Rattle.law_runs.specs.CommitPaths.{CommitsArePaths, OpenCommitsArePaths};
ghost use Rattle.law_runs.specs.Complete.{RecoveriesComplete, ResolvedAreNotBusy, SeenAreServed, StatementsComplete, UncontendedCommitsComplete};
ghost use Rattle.law_runs.specs.Forged.{MeetsMalformed, answers_bad, answers_bad_later, CommitText, EmptyTransaction, FindsMisfit, FindsRow, FindsUnresolved, InsertOn, IsOfOther, IsOtherMoment, SelectOn, IsCommittedRow, UpdateOn, busy_at_once, counted_at_once, counts_over, counts_twice, counts_unread, decides_at_once, decides_beside, decides_early, decides_unapplied, decides_unprepared, duplicates_none, ends_unfinished, faults_at_once, leaves_out, prepares_another, prepares_at, prepares_unwritten, reads_again, reads_and_is_done, reads_for_rolls, rolls_unprepared, answers_rows, answers_two, answers_unread, answers_unrolled};
ghost use Rattle.law_runs.specs.Found.{ReadsAreNew, RunsOnFound};
ghost use Rattle.law_runs.specs.Laws.{BusyIsOfReads, CallsAreOfStatements, DecisionsAreDue, ExecutionOf, FollowsMoves, RulesHold, PreparesAreOwn, ReadsAreFew};
ghost use Rattle.law_runs.specs.Malformed.{MalformedAreAnswered, MalformedEndAtOnce, VacuumsMeetMalformed};
ghost use Rattle.law_runs.specs.Moments.{IsSoundAfter, TraceOf, WritesPersistAfter};
ghost use Rattle.law_runs.specs.Vacuums.{VacuumsAreComplete};
ghost use Rattle.law_runs.specs.Written.{CommitsPrepareWritten, DecisionsFollowPoints, PreparesAreAsMany};

/// Each answer has its cause among the events, and a statement that is to be turned away is.
pub fn answers_have_causes()
    ensures { (x : ExecutionOf) → AreCaused x.script.catalog x.events }
{}

/// Where the events follow the script's moves, the calls of every statement are counted by those that were seen.
pub fn calls_are_counted()
    ensures { (x : ExecutionOf) → FollowsMoves x → AreCounted x.script.catalog x.events }
{}

/// Where the events follow the script's moves, each statement whose read finished had each unresolved record that it found rolled by calls
/// that were seen.
pub fn records_are_resolved()
    ensures { (x : ExecutionOf) → FollowsMoves x → AreResolved x.events }
{}

/// The rules of the protocol hold of the events.
pub fn rules_hold()
    ensures { (x : ExecutionOf) → RulesHold x }
{}

/// No call is about another table than the script's and the coordinator's.
pub fn calls_are_of_the_catalog()
    ensures { (x : ExecutionOf) → AreAbout x.script.catalog x.events }
{}

/// Each call of a client is one of a statement that the client took: what holds of the calls of all statements holds of all calls.
pub fn calls_are_of_statements()
    ensures { (x : ExecutionOf) → CallsAreOfStatements x.events }
{}

/// No COMMIT and no VACUUM is answered Busy.
pub fn busy_is_of_reads()
    ensures { (x : ExecutionOf) → BusyIsOfReads x.events }
{}

/// A call that prepares for a transaction is one of its own COMMIT, and each record that it puts has the moment that the clock showed when that
/// COMMIT was accepted. So a record expires 15 seconds after its transaction's COMMIT was accepted.
pub fn prepares_are_own()
    ensures { (x : ExecutionOf) → PreparesAreOwn x.events }
{}

/// A statement that is no COMMIT and no VACUUM reads rows of tables by one call at most; BEGIN and ROLLBACK make no call.
pub fn reads_are_few()
    ensures { (x : ExecutionOf) → ReadsAreFew x.events }
{}

/// A call that writes a transaction's row puts it where there is none. It is one of the transaction's own COMMIT; or else the row is ABORTED, and
/// the statement had read an unresolved record of the transaction, and then found no row of it while the clock showed 15 seconds or more than
/// the record's moment.
pub fn decisions_are_due()
    ensures { (x : ExecutionOf) → DecisionsAreDue x.events }
{}

/// A VACUUM scans the catalog's tables whole, each once, in their order, and deletes no committed record but tombstones that its scans found or
/// its rolls put. Where it is answered Count it has scanned all of them and has asked for the delete of each tombstone that its scans found;
/// and the count is that of the deletes that were applied. It makes one scan at most for each table, one delete for each tombstone that its scans
/// found, and five calls for each unresolved record.
pub fn vacuums_are_complete()
    ensures { (x : ExecutionOf) → VacuumsAreComplete x.script.catalog x.events }
{}

/// The answered statements of each transaction's body, recorded or not, were accepted under one catalog, with the columns that were added
/// before; and they give the answers that its client got where they run under it one after the other, each on what the transaction has found
/// so far, with what it made of it; and none of them reads at a key where the row found doesn't fit its table. What a statement found that was
/// refused, or met such a row, is found too.
pub fn transactions_run_on_found()
    ensures { (x : ExecutionOf) → RunsOnFound x.script.catalog x.events }
{}

/// Each call of a statement of a transaction, but of its COMMIT, that reads rows of tables is new after the statements before it: a get is of
/// no key at which they found something, and a scan of no span that they scanned.
pub fn reads_are_new()
    ensures { (x : ExecutionOf) → ReadsAreNew x.events }
{}

/// Each COMMIT prepares the keys that the statements of its transaction wrote on what they found, in groups: as these are made of the keys in
/// the order in which they were first written, one group by each call, each once, from the first. Before it puts its transaction's row
/// COMMITTED, the prepares of all groups were applied: so it makes as many prepares as there are groups, and these put as many records as keys
/// were written.
pub fn commits_prepare_written()
    ensures written { (x : ExecutionOf) → CommitsPrepareWritten x.script.catalog x.events }
    ensures counted { (x : ExecutionOf) → PreparesAreAsMany x.script.catalog x.events }
{}

/// A COMMIT that is answered made the calls of a COMMIT of its transaction over the replies that it got, and ends as that does. Committed, it
/// rolls forward each group of its writes, once and in order, and none back; Conflict, Expired, Faulted or out of memory, it rolls back, once and
/// in the order of the groups, each write of those whose prepare was applied or faulted, and no other, or none where its put of ABORTED failed;
/// with any other answer it rolls nothing. Or it was answered as it was accepted, that it was out of memory or that no transaction is open, and
/// has made no call. One that waits has made the first calls of such a COMMIT.
pub fn commits_are_paths()
    ensures answered { (x : ExecutionOf) → CommitsArePaths x.events }
    ensures waiting { (x : ExecutionOf) → OpenCommitsArePaths x.events }
{}

/// Where the events follow the script's moves, a call that puts a transaction's row COMMITTED is after the transaction's point, and each prepare
/// of its COMMIT was seen and applied, at the point or before it.
pub fn decisions_follow_points()
    ensures { (x : ExecutionOf) → FollowsMoves x → DecisionsFollowPoints x.events }
{}

/// A COMMIT in a transaction whose calls the stores served, none of which found a row of the coordinator, or something else than its
/// transaction had read, is answered Committed, and its put of COMMITTED was applied; or it was out of memory, and has made no such put.
pub fn uncontended_commits_complete()
    ensures { (x : ExecutionOf) → UncontendedCommitsComplete x.script.catalog x.events }
{}

/// A statement on a table that isn't rejected, whose calls the stores served and which observed no malformed record, is answered as one of its
/// kind: SELECT with rows, the others with a count, INSERT also with Duplicate. Or else it is answered Conflict, where its scan differs from what
/// its transaction had read; Busy, where a record that it read has not expired; BadRecord, where a row at a key that it reads, which its
/// transaction has read, doesn't fit its table; refused, where its transaction might write too many keys; or it was out of memory. Where it
/// observed no unresolved record it isn't answered Busy.
pub fn statements_complete()
    ensures ends { (x : ExecutionOf) → StatementsComplete x.script.catalog x.events }
    ensures resolved { (x : ExecutionOf) → ResolvedAreNotBusy x.events }
{}

/// A statement on a table whose read finds a record that isn't of the form of records, after some that are, is answered BadRecord of it, whatever
/// the stores replied; or a record before it ended the statement: Busy of one that is unresolved, BadRecord of its transaction's row, or Faulted,
/// for a call that faulted; or it was out of memory. Where each record before it is committed, the read is its only call, and it is answered
/// BadRecord of the record, or was out of memory. A VACUUM whose scan finds such a record is answered so too.
pub fn malformed_records_are_answered()
    ensures ends { (x : ExecutionOf) → MalformedAreAnswered x.events }
    ensures at_once { (x : ExecutionOf) → MalformedEndAtOnce x.events }
    ensures vacuum { (x : ExecutionOf) → VacuumsMeetMalformed x.events }
{}

/// Where the events follow the script's moves, each recovery of such a statement, or of a VACUUM, ends: the record is rolled, or found rolled,
/// or a VACUUM passes over it before it has expired. Or else the statement is answered Busy, before a record that it read has expired; or it was
/// out of memory.
pub fn recoveries_complete()
    ensures { (x : ExecutionOf) → FollowsMoves x → RecoveriesComplete x.script.catalog x.events }
{}

/// Where the events follow the script's moves, the stores served each call that was seen and wasn't out of memory.
pub fn seen_calls_are_served()
    ensures { (x : ExecutionOf) → FollowsMoves x → SeenAreServed x.events }
{}

/// Each beginning of an execution is an execution: what holds of every execution holds after any number of its events.
pub fn beginnings_are_executions()
    ensures { (x : ExecutionOf) (n : ℕ) → IsExecution x.script (take n x.events) }
{}

/// At every moment each key that a transaction recorded by then had prepared shows what it left there, or what a later one did.
pub fn writes_persist_at_every_moment()
    ensures { (x : ExecutionOf) (t : TraceOf x) (n : ℕ) → WritesPersistAfter x t n }
{}

/// At every moment each record in the script's tables passes the checks, and each record in the coordinator's table is a well formed row.
pub fn records_are_sound_at_every_moment()
    ensures { (x : ExecutionOf) (t : TraceOf x) (n : ℕ) → IsSoundAfter x t n }
{}

/// Events that no execution has, and the law that each of them breaks: a COMMIT that is answered Busy, a statement that is and has read
/// nothing, a COMMIT that is answered Faulted and has made no call, a VACUUM of a table that counts without a scan, a BEGIN that reads, a
/// prepare with another moment than the clock showed, a decision on another's transaction by a first call, and a decision by one call with
/// another record; and statements of a transaction:
/// a SELECT that shows a row without a read, leaves out the row that it found, is answered with rows over one that doesn't fit its table, shows a
/// row of a record that it found and didn't roll, or shows two rows where its LIMIT is 1, an UPDATE that counts rows without a read, an INSERT
/// that is counted over a row that it found or over its transaction's own row, a Duplicate where nothing was found, an INSERT that reads its
/// key again, and a SELECT that finds a malformed record, and is answered with rows, BadRecord of another key, or BadRecord after another call;
/// and a COMMIT that prepares a key that its transaction only read, or another key by one call with the one that it inserted, or puts its row
/// COMMITTED without an applied prepare of what its transaction inserted: without any, after one that faulted, or before one; one that is
/// answered Committed and hasn't rolled forward what it prepared, or has made a get in place of that, and one that is answered Conflict and rolls
/// back what it hasn't prepared.
pub fn forged_events_are_refused()
    ensures busy { (text : List ℕ) (key : Key) (id : TxId) (at : ℤ) → reads_commit text ≡ true → BusyIsOfReads (busy_at_once text key id at) → ⊥ }
    ensures idle_busy { (text : List ℕ) (key : Key) (id : TxId) (at : ℤ) → ResolvedAreNotBusy (busy_at_once text key id at) → ⊥ }
    ensures faulted { (catalog : List Table) (t : EmptyTransaction) → UncontendedCommitsComplete catalog (faults_at_once t) → ⊥ }
    ensures vacuumed { (t : Table) (text : List ℕ) → reads_vacuum text ≡ true → VacuumsAreComplete (t ∷ []) (counted_at_once text) → ⊥ }
    ensures begun { (text : List ℕ) (key : Key) → reads_begin text ≡ true → ReadsAreFew (reads_and_is_done text key) → ⊥ }
    ensures prepared { (text : List ℕ) (w : Write) (id : TxId) (now : ℤ) → IsOtherMoment id now → PreparesAreOwn (prepares_at text w id now) → ⊥ }
    ensures decided { (text : List ℕ) (id : TxId) (d : Decision) (now : ℤ) → IsOfOther id → DecisionsAreDue (decides_at_once text id d now) → ⊥ }
    ensures decided_beside { (text : List ℕ) (id : TxId) (d : Decision) (now : ℤ) (other : Put) → id.0 < 2 ^ 128 → DecisionsAreDue (decides_beside text id d now other) → ⊥ }
    ensures invented { (f : SelectOn) (row : List Value) (rows : List (List Value)) → RunsOnFound f.on.catalog (answers_unread f row rows) → ⊥ }
    ensures left_out { (f : SelectOn) (key : Key) (r : Record) → FindsRow f key r → RunsOnFound f.on.catalog (leaves_out f key r) → ⊥ }
    ensures misfit { (f : SelectOn) (key : Key) (r : Record) (rows : List (List Value)) → FindsMisfit f key r → RunsOnFound f.on.catalog (answers_rows f key r rows) → ⊥ }
    ensures unrolled { (f : SelectOn) (key : Key) (r : Record) (row : List Value) → FindsUnresolved f key r → RunsOnFound f.on.catalog (answers_unrolled f key r row) → ⊥ }
    ensures unlimited { (f : SelectOn) (q : Request) (r : Reply) (a b : List Value) → f.select.limit ≡ Some (pos 1) → RunsOnFound f.on.catalog (answers_two f q r a b) → ⊥ }
    ensures miscounted { (f : UpdateOn) (n : ℕ) → RunsOnFound f.on.catalog (counts_unread f n) → ⊥ }
    ensures counted_over { (f : InsertOn) (r : Record) → IsCommittedRow r → RunsOnFound f.on.catalog (counts_over f r) → ⊥ }
    ensures forgotten { (f : InsertOn) → RunsOnFound f.on.catalog (counts_twice f) → ⊥ }
    ensures no_duplicate { (f : InsertOn) → RunsOnFound f.on.catalog (duplicates_none f) → ⊥ }
    ensures read_again { (f : InsertOn) → ReadsAreNew (reads_again f) → ⊥ }
    ensures unwritten { (f : SelectOn) (r : Record) (row : List Value) (t : CommitText) → CommitsPrepareWritten f.on.catalog (prepares_unwritten f r row t) → ⊥ }
    ensures joined { (f : InsertOn) (t : CommitText) (w : Write) → CommitsPrepareWritten f.on.catalog (prepares_another f t w) → ⊥ }
    ensures unprepared { (f : InsertOn) (t : CommitText) → CommitsPrepareWritten f.on.catalog (decides_unprepared f t) → ⊥ }
    ensures unapplied { (f : InsertOn) (t : CommitText) → CommitsPrepareWritten f.on.catalog (decides_unapplied f t) → ⊥ }
    ensures malformed { (f : SelectOn) (key : Key) (r : Record) (rows : List (List Value)) → MeetsMalformed f key r → MalformedAreAnswered (answers_rows f key r rows) → ⊥ }
    ensures misnamed { (f : SelectOn) (key : Key) (r : Record) (other : Key) → MeetsMalformed f key r → other ≢ r.key → MalformedAreAnswered (answers_bad f key r other) → ⊥ }
    ensures late { (f : SelectOn) (key : Key) (r : Record) (other : Key) → MeetsMalformed f key r → MalformedEndAtOnce (answers_bad_later f key r other) → ⊥ }
    ensures early { (f : InsertOn) (t : CommitText) → DecisionsFollowPoints (decides_early f t) → ⊥ }
    ensures unfinished { (f : InsertOn) (t : CommitText) → CommitsArePaths (ends_unfinished f t) → ⊥ }
    ensures read_for_rolls { (f : InsertOn) (t : CommitText) (r : Record) → CommitsArePaths (reads_for_rolls f t r) → ⊥ }
    ensures rolled_unprepared { (f : InsertOn) (t : CommitText) (r : Record) → CommitsArePaths (rolls_unprepared f t r) → ⊥ }
{}
