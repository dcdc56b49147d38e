//! What clients know: at the start, through other clients' events, and as a COMMIT takes it.
ghost use Rattle.std.specs.Prelude.{◌≡◌, ◌<◌, ◌+◌, ◌%◌, ◌^◌, ℕ, ℤ, List, ◌∷◌, [], Option, true, false};
ghost use Rattle.law_clients.specs.Types.{Access, Answer, Record, TxId};
ghost use Rattle.sdb_record.specs.Meta.{is_moment};
ghost use Rattle.law_protocol.specs.Plan.{Plan};
ghost use Rattle.law_protocol.specs.Lawful.{Labelled, IsLawful, IsEnabled, protocol_state};
ghost use Rattle.sdb_phases.specs.Work.{Work};
ghost use Rattle.sdb_snapshot.specs.Seen.{Seen};
ghost use Rattle.law_clients.specs.Knowledge.{AreObserved, IsOthers, RecoverReply, RecoversOn, RowsReply, SettlesOn, recovery_action};
ghost use Rattle.law_clients.specs.Reads.{SeenOk, Sound, Settled, work_of};
ghost use Rattle.law_clients.specs.Owner.{WorkOk};
ghost use Rattle.law_clients.specs.ReadAt.{IsKind, ReadOk, settle};
ghost use Rattle.law_clients.specs.Worked.{SomeCommit};
ghost use Rattle.law_clients.specs.System.{ClientAt, ClientOk, SystemAt, SystemOk, SamePlans, call_event, idle, next_id};
ghost use Rattle.sdb_txn.specs.Read.{kind_of};

/// Before the first event no client has done anything, and the invariant holds.
pub fn nothing_happened()
    ensures { (plan : ℕ → Plan) → SystemOk plan [] idle }
{}

/// An event of another client that the rules let through, and that ends no transaction but its own client's, leaves a client
/// knowing what it knew.
pub fn others_leave()
    ensures { (plan : ℕ → Plan) (past : List Labelled) (c d : ℕ) (q : Labelled) (x : ClientAt) → IsOthers plan past c d q → ClientOk plan past d x → ClientOk plan (q ∷ past) d x }
{}

/// Whatever call of a recovery is pending, the rules let it through, and whatever its reply, the recovery knows what its next
/// call needs.
pub fn recovers()
    ensures may { (plan : ℕ → Plan) (past : List Labelled) (r : RecoverReply past) (answered : Option Answer) → IsEnabled plan past (call_event r.call answered) (recovery_action r) }
    ensures knows { (past : List Labelled) (r : RecoverReply past) (answered : Option Answer) → RecoversOn r answered }
{}

/// A record is of the kind that its columns give.
pub fn kinds_are_exact()
    ensures { (r : Record) → IsKind r (kind_of r) }
{}

/// Rows that were observed are settled, each unresolved one by a recovery: each image is a committed record of its key to which a
/// read of it came, and the keys of the images are those of the access, in their order.
pub fn rows_settle()
    ensures first { (past : List Labelled) (a : Access) (images left : List Record) → AreObserved past a images left → ReadOk past a (settle images left) }
    ensures next { (past : List Labelled) (a : Access) (r : RowsReply past a) (answered : Option Answer) → SettlesOn r answered }
{}

/// What a transaction has read and written is fit for its COMMIT: of itself, by what the events showed, and as the plan that the
/// rules quote.
pub fn work_is_valid()
    ensures sound { (past : List Labelled) (id : TxId) (now : ℤ) (s : Seen) → id.0 < 2 ^ 128 → is_moment now ≡ true → SeenOk past s → Sound (work_of id now s) }
    ensures settled { (past : List Labelled) (id : TxId) (now : ℤ) (s : Seen) → SeenOk past s → Settled past (work_of id now s) }
    ensures plan { (p : Work) → Sound p → WorkOk p }
{}

/// Before its COMMIT is accepted a transaction's plan is free: with other plans, the same for each transaction whose COMMIT was
/// accepted, the rules hold too, and the same holds of all clients.
pub fn plans_are_free()
    ensures lawful { (plan other : ℕ → Plan) (past : List Labelled) → SamePlans plan other past → IsLawful plan past → IsLawful other past }
    ensures system { (plan other : ℕ → Plan) (past : List Labelled) (sys : SystemAt) → SamePlans plan other past → SystemOk plan past sys → SystemOk other past sys }
{}

/// A transaction whose COMMIT was accepted has begun, and its number says which of its client's transactions it is, from 1.
pub fn committing_has_begun()
    ensures { (plan : ℕ → Plan) (past : List Labelled) (sys : SystemAt) (t : ℕ) → SystemOk plan past sys → (protocol_state past).accepted t ≡ true → 0 < t % 2 ^ 64 }
{}

/// The id of a client's next transaction has not begun, nor was a COMMIT accepted under it.
pub fn next_is_fresh()
    ensures begun { (plan : ℕ → Plan) (past : List Labelled) (sys : SystemAt) (c : ℕ) → SystemOk plan past sys → sys.begun c + 1 < 2 ^ 64 → (protocol_state past).begun (next_id sys c).0 ≡ 0 }
    ensures accepted { (plan : ℕ → Plan) (past : List Labelled) (sys : SystemAt) (c : ℕ) → SystemOk plan past sys → sys.begun c + 1 < 2 ^ 64 → (protocol_state past).accepted (next_id sys c).0 ≡ false }
{}

/// From clients that have done nothing the laws lead to a client that has begun a transaction, read and written a row, and put
/// COMMITTED, which was applied: what they ask can be given.
pub fn a_client_commits()
    ensures { SomeCommit }
{}
