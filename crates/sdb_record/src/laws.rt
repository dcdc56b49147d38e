//! Laws of the definitions that contracts cite.
ghost use Rattle.std.specs.Prelude.{◌≡◌, ℤ, ◌<◌, ◌^◌, true, List, None, Some, Ok, Option};
ghost use Rattle.std.specs.List.{AllByRecursion};
ghost use Rattle.std.specs.List.Sorted.{IsPermutation};
ghost use Rattle.sdb_record.specs.Types.{Record, State, TxId};
ghost use Rattle.sdb_types.specs.declared.record.State.TheVariants.{Committed};
ghost use Rattle.sdb_types.specs.Contents.{is_version};
ghost use Rattle.sdb_record.specs.declared.coordinator.Decided.{Decided};
ghost use Rattle.sdb_record.specs.declared.coordinator.Decision.{Decision};
ghost use Rattle.sdb_record.specs.declared.coordinator.Decision.TheVariants as decision;
ghost use Rattle.sdb_record.specs.declared.meta.Meta.{Meta};
ghost use Rattle.sdb_record.specs.declared.write.Write.{Write};
ghost use Rattle.sdb_record.specs.Groups.{IsGroup, grouped, in_groups};
ghost use Rattle.sdb_record.specs.Parts.{before_record};
ghost use Rattle.sdb_record.specs.Meta.{checked, id_in, is_in, is_moment, is_transactional, is_unresolved};
ghost use Rattle.sdb_record.specs.Coordinator.{coordinator_key_of, coordinator_row_of, decision_in, id_of_key};
ghost use Rattle.sdb_record.specs.Rolls.{IsWrite, state_of_change, forward_record, back_of, back_to, image_of, row_of_image, row_of_change};
ghost use Rattle.sdb_record.specs.Prepared.{DecisionMade, IsPreparable, PreparedWrite, TransactionalImage, decided_at, forwarded, meta_put, record_put, row_made};

/// What a transaction puts for a write is a transactional record of that key, unresolved and of that transaction.
pub fn prepared_is_unresolved()
    ensures key { (p : PreparedWrite) → (record_put p).key ≡ p.write.key }
    ensures version { (p : PreparedWrite) → is_version p.id (state_of_change p.write.change) (record_put p) ≡ true }
    ensures unresolved { (p : PreparedWrite) → IsPreparable p → is_unresolved (record_put p) ≡ true }
    ensures meta { (p : PreparedWrite) → IsPreparable p → checked (record_put p).columns ≡ Ok (meta_put p) }
{}

/// Rolled back, it is the base again, bit by bit, or is removed where there was none.
pub fn rolled_back_is_base()
    ensures base { (p : PreparedWrite) → IsWrite p.write → before_record (record_put p) ≡ p.write.base }
    ensures back { (p : PreparedWrite) → IsWrite p.write → back_of (record_put p) ≡ back_to p.write.key p.write.base }
{}

/// Rolled forward, it is the committed record of that transaction, and shows the row that was written.
pub fn rolled_forward_is_row()
    ensures version { (p : PreparedWrite) (created_at : ℤ) → is_version p.id Committed (forwarded p created_at) ≡ true }
    ensures row { (p : PreparedWrite) (created_at : ℤ) → IsWrite p.write → row_of_image (forwarded p created_at) ≡ row_of_change p.write.change }
{}

/// Its image is the base until a row says COMMITTED, and then it rolled forward.
pub fn image_of_prepared()
    ensures undecided { (p : PreparedWrite) → IsWrite p.write → image_of (record_put p) None ≡ p.write.base }
    ensures aborted { (p : PreparedWrite) (at : ℤ) → IsWrite p.write → image_of (record_put p) (Some (decided_at decision.Aborted at)) ≡ p.write.base }
    ensures committed { (p : PreparedWrite) (at : ℤ) → image_of (record_put p) (Some (decided_at decision.Committed at)) ≡ Some (forwarded p at) }
{}

/// What any unresolved record is rolled forward to is a committed record of its key and of its transaction.
pub fn forward_is_committed()
    ensures key { (r : Record) (created_at : ℤ) → (forward_record r created_at).key ≡ r.key }
    ensures writer { (r : Record) (created_at : ℤ) → id_in (forward_record r created_at).columns ≡ id_in r.columns }
    ensures committed { (r : Record) (created_at : ℤ) → is_in Committed (forward_record r created_at).columns ≡ true }
    ensures accepted { (r : Record) (created_at : ℤ) → is_unresolved r ≡ true → is_moment created_at ≡ true → is_transactional (forward_record r created_at) ≡ true }
{}

/// The image of a transactional record is a committed record of its key. A committed record is its own.
pub fn image_is_committed()
    ensures itself { (r : Record) (d : Option Decided) → is_in Committed r.columns ≡ true → image_of r d ≡ Some r }
    ensures key { (i : TransactionalImage) → i.image.key ≡ i.found.key }
    ensures accepted { (i : TransactionalImage) → is_transactional i.image ≡ true }
    ensures committed { (i : TransactionalImage) → is_in Committed i.image.columns ≡ true }
{}

/// A record is the version that its metadata says, and a version names the writer.
pub fn version_is_writer()
    ensures meta { (r : Record) (m : Meta) → checked r.columns ≡ Ok m → is_version m.id m.state r ≡ true }
    ensures writer { (r : Record) (id : TxId) (s : State) → id.0 < 2 ^ 128 → is_version id s r ≡ true → id_in r.columns ≡ Some id }
{}

/// Grouped, writes are the same writes: each group has from 1 to 64 of them, of one partition of one table, and writes in the order of their
/// groups are grouped alike.
pub fn groups_hold()
    ensures each { (ws : List Write) → AllByRecursion IsGroup (grouped ws) }
    ensures same { (ws : List Write) → IsPermutation ws (in_groups ws) }
    ensures again { (ws : List Write) → grouped (in_groups ws) ≡ grouped ws }
{}

/// A coordinator row is at its transaction's key, and its decision is read back.
pub fn row_is_decision()
    ensures key { (id : TxId) (d : Decision) (created_at : ℤ) → (coordinator_row_of id d created_at).key ≡ coordinator_key_of id }
    ensures id { (id : TxId) → id.0 < 2 ^ 128 → id_of_key (coordinator_key_of id) ≡ Some id }
    ensures decision { (m : DecisionMade) → decision_in (row_made m) ≡ Ok (decided_at m.decision m.created_at) }
{}
