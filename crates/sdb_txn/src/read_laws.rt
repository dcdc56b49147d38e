//! What holds of the records of a read, whatever it is answered.
ghost use Rattle.std.specs.Prelude.{ℤ};
ghost use Rattle.sdb_txn.specs.Types.{Reply, Request};
ghost use Rattle.sdb_phases.specs.Steps.{CanGet};
ghost use Rattle.sdb_txn.specs.Read.{ReadStage, read_pending_at, read_step};
ghost use Rattle.sdb_txn.specs.Valid.{IsValid};

/// After any replies the images of a read are committed records, and lie, with the rows that are left, where the request asks.
pub fn images_are_valid()
    ensures { (q : Request) (s : ReadStage) (now : ℤ) (r : Reply) → IsValid q s → CanGet (read_pending_at q s) r → IsValid q (read_step s now r) }
{}
