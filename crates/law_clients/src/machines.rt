//! The machine of a read refines the model of clients.
ghost use Rattle.std.specs.Prelude.{◌≡◌, ℤ};
ghost use Rattle.law_clients.specs.Types.{Access, Reply};
ghost use Rattle.sdb_txn.specs.Read as machine;
ghost use Rattle.law_clients.specs.Machine.{abstract_read};
ghost use Rattle.law_clients.specs.ReadAt.{read_pending, read_step};

/// The machine of a read goes as the laws of clients say: it asks for the same calls, and is led by a reply where they lead it.
pub fn reads_by_machine()
    ensures pending { (a : Access) (s : machine.ReadStage) → machine.read_pending_at (machine.request_of a) s ≡ read_pending a (abstract_read s) }
    ensures steps { (s : machine.ReadStage) (now : ℤ) (r : Reply) → abstract_read (machine.read_step s now r) ≡ read_step (abstract_read s) now r }
{}
