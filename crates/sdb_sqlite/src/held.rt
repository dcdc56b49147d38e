//! Databases whose contents are known.
ghost use Rattle.std.specs.Prelude.{◌≡◌, Bool, IsTrue, true, false, refl};
ghost use Rattle.sqlite.specs.View.{doubt};

use sqlite::{Alter, FileStore, MemStore};
use sqlite_disk::Disk;

/// What a database is kept in, and whether its contents are known: in memory they are, and in a file, which others may
/// change, they aren't. The trait has no calls of its own.
pub trait Held: Alter {
    ghost is_known: { Bool };

    /// One of known contents is always open, and returns what was written.
    ghost answered: { IsTrue is_known → (s : Self) → IsTrue (Self.Store.view s).is_open × (doubt (Self.Store.view s).is_clean ≡ 0) };
}

impl Held for MemStore {
    ghost use Rattle.sqlite_trees.proofs.Doubt.{no_doubt};

    ghost is_known = { true };

    ghost answered = { λ _ s. (refl, no_doubt true refl) };
}

impl<D: Disk> Held for FileStore<D> {
    ghost use Rattle.std.proofs.Common.{true≢false, sym};

    ghost is_known = { false };

    ghost answered = { λ h s. absurd (true≢false (sym h)) };
}
