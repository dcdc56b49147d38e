//! What the rows that a transaction sees mean.
ghost use Rattle.std.specs.Prelude.{◌≡◌, List, Option};
ghost use Rattle.sdb_snapshot.specs.Types.{Access, Key, Keyed, Record, Span, Write};
ghost use Rattle.sdb_model.specs.Exec.{Tables};
ghost use Rattle.sdb_snapshot.specs.Reads.{ReadRecord};
ghost use Rattle.sdb_model.specs.Access.{rows_at, with_changes};
ghost use Rattle.sdb_snapshot.specs.Rows.{with_own};
ghost use Rattle.sdb_snapshot.specs.Seen.{Agrees, Seen, forgotten, mark_of, overlay, with_get, with_scan};
ghost use Rattle.sdb_snapshot.specs.Written.{with_writes};

/// Where the read set has the rows of tables at the keys of an access, the overlay there has the rows of these tables with
/// the transaction's own writes laid over them, in the order of their keys.
pub fn overlay_is_rows()
    ensures { (s : Seen) (a : Access) (d : Tables) → Agrees s a d → overlay a s ≡ rows_at a (with_own d s.writes) }
{}

/// Changes that are written leave the tables that a transaction sees as the changes do, one after the other.
pub fn writes_are_changes()
    ensures { (d : Tables) (read_set : List ReadRecord) (ws : List Write) (ks : List Keyed) → with_own d (with_writes read_set ws ks) ≡ with_changes (with_own d ws) ks }
{}

/// A read that is forgotten leaves what there was before it.
pub fn reads_are_forgotten()
    ensures get { (s : Seen) (key : Key) (image : Option Record) → forgotten (mark_of s) (with_get s key image) ≡ s }
    ensures scan { (s : Seen) (span : Span) (images : List Record) → forgotten (mark_of s) (with_scan s span images) ≡ s }
{}
