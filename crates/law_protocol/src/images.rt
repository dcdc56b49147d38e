//! Laws of images and of the order of writers.
ghost use Rattle.law_protocol.specs.Explained.{EarlierPrepareHadRow, ImageIsLastWriter, PointsDiffer, RemovedBeforeBegin, WritersInOrder};
ghost use Rattle.law_protocol.specs.Runs.{LawfulRun, history_of, contents_of_run};

/// The committed image of each key is what the last recorded writer by point left; there is none where nobody recorded wrote it,
/// or where the last one deleted the row and VACUUM removed the tombstone.
pub fn image_is_last_writer()
    ensures { (r : LawfulRun) → ImageIsLastWriter r.plan r.places (history_of r) (contents_of_run r) }
{}

/// Whose tombstone was removed was recorded before each open transaction of a client that hasn't stopped began.
pub fn removed_before_begin()
    ensures { (r : LawfulRun) → RemovedBeforeBegin (history_of r) }
{}

/// Of two transactions that prepared one key, the first had its row before the second prepared.
pub fn earlier_prepare_had_row()
    ensures { (r : LawfulRun) → EarlierPrepareHadRow (history_of r) }
{}

/// Recorded writers of a key are in one order by prepare and by point.
pub fn writers_in_order()
    ensures { (r : LawfulRun) → WritersInOrder r.plan (history_of r) }
{}

/// Two recorded transactions have two points.
pub fn points_differ()
    ensures { (r : LawfulRun) → PointsDiffer (history_of r) }
{}
