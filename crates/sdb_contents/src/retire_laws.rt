//! Laws of what a retirement leaves.
ghost use Rattle.std.specs.Prelude.{◌≡◌, ℕ, List, map};
ghost use Rattle.sdb_contents.specs.Types.{Entry, Key, Place};
ghost use Rattle.sdb_model.specs.Events.{StoreContents, stored_at};
ghost use Rattle.sdb_model.specs.Images.{image_at};
ghost use Rattle.sdb_catalog.specs.Opened.{Opens, tables_of};
ghost use Rattle.sdb_catalog.specs.Rows.{row_of};
ghost use Rattle.sdb_contents.specs.Dropped.{IsReopened, Reopening};
ghost use Rattle.sdb_contents.specs.Imaged.{image_by};
ghost use Rattle.sdb_contents.specs.Retired.{IsLeftWith, IsMovingCatalog, IsPartlySettled, HasTarget, Retirement, over, settled};

/// The rows of a catalog of which namespaces move, each row that names the store given up renewed, open as the entries so renewed, over
/// the stores that are left. They give the same tables.
/// Where only some of them were renewed, as a refusal may leave them, the rows still open as those of a catalog of which namespaces move.
pub fn renewed_rows_open()
    ensures opened { (r : Retirement) (left : List (List ℕ)) → IsLeftWith r left → IsMovingCatalog r → Opens left (map row_of (settled r)) (settled r) }
    ensures again { (r : Retirement) (es : List Entry) → HasTarget r → IsPartlySettled r es → IsMovingCatalog r → IsMovingCatalog (over r es) }
    ensures tables { (r : Retirement) → tables_of (settled r) ≡ tables_of r.entries }
{}

/// What `open_catalog` returns once a store was retired, where the rows open as other entries of the same tables: the tables that the
/// catalog's rows gave before.
pub fn catalog_is_preserved()
    ensures tables { (r : Reopening) (before : List Entry) → IsReopened r before → r.tables ≡ tables_of before }
{}

/// The images that stay are those of the model, of what is at each key by its places.
pub fn images_are_the_models()
    ensures same { (places : List Place) (store_contents : List StoreContents) (key : Key) → image_at places store_contents key ≡ image_by (stored_at places store_contents) key }
{}
