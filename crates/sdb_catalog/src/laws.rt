//! Laws of the definitions that contracts cite.
ghost use Rattle.std.specs.Prelude.{◌≡◌, ◌∷◌, [], ℕ, List, map, true, Ok};
ghost use Rattle.sdb_catalog.specs.Types.{Key, Place, Record, Table};
ghost use Rattle.sdb_schema.specs.Added.{with_column};
ghost use Rattle.sdb_stores.specs.Views.{route_of};
ghost use Rattle.sdb_schema.specs.Table.{is_table};
ghost use Rattle.sdb_loader.specs.Described.{described_table};
ghost use Rattle.sdb_catalog.specs.declared.entry.Entry.{Entry};
ghost use Rattle.sdb_catalog.specs.Definition.{definition_text};
ghost use Rattle.sdb_catalog.specs.Known.{CatalogState, IsWith, IncludesRecords, created_in, lines_of, state_after};
ghost use Rattle.sdb_catalog.specs.Altered.{GrownCatalog};
ghost use Rattle.sdb_catalog.specs.Opened.{Follow, IsFirstBad, Opens, store_in, tables_of};
ghost use Rattle.sdb_catalog.specs.Rows.{row_of};

/// What a table's definition describes under the table's name is the table.
pub fn definitions()
    ensures again { (t : Table) → is_table t ≡ true → described_table t.name (definition_text t) ≡ Ok (t ∷ []) }
{}

/// The rows of entries that may follow one another open as these entries, and rows open as one list of entries: so the rows of a
/// catalog are read back as that catalog.
pub fn rows_are_read_back()
    ensures opened { (names : List (List ℕ)) (es : List Entry) → Follow names [] es → Opens names (map row_of es) es }
    ensures one { (names : List (List ℕ)) (rows : List Record) (es fs : List Entry) → Opens names rows es → Opens names rows fs → es ≡ fs }
{}

/// Rows that open as entries have no first bad row, and other rows have at most one.
pub fn bad_rows_are_exact()
    ensures none { (names : List (List ℕ)) (rows : List Record) (es : List Entry) (key : Key) → Opens names rows es → IsFirstBad names rows key → ⊥ }
    ensures one { (names : List (List ℕ)) (rows : List Record) (a b : Key) → IsFirstBad names rows a → IsFirstBad names rows b → a ≡ b }
{}

/// Tables that are written one after the other add entries to the catalog, of those that are created, and the rows of these to its
/// store. Nothing else changes, and no record that is there is put over.
pub fn tables_are_added()
    ensures added { (ps : List Place) (first : List ℕ) (s : CatalogState) (ts : List Table) → IsWith (created_in (lines_of ps first s ts)) s (state_after ps first s ts) }
    ensures kept { (ps : List Place) (first : List ℕ) (s : CatalogState) (ts : List Table) → IncludesRecords s.contents (state_after ps first s ts).contents }
{}

/// Where a table was given a column, the rows open as no other catalog than that of before with the column, and each namespace is placed on
/// the store where it was.
pub fn columns_are_added()
    ensures opened { (x : GrownCatalog) → x.catalog ≡ with_column (tables_of x.grown.entries) x.name x.column }
    ensures placed { (x : GrownCatalog) (ns : List ℕ) → route_of ns x.places ≡ store_in x.grown.entries ns }
{}
