//! Laws of reading and writing.
ghost use Rattle.std.specs.Prelude.{◌≡◌, ◌∷◌, List, true, Ok};
ghost use Rattle.std.specs.List.{list_all};
ghost use Rattle.sdb_types.specs.declared.value.Value.{Value};
ghost use Rattle.sdb_schema.specs.declared.table.Table.{Table};
ghost use Rattle.sdb_schema.specs.Table.{is_table};
ghost use Rattle.sdb_data.specs.declared.fault.Mode.{Mode};
ghost use Rattle.sdb_data.specs.Printed.{can_load, header_row, is_row, printed};
ghost use Rattle.sdb_data.specs.Tables.{table_in};

/// What is written of a table's rows is read as the names of its columns and the same rows, in each mode in which they may be loaded.
pub fn printed_rows_are_read()
    ensures { (t : Table) (m : Mode) (rows : List (List Value)) → is_table t ≡ true → can_load t m ≡ true → list_all (is_row t) rows ≡ true
        → table_in t m (printed t rows) ≡ Ok (header_row t ∷ rows) }
{}
