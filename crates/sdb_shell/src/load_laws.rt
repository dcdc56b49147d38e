//! Laws of the statements that are accepted.
ghost use Rattle.std.specs.Prelude.{◌≡◌, List, true};
ghost use Rattle.std.specs.List.{AllByRecursion};
ghost use Rattle.sdb_shell.specs.Types.{Mode, Table, Value};
ghost use Rattle.sdb_schema.specs.Table.{is_table};
ghost use Rattle.sdb_model.specs.declared.statement.Statement.TheVariants as statement;
ghost use Rattle.sdb_shell.specs.Groups.{IsParsedAsItself};
ghost use Rattle.sdb_shell.specs.Statements.{AreRead, has_short_name, load_of, row_statement, rows_after, select_all};

/// Each statement of a load and of an export is accepted as itself by its printed text. The rows are such as `read_table` gives, and the
/// table's names have at most 64 bytes.
pub fn statements_are_parsed()
    ensures rows { (t : Table) (m : Mode) (rows : List (List Value)) → is_table t ≡ true → has_short_name t ≡ true → AreRead t m rows
        → AllByRecursion (λ row. IsParsedAsItself (row_statement (load_of t m rows) row)) (rows_after rows) }
    ensures select { (t : Table) → has_short_name t ≡ true → IsParsedAsItself (select_all t) }
    ensures begin { IsParsedAsItself statement.Begin }
    ensures commit { IsParsedAsItself statement.Commit }
    ensures rollback { IsParsedAsItself statement.Rollback }
{}
