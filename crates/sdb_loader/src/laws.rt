//! Laws of the definitions that contracts cite.
ghost use Rattle.std.specs.Prelude.{◌≡◌, ℕ, List, true, Some};
ghost use Rattle.sdb_types.specs.declared.key.TableName.{TableName};
ghost use Rattle.sdb_types.specs.Order.{table_text};
ghost use Rattle.sdb_record.specs.Parts.{is_column_name};
ghost use Rattle.sdb_schema.specs.declared.table.Direction.TheVariants.{Asc};
ghost use Rattle.sdb_schema.specs.declared.table.Order.{Order};
ghost use Rattle.sdb_loader.specs.Words.{names_table, table_named, order_named, IsOrderText};
ghost use Rattle.sdb_loader.specs.Directed.{DirectedColumn, directed_order, directed_text};

/// A text names a table where it is the text of that table, whose names a schema may use, and nowhere else.
pub fn table_texts()
    ensures text { (text : List ℕ) (t : TableName) → table_named text ≡ Some t → table_text t ≡ text }
    ensures names { (text : List ℕ) (t : TableName) → table_named text ≡ Some t → names_table t.ns t.table ≡ true }
    ensures named { (t : TableName) → names_table t.ns t.table ≡ true → table_named (table_text t) ≡ Some t }
{}

/// A text is a clustering column where it is a column's name alone, which ascends, or has one space and a direction after
/// the name, and nowhere else.
pub fn order_texts()
    ensures alone { (name : List ℕ) → is_column_name name ≡ true → order_named name ≡ Some (record { name = name; direction = Asc }) }
    ensures behind { (c : DirectedColumn) → order_named (directed_text c) ≡ Some (directed_order c) }
    ensures only { (text : List ℕ) (o : Order) → order_named text ≡ Some o → IsOrderText text o }
{}
