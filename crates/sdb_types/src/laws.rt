//! Laws of the definitions that contracts cite.
ghost use Rattle.std.specs.Prelude.{◌≡◌, ◌≢◌, ℕ, List, true, Option, Some, None, if◌then◌else◌};
ghost use Rattle.std.specs.Cmp.{IsTotalOrder};
ghost use Rattle.std.specs.Cmp.Lexicographic.{slice_cmp};
ghost use Rattle.std.specs.Ordering.{nat_cmp};
ghost use Rattle.std.specs.declared.cmp.Ordering.TheVariants.{Equal};
ghost use Rattle.sdb_types.specs.declared.key.Key.{Key};
ghost use Rattle.sdb_types.specs.declared.pair.Pair.{Pair};
ghost use Rattle.sdb_types.specs.Columns.{are_columns, column, with_column, is_null};
ghost use Rattle.sdb_types.specs.declared.key.TableName.{TableName};
ghost use Rattle.sdb_types.specs.Identifier.{is_name};
ghost use Rattle.sdb_types.specs.Order.{value_cmp, key_cmp, table_cmp, table_text};
ghost use Rattle.sdb_types.specs.declared.value.Value.{Value};
ghost use Rattle.sdb_types.specs.declared.record.Request.{Request};
ghost use Rattle.sdb_types.specs.Contents.{Contents, CanAnswer, reply_to};

/// Keys are in one total order, and only equal keys tie.
pub fn key_order()
    ensures total { IsTotalOrder key_cmp }
    ensures exact { (a b : Key) → key_cmp a b ≡ Equal → a ≡ b }
    ensures itself { (a : Key) → key_cmp a a ≡ Equal }
{}

/// Values are in one total order, and only equal values tie.
pub fn value_order()
    ensures total { IsTotalOrder value_cmp }
    ensures exact { (a b : Value) → value_cmp a b ≡ Equal → a ≡ b }
    ensures itself { (a : Value) → value_cmp a a ≡ Equal }
{}

/// Tables are in the order of their texts.
pub fn table_order()
    ensures { (a b : TableName) → is_name a.ns ≡ true → is_name b.ns ≡ true → slice_cmp nat_cmp (table_text a) (table_text b) ≡ table_cmp a b }
{}

/// Columns are a map from names to values, without Null: a column that was set reads as its value, or as none where it
/// is Null, every other column stays, and columns that read alike at every name are equal.
pub fn columns_map()
    ensures set { (p : Pair) (ps : List Pair) → are_columns ps ≡ true → column (with_column p ps) p.name ≡ (if is_null p.value then None else Some p.value) }
    ensures others { (p : Pair) (ps : List Pair) (name : List ℕ) → are_columns ps ≡ true → name ≢ p.name → column (with_column p ps) name ≡ column ps name }
    ensures columns { (p : Pair) (ps : List Pair) → are_columns ps ≡ true → are_columns (with_column p ps) ≡ true }
    ensures equal { (a b : List Pair) → are_columns a ≡ true → are_columns b ≡ true → ((name : List ℕ) → column a name ≡ column b name) → a ≡ b }
{}

/// What a store of known contents answers is a reply that the request can get from any store.
pub fn store_replies()
    ensures { (q : Request) (m : Contents) → CanAnswer q (reply_to q m) }
{}
