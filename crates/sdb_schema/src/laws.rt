//! Laws of the definitions that contracts cite.
ghost use Rattle.std.specs.Prelude.{◌≡◌};
ghost use Rattle.std.specs.Cmp.{IsTotalOrder};
ghost use Rattle.std.specs.declared.cmp.Ordering.TheVariants.{Equal};
ghost use Rattle.sdb_types.specs.declared.key.Key.{Key};
ghost use Rattle.sdb_schema.specs.declared.table.Table.{Table};
ghost use Rattle.sdb_schema.specs.Order.{row_key_cmp};

/// The keys of a table are in one total order, and only equal keys tie.
pub fn row_order()
    ensures total { (t : Table) → IsTotalOrder (row_key_cmp t) }
    ensures exact { (t : Table) (a b : Key) → row_key_cmp t a b ≡ Equal → a ≡ b }
{}
