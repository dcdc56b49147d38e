//! Tables whose rows all fit, and what plans come to on them.
ghost use Rattle.std.specs.Prelude.{◌≡◌, true, List, is_some};
ghost use Rattle.law_clients.specs.Types.{Key, Table};
ghost use Rattle.sdb_model.specs.Exec.{find_table};
ghost use Rattle.law_clients.specs.Body.{AnswersOn};
ghost use Rattle.law_clients.specs.Left.{IsFitting};
ghost use Rattle.law_clients.specs.Fitting.{tables_are_well_typed};
ghost use Rattle.law_clients.specs.Turns.{FinishedPlan, access_in};
ghost use Rattle.sdb_model.specs.Tables.{is_data};

/// Empty tables fit, tables that fit go on to fit when a column is added, and they have no row outside the catalog's tables, of which none is
/// the coordinator's. Where a plan finishes on the rows that a transaction sees, its answer and its changes are those of its statement on
/// all tables that fit and have these rows there, and the tables that it leaves fit.
pub fn plans_on_fitting_tables()
    ensures fitting { (catalog : List Table) → ((k : Key) → is_some (find_table catalog k.table) ≡ true → is_data k ≡ true) → IsFitting catalog tables_are_well_typed }
    ensures answers { (p : FinishedPlan) → AnswersOn p.catalog (tables_are_well_typed p.catalog) p.seen p.plan.statement (access_in p) p.answer p.changes }
{}
