//! What plans mean.
ghost use Rattle.std.specs.Prelude.{◌≡◌, true, List};
ghost use Rattle.std.specs.FinMap.{get};
ghost use Rattle.sdb_exec.specs.Types.{Access, Image, Key, Statement, Table};
ghost use Rattle.sdb_model.specs.Exec.{Tables};
ghost use Rattle.sdb_model.specs.Access.{in_access, rows_at};
ghost use Rattle.sdb_exec.specs.Asked.{AcceptedStatement, AreReadable, AskedPlan, FinishesAsExec, rows_are_well_typed};
ghost use Rattle.sdb_exec.specs.Plans.{all_well_typed, changes_on, keys_rise, row_keys, change_keys, change_is_well_typed};
ghost use Rattle.std.specs.List.{list_all};

/// On the rows of its access a plan finishes as its statement does on the whole tables, with the same answer and the same
/// tables after it: where all rows of its table fit, and also where those that it reads do and each other one has a key
/// with a value for each column of the primary key.
pub fn plan_is_exec()
    ensures fitting { (a : AskedPlan) (d : Tables) → all_well_typed a.plan.table d ≡ true → FinishesAsExec a d }
    ensures shaped { (a : AskedPlan) (d : Tables) → AreReadable a d → FinishesAsExec a d }
{}

/// Tables that agree at the keys of an access have the same rows there, so a plan finishes on both alike.
pub fn access_is_local()
    ensures { (a : Access) (d e : Tables) → ((q : Key) → in_access a q ≡ true → get d q ≡ get e q) → rows_at a d ≡ rows_at a e }
{}

/// The rows of an access rise strictly by key, and on such rows so do a plan's changes.
pub fn changes_in_key_order()
    ensures rows { (a : Access) (d : Tables) → keys_rise (row_keys (rows_at a d)) ≡ true }
    ensures changes { (t : Table) (s : Statement) (rows : List Image) → keys_rise (row_keys rows) ≡ true → keys_rise (change_keys (changes_on t s rows)) ≡ true }
{}

/// The rows that a statement writes fit its table, where the statement isn't refused, an insert has as many literals as names,
/// and the rows that were read fit.
pub fn changes_are_well_typed()
    ensures { (s : AcceptedStatement) (rows : List Image) → rows_are_well_typed s.table rows ≡ true → list_all (change_is_well_typed s.table) (changes_on s.table s.statement rows) ≡ true }
{}
