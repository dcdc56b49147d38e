//! The script of a bench.
ghost use Rattle.std.specs.Prelude.{◌≡◌, ◌<◌, ◌≤◌, ◌++◌, ◌∷◌, ◌*◌, [], map, true, codes, IfOk, OnOk};
ghost use Rattle.sdb_schema.specs.declared.table.Direction.TheVariants.{Asc};
ghost use Rattle.sdb_schema.specs.Table.{is_table};
ghost use Rattle.sdb_schema.specs.Catalog.{with_table};
ghost use Rattle.sdb_bench.specs.Draws.{numbers_below, state_after};
ghost use Rattle.sdb_bench.specs.Setup.{bench_catalog as bench_catalog_lem, bench_table as bench_table_lem, cell_of as cell_of_lem, int_column as int_column_lem, namespace_of};
ghost use Rattle.sdb_bench.specs.Script.{bench_moves as bench_moves_lem, bench_places as bench_places_lem, bench_script_of, step_drawn};

use crate::clients::{bench_clients, named};
use crate::draws::Draws;
use crate::side::Side;
use sdb_model::{Act, Move, Moves, Place, Places, Script};
use sdb_schema::{Catalog, Column, ColumnList, Direction, Kind, Order, Orders, Table};
use sdb_types::{Duplicate, Name, Names, NoMemory, TableName};
use std::alloc::Global;

// ---- the catalog

fn cell_of(alloc: Global, side: Side) -> Result<TableName, NoMemory>
    ensures { IfOk result (λ name. name ≡ cell_of_lem side) }
{
    let ns = named(alloc, side.namespace())?;
    let table = named(alloc, "cell")?;
    Ok(TableName { ns, table })
}

fn int_column(name: &Name) -> Result<Column, NoMemory>
    ensures { IfOk result (λ column. column ≡ int_column_lem name.now) }
{
    Ok(Column {
        name: name.copy()?,
        kind: Kind::Int,
    })
}

fn int_columns(alloc: Global, p: &Name, n: &Name) -> Result<ColumnList, NoMemory>
    ensures { IfOk result (λ columns. columns ≡ int_column_lem n.now ∷ int_column_lem p.now ∷ int_column_lem (codes "v") ∷ []) }
{
    let mut columns = ColumnList::new(alloc);
    columns.push(int_column(n)?)?;
    columns.push(int_column(p)?)?;
    put_v(alloc, &mut columns)?;
    Ok(columns)
}

fn put_v(alloc: Global, columns: &mut ColumnList) -> Result<(), NoMemory>
    ensures { OnOk result (columns.new ≡ columns.old ++ int_column_lem (codes "v") ∷ []) }
{
    let v = named(alloc, "v")?;
    columns.push(int_column(&v)?)
}

fn one_name(alloc: Global, name: Name) -> Result<Names, NoMemory>
    ensures { IfOk result (λ names. names ≡ name ∷ []) }
{
    let mut names = Names::new(alloc);
    names.push(name)?;
    Ok(names)
}

fn one_order(alloc: Global, name: Name) -> Result<Orders, NoMemory>
    ensures { IfOk result (λ orders. orders ≡ record { name = name; direction = Asc } ∷ []) }
{
    let mut orders = Orders::new(alloc);
    orders.push(Order {
        name,
        direction: Direction::Asc,
    })?;
    Ok(orders)
}

// A table's columns are these, and its key is p, then n.
fn keyed_table(
    alloc: Global,
    name: TableName,
    columns: ColumnList,
    p: Name,
    n: Name,
) -> Result<Table, NoMemory>
    requires { columns ≡ int_column_lem (codes "n") ∷ int_column_lem (codes "p") ∷ int_column_lem (codes "v") ∷ [] }
    ensures table { IfOk result (λ t. t ≡ record { name = name; columns = columns; partition = p ∷ []; clustering = record { name = n; direction = Asc } ∷ []; indexed = [] }) }
    ensures fits { IfOk result (λ t. is_table t ≡ true) }
{
    let partition = one_name(alloc, p)?;
    let clustering = one_order(alloc, n)?;
    match Table::new(
        alloc,
        name,
        columns,
        partition,
        clustering,
        Names::new(alloc),
    ) {
        Ok(table) => Ok(table),
        // Nothing but memory can be missing.
        Err(_) => Err(NoMemory),
    }
}

fn bench_table(alloc: Global, side: Side) -> Result<Table, NoMemory>
    ensures table { IfOk result (λ t. t ≡ bench_table_lem side) }
    ensures fits { IfOk result (λ t. is_table t ≡ true) }
{
    let p = named(alloc, "p")?;
    let n = named(alloc, "n")?;
    let columns = int_columns(alloc, &p, &n)?;
    keyed_table(alloc, cell_of(alloc, side)?, columns, p, n)
}

fn add_table(alloc: Global, catalog: &mut Catalog, side: Side) -> Result<(), NoMemory>
    ensures { OnOk result (catalog.new ≡ with_table (bench_table_lem side) catalog.old) }
{
    match catalog.add(bench_table(alloc, side)?) {
        Ok(()) => Ok(()),
        // Nothing but memory can be missing, since the catalog of a bench has no other table of that name.
        Err(_) => Err(NoMemory),
    }
}

fn bench_catalog(alloc: Global) -> Result<Catalog, NoMemory>
    ensures { IfOk result (λ catalog. catalog ≡ bench_catalog_lem) }
{
    let mut catalog = Catalog::new(alloc);
    add_table(alloc, &mut catalog, Side::Left)?;
    add_table(alloc, &mut catalog, Side::Right)?;
    Ok(catalog)
}

// ---- the places and the moves

fn put_place(alloc: Global, places: &mut Places, side: Side, store: &Name) -> Result<(), NoMemory>
    ensures { OnOk result (places.new ≡ places.old ++ record { ns = namespace_of side; store = store.now } ∷ []) }
{
    let ns = named(alloc, side.namespace())?;
    let store = store.copy()?;
    places.push(Place { ns, store })
}

fn bench_places(alloc: Global, first: &Name, last: &Name) -> Result<Places, NoMemory>
    ensures { IfOk result (λ places. places ≡ bench_places_lem first.now last.now) }
{
    let mut places = Places::new(alloc);
    put_place(alloc, &mut places, Side::Left, first)?;
    put_place(alloc, &mut places, Side::Right, last)?;
    Ok(places)
}

// So many steps of writers, by draws.
fn put_steps(moves: &mut Moves, draws: &mut Draws, count: u32) -> Result<(), NoMemory>
    ensures { OnOk result (moves.new ≡ moves.old ++ map (step_drawn draws.old.state) (numbers_below count)) }
{
    for _step in 0..count {
        let client = 2 + draws.below(8);
        moves.push(Move::Act(Act::Step(client)))?;
    }
    Ok(())
}

fn bench_moves(alloc: Global, draws: &mut Draws, n: u32) -> Result<Moves, NoMemory>
    requires few { n ≤ 20000 }
    requires drawn { draws.old.state ≡ state_after n (4 * n) }
    ensures { IfOk result (λ moves. moves ≡ bench_moves_lem n) }
{
    let mut moves = Moves::new(alloc);
    moves.push(Move::Repeat(1, 163))?;
    put_steps(&mut moves, draws, 8 * n)?;
    moves.push(Move::Rest)?;
    Ok(moves)
}

/// The script of a bench of n transactions, at most 20,000. Its tables are placed on these two stores, which may be one.
#[tactic(auto, unfolding(crate::specs::Script::bench_script_of))]
pub fn bench_script(alloc: Global, n: u32, first: &Name, last: &Name) -> Result<Script, NoMemory>
    requires { n ≤ 20000 }
    ensures { IfOk result (λ script. script ≡ bench_script_of n first.now last.now) }
{
    let mut draws = Draws {
        state: u64::from(n),
    };
    let places = bench_places(alloc, first, last)?;
    let catalog = bench_catalog(alloc)?;
    let clients = bench_clients(alloc, &mut draws, n)?;
    let moves = bench_moves(alloc, &mut draws, n)?;
    Ok(Script {
        places,
        catalog,
        clients,
        moves,
    })
}
