//! Printing scripts. Each `put_` function adds a text at the end of a string.
ghost use Rattle.std.specs.Prelude.{◌≡◌, ◌≤◌, ◌++◌, ℕ, List, length, true, OnOk, IfOk, codes, decimal, flat_map, slice_get, option_to_list, drop};
ghost use Rattle.std.specs.Fmt.{signed_decimal};
ghost use Rattle.std.specs.String.{string_bytes};
ghost use Rattle.sdb_types.specs.Order.{table_text};
ghost use Rattle.sdb_schema.specs.Kinds.{kind_text};
ghost use Rattle.sdb_schema.specs.Table.{rises};
ghost use Rattle.sdb_model.specs.Form.{client_line};
ghost use Rattle.sdb_script.specs.Lines.{most_bytes, alter_line, place_line, act_line, move_line};
ghost use Rattle.sdb_script.specs.Printed as spec;
ghost use Rattle.sdb_script.specs.Whole.{IsScript};

use itoa::Buffer;
use sdb_catalog::definition_text;
use sdb_model::{Act, Move, Place, Script, ScriptClient};
use sdb_schema::{Catalog, Kind, Table};
use sdb_types::{Name, NoMemory, TableName, Txt};
use std::alloc::Global;

// Adds a word and a number.
fn put_numbered(out: &mut String, word: &str, n: u32) -> Result<(), NoMemory>
    ensures { OnOk result (string_bytes out.new ≡ string_bytes out.old ++ (word.now ++ decimal n)) }
{
    let mut digits = Buffer::new();
    out.push_str(word)?;
    out.push_str(digits.format(n))?;
    Ok(())
}

fn put_clock(out: &mut String, ms: i64) -> Result<(), NoMemory>
    ensures { OnOk result (string_bytes out.new ≡ string_bytes out.old ++ (codes "clock " ++ signed_decimal ms)) }
{
    let mut digits = Buffer::new();
    out.push_str("clock ")?;
    out.push_str(digits.format(ms))?;
    Ok(())
}

fn put_name(out: &mut String, name: &TableName) -> Result<(), NoMemory>
    ensures { OnOk result (string_bytes out.new ≡ string_bytes out.old ++ table_text name.now) }
{
    out.push_str(name.ns.as_str())?;
    out.push_str(".")?;
    out.push_str(name.table.as_str())?;
    Ok(())
}

fn put_alter(out: &mut String, table: &TableName, column: &Name, kind: Kind) -> Result<(), NoMemory>
    ensures { OnOk result (string_bytes out.new ≡ string_bytes out.old ++ alter_line table.now column.now (kind_text kind)) }
{
    out.push_str("alter ")?;
    put_name(out, table)?;
    out.push_str(" ")?;
    out.push_str(column.as_str())?;
    out.push_str(" ")?;
    out.push_str(kind.as_str())?;
    Ok(())
}

fn put_act(out: &mut String, act: &Act) -> Result<(), NoMemory>
    ensures { OnOk result (string_bytes out.new ≡ string_bytes out.old ++ act_line act.now) }
{
    match act {
        Act::Step(client) => put_numbered(out, "step ", *client),
        Act::Lose(client) => put_numbered(out, "lose ", *client),
        Act::Discard(client) => put_numbered(out, "drop ", *client),
        Act::Delay(client) => put_numbered(out, "delay ", *client),
        Act::Land(number) => put_numbered(out, "land ", *number),
        Act::Stop(client) => put_numbered(out, "stop ", *client),
        Act::Clock(ms) => put_clock(out, *ms),
        Act::Alter(table, column, kind) => put_alter(out, table, column, *kind),
    }
}

fn put_repeat(out: &mut String, client: u32, count: u32) -> Result<(), NoMemory>
    ensures { OnOk result (string_bytes out.new ≡ string_bytes out.old ++ move_line (Move.Repeat client count)) }
{
    put_numbered(out, "step ", client)?;
    put_numbered(out, " ", count)?;
    Ok(())
}

fn put_rest(out: &mut String) -> Result<(), NoMemory>
    ensures { OnOk result (string_bytes out.new ≡ string_bytes out.old ++ codes "rest") }
{
    out.push_str("rest")?;
    Ok(())
}

fn put_move(out: &mut String, m: &Move) -> Result<(), NoMemory>
    ensures { OnOk result (string_bytes out.new ≡ string_bytes out.old ++ move_line m.now) }
{
    match m {
        Move::Act(act) => put_act(out, act),
        Move::Repeat(client, count) => put_repeat(out, *client, *count),
        Move::Rest => put_rest(out),
    }
}

fn put_moves(out: &mut String, moves: &[Move]) -> Result<(), NoMemory>
    ensures { OnOk result (string_bytes out.new ≡ string_bytes out.old ++ flat_map spec.move_text moves.now) }
{
    for m in moves {
        put_move(out, m)?;
        out.push_str("\n")?;
    }
    Ok(())
}

fn put_place(out: &mut String, place: &Place) -> Result<(), NoMemory>
    ensures { OnOk result (string_bytes out.new ≡ string_bytes out.old ++ place_line place.now) }
{
    out.push_str("place ")?;
    out.push_str(place.ns.as_str())?;
    out.push_str(" ")?;
    out.push_str(place.store.as_str())?;
    Ok(())
}

fn put_places(out: &mut String, places: &[Place]) -> Result<(), NoMemory>
    ensures { OnOk result (string_bytes out.new ≡ string_bytes out.old ++ flat_map spec.place_text places.now) }
{
    for place in places {
        put_place(out, place)?;
        out.push_str("\n")?;
    }
    Ok(())
}

fn put_texts(out: &mut String, texts: &[Txt]) -> Result<(), NoMemory>
    ensures { OnOk result (string_bytes out.new ≡ string_bytes out.old ++ flat_map spec.statement_text texts.now) }
{
    for text in texts {
        out.push_str("  ")?;
        out.push_str(text.as_str())?;
        out.push_str("\n")?;
    }
    Ok(())
}

fn put_client(out: &mut String, client: &ScriptClient) -> Result<(), NoMemory>
    ensures { OnOk result (string_bytes out.new ≡ string_bytes out.old ++ spec.client_text client.now) }
{
    out.push_str("client ")?;
    out.push_str(client.name.as_str())?;
    out.push_str("\n")?;
    put_texts(out, client.statements.as_slice())
}

fn put_clients(out: &mut String, clients: &[ScriptClient]) -> Result<(), NoMemory>
    ensures { OnOk result (string_bytes out.new ≡ string_bytes out.old ++ flat_map spec.client_text clients.now) }
{
    for client in clients {
        put_client(out, client)?;
    }
    Ok(())
}

// Adds a table's name and its definition, after a text.
fn put_member(alloc: Global, out: &mut String, front: &str, table: &Table) -> Result<(), NoMemory>
    requires { rises table.now.columns ≡ true }
    ensures { OnOk result (string_bytes out.new ≡ string_bytes out.old ++ (front.now ++ spec.member_text table.now)) }
{
    let definition = definition_text(alloc, table)?;
    out.push_str(front)?;
    out.push_str("\"")?;
    put_name(out, &table.name)?;
    out.push_str("\":")?;
    out.push_str(definition.as_str())?;
    Ok(())
}

// Adds the table at a place, after a text.
fn put_at(
    alloc: Global,
    out: &mut String,
    front: &str,
    catalog: &Catalog,
    i: usize,
) -> Result<(), NoMemory>
    ensures { OnOk result (string_bytes out.new ≡ string_bytes out.old ++ flat_map (λ t. front.now ++ spec.member_text t) (option_to_list (slice_get catalog.now i))) }
{
    let _tables = catalog.len();
    match catalog.at(i) {
        Some(table) => put_member(alloc, out, front, table),
        None => Ok(()),
    }
}

// Adds the tables after the first.
fn put_others(alloc: Global, out: &mut String, catalog: &Catalog) -> Result<(), NoMemory>
    ensures { OnOk result (string_bytes out.new ≡ string_bytes out.old ++ flat_map (λ t. codes "," ++ spec.member_text t) (drop 1 catalog.now)) }
{
    for i in 1..catalog.len() {
        put_at(alloc, out, ",", catalog, i)?;
    }
    Ok(())
}

// Adds the line of a schema, where there are tables.
#[tactic(auto, using(crate::proofs::Printing::schema_put))]
fn put_schema(alloc: Global, out: &mut String, catalog: &Catalog) -> Result<(), NoMemory>
    ensures { OnOk result (string_bytes out.new ≡ string_bytes out.old ++ spec.schema_text catalog.now) }
{
    if catalog.len() == 0 {
        return Ok(());
    }
    out.push_str("schema {")?;
    put_at(alloc, out, "", catalog, 0)?;
    put_others(alloc, out, catalog)?;
    out.push_str("}\n")?;
    Ok(())
}

// The text of a script.
fn text_of(alloc: Global, script: &Script) -> Result<Txt, NoMemory>
    ensures { IfOk result (λ t. t ≡ spec.script_text_of script.now) }
{
    let mut out = String::new(alloc);
    put_places(&mut out, script.places.as_slice())?;
    put_schema(alloc, &mut out, &script.catalog)?;
    put_clients(&mut out, script.clients.as_slice())?;
    out.push_str("run\n")?;
    put_moves(&mut out, script.moves.as_slice())?;
    Txt::new(alloc, out.as_str())
}

/// The text of a script: each line by its form, with its LF. The schema's JSON is compact, and its line is left out where there
/// are no tables. So a script that was read is read again from it, unless the text passes a limit that the first did not: the members
/// of a schema that may be missing are all written. Takes time and memory linear in the text's length.
pub fn print_script(alloc: Global, script: &Script) -> Result<Txt, NoMemory>
    ensures text { IfOk result (λ t. t ≡ spec.script_text_of script.now) }
    ensures again { (stores : List (List ℕ)) (text : List ℕ) → IsScript stores text script.now → spec.fits_line script.now.catalog ≡ true
        → length (spec.script_text_of script.now) ≤ most_bytes → IfOk result (λ t. IsScript stores t script.now) }
{
    let _tables = script.catalog.len();
    text_of(alloc, script)
}
