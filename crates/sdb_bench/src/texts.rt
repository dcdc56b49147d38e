//! The statements of a bench, as texts.
ghost use Rattle.std.specs.Prelude.{◌≡◌, ◌<◌, ◌++◌, ◌∷◌, [], map, codes, IfOk, OnOk};
ghost use Rattle.std.specs.String.{string_bytes};
ghost use Rattle.sdb_model.specs.declared.statement.Statement.TheVariants as statement;
ghost use Rattle.sdb_model.specs.Sql.{statement_text_of};
ghost use Rattle.sdb_bench.specs.Setup.{insert_of, inserts_at, inserts_of, setup_statements, update_of};
ghost use Rattle.sdb_bench.specs.Script.{turn_after, turn_statements, writer_statements};
ghost use Rattle.sdb_bench.specs.Draws.{state_after};

use crate::draws::Draws;
use crate::side::Side;
use sdb_model::Texts;
use sdb_types::{NoMemory, Txt};
use std::alloc::Global;

/// A transaction of a bench: its number, from 0, and which rows of each table get which value.
#[derive(Clone, Copy)]
pub struct Turn {
    pub number: u32,
    pub left_p: u32,
    pub left_v: u32,
    pub right_p: u32,
    pub right_v: u32,
}

impl Turn {
    /// The transaction of the next four draws.
    pub fn draw(draws: &mut Draws, number: u32) -> Turn
        ensures turn { result ≡ turn_after draws.old.state number }
        ensures state { draws.new.state ≡ state_after draws.old.state 4 }
    {
        let left_p = draws.below(8);
        let left_v = draws.below(1000);
        let right_p = draws.below(8);
        let right_v = draws.below(1000);
        Turn {
            number,
            left_p,
            left_v,
            right_p,
            right_v,
        }
    }
}

fn put_text(alloc: Global, texts: &mut Texts, text: &str) -> Result<(), NoMemory>
    ensures { OnOk result (texts.new ≡ texts.old ++ text.now ∷ []) }
{
    texts.push(Txt::new(alloc, text)?)
}

fn insert_text(alloc: Global, side: Side, p: u32, n: u32) -> Result<String, NoMemory>
    ensures { IfOk result (λ text. string_bytes text ≡ statement_text_of (insert_of side p n)) }
{
    let ns = side.namespace();
    Ok(format!(in alloc; "INSERT INTO {ns}.cell (p, n, v) VALUES ({p}, {n}, 0)")?)
}

fn update_text(alloc: Global, side: Side, p: u32, v: u32) -> Result<String, NoMemory>
    ensures { IfOk result (λ text. string_bytes text ≡ statement_text_of (update_of side p v)) }
{
    let ns = side.namespace();
    Ok(format!(in alloc; "UPDATE {ns}.cell SET v = {v} WHERE p = {p}")?)
}

fn put_insert(alloc: Global, texts: &mut Texts, side: Side, p: u32, n: u32) -> Result<(), NoMemory>
    ensures { OnOk result (texts.new ≡ texts.old ++ statement_text_of (insert_of side p n) ∷ []) }
{
    let text = insert_text(alloc, side, p, n)?;
    put_text(alloc, texts, text.as_str())
}

fn put_update(alloc: Global, texts: &mut Texts, side: Side, p: u32, v: u32) -> Result<(), NoMemory>
    ensures { OnOk result (texts.new ≡ texts.old ++ statement_text_of (update_of side p v) ∷ []) }
{
    let text = update_text(alloc, side, p, v)?;
    put_text(alloc, texts, text.as_str())
}

fn put_begin(alloc: Global, texts: &mut Texts) -> Result<(), NoMemory>
    ensures { OnOk result (texts.new ≡ texts.old ++ statement_text_of statement.Begin ∷ []) }
{
    put_text(alloc, texts, "BEGIN")
}

fn put_commit(alloc: Global, texts: &mut Texts) -> Result<(), NoMemory>
    ensures { OnOk result (texts.new ≡ texts.old ++ statement_text_of statement.Commit ∷ []) }
{
    put_text(alloc, texts, "COMMIT")
}

// The four rows of a p.
fn put_inserts_at(alloc: Global, texts: &mut Texts, side: Side, p: u32) -> Result<(), NoMemory>
    ensures { OnOk result (texts.new ≡ texts.old ++ map statement_text_of (inserts_at side p)) }
{
    for n in 0..4 {
        put_insert(alloc, texts, side, p, n)?;
    }
    Ok(())
}

#[tactic(auto, unfolding(crate::specs::Setup::inserts_of))]
fn put_inserts(alloc: Global, texts: &mut Texts, side: Side) -> Result<(), NoMemory>
    ensures { OnOk result (texts.new ≡ texts.old ++ map statement_text_of (inserts_of side)) }
{
    for p in 0..8 {
        put_inserts_at(alloc, texts, side, p)?;
    }
    Ok(())
}

#[tactic(auto, unfolding(crate::specs::Setup::setup_statements))]
fn put_setup(alloc: Global, texts: &mut Texts) -> Result<(), NoMemory>
    ensures { OnOk result (texts.new ≡ texts.old ++ map statement_text_of setup_statements) }
{
    put_begin(alloc, texts)?;
    put_inserts(alloc, texts, Side::Left)?;
    put_inserts(alloc, texts, Side::Right)?;
    put_commit(alloc, texts)
}

/// The statements of the first client.
pub fn setup_texts(alloc: Global) -> Result<Texts, NoMemory>
    ensures { IfOk result (λ texts. texts ≡ map statement_text_of setup_statements) }
{
    let mut texts = Texts::new(alloc);
    put_setup(alloc, &mut texts)?;
    Ok(texts)
}

fn put_turn(alloc: Global, texts: &mut Texts, turn: Turn) -> Result<(), NoMemory>
    ensures { OnOk result (texts.new ≡ texts.old ++ map statement_text_of (turn_statements turn)) }
{
    put_begin(alloc, texts)?;
    put_update(alloc, texts, Side::Left, turn.left_p, turn.left_v)?;
    put_update(alloc, texts, Side::Right, turn.right_p, turn.right_v)?;
    put_commit(alloc, texts)
}

/// The statements of the writer of this number, from 0 to 7.
#[tactic(auto, unfolding(crate::specs::Script::writer_statements))]
pub fn writer_texts(alloc: Global, turns: &[Turn], writer: u32) -> Result<Texts, NoMemory>
    ensures { IfOk result (λ texts. texts ≡ map statement_text_of (writer_statements writer turns.now)) }
{
    let mut texts = Texts::new(alloc);
    for turn in turns {
        if turn.number % 8 == writer {
            put_turn(alloc, &mut texts, *turn)?;
        }
    }
    Ok(texts)
}
