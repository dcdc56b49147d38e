//! Whole transactions on plain tables, one after the other.
ghost use Rattle.std.specs.Prelude.{◌≡◌, IfOk, map};
ghost use Rattle.sdb_model.specs.Serial.{Body, run_body as run_body_lem, serial as serial_lem};

use crate::statement::exec;
use crate::tables::PlainTables;
use sdb_model::{Answer, Statement};
use sdb_schema::Catalog;
use sdb_types::{NoMemory, Seq};
use std::alloc::Global;

/// The statements of a transaction between its BEGIN and its end.
pub type Body = Seq<Statement>;

pub type Bodies = Seq<Body>;

pub type Answers = Seq<Answer>;

/// The answers to a body's statements, run one after the other, and the tables after them.
pub fn run_body(
    alloc: Global,
    catalog: &Catalog,
    body: &[Statement],
    tables: PlainTables,
) -> Result<(Answers, PlainTables), NoMemory>
    ensures { IfOk result (λ done. (done.0, done.1) ≡ run_body_lem catalog.now body.now tables) }
{
    let mut answers = Seq::new(alloc);
    let mut tables = tables;
    for statement in body {
        let (answer, after) = exec(alloc, catalog, statement, tables)?;
        answers.push(answer)?;
        tables = after;
    }
    Ok((answers, tables))
}

/// Bodies run whole, one after the other, under one catalog: the answers of each, and the last tables.
pub fn serial(
    alloc: Global,
    catalog: &Catalog,
    bodies: &[Body],
    tables: PlainTables,
) -> Result<(Seq<Answers>, PlainTables), NoMemory>
    ensures { IfOk result (λ done. (done.0, done.1) ≡ serial_lem catalog.now (map Body bodies.now) tables) }
{
    let mut answers = Seq::new(alloc);
    let mut tables = tables;
    for body in bodies {
        let (answered, after) = run_body(alloc, catalog, body.as_slice(), tables)?;
        answers.push(answered)?;
        tables = after;
    }
    Ok((answers, tables))
}
