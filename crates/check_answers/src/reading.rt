//! What a text is read as, or refused with.
ghost use Rattle.std.specs.Prelude.{IfOk};
ghost use Rattle.check_answers.specs.Tests.{IsReading, IsRefusal};

use sdb_model::{Refusal, Statement};
use sdb_sqltext::laws::one_reading;
use sdb_sqltext::{ParseRefused, parse_statement};
use sdb_types::{NoMemory, Txt};
use std::alloc::Global;

// Texts of this many bytes count as ones that want memory.
const MOST: usize = 4_294_967_295;

/// The statement that a text is read as, if it is read as one.
pub fn statement_in(alloc: Global, text: &Txt) -> Result<Option<Statement>, NoMemory>
    ensures { IfOk result (IsReading text.now) }
{
    match parse_statement(alloc, text.as_str()) {
        Ok(statement) => Ok(Some(statement)),
        Err(ParseRefused::BadToken(_)) => Ok(None),
        Err(ParseRefused::NotAStatement(_)) => Ok(None),
        Err(ParseRefused::TooWide(_)) => Ok(None),
        Err(ParseRefused::NoMemory) => Err(NoMemory),
    }
}

/// The refusal of a text, if it is read as no statement.
pub fn refusal_in(alloc: Global, text: &Txt) -> Result<Option<Refusal>, NoMemory>
    ensures { IfOk result (IsRefusal text.now) }
{
    one_reading();
    if text.as_str().len() >= MOST {
        return Err(NoMemory);
    }
    let refused = match parse_statement(alloc, text.as_str()) {
        Ok(_) => return Ok(None),
        Err(refused) => refused,
    };
    match refused.refusal() {
        Some(refusal) => Ok(Some(refusal)),
        None => Err(NoMemory),
    }
}
