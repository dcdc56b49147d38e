//! Printing statements.
ghost use Rattle.std.specs.Prelude.{◌≡◌, IfOk, ℕ, List};
ghost use Rattle.std.specs.List.{AllByRecursion};
ghost use Rattle.sdb_model.specs.Sql.{statement_tokens, statement_text_of, IsWhole, CanSpell, Reads};

use crate::put_tokens;
use crate::spell::spelled;
use sdb_model::Statement;
use sdb_types::{NoMemory, Txt};
use std::alloc::Global;

/// The text of a statement, without `;`: keywords and blobs in upper case, names in quotes where they are keywords.
pub fn print_statement(alloc: Global, statement: &Statement) -> Result<Txt, NoMemory>
    ensures text { IfOk result (λ t. t ≡ statement_text_of statement.now) }
    // A statement whose parts a text can spell is read again from it.
    ensures read { IfOk result (λ t. IsWhole statement.now → AllByRecursion CanSpell (statement_tokens statement.now) → Reads t statement.now) }
    // The same for a statement that any text is read as.
    ensures again { (text : List ℕ) → Reads text statement.now → IfOk result (λ t. Reads t statement.now) }
{
    statement_text(alloc, statement)
}

fn statement_text(alloc: Global, statement: &Statement) -> Result<Txt, NoMemory>
    ensures { IfOk result (λ t. t ≡ statement_text_of statement.now) }
{
    let tokens = spelled(alloc, statement)?;
    let mut out = String::new(alloc);
    put_tokens(&mut out, tokens.as_slice())?;
    Txt::new(alloc, out.as_str())
}
