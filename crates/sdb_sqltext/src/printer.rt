//! Printing tokens.
ghost use Rattle.std.specs.Prelude.{◌≡◌, ◌++◌, OnOk};
ghost use Rattle.std.specs.String.{string_bytes};
ghost use Rattle.sdb_model.specs.SqlTokens.{name_text};
ghost use Rattle.sdb_model.specs.Sql.{token_text, sticks_before, sticks_after, gap, tokens_text};

use crate::marks::keyword_of;
use sdb_model::{Sign, Token, put_signed, put_value};
use sdb_types::{Duplicate, NoMemory, Value};

// A name, in quotes where it is a keyword.
fn put_name(out: &mut String, name: &str) -> Result<(), NoMemory>
    ensures { OnOk result (string_bytes out.new ≡ string_bytes out.old ++ name_text name.now) }
{
    match keyword_of(name.as_bytes()) {
        Some(_) => {
            out.push_str("\"")?;
            out.push_str(name)?;
            out.push_str("\"")?;
        }
        None => out.push_str(name)?,
    }
    Ok(())
}

fn put_token(out: &mut String, token: &Token) -> Result<(), NoMemory>
    ensures { OnOk result (string_bytes out.new ≡ string_bytes out.old ++ token_text token.now) }
{
    match token {
        Token::Word(keyword) => out.push_str(keyword.text())?,
        Token::Name(name) => put_name(out, name.as_str())?,
        Token::Overlong => {}
        Token::Number(n) => put_signed(out, *n)?,
        Token::Text(text) => put_value(out, &Value::Text(text.copy()?))?,
        Token::Blob(bytes) => put_value(out, &Value::Blob(bytes.copy()?))?,
        Token::Sign(sign) => out.push_str(sign.text())?,
    }
    Ok(())
}

fn sticks_before(token: &Token) -> bool
    ensures { result ≡ sticks_before token.now }
{
    match token {
        Token::Sign(Sign::Comma | Sign::Close | Sign::Dot) => true,
        _ => false,
    }
}

fn sticks_after(token: &Token) -> bool
    ensures { result ≡ sticks_after token.now }
{
    match token {
        Token::Sign(Sign::Open | Sign::Dot) => true,
        _ => false,
    }
}

fn put_gap(out: &mut String, first: &Token, second: &Token) -> Result<(), NoMemory>
    ensures { OnOk result (string_bytes out.new ≡ string_bytes out.old ++ gap first.now second.now) }
{
    if !sticks_after(first) && !sticks_before(second) {
        out.push_str(" ")?;
    }
    Ok(())
}

/// Adds tokens, with one space between two of them but none before `,` `)` `.` and none after `(` `.`.
pub fn put_tokens(out: &mut String, tokens: &[Token]) -> Result<(), NoMemory>
    ensures { OnOk result (string_bytes out.new ≡ string_bytes out.old ++ tokens_text tokens.now) }
{
    if let Some((first, rest)) = tokens.split_first() {
        put_token(out, first)?;
        let mut last = first;
        for token in rest {
            put_gap(out, last, token)?;
            put_token(out, token)?;
            last = token;
        }
    }
    Ok(())
}
