//! Tokens at the start, and their parts.
ghost use Rattle.std.specs.Prelude.{◌≡◌, IfOk};
ghost use Rattle.std.specs.Option.{option_map};
ghost use Rattle.sdb_sqltext.specs.Machine as machine;
ghost use Rattle.sdb_sqltext.specs.Readers as spec;
ghost use Rattle.sdb_sqltext.specs.Steps.{Steps};

use crate::fault::StepError;
use crate::{is_sign, is_word};
use sdb_model::{Comparison, Keyword, Placed, Sign, Token};
use sdb_types::{Duplicate, Name, NoMemory, Value};

/// A part, and the tokens after it.
pub type Parsed<'a, T> = Result<(T, &'a [Placed]), StepError>;

/// Where the next token is, or the text's end.
pub fn place(tokens: &[Placed], end: usize) -> usize
    ensures { result ≡ spec.place tokens.now end }
{
    match tokens {
        [first, ..] => first.at,
        [] => end,
    }
}

/// The tokens after this word, where it comes next.
pub fn next_word(tokens: &[Placed], word: Keyword) -> Option<&[Placed]>
    ensures { option_map (λ x. x.now) result ≡ spec.next_word word tokens.now }
{
    match tokens {
        [first, rest @ ..] => {
            if is_word(&first.token, word) {
                Some(rest)
            } else {
                None
            }
        }
        [] => None,
    }
}

/// The tokens after this sign, where it comes next.
pub fn next_sign(tokens: &[Placed], sign: Sign) -> Option<&[Placed]>
    ensures { option_map (λ x. x.now) result ≡ spec.next_sign sign tokens.now }
{
    match tokens {
        [first, rest @ ..] => {
            if is_sign(&first.token, sign) {
                Some(rest)
            } else {
                None
            }
        }
        [] => None,
    }
}

pub fn after_word(tokens: &[Placed], end: usize, word: Keyword) -> Result<&[Placed], StepError>
    ensures { Steps (λ x. x.now) result (spec.after_word word tokens.now end) }
{
    match next_word(tokens, word) {
        Some(rest) => Ok(rest),
        None => Err(StepError::Wrong(place(tokens, end))),
    }
}

pub fn after_sign(tokens: &[Placed], end: usize, sign: Sign) -> Result<&[Placed], StepError>
    ensures { Steps (λ x. x.now) result (spec.after_sign sign tokens.now end) }
{
    match next_sign(tokens, sign) {
        Some(rest) => Ok(rest),
        None => Err(StepError::Wrong(place(tokens, end))),
    }
}

fn name_of(token: &Token) -> Result<Option<Name>, NoMemory>
    ensures { IfOk result (λ x. x ≡ machine.name_of token.now) }
{
    match token {
        Token::Name(name) => Ok(Some(name.copy()?)),
        _ => Ok(None),
    }
}

fn value_of(token: &Token) -> Result<Option<Value>, NoMemory>
    ensures { IfOk result (λ x. x ≡ machine.value_of token.now) }
{
    match token {
        Token::Word(Keyword::True) => Ok(Some(Value::Bool(true))),
        Token::Word(Keyword::False) => Ok(Some(Value::Bool(false))),
        Token::Number(n) => Ok(Some(Value::BigInt(*n))),
        Token::Text(text) => Ok(Some(Value::Text(text.copy()?))),
        Token::Blob(bytes) => Ok(Some(Value::Blob(bytes.copy()?))),
        _ => Ok(None),
    }
}

fn literal_of(token: &Token) -> Result<Option<Value>, NoMemory>
    ensures { IfOk result (λ x. x ≡ machine.literal_of token.now) }
{
    if is_word(token, Keyword::Null) {
        return Ok(Some(Value::Null));
    }
    value_of(token)
}

fn limit_of(token: &Token) -> Option<i64>
    ensures { result ≡ machine.limit_of token.now }
{
    match token {
        Token::Number(n) if *n >= 0 => Some(*n),
        _ => None,
    }
}

fn comparison_of(token: &Token) -> Option<Comparison>
    ensures { result ≡ machine.comparison_of token.now }
{
    match token {
        Token::Sign(Sign::Equal) => Some(Comparison::Eq),
        Token::Sign(Sign::NotEqual) => Some(Comparison::Ne),
        Token::Sign(Sign::Less) => Some(Comparison::Lt),
        Token::Sign(Sign::LessOrEqual) => Some(Comparison::Le),
        Token::Sign(Sign::Greater) => Some(Comparison::Gt),
        Token::Sign(Sign::GreaterOrEqual) => Some(Comparison::Ge),
        _ => None,
    }
}

pub fn name_at(tokens: &[Placed], end: usize) -> Parsed<'_, Name>
    ensures { Steps (λ x. (x.0, x.1.now)) result (spec.name_at tokens.now end) }
{
    match tokens {
        [] => Err(StepError::Wrong(end)),
        [first, rest @ ..] => match name_of(&first.token)? {
            Some(name) => Ok((name, rest)),
            None => Err(StepError::Wrong(first.at)),
        },
    }
}

pub fn literal_at(tokens: &[Placed], end: usize) -> Parsed<'_, Value>
    ensures { Steps (λ x. (x.0, x.1.now)) result (spec.literal_at tokens.now end) }
{
    match tokens {
        [] => Err(StepError::Wrong(end)),
        [first, rest @ ..] => match literal_of(&first.token)? {
            Some(value) => Ok((value, rest)),
            None => Err(StepError::Wrong(first.at)),
        },
    }
}

pub fn value_at(tokens: &[Placed], end: usize) -> Parsed<'_, Value>
    ensures { Steps (λ x. (x.0, x.1.now)) result (spec.part_at machine.value_of tokens.now end) }
{
    match tokens {
        [] => Err(StepError::Wrong(end)),
        [first, rest @ ..] => match value_of(&first.token)? {
            Some(value) => Ok((value, rest)),
            None => Err(StepError::Wrong(first.at)),
        },
    }
}

pub fn sign_at(tokens: &[Placed], end: usize) -> Parsed<'_, Comparison>
    ensures { Steps (λ x. (x.0, x.1.now)) result (spec.part_at machine.comparison_of tokens.now end) }
{
    match tokens {
        [] => Err(StepError::Wrong(end)),
        [first, rest @ ..] => match comparison_of(&first.token) {
            Some(comparison) => Ok((comparison, rest)),
            None => Err(StepError::Wrong(first.at)),
        },
    }
}

pub fn count_at(tokens: &[Placed], end: usize) -> Parsed<'_, i64>
    ensures { Steps (λ x. (x.0, x.1.now)) result (spec.part_at machine.limit_of tokens.now end) }
{
    match tokens {
        [] => Err(StepError::Wrong(end)),
        [first, rest @ ..] => match limit_of(&first.token) {
            Some(n) => Ok((n, rest)),
            None => Err(StepError::Wrong(first.at)),
        },
    }
}
