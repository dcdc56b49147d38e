//! The tokens of a text.
ghost use Rattle.std.specs.Prelude.{◌≡◌, ◌<◌, ◌≤◌, true, length, IfOk, IfSome, ◌^◌, ◌+◌, Ok, Err, if◌then◌else◌};
ghost use Rattle.std.specs.Option.{option_map};
ghost use Rattle.std.specs.Str.{is_utf8};
ghost use Rattle.hex.specs.Hex.{decode_of};
ghost use Rattle.sdb_types.specs.Identifier.{is_start, is_identifier};
ghost use Rattle.sdb_model.specs.SqlTokens as spec;
ghost use Rattle.sdb_model.specs.SqlTokens.{sign_text};
ghost use Rattle.std.specs.List.{AllByRecursion};
ghost use Rattle.sdb_model.specs.Sql.{Tokens, CanSpell, tokens_text};
ghost use Rattle.sdb_sqltext.specs.Printed.{GivesAll};
ghost use Rattle.sdb_sqltext.specs.Lexing.{Agrees, Takes, GivesTokens};

use crate::lex_fault::{LexError, LexRefused};
use crate::marks::{
    begins_digit, begins_start, begins_with, closes, digits_len, keyword_of, number_of,
    quote_place, sign_of, word_len,
};
use hex::FromHexError;
use sdb_model::{Placed, Sign, Token};
use sdb_types::{Name, NoMemory, Octets, Seq, Txt};
use std::alloc::Global;

/// A token, and how many bytes it takes.
type Lexeme = (Token, usize);

// A name of at most 64 bytes names something.
fn name_token(alloc: Global, word: &[u8]) -> Result<Token, NoMemory>
    requires { is_identifier word.now ≡ true }
    ensures { IfOk result (λ t. t ≡ spec.name_token word.now) }
{
    if word.len() > 64 {
        return Ok(Token::Overlong);
    }
    let Ok(text) = str::from_utf8(word) else {
        unreachable!()
    };
    let name = Name::from_string(String::from_str(alloc, text)?)?;
    Ok(Token::Name(name))
}

// A keyword, or a name.
fn word_token(alloc: Global, word: &[u8]) -> Result<Token, NoMemory>
    requires { is_identifier word.now ≡ true }
    ensures { IfOk result (λ t. t ≡ spec.word_or_name word.now (spec.keyword_of word.now)) }
{
    match keyword_of(word) {
        Some(keyword) => Ok(Token::Word(keyword)),
        None => name_token(alloc, word),
    }
}

#[tactic(auto, unfolding(sdb_model::specs::SqlTokens::word_at))]
fn word_at(alloc: Global, bytes: &[u8]) -> Result<Lexeme, LexError>
    requires { spec.begins is_start bytes.now ≡ true }
    ensures value { Agrees (λ x. x) result (spec.word_at bytes.now) }
    ensures within { IfOk result (Takes (length bytes.now)) }
{
    let n = word_len(bytes);
    Ok((word_token(alloc, &bytes[..n])?, n))
}

#[tactic(auto, unfolding(sdb_model::specs::SqlTokens::quoted_name_at))]
fn quoted_name_at(alloc: Global, bytes: &[u8]) -> Result<Lexeme, LexError>
    ensures value { Agrees (λ x. x) result (spec.quoted_name_at bytes.now) }
    ensures within { IfOk result (Takes (length bytes.now + 1)) }
{
    let n = word_len(bytes);
    if begins_start(bytes) && begins_with(b'"', &bytes[n..]) {
        Ok((name_token(alloc, &bytes[..n])?, n + 2))
    } else {
        Err(LexError::Bad)
    }
}

#[tactic(auto, unfolding(sdb_model::specs::SqlTokens::number_at))]
fn number_at(bytes: &[u8]) -> Result<Lexeme, LexError>
    requires { spec.begins spec.is_digit bytes.now ≡ true }
    ensures value { Agrees (λ x. x) result (spec.number_at bytes.now) }
    ensures within { IfOk result (Takes (length bytes.now)) }
{
    let n = number_of(bytes);
    if n < 1 << 63 {
        Ok((Token::Number(n as i64), digits_len(bytes)))
    } else {
        Err(LexError::Wide)
    }
}

// A number below zero, or zero.
fn minus(n: u64) -> i64
    requires { n ≤ 2 ^ 63 }
    ensures { result ≡ spec.minus n }
{
    if n == 0 { 0 } else { -((n - 1) as i64) - 1 }
}

#[tactic(auto, unfolding(sdb_model::specs::SqlTokens::negative_at))]
fn negative_at(bytes: &[u8]) -> Result<Lexeme, LexError>
    ensures value { Agrees (λ x. x) result (spec.negative_at bytes.now) }
    ensures within { IfOk result (Takes (length bytes.now + 1)) }
{
    if !begins_digit(bytes) {
        return Err(LexError::Bad);
    }
    let n = number_of(bytes);
    if n <= 1 << 63 {
        Ok((Token::Number(minus(n)), digits_len(bytes) + 1))
    } else {
        Err(LexError::Wide)
    }
}

// What a quote encloses, and how many bytes that takes with the last quote.
fn enclosed(alloc: Global, bytes: &[u8]) -> Result<Option<(Vec<u8>, usize)>, NoMemory>
    ensures value { IfOk result (λ x. option_map (λ p. (p.0.items, p.1)) x ≡ spec.enclosed bytes.now) }
    ensures within { IfOk result (λ x. IfSome x (λ p. p.1 ≤ length bytes.now)) }
{
    let mut text = Vec::new(alloc);
    let mut rest = bytes;
    while let [c, more @ ..] = rest {
        let quote = *c == b'\'';
        if quote && !begins_with(b'\'', more) {
            return Ok(Some((text, bytes.len() - more.len())));
        }
        text.push(*c)?;
        rest = if quote { &more[1..] } else { more };
    }
    Ok(None)
}

// Text in UTF-8.
fn text_of(alloc: Global, bytes: &[u8]) -> Result<Txt, LexError>
    ensures { Agrees (λ x. x) result (if is_utf8 bytes.now then Ok bytes.now else Err spec.Bad) }
{
    match str::from_utf8(bytes) {
        Ok(text) => Ok(Txt::new(alloc, text)?),
        Err(_) => Err(LexError::Bad),
    }
}

#[tactic(auto, unfolding(sdb_model::specs::SqlTokens::text_at))]
fn text_at(alloc: Global, bytes: &[u8]) -> Result<Lexeme, LexError>
    ensures value { Agrees (λ x. x) result (spec.text_at bytes.now) }
    ensures within { IfOk result (Takes (length bytes.now + 1)) }
{
    let Some((text, n)) = enclosed(alloc, bytes)? else {
        return Err(LexError::Bad);
    };
    Ok((Token::Text(text_of(alloc, text.as_slice())?), n + 1))
}

fn blob_token(alloc: Global, digits: &[u8]) -> Result<Option<Lexeme>, NoMemory>
    ensures value { IfOk result (λ x. x ≡ spec.blob_token (length digits.now) (decode_of digits.now)) }
    ensures within { IfOk result (λ x. IfSome x (Takes (length digits.now + 3))) }
{
    match hex::decode(alloc, digits) {
        Ok(bytes) => Ok(Some((Token::Blob(Octets::from_vec(bytes)), digits.len() + 3))),
        Err(FromHexError::OutOfMemory) => Err(NoMemory),
        Err(_) => Ok(None),
    }
}

#[tactic(auto, unfolding(sdb_model::specs::SqlTokens::blob_in))]
fn blob_in(alloc: Global, bytes: &[u8]) -> Result<Option<Lexeme>, NoMemory>
    ensures value { IfOk result (λ x. x ≡ spec.blob_in bytes.now) }
    ensures within { IfOk result (λ x. IfSome x (Takes (length bytes.now + 2))) }
{
    let n = quote_place(bytes);
    if closes(&bytes[n..]) {
        blob_token(alloc, &bytes[..n])
    } else {
        Ok(None)
    }
}

fn begins_blob(bytes: &[u8]) -> bool
    ensures { result ≡ spec.begins_blob bytes.now }
{
    match bytes {
        [b'X' | b'x', rest @ ..] => begins_with(b'\'', rest),
        _ => false,
    }
}

#[tactic(auto, unfolding(sdb_model::specs::SqlTokens::letter_at))]
fn letter_at(alloc: Global, bytes: &[u8]) -> Result<Lexeme, LexError>
    requires { spec.begins is_start bytes.now ≡ true }
    ensures value { Agrees (λ x. x) result (spec.letter_at bytes.now) }
    ensures within { IfOk result (Takes (length bytes.now)) }
{
    if begins_blob(bytes) {
        if let Some(blob) = blob_in(alloc, &bytes[2..])? {
            return Ok(blob);
        }
    }
    word_at(alloc, bytes)
}

fn sign_at(bytes: &[u8]) -> Result<Lexeme, LexError>
    ensures value { Agrees (λ x. x) result (spec.sign_token (spec.sign_of bytes.now)) }
    ensures within { IfOk result (Takes (length bytes.now)) }
{
    match sign_of(bytes) {
        Some(sign) => Ok((Token::Sign(sign), sign_len(sign))),
        None => Err(LexError::Bad),
    }
}

// How many bytes a sign takes.
fn sign_len(sign: Sign) -> usize
    ensures value { result ≡ length (sign_text sign) }
    ensures some { 0 < result }
{
    match sign {
        Sign::NotEqual | Sign::LessOrEqual | Sign::GreaterOrEqual => 2,
        _ => 1,
    }
}

/// The token at the start.
#[tactic(auto, unfolding(sdb_model::specs::SqlTokens::token_at))]
fn token_at(alloc: Global, bytes: &[u8]) -> Result<Lexeme, LexError>
    ensures value { Agrees (λ x. x) result (spec.token_at bytes.now) }
    ensures within { IfOk result (Takes (length bytes.now)) }
{
    if begins_start(bytes) {
        return letter_at(alloc, bytes);
    }
    if begins_digit(bytes) {
        return number_at(bytes);
    }
    match bytes {
        [b'"', rest @ ..] => quoted_name_at(alloc, rest),
        [b'-', rest @ ..] => negative_at(rest),
        [b'\'', rest @ ..] => text_at(alloc, rest),
        _ => sign_at(bytes),
    }
}

/// Whether a byte separates tokens.
pub fn is_gap(b: u8) -> bool
    ensures { result ≡ spec.is_gap b }
{
    b == b' ' || b == b'\t'
}

#[tactic(auto, unfolding(sdb_model::specs::SqlTokens::lexed))]
fn read_tokens(alloc: Global, bytes: &[u8]) -> Result<Seq<Placed>, LexRefused>
    ensures { GivesTokens result (spec.lexed bytes.now) }
{
    // With the gap after it, a token takes three bytes or more in most statements.
    let mut placed = Seq::from_vec(Vec::with_capacity(alloc, bytes.len() / 3 + 1)?);
    let mut rest = bytes;
    while let [first, more @ ..] = rest {
        if is_gap(*first) {
            rest = more;
            continue;
        }
        let at = bytes.len() - rest.len();
        match token_at(alloc, rest) {
            Ok((token, n)) => {
                placed.push(Placed { at, token })?;
                rest = rest.split_at(n).1;
            }
            Err(LexError::NoMemory) => return Err(LexRefused::NoMemory),
            Err(LexError::Bad) => return Err(LexRefused::BadToken(at)),
            Err(LexError::Wide) => return Err(LexRefused::TooWide(at)),
        }
    }
    Ok(placed)
}

/// The tokens of a text, and where each begins.
pub fn lex(alloc: Global, bytes: &[u8]) -> Result<Seq<Placed>, LexRefused>
    // The longest token is accepted everywhere, and the first fault is returned.
    ensures value { GivesTokens result (spec.lexed bytes.now) }
    // Tokens that are printed are read again, unless memory runs out.
    ensures printed { (ts : Tokens) → AllByRecursion CanSpell ts → bytes.now ≡ tokens_text ts → GivesAll result ts }
{
    read_tokens(alloc, bytes)
}
