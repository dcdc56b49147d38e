//! Kinds of bytes, and how many of a kind are at the start.
ghost use Rattle.std.specs.Prelude.{ℕ, List, ◌∷◌, ◌≡◌, ◌==◌, ◌≤◌, ◌<◌, ◌^◌, true, IsTrue, IfSome, ◌-◌, length, min, find};
ghost use Rattle.std.specs.List.{starts_with};
ghost use Rattle.std.specs.Str.{bytes_eq};
ghost use Rattle.sdb_types.specs.Identifier as identifier;
ghost use Rattle.sdb_model.specs.SqlTokens as spec;
ghost use Rattle.sdb_model.specs.SqlTokens.{lower, keyword_text, sign_text};

use sdb_model::{Keyword, Sign};

pub fn is_start(b: u8) -> bool
    ensures { result ≡ identifier.is_start b }
{
    b.is_ascii_alphabetic() || b == b'_'
}

pub fn is_part(b: u8) -> bool
    ensures { result ≡ identifier.is_part b }
{
    is_start(b) || b.is_ascii_digit()
}

pub fn begins_start(bytes: &[u8]) -> bool
    ensures { result ≡ spec.begins identifier.is_start bytes.now }
{
    match bytes {
        [b, ..] => is_start(*b),
        [] => false,
    }
}

pub fn begins_digit(bytes: &[u8]) -> bool
    ensures { result ≡ spec.begins spec.is_digit bytes.now }
{
    match bytes {
        [b, ..] => b.is_ascii_digit(),
        [] => false,
    }
}

pub fn begins_with(byte: u8, bytes: &[u8]) -> bool
    ensures { result ≡ spec.begins (λ b. b == byte) bytes.now }
{
    match bytes {
        [b, ..] => *b == byte,
        [] => false,
    }
}

/// How many letters, digits and `_` are at the start.
pub fn word_len(bytes: &[u8]) -> usize
    ensures len { result ≡ spec.word_len bytes.now }
    ensures some { spec.begins identifier.is_start bytes.now ≡ true → 0 < result }
    ensures within { result ≤ length bytes.now }
{
    bytes.iter().take_while(|b| is_part(**b)).count()
}

/// How many digits are at the start.
pub fn digits_len(bytes: &[u8]) -> usize
    ensures len { result ≡ spec.digits_len bytes.now }
    ensures some { spec.begins spec.is_digit bytes.now ≡ true → 0 < result }
    ensures within { result ≤ length bytes.now }
{
    bytes.iter().take_while(|b| b.is_ascii_digit()).count()
}

// The number that digits are, or the largest.
fn digits_value(digits: &[u8]) -> u64
    ensures { result ≡ min (spec.digits_value digits.now) (2 ^ 64 - 1) }
{
    let mut n: u64 = 0;
    for b in digits {
        n = n
            .saturating_mul(10)
            .saturating_add(u64::from(b.saturating_sub(b'0')));
    }
    n
}

/// The number that the digits at the start are, or the largest.
pub fn number_of(bytes: &[u8]) -> u64
    ensures { result ≡ min (spec.number_of bytes.now) (2 ^ 64 - 1) }
{
    digits_value(&bytes[..digits_len(bytes)])
}

fn spells(word: &[u8], keyword: Keyword) -> bool
    ensures { result ≡ bytes_eq (lower word.now) (lower (keyword_text keyword)) }
{
    word.eq_ignore_ascii_case(keyword.text().as_bytes())
}

fn find_keyword(keywords: &[Keyword], word: &[u8]) -> Option<Keyword>
    ensures { result ≡ find (λ k. bytes_eq (lower word.now) (lower (keyword_text k))) keywords.now }
{
    for keyword in keywords {
        if spells(word, *keyword) {
            return Some(*keyword);
        }
    }
    None
}

// The keywords that begin with a letter, in any case.
#[tactic(auto, unfolding(sdb_model::specs::SqlTokens::keyword_of))]
fn keywords_from(letter: u8) -> &'static [Keyword]
    ensures { (more : List ℕ) → find (λ k. bytes_eq (lower (letter ∷ more)) (lower (keyword_text k))) result.now ≡ spec.keyword_of (letter ∷ more) }
{
    match letter {
        b'A' | b'a' => &[Keyword::And],
        b'B' | b'b' => &[Keyword::Begin],
        b'C' | b'c' => &[Keyword::Commit],
        b'D' | b'd' => &[Keyword::Delete],
        b'F' | b'f' => &[Keyword::From, Keyword::False],
        b'I' | b'i' => &[Keyword::Insert, Keyword::Into, Keyword::Is],
        b'L' | b'l' => &[Keyword::Limit],
        b'N' | b'n' => &[Keyword::Not, Keyword::Null],
        b'R' | b'r' => &[Keyword::Rollback],
        b'S' | b's' => &[Keyword::Set, Keyword::Select],
        b'T' | b't' => &[Keyword::True],
        b'U' | b'u' => &[Keyword::Upsert, Keyword::Update],
        b'V' | b'v' => &[Keyword::Vacuum, Keyword::Values],
        b'W' | b'w' => &[Keyword::Where],
        _ => &[],
    }
}

/// The keyword that a word spells, in any case.
#[tactic(auto, unfolding(sdb_model::specs::SqlTokens::keyword_of))]
pub fn keyword_of(word: &[u8]) -> Option<Keyword>
    ensures { result ≡ spec.keyword_of word.now }
{
    match word.split_first() {
        Some((first, _)) => find_keyword(keywords_from(*first), word),
        None => None,
    }
}

/// The longest sign at the start.
#[tactic(auto, unfolding(sdb_model::specs::SqlTokens::sign_of))]
pub fn sign_of(bytes: &[u8]) -> Option<Sign>
    ensures value { result ≡ spec.sign_of bytes.now }
    ensures fits { IfSome result (λ s. length (sign_text s) ≤ length bytes.now) }
{
    match bytes {
        [b'<', b'>', ..] => Some(Sign::NotEqual),
        [b'<', b'=', ..] => Some(Sign::LessOrEqual),
        [b'>', b'=', ..] => Some(Sign::GreaterOrEqual),
        [b'<', ..] => Some(Sign::Less),
        [b'>', ..] => Some(Sign::Greater),
        [b'=', ..] => Some(Sign::Equal),
        [b'.', ..] => Some(Sign::Dot),
        [b',', ..] => Some(Sign::Comma),
        [b'(', ..] => Some(Sign::Open),
        [b')', ..] => Some(Sign::Close),
        [b'*', ..] => Some(Sign::Star),
        [b';', ..] => Some(Sign::Semicolon),
        _ => None,
    }
}

/// Where the next quote is, or the length.
pub fn quote_place(bytes: &[u8]) -> usize
    ensures place { result ≡ spec.quote_place bytes.now }
    ensures within { result ≤ length bytes.now }
{
    bytes.iter().take_while(|b| **b != b'\'').count()
}

/// Begins with a quote that no second one follows.
pub fn closes(bytes: &[u8]) -> bool
    ensures value { result ≡ spec.closes bytes.now }
    ensures some { IsTrue result → 0 < length bytes.now }
{
    match bytes {
        [first, rest @ ..] => *first == b'\'' && !begins_with(b'\'', rest),
        [] => false,
    }
}
