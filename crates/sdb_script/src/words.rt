//! Words of a line: what follows one, numerals and names.
ghost use Rattle.sdb_types.specs.NameText.{around};
ghost use Rattle.std.specs.Prelude.{◌≡◌, ◌-◌, ◌^◌, min, true, IfOk};
ghost use Rattle.std.specs.List.{list_all};
ghost use Rattle.std.specs.Option.{option_copied, option_map};
ghost use Rattle.std.specs.Str.{is_utf8};
ghost use Rattle.sdb_types.specs.NameText.{after_front};
ghost use Rattle.sdb_model.specs.Form.{is_client_name};
ghost use Rattle.sdb_model.specs.SqlTokens.{is_digit, digits_value as digits_value_lem};
ghost use Rattle.sdb_script.specs.Words as spec;
ghost use Rattle.std.specs.Prelude.{IfSome, is_some};

use sdb_types::is_identifier_text;
use std::alloc::Global;

/// A line as a text, where it is UTF-8.
pub fn as_text(line: &[u8]) -> Option<&str>
    ensures text { IfSome result (λ text. text.now ≡ line.now) }
    ensures utf8 { is_some result ≡ is_utf8 line.now }
{
    match str::from_utf8(line) {
        Ok(text) => Some(text),
        Err(_) => None,
    }
}

/// What follows a word that is at the start.
pub fn after<'a>(word: &str, text: &'a str) -> Option<&'a str>
    ensures { option_copied result ≡ after_front word.now text.now }
{
    text.strip_prefix(word)
}

/// What is before the first space and after it.
pub fn around_space(text: &str) -> Option<(&str, &str)>
    ensures { option_map (λ p. (p.0.now, p.1.now)) result ≡ around 32 text.now }
{
    text.split_once(' ')
}

/// What is before the first dot and after it.
pub fn around_dot(text: &str) -> Option<(&str, &str)>
    ensures { option_map (λ p. (p.0.now, p.1.now)) result ≡ around 46 text.now }
{
    text.split_once('.')
}

/// Whether a text is an identifier of at most 64 bytes.
pub fn is_short_name(text: &str) -> bool
    ensures { result ≡ is_client_name text.now }
{
    text.len() <= 64 && is_identifier_text(text.as_bytes())
}

fn are_digits(bytes: &[u8]) -> bool
    ensures { result ≡ list_all is_digit bytes.now }
{
    bytes.iter().all(|b| b.is_ascii_digit())
}

fn is_numeral(word: &[u8]) -> bool
    ensures { result ≡ spec.is_numeral word.now }
{
    match word {
        [] => false,
        [c, rest @ ..] => {
            c.is_ascii_digit() && are_digits(rest) && (*c != b'0' || rest.is_empty())
        }
    }
}

// The number that digits are, or the largest.
fn digits_value(digits: &[u8]) -> u64
    ensures { result ≡ min (digits_value_lem digits.now) (2 ^ 64 - 1) }
{
    let mut n: u64 = 0;
    for b in digits {
        n = n
            .saturating_mul(10)
            .saturating_add(u64::from(b.saturating_sub(b'0')));
    }
    n
}

/// The number that a word says, or the largest.
pub fn numeral_in(word: &str) -> Option<u64>
    ensures { result ≡ option_map (λ n. min n (2 ^ 64 - 1)) (spec.numeral_in word.now) }
{
    if is_numeral(word.as_bytes()) {
        Some(digits_value(word.as_bytes()))
    } else {
        None
    }
}
