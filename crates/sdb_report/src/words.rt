//! Words and names at the start of a text.
ghost use Rattle.std.specs.Prelude.{◌≡◌, ◌≤◌, length};
ghost use Rattle.std.specs.List.{prefix_len, list_all};
ghost use Rattle.std.specs.Option.{option_map};
ghost use Rattle.sdb_types.specs.Identifier as identifier;
ghost use Rattle.sdb_report.specs.FieldReading as spec;
ghost use Rattle.sdb_report.specs.FieldReading.{Gives};

use crate::unread::Unread;
use sdb_types::{Name, NameRefused, Txt};
use std::alloc::Global;

/// What follows a word that is at the start.
pub fn after<'a>(word: &[u8], bytes: &'a [u8]) -> Option<&'a [u8]>
    ensures { option_map (λ x. x.now) result ≡ spec.after word.now bytes.now }
{
    let mut rest = bytes;
    for w in word {
        let [b, more @ ..] = rest else {
            return None;
        };
        if *w != *b {
            return None;
        }
        rest = more;
    }
    Some(rest)
}

/// The same, of a word that has to be there.
pub fn expect<'a>(word: &[u8], bytes: &'a [u8]) -> Result<&'a [u8], Unread>
    ensures { Gives (λ x. x.now) result (spec.after word.now bytes.now) }
{
    match after(word, bytes) {
        Some(rest) => Ok(rest),
        None => Err(Unread::Bad),
    }
}

fn starts(b: u8) -> bool
    ensures { result ≡ identifier.is_start b }
{
    b.is_ascii_alphabetic() || b == b'_'
}

fn goes_on(b: u8) -> bool
    ensures { result ≡ identifier.is_part b }
{
    starts(b) || b.is_ascii_digit()
}

// How many letters, digits and `_` are at the start.
fn word_len(bytes: &[u8]) -> usize
    ensures len { result ≡ prefix_len identifier.is_part bytes.now }
    ensures within { result ≤ length bytes.now }
{
    bytes.iter().take_while(|b| goes_on(**b)).count()
}

fn name_of(alloc: Global, word: &[u8]) -> Result<Name, Unread>
    ensures { Gives (λ n. n) result (spec.name_of word.now) }
{
    let Ok(text) = str::from_utf8(word) else {
        return Err(Unread::Bad);
    };
    match Name::new(alloc, text) {
        Ok(name) => Ok(name),
        Err(NameRefused::BadName) => Err(Unread::Bad),
        Err(NameRefused::NoMemory) => Err(Unread::NoMemory),
    }
}

/// The name at the start.
#[tactic(auto, unfolding(crate::specs::FieldReading::name_at))]
pub fn name_at(alloc: Global, bytes: &[u8]) -> Result<(Name, &[u8]), Unread>
    ensures { Gives (λ x. (x.0, x.1.now)) result (spec.name_at bytes.now) }
{
    let (word, rest) = bytes.split_at(word_len(bytes));
    let name = name_of(alloc, word)?;
    Ok((name, rest))
}

/// Text in UTF-8.
pub fn text_of(alloc: Global, bytes: &[u8]) -> Result<Txt, Unread>
    ensures { Gives (λ t. t) result (spec.text_of bytes.now) }
{
    match str::from_utf8(bytes) {
        Ok(text) => Ok(Txt::new(alloc, text)?),
        Err(_) => Err(Unread::Bad),
    }
}
