//! Fields: which value each says, and the field that a value is written as.
ghost use Rattle.std.specs.Prelude.{◌≡◌, not, ◌||◌, ◌&&◌, is_some, IfOk, IfSome};
ghost use Rattle.std.specs.Option.{option_map, option_copied};
ghost use Rattle.std.specs.List.{list_all};
ghost use Rattle.std.specs.Str.{bytes_eq, is_utf8};
ghost use Rattle.std.specs.Fmt.{signed_decimal};
ghost use Rattle.hex.specs.Hex.{is_hex_digit};
ghost use Rattle.sdb_types.specs.declared.value.Value.TheVariants as value;
ghost use Rattle.sdb_data.specs.Fields as spec;
ghost use Rattle.sdb_data.specs.Fields.{is_big};
ghost use Rattle.sdb_types.specs.Fits.{fits_int};

use hex::FromHexError;
use itoa::Buffer;
use sdb_schema::Kind;
use sdb_types::{NoMemory, Octets, Txt, Value};
use std::alloc::Global;

const LARGEST: i64 = 9_007_199_254_740_992;

// The most bytes of a text or a blob.
const LONGEST: usize = 4096;

/// What a record's field is read as: its column's kind, and whether that is of the primary key.
#[derive(Clone, Copy)]
pub struct Head {
    pub kind: Kind,
    pub in_key: bool,
}

/// A field as a text, where it is UTF-8.
pub fn as_text(field: &[u8]) -> Option<&str>
    ensures text { IfSome result (λ text. text.now ≡ field.now) }
    ensures utf8 { is_some result ≡ is_utf8 field.now }
{
    match str::from_utf8(field) {
        Ok(text) => Some(text),
        Err(_) => None,
    }
}

fn is_null(field: &str) -> bool
    ensures { result ≡ spec.is_null_field field.now }
{
    field == "\\N"
}

fn is_spelled(word: &str, field: &str) -> bool
    ensures { result ≡ spec.is_spelled word.now field.now }
{
    field.eq_ignore_ascii_case(word)
}

fn bool_in(field: &str) -> Option<bool>
    ensures { result ≡ spec.bool_in field.now }
{
    if is_spelled("true", field) {
        Some(true)
    } else if is_spelled("false", field) {
        Some(false)
    } else {
        None
    }
}

// Whether a field is the shortest text of a number.
fn is_text_of(number: i64, field: &str) -> bool
    ensures { result ≡ bytes_eq field.now (signed_decimal number) }
{
    let mut digits = Buffer::new();
    field == digits.format(number)
}

fn int_in(field: &str) -> Option<i32>
    ensures { result ≡ spec.number_in fits_int field.now }
{
    if field == "-0" {
        return Some(0);
    }
    match field.parse::<i32>() {
        Ok(number) => {
            if is_text_of(i64::from(number), field) {
                Some(number)
            } else {
                None
            }
        }
        Err(_) => None,
    }
}

fn is_big(number: i64) -> bool
    ensures { result ≡ spec.is_big number }
{
    number >= -LARGEST && number <= LARGEST
}

fn big_in(field: &str) -> Option<i64>
    ensures { result ≡ spec.number_in is_big field.now }
{
    if field == "-0" {
        return Some(0);
    }
    match field.parse::<i64>() {
        Ok(number) => {
            if is_text_of(number, field) && is_big(number) {
                Some(number)
            } else {
                None
            }
        }
        Err(_) => None,
    }
}

/// Whether a text begins with `\`.
pub fn begins_backslash(text: &[u8]) -> bool
    ensures { result ≡ spec.begins_backslash text.now }
{
    match text {
        [b, ..] => *b == b'\\',
        [] => false,
    }
}

// The text that a field means.
fn unescaped(field: &str) -> Option<&str>
    ensures { option_copied result ≡ spec.unescaped field.now }
{
    match field.strip_prefix("\\") {
        None => Some(field),
        Some(rest) => {
            if begins_backslash(rest.as_bytes()) {
                Some(rest)
            } else {
                None
            }
        }
    }
}

fn text_in(field: &str) -> Option<&str>
    ensures { option_copied result ≡ spec.text_in field.now }
{
    match unescaped(field) {
        Some(text) => {
            if text.len() <= LONGEST {
                Some(text)
            } else {
                None
            }
        }
        None => None,
    }
}

fn are_digits(field: &[u8]) -> bool
    ensures { result ≡ list_all is_hex_digit field.now }
{
    field.iter().all(|b| b.is_ascii_hexdigit())
}

fn has_blob_form(field: &[u8]) -> bool
    ensures { result ≡ spec.has_blob_form field.now }
{
    field.len() % 2 == 0 && (field.len() / 2 <= LONGEST && are_digits(field))
}

fn is_blob(field: &[u8]) -> bool
    ensures { result ≡ is_some (spec.blob_in field.now) }
{
    has_blob_form(field)
}

fn says(kind: Kind, field: &str) -> bool
    ensures { result ≡ is_some (spec.value_given kind field.now) }
{
    match kind {
        Kind::Boolean => bool_in(field).is_some(),
        Kind::Int => int_in(field).is_some(),
        Kind::BigInt => big_in(field).is_some(),
        Kind::Text => text_in(field).is_some(),
        Kind::Blob => is_blob(field.as_bytes()),
    }
}

/// Whether a column takes a field.
pub fn suits(head: Head, field: &[u8]) -> bool
    ensures { result ≡ spec.suits head field.now }
{
    match as_text(field) {
        Some(text) => says(head.kind, text) || (!head.in_key && is_null(text)),
        None => false,
    }
}

fn bool_of(field: &str) -> Value
    ensures { result ≡ spec.or_null (option_map value.Bool (spec.bool_in field.now)) }
{
    match bool_in(field) {
        Some(bit) => Value::Bool(bit),
        None => Value::Null,
    }
}

fn int_of(field: &str) -> Value
    ensures { result ≡ spec.or_null (option_map value.Int (spec.number_in fits_int field.now)) }
{
    match int_in(field) {
        Some(number) => Value::Int(number),
        None => Value::Null,
    }
}

fn big_of(field: &str) -> Value
    ensures { result ≡ spec.or_null (option_map value.BigInt (spec.number_in is_big field.now)) }
{
    match big_in(field) {
        Some(number) => Value::BigInt(number),
        None => Value::Null,
    }
}

fn text_of(alloc: Global, field: &str) -> Result<Value, NoMemory>
    ensures { IfOk result (λ v. v ≡ spec.or_null (option_map value.Text (spec.text_in field.now))) }
{
    match text_in(field) {
        Some(text) => Ok(Value::Text(Txt::new(alloc, text)?)),
        None => Ok(Value::Null),
    }
}

fn blob_of(alloc: Global, field: &[u8]) -> Result<Value, NoMemory>
    ensures { IfOk result (λ v. v ≡ spec.or_null (option_map value.Blob (spec.blob_in field.now))) }
{
    match hex::decode(alloc, field) {
        Ok(bytes) => {
            if bytes.len() <= LONGEST {
                Ok(Value::Blob(Octets::from_vec(bytes)))
            } else {
                Ok(Value::Null)
            }
        }
        Err(FromHexError::OutOfMemory) => Err(NoMemory),
        Err(_) => Ok(Value::Null),
    }
}

fn value_of(alloc: Global, kind: Kind, field: &str) -> Result<Value, NoMemory>
    ensures { IfOk result (λ v. v ≡ spec.or_null (spec.value_given kind field.now)) }
{
    match kind {
        Kind::Boolean => Ok(bool_of(field)),
        Kind::Int => Ok(int_of(field)),
        Kind::BigInt => Ok(big_of(field)),
        Kind::Text => text_of(alloc, field),
        Kind::Blob => blob_of(alloc, field.as_bytes()),
    }
}

/// The value that a field says in a column of a kind, NULL where it says none.
pub fn value_at(alloc: Global, kind: Kind, field: &[u8]) -> Result<Value, NoMemory>
    ensures { IfOk result (λ v. v ≡ spec.value_at kind field.now) }
{
    match as_text(field) {
        Some(text) => value_of(alloc, kind, text),
        None => Ok(Value::Null),
    }
}
