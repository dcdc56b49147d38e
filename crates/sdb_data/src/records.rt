//! The records of a text, and their fields.
ghost use Rattle.std.specs.Prelude.{◌≡◌, ◌∷◌, [], ℕ, List, Some, None, IfOk, IfSome, map, get_or};
ghost use Rattle.std.specs.List.{list_all};
ghost use Rattle.std.specs.Str.{is_utf8};
ghost use Rattle.csv.specs.Reading.{AreRecords, default_config, strip_bom};
ghost use Rattle.csv.specs.Records.{fields_of};
ghost use Rattle.csv.specs.declared.parser.State.TheVariants as st;
ghost use Rattle.sdb_data.specs.Records.{csv_records};

use crate::field::as_text;
use csv::{ByteRecord, Error, ReaderBuilder};
use sdb_types::NoMemory;
use std::alloc::Global;

// Every record of a text, whatever its length.
fn all_records(alloc: Global, text: &[u8]) -> Result<Vec<ByteRecord>, Error>
    ensures { IfOk result (λ v. AreRecords default_config st.StartRecord (strip_bom text.now) (map fields_of v.items)) }
{
    let rdr = ReaderBuilder::new()
        .has_headers(false)
        .flexible(true)
        .from_reader(alloc, text);
    let mut rows = Vec::new(alloc);
    for row in rdr.into_byte_records() {
        if rows.push(row?).is_err() {
            return Err(Error::out_of_memory());
        }
    }
    Ok(rows)
}

/// The records of a text.
pub fn records_of(alloc: Global, text: &[u8]) -> Result<Vec<ByteRecord>, NoMemory>
    ensures { IfOk result (λ v. map fields_of v.items ≡ csv_records text.now) }
{
    match all_records(alloc, text) {
        Ok(records) => Ok(records),
        // Bytes in memory can't fail to be read, and records of any lengths are accepted, so memory is all that can be wanting.
        Err(_) => Err(NoMemory),
    }
}

/// The field at a place, from 0; empty where there is none.
pub fn field_at(fields: &ByteRecord, place: usize) -> &[u8]
    ensures { result.now ≡ get_or (fields_of fields.now) place [] }
{
    match fields.get(place) {
        Some(field) => field,
        None => &[],
    }
}

/// Whether each field is UTF-8.
pub fn is_text(fields: &ByteRecord) -> bool
    ensures { result ≡ list_all is_utf8 (fields_of fields.now) }
{
    for place in 0..fields.len() {
        if as_text(field_at(fields, place)).is_none() {
            return false;
        }
    }
    true
}
