//! The bytes of a record from outside, and that each call succeeds where there is memory.
use sdb_codec::{
    ReadRefused, key_has_spelling, read_key, read_record, record_has_spelling, write_key,
    write_record,
};
use sdb_types::{Key, Record};
use std::alloc::Global;
use std::test::Fail;
use test_builders::{Case, Cell, account_with, all_cases};

// bank.account(1){balance=100}
const RECORD: &[u8] =
    b"\x01\x00\x00\x00\x0cbank.account\x01\x02\x00\x00\x00\x01\x00\x00\x01\x00\x00\x00\x07balance\x02\x00\x00\x00\x64";

const CUT: &[u8] =
    b"\x01\x00\x00\x00\x0cbank.account\x01\x02\x00\x00\x00\x01\x00\x00\x01\x00\x00\x00\x07balance\x02\x00\x00\x00";

const KEY: &[u8] = b"\x00\x00\x00\x0cbank.account\x01\x02\x00\x00\x00\x01\x00";

const LONG_KEY: &[u8] = b"\x00\x00\x00\x0cbank.account\x01\x02\x00\x00\x00\x01\x00\x00";

// What is asked of bytes, each answer with the place of the first bad byte.
#[derive(Clone, Copy)]
enum Check {
    Reads(&'static [u8]),
    ReadsKey(&'static [u8]),
    Writes(&'static [u8]),
    WritesKey(&'static [u8]),
    Bad(&'static [u8], u64),
    BadKey(&'static [u8], u64),
}

fn reads(alloc: Global, bytes: &[u8], wanted: &Record) -> Result<bool, Fail> {
    Ok(read_record(alloc, bytes)? == *wanted)
}

fn reads_key(alloc: Global, bytes: &[u8], wanted: &Key) -> Result<bool, Fail> {
    Ok(read_key(alloc, bytes)? == *wanted)
}

fn writes(alloc: Global, rec: &Record, bytes: &[u8]) -> Result<bool, Fail> {
    Ok(record_has_spelling(rec) && write_record(alloc, rec)?.as_slice() == bytes)
}

fn writes_key(alloc: Global, key: &Key, bytes: &[u8]) -> Result<bool, Fail> {
    Ok(key_has_spelling(key) && write_key(alloc, key)?.as_slice() == bytes)
}

fn is_bad(alloc: Global, bytes: &[u8], at: u64) -> bool {
    match read_record(alloc, bytes) {
        Err(refused) => refused == ReadRefused::BadBytes(at),
        Ok(_) => false,
    }
}

fn is_bad_key(alloc: Global, bytes: &[u8], at: u64) -> bool {
    match read_key(alloc, bytes) {
        Err(refused) => refused == ReadRefused::BadBytes(at),
        Ok(_) => false,
    }
}

impl Check {
    // Whether it is answered so, of this record.
    fn agrees(self, alloc: Global, rec: &Record) -> Result<bool, Fail> {
        match self {
            Check::Reads(bytes) => reads(alloc, bytes, rec),
            Check::ReadsKey(bytes) => reads_key(alloc, bytes, &rec.key),
            Check::Writes(bytes) => writes(alloc, rec, bytes),
            Check::WritesKey(bytes) => writes_key(alloc, &rec.key, bytes),
            Check::Bad(bytes, at) => Ok(is_bad(alloc, bytes, at)),
            Check::BadKey(bytes, at) => Ok(is_bad_key(alloc, bytes, at)),
        }
    }
}

impl Case for Check {
    fn holds(self, alloc: Global) -> Result<bool, Fail> {
        let rec = account_with(alloc, 1, [("balance", Cell::Int(100))].as_slice())?;
        self.agrees(alloc, &rec)
    }
}

// A record that is cut off is bad at its last value.
static CHECKS: [Check; 7] = [
    Check::Reads(RECORD),
    Check::ReadsKey(KEY),
    Check::Writes(RECORD),
    Check::WritesKey(KEY),
    Check::Bad(CUT, 37),
    Check::Bad(b"", 0),
    Check::BadKey(LONG_KEY, 23),
];

#[test]
fn a_balance_is_42_bytes(rt: HostRuntime) -> Result<(), Fail> {
    all_cases(rt.alloc(), "codec", CHECKS.as_slice())
}
