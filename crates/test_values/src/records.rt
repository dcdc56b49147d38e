//! The metadata of records, the coordinator's rows, and what a transaction writes.
use sdb_record::{
    Change, Decision, MetaRefused, Write, committed_image, coordinator_key, coordinator_row,
    decision_of, expired, meta_of, prepared, rolled_back, rolled_forward,
};
use sdb_types::{Record, TxId};
use std::alloc::Global;
use std::test::Fail;
use test_builders::{Case, Cell, account, account_with, all_cases, set_columns};

const FIRST: TxId = TxId(0x1_0000_0000_0000_0001);

const FIRST_TEXT: Cell = Cell::Text("00000000-0000-0001-0000-000000000001");

// The metadata of a prepared and of a committed record of the first transaction.
const PREPARED: &[(&str, Cell)] = &[
    ("tx_id", FIRST_TEXT),
    ("tx_state", Cell::Int(1)),
    ("tx_version", Cell::Int(1)),
    ("tx_prepared_at", Cell::BigInt(0)),
    ("balance", Cell::Int(100)),
];

const COMMITTED: &[(&str, Cell)] = &[
    ("tx_id", FIRST_TEXT),
    ("tx_state", Cell::Int(3)),
    ("tx_version", Cell::Int(1)),
    ("tx_prepared_at", Cell::BigInt(0)),
    ("tx_committed_at", Cell::BigInt(0)),
    ("balance", Cell::Int(100)),
];

fn committed(alloc: Global) -> Result<Record, Fail> {
    Ok(account_with(alloc, 1, COMMITTED)?)
}

// What is asked of a record.
#[derive(Clone, Copy)]
enum Check {
    // What is set in a prepared record, and the column for which it is refused then.
    BadPrepared(&'static [(&'static str, Cell)], &'static str),
    BadCommitted(&'static [(&'static str, Cell)], &'static str),
    // The committed record has the metadata of the first transaction.
    Meta,
    // The row of a decision says what was decided, and when.
    Decided(Decision, i64),
    // Whether what was prepared at the moment 0 has expired at another.
    Expired(i64, bool),
    // A delete where nothing was means no record, and can be rolled back.
    Deleted,
    // The prepared record is rolled forward to the committed one.
    Forward,
}

fn is_bad(alloc: Global, rec: &Record, column: &str) -> bool {
    match meta_of(alloc, rec) {
        Err(MetaRefused::BadMeta(name)) => name.as_str() == column,
        _ => false,
    }
}

// Whether a record with these columns, in which others are set, is refused for a column.
fn is_bad_with(
    alloc: Global,
    columns: &[(&'static str, Cell)],
    set: &[(&'static str, Cell)],
    column: &str,
) -> Result<bool, Fail> {
    let mut rec = account_with(alloc, 1, columns)?;
    set_columns(alloc, &mut rec.columns, set)?;
    Ok(is_bad(alloc, &rec, column))
}

fn has_meta(alloc: Global) -> Result<bool, Fail> {
    let meta = meta_of(alloc, &committed(alloc)?)?;
    Ok(meta.id == FIRST && meta.version == 1)
}

// Whether the row of the first transaction says so.
fn says(alloc: Global, row: &Record, decision: Decision, at: i64) -> Result<bool, Fail> {
    let decided = decision_of(alloc, row)?;
    Ok(
        decided.decision == decision
            && decided.created_at == at
            && row.key == coordinator_key(alloc, FIRST)?,
    )
}

fn is_decided(alloc: Global, decision: Decision, at: i64) -> Result<bool, Fail> {
    says(
        alloc,
        &coordinator_row(alloc, FIRST, decision, at)?,
        decision,
        at,
    )
}

// The record of the first transaction, which deletes an account where none was.
fn deleted(alloc: Global) -> Result<Record, Fail> {
    let write = Write {
        key: account(alloc, 1)?,
        base: None,
        change: Change::Delete,
    };
    Ok(prepared(alloc, &write, FIRST, 3)?)
}

// Whether it means no record, and can be rolled back.
fn rolls(alloc: Global, rec: &Record) -> Result<bool, Fail> {
    let meta = meta_of(alloc, rec)?;
    let is_none = committed_image(alloc, rec, None)?.is_none();
    if !meta.is_committed() {
        let _back = rolled_back(alloc, rec)?;
    }
    Ok(is_none)
}

fn is_deleted(alloc: Global) -> Result<bool, Fail> {
    rolls(alloc, &deleted(alloc)?)
}

fn goes_forward(alloc: Global, rec: &Record, wanted: &Record) -> Result<bool, Fail> {
    Ok(rolled_forward(alloc, rec, 0)? == *wanted)
}

fn is_forward(alloc: Global) -> Result<bool, Fail> {
    let rec = account_with(alloc, 1, PREPARED)?;
    let wanted = committed(alloc)?;
    goes_forward(alloc, &rec, &wanted)
}

impl Case for Check {
    fn holds(self, alloc: Global) -> Result<bool, Fail> {
        match self {
            Check::BadPrepared(set, bad) => is_bad_with(alloc, PREPARED, set, bad),
            Check::BadCommitted(set, bad) => is_bad_with(alloc, COMMITTED, set, bad),
            Check::Meta => has_meta(alloc),
            Check::Decided(decision, at) => is_decided(alloc, decision, at),
            Check::Expired(at, wanted) => Ok(expired(0, at) == wanted),
            Check::Deleted => is_deleted(alloc),
            Check::Forward => is_forward(alloc),
        }
    }
}

static CHECKS: [Check; 15] = [
    // The first bad column.
    Check::BadPrepared(&[("tx_state", Cell::Int(4))], "tx_state"),
    Check::BadPrepared(&[("tx_state", Cell::Int(2))], "balance"),
    Check::BadCommitted(
        &[("balance", Cell::Null), ("before_balance", Cell::Int(100))],
        "before_balance",
    ),
    Check::BadPrepared(
        &[("balance", Cell::Null), ("before_balance", Cell::Int(100))],
        "before_tx_id",
    ),
    Check::BadPrepared(&[("tx_id", Cell::Null)], "tx_id"),
    Check::BadPrepared(&[("tx_version", Cell::Int(0))], "tx_version"),
    Check::BadPrepared(&[("tx_prepared_at", Cell::BigInt(-1))], "tx_prepared_at"),
    Check::BadCommitted(&[("tx_committed_at", Cell::Null)], "tx_committed_at"),
    Check::BadPrepared(&[("tx_tombstone", Cell::Bool(true))], "tx_tombstone"),
    Check::Meta,
    Check::Decided(Decision::Aborted, 5),
    Check::Expired(15000, true),
    Check::Expired(14999, false),
    Check::Deleted,
    Check::Forward,
];

#[test]
fn records_are_read_and_rolled(rt: HostRuntime) -> Result<(), Fail> {
    all_cases(rt.alloc(), "records", CHECKS.as_slice())
}
