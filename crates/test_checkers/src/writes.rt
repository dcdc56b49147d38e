//! The writes of two clients to one account, and the records that they leave there.
use check_protocol::prepared_if_sound;
use sdb_record::{Change, Write, rolled_forward};
use sdb_types::{Key, Record, TxId};
use std::alloc::Global;
use std::test::Fail;
use test_builders::{Cell, columns_of};

// The first transactions of clients 1, 2 and 3.
pub const ONE: TxId = TxId(0x1_0000_0000_0000_0001);

pub const TWO: TxId = TxId(0x2_0000_0000_0000_0001);

pub const THREE: TxId = TxId(0x3_0000_0000_0000_0001);

// What client 2 does to the account that client 1 inserts.
#[derive(Clone, Copy)]
pub enum Second {
    Updates,
    Deletes,
}

// The account with id 1.
pub fn account(alloc: Global) -> Result<Key, Fail> {
    Ok(test_builders::account(alloc, 1)?)
}

fn row_with(alloc: Global, balance: i32) -> Result<Change, Fail> {
    let columns = columns_of(alloc, [("balance", Cell::Int(balance))].as_slice())?;
    Ok(Change::Row(columns))
}

// A write of the account where none was.
fn first_write(alloc: Global, change: Change) -> Result<Write, Fail> {
    Ok(Write {
        key: account(alloc)?,
        base: None,
        change,
    })
}

fn inserts(alloc: Global) -> Result<Write, Fail> {
    first_write(alloc, row_with(alloc, 100)?)
}

fn change_of(alloc: Global, second: Second) -> Result<Change, Fail> {
    match second {
        Second::Updates => row_with(alloc, 7),
        Second::Deletes => Ok(Change::Delete),
    }
}

// What client 1 left.
fn inserted(alloc: Global) -> Result<Record, Fail> {
    forward_of(alloc, &inserts(alloc)?, ONE)
}

// What client 2 writes, over what client 1 left.
fn changes(alloc: Global, second: Second) -> Result<Write, Fail> {
    let base = inserted(alloc)?;
    let mut write = first_write(alloc, change_of(alloc, second)?)?;
    write.base = Some(base);
    Ok(write)
}

pub fn write_of(alloc: Global, second: Second, id: TxId) -> Result<Write, Fail> {
    if id == ONE {
        inserts(alloc)
    } else {
        changes(alloc, second)
    }
}

pub fn prepared_of(alloc: Global, write: &Write, id: TxId) -> Result<Record, Fail> {
    let found = prepared_if_sound(alloc, write, id, 0)?;
    Ok(found.ok_or("a write of another form")?)
}

fn forward_of(alloc: Global, write: &Write, id: TxId) -> Result<Record, Fail> {
    let rec = prepared_of(alloc, write, id)?;
    Ok(rolled_forward(alloc, &rec, 0)?)
}

// The record that a transaction prepares.
pub fn held(alloc: Global, second: Second, id: TxId) -> Result<Record, Fail> {
    prepared_of(alloc, &write_of(alloc, second, id)?, id)
}

// The record that a transaction leaves.
pub fn left(alloc: Global, second: Second, id: TxId) -> Result<Record, Fail> {
    forward_of(alloc, &write_of(alloc, second, id)?, id)
}
