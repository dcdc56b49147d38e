//! Schemas that are refused, each with its fault.
use sdb_loader::{SchemaFault, catalog_of};
use sdb_schema::TableRefused;
use sdb_types::TableName;
use std::alloc::{AllocError, Global};
use std::test::Fail;
use test_builders::{Case, all_cases};

#[derive(Clone, Copy, PartialEq, Eq)]
enum Kind {
    Nothing,
    NotJson,
    NotAnObject,
    TableName,
    NonTransactional,
    Field,
    UnknownType,
    NoPartitionKey,
    UnknownColumn,
    RepeatedColumn,
    ReservedName,
    TooMany(u64),
    TooManyTables,
    NoMemory,
}

// A fault, the two names of its table, and the name or the text that it is about.
#[derive(Clone, Copy)]
struct Fault {
    kind: Kind,
    table: (&'static str, &'static str),
    what: &'static str,
}

// The table that a fault names.
#[derive(Clone, Copy)]
enum At {
    Nothing,
    Ab,
    Ba,
}

fn names_of(at: At) -> (&'static str, &'static str) {
    match at {
        At::Nothing => ("", ""),
        At::Ab => ("a", "b"),
        At::Ba => ("b", "a"),
    }
}

fn kind_of_table(refused: &TableRefused) -> Kind {
    match refused {
        TableRefused::NoPartitionKey => Kind::NoPartitionKey,
        TableRefused::UnknownColumn(_) => Kind::UnknownColumn,
        TableRefused::RepeatedColumn(_) => Kind::RepeatedColumn,
        TableRefused::ReservedName(_) => Kind::ReservedName,
        TableRefused::TooMany(limit) => Kind::TooMany(*limit),
        TableRefused::NoMemory => Kind::NoMemory,
    }
}

fn kind_of(fault: &SchemaFault) -> Kind {
    match fault {
        SchemaFault::NotJson => Kind::NotJson,
        SchemaFault::NotAnObject => Kind::NotAnObject,
        SchemaFault::BadTableName(_) => Kind::TableName,
        SchemaFault::NonTransactional(_) => Kind::NonTransactional,
        SchemaFault::BadField(_, _) => Kind::Field,
        SchemaFault::UnknownType(_, _) => Kind::UnknownType,
        SchemaFault::BadTable(_, refused) => kind_of_table(refused),
        SchemaFault::TooManyTables => Kind::TooManyTables,
        SchemaFault::NoMemory => Kind::NoMemory,
    }
}

fn is_named(name: &TableName, wanted: (&str, &str)) -> bool {
    name.ns.as_str() == wanted.0 && name.table.as_str() == wanted.1
}

fn is_at(fault: &SchemaFault, table: (&str, &str)) -> bool {
    match fault {
        SchemaFault::NonTransactional(name) => is_named(name, table),
        SchemaFault::BadField(name, _) => is_named(name, table),
        SchemaFault::UnknownType(name, _) => is_named(name, table),
        SchemaFault::BadTable(name, _) => is_named(name, table),
        _ => table.0.is_empty(),
    }
}

fn column_of(refused: &TableRefused) -> &str {
    match refused {
        TableRefused::UnknownColumn(name) => name.as_str(),
        TableRefused::RepeatedColumn(name) => name.as_str(),
        TableRefused::ReservedName(name) => name.as_str(),
        _ => "",
    }
}

fn what_of(fault: &SchemaFault) -> &str {
    match fault {
        SchemaFault::BadTableName(text) => text.as_str(),
        SchemaFault::BadField(_, member) => member.as_str(),
        SchemaFault::UnknownType(_, column) => column.as_str(),
        SchemaFault::BadTable(_, refused) => column_of(refused),
        _ => "",
    }
}

fn is_fault(found: &SchemaFault, wanted: Fault) -> bool {
    kind_of(found) == wanted.kind && is_at(found, wanted.table) && what_of(found) == wanted.what
}

// Whether bytes describe no catalog for that fault.
fn has_fault(alloc: Global, json: &[u8], fault: Fault) -> bool {
    match catalog_of(alloc, json) {
        Ok(_catalog) => fault.kind == Kind::Nothing,
        Err(found) => is_fault(&found, fault),
    }
}

// A table `a.b` of the columns k and n, of kind INT, with these members.
fn schema_with(alloc: Global, members: &str) -> Result<String, AllocError> {
    format!(in alloc; "{{\"a.b\":{{\"columns\":{{\"k\":\"INT\",\"n\":\"INT\"}},{members}}}}}")
}

fn put_often(text: &mut String, mark: char, count: usize) -> Result<(), AllocError> {
    for _ in 0..count {
        text.push(mark)?;
    }
    Ok(())
}

// An array of so many arrays, one in the other.
fn nested(alloc: Global, depth: usize) -> Result<String, AllocError> {
    let mut text = String::new(alloc);
    put_often(&mut text, '[', depth)?;
    put_often(&mut text, ']', depth)?;
    Ok(text)
}

fn put_table(alloc: Global, text: &mut String, i: usize) -> Result<(), AllocError> {
    let comma = if i == 0 { "" } else { "," };
    let table = format!(in alloc;
        "{comma}\"a.t{i}\":{{\"columns\":{{\"k\":\"INT\"}},\"partition-key\":[\"k\"]}}"
    )?;
    text.push_str(table.as_str())
}

// So many tables.
fn tables(alloc: Global, count: usize) -> Result<String, AllocError> {
    let mut text = String::from_str(alloc, "{")?;
    for i in 0..count {
        put_table(alloc, &mut text, i)?;
    }
    text.push('}')?;
    Ok(text)
}

fn put_column(alloc: Global, text: &mut String, i: usize, end: &str) -> Result<(), AllocError> {
    let comma = if i == 0 { "" } else { "," };
    let column = format!(in alloc; "{comma}\"c{i}\"{end}")?;
    text.push_str(column.as_str())
}

// The names of so many columns, each with this end.
fn columns(alloc: Global, count: usize, end: &str) -> Result<String, AllocError> {
    let mut text = String::new(alloc);
    for i in 0..count {
        put_column(alloc, &mut text, i, end)?;
    }
    Ok(text)
}

// A table of so many columns, of which the first so many are the partition key.
fn wide(alloc: Global, count: usize, keys: usize) -> Result<String, AllocError> {
    let columns_text = columns(alloc, count, ":\"INT\"")?;
    let key = columns(alloc, keys, "")?;
    format!(in alloc; "{{\"a.b\":{{\"columns\":{{{columns_text}}},\"partition-key\":[{key}]}}}}")
}

// A schema, and the fault for which it is refused.
#[derive(Clone, Copy)]
enum Check {
    Bytes(&'static [u8], Kind),
    Text(&'static str, Kind, At, &'static str),
    // A table `a.b` with these members.
    Members(&'static str, Kind, At, &'static str),
    // So many arrays, one in the other.
    Nested(usize, Kind),
    // So many tables.
    Tables(usize, Kind),
    // So many columns in the table `a.b`, and of them in its key.
    Wide(usize, usize, Kind, At),
}

impl Check {
    fn fault(self) -> Fault {
        let (kind, at, what) = match self {
            Check::Bytes(_, kind) | Check::Nested(_, kind) | Check::Tables(_, kind) => {
                (kind, At::Nothing, "")
            }
            Check::Text(_, kind, at, what) | Check::Members(_, kind, at, what) => (kind, at, what),
            Check::Wide(_, _, kind, at) => (kind, at, ""),
        };
        Fault {
            kind,
            table: names_of(at),
            what,
        }
    }

    // The schema, but for one of bytes.
    fn text(self, alloc: Global) -> Result<String, AllocError> {
        match self {
            Check::Bytes(_, _) => Ok(String::new(alloc)),
            Check::Text(json, _, _, _) => String::from_str(alloc, json),
            Check::Members(members, _, _, _) => schema_with(alloc, members),
            Check::Nested(depth, _) => nested(alloc, depth),
            Check::Tables(count, _) => tables(alloc, count),
            Check::Wide(count, keys, _, _) => wide(alloc, count, keys),
        }
    }
}

impl Case for Check {
    fn holds(self, alloc: Global) -> Result<bool, Fail> {
        match self {
            Check::Bytes(json, _) => Ok(has_fault(alloc, json, self.fault())),
            _ => Ok(has_fault(alloc, self.text(alloc)?.as_bytes(), self.fault())),
        }
    }
}

// The first fault.
static TEXTS: [Check; 21] = [
    Check::Text("", Kind::NotJson, At::Nothing, ""),
    Check::Text("{\"a.b\":}", Kind::NotJson, At::Nothing, ""),
    Check::Text("{\"a.b\":{}} {}", Kind::NotJson, At::Nothing, ""),
    Check::Text("[1e999]", Kind::NotJson, At::Nothing, ""),
    Check::Text("[\"\\ud800\"]", Kind::NotJson, At::Nothing, ""),
    Check::Text("[]", Kind::NotAnObject, At::Nothing, ""),
    Check::Text("null", Kind::NotAnObject, At::Nothing, ""),
    Check::Text("{\"ab\":{}}", Kind::TableName, At::Nothing, "ab"),
    Check::Text("{\"a.b.c\":{}}", Kind::TableName, At::Nothing, "a.b.c"),
    Check::Text("{\"a.1\":{}}", Kind::TableName, At::Nothing, "a.1"),
    Check::Text(
        "{\"coordinator.x\":{}}",
        Kind::TableName,
        At::Nothing,
        "coordinator.x",
    ),
    Check::Text(
        "{\"scalardb.x\":{}}",
        Kind::TableName,
        At::Nothing,
        "scalardb.x",
    ),
    Check::Text(
        "{\"a.b\":{\"transaction\":false}}",
        Kind::NonTransactional,
        At::Ab,
        "",
    ),
    Check::Text("{\"a.b\":{}}", Kind::Field, At::Ab, "columns"),
    Check::Text("{\"a.b\":1}", Kind::Field, At::Ab, "columns"),
    Check::Text(
        "{\"a.b\":{\"columns\":{\"k\":\"INT\"}}}",
        Kind::Field,
        At::Ab,
        "partition-key",
    ),
    Check::Text("{\"b.a\":{},\"a.b\":{}}", Kind::Field, At::Ab, "columns"),
    Check::Text(
        "{\"a.b\":{},\"b.a\":{\"transaction\":false}}",
        Kind::NonTransactional,
        At::Ba,
        "",
    ),
    Check::Text(
        "{\"a.b\":{\"transaction\":false},\"b\":{}}",
        Kind::TableName,
        At::Nothing,
        "b",
    ),
    Check::Text(
        "{\"a.b\":{\"columns\":{\"k\":\"INT\",\"v\":\"FLOAT\"},\"partition-key\":[\"x\"]}}",
        Kind::UnknownType,
        At::Ab,
        "v",
    ),
    Check::Text(
        "{\"a.b\":{\"columns\":{\"k\":1},\"partition-key\":[\"k\"]}}",
        Kind::UnknownType,
        At::Ab,
        "k",
    ),
];

fn texts_have_their_fault(alloc: Global) -> Result<(), Fail> {
    all_cases(alloc, "texts", TEXTS.as_slice())
}

static MEMBERS: [Check; 19] = [
    Check::Members(
        "\"partition-key\":\"k\"",
        Kind::Field,
        At::Ab,
        "partition-key",
    ),
    Check::Members(
        "\"partition-key\":[1]",
        Kind::Field,
        At::Ab,
        "partition-key",
    ),
    Check::Members(
        "\"partition-key\":[\"k ASC\"]",
        Kind::Field,
        At::Ab,
        "partition-key",
    ),
    Check::Members(
        "\"partition-key\":[\"k\"],\"clustering-key\":{}",
        Kind::Field,
        At::Ab,
        "clustering-key",
    ),
    Check::Members(
        "\"partition-key\":[\"k\"],\"clustering-key\":[\"n  ASC\"]",
        Kind::Field,
        At::Ab,
        "clustering-key",
    ),
    Check::Members(
        "\"partition-key\":[\"k\"],\"clustering-key\":[\"n UP\"]",
        Kind::Field,
        At::Ab,
        "clustering-key",
    ),
    Check::Members(
        "\"partition-key\":[\"k\"],\"clustering-key\":[\"n \"]",
        Kind::Field,
        At::Ab,
        "clustering-key",
    ),
    Check::Members(
        "\"partition-key\":[\"k\"],\"secondary-index\":[null]",
        Kind::Field,
        At::Ab,
        "secondary-index",
    ),
    Check::Members(
        "\"partition-key\":[\"k\"],\"transaction\":\"true\"",
        Kind::Field,
        At::Ab,
        "transaction",
    ),
    Check::Members(
        "\"secondary-index\":1,\"partition-key\":1",
        Kind::Field,
        At::Ab,
        "partition-key",
    ),
    Check::Members(
        "\"partition-key\":[\"k\"],\"columns\":{\"1\":\"INT\"}",
        Kind::Field,
        At::Ab,
        "columns",
    ),
    Check::Members("\"partition-key\":[]", Kind::NoPartitionKey, At::Ab, ""),
    Check::Members(
        "\"partition-key\":[\"x\"]",
        Kind::UnknownColumn,
        At::Ab,
        "x",
    ),
    Check::Members(
        "\"partition-key\":[\"k\"],\"clustering-key\":[\"x\"]",
        Kind::UnknownColumn,
        At::Ab,
        "x",
    ),
    Check::Members(
        "\"partition-key\":[\"k\"],\"secondary-index\":[\"x\"]",
        Kind::UnknownColumn,
        At::Ab,
        "x",
    ),
    Check::Members(
        "\"partition-key\":[\"k\"],\"clustering-key\":[\"k\"]",
        Kind::RepeatedColumn,
        At::Ab,
        "k",
    ),
    Check::Members(
        "\"partition-key\":[\"k\"],\"columns\":{\"k\":\"INT\",\"tx_id\":\"TEXT\"}",
        Kind::ReservedName,
        At::Ab,
        "tx_id",
    ),
    Check::Members(
        "\"partition-key\":[\"k\"],\"columns\":{\"k\":\"INT\",\"before_k\":\"INT\"}",
        Kind::ReservedName,
        At::Ab,
        "before_k",
    ),
    Check::Members(
        "\"partition-key\":[\"k\"],\"clustering-key\":[\"n desc\"]",
        Kind::Nothing,
        At::Nothing,
        "",
    ),
];

fn members_have_their_fault(alloc: Global) -> Result<(), Fail> {
    all_cases(alloc, "members", MEMBERS.as_slice())
}

static LIMITS: [Check; 9] = [
    // A text is in UTF-8.
    Check::Bytes(b"{\"\xff\":{}}", Kind::NotJson),
    Check::Bytes(b"\xef\xbb\xbf{}", Kind::NotJson),
    // JSON nests 127 deep.
    Check::Nested(127, Kind::NotAnObject),
    Check::Nested(128, Kind::NotJson),
    // A catalog has 64 tables, and a table 64 columns, of which 8 may be its key.
    Check::Tables(64, Kind::Nothing),
    Check::Tables(65, Kind::TooManyTables),
    Check::Wide(64, 8, Kind::Nothing, At::Nothing),
    Check::Wide(65, 1, Kind::TooMany(64), At::Ab),
    Check::Wide(9, 9, Kind::TooMany(8), At::Ab),
];

#[test]
fn schemas_have_their_first_fault(rt: HostRuntime) -> Result<(), Fail> {
    texts_have_their_fault(rt.alloc())?;
    members_have_their_fault(rt.alloc())?;
    all_cases(rt.alloc(), "limits", LIMITS.as_slice())
}
