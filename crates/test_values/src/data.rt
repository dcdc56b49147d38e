//! Texts of CSV: the rows that each is read as, why each is refused and at which record, and how rows are printed.
use sdb_data::{CsvFault, CsvRefused, Mode, print_table, read_table};
use sdb_loader::catalog_of;
use sdb_schema::Table;
use sdb_types::{Octets, Seq, Values};
use std::alloc::Global;
use std::test::Fail;
use test_builders::{Case, Cell, all_cases, values_of};

// `shop.item` has a column of each kind, `shop.orders` a key of two columns, and `shop.tag` its key alone.
const TABLES: &str =
    "{\"shop.item\":{\"partition-key\":[\"id\"],\"columns\":{\"id\":\"INT\",\"big\":\"BIGINT\",\"data\":\"BLOB\",\"on\":\"BOOLEAN\",\"t\":\"TEXT\"}},\"shop.orders\":{\"partition-key\":[\"customer\"],\"clustering-key\":[\"placed DESC\"],\"columns\":{\"customer\":\"INT\",\"placed\":\"BIGINT\",\"note\":\"TEXT\"}},\"shop.tag\":{\"partition-key\":[\"t\"],\"columns\":{\"t\":\"TEXT\"}}}";

const ITEM: usize = 0;

const ORDERS: usize = 1;

const TAG: usize = 2;

fn rows_of(alloc: Global, cells: &[&[Cell]]) -> Result<Seq<Values>, Fail> {
    let mut rows = Seq::new(alloc);
    for row in cells {
        rows.push(values_of(alloc, row)?)?;
    }
    Ok(rows)
}

// What is asked of a table.
#[derive(Clone, Copy)]
enum Ask {
    // A text that is read: in which mode, and as which rows.
    Read(Mode, &'static [u8], &'static [&'static [Cell]]),
    // A text that is refused: in which mode, at which record and why.
    Refused(Mode, &'static [u8], u64, CsvFault),
    // The first bytes of a text, how many more follow, and whether it is read.
    Long(&'static [u8], usize, bool),
    // Rows, and the text that they are printed as.
    Printed(&'static [&'static [Cell]], &'static [u8]),
}

#[derive(Clone, Copy)]
struct Check(usize, Ask);

fn reads(
    alloc: Global,
    table: &Table,
    mode: Mode,
    text: &[u8],
    rows: &[&[Cell]],
) -> Result<bool, Fail> {
    let rows = rows_of(alloc, rows)?;
    Ok(read_table(alloc, table, mode, text)? == rows)
}

fn refuses(alloc: Global, table: &Table, mode: Mode, text: &[u8], refused: CsvRefused) -> bool {
    match read_table(alloc, table, mode, text) {
        Ok(_) => false,
        Err(found) => found == refused,
    }
}

// A header and one record, whose text has so many bytes after a first one.
fn long_text(alloc: Global, first: &[u8], length: usize) -> Result<Vec<u8>, Fail> {
    let mut text = Vec::from_slice(alloc, b"t\n")?;
    text.extend_from_slice(first)?;
    for _ in 0..length {
        text.push(b'x')?;
    }
    Ok(text)
}

// Whether such a text is read.
fn reads_long(
    alloc: Global,
    table: &Table,
    first: &[u8],
    length: usize,
    wanted: bool,
) -> Result<bool, Fail> {
    let text = long_text(alloc, first, length)?;
    Ok(read_table(alloc, table, Mode::Insert, text.as_slice()).is_ok() == wanted)
}

// Whether the rows that are read begin with one more, and then are these.
fn follow(read: &[Values], rows: &[Values]) -> bool {
    match read.split_first() {
        Some((_names, rest)) => rest == rows,
        None => false,
    }
}

fn is_read_back(
    alloc: Global,
    table: &Table,
    text: &[u8],
    rows: &Seq<Values>,
) -> Result<bool, Fail> {
    let read = read_table(alloc, table, Mode::Insert, text)?;
    Ok(follow(read.as_slice(), rows.as_slice()))
}

fn is_printed(alloc: Global, table: &Table, rows: &Seq<Values>, text: &[u8]) -> Result<bool, Fail> {
    Ok(
        is_read_back(alloc, table, text, rows)?
            && print_table(alloc, table, rows)?.as_slice() == text,
    )
}

fn prints(alloc: Global, table: &Table, rows: &[&[Cell]], text: &[u8]) -> Result<bool, Fail> {
    let rows = rows_of(alloc, rows)?;
    is_printed(alloc, table, &rows, text)
}

fn answers(alloc: Global, table: &Table, ask: Ask) -> Result<bool, Fail> {
    match ask {
        Ask::Read(mode, text, rows) => reads(alloc, table, mode, text, rows),
        Ask::Refused(mode, text, at, fault) => {
            Ok(refuses(alloc, table, mode, text, CsvRefused::BadCsv(at, fault)))
        }
        Ask::Long(first, length, wanted) => reads_long(alloc, table, first, length, wanted),
        Ask::Printed(rows, text) => prints(alloc, table, rows, text),
    }
}

impl Case for Check {
    fn holds(self, alloc: Global) -> Result<bool, Fail> {
        match catalog_of(alloc, TABLES.as_bytes())?.at(self.0) {
            Some(table) => answers(alloc, table, self.1),
            None => Ok(false),
        }
    }
}

static READ: [Check; 3] = [
    Check(
        ORDERS,
        Ask::Read(
            Mode::Insert,
            b"customer,placed,note\n1,100,first\n1,200,\"a,b\"\n2,50,\\N\n",
            &[
                &[
                    Cell::Text("customer"),
                    Cell::Text("note"),
                    Cell::Text("placed"),
                ],
                &[Cell::Int(1), Cell::Text("first"), Cell::BigInt(100)],
                &[Cell::Int(1), Cell::Text("a,b"), Cell::BigInt(200)],
                &[Cell::Int(2), Cell::Null, Cell::BigInt(50)],
            ],
        ),
    ),
    // Lines end with CR and LF, or with CR; blank lines are none, and the mark at the start is dropped.
    Check(
        ORDERS,
        Ask::Read(
            Mode::Upsert,
            b"\xef\xbb\xbfplaced,customer\r\n\r\n1,2\r\n\n3,4\r5,6",
            &[
                &[Cell::Text("customer"), Cell::Text("placed")],
                &[Cell::Int(2), Cell::BigInt(1)],
                &[Cell::Int(4), Cell::BigInt(3)],
                &[Cell::Int(6), Cell::BigInt(5)],
            ],
        ),
    ),
    // Quotes, line ends and commas in a text; an empty text is no NULL.
    Check(
        TAG,
        Ask::Read(
            Mode::Insert,
            b"t\n\"say \"\"no\"\"\"\n\"a\r\nb\"\n\"\"\n\" ,\"\n",
            &[
                &[Cell::Text("t")],
                &[Cell::Text("say \"no\"")],
                &[Cell::Text("a\r\nb")],
                &[Cell::Text("")],
                &[Cell::Text(" ,")],
            ],
        ),
    ),
];

fn are_read(alloc: Global) -> Result<(), Fail> {
    all_cases(alloc, "read", READ.as_slice())
}

static READ_TOO: [Check; 7] = [
    // A second backslash comes before a text that begins with one.
    Check(
        TAG,
        Ask::Read(
            Mode::Insert,
            b"t\n\\\\N\n\\\\\nN\\N\n\\\\\\\n",
            &[
                &[Cell::Text("t")],
                &[Cell::Text("\\N")],
                &[Cell::Text("\\")],
                &[Cell::Text("N\\N")],
                &[Cell::Text("\\\\")],
            ],
        ),
    ),
    Check(
        ITEM,
        Ask::Read(
            Mode::Update,
            b"id,on,data,big,t\n-0,TrUe,00fF,-9007199254740992,\n-2147483648,false,,9007199254740992,\\N\n2147483647,\\N,\\N,\\N,x\n",
            &[
                &[
                    Cell::Text("big"),
                    Cell::Text("data"),
                    Cell::Text("id"),
                    Cell::Text("on"),
                    Cell::Text("t"),
                ],
                &[
                    Cell::BigInt(-9007199254740992),
                    Cell::Blob(&[0, 255]),
                    Cell::Int(0),
                    Cell::Bool(true),
                    Cell::Text(""),
                ],
                &[
                    Cell::BigInt(9007199254740992),
                    Cell::Blob(&[]),
                    Cell::Int(-2147483648),
                    Cell::Bool(false),
                    Cell::Null,
                ],
                &[
                    Cell::Null,
                    Cell::Null,
                    Cell::Int(2147483647),
                    Cell::Null,
                    Cell::Text("x"),
                ],
            ],
        ),
    ),
    // A header alone.
    Check(
        ORDERS,
        Ask::Read(
            Mode::Update,
            b"customer,note,placed",
            &[&[
                Cell::Text("customer"),
                Cell::Text("note"),
                Cell::Text("placed"),
            ]],
        ),
    ),
    // Names may be in quotes, and quotes around a number mean nothing.
    Check(
        ITEM,
        Ask::Read(
            Mode::Insert,
            b"\"id\",t\n\"7\",\"\\N\"\n",
            &[
                &[Cell::Text("id"), Cell::Text("t")],
                &[Cell::Int(7), Cell::Null],
            ],
        ),
    ),
    Check(
        TAG,
        Ask::Read(
            Mode::Upsert,
            b"t\nx",
            &[&[Cell::Text("t")], &[Cell::Text("x")]],
        ),
    ),
    // A quote inside a field that doesn't begin with one is a byte like others.
    Check(
        TAG,
        Ask::Read(
            Mode::Upsert,
            b"t\na\"b\n",
            &[&[Cell::Text("t")], &[Cell::Text("a\"b")]],
        ),
    ),
    Check(
        TAG,
        Ask::Read(
            Mode::Upsert,
            b"t\n\xc3\xa9\n",
            &[&[Cell::Text("t")], &[Cell::Text("\u{e9}")]],
        ),
    ),
];

fn are_read_too(alloc: Global) -> Result<(), Fail> {
    all_cases(alloc, "read too", READ_TOO.as_slice())
}

// Items that are inserted, and orders that are updated: a column of the key that is missing comes before there being nothing
// to set.
static REFUSED: [Check; 40] = [
    Check(
        ITEM,
        Ask::Refused(Mode::Insert, b"", 1, CsvFault::MissingKey(1)),
    ),
    Check(
        ITEM,
        Ask::Refused(Mode::Insert, b"\n\r\n", 1, CsvFault::MissingKey(1)),
    ),
    Check(
        ITEM,
        Ask::Refused(Mode::Insert, b"\xef\xbb\xbf", 1, CsvFault::MissingKey(1)),
    ),
    Check(
        ITEM,
        Ask::Refused(Mode::Insert, b"id,nope,id,\xff\n", 1, CsvFault::NotUtf8),
    ),
    Check(
        ITEM,
        Ask::Refused(Mode::Insert, b"t,nope,t,on\n", 1, CsvFault::NoColumn(2)),
    ),
    Check(
        ITEM,
        Ask::Refused(Mode::Insert, b"ID\n", 1, CsvFault::NoColumn(1)),
    ),
    Check(
        ITEM,
        Ask::Refused(Mode::Insert, b"id,\n", 1, CsvFault::NoColumn(2)),
    ),
    Check(
        ITEM,
        Ask::Refused(Mode::Insert, b"id, t\n", 1, CsvFault::NoColumn(2)),
    ),
    Check(
        ITEM,
        Ask::Refused(
            Mode::Insert,
            b"id,t,on,t,id\n",
            1,
            CsvFault::RepeatedColumn(4),
        ),
    ),
    Check(
        ITEM,
        Ask::Refused(Mode::Insert, b"t,t\n", 1, CsvFault::RepeatedColumn(2)),
    ),
    Check(
        ITEM,
        Ask::Refused(Mode::Insert, b"t\n1\n", 1, CsvFault::MissingKey(1)),
    ),
    Check(
        ITEM,
        Ask::Refused(Mode::Insert, b"id,t\n1\n", 2, CsvFault::Fields),
    ),
    Check(
        ITEM,
        Ask::Refused(Mode::Insert, b"id,t\n1,a\n\n\n2,b,c\n", 3, CsvFault::Fields),
    ),
    Check(
        ITEM,
        Ask::Refused(Mode::Insert, b"id,t\n1\xff\n", 2, CsvFault::NotUtf8),
    ),
    Check(
        ITEM,
        Ask::Refused(Mode::Insert, b"id,t\nx,\xc3\x28\n", 2, CsvFault::NotUtf8),
    ),
    Check(
        ITEM,
        Ask::Refused(
            Mode::Insert,
            b"id,t\n1,a\n2,\"b\nc\"\nx,d\ny\n",
            4,
            CsvFault::BadValue(1),
        ),
    ),
    Check(
        ITEM,
        Ask::Refused(Mode::Insert, b"id,t\n\\N,a\n", 2, CsvFault::BadValue(1)),
    ),
    Check(
        ITEM,
        Ask::Refused(Mode::Insert, b"id\n\"\"\n", 2, CsvFault::BadValue(1)),
    ),
    Check(
        ITEM,
        Ask::Refused(Mode::Insert, b"id\n007\n", 2, CsvFault::BadValue(1)),
    ),
    Check(
        ITEM,
        Ask::Refused(Mode::Insert, b"id\n+1\n", 2, CsvFault::BadValue(1)),
    ),
    Check(
        ITEM,
        Ask::Refused(Mode::Insert, b"id\n-\n", 2, CsvFault::BadValue(1)),
    ),
    Check(
        ITEM,
        Ask::Refused(Mode::Insert, b"id\n-00\n", 2, CsvFault::BadValue(1)),
    ),
    Check(
        ITEM,
        Ask::Refused(Mode::Insert, b"id\n-01\n", 2, CsvFault::BadValue(1)),
    ),
    Check(
        ITEM,
        Ask::Refused(Mode::Insert, b"id\n 1\n", 2, CsvFault::BadValue(1)),
    ),
    Check(
        ITEM,
        Ask::Refused(Mode::Insert, b"id\n1.0\n", 2, CsvFault::BadValue(1)),
    ),
    Check(
        ITEM,
        Ask::Refused(
            Mode::Insert,
            b"id\n2147483647\n2147483648\n",
            3,
            CsvFault::BadValue(1),
        ),
    ),
    Check(
        ITEM,
        Ask::Refused(Mode::Insert, b"id\n-2147483649\n", 2, CsvFault::BadValue(1)),
    ),
    Check(
        ITEM,
        Ask::Refused(
            Mode::Insert,
            b"id\n99999999999999999999999\n",
            2,
            CsvFault::BadValue(1),
        ),
    ),
    Check(
        ITEM,
        Ask::Refused(
            Mode::Insert,
            b"id,big\n1,9007199254740993\n",
            2,
            CsvFault::BadValue(2),
        ),
    ),
    Check(
        ITEM,
        Ask::Refused(
            Mode::Insert,
            b"id,big\n1,-9007199254740993\n",
            2,
            CsvFault::BadValue(2),
        ),
    ),
    Check(
        ITEM,
        Ask::Refused(Mode::Insert, b"id,on\n1,1\n", 2, CsvFault::BadValue(2)),
    ),
    Check(
        ITEM,
        Ask::Refused(Mode::Insert, b"id,on\n1,\n", 2, CsvFault::BadValue(2)),
    ),
    Check(
        ITEM,
        Ask::Refused(Mode::Insert, b"id,data\n1,abc\n", 2, CsvFault::BadValue(2)),
    ),
    Check(
        ITEM,
        Ask::Refused(Mode::Insert, b"id,data\n1,0g\n", 2, CsvFault::BadValue(2)),
    ),
    Check(
        ITEM,
        Ask::Refused(Mode::Insert, b"t,id\n\\x,1\n", 2, CsvFault::BadValue(1)),
    ),
    Check(
        ITEM,
        Ask::Refused(Mode::Insert, b"t,id\n\\,1\n", 2, CsvFault::BadValue(1)),
    ),
    Check(
        ORDERS,
        Ask::Refused(Mode::Update, b"", 1, CsvFault::MissingKey(1)),
    ),
    Check(
        ORDERS,
        Ask::Refused(Mode::Update, b"customer\nx\n", 1, CsvFault::MissingKey(2)),
    ),
    Check(
        ORDERS,
        Ask::Refused(
            Mode::Update,
            b"placed,customer\nx\n",
            1,
            CsvFault::MissingKey(0),
        ),
    ),
    Check(
        ORDERS,
        Ask::Refused(
            Mode::Update,
            b"placed,note,customer\n1,a,2\n1,b\n",
            3,
            CsvFault::Fields,
        ),
    ),
];

fn are_refused(alloc: Global) -> Result<(), Fail> {
    all_cases(alloc, "refused", REFUSED.as_slice())
}

// Texts have at most 4,096 bytes; rows are printed and read again.
static PRINTED: [Check; 8] = [
    Check(TAG, Ask::Long(b"", 4096, true)),
    Check(TAG, Ask::Long(b"", 4097, false)),
    Check(TAG, Ask::Long(b"\\\\", 4095, true)),
    Check(TAG, Ask::Long(b"\\\\", 4096, false)),
    Check(
        ORDERS,
        Ask::Printed(
            &[
                &[Cell::Int(1), Cell::Text("a,b"), Cell::BigInt(200)],
                &[Cell::Int(1), Cell::Text("first"), Cell::BigInt(100)],
                &[Cell::Int(2), Cell::Null, Cell::BigInt(50)],
            ],
            b"customer,note,placed\n1,\"a,b\",200\n1,first,100\n2,\\N,50\n",
        ),
    ),
    Check(
        TAG,
        Ask::Printed(
            &[
                &[Cell::Text("")],
                &[Cell::Text("\"")],
                &[Cell::Text("a\r\nb")],
                &[Cell::Text("\r")],
                &[Cell::Text("\\N")],
                &[Cell::Text("a\\")],
                &[Cell::Text(" x ")],
                &[Cell::Text("\u{e9}")],
            ],
            b"t\n\"\"\n\"\"\"\"\n\"a\r\nb\"\n\"\r\"\n\\\\N\na\\\n x \n\xc3\xa9\n",
        ),
    ),
    Check(
        ITEM,
        Ask::Printed(
            &[
                &[
                    Cell::BigInt(-9007199254740992),
                    Cell::Blob(&[0, 10, 255]),
                    Cell::Int(-7),
                    Cell::Bool(true),
                    Cell::Text("TRUE"),
                ],
                &[
                    Cell::Null,
                    Cell::Blob(&[]),
                    Cell::Int(0),
                    Cell::Bool(false),
                    Cell::Text(""),
                ],
            ],
            b"big,data,id,on,t\n-9007199254740992,000AFF,-7,true,TRUE\n\\N,,0,false,\n",
        ),
    ),
    Check(ORDERS, Ask::Printed(&[], b"customer,note,placed\n")),
];

fn are_printed(alloc: Global) -> Result<(), Fail> {
    all_cases(alloc, "printed", PRINTED.as_slice())
}

#[test]
fn texts_of_csv_are_rows(rt: HostRuntime) -> Result<(), Fail> {
    are_read(rt.alloc())?;
    are_read_too(rt.alloc())?;
    are_refused(rt.alloc())?;
    are_printed(rt.alloc())
}
