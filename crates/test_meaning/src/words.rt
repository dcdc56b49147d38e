//! Words of the program, and which command they are.
use sdb_data::Mode;
use sdb_schema::Kind;
use sdb_types::{Place, TableName};
use sdb_words::{Command, WordsRefused, command_of};
use std::alloc::Global;
use std::test::Fail;
use test_builders::{Case, all_cases, names_of};

/// What words ask for: a table by its two names, and a place by the namespace and the store.
#[derive(Clone, Copy)]
enum Asked {
    Usage,
    Replay,
    Bench(u32),
    Schema(&'static [(&'static str, &'static str)]),
    Sql,
    Load(&'static str, &'static str, Mode, u32),
    Export(&'static str, &'static str),
    Retire(&'static str, &'static str),
    Alter(&'static str, &'static str, &'static str, Kind),
    Audit,
}

const LONG: &str = "aaaaaaaaaaaaaaaaaaaaaaaaaaaaaaaaaaaaaaaaaaaaaaaaaaaaaaaaaaaaaaaa";

// The attached stores.
const STORES: [&str; 3] = ["ordered", "hashed", "sqlite"];

// Words, one a line, and what they ask for.
#[derive(Clone, Copy)]
struct Words(&'static str, Asked);

fn is_table(table: &TableName, ns: &str, name: &str) -> bool {
    table.ns.as_str() == ns && table.table.as_str() == name
}

fn is_place(place: &Place, ns: &str, store: &str) -> bool {
    place.ns.as_str() == ns && place.store.as_str() == store
}

fn are_places(places: &[Place], wanted: &[(&str, &str)]) -> bool {
    places.len() == wanted.len()
        && places
            .iter()
            .zip(wanted)
            .all(|(place, (ns, store))| is_place(place, ns, store))
}

fn asks(command: &Command, asked: Asked) -> bool {
    match (command, asked) {
        (Command::Replay, Asked::Replay) => true,
        (Command::Bench(n), Asked::Bench(wanted)) => *n == wanted,
        (Command::Schema(places), Asked::Schema(wanted)) => are_places(places.as_slice(), wanted),
        (Command::Sql, Asked::Sql) => true,
        (Command::Load(table, mode, n), Asked::Load(ns, name, wanted, rows)) => {
            is_table(table, ns, name) && *mode == wanted && *n == rows
        }
        (Command::Export(table), Asked::Export(ns, name)) => is_table(table, ns, name),
        (Command::Retire(from, to), Asked::Retire(first, second)) => {
            from.as_str() == first && to.as_str() == second
        }
        (Command::Alter(table, column, kind), Asked::Alter(ns, name, wanted, of)) => {
            is_table(table, ns, name) && column.as_str() == wanted && *kind == of
        }
        (Command::Audit, Asked::Audit) => true,
        _ => false,
    }
}

fn ask(alloc: Global, words: &[String], asked: Asked) -> Result<bool, Fail> {
    let stores = names_of(alloc, &STORES)?;
    match command_of(alloc, words, &stores) {
        Ok(command) => Ok(asks(&command, asked)),
        Err(WordsRefused::Usage) => Ok(matches!(asked, Asked::Usage)),
        Err(refused) => Err(Fail::from(refused)),
    }
}

impl Case for Words {
    fn holds(self, alloc: Global) -> Result<bool, Fail> {
        let mut words = Vec::new(alloc);
        for word in self.0.lines() {
            words.push(String::from_str(alloc, word)?)?;
        }
        ask(alloc, words.as_slice(), self.1)
    }
}

static WORDS: [Words; 90] = [
    Words("replay\n", Asked::Replay),
    Words("replay\nx\n", Asked::Usage),
    Words("replay\n\n", Asked::Usage),
    Words("Replay\n", Asked::Usage),
    Words(" replay\n", Asked::Usage),
    Words("", Asked::Usage),
    Words("\n", Asked::Usage),
    Words("help\n", Asked::Usage),
    Words("--help\n", Asked::Usage),
    Words("--version\n", Asked::Usage),
    Words("-h\n", Asked::Usage),
    Words("--\n", Asked::Usage),
    Words("--\nreplay\n", Asked::Usage),
    Words("replay\n--help\n", Asked::Usage),
    Words("-\n", Asked::Usage),
    Words("replay\n-\n", Asked::Usage),
    Words("audit\n", Asked::Audit),
    Words("audit\naudit\n", Asked::Usage),
    Words(
        "retire\nhashed\nsqlite\n",
        Asked::Retire("hashed", "sqlite"),
    ),
    Words(
        "retire\nsqlite\nordered\n",
        Asked::Retire("sqlite", "ordered"),
    ),
    Words("retire\nordered\nhashed\n", Asked::Usage),
    Words("retire\nhashed\nhashed\n", Asked::Usage),
    Words("retire\nhashed\nelsewhere\n", Asked::Usage),
    Words("retire\nelsewhere\nhashed\n", Asked::Usage),
    Words("retire\nhashed\n", Asked::Usage),
    Words("retire\nhashed\nsqlite\nordered\n", Asked::Usage),
    Words("retire\n-hashed\nsqlite\n", Asked::Usage),
    Words("bench\n", Asked::Usage),
    Words("bench\n1\n", Asked::Bench(1)),
    Words("bench\n2000\n", Asked::Bench(2000)),
    Words("bench\n20000\n", Asked::Bench(20000)),
    Words("bench\n20001\n", Asked::Usage),
    Words("bench\n4294967297\n", Asked::Usage),
    Words("bench\n0\n", Asked::Usage),
    Words("bench\n01\n", Asked::Usage),
    Words("bench\n+1\n", Asked::Usage),
    Words("bench\n-1\n", Asked::Usage),
    Words("bench\n\n", Asked::Usage),
    Words("bench\n1 \n", Asked::Usage),
    Words("bench\none\n", Asked::Usage),
    Words("bench\n1\n2\n", Asked::Usage),
    Words("bench\n--help\n", Asked::Usage),
    Words("bench\n--\n5\n", Asked::Usage),
    Words("sql\n", Asked::Sql),
    Words("sql\nsql\n", Asked::Usage),
    Words("schema\n", Asked::Schema(&[])),
    Words(
        "schema\nshop=hashed\n",
        Asked::Schema(&[("shop", "hashed")]),
    ),
    Words(
        "schema\nshop=hashed\nbank=ordered\n",
        Asked::Schema(&[("shop", "hashed"), ("bank", "ordered")]),
    ),
    Words(
        "schema\ncoordinator=hashed\n",
        Asked::Schema(&[("coordinator", "hashed")]),
    ),
    Words("schema\nshop=elsewhere\n", Asked::Usage),
    Words("schema\nshop=hashed\nbank=elsewhere\n", Asked::Usage),
    Words("schema\nshop=hashed\n\n", Asked::Usage),
    Words("schema\nshop=hashed\nshop=hashed\n", Asked::Usage),
    Words(
        "schema\nshop=hashed\nbank=ordered\nshop=ordered\n",
        Asked::Usage,
    ),
    Words("schema\nscalardb=ordered\n", Asked::Usage),
    Words("schema\nshop\n", Asked::Usage),
    Words("schema\nshop=\n", Asked::Usage),
    Words("schema\n=hashed\n", Asked::Usage),
    Words("schema\nshop=hashed=\n", Asked::Usage),
    Words("schema\n1shop=hashed\n", Asked::Usage),
    Words("schema\n-shop=hashed\n", Asked::Usage),
    Words(
        "load\nshop.orders\ninsert\n2\n",
        Asked::Load("shop", "orders", Mode::Insert, 2),
    ),
    Words(
        "load\nshop.orders\nupdate\n1\n",
        Asked::Load("shop", "orders", Mode::Update, 1),
    ),
    Words(
        "load\nshop.orders\nupsert\n1000\n",
        Asked::Load("shop", "orders", Mode::Upsert, 1000),
    ),
    Words("load\nshop.orders\nupsert\n1001\n", Asked::Usage),
    Words("load\nshop.orders\nupsert\n0\n", Asked::Usage),
    Words("load\nshop.orders\nInsert\n2\n", Asked::Usage),
    Words("load\nshop.orders\ninsert\n", Asked::Usage),
    Words("load\nshop\ninsert\n2\n", Asked::Usage),
    Words("load\nshop.orders.more\ninsert\n2\n", Asked::Usage),
    Words("export\nshop.orders\n", Asked::Export("shop", "orders")),
    Words(
        "export\nscalardb.metadata\n",
        Asked::Export("scalardb", "metadata"),
    ),
    Words(
        "export\naaaaaaaaaaaaaaaaaaaaaaaaaaaaaaaaaaaaaaaaaaaaaaaaaaaaaaaaaaaaaaaa.aaaaaaaaaaaaaaaaaaaaaaaaaaaaaaaaaaaaaaaaaaaaaaaaaaaaaaaaaaaaaaaa\n",
        Asked::Export(LONG, LONG),
    ),
    Words(
        "export\na.aaaaaaaaaaaaaaaaaaaaaaaaaaaaaaaaaaaaaaaaaaaaaaaaaaaaaaaaaaaaaaaaa\n",
        Asked::Usage,
    ),
    Words("export\nshop.order-lines\n", Asked::Usage),
    Words("export\n--\nshop.orders\n", Asked::Usage),
    Words("export\nshop.orders\nshop.orders\n", Asked::Usage),
    Words(
        "alter\nshop.orders\nnote\nTEXT\n",
        Asked::Alter("shop", "orders", "note", Kind::Text),
    ),
    Words(
        "alter\nshop.orders\nnote\nboolean\n",
        Asked::Alter("shop", "orders", "note", Kind::Boolean),
    ),
    Words(
        "alter\nshop.orders\nnote\nInt\n",
        Asked::Alter("shop", "orders", "note", Kind::Int),
    ),
    Words(
        "alter\nshop.orders\nnote\nbigInt\n",
        Asked::Alter("shop", "orders", "note", Kind::BigInt),
    ),
    Words(
        "alter\nshop.orders\nnote\nBlob\n",
        Asked::Alter("shop", "orders", "note", Kind::Blob),
    ),
    Words("alter\nshop.orders\nnote\nFLOAT\n", Asked::Usage),
    Words("alter\nshop.orders\nnote\n\n", Asked::Usage),
    Words("alter\nshop.orders\n1note\nTEXT\n", Asked::Usage),
    Words(
        "alter\nshop.orders\naaaaaaaaaaaaaaaaaaaaaaaaaaaaaaaaaaaaaaaaaaaaaaaaaaaaaaaaaaaaaaaa\nTEXT\n",
        Asked::Alter("shop", "orders", LONG, Kind::Text),
    ),
    Words(
        "alter\nshop.orders\naaaaaaaaaaaaaaaaaaaaaaaaaaaaaaaaaaaaaaaaaaaaaaaaaaaaaaaaaaaaaaaaa\nTEXT\n",
        Asked::Usage,
    ),
    Words("alter\nshop\nnote\nTEXT\n", Asked::Usage),
    Words("alter\nshop.orders\nnote\n", Asked::Usage),
    Words("alter\nshop.orders\nnote\nTEXT\nx\n", Asked::Usage),
];

#[test]
fn words_are_commands(rt: HostRuntime) -> Result<(), Fail> {
    all_cases(rt.alloc(), "words", WORDS.as_slice())
}
