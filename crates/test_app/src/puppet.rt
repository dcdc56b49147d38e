//! Sessions over a store that answers with listed replies: a COMMIT of two writes, with each kind of reply in each place.
ghost use Rattle.std.specs.Prelude.{◌<◌, length};

use crate::asked::{attach, feed, tray};
use sdb_loader::catalog_of;
use sdb_schema::Catalog;
use sdb_shell::session;
use sdb_store::{Puppet, Replies};
use sdb_stores::{Registry, Stores};
use sdb_types::{Moments, Numbers, Ticks, Tray};
use std::alloc::Global;
use std::test::Fail;
use test_builders::{Case, Cell, Place, ReplyCase, Row, all_cases, reply_of};

const SCHEMA: &[u8] =
    b"{\"bank.account\":{\"partition-key\":[\"id\"],\"columns\":{\"id\":\"INT\",\"balance\":\"INT\"}}}";

// Each INSERT makes one call, and the COMMIT five where each is applied: two that prepare, one that decides, two that commit records.
const SESSION: &[u8] =
    b"BEGIN\nINSERT INTO bank.account (id, balance) VALUES (1, 100)\nINSERT INTO bank.account (id, balance) VALUES (2, 50)\nCOMMIT\n";

const BEFORE: &[u8] = b"done\ncount 1\ncount 1\n";

/// A reply at one of the calls of the COMMIT, from 0, and how the answer begins: by one of these words.
#[derive(Clone, Copy)]
struct Answered {
    place: usize,
    reply: ReplyCase,
    words: &'static [&'static str],
}

// The replies of the COMMIT; calls past the fifth are applied too.
fn add_commit(alloc: Global, replies: &mut Replies, case: Answered) -> Result<(), Fail> {
    for place in 0..8_usize {
        let reply = if place == case.place {
            case.reply
        } else {
            ReplyCase::Applied
        };
        replies.push(reply_of(alloc, reply)?)?;
    }
    Ok(())
}

fn replies_of(alloc: Global, case: Answered) -> Result<Replies, Fail> {
    let mut replies = Replies::new(alloc);
    replies.push(reply_of(alloc, ReplyCase::Found(None))?)?;
    replies.push(reply_of(alloc, ReplyCase::Found(None))?)?;
    add_commit(alloc, &mut replies, case)?;
    Ok(replies)
}

// Whether the session ends.
fn sits<S: Registry>(
    alloc: Global,
    stores: &mut S,
    catalog: &Catalog,
    output: &mut Tray,
) -> Result<bool, Fail>
    requires { 0 < length (S.state stores.old).views }
{
    let mut input = feed(alloc, SESSION, 0)?;
    let mut clock = Ticks::new(Moments::new(alloc));
    let mut ids = Numbers::new(1);
    let ended = session(
        alloc, catalog, stores, &mut input, output, &mut clock, &mut ids,
    );
    Ok(ended.is_ok())
}

fn opens_and_sits<S: Registry>(
    alloc: Global,
    stores: &mut S,
    output: &mut Tray,
) -> Result<bool, Fail> {
    let catalog = catalog_of(alloc, SCHEMA)?;
    if stores.len() == 0 {
        return Ok(false);
    }
    sits(alloc, stores, &catalog, output)
}

fn is_line(text: &[u8]) -> bool {
    text.ends_with(b"\n") && text.iter().filter(|b| **b == b'\n').count() == 1
}

impl Answered {
    // Whether the answers are those of the statements before the COMMIT, and one more line that begins so.
    fn is_written(self, written: &[u8]) -> bool {
        if !written.starts_with(BEFORE) {
            return false;
        }
        let last = &written[BEFORE.len()..];
        is_line(last)
            && self
                .words
                .iter()
                .any(|word| last.starts_with(word.as_bytes()))
    }
}

impl Case for Answered {
    fn holds(self, alloc: Global) -> Result<bool, Fail> {
        let mut stores = Stores::new(alloc);
        let puppet = Box::new(alloc, Puppet::new(replies_of(alloc, self)?))?;
        if !attach(alloc, &mut stores, "ordered", puppet)? {
            return Ok(false);
        }
        let mut output = tray(alloc, 0)?;
        Ok(
            opens_and_sits(alloc, &mut stores, &mut output)?
                && self.is_written(output.written().as_slice()),
        )
    }
}

// A row that another transaction has committed.
const FIRST: Row = Row {
    place: Place {
        ns: "bank",
        table: "account",
        partition: &[Cell::Int(1)],
        clustering: &[],
    },
    columns: &[
        ("balance", Cell::Int(9)),
        ("tx_committed_at", Cell::BigInt(0)),
        ("tx_id", Cell::Text("00000000-0000-0009-0000-000000000001")),
        ("tx_prepared_at", Cell::BigInt(0)),
        ("tx_state", Cell::Int(3)),
        ("tx_version", Cell::Int(1)),
    ],
};

const SECOND: Row = Row {
    place: Place {
        ns: "bank",
        table: "account",
        partition: &[Cell::Int(2)],
        clustering: &[],
    },
    columns: &[
        ("balance", Cell::Int(9)),
        ("tx_committed_at", Cell::BigInt(0)),
        ("tx_id", Cell::Text("00000000-0000-0009-0000-000000000001")),
        ("tx_prepared_at", Cell::BigInt(0)),
        ("tx_state", Cell::Int(3)),
        ("tx_version", Cell::Int(1)),
    ],
};

static ANSWERED: [Answered; 50] = [
    // The first record is prepared.
    Answered {
        place: 0,
        reply: ReplyCase::Applied,
        words: &["committed\n"],
    },
    Answered {
        place: 0,
        reply: ReplyCase::Found(None),
        words: &["faulted\n"],
    },
    Answered {
        place: 0,
        reply: ReplyCase::Found(Some(FIRST)),
        words: &["faulted\n"],
    },
    Answered {
        place: 0,
        reply: ReplyCase::Rows(&[]),
        words: &["faulted\n"],
    },
    Answered {
        place: 0,
        reply: ReplyCase::Rows(&[FIRST]),
        words: &["faulted\n"],
    },
    Answered {
        place: 0,
        reply: ReplyCase::NotMet(None),
        words: &["faulted\n"],
    },
    Answered {
        place: 0,
        reply: ReplyCase::NotMet(Some(FIRST)),
        words: &["conflict bank.account(1) {"],
    },
    Answered {
        place: 0,
        reply: ReplyCase::NotMet(Some(SECOND)),
        words: &["faulted\n"],
    },
    Answered {
        place: 0,
        reply: ReplyCase::Fault,
        words: &["faulted\n"],
    },
    Answered {
        place: 0,
        reply: ReplyCase::NoMemory,
        words: &["nomemory\n", "faulted\n"],
    },
    // The second record is prepared.
    Answered {
        place: 1,
        reply: ReplyCase::Applied,
        words: &["committed\n"],
    },
    Answered {
        place: 1,
        reply: ReplyCase::Found(None),
        words: &["faulted\n"],
    },
    Answered {
        place: 1,
        reply: ReplyCase::Found(Some(FIRST)),
        words: &["faulted\n"],
    },
    Answered {
        place: 1,
        reply: ReplyCase::Rows(&[]),
        words: &["faulted\n"],
    },
    Answered {
        place: 1,
        reply: ReplyCase::Rows(&[FIRST]),
        words: &["faulted\n"],
    },
    Answered {
        place: 1,
        reply: ReplyCase::NotMet(None),
        words: &["faulted\n"],
    },
    Answered {
        place: 1,
        reply: ReplyCase::NotMet(Some(FIRST)),
        words: &["faulted\n"],
    },
    Answered {
        place: 1,
        reply: ReplyCase::NotMet(Some(SECOND)),
        words: &["conflict bank.account(2) {"],
    },
    Answered {
        place: 1,
        reply: ReplyCase::Fault,
        words: &["faulted\n"],
    },
    Answered {
        place: 1,
        reply: ReplyCase::NoMemory,
        words: &["nomemory\n", "faulted\n"],
    },
    // The transaction is decided: a reply that is a fault is looked after, and so is that look.
    Answered {
        place: 2,
        reply: ReplyCase::Applied,
        words: &["committed\n"],
    },
    Answered {
        place: 2,
        reply: ReplyCase::Found(None),
        words: &["unknown "],
    },
    Answered {
        place: 2,
        reply: ReplyCase::Found(Some(FIRST)),
        words: &["unknown "],
    },
    Answered {
        place: 2,
        reply: ReplyCase::Rows(&[]),
        words: &["unknown "],
    },
    Answered {
        place: 2,
        reply: ReplyCase::Rows(&[FIRST]),
        words: &["unknown "],
    },
    Answered {
        place: 2,
        reply: ReplyCase::NotMet(None),
        words: &["unknown "],
    },
    Answered {
        place: 2,
        reply: ReplyCase::NotMet(Some(FIRST)),
        words: &["unknown "],
    },
    Answered {
        place: 2,
        reply: ReplyCase::NotMet(Some(SECOND)),
        words: &["unknown "],
    },
    Answered {
        place: 2,
        reply: ReplyCase::Fault,
        words: &["unknown "],
    },
    Answered {
        place: 2,
        reply: ReplyCase::NoMemory,
        words: &["nomemory\n", "unknown "],
    },
    // The first record is committed.
    Answered {
        place: 3,
        reply: ReplyCase::Applied,
        words: &["committed\n"],
    },
    Answered {
        place: 3,
        reply: ReplyCase::Found(None),
        words: &["committed\n"],
    },
    Answered {
        place: 3,
        reply: ReplyCase::Found(Some(FIRST)),
        words: &["committed\n"],
    },
    Answered {
        place: 3,
        reply: ReplyCase::Rows(&[]),
        words: &["committed\n"],
    },
    Answered {
        place: 3,
        reply: ReplyCase::Rows(&[FIRST]),
        words: &["committed\n"],
    },
    Answered {
        place: 3,
        reply: ReplyCase::NotMet(None),
        words: &["committed\n"],
    },
    Answered {
        place: 3,
        reply: ReplyCase::NotMet(Some(FIRST)),
        words: &["committed\n"],
    },
    Answered {
        place: 3,
        reply: ReplyCase::NotMet(Some(SECOND)),
        words: &["committed\n"],
    },
    Answered {
        place: 3,
        reply: ReplyCase::Fault,
        words: &["committed\n"],
    },
    Answered {
        place: 3,
        reply: ReplyCase::NoMemory,
        words: &["committed\n"],
    },
    // The second record is committed.
    Answered {
        place: 4,
        reply: ReplyCase::Applied,
        words: &["committed\n"],
    },
    Answered {
        place: 4,
        reply: ReplyCase::Found(None),
        words: &["committed\n"],
    },
    Answered {
        place: 4,
        reply: ReplyCase::Found(Some(FIRST)),
        words: &["committed\n"],
    },
    Answered {
        place: 4,
        reply: ReplyCase::Rows(&[]),
        words: &["committed\n"],
    },
    Answered {
        place: 4,
        reply: ReplyCase::Rows(&[FIRST]),
        words: &["committed\n"],
    },
    Answered {
        place: 4,
        reply: ReplyCase::NotMet(None),
        words: &["committed\n"],
    },
    Answered {
        place: 4,
        reply: ReplyCase::NotMet(Some(FIRST)),
        words: &["committed\n"],
    },
    Answered {
        place: 4,
        reply: ReplyCase::NotMet(Some(SECOND)),
        words: &["committed\n"],
    },
    Answered {
        place: 4,
        reply: ReplyCase::Fault,
        words: &["committed\n"],
    },
    Answered {
        place: 4,
        reply: ReplyCase::NoMemory,
        words: &["committed\n"],
    },
];

#[test]
fn commits_end_with_each_reply(rt: HostRuntime) -> Result<(), Fail> {
    all_cases(rt.alloc(), "answered", ANSWERED.as_slice())
}
