//! Whole scripts of one client: what its statements are answered, and each call with its reply.
use crate::replies::{Answer, reply_to};
use crate::seen::ROW;
use sdb_client::{Client, Gate};
use sdb_loader::catalog_of;
use sdb_model::{answer_text, put_key, put_record, put_span};
use sdb_schema::Catalog;
use sdb_types::{NoMemory, Request, Txt};
use std::alloc::Global;
use std::test::Fail;
use test_builders::{Case, Cell, all_cases};

// A statement, its calls, each with its reply, and its answer.
type Step = (
    &'static str,
    &'static [(&'static str, Answer)],
    &'static str,
);

const BANK: &[u8] =
    b"{\"bank.account\":{\"partition-key\":[\"id\"],\"columns\":{\"id\":\"INT\",\"balance\":\"INT\"}}}";

const BIG: &[u8] =
    b"{\"bank.big\":{\"partition-key\":[\"id\"],\"columns\":{\"id\":\"INT\",\"v\":\"BIGINT\"}}}";

const SHOP: &[u8] =
    b"{\"shop.item\":{\"partition-key\":[\"cat\"],\"clustering-key\":[\"n\"],\"columns\":{\"cat\":\"INT\",\"n\":\"INT\",\"qty\":\"INT\"}}}";

const BEGIN: Step = ("BEGIN", &[], "done");

// The call as a text, but for its condition.
fn put_call(out: &mut String, request: &Request) -> Result<(), NoMemory> {
    match request {
        Request::Get(key) => {
            out.push_str("get ")?;
            put_key(out, key)
        }
        Request::Scan(span) => {
            out.push_str("scan ")?;
            put_span(out, span)
        }
        Request::PutIf(rec, _) => {
            out.push_str("put ")?;
            put_record(out, rec)
        }
        Request::DeleteIf(key, _) => {
            out.push_str("delete ")?;
            put_key(out, key)
        }
        Request::PutAll(batch) => {
            out.push_str("put")?;
            for put in batch.as_slice() {
                out.push_str(" ")?;
                put_record(out, &put.rec)?;
            }
            Ok(())
        }
    }
}

fn has_text(alloc: Global, request: &Request, call: &str) -> bool {
    let mut out = String::new(alloc);
    put_call(&mut out, request).is_ok() && out.as_str() == call
}

// Whether this call is pending.
fn asks(alloc: Global, client: &Client, call: &str) -> bool {
    match client.pending() {
        Some(request) => has_text(alloc, request, call),
        None => false,
    }
}

// What a statement leads to: an answer with this text, or another one, or a call.
#[derive(Clone, Copy)]
enum Outcome {
    AnswerGiven,
    Other,
    Pending,
}

fn is_text(alloc: Global, answer: &sdb_model::Answer, text: &str) -> bool {
    match answer_text(alloc, answer) {
        Ok(found) => found.as_str() == text,
        Err(_) => false,
    }
}

fn outcome_of(alloc: Global, answer: &Option<sdb_model::Answer>, text: &str) -> Outcome {
    match answer {
        Some(answer) if is_text(alloc, answer, text) => Outcome::AnswerGiven,
        Some(_) => Outcome::Other,
        None => Outcome::Pending,
    }
}

const QUIET: Gate = Gate {
    vacuum_runs: false,
    open_elsewhere: false,
};

// What a statement leads to, where it may be accepted.
fn take(
    alloc: Global,
    client: &mut Client,
    catalog: &Catalog,
    statement: &str,
    answered: &str,
) -> Outcome {
    match Txt::new(alloc, statement) {
        Ok(text) if text.as_str().len() < 1_000 && client.is_idle() => {
            outcome_of(
                alloc,
                &client.take(catalog, &text, QUIET, client.next_id(), 0),
                answered,
            )
        }
        _ => Outcome::Other,
    }
}

// What such a reply leads to, where the pending call has one.
fn give(alloc: Global, client: &mut Client, answer: Answer, answered: &str) -> Outcome {
    match reply_to(alloc, client.pending(), answer) {
        Some(reply) => outcome_of(alloc, &client.advance(reply, 0), answered),
        None => Outcome::Other,
    }
}

// Whether a statement is answered so in the end, and each of its calls is the one that is pending in turn.
fn goes(alloc: Global, client: &mut Client, catalog: &Catalog, step: &Step) -> bool {
    let mut outcome = take(alloc, client, catalog, step.0, step.2);
    for (call, reply) in step.1 {
        if !matches!(outcome, Outcome::Pending) || !asks(alloc, client, call) {
            return false;
        }
        outcome = give(alloc, client, *reply, step.2);
    }
    matches!(outcome, Outcome::AnswerGiven)
}

#[derive(Clone, Copy)]
struct Script {
    schema: &'static [u8],
    steps: &'static [Step],
    // Whether a transaction is open in the end, and how many have begun.
    open: bool,
    begun: u64,
}

fn play(alloc: Global, client: &mut Client, catalog: &Catalog, steps: &[Step]) -> bool {
    for step in steps {
        if !goes(alloc, client, catalog, step) {
            return false;
        }
    }
    true
}

impl Case for Script {
    fn holds(self, alloc: Global) -> Result<bool, Fail> {
        let catalog = catalog_of(alloc, self.schema)?;
        let mut client = Client::new(alloc, 1);
        let correct = play(alloc, &mut client, &catalog, self.steps);
        Ok(correct && client.is_open() == self.open && client.begun() == self.begun)
    }
}

const INSERTED: Step = (
    "INSERT INTO bank.account (id, balance) VALUES (1, 100)",
    &[("get bank.account(1)", Answer::NoRow)],
    "count 1",
);

const COMMITTED: Step = (
    "COMMIT",
    &[
        (
            "put bank.account(1){balance=100,tx_id='00000000-0000-0001-0000-000000000001',tx_prepared_at=0L,tx_state=1,tx_version=1}",
            Answer::Applied,
        ),
        (
            "put coordinator.state('00000000-0000-0001-0000-000000000001'){tx_created_at=0L,tx_state=3}",
            Answer::Applied,
        ),
        (
            "put bank.account(1){balance=100,tx_committed_at=0L,tx_id='00000000-0000-0001-0000-000000000001',tx_prepared_at=0L,tx_state=3,tx_version=1}",
            Answer::Applied,
        ),
    ],
    "committed",
);

const FIRST: &[Step] = &[BEGIN, INSERTED, COMMITTED];

const EXTRA_READS: &[Step] = &[
    BEGIN,
    INSERTED,
    COMMITTED,
    BEGIN,
    (
        "SELECT balance FROM bank.account WHERE id = 1",
        &[("get bank.account(1)", Answer::Row(ROW))],
        "rows 1 (100)",
    ),
    (
        "SELECT balance FROM bank.account WHERE id = 2",
        &[("get bank.account(2)", Answer::NoRow)],
        "rows 0",
    ),
    (
        "COMMIT",
        &[
            ("get bank.account(1)", Answer::Row(ROW)),
            ("get bank.account(2)", Answer::NoRow),
            (
                "put coordinator.state('00000000-0000-0001-0000-000000000002'){tx_created_at=0L,tx_state=3}",
                Answer::Applied,
            ),
        ],
        "committed",
    ),
];

const NOTHING: &[Step] = &[
    BEGIN,
    (
        "COMMIT",
        &[(
            "put coordinator.state('00000000-0000-0001-0000-000000000001'){tx_created_at=0L,tx_state=3}",
            Answer::Applied,
        )],
        "committed",
    ),
];

const REFUSED: &[Step] = &[
    BEGIN,
    (
        "INSERT INTO bank.big (id, v) VALUES (1, 9007199254740992)",
        &[("get bank.big(1)", Answer::NoRow)],
        "count 1",
    ),
    (
        "INSERT INTO bank.big (id, v) VALUES (2, 9007199254740993)",
        &[],
        "refused 12 2",
    ),
    (
        "INSERT INTO bank.big (id, v) VALUES (NULL, 1)",
        &[],
        "refused 11 1",
    ),
    (
        "INSERT INTO bank.big (id, v) VALUES (1, 5)",
        &[],
        "duplicate bank.big(1)",
    ),
];

const HOSTILE: &[Step] = &[
    BEGIN,
    ("SELECT * FROM a.b WHERE x = 'abc", &[], "refused 1 28"),
    ("COMMIT COMMIT", &[], "refused 2 7"),
    (" ", &[], "refused 2 1"),
    ("SELECT * FROM a.b LIMIT -1", &[], "refused 2 24"),
    (
        "SELECT * FROM a.b LIMIT 9223372036854775808",
        &[],
        "refused 3 24",
    ),
    ("INSERT INTO a.b (c) VALUES (X'0')", &[], "refused 2 28"),
    ("select * from \"SELECT\".\"from\"", &[], "refused 6 0"),
];

const OWN_INSERT: &[Step] = &[
    BEGIN,
    (
        "SELECT * FROM shop.item WHERE cat = 1",
        &[("scan shop.item(1)", Answer::NoRow)],
        "rows 0",
    ),
    (
        "INSERT INTO shop.item (cat, n) VALUES (1, 3)",
        &[("get shop.item(1;3)", Answer::NoRow)],
        "count 1",
    ),
    (
        "SELECT * FROM shop.item WHERE cat = 1",
        &[],
        "rows 1 (1,3,NULL)",
    ),
];

// A row whose balance is no number.
const UNFIT: Answer = Answer::Row(&[
    ("tx_id", Cell::Text("00000000-0000-0001-0000-000000000001")),
    ("tx_state", Cell::Int(3)),
    ("tx_version", Cell::Int(1)),
    ("tx_prepared_at", Cell::BigInt(0)),
    ("tx_committed_at", Cell::BigInt(0)),
    ("balance", Cell::Text("much")),
]);

// A SELECT that meets a row which doesn't fit its table.
const MISFIT: Step = (
    "SELECT balance FROM bank.account WHERE id = 1",
    &[("get bank.account(1)", UNFIT)],
    "badrecord bank.account(1)",
);

// Later statements over the row are answered without a call, and COMMIT checks what was read.
const MISFIT_CHECKED: &[Step] = &[
    BEGIN,
    MISFIT,
    (
        "SELECT balance FROM bank.account WHERE id = 1",
        &[],
        "badrecord bank.account(1)",
    ),
    (
        "UPDATE bank.account SET balance = 1 WHERE id = 1",
        &[],
        "badrecord bank.account(1)",
    ),
    (
        "COMMIT",
        &[
            ("get bank.account(1)", UNFIT),
            (
                "put coordinator.state('00000000-0000-0001-0000-000000000001'){tx_created_at=0L,tx_state=3}",
                Answer::Applied,
            ),
        ],
        "committed",
    ),
];

// The row is gone by then.
const MISFIT_CHANGED: &[Step] = &[
    BEGIN,
    MISFIT,
    (
        "COMMIT",
        &[
            ("get bank.account(1)", Answer::NoRow),
            (
                "put coordinator.state('00000000-0000-0001-0000-000000000001'){tx_created_at=0L,tx_state=4}",
                Answer::Applied,
            ),
        ],
        "conflict bank.account(1) none",
    ),
];

// Statements inside and outside of transactions; a fault leaves the transaction open, and records no read.
const OUTSIDE: &[Step] = &[
    ("COMMIT", &[], "refused 5 0"),
    ("ROLLBACK;", &[], "refused 5 0"),
    ("SELECT * FROM a.b", &[], "refused 5 0"),
    BEGIN,
    ("begin", &[], "refused 4 0"),
    ("VACUUM", &[], "opentransactions"),
    (
        "DELETE FROM bank.account WHERE id = 1",
        &[("get bank.account(1)", Answer::Fault)],
        "faulted",
    ),
    (
        "UPDATE bank.account SET balance = 1 WHERE id = 1",
        &[("get bank.account(1)", Answer::Row(ROW))],
        "count 1",
    ),
    (
        "SELECT balance FROM bank.account",
        &[("scan bank.account", Answer::NoRow)],
        "conflict bank.account(1) none",
    ),
    BEGIN,
    ("ROLLBACK", &[], "done"),
];

// VACUUM outside of transactions: an empty table, a scan that faults or is out of memory; it leaves the client idle.
const VACUUMS: &[Step] = &[
    ("VACUUM", &[("scan bank.account", Answer::NoRow)], "count 0"),
    (
        "vacuum;",
        &[("scan bank.account", Answer::Fault)],
        "faulted",
    ),
    (
        "VACUUM",
        &[("scan bank.account", Answer::Starved)],
        "nomemory",
    ),
    BEGIN,
    ("VACUUM", &[], "opentransactions"),
    ("ROLLBACK", &[], "done"),
];

// VACUUM of a catalog without tables makes no call.
const NO_TABLES: &[Step] = &[("VACUUM", &[], "count 0")];

static IN_TRANSACTIONS: [Script; 3] = [
    Script {
        schema: BANK,
        steps: FIRST,
        open: false,
        begun: 1,
    },
    Script {
        schema: BANK,
        steps: NOTHING,
        open: false,
        begun: 1,
    },
    Script {
        schema: SHOP,
        steps: OWN_INSERT,
        open: true,
        begun: 1,
    },
];

fn in_transactions(alloc: Global) -> Result<(), Fail> {
    all_cases(alloc, "in transactions", IN_TRANSACTIONS.as_slice())
}

static READ_AGAIN: [Script; 1] = [Script {
    schema: BANK,
    steps: EXTRA_READS,
    open: false,
    begun: 2,
}];

fn read_again(alloc: Global) -> Result<(), Fail> {
    all_cases(alloc, "read again", READ_AGAIN.as_slice())
}

static MISFITS: [Script; 2] = [
    Script {
        schema: BANK,
        steps: MISFIT_CHECKED,
        open: false,
        begun: 1,
    },
    Script {
        schema: BANK,
        steps: MISFIT_CHANGED,
        open: false,
        begun: 1,
    },
];

fn misfits(alloc: Global) -> Result<(), Fail> {
    all_cases(alloc, "misfits", MISFITS.as_slice())
}

static REFUSALS: [Script; 2] = [
    Script {
        schema: BIG,
        steps: REFUSED,
        open: true,
        begun: 1,
    },
    Script {
        schema: BANK,
        steps: HOSTILE,
        open: true,
        begun: 1,
    },
];

fn refusals(alloc: Global) -> Result<(), Fail> {
    all_cases(alloc, "refused", REFUSALS.as_slice())
}

static OUTSIDE_OF_THEM: [Script; 3] = [
    Script {
        schema: BANK,
        steps: OUTSIDE,
        open: false,
        begun: 2,
    },
    Script {
        schema: BANK,
        steps: VACUUMS,
        open: false,
        begun: 1,
    },
    Script {
        schema: b"{}",
        steps: NO_TABLES,
        open: false,
        begun: 0,
    },
];

fn outside_of_them(alloc: Global) -> Result<(), Fail> {
    all_cases(alloc, "outside", OUTSIDE_OF_THEM.as_slice())
}

// Whether the INSERT of a row that isn't there makes one call, and is then answered so.
fn inserts(alloc: Global, client: &mut Client, catalog: &Catalog, id: u64, answered: &str) -> bool {
    let made = format!(in alloc; "INSERT INTO bank.account (id, balance) VALUES ({id}, 0)");
    let Ok(text) = made else {
        return false;
    };
    matches!(
        take(alloc, client, catalog, text.as_str(), answered),
        Outcome::Pending
    ) && matches!(
        give(alloc, client, Answer::NoRow, answered),
        Outcome::AnswerGiven
    )
}

fn fills(alloc: Global, client: &mut Client, catalog: &Catalog, count: u64) -> bool {
    for id in 0..count {
        if !inserts(alloc, client, catalog, id, "count 1") {
            return false;
        }
    }
    true
}

// Whether a COMMIT makes so many prepares, which are applied, and then makes another call.
fn prepares(alloc: Global, client: &mut Client, count: u64) -> bool {
    for _id in 0..count {
        let puts = matches!(client.pending(), Some(Request::PutIf(_, _)));
        if !puts
            || !matches!(
                give(alloc, client, Answer::Applied, "committed"),
                Outcome::Pending
            )
        {
            return false;
        }
    }
    true
}

// The INSERT that is one too many is refused each time, and reads once; the COMMIT checks what it read.
fn checks_refused(alloc: Global) -> Result<bool, Fail> {
    const AGAIN: Step = (
        "INSERT INTO bank.account (id, balance) VALUES (4096, 0)",
        &[],
        "refused 15 0",
    );
    let catalog = catalog_of(alloc, BANK)?;
    let mut client = Client::new(alloc, 1);
    let filled = goes(alloc, &mut client, &catalog, &BEGIN)
        && fills(alloc, &mut client, &catalog, 4_096)
        && inserts(alloc, &mut client, &catalog, 4_096, "refused 15 0")
        && goes(alloc, &mut client, &catalog, &AGAIN);
    let accepted = take(alloc, &mut client, &catalog, "COMMIT", "committed");
    Ok(
        filled
            && matches!(accepted, Outcome::Pending)
            && prepares(alloc, &mut client, 4_096)
            && asks(alloc, &client, "get bank.account(4096)")
            && matches!(
                give(alloc, &mut client, Answer::NoRow, "committed"),
                Outcome::Pending
            )
            && matches!(client.pending(), Some(Request::PutIf(_, _))),
    )
}

#[test]
fn refused_insert_is_checked(rt: HostRuntime) -> Result<(), Fail> {
    assert!(rt; checks_refused(rt.alloc())?);
    Ok(())
}

#[test]
fn clients_are_answered(rt: HostRuntime) -> Result<(), Fail> {
    in_transactions(rt.alloc())?;
    read_again(rt.alloc())?;
    misfits(rt.alloc())?;
    refusals(rt.alloc())?;
    outside_of_them(rt.alloc())
}
