//! The closing dump of stores: it names the first record that isn't well formed, and gives rows where each is.
use crate::attached::{attach_both, runs};
use sdb_contents::{ClosingRefused, closing_dump};
use sdb_loader::catalog_of;
use sdb_model::key_text;
use sdb_schema::Catalog;
use sdb_stores::{Registry, Stores};
use sdb_types::Key;
use std::alloc::Global;
use std::test::Fail;
use test_builders::{Case, all_cases};

const BANK: &str =
    "{\"bank.account\":{\"transaction\":true,\"partition-key\":[\"id\"],\"columns\":{\"id\":\"int\",\"balance\":\"int\"}},\"bank.branch\":{\"transaction\":true,\"partition-key\":[\"id\"],\"columns\":{\"id\":\"int\",\"town\":\"text\"}}}";

// How a dump ends: with as many rows of accounts, or with the key of a record.
#[derive(Drop)]
enum Ended {
    Rows(usize),
    BadRecord(Key),
    Other,
}

fn dump(alloc: Global, stores: &mut Stores, catalog: &Catalog) -> Ended {
    if stores.len() == 0 {
        return Ended::Other;
    }
    match closing_dump(alloc, stores, catalog) {
        Ok(closing) => match closing.tables.as_slice() {
            [accounts, ..] => Ended::Rows(accounts.rows.len()),
            [] => Ended::Other,
        },
        Err(ClosingRefused::BadRecord(key)) => Ended::BadRecord(key),
        Err(_) => Ended::Other,
    }
}

fn dump_bank(alloc: Global, stores: &mut Stores) -> Ended {
    match catalog_of(alloc, BANK.as_bytes()) {
        Ok(catalog) => dump(alloc, stores, &catalog),
        Err(_) => Ended::Other,
    }
}

fn is_key(alloc: Global, key: &Key, text: &str) -> bool {
    match key_text(alloc, key) {
        Ok(own) => own.as_str() == text,
        Err(_) => false,
    }
}

// The wanted end of a dump.
#[derive(Clone, Copy)]
enum Wanted {
    Rows(usize),
    Bad(&'static str),
}

impl Wanted {
    fn is(self, alloc: Global, ended: &Ended) -> bool {
        match (self, ended) {
            (Wanted::Rows(count), Ended::Rows(own)) => *own == count,
            (Wanted::Bad(text), Ended::BadRecord(key)) => is_key(alloc, key, text),
            _ => false,
        }
    }
}

// What stores hold, and how the dump of them ends.
#[derive(Clone, Copy)]
struct Held(&'static str, Wanted);

impl Held {
    fn ends(self, alloc: Global) -> bool {
        let mut stores = Stores::new(alloc);
        if !attach_both(alloc, &mut stores, &[]) || !runs(alloc, &mut stores, self.0) {
            return false;
        }
        let ended = dump_bank(alloc, &mut stores);
        self.1.is(alloc, &ended)
    }
}

impl Case for Held {
    fn holds(self, alloc: Global) -> Result<bool, Fail> {
        Ok(self.ends(alloc))
    }
}

static HELD: [Held; 8] = [
    Held(FITTING, Wanted::Rows(2)),
    // A text in a column of integers.
    Held(ONE_TEXT, Wanted::Bad("bank.account(1)")),
    Held(TEXT_AFTER_FITTING, Wanted::Bad("bank.account(2)")),
    Held(TWO_TEXTS, Wanted::Bad("bank.account(2)")),
    Held(TEXT_IN_NEXT_TABLE, Wanted::Bad("bank.branch(1)")),
    // A text in the key.
    Held(TEXT_KEY, Wanted::Bad("bank.account('a')")),
    // An undecided record counts by the image before it.
    Held(TEXT_PREPARED, Wanted::Rows(1)),
    Held(TEXT_BEFORE, Wanted::Bad("bank.account(1)")),
];

const FITTING: &str =
    "scalardb report 1\nevents 2\n1 call 1 s put bank.account(1){balance=100,tx_committed_at=0L,tx_id='00000000-0000-0001-0000-000000000001',tx_prepared_at=0L,tx_state=3,tx_version=1} if absent seen applied -\n2 call 1 s put bank.account(2){balance=7,tx_committed_at=0L,tx_id='00000000-0000-0001-0000-000000000001',tx_prepared_at=0L,tx_state=3,tx_version=1} if absent seen applied -\norder 0\ntables 0\nend\n";

const ONE_TEXT: &str =
    "scalardb report 1\nevents 1\n1 call 1 s put bank.account(1){balance='x',tx_committed_at=0L,tx_id='00000000-0000-0001-0000-000000000001',tx_prepared_at=0L,tx_state=3,tx_version=1} if absent seen applied -\norder 0\ntables 0\nend\n";

const TEXT_AFTER_FITTING: &str =
    "scalardb report 1\nevents 2\n1 call 1 s put bank.account(2){balance='x',tx_committed_at=0L,tx_id='00000000-0000-0001-0000-000000000001',tx_prepared_at=0L,tx_state=3,tx_version=1} if absent seen applied -\n2 call 1 s put bank.account(1){balance=7,tx_committed_at=0L,tx_id='00000000-0000-0001-0000-000000000001',tx_prepared_at=0L,tx_state=3,tx_version=1} if absent seen applied -\norder 0\ntables 0\nend\n";

const TWO_TEXTS: &str =
    "scalardb report 1\nevents 3\n1 call 1 s put bank.branch(1){town=4,tx_committed_at=0L,tx_id='00000000-0000-0001-0000-000000000001',tx_prepared_at=0L,tx_state=3,tx_version=1} if absent seen applied -\n2 call 1 s put bank.account(3){balance='x',tx_committed_at=0L,tx_id='00000000-0000-0001-0000-000000000001',tx_prepared_at=0L,tx_state=3,tx_version=1} if absent seen applied -\n3 call 1 s put bank.account(2){balance='x',tx_committed_at=0L,tx_id='00000000-0000-0001-0000-000000000001',tx_prepared_at=0L,tx_state=3,tx_version=1} if absent seen applied -\norder 0\ntables 0\nend\n";

const TEXT_IN_NEXT_TABLE: &str =
    "scalardb report 1\nevents 2\n1 call 1 s put bank.branch(1){town=4,tx_committed_at=0L,tx_id='00000000-0000-0001-0000-000000000001',tx_prepared_at=0L,tx_state=3,tx_version=1} if absent seen applied -\n2 call 1 s put bank.account(3){balance=4,tx_committed_at=0L,tx_id='00000000-0000-0001-0000-000000000001',tx_prepared_at=0L,tx_state=3,tx_version=1} if absent seen applied -\norder 0\ntables 0\nend\n";

const TEXT_KEY: &str =
    "scalardb report 1\nevents 1\n1 call 1 s put bank.account('a'){balance=100,tx_committed_at=0L,tx_id='00000000-0000-0001-0000-000000000001',tx_prepared_at=0L,tx_state=3,tx_version=1} if absent seen applied -\norder 0\ntables 0\nend\n";

const TEXT_PREPARED: &str =
    "scalardb report 1\nevents 1\n1 call 1 s put bank.account(1){balance='x',before_balance=5,before_tx_committed_at=0L,before_tx_id='00000000-0000-0001-0000-000000000001',before_tx_prepared_at=0L,before_tx_state=3,before_tx_version=1,tx_id='00000000-0000-0001-0000-000000000002',tx_prepared_at=0L,tx_state=1,tx_version=2} if absent seen applied -\norder 0\ntables 0\nend\n";

const TEXT_BEFORE: &str =
    "scalardb report 1\nevents 1\n1 call 1 s put bank.account(1){balance=6,before_balance='x',before_tx_committed_at=0L,before_tx_id='00000000-0000-0001-0000-000000000001',before_tx_prepared_at=0L,before_tx_state=3,before_tx_version=1,tx_id='00000000-0000-0001-0000-000000000002',tx_prepared_at=0L,tx_state=1,tx_version=2} if absent seen applied -\norder 0\ntables 0\nend\n";

#[test]
fn the_first_ill_formed_record_ends_a_dump(rt: HostRuntime) -> Result<(), Fail> {
    all_cases(rt.alloc(), "held", HELD.as_slice())
}
