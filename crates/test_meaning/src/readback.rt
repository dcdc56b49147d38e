//! Reports that are read back: worked ones, one of every form, and wrong ones with their first bad line.
use crate::reports::is_reported;
use sdb_report::{ReportRefused, read_report};
use std::alloc::Global;
use std::test::Fail;
use test_builders::{Case, all_cases};

// A report that is read and printed again, or a text that is none, with its first line that no report has there.
#[derive(Clone, Copy)]
enum Read {
    Back(&'static str),
    Bad(&'static str, u64),
}

fn reads_back(alloc: Global, text: &str) -> Result<bool, Fail> {
    is_reported(alloc, &read_report(alloc, text.as_bytes())?, text)
}

fn is_bad_at(alloc: Global, text: &str, line: u64) -> bool {
    match read_report(alloc, text.as_bytes()) {
        Err(ReportRefused::BadLine(n)) => n == line,
        _ => false,
    }
}

impl Case for Read {
    fn holds(self, alloc: Global) -> Result<bool, Fail> {
        match self {
            Read::Back(text) => reads_back(alloc, text),
            Read::Bad(text, line) => Ok(is_bad_at(alloc, text, line)),
        }
    }
}

// Worked reports, of two programs apart from this one.
static WORKED: [Read; 4] = [
    // own_insert_shows_in_repeated_scan
    Read::Back(
        "scalardb report 1\nevents 11\n1 take 1 done : BEGIN\n2 take 1 - : SELECT * FROM shop.item WHERE cat = 1\n3 call 1 ordered scan shop.item(1) seen rows 0 rows 0\n4 take 1 - : INSERT INTO shop.item (cat, n) VALUES (1, 3)\n5 call 1 ordered get shop.item(1;3) seen found none count 1\n6 take 1 rows 1 (1,3,NULL) : SELECT * FROM shop.item WHERE cat = 1\n7 take 1 - : COMMIT\n8 call 1 ordered put shop.item(1;3){tx_id='00000000-0000-0001-0000-000000000001',tx_prepared_at=0L,tx_state=1,tx_version=1} if absent seen applied -\n9 call 1 ordered scan shop.item(1) seen rows 1 shop.item(1;3){tx_id='00000000-0000-0001-0000-000000000001',tx_prepared_at=0L,tx_state=1,tx_version=1} -\n10 call 1 ordered put coordinator.state('00000000-0000-0001-0000-000000000001'){tx_created_at=0L,tx_state=3} if absent seen applied -\n11 call 1 ordered put shop.item(1;3){tx_committed_at=0L,tx_id='00000000-0000-0001-0000-000000000001',tx_prepared_at=0L,tx_state=3,tx_version=1} if 00000000-0000-0001-0000-000000000001 1 seen applied committed\norder 1\n00000000-0000-0001-0000-000000000001 8\ntables 1\ntable shop.item 1\n(1,3,NULL)\nend\n",
    ),
    // decision_and_look_lost
    Read::Back(
        "scalardb report 1\nevents 14\n1 take 1 done : BEGIN\n2 take 1 - : INSERT INTO bank.account (id, balance) VALUES (1, 100)\n3 call 1 ordered get bank.account(1) seen found none count 1\n4 take 1 - : COMMIT\n5 call 1 ordered put bank.account(1){balance=100,tx_id='00000000-0000-0001-0000-000000000001',tx_prepared_at=0L,tx_state=1,tx_version=1} if absent seen applied -\n6 call 1 ordered put coordinator.state('00000000-0000-0001-0000-000000000001'){tx_created_at=0L,tx_state=3} if absent seen applied -\n7 call 1 ordered put bank.account(1){balance=100,tx_committed_at=0L,tx_id='00000000-0000-0001-0000-000000000001',tx_prepared_at=0L,tx_state=3,tx_version=1} if 00000000-0000-0001-0000-000000000001 1 seen applied committed\n8 take 2 done : BEGIN\n9 take 2 - : UPDATE bank.account SET balance = 7 WHERE id = 1\n10 call 2 ordered get bank.account(1) seen found bank.account(1){balance=100,tx_committed_at=0L,tx_id='00000000-0000-0001-0000-000000000001',tx_prepared_at=0L,tx_state=3,tx_version=1} count 1\n11 take 2 - : COMMIT\n12 call 2 ordered put bank.account(1){balance=7,before_balance=100,before_tx_committed_at=0L,before_tx_id='00000000-0000-0001-0000-000000000001',before_tx_prepared_at=0L,before_tx_state=3,before_tx_version=1,tx_id='00000000-0000-0002-0000-000000000001',tx_prepared_at=0L,tx_state=1,tx_version=2} if 00000000-0000-0001-0000-000000000001 3 seen applied -\n13 call 2 ordered put coordinator.state('00000000-0000-0002-0000-000000000001'){tx_created_at=0L,tx_state=3} if absent lost fault -\n14 call 2 ordered get coordinator.state('00000000-0000-0002-0000-000000000001') lost fault unknown 00000000-0000-0002-0000-000000000001\norder 2\n00000000-0000-0001-0000-000000000001 5\n00000000-0000-0002-0000-000000000001 12\ntables 1\ntable bank.account 1\n(7,1)\nend\n",
    ),
    // statement_refusals
    Read::Back(
        "scalardb report 1\nevents 10\n1 take 1 done : BEGIN\n2 take 1 - : INSERT INTO bank.big (id, v) VALUES (1, 9007199254740992)\n3 call 1 ordered get bank.big(1) seen found none count 1\n4 take 1 refused 12 2 : INSERT INTO bank.big (id, v) VALUES (2, 9007199254740993)\n5 take 1 refused 11 1 : INSERT INTO bank.big (id, v) VALUES (NULL, 1)\n6 take 1 duplicate bank.big(1) : INSERT INTO bank.big (id, v) VALUES (1, 5)\n7 take 1 - : COMMIT\n8 call 1 ordered put bank.big(1){tx_id='00000000-0000-0001-0000-000000000001',tx_prepared_at=0L,tx_state=1,tx_version=1,v=9007199254740992L} if absent seen applied -\n9 call 1 ordered put coordinator.state('00000000-0000-0001-0000-000000000001'){tx_created_at=0L,tx_state=3} if absent seen applied -\n10 call 1 ordered put bank.big(1){tx_committed_at=0L,tx_id='00000000-0000-0001-0000-000000000001',tx_prepared_at=0L,tx_state=3,tx_version=1,v=9007199254740992L} if 00000000-0000-0001-0000-000000000001 1 seen applied committed\norder 1\n00000000-0000-0001-0000-000000000001 8\ntables 1\ntable bank.big 1\n(1,9007199254740992L)\nend\n",
    ),
    // commit_call_1_dropped
    Read::Back(
        "scalardb report 1\nevents 29\n1 take 1 done : BEGIN\n2 take 1 - : INSERT INTO bank.account (id, balance) VALUES (1, 100)\n3 call 1 ordered get bank.account(1) seen found none count 1\n4 take 1 - : INSERT INTO bank.account (id, balance) VALUES (2, 100)\n5 call 1 ordered get bank.account(2) seen found none count 1\n6 take 1 - : COMMIT\n7 call 1 ordered put bank.account(1){balance=100,tx_id='00000000-0000-0001-0000-000000000001',tx_prepared_at=0L,tx_state=1,tx_version=1} if absent seen applied -\n8 call 1 ordered put bank.account(2){balance=100,tx_id='00000000-0000-0001-0000-000000000001',tx_prepared_at=0L,tx_state=1,tx_version=1} if absent seen applied -\n9 call 1 ordered put coordinator.state('00000000-0000-0001-0000-000000000001'){tx_created_at=0L,tx_state=3} if absent seen applied -\n10 call 1 ordered put bank.account(1){balance=100,tx_committed_at=0L,tx_id='00000000-0000-0001-0000-000000000001',tx_prepared_at=0L,tx_state=3,tx_version=1} if 00000000-0000-0001-0000-000000000001 1 seen applied -\n11 call 1 ordered put bank.account(2){balance=100,tx_committed_at=0L,tx_id='00000000-0000-0001-0000-000000000001',tx_prepared_at=0L,tx_state=3,tx_version=1} if 00000000-0000-0001-0000-000000000001 1 seen applied committed\n12 take 2 done : BEGIN\n13 take 2 - : UPDATE bank.account SET balance = 7 WHERE id = 1\n14 call 2 ordered get bank.account(1) seen found bank.account(1){balance=100,tx_committed_at=0L,tx_id='00000000-0000-0001-0000-000000000001',tx_prepared_at=0L,tx_state=3,tx_version=1} count 1\n15 take 2 - : UPDATE bank.account SET balance = 8 WHERE id = 2\n16 call 2 ordered get bank.account(2) seen found bank.account(2){balance=100,tx_committed_at=0L,tx_id='00000000-0000-0001-0000-000000000001',tx_prepared_at=0L,tx_state=3,tx_version=1} count 1\n17 take 2 - : COMMIT\n18 call 2 ordered put bank.account(1){balance=7,before_balance=100,before_tx_committed_at=0L,before_tx_id='00000000-0000-0001-0000-000000000001',before_tx_prepared_at=0L,before_tx_state=3,before_tx_version=1,tx_id='00000000-0000-0002-0000-000000000001',tx_prepared_at=0L,tx_state=1,tx_version=2} if 00000000-0000-0001-0000-000000000001 3 dropped fault -\n19 call 2 ordered put coordinator.state('00000000-0000-0002-0000-000000000001'){tx_created_at=0L,tx_state=4} if absent seen applied -\n20 call 2 ordered put bank.account(1){balance=100,tx_committed_at=0L,tx_id='00000000-0000-0001-0000-000000000001',tx_prepared_at=0L,tx_state=3,tx_version=1} if 00000000-0000-0002-0000-000000000001 1 seen notmet bank.account(1){balance=100,tx_committed_at=0L,tx_id='00000000-0000-0001-0000-000000000001',tx_prepared_at=0L,tx_state=3,tx_version=1} faulted\n21 take 3 done : BEGIN\n22 take 3 - : SELECT balance FROM bank.account WHERE id = 1\n23 call 3 ordered get bank.account(1) seen found bank.account(1){balance=100,tx_committed_at=0L,tx_id='00000000-0000-0001-0000-000000000001',tx_prepared_at=0L,tx_state=3,tx_version=1} rows 1 (100)\n24 take 3 - : SELECT balance FROM bank.account WHERE id = 2\n25 call 3 ordered get bank.account(2) seen found bank.account(2){balance=100,tx_committed_at=0L,tx_id='00000000-0000-0001-0000-000000000001',tx_prepared_at=0L,tx_state=3,tx_version=1} rows 1 (100)\n26 take 3 - : COMMIT\n27 call 3 ordered get bank.account(1) seen found bank.account(1){balance=100,tx_committed_at=0L,tx_id='00000000-0000-0001-0000-000000000001',tx_prepared_at=0L,tx_state=3,tx_version=1} -\n28 call 3 ordered get bank.account(2) seen found bank.account(2){balance=100,tx_committed_at=0L,tx_id='00000000-0000-0001-0000-000000000001',tx_prepared_at=0L,tx_state=3,tx_version=1} -\n29 call 3 ordered put coordinator.state('00000000-0000-0003-0000-000000000001'){tx_created_at=0L,tx_state=3} if absent seen applied committed\norder 2\n00000000-0000-0001-0000-000000000001 8\n00000000-0000-0003-0000-000000000001 26\ntables 1\ntable bank.account 2\n(100,1)\n(100,2)\nend\n",
    ),
];

fn worked(alloc: Global) -> Result<(), Fail> {
    all_cases(alloc, "worked", WORKED.as_slice())
}

static WORKED_TOO: [Read; 5] = [
    // expired_transaction_is_rolled_back
    Read::Back(
        "scalardb report 1\nevents 36\n1 take 1 done : BEGIN\n2 take 1 - : INSERT INTO bank.account (id, balance) VALUES (1, 100)\n3 call 1 ordered get bank.account(1) seen found none count 1\n4 take 1 - : INSERT INTO bank.account (id, balance) VALUES (2, 100)\n5 call 1 ordered get bank.account(2) seen found none count 1\n6 take 1 - : INSERT INTO bank.account (id, balance) VALUES (3, 100)\n7 call 1 ordered get bank.account(3) seen found none count 1\n8 take 1 - : COMMIT\n9 call 1 ordered put bank.account(1){balance=100,tx_id='00000000-0000-0001-0000-000000000001',tx_prepared_at=0L,tx_state=1,tx_version=1} if absent seen applied -\n10 call 1 ordered put bank.account(2){balance=100,tx_id='00000000-0000-0001-0000-000000000001',tx_prepared_at=0L,tx_state=1,tx_version=1} if absent seen applied -\n11 call 1 ordered put bank.account(3){balance=100,tx_id='00000000-0000-0001-0000-000000000001',tx_prepared_at=0L,tx_state=1,tx_version=1} if absent seen applied -\n12 call 1 ordered put coordinator.state('00000000-0000-0001-0000-000000000001'){tx_created_at=0L,tx_state=3} if absent seen applied -\n13 call 1 ordered put bank.account(1){balance=100,tx_committed_at=0L,tx_id='00000000-0000-0001-0000-000000000001',tx_prepared_at=0L,tx_state=3,tx_version=1} if 00000000-0000-0001-0000-000000000001 1 seen applied -\n14 call 1 ordered put bank.account(2){balance=100,tx_committed_at=0L,tx_id='00000000-0000-0001-0000-000000000001',tx_prepared_at=0L,tx_state=3,tx_version=1} if 00000000-0000-0001-0000-000000000001 1 seen applied -\n15 call 1 ordered put bank.account(3){balance=100,tx_committed_at=0L,tx_id='00000000-0000-0001-0000-000000000001',tx_prepared_at=0L,tx_state=3,tx_version=1} if 00000000-0000-0001-0000-000000000001 1 seen applied committed\n16 take 2 done : BEGIN\n17 take 2 - : UPDATE bank.account SET balance = 7\n18 call 2 ordered scan bank.account seen rows 3 bank.account(1){balance=100,tx_committed_at=0L,tx_id='00000000-0000-0001-0000-000000000001',tx_prepared_at=0L,tx_state=3,tx_version=1} bank.account(2){balance=100,tx_committed_at=0L,tx_id='00000000-0000-0001-0000-000000000001',tx_prepared_at=0L,tx_state=3,tx_version=1} bank.account(3){balance=100,tx_committed_at=0L,tx_id='00000000-0000-0001-0000-000000000001',tx_prepared_at=0L,tx_state=3,tx_version=1} count 3\n19 take 2 - : COMMIT\n20 call 2 ordered put bank.account(1){balance=7,before_balance=100,before_tx_committed_at=0L,before_tx_id='00000000-0000-0001-0000-000000000001',before_tx_prepared_at=0L,before_tx_state=3,before_tx_version=1,tx_id='00000000-0000-0002-0000-000000000001',tx_prepared_at=0L,tx_state=1,tx_version=2} if 00000000-0000-0001-0000-000000000001 3 seen applied -\n21 call 2 ordered put bank.account(2){balance=7,before_balance=100,before_tx_committed_at=0L,before_tx_id='00000000-0000-0001-0000-000000000001',before_tx_prepared_at=0L,before_tx_state=3,before_tx_version=1,tx_id='00000000-0000-0002-0000-000000000001',tx_prepared_at=0L,tx_state=1,tx_version=2} if 00000000-0000-0001-0000-000000000001 3 seen applied -\n22 stop 2\n23 clock 14999\n24 take 3 done : BEGIN\n25 take 3 - : SELECT balance FROM bank.account WHERE id = 1\n26 call 3 ordered get bank.account(1) seen found bank.account(1){balance=7,before_balance=100,before_tx_committed_at=0L,before_tx_id='00000000-0000-0001-0000-000000000001',before_tx_prepared_at=0L,before_tx_state=3,before_tx_version=1,tx_id='00000000-0000-0002-0000-000000000001',tx_prepared_at=0L,tx_state=1,tx_version=2} -\n27 call 3 ordered get coordinator.state('00000000-0000-0002-0000-000000000001') seen found none busy bank.account(1) 00000000-0000-0002-0000-000000000001 0\n28 clock 15000\n29 take 3 - : SELECT balance FROM bank.account WHERE id = 1\n30 call 3 ordered get bank.account(1) seen found bank.account(1){balance=7,before_balance=100,before_tx_committed_at=0L,before_tx_id='00000000-0000-0001-0000-000000000001',before_tx_prepared_at=0L,before_tx_state=3,before_tx_version=1,tx_id='00000000-0000-0002-0000-000000000001',tx_prepared_at=0L,tx_state=1,tx_version=2} -\n31 call 3 ordered get coordinator.state('00000000-0000-0002-0000-000000000001') seen found none -\n32 call 3 ordered put coordinator.state('00000000-0000-0002-0000-000000000001'){tx_created_at=15000L,tx_state=4} if absent seen applied -\n33 call 3 ordered put bank.account(1){balance=100,tx_committed_at=0L,tx_id='00000000-0000-0001-0000-000000000001',tx_prepared_at=0L,tx_state=3,tx_version=1} if 00000000-0000-0002-0000-000000000001 1 seen applied rows 1 (100)\n34 take 3 - : COMMIT\n35 call 3 ordered get bank.account(1) seen found bank.account(1){balance=100,tx_committed_at=0L,tx_id='00000000-0000-0001-0000-000000000001',tx_prepared_at=0L,tx_state=3,tx_version=1} -\n36 call 3 ordered put coordinator.state('00000000-0000-0003-0000-000000000001'){tx_created_at=15000L,tx_state=3} if absent seen applied committed\norder 2\n00000000-0000-0001-0000-000000000001 11\n00000000-0000-0003-0000-000000000001 34\ntables 1\ntable bank.account 3\n(100,1)\n(100,2)\n(100,3)\nend\n",
    ),
    // vacuum_waits_and_tombstone_conflicts
    Read::Back(
        "scalardb report 1\nevents 25\n1 take 1 done : BEGIN\n2 take 1 - : SELECT balance FROM bank.account WHERE id = 5\n3 call 1 ordered get bank.account(5) seen found none rows 0\n4 take 1 - : INSERT INTO bank.account (id, balance) VALUES (6, 1)\n5 call 1 ordered get bank.account(6) seen found none count 1\n6 take 2 done : BEGIN\n7 take 2 - : INSERT INTO bank.account (id, balance) VALUES (5, 1)\n8 call 2 ordered get bank.account(5) seen found none count 1\n9 take 2 - : COMMIT\n10 call 2 ordered put bank.account(5){balance=1,tx_id='00000000-0000-0002-0000-000000000001',tx_prepared_at=0L,tx_state=1,tx_version=1} if absent seen applied -\n11 call 2 ordered put coordinator.state('00000000-0000-0002-0000-000000000001'){tx_created_at=0L,tx_state=3} if absent seen applied -\n12 call 2 ordered put bank.account(5){balance=1,tx_committed_at=0L,tx_id='00000000-0000-0002-0000-000000000001',tx_prepared_at=0L,tx_state=3,tx_version=1} if 00000000-0000-0002-0000-000000000001 1 seen applied committed\n13 take 3 done : BEGIN\n14 take 3 - : DELETE FROM bank.account WHERE id = 5\n15 call 3 ordered get bank.account(5) seen found bank.account(5){balance=1,tx_committed_at=0L,tx_id='00000000-0000-0002-0000-000000000001',tx_prepared_at=0L,tx_state=3,tx_version=1} count 1\n16 take 3 - : COMMIT\n17 call 3 ordered put bank.account(5){before_balance=1,before_tx_committed_at=0L,before_tx_id='00000000-0000-0002-0000-000000000001',before_tx_prepared_at=0L,before_tx_state=3,before_tx_version=1,tx_id='00000000-0000-0003-0000-000000000001',tx_prepared_at=0L,tx_state=2,tx_version=2} if 00000000-0000-0002-0000-000000000001 3 seen applied -\n18 call 3 ordered put coordinator.state('00000000-0000-0003-0000-000000000001'){tx_created_at=0L,tx_state=3} if absent seen applied -\n19 call 3 ordered put bank.account(5){tx_committed_at=0L,tx_id='00000000-0000-0003-0000-000000000001',tx_prepared_at=0L,tx_state=3,tx_tombstone=TRUE,tx_version=2} if 00000000-0000-0003-0000-000000000001 2 seen applied committed\n20 take 4 opentransactions : VACUUM\n21 take 1 - : COMMIT\n22 call 1 ordered put bank.account(6){balance=1,tx_id='00000000-0000-0001-0000-000000000001',tx_prepared_at=0L,tx_state=1,tx_version=1} if absent seen applied -\n23 call 1 ordered get bank.account(5) seen found bank.account(5){tx_committed_at=0L,tx_id='00000000-0000-0003-0000-000000000001',tx_prepared_at=0L,tx_state=3,tx_tombstone=TRUE,tx_version=2} -\n24 call 1 ordered put coordinator.state('00000000-0000-0001-0000-000000000001'){tx_created_at=0L,tx_state=4} if absent seen applied -\n25 call 1 ordered delete bank.account(6) if 00000000-0000-0001-0000-000000000001 1 seen applied conflict bank.account(5) {tx_committed_at=0L,tx_id='00000000-0000-0003-0000-000000000001',tx_prepared_at=0L,tx_state=3,tx_tombstone=TRUE,tx_version=2}\norder 2\n00000000-0000-0002-0000-000000000001 10\n00000000-0000-0003-0000-000000000001 17\ntables 1\ntable bank.account 0\nend\n",
    ),
    // recoverer_wins_and_owner_is_expired
    Read::Back(
        "scalardb report 1\nevents 33\n1 take 1 done : BEGIN\n2 take 1 - : INSERT INTO bank.account (id, balance) VALUES (1, 100)\n3 call 1 ordered get bank.account(1) seen found none count 1\n4 take 1 - : COMMIT\n5 call 1 ordered put bank.account(1){balance=100,tx_id='00000000-0000-0001-0000-000000000001',tx_prepared_at=0L,tx_state=1,tx_version=1} if absent seen applied -\n6 call 1 ordered put coordinator.state('00000000-0000-0001-0000-000000000001'){tx_created_at=0L,tx_state=3} if absent seen applied -\n7 call 1 ordered put bank.account(1){balance=100,tx_committed_at=0L,tx_id='00000000-0000-0001-0000-000000000001',tx_prepared_at=0L,tx_state=3,tx_version=1} if 00000000-0000-0001-0000-000000000001 1 seen applied committed\n8 take 2 done : BEGIN\n9 take 2 - : UPDATE bank.account SET balance = 7 WHERE id = 1\n10 call 2 ordered get bank.account(1) seen found bank.account(1){balance=100,tx_committed_at=0L,tx_id='00000000-0000-0001-0000-000000000001',tx_prepared_at=0L,tx_state=3,tx_version=1} count 1\n11 take 2 - : COMMIT\n12 call 2 ordered put bank.account(1){balance=7,before_balance=100,before_tx_committed_at=0L,before_tx_id='00000000-0000-0001-0000-000000000001',before_tx_prepared_at=0L,before_tx_state=3,before_tx_version=1,tx_id='00000000-0000-0002-0000-000000000001',tx_prepared_at=0L,tx_state=1,tx_version=2} if 00000000-0000-0001-0000-000000000001 3 seen applied -\n13 clock 15000\n14 take 3 done : BEGIN\n15 take 3 - : SELECT balance FROM bank.account WHERE id = 1\n16 call 3 ordered get bank.account(1) seen found bank.account(1){balance=7,before_balance=100,before_tx_committed_at=0L,before_tx_id='00000000-0000-0001-0000-000000000001',before_tx_prepared_at=0L,before_tx_state=3,before_tx_version=1,tx_id='00000000-0000-0002-0000-000000000001',tx_prepared_at=0L,tx_state=1,tx_version=2} -\n17 call 3 ordered get coordinator.state('00000000-0000-0002-0000-000000000001') seen found none -\n18 take 4 done : BEGIN\n19 take 4 - : SELECT balance FROM bank.account WHERE id = 1\n20 call 4 ordered get bank.account(1) seen found bank.account(1){balance=7,before_balance=100,before_tx_committed_at=0L,before_tx_id='00000000-0000-0001-0000-000000000001',before_tx_prepared_at=0L,before_tx_state=3,before_tx_version=1,tx_id='00000000-0000-0002-0000-000000000001',tx_prepared_at=0L,tx_state=1,tx_version=2} -\n21 call 4 ordered get coordinator.state('00000000-0000-0002-0000-000000000001') seen found none -\n22 call 3 ordered put coordinator.state('00000000-0000-0002-0000-000000000001'){tx_created_at=15000L,tx_state=4} if absent seen applied -\n23 call 2 ordered put coordinator.state('00000000-0000-0002-0000-000000000001'){tx_created_at=0L,tx_state=3} if absent seen notmet coordinator.state('00000000-0000-0002-0000-000000000001'){tx_created_at=15000L,tx_state=4} -\n24 call 2 ordered put bank.account(1){balance=100,tx_committed_at=0L,tx_id='00000000-0000-0001-0000-000000000001',tx_prepared_at=0L,tx_state=3,tx_version=1} if 00000000-0000-0002-0000-000000000001 1 seen applied expired 00000000-0000-0002-0000-000000000001\n25 call 3 ordered put bank.account(1){balance=100,tx_committed_at=0L,tx_id='00000000-0000-0001-0000-000000000001',tx_prepared_at=0L,tx_state=3,tx_version=1} if 00000000-0000-0002-0000-000000000001 1 seen notmet bank.account(1){balance=100,tx_committed_at=0L,tx_id='00000000-0000-0001-0000-000000000001',tx_prepared_at=0L,tx_state=3,tx_version=1} rows 1 (100)\n26 call 4 ordered put coordinator.state('00000000-0000-0002-0000-000000000001'){tx_created_at=15000L,tx_state=4} if absent seen notmet coordinator.state('00000000-0000-0002-0000-000000000001'){tx_created_at=15000L,tx_state=4} -\n27 take 3 - : COMMIT\n28 call 4 ordered put bank.account(1){balance=100,tx_committed_at=0L,tx_id='00000000-0000-0001-0000-000000000001',tx_prepared_at=0L,tx_state=3,tx_version=1} if 00000000-0000-0002-0000-000000000001 1 seen notmet bank.account(1){balance=100,tx_committed_at=0L,tx_id='00000000-0000-0001-0000-000000000001',tx_prepared_at=0L,tx_state=3,tx_version=1} rows 1 (100)\n29 call 3 ordered get bank.account(1) seen found bank.account(1){balance=100,tx_committed_at=0L,tx_id='00000000-0000-0001-0000-000000000001',tx_prepared_at=0L,tx_state=3,tx_version=1} -\n30 take 4 - : COMMIT\n31 call 3 ordered put coordinator.state('00000000-0000-0003-0000-000000000001'){tx_created_at=15000L,tx_state=3} if absent seen applied committed\n32 call 4 ordered get bank.account(1) seen found bank.account(1){balance=100,tx_committed_at=0L,tx_id='00000000-0000-0001-0000-000000000001',tx_prepared_at=0L,tx_state=3,tx_version=1} -\n33 call 4 ordered put coordinator.state('00000000-0000-0004-0000-000000000001'){tx_created_at=15000L,tx_state=3} if absent seen applied committed\norder 3\n00000000-0000-0001-0000-000000000001 5\n00000000-0000-0003-0000-000000000001 27\n00000000-0000-0004-0000-000000000001 30\ntables 1\ntable bank.account 1\n(100,1)\nend\n",
    ),
    // write_skew_is_refused
    Read::Back(
        "scalardb report 1\nevents 33\n1 take 1 done : BEGIN\n2 take 1 - : INSERT INTO bank.account (id, balance) VALUES (1, 100)\n3 call 1 ordered get bank.account(1) seen found none count 1\n4 take 1 - : INSERT INTO bank.account (id, balance) VALUES (2, 100)\n5 call 1 ordered get bank.account(2) seen found none count 1\n6 take 1 - : COMMIT\n7 call 1 ordered put bank.account(1){balance=100,tx_id='00000000-0000-0001-0000-000000000001',tx_prepared_at=0L,tx_state=1,tx_version=1} if absent seen applied -\n8 call 1 ordered put bank.account(2){balance=100,tx_id='00000000-0000-0001-0000-000000000001',tx_prepared_at=0L,tx_state=1,tx_version=1} if absent seen applied -\n9 call 1 ordered put coordinator.state('00000000-0000-0001-0000-000000000001'){tx_created_at=0L,tx_state=3} if absent seen applied -\n10 call 1 ordered put bank.account(1){balance=100,tx_committed_at=0L,tx_id='00000000-0000-0001-0000-000000000001',tx_prepared_at=0L,tx_state=3,tx_version=1} if 00000000-0000-0001-0000-000000000001 1 seen applied -\n11 call 1 ordered put bank.account(2){balance=100,tx_committed_at=0L,tx_id='00000000-0000-0001-0000-000000000001',tx_prepared_at=0L,tx_state=3,tx_version=1} if 00000000-0000-0001-0000-000000000001 1 seen applied committed\n12 take 2 done : BEGIN\n13 take 2 - : SELECT balance FROM bank.account WHERE id = 1\n14 call 2 ordered get bank.account(1) seen found bank.account(1){balance=100,tx_committed_at=0L,tx_id='00000000-0000-0001-0000-000000000001',tx_prepared_at=0L,tx_state=3,tx_version=1} rows 1 (100)\n15 take 2 - : SELECT balance FROM bank.account WHERE id = 2\n16 call 2 ordered get bank.account(2) seen found bank.account(2){balance=100,tx_committed_at=0L,tx_id='00000000-0000-0001-0000-000000000001',tx_prepared_at=0L,tx_state=3,tx_version=1} rows 1 (100)\n17 take 2 count 1 : UPDATE bank.account SET balance = 5 WHERE id = 1\n18 take 2 - : COMMIT\n19 take 3 done : BEGIN\n20 take 3 - : SELECT balance FROM bank.account WHERE id = 1\n21 call 3 ordered get bank.account(1) seen found bank.account(1){balance=100,tx_committed_at=0L,tx_id='00000000-0000-0001-0000-000000000001',tx_prepared_at=0L,tx_state=3,tx_version=1} rows 1 (100)\n22 take 3 - : SELECT balance FROM bank.account WHERE id = 2\n23 call 3 ordered get bank.account(2) seen found bank.account(2){balance=100,tx_committed_at=0L,tx_id='00000000-0000-0001-0000-000000000001',tx_prepared_at=0L,tx_state=3,tx_version=1} rows 1 (100)\n24 take 3 count 1 : UPDATE bank.account SET balance = 5 WHERE id = 2\n25 take 3 - : COMMIT\n26 call 2 ordered put bank.account(1){balance=5,before_balance=100,before_tx_committed_at=0L,before_tx_id='00000000-0000-0001-0000-000000000001',before_tx_prepared_at=0L,before_tx_state=3,before_tx_version=1,tx_id='00000000-0000-0002-0000-000000000001',tx_prepared_at=0L,tx_state=1,tx_version=2} if 00000000-0000-0001-0000-000000000001 3 seen applied -\n27 call 3 ordered put bank.account(2){balance=5,before_balance=100,before_tx_committed_at=0L,before_tx_id='00000000-0000-0001-0000-000000000001',before_tx_prepared_at=0L,before_tx_state=3,before_tx_version=1,tx_id='00000000-0000-0003-0000-000000000001',tx_prepared_at=0L,tx_state=1,tx_version=2} if 00000000-0000-0001-0000-000000000001 3 seen applied -\n28 call 2 ordered get bank.account(2) seen found bank.account(2){balance=5,before_balance=100,before_tx_committed_at=0L,before_tx_id='00000000-0000-0001-0000-000000000001',before_tx_prepared_at=0L,before_tx_state=3,before_tx_version=1,tx_id='00000000-0000-0003-0000-000000000001',tx_prepared_at=0L,tx_state=1,tx_version=2} -\n29 call 3 ordered get bank.account(1) seen found bank.account(1){balance=5,before_balance=100,before_tx_committed_at=0L,before_tx_id='00000000-0000-0001-0000-000000000001',before_tx_prepared_at=0L,before_tx_state=3,before_tx_version=1,tx_id='00000000-0000-0002-0000-000000000001',tx_prepared_at=0L,tx_state=1,tx_version=2} -\n30 call 2 ordered put coordinator.state('00000000-0000-0002-0000-000000000001'){tx_created_at=0L,tx_state=4} if absent seen applied -\n31 call 3 ordered put coordinator.state('00000000-0000-0003-0000-000000000001'){tx_created_at=0L,tx_state=4} if absent seen applied -\n32 call 2 ordered put bank.account(1){balance=100,tx_committed_at=0L,tx_id='00000000-0000-0001-0000-000000000001',tx_prepared_at=0L,tx_state=3,tx_version=1} if 00000000-0000-0002-0000-000000000001 1 seen applied conflict bank.account(2) {balance=5,before_balance=100,before_tx_committed_at=0L,before_tx_id='00000000-0000-0001-0000-000000000001',before_tx_prepared_at=0L,before_tx_state=3,before_tx_version=1,tx_id='00000000-0000-0003-0000-000000000001',tx_prepared_at=0L,tx_state=1,tx_version=2}\n33 call 3 ordered put bank.account(2){balance=100,tx_committed_at=0L,tx_id='00000000-0000-0001-0000-000000000001',tx_prepared_at=0L,tx_state=3,tx_version=1} if 00000000-0000-0003-0000-000000000001 1 seen applied conflict bank.account(1) {balance=5,before_balance=100,before_tx_committed_at=0L,before_tx_id='00000000-0000-0001-0000-000000000001',before_tx_prepared_at=0L,before_tx_state=3,before_tx_version=1,tx_id='00000000-0000-0002-0000-000000000001',tx_prepared_at=0L,tx_state=1,tx_version=2}\norder 1\n00000000-0000-0001-0000-000000000001 8\ntables 1\ntable bank.account 2\n(100,1)\n(100,2)\nend\n",
    ),
    // every form, written by hand
    Read::Back(
        "scalardb report 1\nevents 43\n1 take 1 - : x : y\n2 take 1 rows 0 : x : y\n3 take 1 rows 2 () (NULL,TRUE,FALSE,-1,-9223372036854775808L,'it''s : {}, (',X'00FF') : x : y\n4 take 1 count 18446744073709551615 : x : y\n5 take 1 done : x : y\n6 take 1 committed : x : y\n7 take 1 duplicate a.b(1;2,'x') : x : y\n8 take 1 busy a.b(;1) 00000000-0000-0001-0000-000000000001 -5 : x : y\n9 take 1 conflict a.b() none : x : y\n10 take 1 conflict none.rows(1) {} : x : y\n11 take 1 conflict a.b(1) {a=1,b='}'} : x : y\n12 take 1 expired 00000000-0000-0001-0000-000000000001 : x : y\n13 take 1 faulted : x : y\n14 take 1 unknown 00000000-0000-0001-0000-000000000001 : x : y\n15 take 1 badrecord _a.B9(X'') : x : y\n16 take 1 refused 255 4294967295 : x : y\n17 take 1 vacuuming : x : y\n18 take 1 opentransactions : x : y\n19 take 1 nomemory : x : y\n20 take 4294967295 done : \n21 call 1 s0 get none.none(1) seen found none -\n22 call 2 s1 scan a.b lost found none.a(1){} rows 0\n23 call 3 s2 scan a.b() dropped rows 0 rows 2 () (NULL,TRUE,FALSE,-1,-9223372036854775808L,'it''s : {}, (',X'00FF')\n24 call 4 s3 scan a.b(1,'') failed rows 2 a.b(1){a=1} done.x(2){} count 18446744073709551615\n25 call 5 s4 put a.b(1){} if absent seen applied done\n26 call 6 s5 put a.b(1){a=1,b='x'} if 00000000-0000-0001-0000-000000000001 1 lost notmet none committed\n27 call 7 s6 put a.b(1){a=1} if 00000000-0000-0001-0000-000000000001 4 dropped notmet a.b(1){a=X'0A'} duplicate a.b(1;2,'x')\n28 call 8 s7 delete a.b(1;2) if 00000000-0000-0001-0000-000000000001 2 failed fault busy a.b(;1) 00000000-0000-0001-0000-000000000001 -5\n29 call 9 s8 delete a.b(1;2) if 00000000-0000-0001-0000-000000000001 3 seen nomemory conflict a.b() none\n30 call 10 s9 delete a.b(1) if absent lost found none conflict none.rows(1) {}\n31 call 11 s10 get none.none(1) dropped found none.a(1){} conflict a.b(1) {a=1,b='}'}\n32 call 12 s11 scan a.b failed rows 0 expired 00000000-0000-0001-0000-000000000001\n33 call 13 s12 scan a.b() seen rows 2 a.b(1){a=1} done.x(2){} faulted\n34 call 14 s13 scan a.b(1,'') lost applied unknown 00000000-0000-0001-0000-000000000001\n35 call 15 s14 put a.b(1){} if absent dropped notmet none badrecord _a.B9(X'')\n36 call 16 s15 put a.b(1){a=1,b='x'} if 00000000-0000-0001-0000-000000000001 1 failed notmet a.b(1){a=X'0A'} refused 255 4294967295\n37 call 17 s16 put a.b(1){a=1} if 00000000-0000-0001-0000-000000000001 4 seen fault vacuuming\n38 call 18 s17 delete a.b(1;2) if 00000000-0000-0001-0000-000000000001 2 lost nomemory opentransactions\n39 call 19 s18 delete a.b(1;2) if 00000000-0000-0001-0000-000000000001 3 dropped found none nomemory\n40 stop 1\n41 clock -1\n42 clock 9223372036854775807\n43 idle 0\norder 2\nffffffff-ffff-ffff-ffff-ffffffffffff 18446744073709551615\n00000000-0000-0000-0000-000000000000 0\ntables 3\ntable B.a 0\ntable a.b 2\n(1,'x')\n()\ntable a.b1 1\n(NULL)\nend\n",
    ),
];

fn worked_too(alloc: Global) -> Result<(), Fail> {
    all_cases(alloc, "worked too", WORKED_TOO.as_slice())
}

// Reports of requests that land late.
static LATE: [Read; 5] = [
    // late_decision_lands
    Read::Back(
        "scalardb report 1\nevents 23\n1 take 1 done : BEGIN\n2 take 1 - : INSERT INTO bank.account (id, balance) VALUES (1, 100)\n3 call 1 ordered get bank.account(1) seen found none count 1\n4 take 1 - : COMMIT\n5 call 1 ordered put bank.account(1){balance=100,tx_id='00000000-0000-0001-0000-000000000001',tx_prepared_at=0L,tx_state=1,tx_version=1} if absent seen applied -\n6 call 1 ordered put coordinator.state('00000000-0000-0001-0000-000000000001'){tx_created_at=0L,tx_state=3} if absent seen applied -\n7 call 1 ordered put bank.account(1){balance=100,tx_committed_at=0L,tx_id='00000000-0000-0001-0000-000000000001',tx_prepared_at=0L,tx_state=3,tx_version=1} if 00000000-0000-0001-0000-000000000001 1 seen applied committed\n8 take 2 done : BEGIN\n9 take 2 - : UPDATE bank.account SET balance = 7 WHERE id = 1\n10 call 2 ordered get bank.account(1) seen found bank.account(1){balance=100,tx_committed_at=0L,tx_id='00000000-0000-0001-0000-000000000001',tx_prepared_at=0L,tx_state=3,tx_version=1} count 1\n11 take 2 - : COMMIT\n12 call 2 ordered put bank.account(1){balance=7,before_balance=100,before_tx_committed_at=0L,before_tx_id='00000000-0000-0001-0000-000000000001',before_tx_prepared_at=0L,before_tx_state=3,before_tx_version=1,tx_id='00000000-0000-0002-0000-000000000001',tx_prepared_at=0L,tx_state=1,tx_version=2} if 00000000-0000-0001-0000-000000000001 3 seen applied -\n13 call 2 ordered put coordinator.state('00000000-0000-0002-0000-000000000001'){tx_created_at=0L,tx_state=3} if absent delayed fault -\n14 call 2 ordered get coordinator.state('00000000-0000-0002-0000-000000000001') delayed fault unknown 00000000-0000-0002-0000-000000000001\n15 land 1 ordered put coordinator.state('00000000-0000-0002-0000-000000000001'){tx_created_at=0L,tx_state=3} if absent seen applied\n16 take 3 done : BEGIN\n17 take 3 - : SELECT balance FROM bank.account WHERE id = 1\n18 call 3 ordered get bank.account(1) seen found bank.account(1){balance=7,before_balance=100,before_tx_committed_at=0L,before_tx_id='00000000-0000-0001-0000-000000000001',before_tx_prepared_at=0L,before_tx_state=3,before_tx_version=1,tx_id='00000000-0000-0002-0000-000000000001',tx_prepared_at=0L,tx_state=1,tx_version=2} -\n19 call 3 ordered get coordinator.state('00000000-0000-0002-0000-000000000001') seen found coordinator.state('00000000-0000-0002-0000-000000000001'){tx_created_at=0L,tx_state=3} -\n20 call 3 ordered put bank.account(1){balance=7,tx_committed_at=0L,tx_id='00000000-0000-0002-0000-000000000001',tx_prepared_at=0L,tx_state=3,tx_version=2} if 00000000-0000-0002-0000-000000000001 1 seen applied rows 1 (7)\n21 take 3 - : COMMIT\n22 call 3 ordered get bank.account(1) seen found bank.account(1){balance=7,tx_committed_at=0L,tx_id='00000000-0000-0002-0000-000000000001',tx_prepared_at=0L,tx_state=3,tx_version=2} -\n23 call 3 ordered put coordinator.state('00000000-0000-0003-0000-000000000001'){tx_created_at=0L,tx_state=3} if absent seen applied committed\norder 3\n00000000-0000-0001-0000-000000000001 5\n00000000-0000-0002-0000-000000000001 12\n00000000-0000-0003-0000-000000000001 21\ntables 1\ntable bank.account 1\n(7,1)\nend\n",
    ),
    // late_decision_loses
    Read::Back(
        "scalardb report 1\nevents 23\n1 take 1 done : BEGIN\n2 take 1 - : INSERT INTO bank.account (id, balance) VALUES (1, 100)\n3 call 1 ordered get bank.account(1) seen found none count 1\n4 take 1 - : COMMIT\n5 call 1 ordered put bank.account(1){balance=100,tx_id='00000000-0000-0001-0000-000000000001',tx_prepared_at=0L,tx_state=1,tx_version=1} if absent seen applied -\n6 call 1 ordered put coordinator.state('00000000-0000-0001-0000-000000000001'){tx_created_at=0L,tx_state=3} if absent seen applied -\n7 call 1 ordered put bank.account(1){balance=100,tx_committed_at=0L,tx_id='00000000-0000-0001-0000-000000000001',tx_prepared_at=0L,tx_state=3,tx_version=1} if 00000000-0000-0001-0000-000000000001 1 seen applied committed\n8 take 2 done : BEGIN\n9 take 2 - : UPDATE bank.account SET balance = 7 WHERE id = 1\n10 call 2 ordered get bank.account(1) seen found bank.account(1){balance=100,tx_committed_at=0L,tx_id='00000000-0000-0001-0000-000000000001',tx_prepared_at=0L,tx_state=3,tx_version=1} count 1\n11 take 2 - : COMMIT\n12 call 2 ordered put bank.account(1){balance=7,before_balance=100,before_tx_committed_at=0L,before_tx_id='00000000-0000-0001-0000-000000000001',before_tx_prepared_at=0L,before_tx_state=3,before_tx_version=1,tx_id='00000000-0000-0002-0000-000000000001',tx_prepared_at=0L,tx_state=1,tx_version=2} if 00000000-0000-0001-0000-000000000001 3 seen applied -\n13 call 2 ordered put coordinator.state('00000000-0000-0002-0000-000000000001'){tx_created_at=0L,tx_state=3} if absent delayed fault -\n14 call 2 ordered get coordinator.state('00000000-0000-0002-0000-000000000001') seen found none -\n15 call 2 ordered put coordinator.state('00000000-0000-0002-0000-000000000001'){tx_created_at=0L,tx_state=4} if absent seen applied -\n16 call 2 ordered put bank.account(1){balance=100,tx_committed_at=0L,tx_id='00000000-0000-0001-0000-000000000001',tx_prepared_at=0L,tx_state=3,tx_version=1} if 00000000-0000-0002-0000-000000000001 1 seen applied faulted\n17 land 1 ordered put coordinator.state('00000000-0000-0002-0000-000000000001'){tx_created_at=0L,tx_state=3} if absent seen notmet coordinator.state('00000000-0000-0002-0000-000000000001'){tx_created_at=0L,tx_state=4}\n18 take 3 done : BEGIN\n19 take 3 - : SELECT balance FROM bank.account WHERE id = 1\n20 call 3 ordered get bank.account(1) seen found bank.account(1){balance=100,tx_committed_at=0L,tx_id='00000000-0000-0001-0000-000000000001',tx_prepared_at=0L,tx_state=3,tx_version=1} rows 1 (100)\n21 take 3 - : COMMIT\n22 call 3 ordered get bank.account(1) seen found bank.account(1){balance=100,tx_committed_at=0L,tx_id='00000000-0000-0001-0000-000000000001',tx_prepared_at=0L,tx_state=3,tx_version=1} -\n23 call 3 ordered put coordinator.state('00000000-0000-0003-0000-000000000001'){tx_created_at=0L,tx_state=3} if absent seen applied committed\norder 2\n00000000-0000-0001-0000-000000000001 5\n00000000-0000-0003-0000-000000000001 21\ntables 1\ntable bank.account 1\n(100,1)\nend\n",
    ),
    // late_prepare_lands
    Read::Back(
        "scalardb report 1\nevents 23\n1 take 1 done : BEGIN\n2 take 1 - : INSERT INTO bank.account (id, balance) VALUES (1, 100)\n3 call 1 ordered get bank.account(1) seen found none count 1\n4 take 1 - : COMMIT\n5 call 1 ordered put bank.account(1){balance=100,tx_id='00000000-0000-0001-0000-000000000001',tx_prepared_at=0L,tx_state=1,tx_version=1} if absent seen applied -\n6 call 1 ordered put coordinator.state('00000000-0000-0001-0000-000000000001'){tx_created_at=0L,tx_state=3} if absent seen applied -\n7 call 1 ordered put bank.account(1){balance=100,tx_committed_at=0L,tx_id='00000000-0000-0001-0000-000000000001',tx_prepared_at=0L,tx_state=3,tx_version=1} if 00000000-0000-0001-0000-000000000001 1 seen applied committed\n8 take 2 done : BEGIN\n9 take 2 - : UPDATE bank.account SET balance = 7 WHERE id = 1\n10 call 2 ordered get bank.account(1) seen found bank.account(1){balance=100,tx_committed_at=0L,tx_id='00000000-0000-0001-0000-000000000001',tx_prepared_at=0L,tx_state=3,tx_version=1} count 1\n11 take 2 - : COMMIT\n12 call 2 ordered put bank.account(1){balance=7,before_balance=100,before_tx_committed_at=0L,before_tx_id='00000000-0000-0001-0000-000000000001',before_tx_prepared_at=0L,before_tx_state=3,before_tx_version=1,tx_id='00000000-0000-0002-0000-000000000001',tx_prepared_at=0L,tx_state=1,tx_version=2} if 00000000-0000-0001-0000-000000000001 3 delayed fault -\n13 call 2 ordered put coordinator.state('00000000-0000-0002-0000-000000000001'){tx_created_at=0L,tx_state=4} if absent seen applied -\n14 call 2 ordered put bank.account(1){balance=100,tx_committed_at=0L,tx_id='00000000-0000-0001-0000-000000000001',tx_prepared_at=0L,tx_state=3,tx_version=1} if 00000000-0000-0002-0000-000000000001 1 seen notmet bank.account(1){balance=100,tx_committed_at=0L,tx_id='00000000-0000-0001-0000-000000000001',tx_prepared_at=0L,tx_state=3,tx_version=1} faulted\n15 land 1 ordered put bank.account(1){balance=7,before_balance=100,before_tx_committed_at=0L,before_tx_id='00000000-0000-0001-0000-000000000001',before_tx_prepared_at=0L,before_tx_state=3,before_tx_version=1,tx_id='00000000-0000-0002-0000-000000000001',tx_prepared_at=0L,tx_state=1,tx_version=2} if 00000000-0000-0001-0000-000000000001 3 seen applied\n16 take 3 done : BEGIN\n17 take 3 - : SELECT balance FROM bank.account WHERE id = 1\n18 call 3 ordered get bank.account(1) seen found bank.account(1){balance=7,before_balance=100,before_tx_committed_at=0L,before_tx_id='00000000-0000-0001-0000-000000000001',before_tx_prepared_at=0L,before_tx_state=3,before_tx_version=1,tx_id='00000000-0000-0002-0000-000000000001',tx_prepared_at=0L,tx_state=1,tx_version=2} -\n19 call 3 ordered get coordinator.state('00000000-0000-0002-0000-000000000001') seen found coordinator.state('00000000-0000-0002-0000-000000000001'){tx_created_at=0L,tx_state=4} -\n20 call 3 ordered put bank.account(1){balance=100,tx_committed_at=0L,tx_id='00000000-0000-0001-0000-000000000001',tx_prepared_at=0L,tx_state=3,tx_version=1} if 00000000-0000-0002-0000-000000000001 1 seen applied rows 1 (100)\n21 take 3 - : COMMIT\n22 call 3 ordered get bank.account(1) seen found bank.account(1){balance=100,tx_committed_at=0L,tx_id='00000000-0000-0001-0000-000000000001',tx_prepared_at=0L,tx_state=3,tx_version=1} -\n23 call 3 ordered put coordinator.state('00000000-0000-0003-0000-000000000001'){tx_created_at=0L,tx_state=3} if absent seen applied committed\norder 2\n00000000-0000-0001-0000-000000000001 5\n00000000-0000-0003-0000-000000000001 21\ntables 1\ntable bank.account 1\n(100,1)\nend\n",
    ),
    // late_request_lands_once
    Read::Back(
        "scalardb report 1\nevents 24\n1 take 1 done : BEGIN\n2 take 1 - : INSERT INTO bank.account (id, balance) VALUES (1, 100)\n3 call 1 ordered get bank.account(1) seen found none count 1\n4 take 1 - : COMMIT\n5 call 1 ordered put bank.account(1){balance=100,tx_id='00000000-0000-0001-0000-000000000001',tx_prepared_at=0L,tx_state=1,tx_version=1} if absent seen applied -\n6 call 1 ordered put coordinator.state('00000000-0000-0001-0000-000000000001'){tx_created_at=0L,tx_state=3} if absent seen applied -\n7 call 1 ordered put bank.account(1){balance=100,tx_committed_at=0L,tx_id='00000000-0000-0001-0000-000000000001',tx_prepared_at=0L,tx_state=3,tx_version=1} if 00000000-0000-0001-0000-000000000001 1 seen applied committed\n8 take 2 done : BEGIN\n9 take 2 - : UPDATE bank.account SET balance = 7 WHERE id = 1\n10 call 2 ordered get bank.account(1) seen found bank.account(1){balance=100,tx_committed_at=0L,tx_id='00000000-0000-0001-0000-000000000001',tx_prepared_at=0L,tx_state=3,tx_version=1} count 1\n11 take 2 - : COMMIT\n12 call 2 ordered put bank.account(1){balance=7,before_balance=100,before_tx_committed_at=0L,before_tx_id='00000000-0000-0001-0000-000000000001',before_tx_prepared_at=0L,before_tx_state=3,before_tx_version=1,tx_id='00000000-0000-0002-0000-000000000001',tx_prepared_at=0L,tx_state=1,tx_version=2} if 00000000-0000-0001-0000-000000000001 3 delayed fault -\n13 call 2 ordered put coordinator.state('00000000-0000-0002-0000-000000000001'){tx_created_at=0L,tx_state=4} if absent seen applied -\n14 call 2 ordered put bank.account(1){balance=100,tx_committed_at=0L,tx_id='00000000-0000-0001-0000-000000000001',tx_prepared_at=0L,tx_state=3,tx_version=1} if 00000000-0000-0002-0000-000000000001 1 seen notmet bank.account(1){balance=100,tx_committed_at=0L,tx_id='00000000-0000-0001-0000-000000000001',tx_prepared_at=0L,tx_state=3,tx_version=1} faulted\n15 land 1 ordered put bank.account(1){balance=7,before_balance=100,before_tx_committed_at=0L,before_tx_id='00000000-0000-0001-0000-000000000001',before_tx_prepared_at=0L,before_tx_state=3,before_tx_version=1,tx_id='00000000-0000-0002-0000-000000000001',tx_prepared_at=0L,tx_state=1,tx_version=2} if 00000000-0000-0001-0000-000000000001 3 seen applied\n16 idle 0\n17 take 3 done : BEGIN\n18 take 3 - : SELECT balance FROM bank.account WHERE id = 1\n19 call 3 ordered get bank.account(1) seen found bank.account(1){balance=7,before_balance=100,before_tx_committed_at=0L,before_tx_id='00000000-0000-0001-0000-000000000001',before_tx_prepared_at=0L,before_tx_state=3,before_tx_version=1,tx_id='00000000-0000-0002-0000-000000000001',tx_prepared_at=0L,tx_state=1,tx_version=2} -\n20 call 3 ordered get coordinator.state('00000000-0000-0002-0000-000000000001') seen found coordinator.state('00000000-0000-0002-0000-000000000001'){tx_created_at=0L,tx_state=4} -\n21 call 3 ordered put bank.account(1){balance=100,tx_committed_at=0L,tx_id='00000000-0000-0001-0000-000000000001',tx_prepared_at=0L,tx_state=3,tx_version=1} if 00000000-0000-0002-0000-000000000001 1 seen applied rows 1 (100)\n22 take 3 - : COMMIT\n23 call 3 ordered get bank.account(1) seen found bank.account(1){balance=100,tx_committed_at=0L,tx_id='00000000-0000-0001-0000-000000000001',tx_prepared_at=0L,tx_state=3,tx_version=1} -\n24 call 3 ordered put coordinator.state('00000000-0000-0003-0000-000000000001'){tx_created_at=0L,tx_state=3} if absent seen applied committed\norder 2\n00000000-0000-0001-0000-000000000001 5\n00000000-0000-0003-0000-000000000001 22\ntables 1\ntable bank.account 1\n(100,1)\nend\n",
    ),
    // every form, written by hand
    Read::Back(
        "scalardb report 1\nevents 9\n1 call 1 a get a.b(1) delayed fault -\n2 land 1 a get a.b(1) seen found none\n3 land 1 a get a.b(1) failed fault\n4 land 2 a scan a.b seen rows 2 a.b(1){x=1} a.b(2){}\n5 land 3 a delete a.b(1) if absent seen notmet a.b(1){x=1}\n6 land 4 a put none.b(1){x=1} if 00000000-0000-0001-0000-000000000001 3 seen notmet none\n7 land 0 a scan a.b(1) seen nomemory\n8 land 4294967295 a get a.b(1) seen found none.b(1){}\n9 idle 0\norder 0\ntables 0\nend\n",
    ),
];

fn late(alloc: Global) -> Result<(), Fail> {
    all_cases(alloc, "late", LATE.as_slice())
}

static WRONG_LATE: [Read; 14] = [
    Read::Bad(
        "scalardb report 1\nevents 1\n1 land 1 a get a.b(1) lost fault\n",
        3,
    ),
    Read::Bad(
        "scalardb report 1\nevents 1\n1 land 1 a get a.b(1) dropped fault\n",
        3,
    ),
    Read::Bad(
        "scalardb report 1\nevents 1\n1 land 1 a get a.b(1) delayed fault\n",
        3,
    ),
    Read::Bad(
        "scalardb report 1\nevents 1\n1 land 1 a get a.b(1) seen found none -\n",
        3,
    ),
    Read::Bad(
        "scalardb report 1\nevents 1\n1 land 1 a get a.b(1) seen found none \n",
        3,
    ),
    Read::Bad(
        "scalardb report 1\nevents 1\n1 land 1 a get a.b(1) seen found\n",
        3,
    ),
    Read::Bad(
        "scalardb report 1\nevents 1\n1 land 1 a get a.b(1) seen\n",
        3,
    ),
    Read::Bad(
        "scalardb report 1\nevents 1\n1 land 1 a get a.b(1) failed\n",
        3,
    ),
    Read::Bad(
        "scalardb report 1\nevents 1\n1 land 01 a get a.b(1) seen fault\n",
        3,
    ),
    Read::Bad(
        "scalardb report 1\nevents 1\n1 land 4294967296 a get a.b(1) seen fault\n",
        3,
    ),
    Read::Bad(
        "scalardb report 1\nevents 1\n1 land a get a.b(1) seen fault\n",
        3,
    ),
    Read::Bad(
        "scalardb report 1\nevents 1\n1 land 1 get a.b(1) seen fault\n",
        3,
    ),
    Read::Bad(
        "scalardb report 1\nevents 1\n1 land 1 a get a.b(1) late fault\n",
        3,
    ),
    Read::Bad(
        "scalardb report 1\nevents 1\n1 call 1 a get a.b(1) delay fault -\n",
        3,
    ),
];

fn wrong_late(alloc: Global) -> Result<(), Fail> {
    all_cases(alloc, "wrong late", WRONG_LATE.as_slice())
}

// Reports of columns that are added.
static ADDED: [Read; 4] = [
    // column_added
    Read::Back(
        "scalardb report 1\nevents 16\n1 take 1 done : BEGIN\n2 take 1 - : INSERT INTO bank.account (id, balance) VALUES (1, 100)\n3 call 1 ordered get bank.account(1) seen found none count 1\n4 take 1 - : COMMIT\n5 call 1 ordered put bank.account(1){balance=100,tx_id='00000000-0000-0001-0000-000000000001',tx_prepared_at=0L,tx_state=1,tx_version=1} if absent seen applied -\n6 call 1 ordered put coordinator.state('00000000-0000-0001-0000-000000000001'){tx_created_at=0L,tx_state=3} if absent seen applied -\n7 call 1 ordered put bank.account(1){balance=100,tx_committed_at=0L,tx_id='00000000-0000-0001-0000-000000000001',tx_prepared_at=0L,tx_state=3,tx_version=1} if 00000000-0000-0001-0000-000000000001 1 seen applied committed\n8 alter bank.account note TEXT done\n9 take 2 done : BEGIN\n10 take 2 - : SELECT * FROM bank.account WHERE id = 1\n11 call 2 ordered get bank.account(1) seen found bank.account(1){balance=100,tx_committed_at=0L,tx_id='00000000-0000-0001-0000-000000000001',tx_prepared_at=0L,tx_state=3,tx_version=1} rows 1 (100,1,NULL)\n12 take 2 count 1 : UPDATE bank.account SET note = 'x' WHERE id = 1\n13 take 2 - : COMMIT\n14 call 2 ordered put bank.account(1){balance=100,before_balance=100,before_tx_committed_at=0L,before_tx_id='00000000-0000-0001-0000-000000000001',before_tx_prepared_at=0L,before_tx_state=3,before_tx_version=1,note='x',tx_id='00000000-0000-0002-0000-000000000001',tx_prepared_at=0L,tx_state=1,tx_version=2} if 00000000-0000-0001-0000-000000000001 3 seen applied -\n15 call 2 ordered put coordinator.state('00000000-0000-0002-0000-000000000001'){tx_created_at=0L,tx_state=3} if absent seen applied -\n16 call 2 ordered put bank.account(1){balance=100,note='x',tx_committed_at=0L,tx_id='00000000-0000-0002-0000-000000000001',tx_prepared_at=0L,tx_state=3,tx_version=2} if 00000000-0000-0002-0000-000000000001 1 seen applied committed\norder 2\n00000000-0000-0001-0000-000000000001 5\n00000000-0000-0002-0000-000000000001 14\ntables 1\ntable bank.account 1\n(100,1,'x')\nend\n",
    ),
    // column_added_while_open
    Read::Back(
        "scalardb report 1\nevents 17\n1 take 1 done : BEGIN\n2 take 1 - : INSERT INTO bank.account (id, balance) VALUES (1, 100)\n3 call 1 ordered get bank.account(1) seen found none count 1\n4 alter bank.account note TEXT open\n5 take 1 - : COMMIT\n6 take 2 done : BEGIN\n7 call 1 ordered put bank.account(1){balance=100,tx_id='00000000-0000-0001-0000-000000000001',tx_prepared_at=0L,tx_state=1,tx_version=1} if absent seen applied -\n8 take 2 - : SELECT * FROM bank.account WHERE id = 1\n9 call 1 ordered put coordinator.state('00000000-0000-0001-0000-000000000001'){tx_created_at=0L,tx_state=3} if absent seen applied -\n10 call 2 ordered get bank.account(1) seen found bank.account(1){balance=100,tx_id='00000000-0000-0001-0000-000000000001',tx_prepared_at=0L,tx_state=1,tx_version=1} -\n11 call 1 ordered put bank.account(1){balance=100,tx_committed_at=0L,tx_id='00000000-0000-0001-0000-000000000001',tx_prepared_at=0L,tx_state=3,tx_version=1} if 00000000-0000-0001-0000-000000000001 1 seen applied committed\n12 call 2 ordered get coordinator.state('00000000-0000-0001-0000-000000000001') seen found coordinator.state('00000000-0000-0001-0000-000000000001'){tx_created_at=0L,tx_state=3} -\n13 call 2 ordered put bank.account(1){balance=100,tx_committed_at=0L,tx_id='00000000-0000-0001-0000-000000000001',tx_prepared_at=0L,tx_state=3,tx_version=1} if 00000000-0000-0001-0000-000000000001 1 seen notmet bank.account(1){balance=100,tx_committed_at=0L,tx_id='00000000-0000-0001-0000-000000000001',tx_prepared_at=0L,tx_state=3,tx_version=1} rows 1 (100,1)\n14 take 2 refused 7 1 : UPDATE bank.account SET note = 'x' WHERE id = 1\n15 take 2 - : COMMIT\n16 call 2 ordered get bank.account(1) seen found bank.account(1){balance=100,tx_committed_at=0L,tx_id='00000000-0000-0001-0000-000000000001',tx_prepared_at=0L,tx_state=3,tx_version=1} -\n17 call 2 ordered put coordinator.state('00000000-0000-0002-0000-000000000001'){tx_created_at=0L,tx_state=3} if absent seen applied committed\norder 2\n00000000-0000-0001-0000-000000000001 7\n00000000-0000-0002-0000-000000000001 15\ntables 1\ntable bank.account 1\n(100,1)\nend\n",
    ),
    // every form, written by hand
    Read::Back(
        "scalardb report 1\nevents 7\n1 alter a.b c BOOLEAN done\n2 alter a.b c INT open\n3 alter a.b c BIGINT refused 0\n4 alter a.b c TEXT refused 4\n5 alter a.b c BLOB refused 255\n6 alter done.open refused TEXT done\n7 alter coordinator.state INT INT refused 1\norder 0\ntables 0\nend\n",
    ),
    Read::Back(
        "scalardb report 1\nevents 1\n1 alter a.b ccccccccccccccccccccccccccccccccccccccccccccccccccccccccccccccccccccccc TEXT done\norder 0\ntables 0\nend\n",
    ),
];

fn added(alloc: Global) -> Result<(), Fail> {
    all_cases(alloc, "added", ADDED.as_slice())
}

static WRONG_ADDED: [Read; 23] = [
    Read::Bad("scalardb report 1\nevents 1\n1 alter a.b c TEXT\n", 3),
    Read::Bad("scalardb report 1\nevents 1\n1 alter a.b c TEXT done \n", 3),
    Read::Bad(
        "scalardb report 1\nevents 1\n1 alter a.b c TEXT refused\n",
        3,
    ),
    Read::Bad(
        "scalardb report 1\nevents 1\n1 alter a.b c TEXT refused \n",
        3,
    ),
    Read::Bad(
        "scalardb report 1\nevents 1\n1 alter a.b c TEXT refused 256\n",
        3,
    ),
    Read::Bad(
        "scalardb report 1\nevents 1\n1 alter a.b c TEXT refused 01\n",
        3,
    ),
    Read::Bad(
        "scalardb report 1\nevents 1\n1 alter a.b c TEXT refused -1\n",
        3,
    ),
    Read::Bad(
        "scalardb report 1\nevents 1\n1 alter a.b c TEXT refused 1 1\n",
        3,
    ),
    Read::Bad(
        "scalardb report 1\nevents 1\n1 alter a.b c TEXT opened\n",
        3,
    ),
    Read::Bad("scalardb report 1\nevents 1\n1 alter a.b c text done\n", 3),
    Read::Bad("scalardb report 1\nevents 1\n1 alter a.b c BIG done\n", 3),
    Read::Bad(
        "scalardb report 1\nevents 1\n1 alter a.b c INTEGER done\n",
        3,
    ),
    Read::Bad("scalardb report 1\nevents 1\n1 alter a.b c done\n", 3),
    Read::Bad("scalardb report 1\nevents 1\n1 alter a.b TEXT done\n", 3),
    Read::Bad("scalardb report 1\nevents 1\n1 alter a c TEXT done\n", 3),
    Read::Bad(
        "scalardb report 1\nevents 1\n1 alter a.b.c c TEXT done\n",
        3,
    ),
    Read::Bad("scalardb report 1\nevents 1\n1 alter a.b 1c TEXT done\n", 3),
    Read::Bad(
        "scalardb report 1\nevents 1\n1 alter a.b cccccccccccccccccccccccccccccccccccccccccccccccccccccccccccccccccccccccc TEXT done\n",
        3,
    ),
    Read::Bad("scalardb report 1\nevents 1\n1 alter a.b  c TEXT done\n", 3),
    Read::Bad("scalardb report 1\nevents 1\n1 alter  a.b c TEXT done\n", 3),
    Read::Bad(
        "scalardb report 1\nevents 1\n1 alter a.b c TEXT done -\n",
        3,
    ),
    Read::Bad("scalardb report 1\nevents 1\n1 Alter a.b c TEXT done\n", 3),
    Read::Bad(
        "scalardb report 1\nevents 1\n1 alter 1 a.b c TEXT done\n",
        3,
    ),
];

fn wrong_added(alloc: Global) -> Result<(), Fail> {
    all_cases(alloc, "wrong added", WRONG_ADDED.as_slice())
}

static WRONG: [Read; 40] = [
    Read::Bad("", 1),
    Read::Bad("scalardb report 2\n", 1),
    Read::Bad("scalardb report 1", 1),
    Read::Bad("scalardb report 1\n", 2),
    Read::Bad("scalardb report 1\nevents 01\n", 2),
    Read::Bad("scalardb report 1\nevents \n", 2),
    Read::Bad("scalardb report 1\nevents -1\n", 2),
    Read::Bad("scalardb report 1\nevents 18446744073709551616\n", 2),
    Read::Bad(
        "scalardb report 1\nevents 18446744073709551615\n1 stop 1\n",
        4,
    ),
    Read::Bad("scalardb report 1\nevents 1\norder 0\n", 3),
    Read::Bad("scalardb report 1\nevents 0\n1 stop 1\n", 3),
    Read::Bad("scalardb report 1\nevents 1\n2 stop 1\n", 3),
    Read::Bad("scalardb report 1\nevents 1\n1 stop 01\n", 3),
    Read::Bad("scalardb report 1\nevents 1\n1 stop 4294967296\n", 3),
    Read::Bad("scalardb report 1\nevents 1\n1 stop 1 \n", 3),
    Read::Bad("scalardb report 1\nevents 1\n1 halt 1\n", 3),
    Read::Bad(
        "scalardb report 1\nevents 1\n1 clock 9223372036854775808\n",
        3,
    ),
    Read::Bad("scalardb report 1\nevents 1\n1 clock -0\n", 3),
    Read::Bad("scalardb report 1\nevents 1\n1 take 1 done: BEGIN\n", 3),
    Read::Bad(
        "scalardb report 1\nevents 1\n1 take 1 finished : BEGIN\n",
        3,
    ),
    Read::Bad(
        "scalardb report 1\nevents 1\n1 take 1 rows 2 (1) : SELECT\n",
        3,
    ),
    Read::Bad(
        "scalardb report 1\nevents 1\n1 take 1 expired 00000000-0000-0001-0000-00000000000A : COMMIT\n",
        3,
    ),
    Read::Bad(
        "scalardb report 1\nevents 1\n1 call 1 a get a.b('x) seen fault -\n",
        3,
    ),
    Read::Bad(
        "scalardb report 1\nevents 1\n1 call 1 a get a.b(2147483648) seen fault -\n",
        3,
    ),
    Read::Bad(
        "scalardb report 1\nevents 1\n1 call 1 a get a.b(X'0a') seen fault -\n",
        3,
    ),
    Read::Bad(
        "scalardb report 1\nevents 1\n1 call 1 a get a.b(1) seen fault\n",
        3,
    ),
    Read::Bad(
        "scalardb report 1\nevents 1\n1 call 1 a get a(1) seen fault -\n",
        3,
    ),
    Read::Bad(
        "scalardb report 1\nevents 1\n1 call 1 a get aaaaaaaaaaaaaaaaaaaaaaaaaaaaaaaaaaaaaaaaaaaaaaaaaaaaaaaaaaaaaaaaaaaaaaaa.b(1) seen fault -\n",
        3,
    ),
    Read::Bad(
        "scalardb report 1\nevents 1\n1 call 1 a put a.b(1){b=1,a=1} if absent seen applied -\n",
        3,
    ),
    Read::Bad(
        "scalardb report 1\nevents 1\n1 call 1 a put a.b(1){a=NULL} if absent seen applied -\n",
        3,
    ),
    Read::Bad(
        "scalardb report 1\nevents 1\n1 call 1 a put a.b(1){a=1} if absent seen applied - \n",
        3,
    ),
    Read::Bad(
        "scalardb report 1\nevents 3\n1 stop 2\n2 clock 15000\n3 idle 2\norder 1\ntables 0\n",
        7,
    ),
    Read::Bad(
        "scalardb report 1\nevents 3\n1 stop 2\n2 clock 15000\n3 idle 2\norder 1\n00000000-0000-0001-0000-000000000001 2\ntables 2\ntable bank.item 0\ntable bank.account 0\nend\n",
        10,
    ),
    Read::Bad(
        "scalardb report 1\nevents 3\n1 stop 2\n2 clock 15000\n3 idle 2\norder 1\n00000000-0000-0001-0000-000000000001 2\ntables 2\ntable bank.item 0\ntable bank.item 0\nend\n",
        10,
    ),
    Read::Bad(
        "scalardb report 1\nevents 3\n1 stop 2\n2 clock 15000\n3 idle 2\norder 1\n00000000-0000-0001-0000-000000000001 2\ntables 1\ntable bank.item 2\n(1)\nend\n",
        11,
    ),
    Read::Bad(
        "scalardb report 1\nevents 3\n1 stop 2\n2 clock 15000\n3 idle 2\norder 1\n00000000-0000-0001-0000-000000000001 2\ntables 0\n",
        9,
    ),
    Read::Bad(
        "scalardb report 1\nevents 3\n1 stop 2\n2 clock 15000\n3 idle 2\norder 1\n00000000-0000-0001-0000-000000000001 2\ntables 0\nEND\n",
        9,
    ),
    Read::Bad(
        "scalardb report 1\nevents 3\n1 stop 2\n2 clock 15000\n3 idle 2\norder 1\n00000000-0000-0001-0000-000000000001 2\ntables 0\nend",
        9,
    ),
    Read::Bad(
        "scalardb report 1\nevents 3\n1 stop 2\n2 clock 15000\n3 idle 2\norder 1\n00000000-0000-0001-0000-000000000001 2\ntables 0\nend\n\n",
        10,
    ),
    Read::Bad(
        "scalardb report 1\nevents 3\n1 stop 2\n2 clock 15000\n3 idle 2\norder 1\n00000000-0000-0001-0000-000000000001 2\ntables 0\nend\nx",
        10,
    ),
];

fn wrong(alloc: Global) -> Result<(), Fail> {
    all_cases(alloc, "wrong", WRONG.as_slice())
}

#[test]
fn reports_are_read_back(rt: HostRuntime) -> Result<(), Fail> {
    worked(rt.alloc())?;
    worked_too(rt.alloc())?;
    wrong(rt.alloc())?;
    late(rt.alloc())?;
    wrong_late(rt.alloc())?;
    added(rt.alloc())?;
    wrong_added(rt.alloc())
}
