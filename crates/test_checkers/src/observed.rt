//! Whether rows that answers show are rows that their transaction has: true events, and forged ones, of clients whose store
//! was empty.
use crate::steps::{Asked, Judged};
use std::test::Fail;
use test_builders::all_cases;

static ROWS: [Judged; 15] = [
    // Rows of an empty table.
    Judged(
        Asked::Shown,
        "scalardb report 1\nevents 3\n1 take 1 done : BEGIN\n2 take 1 - : SELECT * FROM bank.account WHERE id = 1\n3 call 1 ordered get bank.account(1) seen found none rows 0\norder 0\ntables 0\nend\n",
        true,
    ),
    Judged(
        Asked::Shown,
        "scalardb report 1\nevents 3\n1 take 1 done : BEGIN\n2 take 1 - : SELECT * FROM bank.account WHERE id = 1\n3 call 1 ordered get bank.account(1) seen found none rows 1 (42)\norder 0\ntables 0\nend\n",
        false,
    ),
    Judged(
        Asked::Shown,
        "scalardb report 1\nevents 3\n1 take 1 done : BEGIN\n2 take 1 - : SELECT * FROM bank.account WHERE id = 1\n3 call 1 ordered get bank.account(1) seen found none rows 1 (42,1)\norder 0\ntables 0\nend\n",
        false,
    ),
    Judged(
        Asked::Shown,
        "scalardb report 1\nevents 3\n1 take 1 done : BEGIN\n2 take 1 - : INSERT INTO bank.account (id, balance) VALUES (1, 42)\n3 call 1 ordered get bank.account(1) seen found none duplicate bank.account(1)\norder 0\ntables 0\nend\n",
        false,
    ),
    Judged(
        Asked::Shown,
        "scalardb report 1\nevents 2\n1 take 1 done : BEGIN\n2 take 1 rows 0 : COMMIT !\norder 0\ntables 0\nend\n",
        false,
    ),
    // Rows of another's transaction.
    Judged(
        Asked::Shown,
        "scalardb report 1\nevents 4\n1 call 2 ordered put bank.account(1){balance=42,tx_id='00000000-0000-0002-0000-000000000001',tx_prepared_at=0L,tx_state=1,tx_version=1} if absent seen applied -\n2 take 1 done : BEGIN\n3 take 1 - : SELECT * FROM bank.account WHERE id = 1\n4 call 1 ordered get bank.account(1) seen found bank.account(1){balance=42,tx_id='00000000-0000-0002-0000-000000000001',tx_prepared_at=0L,tx_state=1,tx_version=1} rows 1 (42,1)\norder 0\ntables 0\nend\n",
        false,
    ),
    Judged(
        Asked::Shown,
        "scalardb report 1\nevents 5\n1 call 2 ordered put bank.account(1){balance=42,tx_id='00000000-0000-0002-0000-000000000001',tx_prepared_at=0L,tx_state=1,tx_version=1} if absent seen applied -\n2 call 2 ordered put coordinator.state('00000000-0000-0002-0000-000000000001'){tx_created_at=0L,tx_state=3} if absent seen applied -\n3 take 1 done : BEGIN\n4 take 1 - : SELECT * FROM bank.account WHERE id = 1\n5 call 1 ordered get bank.account(1) seen found bank.account(1){balance=42,tx_id='00000000-0000-0002-0000-000000000001',tx_prepared_at=0L,tx_state=1,tx_version=1} rows 1 (42,1)\norder 0\ntables 0\nend\n",
        true,
    ),
    Judged(
        Asked::Shown,
        "scalardb report 1\nevents 5\n1 call 2 ordered put bank.account(1){balance=42,tx_id='00000000-0000-0002-0000-000000000001',tx_prepared_at=0L,tx_state=1,tx_version=1} if absent seen applied -\n2 take 1 done : BEGIN\n3 take 1 - : SELECT * FROM bank.account WHERE id = 1\n4 call 2 ordered put coordinator.state('00000000-0000-0002-0000-000000000001'){tx_created_at=0L,tx_state=3} if absent seen applied -\n5 call 1 ordered scan bank.account seen rows 1 bank.account(1){balance=42,tx_id='00000000-0000-0002-0000-000000000001',tx_prepared_at=0L,tx_state=1,tx_version=1} rows 1 (42,1)\norder 0\ntables 0\nend\n",
        true,
    ),
    Judged(
        Asked::Shown,
        "scalardb report 1\nevents 5\n1 call 2 ordered put bank.account(1){balance=42,tx_id='00000000-0000-0002-0000-000000000001',tx_prepared_at=0L,tx_state=1,tx_version=1} if absent seen applied -\n2 take 1 done : BEGIN\n3 take 1 - : SELECT * FROM bank.account WHERE id = 1\n4 call 1 ordered get bank.account(1) seen found bank.account(1){balance=42,tx_id='00000000-0000-0002-0000-000000000001',tx_prepared_at=0L,tx_state=1,tx_version=1} rows 1 (42,1)\n5 call 2 ordered put coordinator.state('00000000-0000-0002-0000-000000000001'){tx_created_at=0L,tx_state=3} if absent seen applied -\norder 0\ntables 0\nend\n",
        false,
    ),
    Judged(
        Asked::Shown,
        "scalardb report 1\nevents 5\n1 call 2 ordered put bank.account(1){balance=42,tx_id='00000000-0000-0002-0000-000000000001',tx_prepared_at=0L,tx_state=1,tx_version=1} if absent seen applied -\n2 call 2 ordered put coordinator.state('00000000-0000-0002-0000-000000000001'){tx_created_at=0L,tx_state=4} if absent seen applied -\n3 take 1 done : BEGIN\n4 take 1 - : SELECT * FROM bank.account WHERE id = 1\n5 call 1 ordered get bank.account(1) seen found bank.account(1){balance=42,tx_id='00000000-0000-0002-0000-000000000001',tx_prepared_at=0L,tx_state=1,tx_version=1} rows 1 (42,1)\norder 0\ntables 0\nend\n",
        false,
    ),
    Judged(
        Asked::Shown,
        "scalardb report 1\nevents 5\n1 call 2 ordered put bank.account(1){balance=42,tx_id='00000000-0000-0002-0000-000000000001',tx_prepared_at=0L,tx_state=1,tx_version=1} if absent seen applied -\n2 call 2 ordered put coordinator.state('00000000-0000-0002-0000-000000000001'){tx_created_at=0L,tx_state=3} if absent seen applied -\n3 take 1 done : BEGIN\n4 take 1 - : INSERT INTO bank.account (id, balance) VALUES (1, 42)\n5 call 1 ordered get bank.account(1) seen found bank.account(1){balance=42,tx_id='00000000-0000-0002-0000-000000000001',tx_prepared_at=0L,tx_state=1,tx_version=1} duplicate bank.account(1)\norder 0\ntables 0\nend\n",
        true,
    ),
    // Rows of the transaction itself.
    Judged(
        Asked::Shown,
        "scalardb report 1\nevents 4\n1 take 1 done : BEGIN\n2 take 1 - : INSERT INTO bank.account (id, balance) VALUES (1, 42)\n3 call 1 ordered get bank.account(1) seen found none count 1\n4 take 1 rows 1 (42,1) : SELECT * FROM bank.account\norder 0\ntables 0\nend\n",
        true,
    ),
    Judged(
        Asked::Shown,
        "scalardb report 1\nevents 5\n1 take 1 done : BEGIN\n2 take 1 - : INSERT INTO bank.account (id, balance) VALUES (1, 42)\n3 call 1 ordered get bank.account(1) seen found none count 1\n4 take 1 count 1 : UPDATE bank.account SET balance = 7 WHERE id = 1\n5 take 1 rows 1 (7) : SELECT balance FROM bank.account\norder 0\ntables 0\nend\n",
        true,
    ),
    Judged(
        Asked::Shown,
        "scalardb report 1\nevents 5\n1 take 1 done : BEGIN\n2 take 1 - : INSERT INTO bank.account (id, balance) VALUES (1, 42)\n3 call 1 ordered get bank.account(1) seen found none count 1\n4 take 1 count 1 : UPDATE bank.account SET balance = 7 WHERE id = 1\n5 take 1 rows 1 (42,1) : SELECT * FROM bank.account\norder 0\ntables 0\nend\n",
        false,
    ),
    Judged(
        Asked::Shown,
        "scalardb report 1\nevents 4\n1 take 1 done : BEGIN\n2 take 1 - : INSERT INTO bank.account (id, balance) VALUES (1, 42)\n3 call 1 ordered get bank.account(1) seen found none count 1\n4 take 1 duplicate bank.account(1) : INSERT INTO bank.account (id) VALUES (1)\norder 0\ntables 0\nend\n",
        true,
    ),
];

#[test]
fn rows_are_observed_or_forged(rt: HostRuntime) -> Result<(), Fail> {
    all_cases(rt.alloc(), "rows", ROWS.as_slice())
}
