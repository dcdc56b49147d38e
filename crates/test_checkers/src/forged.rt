//! Forged answers, which have no cause, beside true ones.
use crate::steps::{Asked, Judged};
use std::alloc::Global;
use std::test::Fail;
use test_builders::all_cases;

static READS: [Judged; 21] = [
    // Statements that are turned away, or not.
    Judged(
        Asked::Caused,
        "scalardb report 1\nevents 1\n1 take 1 committed : COMMIT\norder 0\ntables 0\nend\n",
        false,
    ),
    Judged(
        Asked::Caused,
        "scalardb report 1\nevents 1\n1 take 1 refused 5 0 : COMMIT\norder 0\ntables 0\nend\n",
        true,
    ),
    Judged(
        Asked::Caused,
        "scalardb report 1\nevents 1\n1 take 1 refused 1 0 : BEGIN\norder 0\ntables 0\nend\n",
        false,
    ),
    Judged(
        Asked::Caused,
        "scalardb report 1\nevents 2\n1 take 1 done : BEGIN\n2 take 1 refused 1 0 : SELECT * FROM bank.account WHERE id = 1\norder 0\ntables 0\nend\n",
        false,
    ),
    Judged(
        Asked::Caused,
        "scalardb report 1\nevents 1\n1 take 1 refused 1 6 : BEGIN !\norder 0\ntables 0\nend\n",
        true,
    ),
    Judged(
        Asked::Caused,
        "scalardb report 1\nevents 1\n1 take 1 done : BEGIN !\norder 0\ntables 0\nend\n",
        false,
    ),
    Judged(
        Asked::Caused,
        "scalardb report 1\nevents 2\n1 take 1 done : BEGIN\n2 take 1 done : BEGIN\norder 0\ntables 0\nend\n",
        false,
    ),
    Judged(
        Asked::Caused,
        "scalardb report 1\nevents 2\n1 take 1 done : BEGIN\n2 take 1 nomemory : BEGIN\norder 0\ntables 0\nend\n",
        true,
    ),
    Judged(
        Asked::Caused,
        "scalardb report 1\nevents 1\n1 take 1 vacuuming : BEGIN\norder 0\ntables 0\nend\n",
        false,
    ),
    Judged(
        Asked::Caused,
        "scalardb report 1\nevents 2\n1 take 2 - : VACUUM\n2 take 1 vacuuming : BEGIN\norder 0\ntables 0\nend\n",
        true,
    ),
    Judged(
        Asked::Caused,
        "scalardb report 1\nevents 3\n1 take 2 - : VACUUM\n2 stop 2\n3 take 1 vacuuming : BEGIN\norder 0\ntables 0\nend\n",
        false,
    ),
    Judged(
        Asked::Caused,
        "scalardb report 1\nevents 2\n1 take 1 done : BEGIN\n2 take 2 opentransactions : VACUUM\norder 0\ntables 0\nend\n",
        true,
    ),
    // Reads of an unresolved record, and of one that isn't of the form of records.
    Judged(
        Asked::Caused,
        "scalardb report 1\nevents 4\n1 take 1 done : BEGIN\n2 take 1 - : SELECT * FROM bank.account WHERE id = 1\n3 call 1 ordered get bank.account(1) seen found bank.account(1){balance=100,tx_id='00000000-0000-0002-0000-000000000001',tx_prepared_at=0L,tx_state=1,tx_version=1} -\n4 call 1 ordered get coordinator.state('00000000-0000-0002-0000-000000000001') seen found none busy bank.account(1) 00000000-0000-0002-0000-000000000001 0\norder 0\ntables 0\nend\n",
        true,
    ),
    Judged(
        Asked::Caused,
        "scalardb report 1\nevents 5\n1 clock 14999\n2 take 1 done : BEGIN\n3 take 1 - : SELECT * FROM bank.account WHERE id = 1\n4 call 1 ordered get bank.account(1) seen found bank.account(1){balance=100,tx_id='00000000-0000-0002-0000-000000000001',tx_prepared_at=0L,tx_state=1,tx_version=1} -\n5 call 1 ordered get coordinator.state('00000000-0000-0002-0000-000000000001') seen found none busy bank.account(1) 00000000-0000-0002-0000-000000000001 0\norder 0\ntables 0\nend\n",
        true,
    ),
    Judged(
        Asked::Caused,
        "scalardb report 1\nevents 5\n1 clock 15000\n2 take 1 done : BEGIN\n3 take 1 - : SELECT * FROM bank.account WHERE id = 1\n4 call 1 ordered get bank.account(1) seen found bank.account(1){balance=100,tx_id='00000000-0000-0002-0000-000000000001',tx_prepared_at=0L,tx_state=1,tx_version=1} -\n5 call 1 ordered get coordinator.state('00000000-0000-0002-0000-000000000001') seen found none busy bank.account(1) 00000000-0000-0002-0000-000000000001 0\norder 0\ntables 0\nend\n",
        false,
    ),
    Judged(
        Asked::Caused,
        "scalardb report 1\nevents 3\n1 take 1 done : BEGIN\n2 take 1 - : SELECT * FROM bank.account WHERE id = 1\n3 call 1 ordered get bank.account(1) seen found none busy bank.account(1) 00000000-0000-0002-0000-000000000001 0\norder 0\ntables 0\nend\n",
        false,
    ),
    Judged(
        Asked::Caused,
        "scalardb report 1\nevents 3\n1 take 1 done : BEGIN\n2 take 1 - : SELECT * FROM bank.account WHERE id = 1\n3 call 1 ordered get bank.account(1) seen found none faulted\norder 0\ntables 0\nend\n",
        false,
    ),
    Judged(
        Asked::Caused,
        "scalardb report 1\nevents 3\n1 take 1 done : BEGIN\n2 take 1 - : SELECT * FROM bank.account WHERE id = 1\n3 call 1 ordered get bank.account(1) lost fault faulted\norder 0\ntables 0\nend\n",
        true,
    ),
    Judged(
        Asked::Caused,
        "scalardb report 1\nevents 3\n1 take 1 done : BEGIN\n2 take 1 - : SELECT * FROM bank.account WHERE id = 1\n3 call 1 ordered get bank.account(1) seen found bank.account(1){balance=5} badrecord bank.account(1)\norder 0\ntables 0\nend\n",
        true,
    ),
    Judged(
        Asked::Caused,
        "scalardb report 1\nevents 3\n1 take 1 done : BEGIN\n2 take 1 - : SELECT * FROM bank.account WHERE id = 1\n3 call 1 ordered get bank.account(1) seen found bank.account(1){balance=100,tx_id='00000000-0000-0002-0000-000000000001',tx_prepared_at=0L,tx_state=1,tx_version=1} badrecord bank.account(1)\norder 0\ntables 0\nend\n",
        false,
    ),
    Judged(
        Asked::Caused,
        "scalardb report 1\nevents 3\n1 take 1 done : BEGIN\n2 take 1 - : SELECT * FROM bank.account WHERE id = 1\n3 call 1 ordered get bank.account(1) seen found none conflict bank.account(1) none\norder 0\ntables 0\nend\n",
        false,
    ),
];

fn reads(alloc: Global) -> Result<(), Fail> {
    all_cases(alloc, "reads", READS.as_slice())
}

static COMMITS: [Judged; 10] = [
    // COMMITs.
    Judged(
        Asked::Caused,
        "scalardb report 1\nevents 2\n1 take 1 done : BEGIN\n2 take 1 conflict bank.account(1) none : COMMIT\norder 0\ntables 0\nend\n",
        false,
    ),
    Judged(
        Asked::Caused,
        "scalardb report 1\nevents 3\n1 take 1 done : BEGIN\n2 take 1 - : COMMIT\n3 call 1 ordered put coordinator.state('00000000-0000-0001-0000-000000000001'){tx_created_at=0L,tx_state=3} if absent seen applied committed\norder 0\ntables 0\nend\n",
        true,
    ),
    Judged(
        Asked::Caused,
        "scalardb report 1\nevents 3\n1 take 1 done : BEGIN\n2 take 1 - : COMMIT\n3 call 1 ordered put coordinator.state('00000000-0000-0001-0000-000000000001'){tx_created_at=0L,tx_state=3} if absent seen applied unknown 00000000-0000-0001-0000-000000000001\norder 0\ntables 0\nend\n",
        false,
    ),
    Judged(
        Asked::Caused,
        "scalardb report 1\nevents 4\n1 take 1 done : BEGIN\n2 take 1 - : COMMIT\n3 call 1 ordered put coordinator.state('00000000-0000-0001-0000-000000000001'){tx_created_at=0L,tx_state=3} if absent lost fault -\n4 call 1 ordered get coordinator.state('00000000-0000-0001-0000-000000000001') lost fault unknown 00000000-0000-0001-0000-000000000001\norder 0\ntables 0\nend\n",
        true,
    ),
    Judged(
        Asked::Caused,
        "scalardb report 1\nevents 3\n1 take 1 done : BEGIN\n2 take 1 - : COMMIT\n3 call 1 ordered put coordinator.state('00000000-0000-0001-0000-000000000001'){tx_created_at=0L,tx_state=3} if absent seen notmet coordinator.state('00000000-0000-0001-0000-000000000001'){tx_created_at=0L,tx_state=4} expired 00000000-0000-0001-0000-000000000001\norder 0\ntables 0\nend\n",
        true,
    ),
    Judged(
        Asked::Caused,
        "scalardb report 1\nevents 4\n1 take 1 done : BEGIN\n2 take 1 - : COMMIT\n3 call 1 ordered put coordinator.state('00000000-0000-0001-0000-000000000001'){tx_created_at=0L,tx_state=4} if absent lost fault -\n4 call 1 ordered put coordinator.state('00000000-0000-0001-0000-000000000001'){tx_created_at=0L,tx_state=3} if absent seen notmet coordinator.state('00000000-0000-0001-0000-000000000001'){tx_created_at=0L,tx_state=4} expired 00000000-0000-0001-0000-000000000001\norder 0\ntables 0\nend\n",
        false,
    ),
    // VACUUM, and other statements that count.
    Judged(
        Asked::Caused,
        "scalardb report 1\nevents 2\n1 take 1 - : VACUUM\n2 call 1 ordered scan bank.account seen rows 0 count 7\norder 0\ntables 0\nend\n",
        false,
    ),
    Judged(
        Asked::Caused,
        "scalardb report 1\nevents 3\n1 take 1 - : VACUUM\n2 call 1 ordered scan bank.account seen rows 1 bank.account(1){tx_committed_at=0L,tx_id='00000000-0000-0002-0000-000000000001',tx_prepared_at=0L,tx_state=3,tx_tombstone=TRUE,tx_version=2} -\n3 call 1 ordered delete bank.account(1) if 00000000-0000-0002-0000-000000000001 3 seen applied count 1\norder 0\ntables 0\nend\n",
        true,
    ),
    Judged(
        Asked::Caused,
        "scalardb report 1\nevents 3\n1 take 1 - : VACUUM\n2 call 1 ordered scan bank.account seen rows 1 bank.account(1){tx_committed_at=0L,tx_id='00000000-0000-0002-0000-000000000001',tx_prepared_at=0L,tx_state=3,tx_tombstone=TRUE,tx_version=2} -\n3 call 1 ordered delete bank.account(1) if 00000000-0000-0002-0000-000000000001 3 seen notmet none count 1\norder 0\ntables 0\nend\n",
        false,
    ),
    Judged(
        Asked::Caused,
        "scalardb report 1\nevents 3\n1 take 1 done : BEGIN\n2 take 1 - : SELECT * FROM bank.account WHERE id = 1\n3 call 1 ordered get bank.account(1) seen found none count 1\norder 0\ntables 0\nend\n",
        false,
    ),
];

fn commits(alloc: Global) -> Result<(), Fail> {
    all_cases(alloc, "commits", COMMITS.as_slice())
}

static NARROW: [Judged; 15] = [
    // Causes that hold narrowly: beside each true answer one that differs from it in little.
    Judged(
        Asked::Caused,
        "scalardb report 1\nevents 2\n1 take 1 done : BEGIN\n2 take 1 committed : COMMIT\norder 0\ntables 0\nend\n",
        false,
    ),
    Judged(
        Asked::Caused,
        "scalardb report 1\nevents 4\n1 take 1 done : BEGIN\n2 take 1 - : COMMIT\n3 call 1 ordered put coordinator.state('00000000-0000-0001-0000-000000000001'){tx_created_at=0L,tx_state=3} if absent lost fault -\n4 call 1 ordered get coordinator.state('00000000-0000-0001-0000-000000000001') seen found coordinator.state('00000000-0000-0001-0000-000000000001'){tx_created_at=0L,tx_state=3} committed\norder 0\ntables 0\nend\n",
        true,
    ),
    Judged(
        Asked::Caused,
        "scalardb report 1\nevents 3\n1 take 1 done : BEGIN\n2 take 1 - : COMMIT\n3 call 1 ordered put coordinator.state('00000000-0000-0001-0000-000000000001'){tx_created_at=0L,tx_state=3} if absent seen notmet coordinator.state('00000000-0000-0001-0000-000000000001'){tx_created_at=0L,tx_state=4} committed\norder 0\ntables 0\nend\n",
        false,
    ),
    Judged(
        Asked::Caused,
        "scalardb report 1\nevents 3\n1 take 1 done : BEGIN\n2 take 1 - : INSERT INTO bank.account (id, balance) VALUES (1, 100)\n3 call 1 ordered get bank.account(1) seen found none count 1\norder 0\ntables 0\nend\n",
        true,
    ),
    Judged(
        Asked::Caused,
        "scalardb report 1\nevents 3\n1 take 1 done : BEGIN\n2 take 1 - : INSERT INTO bank.account (id, balance) VALUES (1, 100)\n3 call 1 ordered get bank.account(1) seen found none count 2\norder 0\ntables 0\nend\n",
        false,
    ),
    Judged(
        Asked::Caused,
        "scalardb report 1\nevents 3\n1 take 1 done : BEGIN\n2 take 1 - : UPSERT INTO bank.account (id, balance) VALUES (1, 100)\n3 call 1 ordered get bank.account(1) seen found none count 0\norder 0\ntables 0\nend\n",
        false,
    ),
    Judged(
        Asked::Caused,
        "scalardb report 1\nevents 3\n1 take 1 done : BEGIN\n2 take 1 - : SELECT * FROM bank.account WHERE id = 1\n3 call 1 ordered get bank.account(1) seen found bank.account(1){balance='much',tx_committed_at=0L,tx_id='00000000-0000-0002-0000-000000000001',tx_prepared_at=0L,tx_state=3,tx_version=1} badrecord bank.account(1)\norder 0\ntables 0\nend\n",
        true,
    ),
    Judged(
        Asked::Caused,
        "scalardb report 1\nevents 5\n1 take 1 done : BEGIN\n2 take 1 - : SELECT * FROM bank.account WHERE id = 1\n3 call 1 ordered get bank.account(1) seen found bank.account(1){balance='much',tx_id='00000000-0000-0002-0000-000000000001',tx_prepared_at=0L,tx_state=1,tx_version=1} -\n4 call 1 ordered get coordinator.state('00000000-0000-0002-0000-000000000001') seen found coordinator.state('00000000-0000-0002-0000-000000000001'){tx_created_at=0L,tx_state=3} -\n5 call 1 ordered put bank.account(1){balance='much',tx_committed_at=0L,tx_id='00000000-0000-0002-0000-000000000001',tx_prepared_at=0L,tx_state=3,tx_version=1} if 00000000-0000-0002-0000-000000000001 1 seen applied badrecord bank.account(1)\norder 0\ntables 0\nend\n",
        true,
    ),
    Judged(
        Asked::Caused,
        "scalardb report 1\nevents 4\n1 take 1 done : BEGIN\n2 take 1 - : SELECT * FROM bank.account WHERE id = 1\n3 call 1 ordered get bank.account(1) seen found bank.account(1){balance='much',tx_id='00000000-0000-0002-0000-000000000001',tx_prepared_at=0L,tx_state=1,tx_version=1} -\n4 call 1 ordered get coordinator.state('00000000-0000-0002-0000-000000000001') seen found coordinator.state('00000000-0000-0002-0000-000000000001'){tx_created_at=0L,tx_state=3} badrecord bank.account(1)\norder 0\ntables 0\nend\n",
        false,
    ),
    Judged(
        Asked::Caused,
        "scalardb report 1\nevents 4\n1 take 1 done : BEGIN\n2 take 1 - : SELECT * FROM bank.account WHERE id = 1\n3 call 1 ordered get bank.account(1) seen found bank.account(1){balance='much',tx_id='00000000-0000-0002-0000-000000000001',tx_prepared_at=0L,tx_state=1,tx_version=1} -\n4 call 1 ordered get coordinator.state('00000000-0000-0002-0000-000000000001') seen found coordinator.state('00000000-0000-0002-0000-000000000001'){tx_created_at=0L,tx_state=4} badrecord bank.account(1)\norder 0\ntables 0\nend\n",
        false,
    ),
    Judged(
        Asked::Caused,
        "scalardb report 1\nevents 3\n1 take 1 done : BEGIN\n2 take 1 - : COMMIT\n3 call 1 ordered get bank.account(1) seen found bank.account(1){balance='much',tx_committed_at=0L,tx_id='00000000-0000-0002-0000-000000000001',tx_prepared_at=0L,tx_state=3,tx_version=1} badrecord bank.account(1)\norder 0\ntables 0\nend\n",
        false,
    ),
    Judged(
        Asked::Caused,
        "scalardb report 1\nevents 5\n1 take 1 done : BEGIN\n2 take 1 - : INSERT INTO bank.account (id, balance) VALUES (1, 100)\n3 call 1 ordered get bank.account(1) seen found none count 1\n4 take 1 - : COMMIT\n5 call 1 ordered put bank.account(1){balance=100,tx_id='00000000-0000-0001-0000-000000000001',tx_prepared_at=0L,tx_state=1,tx_version=1} if absent seen notmet bank.account(1){balance=100,tx_id='00000000-0000-0002-0000-000000000001',tx_prepared_at=0L,tx_state=1,tx_version=1} conflict bank.account(1) {balance=100,tx_id='00000000-0000-0002-0000-000000000001',tx_prepared_at=0L,tx_state=1,tx_version=1}\norder 0\ntables 0\nend\n",
        true,
    ),
    Judged(
        Asked::Caused,
        "scalardb report 1\nevents 6\n1 take 1 done : BEGIN\n2 take 1 - : INSERT INTO bank.account (id, balance) VALUES (1, 100)\n3 call 1 ordered get bank.account(1) seen found none count 1\n4 take 1 - : COMMIT\n5 call 1 ordered put bank.account(1){balance=100,tx_id='00000000-0000-0001-0000-000000000001',tx_prepared_at=0L,tx_state=1,tx_version=1} if absent seen applied -\n6 call 1 ordered get bank.account(1) seen found bank.account(1){balance=100,tx_id='00000000-0000-0001-0000-000000000001',tx_prepared_at=0L,tx_state=1,tx_version=1} conflict bank.account(1) {balance=100,tx_id='00000000-0000-0001-0000-000000000001',tx_prepared_at=0L,tx_state=1,tx_version=1}\norder 0\ntables 0\nend\n",
        false,
    ),
    Judged(
        Asked::Caused,
        "scalardb report 1\nevents 8\n1 take 1 done : BEGIN\n2 take 1 - : SELECT * FROM bank.account\n3 call 1 ordered scan bank.account seen rows 0 rows 0\n4 take 1 - : INSERT INTO bank.account (id, balance) VALUES (1, 100)\n5 call 1 ordered get bank.account(1) seen found none count 1\n6 take 1 - : COMMIT\n7 call 1 ordered put bank.account(1){balance=100,tx_id='00000000-0000-0001-0000-000000000001',tx_prepared_at=0L,tx_state=1,tx_version=1} if absent seen applied -\n8 call 1 ordered scan bank.account seen rows 1 bank.account(1){balance=100,tx_id='00000000-0000-0001-0000-000000000001',tx_prepared_at=0L,tx_state=1,tx_version=1} conflict bank.account(1) {balance=100,tx_id='00000000-0000-0001-0000-000000000001',tx_prepared_at=0L,tx_state=1,tx_version=1}\norder 0\ntables 0\nend\n",
        false,
    ),
    Judged(
        Asked::Caused,
        "scalardb report 1\nevents 5\n1 take 1 done : BEGIN\n2 take 1 - : SELECT * FROM bank.account WHERE id = 1\n3 call 1 ordered get bank.account(1) seen found none rows 0\n4 take 1 - : COMMIT\n5 call 1 ordered get bank.account(1) seen found bank.account(1){balance=100,tx_id='00000000-0000-0002-0000-000000000001',tx_prepared_at=0L,tx_state=1,tx_version=1} conflict bank.account(1) {balance=100,tx_id='00000000-0000-0002-0000-000000000001',tx_prepared_at=0L,tx_state=1,tx_version=1}\norder 0\ntables 0\nend\n",
        true,
    ),
];

fn narrow(alloc: Global) -> Result<(), Fail> {
    all_cases(alloc, "narrow", NARROW.as_slice())
}

static FULL: [Judged; 11] = [
    // Refusals of too many keys.
    Judged(
        Asked::Caused,
        "scalardb report 1\nevents 2\n1 take 1 done : BEGIN\n2 take 1 refused 15 0 : SELECT * FROM bank.account WHERE id = 1\norder 0\ntables 0\nend\n",
        false,
    ),
    Judged(
        Asked::Caused,
        "scalardb report 1\nevents 3\n1 take 1 done : BEGIN\n2 take 1 - : INSERT INTO bank.account (id, balance) VALUES (1, 100)\n3 call 1 ordered get bank.account(1) seen found none refused 15 0\norder 0\ntables 0\nend\n",
        false,
    ),
    Judged(
        Asked::Caused,
        "scalardb report 1\nevents 4\n1 take 1 done : BEGIN\n2 take 1 - : UPDATE bank.account SET balance = 7\n3 call 1 ordered scan bank.account seen rows 0 count 4095\n4 take 1 refused 15 0 : INSERT INTO bank.account (id, balance) VALUES (1, 100)\norder 0\ntables 0\nend\n",
        false,
    ),
    Judged(
        Asked::Caused,
        "scalardb report 1\nevents 4\n1 take 1 done : BEGIN\n2 take 1 - : UPDATE bank.account SET balance = 7\n3 call 1 ordered scan bank.account seen rows 0 count 4096\n4 take 1 refused 15 0 : INSERT INTO bank.account (id, balance) VALUES (1, 100)\norder 0\ntables 0\nend\n",
        true,
    ),
    Judged(
        Asked::Caused,
        "scalardb report 1\nevents 4\n1 take 1 done : BEGIN\n2 take 1 - : UPDATE bank.account SET balance = 7\n3 call 1 ordered scan bank.account seen rows 0 count 4096\n4 take 1 refused 15 3 : INSERT INTO bank.account (id, balance) VALUES (1, 100)\norder 0\ntables 0\nend\n",
        false,
    ),
    Judged(
        Asked::Caused,
        "scalardb report 1\nevents 5\n1 take 1 done : BEGIN\n2 take 1 - : UPDATE bank.account SET balance = 7\n3 call 1 ordered scan bank.account seen rows 0 count 4096\n4 take 1 - : UPDATE bank.account SET balance = 7 WHERE id = 1\n5 call 1 ordered get bank.account(1) seen found none refused 15 0\norder 0\ntables 0\nend\n",
        false,
    ),
    Judged(
        Asked::Caused,
        "scalardb report 1\nevents 5\n1 take 1 done : BEGIN\n2 take 1 - : UPDATE bank.account SET balance = 7\n3 call 1 ordered scan bank.account seen rows 0 count 4096\n4 take 1 - : UPDATE bank.account SET balance = 7 WHERE id = 1\n5 call 1 ordered get bank.account(1) seen found bank.account(1){tx_committed_at=0L,tx_id='00000000-0000-0002-0000-000000000001',tx_prepared_at=0L,tx_state=3,tx_tombstone=TRUE,tx_version=2} refused 15 0\norder 0\ntables 0\nend\n",
        true,
    ),
    // What the definitions take although no program answers it.
    Judged(
        Asked::Caused,
        "scalardb report 1\nevents 3\n1 take 1 done : BEGIN\n2 take 1 - : UPDATE bank.account SET balance = 7 WHERE id = 1\n3 call 1 ordered get bank.account(1) seen found none count 5\norder 0\ntables 0\nend\n",
        true,
    ),
    Judged(
        Asked::Caused,
        "scalardb report 1\nevents 3\n1 take 1 done : BEGIN\n2 take 1 - : INSERT INTO bank.account (id, balance) VALUES (1, 100)\n3 call 1 ordered get bank.account(1) seen found none duplicate bank.account(1)\norder 0\ntables 0\nend\n",
        true,
    ),
    Judged(
        Asked::Caused,
        "scalardb report 1\nevents 2\n1 take 1 done : BEGIN\n2 take 1 rows 1 (42) : SELECT * FROM bank.account WHERE id = 1\norder 0\ntables 0\nend\n",
        true,
    ),
    // A read whose statement was out of memory is not noted, so nothing found at its key is a conflict.
    Judged(
        Asked::Caused,
        "scalardb report 1\nevents 5\n1 take 1 done : BEGIN\n2 take 1 - : SELECT * FROM bank.account WHERE id = 1\n3 call 1 ordered get bank.account(1) seen found none nomemory\n4 take 1 - : COMMIT\n5 call 1 ordered get bank.account(1) seen found bank.account(1){balance=100,tx_id='00000000-0000-0002-0000-000000000001',tx_prepared_at=0L,tx_state=1,tx_version=1} conflict bank.account(1) {balance=100,tx_id='00000000-0000-0002-0000-000000000001',tx_prepared_at=0L,tx_state=1,tx_version=1}\norder 0\ntables 0\nend\n",
        false,
    ),
];

fn full(alloc: Global) -> Result<(), Fail> {
    all_cases(alloc, "full", FULL.as_slice())
}

#[test]
fn forged_answers(rt: HostRuntime) -> Result<(), Fail> {
    reads(rt.alloc())?;
    commits(rt.alloc())?;
    narrow(rt.alloc())?;
    full(rt.alloc())
}
