//! Scripts with their reports, and calls that end otherwise.
use crate::attached::{attach_all, gives};
use crate::run::{Bad, Call, End, On, REPLAY, RunCase, Stop, ends, is_line, run_call, stopped};
use sdb_app::Status;
use sdb_model::Which;
use sdb_stores::Stores;
use std::alloc::{AllocError, Global};
use std::test::Fail;
use test_builders::{Case, all_cases, hold};

const SCRIPT: &[u8] =
    b"schema {\"bank.account\":{\"partition-key\":[\"id\"],\"columns\":{\"id\":\"INT\",\"balance\":\"INT\"}}}\nclient a\n  BEGIN\n  INSERT INTO bank.account (id, balance) VALUES (1, 100)\n  COMMIT\nrun\nrest\n";

const REPORT: &[u8] =
    b"scalardb report 1\nevents 7\n1 take 1 done : BEGIN\n2 take 1 - : INSERT INTO bank.account (id, balance) VALUES (1, 100)\n3 call 1 ordered get bank.account(1) seen found none count 1\n4 take 1 - : COMMIT\n5 call 1 ordered put bank.account(1){balance=100,tx_id='00000000-0000-0001-0000-000000000001',tx_prepared_at=0L,tx_state=1,tx_version=1} if absent seen applied -\n6 call 1 ordered put coordinator.state('00000000-0000-0001-0000-000000000001'){tx_created_at=0L,tx_state=3} if absent seen applied -\n7 call 1 ordered put bank.account(1){balance=100,tx_committed_at=0L,tx_id='00000000-0000-0001-0000-000000000001',tx_prepared_at=0L,tx_state=3,tx_version=1} if 00000000-0000-0001-0000-000000000001 1 seen applied committed\norder 1\n00000000-0000-0001-0000-000000000001 5\ntables 1\ntable bank.account 1\n(100,1)\nend\n";

impl Case for RunCase {
    fn holds(self, alloc: Global) -> Result<bool, Fail> {
        gives(alloc, run_call(self))
    }
}

static PLAYED: [RunCase; 13] = [
    RunCase {
        on: On::Two,
        script: SCRIPT,
        written: REPORT,
    },
    // Extra reads.
    RunCase {
        on: On::Two,
        script: b"schema {\"bank.account\":{\"partition-key\":[\"id\"],\"columns\":{\"id\":\"INT\",\"balance\":\"INT\"}}}\nclient c1\n  BEGIN\n  INSERT INTO bank.account (id, balance) VALUES (1, 100)\n  COMMIT\n  BEGIN\n  SELECT balance FROM bank.account WHERE id = 1\n  SELECT balance FROM bank.account WHERE id = 2\n  COMMIT\nrun\nrest\n",
        written: b"scalardb report 1\nevents 16\n1 take 1 done : BEGIN\n2 take 1 - : INSERT INTO bank.account (id, balance) VALUES (1, 100)\n3 call 1 ordered get bank.account(1) seen found none count 1\n4 take 1 - : COMMIT\n5 call 1 ordered put bank.account(1){balance=100,tx_id='00000000-0000-0001-0000-000000000001',tx_prepared_at=0L,tx_state=1,tx_version=1} if absent seen applied -\n6 call 1 ordered put coordinator.state('00000000-0000-0001-0000-000000000001'){tx_created_at=0L,tx_state=3} if absent seen applied -\n7 call 1 ordered put bank.account(1){balance=100,tx_committed_at=0L,tx_id='00000000-0000-0001-0000-000000000001',tx_prepared_at=0L,tx_state=3,tx_version=1} if 00000000-0000-0001-0000-000000000001 1 seen applied committed\n8 take 1 done : BEGIN\n9 take 1 - : SELECT balance FROM bank.account WHERE id = 1\n10 call 1 ordered get bank.account(1) seen found bank.account(1){balance=100,tx_committed_at=0L,tx_id='00000000-0000-0001-0000-000000000001',tx_prepared_at=0L,tx_state=3,tx_version=1} rows 1 (100)\n11 take 1 - : SELECT balance FROM bank.account WHERE id = 2\n12 call 1 ordered get bank.account(2) seen found none rows 0\n13 take 1 - : COMMIT\n14 call 1 ordered get bank.account(1) seen found bank.account(1){balance=100,tx_committed_at=0L,tx_id='00000000-0000-0001-0000-000000000001',tx_prepared_at=0L,tx_state=3,tx_version=1} -\n15 call 1 ordered get bank.account(2) seen found none -\n16 call 1 ordered put coordinator.state('00000000-0000-0001-0000-000000000002'){tx_created_at=0L,tx_state=3} if absent seen applied committed\norder 2\n00000000-0000-0001-0000-000000000001 5\n00000000-0000-0001-0000-000000000002 13\ntables 1\ntable bank.account 1\n(100,1)\nend\n",
    },
    // An insert of a row is a duplicate.
    RunCase {
        on: On::Two,
        script: b"schema {\"bank.account\":{\"partition-key\":[\"id\"],\"columns\":{\"id\":\"INT\",\"balance\":\"INT\"}}}\nclient a\n  BEGIN\n  INSERT INTO bank.account (id, balance) VALUES (1, 100)\n  COMMIT\n  BEGIN\n  INSERT INTO bank.account (id, balance) VALUES (1, 200)\n  INSERT INTO bank.account (id, balance) VALUES (1, 200)\n  COMMIT\nrun\nrest\n",
        written: b"scalardb report 1\nevents 14\n1 take 1 done : BEGIN\n2 take 1 - : INSERT INTO bank.account (id, balance) VALUES (1, 100)\n3 call 1 ordered get bank.account(1) seen found none count 1\n4 take 1 - : COMMIT\n5 call 1 ordered put bank.account(1){balance=100,tx_id='00000000-0000-0001-0000-000000000001',tx_prepared_at=0L,tx_state=1,tx_version=1} if absent seen applied -\n6 call 1 ordered put coordinator.state('00000000-0000-0001-0000-000000000001'){tx_created_at=0L,tx_state=3} if absent seen applied -\n7 call 1 ordered put bank.account(1){balance=100,tx_committed_at=0L,tx_id='00000000-0000-0001-0000-000000000001',tx_prepared_at=0L,tx_state=3,tx_version=1} if 00000000-0000-0001-0000-000000000001 1 seen applied committed\n8 take 1 done : BEGIN\n9 take 1 - : INSERT INTO bank.account (id, balance) VALUES (1, 200)\n10 call 1 ordered get bank.account(1) seen found bank.account(1){balance=100,tx_committed_at=0L,tx_id='00000000-0000-0001-0000-000000000001',tx_prepared_at=0L,tx_state=3,tx_version=1} duplicate bank.account(1)\n11 take 1 duplicate bank.account(1) : INSERT INTO bank.account (id, balance) VALUES (1, 200)\n12 take 1 - : COMMIT\n13 call 1 ordered get bank.account(1) seen found bank.account(1){balance=100,tx_committed_at=0L,tx_id='00000000-0000-0001-0000-000000000001',tx_prepared_at=0L,tx_state=3,tx_version=1} -\n14 call 1 ordered put coordinator.state('00000000-0000-0001-0000-000000000002'){tx_created_at=0L,tx_state=3} if absent seen applied committed\norder 2\n00000000-0000-0001-0000-000000000001 5\n00000000-0000-0001-0000-000000000002 12\ntables 1\ntable bank.account 1\n(100,1)\nend\n",
    },
    // The last transaction may lack its COMMIT.
    RunCase {
        on: On::Two,
        script: b"schema {\"bank.account\":{\"partition-key\":[\"id\"],\"columns\":{\"id\":\"INT\",\"balance\":\"INT\"}}}\nclient a\n  BEGIN\n  SELECT balance FROM bank.account WHERE id = 5\n  INSERT INTO bank.account (id, balance) VALUES (5, 7)\n  SELECT balance FROM bank.account WHERE id = 5\nrun\nrest\n",
        written: b"scalardb report 1\nevents 5\n1 take 1 done : BEGIN\n2 take 1 - : SELECT balance FROM bank.account WHERE id = 5\n3 call 1 ordered get bank.account(5) seen found none rows 0\n4 take 1 count 1 : INSERT INTO bank.account (id, balance) VALUES (5, 7)\n5 take 1 rows 1 (7) : SELECT balance FROM bank.account WHERE id = 5\norder 0\ntables 1\ntable bank.account 0\nend\n",
    },
    // The accounts are kept in one store, and the coordinator's rows in the first.
    RunCase {
        on: On::Two,
        script: b"place bank hashed\nschema {\"bank.account\":{\"partition-key\":[\"id\"],\"columns\":{\"id\":\"INT\",\"balance\":\"INT\"}}}\nclient a\n  BEGIN\n  INSERT INTO bank.account (id, balance) VALUES (1, 100)\n  COMMIT\nrun\nrest\n",
        written: b"scalardb report 1\nevents 7\n1 take 1 done : BEGIN\n2 take 1 - : INSERT INTO bank.account (id, balance) VALUES (1, 100)\n3 call 1 hashed get bank.account(1) seen found none count 1\n4 take 1 - : COMMIT\n5 call 1 hashed put bank.account(1){balance=100,tx_id='00000000-0000-0001-0000-000000000001',tx_prepared_at=0L,tx_state=1,tx_version=1} if absent seen applied -\n6 call 1 ordered put coordinator.state('00000000-0000-0001-0000-000000000001'){tx_created_at=0L,tx_state=3} if absent seen applied -\n7 call 1 hashed put bank.account(1){balance=100,tx_committed_at=0L,tx_id='00000000-0000-0001-0000-000000000001',tx_prepared_at=0L,tx_state=3,tx_version=1} if 00000000-0000-0001-0000-000000000001 1 seen applied committed\norder 1\n00000000-0000-0001-0000-000000000001 5\ntables 1\ntable bank.account 1\n(100,1)\nend\n",
    },
    // The accounts are moved to another box in the middle of a transaction, which is answered as on one store.
    RunCase {
        on: On::Four,
        script: b"place bank ordered\nplace shop ordered\nplace coordinator sqlite\nschema {\"bank.account\":{\"partition-key\":[\"id\"],\"columns\":{\"id\":\"INT\",\"balance\":\"INT\"}},\"shop.item\":{\"partition-key\":[\"cat\"],\"clustering-key\":[\"n\"],\"columns\":{\"cat\":\"INT\",\"n\":\"INT\",\"qty\":\"INT\"}}}\nclient a\n  BEGIN\n  INSERT INTO bank.account (id, balance) VALUES (1, 100)\n  INSERT INTO shop.item (cat, n, qty) VALUES (1, 9, 5)\n  SELECT * FROM bank.account\n  SELECT * FROM shop.item\n  COMMIT\nrun\nrest\n",
        written: b"scalardb report 1\nevents 17\n1 take 1 done : BEGIN\n2 take 1 - : INSERT INTO bank.account (id, balance) VALUES (1, 100)\n3 call 1 ordered get bank.account(1) seen found none count 1\n4 take 1 - : INSERT INTO shop.item (cat, n, qty) VALUES (1, 9, 5)\n5 call 1 ordered get shop.item(1;9) seen found none count 1\n6 take 1 - : SELECT * FROM bank.account\n7 call 1 ordered scan bank.account seen rows 0 rows 1 (100,1)\n8 take 1 - : SELECT * FROM shop.item\n9 call 1 ordered scan shop.item seen rows 0 rows 1 (1,9,5)\n10 take 1 - : COMMIT\n11 call 1 ordered put bank.account(1){balance=100,tx_id='00000000-0000-0001-0000-000000000001',tx_prepared_at=0L,tx_state=1,tx_version=1} if absent seen applied -\n12 call 1 ordered put shop.item(1;9){qty=5,tx_id='00000000-0000-0001-0000-000000000001',tx_prepared_at=0L,tx_state=1,tx_version=1} if absent seen applied -\n13 call 1 ordered scan bank.account seen rows 1 bank.account(1){balance=100,tx_id='00000000-0000-0001-0000-000000000001',tx_prepared_at=0L,tx_state=1,tx_version=1} -\n14 call 1 ordered scan shop.item seen rows 1 shop.item(1;9){qty=5,tx_id='00000000-0000-0001-0000-000000000001',tx_prepared_at=0L,tx_state=1,tx_version=1} -\n15 call 1 sqlite put coordinator.state('00000000-0000-0001-0000-000000000001'){tx_created_at=0L,tx_state=3} if absent seen applied -\n16 call 1 ordered put bank.account(1){balance=100,tx_committed_at=0L,tx_id='00000000-0000-0001-0000-000000000001',tx_prepared_at=0L,tx_state=3,tx_version=1} if 00000000-0000-0001-0000-000000000001 1 seen applied -\n17 call 1 ordered put shop.item(1;9){qty=5,tx_committed_at=0L,tx_id='00000000-0000-0001-0000-000000000001',tx_prepared_at=0L,tx_state=3,tx_version=1} if 00000000-0000-0001-0000-000000000001 1 seen applied committed\norder 1\n00000000-0000-0001-0000-000000000001 12\ntables 2\ntable bank.account 1\n(100,1)\ntable shop.item 1\n(1,9,5)\nend\n",
    },
    RunCase {
        on: On::Four,
        script: b"place bank sharded\nplace shop ordered\nplace coordinator sqlite\nschema {\"bank.account\":{\"partition-key\":[\"id\"],\"columns\":{\"id\":\"INT\",\"balance\":\"INT\"}},\"shop.item\":{\"partition-key\":[\"cat\"],\"clustering-key\":[\"n\"],\"columns\":{\"cat\":\"INT\",\"n\":\"INT\",\"qty\":\"INT\"}}}\nclient a\n  BEGIN\n  INSERT INTO bank.account (id, balance) VALUES (1, 100)\n  INSERT INTO shop.item (cat, n, qty) VALUES (1, 9, 5)\n  SELECT * FROM bank.account\n  SELECT * FROM shop.item\n  COMMIT\nrun\nrest\n",
        written: b"scalardb report 1\nevents 17\n1 take 1 done : BEGIN\n2 take 1 - : INSERT INTO bank.account (id, balance) VALUES (1, 100)\n3 call 1 sharded get bank.account(1) seen found none count 1\n4 take 1 - : INSERT INTO shop.item (cat, n, qty) VALUES (1, 9, 5)\n5 call 1 ordered get shop.item(1;9) seen found none count 1\n6 take 1 - : SELECT * FROM bank.account\n7 call 1 sharded scan bank.account seen rows 0 rows 1 (100,1)\n8 take 1 - : SELECT * FROM shop.item\n9 call 1 ordered scan shop.item seen rows 0 rows 1 (1,9,5)\n10 take 1 - : COMMIT\n11 call 1 sharded put bank.account(1){balance=100,tx_id='00000000-0000-0001-0000-000000000001',tx_prepared_at=0L,tx_state=1,tx_version=1} if absent seen applied -\n12 call 1 ordered put shop.item(1;9){qty=5,tx_id='00000000-0000-0001-0000-000000000001',tx_prepared_at=0L,tx_state=1,tx_version=1} if absent seen applied -\n13 call 1 sharded scan bank.account seen rows 1 bank.account(1){balance=100,tx_id='00000000-0000-0001-0000-000000000001',tx_prepared_at=0L,tx_state=1,tx_version=1} -\n14 call 1 ordered scan shop.item seen rows 1 shop.item(1;9){qty=5,tx_id='00000000-0000-0001-0000-000000000001',tx_prepared_at=0L,tx_state=1,tx_version=1} -\n15 call 1 sqlite put coordinator.state('00000000-0000-0001-0000-000000000001'){tx_created_at=0L,tx_state=3} if absent seen applied -\n16 call 1 sharded put bank.account(1){balance=100,tx_committed_at=0L,tx_id='00000000-0000-0001-0000-000000000001',tx_prepared_at=0L,tx_state=3,tx_version=1} if 00000000-0000-0001-0000-000000000001 1 seen applied -\n17 call 1 ordered put shop.item(1;9){qty=5,tx_committed_at=0L,tx_id='00000000-0000-0001-0000-000000000001',tx_prepared_at=0L,tx_state=3,tx_version=1} if 00000000-0000-0001-0000-000000000001 1 seen applied committed\norder 1\n00000000-0000-0001-0000-000000000001 12\ntables 2\ntable bank.account 1\n(100,1)\ntable shop.item 1\n(1,9,5)\nend\n",
    },
    // Further columns are NULL, and further tables stay empty; all are selected, in the order of their names.
    RunCase {
        on: On::Two,
        script: b"schema {\"shop.orders\":{\"partition-key\":[\"customer\"],\"clustering-key\":[\"n DESC\"],\"columns\":{\"customer\":\"TEXT\",\"n\":\"BIGINT\",\"total\":\"INT\"}},\"bank.account\":{\"partition-key\":[\"id\"],\"columns\":{\"id\":\"INT\",\"note\":\"TEXT\",\"active\":\"BOOLEAN\",\"balance\":\"INT\"}},\"aa.log\":{\"partition-key\":[\"n\"],\"columns\":{\"n\":\"BLOB\"}}}\nclient a\n  BEGIN\n  INSERT INTO bank.account (id, balance) VALUES (1, 100)\n  COMMIT\nrun\nrest\n",
        written: b"scalardb report 1\nevents 7\n1 take 1 done : BEGIN\n2 take 1 - : INSERT INTO bank.account (id, balance) VALUES (1, 100)\n3 call 1 ordered get bank.account(1) seen found none count 1\n4 take 1 - : COMMIT\n5 call 1 ordered put bank.account(1){balance=100,tx_id='00000000-0000-0001-0000-000000000001',tx_prepared_at=0L,tx_state=1,tx_version=1} if absent seen applied -\n6 call 1 ordered put coordinator.state('00000000-0000-0001-0000-000000000001'){tx_created_at=0L,tx_state=3} if absent seen applied -\n7 call 1 ordered put bank.account(1){balance=100,tx_committed_at=0L,tx_id='00000000-0000-0001-0000-000000000001',tx_prepared_at=0L,tx_state=3,tx_version=1} if 00000000-0000-0001-0000-000000000001 1 seen applied committed\norder 1\n00000000-0000-0001-0000-000000000001 5\ntables 3\ntable aa.log 0\ntable bank.account 1\n(NULL,100,1,NULL)\ntable shop.orders 0\nend\n",
    },
    // A client without statements.
    RunCase {
        on: On::Two,
        script: b"schema {\"aa.log\":{\"partition-key\":[\"n\"],\"columns\":{\"n\":\"BLOB\"}}}\nclient a\nrun\nrest\n",
        written: b"scalardb report 1\nevents 0\norder 0\ntables 1\ntable aa.log 0\nend\n",
    },
    // Nothing but `run`.
    RunCase {
        on: On::Two,
        script: b"run\n",
        written: b"scalardb report 1\nevents 0\norder 0\ntables 0\nend\n",
    },
    // The first script, where its read fails before its effect, and where it finds no memory.
    RunCase {
        on: On::Failing(3, false),
        script: SCRIPT,
        written: b"scalardb report 1\nevents 5\n1 take 1 done : BEGIN\n2 take 1 - : INSERT INTO bank.account (id, balance) VALUES (1, 100)\n3 call 1 ordered get bank.account(1) failed fault faulted\n4 take 1 - : COMMIT\n5 call 1 ordered put coordinator.state('00000000-0000-0001-0000-000000000001'){tx_created_at=0L,tx_state=3} if absent seen applied committed\norder 1\n00000000-0000-0001-0000-000000000001 4\ntables 1\ntable bank.account 0\nend\n",
    },
    RunCase {
        on: On::Short(3),
        script: SCRIPT,
        written: b"scalardb report 1\nevents 5\n1 take 1 done : BEGIN\n2 take 1 - : INSERT INTO bank.account (id, balance) VALUES (1, 100)\n3 call 1 ordered get bank.account(1) seen nomemory nomemory\n4 take 1 - : COMMIT\n5 call 1 ordered put coordinator.state('00000000-0000-0001-0000-000000000001'){tx_created_at=0L,tx_state=3} if absent seen applied committed\norder 1\n00000000-0000-0001-0000-000000000001 4\ntables 1\ntable bank.account 0\nend\n",
    },
    // A worked script, where the put that decides fails after its effect in place of its reply being lost.
    RunCase {
        on: On::Failing(9, true),
        script: b"schema {\"bank.account\":{\"partition-key\":[\"id\"],\"columns\":{\"id\":\"INT\",\"balance\":\"INT\"}}}\nclient c1\n  BEGIN\n  INSERT INTO bank.account (id, balance) VALUES (1, 100)\n  COMMIT\nclient c2\n  BEGIN\n  UPDATE bank.account SET balance = 7 WHERE id = 1\n  COMMIT\nrun\nstep 1 7\nstep 2 5\nstep 2\nrest\n",
        written: b"scalardb report 1\nevents 15\n1 take 1 done : BEGIN\n2 take 1 - : INSERT INTO bank.account (id, balance) VALUES (1, 100)\n3 call 1 ordered get bank.account(1) seen found none count 1\n4 take 1 - : COMMIT\n5 call 1 ordered put bank.account(1){balance=100,tx_id='00000000-0000-0001-0000-000000000001',tx_prepared_at=0L,tx_state=1,tx_version=1} if absent seen applied -\n6 call 1 ordered put coordinator.state('00000000-0000-0001-0000-000000000001'){tx_created_at=0L,tx_state=3} if absent seen applied -\n7 call 1 ordered put bank.account(1){balance=100,tx_committed_at=0L,tx_id='00000000-0000-0001-0000-000000000001',tx_prepared_at=0L,tx_state=3,tx_version=1} if 00000000-0000-0001-0000-000000000001 1 seen applied committed\n8 take 2 done : BEGIN\n9 take 2 - : UPDATE bank.account SET balance = 7 WHERE id = 1\n10 call 2 ordered get bank.account(1) seen found bank.account(1){balance=100,tx_committed_at=0L,tx_id='00000000-0000-0001-0000-000000000001',tx_prepared_at=0L,tx_state=3,tx_version=1} count 1\n11 take 2 - : COMMIT\n12 call 2 ordered put bank.account(1){balance=7,before_balance=100,before_tx_committed_at=0L,before_tx_id='00000000-0000-0001-0000-000000000001',before_tx_prepared_at=0L,before_tx_state=3,before_tx_version=1,tx_id='00000000-0000-0002-0000-000000000001',tx_prepared_at=0L,tx_state=1,tx_version=2} if 00000000-0000-0001-0000-000000000001 3 seen applied -\n13 call 2 ordered put coordinator.state('00000000-0000-0002-0000-000000000001'){tx_created_at=0L,tx_state=3} if absent failed fault -\n14 call 2 ordered get coordinator.state('00000000-0000-0002-0000-000000000001') seen found coordinator.state('00000000-0000-0002-0000-000000000001'){tx_created_at=0L,tx_state=3} -\n15 call 2 ordered put bank.account(1){balance=7,tx_committed_at=0L,tx_id='00000000-0000-0002-0000-000000000001',tx_prepared_at=0L,tx_state=3,tx_version=2} if 00000000-0000-0002-0000-000000000001 1 seen applied committed\norder 2\n00000000-0000-0001-0000-000000000001 5\n00000000-0000-0002-0000-000000000001 12\ntables 1\ntable bank.account 1\n(7,1)\nend\n",
    },
];

impl Case for Call<'static> {
    fn holds(self, alloc: Global) -> Result<bool, Fail> {
        gives(alloc, self)
    }
}

// Calls that end otherwise.
static STOPPED: [Call<'static>; 3] = [
    // A read that fails writes nothing, and a write that fails leaves a prefix.
    Call {
        on: On::Two,
        words: REPLAY,
        input: SCRIPT,
        reads_fail: &[2],
        writes_fail: &[],
        end: End::ReadFault,
        line: "read fault",
        code: 4,
        written: b"",
    },
    Call {
        on: On::Two,
        words: REPLAY,
        input: SCRIPT,
        reads_fail: &[],
        writes_fail: &[2],
        end: End::WriteFault,
        line: "write fault",
        code: 5,
        written: b"scalardb r",
    },
    // Other words are no call.
    Call {
        on: On::Two,
        words: &["Replay"],
        input: SCRIPT,
        reads_fail: &[],
        writes_fail: &[],
        end: End::Usage,
        line: "usage: scalardb replay | sql | schema [NS=STORE]... | load NS.TABLE insert|update|upsert N | export NS.TABLE | bench N | retire FROM TO | alter NS.TABLE COLUMN KIND",
        code: 2,
        written: b"",
    },
];

impl Case for Stop<'static> {
    fn holds(self, alloc: Global) -> Result<bool, Fail> {
        gives(alloc, stopped(self))
    }
}

// Scripts that are refused, and calls that scan a table, at the opening or for the closing dump: where such a call fails, or finds no
// memory, nothing is written.
static SCRIPTS_STOPPED: [Stop<'static>; 14] = [
    Stop {
        on: On::One,
        script: b"schema {}\nrest\nrun\n",
        end: End::BadInput(2, Bad::Form),
        line: "bad input at 2",
        code: 3,
    },
    Stop {
        on: On::One,
        script: b"run\nstep 1\n",
        end: End::BadInput(2, Bad::Form),
        line: "bad input at 2",
        code: 3,
    },
    // A place on no store.
    Stop {
        on: On::One,
        script: b"place bank other\nrun\n",
        end: End::BadInput(1, Bad::Store),
        line: "bad input at 1",
        code: 3,
    },
    Stop {
        on: On::One,
        script: b"client a\n  BEGIN\n  \xFF\nrun\n",
        end: End::BadInput(3, Bad::Text),
        line: "bad input at 3",
        code: 3,
    },
    Stop {
        on: On::One,
        script: b"schema {\"bank.account\":[]}\nrun\n",
        end: End::BadInput(1, Bad::Schema),
        line: "bad input at 1",
        code: 3,
    },
    Stop {
        on: On::One,
        script: b"client a\n",
        end: End::BadInput(2, Bad::Missing),
        line: "bad input at 2",
        code: 3,
    },
    Stop {
        on: On::Failing(1, false),
        script: SCRIPT,
        end: End::StoreFault,
        line: "store fault",
        code: 6,
    },
    Stop {
        on: On::Short(1),
        script: SCRIPT,
        end: End::NoMemory,
        line: "out of memory",
        code: 7,
    },
    Stop {
        on: On::Failing(2, false),
        script: SCRIPT,
        end: End::StoreFault,
        line: "store fault",
        code: 6,
    },
    Stop {
        on: On::Short(2),
        script: SCRIPT,
        end: End::NoMemory,
        line: "out of memory",
        code: 7,
    },
    Stop {
        on: On::Failing(7, false),
        script: SCRIPT,
        end: End::StoreFault,
        line: "store fault",
        code: 6,
    },
    Stop {
        on: On::Short(7),
        script: SCRIPT,
        end: End::NoMemory,
        line: "out of memory",
        code: 7,
    },
    Stop {
        on: On::Failing(8, false),
        script: SCRIPT,
        end: End::StoreFault,
        line: "store fault",
        code: 6,
    },
    Stop {
        on: On::Short(8),
        script: SCRIPT,
        end: End::NoMemory,
        line: "out of memory",
        code: 7,
    },
];

#[test]
fn scripts_have_their_reports(rt: HostRuntime) -> Result<(), Fail> {
    all_cases(rt.alloc(), "scripts", PLAYED.as_slice())
}

#[test]
fn calls_end_otherwise(rt: HostRuntime) -> Result<(), Fail> {
    all_cases(rt.alloc(), "other ends", STOPPED.as_slice())
}

#[test]
fn scripts_are_stopped(rt: HostRuntime) -> Result<(), Fail> {
    all_cases(rt.alloc(), "stopped scripts", SCRIPTS_STOPPED.as_slice())
}

// A script whose second line has so many bytes.
fn with_line(alloc: Global, bytes: usize) -> Result<String, AllocError> {
    let mut text = String::from_str(alloc, "client a\n")?;
    for _ in 0..bytes {
        text.push_str(" ")?;
    }
    text.push_str("\nrest\n")?;
    Ok(text)
}

// How a script with a line of so many bytes ends.
#[derive(Clone, Copy)]
struct Line {
    bytes: usize,
    end: End,
    line: &'static str,
    code: u8,
}

impl Line {
    fn stops(self, alloc: Global, script: &[u8]) -> Result<bool, Fail> {
        let stop = Stop {
            on: On::One,
            script,
            end: self.end,
            line: self.line,
            code: self.code,
        };
        gives(alloc, stopped(stop))
    }
}

impl Case for Line {
    fn holds(self, alloc: Global) -> Result<bool, Fail> {
        self.stops(alloc, with_line(alloc, self.bytes)?.as_str().as_bytes())
    }
}

static LINES: [Line; 2] = [
    Line {
        bytes: 65_536,
        end: End::BadInput(3, Bad::Form),
        line: "bad input at 3",
        code: 3,
    },
    Line {
        bytes: 65_537,
        end: End::Limit(2, Which::LineBytes),
        line: "limit at 2: LineBytes",
        code: 10,
    },
];

#[test]
fn a_line_has_at_most_so_many_bytes(rt: HostRuntime) -> Result<(), Fail> {
    all_cases(rt.alloc(), "lines", LINES.as_slice())
}

// A limit, and the line on standard error of a script beyond it.
#[derive(Clone, Copy)]
struct Limit {
    which: Which,
    line: &'static str,
}

impl Case for Limit {
    fn holds(self, alloc: Global) -> Result<bool, Fail> {
        Ok(is_line(alloc, &Status::Limit(7, self.which), self.line, 10))
    }
}

static LIMITS: [Limit; 5] = [
    Limit {
        which: Which::LineBytes,
        line: "limit at 7: LineBytes",
    },
    Limit {
        which: Which::InputBytes,
        line: "limit at 7: InputBytes",
    },
    Limit {
        which: Which::Clients,
        line: "limit at 7: Clients",
    },
    Limit {
        which: Which::Statements,
        line: "limit at 7: Statements",
    },
    Limit {
        which: Which::Moves,
        line: "limit at 7: Moves",
    },
];

#[test]
fn limits_have_names(rt: HostRuntime) -> Result<(), Fail> {
    all_cases(rt.alloc(), "limits", LIMITS.as_slice())
}

// The first script, run again on its stores.
fn refuses_again(alloc: Global, stores: &mut Stores) -> Result<bool, Fail> {
    let first = RunCase {
        on: On::One,
        script: SCRIPT,
        written: REPORT,
    };
    let again = Stop {
        on: On::One,
        script: SCRIPT,
        end: End::NotEmpty,
        line: "not empty: bank.account(1)",
        code: 8,
    };
    Ok(ends(alloc, stores, run_call(first))? && ends(alloc, stores, stopped(again))?)
}

fn is_not_empty(alloc: Global) -> Result<bool, Fail> {
    let mut stores = Stores::new(alloc);
    Ok(attach_all(alloc, &mut stores, On::One)? && refuses_again(alloc, &mut stores)?)
}

#[test]
fn a_table_with_records_is_not_empty(rt: HostRuntime) -> Result<(), Fail> {
    hold(is_not_empty(rt.alloc()))
}
