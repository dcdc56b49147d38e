//! Reads of rows that don't fit their table: the read stays, so later statements over the row are answered without a call, and COMMIT checks it.
use crate::claims::Claim;
use crate::steps::{Asked, Judged};
use std::alloc::Global;
use std::test::Fail;
use test_builders::all_cases;

static CAUSES: [Judged; 14] = [
    // Each statement that reads at the key is answered BadRecord, the first by its own read, and COMMIT conflicts where the record has changed.
    Judged(
        Asked::Caused,
        "scalardb report 1\nevents 4\n1 take 1 done : BEGIN\n2 take 1 - : SELECT * FROM bank.account WHERE id = 1\n3 call 1 ordered get bank.account(1) seen found bank.account(1){balance='much',tx_committed_at=0L,tx_id='00000000-0000-0002-0000-000000000001',tx_prepared_at=0L,tx_state=3,tx_version=1} badrecord bank.account(1)\n4 take 1 badrecord bank.account(1) : SELECT * FROM bank.account WHERE id = 1\norder 0\ntables 0\nend\n",
        true,
    ),
    Judged(
        Asked::Caused,
        "scalardb report 1\nevents 4\n1 take 1 done : BEGIN\n2 take 1 - : SELECT * FROM bank.account WHERE id = 1\n3 call 1 ordered get bank.account(1) seen found bank.account(1){balance='much',tx_committed_at=0L,tx_id='00000000-0000-0002-0000-000000000001',tx_prepared_at=0L,tx_state=3,tx_version=1} badrecord bank.account(1)\n4 take 1 badrecord bank.account(1) : INSERT INTO bank.account (id, balance) VALUES (1, 5)\norder 0\ntables 0\nend\n",
        true,
    ),
    Judged(
        Asked::Caused,
        "scalardb report 1\nevents 4\n1 take 1 done : BEGIN\n2 take 1 - : SELECT * FROM bank.account\n3 call 1 ordered scan bank.account seen rows 1 bank.account(1){balance='much',tx_committed_at=0L,tx_id='00000000-0000-0002-0000-000000000001',tx_prepared_at=0L,tx_state=3,tx_version=1} badrecord bank.account(1)\n4 take 1 badrecord bank.account(1) : SELECT * FROM bank.account\norder 0\ntables 0\nend\n",
        true,
    ),
    Judged(
        Asked::Caused,
        "scalardb report 1\nevents 6\n1 take 1 done : BEGIN\n2 take 1 - : SELECT * FROM bank.account WHERE id = 1\n3 call 1 ordered get bank.account(1) seen found bank.account(1){balance='much',tx_committed_at=0L,tx_id='00000000-0000-0002-0000-000000000001',tx_prepared_at=0L,tx_state=3,tx_version=1} badrecord bank.account(1)\n4 take 1 - : COMMIT\n5 call 1 ordered get bank.account(1) seen found none -\n6 call 1 ordered put coordinator.state('00000000-0000-0001-0000-000000000001'){tx_created_at=0L,tx_state=4} if absent seen applied conflict bank.account(1) none\norder 0\ntables 0\nend\n",
        true,
    ),
    // A statement that doesn't read at the key.
    Judged(
        Asked::Caused,
        "scalardb report 1\nevents 4\n1 take 1 done : BEGIN\n2 take 1 - : SELECT * FROM bank.account WHERE id = 1\n3 call 1 ordered get bank.account(1) seen found bank.account(1){balance='much',tx_committed_at=0L,tx_id='00000000-0000-0002-0000-000000000001',tx_prepared_at=0L,tx_state=3,tx_version=1} badrecord bank.account(1)\n4 take 1 badrecord bank.account(1) : SELECT * FROM bank.account WHERE id = 2\norder 0\ntables 0\nend\n",
        false,
    ),
    Judged(
        Asked::Caused,
        "scalardb report 1\nevents 4\n1 take 1 done : BEGIN\n2 take 1 - : SELECT * FROM bank.account WHERE id = 1\n3 call 1 ordered get bank.account(1) seen found bank.account(1){balance='much',tx_committed_at=0L,tx_id='00000000-0000-0002-0000-000000000001',tx_prepared_at=0L,tx_state=3,tx_version=1} badrecord bank.account(1)\n4 take 1 badrecord bank.account(1) : INSERT INTO bank.account (id, balance) VALUES (2, 5)\norder 0\ntables 0\nend\n",
        false,
    ),
    Judged(
        Asked::Caused,
        "scalardb report 1\nevents 4\n1 take 1 done : BEGIN\n2 take 1 - : SELECT * FROM bank.account WHERE id = 1\n3 call 1 ordered get bank.account(1) seen found bank.account(1){balance='much',tx_committed_at=0L,tx_id='00000000-0000-0002-0000-000000000001',tx_prepared_at=0L,tx_state=3,tx_version=1} badrecord bank.account(1)\n4 take 1 badrecord bank.account(1) : COMMIT\norder 0\ntables 0\nend\n",
        false,
    ),
    // The read of the statement itself at another key.
    Judged(
        Asked::Caused,
        "scalardb report 1\nevents 3\n1 take 1 done : BEGIN\n2 take 1 - : SELECT * FROM bank.account WHERE id = 2\n3 call 1 ordered get bank.account(1) seen found bank.account(1){balance='much',tx_committed_at=0L,tx_id='00000000-0000-0002-0000-000000000001',tx_prepared_at=0L,tx_state=3,tx_version=1} badrecord bank.account(1)\norder 0\ntables 0\nend\n",
        false,
    ),
    // A row that fits, beside one that doesn't.
    Judged(
        Asked::Caused,
        "scalardb report 1\nevents 3\n1 take 1 done : BEGIN\n2 take 1 - : SELECT * FROM bank.account\n3 call 1 ordered scan bank.account seen rows 2 bank.account(1){balance='much',tx_committed_at=0L,tx_id='00000000-0000-0002-0000-000000000001',tx_prepared_at=0L,tx_state=3,tx_version=1} bank.account(2){balance=5,tx_committed_at=0L,tx_id='00000000-0000-0002-0000-000000000001',tx_prepared_at=0L,tx_state=3,tx_version=1} badrecord bank.account(2)\norder 0\ntables 0\nend\n",
        false,
    ),
    // Nothing was read; or it was read later, or in another transaction, or by a statement that was out of memory.
    Judged(
        Asked::Caused,
        "scalardb report 1\nevents 2\n1 take 1 done : BEGIN\n2 take 1 badrecord bank.account(1) : SELECT * FROM bank.account WHERE id = 1\norder 0\ntables 0\nend\n",
        false,
    ),
    Judged(
        Asked::Caused,
        "scalardb report 1\nevents 4\n1 take 1 done : BEGIN\n2 take 1 badrecord bank.account(1) : SELECT * FROM bank.account WHERE id = 1\n3 take 1 - : SELECT * FROM bank.account WHERE id = 1\n4 call 1 ordered get bank.account(1) seen found bank.account(1){balance='much',tx_committed_at=0L,tx_id='00000000-0000-0002-0000-000000000001',tx_prepared_at=0L,tx_state=3,tx_version=1} badrecord bank.account(1)\norder 0\ntables 0\nend\n",
        false,
    ),
    Judged(
        Asked::Caused,
        "scalardb report 1\nevents 6\n1 take 1 done : BEGIN\n2 take 1 - : SELECT * FROM bank.account WHERE id = 1\n3 call 1 ordered get bank.account(1) seen found bank.account(1){balance='much',tx_committed_at=0L,tx_id='00000000-0000-0002-0000-000000000001',tx_prepared_at=0L,tx_state=3,tx_version=1} badrecord bank.account(1)\n4 take 1 done : ROLLBACK\n5 take 1 done : BEGIN\n6 take 1 badrecord bank.account(1) : SELECT * FROM bank.account WHERE id = 1\norder 0\ntables 0\nend\n",
        false,
    ),
    Judged(
        Asked::Caused,
        "scalardb report 1\nevents 4\n1 take 1 done : BEGIN\n2 take 1 - : SELECT * FROM bank.account WHERE id = 1\n3 call 1 ordered get bank.account(1) seen found bank.account(1){balance='much',tx_committed_at=0L,tx_id='00000000-0000-0002-0000-000000000001',tx_prepared_at=0L,tx_state=3,tx_version=1} nomemory\n4 take 1 badrecord bank.account(1) : SELECT * FROM bank.account WHERE id = 1\norder 0\ntables 0\nend\n",
        false,
    ),
    // A record that fails the checks ends its read, which isn't kept.
    Judged(
        Asked::Caused,
        "scalardb report 1\nevents 4\n1 take 1 done : BEGIN\n2 take 1 - : SELECT * FROM bank.account WHERE id = 1\n3 call 1 ordered get bank.account(1) seen found bank.account(1){balance=5} badrecord bank.account(1)\n4 take 1 badrecord bank.account(1) : SELECT * FROM bank.account WHERE id = 1\norder 0\ntables 0\nend\n",
        false,
    ),
];

fn causes(alloc: Global) -> Result<(), Fail> {
    all_cases(alloc, "causes", CAUSES.as_slice())
}

static CHECKS: [Judged; 5] = [
    // COMMIT makes one call for the read; the same without that call, and for a read that ended at a record which fails the checks.
    Judged(
        Asked::Kept,
        "scalardb report 1\nevents 7\n1 take 1 done : BEGIN\n2 take 1 - : SELECT * FROM bank.account WHERE id = 1\n3 call 1 ordered get bank.account(1) seen found bank.account(1){balance='much',tx_committed_at=0L,tx_id='00000000-0000-0002-0000-000000000001',tx_prepared_at=0L,tx_state=3,tx_version=1} badrecord bank.account(1)\n4 take 1 badrecord bank.account(1) : SELECT * FROM bank.account WHERE id = 1\n5 take 1 - : COMMIT\n6 call 1 ordered get bank.account(1) seen found bank.account(1){balance='much',tx_committed_at=0L,tx_id='00000000-0000-0002-0000-000000000001',tx_prepared_at=0L,tx_state=3,tx_version=1} -\n7 call 1 ordered put coordinator.state('00000000-0000-0001-0000-000000000001'){tx_created_at=0L,tx_state=3} if absent seen applied committed\norder 0\ntables 0\nend\n",
        true,
    ),
    Judged(
        Asked::Rolled(false, true),
        "scalardb report 1\nevents 6\n1 take 1 done : BEGIN\n2 take 1 - : SELECT * FROM bank.account WHERE id = 1\n3 call 1 ordered get bank.account(1) seen found bank.account(1){balance='much',tx_committed_at=0L,tx_id='00000000-0000-0002-0000-000000000001',tx_prepared_at=0L,tx_state=3,tx_version=1} badrecord bank.account(1)\n4 take 1 badrecord bank.account(1) : SELECT * FROM bank.account WHERE id = 1\n5 take 1 - : COMMIT\n6 call 1 ordered put coordinator.state('00000000-0000-0001-0000-000000000001'){tx_created_at=0L,tx_state=3} if absent seen applied committed\norder 0\ntables 0\nend\n",
        true,
    ),
    Judged(
        Asked::Kept,
        "scalardb report 1\nevents 7\n1 take 1 done : BEGIN\n2 take 1 - : SELECT * FROM bank.account\n3 call 1 ordered scan bank.account seen rows 1 bank.account(1){balance='much',tx_committed_at=0L,tx_id='00000000-0000-0002-0000-000000000001',tx_prepared_at=0L,tx_state=3,tx_version=1} badrecord bank.account(1)\n4 take 1 badrecord bank.account(1) : SELECT * FROM bank.account\n5 take 1 - : COMMIT\n6 call 1 ordered scan bank.account seen rows 1 bank.account(1){balance='much',tx_committed_at=0L,tx_id='00000000-0000-0002-0000-000000000001',tx_prepared_at=0L,tx_state=3,tx_version=1} -\n7 call 1 ordered put coordinator.state('00000000-0000-0001-0000-000000000001'){tx_created_at=0L,tx_state=3} if absent seen applied committed\norder 0\ntables 0\nend\n",
        true,
    ),
    Judged(
        Asked::Rolled(false, true),
        "scalardb report 1\nevents 6\n1 take 1 done : BEGIN\n2 take 1 - : SELECT * FROM bank.account\n3 call 1 ordered scan bank.account seen rows 1 bank.account(1){balance='much',tx_committed_at=0L,tx_id='00000000-0000-0002-0000-000000000001',tx_prepared_at=0L,tx_state=3,tx_version=1} badrecord bank.account(1)\n4 take 1 badrecord bank.account(1) : SELECT * FROM bank.account\n5 take 1 - : COMMIT\n6 call 1 ordered put coordinator.state('00000000-0000-0001-0000-000000000001'){tx_created_at=0L,tx_state=3} if absent seen applied committed\norder 0\ntables 0\nend\n",
        true,
    ),
    Judged(
        Asked::Kept,
        "scalardb report 1\nevents 5\n1 take 1 done : BEGIN\n2 take 1 - : SELECT * FROM bank.account WHERE id = 1\n3 call 1 ordered get bank.account(1) seen found bank.account(1){balance=5} badrecord bank.account(1)\n4 take 1 - : COMMIT\n5 call 1 ordered put coordinator.state('00000000-0000-0001-0000-000000000001'){tx_created_at=0L,tx_state=3} if absent seen applied committed\norder 0\ntables 0\nend\n",
        true,
    ),
];

fn checks(alloc: Global) -> Result<(), Fail> {
    all_cases(alloc, "checks", CHECKS.as_slice())
}

static CLAIMS: [Claim; 4] = [
    // The clients do so.
    Claim {
        script: "schema {\"bank.account\":{\"partition-key\":[\"id\"],\"columns\":{\"id\":\"INT\",\"balance\":\"INT\"}}}\nclient c1\n  BEGIN\n  SELECT * FROM bank.account WHERE id = 1\n  SELECT * FROM bank.account WHERE id = 1\n  COMMIT\nrun\nrest\n",
        report: "scalardb report 1\nevents 7\n1 take 1 done : BEGIN\n2 take 1 - : SELECT * FROM bank.account WHERE id = 1\n3 call 1 ordered get bank.account(1) seen found bank.account(1){balance='much',tx_committed_at=0L,tx_id='00000000-0000-0002-0000-000000000001',tx_prepared_at=0L,tx_state=3,tx_version=1} badrecord bank.account(1)\n4 take 1 badrecord bank.account(1) : SELECT * FROM bank.account WHERE id = 1\n5 take 1 - : COMMIT\n6 call 1 ordered get bank.account(1) seen found bank.account(1){balance='much',tx_committed_at=0L,tx_id='00000000-0000-0002-0000-000000000001',tx_prepared_at=0L,tx_state=3,tx_version=1} -\n7 call 1 ordered put coordinator.state('00000000-0000-0001-0000-000000000001'){tx_created_at=0L,tx_state=3} if absent seen applied committed\norder 0\ntables 0\nend\n",
        so: true,
    },
    Claim {
        script: "schema {\"bank.account\":{\"partition-key\":[\"id\"],\"columns\":{\"id\":\"INT\",\"balance\":\"INT\"}}}\nclient c1\n  BEGIN\n  SELECT * FROM bank.account\n  SELECT * FROM bank.account\n  COMMIT\nrun\nrest\n",
        report: "scalardb report 1\nevents 7\n1 take 1 done : BEGIN\n2 take 1 - : SELECT * FROM bank.account\n3 call 1 ordered scan bank.account seen rows 1 bank.account(1){balance='much',tx_committed_at=0L,tx_id='00000000-0000-0002-0000-000000000001',tx_prepared_at=0L,tx_state=3,tx_version=1} badrecord bank.account(1)\n4 take 1 badrecord bank.account(1) : SELECT * FROM bank.account\n5 take 1 - : COMMIT\n6 call 1 ordered scan bank.account seen rows 1 bank.account(1){balance='much',tx_committed_at=0L,tx_id='00000000-0000-0002-0000-000000000001',tx_prepared_at=0L,tx_state=3,tx_version=1} -\n7 call 1 ordered put coordinator.state('00000000-0000-0001-0000-000000000001'){tx_created_at=0L,tx_state=3} if absent seen applied committed\norder 0\ntables 0\nend\n",
        so: true,
    },
    // The second SELECT reads again.
    Claim {
        script: "schema {\"bank.account\":{\"partition-key\":[\"id\"],\"columns\":{\"id\":\"INT\",\"balance\":\"INT\"}}}\nclient c1\n  BEGIN\n  SELECT * FROM bank.account WHERE id = 1\n  SELECT * FROM bank.account WHERE id = 1\n  COMMIT\nrun\nrest\n",
        report: "scalardb report 1\nevents 8\n1 take 1 done : BEGIN\n2 take 1 - : SELECT * FROM bank.account WHERE id = 1\n3 call 1 ordered get bank.account(1) seen found bank.account(1){balance='much',tx_committed_at=0L,tx_id='00000000-0000-0002-0000-000000000001',tx_prepared_at=0L,tx_state=3,tx_version=1} badrecord bank.account(1)\n4 take 1 - : SELECT * FROM bank.account WHERE id = 1\n5 call 1 ordered get bank.account(1) seen found bank.account(1){balance='much',tx_committed_at=0L,tx_id='00000000-0000-0002-0000-000000000001',tx_prepared_at=0L,tx_state=3,tx_version=1} badrecord bank.account(1)\n6 take 1 - : COMMIT\n7 call 1 ordered get bank.account(1) seen found bank.account(1){balance='much',tx_committed_at=0L,tx_id='00000000-0000-0002-0000-000000000001',tx_prepared_at=0L,tx_state=3,tx_version=1} -\n8 call 1 ordered put coordinator.state('00000000-0000-0001-0000-000000000001'){tx_created_at=0L,tx_state=3} if absent seen applied committed\norder 0\ntables 0\nend\n",
        so: false,
    },
    // COMMIT makes no call for the read.
    Claim {
        script: "schema {\"bank.account\":{\"partition-key\":[\"id\"],\"columns\":{\"id\":\"INT\",\"balance\":\"INT\"}}}\nclient c1\n  BEGIN\n  SELECT * FROM bank.account WHERE id = 1\n  SELECT * FROM bank.account WHERE id = 1\n  COMMIT\nrun\nrest\n",
        report: "scalardb report 1\nevents 6\n1 take 1 done : BEGIN\n2 take 1 - : SELECT * FROM bank.account WHERE id = 1\n3 call 1 ordered get bank.account(1) seen found bank.account(1){balance='much',tx_committed_at=0L,tx_id='00000000-0000-0002-0000-000000000001',tx_prepared_at=0L,tx_state=3,tx_version=1} badrecord bank.account(1)\n4 take 1 badrecord bank.account(1) : SELECT * FROM bank.account WHERE id = 1\n5 take 1 - : COMMIT\n6 call 1 ordered put coordinator.state('00000000-0000-0001-0000-000000000001'){tx_created_at=0L,tx_state=3} if absent seen applied committed\norder 0\ntables 0\nend\n",
        so: false,
    },
];

#[test]
fn misfits_are_kept(rt: HostRuntime) -> Result<(), Fail> {
    causes(rt.alloc())?;
    checks(rt.alloc())?;
    all_cases(rt.alloc(), "claims", CLAIMS.as_slice())
}
