//! Whether calls are counted and records resolved: true events, and forged ones.
use crate::steps::{Asked, Judged};
use std::test::Fail;
use test_builders::all_cases;

// Whether the calls are counted, and whether the records are resolved.
static RUNS: [Judged; 6] = [
    // An unresolved record that is rolled forward before the answer.
    Judged(
        Asked::Rolled(true, true),
        "scalardb report 1\nevents 5\n1 take 1 done : BEGIN\n2 take 1 - : SELECT * FROM bank.account WHERE id = 1\n3 call 1 ordered get bank.account(1) seen found bank.account(1){balance=100,tx_id='00000000-0000-0002-0000-000000000001',tx_prepared_at=5L,tx_state=1,tx_version=1} -\n4 call 1 ordered get coordinator.state('00000000-0000-0002-0000-000000000001') seen found coordinator.state('00000000-0000-0002-0000-000000000001'){tx_created_at=5L,tx_state=3} -\n5 call 1 ordered put bank.account(1){balance=100,tx_committed_at=5L,tx_id='00000000-0000-0002-0000-000000000001',tx_prepared_at=5L,tx_state=3,tx_version=1} if 00000000-0000-0002-0000-000000000001 1 seen applied rows 1 (100,1)\norder 0\ntables 0\nend\n",
        true,
    ),
    // The answer comes without the roll.
    Judged(
        Asked::Rolled(true, false),
        "scalardb report 1\nevents 4\n1 take 1 done : BEGIN\n2 take 1 - : SELECT * FROM bank.account WHERE id = 1\n3 call 1 ordered get bank.account(1) seen found bank.account(1){balance=100,tx_id='00000000-0000-0002-0000-000000000001',tx_prepared_at=5L,tx_state=1,tx_version=1} -\n4 call 1 ordered get coordinator.state('00000000-0000-0002-0000-000000000001') seen found coordinator.state('00000000-0000-0002-0000-000000000001'){tx_created_at=5L,tx_state=3} rows 1 (100,1)\norder 0\ntables 0\nend\n",
        true,
    ),
    // The roll puts another record.
    Judged(
        Asked::Rolled(true, false),
        "scalardb report 1\nevents 5\n1 take 1 done : BEGIN\n2 take 1 - : SELECT * FROM bank.account WHERE id = 1\n3 call 1 ordered get bank.account(1) seen found bank.account(1){balance=100,tx_id='00000000-0000-0002-0000-000000000001',tx_prepared_at=5L,tx_state=1,tx_version=1} -\n4 call 1 ordered get coordinator.state('00000000-0000-0002-0000-000000000001') seen found coordinator.state('00000000-0000-0002-0000-000000000001'){tx_created_at=5L,tx_state=3} -\n5 call 1 ordered put bank.account(1){balance=100,tx_id='00000000-0000-0002-0000-000000000001',tx_prepared_at=5L,tx_state=1,tx_version=1} if 00000000-0000-0002-0000-000000000001 1 seen applied rows 1 (100,1)\norder 0\ntables 0\nend\n",
        true,
    ),
    // A read that is made twice.
    Judged(
        Asked::Rolled(false, true),
        "scalardb report 1\nevents 4\n1 take 1 done : BEGIN\n2 take 1 - : SELECT * FROM bank.account WHERE id = 1\n3 call 1 ordered get bank.account(1) seen found none -\n4 call 1 ordered get bank.account(1) seen found none rows 0\norder 0\ntables 0\nend\n",
        true,
    ),
    // A COMMIT of nothing that looks before it decides.
    Judged(
        Asked::Rolled(false, true),
        "scalardb report 1\nevents 4\n1 take 1 done : BEGIN\n2 take 1 - : COMMIT\n3 call 1 ordered get coordinator.state('00000000-0000-0002-0000-000000000001') seen found none -\n4 call 1 ordered put coordinator.state('00000000-0000-0002-0000-000000000001'){tx_created_at=5L,tx_state=3} if absent seen applied committed\norder 0\ntables 0\nend\n",
        true,
    ),
    // A call that the store failed.
    Judged(
        Asked::Broken(1),
        "scalardb report 1\nevents 3\n1 take 1 done : BEGIN\n2 take 1 - : SELECT * FROM bank.account WHERE id = 1\n3 call 1 ordered get bank.account(1) failed fault faulted\norder 0\ntables 0\nend\n",
        true,
    ),
];

#[test]
fn counts_and_rolls(rt: HostRuntime) -> Result<(), Fail> {
    all_cases(rt.alloc(), "runs", RUNS.as_slice())
}
