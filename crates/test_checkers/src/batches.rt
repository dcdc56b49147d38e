//! Reports of COMMITs that put two rows of a partition by one call: true ones, and forged ones.
use crate::steps::{Asked, Judged};
use sdb_judge::{Promise, Verdict, judge};
use std::alloc::Global;
use std::test::Fail;
use test_builders::{Case, all_cases};

// Two rows are prepared by one call, and a third by another.
static KEPT: [Judged; 2] = [
    // They are committed.
    Judged(
        Asked::KeptInShop,
        "scalardb report 1\nevents 13\n1 take 1 done : BEGIN\n2 take 1 - : INSERT INTO shop.item (cat, n) VALUES (1, 1)\n3 call 1 ordered get shop.item(1;1) seen found none count 1\n4 take 1 - : INSERT INTO shop.item (cat, n) VALUES (2, 1)\n5 call 1 ordered get shop.item(2;1) seen found none count 1\n6 take 1 - : INSERT INTO shop.item (cat, n) VALUES (1, 2)\n7 call 1 ordered get shop.item(1;2) seen found none count 1\n8 take 1 - : COMMIT\n9 call 1 ordered putall 2 shop.item(1;1){tx_id='00000000-0000-0001-0000-000000000001',tx_prepared_at=0L,tx_state=1,tx_version=1} if absent shop.item(1;2){tx_id='00000000-0000-0001-0000-000000000001',tx_prepared_at=0L,tx_state=1,tx_version=1} if absent seen applied -\n10 call 1 ordered put shop.item(2;1){tx_id='00000000-0000-0001-0000-000000000001',tx_prepared_at=0L,tx_state=1,tx_version=1} if absent seen applied -\n11 call 1 ordered put coordinator.state('00000000-0000-0001-0000-000000000001'){tx_created_at=0L,tx_state=3} if absent seen applied -\n12 call 1 ordered putall 2 shop.item(1;1){tx_committed_at=0L,tx_id='00000000-0000-0001-0000-000000000001',tx_prepared_at=0L,tx_state=3,tx_version=1} if 00000000-0000-0001-0000-000000000001 1 shop.item(1;2){tx_committed_at=0L,tx_id='00000000-0000-0001-0000-000000000001',tx_prepared_at=0L,tx_state=3,tx_version=1} if 00000000-0000-0001-0000-000000000001 1 seen applied -\n13 call 1 ordered put shop.item(2;1){tx_committed_at=0L,tx_id='00000000-0000-0001-0000-000000000001',tx_prepared_at=0L,tx_state=3,tx_version=1} if 00000000-0000-0001-0000-000000000001 1 seen applied committed\norder 0\ntables 0\nend\n",
        true,
    ),
    // Neither is put where the second is there already.
    Judged(
        Asked::KeptInShop,
        "scalardb report 1\nevents 17\n1 take 1 done : BEGIN\n2 take 1 - : INSERT INTO shop.item (cat, n) VALUES (1, 1)\n3 call 1 ordered get shop.item(1;1) seen found none count 1\n4 take 1 - : INSERT INTO shop.item (cat, n) VALUES (2, 1)\n5 call 1 ordered get shop.item(2;1) seen found none count 1\n6 take 1 - : INSERT INTO shop.item (cat, n) VALUES (1, 2)\n7 call 1 ordered get shop.item(1;2) seen found none count 1\n8 take 1 - : COMMIT\n9 take 2 done : BEGIN\n10 take 2 - : INSERT INTO shop.item (cat, n) VALUES (1, 2)\n11 call 2 ordered get shop.item(1;2) seen found none count 1\n12 take 2 - : COMMIT\n13 call 2 ordered put shop.item(1;2){tx_id='00000000-0000-0002-0000-000000000001',tx_prepared_at=0L,tx_state=1,tx_version=1} if absent seen applied -\n14 call 2 ordered put coordinator.state('00000000-0000-0002-0000-000000000001'){tx_created_at=0L,tx_state=3} if absent seen applied -\n15 call 2 ordered put shop.item(1;2){tx_committed_at=0L,tx_id='00000000-0000-0002-0000-000000000001',tx_prepared_at=0L,tx_state=3,tx_version=1} if 00000000-0000-0002-0000-000000000001 1 seen applied committed\n16 call 1 ordered putall 2 shop.item(1;1){tx_id='00000000-0000-0001-0000-000000000001',tx_prepared_at=0L,tx_state=1,tx_version=1} if absent shop.item(1;2){tx_id='00000000-0000-0001-0000-000000000001',tx_prepared_at=0L,tx_state=1,tx_version=1} if absent seen notall 2 shop.item(1;2){tx_committed_at=0L,tx_id='00000000-0000-0002-0000-000000000001',tx_prepared_at=0L,tx_state=3,tx_version=1} -\n17 call 1 ordered put coordinator.state('00000000-0000-0001-0000-000000000001'){tx_created_at=0L,tx_state=4} if absent seen applied conflict shop.item(1;2) {tx_committed_at=0L,tx_id='00000000-0000-0002-0000-000000000001',tx_prepared_at=0L,tx_state=3,tx_version=1}\norder 0\ntables 0\nend\n",
        true,
    ),
];

static COUNTS: [Judged; 2] = [
    // Two rows that one call prepared are rolled forward by a call each.
    Judged(
        Asked::Rolled(false, true),
        "scalardb report 1\nevents 14\n1 take 1 done : BEGIN\n2 take 1 - : INSERT INTO shop.item (cat, n) VALUES (1, 1)\n3 call 1 ordered get shop.item(1;1) seen found none count 1\n4 take 1 - : INSERT INTO shop.item (cat, n) VALUES (2, 1)\n5 call 1 ordered get shop.item(2;1) seen found none count 1\n6 take 1 - : INSERT INTO shop.item (cat, n) VALUES (1, 2)\n7 call 1 ordered get shop.item(1;2) seen found none count 1\n8 take 1 - : COMMIT\n9 call 1 ordered putall 2 shop.item(1;1){tx_id='00000000-0000-0001-0000-000000000001',tx_prepared_at=0L,tx_state=1,tx_version=1} if absent shop.item(1;2){tx_id='00000000-0000-0001-0000-000000000001',tx_prepared_at=0L,tx_state=1,tx_version=1} if absent seen applied -\n10 call 1 ordered put shop.item(2;1){tx_id='00000000-0000-0001-0000-000000000001',tx_prepared_at=0L,tx_state=1,tx_version=1} if absent seen applied -\n11 call 1 ordered put coordinator.state('00000000-0000-0001-0000-000000000001'){tx_created_at=0L,tx_state=3} if absent seen applied -\n12 call 1 ordered put shop.item(1;1){tx_committed_at=0L,tx_id='00000000-0000-0001-0000-000000000001',tx_prepared_at=0L,tx_state=3,tx_version=1} if 00000000-0000-0001-0000-000000000001 1 seen applied -\n13 call 1 ordered put shop.item(1;2){tx_committed_at=0L,tx_id='00000000-0000-0001-0000-000000000001',tx_prepared_at=0L,tx_state=3,tx_version=1} if 00000000-0000-0001-0000-000000000001 1 seen applied -\n14 call 1 ordered put shop.item(2;1){tx_committed_at=0L,tx_id='00000000-0000-0001-0000-000000000001',tx_prepared_at=0L,tx_state=3,tx_version=1} if 00000000-0000-0001-0000-000000000001 1 seen applied committed\norder 0\ntables 0\nend\n",
        true,
    ),
    // Each row is prepared and rolled forward by a call of its own.
    Judged(
        Asked::Rolled(true, true),
        "scalardb report 1\nevents 15\n1 take 1 done : BEGIN\n2 take 1 - : INSERT INTO shop.item (cat, n) VALUES (1, 1)\n3 call 1 ordered get shop.item(1;1) seen found none count 1\n4 take 1 - : INSERT INTO shop.item (cat, n) VALUES (2, 1)\n5 call 1 ordered get shop.item(2;1) seen found none count 1\n6 take 1 - : INSERT INTO shop.item (cat, n) VALUES (1, 2)\n7 call 1 ordered get shop.item(1;2) seen found none count 1\n8 take 1 - : COMMIT\n9 call 1 ordered put shop.item(1;1){tx_id='00000000-0000-0001-0000-000000000001',tx_prepared_at=0L,tx_state=1,tx_version=1} if absent seen applied -\n10 call 1 ordered put shop.item(1;2){tx_id='00000000-0000-0001-0000-000000000001',tx_prepared_at=0L,tx_state=1,tx_version=1} if absent seen applied -\n11 call 1 ordered put shop.item(2;1){tx_id='00000000-0000-0001-0000-000000000001',tx_prepared_at=0L,tx_state=1,tx_version=1} if absent seen applied -\n12 call 1 ordered put coordinator.state('00000000-0000-0001-0000-000000000001'){tx_created_at=0L,tx_state=3} if absent seen applied -\n13 call 1 ordered put shop.item(1;1){tx_committed_at=0L,tx_id='00000000-0000-0001-0000-000000000001',tx_prepared_at=0L,tx_state=3,tx_version=1} if 00000000-0000-0001-0000-000000000001 1 seen applied -\n14 call 1 ordered put shop.item(1;2){tx_committed_at=0L,tx_id='00000000-0000-0001-0000-000000000001',tx_prepared_at=0L,tx_state=3,tx_version=1} if 00000000-0000-0001-0000-000000000001 1 seen applied -\n15 call 1 ordered put shop.item(2;1){tx_committed_at=0L,tx_id='00000000-0000-0001-0000-000000000001',tx_prepared_at=0L,tx_state=3,tx_version=1} if 00000000-0000-0001-0000-000000000001 1 seen applied committed\norder 0\ntables 0\nend\n",
        true,
    ),
];

static FORGED: [Judged; 2] = [
    // The reply names the place of another key than was found.
    Judged(
        Asked::KeptInShop,
        "scalardb report 1\nevents 17\n1 take 1 done : BEGIN\n2 take 1 - : INSERT INTO shop.item (cat, n) VALUES (1, 1)\n3 call 1 ordered get shop.item(1;1) seen found none count 1\n4 take 1 - : INSERT INTO shop.item (cat, n) VALUES (2, 1)\n5 call 1 ordered get shop.item(2;1) seen found none count 1\n6 take 1 - : INSERT INTO shop.item (cat, n) VALUES (1, 2)\n7 call 1 ordered get shop.item(1;2) seen found none count 1\n8 take 1 - : COMMIT\n9 take 2 done : BEGIN\n10 take 2 - : INSERT INTO shop.item (cat, n) VALUES (1, 2)\n11 call 2 ordered get shop.item(1;2) seen found none count 1\n12 take 2 - : COMMIT\n13 call 2 ordered put shop.item(1;2){tx_id='00000000-0000-0002-0000-000000000001',tx_prepared_at=0L,tx_state=1,tx_version=1} if absent seen applied -\n14 call 2 ordered put coordinator.state('00000000-0000-0002-0000-000000000001'){tx_created_at=0L,tx_state=3} if absent seen applied -\n15 call 2 ordered put shop.item(1;2){tx_committed_at=0L,tx_id='00000000-0000-0002-0000-000000000001',tx_prepared_at=0L,tx_state=3,tx_version=1} if 00000000-0000-0002-0000-000000000001 1 seen applied committed\n16 call 1 ordered putall 2 shop.item(1;1){tx_id='00000000-0000-0001-0000-000000000001',tx_prepared_at=0L,tx_state=1,tx_version=1} if absent shop.item(1;2){tx_id='00000000-0000-0001-0000-000000000001',tx_prepared_at=0L,tx_state=1,tx_version=1} if absent seen notall 1 shop.item(1;2){tx_committed_at=0L,tx_id='00000000-0000-0002-0000-000000000001',tx_prepared_at=0L,tx_state=3,tx_version=1} -\n17 call 1 ordered put coordinator.state('00000000-0000-0001-0000-000000000001'){tx_created_at=0L,tx_state=4} if absent seen applied conflict shop.item(1;2) {tx_committed_at=0L,tx_id='00000000-0000-0002-0000-000000000001',tx_prepared_at=0L,tx_state=3,tx_version=1}\norder 0\ntables 0\nend\n",
        false,
    ),
    // The answer names the key whose condition was met.
    Judged(
        Asked::KeptInShop,
        "scalardb report 1\nevents 17\n1 take 1 done : BEGIN\n2 take 1 - : INSERT INTO shop.item (cat, n) VALUES (1, 1)\n3 call 1 ordered get shop.item(1;1) seen found none count 1\n4 take 1 - : INSERT INTO shop.item (cat, n) VALUES (2, 1)\n5 call 1 ordered get shop.item(2;1) seen found none count 1\n6 take 1 - : INSERT INTO shop.item (cat, n) VALUES (1, 2)\n7 call 1 ordered get shop.item(1;2) seen found none count 1\n8 take 1 - : COMMIT\n9 take 2 done : BEGIN\n10 take 2 - : INSERT INTO shop.item (cat, n) VALUES (1, 2)\n11 call 2 ordered get shop.item(1;2) seen found none count 1\n12 take 2 - : COMMIT\n13 call 2 ordered put shop.item(1;2){tx_id='00000000-0000-0002-0000-000000000001',tx_prepared_at=0L,tx_state=1,tx_version=1} if absent seen applied -\n14 call 2 ordered put coordinator.state('00000000-0000-0002-0000-000000000001'){tx_created_at=0L,tx_state=3} if absent seen applied -\n15 call 2 ordered put shop.item(1;2){tx_committed_at=0L,tx_id='00000000-0000-0002-0000-000000000001',tx_prepared_at=0L,tx_state=3,tx_version=1} if 00000000-0000-0002-0000-000000000001 1 seen applied committed\n16 call 1 ordered putall 2 shop.item(1;1){tx_id='00000000-0000-0001-0000-000000000001',tx_prepared_at=0L,tx_state=1,tx_version=1} if absent shop.item(1;2){tx_id='00000000-0000-0001-0000-000000000001',tx_prepared_at=0L,tx_state=1,tx_version=1} if absent seen notall 2 shop.item(1;2){tx_committed_at=0L,tx_id='00000000-0000-0002-0000-000000000001',tx_prepared_at=0L,tx_state=3,tx_version=1} -\n17 call 1 ordered put coordinator.state('00000000-0000-0001-0000-000000000001'){tx_created_at=0L,tx_state=4} if absent seen applied conflict shop.item(1;1) {tx_committed_at=0L,tx_id='00000000-0000-0002-0000-000000000001',tx_prepared_at=0L,tx_state=3,tx_version=1}\norder 0\ntables 0\nend\n",
        false,
    ),
];

#[test]
fn batches_are_kept(rt: HostRuntime) -> Result<(), Fail> {
    all_cases(rt.alloc(), "kept", KEPT.as_slice())
}

#[test]
fn batches_are_counted(rt: HostRuntime) -> Result<(), Fail> {
    all_cases(rt.alloc(), "counts", COUNTS.as_slice())
}

#[test]
fn batches_have_causes(rt: HostRuntime) -> Result<(), Fail> {
    all_cases(rt.alloc(), "forged", FORGED.as_slice())
}

/// A script with the report of it, and the verdict on them.
#[derive(Clone, Copy)]
struct Whole(&'static str, Verdict);

impl Case for Whole {
    fn holds(self, alloc: Global) -> Result<bool, Fail> {
        Ok(judge(alloc, self.0.as_bytes())? == self.1)
    }
}

static TRUE: [Whole; 2] = [
    Whole(
        "schema {\"shop.item\":{\"partition-key\":[\"cat\"],\"clustering-key\":[\"n\"],\"columns\":{\"cat\":\"INT\",\"n\":\"INT\",\"qty\":\"INT\"}}}\nclient c1\n  BEGIN\n  INSERT INTO shop.item (cat, n) VALUES (1, 1)\n  INSERT INTO shop.item (cat, n) VALUES (2, 1)\n  INSERT INTO shop.item (cat, n) VALUES (1, 2)\n  COMMIT\nrun\nrest\nscalardb report 1\nevents 13\n1 take 1 done : BEGIN\n2 take 1 - : INSERT INTO shop.item (cat, n) VALUES (1, 1)\n3 call 1 ordered get shop.item(1;1) seen found none count 1\n4 take 1 - : INSERT INTO shop.item (cat, n) VALUES (2, 1)\n5 call 1 ordered get shop.item(2;1) seen found none count 1\n6 take 1 - : INSERT INTO shop.item (cat, n) VALUES (1, 2)\n7 call 1 ordered get shop.item(1;2) seen found none count 1\n8 take 1 - : COMMIT\n9 call 1 ordered putall 2 shop.item(1;1){tx_id='00000000-0000-0001-0000-000000000001',tx_prepared_at=0L,tx_state=1,tx_version=1} if absent shop.item(1;2){tx_id='00000000-0000-0001-0000-000000000001',tx_prepared_at=0L,tx_state=1,tx_version=1} if absent seen applied -\n10 call 1 ordered put shop.item(2;1){tx_id='00000000-0000-0001-0000-000000000001',tx_prepared_at=0L,tx_state=1,tx_version=1} if absent seen applied -\n11 call 1 ordered put coordinator.state('00000000-0000-0001-0000-000000000001'){tx_created_at=0L,tx_state=3} if absent seen applied -\n12 call 1 ordered putall 2 shop.item(1;1){tx_committed_at=0L,tx_id='00000000-0000-0001-0000-000000000001',tx_prepared_at=0L,tx_state=3,tx_version=1} if 00000000-0000-0001-0000-000000000001 1 shop.item(1;2){tx_committed_at=0L,tx_id='00000000-0000-0001-0000-000000000001',tx_prepared_at=0L,tx_state=3,tx_version=1} if 00000000-0000-0001-0000-000000000001 1 seen applied -\n13 call 1 ordered put shop.item(2;1){tx_committed_at=0L,tx_id='00000000-0000-0001-0000-000000000001',tx_prepared_at=0L,tx_state=3,tx_version=1} if 00000000-0000-0001-0000-000000000001 1 seen applied committed\norder 1\n00000000-0000-0001-0000-000000000001 10\ntables 1\ntable shop.item 3\n(1,1,NULL)\n(1,2,NULL)\n(2,1,NULL)\nend\n",
        Verdict::AsPromised,
    ),
    Whole(
        "schema {\"shop.item\":{\"partition-key\":[\"cat\"],\"clustering-key\":[\"n\"],\"columns\":{\"cat\":\"INT\",\"n\":\"INT\",\"qty\":\"INT\"}}}\nclient c1\n  BEGIN\n  INSERT INTO shop.item (cat, n) VALUES (1, 1)\n  INSERT INTO shop.item (cat, n) VALUES (2, 1)\n  INSERT INTO shop.item (cat, n) VALUES (1, 2)\n  COMMIT\nclient c2\n  BEGIN\n  INSERT INTO shop.item (cat, n) VALUES (1, 2)\n  COMMIT\nrun\nstep 1 8\nstep 2 7\nrest\nscalardb report 1\nevents 17\n1 take 1 done : BEGIN\n2 take 1 - : INSERT INTO shop.item (cat, n) VALUES (1, 1)\n3 call 1 ordered get shop.item(1;1) seen found none count 1\n4 take 1 - : INSERT INTO shop.item (cat, n) VALUES (2, 1)\n5 call 1 ordered get shop.item(2;1) seen found none count 1\n6 take 1 - : INSERT INTO shop.item (cat, n) VALUES (1, 2)\n7 call 1 ordered get shop.item(1;2) seen found none count 1\n8 take 1 - : COMMIT\n9 take 2 done : BEGIN\n10 take 2 - : INSERT INTO shop.item (cat, n) VALUES (1, 2)\n11 call 2 ordered get shop.item(1;2) seen found none count 1\n12 take 2 - : COMMIT\n13 call 2 ordered put shop.item(1;2){tx_id='00000000-0000-0002-0000-000000000001',tx_prepared_at=0L,tx_state=1,tx_version=1} if absent seen applied -\n14 call 2 ordered put coordinator.state('00000000-0000-0002-0000-000000000001'){tx_created_at=0L,tx_state=3} if absent seen applied -\n15 call 2 ordered put shop.item(1;2){tx_committed_at=0L,tx_id='00000000-0000-0002-0000-000000000001',tx_prepared_at=0L,tx_state=3,tx_version=1} if 00000000-0000-0002-0000-000000000001 1 seen applied committed\n16 call 1 ordered putall 2 shop.item(1;1){tx_id='00000000-0000-0001-0000-000000000001',tx_prepared_at=0L,tx_state=1,tx_version=1} if absent shop.item(1;2){tx_id='00000000-0000-0001-0000-000000000001',tx_prepared_at=0L,tx_state=1,tx_version=1} if absent seen notall 2 shop.item(1;2){tx_committed_at=0L,tx_id='00000000-0000-0002-0000-000000000001',tx_prepared_at=0L,tx_state=3,tx_version=1} -\n17 call 1 ordered put coordinator.state('00000000-0000-0001-0000-000000000001'){tx_created_at=0L,tx_state=4} if absent seen applied conflict shop.item(1;2) {tx_committed_at=0L,tx_id='00000000-0000-0002-0000-000000000001',tx_prepared_at=0L,tx_state=3,tx_version=1}\norder 1\n00000000-0000-0002-0000-000000000001 13\ntables 1\ntable shop.item 1\n(1,2,NULL)\nend\n",
        Verdict::AsPromised,
    ),
];

static FALSE: [Whole; 2] = [
    // The first key of the batch has no record.
    Whole(
        "schema {\"shop.item\":{\"partition-key\":[\"cat\"],\"clustering-key\":[\"n\"],\"columns\":{\"cat\":\"INT\",\"n\":\"INT\",\"qty\":\"INT\"}}}\nclient c1\n  BEGIN\n  INSERT INTO shop.item (cat, n) VALUES (1, 1)\n  INSERT INTO shop.item (cat, n) VALUES (2, 1)\n  INSERT INTO shop.item (cat, n) VALUES (1, 2)\n  COMMIT\nclient c2\n  BEGIN\n  INSERT INTO shop.item (cat, n) VALUES (1, 2)\n  COMMIT\nrun\nstep 1 8\nstep 2 7\nrest\nscalardb report 1\nevents 17\n1 take 1 done : BEGIN\n2 take 1 - : INSERT INTO shop.item (cat, n) VALUES (1, 1)\n3 call 1 ordered get shop.item(1;1) seen found none count 1\n4 take 1 - : INSERT INTO shop.item (cat, n) VALUES (2, 1)\n5 call 1 ordered get shop.item(2;1) seen found none count 1\n6 take 1 - : INSERT INTO shop.item (cat, n) VALUES (1, 2)\n7 call 1 ordered get shop.item(1;2) seen found none count 1\n8 take 1 - : COMMIT\n9 take 2 done : BEGIN\n10 take 2 - : INSERT INTO shop.item (cat, n) VALUES (1, 2)\n11 call 2 ordered get shop.item(1;2) seen found none count 1\n12 take 2 - : COMMIT\n13 call 2 ordered put shop.item(1;2){tx_id='00000000-0000-0002-0000-000000000001',tx_prepared_at=0L,tx_state=1,tx_version=1} if absent seen applied -\n14 call 2 ordered put coordinator.state('00000000-0000-0002-0000-000000000001'){tx_created_at=0L,tx_state=3} if absent seen applied -\n15 call 2 ordered put shop.item(1;2){tx_committed_at=0L,tx_id='00000000-0000-0002-0000-000000000001',tx_prepared_at=0L,tx_state=3,tx_version=1} if 00000000-0000-0002-0000-000000000001 1 seen applied committed\n16 call 1 ordered putall 2 shop.item(1;1){tx_id='00000000-0000-0001-0000-000000000001',tx_prepared_at=0L,tx_state=1,tx_version=1} if absent shop.item(1;2){tx_id='00000000-0000-0001-0000-000000000001',tx_prepared_at=0L,tx_state=1,tx_version=1} if absent seen notall 1 shop.item(1;1){tx_committed_at=0L,tx_id='00000000-0000-0002-0000-000000000001',tx_prepared_at=0L,tx_state=3,tx_version=1} -\n17 call 1 ordered put coordinator.state('00000000-0000-0001-0000-000000000001'){tx_created_at=0L,tx_state=4} if absent seen applied conflict shop.item(1;1) {tx_committed_at=0L,tx_id='00000000-0000-0002-0000-000000000001',tx_prepared_at=0L,tx_state=3,tx_version=1}\norder 0\ntables 0\nend\n",
        Verdict::Fails(Promise::Stores),
    ),
    // The batch is applied, though the second key has a record.
    Whole(
        "schema {\"shop.item\":{\"partition-key\":[\"cat\"],\"clustering-key\":[\"n\"],\"columns\":{\"cat\":\"INT\",\"n\":\"INT\",\"qty\":\"INT\"}}}\nclient c1\n  BEGIN\n  INSERT INTO shop.item (cat, n) VALUES (1, 1)\n  INSERT INTO shop.item (cat, n) VALUES (2, 1)\n  INSERT INTO shop.item (cat, n) VALUES (1, 2)\n  COMMIT\nclient c2\n  BEGIN\n  INSERT INTO shop.item (cat, n) VALUES (1, 2)\n  COMMIT\nrun\nstep 1 8\nstep 2 7\nrest\nscalardb report 1\nevents 20\n1 take 1 done : BEGIN\n2 take 1 - : INSERT INTO shop.item (cat, n) VALUES (1, 1)\n3 call 1 ordered get shop.item(1;1) seen found none count 1\n4 take 1 - : INSERT INTO shop.item (cat, n) VALUES (2, 1)\n5 call 1 ordered get shop.item(2;1) seen found none count 1\n6 take 1 - : INSERT INTO shop.item (cat, n) VALUES (1, 2)\n7 call 1 ordered get shop.item(1;2) seen found none count 1\n8 take 1 - : COMMIT\n9 take 2 done : BEGIN\n10 take 2 - : INSERT INTO shop.item (cat, n) VALUES (1, 2)\n11 call 2 ordered get shop.item(1;2) seen found none count 1\n12 take 2 - : COMMIT\n13 call 2 ordered put shop.item(1;2){tx_id='00000000-0000-0002-0000-000000000001',tx_prepared_at=0L,tx_state=1,tx_version=1} if absent seen applied -\n14 call 2 ordered put coordinator.state('00000000-0000-0002-0000-000000000001'){tx_created_at=0L,tx_state=3} if absent seen applied -\n15 call 2 ordered put shop.item(1;2){tx_committed_at=0L,tx_id='00000000-0000-0002-0000-000000000001',tx_prepared_at=0L,tx_state=3,tx_version=1} if 00000000-0000-0002-0000-000000000001 1 seen applied committed\n16 call 1 ordered putall 2 shop.item(1;1){tx_id='00000000-0000-0001-0000-000000000001',tx_prepared_at=0L,tx_state=1,tx_version=1} if absent shop.item(1;2){tx_id='00000000-0000-0001-0000-000000000001',tx_prepared_at=0L,tx_state=1,tx_version=1} if absent seen applied -\n17 call 1 ordered put shop.item(2;1){tx_id='00000000-0000-0001-0000-000000000001',tx_prepared_at=0L,tx_state=1,tx_version=1} if absent seen applied -\n18 call 1 ordered put coordinator.state('00000000-0000-0001-0000-000000000001'){tx_created_at=0L,tx_state=3} if absent seen applied -\n19 call 1 ordered putall 2 shop.item(1;1){tx_committed_at=0L,tx_id='00000000-0000-0001-0000-000000000001',tx_prepared_at=0L,tx_state=3,tx_version=1} if 00000000-0000-0001-0000-000000000001 1 shop.item(1;2){tx_committed_at=0L,tx_id='00000000-0000-0001-0000-000000000001',tx_prepared_at=0L,tx_state=3,tx_version=1} if 00000000-0000-0001-0000-000000000001 1 seen applied -\n20 call 1 ordered put shop.item(2;1){tx_committed_at=0L,tx_id='00000000-0000-0001-0000-000000000001',tx_prepared_at=0L,tx_state=3,tx_version=1} if 00000000-0000-0001-0000-000000000001 1 seen applied committed\norder 0\ntables 0\nend\n",
        Verdict::Fails(Promise::Stores),
    ),
];

#[test]
fn batches_are_as_promised(rt: HostRuntime) -> Result<(), Fail> {
    all_cases(rt.alloc(), "true", TRUE.as_slice())
}

#[test]
fn batches_are_those_of_stores(rt: HostRuntime) -> Result<(), Fail> {
    all_cases(rt.alloc(), "false", FALSE.as_slice())
}
