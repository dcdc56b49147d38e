//! A store retired: each of its calls fails once, before its effect and after it, and the second run finishes; and what bars it.
use crate::attached::{attach_failing, runs};
use sdb_contents::{RetireRefused, can_retire, retire};
use sdb_model::key_text;
use sdb_store::Fail as Failing;
use sdb_stores::{Registry, Stores};
use sdb_types::{Key, Name};
use std::alloc::Global;
use std::test::Fail;
use test_builders::{Case, all_cases, hold};

// How a store is retired.
#[derive(Drop)]
enum Ended {
    Moved(u64),
    StoreFault,
    BadRow(Key),
    Other,
}

fn ended_of(answer: Result<u64, RetireRefused>) -> Ended {
    match answer {
        Ok(count) => Ended::Moved(count),
        Err(RetireRefused::StoreFault) => Ended::StoreFault,
        Err(RetireRefused::BadRow(key)) => Ended::BadRow(key),
        Err(RetireRefused::NoMemory) => Ended::Other,
    }
}

fn give_up(alloc: Global, stores: &mut Stores, from: &Name, to: &Name) -> Ended {
    let Ok(names) = stores.names() else {
        return Ended::Other;
    };
    if !can_retire(names.as_slice(), from, to) {
        return Ended::Other;
    }
    ended_of(retire(alloc, stores, from, to))
}

// Retires `other`.
fn give_up_other(alloc: Global, stores: &mut Stores, to: &str) -> Ended {
    match (Name::new(alloc, "other"), Name::new(alloc, to)) {
        (Ok(from), Ok(to)) => give_up(alloc, stores, &from, &to),
        _ => Ended::Other,
    }
}

fn moves(alloc: Global, stores: &mut Stores, to: &str, count: u64) -> bool {
    match give_up_other(alloc, stores, to) {
        Ended::Moved(moved) => moved == count,
        _ => false,
    }
}

fn faults(alloc: Global, stores: &mut Stores, to: &str) -> bool {
    matches!(give_up_other(alloc, stores, to), Ended::StoreFault)
}

fn is_key(alloc: Global, key: &Key, text: &str) -> bool {
    match key_text(alloc, key) {
        Ok(own) => own.as_str() == text,
        Err(_) => false,
    }
}

fn bars(alloc: Global, stores: &mut Stores, to: &str, text: &str) -> bool {
    match give_up_other(alloc, stores, to) {
        Ended::BadRow(key) => is_key(alloc, &key, text),
        _ => false,
    }
}

fn place_shop(alloc: Global, stores: &mut Stores, store: &str) -> bool {
    match (Name::new(alloc, "shop"), Name::new(alloc, store)) {
        (Ok(shop), Ok(store)) => stores.place(shop, &store).is_ok(),
        _ => false,
    }
}

// Whether calls on the store of that name have these replies.
fn plays_at(alloc: Global, stores: &mut Stores, store: &str, report: &str) -> bool {
    stores.clear_places();
    let placed = place_shop(alloc, stores, store);
    let correct = runs(alloc, stores, report);
    stores.clear_places();
    placed && correct
}

// One of the stores.
#[derive(Clone, Copy, PartialEq, Eq)]
enum Which {
    Ordered,
    Other,
    Spare,
}

// The call that fails of a store, where it is that one.
fn attach_one(alloc: Global, stores: &mut Stores, own: Which, name: &str, fault: Fault) -> bool {
    let Fault(_, which, call, after, _) = fault;
    if own == which {
        attach_failing(alloc, stores, name, &[Failing { call, after }])
    } else {
        attach_failing(alloc, stores, name, &[])
    }
}

// Attaches the stores, of which one fails at a call.
fn attach_three(alloc: Global, stores: &mut Stores, fault: Fault) -> bool {
    attach_one(alloc, stores, Which::Ordered, "ordered", fault)
        && attach_one(alloc, stores, Which::Other, "other", fault)
        && attach_one(alloc, stores, Which::Spare, "spare", fault)
}

// The store that `other` is given up for.
#[derive(Clone, Copy)]
enum To {
    Spare,
    First,
}

impl To {
    fn name(self) -> &'static str {
        match self {
            To::Spare => "spare",
            To::First => "ordered",
        }
    }

    // The rows of the catalog once it is given up.
    fn rows(self) -> &'static str {
        match self {
            To::Spare => RENEWED,
            To::First => RENEWED_FIRST,
        }
    }
}

// What is written before, and where.
fn is_set_up(alloc: Global, stores: &mut Stores, to: &str, rows: &str) -> bool {
    runs(alloc, stores, rows)
        && plays_at(alloc, stores, "other", MOVING)
        && plays_at(alloc, stores, to, STALE)
}

// What is there once it moved, with a store less.
fn is_moved(alloc: Global, stores: &mut Stores, to: To) -> bool {
    stores.len() == 2 && plays_at(alloc, stores, to.name(), MOVED) && runs(alloc, stores, to.rows())
}

// A store that fails once, at the call of this number, after its effect or before it, and what the second run then copies.
#[derive(Clone, Copy)]
struct Fault(To, Which, u64, bool, u64);

impl Fault {
    fn finishes(self, alloc: Global) -> bool {
        let mut stores = Stores::new(alloc);
        attach_three(alloc, &mut stores, self)
            && is_set_up(alloc, &mut stores, self.0.name(), CATALOG)
            && faults(alloc, &mut stores, self.0.name())
            && stores.len() == 3
            && moves(alloc, &mut stores, self.0.name(), self.4)
            && is_moved(alloc, &mut stores, self.0)
    }
}

impl Case for Fault {
    fn holds(self, alloc: Global) -> Result<bool, Fail> {
        Ok(self.finishes(alloc))
    }
}

// A store that never fails.
const SOUND: Fault = Fault(To::Spare, Which::Spare, 1_000, false, 4);

// What is written at a store, the key that bars the retirement, and what is there then.
#[derive(Clone, Copy)]
struct Barred {
    catalog: &'static str,
    to: &'static str,
    more: &'static str,
    key: &'static str,
    rows: &'static str,
    left: &'static str,
}

impl Barred {
    fn is_barred(self, alloc: Global) -> bool {
        let mut stores = Stores::new(alloc);
        attach_three(alloc, &mut stores, SOUND)
            && is_set_up(alloc, &mut stores, self.to, self.catalog)
            && plays_at(alloc, &mut stores, self.to, self.more)
            && bars(alloc, &mut stores, self.to, self.key)
            && self.is_as_before(alloc, &mut stores)
    }

    fn is_as_before(self, alloc: Global, stores: &mut Stores) -> bool {
        stores.len() == 3
            && runs(alloc, stores, self.rows)
            && plays_at(alloc, stores, "other", STILL)
            && plays_at(alloc, stores, self.to, self.left)
    }
}

impl Case for Barred {
    fn holds(self, alloc: Global) -> Result<bool, Fail> {
        Ok(self.is_barred(alloc))
    }
}

static BARRED: [Barred; 3] = [
    // A record without a version, other than the one that comes.
    Barred {
        catalog: CATALOG,
        to: "spare",
        more: BLOCKING,
        key: "shop.orders(1)",
        rows: UNRENEWED,
        left: UNTOUCHED,
    },
    Barred {
        catalog: CATALOG,
        to: "ordered",
        more: BLOCKING,
        key: "shop.orders(1)",
        rows: UNRENEWED,
        left: UNTOUCHED,
    },
    // A namespace in a third store too.
    Barred {
        catalog: BAD_CATALOG,
        to: "spare",
        more: NOTHING,
        key: "scalardb.metadata('shop.pay')",
        rows: BAD_UNRENEWED,
        left: STALE_LEFT,
    },
];

const NOTHING: &str = "scalardb report 1\nevents 0\norder 0\ntables 0\nend\n";

// A store that may not be retired: it isn't attached, it is the other one, or it is the first.
fn may_not(alloc: Global, from: &str, to: &str) -> bool {
    let mut stores = Stores::new(alloc);
    if let Ok(from) = Name::new(alloc, from)
        && let Ok(to) = Name::new(alloc, to)
        && attach_three(alloc, &mut stores, SOUND)
    {
        return matches!(give_up(alloc, &mut stores, &from, &to), Ended::Other);
    }
    false
}

// The rows of a catalog of which one namespace is in `other`.
const CATALOG: &str =
    "scalardb report 1\nevents 3\n1 call 1 s put scalardb.metadata('coordinator.state'){definition='{\"clustering-key\":[],\"columns\":{\"tx_created_at\":\"BIGINT\",\"tx_id\":\"TEXT\",\"tx_state\":\"INT\"},\"partition-key\":[\"tx_id\"],\"secondary-index\":[]}',store='ordered',tx_id='00000000-0000-0000-0000-000000000001',tx_state=3} if absent seen applied -\n2 call 1 s put scalardb.metadata('shop.items'){definition='{\"clustering-key\":[],\"columns\":{\"id\":\"INT\",\"note\":\"TEXT\"},\"partition-key\":[\"id\"],\"secondary-index\":[]}',store='other',tx_id='00000000-0000-0000-0000-000000000001',tx_state=3} if absent seen applied -\n3 call 1 s put scalardb.metadata('shop.orders'){definition='{\"clustering-key\":[],\"columns\":{\"id\":\"INT\",\"note\":\"TEXT\"},\"partition-key\":[\"id\"],\"secondary-index\":[]}',store='other',tx_id='00000000-0000-0000-0000-000000000001',tx_state=3} if absent seen applied -\norder 0\ntables 0\nend\n";

// What `other` holds of it: of four records one has no version, and one is prepared.
const MOVING: &str =
    "scalardb report 1\nevents 4\n1 call 1 s put shop.items(1){note='a',tx_id='00000000-0000-0000-0000-00000000000a',tx_state=3} if absent seen applied -\n2 call 1 s put shop.items(3){note='c'} if absent seen applied -\n3 call 1 s put shop.orders(1){note='d',tx_id='00000000-0000-0000-0000-00000000000b',tx_state=1} if absent seen applied -\n4 call 1 s put shop.orders(2){note='e',tx_id='00000000-0000-0000-0000-00000000000c',tx_state=3} if absent seen applied -\norder 0\ntables 0\nend\n";

// What is there of it already where it moves to: a record that is the same, and two that are versions of their own.
const STALE: &str =
    "scalardb report 1\nevents 3\n1 call 1 s put shop.items(3){note='c'} if absent seen applied -\n2 call 1 s put shop.orders(2){note='old',tx_id='00000000-0000-0000-0000-00000000000d',tx_state=3} if absent seen applied -\n3 call 1 s put shop.orders(7){note='f',tx_id='00000000-0000-0000-0000-00000000000e',tx_state=2} if absent seen applied -\norder 0\ntables 0\nend\n";

// What is there once it moved.
const MOVED: &str =
    "scalardb report 1\nevents 7\n1 call 1 s get shop.items(1) seen found shop.items(1){note='a',tx_id='00000000-0000-0000-0000-00000000000a',tx_state=3} -\n2 call 1 s get shop.items(3) seen found shop.items(3){note='c'} -\n3 call 1 s get shop.orders(1) seen found shop.orders(1){note='d',tx_id='00000000-0000-0000-0000-00000000000b',tx_state=1} -\n4 call 1 s get shop.orders(2) seen found shop.orders(2){note='e',tx_id='00000000-0000-0000-0000-00000000000c',tx_state=3} -\n5 call 1 s get shop.orders(7) seen found none -\n6 call 1 s scan shop.items seen rows 2 shop.items(1){note='a',tx_id='00000000-0000-0000-0000-00000000000a',tx_state=3} shop.items(3){note='c'} -\n7 call 1 s scan shop.orders seen rows 2 shop.orders(1){note='d',tx_id='00000000-0000-0000-0000-00000000000b',tx_state=1} shop.orders(2){note='e',tx_id='00000000-0000-0000-0000-00000000000c',tx_state=3} -\norder 0\ntables 0\nend\n";

// The rows of the catalog then.
const RENEWED: &str =
    "scalardb report 1\nevents 1\n1 call 1 s scan scalardb.metadata seen rows 3 scalardb.metadata('coordinator.state'){definition='{\"clustering-key\":[],\"columns\":{\"tx_created_at\":\"BIGINT\",\"tx_id\":\"TEXT\",\"tx_state\":\"INT\"},\"partition-key\":[\"tx_id\"],\"secondary-index\":[]}',store='ordered',tx_id='00000000-0000-0000-0000-000000000001',tx_state=3} scalardb.metadata('shop.items'){definition='{\"clustering-key\":[],\"columns\":{\"id\":\"INT\",\"note\":\"TEXT\"},\"partition-key\":[\"id\"],\"secondary-index\":[]}',store='spare',tx_id='00000000-0000-0000-0000-000000000002',tx_state=3} scalardb.metadata('shop.orders'){definition='{\"clustering-key\":[],\"columns\":{\"id\":\"INT\",\"note\":\"TEXT\"},\"partition-key\":[\"id\"],\"secondary-index\":[]}',store='spare',tx_id='00000000-0000-0000-0000-000000000002',tx_state=3} -\norder 0\ntables 0\nend\n";

// The rows of the catalog, where it moved to the first store.
const RENEWED_FIRST: &str =
    "scalardb report 1\nevents 1\n1 call 1 s scan scalardb.metadata seen rows 3 scalardb.metadata('coordinator.state'){definition='{\"clustering-key\":[],\"columns\":{\"tx_created_at\":\"BIGINT\",\"tx_id\":\"TEXT\",\"tx_state\":\"INT\"},\"partition-key\":[\"tx_id\"],\"secondary-index\":[]}',store='ordered',tx_id='00000000-0000-0000-0000-000000000001',tx_state=3} scalardb.metadata('shop.items'){definition='{\"clustering-key\":[],\"columns\":{\"id\":\"INT\",\"note\":\"TEXT\"},\"partition-key\":[\"id\"],\"secondary-index\":[]}',store='ordered',tx_id='00000000-0000-0000-0000-000000000002',tx_state=3} scalardb.metadata('shop.orders'){definition='{\"clustering-key\":[],\"columns\":{\"id\":\"INT\",\"note\":\"TEXT\"},\"partition-key\":[\"id\"],\"secondary-index\":[]}',store='ordered',tx_id='00000000-0000-0000-0000-000000000002',tx_state=3} -\norder 0\ntables 0\nend\n";

// The rows of the catalog where nothing was written.
const UNRENEWED: &str =
    "scalardb report 1\nevents 1\n1 call 1 s scan scalardb.metadata seen rows 3 scalardb.metadata('coordinator.state'){definition='{\"clustering-key\":[],\"columns\":{\"tx_created_at\":\"BIGINT\",\"tx_id\":\"TEXT\",\"tx_state\":\"INT\"},\"partition-key\":[\"tx_id\"],\"secondary-index\":[]}',store='ordered',tx_id='00000000-0000-0000-0000-000000000001',tx_state=3} scalardb.metadata('shop.items'){definition='{\"clustering-key\":[],\"columns\":{\"id\":\"INT\",\"note\":\"TEXT\"},\"partition-key\":[\"id\"],\"secondary-index\":[]}',store='other',tx_id='00000000-0000-0000-0000-000000000001',tx_state=3} scalardb.metadata('shop.orders'){definition='{\"clustering-key\":[],\"columns\":{\"id\":\"INT\",\"note\":\"TEXT\"},\"partition-key\":[\"id\"],\"secondary-index\":[]}',store='other',tx_id='00000000-0000-0000-0000-000000000001',tx_state=3} -\norder 0\ntables 0\nend\n";

// What `other` holds where nothing was written.
const STILL: &str =
    "scalardb report 1\nevents 2\n1 call 1 s scan shop.items seen rows 2 shop.items(1){note='a',tx_id='00000000-0000-0000-0000-00000000000a',tx_state=3} shop.items(3){note='c'} -\n2 call 1 s scan shop.orders seen rows 2 shop.orders(1){note='d',tx_id='00000000-0000-0000-0000-00000000000b',tx_state=1} shop.orders(2){note='e',tx_id='00000000-0000-0000-0000-00000000000c',tx_state=3} -\norder 0\ntables 0\nend\n";

// A record that can't be deleted and is none of those that come.
const BLOCKING: &str =
    "scalardb report 1\nevents 1\n1 call 1 s put shop.orders(1){note='x'} if absent seen applied -\norder 0\ntables 0\nend\n";

// What is there beside it where nothing was written.
const UNTOUCHED: &str =
    "scalardb report 1\nevents 2\n1 call 1 s scan shop.items seen rows 1 shop.items(3){note='c'} -\n2 call 1 s scan shop.orders seen rows 3 shop.orders(1){note='x'} shop.orders(2){note='old',tx_id='00000000-0000-0000-0000-00000000000d',tx_state=3} shop.orders(7){note='f',tx_id='00000000-0000-0000-0000-00000000000e',tx_state=2} -\norder 0\ntables 0\nend\n";

// Rows of a catalog of which the last names a third store for a namespace.
const BAD_CATALOG: &str =
    "scalardb report 1\nevents 4\n1 call 1 s put scalardb.metadata('coordinator.state'){definition='{\"clustering-key\":[],\"columns\":{\"tx_created_at\":\"BIGINT\",\"tx_id\":\"TEXT\",\"tx_state\":\"INT\"},\"partition-key\":[\"tx_id\"],\"secondary-index\":[]}',store='ordered',tx_id='00000000-0000-0000-0000-000000000001',tx_state=3} if absent seen applied -\n2 call 1 s put scalardb.metadata('shop.items'){definition='{\"clustering-key\":[],\"columns\":{\"id\":\"INT\",\"note\":\"TEXT\"},\"partition-key\":[\"id\"],\"secondary-index\":[]}',store='other',tx_id='00000000-0000-0000-0000-000000000001',tx_state=3} if absent seen applied -\n3 call 1 s put scalardb.metadata('shop.orders'){definition='{\"clustering-key\":[],\"columns\":{\"id\":\"INT\",\"note\":\"TEXT\"},\"partition-key\":[\"id\"],\"secondary-index\":[]}',store='other',tx_id='00000000-0000-0000-0000-000000000001',tx_state=3} if absent seen applied -\n4 call 1 s put scalardb.metadata('shop.pay'){definition='{\"clustering-key\":[],\"columns\":{\"id\":\"INT\",\"note\":\"TEXT\"},\"partition-key\":[\"id\"],\"secondary-index\":[]}',store='ordered',tx_id='00000000-0000-0000-0000-000000000001',tx_state=3} if absent seen applied -\norder 0\ntables 0\nend\n";

// The same rows where nothing was written.
const BAD_UNRENEWED: &str =
    "scalardb report 1\nevents 1\n1 call 1 s scan scalardb.metadata seen rows 4 scalardb.metadata('coordinator.state'){definition='{\"clustering-key\":[],\"columns\":{\"tx_created_at\":\"BIGINT\",\"tx_id\":\"TEXT\",\"tx_state\":\"INT\"},\"partition-key\":[\"tx_id\"],\"secondary-index\":[]}',store='ordered',tx_id='00000000-0000-0000-0000-000000000001',tx_state=3} scalardb.metadata('shop.items'){definition='{\"clustering-key\":[],\"columns\":{\"id\":\"INT\",\"note\":\"TEXT\"},\"partition-key\":[\"id\"],\"secondary-index\":[]}',store='other',tx_id='00000000-0000-0000-0000-000000000001',tx_state=3} scalardb.metadata('shop.orders'){definition='{\"clustering-key\":[],\"columns\":{\"id\":\"INT\",\"note\":\"TEXT\"},\"partition-key\":[\"id\"],\"secondary-index\":[]}',store='other',tx_id='00000000-0000-0000-0000-000000000001',tx_state=3} scalardb.metadata('shop.pay'){definition='{\"clustering-key\":[],\"columns\":{\"id\":\"INT\",\"note\":\"TEXT\"},\"partition-key\":[\"id\"],\"secondary-index\":[]}',store='ordered',tx_id='00000000-0000-0000-0000-000000000001',tx_state=3} -\norder 0\ntables 0\nend\n";

// What was there already, where nothing was written.
const STALE_LEFT: &str =
    "scalardb report 1\nevents 2\n1 call 1 s scan shop.items seen rows 1 shop.items(3){note='c'} -\n2 call 1 s scan shop.orders seen rows 2 shop.orders(2){note='old',tx_id='00000000-0000-0000-0000-00000000000d',tx_state=3} shop.orders(7){note='f',tx_id='00000000-0000-0000-0000-00000000000e',tx_state=2} -\norder 0\ntables 0\nend\n";

// Each call of a retirement for a third store, on each of the stores.
static TO_SPARE: [Fault; 26] = [
    Fault(To::Spare, Which::Ordered, 4, false, 4),
    Fault(To::Spare, Which::Ordered, 4, true, 4),
    Fault(To::Spare, Which::Ordered, 5, false, 4),
    Fault(To::Spare, Which::Ordered, 5, true, 4),
    Fault(To::Spare, Which::Ordered, 6, false, 4),
    Fault(To::Spare, Which::Ordered, 6, true, 0),
    Fault(To::Spare, Which::Spare, 4, false, 4),
    Fault(To::Spare, Which::Spare, 4, true, 4),
    Fault(To::Spare, Which::Spare, 5, false, 4),
    Fault(To::Spare, Which::Spare, 5, true, 4),
    Fault(To::Spare, Which::Spare, 6, false, 4),
    Fault(To::Spare, Which::Spare, 6, true, 4),
    Fault(To::Spare, Which::Spare, 7, false, 4),
    Fault(To::Spare, Which::Spare, 7, true, 4),
    Fault(To::Spare, Which::Spare, 8, false, 4),
    Fault(To::Spare, Which::Spare, 8, true, 4),
    Fault(To::Spare, Which::Spare, 9, false, 4),
    Fault(To::Spare, Which::Spare, 9, true, 4),
    Fault(To::Spare, Which::Spare, 10, false, 4),
    Fault(To::Spare, Which::Spare, 10, true, 4),
    Fault(To::Spare, Which::Spare, 11, false, 4),
    Fault(To::Spare, Which::Spare, 11, true, 4),
    Fault(To::Spare, Which::Other, 5, false, 4),
    Fault(To::Spare, Which::Other, 5, true, 4),
    Fault(To::Spare, Which::Other, 6, false, 4),
    Fault(To::Spare, Which::Other, 6, true, 4),
];

// Each call of one for the first store.
static TO_FIRST: [Fault; 26] = [
    Fault(To::First, Which::Ordered, 7, false, 4),
    Fault(To::First, Which::Ordered, 7, true, 4),
    Fault(To::First, Which::Ordered, 8, false, 4),
    Fault(To::First, Which::Ordered, 8, true, 4),
    Fault(To::First, Which::Ordered, 9, false, 4),
    Fault(To::First, Which::Ordered, 9, true, 4),
    Fault(To::First, Which::Ordered, 10, false, 4),
    Fault(To::First, Which::Ordered, 10, true, 4),
    Fault(To::First, Which::Ordered, 11, false, 4),
    Fault(To::First, Which::Ordered, 11, true, 4),
    Fault(To::First, Which::Ordered, 12, false, 4),
    Fault(To::First, Which::Ordered, 12, true, 4),
    Fault(To::First, Which::Ordered, 13, false, 4),
    Fault(To::First, Which::Ordered, 13, true, 4),
    Fault(To::First, Which::Ordered, 14, false, 4),
    Fault(To::First, Which::Ordered, 14, true, 4),
    Fault(To::First, Which::Ordered, 15, false, 4),
    Fault(To::First, Which::Ordered, 15, true, 4),
    Fault(To::First, Which::Ordered, 16, false, 4),
    Fault(To::First, Which::Ordered, 16, true, 4),
    Fault(To::First, Which::Ordered, 17, false, 4),
    Fault(To::First, Which::Ordered, 17, true, 0),
    Fault(To::First, Which::Other, 5, false, 4),
    Fault(To::First, Which::Other, 5, true, 4),
    Fault(To::First, Which::Other, 6, false, 4),
    Fault(To::First, Which::Other, 6, true, 4),
];

fn all_finish(alloc: Global) -> Result<(), Fail> {
    all_cases(alloc, "spare", TO_SPARE.as_slice())?;
    all_cases(alloc, "first", TO_FIRST.as_slice())
}

#[test]
fn a_second_run_finishes(rt: HostRuntime) -> Result<(), Fail> {
    all_finish(rt.alloc())
}

#[test]
fn a_record_or_a_row_bars(rt: HostRuntime) -> Result<(), Fail> {
    all_cases(rt.alloc(), "barred", BARRED.as_slice())
}

#[test]
fn some_stores_may_not_be_retired(rt: HostRuntime) -> Result<(), Fail> {
    hold(Ok(
        may_not(rt.alloc(), "ordered", "spare")
            && may_not(rt.alloc(), "other", "other")
            && may_not(rt.alloc(), "none", "spare")
            && may_not(rt.alloc(), "other", "none"),
    ))
}
