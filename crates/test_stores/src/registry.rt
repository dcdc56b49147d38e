//! A registry of stores that answer one thing each.
ghost use Rattle.std.specs.Prelude.{◌≡◌};
ghost use Rattle.std.specs.FinMap as map;
ghost use Rattle.sdb_types.specs.Draws.{counted as next_number};
ghost use Rattle.sdb_types.specs.declared.record.Reply.TheVariants.{Fault, NoMemory};

use sdb_store::{Store, call};
use sdb_stores::{AttachRefused, PlaceRefused, Registry, Stores};
use sdb_types::{Batch, Condition, Key, Name, Record, Reply, Span, is_well_formed};
use std::alloc::Global;
use std::test::Fail;
use test_builders::{Ask, Place, hold, request_of};

// Each call fails.
#[derive(Drop)]
struct Broken {
    failed: u64,
}

impl Broken {
    fn fail(&mut self) -> Reply
        ensures fault { result ≡ Fault }
        ensures counted { self.new.failed ≡ next_number self.old.failed }
    {
        self.failed = self.failed.saturating_add(1);
        Reply::Fault
    }
}

impl Store for Broken {
    ghost state = { λ b. record { known = ⊥; contents = map.empty; faults = b.failed; calls = b.failed } };

    fn get(&mut self, _: &Key) -> Reply {
        self.fail()
    }

    fn scan(&mut self, _: &Span) -> Reply {
        self.fail()
    }

    fn put_if(&mut self, _: &Record, _: &Condition) -> Reply {
        self.fail()
    }

    fn delete_if(&mut self, _: &Key, _: &Condition) -> Reply {
        self.fail()
    }

    fn put_all(&mut self, _: &Batch) -> Reply {
        self.fail()
    }
}

// There is never memory.
#[derive(Drop)]
struct Full {
    made: u64,
}

impl Full {
    fn refuse(&mut self) -> Reply
        ensures memory { result ≡ NoMemory }
        ensures counted { self.new.made ≡ next_number self.old.made }
    {
        self.made = self.made.saturating_add(1);
        Reply::NoMemory
    }
}

impl Store for Full {
    ghost state = { λ f. record { known = ⊥; contents = map.empty; faults = 0; calls = f.made } };

    fn get(&mut self, _: &Key) -> Reply {
        self.refuse()
    }

    fn scan(&mut self, _: &Span) -> Reply {
        self.refuse()
    }

    fn put_if(&mut self, _: &Record, _: &Condition) -> Reply {
        self.refuse()
    }

    fn delete_if(&mut self, _: &Key, _: &Condition) -> Reply {
        self.refuse()
    }

    fn put_all(&mut self, _: &Batch) -> Reply {
        self.refuse()
    }
}

// The first call finds no memory, the second fails, and so on in turn: a reply shows how many calls were made before it.
#[derive(Drop)]
struct Turns {
    odd: bool,
    made: u64,
    broken: Broken,
}

impl Turns {
    // Counts a call more: whether its number is odd.
    fn is_odd(&mut self) -> bool
        ensures broken { self.new.broken ≡ self.old.broken }
        ensures counted { self.new.made ≡ next_number self.old.made }
    {
        self.made = self.made.saturating_add(1);
        self.odd = !self.odd;
        self.odd
    }
}

impl Store for Turns {
    ghost state = { λ t. record { known = ⊥; contents = map.empty; faults = t.broken.failed; calls = t.made } };

    fn get(&mut self, _: &Key) -> Reply {
        if self.is_odd() {
            return Reply::NoMemory;
        }
        self.broken.fail()
    }

    fn scan(&mut self, _: &Span) -> Reply {
        if self.is_odd() {
            return Reply::NoMemory;
        }
        self.broken.fail()
    }

    fn put_if(&mut self, _: &Record, _: &Condition) -> Reply {
        if self.is_odd() {
            return Reply::NoMemory;
        }
        self.broken.fail()
    }

    fn delete_if(&mut self, _: &Key, _: &Condition) -> Reply {
        if self.is_odd() {
            return Reply::NoMemory;
        }
        self.broken.fail()
    }

    fn put_all(&mut self, _: &Batch) -> Reply {
        if self.is_odd() {
            return Reply::NoMemory;
        }
        self.broken.fail()
    }
}

const ITEM: Place = Place {
    ns: "shop",
    table: "item",
    partition: &[],
    clustering: &[],
};

fn attach_broken(alloc: Global, stores: &mut Stores, name: &str) -> bool {
    if let Ok(name) = Name::new(alloc, name)
        && let Ok(broken) = Box::new(alloc, Broken { failed: 0 })
    {
        return stores.attach(name, broken).is_ok();
    }
    false
}

fn attach_full(alloc: Global, stores: &mut Stores, name: &str) -> bool {
    if let Ok(name) = Name::new(alloc, name)
        && let Ok(full) = Box::new(alloc, Full { made: 0 })
    {
        return stores.attach(name, full).is_ok();
    }
    false
}

fn attach_turns(alloc: Global, stores: &mut Stores, name: &str) -> bool {
    let turns = Turns {
        odd: false,
        made: 0,
        broken: Broken { failed: 0 },
    };
    if let Ok(name) = Name::new(alloc, name)
        && let Ok(turns) = Box::new(alloc, turns)
    {
        return stores.attach(name, turns).is_ok();
    }
    false
}

// How a call is answered.
#[derive(Clone, Copy, PartialEq, Eq)]
enum Answer {
    Fault,
    NoMemory,
    Other,
}

fn answer_of(reply: &Reply) -> Answer {
    match reply {
        Reply::Fault => Answer::Fault,
        Reply::NoMemory => Answer::NoMemory,
        _ => Answer::Other,
    }
}

// How a get of the item is answered.
fn got<S: Store>(alloc: Global, store: &mut S) -> Answer {
    match request_of(alloc, Ask::Get(ITEM)) {
        Ok(request) if is_well_formed(&request) => answer_of(&call(store, &request)),
        _ => Answer::Other,
    }
}

fn is_full(alloc: Global, store: Box<dyn Store>) -> bool {
    let mut store = store;
    got(alloc, &mut store) == Answer::NoMemory
}

fn is_full_back(alloc: Global, attached: Result<(), AttachRefused>) -> bool {
    match attached {
        Err(AttachRefused::NameTaken(store)) => is_full(alloc, store),
        _ => false,
    }
}

// Whether a store that has no memory is handed back, since its name is accepted.
fn hands_full_back(alloc: Global, stores: &mut Stores, name: &str) -> bool {
    if let Ok(name) = Name::new(alloc, name)
        && let Ok(full) = Box::new(alloc, Full { made: 0 })
    {
        return is_full_back(alloc, stores.attach(name, full));
    }
    false
}

fn has_one_name(stores: &Stores) -> bool {
    match stores.names() {
        Ok(names) => names.len() == 1,
        Err(_) => false,
    }
}

fn hands_back(alloc: Global) -> bool {
    let mut stores = Stores::new(alloc);
    attach_broken(alloc, &mut stores, "ordered")
        && hands_full_back(alloc, &mut stores, "ordered")
        && has_one_name(&stores)
}

// How the namespace `shop` is placed on a store.
fn place(alloc: Global, stores: &mut Stores, store: &str) -> Option<PlaceRefused> {
    if let Ok(store) = Name::new(alloc, store)
        && let Ok(shop) = Name::new(alloc, "shop")
    {
        return stores.place(shop, &store).err();
    }
    Some(PlaceRefused::NoMemory)
}

fn detach(alloc: Global, stores: &mut Stores, store: &str) -> bool {
    match Name::new(alloc, store) {
        Ok(store) => stores.detach(&store).is_some(),
        Err(_) => false,
    }
}

// How a call about the item is answered.
fn asked(alloc: Global, stores: &mut Stores) -> Answer {
    if stores.len() == 0 {
        return Answer::Other;
    }
    match request_of(alloc, Ask::Get(ITEM)) {
        Ok(request) if is_well_formed(&request) => answer_of(&stores.perform(&request)),
        _ => Answer::Other,
    }
}

// Places the namespace on no store, on a store, and again.
fn places(alloc: Global, stores: &mut Stores) -> bool {
    place(alloc, stores, "none") == Some(PlaceRefused::NoStore)
        && place(alloc, stores, "hashed") == None
        && place(alloc, stores, "hashed") == Some(PlaceRefused::AlreadyPlaced)
}

// The placed store is asked, and once it is gone the first.
fn asks_placed(alloc: Global, stores: &mut Stores) -> bool {
    asked(alloc, stores) == Answer::NoMemory
        && detach(alloc, stores, "hashed")
        && asked(alloc, stores) == Answer::Fault
        && stores.len() == 1
}

fn asks(alloc: Global) -> bool {
    let mut stores = Stores::new(alloc);
    attach_broken(alloc, &mut stores, "ordered")
        && attach_full(alloc, &mut stores, "hashed")
        && places(alloc, &mut stores)
        && asks_placed(alloc, &mut stores)
}

// Whether the first calls that stores are asked for have the replies of the first calls of one store, so that each was made once.
fn asks_in_turn(alloc: Global) -> bool {
    let mut stores = Stores::new(alloc);
    attach_turns(alloc, &mut stores, "ordered")
        && asked(alloc, &mut stores) == Answer::NoMemory
        && asked(alloc, &mut stores) == Answer::Fault
        && asked(alloc, &mut stores) == Answer::NoMemory
}

#[test]
fn hands_a_second_store_of_one_name_back(rt: HostRuntime) -> Result<(), Fail> {
    hold(Ok(hands_back(rt.alloc())))
}

#[test]
fn asks_the_placed_store(rt: HostRuntime) -> Result<(), Fail> {
    hold(Ok(asks(rt.alloc())))
}

#[test]
fn makes_one_call_for_a_request(rt: HostRuntime) -> Result<(), Fail> {
    hold(Ok(asks_in_turn(rt.alloc())))
}
