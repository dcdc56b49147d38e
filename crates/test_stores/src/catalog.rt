//! Catalogs in stores: what is written of one, what its rows open as, and which rows are refused.
use crate::attached::{attach_both, attach_sqlite, runs};
use sdb_catalog::{CatalogRefused, open_catalog, store_catalog};
use sdb_loader::catalog_of;
use sdb_model::key_text;
use sdb_schema::Catalog;
use sdb_store::Fail as Failing;
use sdb_stores::{Registry, Stores};
use sdb_types::{Key, Name, NameRefused, Place as Placed, TableName, Txt};
use std::alloc::{AllocError, Global};
use std::test::Fail;
use test_builders::{Case, all_cases, table_of};

// How a catalog is opened: no namespace is placed, and a store is attached.
fn open(alloc: Global, stores: &mut Stores) -> Result<Catalog, CatalogRefused> {
    stores.clear_places();
    if stores.len() == 0 {
        return Err(CatalogRefused::StoreFault);
    }
    open_catalog(alloc, stores)
}

type Places = &'static [(&'static str, &'static str)];

fn placed_of(alloc: Global, ns: &str, store: &str) -> Result<Placed, NameRefused> {
    let ns = Name::new(alloc, ns)?;
    let store = Name::new(alloc, store)?;
    Ok(Placed { ns, store })
}

fn all_placed(alloc: Global, places: Places) -> Option<Vec<Placed>> {
    let mut placed = Vec::new(alloc);
    for (ns, store) in places {
        placed.push(placed_of(alloc, ns, store).ok()?).ok()?;
    }
    Some(placed)
}

fn store_placed(
    alloc: Global,
    stores: &mut Stores,
    catalog: &Catalog,
    placed: &[Placed],
) -> Result<Txt, CatalogRefused> {
    stores.clear_places();
    if stores.len() == 0 {
        return Err(CatalogRefused::NoMemory);
    }
    store_catalog(alloc, stores, catalog, placed)
}

fn store_at(
    alloc: Global,
    stores: &mut Stores,
    catalog: &Catalog,
    places: Places,
) -> Result<Txt, CatalogRefused> {
    match all_placed(alloc, places) {
        Some(placed) => store_placed(alloc, stores, catalog, placed.as_slice()),
        None => Err(CatalogRefused::NoMemory),
    }
}

fn written(
    alloc: Global,
    stores: &mut Stores,
    json: &str,
    places: Places,
) -> Result<Txt, CatalogRefused> {
    match catalog_of(alloc, json.as_bytes()) {
        Ok(catalog) => store_at(alloc, stores, &catalog, places),
        Err(_) => Err(CatalogRefused::NoMemory),
    }
}

fn is_written(alloc: Global, stores: &mut Stores, json: &str, places: Places) -> bool {
    written(alloc, stores, json, places).is_ok()
}

// Whether this is the answer to a schema that is stored.
fn answers(alloc: Global, stores: &mut Stores, json: &str, places: Places, answer: &str) -> bool {
    match written(alloc, stores, json, places) {
        Ok(text) => text.as_str() == answer,
        Err(_) => false,
    }
}

// What is stored: the rows before, the schema and its places, and then the answer and the rows after.
#[derive(Clone, Copy)]
struct Stored {
    before: &'static str,
    json: &'static str,
    places: Places,
    answer: &'static str,
    after: &'static str,
}

impl Stored {
    fn is_stored(self, alloc: Global, stores: &mut Stores) -> bool {
        runs(alloc, stores, self.before)
            && answers(alloc, stores, self.json, self.places, self.answer)
            && runs(alloc, stores, self.after)
    }

    fn is_stored_in_memory(self, alloc: Global) -> bool {
        let mut stores = Stores::new(alloc);
        attach_both(alloc, &mut stores, &[]) && self.is_stored(alloc, &mut stores)
    }

    fn is_stored_in_a_database(self, alloc: Global) -> bool {
        let mut stores = Stores::new(alloc);
        attach_sqlite(alloc, &mut stores) && self.is_stored(alloc, &mut stores)
    }
}

impl Case for Stored {
    fn holds(self, alloc: Global) -> Result<bool, Fail> {
        Ok(self.is_stored_in_memory(alloc) && self.is_stored_in_a_database(alloc))
    }
}

const BOTH: &str =
    "{\"shop.orders\":{\"partition-key\":[\"customer\"],\"clustering-key\":[\"placed desc\",\"line\"],\"secondary-index\":[\"paid\"],\"columns\":{\"scan\":\"blob\",\"customer\":\"Text\",\"line\":\"INT\",\"placed\":\"BIGINT\",\"paid\":\"BOOLEAN\"}},\"bank.account\":{\"transaction\":true,\"partition-key\":[\"id\"],\"columns\":{\"id\":\"int\",\"balance\":\"int\"}}}";

static STORED: [Stored; 5] = [
    Stored {
        before: "scalardb report 1\nevents 0\norder 0\ntables 0\nend\n",
        json: BOTH,
        places: &[("shop", "other")],
        answer: "created bank.account\ncreated coordinator.state\ncreated shop.orders\n",
        after: "scalardb report 1\nevents 1\n1 call 1 s scan scalardb.metadata seen rows 3 scalardb.metadata('bank.account'){definition='{\"clustering-key\":[],\"columns\":{\"balance\":\"INT\",\"id\":\"INT\"},\"partition-key\":[\"id\"],\"secondary-index\":[]}',store='ordered',tx_id='00000000-0000-0000-0000-000000000001',tx_state=3} scalardb.metadata('coordinator.state'){definition='{\"clustering-key\":[],\"columns\":{\"tx_created_at\":\"BIGINT\",\"tx_id\":\"TEXT\",\"tx_state\":\"INT\"},\"partition-key\":[\"tx_id\"],\"secondary-index\":[]}',store='ordered',tx_id='00000000-0000-0000-0000-000000000001',tx_state=3} scalardb.metadata('shop.orders'){definition='{\"clustering-key\":[\"placed DESC\",\"line ASC\"],\"columns\":{\"customer\":\"TEXT\",\"line\":\"INT\",\"paid\":\"BOOLEAN\",\"placed\":\"BIGINT\",\"scan\":\"BLOB\"},\"partition-key\":[\"customer\"],\"secondary-index\":[\"paid\"]}',store='other',tx_id='00000000-0000-0000-0000-000000000001',tx_state=3} -\norder 0\ntables 0\nend\n",
    },
    Stored {
        before: "scalardb report 1\nevents 2\n1 call 1 s put scalardb.metadata('bank.account'){definition='{\"clustering-key\":[],\"columns\":{\"balance\":\"INT\",\"id\":\"INT\"},\"partition-key\":[\"id\"],\"secondary-index\":[]}',store='ordered',tx_id='00000000-0000-0000-0000-000000000001',tx_state=3} if absent seen applied -\n2 call 1 s put scalardb.metadata('shop.orders'){definition='{\"clustering-key\":[\"placed DESC\",\"line ASC\"],\"columns\":{\"customer\":\"TEXT\",\"line\":\"INT\",\"paid\":\"BOOLEAN\",\"placed\":\"BIGINT\",\"scan\":\"BLOB\"},\"partition-key\":[\"customer\"],\"secondary-index\":[\"paid\"]}',store='other',tx_id='00000000-0000-0000-0000-000000000001',tx_state=3} if absent seen applied -\norder 0\ntables 0\nend\n",
        json: BOTH,
        places: &[],
        answer: "exists bank.account\ncreated coordinator.state\nexists shop.orders\n",
        after: "scalardb report 1\nevents 1\n1 call 1 s scan scalardb.metadata seen rows 3 scalardb.metadata('bank.account'){definition='{\"clustering-key\":[],\"columns\":{\"balance\":\"INT\",\"id\":\"INT\"},\"partition-key\":[\"id\"],\"secondary-index\":[]}',store='ordered',tx_id='00000000-0000-0000-0000-000000000001',tx_state=3} scalardb.metadata('coordinator.state'){definition='{\"clustering-key\":[],\"columns\":{\"tx_created_at\":\"BIGINT\",\"tx_id\":\"TEXT\",\"tx_state\":\"INT\"},\"partition-key\":[\"tx_id\"],\"secondary-index\":[]}',store='ordered',tx_id='00000000-0000-0000-0000-000000000001',tx_state=3} scalardb.metadata('shop.orders'){definition='{\"clustering-key\":[\"placed DESC\",\"line ASC\"],\"columns\":{\"customer\":\"TEXT\",\"line\":\"INT\",\"paid\":\"BOOLEAN\",\"placed\":\"BIGINT\",\"scan\":\"BLOB\"},\"partition-key\":[\"customer\"],\"secondary-index\":[\"paid\"]}',store='other',tx_id='00000000-0000-0000-0000-000000000001',tx_state=3} -\norder 0\ntables 0\nend\n",
    },
    // Another definition stays, and a table that the schema lacks too.
    Stored {
        before: "scalardb report 1\nevents 3\n1 call 1 s put scalardb.metadata('bank.account'){definition='{\"clustering-key\":[],\"columns\":{\"balance\":\"INT\",\"id\":\"INT\"},\"partition-key\":[\"id\"],\"secondary-index\":[]}',store='other',tx_id='00000000-0000-0000-0000-000000000002',tx_state=3} if absent seen applied -\n2 call 1 s put scalardb.metadata('coordinator.state'){definition='{\"clustering-key\":[],\"columns\":{\"tx_created_at\":\"BIGINT\",\"tx_id\":\"TEXT\",\"tx_state\":\"INT\"},\"partition-key\":[\"tx_id\"],\"secondary-index\":[]}',store='ordered',tx_id='00000000-0000-0000-0000-000000000001',tx_state=3} if absent seen applied -\n3 call 1 s put scalardb.metadata('shop.orders'){definition='{\"clustering-key\":[\"placed DESC\",\"line ASC\"],\"columns\":{\"customer\":\"TEXT\",\"line\":\"INT\",\"paid\":\"BOOLEAN\",\"placed\":\"BIGINT\",\"scan\":\"BLOB\"},\"partition-key\":[\"customer\"],\"secondary-index\":[\"paid\"]}',store='other',tx_id='00000000-0000-0000-0000-000000000001',tx_state=3} if absent seen applied -\norder 0\ntables 0\nend\n",
        json: "{\"bank.account\":{\"partition-key\":[\"id\"],\"columns\":{\"id\":\"INT\"}}}",
        places: &[],
        answer: "differs bank.account\nexists coordinator.state\n",
        after: "scalardb report 1\nevents 1\n1 call 1 s scan scalardb.metadata seen rows 3 scalardb.metadata('bank.account'){definition='{\"clustering-key\":[],\"columns\":{\"balance\":\"INT\",\"id\":\"INT\"},\"partition-key\":[\"id\"],\"secondary-index\":[]}',store='other',tx_id='00000000-0000-0000-0000-000000000002',tx_state=3} scalardb.metadata('coordinator.state'){definition='{\"clustering-key\":[],\"columns\":{\"tx_created_at\":\"BIGINT\",\"tx_id\":\"TEXT\",\"tx_state\":\"INT\"},\"partition-key\":[\"tx_id\"],\"secondary-index\":[]}',store='ordered',tx_id='00000000-0000-0000-0000-000000000001',tx_state=3} scalardb.metadata('shop.orders'){definition='{\"clustering-key\":[\"placed DESC\",\"line ASC\"],\"columns\":{\"customer\":\"TEXT\",\"line\":\"INT\",\"paid\":\"BOOLEAN\",\"placed\":\"BIGINT\",\"scan\":\"BLOB\"},\"partition-key\":[\"customer\"],\"secondary-index\":[\"paid\"]}',store='other',tx_id='00000000-0000-0000-0000-000000000001',tx_state=3} -\norder 0\ntables 0\nend\n",
    },
    // A namespace keeps its store, whatever its place.
    Stored {
        before: "scalardb report 1\nevents 1\n1 call 1 s put scalardb.metadata('shop.orders'){definition='{\"clustering-key\":[\"placed DESC\",\"line ASC\"],\"columns\":{\"customer\":\"TEXT\",\"line\":\"INT\",\"paid\":\"BOOLEAN\",\"placed\":\"BIGINT\",\"scan\":\"BLOB\"},\"partition-key\":[\"customer\"],\"secondary-index\":[\"paid\"]}',store='other',tx_id='00000000-0000-0000-0000-000000000001',tx_state=3} if absent seen applied -\norder 0\ntables 0\nend\n",
        json: "{\"shop.tag\":{\"partition-key\":[\"t\"],\"columns\":{\"t\":\"TEXT\"}}}",
        places: &[("shop", "ordered")],
        answer: "created coordinator.state\ncreated shop.tag\n",
        after: "scalardb report 1\nevents 1\n1 call 1 s scan scalardb.metadata seen rows 3 scalardb.metadata('coordinator.state'){definition='{\"clustering-key\":[],\"columns\":{\"tx_created_at\":\"BIGINT\",\"tx_id\":\"TEXT\",\"tx_state\":\"INT\"},\"partition-key\":[\"tx_id\"],\"secondary-index\":[]}',store='ordered',tx_id='00000000-0000-0000-0000-000000000001',tx_state=3} scalardb.metadata('shop.orders'){definition='{\"clustering-key\":[\"placed DESC\",\"line ASC\"],\"columns\":{\"customer\":\"TEXT\",\"line\":\"INT\",\"paid\":\"BOOLEAN\",\"placed\":\"BIGINT\",\"scan\":\"BLOB\"},\"partition-key\":[\"customer\"],\"secondary-index\":[\"paid\"]}',store='other',tx_id='00000000-0000-0000-0000-000000000001',tx_state=3} scalardb.metadata('shop.tag'){definition='{\"clustering-key\":[],\"columns\":{\"t\":\"TEXT\"},\"partition-key\":[\"t\"],\"secondary-index\":[]}',store='other',tx_id='00000000-0000-0000-0000-000000000001',tx_state=3} -\norder 0\ntables 0\nend\n",
    },
    Stored {
        before: "scalardb report 1\nevents 0\norder 0\ntables 0\nend\n",
        json: "{}",
        places: &[],
        answer: "created coordinator.state\n",
        after: "scalardb report 1\nevents 1\n1 call 1 s scan scalardb.metadata seen rows 1 scalardb.metadata('coordinator.state'){definition='{\"clustering-key\":[],\"columns\":{\"tx_created_at\":\"BIGINT\",\"tx_id\":\"TEXT\",\"tx_state\":\"INT\"},\"partition-key\":[\"tx_id\"],\"secondary-index\":[]}',store='ordered',tx_id='00000000-0000-0000-0000-000000000001',tx_state=3} -\norder 0\ntables 0\nend\n",
    },
];

#[test]
fn catalogs_are_written_as_rows(rt: HostRuntime) -> Result<(), Fail> {
    all_cases(rt.alloc(), "stored", STORED.as_slice())
}

// What is asked of stores.
#[derive(Clone, Copy)]
enum Ask {
    // What rows open as: the names of each table, and its store.
    Opened(&'static str, &'static [(&'static str, &'static str, &'static str)]),
    // What is read back is what was written.
    ReadBack,
    // 64 tables are written, and the 65th isn't; its row, put by somebody else, is a bad one.
    Full(&'static str, &'static str),
    // A catalog is not written, and these rows are there.
    Failed(&'static str),
    // Over these rows a catalog is not written, since the row of this key is bad, and nothing has changed.
    Unwritten(&'static str, &'static str, &'static str),
}

// The calls at which the first store fails, and what is asked.
#[derive(Clone, Copy)]
struct Check(&'static [Failing], Ask);

fn is_placed(stores: &Stores, name: &TableName, store: &str) -> bool {
    stores.len() != 0 && stores.store_of(name).as_str() == store
}

fn is_table(
    alloc: Global,
    stores: &Stores,
    catalog: &Catalog,
    i: usize,
    acked: (&str, &str, &str),
) -> bool {
    if let Some(table) = catalog.at(i)
        && let Ok(name) = table_of(alloc, acked.0, acked.1)
    {
        return table.name == name && is_placed(stores, &table.name, acked.2);
    }
    false
}

fn has_tables(
    alloc: Global,
    stores: &Stores,
    catalog: &Catalog,
    tables: &[(&str, &str, &str)],
) -> bool {
    for (i, acked) in tables.iter().enumerate() {
        if !is_table(alloc, stores, catalog, i, *acked) {
            return false;
        }
    }
    catalog.len() == tables.len()
}

fn opens(alloc: Global, stores: &mut Stores, tables: &[(&str, &str, &str)]) -> bool {
    match open(alloc, stores) {
        Ok(catalog) => has_tables(alloc, stores, &catalog, tables),
        Err(_) => false,
    }
}

fn is_both(alloc: Global, catalog: &Catalog) -> bool {
    match catalog_of(alloc, BOTH.as_bytes()) {
        Ok(both) => catalog.at(1) == both.at(1),
        Err(_) => false,
    }
}

fn opens_both(alloc: Global, stores: &mut Stores) -> bool {
    match open(alloc, stores) {
        Ok(catalog) => is_both(alloc, &catalog),
        Err(_) => false,
    }
}

fn is_key(alloc: Global, found: &Key, key: &str) -> bool {
    match key_text(alloc, found) {
        Ok(text) => text.as_str() == key,
        Err(_) => false,
    }
}

fn names_bad(alloc: Global, stores: &mut Stores, key: &str) -> bool {
    match open(alloc, stores) {
        Err(CatalogRefused::BadRow(bad)) => is_key(alloc, &bad, key),
        _ => false,
    }
}

fn is_bad(alloc: Global, stores: &mut Stores, rows: &str, key: &str) -> bool {
    runs(alloc, stores, rows) && names_bad(alloc, stores, key)
}

fn put_table(alloc: Global, json: &mut String, i: u32) -> Result<(), AllocError> {
    let comma = if i == 10 { "" } else { "," };
    let table = format!(in alloc;
        "{comma}\"s.t{i}\":{{\"partition-key\":[\"k\"],\"columns\":{{\"k\":\"INT\"}}}}"
    )?;
    json.push_str(table.as_str())
}

// The JSON of a schema with the tables `s.t10` to `s.t73`.
fn many(alloc: Global) -> Result<String, AllocError> {
    let mut json = String::from_str(alloc, "{")?;
    for i in 10..74 {
        put_table(alloc, &mut json, i)?;
    }
    json.push_str("}")?;
    Ok(json)
}

fn is_many_written(alloc: Global, stores: &mut Stores) -> bool {
    match many(alloc) {
        Ok(json) => is_written(alloc, stores, json.as_str(), &[]),
        Err(_) => false,
    }
}

const LATE_JSON: &str =
    "{\"s.u\":{\"partition-key\":[\"k\"],\"columns\":{\"k\":\"INT\"}},\"s.t10\":{\"partition-key\":[\"k\"],\"columns\":{\"k\":\"INT\"}}}";

const LATE_ANSWER: &str = "exists coordinator.state\nexists s.t10\nfull s.u\n";

fn opens_64(alloc: Global, stores: &mut Stores) -> bool {
    match open(alloc, stores) {
        Ok(catalog) => catalog.len() == 64,
        Err(_) => false,
    }
}

fn is_full(alloc: Global, stores: &mut Stores, rows: &str, key: &str) -> bool {
    let full = is_many_written(alloc, stores)
        && answers(alloc, stores, LATE_JSON, &[], LATE_ANSWER)
        && opens_64(alloc, stores);
    stores.clear_places();
    full && is_bad(alloc, stores, rows, key)
}

fn is_store_fault(alloc: Global, stores: &mut Stores) -> bool {
    matches!(
        written(alloc, stores, BOTH, &[]),
        Err(CatalogRefused::StoreFault)
    )
}

fn refuses_bad(alloc: Global, stores: &mut Stores, key: &str) -> bool {
    match written(alloc, stores, BOTH, &[]) {
        Err(CatalogRefused::BadRow(bad)) => is_key(alloc, &bad, key),
        _ => false,
    }
}

fn answered(alloc: Global, stores: &mut Stores, asked: Ask) -> bool {
    match asked {
        Ask::Opened(rows, tables) => { runs(alloc, stores, rows) && opens(alloc, stores, tables) }
        Ask::ReadBack => {
            is_written(alloc, stores, BOTH, &[("shop", "other")]) && opens_both(alloc, stores)
        }
        Ask::Full(rows, key) => is_full(alloc, stores, rows, key),
        Ask::Failed(rows) => is_store_fault(alloc, stores) && runs(alloc, stores, rows),
        Ask::Unwritten(rows, key, after) => {
            runs(alloc, stores, rows)
                && refuses_bad(alloc, stores, key)
                && runs(alloc, stores, after)
        }
    }
}

impl Case for Check {
    fn holds(self, alloc: Global) -> Result<bool, Fail> {
        let mut stores = Stores::new(alloc);
        Ok(attach_both(alloc, &mut stores, self.0) && answered(alloc, &mut stores, self.1))
    }
}

// Rows that open as a catalog, a catalog of 64 tables, and calls that fail: the scan, then one put for each table.
static OPENED: [Check; 11] = [
    Check(
        &[],
        Ask::Opened("scalardb report 1\nevents 0\norder 0\ntables 0\nend\n", &[]),
    ),
    Check(
        &[],
        Ask::Opened(
            "scalardb report 1\nevents 3\n1 call 1 s put scalardb.metadata('shop.orders'){definition='{\"clustering-key\":[\"placed DESC\",\"line ASC\"],\"columns\":{\"customer\":\"TEXT\",\"line\":\"INT\",\"paid\":\"BOOLEAN\",\"placed\":\"BIGINT\",\"scan\":\"BLOB\"},\"partition-key\":[\"customer\"],\"secondary-index\":[\"paid\"]}',store='other',tx_id='00000000-0000-0000-0000-000000000001',tx_state=3} if absent seen applied -\n2 call 1 s put scalardb.metadata('bank.account'){definition='{\"clustering-key\":[],\"columns\":{\"balance\":\"INT\",\"id\":\"INT\"},\"partition-key\":[\"id\"],\"secondary-index\":[]}',store='other',tx_id='00000000-0000-0000-0000-000000000002',tx_state=3} if absent seen applied -\n3 call 1 s put scalardb.metadata('coordinator.state'){definition='{\"clustering-key\":[],\"columns\":{\"tx_created_at\":\"BIGINT\",\"tx_id\":\"TEXT\",\"tx_state\":\"INT\"},\"partition-key\":[\"tx_id\"],\"secondary-index\":[]}',store='ordered',tx_id='00000000-0000-0000-0000-000000000001',tx_state=3} if absent seen applied -\norder 0\ntables 0\nend\n",
            &[("bank", "account", "other"), ("shop", "orders", "other")],
        ),
    ),
    Check(
        &[],
        Ask::Opened(
            "scalardb report 1\nevents 2\n1 call 1 s put scalardb.metadata('bank.account'){definition='{\"clustering-key\":[],\"columns\":{\"balance\":\"INT\",\"id\":\"INT\"},\"partition-key\":[\"id\"],\"secondary-index\":[]}',store='ordered',tx_id='00000000-0000-0000-0000-000000000001',tx_state=3} if absent seen applied -\n2 call 1 s put scalardb.metadata('shop.tag'){definition='{\"clustering-key\":[],\"columns\":{\"t\":\"TEXT\"},\"partition-key\":[\"t\"],\"secondary-index\":[]}',store='other',tx_id='00000000-0000-0000-0000-000000000001',tx_state=3} if absent seen applied -\norder 0\ntables 0\nend\n",
            &[("bank", "account", "ordered"), ("shop", "tag", "other")],
        ),
    ),
    Check(&[], Ask::ReadBack),
    Check(
        &[],
        Ask::Full(
            "scalardb report 1\nevents 1\n1 call 1 s put scalardb.metadata('s.u'){definition='{\"clustering-key\":[],\"columns\":{\"k\":\"INT\"},\"partition-key\":[\"k\"],\"secondary-index\":[]}',store='ordered',tx_id='00000000-0000-0000-0000-000000000001',tx_state=3} if absent seen applied -\norder 0\ntables 0\nend\n",
            "scalardb.metadata('s.u')",
        ),
    ),
    Check(
        &[Failing {
            call: 1,
            after: false,
        }],
        Ask::Failed(
            "scalardb report 1\nevents 1\n1 call 1 s scan scalardb.metadata seen rows 0 -\norder 0\ntables 0\nend\n",
        ),
    ),
    Check(
        &[Failing {
            call: 2,
            after: false,
        }],
        Ask::Failed(
            "scalardb report 1\nevents 1\n1 call 1 s scan scalardb.metadata seen rows 0 -\norder 0\ntables 0\nend\n",
        ),
    ),
    Check(
        &[Failing {
            call: 2,
            after: true,
        }],
        Ask::Failed(
            "scalardb report 1\nevents 1\n1 call 1 s scan scalardb.metadata seen rows 1 scalardb.metadata('bank.account'){definition='{\"clustering-key\":[],\"columns\":{\"balance\":\"INT\",\"id\":\"INT\"},\"partition-key\":[\"id\"],\"secondary-index\":[]}',store='ordered',tx_id='00000000-0000-0000-0000-000000000001',tx_state=3} -\norder 0\ntables 0\nend\n",
        ),
    ),
    Check(
        &[Failing {
            call: 3,
            after: false,
        }],
        Ask::Failed(
            "scalardb report 1\nevents 1\n1 call 1 s scan scalardb.metadata seen rows 1 scalardb.metadata('bank.account'){definition='{\"clustering-key\":[],\"columns\":{\"balance\":\"INT\",\"id\":\"INT\"},\"partition-key\":[\"id\"],\"secondary-index\":[]}',store='ordered',tx_id='00000000-0000-0000-0000-000000000001',tx_state=3} -\norder 0\ntables 0\nend\n",
        ),
    ),
    Check(
        &[Failing {
            call: 3,
            after: true,
        }],
        Ask::Failed(
            "scalardb report 1\nevents 1\n1 call 1 s scan scalardb.metadata seen rows 2 scalardb.metadata('bank.account'){definition='{\"clustering-key\":[],\"columns\":{\"balance\":\"INT\",\"id\":\"INT\"},\"partition-key\":[\"id\"],\"secondary-index\":[]}',store='ordered',tx_id='00000000-0000-0000-0000-000000000001',tx_state=3} scalardb.metadata('coordinator.state'){definition='{\"clustering-key\":[],\"columns\":{\"tx_created_at\":\"BIGINT\",\"tx_id\":\"TEXT\",\"tx_state\":\"INT\"},\"partition-key\":[\"tx_id\"],\"secondary-index\":[]}',store='ordered',tx_id='00000000-0000-0000-0000-000000000001',tx_state=3} -\norder 0\ntables 0\nend\n",
        ),
    ),
    Check(
        &[],
        Ask::Unwritten(
            "scalardb report 1\nevents 1\n1 call 1 s put scalardb.metadata('shop.orders'){tx_state=3} if absent seen applied -\norder 0\ntables 0\nend\n",
            "scalardb.metadata('shop.orders')",
            "scalardb report 1\nevents 1\n1 call 1 s scan scalardb.metadata seen rows 1 scalardb.metadata('shop.orders'){tx_state=3} -\norder 0\ntables 0\nend\n",
        ),
    ),
];

fn are_opened(alloc: Global) -> Result<(), Fail> {
    all_cases(alloc, "opened", OPENED.as_slice())
}

// Rows, and the key of the one that is refused.
#[derive(Clone, Copy)]
struct BadRow(&'static str, &'static str);

impl Case for BadRow {
    fn holds(self, alloc: Global) -> Result<bool, Fail> {
        let mut stores = Stores::new(alloc);
        Ok(attach_both(alloc, &mut stores, &[]) && is_bad(alloc, &mut stores, self.0, self.1))
    }
}

static DEFINED: [BadRow; 17] = [
    // Definitions that are no JSON, none of a table, or no compact text of one.
    BadRow(
        "scalardb report 1\nevents 1\n1 call 1 s put scalardb.metadata('bank.account'){definition='{',store='ordered',tx_id='00000000-0000-0000-0000-000000000001',tx_state=3} if absent seen applied -\norder 0\ntables 0\nend\n",
        "scalardb.metadata('bank.account')",
    ),
    BadRow(
        "scalardb report 1\nevents 1\n1 call 1 s put scalardb.metadata('bank.account'){definition='[]',store='ordered',tx_id='00000000-0000-0000-0000-000000000001',tx_state=3} if absent seen applied -\norder 0\ntables 0\nend\n",
        "scalardb.metadata('bank.account')",
    ),
    BadRow(
        "scalardb report 1\nevents 1\n1 call 1 s put scalardb.metadata('bank.account'){definition='{\"clustering-key\": [],\"columns\":{\"balance\":\"INT\",\"id\":\"INT\"},\"partition-key\":[\"id\"],\"secondary-index\":[]}',store='ordered',tx_id='00000000-0000-0000-0000-000000000001',tx_state=3} if absent seen applied -\norder 0\ntables 0\nend\n",
        "scalardb.metadata('bank.account')",
    ),
    BadRow(
        "scalardb report 1\nevents 1\n1 call 1 s put scalardb.metadata('bank.account'){definition='{\"clustering-key\":[],\"columns\":{\"balance\":\"INT\",\"id\":\"int\"},\"partition-key\":[\"id\"],\"secondary-index\":[]}',store='ordered',tx_id='00000000-0000-0000-0000-000000000001',tx_state=3} if absent seen applied -\norder 0\ntables 0\nend\n",
        "scalardb.metadata('bank.account')",
    ),
    BadRow(
        "scalardb report 1\nevents 1\n1 call 1 s put scalardb.metadata('bank.account'){definition='{\"columns\":{\"balance\":\"INT\",\"id\":\"INT\"},\"clustering-key\":[],\"partition-key\":[\"id\"],\"secondary-index\":[]}',store='ordered',tx_id='00000000-0000-0000-0000-000000000001',tx_state=3} if absent seen applied -\norder 0\ntables 0\nend\n",
        "scalardb.metadata('bank.account')",
    ),
    BadRow(
        "scalardb report 1\nevents 1\n1 call 1 s put scalardb.metadata('bank.account'){definition='{\"clustering-key\":[],\"columns\":{\"balance\":\"FLOAT\",\"id\":\"INT\"},\"partition-key\":[\"id\"],\"secondary-index\":[]}',store='ordered',tx_id='00000000-0000-0000-0000-000000000001',tx_state=3} if absent seen applied -\norder 0\ntables 0\nend\n",
        "scalardb.metadata('bank.account')",
    ),
    BadRow(
        "scalardb report 1\nevents 1\n1 call 1 s put scalardb.metadata('bank.account'){definition='{\"clustering-key\":[],\"columns\":{\"balance\":\"INT\",\"id\":\"INT\"},\"partition-key\":[],\"secondary-index\":[]}',store='ordered',tx_id='00000000-0000-0000-0000-000000000001',tx_state=3} if absent seen applied -\norder 0\ntables 0\nend\n",
        "scalardb.metadata('bank.account')",
    ),
    BadRow(
        "scalardb report 1\nevents 1\n1 call 1 s put scalardb.metadata('bank.account'){definition='{\"clustering-key\":[\"balance\"],\"columns\":{\"balance\":\"INT\",\"id\":\"INT\"},\"partition-key\":[\"id\"],\"secondary-index\":[]}',store='ordered',tx_id='00000000-0000-0000-0000-000000000001',tx_state=3} if absent seen applied -\norder 0\ntables 0\nend\n",
        "scalardb.metadata('bank.account')",
    ),
    BadRow(
        "scalardb report 1\nevents 1\n1 call 1 s put scalardb.metadata('bank.account'){definition='{\"clustering-key\":[],\"columns\":{\"balance\":\"INT\",\"id\":\"INT\"},\"partition-key\":[\"id\"],\"secondary-index\":[],\"transaction\":true}',store='ordered',tx_id='00000000-0000-0000-0000-000000000001',tx_state=3} if absent seen applied -\norder 0\ntables 0\nend\n",
        "scalardb.metadata('bank.account')",
    ),
    BadRow(
        "scalardb report 1\nevents 1\n1 call 1 s put scalardb.metadata('bank.account'){definition='{\"clustering-key\":[],\"columns\":{\"tx_created_at\":\"BIGINT\",\"tx_id\":\"TEXT\",\"tx_state\":\"INT\"},\"partition-key\":[\"tx_id\"],\"secondary-index\":[]}',store='ordered',tx_id='00000000-0000-0000-0000-000000000001',tx_state=3} if absent seen applied -\norder 0\ntables 0\nend\n",
        "scalardb.metadata('bank.account')",
    ),
    BadRow(
        "scalardb report 1\nevents 1\n1 call 1 s put scalardb.metadata('coordinator.state'){definition='{\"clustering-key\":[],\"columns\":{\"balance\":\"INT\",\"id\":\"INT\"},\"partition-key\":[\"id\"],\"secondary-index\":[]}',store='ordered',tx_id='00000000-0000-0000-0000-000000000001',tx_state=3} if absent seen applied -\norder 0\ntables 0\nend\n",
        "scalardb.metadata('coordinator.state')",
    ),
    // Keys of another form, and namespaces that are not a schema's.
    BadRow(
        "scalardb report 1\nevents 1\n1 call 1 s put scalardb.metadata('bank'){definition='{\"clustering-key\":[],\"columns\":{\"balance\":\"INT\",\"id\":\"INT\"},\"partition-key\":[\"id\"],\"secondary-index\":[]}',store='ordered',tx_id='00000000-0000-0000-0000-000000000001',tx_state=3} if absent seen applied -\norder 0\ntables 0\nend\n",
        "scalardb.metadata('bank')",
    ),
    BadRow(
        "scalardb report 1\nevents 1\n1 call 1 s put scalardb.metadata('bank.account.x'){definition='{\"clustering-key\":[],\"columns\":{\"balance\":\"INT\",\"id\":\"INT\"},\"partition-key\":[\"id\"],\"secondary-index\":[]}',store='ordered',tx_id='00000000-0000-0000-0000-000000000001',tx_state=3} if absent seen applied -\norder 0\ntables 0\nend\n",
        "scalardb.metadata('bank.account.x')",
    ),
    BadRow(
        "scalardb report 1\nevents 1\n1 call 1 s put scalardb.metadata('scalardb.metadata'){definition='{\"clustering-key\":[],\"columns\":{\"balance\":\"INT\",\"id\":\"INT\"},\"partition-key\":[\"id\"],\"secondary-index\":[]}',store='ordered',tx_id='00000000-0000-0000-0000-000000000001',tx_state=3} if absent seen applied -\norder 0\ntables 0\nend\n",
        "scalardb.metadata('scalardb.metadata')",
    ),
    BadRow(
        "scalardb report 1\nevents 1\n1 call 1 s put scalardb.metadata('coordinator.other'){definition='{\"clustering-key\":[],\"columns\":{\"tx_created_at\":\"BIGINT\",\"tx_id\":\"TEXT\",\"tx_state\":\"INT\"},\"partition-key\":[\"tx_id\"],\"secondary-index\":[]}',store='ordered',tx_id='00000000-0000-0000-0000-000000000001',tx_state=3} if absent seen applied -\norder 0\ntables 0\nend\n",
        "scalardb.metadata('coordinator.other')",
    ),
    BadRow(
        "scalardb report 1\nevents 1\n1 call 1 s put scalardb.metadata(1){definition='{\"clustering-key\":[],\"columns\":{\"balance\":\"INT\",\"id\":\"INT\"},\"partition-key\":[\"id\"],\"secondary-index\":[]}',store='ordered',tx_id='00000000-0000-0000-0000-000000000001',tx_state=3} if absent seen applied -\norder 0\ntables 0\nend\n",
        "scalardb.metadata(1)",
    ),
    BadRow(
        "scalardb report 1\nevents 1\n1 call 1 s put scalardb.metadata('bank.account',NULL){definition='{\"clustering-key\":[],\"columns\":{\"balance\":\"INT\",\"id\":\"INT\"},\"partition-key\":[\"id\"],\"secondary-index\":[]}',store='ordered',tx_id='00000000-0000-0000-0000-000000000001',tx_state=3} if absent seen applied -\norder 0\ntables 0\nend\n",
        "scalardb.metadata('bank.account',NULL)",
    ),
];

fn are_bad_definitions(alloc: Global) -> Result<(), Fail> {
    all_cases(alloc, "defined", DEFINED.as_slice())
}

static ROWS: [BadRow; 12] = [
    // Columns that are missing, further ones, and values of another form.
    BadRow(
        "scalardb report 1\nevents 1\n1 call 1 s put scalardb.metadata('bank.account'){store='ordered',tx_id='00000000-0000-0000-0000-000000000001',tx_state=3} if absent seen applied -\norder 0\ntables 0\nend\n",
        "scalardb.metadata('bank.account')",
    ),
    BadRow(
        "scalardb report 1\nevents 1\n1 call 1 s put scalardb.metadata('bank.account'){definition='{\"clustering-key\":[],\"columns\":{\"balance\":\"INT\",\"id\":\"INT\"},\"partition-key\":[\"id\"],\"secondary-index\":[]}',tx_id='00000000-0000-0000-0000-000000000001',tx_state=3} if absent seen applied -\norder 0\ntables 0\nend\n",
        "scalardb.metadata('bank.account')",
    ),
    BadRow(
        "scalardb report 1\nevents 1\n1 call 1 s put scalardb.metadata('bank.account'){definition='{\"clustering-key\":[],\"columns\":{\"balance\":\"INT\",\"id\":\"INT\"},\"partition-key\":[\"id\"],\"secondary-index\":[]}',store='ordered',tx_state=3} if absent seen applied -\norder 0\ntables 0\nend\n",
        "scalardb.metadata('bank.account')",
    ),
    BadRow(
        "scalardb report 1\nevents 1\n1 call 1 s put scalardb.metadata('bank.account'){definition='{\"clustering-key\":[],\"columns\":{\"balance\":\"INT\",\"id\":\"INT\"},\"partition-key\":[\"id\"],\"secondary-index\":[]}',store='ordered',tx_id='00000000-0000-0000-0000-000000000001'} if absent seen applied -\norder 0\ntables 0\nend\n",
        "scalardb.metadata('bank.account')",
    ),
    BadRow(
        "scalardb report 1\nevents 1\n1 call 1 s put scalardb.metadata('bank.account'){definition='{\"clustering-key\":[],\"columns\":{\"balance\":\"INT\",\"id\":\"INT\"},\"partition-key\":[\"id\"],\"secondary-index\":[]}',store='ordered',tx_id='00000000-0000-0000-0000-000000000001',tx_state=1} if absent seen applied -\norder 0\ntables 0\nend\n",
        "scalardb.metadata('bank.account')",
    ),
    BadRow(
        "scalardb report 1\nevents 1\n1 call 1 s put scalardb.metadata('bank.account'){definition='{\"clustering-key\":[],\"columns\":{\"balance\":\"INT\",\"id\":\"INT\"},\"partition-key\":[\"id\"],\"secondary-index\":[]}',store='ordered',tx_id='00000000-0000-0000-0000-000000000001',tx_state=3L} if absent seen applied -\norder 0\ntables 0\nend\n",
        "scalardb.metadata('bank.account')",
    ),
    BadRow(
        "scalardb report 1\nevents 1\n1 call 1 s put scalardb.metadata('bank.account'){definition='{\"clustering-key\":[],\"columns\":{\"balance\":\"INT\",\"id\":\"INT\"},\"partition-key\":[\"id\"],\"secondary-index\":[]}',store='ordered',tx_id='1',tx_state=3} if absent seen applied -\norder 0\ntables 0\nend\n",
        "scalardb.metadata('bank.account')",
    ),
    BadRow(
        "scalardb report 1\nevents 1\n1 call 1 s put scalardb.metadata('bank.account'){definition='{\"clustering-key\":[],\"columns\":{\"balance\":\"INT\",\"id\":\"INT\"},\"partition-key\":[\"id\"],\"secondary-index\":[]}',store='ordered',tx_id='00000000-0000-0000-0000-00000000000A',tx_state=3} if absent seen applied -\norder 0\ntables 0\nend\n",
        "scalardb.metadata('bank.account')",
    ),
    BadRow(
        "scalardb report 1\nevents 1\n1 call 1 s put scalardb.metadata('bank.account'){definition='{\"clustering-key\":[],\"columns\":{\"balance\":\"INT\",\"id\":\"INT\"},\"partition-key\":[\"id\"],\"secondary-index\":[]}',indexed=TRUE,store='ordered',tx_id='00000000-0000-0000-0000-000000000001',tx_state=3} if absent seen applied -\norder 0\ntables 0\nend\n",
        "scalardb.metadata('bank.account')",
    ),
    // A store that is not attached.
    BadRow(
        "scalardb report 1\nevents 1\n1 call 1 s put scalardb.metadata('bank.account'){definition='{\"clustering-key\":[],\"columns\":{\"balance\":\"INT\",\"id\":\"INT\"},\"partition-key\":[\"id\"],\"secondary-index\":[]}',store='none',tx_id='00000000-0000-0000-0000-000000000001',tx_state=3} if absent seen applied -\norder 0\ntables 0\nend\n",
        "scalardb.metadata('bank.account')",
    ),
    // A namespace in two stores, whose later row is the bad one, and the first of two bad rows in the order of keys.
    BadRow(
        "scalardb report 1\nevents 3\n1 call 1 s put scalardb.metadata('shop.orders'){definition='{\"clustering-key\":[\"placed DESC\",\"line ASC\"],\"columns\":{\"customer\":\"TEXT\",\"line\":\"INT\",\"paid\":\"BOOLEAN\",\"placed\":\"BIGINT\",\"scan\":\"BLOB\"},\"partition-key\":[\"customer\"],\"secondary-index\":[\"paid\"]}',store='other',tx_id='00000000-0000-0000-0000-000000000001',tx_state=3} if absent seen applied -\n2 call 1 s put scalardb.metadata('bank.account'){definition='{\"clustering-key\":[],\"columns\":{\"balance\":\"INT\",\"id\":\"INT\"},\"partition-key\":[\"id\"],\"secondary-index\":[]}',store='ordered',tx_id='00000000-0000-0000-0000-000000000001',tx_state=3} if absent seen applied -\n3 call 1 s put scalardb.metadata('shop.pay'){definition='{\"clustering-key\":[],\"columns\":{\"t\":\"TEXT\"},\"partition-key\":[\"t\"],\"secondary-index\":[]}',store='ordered',tx_id='00000000-0000-0000-0000-000000000001',tx_state=3} if absent seen applied -\norder 0\ntables 0\nend\n",
        "scalardb.metadata('shop.pay')",
    ),
    BadRow(
        "scalardb report 1\nevents 2\n1 call 1 s put scalardb.metadata('shop.orders'){} if absent seen applied -\n2 call 1 s put scalardb.metadata('bank.account'){tx_state=3} if absent seen applied -\norder 0\ntables 0\nend\n",
        "scalardb.metadata('bank.account')",
    ),
];

fn are_bad_rows(alloc: Global) -> Result<(), Fail> {
    all_cases(alloc, "rows", ROWS.as_slice())
}

#[test]
fn rows_open_as_a_catalog_or_are_refused(rt: HostRuntime) -> Result<(), Fail> {
    are_opened(rt.alloc())?;
    are_bad_definitions(rt.alloc())?;
    are_bad_rows(rt.alloc())
}
