//! Columns added to the tables of catalogs in stores.
use crate::attached::{attach_both, attach_puppet, attach_sqlite, runs};
use crate::puppet::listed;
use sdb_catalog::{AlterRefused, alter_table};
use sdb_loader::catalog_of;
use sdb_model::key_text;
use sdb_schema::{Catalog, Column, Kind, Table};
use sdb_store::Fail as Failing;
use sdb_stores::{Registry, Stores};
use sdb_types::{Key, Name, TableName, Txt};
use std::alloc::Global;
use std::test::Fail;
use test_builders::{Case, all_cases, hold, table_of};

// A table and a column of texts.
#[derive(Clone, Copy)]
struct Added(&'static str, &'static str, &'static str);

// What comes of it: the answer, or why there is none.
#[derive(Clone, Copy)]
enum Came {
    Line(&'static str),
    BadRow(&'static str),
    NoTable,
    StoreFault,
}

fn is_key(alloc: Global, found: &Key, key: &str) -> bool {
    match key_text(alloc, found) {
        Ok(text) => text.as_str() == key,
        Err(_) => false,
    }
}

impl Came {
    fn is_so(self, alloc: Global, found: &Result<Txt, AlterRefused>) -> bool {
        match (self, found) {
            (Came::Line(line), Ok(text)) => text.as_str() == line,
            (Came::BadRow(key), Err(AlterRefused::BadRow(bad))) => is_key(alloc, bad, key),
            (Came::NoTable, Err(AlterRefused::NoTable)) => true,
            (Came::StoreFault, Err(AlterRefused::StoreFault)) => true,
            _ => false,
        }
    }
}

fn alters(
    alloc: Global,
    stores: &mut Stores,
    table: &TableName,
    column: &Column,
    came: Came,
) -> bool {
    stores.clear_places();
    stores.len() != 0
        && column.name.as_str().len() <= 64
        && came.is_so(alloc, &alter_table(alloc, stores, table, column))
}

impl Added {
    fn comes(self, alloc: Global, stores: &mut Stores, came: Came) -> bool {
        if let Ok(table) = table_of(alloc, self.0, self.1)
            && let Ok(name) = Name::new(alloc, self.2)
        {
            let column = Column {
                name,
                kind: Kind::Text,
            };
            return alters(alloc, stores, &table, &column, came);
        }
        false
    }
}

// Over these rows, what comes of a column, and the rows then.
#[derive(Clone, Copy)]
struct Altered {
    before: &'static str,
    added: Added,
    came: Came,
    after: &'static str,
}

impl Altered {
    fn is_so(self, alloc: Global, stores: &mut Stores) -> bool {
        runs(alloc, stores, self.before)
            && self.added.comes(alloc, stores, self.came)
            && runs(alloc, stores, self.after)
    }

    fn is_so_in_memory(self, alloc: Global) -> bool {
        let mut stores = Stores::new(alloc);
        attach_both(alloc, &mut stores, &[]) && self.is_so(alloc, &mut stores)
    }

    fn is_so_in_a_database(self, alloc: Global) -> bool {
        let mut stores = Stores::new(alloc);
        attach_sqlite(alloc, &mut stores) && self.is_so(alloc, &mut stores)
    }
}

impl Case for Altered {
    fn holds(self, alloc: Global) -> Result<bool, Fail> {
        Ok(self.is_so_in_memory(alloc) && self.is_so_in_a_database(alloc))
    }
}

const PUT: &str =
    "scalardb report 1\nevents 3\n1 call 1 s put scalardb.metadata('bank.account'){definition='{\"clustering-key\":[],\"columns\":{\"balance\":\"INT\",\"id\":\"INT\"},\"partition-key\":[\"id\"],\"secondary-index\":[]}',store='ordered',tx_id='00000000-0000-0000-0000-000000000001',tx_state=3} if absent seen applied -\n2 call 1 s put scalardb.metadata('coordinator.state'){definition='{\"clustering-key\":[],\"columns\":{\"tx_created_at\":\"BIGINT\",\"tx_id\":\"TEXT\",\"tx_state\":\"INT\"},\"partition-key\":[\"tx_id\"],\"secondary-index\":[]}',store='ordered',tx_id='00000000-0000-0000-0000-000000000001',tx_state=3} if absent seen applied -\n3 call 1 s put scalardb.metadata('shop.orders'){definition='{\"clustering-key\":[\"placed DESC\"],\"columns\":{\"customer\":\"TEXT\",\"paid\":\"BOOLEAN\",\"placed\":\"BIGINT\"},\"partition-key\":[\"customer\"],\"secondary-index\":[\"paid\"]}',store='other',tx_id='00000000-0000-0000-0000-000000000001',tx_state=3} if absent seen applied -\norder 0\ntables 0\nend\n";

const UNCHANGED: &str =
    "scalardb report 1\nevents 1\n1 call 1 s scan scalardb.metadata seen rows 3 scalardb.metadata('bank.account'){definition='{\"clustering-key\":[],\"columns\":{\"balance\":\"INT\",\"id\":\"INT\"},\"partition-key\":[\"id\"],\"secondary-index\":[]}',store='ordered',tx_id='00000000-0000-0000-0000-000000000001',tx_state=3} scalardb.metadata('coordinator.state'){definition='{\"clustering-key\":[],\"columns\":{\"tx_created_at\":\"BIGINT\",\"tx_id\":\"TEXT\",\"tx_state\":\"INT\"},\"partition-key\":[\"tx_id\"],\"secondary-index\":[]}',store='ordered',tx_id='00000000-0000-0000-0000-000000000001',tx_state=3} scalardb.metadata('shop.orders'){definition='{\"clustering-key\":[\"placed DESC\"],\"columns\":{\"customer\":\"TEXT\",\"paid\":\"BOOLEAN\",\"placed\":\"BIGINT\"},\"partition-key\":[\"customer\"],\"secondary-index\":[\"paid\"]}',store='other',tx_id='00000000-0000-0000-0000-000000000001',tx_state=3} -\norder 0\ntables 0\nend\n";

const NOTED: &str =
    "scalardb report 1\nevents 1\n1 call 1 s scan scalardb.metadata seen rows 3 scalardb.metadata('bank.account'){definition='{\"clustering-key\":[],\"columns\":{\"balance\":\"INT\",\"id\":\"INT\"},\"partition-key\":[\"id\"],\"secondary-index\":[]}',store='ordered',tx_id='00000000-0000-0000-0000-000000000001',tx_state=3} scalardb.metadata('coordinator.state'){definition='{\"clustering-key\":[],\"columns\":{\"tx_created_at\":\"BIGINT\",\"tx_id\":\"TEXT\",\"tx_state\":\"INT\"},\"partition-key\":[\"tx_id\"],\"secondary-index\":[]}',store='ordered',tx_id='00000000-0000-0000-0000-000000000001',tx_state=3} scalardb.metadata('shop.orders'){definition='{\"clustering-key\":[\"placed DESC\"],\"columns\":{\"customer\":\"TEXT\",\"note\":\"TEXT\",\"paid\":\"BOOLEAN\",\"placed\":\"BIGINT\"},\"partition-key\":[\"customer\"],\"secondary-index\":[\"paid\"]}',store='other',tx_id='00000000-0000-0000-0000-000000000002',tx_state=3} -\norder 0\ntables 0\nend\n";

static ALTERED: [Altered; 8] = [
    // The store and the indexed columns stay, and the revision is the next.
    Altered {
        before: PUT,
        added: Added("shop", "orders", "note"),
        came: Came::Line("altered shop.orders\n"),
        after: NOTED,
    },
    // 1 is the revision after the greatest.
    Altered {
        before: "scalardb report 1\nevents 1\n1 call 1 s put scalardb.metadata('bank.account'){definition='{\"clustering-key\":[],\"columns\":{\"balance\":\"INT\",\"id\":\"INT\"},\"partition-key\":[\"id\"],\"secondary-index\":[]}',store='ordered',tx_id='ffffffff-ffff-ffff-ffff-ffffffffffff',tx_state=3} if absent seen applied -\norder 0\ntables 0\nend\n",
        added: Added("bank", "account", "zone"),
        came: Came::Line("altered bank.account\n"),
        after: "scalardb report 1\nevents 1\n1 call 1 s scan scalardb.metadata seen rows 1 scalardb.metadata('bank.account'){definition='{\"clustering-key\":[],\"columns\":{\"balance\":\"INT\",\"id\":\"INT\",\"zone\":\"TEXT\"},\"partition-key\":[\"id\"],\"secondary-index\":[]}',store='ordered',tx_id='00000000-0000-0000-0000-000000000001',tx_state=3} -\norder 0\ntables 0\nend\n",
    },
    Altered {
        before: PUT,
        added: Added("bank", "account", "balance"),
        came: Came::Line("refused 2\n"),
        after: UNCHANGED,
    },
    Altered {
        before: PUT,
        added: Added("bank", "account", "before_balance"),
        came: Came::Line("refused 3\n"),
        after: UNCHANGED,
    },
    Altered {
        before: PUT,
        added: Added("bank", "account", "tx_id"),
        came: Came::Line("refused 3\n"),
        after: UNCHANGED,
    },
    Altered {
        before: PUT,
        added: Added("bank", "orders", "note"),
        came: Came::NoTable,
        after: UNCHANGED,
    },
    // The coordinator's table is none of the catalog.
    Altered {
        before: PUT,
        added: Added("coordinator", "state", "note"),
        came: Came::NoTable,
        after: UNCHANGED,
    },
    Altered {
        before: "scalardb report 1\nevents 2\n1 call 1 s put scalardb.metadata('bank.account'){definition='{\"clustering-key\":[],\"columns\":{\"balance\":\"INT\",\"id\":\"INT\"},\"partition-key\":[\"id\"],\"secondary-index\":[]}',store='ordered',tx_id='00000000-0000-0000-0000-000000000001',tx_state=3} if absent seen applied -\n2 call 1 s put scalardb.metadata('shop.orders'){tx_state=3} if absent seen applied -\norder 0\ntables 0\nend\n",
        added: Added("bank", "account", "note"),
        came: Came::BadRow("scalardb.metadata('shop.orders')"),
        after: "scalardb report 1\nevents 0\norder 0\ntables 0\nend\n",
    },
];

#[test]
fn tables_are_altered(rt: HostRuntime) -> Result<(), Fail> {
    all_cases(rt.alloc(), "altered", ALTERED.as_slice())
}

// The first store fails at one call: the scan, or the put, which was made or not.
#[derive(Clone, Copy)]
struct Failed(&'static [Failing], &'static str);

impl Case for Failed {
    fn holds(self, alloc: Global) -> Result<bool, Fail> {
        let mut stores = Stores::new(alloc);
        let added = Added("shop", "orders", "note");
        Ok(
            attach_both(alloc, &mut stores, self.0)
                && runs(alloc, &mut stores, PUT)
                && added.comes(alloc, &mut stores, Came::StoreFault)
                && runs(alloc, &mut stores, self.1),
        )
    }
}

static FAILED: [Failed; 3] = [
    Failed(
        &[Failing {
            call: 4,
            after: false,
        }],
        UNCHANGED,
    ),
    Failed(
        &[Failing {
            call: 5,
            after: false,
        }],
        UNCHANGED,
    ),
    Failed(
        &[Failing {
            call: 5,
            after: true,
        }],
        NOTED,
    ),
];

#[test]
fn failed_calls_are_store_faults(rt: HostRuntime) -> Result<(), Fail> {
    all_cases(rt.alloc(), "failed", FAILED.as_slice())
}

// A table with two columns takes 62 more.
fn fills(alloc: Global, stores: &mut Stores) -> bool {
    for i in 10..72 {
        let Ok(name) = format!(in alloc; "c{i}") else {
            return false;
        };
        if !adds(alloc, stores, name.as_str()) {
            return false;
        }
    }
    true
}

fn adds(alloc: Global, stores: &mut Stores, name: &str) -> bool {
    if let Ok(table) = table_of(alloc, "bank", "account")
        && let Ok(name) = Name::new(alloc, name)
    {
        let column = Column {
            name,
            kind: Kind::Int,
        };
        return alters(
            alloc,
            stores,
            &table,
            &column,
            Came::Line("altered bank.account\n"),
        );
    }
    false
}

#[test]
fn a_table_takes_64_columns(rt: HostRuntime) -> Result<(), Fail> {
    let alloc = rt.alloc();
    let mut stores = Stores::new(alloc);
    let full = attach_both(alloc, &mut stores, &[])
        && runs(alloc, &mut stores, PUT)
        && fills(alloc, &mut stores)
        && Added("bank", "account", "note").comes(alloc, &mut stores, Came::Line("refused 4\n"));
    hold(Ok(full))
}

// The row was put by somebody else after it was read.
const CHANGED: &str =
    "scalardb report 1\nevents 2\n1 call 1 s scan scalardb.metadata seen rows 1 scalardb.metadata('bank.account'){definition='{\"clustering-key\":[],\"columns\":{\"balance\":\"INT\",\"id\":\"INT\"},\"partition-key\":[\"id\"],\"secondary-index\":[]}',store='ordered',tx_id='00000000-0000-0000-0000-000000000001',tx_state=3} -\n2 call 1 s put scalardb.metadata('bank.account'){definition='{\"clustering-key\":[],\"columns\":{\"balance\":\"INT\",\"id\":\"INT\"},\"partition-key\":[\"id\"],\"secondary-index\":[]}',store='ordered',tx_id='00000000-0000-0000-0000-000000000002',tx_state=3} if 00000000-0000-0000-0000-000000000001 3 seen notmet none -\norder 0\ntables 0\nend\n";

#[test]
fn a_row_that_has_changed_differs(rt: HostRuntime) -> Result<(), Fail> {
    let alloc = rt.alloc();
    let mut stores = Stores::new(alloc);
    let replies = listed(alloc, CHANGED)?;
    let differs = attach_puppet(alloc, &mut stores, "ordered", replies)
        && Added("bank", "account", "note").comes(
            alloc,
            &mut stores,
            Came::Line("differs bank.account\n"),
        );
    hold(Ok(differs))
}

const JSON: &str =
    "{\"bank.account\":{\"partition-key\":[\"id\"],\"columns\":{\"id\":\"int\",\"balance\":\"int\"}}}";

// A column that is added to the first table of a catalog, the number of the cause that refuses it, if one does, and then the names of the
// table's columns.
#[derive(Clone, Copy)]
struct InCatalog {
    added: Added,
    cause: Option<u8>,
    columns: &'static [&'static str],
}

fn has_columns(table: Option<&Table>, names: &[&str]) -> bool {
    let Some(table) = table else {
        return false;
    };
    for (i, name) in names.iter().enumerate() {
        match table.columns.at(i) {
            Some(column) if column.name.as_str() == *name => {}
            _ => return false,
        }
    }
    table.columns.len() == names.len()
}

// What comes of a column that is added to a table of a catalog.
fn adds_to(alloc: Global, catalog: &mut Catalog, added: Added) -> Option<Option<u8>> {
    let table = table_of(alloc, added.0, added.1).ok()?;
    let name = Name::new(alloc, added.2).ok()?;
    if name.as_str().len() > 64 {
        return None;
    }
    let kind = Kind::Text;
    match catalog.add_column(&table, Column { name, kind }) {
        Ok(()) => Some(None),
        Err(refused) => Some(refused.number()),
    }
}

impl InCatalog {
    fn is_so(self, alloc: Global, catalog: &mut Catalog) -> bool {
        adds_to(alloc, catalog, self.added) == Some(self.cause)
            && has_columns(catalog.at(0), self.columns)
    }
}

impl Case for InCatalog {
    fn holds(self, alloc: Global) -> Result<bool, Fail> {
        match catalog_of(alloc, JSON.as_bytes()) {
            Ok(catalog) => {
                let mut catalog = catalog;
                Ok(self.is_so(alloc, &mut catalog))
            }
            Err(_) => Ok(false),
        }
    }
}

static COLUMNS: [InCatalog; 5] = [
    InCatalog {
        added: Added("bank", "account", "country"),
        cause: None,
        columns: &["balance", "country", "id"],
    },
    InCatalog {
        added: Added("bank", "account", "zone"),
        cause: None,
        columns: &["balance", "id", "zone"],
    },
    InCatalog {
        added: Added("bank", "accounts", "zone"),
        cause: Some(1),
        columns: &["balance", "id"],
    },
    InCatalog {
        added: Added("bank", "account", "id"),
        cause: Some(2),
        columns: &["balance", "id"],
    },
    InCatalog {
        added: Added("bank", "account", "tx_state"),
        cause: Some(3),
        columns: &["balance", "id"],
    },
];

#[test]
fn a_catalog_takes_columns(rt: HostRuntime) -> Result<(), Fail> {
    all_cases(rt.alloc(), "columns", COLUMNS.as_slice())
}
