//! A table of items: category, number descending, and a column of each kind.
use sdb_loader::catalog_of;
use sdb_schema::Catalog;
use std::alloc::Global;
use std::test::Fail;

const SHOP: &[u8] =
    b"{\"shop.item\":{\"partition-key\":[\"cat\"],\"clustering-key\":[\"n DESC\"],\"columns\":{\"cat\":\"INT\",\"n\":\"INT\",\"big\":\"BIGINT\",\"data\":\"BLOB\",\"flag\":\"BOOLEAN\",\"note\":\"TEXT\",\"qty\":\"INT\"}}}";

pub fn shop(alloc: Global) -> Result<Catalog, Fail> {
    Ok(catalog_of(alloc, SHOP)?)
}
