//! The order of a table's rows.
ghost use Rattle.std.specs.Prelude.{◌≡◌};
ghost use Rattle.std.specs.Cmp.Lexicographic.{slice_cmp};
ghost use Rattle.sdb_types.specs.Order.{value_cmp};
ghost use Rattle.sdb_schema.specs.Order.{turned_by, clustering_cmp, row_key_cmp};

use crate::table::{Direction, Order, Table};
use sdb_types::{Key, Value};
use std::cmp::Ordering;

fn turned(direction: Direction, order: Ordering) -> Ordering
    ensures { result ≡ turned_by direction order }
{
    match direction {
        Direction::Asc => order,
        Direction::Desc => order.reverse(),
    }
}

fn compare_clustering(orders: &[Order], a: &[Value], b: &[Value]) -> Ordering
    ensures { result ≡ clustering_cmp orders.now a.now b.now }
{
    let Some((order, orders)) = orders.split_first() else {
        return a.cmp(b);
    };
    match (a.split_first(), b.split_first()) {
        (None, None) => Ordering::Equal,
        (None, Some(_)) => Ordering::Less,
        (Some(_), None) => Ordering::Greater,
        (Some((x, xs)), Some((y, ys))) => match turned(order.direction, x.cmp(y)) {
            Ordering::Equal => compare_clustering(orders, xs, ys),
            other => other,
        },
    }
}

impl Table {
    ghost use Rattle.std.specs.Prelude.{◌≡◌};
    ghost use Rattle.sdb_schema.specs.Order.{row_key_cmp};

    /// The order of keys, with the descending clustering columns reversed. Takes no memory.
    pub fn compare(&self, a: &Key, b: &Key) -> Ordering
        ensures { result ≡ row_key_cmp self.now a.now b.now }
    {
        a.table
            .cmp(&b.table)
            .then(a.partition.cmp(&b.partition))
            .then(compare_clustering(
                self.clustering.as_slice(),
                a.clustering.as_slice(),
                b.clustering.as_slice(),
            ))
    }
}
