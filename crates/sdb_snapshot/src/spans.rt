//! The places of spans, found by the span.
ghost use Rattle.std.specs.Prelude.{◌≡◌, List, Option, OnOk, OnErr, None, Some, cond};
ghost use Rattle.std.specs.BTreeMap.{get};
ghost use Rattle.std.specs.Ordering.{eq_by_cmp};
ghost use Rattle.sdb_types.specs.declared.record.Span.{Span as SpanValue};
ghost use Rattle.sdb_types.specs.declared.value.Value.{Value};
ghost use Rattle.sdb_types.specs.Order.{table_cmp};
ghost use Rattle.sdb_snapshot.specs.Seen.{same_span};
ghost use Rattle.sdb_snapshot.specs.Spans.{partition_cmp, place_in_tables};

use sdb_types::{Duplicate, NoMemory, Span, TableName, Values};
use std::alloc::Global;
use std::collections::BTreeMap;

// The places of the spans of one table, by partition: at None the place of the whole table.
type Partitions = BTreeMap<Option<Values>, usize>;

// The places of the spans of all tables.
type Tables = BTreeMap<TableName, Partitions>;

/// A place for each of some spans. A span is found in as many steps as the logarithm of their number, whatever spans are chosen.
pub(crate) struct SpanPlaces {
    alloc: Global,
    pub(crate) tables: Tables,
}

// By hand: each drop is then one call, where a derived one is written out at each exit, with a call for each field.
impl Drop for SpanPlaces {
    fn drop(self) {
        let SpanPlaces {
            alloc: _,
            tables: _,
        } = self;
    }
}

// Puts the place of a partition among those of its table.
fn put_partition(parts: &mut Partitions, span: &Span, place: usize) -> Result<(), NoMemory>
    ensures ok { OnOk result ((p : Option (List Value)) → get partition_cmp parts.new p ≡ cond (eq_by_cmp partition_cmp span.now.partition p) (Some place) (get partition_cmp parts.old p)) }
    ensures err { OnErr result ((p : Option (List Value)) → get partition_cmp parts.new p ≡ get partition_cmp parts.old p) }
{
    parts.insert(span.partition.copy()?, place)?;
    Ok(())
}

// Puts the place of a span whose table has none.
fn add_table(alloc: Global, tables: &mut Tables, span: &Span, place: usize) -> Result<(), NoMemory>
    requires { get table_cmp tables.old span.now.table ≡ None }
    ensures ok { OnOk result ((q : SpanValue) → place_in_tables tables.new q ≡ cond (same_span span.now q) (Some place) (place_in_tables tables.old q)) }
    ensures err { OnErr result ((q : SpanValue) → place_in_tables tables.new q ≡ place_in_tables tables.old q) }
{
    let mut parts = Partitions::new(alloc);
    put_partition(&mut parts, span, place)?;
    tables.insert(span.table.copy()?, parts)?;
    Ok(())
}

// Puts the place of a span.
fn put_place(alloc: Global, tables: &mut Tables, span: &Span, place: usize) -> Result<(), NoMemory>
    ensures ok { OnOk result ((q : SpanValue) → place_in_tables tables.new q ≡ cond (same_span span.now q) (Some place) (place_in_tables tables.old q)) }
    ensures err { OnErr result ((q : SpanValue) → place_in_tables tables.new q ≡ place_in_tables tables.old q) }
{
    match tables.get_mut(&span.table) {
        Some(parts) => put_partition(parts, span, place),
        None => add_table(alloc, tables, span, place),
    }
}

impl SpanPlaces {
    /// No places.
    pub(crate) fn new(alloc: Global) -> SpanPlaces
        ensures { (q : SpanValue) → place_in_tables result.tables q ≡ None }
    {
        SpanPlaces {
            alloc,
            tables: Tables::new(alloc),
        }
    }

    /// The place of a span. Takes no memory.
    pub(crate) fn get(&self, span: &Span) -> Option<usize>
        ensures { result ≡ place_in_tables self.now.tables span.now }
    {
        let parts = self.tables.get(&span.table)?;
        Some(*parts.get(&span.partition)?)
    }

    /// Puts the place of a span, which has it from then on.
    pub(crate) fn put(&mut self, span: &Span, place: usize) -> Result<(), NoMemory>
        ensures ok { OnOk result ((q : SpanValue) → place_in_tables self.new.tables q ≡ cond (same_span span.now q) (Some place) (place_in_tables self.old.tables q)) }
        ensures err { OnErr result ((q : SpanValue) → place_in_tables self.new.tables q ≡ place_in_tables self.old.tables q) }
    {
        put_place(self.alloc, &mut self.tables, span, place)
    }
}
