//! What the types keep of every span.
ghost use Rattle.sdb_sqlite.specs.Spans.{span_is_encodable};

use sdb_types::{Span, table_facts, values_facts};

/// What is known of a span.
pub fn span_facts(span: &Span)
    ensures { span_is_encodable span.now }
{
    table_facts(&span.table);
    if let Some(partition) = &span.partition {
        values_facts(partition.as_slice());
    }
}
