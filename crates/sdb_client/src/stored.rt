//! What a reply shows, whichever store it is of: records whose columns are in order, each with a name.
ghost use Rattle.std.specs.Prelude.{◌≡◌, true};
ghost use Rattle.std.specs.List.{list_all};
ghost use Rattle.sdb_record.specs.Parts.{are_stored};
ghost use Rattle.sdb_model.specs.Calls.{is_stored_reply};

use sdb_types::{Columns, Record, Reply};

// Columns are in order, and each has a name.
fn have_order(columns: &Columns)
    ensures { are_stored columns.now ≡ true }
{
    let _length = columns.len();
    for pair in columns.pairs() {
        let _text = pair.name.as_str();
    }
}

// The same for each of some records.
fn all_have_order(records: &[Record])
    ensures { list_all (λ x. are_stored x.columns) records.now ≡ true }
{
    for rec in records {
        have_order(&rec.columns);
    }
}

/// The columns of each record that a reply shows are in order, each with a name.
pub fn prove_order(reply: &Reply)
    ensures { is_stored_reply reply.now ≡ true }
{
    match reply {
        Reply::Found(Some(rec)) => have_order(&rec.columns),
        Reply::NotMet(Some(rec)) => have_order(&rec.columns),
        Reply::NotAll(_, Some(rec)) => have_order(&rec.columns),
        Reply::Rows(rows) => all_have_order(rows.as_slice()),
        _ => {}
    }
}
