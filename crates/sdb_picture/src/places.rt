//! Where lanes and rows lie in a picture, in its own units.
ghost use Rattle.std.specs.Prelude.{◌≡◌};
ghost use Rattle.sdb_picture.specs.Places as spec;

use crate::Lanes;

/// Where a client's lane lies.
pub fn client_x(lane: usize) -> u128
    ensures { result ≡ spec.client_x lane }
{
    190 + 140 * lane as u128
}

/// Where the text of a statement begins.
pub fn statement_x(lane: usize) -> u128
    ensures { result ≡ spec.statement_x lane }
{
    200 + 140 * lane as u128
}

/// Where what a client is answered ends.
pub fn answer_x(lane: usize) -> u128
    ensures { result ≡ spec.answer_x lane }
{
    172 + 140 * lane as u128
}

/// Where the labels of calls begin: right of the last client's lane.
pub fn label_x(lanes: &Lanes) -> u128
    ensures { result ≡ spec.label_x lanes.now }
{
    60 + 140 * lanes.clients.len() as u128
}

/// Where a store's lane lies.
pub fn store_x(lanes: &Lanes, lane: usize) -> u128
    ensures { result ≡ spec.store_x lanes.now lane }
{
    440 + 140 * lanes.clients.len() as u128 + 100 * lane as u128
}

/// Where a decision is marked, on the way to its store.
pub fn decision_x(lanes: &Lanes, lane: usize) -> u128
    ensures { result ≡ spec.decision_x lanes.now lane }
{
    414 + 140 * lanes.clients.len() as u128 + 100 * lane as u128
}

/// Where what came of a call begins: right of the store's lane.
pub fn came_x(lanes: &Lanes, lane: usize) -> u128
    ensures { result ≡ spec.came_x lanes.now lane }
{
    450 + 140 * lanes.clients.len() as u128 + 100 * lane as u128
}

/// Where the bands of a record begin.
pub fn record_x(lanes: &Lanes, lane: usize) -> u128
    ensures { result ≡ spec.record_x lanes.now lane }
{
    440 + 140 * lanes.clients.len() as u128 + 100 * lanes.stores.len() as u128 + 26 * lane as u128
}

/// The middle of the bands of a record.
pub fn letter_x(lanes: &Lanes, lane: usize) -> u128
    ensures { result ≡ spec.letter_x lanes.now lane }
{
    450 + 140 * lanes.clients.len() as u128 + 100 * lanes.stores.len() as u128 + 26 * lane as u128
}

// The right end of the last lane.
fn lanes_width(lanes: &Lanes) -> u128
    ensures { result ≡ spec.lanes_width lanes.now }
{
    450 + 140 * lanes.clients.len() as u128
        + 100 * lanes.stores.len() as u128
        + 26 * lanes.records.len() as u128
}

/// The width of a picture: that of its lanes, and at least that of the legend.
pub fn width_of(lanes: &Lanes) -> u128
    ensures { result ≡ spec.width_of lanes.now }
{
    let width = lanes_width(lanes);
    if width < 740 { 740 } else { width }
}

/// The height of a picture of so many rows.
pub fn height_of(rows: usize) -> u128
    ensures { result ≡ spec.height_of rows }
{
    290 + 26 * rows as u128
}

/// The upper edge of a row.
pub fn row_y(row: usize) -> u128
    ensures { result ≡ spec.row_y row }
{
    260 + 26 * row as u128
}

/// The base line of the texts of a row.
pub fn text_y(row: usize) -> u128
    ensures { result ≡ spec.text_y row }
{
    274 + 26 * row as u128
}

/// The arrow of a row.
pub fn arrow_y(row: usize) -> u128
    ensures { result ≡ spec.arrow_y row }
{
    279 + 26 * row as u128
}

/// The base line of the letter of a band that begins in a row.
pub fn letter_y(row: usize) -> u128
    ensures { result ≡ spec.letter_y row }
{
    294 + 26 * row as u128
}
