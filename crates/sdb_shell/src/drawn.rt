//! Ids of transactions that are drawn.
ghost use Rattle.std.specs.Prelude.{◌≡◌};
ghost use Rattle.sdb_shell.specs.Drawn.{drawn_id as drawn_id_lem};

use sdb_types::TxId;

const BELOW_VERSION: u128 = 0x1_0000_0000_0000_0000;

const VERSION: u128 = 0x1_0000_0000_0000_0000_0000;

const BELOW_VARIANT: u128 = 0x4000_0000_0000_0000;

/// The id that a draw gives: its bits, with those of a version 4 id set. Takes no memory.
pub(crate) fn drawn_id(draw: u128) -> TxId
    ensures { result ≡ drawn_id_lem draw }
{
    let high = draw / VERSION * 16 + 4;
    let middle = high * 4096 + draw / BELOW_VERSION % 4096;
    TxId((middle * 4 + 2) * BELOW_VARIANT + draw % BELOW_VARIANT)
}
