//! Equality of columns.
ghost use lib.Pointwise.{pointwise};
ghost use Rattle.std.specs.Cmp.Lexicographic.{lists_per, lists_equiv};
ghost use Rattle.sdb_types.specs.contracts.pair.PairPartialEq.TheImpl.Laws.{laws-law as pair_per};
ghost use Rattle.sdb_types.specs.contracts.pair.PairEq.TheImpl.Laws.{laws-law as pair_equiv};

use crate::columns::Columns;
use crate::pair::Pair;

impl PartialEq for Columns {
    ghost eq = { pointwise ⟦<Pair as PartialEq>⟧.eq };

    ghost laws = { lists_per pair_per };

    fn eq(&self, other: &Self) -> bool {
        self.pairs() == other.pairs()
    }
}

impl Eq for Columns {
    ghost laws = { lists_equiv pair_equiv };
}
