//! The order of lists whose copies share their items: that of their items.
ghost use Rattle.std.specs.Cmp.Lexicographic.{slice_cmp, slice_partial_cmp, lists_total, lists_agrees, lists_ties, lists_po, lists_per, lists_equiv};
ghost use lib.Pointwise.{pointwise};

use crate::shared::{AsList, SharedSeq};
use std::cmp::Ordering;

impl<T: PartialEq + AsList> PartialEq for SharedSeq<T> {
    ghost eq = { pointwise T.eq };

    ghost laws = { lists_per T.laws };

    fn eq(&self, other: &Self) -> bool {
        self.as_slice() == other.as_slice()
    }
}

impl<T: Eq + AsList> Eq for SharedSeq<T> {
    ghost laws = { lists_equiv T.Eq.laws };
}

impl<T: PartialOrd + AsList> PartialOrd for SharedSeq<T> {
    ghost partial_cmp = { slice_partial_cmp T.partial_cmp };

    ghost laws = { lists_po T.PartialOrd.laws };

    fn partial_cmp(&self, other: &Self) -> Option<Ordering> {
        self.as_slice().partial_cmp(other.as_slice())
    }
}

impl<T: Ord + AsList> Ord for SharedSeq<T> {
    ghost cmp = { slice_cmp T.cmp };

    ghost total = { lists_total T.total };

    ghost matches_partial_cmp = { lists_agrees T.matches_partial_cmp };

    ghost matches_eq = { lists_ties T.cmp T.matches_eq };

    fn cmp(&self, other: &Self) -> Ordering {
        self.as_slice().cmp(other.as_slice())
    }
}
