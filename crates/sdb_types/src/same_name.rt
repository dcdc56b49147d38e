//! Whether two names are the same.
use crate::name::Name;

impl Name {
    ghost use Rattle.std.specs.Prelude.{◌≡◌};
    ghost use Rattle.std.specs.Ordering.{is_eq};
    ghost use Rattle.sdb_types.specs.Order.{name_cmp};

    /// Whether the names have the same bytes: their order, which names that differ have too, isn't looked for. Takes no memory.
    #[tactic(auto, using(crate::proofs::KeyOrder::equal_texts))]
    pub fn is_same(&self, other: &Name) -> bool
        ensures { result ≡ is_eq (name_cmp self.now other.now) }
    {
        self == other
    }
}
