//! Hashes of names and values, so that they can be keys of hash maps.
ghost use Rattle.std.proofs.Common.{ap};
ghost use Rattle.std.specs.Hash as fed;
ghost use Rattle.std.specs.Hash.{items_Alike, same_Alike};
ghost use Rattle.std.proofs.lemmas.Slice.Eq.{bytes_eq-Decides};
ghost use Rattle.sdb_types.specs.Exact.{equal_of};
ghost use Rattle.sdb_types.specs.Order.{value_cmp};
ghost use Rattle.sdb_types.specs.ValueLaws.{value_exact};
ghost use Rattle.sdb_types.specs.HashInput.{value_input};

use crate::name::Name;
use crate::seq::Seq;
use crate::shared::{AsList, SharedSeq};
use crate::text::Txt;
use crate::value::Value;
use std::hash::{Hash, Hasher};

impl Hash for Name {
    ghost hash_input = { fed.str };

    ghost respects_eq = { (same_Alike fed.str bytes_eq-Decides).fed };

    fn hash<H: Hasher>(&self, state: &mut H) {
        self.as_str().hash(state);
    }
}

impl Hash for Txt {
    ghost hash_input = { fed.str };

    ghost respects_eq = { (same_Alike fed.str bytes_eq-Decides).fed };

    fn hash<H: Hasher>(&self, state: &mut H) {
        self.as_str().hash(state);
    }
}

impl<T: Hash> Hash for Seq<T> {
    ghost hash_input = { fed.slice T.hash_input };

    ghost respects_eq = { (items_Alike (record { fed = T.respects_eq })).fed };

    fn hash<H: Hasher>(&self, state: &mut H) {
        self.as_slice().hash(state);
    }
}

impl<T: Hash + AsList> Hash for SharedSeq<T> {
    ghost hash_input = { fed.slice T.hash_input };

    ghost respects_eq = { (items_Alike (record { fed = T.respects_eq })).fed };

    fn hash<H: Hasher>(&self, state: &mut H) {
        self.as_slice().hash(state);
    }
}

impl Hash for Value {
    ghost hash_input = { value_input };

    ghost respects_eq = { λ x y h. ap value_input (value_exact x y (equal_of (value_cmp x y) h)) };

    fn hash<H: Hasher>(&self, state: &mut H) {
        match self {
            Value::Null => 0u8.hash(state),
            Value::Bool(b) => {
                1u8.hash(state);
                b.hash(state);
            }
            Value::Int(n) => {
                2u8.hash(state);
                n.hash(state);
            }
            Value::BigInt(n) => {
                3u8.hash(state);
                n.hash(state);
            }
            Value::Text(text) => {
                4u8.hash(state);
                text.hash(state);
            }
            Value::Blob(bytes) => {
                5u8.hash(state);
                bytes.hash(state);
            }
        }
    }
}
