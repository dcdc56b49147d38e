//! Transaction ids.
ghost use Rattle.std.specs.Prelude.{◌≡◌, IfOk, IfSome, ℕ, ◌<◌, ◌^◌, IsTrue, Some, ◌↔◌};
ghost use Rattle.sdb_types.specs.TxId.{id_text};

use crate::memory::{Duplicate, NoMemory};
use crate::text::Txt;
use std::alloc::Global;
use uuid::Uuid;

/// A transaction's id of 128 bits.
#[derive(Clone, Copy, Debug, PartialEq, Eq)]
pub struct TxId(pub u128);

impl Duplicate for TxId {
    fn copy(&self) -> Result<TxId, NoMemory> {
        Ok(*self)
    }
}

impl TxId {
    /// The lower-case hyphenated form.
    pub fn text(self, alloc: Global) -> Result<Txt, NoMemory>
        ensures { IfOk result (λ t. t ≡ id_text self.0) }
    {
        let mut buffer = Uuid::encode_buffer();
        let id = Uuid::from_u128(self.0);
        let hyphenated = id.hyphenated();
        let text = hyphenated.encode_lower(&mut buffer);
        Txt::new(alloc, text)
    }

    /// The id whose text this is.
    pub fn from_text(text: &Txt) -> Option<TxId>
        ensures found { IfSome result (λ id. text.now ≡ id_text id.0) }
        ensures read { (n : ℕ) → n < 2 ^ 128 → text.now ≡ id_text n → result ≡ Some (record { 0 = n }) }
    {
        match Uuid::parse_str(text.as_str()) {
            Ok(parsed) => {
                let id = TxId(parsed.as_u128());
                if id.is_text(text.as_str()) {
                    Some(id)
                } else {
                    None
                }
            }
            Err(_) => None,
        }
    }

    /// Whether a text is this id's lower-case hyphenated form. Takes no memory.
    pub fn is_text(self, text: &str) -> bool
        ensures { IsTrue result ↔ (text.now ≡ id_text self.0) }
    {
        let mut buffer = Uuid::encode_buffer();
        let id = Uuid::from_u128(self.0);
        let hyphenated = id.hyphenated();
        let own = hyphenated.encode_lower(&mut buffer);
        own == text
    }
}
