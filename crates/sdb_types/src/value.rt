//! Values of columns.
ghost use Rattle.std.specs.Prelude.{◌≡◌, IfOk};

use crate::memory::{Duplicate, NoMemory};
use crate::name::Name;
use crate::seq::Seq;
use crate::shared::{AsList, SharedSeq};
use crate::text::Txt;

/// Bytes.
pub type Octets = Seq<u8>;

impl Duplicate for u8 {
    fn copy(&self) -> Result<u8, NoMemory> {
        Ok(*self)
    }
}

/// The value of a column, of a key or of a literal.
#[derive(Debug)]
pub enum Value {
    Null,
    Bool(bool),
    Int(i32),
    BigInt(i64),
    Text(Txt),
    Blob(Octets),
}

// By hand: each drop is then one call, where a derived one is written out at each exit, with a call for each field.
impl Drop for Value {
    fn drop(self) {
        match self {
            Value::Null => {}
            Value::Bool(_) => {}
            Value::Int(_) => {}
            Value::BigInt(_) => {}
            Value::Text(_) => {}
            Value::Blob(_) => {}
        }
    }
}

impl Duplicate for Value {
    fn copy(&self) -> Result<Value, NoMemory> {
        match self {
            Value::Null => Ok(Value::Null),
            Value::Bool(b) => Ok(Value::Bool(*b)),
            Value::Int(n) => Ok(Value::Int(*n)),
            Value::BigInt(n) => Ok(Value::BigInt(*n)),
            Value::Text(text) => Ok(Value::Text(text.copy()?)),
            Value::Blob(bytes) => Ok(Value::Blob(bytes.copy_items()?)),
        }
    }
}

impl AsList for Value {
    fn as_list(&self) -> &[Value] {
        std::slice::from_ref(self)
    }
}

pub type Values = SharedSeq<Value>;

pub type Names = Seq<Name>;
