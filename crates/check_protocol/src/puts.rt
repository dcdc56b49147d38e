//! The puts of a request.
ghost use Rattle.std.specs.Prelude.{◌≡◌, IfOk};
ghost use Rattle.check_protocol.specs.Rules.{is_alone as is_alone_lem, one_put as one_put_lem, puts_asked as puts_asked_lem};

use sdb_types::{Batch, Condition, Duplicate, NoMemory, Put, Record, Request, Seq};
use std::alloc::Global;

fn is_alone(puts: &[Put]) -> bool
    ensures { result ≡ is_alone_lem puts.now }
{
    match puts {
        [] => false,
        [_] => true,
        [_, _, ..] => false,
    }
}

fn one_put(alloc: Global, rec: &Record, condition: Condition) -> Result<Batch, NoMemory>
    ensures { IfOk result (λ puts. puts ≡ one_put_lem rec.now condition) }
{
    let mut puts = Seq::new(alloc);
    puts.push(Put {
        rec: rec.copy()?,
        condition,
    })?;
    Ok(puts)
}

/// The puts that a request makes: one alone is never put as a batch.
pub fn puts_asked(alloc: Global, request: &Request) -> Result<Option<Batch>, NoMemory>
    ensures { IfOk result (λ found. found ≡ puts_asked_lem request.now) }
{
    match request {
        Request::PutIf(rec, condition) => Ok(Some(one_put(alloc, rec, *condition)?)),
        Request::PutAll(batch) => {
            if is_alone(batch.as_slice()) {
                return Ok(None);
            }
            Ok(Some(batch.copy()?))
        }
        Request::Get(_) | Request::Scan(_) | Request::DeleteIf(_, _) => Ok(None),
    }
}
