//! The requests in flight.
ghost use Rattle.std.specs.Prelude.{◌≡◌, ◌<◌, [], length, None, Some, OnOk, IfSome, slice_get, slice_set};
ghost use Rattle.sdb_types.specs.Contents.{IsWellFormed};
ghost use Rattle.sdb_client.specs.Execution.{flights_after};

use sdb_model::How;
use sdb_types::{Duplicate, NoMemory, Request};
use std::alloc::Global;
use std::marker::Model;

/// The requests of the calls that were delayed, in order, each none once it has landed. Each is well formed.
pub(crate) struct Flights {
    requests: Vec<Option<Request>>,
}

// By hand: each drop is then one call, where a derived one is written out at each exit, with a call for each field.
impl Drop for Flights {
    fn drop(self) {
        let Flights { requests: _ } = self;
    }
}

impl Model for Flights {
    ghost use Rattle.std.specs.Prelude.{List, Option, All, IfSome};
    ghost use Rattle.sdb_types.specs.Contents.{IsWellFormed};
    ghost use Rattle.sdb_types.specs.declared.record.Request.{Request as OneRequest};

    ghost Value = { List (Option OneRequest) };

    ghost view = { λ f. f.requests.items };

    ghost invariant = { λ f. All (λ request. IfSome request IsWellFormed) f.requests.items };
}

impl Flights {
    /// None.
    pub(crate) fn new(alloc: Global) -> Flights
        ensures { result ≡ [] }
    {
        Flights {
            requests: Vec::new(alloc),
        }
    }

    /// How many calls were delayed.
    pub(crate) fn len(&self) -> usize
        ensures { result ≡ length self.now }
    {
        self.requests.len()
    }

    /// After a call of a well-formed request: that of a delayed call is one more.
    pub(crate) fn delay(&mut self, how: How, request: &Request) -> Result<(), NoMemory>
        requires { IsWellFormed request.now }
        ensures { OnOk result (self.new ≡ flights_after self.old how request.now) }
    {
        match how {
            How::Delayed => self.requests.push(Some(request.copy()?))?,
            How::Seen | How::Lost | How::Discarded | How::Broken => {}
        }
        Ok(())
    }

    /// The request at a place, if it hasn't landed: it is in flight no more.
    pub(crate) fn take(&mut self, place: usize) -> Option<Request>
        requires { place < length self.old }
        ensures taken { slice_get self.old place ≡ Some result }
        ensures left { self.new ≡ slice_set self.old place None }
        ensures formed { IfSome result IsWellFormed }
    {
        self.requests[place].take()
    }
}
