//! A registry of stores.
ghost use Rattle.std.specs.Prelude.{◌≡◌, ◌<◌, ◌≤◌, ◌↔◌, ◌++◌, ◌∷◌, [], length, Some, None, IsSome, IfOk, OnOk, OnErr, IsErrOf, slice_get};
ghost use Rattle.sdb_types.specs.Contents.{IsWellFormed};
ghost use Rattle.sdb_stores.specs.Views.{Attached, AreDistinct, IsCallAt, HaveCause, HavePlaces, IsDropped, IsRoutedAlready, AreUnchanged, home_in, index_at, index_in, names_of, table_of, total_faults};

use crate::place::PlaceRefused;
use sdb_types::{Name, Names, NoMemory, Reply, Request, TableName};

/// Stores by name, and the namespaces that are placed on them. A namespace without a place belongs to the first store.
pub trait Registry {
    /// What it shows: its places, its stores in the order in which they were attached, and which of them have known contents.
    ghost state: { Self → Attached };

    /// How many stores are attached.
    fn len(&self) -> usize
        ensures { result ≡ length (state self.now).views };

    /// The names of the stores. No two stores have the same.
    fn names(&self) -> Result<Names, NoMemory>
        ensures names { IfOk result (λ names. names ≡ names_of (state self.now).views) }
        ensures distinct { AreDistinct (names_of (state self.now).views) };

    /// Places a namespace on a store.
    fn place(&mut self, ns: Name, store: &Name) -> Result<(), PlaceRefused>
        ensures ok { OnOk result (HavePlaces ((state self.old).places ++ record { ns = ns; store = store.now } ∷ []) (state self.old) (state self.new)) }
        ensures err { OnErr result (AreUnchanged (state self.old) (state self.new)) }
        ensures no_store { IsErrOf result PlaceRefused.NoStore ↔ (index_in (state self.old) store.now ≡ None) }
        ensures placed { IsErrOf result PlaceRefused.AlreadyPlaced ↔ IsRoutedAlready ns store.now (state self.old) };

    /// Takes all places away.
    fn clear_places(&mut self)
        ensures cleared { HavePlaces [] (state self.old) (state self.new) };

    /// The name of the store of a table.
    fn store_of(&self, table: &TableName) -> &Name
        requires { 0 < length (state self.now).views }
        ensures { slice_get (names_of (state self.now).views) (home_in (state self.now) table.now.ns) ≡ Some result.now };

    /// One call on the store of the request's table.
    fn perform(&mut self, request: &Request) -> Reply
        requires some { 0 < length (state self.old).views }
        requires formed { IsWellFormed request.now }
        ensures called { IsCallAt (home_in (state self.old) (table_of request.now).ns) request.now result (state self.old) (state self.new) }
        ensures places { (state self.new).places ≡ (state self.old).places }
        ensures names { names_of (state self.new).views ≡ names_of (state self.old).views }
        ensures counted { total_faults (state self.old).views ≤ total_faults (state self.new).views }
        ensures cause { HaveCause result (state self.old).views (state self.new).views };

    /// One call on the store of that name, whichever store the request's table is placed on. Every other store stays as it was.
    fn perform_at(&mut self, store: &Name, request: &Request) -> Reply
        requires attached { IsSome (index_in (state self.old) store.now) }
        requires formed { IsWellFormed request.now }
        ensures called { IsCallAt (index_at (state self.old) store.now) request.now result (state self.old) (state self.new) }
        ensures places { (state self.new).places ≡ (state self.old).places }
        ensures names { names_of (state self.new).views ≡ names_of (state self.old).views }
        ensures counted { total_faults (state self.old).views ≤ total_faults (state self.new).views }
        ensures cause { HaveCause result (state self.old).views (state self.new).views };

    /// Takes the store of that name out and drops it, with the places that name it.
    fn drop_store(&mut self, store: &Name)
        requires attached { IsSome (index_in (state self.old) store.now) }
        ensures dropped { IsDropped store.now (state self.old) (state self.new) };
}
