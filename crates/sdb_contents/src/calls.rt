//! One call on the stores.
ghost use Rattle.sdb_model.specs.Calls.{is_read};
ghost use Rattle.std.specs.Prelude.{◌≡◌, ◌<◌, length, true};
ghost use Rattle.sdb_types.specs.Contents.{CanAnswer, IsWellFormed};
ghost use Rattle.sdb_stores.specs.Views.{HaveCause};
ghost use Rattle.sdb_model.specs.Events.{table_asked};
ghost use Rattle.sdb_contents.specs.Board.{AreUsableFor, GoOn, HoldTheSame, IsCalled, IsOneCall, KnownAreUnchanged};

use sdb_stores::Registry;
use sdb_types::{Reply, Request};

/// Makes a call on the store of its table. What it does to that store is known where its contents are.
pub fn call<R: Registry>(stores: &mut R, request: &Request) -> Reply
    requires some { 0 < length (R.state stores.old).views }
    requires formed { IsWellFormed request.now }
    ensures once { IsOneCall request.now result (R.state stores.old) (R.state stores.new) }
    ensures called { AreUsableFor (table_asked request.now) (R.state stores.old) → IsCalled request.now result (R.state stores.old) (R.state stores.new) }
    ensures still { AreUsableFor (table_asked request.now) (R.state stores.old) → is_read request.now ≡ true → HoldTheSame (R.state stores.old) (R.state stores.new) }
    ensures known { is_read request.now ≡ true → KnownAreUnchanged (R.state stores.old) (R.state stores.new) }
    ensures lawful { CanAnswer request.now result }
    ensures goes { GoOn (R.state stores.old) (R.state stores.new) }
    ensures cause { HaveCause result (R.state stores.old).views (R.state stores.new).views }
{
    stores.perform(request)
}
