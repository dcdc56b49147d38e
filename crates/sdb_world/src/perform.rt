//! One call of a client, made in some way.
ghost use Rattle.std.specs.Prelude.{◌≡◌, ◌<◌, length};
ghost use Rattle.sdb_types.specs.Contents.{CanAnswer, IsWellFormed};
ghost use Rattle.sdb_stores.specs.Views.{HaveRisen};
ghost use Rattle.sdb_model.specs.Events.{table_asked};
ghost use Rattle.sdb_contents.specs.Board.{AreUsableFor, GoOn, IsDelivered, IsMade, how_lost as how_lost_lem, how_seen as how_seen_lem, reply_lost as reply_lost_lem};
ghost use Rattle.sdb_world.specs.Step.{IsDeliveryOf};

use crate::delivery::Delivery;
use sdb_contents::call;
use sdb_model::How;
use sdb_stores::Registry;
use sdb_types::{Reply, Request};

fn how_seen(reply: &Reply) -> How
    ensures { result ≡ how_seen_lem reply.now }
{
    match reply {
        Reply::Fault => How::Broken,
        _ => How::Seen,
    }
}

fn how_lost(reply: &Reply) -> How
    ensures { result ≡ how_lost_lem reply.now }
{
    match reply {
        Reply::Fault => How::Broken,
        Reply::NoMemory => How::Seen,
        _ => How::Lost,
    }
}

fn reply_lost(reply: Reply) -> Reply
    ensures { result ≡ reply_lost_lem reply }
{
    match reply {
        Reply::NoMemory => Reply::NoMemory,
        _ => Reply::Fault,
    }
}

/// Makes a call on the store of its table in some way, or doesn't: how it came out, and the reply that its client gets.
pub fn perform<R: Registry>(stores: &mut R, request: &Request, way: Delivery) -> (How, Reply)
    requires some { 0 < length (R.state stores.old).views }
    requires formed { IsWellFormed request.now }
    ensures once { IsDelivered request.now result.0 result.1 (R.state stores.old) (R.state stores.new) }
    ensures made { AreUsableFor (table_asked request.now) (R.state stores.old) → IsMade request.now result.0 result.1 (R.state stores.old) (R.state stores.new) }
    ensures lawful { CanAnswer request.now result.1 }
    ensures allowed { IsDeliveryOf way result.0 result.1 }
    ensures broken { result.0 ≡ How.Broken → HaveRisen (R.state stores.old).views (R.state stores.new).views }
    ensures goes { GoOn (R.state stores.old) (R.state stores.new) }
{
    match way {
        Delivery::Step => {
            let reply = call(stores, request);
            (how_seen(&reply), reply)
        }
        Delivery::Lose => {
            let reply = call(stores, request);
            (how_lost(&reply), reply_lost(reply))
        }
        Delivery::Discard => (How::Discarded, Reply::Fault),
        Delivery::Delay => (How::Delayed, Reply::Fault),
    }
}
