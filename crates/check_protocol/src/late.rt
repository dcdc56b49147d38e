//! Requests that take effect late.
ghost use Rattle.std.specs.Prelude.{◌≡◌, ◌&&◌, false};
ghost use Rattle.std.specs.List.{list_any};
ghost use Rattle.check_protocol.specs.Rules.{delays as delays_lem, same_action, was_delayed as was_delayed_lem};

use crate::{Action, Labelled, is_same_action, is_same_request};
use sdb_model::{Event, How};
use sdb_types::{Reply, Request};

fn delays(event: &Event, request: &Request) -> bool
    ensures { result ≡ delays_lem request.now event.now }
{
    match event {
        Event::Call(_, _, asked, How::Delayed, reply, _) => {
            matches!(reply.get(), Reply::Fault) && is_same_request(asked.get(), request)
        }
        _ => false,
    }
}

/// Whether a call of this request was delayed, with this action.
pub fn was_delayed(past: &[Labelled], request: &Request, action: &Action) -> bool
    ensures { result ≡ was_delayed_lem past.now request.now action.now }
{
    for labelled in past {
        if delays(&labelled.event, request) && is_same_action(&labelled.action, action) {
            return true;
        }
    }
    false
}
