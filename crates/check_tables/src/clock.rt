//! The clock, and the events before one.
ghost use Rattle.std.specs.Prelude.{◌≡◌, take, fold, pos};
ghost use Rattle.sdb_model.specs.Calls.{clock_after as clock_after_lem, clock_at as clock_at_lem};

use sdb_model::Event;

fn clock_after(now: i64, event: &Event) -> i64
    ensures { result ≡ clock_after_lem now event.now }
{
    match event {
        Event::Clock(moment) => *moment,
        _ => now,
    }
}

/// The first n events.
pub fn prefix(events: &[Event], n: u64) -> &[Event]
    ensures { result.now ≡ take n events.now }
{
    let all = events.len();
    if n < all as u64 {
        &events[..n as usize]
    } else {
        events
    }
}

fn last_moment(events: &[Event]) -> i64
    ensures { result ≡ fold clock_after_lem (pos 0) events.now }
{
    let mut now = 0;
    for event in events {
        now = clock_after(now, event);
    }
    now
}

/// What the clock shows after the first n events, in milliseconds: what it was last moved to, or 0.
pub fn clock_at(events: &[Event], n: u64) -> i64
    ensures { result ≡ clock_at_lem events.now n }
{
    last_moment(prefix(events, n))
}
