//! Sources, sinks, clocks and ids that are set to an answer.
use sdb_types::{
    Calls, Clock, Failed, Feed, Ids, Moments, Numbers, Octets, Sink, SinkRefused, Source, Ticks,
    Tray,
};
use std::alloc::Global;
use std::test::Fail;
use test_builders::hold;

// Seven bytes, at most five a call, of which the second fails.
fn feed(alloc: Global) -> Result<Feed, Fail> {
    let bytes = Octets::from_slice(alloc, b"seven b".as_slice())?;
    let failing = Calls::from_slice(alloc, [2].as_slice())?;
    Ok(Feed::new(bytes, 5, failing))
}

const READS: [Result<usize, Failed>; 4] = [Ok(5), Err(Failed), Ok(2), Ok(0)];

// Whether the reads answer so, and the last bytes that they give are these.
fn reads_as_listed(feed: &mut Feed, last: &[u8]) -> bool {
    let mut buffer = [0; 6];
    for wanted in READS {
        if feed.read(&mut buffer) != wanted {
            return false;
        }
    }
    &buffer[..2] == last
}

#[test]
fn a_feed_fails_at_its_second_call(rt: HostRuntime) -> Result<(), Fail> {
    let mut feed = feed(rt.alloc())?;
    hold(Ok(reads_as_listed(&mut feed, b" b".as_slice())))
}

const WRITES: [(&[u8], Result<usize, SinkRefused>); 3] = [
    (b"twelve bytes", Ok(10)),
    (b"es", Ok(2)),
    (b"no", Err(SinkRefused::Failed)),
];

fn writes_as_listed(tray: &mut Tray) -> bool {
    for (bytes, wanted) in WRITES {
        if tray.write(bytes) != wanted {
            return false;
        }
    }
    tray.written().as_slice() == b"twelve bytes".as_slice()
}

#[test]
fn a_tray_takes_at_most_ten_bytes(rt: HostRuntime) -> Result<(), Fail> {
    let failing = Calls::from_slice(rt.alloc(), [3].as_slice())?;
    let mut tray = Tray::new(rt.alloc(), 10, failing);
    hold(Ok(writes_as_listed(&mut tray)))
}

fn shows_as_listed(clock: &mut Ticks) -> bool {
    for wanted in [7, 9007199254740992, 9007199254740992] {
        if clock.now() != wanted {
            return false;
        }
    }
    true
}

#[test]
fn a_clock_gives_its_last_moment_again(rt: HostRuntime) -> Result<(), Fail> {
    let moments = Moments::from_slice(rt.alloc(), [7, 9007199254740992].as_slice())?;
    let mut clock = Ticks::new(moments);
    hold(Ok(shows_as_listed(&mut clock)))
}

#[test]
fn the_number_after_the_last_is_0() -> Result<(), Fail> {
    let mut ids = Numbers::new(u128::MAX);
    hold(Ok(ids.draw() == u128::MAX && ids.draw() == 0))
}
