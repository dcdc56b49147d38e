//! The generator of the draws.
ghost use Rattle.std.specs.Prelude.{◌≡◌, ◌<◌, ◌/◌, ◌%◌, ◌^◌};
ghost use Rattle.sdb_bench.specs.Draws.{below, next_state};

const MULTIPLIER: u64 = 6_364_136_223_846_793_005;

const INCREMENT: u64 = 1_442_695_040_888_963_407;

/// A linear congruential generator of 64 bits.
#[derive(Clone, Copy)]
pub struct Draws {
    pub state: u64,
}

impl Draws {
    /// The next draw below m, from the high bits of the state after it.
    pub fn below(&mut self, m: u32) -> u32
        requires { 0 < m }
        ensures state { self.new.state ≡ next_state self.old.state }
        ensures drawn { result ≡ below m self.new.state }
    {
        self.state = self.state.wrapping_mul(MULTIPLIER).wrapping_add(INCREMENT);
        ((self.state >> 33) % u64::from(m)) as u32
    }
}
