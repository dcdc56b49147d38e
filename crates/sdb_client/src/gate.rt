//! What other clients do.

/// What the clients that go on do.
#[derive(Clone, Copy, Debug, PartialEq, Eq)]
pub struct Gate {
    /// One of them runs VACUUM.
    pub vacuum_runs: bool,
    /// Another than the client itself has a transaction open.
    pub open_elsewhere: bool,
}
