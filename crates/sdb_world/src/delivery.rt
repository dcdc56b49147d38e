//! The ways in which a client's call is made.

/// What becomes of a call and of its reply.
#[derive(Clone, Copy)]
pub enum Delivery {
    /// It is made, and its reply is seen.
    Step,
    /// It is made, and its reply is lost.
    Lose,
    /// It isn't made, and answered by a fault.
    Discard,
    /// It isn't made yet, and answered by a fault: its request goes into flight.
    Delay,
}
