//! What is promised of a report.

/// What is promised of a report, in the order in which it is judged.
#[derive(Clone, Copy, Debug, PartialEq, Eq)]
pub enum Promise {
    /// The events are an execution of the script's clients.
    Executed,
    /// Each answer has its cause.
    Causes,
    /// The calls of each statement are counted.
    Counts,
    /// Each unresolved record that was found was rolled before the answer.
    Resolved,
    /// The replies are those of stores that were empty.
    Stores,
    /// Rows that answers show were committed, or the transaction's own.
    Shown,
    /// The order has the recorded transactions, each with its point, by rising points.
    Order,
    /// The bodies, run whole in the order, give the answers and the rows that are left.
    Serial,
}

impl Promise {
    /// The name of the promise.
    pub fn name(self) -> &'static str {
        match self {
            Promise::Executed => "executed",
            Promise::Causes => "causes",
            Promise::Counts => "counts",
            Promise::Resolved => "resolved",
            Promise::Stores => "stores",
            Promise::Shown => "shown",
            Promise::Order => "order",
            Promise::Serial => "serial",
        }
    }
}

/// What comes of a report: all that is promised, or the first promise that fails.
#[derive(Clone, Copy, Debug, PartialEq, Eq)]
pub enum Verdict {
    AsPromised,
    Fails(Promise),
}
