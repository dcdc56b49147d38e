//! What the stores answer: tests against values from outside.
#![tactic(auto)]

#[cfg(test)]
mod alter;
#[cfg(test)]
mod answers;
#[cfg(test)]
mod attached;
#[cfg(test)]
mod buckets;
#[cfg(test)]
mod calls;
#[cfg(test)]
mod catalog;
#[cfg(test)]
mod closing;
#[cfg(test)]
mod foreign;
#[cfg(test)]
mod puppet;
#[cfg(test)]
mod registry;
#[cfg(test)]
mod retire;
#[cfg(test)]
mod shards;
