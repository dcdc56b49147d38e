//! What the checkers of runs judge: tests against worked runs from outside, runs that leave a rule, and forged answers.
#![tactic(auto)]

#[cfg(test)]
mod batches;
#[cfg(test)]
mod claims;
#[cfg(test)]
mod counted;
#[cfg(test)]
mod events;
#[cfg(test)]
mod executed;
#[cfg(test)]
mod executions;
#[cfg(test)]
mod forged;
#[cfg(test)]
mod generated;
#[cfg(test)]
mod groups;
#[cfg(test)]
mod lawful;
#[cfg(test)]
mod misfits;
#[cfg(test)]
mod moments;
#[cfg(test)]
mod observed;
#[cfg(test)]
mod pictures_drawn;
#[cfg(test)]
mod pictures_refused;
#[cfg(test)]
mod runs;
#[cfg(test)]
mod steps;
#[cfg(test)]
mod writes;
