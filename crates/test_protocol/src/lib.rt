//! What each reply to a call of a COMMIT or a recovery leads to, and what a transaction sees: tests against tables from
//! outside.
#![tactic(auto)]

#[cfg(test)]
mod client;
#[cfg(test)]
mod commit;
#[cfg(test)]
mod decide;
#[cfg(test)]
mod machine;
#[cfg(test)]
mod prepare;
#[cfg(test)]
mod read;
#[cfg(test)]
mod recover;
#[cfg(test)]
mod replies;
#[cfg(test)]
mod rolls;
#[cfg(test)]
mod seen;
#[cfg(test)]
mod transaction;
#[cfg(test)]
mod validate;
#[cfg(test)]
mod writes;
