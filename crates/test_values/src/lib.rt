//! What the values, records and schemas of the data model answer: tests against values from outside.
#![tactic(auto)]

#[cfg(test)]
mod accepted;
#[cfg(test)]
mod codec;
#[cfg(test)]
mod data;
#[cfg(test)]
mod keyed;
#[cfg(test)]
mod outside;
#[cfg(test)]
mod records;
#[cfg(test)]
mod refused;
#[cfg(test)]
mod schema;
#[cfg(test)]
mod types;
