//! What texts are read as and how they are printed, and what the definitions, their slow functions and plans answer: tests
//! against values from outside, and of plans against the slow functions.
#![tactic(auto)]

#[cfg(test)]
mod bench;
#[cfg(test)]
mod order;
#[cfg(test)]
mod parsed;
#[cfg(test)]
mod plain;
#[cfg(test)]
mod plans;
#[cfg(test)]
mod printed;
#[cfg(test)]
mod readback;
#[cfg(test)]
mod refusals;
#[cfg(test)]
mod reports;
#[cfg(test)]
mod shop;
#[cfg(test)]
mod texts;
#[cfg(test)]
mod tokens;
#[cfg(test)]
mod whole_scripts;
#[cfg(test)]
mod words;
