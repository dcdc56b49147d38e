//! What the program answers: tests against inputs and reports from outside.
#![tactic(auto)]

#[cfg(test)]
mod altered;
#[cfg(test)]
mod asked;
#[cfg(test)]
mod attached;
#[cfg(test)]
mod commands;
#[cfg(test)]
mod commits;
#[cfg(test)]
mod failing;
#[cfg(test)]
mod inputs;
#[cfg(test)]
mod late;
#[cfg(test)]
mod program;
#[cfg(test)]
mod puppet;
#[cfg(test)]
mod retired;
#[cfg(test)]
mod run;
#[cfg(test)]
mod session;
#[cfg(test)]
mod statements;
#[cfg(test)]
mod tables;
#[cfg(test)]
mod worked;
