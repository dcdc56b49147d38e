//! The picture of a report: what is drawn of each event, and how it is printed as SVG.
#![tactic(auto)]

mod drawing;
mod effect;
mod fate;
mod heading;
mod known;
mod labels;
mod lanes;
pub mod laws;
mod marks;
mod places;
mod refused;
mod rows;
mod titles;
mod whole;

pub use effect::{Effect, Stage, Verdict, is_decision, may_change, stage_of, verdict_of};
pub use known::{effect_at, rows_after};
pub use lanes::{Lanes, Place, lanes_of};
pub use refused::PictureRefused;
pub use whole::picture;
