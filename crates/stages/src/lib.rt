//! The middle of a solve: the kept states of a stage from those of the stage before, and the loop over all wires.
#![tactic(auto)]

mod delays;
mod merge;
mod offers;
pub mod stages;
mod streams;

pub use stages::all_stages;
