//! The ends of a solve: whether any allocation is lawful, and the curve with its witnesses from the states of the last stage.
#![tactic(auto)]

pub mod feasible;
mod finish;
mod options;
mod points;
mod witness;

pub use feasible::fits;
