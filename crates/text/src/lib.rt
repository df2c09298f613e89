#![tactic(auto)]

pub mod fields;
pub mod lines;
