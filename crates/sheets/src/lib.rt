// Sheets: a drawing as lines of text, and how it is read.
#![tactic(auto)]

pub mod faults;
mod reader;
pub mod reading;
