// Sheets written: line by line, whole, and as the answer to a sheet.
#![tactic(auto)]

pub mod answers;
pub mod line_texts;
pub mod states;
pub mod whole;
pub mod writing;
