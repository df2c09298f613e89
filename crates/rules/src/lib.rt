//! Rule books: which triples of left space, width and right space a wire may stand in.
#![tactic(auto)]

pub mod books;
pub mod pairs;
mod steps;
pub mod two_kinds;

pub use books::{OpenBook, RuleBook};
pub use pairs::PairBook;
