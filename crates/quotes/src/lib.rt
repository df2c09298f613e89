// What the program `price` prints: the price of an allocation of a sheet's drawing.
#![tactic(auto)]

mod names;
pub mod quotes;
mod requests;
mod steps;
