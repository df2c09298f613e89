// A drawing: wires side by side in a channel, on a grid of allowed widths and spaces, and the edits that keep it within its limits.
#![tactic(auto)]

pub mod drawings;
pub mod limits;
pub mod refusals;
mod shift;
pub mod words;

pub use drawings::Drawing;
pub use limits::{MOST_WIRES, bad_channel, bad_grid, too_narrow};
pub use refusals::Refusal;
pub use words::{Edit, Grid, Wire};
