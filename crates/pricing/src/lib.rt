//! What wires cost, and what an allocation costs: its used width, its power and its delay by a measure.
#![tactic(auto)]

pub mod allocation;
mod allocations;
pub mod grids;
pub mod laid;
mod lays;
pub mod prices;
pub mod worked;

pub use allocation::Allocation;
pub use grids::in_grid;
pub use laid::LaidWire;
pub use prices::{Priced, price};
pub use worked::worked_prices_hold;
