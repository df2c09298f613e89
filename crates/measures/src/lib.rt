//! Delay measures: what the delays of a bundle's wires come to, and which of two outcomes is not above the other.
#![tactic(auto)]

pub mod largest;
pub mod lates;
pub mod limits;
pub mod measure;
pub mod printable;
pub mod refuted;
pub mod sums;
pub mod two_kinds;
pub mod values;

pub use largest::Worst;
pub use lates::{Late, LateFirst};
pub use measure::DelayMeasure;
pub use printable::{Fields, PrintableMeasure};
pub use sums::Total;
pub use values::EitherValue;
