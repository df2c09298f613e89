// A bundle: a drawing with its undo history.
#![tactic(auto)]

pub mod bundles;
pub mod changes;
pub mod laws;
mod timeline;
pub mod worked;

pub use bundles::Bundle;
pub use changes::Change;
