//! The power-delay curve of a plan: the records of points and of states, and what holds of the curve and of the states that stages keep.
//! Each function that ends in `holds` or `hold` states a theorem by its contract, over every measure, every book and every sound plan, and does
//! nothing.
#![tactic(auto)]

pub mod curves;
pub mod lists;
pub mod records;
pub mod stages;
pub mod two_kinds;
pub mod worked;

pub use curves::{curve_is_holds, curve_is_one_holds};
pub use lists::{Record, blank_all, count_above, insert, put};
pub use records::{Point, State};
pub use stages::{
    bare_none_holds, kept_counted_holds, kept_is_holds, row_first_holds, row_last_holds,
    row_next_holds, row_none_holds,
};
pub use two_kinds::{either_curve_holds, first_written_holds, second_written_holds};
pub use worked::cases_hold;
