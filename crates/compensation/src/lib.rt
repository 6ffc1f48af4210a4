// Steps 1 to 5 of a reading and its STAT bits (01, "The reading"), in whole numbers, on numbers and figures: a device only moves
// their results.
#![tactic(auto)]

mod filter;
mod stat;
mod steps;
mod tables;

pub use filter::filter_input;
pub use steps::{CellValues, Input, Values, cell_values, input_at, values_from};
