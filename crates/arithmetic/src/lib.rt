// Rounding and interpolation (01, "Steps and rounding" and step 2 of "The reading").
#![tactic(auto)]

mod interpolation;
mod rounding;

pub use interpolation::{Around, Placed, Two, interpolate_one, interpolate_two, line_at, locate};
pub use rounding::round_div;
