//! Rates of a floating stream that are worked out of other rates, as lines of a fixing file. They
//! are averages over each calculation period, and the rate of a stub between those of two tenors.
#![tactic(auto)]

mod averaging;
mod interpolating;
mod mean_rows;
mod means;
mod rates;
mod samples;
mod stub_rates;
mod stubs;
mod tenor_ends;

pub use averaging::{average, averages_are_determined, averages_lie_among_rates};
pub use interpolating::{
    interpolate, interpolation_is_determined, interpolation_lies_between_rates,
};
pub use means::Mean;
pub use stubs::{Side, stub_index};
