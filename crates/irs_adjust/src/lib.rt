//! Business day conventions and offsets of days.
#![tactic(auto)]

mod by_code;
mod convention;
mod conventions;
mod months;
mod moved;
mod offsets;
mod ways;

pub use by_code::adjust_by;
pub use convention::Convention;
pub use conventions::{Following, ModFollowing, ModPreceding, Nearest, Preceding, Unadjusted};
pub use moved::{NoDate, move_and_adjust};
pub use offsets::move_by;
