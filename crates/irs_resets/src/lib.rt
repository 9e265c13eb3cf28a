//! Rate fixings from a file, and the resets of a floating stream: reset dates, fixing dates and
//! observed rates.
#![tactic(auto)]

mod dates;
mod fixing_line;
mod fixings;
mod in_order;
mod observed;
mod rows;
mod store;
mod tenors;
mod words;

pub use fixings::{FixErr, Fixings, IndexRates, fixings_are_determined};
pub use observed::{PeriodKind, period_kind};
pub use rows::{ResErr, resets, resets_are_determined};
pub use tenors::{IndexTenor, tenor};
