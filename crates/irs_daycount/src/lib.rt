//! Day count fractions: the seven codes of this profile, by the 2006 ISDA Definitions, section 4.16.
#![tactic(auto)]

mod actual;
mod day_counts;
mod fractions;
mod thirty;

pub use day_counts::{
    Act360, Act365Fixed, ActActIsda, DayCount, OneOne, Thirty360, ThirtyE360, ThirtyE360Isda,
};
pub use fractions::{days_and_fraction, days_by, fraction_by};
