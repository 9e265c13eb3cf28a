//! Rates that are derived from a fixing file, one for each calculation period.
use irs_base::Day;
use irs_terms::Listed;

/// What is found for a calculation period.
#[derive(Clone, Copy)]
pub enum Found {
    /// The rate, in units of 10^-9.
    Rate(i64),
    /// The first day that needs a rate and has no line.
    Missing(Day),
}

/// The rate of a calculation period, counted from 1, with its fixing date.
#[derive(Clone, Copy)]
pub struct DerivedRow {
    /// The number of the calculation period, from 1.
    pub period: u32,
    /// The fixing date of the period (FpML `fixingDates`).
    pub fixing: Day,
    /// The rate, or the first day that lacks one.
    pub found: Found,
}

/// Derived rates in order, one for each calculation period.
pub type Derived = Listed<DerivedRow>;
