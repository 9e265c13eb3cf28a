//! Frequencies: a number of days, weeks, months or years, or the whole term (FpML `Period`).

/// The unit of a frequency (FpML `period`).
#[derive(Clone, Copy, Debug, PartialEq, Eq, PartialOrd, Ord)]
pub enum Unit {
    /// Days.
    D,
    /// Weeks of 7 days.
    W,
    /// Months.
    M,
    /// Years of 12 months.
    Y,
    /// The term: one period from the effective date to the termination date.
    T,
}

/// A frequency: a multiplier from 1 to 999, and its unit.
#[derive(Clone, Copy, PartialEq, Eq, PartialOrd, Ord)]
pub struct Frequency {
    /// How many units, from 1 to 999 (FpML `periodMultiplier`).
    pub count: u16,
    /// The unit (FpML `period`).
    pub unit: Unit,
}
