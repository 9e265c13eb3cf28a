//! The rows of a stream with calculation parameters, and why it has none.

use irs_observed::{DailyRateMethod, NoObservations, Observation};
use irs_terms::Listed;
use thiserror::Error;

/// A calculation period that takes daily rates.
#[derive(Clone, Copy)]
pub struct PeriodRow {
    /// The number of the period, from 1.
    pub number: u32,
    /// How its daily rates become one rate.
    pub method: DailyRateMethod,
    /// The last compounded factor, in units of 10^-18. By averages it is the sum of the daily rates, each times its
    /// weight, in units of 10^-9. `None` where a daily rate is absent.
    pub factor: Option<i128>,
}

/// An observation of a calculation period.
#[derive(Clone, Copy)]
pub struct DayRow {
    /// The number of the period, from 1.
    pub number: u32,
    /// The member of its observation period, its weight and its observation day.
    pub observation: Observation,
    /// The daily rate of the observation day, in units of 10^-9; `None` where it is absent.
    pub rate: Option<i64>,
}

/// A row of a stream with calculation parameters.
#[derive(Clone, Copy)]
pub enum ObservedRow {
    /// A calculation period that takes daily rates; the rows of its observations follow.
    Daily(PeriodRow),
    /// The number, from 1, of a stub with a rate of its own; no row of it follows.
    Stub(u32),
    /// An observation of the calculation period before it.
    Observed(DayRow),
}

/// Rows in order.
pub type ObservedRows = Listed<ObservedRow>;

/// Why a calculation period has no rows. A schedule is made where no period has such a reason.
#[derive(Clone, Copy, Debug, PartialEq, Eq, Error)]
pub enum NoRowsWhy {
    /// It takes daily rates, and has no observations.
    #[error("{0}")]
    Unobserved(NoObservations),
    /// Each of its daily rates is there, and a compounded factor passes 10^4 in size.
    #[error("a compounded factor is out of range")]
    OutOfRange,
}

/// The first calculation period without rows.
#[derive(Clone, Copy, Debug, Error)]
#[error("calculation period {number}: {why}")]
pub struct NoRows {
    /// The number of the period, from 1.
    pub number: u32,
    /// Why it has none.
    pub why: NoRowsWhy,
}
