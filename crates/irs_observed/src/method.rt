//! How daily rates become one rate.
ghost use Rattle.std.specs.Prelude.{◌≡◌};
ghost use Rattle.irs_observed.specs.ObservedRates.{days_of_year};

/// The days of a year by which interest on a daily rate is counted.
#[derive(Clone, Copy, Debug, PartialEq, Eq)]
pub enum YearDays {
    /// 360, of ACT/360.
    Days360,
    /// 365, of ACT/365.FIXED.
    Days365,
}

/// How daily rates become one rate (FpML `calculationMethod`, in the words of
/// the 2021 ISDA Definitions).
#[derive(Clone, Copy, Debug, PartialEq, Eq)]
pub enum DailyRateMethod {
    /// Each day's interest earns interest from the next day on.
    Compounding(YearDays),
    /// The average by the days for which each rate applies; it is the same for every day count.
    Averaging,
}

/// The days of a year.
pub(crate) fn days_of_year(year: YearDays) -> u16
    ensures { result ≡ days_of_year year }
{
    match year {
        YearDays::Days360 => 360,
        YearDays::Days365 => 365,
    }
}
