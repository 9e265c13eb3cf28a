//! How the rates of an overnight index become the rate of a calculation period (FpML
//! `calculationParameters`, in the words of the 2021 ISDA Definitions).
use irs_base::Names;

/// How daily rates become one rate (FpML `calculationMethod`).
#[derive(Clone, Copy, Debug, PartialEq, Eq)]
pub enum CalculationMethod {
    /// `Compounding`: each day's interest earns interest from the next day on.
    Compounding,
    /// `Averaging`: the average by the days for which each rate applies.
    Averaging,
}

/// Which days' rates are observed (FpML `observationShift`, `lookback`, `lockout`). Its days are
/// applicable business days, from 1 to 30 (FpML `offsetDays`).
#[derive(Clone, Copy, Debug, PartialEq, Eq)]
pub enum ObservationOffset {
    /// None of the three is given: each day of the period takes its own rate.
    Absent,
    /// `observationShift`: the observation period lies this many days before the calculation period.
    Shift(u8),
    /// `lookback`: each day takes the rate of the day this many days before it, with its own weight.
    Lookback(u8),
    /// `lockout`: the last days, this many, take the rate of the day before them.
    Lockout(u8),
}

/// How daily rates become the rate of a calculation period (FpML `calculationParameters`).
#[derive(Drop)]
pub struct CalculationParameters {
    /// `calculationMethod`.
    pub method: CalculationMethod,
    /// `observationShift`, `lookback` or `lockout`.
    pub offset: ObservationOffset,
    /// The centres whose calendars say which days are applicable (FpML `applicableBusinessDays`): 1
    /// to 16 names.
    pub centers: Names,
}
