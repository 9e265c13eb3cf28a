//! Values that change at steps: notionals, fixed rates, multipliers and spreads (FpML `Schedule`).
use crate::Listed;
use irs_base::Day;

/// A value from a day on: a notional in units of 10^-4, or a rate, multiplier or spread in units of
/// 10^-9 (FpML `step`).
#[derive(Clone, Copy)]
pub struct Step {
    /// The day from which the value holds (FpML `stepDate`).
    pub day: Day,
    /// The value (FpML `stepValue`).
    pub value: i128,
}

/// Steps in order.
pub type StepList = Listed<Step>;

/// An initial value and its steps.
#[derive(Drop)]
pub struct StepValues {
    /// The value until the first step (FpML `initialValue`), in the unit of its steps.
    pub initial: i128,
    /// The steps, in order of their days.
    pub steps: StepList,
}
