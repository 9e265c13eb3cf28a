//! The terms of payment dates, reset dates and fixing dates.
use crate::{Adjustments, Frequency, Offset, RefState, Relative};
use irs_base::Day;

/// When payments are due (FpML `paymentDates`).
#[derive(Drop)]
pub struct PayTerms {
    /// `calculationPeriodDatesReference`.
    pub calc_ref: RefState,
    /// `paymentFrequency`.
    pub freq: Frequency,
    /// `firstPaymentDate`.
    pub first: Option<Day>,
    /// `lastRegularPaymentDate`.
    pub last: Option<Day>,
    /// `payRelativeTo`.
    pub relative: Relative,
    /// `paymentDaysOffset`; 0 where it is absent.
    pub offset: Offset,
    /// `paymentDatesAdjustments`; NONE without centres where they are absent.
    pub adj: Adjustments,
}

/// When a rate is observed (FpML `fixingDates`).
#[derive(Drop)]
pub struct FixTerms {
    /// How far the fixing date lies from the reset date (FpML `periodMultiplier`, `dayType`).
    pub offset: Offset,
    /// How it is adjusted (FpML `businessDayConvention`, `businessCenters`).
    pub adj: Adjustments,
}

/// When rates are reset (FpML `resetDates`).
#[derive(Drop)]
pub struct ResetTerms {
    /// `calculationPeriodDatesReference`.
    pub calc_ref: RefState,
    /// `fixingDates/dateRelativeTo`.
    pub fixing_ref: RefState,
    /// `resetRelativeTo`.
    pub relative: Relative,
    /// `fixingDates`.
    pub fixing: Option<FixTerms>,
    /// `resetFrequency`.
    pub freq: Frequency,
    /// `resetDatesAdjustments`; NONE without centres where they are absent.
    pub adj: Adjustments,
}
