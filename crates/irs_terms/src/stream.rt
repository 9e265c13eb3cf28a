//! A stream of a swap.
ghost use Rattle.std.specs.Prelude.{◌≡◌};
ghost use Rattle.irs_base.specs.Days.{IsDay};
ghost use Rattle.irs_terms.specs.TermDates.{first_date_of, first_day_of};

use crate::{
    AdjustableDate, Adjustments, CompCode, Currency, DayCountCode, ExchangeFlags, Frequency, Leg,
    PayTerms, ResetTerms, RollCode, StepValues, StubKind, StubTerms,
};
use irs_base::Day;

/// The terms of one stream (FpML `InterestRateStream`). Notionals are in units of 10^-4.
#[derive(Drop)]
pub struct Stream {
    /// `calculationPeriodDates/effectiveDate`.
    pub effective: AdjustableDate,
    /// `calculationPeriodDates/firstPeriodStartDate`.
    pub first_start: Option<AdjustableDate>,
    /// `calculationPeriodDates/terminationDate`.
    pub termination: AdjustableDate,
    /// `calculationPeriodDates/calculationPeriodDatesAdjustments`.
    pub period_adj: Adjustments,
    /// `calculationPeriodDates/firstRegularPeriodStartDate`.
    pub first_regular: Option<Day>,
    /// `calculationPeriodDates/lastRegularPeriodEndDate`.
    pub last_regular: Option<Day>,
    /// `calculationPeriodDates/stubPeriodType`.
    pub stub: Option<StubKind>,
    /// `calculationPeriodDates/calculationPeriodFrequency`.
    pub freq: Frequency,
    /// `calculationPeriodDates/calculationPeriodFrequency/rollConvention`.
    pub roll: RollCode,
    /// `paymentDates`.
    pub pay: PayTerms,
    /// `resetDates`.
    pub reset: Option<ResetTerms>,
    /// `calculationPeriodAmount/calculation/notionalSchedule`.
    pub notional: StepValues,
    /// The currency of the notional.
    pub currency: Currency,
    /// The fixed or the floating rate.
    pub leg: Leg,
    /// `calculationPeriodAmount/calculation/dayCountFraction`.
    pub day_count: DayCountCode,
    /// `calculationPeriodAmount/calculation/compoundingMethod`.
    pub compounding: CompCode,
    /// `stubCalculationPeriodAmount`.
    pub stubs: Option<StubTerms>,
    /// `principalExchanges`.
    pub exchanges: ExchangeFlags,
}

impl Stream {
    /// The date at which the first calculation period begins, with its adjustments: FpML's
    /// `firstPeriodStartDate` where it is given, else the effective date.
    pub fn first_date(&self) -> &AdjustableDate
        ensures { result.now ≡ first_date_of self.now }
    {
        match &self.first_start {
            Some(first) => first,
            None => &self.effective,
        }
    }

    /// The unadjusted first day of the first calculation period.
    pub fn first_day(&self) -> Day
        ensures value { result ≡ first_day_of self.now }
        ensures day { IsDay result }
    {
        let day = self.first_date().day;
        // By its contract this call shows that the day is in range.
        let _number = day.number();
        day
    }
}
