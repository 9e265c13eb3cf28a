//! The observed rate of a calculation period of a stream with calculation parameters.
ghost use Rattle.std.specs.Prelude.{◌≡◌, ◌*◌, ◌^◌, ◌<◌, ◌≤◌, IfSome, unsigned_abs};
ghost use Rattle.irs_observed.specs.ObservedRates.{most_observed, daily_rates};
ghost use Rattle.irs_observed.specs.OvernightRates.{HasBounds, IsRateBy, printed_of};
ghost use Rattle.irs_observed.specs.Observations.{total_weight};

use crate::method::DailyRateMethod;
use crate::observation::ObservationList;
use crate::period_rates::printed_rate;
use crate::rates::{FactorOutOfRange, ObservedRate, observed_rate};
use irs_base::Text;
use irs_resets::Fixings;
use irs_terms::Listed;

/// The observed rate of a calculation period of a stream with calculation parameters.
#[derive(Clone, Copy)]
pub enum OvernightRate {
    /// The rate that is stated for a stub, in units of 10^-9.
    Stated(i64),
    /// Daily rates, compounded or averaged: a fraction that isn't rounded.
    Known(ObservedRate),
    /// A daily rate is absent, so the observed rate isn't known.
    Absent,
    /// Each daily rate is there, and a compounded factor passes 10^4 in size.
    OutOfRange,
}

/// The observed rates of calculation periods, in order.
pub type OvernightRates = Listed<OvernightRate>;

impl OvernightRate {
    /// The printed rate: in units of 10^-9, to the nearest, a half up. It is `None` if the rate isn't
    /// known, or a factor passes its limit.
    pub fn printed(self) -> Option<i64>
        requires { HasBounds self }
        ensures value { result ≡ printed_of self }
        ensures size { IfSome result (λ r. unsigned_abs r ≤ most_observed * 10 ^ 9) }
    {
        match self {
            OvernightRate::Stated(rate) => Some(rate),
            OvernightRate::Known(rate) => Some(printed_rate(rate)),
            OvernightRate::Absent | OvernightRate::OutOfRange => None,
        }
    }
}

/// The rate by the daily rates of a period's observations.
pub(crate) fn rate_by_days(
    method: DailyRateMethod,
    observations: &ObservationList,
    daily: &Fixings,
    index: &Text,
) -> OvernightRate
    ensures is { IsRateBy method (daily_rates daily.now index.now) observations.now result }
    ensures some { 0 < total_weight observations.now }
    ensures bounds { HasBounds result }
{
    // hands the prover that the weights are above 0
    let _observations = observations.as_slice();
    match observed_rate(method, observations, daily, index) {
        Ok(Some(rate)) => known(rate),
        Ok(None) => OvernightRate::Absent,
        Err(FactorOutOfRange) => OvernightRate::OutOfRange,
    }
}

// A rate that is known.
fn known(rate: ObservedRate) -> OvernightRate
    ensures is { result ≡ OvernightRate.Known rate }
    ensures bounds { HasBounds result }
{
    // hands the prover the bounds of the rate
    let _parts = rate.parts();
    OvernightRate::Known(rate)
}
