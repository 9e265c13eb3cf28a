//! The observed rate of a calculation period: a fraction, which is rounded only once it has its
//! multiplier and its spread.
ghost use Rattle.std.specs.Prelude.{◌≡◌, ◌*◌, ◌^◌, ◌<◌, ◌≤◌, pos, ◌<ℤ◌, ◌-ℤ◌, ◌*ℤ◌, unsigned_abs};
ghost use Rattle.irs_base.specs.Days.{all_days};
ghost use Rattle.irs_base.specs.Outcomes.{MeetsExactly};
ghost use Rattle.irs_observed.specs.ObservedRates.{daily_rates, rates_by, one_factor, RateFraction, IsBounded};
ghost use Rattle.irs_observed.specs.ObservedRates.{IsRateOrAbsent, most_observed, rate_precision};
ghost use Rattle.irs_observed.specs.Observations.{HasWeights, total_weight};
ghost use Rattle.irs_observed.specs.OvernightRates.{observed_rate_of};

use crate::averages::summed;
use crate::factors::{ONE_FACTOR, compounded};
use crate::method::{DailyRateMethod, YearDays, days_of_year};
use crate::observation::{Observation, ObservationList};
use crate::products::product;
use irs_base::Text;
use irs_resets::{Fixings, IndexRates};
use std::marker::Model;
use thiserror::Error;

/// Each daily rate of a period is there, and a factor passes 10^4 in size.
#[derive(Clone, Copy, Debug, Error)]
#[error("a compounded factor is out of range")]
pub struct FactorOutOfRange;

/// An observed rate, a fraction that isn't rounded, and is at most 3,650,365 in size.
#[derive(Clone, Copy)]
pub struct ObservedRate {
    numerator: i128,
    denominator: i128,
}

impl Model for ObservedRate {
    ghost use Rattle.irs_observed.specs.ObservedRates.{RateFraction, IsBounded};

    ghost Value = { RateFraction };

    ghost view = { λ x. record { numerator = x.numerator; denominator = x.denominator } };

    ghost inverse = { λ f. record { numerator = f.numerator; denominator = f.denominator } };

    ghost invariant = { λ x. IsBounded (record { numerator = x.numerator; denominator = x.denominator }) };
}

impl ObservedRate {
    /// Numerator and denominator.
    pub(crate) fn parts(self) -> (i128, i128)
        ensures numerator { result.0 ≡ self.numerator }
        ensures denominator { result.1 ≡ self.denominator }
        ensures bounds { IsBounded self }
    {
        (self.numerator, self.denominator)
    }
}

// What is earned on the factor 1.
fn gained(factor: i128) -> i128
    requires { unsigned_abs factor ≤ rate_precision.most }
    ensures value { result ≡ factor -ℤ one_factor rate_precision }
    ensures size { unsigned_abs result ≤ 10_001 * 10 ^ 18 }
{
    factor - ONE_FACTOR
}

// What is earned on the factor 1, for a year of that many days.
fn earned(factor: i128, basis: u16) -> i128
    requires factor { unsigned_abs factor ≤ rate_precision.most }
    requires basis { basis ≤ 365 }
    ensures value { result ≡ (factor -ℤ one_factor rate_precision) *ℤ pos basis }
    ensures size { unsigned_abs result ≤ most_observed * 10 ^ 18 }
{
    product(gained(factor), i128::from(basis))
}

// The sum of the weights.
fn total_weight(observations: &[Observation]) -> u32
    requires { HasWeights observations.now }
    ensures { result ≡ total_weight observations.now }
{
    let mut total = 0;
    for o in observations {
        total += o.weight;
    }
    total
}

// A number of days in units of a whole number.
fn days_by(days: u32, units: i128) -> i128
    requires days { (0 < days) × (days < all_days) }
    requires units { (pos 0 <ℤ units) × (unsigned_abs units ≤ 10 ^ 18) }
    ensures value { result ≡ units *ℤ pos days }
    ensures above { pos 0 <ℤ result }
    ensures size { unsigned_abs result ≡ unsigned_abs units * days }
{
    product(units, i128::from(days))
}

// The rate that gives the last factor by simple interest over a number of days.
fn rate_of_factor(factor: i128, basis: u16, days: u32) -> ObservedRate
    requires factor { unsigned_abs factor ≤ rate_precision.most }
    requires basis { basis ≤ 365 }
    requires days { (0 < days) × (days < all_days) }
    ensures numerator { result.numerator ≡ (factor -ℤ one_factor rate_precision) *ℤ pos basis }
    ensures denominator { result.denominator ≡ one_factor rate_precision *ℤ pos days }
{
    ObservedRate {
        numerator: earned(factor, basis),
        denominator: days_by(days, ONE_FACTOR),
    }
}

// The average that gives a sum over a number of days.
fn rate_of_sum(sum: i128, days: u32) -> ObservedRate
    requires sum { unsigned_abs sum ≤ 10 ^ 10 * days }
    requires days { (0 < days) × (days < all_days) }
    ensures numerator { result.numerator ≡ sum }
    ensures denominator { result.denominator ≡ pos (10 ^ 9) *ℤ pos days }
{
    ObservedRate {
        numerator: sum,
        denominator: days_by(days, 1_000_000_000),
    }
}

// The observed rate by compounding.
fn compounded_rate(
    year: YearDays,
    observations: &[Observation],
    daily: &IndexRates<'_>,
) -> Result<Option<ObservedRate>, FactorOutOfRange>
    requires weights { HasWeights observations.now }
    ensures meets { let method = DailyRateMethod.Compounding year in
        MeetsExactly (observed_rate_of method (rates_by daily.now) observations.now) result }
{
    let basis = days_of_year(year);
    match compounded(basis, observations, daily)? {
        Some(factor) => Ok(Some(rate_of_factor(factor, basis, total_weight(observations)))),
        None => Ok(None),
    }
}

// The observed rate by averaging.
fn averaged_rate(observations: &[Observation], daily: &IndexRates<'_>) -> Option<ObservedRate>
    requires weights { HasWeights observations.now }
    ensures { IsRateOrAbsent DailyRateMethod.Averaging (rates_by daily.now) observations.now result }
{
    let sum = summed(observations, daily)?;
    Some(rate_of_sum(sum, total_weight(observations)))
}

/// The observed rate of a calculation period by the daily rates of its observations: those of the
/// index, of the tenor 1D. `None` exactly where one of them is absent. No memory is taken.
///
/// Compounded, it is the rate that gives the last factor by simple interest over the days of the
/// observation period. Factors start from 1, and each is rounded at 18 decimals, to the nearest, a
/// half up. Averaged, it is the sum of the daily rates, each by its weight, over these days. The rate
/// itself isn't rounded.
///
/// The error comes exactly where each daily rate is there and a factor passes 10^4 in size.
pub fn observed_rate(
    method: DailyRateMethod,
    observations: &ObservationList,
    daily: &Fixings,
    index: &Text,
) -> Result<Option<ObservedRate>, FactorOutOfRange>
    ensures { MeetsExactly (observed_rate_of method (daily_rates daily.now index.now) observations.now) result }
{
    let observations = observations.as_slice();
    let rates = daily.of(index);
    match method {
        DailyRateMethod::Compounding(year) => compounded_rate(year, observations, &rates),
        DailyRateMethod::Averaging => Ok(averaged_rate(observations, &rates)),
    }
}
