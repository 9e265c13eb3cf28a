//! Daily rates compounded: each factor is the one before it times 1 and the daily rate times its
//! weight over the days of a year. That factors are rounded at 18 decimals is our rule.
ghost use Rattle.std.specs.Prelude.{◌≡◌, ◌*◌, ◌^◌, ◌<◌, ◌≤◌, IfOk, IfErr, IfSome, IfNone, None, pos, ◌<ℤ◌};
ghost use Rattle.std.specs.Prelude.{◌+ℤ◌, ◌*ℤ◌, unsigned_abs};
ghost use Rattle.irs_base.specs.Days.{all_days};
ghost use Rattle.irs_base.specs.Limits.{Rounded};
ghost use Rattle.irs_base.specs.declared.rounding.Direction.TheVariants.{Nearest};
ghost use Rattle.irs_terms.specs.Lawful.{IsRate};
ghost use Rattle.irs_observed.specs.ObservedRates.{AreKnown, rates_by, FactorPasses, Grows, GrowsBy, one_factor};
ghost use Rattle.irs_observed.specs.ObservedRates.{unit_rate, CompoundsPast, rate_precision};
ghost use Rattle.irs_observed.specs.Observations.{HasWeights};

use crate::daily::{are_known, daily_rate_near};
use crate::observation::Observation;
use crate::products::product;
use crate::rates::FactorOutOfRange;
use irs_base::{Direction, round};
use irs_resets::IndexRates;

/// The factor 1, in units of 10^-18.
pub(crate) const ONE_FACTOR: i128 = 1_000_000_000_000_000_000;

/// The greatest factor in size: 10^4.
const MOST_FACTOR: u128 = 10_000_000_000_000_000_000_000;

// The rate 1 for a year of that many days.
fn year_of(basis: u16) -> i128
    requires range { (1 ≤ basis) × (basis ≤ 365) }
    ensures value { result ≡ unit_rate basis }
    ensures above { pos 0 <ℤ result }
    ensures size { unsigned_abs result ≤ 365 * 10 ^ 9 }
{
    1_000_000_000 * i128::from(basis)
}

/// A rate times a number of days.
pub(crate) fn interest(rate: i64, weight: u32) -> i128
    requires rate { IsRate rate }
    requires weight { weight < all_days }
    ensures value { result ≡ rate *ℤ pos weight }
    ensures size { unsigned_abs result ≤ 10 ^ 10 * weight }
{
    product(i128::from(rate), i128::from(weight))
}

// By how much a year grows.
fn grown_year(year: i128, interest: i128) -> i128
    requires year { unsigned_abs year ≤ 365 * 10 ^ 9 }
    requires interest { unsigned_abs interest ≤ 10 ^ 10 * all_days }
    ensures value { result ≡ year +ℤ interest }
    ensures size { unsigned_abs result < 2 * 10 ^ 15 }
{
    year + interest
}

// A factor times what a year grows by.
fn grown_factor(factor: i128, grown: i128) -> i128
    requires factor { unsigned_abs factor ≤ rate_precision.most }
    requires grown { unsigned_abs grown < 2 * 10 ^ 15 }
    ensures value { result ≡ factor *ℤ grown }
    ensures size { unsigned_abs result ≤ 2 * 10 ^ 37 }
{
    product(factor, grown)
}

// The factor after another by a rate over a number of days.
fn next_factor(basis: u16, factor: i128, rate: i64, weight: u32) -> i128
    requires range { (1 ≤ basis) × (basis ≤ 365) }
    requires factor { unsigned_abs factor ≤ rate_precision.most }
    requires rate { IsRate rate }
    requires weight { weight < all_days }
    ensures { Rounded Nearest (factor *ℤ (unit_rate basis +ℤ rate *ℤ pos weight)) (unit_rate basis) result }
{
    let year = year_of(basis);
    let grown = grown_year(year, interest(rate, weight));
    round(Direction::Nearest, grown_factor(factor, grown), year)
}

// The factor after an observation; `None` where its rate is absent.
fn grown_by(
    basis: u16,
    factor: i128,
    o: Observation,
    daily: &IndexRates<'_>,
    near: &mut usize,
) -> Option<i128>
    requires range { (1 ≤ basis) × (basis ≤ 365) }
    requires factor { unsigned_abs factor ≤ rate_precision.most }
    requires weight { o.weight < all_days }
    ensures some { IfSome result (λ g. GrowsBy basis (rates_by daily.now) o factor g) }
    ensures none { IfNone result (rates_by daily.now o.observed ≡ None) }
{
    match daily_rate_near(daily, o.observed, near) {
        Some(rate) => Some(next_factor(basis, factor, rate, o.weight)),
        None => None,
    }
}

// What is answered where a factor passes its limit: nothing is known where a daily rate is absent.
fn past_limit(
    observations: &[Observation],
    daily: &IndexRates<'_>,
) -> Result<Option<i128>, FactorOutOfRange>
    ensures never { IfOk result (λ f. IfSome f (λ _. ⊥)) }
    ensures absent { IfOk result (λ f. IfNone f (AreKnown (rates_by daily.now) observations.now → ⊥)) }
    ensures known { IfErr result (λ _. AreKnown (rates_by daily.now) observations.now) }
{
    if are_known(observations, daily) {
        Err(FactorOutOfRange)
    } else {
        Ok(None)
    }
}

/// The last factor; `None` where a daily rate is absent. The error comes exactly where each is there
/// and a factor passes its limit.
pub(crate) fn compounded(
    basis: u16,
    observations: &[Observation],
    daily: &IndexRates<'_>,
) -> Result<Option<i128>, FactorOutOfRange>
    requires range { (1 ≤ basis) × (basis ≤ 365) }
    requires weights { HasWeights observations.now }
    ensures some { let rates = rates_by daily.now in
        IfOk result (λ f. IfSome f (λ g. Grows basis rates observations.now (one_factor rate_precision) g)) }
    ensures size { IfOk result (λ f. IfSome f (λ g. unsigned_abs g ≤ rate_precision.most)) }
    ensures kept { let rates = rates_by daily.now in
        IfOk result (λ f. IfSome f (λ _. FactorPasses rate_precision basis rates observations.now → ⊥)) }
    ensures absent { let rates = rates_by daily.now in
        IfOk result (λ f. IfNone f (AreKnown rates observations.now → ⊥)) }
    ensures passes { let rates = rates_by daily.now in
        IfErr result (λ _. CompoundsPast basis rates observations.now) }
{
    let mut factor = ONE_FACTOR;
    let mut near = 0;
    for o in observations {
        let Some(next) = grown_by(basis, factor, *o, daily, &mut near) else {
            return Ok(None);
        };
        factor = next;
        if factor.unsigned_abs() > MOST_FACTOR {
            return past_limit(observations, daily);
        }
    }
    Ok(Some(factor))
}
