//! Daily rates compounded. Each factor is the one before it times 1 and the rate times its days
//! over the days of a year. The product and its rounding at 15 decimals are our rule.
ghost use Rattle.std.specs.Prelude.{◌≡◌, ◌+◌, ◌*◌, ◌^◌, ◌<◌, ◌≤◌, All, IfSome, IfNone, None, pos, ◌<ℤ◌, ◌+ℤ◌};
ghost use Rattle.std.specs.Prelude.{◌-ℤ◌, ◌*ℤ◌, unsigned_abs};
ghost use Rattle.irs_base.specs.Days.{all_days};
ghost use Rattle.irs_base.specs.Limits.{most_rate, Rounded};
ghost use Rattle.irs_terms.specs.Lawful.{IsRate};
ghost use Rattle.irs_overnight.specs.Private.Bounds.{IsSmall};
ghost use Rattle.irs_overnight.specs.Observations.{DerivedFactorPasses, DerivedGrows, DerivedGrowsBy, IsDerivedRate};
ghost use Rattle.irs_overnight.specs.Observations.{DerivedPassesLimit, most_factor, derived_one, IsFound, first_absent};
ghost use Rattle.irs_observed.specs.ObservedRates.{unit_rate};
ghost use Rattle.irs_overnight.specs.Texts.{IsSmallFound};
ghost use Rattle.irs_base.specs.declared.rounding.Direction.TheVariants.{Nearest};

use crate::derived::Found;
use crate::observations::{Observation, first_absent};
use irs_base::{Direction, MOST_RATE, round};

/// The factor 1, in units of 10^-15.
const ONE_FACTOR: i128 = 1_000_000_000_000_000;

/// The greatest factor in size.
const MOST_FACTOR: u128 = 100_000_000_000_000_000_000;

// A product that fits.
fn product(a: i128, b: i128) -> i128
    requires { unsigned_abs a * unsigned_abs b < 2 ^ 127 }
    ensures value { result ≡ a *ℤ b }
    ensures size { unsigned_abs result ≡ unsigned_abs a * unsigned_abs b }
{
    a * b
}

// The rate 1 for a year of this number of days.
fn year_of(basis: u16) -> i128
    requires range { (1 ≤ basis) × (basis ≤ 365) }
    ensures value { result ≡ unit_rate basis }
    ensures above { pos 0 <ℤ result }
    ensures size { unsigned_abs result ≤ 365 * 10 ^ 9 }
{
    1_000_000_000 * i128::from(basis)
}

// Simple interest at a rate over a number of days.
fn interest(rate: i64, weight: i64) -> i128
    requires rate { IsRate rate }
    requires weight { unsigned_abs weight < all_days }
    ensures value { result ≡ rate *ℤ weight }
    ensures size { unsigned_abs result ≤ 10 ^ 10 * all_days }
{
    product(i128::from(rate), i128::from(weight))
}

// By how much a year grows.
fn grown_year(year: i128, interest: i128) -> i128
    requires year { unsigned_abs year ≤ 365 * 10 ^ 9 }
    requires interest { unsigned_abs interest ≤ 10 ^ 10 * all_days }
    ensures value { result ≡ year +ℤ interest }
    ensures size { unsigned_abs result < 2 * 10 ^ 15 }
{
    year + interest
}

// A factor times what a year grows by.
fn grown_factor(factor: i128, grown: i128) -> i128
    requires factor { unsigned_abs factor ≤ most_factor }
    requires grown { unsigned_abs grown < 2 * 10 ^ 15 }
    ensures value { result ≡ factor *ℤ grown }
    ensures size { unsigned_abs result ≤ 2 * 10 ^ 35 }
{
    product(factor, grown)
}

// The next factor by a rate over a number of days.
fn next_factor(basis: u16, factor: i128, rate: i64, weight: i64) -> i128
    requires range { (1 ≤ basis) × (basis ≤ 365) }
    requires factor { unsigned_abs factor ≤ most_factor }
    requires rate { IsRate rate }
    requires weight { unsigned_abs weight < all_days }
    ensures { Rounded Nearest (factor *ℤ (unit_rate basis +ℤ rate *ℤ weight)) (unit_rate basis) result }
{
    let year = year_of(basis);
    let grown = grown_year(year, interest(rate, weight));
    round(Direction::Nearest, grown_factor(factor, grown), year)
}

// The factor after an observation whose rate is there.
fn grown_by(basis: u16, factor: i128, o: Observation) -> i128
    requires range { (1 ≤ basis) × (basis ≤ 365) }
    requires factor { unsigned_abs factor ≤ most_factor }
    requires small { IsSmall o }
    requires known { IsSome o.rate }
    ensures { DerivedGrowsBy basis o factor result }
{
    let Some(rate) = o.rate else { unreachable!() };
    next_factor(basis, factor, rate, o.weight)
}

// The last factor; `None` exactly where one passes its limit.
fn compounded(basis: u16, observations: &[Observation]) -> Option<i128>
    requires range { (1 ≤ basis) × (basis ≤ 365) }
    requires small { All IsSmall observations.now }
    requires known { first_absent observations.now ≡ None }
    ensures some { IfSome result (λ f. DerivedGrows basis observations.now derived_one f) }
    ensures size { IfSome result (λ f. unsigned_abs f ≤ most_factor) }
    ensures kept { IfSome result (λ _. DerivedFactorPasses basis observations.now → ⊥) }
    ensures none { IfNone result (DerivedFactorPasses basis observations.now) }
{
    let mut factor = ONE_FACTOR;
    for o in observations {
        factor = grown_by(basis, factor, *o);
        if factor.unsigned_abs() > MOST_FACTOR {
            return None;
        }
    }
    Some(factor)
}

// What is earned on the factor 1.
fn earned(factor: i128) -> i128
    requires { unsigned_abs factor ≤ most_factor }
    ensures value { result ≡ factor -ℤ derived_one }
    ensures size { unsigned_abs result ≤ 2 * 10 ^ 20 }
{
    factor - ONE_FACTOR
}

// The days of a period in units of 10^-6.
fn days_by_millions(days: i64) -> i128
    requires days { (pos 0 <ℤ days) × (unsigned_abs days < all_days) }
    ensures value { result ≡ pos (10 ^ 6) *ℤ days }
    ensures above { pos 0 <ℤ result }
    ensures size { unsigned_abs result ≤ 10 ^ 6 * all_days }
{
    product(1_000_000, i128::from(days))
}

// The rate that gives a factor by simple interest over the days of a period.
fn rate_of(basis: u16, days: i64, factor: i128) -> i128
    requires range { (1 ≤ basis) × (basis ≤ 365) }
    requires days { (pos 0 <ℤ days) × (unsigned_abs days < all_days) }
    requires factor { unsigned_abs factor ≤ most_factor }
    ensures { Rounded Nearest ((factor -ℤ derived_one) *ℤ pos basis) (pos (10 ^ 6) *ℤ days) result }
{
    let growth = product(earned(factor), i128::from(basis));
    round(Direction::Nearest, growth, days_by_millions(days))
}

// A rate of at most 10 in size.
fn small_rate(rate: i128) -> Option<i64>
    ensures some { IfSome result (λ x. x ≡ rate) }
    ensures small { IfSome result IsRate }
    ensures none { IfNone result (most_rate < unsigned_abs rate) }
{
    let most = i128::from(MOST_RATE);
    if rate < -most || rate > most {
        return None;
    }
    Some(rate as i64)
}

// The rate of a period whose daily rates are all there; `None` exactly where a factor or the rate
// passes its limit.
fn known_rate(basis: u16, days: i64, observations: &[Observation]) -> Option<i64>
    requires range { (1 ≤ basis) × (basis ≤ 365) }
    requires days { (pos 0 <ℤ days) × (unsigned_abs days < all_days) }
    requires small { All IsSmall observations.now }
    requires known { first_absent observations.now ≡ None }
    ensures some { IfSome result (IsDerivedRate basis days observations.now) }
    ensures size { IfSome result IsRate }
    ensures kept { IfSome result (λ _. DerivedPassesLimit basis days observations.now → ⊥) }
    ensures none { IfNone result (DerivedPassesLimit basis days observations.now) }
{
    let factor = compounded(basis, observations)?;
    small_rate(rate_of(basis, days, factor))
}

/// The rate of a period, or its first day without a daily rate. `None` comes exactly where each
/// daily rate is there, and a factor or the rate passes its limit.
pub(crate) fn compounded_rate(basis: u16, days: i64, observations: &[Observation]) -> Option<Found>
    requires range { (1 ≤ basis) × (basis ≤ 365) }
    requires days { (pos 0 <ℤ days) × (unsigned_abs days < all_days) }
    requires small { All IsSmall observations.now }
    ensures some { IfSome result (IsFound basis days observations.now) }
    ensures size { IfSome result IsSmallFound }
    ensures kept { IfSome result (λ _. DerivedPassesLimit basis days observations.now → ⊥) }
    ensures none { IfNone result (DerivedPassesLimit basis days observations.now) }
{
    if let Some(day) = first_absent(observations) {
        return Some(Found::Missing(day));
    }
    match known_rate(basis, days, observations) {
        Some(rate) => Some(Found::Rate(rate)),
        None => None,
    }
}

ghost use Rattle.std.specs.Prelude.{IsSome};
