//! Daily rates compounded or added up, one observation after another.
//!
//! Compounded, each factor is the one before it times 1 and the daily rate times its weight over the days of a year.
//! It is rounded at 18 decimals, to the nearest, a half up. Added up, each rate is taken times its weight. These are
//! the steps of irs_observed, whose own loop hands out the rate and not the factor.
ghost use Rattle.std.specs.Prelude.{◌≡◌, ◌*◌, ◌^◌, ◌<◌, ◌≤◌, IfSome, pos, ◌<ℤ◌, ◌+ℤ◌, ◌*ℤ◌, unsigned_abs};
ghost use Rattle.irs_base.specs.Days.{all_days};
ghost use Rattle.irs_base.specs.declared.rounding.Direction.TheVariants.{Nearest};
ghost use Rattle.irs_terms.specs.Lawful.{IsRate};
ghost use Rattle.irs_observed.specs.ObservedRates.{unit_rate, days_of_year};
ghost use Rattle.irs_observed.specs.declared.method.DailyRateMethod.TheVariants.{Averaging as Averages};
ghost use Rattle.irs_observed.specs.declared.method.DailyRateMethod.TheVariants.{Compounding as Compounds};
ghost use Rattle.irs_daily.specs.Private.FactorSteps.{IsNext, IsSmall, IsStepped, StepsBy, first_factor, most_factor};

use crate::growth::Growth;
use irs_base::{Direction, round};
use irs_observed::{DailyRateMethod, YearDays};

// The factor 1, in units of 10^-18.
const ONE_FACTOR: i128 = 1_000_000_000_000_000_000;

// The greatest factor in size: 10^4.
const MOST_FACTOR: u128 = 10_000_000_000_000_000_000_000;

// A product that fits.
fn product(a: i128, b: i128) -> i128
    requires { unsigned_abs a * unsigned_abs b < 2 ^ 127 }
    ensures value { result ≡ a *ℤ b }
    ensures size { unsigned_abs result ≡ unsigned_abs a * unsigned_abs b }
{
    a * b
}

// The rate 1 for a year.
fn year_of(year: YearDays) -> i128
    ensures value { result ≡ unit_rate (days_of_year year) }
    ensures above { pos 0 <ℤ result }
    ensures size { unsigned_abs result ≤ 365 * 10 ^ 9 }
{
    match year {
        YearDays::Days360 => 360_000_000_000,
        YearDays::Days365 => 365_000_000_000,
    }
}

// A rate times a number of days.
fn interest(rate: i64, weight: u32) -> i128
    requires rate { IsRate rate }
    requires weight { weight < all_days }
    ensures value { result ≡ rate *ℤ pos weight }
    ensures size { unsigned_abs result ≤ 10 ^ 10 * weight }
{
    product(i128::from(rate), i128::from(weight))
}

// By how much a year grows.
fn grown_year(year: i128, interest: i128) -> i128
    requires year { unsigned_abs year ≤ 365 * 10 ^ 9 }
    requires interest { unsigned_abs interest ≤ 10 ^ 10 * all_days }
    ensures value { result ≡ year +ℤ interest }
    ensures size { unsigned_abs result < 2 * 10 ^ 15 }
{
    year + interest
}

// A factor times what a year grows by.
fn grown_factor(factor: i128, grown: i128) -> i128
    requires factor { unsigned_abs factor ≤ most_factor }
    requires grown { unsigned_abs grown < 2 * 10 ^ 15 }
    ensures value { result ≡ factor *ℤ grown }
    ensures size { unsigned_abs result ≤ 2 * 10 ^ 37 }
{
    product(factor, grown)
}

// The next factor by a rate over a number of days.
fn next_factor(year: YearDays, factor: i128, rate: i64, weight: u32) -> i128
    requires factor { unsigned_abs factor ≤ most_factor }
    requires rate { IsRate rate }
    requires weight { weight < all_days }
    ensures { StepsBy (Compounds year) rate weight factor result }
{
    let one = year_of(year);
    let grown = grown_year(one, interest(rate, weight));
    round(Direction::Nearest, grown_factor(factor, grown), one)
}

// The sum with one more rate.
fn next_sum(sum: i128, rate: i64, weight: u32) -> i128
    requires sum { unsigned_abs sum ≤ most_factor }
    requires rate { IsRate rate }
    requires weight { weight < all_days }
    ensures { StepsBy Averages rate weight sum result }
{
    sum + interest(rate, weight)
}

// The next factor or sum.
fn next_by(method: DailyRateMethod, factor: i128, rate: i64, weight: u32) -> i128
    requires factor { unsigned_abs factor ≤ most_factor }
    requires rate { IsRate rate }
    requires weight { weight < all_days }
    ensures { StepsBy method rate weight factor result }
{
    match method {
        DailyRateMethod::Compounding(year) => next_factor(year, factor, rate, weight),
        DailyRateMethod::Averaging => next_sum(factor, rate, weight),
    }
}

// What becomes of a factor with a rate.
fn stepped(method: DailyRateMethod, factor: i128, rate: i64, weight: u32) -> Growth
    requires factor { unsigned_abs factor ≤ most_factor }
    requires rate { IsRate rate }
    requires weight { weight < all_days }
    ensures stepped { IsStepped method rate weight factor result }
    ensures small { IsSmall result }
{
    let next = next_by(method, factor, rate, weight);
    if next.unsigned_abs() > MOST_FACTOR {
        Growth::Passed
    } else {
        Growth::Known(next)
    }
}

// What is known with one more rate.
fn with_rate(method: DailyRateMethod, growth: Growth, rate: i64, weight: u32) -> Growth
    requires before { IsSmall growth }
    requires rate { IsRate rate }
    requires weight { weight < all_days }
    ensures next { IsNext method (Some rate) weight growth result }
    ensures small { IsSmall result }
{
    match growth {
        Growth::Known(factor) => stepped(method, factor, rate, weight),
        Growth::Passed => Growth::Passed,
        Growth::Absent => Growth::Absent,
    }
}

/// What is known after one more observation, of this rate and weight.
pub(crate) fn grown(
    method: DailyRateMethod,
    growth: Growth,
    rate: Option<i64>,
    weight: u32,
) -> Growth
    requires before { IsSmall growth }
    requires rate { IfSome rate IsRate }
    requires weight { weight < all_days }
    ensures next { IsNext method rate weight growth result }
    ensures small { IsSmall result }
{
    match rate {
        Some(rate) => with_rate(method, growth, rate, weight),
        None => Growth::Absent,
    }
}

/// What is known before the first observation.
pub(crate) fn first_growth(method: DailyRateMethod) -> Growth
    ensures first { result ≡ Growth.Known (first_factor method) }
    ensures small { IsSmall result }
{
    match method {
        DailyRateMethod::Compounding(_) => Growth::Known(ONE_FACTOR),
        DailyRateMethod::Averaging => Growth::Known(0),
    }
}
