//! The two means of the rates that were observed in a calculation period. The 2006 ISDA
//! Definitions, section 6.2, have them for two or more reset dates in a calculation period.
ghost use Rattle.std.specs.Prelude.{◌≡◌, ◌+◌, ◌*◌, ◌^◌, ◌<◌, ◌≤◌, All, IfSome, None, length, pos, unwrap_or, ◌<ℤ◌};
ghost use Rattle.std.specs.Prelude.{◌+ℤ◌, unsigned_abs};
ghost use Rattle.irs_base.specs.Days.{all_days};
ghost use Rattle.irs_terms.specs.Lawful.{IsRate};
ghost use Rattle.irs_overnight.specs.Private.Bounds.{IsSmall};
ghost use Rattle.irs_overnight.specs.Texts.{IsSmallFound};
ghost use Rattle.irs_overnight.specs.Observations.{first_absent};
ghost use Rattle.irs_base.specs.Limits.{Rounded};
ghost use Rattle.irs_base.specs.declared.rounding.Direction.TheVariants.{Nearest};
ghost use Rattle.irs_average.specs.Averages.{IsMeanFound, IsMean, counted_rate, divisor, sum_over};
ghost use Rattle.irs_average.specs.Private.Means.{ShareOut};

use crate::rates::{as_rate, over_days};
use irs_base::{Direction, round};
use irs_overnight::{Found, Observation, first_absent};

/// A mean of the rates that were observed in a calculation period.
#[derive(Clone, Copy, PartialEq, Eq)]
pub enum Mean {
    /// The sum of the rates by their number.
    Plain,
    /// Each rate as often as the days until the next observation, or the end of the period; the sum
    /// by the days of the period.
    Weighted,
}

// The rate of an observation; 0 where it has none.
fn rate_or_zero(rate: Option<i64>) -> i64
    requires { IfSome rate IsRate }
    ensures value { result ≡ unwrap_or rate (pos 0) }
    ensures small { IsRate result }
{
    match rate {
        Some(rate) => rate,
        None => 0,
    }
}

// What an observation adds.
fn counted(kind: Mean, o: Observation) -> i128
    requires { IsSmall o }
    ensures value { result ≡ counted_rate kind o }
    ensures size { unsigned_abs result ≤ 2 * 10 ^ 10 * all_days }
{
    let rate = rate_or_zero(o.rate);
    match kind {
        Mean::Plain => i128::from(rate),
        Mean::Weighted => over_days(rate, o.weight),
    }
}

// A sum of `count` numbers, and one more.
fn added(sum: i128, more: i128, count: usize) -> i128
    requires sum { unsigned_abs sum ≤ count * (2 * 10 ^ 10 * all_days) }
    requires more { unsigned_abs more ≤ 2 * 10 ^ 10 * all_days }
    ensures value { result ≡ sum +ℤ more }
    ensures size { unsigned_abs result ≤ (count + 1) * (2 * 10 ^ 10 * all_days) }
{
    sum + more
}

// What the observations add up to.
fn total(kind: Mean, observations: &[Observation]) -> i128
    requires small { All IsSmall observations.now }
    ensures value { result ≡ sum_over (counted_rate kind) observations.now }
    ensures size { unsigned_abs result ≤ length observations.now * (2 * 10 ^ 10 * all_days) }
{
    let mut sum = 0;
    for place in 0..observations.len() {
        sum = added(sum, counted(kind, observations[place]), place);
    }
    sum
}

// What the sum is divided by.
fn divisor(kind: Mean, days: i64, observations: &[Observation]) -> i128
    requires days { (pos 0 <ℤ days) × (unsigned_abs days < all_days) }
    requires some { 0 < length observations.now }
    ensures value { result ≡ divisor kind days observations.now }
    ensures above { pos 0 <ℤ result }
    ensures size { unsigned_abs result ≤ 2 ^ 64 }
{
    match kind {
        Mean::Plain => observations.len() as i128,
        Mean::Weighted => i128::from(days),
    }
}

// The rounded mean.
fn rounded_mean(kind: Mean, days: i64, observations: &[Observation]) -> i128
    requires days { (pos 0 <ℤ days) × (unsigned_abs days < all_days) }
    requires small { All IsSmall observations.now }
    requires some { 0 < length observations.now }
    ensures { Rounded Nearest (sum_over (counted_rate kind) observations.now) (divisor kind days observations.now) result }
{
    let sum = total(kind, observations);
    round(Direction::Nearest, sum, divisor(kind, days, observations))
}

// The same as a rate, where each rate is there.
fn mean_rate(kind: Mean, days: i64, observations: &[Observation]) -> i64
    requires days { (pos 0 <ℤ days) × (unsigned_abs days < all_days) }
    requires small { All IsSmall observations.now }
    requires shares { ShareOut days observations.now }
    requires known { first_absent observations.now ≡ None }
    ensures is { IsMean kind days observations.now result }
    ensures small { IsRate result }
{
    as_rate(rounded_mean(kind, days, observations))
}

/// The mean of the rates that were observed in a period, or the first day whose rate is missing.
pub(crate) fn mean_found(kind: Mean, days: i64, observations: &[Observation]) -> Found
    requires days { (pos 0 <ℤ days) × (unsigned_abs days < all_days) }
    requires small { All IsSmall observations.now }
    requires shares { ShareOut days observations.now }
    ensures is { IsMeanFound kind days observations.now result }
    ensures small { IsSmallFound result }
{
    match first_absent(observations) {
        Some(day) => Found::Missing(day),
        None => Found::Rate(mean_rate(kind, days, observations)),
    }
}
