//! What a period pays by an observed rate: its multiplier times the rate, and its spread, rounded once.
ghost use Rattle.std.specs.Prelude.{◌≡◌, ◌+◌, ◌*◌, ◌-◌, ◌^◌, ◌≤◌, pos, ◌<ℤ◌, ◌+ℤ◌, ◌*ℤ◌, unsigned_abs};
ghost use Rattle.irs_base.specs.Days.{all_days};
ghost use Rattle.irs_base.specs.Limits.{Rounded};
ghost use Rattle.irs_base.specs.declared.rounding.Direction.TheVariants.{Nearest};
ghost use Rattle.irs_terms.specs.Lawful.{IsRate};
ghost use Rattle.irs_observed.specs.ObservedRates.{IsBounded, IsPeriodRate, IsPrintedRate, most_observed};
ghost use Rattle.irs_observed.specs.ObservedRates.{most_period_rate, period_rate_at};
ghost use Rattle.irs_observed.specs.OvernightRates.{printed_rate as printed_value};

use crate::products::{product, ten_to};
use crate::rates::ObservedRate;
use irs_base::{Direction, round};
use irs_terms::Rounding;

/// The observed rate in units of 10^-9, to the nearest, a half up: what is printed of it.
pub fn printed_rate(x: ObservedRate) -> i64
    ensures printed { IsPrintedRate x result }
    ensures value { result ≡ printed_value x }
    ensures size { unsigned_abs result ≤ most_observed * 10 ^ 9 }
{
    let (numerator, denominator) = x.parts();
    printed(numerator, denominator) as i64
}

// A rate in units of 10^-9 times a whole number.
fn times(rate: i64, whole: i128) -> i128
    requires rate { IsRate rate }
    requires whole { unsigned_abs whole ≤ 4 * 10 ^ 24 }
    ensures value { result ≡ rate *ℤ whole }
    ensures size { unsigned_abs result ≤ 10 ^ 10 * unsigned_abs whole }
{
    product(i128::from(rate), whole)
}

// A fraction in units of 10^-9, to the nearest.
fn printed(numerator: i128, denominator: i128) -> i128
    requires above { pos 0 <ℤ denominator }
    requires denominator { unsigned_abs denominator ≤ 10 ^ 18 * all_days }
    requires numerator { unsigned_abs numerator ≤ 4 * 10 ^ 24 }
    requires size { unsigned_abs numerator ≤ most_observed * unsigned_abs denominator }
    ensures rounded { Rounded Nearest (pos (10 ^ 9) *ℤ numerator) denominator result }
    ensures size { unsigned_abs result ≤ most_observed * 10 ^ 9 }
{
    nearest_within(product(1_000_000_000, numerator), denominator)
}

// The nearest whole number to a fraction of 10^-9.
fn nearest_within(exact: i128, denominator: i128) -> i128
    requires above { pos 0 <ℤ denominator }
    requires denominator { unsigned_abs denominator ≤ 10 ^ 18 * all_days }
    requires fits { unsigned_abs exact ≤ 4 * 10 ^ 33 }
    requires size { unsigned_abs exact ≤ most_observed * 10 ^ 9 * unsigned_abs denominator }
    ensures rounded { Rounded Nearest exact denominator result }
    ensures size { unsigned_abs result ≤ most_observed * 10 ^ 9 }
{
    round(Direction::Nearest, exact, denominator)
}

// The sum of what a multiplier gives and what a spread adds.
fn with_spread(multiplied: i128, spread: i128) -> i128
    requires multiplied { unsigned_abs multiplied ≤ 4 * 10 ^ 34 }
    requires spread { unsigned_abs spread ≤ 10 ^ 34 }
    ensures value { result ≡ multiplied +ℤ spread }
    ensures size { unsigned_abs result ≤ unsigned_abs multiplied + unsigned_abs spread }
{
    multiplied + spread
}

// The multiplier times the numerator, and the spread times the denominator.
fn with_terms(numerator: i128, denominator: i128, multiplier: i64, spread: i64) -> i128
    requires denominator { unsigned_abs denominator ≤ 10 ^ 18 * all_days }
    requires numerator { unsigned_abs numerator ≤ 4 * 10 ^ 24 }
    requires size { unsigned_abs numerator ≤ most_observed * unsigned_abs denominator }
    requires multiplier { IsRate multiplier }
    requires spread { IsRate spread }
    ensures value { result ≡ multiplier *ℤ numerator +ℤ spread *ℤ denominator }
    ensures fits { unsigned_abs result ≤ 5 * 10 ^ 34 }
    ensures size { unsigned_abs result ≤ most_period_rate * unsigned_abs denominator }
{
    with_spread(times(multiplier, numerator), times(spread, denominator))
}

// The denominator of a rate in units of its last decimal.
fn last_units(places: u8, denominator: i128) -> i128
    requires places { places ≤ 9 }
    requires above { pos 0 <ℤ denominator }
    requires denominator { unsigned_abs denominator ≤ 10 ^ 18 * all_days }
    ensures value { result ≡ pos (10 ^ (9 - places)) *ℤ denominator }
    ensures fits { unsigned_abs result ≤ 10 ^ 27 * all_days }
{
    product(ten_to(9 - places), denominator)
}

// A fraction of 10^-9 in units of a last decimal, by its denominator in these units.
fn rounded_whole(rounding: Rounding, exact: i128, denominator: i128, units: i128) -> i128
    requires places { rounding.places ≤ 9 }
    requires above { pos 0 <ℤ denominator }
    requires units { units ≡ pos (10 ^ (9 - rounding.places)) *ℤ denominator }
    requires units_fit { unsigned_abs units ≤ 10 ^ 27 * all_days }
    requires fits { unsigned_abs exact ≤ 5 * 10 ^ 34 }
    requires size { unsigned_abs exact ≤ most_period_rate * unsigned_abs denominator }
    ensures rounded { Rounded rounding.dir exact units result }
    ensures size { unsigned_abs result ≤ (most_observed + 1) * 10 ^ (rounding.places + 1) }
{
    round(rounding.dir, exact, units)
}

// A whole number of last decimals in units of 10^-9.
fn scaled(whole: i128, places: u8) -> i128
    requires places { places ≤ 9 }
    requires whole { unsigned_abs whole ≤ (most_observed + 1) * 10 ^ (places + 1) }
    ensures value { result ≡ whole *ℤ pos (10 ^ (9 - places)) }
    ensures size { unsigned_abs result ≤ most_period_rate }
{
    product(whole, ten_to(9 - places))
}

// The rate of a period by the parts of the observed rate.
fn rate_by(
    numerator: i128,
    denominator: i128,
    multiplier: i64,
    spread: i64,
    rounding: Rounding,
) -> i128
    requires bounds { IsBounded (record { numerator = numerator; denominator = denominator }) }
    requires multiplier { IsRate multiplier }
    requires spread { IsRate spread }
    requires places { rounding.places ≤ 9 }
    ensures rate { IsPeriodRate (record { numerator = numerator; denominator = denominator }) multiplier spread rounding
        result }
    ensures size { unsigned_abs result ≤ most_period_rate }
{
    let exact = with_terms(numerator, denominator, multiplier, spread);
    let units = last_units(rounding.places, denominator);
    let whole = rounded_whole(rounding, exact, denominator, units);
    scaled(whole, rounding.places)
}

/// The rate of a period, in units of 10^-9: the multiplier times the observed rate, plus the spread. It
/// is rounded once, to at most 9 decimals (FpML `finalRateRounding`; 2006 ISDA Definitions, section
/// 8.1). Multiplier and spread are at most 10 in size each. With a spread of 0 it is the base rate. It
/// is at most 3.7 * 10^16 in size.
pub fn period_rate(x: ObservedRate, multiplier: i64, spread: i64, rounding: Rounding) -> i64
    requires multiplier { IsRate multiplier }
    requires spread { IsRate spread }
    requires places { rounding.places ≤ 9 }
    ensures rate { IsPeriodRate x multiplier spread rounding result }
    ensures value { result ≡ period_rate_at x multiplier spread rounding }
    ensures size { unsigned_abs result ≤ most_period_rate }
{
    let (numerator, denominator) = x.parts();
    rate_by(numerator, denominator, multiplier, spread, rounding) as i64
}
