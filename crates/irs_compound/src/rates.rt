//! The rates of a calculation period.
//!
//! The base rate is the multiplier times the observed rate, and the rate is that plus the spread.
//! Multiplier and spread are those in force on the period's unadjusted start. Each is rounded once from its
//! exact value (2006 ISDA Definitions, article 8). Under FpML's ZeroInterestRateMethod a rate below 0
//! is then 0, and the base rate stays. That the base rate is rounded as the rate is, and that the
//! treatment applies to the rounded rate with the spread, are our rules.
ghost use Rattle.std.specs.Prelude.{◌≡◌, ◌+◌, ◌-◌, ◌*◌, ◌≤◌, ◌^◌, pos, ◌+ℤ◌, ◌*ℤ◌, unsigned_abs};
ghost use Rattle.irs_base.specs.Limits.{rounded, most_rate};
ghost use Rattle.irs_terms.specs.Lawful.{IsRate, IsLawfulValues, IsLawfulFloat};
ghost use Rattle.irs_compound.specs.declared.periods.Rates.{Rates};
ghost use Rattle.irs_compound.specs.PeriodRates.{value_in_force, RatesOf, rate_by_rounding, treated, rates_of};
ghost use Rattle.irs_compound.specs.PeriodRates.{most_rounded_rate};
ghost use Rattle.irs_compound.specs.Private.RateLaws.{all_in_at, most_exact_base, most_exact_rate};

use crate::periods::Rates;
use crate::products::{product, ten_to};
use crate::step_values::in_force;
use irs_base::{Day, round};
use irs_terms::{FloatTerms, Rounding, StepValues, Treatment};

/// The rates of a period with the unadjusted start `start` and the observed rate `observed`, which is
/// at most 10 in size. Rates are in units of 10^-9.
pub fn period_rates(f: &FloatTerms, start: Day, observed: i64) -> Rates
    requires terms { IsLawfulFloat f.now }
    requires observed_fits { unsigned_abs observed ≤ most_rate }
    ensures rates { RatesOf f.now start observed result }
    ensures value { result ≡ rates_of f.now start observed }
    ensures base_fits { unsigned_abs result.base ≤ most_rounded_rate }
    ensures all_in_fits { unsigned_abs result.all_in ≤ most_rounded_rate }
{
    rates_on(f, start, observed)
}

/// Both rates are this one, which is at most 10 in size.
pub(crate) fn fixed_from(rate: i128) -> Rates
    requires { IsRate rate }
    ensures base { result.base ≡ rate }
    ensures all_in { result.all_in ≡ rate }
{
    let rate = rate as i64;
    Rates {
        base: rate,
        all_in: rate,
    }
}

fn rates_on(f: &FloatTerms, start: Day, observed: i64) -> Rates
    requires terms { IsLawfulFloat f.now }
    requires observed_fits { unsigned_abs observed ≤ most_rate }
    ensures value { result ≡ rates_of f.now start observed }
    ensures base_fits { unsigned_abs result.base ≤ most_rounded_rate }
    ensures all_in_fits { unsigned_abs result.all_in ≤ most_rounded_rate }
{
    let multiplier = rate_in_force(&f.multiplier, start);
    let spread = rate_in_force(&f.spread, start);
    rates_from(f, multiplier, spread, observed)
}

/// The rates of this multiplier, this spread and this observed rate, each at most 10 in size.
pub(crate) fn rates_from(f: &FloatTerms, multiplier: i128, spread: i128, observed: i64) -> Rates
    requires terms { IsLawfulFloat f.now }
    requires multiplier_fits { IsRate multiplier }
    requires spread_fits { IsRate spread }
    requires observed_fits { unsigned_abs observed ≤ most_rate }
    ensures base { result.base ≡ rate_by_rounding f.now.rounding (multiplier *ℤ observed) }
    ensures all_in { result.all_in ≡ all_in_at f.now (multiplier *ℤ observed +ℤ spread *ℤ pos (10 ^ 9)) }
    ensures base_fits { unsigned_abs result.base ≤ most_rounded_rate }
    ensures all_in_fits { unsigned_abs result.all_in ≤ most_rounded_rate }
{
    let exact = multiplied(multiplier, observed);
    Rates {
        base: rounded_rate(f.rounding, exact),
        all_in: treated(
            f.treatment,
            rounded_rate(f.rounding, with_spread(exact, spread)),
        ),
    }
}

/// A rounded rate by the treatment of one below 0.
pub(crate) fn treated(treatment: Treatment, rate: i64) -> i64
    ensures value { result ≡ treated treatment rate }
    ensures size { unsigned_abs result ≤ unsigned_abs rate }
{
    match treatment {
        Treatment::AsIs => rate,
        Treatment::ZeroFloor => if rate < 0 { 0 } else { rate },
    }
}

// A rate, spread or multiplier in force; it is at most 10 in size.
fn rate_in_force(values: &StepValues, d: Day) -> i128
    requires { IsLawfulValues IsRate values.now }
    ensures value { result ≡ value_in_force values.now d }
    ensures size { IsRate result }
{
    in_force(values, d)
}

// The exact base rate, in units of 10^-18.
fn multiplied(multiplier: i128, observed: i64) -> i128
    requires multiplier_fits { unsigned_abs multiplier ≤ most_rate }
    requires observed_fits { unsigned_abs observed ≤ most_rate }
    ensures value { result ≡ multiplier *ℤ observed }
    ensures size { unsigned_abs result ≤ most_exact_base }
{
    product(multiplier, i128::from(observed))
}

// The exact rate, in units of 10^-18.
fn with_spread(exact: i128, spread: i128) -> i128
    requires exact_fits { unsigned_abs exact ≤ most_exact_base }
    requires spread_fits { unsigned_abs spread ≤ most_rate }
    ensures value { result ≡ exact +ℤ spread *ℤ pos (10 ^ 9) }
    ensures size { unsigned_abs result ≤ most_exact_rate }
{
    exact + spread * 1_000_000_000
}

// An exact rate in units of 10^-18, rounded, in units of 10^-9.
fn rounded_rate(rounding: Rounding, exact: i128) -> i64
    requires exact_fits { unsigned_abs exact ≤ most_exact_rate }
    requires places_fit { rounding.places ≤ 9 }
    ensures value { result ≡ rate_by_rounding rounding exact }
    ensures size { unsigned_abs result ≤ most_rounded_rate }
{
    scaled(rounded_whole(rounding, exact), rounding.places) as i64
}

// The rounded rate in units of its last place.
fn rounded_whole(rounding: Rounding, exact: i128) -> i128
    requires exact_fits { unsigned_abs exact ≤ most_exact_rate }
    requires places_fit { rounding.places ≤ 9 }
    ensures value { result ≡ rounded rounding.dir exact (pos (10 ^ (18 - rounding.places))) }
    ensures size { unsigned_abs result ≤ 11 * 10 ^ (rounding.places + 1) }
{
    round(rounding.dir, exact, ten_to(18 - rounding.places))
}

// A rate in units of a last place, in units of 10^-9.
fn scaled(whole: i128, places: u8) -> i128
    requires places_fit { places ≤ 9 }
    requires whole_fits { unsigned_abs whole ≤ 11 * 10 ^ (places + 1) }
    ensures value { result ≡ whole *ℤ pos (10 ^ (9 - places)) }
    ensures size { unsigned_abs result ≤ most_rounded_rate }
{
    product(whole, ten_to(9 - places))
}
