//! Whether one field of cash flows departs. Amounts, notionals and rates are compared as numbers; those
//! of flows are in units of 10^-12.
ghost use Rattle.std.specs.Prelude.{◌≡◌, ◌^◌, ◌≤◌, pos, ◌*ℤ◌, ◌<ℤ◌, ◌≤ℤ◌, IsTrue, ◌↔◌};
ghost use Rattle.irs_base.specs.Limits.{most_numerator};
ghost use Rattle.std.specs.Int.{int_div_euclid, int_rem_euclid};
ghost use Rattle.irs_audit.specs.Verdicts.{StatesNumber, StatesAmount, StatesFraction, StatedWrongly, NotStatedRightly};
ghost use Rattle.irs_audit.specs.StatedFlows.{IsBoundedFraction};
ghost use Rattle.irs_audit.specs.Private.Comparisons.{most_scaled};

use irs_base::{Day, Dec, Direction, round};
use irs_flows::StatedFraction;
use irs_terms::{Currency, Frac};

// A stated fraction with at least this number of decimals is rounded; one with fewer is exact.
const LEAST_ROUNDED: u8 = 4;

fn quotient(p: i128, q: i128) -> i128
    requires { pos 0 <ℤ q }
    ensures { result ≡ int_div_euclid p q }
{
    p.div_euclid(q)
}

fn rest(p: i128, q: i128) -> i128
    requires { pos 0 <ℤ q }
    ensures { result ≡ int_rem_euclid p q }
{
    p.rem_euclid(q)
}

// Whether p is m times q. It divides, since the product may not fit.
fn is_multiple(p: i128, q: i128, m: i128) -> bool
    requires { pos 0 <ℤ q }
    ensures { IsTrue result ↔ ((m *ℤ q) ≡ p) }
{
    rest(p, q) == 0 && quotient(p, q) == m
}

/// A power of ten, up to the twelfth.
pub(crate) fn power_of_ten(n: u8) -> i128
    requires { n ≤ 12 }
    ensures { result ≡ pos (10 ^ n) }
{
    i128::from(irs_base::power_of_ten(n))
}

// Whether a stated number is `units` units of 10^-places.
fn is_number(units: i128, places: u8, stated: i128) -> bool
    requires { places ≤ 12 }
    ensures { IsTrue result ↔ StatesNumber units places stated }
{
    is_multiple(stated, power_of_ten(12 - places), units)
}

/// The numerator of a fraction in units of 10^-places.
pub(crate) fn scaled(num: i64, places: u8) -> i128
    requires places { places ≤ 12 }
    requires num { (pos 0 ≤ℤ num) × (num ≤ℤ pos most_numerator) }
    ensures value { result ≡ num *ℤ pos (10 ^ places) }
    ensures size { (pos 0 ≤ℤ result) × (result ≤ℤ pos most_scaled) }
{
    i128::from(num) * power_of_ten(places)
}

// Whether a stated fraction is that of a period.
fn is_fraction(frac: Frac, stated: StatedFraction) -> bool
    requires { IsBoundedFraction frac }
    ensures { IsTrue result ↔ StatesFraction frac stated }
{
    if stated.places > 12 {
        return false;
    }
    let den = i128::from(frac.den);
    let num = scaled(frac.num, stated.places);
    if stated.places < LEAST_ROUNDED {
        is_multiple(num, den, stated.units)
    } else {
        round(Direction::Nearest, num, den) == stated.units
    }
}

/// A day that may be left out is stated, and is another one.
pub fn day_is_wrong(day: Day, stated: Option<Day>) -> bool
    ensures { IsTrue result ↔ StatedWrongly (λ d. d ≡ day) stated }
{
    match stated {
        Some(d) => d != day,
        None => false,
    }
}

/// A day that must be stated is left out, or is another one.
pub(crate) fn day_is_not_right(day: Day, stated: Option<Day>) -> bool
    ensures { IsTrue result ↔ NotStatedRightly (λ d. d ≡ day) stated }
{
    match stated {
        Some(d) => d != day,
        None => true,
    }
}

/// A number of days is stated, and is another one.
pub fn count_is_wrong(count: i64, stated: Option<i64>) -> bool
    ensures { IsTrue result ↔ StatedWrongly (λ n. n ≡ count) stated }
{
    match stated {
        Some(n) => n != count,
        None => false,
    }
}

/// A currency is stated, and is another one.
pub fn currency_is_wrong(currency: Currency, stated: Option<Currency>) -> bool
    ensures { IsTrue result ↔ StatedWrongly (λ c. c ≡ currency) stated }
{
    match stated {
        Some(c) => c != currency,
        None => false,
    }
}

/// A number is stated, and isn't `units` units of 10^-places.
pub fn number_is_wrong(units: i128, places: u8, stated: Option<i128>) -> bool
    requires { places ≤ 12 }
    ensures { IsTrue result ↔ StatedWrongly (StatesNumber units places) stated }
{
    match stated {
        Some(n) => !is_number(units, places, n),
        None => false,
    }
}

/// An amount is left out, or is another one.
pub(crate) fn amount_is_not_right(amount: Dec, stated: Option<i128>) -> bool
    requires { amount.places ≤ 12 }
    ensures { IsTrue result ↔ NotStatedRightly (StatesAmount amount) stated }
{
    match stated {
        Some(n) => !is_number(amount.units, amount.places, n),
        None => true,
    }
}

/// A fraction is stated, and isn't that of the period.
pub fn fraction_is_wrong(frac: Frac, stated: Option<StatedFraction>) -> bool
    requires { IsBoundedFraction frac }
    ensures { IsTrue result ↔ StatedWrongly (StatesFraction frac) stated }
{
    match stated {
        Some(f) => !is_fraction(frac, f),
        None => false,
    }
}
