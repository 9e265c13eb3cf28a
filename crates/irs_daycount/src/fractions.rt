//! The days and the fraction of a period by the code of its day count: the 2006 ISDA Definitions,
//! section 4.16.
//!
//! A period runs from its start, included, to its end, excluded. A fraction has the denominator
//! of its code and isn't reduced: 133590 for ACT/ACT.ISDA, 365 for ACT/365.FIXED, 1 for 1/1 and
//! 360 otherwise.
ghost use Rattle.std.specs.Prelude.{◌≡◌, ℤ, Bool, ◌<ℤ◌};
ghost use Rattle.irs_terms.specs.declared.results.Frac.{Frac};
ghost use Rattle.irs_daycount.specs.Fractions.{Days, Fraction, days_of, fraction_of, denominator_of, IsNumerator};

use crate::actual::{act_act, actual_days};
use crate::thirty::{bond_days, euro_days, isda_days};
use irs_base::Day;
use irs_terms::{DayCountCode, Frac};

/// The days of the period from `s` to `e`, which is after `s`. They are the numerator for the three
/// 30/360 kinds, and otherwise the days from `s`, included, to `e`, excluded. That 1/1 counts
/// actual days is our rule. `last` says that the period is its stream's last.
pub fn days_by(code: DayCountCode, s: Day, e: Day, last: bool) -> i64
    requires { s <ℤ e }
    ensures days { Days code s e last result }
    ensures value { result ≡ days_of code s e last }
    // Any two numbers of days of the period are equal.
    ensures one { (m n : ℤ) → Days code s e last m → Days code s e last n → m ≡ n }
{
    days_of(code, s, e, last)
}

/// The fraction of the period from `s` to `e`, which is after `s`, over the denominator of its
/// code and not reduced. `last` says that the period is its stream's last: then 30E/360.ISDA
/// leaves an end on the last day of February.
pub fn fraction_by(code: DayCountCode, s: Day, e: Day, last: bool) -> Frac
    requires { s <ℤ e }
    ensures fraction { Fraction code s e last result }
    ensures value { result ≡ fraction_of code s e last }
    // The numerator is from 0 to 366 times the days from start to end.
    ensures range { IsNumerator s e result.num }
    ensures denominator { result.den ≡ denominator_of code }
    // Any two fractions of the period are equal.
    ensures one { (f g : Frac) → Fraction code s e last f → Fraction code s e last g → f ≡ g }
{
    let days = days_of(code, s, e, last);
    fraction_from(code, s, e, last, days)
}

/// What `days_by` and `fraction_by` give of the period from `s` to `e`, which is after `s`, worked
/// out at once. `last` says that the period is its stream's last.
pub fn days_and_fraction(code: DayCountCode, s: Day, e: Day, last: bool) -> (i64, Frac)
    requires { s <ℤ e }
    ensures days { Days code s e last result.0 }
    ensures days_value { result.0 ≡ days_of code s e last }
    // Any two numbers of days of the period are equal.
    ensures one_days { (m n : ℤ) → Days code s e last m → Days code s e last n → m ≡ n }
    ensures fraction { Fraction code s e last result.1 }
    ensures fraction_value { result.1 ≡ fraction_of code s e last }
    // The numerator is from 0 to 366 times the days from start to end.
    ensures range { IsNumerator s e result.1.num }
    ensures denominator { result.1.den ≡ denominator_of code }
    // Any two fractions of the period are equal.
    ensures one_fraction { (f g : Frac) → Fraction code s e last f → Fraction code s e last g → f ≡ g }
{
    let days = days_by(code, s, e, last);
    (days, fraction_from(code, s, e, last, days))
}

fn days_of(code: DayCountCode, s: Day, e: Day, last: bool) -> i64
    ensures { Days code s e last result }
{
    match code {
        DayCountCode::OneOne => actual_days(s, e),
        DayCountCode::ActActIsda => actual_days(s, e),
        DayCountCode::Act365Fixed => actual_days(s, e),
        DayCountCode::Act360 => actual_days(s, e),
        DayCountCode::Thirty360 => bond_days(s, e),
        DayCountCode::ThirtyE360 => euro_days(s, e),
        DayCountCode::ThirtyE360Isda => isda_days(s, e, last),
    }
}

// The fraction of a period that has this number of days.
fn fraction_from(code: DayCountCode, s: Day, e: Day, last: bool, days: i64) -> Frac
    requires order { s <ℤ e }
    requires days { Days code s e last days }
    ensures fraction { Fraction code s e last result }
    ensures value { result ≡ fraction_of code s e last }
    ensures range { IsNumerator s e result.num }
    ensures denominator { result.den ≡ denominator_of code }
    ensures one { (f g : Frac) → Fraction code s e last f → Fraction code s e last g → f ≡ g }
{
    // Hands the prover the range of both days, also where the code doesn't look at them.
    let (_start, _end) = (s.number(), e.number());
    fraction_of(code, s, e, days)
}

fn fraction_of(code: DayCountCode, s: Day, e: Day, days: i64) -> Frac
    requires { s <ℤ e }
    ensures { (last : Bool) → Days code s e last days → Fraction code s e last result }
{
    match code {
        DayCountCode::OneOne => over(1, 1),
        DayCountCode::ActActIsda => act_act(s, e),
        DayCountCode::Act365Fixed => over(365, days),
        DayCountCode::Act360 => over(360, days),
        DayCountCode::Thirty360 => over(360, days),
        DayCountCode::ThirtyE360 => over(360, days),
        DayCountCode::ThirtyE360Isda => over(360, days),
    }
}

// The fraction of a denominator and a numerator.
fn over(den: i64, num: i64) -> Frac
    ensures numerator { result.num ≡ num }
    ensures denominator { result.den ≡ den }
{
    Frac { num, den }
}
