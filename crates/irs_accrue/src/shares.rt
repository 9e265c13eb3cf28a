//! The part of a calculation period that has run before a day: its days, and their fraction by the
//! day count. Day counts are those of the 2006 ISDA Definitions, section 4.16.
//!
//! Two rules are ours: a period that runs is never its stream's last here, and `1/1` takes the part
//! of the period's days.
ghost use Rattle.std.specs.Prelude.{◌≡◌, ◌<ℤ◌, ◌≤ℤ◌, pos, ◌-ℤ◌};
ghost use Rattle.irs_daycount.specs.Fractions.{denominator_of};
ghost use Rattle.irs_accrue.specs.Accruals.{CountedTo, HasRun, OfWhole};
ghost use Rattle.irs_accrue.specs.Private.Sizes.{IsSmall};

use irs_base::Day;
use irs_daycount::{days_by, fraction_by};
use irs_terms::{DayCountCode, Frac};

/// Days and their fraction, not reduced.
#[derive(Clone, Copy)]
pub(crate) struct Share {
    /// The days that have run, by the day count.
    pub(crate) days: i64,
    /// The same days as a fraction of a year by the day count.
    pub(crate) frac: Frac,
}

/// What has run before `d` of a period from `s`, included, to `e`, excluded.
pub(crate) fn share_of(code: DayCountCode, s: Day, d: Day, e: Day) -> Share
    requires started { s ≤ℤ d }
    requires not_ended { d <ℤ e }
    ensures share { HasRun code s d e result.days result.frac }
    ensures small { IsSmall result.frac }
{
    match code {
        DayCountCode::OneOne => part_of_whole(s, d, e),
        DayCountCode::ActActIsda => counted(DayCountCode::ActActIsda, s, d, e),
        DayCountCode::Act365Fixed => counted(DayCountCode::Act365Fixed, s, d, e),
        DayCountCode::Act360 => counted(DayCountCode::Act360, s, d, e),
        DayCountCode::Thirty360 => counted(DayCountCode::Thirty360, s, d, e),
        DayCountCode::ThirtyE360 => counted(DayCountCode::ThirtyE360, s, d, e),
        DayCountCode::ThirtyE360Isda => counted(DayCountCode::ThirtyE360Isda, s, d, e),
    }
}

// The days from one day, included, to another, excluded.
fn days_between(s: Day, e: Day) -> i64
    ensures { result ≡ e -ℤ s }
{
    i64::from(e.number()) - i64::from(s.number())
}

// The days that have run, of all days of the period.
fn part_of_whole(s: Day, d: Day, e: Day) -> Share
    requires started { s ≤ℤ d }
    requires not_ended { d <ℤ e }
    ensures share { OfWhole s d e result.days result.frac }
    ensures small { IsSmall result.frac }
{
    // Hands the prover the range of the days.
    let (_start, _end) = (s.number(), e.number());
    let days = days_between(s, d);
    Share {
        days,
        frac: Frac {
            num: days,
            den: days_between(s, e),
        },
    }
}

// What the code counts from the start to the day.
fn counted(code: DayCountCode, s: Day, d: Day, e: Day) -> Share
    requires started { s ≤ℤ d }
    requires not_ended { d <ℤ e }
    ensures share { CountedTo code s d result.days result.frac }
    ensures small { IsSmall result.frac }
{
    if s < d {
        counted_to(code, s, d)
    } else {
        nothing(code, s, e)
    }
}

fn counted_to(code: DayCountCode, s: Day, d: Day) -> Share
    requires { s <ℤ d }
    ensures share { CountedTo code s d result.days result.frac }
    ensures small { IsSmall result.frac }
{
    // Hands the prover the range of both days.
    let (_start, _day) = (s.number(), d.number());
    Share {
        days: days_by(code, s, d, false),
        frac: fraction_by(code, s, d, false),
    }
}

// No days, over the code's denominator, which is that of any period.
fn nothing(code: DayCountCode, s: Day, e: Day) -> Share
    requires { s <ℤ e }
    ensures days { result.days ≡ pos 0 }
    ensures num { result.frac.num ≡ pos 0 }
    ensures den { result.frac.den ≡ denominator_of code }
    ensures small { IsSmall result.frac }
{
    Share {
        days: 0,
        frac: Frac {
            num: 0,
            den: fraction_by(code, s, e, false).den,
        },
    }
}
