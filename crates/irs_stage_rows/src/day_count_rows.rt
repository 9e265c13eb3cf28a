//! What is reported of a day count: the days of a period and its fraction. They are counted by the
//! type of the code, by the code, and both at once by the code.
//!
//! A row gives the code, the start and the end of the period, and `last` where the period is the
//! last one of its stream.
ghost use Rattle.std.specs.Prelude.{◌<ℤ◌};

use crate::boundaries::day;
use crate::telling::Told;
use irs_base::Day;
use irs_daycount::{
    Act360, Act365Fixed, ActActIsda, DayCount, OneOne, Thirty360, ThirtyE360, ThirtyE360Isda,
    days_and_fraction, days_by, fraction_by,
};
use irs_elements::codes::day_count;
use irs_terms::{DayCountCode, Frac};

fn count_told(told: &mut Told, how: &str, days: i64, frac: Frac) {
    told.number(how, days);
    told.number(" ", frac.num);
    told.number("/", frac.den);
    told.end();
}

fn counted<C: DayCount>(told: &mut Told, count: &C, s: Day, e: Day, last: bool)
    requires { s <ℤ e }
{
    let days = count.days(s, e, last);
    count_told(told, "counted ", days, count.fraction(s, e, last));
}

// As the type of the code counts.
fn counted_by(told: &mut Told, code: DayCountCode, s: Day, e: Day, last: bool)
    requires { s <ℤ e }
{
    match code {
        DayCountCode::OneOne => counted(told, &OneOne, s, e, last),
        DayCountCode::ActActIsda => counted(told, &ActActIsda, s, e, last),
        DayCountCode::Act365Fixed => counted(told, &Act365Fixed, s, e, last),
        DayCountCode::Act360 => counted(told, &Act360, s, e, last),
        DayCountCode::Thirty360 => counted(told, &Thirty360, s, e, last),
        DayCountCode::ThirtyE360 => counted(told, &ThirtyE360, s, e, last),
        DayCountCode::ThirtyE360Isda => counted(told, &ThirtyE360Isda, s, e, last),
    }
}

// By the code, one after the other and at once.
fn told_by(told: &mut Told, code: DayCountCode, s: Day, e: Day, last: bool)
    requires { s <ℤ e }
{
    let days = days_by(code, s, e, last);
    count_told(told, "by code ", days, fraction_by(code, s, e, last));
    let (days, frac) = days_and_fraction(code, s, e, last);
    count_told(told, "at once ", days, frac);
}

/// The days and the fraction of a period.
pub fn day_count_lines(told: &mut Told, row: &str) -> Option<()> {
    let (code, period) = row.split_once(" | ")?;
    let (dates, last) = match period.strip_suffix(" last") {
        Some(dates) => (dates, true),
        None => (period, false),
    };
    let (start, end) = dates.split_once(' ')?;
    let (code, s, e) = (day_count(code)?, day(start)?, day(end)?);
    if s >= e {
        return None;
    }
    counted_by(told, code, s, e, last);
    told_by(told, code, s, e, last);
    Some(())
}
