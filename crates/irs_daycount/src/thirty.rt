//! 30/360, 30E/360 and 30E/360.ISDA: the 2006 ISDA Definitions, section 4.16.
//!
//! Date 1 is the start and date 2 the end; Y, M and D are their years, months and days. Each counts
//! 360 * (Y2 - Y1) + 30 * (M2 - M1) + (D2 - D1) days. The three differ in which D1 and D2 they
//! first move to 30.
ghost use Rattle.std.specs.Prelude.{◌≡◌, ◌≤◌, pos, ◌+ℤ◌, ◌*ℤ◌, ◌-ℤ◌, ◌-◌, negsuc};
ghost use Rattle.jiff_core.specs.Calendar.{IsBetween};
ghost use Rattle.irs_base.specs.Days.{first_year, last_year};
ghost use Rattle.irs_daycount.specs.Fractions.{date_of, is_february_end, by_months, bond_d1, bond_d2, bond_days};
ghost use Rattle.irs_daycount.specs.Fractions.{euro_day, euro_days, isda_d1, isda_d2, isda_days};

use irs_base::{Civil, Day, civil_of};
use jiff_core::civil::days_in_month;

/// The days of 30/360, also known as Bond Basis.
pub fn bond_days(s: Day, e: Day) -> i64
    ensures { result ≡ bond_days (date_of s) (date_of e) }
{
    let (date1, date2) = (date(s), date(e));
    let d1 = bond_d1(date1);
    by_months(date1, date2, d1, bond_d2(date2, d1))
}

/// The days of 30E/360, also known as Eurobond Basis.
pub fn euro_days(s: Day, e: Day) -> i64
    ensures { result ≡ euro_days (date_of s) (date_of e) }
{
    let (date1, date2) = (date(s), date(e));
    by_months(date1, date2, euro_day(date1), euro_day(date2))
}

/// The days of 30E/360.ISDA; `last` says that the period is its stream's last.
pub fn isda_days(s: Day, e: Day, last: bool) -> i64
    ensures { result ≡ isda_days (date_of s) (date_of e) last }
{
    let (date1, date2) = (date(s), date(e));
    by_months(date1, date2, isda_d1(date1), isda_d2(date2, last))
}

// Year, month and day of the month.
fn date(d: Day) -> Civil
    ensures exact { result ≡ date_of d }
    ensures year { IsBetween (pos first_year) (pos last_year) result.year }
    ensures month { result.month ≤ 12 }
{
    civil_of(d)
}

fn bond_d1(date1: Civil) -> u8
    ensures { result ≡ bond_d1 date1 }
{
    if date1.day == 31 { 30 } else { date1.day }
}

fn bond_d2(date2: Civil, d1: u8) -> u8
    ensures { result ≡ bond_d2 date2 d1 }
{
    if date2.day == 31 && d1 == 30 {
        30
    } else {
        date2.day
    }
}

fn euro_day(date: Civil) -> u8
    ensures { result ≡ euro_day date }
{
    if date.day == 31 { 30 } else { date.day }
}

fn isda_d1(date1: Civil) -> u8
    requires { IsBetween (pos first_year) (pos last_year) date1.year }
    ensures { result ≡ isda_d1 date1 }
{
    if date1.day == 31 || is_february_end(date1) {
        30
    } else {
        date1.day
    }
}

fn isda_d2(date2: Civil, last: bool) -> u8
    requires { IsBetween (pos first_year) (pos last_year) date2.year }
    ensures { result ≡ isda_d2 date2 last }
{
    if date2.day == 31 || (is_february_end(date2) && !last) {
        30
    } else {
        date2.day
    }
}

fn is_february_end(date: Civil) -> bool
    requires { IsBetween (pos first_year) (pos last_year) date.year }
    ensures { result ≡ is_february_end date }
{
    date.month == 2 && date.day == days_in_month(date.year as i16, date.month)
}

// The formula of all three, with D1 and D2 as they were moved.
fn by_months(date1: Civil, date2: Civil, d1: u8, d2: u8) -> i64
    requires start { IsBetween (pos first_year) (pos last_year) date1.year }
    requires end { IsBetween (pos first_year) (pos last_year) date2.year }
    ensures { result ≡ by_months date1 date2 d1 d2 }
{
    in_days(
        apart(i64::from(date1.year), i64::from(date2.year)),
        apart(i64::from(date1.month), i64::from(date2.month)),
        apart(i64::from(d1), i64::from(d2)),
    )
}

fn apart(from: i64, to: i64) -> i64
    requires from { IsBetween (pos 0) (pos last_year) from }
    requires to { IsBetween (pos 0) (pos last_year) to }
    ensures value { result ≡ to -ℤ from }
    ensures range { IsBetween (negsuc (last_year - 1)) (pos last_year) result }
{
    to - from
}

fn in_days(years: i64, months: i64, days: i64) -> i64
    requires years { IsBetween (negsuc (last_year - 1)) (pos last_year) years }
    requires months { IsBetween (negsuc (last_year - 1)) (pos last_year) months }
    requires days { IsBetween (negsuc (last_year - 1)) (pos last_year) days }
    ensures { result ≡ pos 360 *ℤ years +ℤ pos 30 *ℤ months +ℤ days }
{
    360 * years + 30 * months + days
}
