//! Reset dates and fixing dates (2006 ISDA Definitions, section 6.2; FpML `resetDates`).
//!
//! The reset date of a calculation period is its adjusted start or end, adjusted again. The fixing
//! date is the reset date moved by the offset of `fixingDates` and then adjusted, or the reset date
//! itself. The order of these steps is our rule.
ghost use Rattle.std.specs.Prelude.{◌≡◌, ◌↔◌, ◌<◌, ◌^◌, length, IsTrue, IfOk, IfErr, nat_lt};
ghost use Rattle.irs_base.specs.Outcomes.{IsFirst};
ghost use Rattle.irs_resets.specs.Resets.{reset_days_by, base_day, IsPeriod, FixesOn, FixesBy, IsDates, FixingFails};
ghost use Rattle.irs_resets.specs.Resets.{FixFails, DatesFail};
ghost use Rattle.irs_resets.specs.Private.Resets.{fault_of};
ghost use Rattle.irs_terms.specs.Centers.{IsSaidFixing, IsSaid};

use irs_adjust::{NoDate, adjust_by, move_and_adjust};
use irs_base::Day;
use irs_calendar::GoodDays;
use irs_terms::{FixTerms, Relative, ResetTerms};

/// The dates of a reset.
#[derive(Clone, Copy)]
pub struct Dates {
    /// The day from which the rate holds.
    pub reset: Day,
    /// The day on which the rate is observed.
    pub fixing: Day,
}

/// Why a period lacks one of its dates.
#[derive(Clone, Copy, PartialEq, Eq)]
pub enum DateFault {
    /// The adjustment of the reset date has no result.
    NoReset,
    /// The Business offset or the adjustment of the fixing date has no result.
    NoFixing,
    /// The Calendar offset of the fixing date leaves the range of dates.
    OutOfRange,
}

// The adjusted start or end of a period, from which its reset date is found. Periods count from 1.
fn base(relative: Relative, adjusted: &[Day], number: usize) -> Day
    requires { IsPeriod adjusted.now number }
    ensures { result ≡ base_day relative adjusted.now number }
{
    match relative {
        Relative::Start => adjusted[number - 1],
        Relative::End => adjusted[number],
    }
}

// Why a fixing date has no result, by the reason of its two steps.
fn fault_of(reason: NoDate) -> DateFault
    ensures { result ≡ fault_of reason }
{
    match reason {
        NoDate::NoResult => DateFault::NoFixing,
        NoDate::OutOfRange => DateFault::OutOfRange,
    }
}

fn fix_by<G: GoodDays>(fix: &FixTerms, days: &G, reset: Day) -> Result<Day, DateFault>
    requires { IsSaid fix.now.offset }
    ensures ok { IfOk result (FixesBy fix.now (G.days days.now) reset) }
    ensures fault { IfErr result (λ e. FixFails e fix.now (G.days days.now) reset) }
{
    match move_and_adjust(fix.offset, fix.adj.code, days, reset) {
        Ok(fixing) => Ok(fixing),
        Err(reason) => Err(fault_of(reason)),
    }
}

fn fixing_date<G: GoodDays>(
    fixing: &Option<FixTerms>,
    days: &G,
    reset: Day,
) -> Result<Day, DateFault>
    requires { IsSaidFixing fixing.now }
    ensures ok { IfOk result (FixesOn fixing.now (G.days days.now) reset) }
    ensures fault { IfErr result (λ e. FixingFails e fixing.now (G.days days.now) reset) }
{
    match fixing {
        Some(fix) => fix_by(fix, days, reset),
        None => Ok(reset),
    }
}

/// The reset date and the fixing date of a period, or why it has none.
pub fn period_dates<G: GoodDays>(
    terms: &ResetTerms,
    adjusted: &[Day],
    number: usize,
    reset_days: &G,
    fixing_days: &G,
) -> Result<Dates, DateFault>
    requires period { IsPeriod adjusted.now number }
    requires offset { IsSaidFixing terms.now.fixing }
    ensures ok { let days = reset_days_by adjusted.now (G.days reset_days.now) (G.days fixing_days.now) in
        IfOk result (λ d. IsDates terms.now days number d.reset d.fixing) }
    ensures fault { let days = reset_days_by adjusted.now (G.days reset_days.now) (G.days fixing_days.now) in
        IfErr result (λ why. DatesFail why terms.now days number) }
{
    let day = base(terms.relative, adjusted, number);
    let Some(reset) = adjust_by(terms.adj.code, reset_days, day) else {
        return Err(DateFault::NoReset);
    };
    match fixing_date(&terms.fixing, fixing_days, reset) {
        Ok(fixing) => Ok(Dates { reset, fixing }),
        Err(fault) => Err(fault),
    }
}

fn is_same(found: DateFault, fault: DateFault) -> bool
    ensures { IsTrue result ↔ (found ≡ fault) }
{
    found == fault
}

fn has_fault<G: GoodDays>(
    fault: DateFault,
    terms: &ResetTerms,
    adjusted: &[Day],
    number: usize,
    reset_days: &G,
    fixing_days: &G,
) -> bool
    requires period { IsPeriod adjusted.now number }
    requires offset { IsSaidFixing terms.now.fixing }
    ensures { let days = reset_days_by adjusted.now (G.days reset_days.now) (G.days fixing_days.now) in
        IsTrue result ↔ DatesFail fault terms.now days number }
{
    match period_dates(terms, adjusted, number, reset_days, fixing_days) {
        Ok(_) => false,
        Err(found) => is_same(found, fault),
    }
}

/// The first period with this fault; `None` where no period has it.
pub fn first_with<G: GoodDays>(
    fault: DateFault,
    terms: &ResetTerms,
    adjusted: &[Day],
    reset_days: &G,
    fixing_days: &G,
) -> Option<u32>
    requires few { length adjusted.now < 2 ^ 32 }
    requires offset { IsSaidFixing terms.now.fixing }
    ensures { let days = reset_days_by adjusted.now (G.days reset_days.now) (G.days fixing_days.now) in
        IsFirst nat_lt (DatesFail fault terms.now days) result }
{
    for number in 1..adjusted.len() {
        if has_fault(fault, terms, adjusted, number, reset_days, fixing_days) {
            return Some(number as u32);
        }
    }
    None
}
