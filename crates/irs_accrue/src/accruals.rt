//! What has accrued on a day: the simple interest of the calculation period that runs on it.
//!
//! Nothing but this period is looked at, and no earlier one compounds: our rule.
ghost use Rattle.std.specs.Prelude.{◌≡◌, ◌≤◌, length};
ghost use Rattle.irs_accrue.specs.Accruals.{Accrues, AccrualHasPlaces, IsAccrual, Runs};
ghost use Rattle.irs_accrue.specs.declared.accruals.Accrual.{Accrual};

use crate::interest::amount_of;
use crate::running::{RunningPeriod, running_period};
use crate::shares::share_of;
use irs_base::{Day, Dec};
use irs_schedule::{Schedule, StreamPart};
use irs_terms::Frac;

/// What has accrued on a day in a stream.
#[derive(Clone, Copy)]
pub enum Accrual {
    /// The day is before the first adjusted boundary, or not before the last.
    Outside,
    /// The number, from 1, of the calculation period that runs on the day, its days before the day,
    /// and their fraction, not reduced. The amount is in the decimals of the stream's currency. It
    /// is absent where the period's rate isn't known or passes 10 in size.
    Inside {
        period: u32,
        days: i64,
        frac: Frac,
        amount: Option<Dec>,
    },
}

// What has accrued of the period that runs on the day.
fn inside(part: &StreamPart, running: &RunningPeriod, d: Day) -> Accrual
    requires { Runs part.now d running.now.number running.now.period }
    ensures accrual { IsAccrual part.now d result }
    ensures places { AccrualHasPlaces result }
{
    // Hands the prover what every part keeps.
    let _bounds = part.exchanges();
    let period = &running.period;
    let share = share_of(
        part.day_count(),
        period.adjusted_start,
        d,
        period.adjusted_end,
    );
    Accrual::Inside {
        period: running.number,
        days: share.days,
        frac: share.frac,
        amount: amount_of(part.currency(), period.notional, period.rate, share.frac),
    }
}

/// What has accrued on a day in a stream.
pub(crate) fn accrued_in(part: &StreamPart, d: Day) -> Accrual
    ensures accrual { IsAccrual part.now d result }
    ensures places { AccrualHasPlaces result }
{
    match running_period(part, d) {
        Some(running) => inside(part, &running, d),
        None => Accrual::Outside,
    }
}

/// What has accrued on a day in the stream with this number, from 1. It is the simple interest of
/// the calculation period that runs on the day, from the period's adjusted start to the day. This
/// rule is ours. Days and fraction are by the stream's day count (2006 ISDA Definitions, section
/// 4.16). Where a period is one year (`1/1`), the fraction is the part of its days that has run. It
/// takes no memory.
pub fn accrued(s: &Schedule, stream: u8, d: Day) -> Accrual
    requires from_one { 1 ≤ stream }
    requires to_last { stream ≤ length s.now }
    ensures accrual { Accrues s.now stream d result }
    // Any two accruals of the stream on the day are equal.
    ensures one { (a b : Accrual) → Accrues s.now stream d a → Accrues s.now stream d b → a ≡ b }
    ensures places { AccrualHasPlaces result }
{
    accrued_in(&s.streams()[stream as usize - 1], d)
}
