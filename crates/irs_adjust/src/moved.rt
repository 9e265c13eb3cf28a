//! A day that is moved by an offset and then adjusted. A payment date is one (FpML
//! `paymentDaysOffset`, `paymentDatesAdjustments`), and so is a fixing date (FpML `fixingDates`).
//! The order of the two steps is our rule.
ghost use Rattle.std.specs.Prelude.{◌≡◌, ◌⊎◌, ℤ, IfOk, IsErrOf};
ghost use Rattle.irs_adjust.specs.MovedDays.{MovesAndAdjusts, LacksResult, LeavesRange};
ghost use Rattle.irs_adjust.specs.Private.MovedDays.{no_move_of};
ghost use Rattle.irs_terms.specs.Centers.{IsSaid};

use crate::by_code::adjust_by;
use crate::offsets::move_by;
use irs_base::Day;
use irs_calendar::GoodDays;
use irs_terms::{ConvCode, DayKind, Offset};

/// Why a day that is moved and then adjusted gives no date.
#[derive(Clone, Copy, PartialEq, Eq)]
pub enum NoDate {
    /// The Business offset or the adjustment has no result.
    NoResult,
    /// The Calendar offset leaves the range of dates.
    OutOfRange,
}

/// The start moved by the offset and then adjusted by the convention, over the business days of
/// `days`, or why there is no such date. No memory is taken.
pub fn move_and_adjust<G: GoodDays>(
    offset: Offset,
    code: ConvCode,
    days: &G,
    start: Day,
) -> Result<Day, NoDate>
    requires { IsSaid offset }
    ensures date { IfOk result (MovesAndAdjusts offset code (G.days days.now) start) }
    ensures lacks { IsErrOf result NoDate.NoResult → LacksResult offset code (G.days days.now) start }
    ensures leaves { IsErrOf result NoDate.OutOfRange → LeavesRange offset (G.days days.now) start }
    // There is at most one such date, and none where there is a failure.
    ensures one { (r t : ℤ) → MovesAndAdjusts offset code (G.days days.now) start r
        → MovesAndAdjusts offset code (G.days days.now) start t → r ≡ t }
    ensures either { (r : ℤ) → MovesAndAdjusts offset code (G.days days.now) start r
        → LacksResult offset code (G.days days.now) start ⊎ LeavesRange offset (G.days days.now) start → ⊥ }
{
    let Some(moved) = move_by(offset, days, start) else {
        return Err(no_move(offset.kind));
    };
    match adjust_by(code, days, moved) {
        Some(adjusted) => Ok(adjusted),
        None => Err(NoDate::NoResult),
    }
}

// Why an offset of this kind has no result.
fn no_move(kind: DayKind) -> NoDate
    ensures { result ≡ no_move_of kind }
{
    match kind {
        DayKind::Business => NoDate::NoResult,
        DayKind::Calendar | DayKind::Unsaid => NoDate::OutOfRange,
    }
}
