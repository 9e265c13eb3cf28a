//! The calculation period that runs on a day.
ghost use Rattle.std.specs.Prelude.{ℕ, ◌<◌, ◌≤◌, ◌<ℤ◌, ◌≤ℤ◌, length, IfSome, IfNone};
ghost use Rattle.irs_base.specs.Lists.{day_at};
ghost use Rattle.irs_accrue.specs.Accruals.{IsOutside, Runs};

use irs_base::Day;
use irs_schedule::{CalculationPeriod, StreamPart};

/// A calculation period and its number, from 1.
#[derive(Clone, Copy)]
pub(crate) struct RunningPeriod {
    /// Its place among the stream's calculation periods, from 1.
    pub(crate) number: u32,
    /// Its dates, notional, rate and fraction.
    pub(crate) period: CalculationPeriod,
}

// The number of boundaries before the first that is after the day, or of all of them.
fn boundaries_to(boundaries: &[Day], d: Day) -> usize
    ensures within { result ≤ length boundaries.now }
    ensures passed { (k : ℕ) → k < result → day_at boundaries.now k ≤ℤ d }
    ensures ahead { result < length boundaries.now → d <ℤ day_at boundaries.now result }
{
    for (i, boundary) in boundaries.iter().enumerate() {
        if d < *boundary {
            return i;
        }
    }
    boundaries.len()
}

/// The period that runs on the day; `None` exactly where the day is before the first adjusted boundary
/// or not before the last.
pub(crate) fn running_period(part: &StreamPart, d: Day) -> Option<RunningPeriod>
    ensures some { IfSome result (λ r. Runs part.now d r.number r.period) }
    ensures none { IfNone result (IsOutside part.now d) }
{
    let number = boundaries_to(part.adjusted(), d);
    if number == 0 {
        return None;
    }
    let period = part.period(number - 1)?;
    Some(RunningPeriod {
        number: number as u32,
        period,
    })
}
