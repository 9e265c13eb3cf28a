//! A calculation period of a stream, with its dates.
ghost use Rattle.std.specs.Prelude.{◌≡◌, ◌-◌, ◌<◌, ◌≤◌, length, option_map, slice_get, slice_index_or};
ghost use Rattle.irs_schedule.specs.Parts.{KeepsBounds};
ghost use Rattle.irs_schedule.specs.RowsOf.{dated_period, period_at, no_period};

use crate::periods::day_at;
use crate::streams::StreamPart;
use irs_base::Day;
use irs_terms::Frac;

/// A calculation period.
#[derive(Clone, Copy)]
pub struct CalculationPeriod {
    /// The unadjusted start: the boundary before the period.
    pub start: Day,
    /// The unadjusted end: the boundary after the period.
    pub end: Day,
    /// The start, adjusted.
    pub adjusted_start: Day,
    /// The end, adjusted.
    pub adjusted_end: Day,
    /// Its days by the day count, from the adjusted start to the adjusted end.
    pub days: i64,
    /// Its day count fraction, not reduced.
    pub frac: Frac,
    /// The notional in units of 10^-4, in force on the unadjusted start.
    pub notional: i128,
    /// The rate in units of 10^-9, where it is known.
    pub rate: Option<i64>,
}

/// A period, counted from 1.
#[inline(always)]
pub(crate) fn dated_period(part: &StreamPart, number: u32) -> CalculationPeriod
    requires low { 0 < number }
    requires high { number ≤ length part.now.periods }
    ensures { result ≡ dated_period part.now number (slice_index_or part.now.periods (number - 1) no_period) }
{
    let end = number as usize;
    // hands the prover the bounds of the part
    let _periods = part.periods();
    let entry = part.entry(number);
    CalculationPeriod {
        start: day_at(part.unadjusted(), end - 1),
        end: day_at(part.unadjusted(), end),
        adjusted_start: day_at(part.adjusted(), end - 1),
        adjusted_end: day_at(part.adjusted(), end),
        days: entry.days,
        frac: entry.frac,
        notional: entry.notional,
        rate: entry.rate,
    }
}

impl StreamPart {
    /// The calculation period at a place, counted from 0; `None` exactly past the last.
    #[tactic(auto, using(crate::proofs::ViewLemmas::period_is))]
    pub fn period(&self, place: usize) -> Option<CalculationPeriod>
        ensures value { result ≡ period_at self.now place }
        ensures bounds { KeepsBounds self.now }
    {
        if place < self.periods() {
            Some(dated_period(self, place as u32 + 1))
        } else {
            None
        }
    }

    /// The days of the calculation period at a place, counted from 0; `None` exactly past the last.
    #[tactic(auto, using(crate::proofs::ViewLemmas::days_are))]
    pub fn days(&self, place: usize) -> Option<i64>
        ensures value { result ≡ option_map (λ e. e.days) (slice_get self.now.periods place) }
        ensures bounds { KeepsBounds self.now }
    {
        if place < self.periods() {
            Some(self.entry_days(place as u32 + 1))
        } else {
            None
        }
    }
}
