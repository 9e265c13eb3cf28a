//! The resets of a stream with calculation parameters (FpML `resetDates` and `calculationParameters`).
//! Its reset dates and fixing dates are those of every floating stream. Its observed rates are those of
//! daily rates.
ghost use Rattle.std.specs.Prelude.{◌≡◌, ◌+◌, ◌*◌, ◌^◌, ◌<◌, ◌≤◌, length, All, IfOk, IfSome, unsigned_abs};
ghost use Rattle.irs_base.specs.Lists.{IsRising};
ghost use Rattle.irs_base.specs.Outcomes.{Determined, Meets};
ghost use Rattle.irs_terms.specs.declared.amounts.Leg.TheVariants.{Floating as OfFloating};
ghost use Rattle.irs_terms.specs.Centers.{IsSaidReset};
ghost use Rattle.irs_terms.specs.Lawful.{IsLawfulStream, FitsLeg};
ghost use Rattle.irs_resets.specs.Resets.{source_of};
ghost use Rattle.irs_observed.specs.ObservedRates.{most_observed};
ghost use Rattle.irs_observed.specs.OvernightRates.{overnight_resets_of, HasBounds, printed_at, HasPrintedRate};
ghost use Rattle.irs_observed.specs.OvernightRates.{daily_source};
ghost use Rattle.irs_observed.specs.Private.OvernightRates.{ArePrinted, IsPrintedRow, with_dates};

use crate::order::earlier_fault;
use crate::overnight_rate::{OvernightRate, OvernightRates};
use crate::overnight_rates::overnight_rates;
use irs_base::{DayList, Memory, Stopped};
use irs_calendar::GoodDays;
use irs_resets::{Fixings, ResErr, resets};
use irs_terms::{CalculationParameters, Fault, FloatTerms, Reset, Resets, Span, Stream};
use std::alloc::Global;

/// The resets of a stream with calculation parameters, and its observed rates, one for each
/// calculation period.
#[derive(Drop)]
pub struct OvernightResets {
    /// Reset date, fixing date and what is printed of the observed rate.
    pub resets: Resets,
    /// The observed rates, not rounded.
    pub rates: OvernightRates,
}

// What is printed of the rate at a place.
#[tactic(auto, using(crate::proofs::OvernightLemmas::bounded_at, crate::proofs::OvernightLemmas::printed_some, crate::proofs::OvernightLemmas::printed_none))]
fn printed_at(rates: &[OvernightRate], place: usize) -> Option<i64>
    requires { All HasBounds rates.now }
    ensures value { result ≡ printed_at rates.now (place + 1) }
    ensures size { IfSome result (λ r. unsigned_abs r ≤ most_observed * 10 ^ 9) }
{
    match rates.get(place) {
        Some(rate) => rate.printed(),
        None => None,
    }
}

// The rows with what is printed of these rates.
fn printed_resets(alloc: Global, rows: &[Reset], rates: &[OvernightRate]) -> Result<Resets, Memory>
    requires { All HasBounds rates.now }
    ensures printed { IfOk result (ArePrinted rows.now rates.now) }
    ensures size { IfOk result (All HasPrintedRate) }
{
    let mut printed = Resets::with_room(alloc, rows.len())?;
    for place in 0..rows.len() {
        printed.push(printed_row(rows, rates, place))?;
    }
    Ok(printed)
}

// The row at a place with what is printed of its rate.
fn printed_row(rows: &[Reset], rates: &[OvernightRate], place: usize) -> Reset
    requires bounds { All HasBounds rates.now }
    requires place { place < length rows.now }
    ensures row { IsPrintedRow rows.now rates.now (place + 1) result }
    ensures size { HasPrintedRate result }
{
    let row = rows[place];
    Reset {
        reset: row.reset,
        fixing: row.fixing,
        observed: printed_at(rates, place),
    }
}

// A broken rule of observations, or an earlier one of dates.
fn with_dates(dated: &Result<Resets, ResErr>, fault: Fault) -> ResErr
    ensures { result ≡ with_dates dated.now fault }
{
    match dated {
        Ok(_) => Stopped::Broken(fault),
        Err(Stopped::Broken(other)) => Stopped::Broken(earlier_fault(*other, fault)),
        Err(Stopped::Memory) => Stopped::Memory,
    }
}

/// The resets of a stream with calculation parameters over its adjusted boundaries, and its observed
/// rates, not rounded. Each calculation period has a reset date, a fixing date and an observed rate. A
/// stub with a rate of its own has that rate, and every other period has the rate of its daily
/// rates. `applicable` are the business days of `applicableBusinessDays`.
///
/// `Broken` is the first broken rule. First comes K37 as for `resets`, then K48: a period has too few
/// members. Then come K33 of reset dates and K33 of fixing dates as for `resets`. K33 of
/// `calculationParameters` follows: a period has no observations for another reason. Last comes K38 as
/// for `resets`. `Memory` says that memory ran out.
pub fn overnight_resets<G: GoodDays>(
    alloc: Global,
    s: &Stream,
    float: &FloatTerms,
    parameters: &CalculationParameters,
    span: &Span,
    adjusted: &DayList,
    reset_days: &G,
    fixing_days: &G,
    applicable: &G,
    fixings: &Fixings,
) -> Result<OvernightResets, ResErr>
    requires lawful { IsLawfulStream s.now }
    requires leg { s.now.leg ≡ OfFloating float.now }
    requires legs { FitsLeg s.now }
    requires offset { IsSaidReset s.now }
    requires rising { IsRising adjusted.now }
    ensures meets { let dates = source_of s.now span.now adjusted.now (G.days reset_days.now) (G.days fixing_days.now) in
        let source = daily_source dates (G.days applicable.now) float.now parameters.now in
        Meets (overnight_resets_of source fixings.now) result }
    // A rate that is stated for a stub is at most 10 in size, every other one at most 3,650,365.
    ensures bounds { IfOk result (λ x. All HasBounds x.rates) }
    ensures size { IfOk result (λ x. All HasPrintedRate x.resets) }
{
    let days = adjusted.as_slice();
    match overnight_rates(alloc, s, float, parameters, span, days, applicable, fixings) {
        Ok(rates) => {
            let rows = resets(alloc, s, span, adjusted, reset_days, fixing_days, fixings)?;
            let resets = printed_resets(alloc, rows.as_slice(), rates.as_slice())?;
            Ok(OvernightResets { resets, rates })
        }
        Err(Stopped::Broken(fault)) => {
            let dated = resets(alloc, s, span, adjusted, reset_days, fixing_days, fixings);
            Err(with_dates(&dated, fault))
        }
        Err(Stopped::Memory) => Err(Stopped::Memory),
    }
}

/// A law: a stream with calculation parameters has one list of observed rates and resets. Or one rule
/// of K37, K48, K33 and K38 is the first that it breaks.
pub fn overnight_resets_are_determined<G: GoodDays>(
    s: &Stream,
    float: &FloatTerms,
    parameters: &CalculationParameters,
    span: &Span,
    adjusted: &DayList,
    reset_days: &G,
    fixing_days: &G,
    applicable: &G,
    fixings: &Fixings,
)
    requires leg { s.now.leg ≡ OfFloating float.now }
    requires legs { FitsLeg s.now }
    requires offset { IsSaidReset s.now }
    ensures { let dates = source_of s.now span.now adjusted.now (G.days reset_days.now) (G.days fixing_days.now) in
        let source = daily_source dates (G.days applicable.now) float.now parameters.now in
        Determined (overnight_resets_of source fixings.now) }
{
    // hands the prover the range of the boundaries and of the business days
    let _days = adjusted.as_slice();
    let _covers = (reset_days.cover(), fixing_days.cover());
}
