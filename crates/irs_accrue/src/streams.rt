//! What has accrued on a day in a stream of either kind. With calculation parameters it is by the daily
//! rates, else by the rates of the calculation periods.
ghost use Rattle.std.specs.Prelude.{◌≡◌, IfOk};
ghost use Rattle.irs_terms.specs.Lawful.{IsLawfulStream};
ghost use Rattle.irs_terms.specs.TermDates.{LegStepsRise, FrequencySuits, DatesInOrder};
ghost use Rattle.irs_accrue.specs.Accruals.{AccrualHasPlaces};
ghost use Rattle.irs_periods.specs.Boundaries.{HasSpan};
ghost use Rattle.irs_accrue.specs.DailyAccruals.{IsAccrualOf, IsAccrualWith};
ghost use Rattle.irs_accrue.specs.declared.accruals.Accrual.{Accrual as AnAccrual};

use crate::Accrual;
use crate::accruals::accrued_in;
use crate::daily::daily_accrued;
use irs_base::{Day, Memory};
use irs_calendar::GoodDays;
use irs_resets::Fixings;
use irs_schedule::StreamPart;
use irs_terms::{FloatTerms, Leg, Stream};
use std::alloc::Global;

// What has accrued in a floating stream.
fn floating_accrued<G: GoodDays>(
    alloc: Global,
    s: &Stream,
    float: &FloatTerms,
    applicable: &G,
    fixings: &Fixings,
    part: &StreamPart,
    d: Day,
) -> Result<Accrual, Memory>
    requires lawful { IsLawfulStream s.now }
    requires rises { LegStepsRise s.now.leg }
    requires dates { DatesInOrder s.now }
    requires frequency { FrequencySuits s.now }
    requires span { HasSpan s.now }
    ensures accrual { let with = IsAccrualWith float.now.parameters float.now s.now (G.days applicable.now) fixings.now in
        IfOk result (with part.now d) }
{
    match &float.parameters {
        Some(parameters) => daily_accrued(
            alloc, s, float, parameters, applicable, fixings, part, d,
        ),
        None => Ok(accrued_in(part, d)),
    }
}

/// What has accrued on a day in the stream `s` of a swap, of which `part` is the part of its schedule.
/// Without calculation parameters, and in a stub with a rate of its own, it is as for `accrued`. With
/// them the running period earns at the rate by the daily rates of its members before the day.
///
/// On its first day, and before its first day is observed, nothing has accrued, not even the spread.
/// The members and their observation days are those of the whole period. So a lockout is that of its
/// last days. The last rate applies up to the day, moved back under an observation shift.
/// The rate has the multiplier, the spread, the treatment and the rounding of the whole period's.
/// The amount is absent where a daily rate is absent, a factor passes 10^4 or the rate passes 10.
///
/// `applicable` are the good business days of `applicableBusinessDays`. The fixings are those of the schedule.
/// The conditions are that the stream keeps the rules of its terms and has a regular span (K30, K31).
/// Every stream of which a schedule is made meets them.
pub fn accrued_of<G: GoodDays>(
    alloc: Global,
    s: &Stream,
    applicable: &G,
    fixings: &Fixings,
    part: &StreamPart,
    d: Day,
) -> Result<Accrual, Memory>
    requires lawful { IsLawfulStream s.now }
    requires rises { LegStepsRise s.now.leg }
    requires dates { DatesInOrder s.now }
    requires frequency { FrequencySuits s.now }
    requires span { HasSpan s.now }
    ensures accrual { IfOk result (IsAccrualOf s.now (G.days applicable.now) fixings.now part.now d) }
    ensures places { IfOk result AccrualHasPlaces }
{
    match &s.leg {
        Leg::Floating(float) => floating_accrued(alloc, s, float, applicable, fixings, part, d),
        Leg::Fixed(_) => Ok(accrued_in(part, d)),
    }
}

/// A law: any two accruals of a stream on a day are equal, where the days of its steps rise.
pub fn accrued_of_is_determined<G: GoodDays>(
    s: &Stream,
    applicable: &G,
    fixings: &Fixings,
    part: &StreamPart,
    d: Day,
)
    requires { LegStepsRise s.now.leg }
    ensures { (a b : AnAccrual) → IsAccrualOf s.now (G.days applicable.now) fixings.now part.now d a
        → IsAccrualOf s.now (G.days applicable.now) fixings.now part.now d b → a ≡ b }
{
    // hands the prover what every part keeps
    let _bounds = part.periods();
}
