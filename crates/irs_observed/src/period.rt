//! The observation period of a calculation period.
ghost use Rattle.std.specs.Prelude.{◌<ℤ◌, ℤ, IfSome, IfNone};
ghost use Rattle.irs_observed.specs.Observations.{IsObservationPeriod, MovesBack, Shifts, observed_period};

use irs_adjust::move_by;
use irs_base::Day;
use irs_calendar::GoodDays;
use irs_terms::{DayKind, ObservationOffset, Offset};

/// The day moved back by n business days.
pub(crate) fn moved_back<G: GoodDays>(n: u8, days: &G, d: Day) -> Option<Day>
    ensures some { IfSome result (MovesBack n (G.days days.now) d) }
    ensures none { IfNone result ((r : ℤ) → MovesBack n (G.days days.now) d r → ⊥) }
{
    let back = Offset {
        days: -i16::from(n),
        kind: DayKind::Business,
    };
    move_by(back, days, d)
}

/// The end of the observation period for an end of the calculation period.
pub(crate) fn shifted<G: GoodDays>(offset: ObservationOffset, days: &G, d: Day) -> Option<Day>
    ensures some { IfSome result (Shifts offset (G.days days.now) d) }
    ensures none { IfNone result ((r : ℤ) → Shifts offset (G.days days.now) d r → ⊥) }
{
    match offset {
        ObservationOffset::Shift(n) => moved_back(n, days, d),
        ObservationOffset::Absent
        | ObservationOffset::Lookback(_)
        | ObservationOffset::Lockout(_) => Some(d),
    }
}

/// The ends of an observation period.
#[derive(Clone, Copy)]
pub struct Ends {
    /// The first day.
    pub from: Day,
    /// The day after the last.
    pub to: Day,
}

/// The observation period of a calculation period.
pub fn observation_period<G: GoodDays>(
    offset: ObservationOffset,
    days: &G,
    start: Day,
    end: Day,
) -> Option<Ends>
    ensures some { let p = observed_period offset (G.days days.now) start end in
        IfSome result (λ ends. IsObservationPeriod p ends.from ends.to) }
    ensures none { let p = observed_period offset (G.days days.now) start end in
        IfNone result ((a b : ℤ) → IsObservationPeriod p a b → ⊥) }
{
    let from = shifted(offset, days, start)?;
    let to = shifted(offset, days, end)?;
    Some(Ends { from, to })
}

/// A law: if a calculation period has an observation period, so has its part up to each later day. Both
/// observation periods begin on the same day.
pub fn observations_reach_each_day<G: GoodDays>(
    offset: ObservationOffset,
    applicable: &G,
    start: Day,
    end: Day,
    d: Day,
)
    requires after { start <ℤ d }
    requires before { d <ℤ end }
    ensures { let set = G.days applicable.now in
        (a b : ℤ) → IsObservationPeriod (observed_period offset set start end) a b
        → (to : ℤ) × IsObservationPeriod (observed_period offset set start d) a to }
{}
