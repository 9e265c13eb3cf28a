//! Offsets of days: a number of calendar days, or of business days.
ghost use Rattle.std.specs.Prelude.{◌≡◌, ◌⊎◌, ℤ, pos, IfSome, IfNone};
ghost use Rattle.irs_terms.specs.declared.codes.DayKind.TheVariants.{Unsaid};
ghost use Rattle.irs_adjust.specs.MovedDays.{Moves, MovesBusiness, MovesDays};

use crate::ways::{Way, walk};
use irs_base::{Day, plus};
use irs_calendar::GoodDays;
use irs_terms::{DayKind, Offset};

/// The day moved by the offset (FpML `periodMultiplier` and `dayType` of an offset in days); `None`
/// exactly where there is none. No memory is taken.
///
/// An offset of 0 leaves the day. A Business offset n takes the n-th business day strictly after
/// the day (n above 0) or before it (n below 0). All days from the day to the result have to lie in
/// the cover. A Calendar offset adds n days, which must stay in the range of dates.
pub fn move_by<G: GoodDays>(off: Offset, g: &G, d: Day) -> Option<Day>
    // The days are 0, or their kind is said.
    requires { (off.days ≡ pos 0) ⊎ (off.kind ≡ Unsaid → ⊥) }
    ensures some { IfSome result (Moves off (G.days g.now) d) }
    ensures none { IfNone result ((r : ℤ) → Moves off (G.days g.now) d r → ⊥) }
    // A day is moved to at most one day.
    ensures one { (r t : ℤ) → Moves off (G.days g.now) d r → Moves off (G.days g.now) d t → r ≡ t }
{
    if off.days == 0 {
        Some(d)
    } else {
        move_days(off.kind, i32::from(off.days), g, d)
    }
}

fn move_days<G: GoodDays>(kind: DayKind, days: i32, g: &G, d: Day) -> Option<Day>
    requires { days ≡ pos 0 → ⊥ }
    ensures some { IfSome result (MovesDays kind days (G.days g.now) d) }
    ensures none { IfNone result ((r : ℤ) → MovesDays kind days (G.days g.now) d r → ⊥) }
{
    match kind {
        DayKind::Business => move_business(days, g, d),
        DayKind::Calendar => plus(d, i64::from(days)),
        DayKind::Unsaid => None,
    }
}

fn move_business<G: GoodDays>(days: i32, g: &G, d: Day) -> Option<Day>
    requires { days ≡ pos 0 → ⊥ }
    ensures some { IfSome result (MovesBusiness days (G.days g.now) d) }
    ensures none { IfNone result ((r : ℤ) → MovesBusiness days (G.days g.now) d r → ⊥) }
{
    if days > 0 {
        walk(Way::Ahead, g, d, days.unsigned_abs())
    } else {
        walk(Way::Back, g, d, days.unsigned_abs())
    }
}
