//! The convention that a code names.
ghost use Rattle.std.specs.Prelude.{◌≡◌, ℤ, IfSome, IfNone};
ghost use Rattle.irs_adjust.specs.MovedDays.{Adjusts};

use crate::{Convention, Following, ModFollowing, ModPreceding, Nearest, Preceding, Unadjusted};
use irs_base::Day;
use irs_calendar::GoodDays;
use irs_terms::ConvCode;

/// The adjusted day by the convention of that code (FpML `businessDayConvention`); `None` exactly
/// where there is none. No memory is taken.
pub fn adjust_by<G: GoodDays>(code: ConvCode, g: &G, d: Day) -> Option<Day>
    ensures some { IfSome result (Adjusts code (G.days g.now) d) }
    ensures none { IfNone result ((r : ℤ) → Adjusts code (G.days g.now) d r → ⊥) }
    // A day has at most one adjusted day.
    ensures one { (r t : ℤ) → Adjusts code (G.days g.now) d r → Adjusts code (G.days g.now) d t → r ≡ t }
{
    match code {
        ConvCode::Following => Following.adjust(g, d),
        ConvCode::ModFollowing => ModFollowing.adjust(g, d),
        ConvCode::Preceding => Preceding.adjust(g, d),
        ConvCode::ModPreceding => ModPreceding.adjust(g, d),
        ConvCode::Nearest => Nearest.adjust(g, d),
        ConvCode::Unadjusted => Unadjusted.adjust(g, d),
    }
}
