//! The day on which a tenor ends (2006 ISDA Definitions, section 7.3, 'Designated Maturity'). That
//! a tenor isn't adjusted for business days is our rule.
ghost use Rattle.std.specs.Prelude.{◌*◌, ℤ, IfSome, IfNone};
ghost use Rattle.irs_base.specs.Days.{IsDay};
ghost use Rattle.irs_average.specs.Interpolations.{EndsMonths, EndsTenor};

use irs_base::{Day, civil_of, month_day, month_index, plus};
use irs_terms::{Frequency, Unit};

// The day this number of months after a start: of the start's own number, or the last of a shorter
// month.
fn months_after(start: Day, months: u32) -> Option<Day>
    ensures some { IfSome result (λ d. IsDay d × EndsMonths start months d) }
    ensures none { IfNone result ((d : ℤ) → IsDay d → EndsMonths start months d → ⊥) }
{
    let month = i64::from(month_index(start));
    month_day(month + i64::from(months), civil_of(start).day)
}

/// The day on which a tenor from a start ends; `None` exactly where no day in range does.
pub(crate) fn tenor_end(start: Day, tenor: Frequency) -> Option<Day>
    ensures some { IfSome result (λ d. IsDay d × EndsTenor start tenor d) }
    ensures none { IfNone result ((d : ℤ) → IsDay d → EndsTenor start tenor d → ⊥) }
{
    let count = u32::from(tenor.count);
    match tenor.unit {
        Unit::D => plus(start, i64::from(count)),
        Unit::W => plus(start, i64::from(7 * count)),
        Unit::M => months_after(start, count),
        Unit::Y => months_after(start, 12 * count),
        Unit::T => None,
    }
}
