//! Which roll conventions suit a frequency (FpML `calculationPeriodFrequency`, `rollConvention`).
ghost use Rattle.std.specs.Prelude.{◌↔◌, IsTrue};
ghost use Rattle.irs_terms.specs.TermDates.{RollsMonths, RollsWeeks, Suits};

use crate::{Frequency, RollCode, Unit};

/// Whether the roll suits the frequency. Months and years roll on EOM, IMM or a day number from 1
/// to 30, weeks on a weekday or NONE, days on NONE. Every roll suits the term.
pub fn suits(freq: Frequency, roll: RollCode) -> bool
    ensures { IsTrue result ↔ Suits freq roll }
{
    match freq.unit {
        Unit::D => roll == RollCode::NoRoll,
        Unit::W => rolls_weeks(roll),
        Unit::M | Unit::Y => rolls_months(roll),
        Unit::T => true,
    }
}

fn rolls_weeks(roll: RollCode) -> bool
    ensures { IsTrue result ↔ RollsWeeks roll }
{
    match roll {
        RollCode::OnWeekday(_) | RollCode::NoRoll => true,
        RollCode::Eom | RollCode::Dom(_) | RollCode::Imm => false,
    }
}

fn rolls_months(roll: RollCode) -> bool
    ensures { IsTrue result ↔ RollsMonths roll }
{
    match roll {
        RollCode::Eom | RollCode::Imm => true,
        RollCode::Dom(number) => 1 <= number && number <= 30,
        RollCode::OnWeekday(_) | RollCode::NoRoll => false,
    }
}
