//! Whether a roll fits an anchor, and whether a day is on the grid of any anchor. That NONE fits
//! every day is our rule.
ghost use Rattle.std.specs.Prelude.{◌↔◌, ◌<◌, IsTrue};
ghost use Rattle.irs_terms.specs.Lawful.{IsLawfulRoll};
ghost use Rattle.irs_roll.specs.Rolls.{OnDays, OnMonths, OnRollDay, Fits, FitsWeek, IsRollDay, OnGrid};
ghost use Rattle.irs_terms.specs.TermDates.{IsWholeTerm, RollsMonths, Suits};

use crate::Anchor;
use crate::rolls::{DayNumber, EndOfMonth, Imm, Roll};
use crate::steps::is_multiple;
use irs_base::{Day, civil_of, weekday};
use irs_terms::{Frequency, RollCode, Unit};

/// Whether the roll fits the anchor. In months and years the anchor has to be the roll day of its
/// month, and in weeks the weekday of the roll. With NONE every day fits. The conditions are that
/// the frequency isn't the term and that the roll suits it.
pub fn fits(roll: RollCode, freq: Frequency, anchor: Day) -> bool
    requires term { ¬ (IsWholeTerm freq) }
    requires suits { Suits freq roll }
    ensures { IsTrue result ↔ Fits roll freq anchor }
{
    match freq.unit {
        Unit::D => true,
        Unit::W => fits_week(roll, anchor),
        Unit::M | Unit::Y => fits_month(roll, anchor),
        Unit::T => unreachable!(),
    }
}

fn fits_week(roll: RollCode, anchor: Day) -> bool
    ensures { IsTrue result ↔ FitsWeek roll anchor }
{
    match roll {
        RollCode::OnWeekday(name) => weekday(anchor) == name,
        RollCode::NoRoll => true,
        RollCode::Eom | RollCode::Dom(_) | RollCode::Imm => false,
    }
}

fn fits_month(roll: RollCode, anchor: Day) -> bool
    requires { RollsMonths roll }
    ensures { IsTrue result ↔ OnRollDay (IsRollDay roll) anchor }
{
    match roll {
        RollCode::Eom => is_roll_day(&EndOfMonth, anchor),
        RollCode::Dom(number) => is_roll_day(&DayNumber::new(number), anchor),
        RollCode::Imm => is_roll_day(&Imm, anchor),
        RollCode::OnWeekday(_) | RollCode::NoRoll => unreachable!(),
    }
}

fn is_roll_day<R: Roll>(roll: &R, d: Day) -> bool
    ensures { IsTrue result ↔ OnRollDay (R.rolls roll.now) d }
{
    roll.rolls_on(d, civil_of(d))
}

/// Whether the day is on the grid of the frequency and the roll from the anchor. It holds for every
/// anchor and every lawful roll, whether or not the roll fits the anchor or suits the frequency.
/// The conditions are that the frequency isn't the term and that its multiplier is at least 1.
pub fn on_grid_of(freq: Frequency, roll: RollCode, anchor: Day, d: Day) -> bool
    requires term { ¬ (IsWholeTerm freq) }
    requires step { 0 < freq.count }
    requires roll { IsLawfulRoll roll }
    ensures { IsTrue result ↔ OnGrid freq roll anchor d }
{
    on_grid_from(freq, roll, &Anchor::new(anchor), d)
}

/// Whether the day is on the grid, with the anchor's month worked out beforehand. The same conditions
/// apply.
pub fn on_grid_from(freq: Frequency, roll: RollCode, anchor: &Anchor, d: Day) -> bool
    requires term { ¬ (IsWholeTerm freq) }
    requires step { 0 < freq.count }
    requires roll { IsLawfulRoll roll }
    ensures { IsTrue result ↔ OnGrid freq roll anchor.now d }
{
    let count = u32::from(freq.count);
    match freq.unit {
        Unit::D => on_days(count, anchor, d),
        Unit::W => on_days(7 * count, anchor, d),
        Unit::M => on_roll_days(roll, count, anchor, d),
        Unit::Y => on_roll_days(roll, 12 * count, anchor, d),
        Unit::T => unreachable!(),
    }
}

fn on_days(days: u32, anchor: &Anchor, d: Day) -> bool
    requires { 0 < days }
    ensures { IsTrue result ↔ OnDays days anchor.now d }
{
    is_multiple(i64::from(d.number() - anchor.day().number()), days)
}

fn on_roll_days(roll: RollCode, months: u32, anchor: &Anchor, d: Day) -> bool
    requires step { 0 < months }
    requires roll { IsLawfulRoll roll }
    ensures { IsTrue result ↔ OnMonths (IsRollDay roll) months anchor.now d }
{
    match roll {
        RollCode::Eom => on_months(&EndOfMonth, months, anchor, d),
        RollCode::Dom(number) => on_months(&DayNumber::new(number), months, anchor, d),
        RollCode::Imm => on_months(&Imm, months, anchor, d),
        RollCode::OnWeekday(_) | RollCode::NoRoll => false,
    }
}

// The months are compared first: most days are in no month of the grid.
fn on_months<R: Roll>(roll: &R, months: u32, anchor: &Anchor, d: Day) -> bool
    requires { 0 < months }
    ensures { IsTrue result ↔ OnMonths (R.rolls roll.now) months anchor.now d }
{
    let date = civil_of(d);
    is_multiple(anchor.months_to(date), months) && roll.rolls_on(d, date)
}
