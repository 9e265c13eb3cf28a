//! What is reported of the searches of business days that count their steps: the day that they
//! find. That a search among 53 runs reads at most 7 of them is proved.
ghost use Rattle.std.specs.Prelude.{◌≡◌, ◌<◌, ◌-◌, ◌≤◌, length};

use crate::telling::Told;
use irs_base::Day;
use irs_calendar::{RunSet, Steps};
use std::marker::Brand;
use std::sync::ledger::{Blank, Ledger};

// Over 53 runs a search reads at most 7 of them.
fn next_in_seven<L: Ledger>(days: &RunSet, d: Day, steps: &mut Steps<L>) -> Option<Day>
    requires { length days.now.runs ≡ 53 }
    ensures { steps.new - steps.old ≤ 7 }
{
    days.next_good_counted(d, steps)
}

fn next_of<L: Ledger>(days: &RunSet, d: Day, blank: Blank) -> Option<Day>
    requires runs { length days.now.runs ≡ 53 }
    requires name { blank.name ≡ L.name }
    requires parts { blank.parts ≡ L.parts }
    requires positive { 0 < L.parts }
{
    next_in_seven::<L>(days, d, &mut Steps::new(blank))
}

fn prev_of<L: Ledger>(days: &RunSet, d: Day, blank: Blank) -> Option<Day>
    requires name { blank.name ≡ L.name }
    requires parts { blank.parts ≡ L.parts }
    requires positive { 0 < L.parts }
{
    days.prev_good_counted::<L>(d, &mut Steps::new(blank))
}

/// The first business day from a day on, found in at most 7 steps; none where there aren't 53 runs.
pub fn next_told(told: &mut Told, days: &RunSet, d: Day) -> Option<()> {
    if days.count() != 53 {
        return None;
    }
    told.given_day("", next_of::<Brand>(days, d, Blank::new(1)));
    Some(())
}

/// The last business day up to a day.
pub fn previous_told(told: &mut Told, days: &RunSet, d: Day) {
    told.given_day("", prev_of::<Brand>(days, d, Blank::new(1)));
}
