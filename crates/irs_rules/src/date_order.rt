//! K13: the termination date is after the effective date, and a given first period start date is
//! before the effective date. Given regular dates are from the first day of the first period to the
//! termination date. The last regular date isn't before the first.
ghost use Rattle.std.specs.Prelude.{◌≡◌, ◌↔◌, ◌≤ℤ◌, IsTrue, IfSome, unwrap_or};
ghost use Rattle.irs_terms.specs.TermDates.{EndsAfterStart, FirstRegularInside, LastRegularInside, StartsBefore};
ghost use Rattle.irs_rules.specs.Private.TermsKept.{IsFirstHere};
ghost use Rattle.irs_rules.specs.TermsRules.{BreaksK13};

use crate::faults::{earlier, fault_unless};
use irs_base::Day;
use irs_terms::{Elem, Fault, Rule, Stream};

/// K13: the first date of a stream that is out of order.
pub(crate) fn date_out_of_order(s: &Stream) -> Option<Fault>
    ensures { IsFirstHere (BreaksK13 s.now) result }
{
    let termination = fault_unless(ends_after_start(s), Rule::K13, Elem::TERMINATION_DATE);
    let start = fault_unless(starts_before(s), Rule::K13, Elem::FIRST_PERIOD_START_DATE);
    let first = fault_unless(
        is_first_inside(s),
        Rule::K13,
        Elem::FIRST_REGULAR_PERIOD_START_DATE,
    );
    let last = fault_unless(
        is_last_inside(s),
        Rule::K13,
        Elem::LAST_REGULAR_PERIOD_END_DATE,
    );
    earlier(termination, earlier(start, earlier(first, last)))
}

fn ends_after_start(s: &Stream) -> bool
    ensures { IsTrue result ↔ EndsAfterStart s.now }
{
    s.effective.day < s.termination.day
}

fn starts_before(s: &Stream) -> bool
    ensures { IsTrue result ↔ StartsBefore s.now }
{
    match &s.first_start {
        None => true,
        Some(start) => start.day < s.effective.day,
    }
}

fn is_first_inside(s: &Stream) -> bool
    ensures { IsTrue result ↔ FirstRegularInside s.now }
{
    is_inside(s.first_regular, s.first_day(), s.termination.day)
}

fn is_last_inside(s: &Stream) -> bool
    ensures { IsTrue result ↔ LastRegularInside s.now }
{
    let start = given_or(s.first_regular, s.first_day());
    is_inside(s.last_regular, start, s.termination.day)
}

fn given_or(given: Option<Day>, day: Day) -> Day
    ensures { result ≡ unwrap_or given day }
{
    match given {
        None => day,
        Some(given) => given,
    }
}

/// Whether the date, where it is given, lies from the first of two days to the second.
fn is_inside(date: Option<Day>, from: Day, to: Day) -> bool
    ensures { IsTrue result ↔ IfSome date (λ d. (from ≤ℤ d) × (d ≤ℤ to)) }
{
    match date {
        None => true,
        Some(day) => from <= day && day <= to,
    }
}
