//! K12: each centre whose business days an element needs is in a calendar. It does not apply to an
//! element that needs none; applicable business days are always needed.
ghost use Rattle.std.specs.Prelude.{◌≡◌, ◌≤◌, IfSome, Some, length, option_copied};
ghost use Rattle.irs_base.specs.Limits.{most_centers};
ghost use Rattle.irs_terms.specs.declared.places.Rule.TheVariants.{K12};
ghost use Rattle.irs_terms.specs.Lawful.{IsLawfulStream, IsLawfulNames};
ghost use Rattle.irs_rules.specs.Private.TermsKept.{IsFirstHere};
ghost use Rattle.irs_rules.specs.TermsRules.{BreaksItem, BreaksK12};
ghost use Rattle.irs_rules.specs.Parameters.{IsFoundAt, start_names};

use crate::faults::{earlier, fault_of_item};
use crate::parameters::applicable_names;
use irs_base::Names;
use irs_calendar::Calendars;
use irs_terms::{
    AdjustableDate, Elem, Fault, Rule, Stream, fixing_names, names_by, names_with, reset_names,
};

/// K12: the first centre of a stream that is needed and in no calendar.
pub(crate) fn center_in_no_calendar(s: &Stream, cal: &Calendars) -> Option<Fault>
    requires { IsLawfulStream s.now }
    ensures { IsFirstHere (BreaksK12 cal.now s.now) result }
{
    let effective = names_by(&s.effective.adj);
    let termination = names_by(&s.termination.adj);
    let periods = names_by(&s.period_adj);
    let first = start_names(&s.first_start);
    let payments = names_with(s.pay.offset, &s.pay.adj);
    let fixing = fixing_names(&s.reset);
    let resets = reset_names(&s.reset);
    let applicable = applicable_names(&s.leg);
    let of_effective = unknown(cal, effective, Elem::EFFECTIVE_DATE_ADJUSTMENTS);
    let of_termination = unknown(cal, termination, Elem::TERMINATION_DATE_ADJUSTMENTS);
    let of_periods = unknown(cal, periods, Elem::PERIOD_DATES_ADJUSTMENTS);
    let of_first = unknown(cal, first, Elem::FIRST_PERIOD_START_ADJUSTMENTS);
    let of_payments = unknown(cal, payments, Elem::PAYMENT_DATES_ADJUSTMENTS);
    let of_fixing = unknown(cal, fixing, Elem::FIXING_DATES);
    let of_resets = unknown(cal, resets, Elem::RESET_DATES_ADJUSTMENTS);
    let of_applicable = unknown(cal, applicable, Elem::APPLICABLE_BUSINESS_DAYS);
    let of_rates = earlier(of_fixing, earlier(of_resets, of_applicable));
    let later = earlier(of_payments, of_rates);
    earlier(
        of_effective,
        earlier(
            of_termination,
            earlier(of_periods, earlier(of_first, later)),
        ),
    )
}

fn start_names(first: &Option<AdjustableDate>) -> Option<&Names>
    ensures { option_copied result ≡ start_names first.now }
{
    match first {
        None => None,
        Some(date) => names_by(&date.adj),
    }
}

/// The first of the names that no calendar has.
fn unknown(cal: &Calendars, names: Option<&Names>, elem: Elem) -> Option<Fault>
    requires { IfSome (option_copied names) IsLawfulNames }
    ensures { IsFirstHere (BreaksItem K12 elem (IsFoundAt cal.now (option_copied names.entry))) result }
{
    match names {
        None => None,
        Some(names) => first_unknown(cal, names, elem),
    }
}

fn first_unknown(cal: &Calendars, names: &Names, elem: Elem) -> Option<Fault>
    requires { length names.now ≤ most_centers }
    ensures { IsFirstHere (BreaksItem K12 elem (IsFoundAt cal.now (Some names.now))) result }
{
    for (i, name) in names.as_slice().iter().enumerate() {
        if !cal.has_center(name) {
            return Some(fault_of_item(Rule::K12, elem, i));
        }
    }
    None
}
