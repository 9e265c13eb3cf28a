//! The first of K10 to K21 and K47 that the terms of a swap break. Broken rules are ordered by stream,
//! then by rule, then by element in the order of the table of elements, then by index.
ghost use Rattle.irs_base.specs.Outcomes.{Checks, Determined};
ghost use Rattle.irs_terms.specs.Lawful.{IsLawfulSwap, IsLawfulStream};
ghost use Rattle.irs_rules.specs.Private.TermsKept.{IsFirstHere};
ghost use Rattle.irs_rules.specs.TermsRules.{terms_of, BreaksAmounts, BreaksDates, BreaksNames, BreaksStream};

use crate::centers::element_without_centers;
use crate::date_order::date_out_of_order;
use crate::day_types::offset_without_day_type;
use crate::faults::earlier;
use crate::frequencies::{payment_misfit, reset_misfit, roll_misfit};
use crate::known_centers::center_in_no_calendar;
use crate::legs::{compounding_misfit, element_of_other_leg};
use crate::parameters::parameters_misfit;
use crate::payment_dates::payment_date_misfit;
use crate::references::dangling_reference;
use crate::step_dates::step_out_of_order;
use irs_calendar::Calendars;
use irs_terms::{Broken, Fault, Stream, Swap};

/// The first of K10 to K21 and K47 that a lawful swap breaks, in the order of stream, rule, element and
/// index. `None` is returned exactly if it breaks none.
///
/// The rules are our own, on the elements of FpML's InterestRateStream. They are on references and
/// centres (K10 to K12), on dates and frequencies (K13 to K16), and on offsets, steps and rates (K17
/// to K21). K47 is on what goes with `calculationParameters`. K12 looks up in the calendars the centres
/// of elements that need business days. No memory is taken.
pub fn check_terms(swap: &Swap, cal: &Calendars) -> Option<Broken>
    requires { IsLawfulSwap swap.now }
    ensures meets { Checks (terms_of swap.now cal.now) result }
{
    for (i, s) in swap.streams.as_slice().iter().enumerate() {
        if let Some(fault) = first_in_stream(s, cal) {
            return Some(fault.in_stream(i as u8 + 1));
        }
    }
    None
}

/// A law: a lawful swap breaks a first rule of the terms, or breaks none.
pub fn terms_are_determined(swap: &Swap, cal: &Calendars)
    requires { IsLawfulSwap swap.now }
    ensures { Determined (terms_of swap.now cal.now) }
{
    // hands the prover a right outcome
    let _outcome = check_terms(swap, cal);
}

/// The first rule that a stream breaks.
fn first_in_stream(s: &Stream, cal: &Calendars) -> Option<Fault>
    requires { IsLawfulStream s.now }
    ensures { IsFirstHere (BreaksStream cal.now s.now) result }
{
    let amounts = earlier(first_of_amounts(s), parameters_misfit(s));
    earlier(first_of_names(s, cal), earlier(first_of_dates(s), amounts))
}

/// The first of K10 to K12.
fn first_of_names(s: &Stream, cal: &Calendars) -> Option<Fault>
    requires { IsLawfulStream s.now }
    ensures { IsFirstHere (BreaksNames cal.now s.now) result }
{
    let references = dangling_reference(s);
    let absent = element_without_centers(s);
    let unknown = center_in_no_calendar(s, cal);
    earlier(references, earlier(absent, unknown))
}

/// The first of K13 to K16.
fn first_of_dates(s: &Stream) -> Option<Fault>
    requires { IsLawfulStream s.now }
    ensures { IsFirstHere (BreaksDates s.now) result }
{
    let order = date_out_of_order(s);
    let roll = roll_misfit(s);
    let frequency = payment_misfit(s);
    let payments = payment_date_misfit(s);
    earlier(order, earlier(roll, earlier(frequency, payments)))
}

/// The first of K17 to K21.
fn first_of_amounts(s: &Stream) -> Option<Fault>
    requires { IsLawfulStream s.now }
    ensures { IsFirstHere (BreaksAmounts s.now) result }
{
    let offsets = offset_without_day_type(s);
    let steps = step_out_of_order(s);
    let leg = element_of_other_leg(s);
    let resets = reset_misfit(s);
    let compounding = compounding_misfit(s);
    earlier(
        offsets,
        earlier(steps, earlier(leg, earlier(resets, compounding))),
    )
}
