//! What is reported of the rules of the terms: the first that a swap breaks, after the number of
//! its stream, or `kept`.
ghost use Rattle.irs_terms.specs.Lawful.{IsLawfulSwap};

use crate::telling::Told;
use irs_calendar::Calendars;
use irs_rules::check_terms;
use irs_terms::{Fault, Swap};

/// The first rule of the terms that is broken.
pub fn rule_lines(told: &mut Told, calendars: &Calendars, swap: &Swap)
    requires { IsLawfulSwap swap.now }
{
    let Some(broken) = check_terms(swap, calendars) else {
        told.line("kept");
        return;
    };
    let place = broken.place;
    told.number("stream ", place.stream);
    told.text(": ");
    told.fault(Fault {
        rule: broken.rule,
        elem: place.elem,
        index: place.index,
    });
}
