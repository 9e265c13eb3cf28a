//! K17: an offset other than 0 says by `dayType` which days it counts.
ghost use Rattle.std.specs.Prelude.{◌↔◌, IsTrue};
ghost use Rattle.irs_terms.specs.Centers.{IsSaid, IsSaidFixing, IsSaidReset};
ghost use Rattle.irs_terms.specs.declared.codes.DayKind.TheVariants.{Unsaid};
ghost use Rattle.irs_rules.specs.Private.TermsKept.{IsFirstHere};
ghost use Rattle.irs_rules.specs.TermsRules.{BreaksK17};

use crate::faults::{earlier, fault_unless};
use irs_terms::{DayKind, Elem, Fault, FixTerms, Offset, Rule, Stream};

/// K17: the first offset of a stream that isn't 0 and has no `dayType`.
pub(crate) fn offset_without_day_type(s: &Stream) -> Option<Fault>
    ensures { IsFirstHere (BreaksK17 s.now) result }
{
    let payment = fault_unless(is_said(s.pay.offset), Rule::K17, Elem::PAYMENT_DAYS_OFFSET);
    let fixing = fault_unless(is_said_reset(s), Rule::K17, Elem::FIXING_DATES);
    earlier(payment, fixing)
}

fn is_said_reset(s: &Stream) -> bool
    ensures { IsTrue result ↔ IsSaidReset s.now }
{
    match &s.reset {
        None => true,
        Some(reset) => is_said_fixing(&reset.fixing),
    }
}

fn is_said_fixing(fixing: &Option<FixTerms>) -> bool
    ensures { IsTrue result ↔ IsSaidFixing fixing.now }
{
    match fixing {
        None => true,
        Some(fixing) => is_said(fixing.offset),
    }
}

fn is_said(offset: Offset) -> bool
    ensures { IsTrue result ↔ IsSaid offset }
{
    offset.days == 0 || offset.kind != DayKind::Unsaid
}
