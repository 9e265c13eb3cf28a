//! K11: an element that needs business days has centres. It applies to reset dates whether or not the
//! stream floats, and to the effective date whether or not the first period starts before it.
ghost use Rattle.std.specs.Prelude.{◌↔◌, IsTrue, IsSomeAnd};
ghost use Rattle.irs_terms.specs.Elements.{first_period_start_adjustments, fixing_dates};
ghost use Rattle.irs_terms.specs.declared.places.Rule.TheVariants.{K11};
ghost use Rattle.irs_terms.specs.Centers.{FixingHasCenters, HasCenters, HasCentersBy, HasCentersFor, HasCentersWith};
ghost use Rattle.irs_terms.specs.Centers.{StartHasCenters};
ghost use Rattle.irs_rules.specs.Private.TermsKept.{IsFirstHere};
ghost use Rattle.irs_rules.specs.TermsRules.{Breaks, BreaksK11, BreaksK11InResets};

use crate::faults::{earlier, fault_unless};
use irs_terms::{
    AdjustableDate, Adjustments, Centers, Elem, Fault, FixTerms, Offset, ResetTerms, Rule, Stream,
    adjusts_days, counts_days,
};

/// K11: the first adjustments of a stream that need days and have no centres.
pub(crate) fn element_without_centers(s: &Stream) -> Option<Fault>
    ensures { IsFirstHere (BreaksK11 s.now) result }
{
    let effective = lacking(&s.effective.adj, Elem::EFFECTIVE_DATE_ADJUSTMENTS);
    let termination = lacking(&s.termination.adj, Elem::TERMINATION_DATE_ADJUSTMENTS);
    let periods = lacking(&s.period_adj, Elem::PERIOD_DATES_ADJUSTMENTS);
    let first = lacking_in_first_start(&s.first_start);
    let payments = lacking_with(s.pay.offset, &s.pay.adj, Elem::PAYMENT_DATES_ADJUSTMENTS);
    let resets = lacking_in_given_resets(&s.reset);
    let later = earlier(first, earlier(payments, resets));
    earlier(effective, earlier(termination, earlier(periods, later)))
}

fn lacking_in_first_start(first: &Option<AdjustableDate>) -> Option<Fault>
    ensures { IsFirstHere (Breaks K11 first_period_start_adjustments (StartHasCenters first.now)) result }
{
    match first {
        None => None,
        Some(date) => lacking(&date.adj, Elem::FIRST_PERIOD_START_ADJUSTMENTS),
    }
}

fn lacking_in_given_resets(reset: &Option<ResetTerms>) -> Option<Fault>
    ensures { IsFirstHere (λ f. IsSomeAnd reset.now (λ r. BreaksK11InResets r f)) result }
{
    match reset {
        None => None,
        Some(reset) => lacking_in_resets(reset),
    }
}

fn lacking_in_resets(reset: &ResetTerms) -> Option<Fault>
    ensures { IsFirstHere (BreaksK11InResets reset.now) result }
{
    let fixing = lacking_in_fixing(&reset.fixing);
    let resets = lacking(&reset.adj, Elem::RESET_DATES_ADJUSTMENTS);
    earlier(fixing, resets)
}

fn lacking_in_fixing(fixing: &Option<FixTerms>) -> Option<Fault>
    ensures { IsFirstHere (Breaks K11 fixing_dates (FixingHasCenters fixing.now)) result }
{
    match fixing {
        None => None,
        Some(fixing) => lacking_with(fixing.offset, &fixing.adj, Elem::FIXING_DATES),
    }
}

fn lacking(adj: &Adjustments, elem: Elem) -> Option<Fault>
    ensures { IsFirstHere (Breaks K11 elem (HasCentersBy adj.now)) result }
{
    let needed = adjusts_days(adj.code);
    fault_unless(has_centers_for(needed, &adj.centers), Rule::K11, elem)
}

fn lacking_with(offset: Offset, adj: &Adjustments, elem: Elem) -> Option<Fault>
    ensures { IsFirstHere (Breaks K11 elem (HasCentersWith offset adj.now)) result }
{
    let needed = adjusts_days(adj.code) || counts_days(offset);
    fault_unless(has_centers_for(needed, &adj.centers), Rule::K11, elem)
}

fn has_centers_for(needed: bool, centers: &Centers) -> bool
    ensures { IsTrue result ↔ HasCentersFor needed centers.now }
{
    if needed { has_centers(centers) } else { true }
}

fn has_centers(centers: &Centers) -> bool
    ensures { IsTrue result ↔ HasCenters centers.now }
{
    match centers {
        Centers::Absent => false,
        Centers::Listed(_) => true,
        Centers::Dangling => true,
    }
}
