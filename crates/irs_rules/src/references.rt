//! K10: a reference names its target, and a `businessCentersReference` exactly one list of centres
//! of the swap. The rule applies even if no business days are needed.
ghost use Rattle.std.specs.Prelude.{◌↔◌, IsTrue, IfSome, IsSomeAnd};
ghost use Rattle.irs_terms.specs.Elements.{first_period_start_centers_reference, fixing_dates_centers_reference};
ghost use Rattle.irs_terms.specs.Elements.{stub_amount_reference};
ghost use Rattle.irs_terms.specs.declared.places.Rule.TheVariants.{K10};
ghost use Rattle.irs_terms.specs.Centers.{FixingNamesOneList, NamesOneList, NamesTarget, StartNamesOneList};
ghost use Rattle.irs_rules.specs.Private.TermsKept.{IsFirstHere};
ghost use Rattle.irs_rules.specs.TermsRules.{Breaks, BreaksK10, BreaksK10InPeriods, BreaksK10InPayments};
ghost use Rattle.irs_rules.specs.TermsRules.{BreaksK10InResets};

use crate::faults::{earlier, fault_unless};
use irs_terms::{
    AdjustableDate, Adjustments, Centers, Elem, Fault, FixTerms, PayTerms, RefState, ResetTerms,
    Rule, Stream, StubTerms,
};

/// K10: the first reference of a stream that names no target, or more than one list of centres.
pub(crate) fn dangling_reference(s: &Stream) -> Option<Fault>
    ensures { IsFirstHere (BreaksK10 s.now) result }
{
    earlier(
        in_periods(s),
        earlier(
            in_payments(&s.pay),
            earlier(in_given_resets(&s.reset), in_stubs(&s.stubs)),
        ),
    )
}

fn in_periods(s: &Stream) -> Option<Fault>
    ensures { IsFirstHere (BreaksK10InPeriods s.now) result }
{
    let effective = list_of(&s.effective.adj, Elem::EFFECTIVE_DATE_CENTERS_REFERENCE);
    let termination = list_of(&s.termination.adj, Elem::TERMINATION_DATE_CENTERS_REFERENCE);
    let periods = list_of(&s.period_adj, Elem::PERIOD_DATES_CENTERS_REFERENCE);
    let first = in_first_start(&s.first_start);
    earlier(effective, earlier(termination, earlier(periods, first)))
}

fn in_first_start(first: &Option<AdjustableDate>) -> Option<Fault>
    ensures { IsFirstHere (Breaks K10 first_period_start_centers_reference (StartNamesOneList first.now)) result }
{
    match first {
        None => None,
        Some(date) => list_of(&date.adj, Elem::FIRST_PERIOD_START_CENTERS_REFERENCE),
    }
}

fn in_payments(pay: &PayTerms) -> Option<Fault>
    ensures { IsFirstHere (BreaksK10InPayments pay.now) result }
{
    let periods = target_of(pay.calc_ref, Elem::PAYMENT_DATES_REFERENCE);
    let centers = list_of(&pay.adj, Elem::PAYMENT_DATES_CENTERS_REFERENCE);
    earlier(periods, centers)
}

fn in_given_resets(reset: &Option<ResetTerms>) -> Option<Fault>
    ensures { IsFirstHere (λ f. IsSomeAnd reset.now (λ r. BreaksK10InResets r f)) result }
{
    match reset {
        None => None,
        Some(reset) => in_resets(reset),
    }
}

fn in_resets(reset: &ResetTerms) -> Option<Fault>
    ensures { IsFirstHere (BreaksK10InResets reset.now) result }
{
    let periods = target_of(reset.calc_ref, Elem::RESET_DATES_REFERENCE);
    let fixing = in_fixing(&reset.fixing);
    let relative = target_of(reset.fixing_ref, Elem::FIXING_DATES_RELATIVE_TO);
    let centers = list_of(&reset.adj, Elem::RESET_DATES_CENTERS_REFERENCE);
    earlier(periods, earlier(fixing, earlier(relative, centers)))
}

fn in_fixing(fixing: &Option<FixTerms>) -> Option<Fault>
    ensures { IsFirstHere (Breaks K10 fixing_dates_centers_reference (FixingNamesOneList fixing.now)) result }
{
    match fixing {
        None => None,
        Some(fixing) => list_of(&fixing.adj, Elem::FIXING_DATES_CENTERS_REFERENCE),
    }
}

fn in_stubs(stubs: &Option<StubTerms>) -> Option<Fault>
    ensures { IsFirstHere (Breaks K10 stub_amount_reference (IfSome stubs.now (λ t. NamesTarget t.calc_ref))) result }
{
    match stubs {
        None => None,
        Some(stubs) => target_of(stubs.calc_ref, Elem::STUB_AMOUNT_REFERENCE),
    }
}

/// The reference to a list of centres, where it names none or more than one.
fn list_of(adj: &Adjustments, reference: Elem) -> Option<Fault>
    ensures { IsFirstHere (Breaks K10 reference (NamesOneList adj.now.centers)) result }
{
    fault_unless(names_one_list(&adj.centers), Rule::K10, reference)
}

fn names_one_list(centers: &Centers) -> bool
    ensures { IsTrue result ↔ NamesOneList centers.now }
{
    match centers {
        Centers::Absent => true,
        Centers::Listed(_) => true,
        Centers::Dangling => false,
    }
}

/// The reference, where it names no target.
fn target_of(state: RefState, reference: Elem) -> Option<Fault>
    ensures { IsFirstHere (Breaks K10 reference (NamesTarget state)) result }
{
    fault_unless(names_target(state), Rule::K10, reference)
}

fn names_target(state: RefState) -> bool
    ensures { IsTrue result ↔ NamesTarget state }
{
    match state {
        RefState::Absent => true,
        RefState::Good => true,
        RefState::Dangling => false,
    }
}
