//! The observed rate of a calculation period (2006 ISDA Definitions, section 6.2; FpML
//! `floatingRateCalculation` and `stubCalculationPeriodAmount`).
//!
//! A stub has the rate or the index that is given for it, and the first regular period the initial
//! rate where one is given. Every other period has the stream's index. An index is looked up on the
//! fixing date. That a stub's index doesn't fall back to the stream's is our rule.
ghost use Rattle.std.specs.Prelude.{◌≡◌, ◌↔◌, IsTrue, IfSome};
ghost use Rattle.irs_terms.specs.Lawful.{IsRate, IsLawfulFloat, IsLawfulStubs, IsLawfulStubRate};
ghost use Rattle.irs_resets.specs.Rates.{IsInitialStub, IsFinal, FollowsStub, IsFirstRegular, IsPeriodKind, rate_from};
ghost use Rattle.irs_resets.specs.Private.Resets.{index_source, own_source, own_or_index, initial_stub_source};
ghost use Rattle.irs_resets.specs.Private.Resets.{final_stub_source, initial_or_index, observed_rate};

use crate::Fixings;
use irs_base::Day;
use irs_terms::{FloatTerms, Span, Stream, StubRate, StubTerms};

/// What a calculation period is: it decides where the rate of the period comes from.
#[derive(Clone, Copy, PartialEq, Eq)]
pub enum PeriodKind {
    /// The first period, where it begins before the regular span.
    InitialStub,
    /// The last period, where it ends after the regular span.
    FinalStub,
    /// The first period of the regular span.
    FirstRegular,
    /// Every other period.
    LaterRegular,
}

// The first period, where it begins before the regular span.
fn is_initial(s: &Stream, span: &Span, number: usize) -> bool
    ensures { IsTrue result ↔ IsInitialStub s.now span.now number }
{
    s.first_day() < span.first && number == 1
}

// The last period, where it ends after the regular span.
fn is_final(s: &Stream, span: &Span, count: usize, number: usize) -> bool
    ensures { IsTrue result ↔ IsFinal s.now span.now count number }
{
    span.last < s.termination.day && number == count
}

// The period after the initial stub, or period 1 where there is none.
fn follows_stub(s: &Stream, span: &Span, number: usize) -> bool
    ensures { IsTrue result ↔ FollowsStub s.now span.now number }
{
    if s.first_day() < span.first {
        return number == 2;
    }
    number == 1
}

fn is_first_regular(s: &Stream, span: &Span, number: usize) -> bool
    ensures { IsTrue result ↔ IsFirstRegular s.now span.now number }
{
    if span.last <= span.first {
        return false;
    }
    follows_stub(s, span, number)
}

/// What period `number` of `count` is. Periods count from 1.
pub fn period_kind(s: &Stream, span: &Span, count: usize, number: usize) -> PeriodKind
    ensures { IsPeriodKind s.now span.now count number result }
{
    if is_initial(s, span, number) {
        return PeriodKind::InitialStub;
    }
    if is_final(s, span, count, number) {
        return PeriodKind::FinalStub;
    }
    if is_first_regular(s, span, number) {
        return PeriodKind::FirstRegular;
    }
    PeriodKind::LaterRegular
}

fn on_index(float: &FloatTerms, fixings: &Fixings, d: Day) -> Option<i64>
    ensures value { result ≡ rate_from (index_source float.now) fixings.now d }
    ensures small { IfSome result IsRate }
{
    fixings.rate_on(&float.index, float.tenor, d)
}

fn on_stub(stub: &StubRate, fixings: &Fixings, d: Day) -> Option<i64>
    requires { IsLawfulStubRate stub.now }
    ensures value { result ≡ rate_from (own_source stub.now) fixings.now d }
    ensures small { IfSome result IsRate }
{
    match stub {
        StubRate::Index(index, tenor) => fixings.rate_on(index, *tenor, d),
        StubRate::Fixed(rate) => Some(*rate),
    }
}

fn on_stub_or_index(
    stub: &Option<StubRate>,
    float: &FloatTerms,
    fixings: &Fixings,
    d: Day,
) -> Option<i64>
    requires { IfSome stub.now IsLawfulStubRate }
    ensures value { result ≡ rate_from (own_or_index stub.now float.now) fixings.now d }
    ensures small { IfSome result IsRate }
{
    match stub {
        Some(stub) => on_stub(stub, fixings, d),
        None => on_index(float, fixings, d),
    }
}

fn of_initial_stub(
    stubs: &Option<StubTerms>,
    float: &FloatTerms,
    fixings: &Fixings,
    d: Day,
) -> Option<i64>
    requires { IfSome stubs.now IsLawfulStubs }
    ensures value { result ≡ rate_from (initial_stub_source stubs.now float.now) fixings.now d }
    ensures small { IfSome result IsRate }
{
    match stubs {
        Some(stubs) => on_stub_or_index(&stubs.initial, float, fixings, d),
        None => on_index(float, fixings, d),
    }
}

fn of_final_stub(
    stubs: &Option<StubTerms>,
    float: &FloatTerms,
    fixings: &Fixings,
    d: Day,
) -> Option<i64>
    requires { IfSome stubs.now IsLawfulStubs }
    ensures value { result ≡ rate_from (final_stub_source stubs.now float.now) fixings.now d }
    ensures small { IfSome result IsRate }
{
    match stubs {
        Some(stubs) => on_stub_or_index(&stubs.last, float, fixings, d),
        None => on_index(float, fixings, d),
    }
}

fn of_first_regular(float: &FloatTerms, fixings: &Fixings, d: Day) -> Option<i64>
    requires { IsLawfulFloat float.now }
    ensures value { result ≡ rate_from (initial_or_index float.now.initial_rate float.now) fixings.now d }
    ensures small { IfSome result IsRate }
{
    match float.initial_rate {
        Some(rate) => Some(rate),
        None => on_index(float, fixings, d),
    }
}

/// The observed rate of a period of this kind with the fixing date `d`; `None` where the fixings
/// have no line for it.
pub fn observed(
    kind: PeriodKind,
    float: &FloatTerms,
    stubs: &Option<StubTerms>,
    fixings: &Fixings,
    d: Day,
) -> Option<i64>
    requires float { IsLawfulFloat float.now }
    requires stubs { IfSome stubs.now IsLawfulStubs }
    ensures value { result ≡ observed_rate kind float.now stubs.now fixings.now d }
    ensures small { IfSome result IsRate }
{
    match kind {
        PeriodKind::InitialStub => of_initial_stub(stubs, float, fixings, d),
        PeriodKind::FinalStub => of_final_stub(stubs, float, fixings, d),
        PeriodKind::FirstRegular => of_first_regular(float, fixings, d),
        PeriodKind::LaterRegular => on_index(float, fixings, d),
    }
}
