//! Where the observed rate of a calculation period comes from (FpML `stubRate`, `initialRate`,
//! `floatingRateIndex` and `calculationParameters`).
//!
//! A stub with a rate of its own has that rate. Every other period of a stream with calculation
//! parameters has the rate of its daily rates. Without them the first regular period has the initial
//! rate where one is given, and the others have a fixing.
ghost use Rattle.std.specs.Prelude.{◌≡◌, IfNone, IfSome};
ghost use Rattle.irs_terms.specs.Lawful.{IsLawfulStubRate, IsLawfulStubs, IsRate};
ghost use Rattle.irs_observed.specs.OvernightRates.{HasOwnRate, IsOrigin, StatesRate};
ghost use Rattle.irs_observed.specs.Private.OvernightRates.{own_of, own_rate_of};

use irs_resets::PeriodKind;
use irs_terms::{FloatTerms, StubRate, StubTerms};

/// Where the observed rate of a calculation period comes from.
#[derive(Clone, Copy, Debug, PartialEq, Eq)]
pub enum RateOrigin {
    /// The rate that is stated for a stub (FpML `stubRate`).
    StubRate,
    /// The rate that is stated for the first regular period (FpML `initialRate`).
    InitialRate,
    /// A line of the fixings: of the stream's index, or of a stub's.
    Fixing,
    /// Daily rates, compounded or averaged (FpML `calculationParameters`).
    DailyRates,
}

// The rate that is stated for a stub; `None` where none or an index is.
fn own(stub: &Option<StubRate>) -> Option<i64>
    requires { IfSome stub.now IsLawfulStubRate }
    ensures value { result ≡ own_of stub.now }
    ensures small { IfSome result IsRate }
{
    match stub {
        Some(StubRate::Fixed(rate)) => Some(*rate),
        Some(StubRate::Index(_, _)) => None,
        None => None,
    }
}

// The same of the stub that a period is.
fn own_by(kind: PeriodKind, stubs: &StubTerms) -> Option<i64>
    requires { IsLawfulStubs stubs.now }
    ensures value { result ≡ own_rate_of kind (Some stubs.now) }
    ensures small { IfSome result IsRate }
{
    match kind {
        PeriodKind::InitialStub => own(&stubs.initial),
        PeriodKind::FinalStub => own(&stubs.last),
        PeriodKind::FirstRegular | PeriodKind::LaterRegular => None,
    }
}

/// The rate that is stated for the stub that a period is, in units of 10^-9. It is `None` exactly if
/// the period is no stub, or no rate is stated for it.
pub fn own_rate(kind: PeriodKind, stubs: &Option<StubTerms>) -> Option<i64>
    requires { IfSome stubs.now IsLawfulStubs }
    ensures some { IfSome result (StatesRate kind stubs.now) }
    ensures none { IfNone result (HasOwnRate kind stubs.now → ⊥) }
    ensures small { IfSome result IsRate }
{
    own_rate_by(kind, stubs)
}

fn own_rate_by(kind: PeriodKind, stubs: &Option<StubTerms>) -> Option<i64>
    requires { IfSome stubs.now IsLawfulStubs }
    ensures value { result ≡ own_rate_of kind stubs.now }
    ensures small { IfSome result IsRate }
{
    match stubs {
        Some(stubs) => own_by(kind, stubs),
        None => None,
    }
}

/// Where the observed rate of a period of this kind comes from.
pub fn rate_origin(kind: PeriodKind, float: &FloatTerms, stubs: &Option<StubTerms>) -> RateOrigin
    requires { IfSome stubs.now IsLawfulStubs }
    ensures { IsOrigin kind float.now stubs.now result }
{
    if own_rate(kind, stubs).is_some() {
        return RateOrigin::StubRate;
    }
    if float.parameters.is_some() {
        return RateOrigin::DailyRates;
    }
    if kind == PeriodKind::FirstRegular && float.initial_rate.is_some() {
        return RateOrigin::InitialRate;
    }
    RateOrigin::Fixing
}
