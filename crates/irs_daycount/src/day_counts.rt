//! Day counts as types: one for each code, and a trait for what works with any of them.
ghost use Rattle.std.specs.Prelude.{◌≡◌, ℤ, Bool, ◌<ℤ◌};
ghost use Rattle.irs_terms.specs.declared.codes.DayCountCode.{DayCountCode};
ghost use Rattle.irs_terms.specs.declared.results.Frac.{Frac};
ghost use Rattle.irs_daycount.specs.Fractions.{Days, Fraction, days_of, fraction_of, denominator_of, IsNumerator};
ghost use Rattle.irs_daycount.specs.Private.FractionLaws.{one_fraction};

use crate::fractions::{days_by, fraction_by};
use irs_base::Day;
use irs_terms::{DayCountCode, Frac};

/// A day count: how many days a period has, and what fraction of a year it is. `s` is its start,
/// `e` its end, which is after `s`, and `last` says that the period is its stream's last.
pub trait DayCount {
    // The code whose rule the type follows.
    ghost code: { Self → DayCountCode };

    /// The days of the period.
    fn days(&self, s: Day, e: Day, last: bool) -> i64
        requires { s <ℤ e }
        ensures days { Days (code self.now) s e last result }
        ensures value { result ≡ days_of (code self.now) s e last };

    /// The fraction of the period.
    fn fraction(&self, s: Day, e: Day, last: bool) -> Frac
        requires { s <ℤ e }
        ensures fraction { Fraction (code self.now) s e last result }
        ensures value { result ≡ fraction_of (code self.now) s e last }
        ensures range { IsNumerator s e result.num }
        ensures denominator { result.den ≡ denominator_of (code self.now) };

    // A period has at most one fraction.
    ghost at_most_one: { (x : Self) (s e : ℤ) (last : Bool) (f g : Frac)
        → Fraction (code x) s e last f → Fraction (code x) s e last g → f ≡ g };
}

/// 1/1: each period is one year. Its days are actual days, which is our rule.
#[derive(Clone, Copy)]
pub struct OneOne;

impl DayCount for OneOne {
    ghost code = { λ x. DayCountCode.OneOne };

    fn days(&self, s: Day, e: Day, last: bool) -> i64 {
        days_by(DayCountCode::OneOne, s, e, last)
    }

    fn fraction(&self, s: Day, e: Day, last: bool) -> Frac {
        fraction_by(DayCountCode::OneOne, s, e, last)
    }

    ghost at_most_one = { λ x. one_fraction DayCountCode.OneOne };
}

/// ACT/ACT.ISDA: days of leap years over 366 and the other days over 365.
#[derive(Clone, Copy)]
pub struct ActActIsda;

impl DayCount for ActActIsda {
    ghost code = { λ x. DayCountCode.ActActIsda };

    fn days(&self, s: Day, e: Day, last: bool) -> i64 {
        days_by(DayCountCode::ActActIsda, s, e, last)
    }

    fn fraction(&self, s: Day, e: Day, last: bool) -> Frac {
        fraction_by(DayCountCode::ActActIsda, s, e, last)
    }

    ghost at_most_one = { λ x. one_fraction DayCountCode.ActActIsda };
}

/// ACT/365.FIXED: actual days over 365.
#[derive(Clone, Copy)]
pub struct Act365Fixed;

impl DayCount for Act365Fixed {
    ghost code = { λ x. DayCountCode.Act365Fixed };

    fn days(&self, s: Day, e: Day, last: bool) -> i64 {
        days_by(DayCountCode::Act365Fixed, s, e, last)
    }

    fn fraction(&self, s: Day, e: Day, last: bool) -> Frac {
        fraction_by(DayCountCode::Act365Fixed, s, e, last)
    }

    ghost at_most_one = { λ x. one_fraction DayCountCode.Act365Fixed };
}

/// ACT/360: actual days over 360.
#[derive(Clone, Copy)]
pub struct Act360;

impl DayCount for Act360 {
    ghost code = { λ x. DayCountCode.Act360 };

    fn days(&self, s: Day, e: Day, last: bool) -> i64 {
        days_by(DayCountCode::Act360, s, e, last)
    }

    fn fraction(&self, s: Day, e: Day, last: bool) -> Frac {
        fraction_by(DayCountCode::Act360, s, e, last)
    }

    ghost at_most_one = { λ x. one_fraction DayCountCode.Act360 };
}

/// 30/360, also known as Bond Basis.
#[derive(Clone, Copy)]
pub struct Thirty360;

impl DayCount for Thirty360 {
    ghost code = { λ x. DayCountCode.Thirty360 };

    fn days(&self, s: Day, e: Day, last: bool) -> i64 {
        days_by(DayCountCode::Thirty360, s, e, last)
    }

    fn fraction(&self, s: Day, e: Day, last: bool) -> Frac {
        fraction_by(DayCountCode::Thirty360, s, e, last)
    }

    ghost at_most_one = { λ x. one_fraction DayCountCode.Thirty360 };
}

/// 30E/360, also known as Eurobond Basis.
#[derive(Clone, Copy)]
pub struct ThirtyE360;

impl DayCount for ThirtyE360 {
    ghost code = { λ x. DayCountCode.ThirtyE360 };

    fn days(&self, s: Day, e: Day, last: bool) -> i64 {
        days_by(DayCountCode::ThirtyE360, s, e, last)
    }

    fn fraction(&self, s: Day, e: Day, last: bool) -> Frac {
        fraction_by(DayCountCode::ThirtyE360, s, e, last)
    }

    ghost at_most_one = { λ x. one_fraction DayCountCode.ThirtyE360 };
}

/// 30E/360.ISDA.
#[derive(Clone, Copy)]
pub struct ThirtyE360Isda;

impl DayCount for ThirtyE360Isda {
    ghost code = { λ x. DayCountCode.ThirtyE360Isda };

    fn days(&self, s: Day, e: Day, last: bool) -> i64 {
        days_by(DayCountCode::ThirtyE360Isda, s, e, last)
    }

    fn fraction(&self, s: Day, e: Day, last: bool) -> Frac {
        fraction_by(DayCountCode::ThirtyE360Isda, s, e, last)
    }

    ghost at_most_one = { λ x. one_fraction DayCountCode.ThirtyE360Isda };
}
