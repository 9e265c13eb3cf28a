//! Compounding as types: one for each code, and a trait for callers that work with any of them.
ghost use Rattle.std.specs.Prelude.{◌≡◌, ℕ, ℤ, ◌≤◌, List, nat_lt};
ghost use Rattle.irs_base.specs.Outcomes.{unless_broken};
ghost use Rattle.irs_terms.specs.declared.codes.CompCode.{CompCode};
ghost use Rattle.irs_compound.specs.declared.periods.PeriodTerm.{PeriodTerm};
ghost use Rattle.irs_compound.specs.Amounts.{IsPaymentOfTerms, AllPriced, PeriodPasses, Pays, code_for};
ghost use Rattle.irs_compound.specs.Amounts.{most_currency_places, MeetsPosition};
ghost use Rattle.irs_compound.specs.Private.AmountLaws.{one_amount_of, some_amount_of};

use crate::amounts::amount_by;
use crate::periods::PeriodTerm;
use irs_terms::CompCode;
use thiserror::Error;

/// A rate or an amount of a payment leaves the range (K39). A base rate or a rate passes 10 in size, or
/// an amount or a sum of amounts passes 10^14 units of currency. The first such period is named.
#[derive(Clone, Copy, Debug, Error)]
#[error("period {period} of the payment is out of range")]
pub struct OutOfRange {
    /// The position of the period in its payment, from 1.
    pub period: u32,
}

/// A way to compound the amounts of a payment.
pub trait Compounding {
    // The amount that periods pay, in units of 10^-places.
    ghost pays: { Self → List PeriodTerm → ℕ → ℤ → Type 0 };

    // The period at that position, from 1, leaves the range.
    ghost passes: { Self → List PeriodTerm → ℕ → Type 0 };

    /// The amount of a payment, in units of 10^-places. The payment has at least one period and at
    /// most `MOST_PERIODS`, with one denominator and all their rates. Each period has a lawful
    /// notional and a fraction of one of the seven day counts. `places` is at most 3. `OutOfRange` is
    /// the first period where a rate, an amount or a sum leaves the range.
    fn amount(&self, periods: &[PeriodTerm], places: u8) -> Result<i128, OutOfRange>
        requires payment { IsPaymentOfTerms periods.now }
        requires priced { AllPriced periods.now }
        requires places_fit { places ≤ most_currency_places }
        ensures { let amount_of = unless_broken nat_lt (passes self.now periods.now) (pays self.now periods.now places) in
            MeetsPosition amount_of result };

    // Periods pay at most one amount.
    ghost one_amount: { (s : Self) (ps : List PeriodTerm) (k : ℕ) (m n : ℤ)
        → IsPaymentOfTerms ps → pays s ps k m → pays s ps k n → m ≡ n };

    // Where all rates are there, they pay one.
    ghost some_amount: { (s : Self) (ps : List PeriodTerm) (k : ℕ)
        → IsPaymentOfTerms ps → AllPriced ps → (m : ℤ) × pays s ps k m };
}

/// No compounding: the sum of notional times rate times fraction, exact, rounded once.
#[derive(Clone, Copy)]
pub struct Simple;

impl Compounding for Simple {
    ghost pays = { λ s ps. Pays (code_for CompCode.Simple ps) ps };

    ghost passes = { λ s ps. PeriodPasses (code_for CompCode.Simple ps) ps };

    fn amount(&self, periods: &[PeriodTerm], places: u8) -> Result<i128, OutOfRange> {
        amount_by(CompCode::Simple, periods, places)
    }

    ghost one_amount = { λ s ps. one_amount_of (code_for CompCode.Simple ps) ps };

    ghost some_amount = { λ s ps. some_amount_of (code_for CompCode.Simple ps) ps };
}

/// Straight compounding: notional and all earlier amounts of the payment bear interest at the rate,
/// at 6 decimals.
#[derive(Clone, Copy)]
pub struct Straight;

impl Compounding for Straight {
    ghost pays = { λ s ps. Pays (code_for CompCode.Straight ps) ps };

    ghost passes = { λ s ps. PeriodPasses (code_for CompCode.Straight ps) ps };

    fn amount(&self, periods: &[PeriodTerm], places: u8) -> Result<i128, OutOfRange> {
        amount_by(CompCode::Straight, periods, places)
    }

    ghost one_amount = { λ s ps. one_amount_of (code_for CompCode.Straight ps) ps };

    ghost some_amount = { λ s ps. some_amount_of (code_for CompCode.Straight ps) ps };
}

/// Flat compounding: the notional bears interest at the rate, all earlier amounts of the payment at the
/// base rate, each at 6 decimals. That it is the base rate is our rule.
#[derive(Clone, Copy)]
pub struct Flat;

impl Compounding for Flat {
    ghost pays = { λ s ps. Pays (code_for CompCode.Flat ps) ps };

    ghost passes = { λ s ps. PeriodPasses (code_for CompCode.Flat ps) ps };

    fn amount(&self, periods: &[PeriodTerm], places: u8) -> Result<i128, OutOfRange> {
        amount_by(CompCode::Flat, periods, places)
    }

    ghost one_amount = { λ s ps. one_amount_of (code_for CompCode.Flat ps) ps };

    ghost some_amount = { λ s ps. some_amount_of (code_for CompCode.Flat ps) ps };
}

/// Compounding with the spread exclusive. The notional and all earlier compounded parts of the payment
/// bear interest at the base rate. The notional alone bears interest at the rate less the base rate.
/// Each is rounded to 6 decimals. The rule is our own choice.
#[derive(Clone, Copy)]
pub struct SpreadExclusive;

impl Compounding for SpreadExclusive {
    ghost pays = { λ s ps. Pays (code_for CompCode.SpreadExclusive ps) ps };

    ghost passes = { λ s ps. PeriodPasses (code_for CompCode.SpreadExclusive ps) ps };

    fn amount(&self, periods: &[PeriodTerm], places: u8) -> Result<i128, OutOfRange> {
        amount_by(CompCode::SpreadExclusive, periods, places)
    }

    ghost one_amount = { λ s ps. one_amount_of (code_for CompCode.SpreadExclusive ps) ps };

    ghost some_amount = { λ s ps. some_amount_of (code_for CompCode.SpreadExclusive ps) ps };
}
