//! The amount of a payment by the code of its compounding, with or without all its rates: the 2006
//! ISDA Definitions, articles 5 and 6.
ghost use Rattle.std.specs.Prelude.{◌≡◌, ◌≤◌, ℕ, ℤ, List, length, Option, IfSome, MatchBool, unsigned_abs};
ghost use Rattle.irs_base.specs.Outcomes.{Determined};
ghost use Rattle.irs_compound.specs.declared.periods.Parts.{Parts};
ghost use Rattle.irs_compound.specs.Amounts.{IsPaymentOfTerms, AllPriced, SomeUnpriced, IsOutOfRange, Follows};
ghost use Rattle.irs_compound.specs.Amounts.{most_currency_places, most_units, MeetsPosition, payment_amount_of};

use crate::amounts::amount_by;
use crate::compounding::OutOfRange;
use crate::periods::PeriodTerm;
use irs_terms::CompCode;

/// The amount of a payment in units of 10^-places, by the code of its compounding (FpML
/// `compoundingMethod`); one period is never compounded. The conditions are those of
/// `Compounding::amount`, but that rates may be absent: `Ok(None)` comes where those of a period are.
/// Where all are there, `OutOfRange` is the first period where a rate, an amount or a sum leaves the
/// range (K39). No memory is taken.
pub fn payment_amount(
    code: CompCode,
    periods: &[PeriodTerm],
    places: u8,
) -> Result<Option<i128>, OutOfRange>
    requires payment { IsPaymentOfTerms periods.now }
    requires places_fit { places ≤ most_currency_places }
    ensures meets { MeetsPosition (payment_amount_of code periods.now places) result }
{
    if !all_priced(periods) {
        return Ok(None);
    }
    match amount_by(code, periods, places) {
        Ok(amount) => Ok(Some(amount)),
        Err(out) => Err(out),
    }
}

/// A law: a payment has one amount, present or absent, or one first period that leaves the range. There
/// is one list of what each of its periods adds.
pub fn payment_amount_is_determined(code: CompCode, periods: &[PeriodTerm], places: u8)
    requires { IsPaymentOfTerms periods.now }
    ensures determined { Determined (payment_amount_of code periods.now places) }
    ensures one_list { (cs ds : List Parts) → Follows code periods.now cs → Follows code periods.now ds → cs ≡ ds }
{}

/// A law: an amount is at most 10^14 units of currency in size, and a position that leaves the range is
/// one of the payment's.
pub fn payment_amount_is_bounded(code: CompCode, periods: &[PeriodTerm], places: u8)
    requires payment { IsPaymentOfTerms periods.now }
    requires places_fit { places ≤ most_currency_places }
    ensures size { (m : Option ℤ) → (payment_amount_of code periods.now places).Answers m
        → IfSome m (λ units. unsigned_abs units ≤ most_units places) }
    ensures position { (n : ℕ) → IsOutOfRange code periods.now n → (1 ≤ n) × (n ≤ length periods.now) }
{}

fn all_priced(periods: &[PeriodTerm]) -> bool
    ensures { MatchBool result (AllPriced periods.now) (SomeUnpriced periods.now) }
{
    for p in periods {
        if p.rates.is_none() {
            return false;
        }
    }
    true
}
