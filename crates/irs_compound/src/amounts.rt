//! The amount of a payment: the sum over its periods, rounded once to the decimals of its currency.
ghost use Rattle.std.specs.Prelude.{◌≡◌, ◌-◌, ◌≤◌, IfOk, IfErr, length, nat_lt, pos, ◌≤ℤ◌};
ghost use Rattle.irs_base.specs.Outcomes.{First};
ghost use Rattle.irs_daycount.specs.Fractions.{act_act_denominator};
ghost use Rattle.irs_compound.specs.Amounts.{IsPaymentOfTerms, AllPriced, PeriodPasses, RoundedAt, code_for};
ghost use Rattle.irs_compound.specs.Amounts.{most_currency_places, MeetsPosition};
ghost use Rattle.irs_compound.specs.Private.AmountLaws.{BalanceFits, Balances, pay_of};

use crate::balances::{Balance, next_balance};
use crate::compounding::OutOfRange;
use crate::periods::PeriodTerm;
use crate::products::{finer, ten_to};
use irs_base::{Direction, round};
use irs_terms::CompCode;

/// The amount of a payment that has all its rates, in units of 10^-places, or the first period that
/// leaves the range. One period is never compounded.
pub fn amount_by(code: CompCode, periods: &[PeriodTerm], places: u8) -> Result<i128, OutOfRange>
    requires payment { IsPaymentOfTerms periods.now }
    requires priced { AllPriced periods.now }
    requires places_fit { places ≤ most_currency_places }
    ensures { MeetsPosition (pay_of (code_for code periods.now) periods.now places) result }
{
    compounded(code_for(code, periods), periods, places)
}

fn code_for(code: CompCode, periods: &[PeriodTerm]) -> CompCode
    ensures { result ≡ code_for code periods.now }
{
    if periods.len() == 1 {
        CompCode::Simple
    } else {
        code
    }
}

fn compounded(code: CompCode, periods: &[PeriodTerm], places: u8) -> Result<i128, OutOfRange>
    requires payment { IsPaymentOfTerms periods.now }
    requires priced { AllPriced periods.now }
    requires places_fit { places ≤ most_currency_places }
    ensures { MeetsPosition (pay_of code periods.now places) result }
{
    let balance = balance_of(code, periods)?;
    Ok(rounded_sum(code, balance, periods[0].frac.den, places))
}

// The balance over all periods of a payment.
fn balance_of(code: CompCode, periods: &[PeriodTerm]) -> Result<Balance, OutOfRange>
    requires payment { IsPaymentOfTerms periods.now }
    requires priced { AllPriced periods.now }
    ensures ok { IfOk result (λ b. Balances code periods.now (length periods.now) b) }
    ensures out { IfErr result (λ e. First nat_lt (PeriodPasses code periods.now) e.period) }
{
    let mut balance = Balance { sum: 0, kept: 0 };
    let mut position: u32 = 0;
    for p in periods {
        position += 1;
        match next_balance(code, p, balance) {
            Some(next) => balance = next,
            None => return Err(OutOfRange { period: position }),
        }
    }
    Ok(balance)
}

// The sum to the nearest unit of 10^-places. Without compounding the sum is a numerator over `den`.
fn rounded_sum(code: CompCode, balance: Balance, den: i64, places: u8) -> i128
    requires den_low { pos 1 ≤ℤ den }
    requires den_high { den ≤ℤ pos act_act_denominator }
    requires balance_fits { BalanceFits code den balance }
    requires places_fit { places ≤ most_currency_places }
    ensures { RoundedAt code den balance.sum places result }
{
    match code {
        CompCode::Simple => round(Direction::Nearest, balance.sum, finer(den, 13 - places)),
        CompCode::Straight => round(Direction::Nearest, balance.sum, ten_to(6 - places)),
        CompCode::Flat => round(Direction::Nearest, balance.sum, ten_to(6 - places)),
        CompCode::SpreadExclusive => round(Direction::Nearest, balance.sum, ten_to(6 - places)),
    }
}
