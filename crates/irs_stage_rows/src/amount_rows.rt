//! What is reported of the amount of a payment: the amount, `unknown`, or the first period that is
//! out of range.
//!
//! A row gives the compounding method, the periods with `;` between them, and the number of
//! decimals of the amount. A period is its notional, its base rate and its rate, or `unknown`, and
//! its day count fraction. `8000 * ` before a period repeats it that number of times.
ghost use Rattle.std.specs.Prelude.{IsTrue, All};
ghost use Rattle.irs_compound.specs.Amounts.{IsDayCountFraction, IsPaymentOfTerms, IsTermOver};
ghost use Rattle.irs_terms.specs.Lawful.{IsNotional};

use crate::telling::Told;
use crate::values::{fraction_of, rate_of};
use irs_base::{Dec, MOST_PERIODS, read_dec};
use irs_compound::{OutOfRange, PeriodTerm, Rates, payment_amount};
use irs_elements::codes::compounding;
use irs_terms::{CompCode, Frac};
use std::alloc::Global;

/// The greatest notional, in units of 10^-4.
const MOST_NOTIONAL: i128 = 100_000_000_000_000_000;

fn is_notional(value: i128) -> bool
    ensures { IsTrue result → IsNotional value }
{
    0 <= value && value <= MOST_NOTIONAL
}

// A row has no numerator above that of a leap year.
fn is_fraction(frac: Frac) -> bool
    ensures { IsTrue result → IsDayCountFraction frac }
{
    0 <= frac.num && frac.num <= 366 && 1 <= frac.den && frac.den <= 133_590
}

fn is_term(den: i64, p: &PeriodTerm) -> bool
    ensures { IsTrue result → IsTermOver den p.now }
{
    is_notional(p.notional) && is_fraction(p.frac) && p.frac.den == den
}

fn are_terms(den: i64, periods: &[PeriodTerm]) -> bool
    ensures { IsTrue result → All (IsTermOver den) periods.now }
{
    match periods {
        [] => true,
        [first, rest @ ..] => is_term(den, first) && are_terms(den, rest),
    }
}

// Whether there is a period, there are not too many, and all have one denominator.
fn is_payment(periods: &[PeriodTerm]) -> bool
    ensures { IsTrue result → IsPaymentOfTerms periods.now }
{
    match periods {
        [] => false,
        [first, ..] => {
            periods.len() <= MOST_PERIODS as usize && are_terms(first.frac.den, periods)
        }
    }
}

fn rates_of(text: &str) -> Option<Option<Rates>> {
    if text == "unknown" {
        return Some(None);
    }
    let (base, all_in) = text.split_once(' ')?;
    Some(Some(Rates {
        base: rate_of(base)?,
        all_in: rate_of(all_in)?,
    }))
}

fn period_of(text: &str) -> Option<PeriodTerm> {
    let (notional, rest) = text.split_once(' ')?;
    let (rates, fraction) = rest.rsplit_once(' ')?;
    Some(PeriodTerm {
        notional: read_dec(notional.as_bytes(), 4)?,
        rates: rates_of(rates)?,
        frac: fraction_of(fraction)?,
    })
}

// A period, as many times as its text says.
fn push_repeated(periods: &mut Vec<PeriodTerm>, text: &str) -> Option<()> {
    let (count, text) = text.split_once(" * ").unwrap_or(("1", text));
    let period = period_of(text)?;
    for _ in 0..count.parse::<u32>().ok()? {
        periods.push(period).ok()?;
    }
    Some(())
}

fn push_periods(periods: &mut Vec<PeriodTerm>, text: &str) -> Option<()> {
    for each in text.split(" ; ") {
        push_repeated(periods, each)?;
    }
    Some(())
}

fn answer_told(told: &mut Told, answer: Result<Option<i128>, OutOfRange>, places: u8) {
    match answer {
        Ok(Some(units)) => told.dec("", Dec { units, places }),
        Ok(None) => told.text("unknown"),
        Err(out) => told.number("out of range in period ", out.period),
    }
    told.end();
}

fn amount_told(told: &mut Told, code: CompCode, periods: &[PeriodTerm], places: u8) -> Option<()> {
    if places > 3 || !is_payment(periods) {
        return None;
    }
    answer_told(told, payment_amount(code, periods, places), places);
    Some(())
}

/// The amount of a payment.
pub fn amount_lines(told: &mut Told, alloc: Global, row: &str) -> Option<()> {
    let (method, rest) = row.split_once(" | ")?;
    let (texts, places) = rest.split_once(" | ")?;
    let (code, places) = (compounding(method)?, places.parse::<u8>().ok()?);
    let mut periods = Vec::new(alloc);
    push_periods(&mut periods, texts)?;
    amount_told(told, code, &periods, places)
}
