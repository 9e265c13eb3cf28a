//! The balance that is carried from period to period of a payment. It is the sum of the amounts so
//! far, and the part of it that bears interest in later periods.
//!
//! Each part of an amount and each of the two sums is at most 10^14 units of currency in size. Rates
//! are at most 10. The first period outside these limits ends the calculation. Rates are tested
//! before they are multiplied, and parts before they are added, so that no product passes 128 bits.
ghost use Rattle.std.specs.Prelude.{◌≡◌, ◌+◌, ◌*◌, ◌-◌, ◌≤◌, pos, ◌≤ℤ◌, ◌+ℤ◌, ◌-ℤ◌, ◌*ℤ◌};
ghost use Rattle.std.specs.Prelude.{unsigned_abs, IfSome, IfNone, SomeIff, MatchBool, IsSome};
ghost use Rattle.irs_base.specs.Limits.{most_notional, most_rate};
ghost use Rattle.irs_terms.specs.Lawful.{IsNotional};
ghost use Rattle.irs_daycount.specs.Fractions.{act_act_denominator};
ghost use Rattle.irs_compound.specs.declared.periods.Parts.{Parts};
ghost use Rattle.irs_compound.specs.Amounts.{IsTermOver, StandsAt, PartsWithin, RatesWithin, amount, kept_of};
ghost use Rattle.irs_compound.specs.Amounts.{most_amount, most_exact};
ghost use Rattle.irs_compound.specs.Private.AmountLaws.{most_balance, most_product, BalanceFits, Takes, Stops};
ghost use Rattle.irs_compound.specs.Private.AmountLaws.{balance_after};

use crate::interest::{earned, interest};
use crate::periods::{Parts, PeriodTerm, Rates};
use irs_base::MOST_RATE;
use irs_terms::CompCode;

/// The greatest size of an amount: 10^14 units of currency, in units of 10^-6.
const MOST_AMOUNT: u128 = 100_000_000_000_000_000_000;

/// The same in units of 10^-13.
const MOST_EXACT: u128 = 1_000_000_000_000_000_000_000_000_000;

/// The balance of the periods so far: without compounding exact, in units of 10^-13 over the
/// denominator of the fractions, else in units of 10^-6.
#[derive(Clone, Copy)]
pub struct Balance {
    /// The sum of their amounts.
    pub sum: i128,
    /// The part of it that bears interest in later periods.
    pub kept: i128,
}

/// The balance with one more period, which has its rates; `None` where a rate, an amount or a sum
/// leaves the range.
pub fn next_balance(code: CompCode, p: &PeriodTerm, before: Balance) -> Option<Balance>
    requires term { IsTermOver p.now.frac.den p.now }
    requires priced { IsSome p.now.rates }
    requires before_fits { BalanceFits code p.now.frac.den before }
    ensures some { IfSome result (λ next. Takes code p.now before next) }
    ensures none { IfNone result (Stops code p.now before) }
{
    let rates = p.rates.unwrap();
    if !are_within(rates) {
        return None;
    }
    match code {
        CompCode::Simple => add_exact(before, exact_parts(p, rates), p.frac.den),
        CompCode::Straight => add_parts(code, before, straight_parts(p, rates, before.kept)),
        CompCode::Flat => add_parts(code, before, flat_parts(p, rates, before.kept)),
        CompCode::SpreadExclusive => add_parts(
            code,
            before,
            exclusive_parts(p, rates, before.kept),
        ),
    }
}

fn are_within(rates: Rates) -> bool
    ensures { MatchBool result (RatesWithin rates) (RatesWithin rates → ⊥) }
{
    rates.base.unsigned_abs() <= MOST_RATE && rates.all_in.unsigned_abs() <= MOST_RATE
}

// Without compounding: notional times rate times fraction.
fn exact_parts(p: &PeriodTerm, rates: Rates) -> Parts
    requires term { IsTermOver p.now.frac.den p.now }
    requires rates_fit { RatesWithin rates }
    ensures parts { StandsAt CompCode.Simple p.now rates (pos 0) result }
    ensures size { unsigned_abs result.main ≤ most_product }
{
    Parts {
        main: earned(p.notional, rates.all_in, p.frac),
        extra: 0,
    }
}

// Straight: the notional and all earlier amounts bear interest at the rate.
fn straight_parts(p: &PeriodTerm, rates: Rates, before: i128) -> Parts
    requires term { IsTermOver p.now.frac.den p.now }
    requires rates_fit { RatesWithin rates }
    requires before_fits { unsigned_abs before ≤ most_amount }
    ensures { StandsAt CompCode.Straight p.now rates before result }
{
    Parts {
        main: interest(grown_notional(p.notional, before), rates.all_in, p.frac),
        extra: 0,
    }
}

// Flat: the notional bears interest at the rate, all earlier amounts at the base rate.
fn flat_parts(p: &PeriodTerm, rates: Rates, before: i128) -> Parts
    requires term { IsTermOver p.now.frac.den p.now }
    requires rates_fit { RatesWithin rates }
    requires before_fits { unsigned_abs before ≤ most_amount }
    ensures { StandsAt CompCode.Flat p.now rates before result }
{
    Parts {
        main: interest(fine_notional(p.notional), rates.all_in, p.frac),
        extra: interest(before, rates.base, p.frac),
    }
}

// Spread exclusive: the notional and all earlier compounded parts bear interest at the base rate, the
// notional alone at what the rate is above it.
fn exclusive_parts(p: &PeriodTerm, rates: Rates, before: i128) -> Parts
    requires term { IsTermOver p.now.frac.den p.now }
    requires rates_fit { RatesWithin rates }
    requires before_fits { unsigned_abs before ≤ most_amount }
    ensures { StandsAt CompCode.SpreadExclusive p.now rates before result }
{
    Parts {
        main: interest(grown_notional(p.notional, before), rates.base, p.frac),
        extra: interest(fine_notional(p.notional), above_base(rates), p.frac),
    }
}

// The rate less the base rate.
fn above_base(rates: Rates) -> i64
    requires { RatesWithin rates }
    ensures value { result ≡ rates.all_in -ℤ rates.base }
    ensures size { unsigned_abs result ≤ 2 * most_rate }
{
    rates.all_in - rates.base
}

// The notional in units of 10^-6.
fn fine_notional(notional: i128) -> i128
    requires { IsNotional notional }
    ensures value { result ≡ pos 100 *ℤ notional }
    ensures size { unsigned_abs result ≤ 100 * most_notional }
{
    100 * notional
}

// The notional with what was earned before it, in units of 10^-6.
fn grown_notional(notional: i128, before: i128) -> i128
    requires notional_fits { IsNotional notional }
    requires before_fits { unsigned_abs before ≤ most_amount }
    ensures value { result ≡ pos 100 *ℤ notional +ℤ before }
    ensures size { unsigned_abs result ≤ most_balance }
{
    fine_notional(notional) + before
}

// The exact balance with one more term; nothing of it bears interest.
fn add_exact(before: Balance, parts: Parts, den: i64) -> Option<Balance>
    requires den_low { pos 1 ≤ℤ den }
    requires den_high { den ≤ℤ pos act_act_denominator }
    requires before_fits { unsigned_abs before.sum ≤ most_exact * unsigned_abs den }
    requires main_fits { unsigned_abs parts.main ≤ most_product }
    requires no_extra { parts.extra ≡ pos 0 }
    ensures { SomeIff result (unsigned_abs (before.sum +ℤ amount parts) ≤ most_exact * unsigned_abs den)
        (record { sum = before.sum +ℤ amount parts; kept = before.kept }) }
{
    let Some(sum) = exact_sum(before.sum, parts, den) else {
        return None;
    };
    Some(Balance {
        sum,
        kept: before.kept,
    })
}

fn exact_sum(before: i128, parts: Parts, den: i64) -> Option<i128>
    requires den_low { pos 1 ≤ℤ den }
    requires den_high { den ≤ℤ pos act_act_denominator }
    requires before_fits { unsigned_abs before ≤ most_exact * unsigned_abs den }
    requires main_fits { unsigned_abs parts.main ≤ most_product }
    requires no_extra { parts.extra ≡ pos 0 }
    ensures { SomeIff result (unsigned_abs (before +ℤ amount parts) ≤ most_exact * unsigned_abs den)
        (before +ℤ amount parts) }
{
    let sum = before + parts.main;
    if sum.unsigned_abs() <= MOST_EXACT * u128::from(den.unsigned_abs()) {
        Some(sum)
    } else {
        None
    }
}

// The compounded balance with the parts of one more period.
fn add_parts(code: CompCode, before: Balance, parts: Parts) -> Option<Balance>
    requires sum_fits { unsigned_abs before.sum ≤ most_amount }
    requires kept_fits { unsigned_abs before.kept ≤ most_amount }
    ensures { SomeIff result (PartsWithin parts (balance_after code before parts).sum (balance_after code before parts).kept)
        (balance_after code before parts) }
{
    if parts.main.unsigned_abs() > MOST_AMOUNT || parts.extra.unsigned_abs() > MOST_AMOUNT {
        return None;
    }
    add_amount(before, amount(parts), kept_of(code, parts))
}

// The part of a period's amount that bears interest in later periods.
fn kept_of(code: CompCode, parts: Parts) -> i128
    requires main_fits { unsigned_abs parts.main ≤ most_amount }
    requires extra_fits { unsigned_abs parts.extra ≤ most_amount }
    ensures value { result ≡ kept_of code parts }
    ensures size { unsigned_abs result ≤ 2 * most_amount }
{
    match code {
        CompCode::Simple => 0,
        CompCode::Straight => amount(parts),
        CompCode::Flat => amount(parts),
        CompCode::SpreadExclusive => parts.main,
    }
}

// The amount of a period.
fn amount(parts: Parts) -> i128
    requires main_fits { unsigned_abs parts.main ≤ most_amount }
    requires extra_fits { unsigned_abs parts.extra ≤ most_amount }
    ensures value { result ≡ amount parts }
    ensures size { unsigned_abs result ≤ 2 * most_amount }
{
    parts.main + parts.extra
}

// The balance with one more amount, of which `kept` bears interest; each may be two parts.
fn add_amount(before: Balance, amount: i128, kept: i128) -> Option<Balance>
    requires sum_fits { unsigned_abs before.sum ≤ most_amount }
    requires kept_fits { unsigned_abs before.kept ≤ most_amount }
    requires amount_fits { unsigned_abs amount ≤ 2 * most_amount }
    requires part_fits { unsigned_abs kept ≤ 2 * most_amount }
    ensures { SomeIff result
        ((unsigned_abs (before.sum +ℤ amount) ≤ most_amount) × (unsigned_abs (before.kept +ℤ kept) ≤ most_amount))
        (record { sum = before.sum +ℤ amount; kept = before.kept +ℤ kept }) }
{
    let Some(sum) = add_within(before.sum, amount) else {
        return None;
    };
    let Some(kept) = add_within(before.kept, kept) else {
        return None;
    };
    Some(Balance { sum, kept })
}

// A sum with one more amount, where it is in the range.
fn add_within(before: i128, amount: i128) -> Option<i128>
    requires before_fits { unsigned_abs before ≤ most_amount }
    requires amount_fits { unsigned_abs amount ≤ 2 * most_amount }
    ensures { SomeIff result (unsigned_abs (before +ℤ amount) ≤ most_amount) (before +ℤ amount) }
{
    let sum = before + amount;
    if sum.unsigned_abs() <= MOST_AMOUNT {
        Some(sum)
    } else {
        None
    }
}
