//! Principal exchanges: the notional is exchanged at the start, where it changes, and at the end.
//!
//! At the start the payer receives the notional, and at the end pays it back (FpML
//! `principalExchanges`). The start is the effective date, also where the first calculation period
//! begins before it. The dates of exchanges are our rule, and so is the sign where the notional
//! changes at a step. The payer pays what the notional falls by, and receives what it rises by.
ghost use Rattle.std.specs.Prelude.{◌≡◌, ◌-◌, ◌^◌, ◌≤◌, ◌++◌, [], ◌∷◌, ℤ, pos, ◌<ℤ◌, ◌≤ℤ◌, unsigned_abs, List};
ghost use Rattle.std.specs.Prelude.{IfNone, IfSome, Some};
ghost use Rattle.irs_base.specs.Limits.{most_exchanges, most_notional, Rounded};
ghost use Rattle.irs_base.specs.Outcomes.{Determined, IfMemory, Meets, MeetsExactly};
ghost use Rattle.irs_terms.specs.declared.places.Fault.{Fault};
ghost use Rattle.irs_base.specs.declared.rounding.Direction.TheVariants.{Nearest};
ghost use Rattle.irs_terms.specs.Lawful.{IsLawfulStream, IsLawfulValues, IsNotional};
ghost use Rattle.irs_terms.specs.declared.results.Exchange.{Exchange};
ghost use Rattle.irs_payments.specs.Exchanges.{initial_of, change, intermediate_of, last_value, final_of};
ghost use Rattle.irs_payments.specs.Exchanges.{BreaksExchanges, IsExchange, LacksTransferDay};
ghost use Rattle.irs_payments.specs.Private.Dating.{ListsUpTo, listing_to, listed_transfer};
ghost use Rattle.irs_payments.specs.Payments.{principals_of};
ghost use Rattle.irs_payments.specs.declared.exchanges.Transfer.{Transfer};

use crate::PayErr;
use crate::faults::fault;
use irs_adjust::adjust_by;
use irs_base::{Day, Dec, Direction, round};
use irs_calendar::GoodDays;
use irs_terms::{Elem, Exchange, Exchanges, Fault, Rule, Step, StepValues, Stream};
use std::alloc::Global;

/// What the payer pays on a date, in units of 10^-4 of the currency; negative where it receives.
#[derive(Clone, Copy)]
pub struct Transfer {
    /// Before it is adjusted.
    pub date: Day,
    /// In units of 10^-4, before it is rounded.
    pub amount: i128,
}

/// The exchanges listed so far. The list is absent where memory ran out: the dates of later exchanges
/// still count, so that running out of memory hides no broken rule.
#[derive(Drop)]
pub struct Listing {
    /// The number of exchanges so far.
    pub number: usize,
    /// The exchanges, unless memory ran out.
    pub list: Option<Exchanges>,
}

// The initial exchange.
fn initial(s: &Stream) -> Option<Transfer>
    requires { IsLawfulStream s.now }
    ensures { listed_transfer result ≡ initial_of s.now }
{
    if s.exchanges.initial {
        Some(Transfer {
            date: s.effective.day,
            amount: -s.notional.initial,
        })
    } else {
        None
    }
}

// The exchange at one step.
fn change(before: i128, step: &Step) -> Option<Transfer>
    requires before { IsNotional before }
    requires value { IsNotional step.now.value }
    ensures { listed_transfer result ≡ change before step.now }
{
    if step.value != before {
        Some(Transfer {
            date: step.day,
            amount: before - step.value,
        })
    } else {
        None
    }
}

// The notional at the end.
fn last_notional(notional: &StepValues) -> i128
    requires { IsLawfulValues IsNotional notional.now }
    ensures value { result ≡ last_value notional.now.initial notional.now.steps }
    ensures range { IsNotional result }
{
    let mut value = notional.initial;
    let steps = notional.steps.as_slice();
    for step in steps {
        value = step.value;
    }
    value
}

// The final exchange.
fn last(s: &Stream) -> Option<Transfer>
    requires { IsLawfulStream s.now }
    ensures { listed_transfer result ≡ final_of s.now }
{
    if s.exchanges.last {
        Some(Transfer {
            date: s.termination.day,
            amount: last_notional(&s.notional),
        })
    } else {
        None
    }
}

// The number of units of 10^-4 in one unit of the last decimal.
fn unit(places: u8) -> i128
    requires { places ≤ 4 }
    ensures value { result ≡ pos (10 ^ (4 - places)) }
    ensures positive { pos 0 <ℤ result }
    ensures high { result ≤ℤ pos 10_000 }
{
    match places {
        0 => 10_000,
        1 => 1_000,
        2 => 100,
        3 => 10,
        _ => 1,
    }
}

// An amount in units of 10^-4, rounded to this number of decimals.
fn rounded_amount(amount: i128, places: u8) -> Dec
    requires places { places ≤ 4 }
    requires small { unsigned_abs amount ≤ most_notional }
    ensures places { result.places ≡ places }
    ensures units { Rounded Nearest amount (pos (10 ^ (4 - places))) result.units }
{
    Dec {
        units: round(Direction::Nearest, amount, unit(places)),
        places,
    }
}

// The exchange on its adjusted date, with its rounded amount.
fn exchange<G: GoodDays>(s: &Stream, days: &G, transfer: Transfer) -> Option<Exchange>
    requires { unsigned_abs transfer.amount ≤ most_notional }
    ensures some { IfSome result (IsExchange s.now (G.days days.now) transfer) }
    ensures none { IfNone result (LacksTransferDay s.now (G.days days.now) transfer) }
{
    let adjusted = adjust_by(s.pay.adj.code, days, transfer.date)?;
    Some(Exchange {
        unadjusted: transfer.date,
        adjusted,
        amount: rounded_amount(transfer.amount, s.currency.places()),
    })
}

// The list with an exchange appended, unless memory ran out.
fn push(list: Option<Exchanges>, exchange: Exchange) -> Option<Exchanges>
    ensures { IfSome result (λ xs. (before : List Exchange) × (list ≡ Some before) × (xs ≡ before ++ exchange ∷ [])) }
{
    let mut list = list?;
    let Ok(()) = list.push(exchange) else {
        return None;
    };
    Some(list)
}

// The exchanges with the next one, where there is one; or K33 of it.
fn add<G: GoodDays>(
    s: &Stream,
    days: &G,
    listing: Listing,
    transfer: Option<Transfer>,
) -> Result<Listing, Fault>
    requires few { listing.number ≤ most_exchanges }
    requires small { IfSome transfer (λ t. unsigned_abs t.amount ≤ most_notional) }
    ensures { (left : List Transfer) → ListsUpTo s.now (G.days days.now) (listed_transfer transfer ++ left) listing →
        MeetsExactly (listing_to s.now (G.days days.now) left) result }
{
    let Some(transfer) = transfer else {
        return Ok(listing);
    };
    let number = listing.number + 1;
    match exchange(s, days, transfer) {
        Some(exchange) => Ok(Listing {
            number,
            list: push(listing.list, exchange),
        }),
        None => Err(fault(Rule::K33, Elem::PRINCIPAL_EXCHANGES, number)),
    }
}

// The exchanges with those at the steps of the notional, where there are intermediate ones.
fn add_steps<G: GoodDays>(s: &Stream, days: &G, listing: Listing) -> Result<Listing, Fault>
    requires lawful { IsLawfulStream s.now }
    requires listing { ListsUpTo s.now (G.days days.now) (intermediate_of s.now ++ final_of s.now) listing }
    ensures { MeetsExactly (listing_to s.now (G.days days.now) (final_of s.now)) result }
{
    if !s.exchanges.intermediate {
        return Ok(listing);
    }
    let mut listing = listing;
    let mut before = s.notional.initial;
    let steps = s.notional.steps.as_slice();
    for step in steps {
        listing = add(s, days, listing, change(before, step))?;
        before = step.value;
    }
    Ok(listing)
}

// All exchanges of a stream, or K33 of the first one whose date has no adjusted day.
fn list_all<G: GoodDays>(alloc: Global, s: &Stream, days: &G) -> Result<Listing, Fault>
    requires { IsLawfulStream s.now }
    ensures { MeetsExactly (listing_to s.now (G.days days.now) []) result }
{
    let none = Listing {
        number: 0,
        list: Some(Exchanges::new(alloc)),
    };
    let first = add(s, days, none, initial(s))?;
    let listing = add_steps(s, days, first)?;
    add(s, days, listing, last(s))
}

/// The principal exchanges of a stream, in order. The initial one is at the effective date, and the
/// final one at the termination date. Between them one is at each step that changes the notional.
/// Each part is there if its flag is true. The adjusted date is the date adjusted by
/// `paymentDatesAdjustments`, whose business days are `days`. The amount, with its sign, is rounded
/// Nearest to the decimals of the currency.
///
/// `Broken` is K33 of the first exchange whose date has no adjusted day, with its number from 1. It is
/// reported also where memory runs out.
pub fn principals<G: GoodDays>(alloc: Global, s: &Stream, days: &G) -> Result<Exchanges, PayErr>
    requires { IsLawfulStream s.now }
    ensures meets { Meets (principals_of s.now (G.days days.now)) result }
    // Running out of memory hides no broken rule.
    ensures memory { IfMemory result ((f : Fault) → BreaksExchanges s.now (G.days days.now) f → ⊥) }
{
    match list_all(alloc, s, days) {
        Err(missing) => Err(PayErr::Broken(missing)),
        Ok(listing) => match listing.list {
            Some(list) => Ok(list),
            None => Err(PayErr::Memory),
        },
    }
}

/// A law: a stream has one list of principal exchanges, or one first exchange whose date has no
/// adjusted day.
pub fn principals_are_determined<G: GoodDays>(s: &Stream, days: &G)
    requires { IsLawfulStream s.now }
    ensures { Determined (principals_of s.now (G.days days.now)) }
{
    // hands the prover that the days of the cover are in the range of dates
    let _cover = days.cover();
}
