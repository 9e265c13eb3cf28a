//! What falls due between the two parties: the exchanges and payments of a schedule's streams. Each
//! is on its adjusted date, with its sign between the two parties.
ghost use Rattle.std.specs.Prelude.{◌≡◌, ◌++◌, ◌≤◌, map, length, IfOk, IfSome, OnOk, unsigned_abs, option_map};
ghost use Rattle.irs_base.specs.Lists.{Every};
ghost use Rattle.irs_schedule.specs.Parts.{HasAmount, IsAmount};
ghost use Rattle.irs_net.specs.Nets.{exchange_part, payment_part, parts_of, signed, net_parts_of};
ghost use Rattle.irs_net.specs.Private.FoundParties.{IsSmall, most_parts, most_units};

use crate::Sides;
use irs_base::{Day, Dec, Memory};
use irs_schedule::{PaymentEntry, Schedule, StreamPart};
use irs_terms::{Currency, Exchange};
use std::alloc::Global;

/// An exchange or a payment: its adjusted date, its currency, and its amount in the currency's
/// decimals where it is known. The amount is positive where the party that pays stream 1 pays it.
#[derive(Clone, Copy)]
pub(crate) struct NetPart {
    /// The adjusted date on which it falls due.
    pub(crate) date: Day,
    /// The currency in which it is paid.
    pub(crate) currency: Currency,
    /// The amount in units of the currency's last decimal; `None` where a rate isn't known.
    pub(crate) units: Option<i128>,
}

// An amount with its sign between the two parties.
fn signed(forward: bool, units: i128) -> i128
    requires { unsigned_abs units ≤ most_units }
    ensures { result ≡ signed forward units }
{
    if forward { units } else { -units }
}

fn exchange_part(currency: Currency, forward: bool, x: &Exchange) -> NetPart
    requires { IsAmount currency x.now.amount }
    ensures { result ≡ exchange_part currency forward x.now }
{
    NetPart {
        date: x.adjusted,
        currency,
        units: Some(signed(forward, x.amount.units)),
    }
}

fn signed_amount(currency: Currency, forward: bool, amount: Option<Dec>) -> Option<i128>
    requires { IfSome amount (IsAmount currency) }
    ensures { result ≡ option_map (λ v. signed forward v.units) amount }
{
    match amount {
        Some(v) => Some(signed(forward, v.units)),
        None => None,
    }
}

fn payment_part(currency: Currency, forward: bool, y: &PaymentEntry) -> NetPart
    requires { HasAmount currency y.now }
    ensures { result ≡ payment_part currency forward y.now }
{
    NetPart {
        date: y.adjusted,
        currency,
        units: signed_amount(currency, forward, y.amount),
    }
}

fn add_exchanges(
    parts: &mut Vec<NetPart>,
    currency: Currency,
    forward: bool,
    exchanges: &[Exchange],
) -> Result<(), Memory>
    requires { Every (λ x. IsAmount currency x.amount) exchanges.now }
    ensures { OnOk result (parts.new.items ≡ parts.old.items ++ map (exchange_part currency forward) exchanges.now) }
{
    for x in exchanges {
        parts.push(exchange_part(currency, forward, x))?;
    }
    Ok(())
}

fn add_payments(
    parts: &mut Vec<NetPart>,
    currency: Currency,
    forward: bool,
    payments: &[PaymentEntry],
) -> Result<(), Memory>
    requires { Every (HasAmount currency) payments.now }
    ensures { OnOk result (parts.new.items ≡ parts.old.items ++ map (payment_part currency forward) payments.now) }
{
    for y in payments {
        parts.push(payment_part(currency, forward, y))?;
    }
    Ok(())
}

fn add_stream(parts: &mut Vec<NetPart>, forward: bool, stream: &StreamPart) -> Result<(), Memory>
    ensures { OnOk result (parts.new.items ≡ parts.old.items ++ net_parts_of forward stream.now) }
{
    let currency = stream.currency();
    add_exchanges(parts, currency, forward, stream.exchanges())?;
    add_payments(parts, currency, forward, stream.payments())
}

/// All exchanges and payments of a schedule, stream by stream.
pub(crate) fn parts_of(alloc: Global, s: &Schedule, sides: &Sides) -> Result<Vec<NetPart>, Memory>
    ensures parts { IfOk result (λ v. v.items ≡ parts_of s.now sides.now.forward) }
    ensures few { length (parts_of s.now sides.now.forward) ≤ most_parts }
    ensures small { Every IsSmall (parts_of s.now sides.now.forward) }
{
    let mut parts = Vec::new(alloc);
    for (i, stream) in s.streams().iter().enumerate() {
        add_stream(&mut parts, sides.forward[i], stream)?;
    }
    Ok(parts)
}
