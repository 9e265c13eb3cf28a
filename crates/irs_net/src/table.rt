//! The net of a schedule: one row for each date and currency on which something falls due.
//!
//! That exchanges and payments of one date and currency are netted is our rule.
ghost use Rattle.std.specs.Prelude.{◌≡◌, List, map, length, IfOk};
ghost use Rattle.irs_base.specs.Lists.{Every};
ghost use Rattle.irs_terms.specs.declared.currency.Currency.{Currency};
ghost use Rattle.irs_net.specs.Nets.{parts_of, NetRowHasPlaces, Net, parts_total, rows_total};
ghost use Rattle.irs_net.specs.Private.FoundParties.{row_of};
ghost use Rattle.irs_net.specs.declared.table.NetRow.{NetRow};

use crate::Sides;
use crate::parts::parts_of;
use crate::totals::{NetKey, NetTotal, NetTotals, totals_of};
use irs_base::{Day, Dec, Memory};
use irs_schedule::Schedule;
use irs_terms::{Currency, Listed};
use std::alloc::Global;

/// What falls due on a date in a currency.
#[derive(Clone, Copy)]
pub struct NetRow {
    /// The adjusted date.
    pub date: Day,
    /// The currency.
    pub currency: Currency,
    /// The sum of the amounts that are known, in the currency's decimals; positive where the party
    /// that pays stream 1 pays it.
    pub amount: Dec,
    /// How many amounts aren't known.
    pub unknown: u32,
}

/// Rows in order: by date, then by the bytes of the currency.
pub type NetTable = Listed<NetRow>;

fn row(key: &NetKey, total: &NetTotal) -> NetRow
    ensures { result ≡ row_of (key.now, total.now) }
{
    let currency = Currency {
        letters: key.letters,
    };
    NetRow {
        date: key.date,
        currency,
        amount: Dec {
            units: total.known,
            places: currency.places(),
        },
        unknown: total.unknown,
    }
}

fn table_of(alloc: Global, totals: &NetTotals) -> Result<NetTable, Memory>
    ensures { IfOk result (λ rows. rows ≡ map row_of totals.now.entries) }
{
    let mut table = NetTable::new(alloc);
    for (key, total) in totals {
        table.push(row(key, total))?;
    }
    Ok(table)
}

/// The net of a schedule whose streams have these sides. It has a row for each adjusted date and
/// currency on which an exchange or a payment falls due. The row has the sum of the amounts that
/// are known and the number of those that aren't. An amount keeps its sign in a stream that is paid
/// by the party which pays stream 1, and is negated in another. There is one such table, also where
/// memory ran out, which is the only cause of `Memory`.
pub fn net(alloc: Global, s: &Schedule, sides: &Sides) -> Result<NetTable, Memory>
    requires { sides.now.count ≡ length s.now }
    ensures ok { IfOk result (λ rows. Net s.now sides.now.forward rows) }
    // At every exit: there is a table of the schedule and the sides, and any two are equal.
    ensures exists { (rows : List NetRow) × Net s.now sides.now.forward rows }
    ensures one { (a b : List NetRow) → Net s.now sides.now.forward a → Net s.now sides.now.forward b → a ≡ b }
    // For each currency the rows add up to the sum of all known amounts.
    ensures adds_up { (currency : Currency) (rows : List NetRow) → Net s.now sides.now.forward rows
        → rows_total currency rows ≡ parts_total currency (parts_of s.now sides.now.forward) }
    ensures places { IfOk result (Every NetRowHasPlaces) }
{
    let parts = parts_of(alloc, s, sides)?;
    let totals = totals_of(alloc, &parts)?;
    table_of(alloc, &totals)
}
