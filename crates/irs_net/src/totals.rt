//! Totals by date and currency.
ghost use Rattle.std.specs.Prelude.{◌≡◌, ◌≤◌, length, IfOk, IfSome, unwrap_or, unsigned_abs};
ghost use Rattle.std.specs.BTreeMap.{IsOrdered, get};
ghost use Rattle.irs_base.specs.Lists.{Every};
ghost use Rattle.irs_net.specs.Nets.{key_order, part_key};
ghost use Rattle.irs_net.specs.Private.FoundParties.{IsSmall, most_parts, most_total, most_units, no_total, total_at};
ghost use Rattle.irs_net.specs.Private.FoundParties.{total_with};
ghost use Rattle.irs_net.specs.declared.totals.NetKey.{NetKey};

use crate::parts::NetPart;
use irs_base::{Day, Memory};
use std::alloc::Global;
use std::collections::BTreeMap;

/// A date and the letters of a currency, in the order of rows.
#[derive(Clone, Copy, PartialEq, Eq, PartialOrd, Ord)]
pub(crate) struct NetKey {
    /// The adjusted date; it orders rows first.
    pub(crate) date: Day,
    /// The three capital letters of the currency (ISO 4217).
    pub(crate) letters: [u8; 3],
}

/// The sum of the amounts that are known, and how many aren't.
#[derive(Clone, Copy)]
pub(crate) struct NetTotal {
    /// The sum of the known amounts, in units of the currency's last decimal.
    pub(crate) known: i128,
    /// How many amounts aren't known.
    pub(crate) unknown: u32,
}

/// The totals of dates and currencies.
pub(crate) type NetTotals = BTreeMap<NetKey, NetTotal>;

fn key_of(part: &NetPart) -> NetKey
    ensures { result ≡ part_key part.now }
{
    NetKey {
        date: part.date,
        letters: part.currency.letters,
    }
}

// The total so far; none was added where the key is new.
fn total_so_far(totals: &NetTotals, key: &NetKey) -> NetTotal
    ensures { result ≡ unwrap_or (get key_order totals.now key.now) no_total }
{
    match totals.get(key) {
        Some(total) => *total,
        None => NetTotal {
            known: 0,
            unknown: 0,
        },
    }
}

// Adds one amount.
fn total_with(total: NetTotal, units: Option<i128>) -> NetTotal
    requires known { unsigned_abs total.known ≤ most_total }
    requires unknown { total.unknown ≤ most_parts }
    requires small { IfSome units (λ u. unsigned_abs u ≤ most_units) }
    ensures { result ≡ total_with total units }
{
    match units {
        Some(units) => NetTotal {
            known: total.known + units,
            unknown: total.unknown,
        },
        None => NetTotal {
            known: total.known,
            unknown: total.unknown + 1,
        },
    }
}

/// The totals of parts.
pub(crate) fn totals_of(alloc: Global, parts: &[NetPart]) -> Result<NetTotals, Memory>
    requires few { length parts.now ≤ most_parts }
    requires small { Every IsSmall parts.now }
    ensures ordered { IfOk result (λ m. IsOrdered key_order m) }
    ensures totals { IfOk result (λ m. (key : NetKey) → get key_order m key ≡ total_at parts.now key) }
{
    let mut totals = BTreeMap::new(alloc);
    for part in parts {
        let key = key_of(part);
        let total = total_with(total_so_far(&totals, &key), part.units);
        totals.insert(key, total)?;
    }
    Ok(totals)
}
