//! The leaves of cash flows as elements: dates, numbers and currencies. A date is `YYYY-MM-DD`. An
//! amount has the currency's decimals, a notional 4, a rate 9 and a fraction 10.
ghost use Rattle.std.specs.Prelude.{◌≡◌, ◌++◌, ◌≤◌, ◌<◌, ◌<ℤ◌, ◌*ℤ◌, ◌^◌, IfSome, OnOk, pos, unsigned_abs};
ghost use Rattle.irs_base.specs.Texts.{most_places};
ghost use Rattle.irs_emit_xml.specs.Flows.{amount_node, count_node, currency_node, day_node, fraction_node, known};
ghost use Rattle.irs_emit_xml.specs.Flows.{notional_node, number_node, rate_node};
ghost use Rattle.irs_emit_xml.specs.Private.Flows.{lines};
ghost use Rattle.irs_emit_xml.specs.Trees.{node_text};
ghost use Rattle.irs_schedule.specs.RowsOf.{IsFew};

use crate::writer::leaf;
use irs_base::{Day, Dec, Direction, Line, Memory, day_digits, round};
use irs_terms::{Currency, Frac};

/// The decimals of a notional.
const NOTIONAL_PLACES: u8 = 4;

/// The decimals of a rate.
const RATE_PLACES: u8 = 9;

/// The decimals of a fraction.
const FRACTION_PLACES: u8 = 10;

/// A date.
pub(crate) fn day(out: &mut Vec<u8>, level: u8, name: &str, d: Day) -> Result<(), Memory>
    ensures { OnOk result (out.new.items ≡ out.old.items ++ node_text level (day_node name.now d)) }
{
    leaf(out, level, name, &day_digits(d))
}

// A number of units of 10^-places, with that many decimals.
#[tactic(auto, using(irs_base::proofs::TextLengths::length_dec, irs_base::proofs::TextLengths::small_abs))]
fn number(out: &mut Vec<u8>, level: u8, name: &str, units: i128, places: u8) -> Result<(), Memory>
    requires { places ≤ most_places }
    ensures { OnOk result (out.new.items ≡ out.old.items ++ node_text level (number_node name.now units places)) }
{
    let mut line = Line::new();
    line.push_dec(Dec { units, places });
    leaf(out, level, name, line.bytes())
}

/// An amount, with the currency's decimals.
pub(crate) fn amount(out: &mut Vec<u8>, level: u8, name: &str, v: Dec) -> Result<(), Memory>
    requires { v.places ≤ most_places }
    ensures { OnOk result (out.new.items ≡ out.old.items ++ node_text level (amount_node name.now v)) }
{
    number(out, level, name, v.units, v.places)
}

/// A notional in units of 10^-4.
pub(crate) fn notional(out: &mut Vec<u8>, level: u8, name: &str, units: i128) -> Result<(), Memory>
    ensures { OnOk result (out.new.items ≡ out.old.items ++ node_text level (notional_node name.now units)) }
{
    number(out, level, name, units, NOTIONAL_PLACES)
}

/// A rate in units of 10^-9.
pub(crate) fn rate(out: &mut Vec<u8>, level: u8, name: &str, units: i64) -> Result<(), Memory>
    ensures { OnOk result (out.new.items ≡ out.old.items ++ node_text level (rate_node name.now units)) }
{
    number(out, level, name, i128::from(units), RATE_PLACES)
}

// A numerator in units of 10^-10.
fn scaled(num: i64) -> i128
    ensures value { result ≡ num *ℤ pos (10 ^ 10) }
    ensures size { unsigned_abs result < 2 ^ 100 }
{
    i128::from(num) * 10_000_000_000
}

/// A fraction to 10 decimals, a half going up.
pub(crate) fn fraction(out: &mut Vec<u8>, level: u8, name: &str, f: Frac) -> Result<(), Memory>
    requires { pos 0 <ℤ f.den }
    ensures { OnOk result (out.new.items ≡ out.old.items ++ node_text level (fraction_node name.now f)) }
{
    let units = round(Direction::Nearest, scaled(f.num), i128::from(f.den));
    number(out, level, name, units, FRACTION_PLACES)
}

/// A whole number, as a number of days.
#[tactic(auto, using(irs_base::proofs::TextLengths::length_signed, irs_base::proofs::TextLengths::small_abs))]
pub(crate) fn count(out: &mut Vec<u8>, level: u8, name: &str, n: i64) -> Result<(), Memory>
    ensures { OnOk result (out.new.items ≡ out.old.items ++ node_text level (count_node name.now n)) }
{
    let mut line = Line::new();
    line.push_whole(i128::from(n));
    leaf(out, level, name, line.bytes())
}

/// A currency, by its letters.
pub(crate) fn currency(out: &mut Vec<u8>, level: u8, name: &str, c: Currency) -> Result<(), Memory>
    ensures { OnOk result (out.new.items ≡ out.old.items ++ node_text level (currency_node name.now c)) }
{
    leaf(out, level, name, &c.letters)
}

/// An amount, where it is known.
pub(crate) fn known_amount(
    out: &mut Vec<u8>,
    level: u8,
    name: &str,
    v: Option<Dec>,
) -> Result<(), Memory>
    requires { IfSome v IsFew }
    ensures { OnOk result (out.new.items ≡ out.old.items ++ lines level (known (amount_node name.now) v)) }
{
    match v {
        Some(v) => {
            amount(out, level, name, v)?;
            Ok(())
        },
        None => Ok(()),
    }
}

/// A rate, where it is known.
pub(crate) fn known_rate(
    out: &mut Vec<u8>,
    level: u8,
    name: &str,
    units: Option<i64>,
) -> Result<(), Memory>
    ensures { OnOk result (out.new.items ≡ out.old.items ++ lines level (known (rate_node name.now) units)) }
{
    match units {
        Some(units) => {
            rate(out, level, name, units)?;
            Ok(())
        },
        None => Ok(()),
    }
}
