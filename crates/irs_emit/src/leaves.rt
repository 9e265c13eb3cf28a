//! The leaves of emitted cash flows. Each is a JSON string: a date `YYYY-MM-DD`, or a number in the
//! spelling of the schedule's text. An amount has the currency's decimals, a notional 4, a rate 9
//! and a fraction 10. None of them needs an escape.
ghost use Rattle.std.specs.Prelude.{◌≡◌, ◌≤◌, ◌++◌, IfSome, OnOk, option_map, pos, ◌^◌, ◌<◌, ◌<ℤ◌, ◌*ℤ◌, unsigned_abs};
ghost use Rattle.serde_json.specs.Written.{compact_text};
ghost use Rattle.irs_schedule.specs.Parts.{IsCode};
ghost use Rattle.irs_schedule.specs.RowsOf.{IsFew};
ghost use Rattle.irs_emit.specs.Emitted.{amount_leaf, count_leaf, currency_leaf, day_leaf, fraction_leaf};
ghost use Rattle.irs_emit.specs.Emitted.{notional_leaf, number_leaf, rate_leaf};
ghost use Rattle.irs_emit.specs.Private.Texts.{known_text};

use crate::writer::plain;
use irs_base::{Day, Dec, Direction, Line, Memory, day_digits, round};
use irs_terms::{Currency, Frac};

/// The decimals of a notional.
const NOTIONAL_PLACES: u8 = 4;

/// The decimals of a rate.
const RATE_PLACES: u8 = 9;

/// The decimals of a fraction.
const FRACTION_PLACES: u8 = 10;

/// A date: `YYYY-MM-DD`.
#[tactic(auto, using(crate::proofs::PlainTexts::day_plain))]
pub(crate) fn day(out: &mut Vec<u8>, d: Day) -> Result<(), Memory>
    ensures { OnOk result (out.new.items ≡ out.old.items ++ compact_text (day_leaf d)) }
{
    // The number is known to lie in the range of dates from here on.
    let _number = d.number();
    plain(out, &day_digits(d))
}

// A number of units of 10^-places, with that many decimals.
#[tactic(auto, using(irs_base::proofs::TextLengths::length_dec, irs_base::proofs::TextLengths::small_abs, crate::proofs::PlainTexts::number_plain))]
fn number(out: &mut Vec<u8>, units: i128, places: u8) -> Result<(), Memory>
    requires { places ≤ 12 }
    ensures { OnOk result (out.new.items ≡ out.old.items ++ compact_text (number_leaf units places)) }
{
    let mut line = Line::new();
    line.push_dec(Dec { units, places });
    plain(out, line.bytes())
}

/// An amount, with the currency's decimals.
pub(crate) fn amount(out: &mut Vec<u8>, v: Dec) -> Result<(), Memory>
    requires { v.places ≤ 12 }
    ensures { OnOk result (out.new.items ≡ out.old.items ++ compact_text (amount_leaf v)) }
{
    number(out, v.units, v.places)
}

/// A notional in units of 10^-4.
pub(crate) fn notional(out: &mut Vec<u8>, units: i128) -> Result<(), Memory>
    ensures { OnOk result (out.new.items ≡ out.old.items ++ compact_text (notional_leaf units)) }
{
    number(out, units, NOTIONAL_PLACES)
}

/// A rate in units of 10^-9.
pub(crate) fn rate(out: &mut Vec<u8>, units: i64) -> Result<(), Memory>
    ensures { OnOk result (out.new.items ≡ out.old.items ++ compact_text (rate_leaf units)) }
{
    number(out, i128::from(units), RATE_PLACES)
}

// A numerator in units of 10^-10.
fn scaled(num: i64) -> i128
    ensures value { result ≡ num *ℤ pos (10 ^ 10) }
    ensures size { unsigned_abs result < 2 ^ 100 }
{
    i128::from(num) * 10_000_000_000
}

/// A fraction to 10 decimals, a half going up.
pub(crate) fn fraction(out: &mut Vec<u8>, f: Frac) -> Result<(), Memory>
    requires { pos 0 <ℤ f.den }
    ensures { OnOk result (out.new.items ≡ out.old.items ++ compact_text (fraction_leaf f)) }
{
    let units = round(Direction::Nearest, scaled(f.num), i128::from(f.den));
    number(out, units, FRACTION_PLACES)
}

/// A whole number, as a number of days.
#[tactic(auto, using(irs_base::proofs::TextLengths::length_signed, irs_base::proofs::TextLengths::small_abs, crate::proofs::PlainTexts::count_plain))]
pub(crate) fn count(out: &mut Vec<u8>, n: i64) -> Result<(), Memory>
    ensures { OnOk result (out.new.items ≡ out.old.items ++ compact_text (count_leaf n)) }
{
    let mut line = Line::new();
    line.push_whole(i128::from(n));
    plain(out, line.bytes())
}

/// A currency, by its letters.
#[tactic(auto, using(crate::proofs::PlainTexts::code_plain, crate::proofs::PlainTexts::code_kept))]
pub(crate) fn currency(out: &mut Vec<u8>, c: Currency) -> Result<(), Memory>
    requires { IsCode c }
    ensures { OnOk result (out.new.items ≡ out.old.items ++ compact_text (currency_leaf c)) }
{
    plain(out, &c.letters)
}

/// A member with an amount and a comma after it, where the amount is known. `start` is the name in
/// quotes and a colon.
pub(crate) fn known_amount(out: &mut Vec<u8>, start: &[u8], v: Option<Dec>) -> Result<(), Memory>
    requires { IfSome v IsFew }
    ensures { OnOk result (out.new.items ≡ out.old.items ++ known_text start.now (option_map amount_leaf v)) }
{
    match v {
        Some(v) => {
            out.extend_from_slice(start)?;
            amount(out, v)?;
            out.push(b',')?;
            Ok(())
        },
        None => Ok(()),
    }
}

/// A member with a rate and a comma after it, where the rate is known. `start` is the name in quotes
/// and a colon.
pub(crate) fn known_rate(out: &mut Vec<u8>, start: &[u8], units: Option<i64>) -> Result<(), Memory>
    ensures { OnOk result (out.new.items ≡ out.old.items ++ known_text start.now (option_map rate_leaf units)) }
{
    match units {
        Some(units) => {
            out.extend_from_slice(start)?;
            rate(out, units)?;
            out.push(b',')?;
            Ok(())
        },
        None => Ok(()),
    }
}
