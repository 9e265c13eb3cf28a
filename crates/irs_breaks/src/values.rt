//! The values of a field on both sides, and whether they differ.
ghost use Rattle.std.specs.Prelude.{◌≡◌, ◌↔◌, IsTrue};
ghost use Rattle.irs_breaks.specs.Findings.{CanBeCompared, Differ, standing_of, stands_by};

use irs_audit::{
    Field, count_is_wrong, currency_is_wrong, day_is_wrong, fraction_is_wrong, number_is_wrong,
};
use irs_base::{Day, Dec};
use irs_flows::StatedFraction;
use irs_terms::{Currency, Frac};

/// The two values of a field: that of the schedule, where it is known, and that of the cash flows, where it is
/// stated.
#[derive(Clone, Copy)]
pub enum Values {
    /// Dates.
    Dates(Day, Option<Day>),
    /// Numbers of days.
    Counts(i64, Option<i64>),
    /// Currencies.
    Currencies(Currency, Option<Currency>),
    /// Amounts, notionals or rates; a stated one is in units of 10^-12.
    Numbers(Option<Dec>, Option<i128>),
    /// Day count fractions.
    Fractions(Frac, Option<StatedFraction>),
}

/// How a field of a pair is counted.
#[derive(Clone, Copy, PartialEq, Eq)]
pub enum Standing {
    /// The schedule knows its value and the cash flows state one.
    Compared,
    /// The schedule knows its value, and the cash flows state none.
    Unstated,
    /// The schedule doesn't know its value.
    Unknown,
}

/// A field of a pair with its two values.
#[derive(Clone, Copy)]
pub struct FieldValues {
    /// The field.
    pub field: Field,
    /// Its values.
    pub values: Values,
}

fn stands<T>(stated: Option<T>) -> Standing
where
    T: Copy,
    ensures { result ≡ stands_by stated }
{
    match stated {
        Some(_) => Standing::Compared,
        None => Standing::Unstated,
    }
}

/// How a field with these values is counted.
pub fn standing_of(values: Values) -> Standing
    ensures { result ≡ standing_of values }
{
    match values {
        Values::Dates(_, stated) => stands(stated),
        Values::Counts(_, stated) => stands(stated),
        Values::Currencies(_, stated) => stands(stated),
        Values::Numbers(Some(_), stated) => stands(stated),
        Values::Numbers(None, _) => Standing::Unknown,
        Values::Fractions(_, stated) => stands(stated),
    }
}

/// Whether a value that the schedule knows is stated as another one.
pub fn differ(values: &Values) -> bool
    requires { CanBeCompared values.now }
    ensures { IsTrue result ↔ Differ values.now }
{
    match values {
        Values::Dates(day, stated) => day_is_wrong(*day, *stated),
        Values::Counts(count, stated) => count_is_wrong(*count, *stated),
        Values::Currencies(currency, stated) => currency_is_wrong(*currency, *stated),
        Values::Numbers(Some(number), stated) => {
            number_is_wrong(number.units, number.places, *stated)
        }
        Values::Numbers(None, _) => false,
        Values::Fractions(frac, stated) => fraction_is_wrong(*frac, *stated),
    }
}
