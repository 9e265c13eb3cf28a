//! The values of the leaves of cash flows; `None` where a leaf is absent or has no value.
ghost use Rattle.irs_flows.specs.FlowReading.{stated};
ghost use Rattle.irs_elements.specs.Numbers.{fraction_at, amount_at, whole_at};
ghost use Rattle.irs_elements.specs.{Leaves.leaf_date_at, Leaves.currency_at, Elements.seen};
ghost use Rattle.irs_read.specs.Readings.{said};
ghost use Rattle.std.specs.Prelude.{◌≡◌, option_map};

use crate::StatedFraction;
use irs_base::{Day, Dec};
use irs_elements::{fractions, leaf_text, numbers, words};
use irs_json::Value;
use irs_read::leaf_value;
use irs_terms::Currency;
use itoa::Buffer;

/// A date.
pub fn day(v: Option<&Value>) -> Option<Day>
    ensures { result ≡ said leaf_date_at (seen v.entry) }
{
    leaf_value!(v, text => numbers::day(text.as_bytes()))
}

/// An amount or a rate, in units of 10^-12.
pub fn amount(v: Option<&Value>) -> Option<i128>
    ensures { result ≡ said amount_at (seen v.entry) }
{
    leaf_value!(v, text => numbers::amount(text.as_bytes()))
}

/// A currency.
pub fn currency(v: Option<&Value>) -> Option<Currency>
    ensures { result ≡ said currency_at (seen v.entry) }
{
    leaf_value!(v, text => words::currency(text.as_bytes()))
}

/// A number of days.
pub fn days(v: Option<&Value>) -> Option<i64>
    ensures { result ≡ said whole_at (seen v.entry) }
{
    leaf_value!(v, text => numbers::small_whole(text.as_bytes()))
}

/// A day count fraction.
pub fn fraction(v: Option<&Value>) -> Option<StatedFraction>
    ensures { result ≡ option_map stated (said fraction_at (seen v.entry)) }
{
    let Dec { units, places } = leaf_value!(v, text => fractions::fraction(text.as_bytes()))?;
    Some(StatedFraction { units, places })
}
