//! What is read of a member of an object, in the words of the table of elements, and the values of leaves. Each is
//! read only where the document says one, or where it is absent and may be.
ghost use Rattle.irs_elements.specs.{Codes.compounding_at, Codes.day_count_at, Codes.stub_kind_at, Leaves.currency_at};
ghost use Rattle.irs_elements.specs.{Codes.roll_at, Elements.leaf_text_in, Elements.once as once_of, Elements.seen};
ghost use Rattle.irs_read.specs.Private.Sayings.{IsSaid, Maybe, One, Or, TextSays, number_by};
ghost use Rattle.irs_read.specs.StreamElements.{center_name, date};
ghost use Rattle.serde_json.specs.View.{view};
ghost use Rattle.std.specs.Prelude.{◌≡◌, IfOk, Some, is_some, true};

use irs_base::{Day, Memory, Text};
use irs_elements::{codes, leaf_text, numbers, once, words};
use irs_json::Value;
use irs_terms::{CompCode, Currency, DayCountCode, RollCode, StubKind};
use itoa::Buffer;
use std::alloc::Global;

/// The value of the text of a leaf; `None` where there is no leaf, or its text has no value.
#[macro_export]
macro_rules! leaf_value {
    ($v:expr, $text:ident => $value:expr) => {{
        let mut digits = Buffer::new();
        match leaf_text($v, &mut digits) {
            None => None,
            Some($text) => $value,
        }
    }};
}

/// The value of the leaf with that name, and another where there is no leaf.
macro_rules! or_else {
    ($v:expr, $name:expr, $absent:expr, $text:ident => $value:expr) => {{
        let mut digits = Buffer::new();
        match leaf_text(once($v, $name), &mut digits) {
            None => $absent,
            Some($text) => match $value {
                None => unreachable!(),
                Some(value) => value,
            },
        }
    }};
}

/// The value of the leaf with that name, which is there and has one.
macro_rules! must {
    ($v:expr, $name:expr, $text:ident => $value:expr) => {
        $crate::leaf_values::or_else!($v, $name, unreachable!(), $text => $value)
    };
}

/// One that may be absent, and then there is no value.
macro_rules! maybe {
    ($v:expr, $name:expr, $part:ident => $value:expr) => {
        match once($v, $name) {
            None => None,
            Some($part) => Some($value),
        }
    };
}

/// One that may be absent, and then this is its value.
macro_rules! or {
    ($v:expr, $name:expr, $absent:expr, $part:ident => $value:expr) => {
        match once($v, $name) {
            None => $absent,
            Some($part) => $value,
        }
    };
}

/// A member that occurs.
macro_rules! one {
    ($v:expr, $name:expr, $part:ident => $value:expr) => {
        $crate::leaf_values::or!($v, $name, unreachable!(), $part => $value)
    };
}

pub(crate) use maybe;
pub(crate) use must;
pub(crate) use one;
pub(crate) use or;
pub(crate) use or_else;

/// What the values of a schedule are.
#[derive(Clone, Copy)]
pub enum Scale {
    /// Notionals, in units of 10^-4.
    Notionals,
    /// Rates, in units of 10^-9.
    Rates,
}

/// A date that may be absent.
pub fn maybe_day(v: &Value, name: &str) -> Option<Day>
    requires { IsSaid (Maybe date.says (once_of name.now (view v.now))) }
    ensures { Maybe date.says (once_of name.now (view v.now)) result }
{
    leaf_value!(once(v, name), text => numbers::day(text.as_bytes()))
}

/// `stubPeriodType`.
pub fn stub_kind(v: &Value, name: &str) -> Option<StubKind>
    requires { IsSaid (Maybe (TextSays stub_kind_at) (once_of name.now (view v.now))) }
    ensures { Maybe (TextSays stub_kind_at) (once_of name.now (view v.now)) result }
{
    leaf_value!(once(v, name), text => codes::stub_kind(text))
}

/// `rollConvention`.
pub fn roll(v: &Value, name: &str) -> RollCode
    requires { IsSaid (One (TextSays roll_at) (once_of name.now (view v.now))) }
    ensures { One (TextSays roll_at) (once_of name.now (view v.now)) result }
{
    must!(v, name, text => codes::roll(text))
}

/// `currency`.
pub fn currency(v: &Value, name: &str) -> Currency
    requires { IsSaid (One (TextSays currency_at) (once_of name.now (view v.now))) }
    ensures { One (TextSays currency_at) (once_of name.now (view v.now)) result }
{
    must!(v, name, text => words::currency(text.as_bytes()))
}

/// `dayCountFraction`.
pub fn day_count(v: &Value, name: &str) -> DayCountCode
    requires { IsSaid (One (TextSays day_count_at) (once_of name.now (view v.now))) }
    ensures { One (TextSays day_count_at) (once_of name.now (view v.now)) result }
{
    must!(v, name, text => codes::day_count(text))
}

/// `compoundingMethod`; absent is none.
pub fn compounding(v: &Value, name: &str) -> CompCode
    requires { IsSaid (Or (TextSays compounding_at) CompCode.Simple (once_of name.now (view v.now))) }
    ensures { Or (TextSays compounding_at) CompCode.Simple (once_of name.now (view v.now)) result }
{
    or_else!(v, name, CompCode::Simple, text => codes::compounding(text))
}

/// A number of a schedule.
pub fn number(scale: Scale, v: &Value, name: &str) -> i128
    requires { IsSaid (One (number_by scale).says (once_of name.now (view v.now))) }
    ensures { One (number_by scale).says (once_of name.now (view v.now)) result }
{
    match scale {
        Scale::Notionals => must!(v, name, text => numbers::notional(text.as_bytes())),
        Scale::Rates => must!(v, name, text => numbers::rate(text.as_bytes())),
    }
}

/// The text of a leaf that is there.
pub fn word(alloc: Global, v: Option<&Value>) -> Result<Text, Memory>
    requires { is_some (leaf_text_in (seen v)) ≡ true }
    ensures { IfOk result (λ t. leaf_text_in (seen v.entry) ≡ Some t) }
{
    let mut digits = Buffer::new();
    match leaf_text(v, &mut digits) {
        None => unreachable!(),
        Some(text) => Text::from_bytes(alloc, text.as_bytes()),
    }
}

/// The name of a business centre.
pub fn center(alloc: Global, v: &Value) -> Result<Text, Memory>
    requires { IsSaid (center_name.says (view v.now)) }
    ensures { IfOk result (center_name.says (view v.now)) }
{
    word(alloc, Some(v))
}
