//! The rows of leaves. Each names a kind of text and a text, and says what value the text has. Or
//! it names a kind of leaf and a JSON text, and says which rule the text breaks.
use crate::told::Told;
use crate::values::Tell;
use irs_elements::{Leaf, codes, fractions, leaf_rule, numbers, words};
use irs_json::{Value, parse};
use std::alloc::Global;

// The value of a text as a code.
fn tell_code(told: &mut Told, kind: &str, text: &str) -> Option<()> {
    match kind {
        "convention" => told.given(&codes::convention(text)),
        "day type" => told.given(&codes::day_kind(text)),
        "relative" => told.given(&codes::relative(text)),
        "period" => told.given(&codes::unit(text)),
        "tenor period" => told.given(&codes::tenor_unit(text)),
        "offset period" => told.given(&codes::offset_unit(text)),
        "stub type" => told.given(&codes::stub_kind(text)),
        "roll" => told.given(&codes::roll(text)),
        "day count" => told.given(&codes::day_count(text)),
        "compounding" => told.given(&codes::compounding(text)),
        "calculation method" => told.given(&codes::calculation_method(text)),
        "treatment" => told.given(&codes::treatment(text)),
        "direction" => told.given(&codes::direction(text)),
        "truth" => told.given(&codes::truth(text)),
        _ => return None,
    }
    Some(())
}

// The value of a text as a name.
fn tell_name(told: &mut Told, kind: &str, text: &str) -> Option<()> {
    match kind {
        "centre" => told.debug(&words::is_center_name(text.as_bytes())),
        "index" => told.debug(&words::is_index_name(text.as_bytes())),
        "currency" => words::currency(text.as_bytes()).tell(told),
        _ => return tell_code(told, kind, text),
    }
    Some(())
}

// The value of a text as a number.
fn tell_number(told: &mut Told, kind: &str, text: &str) -> Option<()> {
    let bytes = text.as_bytes();
    match kind {
        "date" => numbers::day(bytes).tell(told),
        "number of a date" => told.given(&numbers::day(bytes).map(|day| day.number())),
        "whole" => told.given(&numbers::whole(bytes)),
        "notional" => told.given(&numbers::notional(bytes)),
        "rate" => told.given(&numbers::rate(bytes)),
        "amount" => told.given(&numbers::amount(bytes)),
        "multiplier" => told.given(&numbers::multiplier(bytes)),
        "offset" => told.given(&numbers::offset(bytes)),
        "observation days" => told.given(&numbers::observation_days(bytes)),
        "precision" => told.given(&numbers::precision(bytes)),
        "fraction" => fractions::fraction(bytes).tell(told),
        _ => return tell_name(told, kind, text),
    }
    Some(())
}

fn leaf_of(name: &str) -> Option<Leaf> {
    match name {
        "Whole" => Some(Leaf::Whole),
        "Amount" => Some(Leaf::Amount),
        "Fraction" => Some(Leaf::Fraction),
        "Convention" => Some(Leaf::Convention),
        "ResetRelative" => Some(Leaf::ResetRelative),
        "PayRelative" => Some(Leaf::PayRelative),
        "Truth" => Some(Leaf::Truth),
        "CurrencyName" => Some(Leaf::CurrencyName),
        _ => None,
    }
}

// The value of a JSON value as a kind of text, or the rule that it breaks as a kind of leaf.
fn tell_value(told: &mut Told, kind: &str, value: &Value) -> Option<()> {
    match kind.strip_prefix("leaf ") {
        Some(leaf) => told.given(&leaf_rule(leaf_of(leaf)?, value)),
        None => tell_number(told, kind, value.as_str()?)?,
    }
    Some(())
}

/// Reports a JSON text as a kind of text, or of leaf.
pub fn tell_leaf(told: &mut Told, alloc: Global, kind: &str, text: &str) -> Option<()> {
    let value = parse(alloc, text.as_bytes()).ok()?;
    tell_value(told, kind, &value)
}
