//! What the text of a leaf says, and the rule that it breaks where it says nothing.
ghost use Rattle.irs_elements.specs.Leaves.{leaf_rule as leaf_rule_of, text_rule as text_rule_of};
ghost use Rattle.irs_json.specs.Leaves.{leaf_of};
ghost use Rattle.serde_json.specs.View.{view};
ghost use Rattle.std.specs.{List.list_any, Prelude.◌≡◌, Str.bytes_eq};

use crate::find::leaf_text;
use crate::{Leaf, codes, fractions, numbers, words};
use irs_json::Value;
use irs_terms::Rule;
use itoa::Buffer;

// Whether the text is one of these.
fn is_one_of(text: &str, listed: &[&str]) -> bool
    ensures { result ≡ list_any (λ one. bytes_eq text.now one.now) listed.now }
{
    listed.iter().any(|one| text == *one)
}

// No rule where the leaf has a value. Else it is K5 where the text is listed as out of the profile, and
// K6 where it is not.
macro_rules! rule_unless {
    ($has_value:expr $(, $text:ident is $($code:literal),+)?) => {
        if $has_value { None } $(else if is_one_of($text, &[$($code),+]) { Some(Rule::K5) })? else { Some(Rule::K6) }
    };
}

// The rule of a leaf's text. It has a value where it is in the grammar and the range of its kind.
#[tactic(auto, unfolding(crate::specs::Leaves::text_rule))]
fn text_rule(kind: Leaf, text: &str) -> Option<Rule>
    ensures { result ≡ text_rule_of kind text.now }
{
    let bytes = text.as_bytes();
    match kind {
        Leaf::Date => rule_unless!(numbers::day(bytes).is_some()),
        Leaf::Multiplier => rule_unless!(numbers::multiplier(bytes).is_some()),
        Leaf::OffsetDays => rule_unless!(numbers::offset(bytes).is_some()),
        Leaf::ObservationDays => rule_unless!(numbers::observation_days(bytes).is_some()),
        Leaf::Precision => rule_unless!(numbers::precision(bytes).is_some()),
        Leaf::Whole => rule_unless!(numbers::whole(bytes).is_some()),
        Leaf::Notional => rule_unless!(numbers::notional(bytes).is_some()),
        Leaf::Rate => rule_unless!(numbers::rate(bytes).is_some()),
        Leaf::Amount => rule_unless!(numbers::amount(bytes).is_some()),
        Leaf::Fraction => rule_unless!(fractions::fraction(bytes).is_some()),
        Leaf::Truth => rule_unless!(codes::truth(text).is_some()),
        Leaf::CenterName => rule_unless!(words::is_center_name(bytes)),
        Leaf::IndexName => rule_unless!(words::is_index_name(bytes)),
        Leaf::CurrencyName => rule_unless!(words::currency(bytes).is_some()),
        Leaf::Convention =>
            rule_unless!(codes::convention(text).is_some(), text is "FRN", "NotApplicable"),
        Leaf::PeriodUnit => rule_unless!(codes::unit(text).is_some()),
        Leaf::TenorUnit => rule_unless!(codes::tenor_unit(text).is_some()),
        Leaf::OffsetUnit => rule_unless!(codes::offset_unit(text).is_some(), text is "W", "M", "Y"),
        Leaf::DayType => rule_unless!(codes::day_kind(text).is_some()),
        Leaf::StubType => rule_unless!(codes::stub_kind(text).is_some()),
        Leaf::Roll =>
            rule_unless!(codes::roll(text).is_some(), text is "FRN", "IMMCAD", "IMMAUD", "IMMNZD", "SFE", "TBILL"),
        Leaf::PayRelative =>
            rule_unless!(codes::relative(text).is_some(), text is "ResetDate", "LastPricingDate", "ValuationDate"),
        Leaf::ResetRelative => rule_unless!(codes::relative(text).is_some()),
        Leaf::DayCount =>
            rule_unless!(codes::day_count(text).is_some(), text is "ACT/ACT.ICMA", "ACT/ACT.ISMA",
                "ACT/ACT.AFB", "ACT/365L", "BUS/252"),
        Leaf::Compounding => rule_unless!(codes::compounding(text).is_some()),
        Leaf::CalculationMethod =>
            rule_unless!(codes::calculation_method(text).is_some(), text is "CompoundedIndex"),
        Leaf::Treatment => rule_unless!(codes::treatment(text).is_some()),
        Leaf::Direction => rule_unless!(codes::direction(text).is_some()),
    }
}

/// The rule that a value breaks at a leaf. K3 comes where it is no leaf, K5 where its text is
/// listed as out of the profile. K6 comes where the text is outside its grammar or range.
#[tactic(auto, using(crate::proofs::TableRules::rule_of))]
pub fn leaf_rule(kind: Leaf, v: &Value) -> Option<Rule>
    ensures { result ≡ leaf_rule_of kind (leaf_of (view v.now)) }
{
    let mut digits = Buffer::new();
    match leaf_text(Some(v), &mut digits) {
        None => Some(Rule::K3),
        Some(text) => text_rule(kind, text),
    }
}
