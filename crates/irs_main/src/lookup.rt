//! The words of a rule and of a fault of cash flows, by the table.
ghost use Rattle.irs_main.specs.Rules.{words_after as after_of, before as before_of, row_of_rule as row_of};
ghost use Rattle.irs_main.specs.Rules.{row_of_shape as row_of_fault, text_at as text_at_of};
ghost use Rattle.irs_main.specs.Private.Lookup.{texts};
ghost use Rattle.std.specs.Prelude.{◌≡◌};

use crate::table::{AFTER, BEFORE};
use irs_flows::ShapeKind;
use irs_terms::Rule;

/// The row of a rule in the table.
pub(crate) fn row_of_rule(rule: Rule) -> usize
    ensures { result ≡ row_of rule }
{
    match rule {
        Rule::K1 => 0,
        Rule::K2 => 1,
        Rule::K3 => 2,
        Rule::K4 => 3,
        Rule::K5 => 4,
        Rule::K6 => 5,
        Rule::K7 => 6,
        Rule::K8 => 7,
        Rule::K10 => 8,
        Rule::K11 => 9,
        Rule::K12 => 10,
        Rule::K13 => 11,
        Rule::K14 => 12,
        Rule::K15 => 13,
        Rule::K16 => 14,
        Rule::K17 => 15,
        Rule::K18 => 16,
        Rule::K19 => 17,
        Rule::K20 => 18,
        Rule::K21 => 19,
        Rule::K30 => 20,
        Rule::K31 => 21,
        Rule::K32 => 22,
        Rule::K33 => 23,
        Rule::K34 => 24,
        Rule::K35 => 25,
        Rule::K36 => 26,
        Rule::K37 => 27,
        Rule::K38 => 28,
        Rule::K39 => 29,
        Rule::K40 => 30,
        Rule::K41 => 31,
        Rule::K42 => 32,
        Rule::K43 => 33,
        Rule::K44 => 34,
        Rule::K45 => 35,
        Rule::K46 => 36,
        Rule::K47 => 37,
        Rule::K48 => 38,
        Rule::K49 => 39,
    }
}

/// The row of a fault of cash flows in the table.
pub(crate) fn row_of_shape(kind: ShapeKind) -> usize
    ensures { result ≡ row_of_fault kind }
{
    match kind {
        ShapeKind::NotJson => 40,
        ShapeKind::Missing => 41,
        ShapeKind::Kind => 42,
        ShapeKind::Unknown => 43,
        ShapeKind::Profile => 44,
        ShapeKind::Value => 45,
        ShapeKind::Count => 46,
    }
}

// The text at a place of a list, or this one past its end.
fn text_at(list: &[&'static str], place: usize, other: &'static str) -> &'static [u8]
    ensures { result.now ≡ text_at_of (texts list.now) place other.now }
{
    match list {
        [] => other.as_bytes(),
        [first, rest @ ..] => if place == 0 {
            first.as_bytes()
        } else {
            text_at(rest, place - 1, other)
        },
    }
}

/// What is said before the element at fault, by its row.
#[tactic(auto, using(crate::proofs::TableLaws::before_are))]
pub(crate) fn before<'a>(row: usize) -> &'a [u8]
    ensures { result.now ≡ before_of row }
{
    &text_at(&BEFORE, row, "")[..]
}

/// What is said after the element at fault, by its row.
#[tactic(auto, using(crate::proofs::TableLaws::after_are))]
pub(crate) fn after<'a>(row: usize) -> &'a [u8]
    ensures { result.now ≡ after_of row }
{
    &text_at(&AFTER, row, " breaks this rule")[..]
}
