//! Rules that a stream breaks, and the first of several. They are ordered by rule, then by element in
//! the order of the table of elements, then by index. The order is our rule.
ghost use Rattle.std.specs.Prelude.{◌≡◌, ◌+◌, ◌<◌, ◌^◌, ◌||◌, ◌&&◌, ◌==◌, nat_lt, IsTrue};
ghost use Rattle.irs_base.specs.Outcomes.{earlier};
ghost use Rattle.irs_terms.specs.Faults.{fault_at};
ghost use Rattle.irs_rules.specs.Private.TermsKept.{is_before_here, IsFirstHere};
ghost use Rattle.irs_rules.specs.TermsRules.{Breaks};

use irs_terms::{Elem, Fault, Rule};

/// The fault of the rule at an element that isn't repeated, if the rule isn't kept.
pub(crate) fn fault_unless(kept: bool, rule: Rule, elem: Elem) -> Option<Fault>
    ensures { IsFirstHere (Breaks rule elem (IsTrue kept)) result }
{
    if kept {
        None
    } else {
        Some(Fault {
            rule,
            elem,
            index: 0,
        })
    }
}

/// The fault of the rule at an item of a repeated element; items count from 0.
pub(crate) fn fault_of_item(rule: Rule, elem: Elem, item: usize) -> Fault
    requires { item + 1 < 2 ^ 32 }
    ensures { result ≡ fault_at rule elem (item + 1) }
{
    Fault {
        rule,
        elem,
        index: item as u32 + 1,
    }
}

/// The earlier of two broken rules.
pub(crate) fn earlier(a: Option<Fault>, b: Option<Fault>) -> Option<Fault>
    ensures { result ≡ earlier is_before_here a b }
{
    match (a, b) {
        (None, second) => second,
        (Some(f), None) => Some(f),
        (Some(f), Some(g)) => Some(if is_before_here(&g, &f) { g } else { f }),
    }
}

// The order within one stream. irs_terms's order of a part of a stream has another level in front.
fn is_before_here(f: &Fault, g: &Fault) -> bool
    ensures { result ≡ is_before_here f.now g.now }
{
    let (rule, other) = (f.rule.number(), g.rule.number());
    rule < other || (rule == other && is_placed_before(f, g))
}

// Whether the place of the first is before that of the second.
fn is_placed_before(f: &Fault, g: &Fault) -> bool
    ensures { result ≡ nat_lt f.now.elem g.now.elem || (f.now.elem == g.now.elem && nat_lt f.now.index g.now.index) }
{
    let (element, other) = (f.elem.place(), g.elem.place());
    element < other || (element == other && f.index < g.index)
}
