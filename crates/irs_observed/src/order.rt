//! Which of two broken rules of a stream is reported.
ghost use Rattle.std.specs.Prelude.{◌≡◌, if◌then◌else◌};
ghost use Rattle.irs_base.specs.Outcomes.{level};
ghost use Rattle.irs_terms.specs.Faults.{comes_before, turn};

use irs_terms::{Fault, Rule};

// Rules on where dates may be come before those on what is worked out of them.
fn turn(rule: Rule) -> u8
    ensures { result ≡ turn rule }
{
    if matches!(rule, Rule::K33 | Rule::K34 | Rule::K38 | Rule::K39) {
        1
    } else {
        0
    }
}

// One level of an order.
fn level(a: u8, b: u8, next: bool) -> bool
    ensures { result ≡ level a b next }
{
    a < b || (a == b && next)
}

// Whether a rule is reported before another.
fn comes_before(f: &Fault, g: &Fault) -> bool
    ensures { result ≡ comes_before f.now g.now }
{
    level(
        turn(f.rule),
        turn(g.rule),
        level(
            f.rule.number(),
            g.rule.number(),
            level(f.elem.place(), g.elem.place(), f.index < g.index),
        ),
    )
}

/// Of two broken rules of a stream the one that is reported: by its turn, the rule's number, the element and the
/// index.
pub fn earlier_fault(f: Fault, g: Fault) -> Fault
    ensures { result ≡ (if comes_before g f then g else f) }
{
    if comes_before(&g, &f) { g } else { f }
}
