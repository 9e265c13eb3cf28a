//! Broken rules of a stream, with their elements and indices.
ghost use Rattle.std.specs.Prelude.{◌≡◌, ◌<◌, ◌^◌};
ghost use Rattle.irs_terms.specs.Faults.{fault_at};

use irs_terms::{Elem, Fault, Rule};

/// The rule is broken at the element; the index is that of a step, a payment or an exchange, else 0.
pub fn fault(rule: Rule, elem: Elem, index: usize) -> Fault
    requires { index < 2 ^ 32 }
    ensures { result ≡ fault_at rule elem index }
{
    Fault {
        rule,
        elem,
        index: index as u32,
    }
}
