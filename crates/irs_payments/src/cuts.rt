//! The places at which payment periods end. One pass over the boundaries finds them.
ghost use Rattle.std.specs.Prelude.{◌<◌, length, IfOk};
ghost use Rattle.irs_base.specs.Lists.{IsRising};
ghost use Rattle.irs_terms.specs.Lawful.{IsLawfulStream};
ghost use Rattle.irs_payments.specs.Private.Dating.{AreCuts};

use crate::grouping::{ends_payment, payment_anchor};
use irs_base::{Day, Memory};
use irs_terms::Stream;
use std::alloc::Global;

/// Place 0, and then the places of the payment boundaries after the first day.
pub fn payment_places(alloc: Global, s: &Stream, boundaries: &[Day]) -> Result<Vec<usize>, Memory>
    requires lawful { IsLawfulStream s.now }
    requires rising { IsRising boundaries.now }
    requires some { 1 < length boundaries.now }
    ensures { IfOk result (λ v. AreCuts s.now boundaries.now (length boundaries.now) v.items) }
{
    let anchor = payment_anchor(s, boundaries);
    let mut places = Vec::with_capacity(alloc, boundaries.len())?;
    places.push(0)?;
    for i in 1..boundaries.len() {
        if ends_payment(s, &anchor, boundaries[i]) {
            places.push(i)?;
        }
    }
    Ok(places)
}
