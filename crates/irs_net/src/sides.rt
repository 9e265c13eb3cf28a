//! The sides of a swap's streams: which of the two parties pays each. That all streams name the
//! same two parties is our rule, K8.
ghost use Rattle.std.specs.Prelude.{◌≡◌, ◌<◌, ◌≤◌, length, map, IfOk, IfErr};
ghost use Rattle.serde_json.specs.View.{view};
ghost use Rattle.irs_base.specs.Limits.{most_streams};
ghost use Rattle.irs_base.specs.Outcomes.{First};
ghost use Rattle.irs_terms.specs.Faults.{is_before};
ghost use Rattle.irs_terms.specs.declared.places.Broken.{Broken};
ghost use Rattle.irs_read.specs.Documents.{DocumentFault};
ghost use Rattle.irs_net.specs.declared.sides.Sides.{Sides};
ghost use Rattle.irs_net.specs.Parties.{AreSides, BreaksK8, BreaksK8Of, SidesOf, broken_at as broken_at_of};

use crate::parties::side;
use irs_elements::values_at;
use irs_json::Value;
use irs_read::the_swap;
use irs_terms::{Broken, Elem, Fault, Rule};

/// Which party pays each stream.
#[derive(Clone, Copy)]
pub struct Sides {
    /// Whether the stream is paid by the party that pays stream 1; false past the last stream.
    pub forward: [bool; 8],
    /// How many streams there are.
    pub count: u8,
}

// K8 of the stream with this number.
fn broken_at(number: u8) -> Broken
    ensures { result ≡ broken_at_of number }
{
    Fault {
        rule: Rule::K8,
        elem: Elem::PAYER_PARTY_REFERENCE,
        index: 0,
    }
    .in_stream(number)
}

// The sides of one to eight streams.
fn sides_of(streams: &[Value]) -> Result<Sides, Broken>
    requires some { 0 < length streams.now }
    requires few { length streams.now ≤ most_streams }
    ensures sides { IfOk result (AreSides (map view streams.now)) }
    ensures broken { IfErr result (First is_before (BreaksK8 (map view streams.now))) }
{
    let mut forward = [false; 8];
    for i in 0..streams.len() {
        match side(&streams[0], &streams[i]) {
            Some(is_forward) => forward[i] = is_forward,
            None => return Err(broken_at(i as u8 + 1)),
        }
    }
    Ok(Sides {
        forward,
        count: streams.len() as u8,
    })
}

/// Which party pays each stream of a document that breaks none of K2 to K7. `Broken` is exactly the
/// first K8, at the `payerPartyReference` of the lowest stream that breaks it. One of its two
/// references isn't one object with a text as `@href`, or the two are equal. Or they aren't those
/// of stream 1 in the same or the opposite order. It takes no memory.
pub fn read_sides(v: &Value) -> Result<Sides, Broken>
    requires clean { (f : Broken) → DocumentFault (view v.now) f → ⊥ }
    ensures sides { IfOk result (SidesOf (view v.now)) }
    ensures broken { IfErr result (First is_before (BreaksK8Of (view v.now))) }
    // Any two sides of the streams are equal, and any two first K8 are.
    ensures one { (a b : Sides) → SidesOf (view v.now) a → SidesOf (view v.now) b → a ≡ b }
    ensures one_broken { (x y : Broken) → First is_before (BreaksK8Of (view v.now)) x
        → First is_before (BreaksK8Of (view v.now)) y → x ≡ y }
{
    match the_swap(v) {
        Ok(swap) => sides_of(values_at(swap, "swapStream")),
        Err(_) => unreachable!(),
    }
}
