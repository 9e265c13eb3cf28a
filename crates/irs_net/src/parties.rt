//! The two parties of a stream (FpML `payerPartyReference`, `receiverPartyReference`). A reference
//! is an object whose `@href` is a text, and an array of one object counts as that object.
ghost use Rattle.std.specs.Prelude.{◌≡◌, option_map};
ghost use Rattle.serde_json.specs.View.{view};
ghost use Rattle.irs_net.specs.Private.FoundParties.{href_of, parties_in, parties_seen, party_in, side_in};

use irs_elements::values_at;
use irs_json::{Value, child};

/// Who pays a stream, and to whom.
#[derive(Clone, Copy)]
pub(crate) struct Parties<'a> {
    /// The `@href` of `payerPartyReference`.
    pub(crate) payer: &'a str,
    /// The `@href` of `receiverPartyReference`.
    pub(crate) receiver: &'a str,
}

// The text of a reference's `@href`.
fn href(reference: &Value) -> Option<&str>
    ensures { option_map (λ s. s.now) result ≡ href_of (view reference.now) }
{
    match child(reference, "@href") {
        None => None,
        Some(found) => found.as_str(),
    }
}

// The party that the reference of that name names.
fn party<'a>(stream: &'a Value, name: &str) -> Option<&'a str>
    ensures { option_map (λ s. s.now) result ≡ party_in name.now (view stream.now) }
{
    match values_at(stream, name) {
        [] => None,
        [reference] => href(reference),
        [_, _, ..] => None,
    }
}

// The two parties of a stream, which are different.
fn parties_of(stream: &Value) -> Option<Parties<'_>>
    ensures { parties_seen result ≡ parties_in (view stream.now) }
{
    match (
        party(stream, "payerPartyReference"),
        party(stream, "receiverPartyReference"),
    ) {
        (Some(payer), Some(receiver)) => if payer == receiver {
            None
        } else {
            Some(Parties { payer, receiver })
        },
        (Some(_), None) => None,
        (None, Some(_)) => None,
        (None, None) => None,
    }
}

/// Whether a stream is paid as the first, or in the opposite direction; `None` where it is neither.
pub(crate) fn side(first: &Value, stream: &Value) -> Option<bool>
    ensures { result ≡ side_in (view first.now) (view stream.now) }
{
    match (parties_of(first), parties_of(stream)) {
        (Some(first), Some(own)) => side_of(first, own),
        (Some(_), None) => None,
        (None, Some(_)) => None,
        (None, None) => None,
    }
}

ghost use Rattle.std.specs.Prelude.{Some};
ghost use Rattle.irs_net.specs.Private.FoundParties.{side_by};

fn side_of(first: Parties<'_>, own: Parties<'_>) -> Option<bool>
    ensures { result ≡ side_by (Some (first.entry.payer.now, first.entry.receiver.now))
        (Some (own.entry.payer.now, own.entry.receiver.now)) }
{
    if own.payer == first.payer && own.receiver == first.receiver {
        Some(true)
    } else if own.payer == first.receiver && own.receiver == first.payer {
        Some(false)
    } else {
        None
    }
}
