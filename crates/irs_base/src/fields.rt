//! The fields of a line of a file, separated by spaces and tabs (our rule).
ghost use Rattle.std.specs.Prelude.{◌≡◌, ◌<◌, ◌∷◌, [], false, length, MatchOption};
ghost use Rattle.irs_base.specs.Texts.{is_space_or_tab, begins_space, without_gap, fields};

/// Whether a byte separates fields: a space or a tab.
pub fn is_gap(b: u8) -> bool
    ensures { result ≡ is_space_or_tab b }
{
    b == b' ' || b == b'\t'
}

/// The bytes from the first one on that parts no fields; none where all do.
pub fn skip_gap(bytes: &[u8]) -> &[u8]
    ensures { result.now ≡ without_gap bytes.now }
{
    for (i, b) in bytes.iter().enumerate() {
        if !is_gap(*b) {
            return &bytes[i..];
        }
    }
    &[]
}

fn split_field(bytes: &[u8]) -> (&[u8], &[u8])
    requires some { 0 < length bytes.now }
    requires begins { begins_space bytes.now ≡ false }
    ensures fields { fields bytes.now ≡ result.0.now ∷ fields result.1.now }
    ensures shorter { length result.1.now < length bytes.now }
{
    for (i, b) in bytes.iter().enumerate() {
        if is_gap(*b) {
            return (&bytes[..i], &bytes[i..]);
        }
    }
    (bytes, &[])
}

/// The first field of a line, and what follows it.
#[tactic(auto, using(crate::proofs::FieldLemmas::same_fields, crate::proofs::FieldLemmas::begins_solid, crate::proofs::FieldLemmas::not_longer))]
pub fn first_field(bytes: &[u8]) -> Option<(&[u8], &[u8])>
    ensures fields { MatchOption result (fields bytes.now ≡ []) (λ p. fields bytes.now ≡ p.0.now ∷ fields p.1.now) }
    ensures shorter { MatchOption result (fields bytes.now ≡ []) (λ p. length p.1.now < length bytes.now) }
{
    let rest = skip_gap(bytes);
    if rest.is_empty() {
        return None;
    }
    Some(split_field(rest))
}
