//! Text without the white space at its ends: space, tab, LF and CR, and no other byte.
ghost use Rattle.std.specs.Prelude.{◌≡◌, ◌++◌, ◌∷◌, [], ℕ, true, MatchOption, option_map};
ghost use Rattle.irs_json.specs.Leaves.{is_white_space, trim_front, trim_back, trim as trim_of};
ghost use Rattle.irs_json.specs.Private.Trim.{NoSpaceFirst, NoSpaceLast, is_past_space as is_past_space_of};

// The text after a first byte of white space.
fn after_space(text: &str) -> Option<&str>
    ensures { MatchOption result (NoSpaceFirst text.now) (λ rest. (x : ℕ)
        × ((text.now ≡ x ∷ rest.now) × (is_white_space x ≡ true))) }
{
    if let Some(rest) = text.strip_prefix(' ') {
        return Some(rest);
    }
    if let Some(rest) = text.strip_prefix('\t') {
        return Some(rest);
    }
    if let Some(rest) = text.strip_prefix('\n') {
        return Some(rest);
    }
    if let Some(rest) = text.strip_prefix('\r') {
        return Some(rest);
    }
    None
}

// The text before a last byte of white space.
fn before_space(text: &str) -> Option<&str>
    ensures { MatchOption result (NoSpaceLast text.now) (λ rest. (x : ℕ)
        × ((text.now ≡ rest.now ++ x ∷ []) × (is_white_space x ≡ true))) }
{
    if let Some(rest) = text.strip_suffix(' ') {
        return Some(rest);
    }
    if let Some(rest) = text.strip_suffix('\t') {
        return Some(rest);
    }
    if let Some(rest) = text.strip_suffix('\n') {
        return Some(rest);
    }
    if let Some(rest) = text.strip_suffix('\r') {
        return Some(rest);
    }
    None
}

fn trimmed_front(text: &str) -> &str
    ensures { result.now ≡ trim_front text.now }
{
    let mut left = text;
    while let Some(rest) = after_space(left) {
        left = rest;
    }
    left
}

fn trimmed_back(text: &str) -> &str
    ensures { result.now ≡ trim_back text.now }
{
    let mut left = text;
    while let Some(rest) = before_space(left) {
        left = rest;
    }
    left
}

// Whether there is a byte, and it is above every white-space byte.
fn is_past_space(byte: Option<&u8>) -> bool
    ensures { result ≡ is_past_space_of (option_map (λ b. b.now) byte.entry) }
{
    match byte {
        None => false,
        Some(byte) => *byte > b' ',
    }
}

/// The text without the white space at its ends. Most texts have none, which their first and last
/// byte show.
pub(crate) fn trimmed(text: &str) -> &str
    ensures { result.now ≡ trim_of text.now }
{
    let bytes = text.as_bytes();
    if is_past_space(bytes.first()) && is_past_space(bytes.last()) {
        text
    } else {
        trimmed_back(trimmed_front(text))
    }
}
