//! How the text of a document that isn't JSON begins, where that shows why it isn't. That it is said is our rule.
ghost use Rattle.std.specs.List.{find};
ghost use Rattle.std.specs.Prelude.{◌≡◌, option_copied};
ghost use Rattle.irs_answers.specs.Forms.{front_of as front_in, has_mark as has_mark_of, is_dark as is_dark_of};
ghost use Rattle.irs_answers.specs.Forms.{is_markup as is_markup_of};

/// How the text of a document that isn't JSON begins.
#[derive(Clone, Copy)]
pub enum Front {
    /// With a byte order mark (EF BB BF).
    Mark,
    /// With `<`, which may have white space before it: the text is XML.
    Markup,
}

/// How a text begins, where that shows why it isn't JSON.
pub(crate) fn front_of(bytes: &[u8]) -> Option<Front>
    ensures { result ≡ front_in bytes.now }
{
    if has_mark(bytes) {
        Some(Front::Mark)
    } else if is_markup(bytes) {
        Some(Front::Markup)
    } else {
        None
    }
}

// Whether the text begins with a byte order mark.
fn has_mark(bytes: &[u8]) -> bool
    ensures { result ≡ has_mark_of bytes.now }
{
    bytes.starts_with(b"\xEF\xBB\xBF")
}

// Whether the first byte that is no white space is `<`.
fn is_markup(bytes: &[u8]) -> bool
    ensures { result ≡ is_markup_of bytes.now }
{
    match first_dark(bytes) {
        None => false,
        Some(byte) => *byte == b'<',
    }
}

// The first byte that is no white space.
fn first_dark(bytes: &[u8]) -> Option<&u8>
    ensures { option_copied result ≡ find is_dark_of bytes.now }
{
    bytes.iter().find(|byte| is_dark(**byte))
}

// Whether a byte is no white space: no space, tab, LF or CR.
fn is_dark(byte: u8) -> bool
    ensures { result ≡ is_dark_of byte }
{
    !(byte == b' ' || byte == b'\t' || byte == b'\n' || byte == b'\r')
}
