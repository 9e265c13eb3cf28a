//! Cutting a text at a byte: the names of a path, and the words of a command's line.
ghost use Rattle.irs_main.specs.Shown.{after_byte as behind_of, front as front_of, length_before as length_before_of};
ghost use Rattle.std.specs.Prelude.{◌≡◌, ◌≤◌, length};
ghost use Rattle.std.specs.Str.{bytes_eq};

/// Whether a text is this word.
pub(crate) fn is(text: &[u8], word: &str) -> bool
    ensures { result ≡ bytes_eq text.now word.now }
{
    text == word.as_bytes()
}

// How many bytes come before the first one that is `end`; all of them where there is none.
fn length_before(end: u8, text: &[u8]) -> usize
    ensures value { result ≡ length_before_of end text.now }
    ensures within { result ≤ length text.now }
{
    for (i, byte) in text.iter().enumerate() {
        if *byte == end {
            return i;
        }
    }
    text.len()
}

/// The text before the first byte that is `end`; all of it where there is none.
pub(crate) fn front(end: u8, text: &[u8]) -> &[u8]
    ensures { result.now ≡ front_of end text.now }
{
    &text[..length_before(end, text)]
}

/// The text after the first byte that is `end`; nothing where there is none.
pub(crate) fn behind(end: u8, text: &[u8]) -> &[u8]
    ensures { result.now ≡ behind_of end text.now }
{
    let before = length_before(end, text);
    if before < text.len() {
        &text[before + 1..]
    } else {
        &[]
    }
}
