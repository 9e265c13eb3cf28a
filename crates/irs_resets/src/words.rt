//! The words of a line of a fixing file, and the rest of the line after them.
//!
//! Words are separated by one or more spaces or tabs. The rest keeps the spaces inside it.
ghost use Rattle.std.specs.Prelude.{◌≡◌};
ghost use Rattle.std.specs.List.{list_all};
ghost use Rattle.irs_base.specs.Texts.{is_space_or_tab};
ghost use Rattle.irs_resets.specs.FixingFiles.{word, behind_word, behind_gap, trimmed, is_passed};

use irs_base::{is_gap, skip_gap};

// The bytes before the first space or tab, and those from there on.
fn split_word(bytes: &[u8]) -> (&[u8], &[u8])
    ensures word { result.0.now ≡ word bytes.now }
    ensures rest { result.1.now ≡ behind_word bytes.now }
{
    for (i, b) in bytes.iter().enumerate() {
        if is_gap(*b) {
            return (&bytes[..i], &bytes[i..]);
        }
    }
    (bytes, &[])
}

/// The first word, and what comes after the gap that follows it.
pub fn first_word(bytes: &[u8]) -> (&[u8], &[u8])
    ensures word { result.0.now ≡ word bytes.now }
    ensures rest { result.1.now ≡ behind_gap bytes.now }
{
    let (word, rest) = split_word(bytes);
    (word, skip_gap(rest))
}

/// The bytes without the spaces and tabs at their end.
pub fn trim_end(bytes: &[u8]) -> &[u8]
    ensures { result.now ≡ trimmed bytes.now }
{
    let mut n = bytes.len();
    while n > 0 && is_gap(bytes[n - 1]) {
        n -= 1;
    }
    &bytes[..n]
}

fn is_blank(line: &[u8]) -> bool
    ensures { result ≡ list_all is_space_or_tab line.now }
{
    line.iter().all(|b| is_gap(*b))
}

/// The line is ignored: it holds spaces and tabs alone, or its first byte is `#`.
pub fn is_passed(line: &[u8]) -> bool
    ensures { result ≡ is_passed line.now }
{
    line.first() == Some(&b'#') || is_blank(line)
}
