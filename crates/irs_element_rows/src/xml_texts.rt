//! The bytes that rows of XML give as a text.
//!
//! In a text `\n` is a line feed and `\r` a return. `\bom` is a byte order mark, and `\x01` and
//! `\xff` are these bytes. `\COUNT TEXT` is the text as often as the number says, with a number from
//! 0 in place of each `#`. `\.` ends such a text.
use itoa::Buffer;
use std::alloc::Global;

/// What has a name after a `\`.
const ESCAPES: [(&str, &[u8]); 6] = [
    ("n", b"\n"),
    ("r", b"\r"),
    ("bom", b"\xEF\xBB\xBF"),
    ("x01", b"\x01"),
    ("xff", b"\xFF"),
    (".", b""),
];

// What has a name at the head of a text, and the rest of the text.
fn push_named(bytes: &mut Vec<u8>, text: &str) -> Option<()> {
    for (name, named) in ESCAPES {
        if let Some(rest) = text.strip_prefix(name) {
            bytes.extend_from_slice(named).ok()?;
            return bytes.extend_from_slice(rest.as_bytes()).ok();
        }
    }
    None
}

// A text with a number in place of each `#`.
fn push_numbered(bytes: &mut Vec<u8>, text: &str, number: u32) -> Option<()> {
    let mut digits = Buffer::new();
    let digits = digits.format(number).as_bytes();
    let mut parts = text.split('#');
    bytes.extend_from_slice(parts.next()?.as_bytes()).ok()?;
    for part in parts {
        bytes.extend_from_slice(digits).ok()?;
        bytes.extend_from_slice(part.as_bytes()).ok()?;
    }
    Some(())
}

// The number of times at the head of a text, and the text that is repeated.
fn repeated(text: &str) -> Option<(u32, &str)> {
    let (count, text) = text.split_once(' ')?;
    Some((count.parse::<u32>().ok()?, text))
}

// The bytes that a text after a `\` means.
fn push_escaped(bytes: &mut Vec<u8>, text: &str) -> Option<()> {
    let Some((count, text)) = repeated(text) else {
        return push_named(bytes, text);
    };
    for number in 0..count {
        push_numbered(bytes, text, number)?;
    }
    Some(())
}

/// The bytes of a text.
pub fn bytes_of(alloc: Global, text: &str) -> Option<Vec<u8>> {
    let mut bytes = Vec::new(alloc);
    let mut parts = text.split('\\');
    bytes.extend_from_slice(parts.next()?.as_bytes()).ok()?;
    for part in parts {
        push_escaped(&mut bytes, part)?;
    }
    Some(bytes)
}
