//! Files that rows give: the name of a file of `data/` after an `@`, or a text.
//!
//! In a text `\n` is the end of a line, `\r` a return, `\t` a tab, `\#` a `#`, and `\xff` that
//! byte. `\A` is `A` repeated the number of times that follows. `\D` is a line for each day from
//! 1901-01-01 on, the number of days that follows. What comes after a space there follows each day
//! on its line. `\.` ends such a number or text.
use irs_base::{Day, day_digits, plus};
use std::alloc::Global;
use std::fs;

/// What has a name after a `\`.
const ESCAPES: [(&str, &[u8]); 6] = [
    ("n", b"\n"),
    ("r", b"\r"),
    ("t", b"\t"),
    ("#", b"#"),
    ("xff", b"\xff"),
    (".", b""),
];

// Appends the number of `A` that a text says.
fn push_many(bytes: &mut Vec<u8>, count: &str) -> Option<()> {
    for _ in 0..count.parse::<u32>().ok()? {
        bytes.push(b'A').ok()?;
    }
    Some(())
}

// Appends a day and what follows it, with a space before, on a line.
fn push_day(bytes: &mut Vec<u8>, day: Day, after: &str) -> Option<()> {
    bytes.extend_from_slice(&day_digits(day)).ok()?;
    if !after.is_empty() {
        bytes.push(b' ').ok()?;
    }
    bytes.extend_from_slice(after.as_bytes()).ok()?;
    bytes.push(b'\n').ok()
}

// Appends a line for each of the number of days that a text says, with the rest of the text.
fn push_days(bytes: &mut Vec<u8>, text: &str) -> Option<()> {
    let (count, after) = text.split_once(' ').unwrap_or((text, ""));
    for k in 0..count.parse::<u32>().ok()? {
        push_day(bytes, plus(Day::earliest(), i64::from(k))?, after)?;
    }
    Some(())
}

// What has a name at the head of a text, and the rest of the text.
fn push_named(bytes: &mut Vec<u8>, text: &str) -> Option<()> {
    for (name, named) in ESCAPES {
        if let Some(rest) = text.strip_prefix(name) {
            bytes.extend_from_slice(named).ok()?;
            return bytes.extend_from_slice(rest.as_bytes()).ok();
        }
    }
    None
}

// The bytes that a text after a `\` means.
fn push_escaped(bytes: &mut Vec<u8>, text: &str) -> Option<()> {
    if let Some(count) = text.strip_prefix("A") {
        return push_many(bytes, count);
    }
    match text.strip_prefix("D") {
        Some(days) => push_days(bytes, days),
        None => push_named(bytes, text),
    }
}

fn push_text(bytes: &mut Vec<u8>, text: &str) -> Option<()> {
    let mut parts = text.split('\\');
    bytes.extend_from_slice(parts.next()?.as_bytes()).ok()?;
    for part in parts {
        push_escaped(bytes, part)?;
    }
    Some(())
}

/// The bytes of a text.
pub fn bytes_of(alloc: Global, text: &str) -> Option<Vec<u8>> {
    let mut bytes = Vec::new(alloc);
    push_text(&mut bytes, text)?;
    Some(bytes)
}

fn bytes_in(rt: &HostRuntime, name: &str) -> Option<Vec<u8>> {
    let text = fs::read_to_string(rt, name).ok()?;
    Vec::from_slice(rt.alloc(), text.as_bytes()).ok()
}

/// The bytes of a file that a row gives.
pub fn file_of(rt: &HostRuntime, text: &str) -> Option<Vec<u8>> {
    match text.strip_prefix("@") {
        Some(name) => bytes_in(rt, name),
        None => bytes_of(rt.alloc(), text),
    }
}
