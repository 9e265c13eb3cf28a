//! Files that are built from a shorter one.
//!
//! A line `*COUNT DATE TEXT` of it is COUNT lines of the text. There `$` is a day, from the date on,
//! and `#` a number, from 1 on. Any other line is as it is, and each line ends with a line feed.
use anyhow::{Context, Result};
use irs_base::{Day, Line, day_digits, plus, read_date};
use std::alloc::Global;

fn push_number(bytes: &mut Vec<u8>, number: u32) -> Result<()> {
    let mut digits = Line::new();
    digits.push_number(number);
    bytes.extend_from_slice(digits.bytes())?;
    Ok(())
}

// Appends what a byte of a text is on one of its lines.
fn push_byte(bytes: &mut Vec<u8>, byte: u8, day: Day, number: u32) -> Result<()> {
    match byte {
        b'$' => bytes.extend_from_slice(&day_digits(day))?,
        b'#' => push_number(bytes, number)?,
        _ => bytes.push(byte)?,
    }
    Ok(())
}

// Appends one of the lines of a text.
fn push_copy(bytes: &mut Vec<u8>, text: &str, day: Day, number: u32) -> Result<()> {
    for byte in text.as_bytes() {
        push_byte(bytes, *byte, day, number)?;
    }
    bytes.push(b'\n')?;
    Ok(())
}

// Appends a number of lines of a text.
fn push_copies(bytes: &mut Vec<u8>, count: u32, first: Day, text: &str) -> Result<()> {
    for k in 0..count {
        let day = plus(first, i64::from(k)).context("no day")?;
        push_copy(bytes, text, day, k.saturating_add(1))?;
    }
    Ok(())
}

// Appends the lines that `COUNT DATE TEXT` says.
fn push_counted(bytes: &mut Vec<u8>, line: &str) -> Result<()> {
    let (count, rest) = line.split_once(' ').context("no count")?;
    let (date, text) = rest.split_once(' ').context("no text")?;
    let count = count.parse::<u32>()?;
    let first = read_date(date.as_bytes()).context("no date")?;
    push_copies(bytes, count, first, text)
}

// Appends what a line is.
fn push_line(bytes: &mut Vec<u8>, line: &str) -> Result<()> {
    if let Some(counted) = line.strip_prefix("*") {
        return push_counted(bytes, counted);
    }
    bytes.extend_from_slice(line.as_bytes())?;
    bytes.push(b'\n')?;
    Ok(())
}

/// The file that is built from a text.
pub fn built(alloc: Global, text: &str) -> Result<Vec<u8>> {
    let mut bytes = Vec::new(alloc);
    for line in text.lines() {
        push_line(&mut bytes, line)?;
    }
    Ok(bytes)
}
