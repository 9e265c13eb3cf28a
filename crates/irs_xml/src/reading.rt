//! The value that the bytes of an FpML document in XML mean.
ghost use Rattle.irs_xml.specs.Characters.{is_char as is_char_of, without_mark};
ghost use Rattle.irs_xml.specs.Document.{XmlReads, PlaceIn, ReadsNone};
ghost use Rattle.irs_xml.specs.Private.Reading.{IsNotXml, GivesValue, document_at};
ghost use Rattle.irs_xml.specs.Content.{text_size};
ghost use Rattle.serde_json.specs.Data.{Data};
ghost use Rattle.serde_json.specs.View.{view};
ghost use Rattle.std.specs.List.{list_all};
ghost use Rattle.std.specs.Prelude.{◌≡◌, ◌^◌, ◌-◌, ◌<◌, ◌≤◌, ℕ, List, IfErr, IfOk, MatchOption, true, false, length};
ghost use Rattle.std.specs.Str.{chars};

use crate::chars::{is_ascii_char, is_char};
use crate::document::document;
use crate::failure::Failure;
use crate::places::place;
use crate::reader::Reader;
use serde_json::Value;
use std::alloc::Global;
use std::str;
use thiserror::Error;

/// Why bytes gave no value.
#[derive(Clone, Copy, Debug, PartialEq, Eq, Error)]
pub enum XmlErr {
    /// The bytes have no reading. The line and the column, from 1 and in bytes, are where the
    /// reader stopped.
    #[error("line {0}, column {1}: not XML that is read here")]
    NotXml(u32, u32),
    /// There was no memory for the value.
    #[error("out of memory")]
    Memory,
}

/// The value that the bytes mean. `NotXml` comes exactly where they mean none.
pub fn read_xml(alloc: Global, bytes: &[u8]) -> Result<Value, XmlErr>
    ensures reads { IfOk result (λ v. XmlReads bytes.now (view v)) }
    ensures none { IfErr result (λ e. ReadsNone bytes.now e) }
    ensures place { length bytes.now < 2 ^ 32 - 1 → IfErr result (λ e. PlaceIn bytes.now e) }
{
    let text = match str::from_utf8(bytes) {
        Ok(text) => text,
        Err(error) => return Err(stopped(bytes, error.valid_up_to())),
    };
    if let Some(left) = forbidden(text) {
        return Err(stopped(bytes, bytes.len().saturating_sub(left)));
    }
    let mut reader = Reader::new(text);
    match unmarked(&mut reader, alloc) {
        Ok(value) => Ok(value),
        Err(Failure::Memory) => Err(XmlErr::Memory),
        Err(Failure::NotXml) => Err(stopped(bytes, bytes.len().saturating_sub(reader.left()))),
    }
}

/// At most one value is read from the same bytes.
pub fn one_value()
    ensures { (bytes : List ℕ) (d e : Data) → XmlReads bytes d → XmlReads bytes e → d ≡ e }
{}

/// The strings of a value have no more bytes together than its document: nothing expands.
pub fn no_larger()
    ensures { (bytes : List ℕ) (d : Data) → XmlReads bytes d → text_size d ≤ length bytes }
{}

// The document after one byte order mark, where one is in front.
fn unmarked(reader: &mut Reader<'_>, alloc: Global) -> Result<Value, Failure>
    ensures { GivesValue view result (document_at (without_mark reader.old)) }
{
    let _marked = reader.eat_char('\u{FEFF}');
    document(reader, alloc)
}

// The error for bytes that stop making sense here.
fn stopped(bytes: &[u8], at: usize) -> XmlErr
    ensures place { length bytes.now < 2 ^ 32 - 1 → PlaceIn bytes.now result }
    ensures kind { IsNotXml result }
{
    let (line, column) = place(bytes, at);
    XmlErr::NotXml(line, column)
}

// How many bytes are left at the first character that XML doesn't allow, if there is one.
fn forbidden(text: &str) -> Option<usize>
    ensures { MatchOption result (list_all is_char_of (chars text.now) ≡ true) (λ _. list_all is_char_of (chars text.now) ≡ false) }
{
    let mut left = text;
    loop {
        match left.as_bytes().first() {
            Some(byte) if is_ascii_char(*byte) => left = &left[1..],
            _ => {
                let mut behind = left.chars();
                let Some(c) = behind.next() else {
                    return None;
                };
                if !is_char(c) {
                    return Some(left.len());
                }
                left = behind.as_str();
            }
        }
    }
}
