//! The two forms of a document's text, and the value that it means.
ghost use Rattle.irs_answers.specs.Forms.{TextReads, json_text, no_source_text, source_by, xml_text};
ghost use Rattle.irs_answers.specs.Due.{ReadFails, of_json, of_xml};
ghost use Rattle.irs_json.specs.Reading.{Reads};
ghost use Rattle.irs_xml.specs.Document.{XmlReads};
ghost use Rattle.serde_json.specs.View.{view};
ghost use Rattle.std.specs.Prelude.{◌≡◌, IfErr, IfOk};

use irs_json::{JsonErr, Value, parse};
use irs_xml::{XmlErr, read_xml};
use std::alloc::Global;

/// How the text of a document or of cash flows carries FpML.
#[derive(Clone, Copy)]
pub enum Form {
    /// A JSON text (RFC 8259, as `serde_json` reads it).
    Json,
    /// FpML XML.
    Xml,
}

/// The text of a document or of cash flows, and its form.
#[derive(Drop)]
pub struct Source {
    /// How the bytes are read.
    pub form: Form,
    /// The text.
    pub bytes: Vec<u8>,
}

impl Source {
    /// The empty text, as JSON.
    pub(crate) fn empty(alloc: Global) -> Source
        ensures { source_by result ≡ no_source_text }
    {
        Source {
            form: Form::Json,
            bytes: Vec::new(alloc),
        }
    }
}

/// How a text has no reading.
#[derive(Clone, Copy)]
pub enum Unread {
    /// It isn't JSON. The line and the column, from 1 and in bytes, are where the reader stopped.
    Json { line: u32, column: u32 },
    /// It isn't XML that is read here. The line and the column are the same.
    Xml { line: u32, column: u32 },
}

/// Why a text gave no value.
#[derive(Clone, Copy)]
pub enum ReadErr {
    /// The text has no reading in its form.
    Unreadable(Unread),
    /// Memory ran out.
    Memory,
}

impl From<JsonErr> for ReadErr {
    ghost from_gives = { λ e r. r ≡ of_json e };

    fn from(e: JsonErr) -> ReadErr {
        match e {
            JsonErr::NotJson(line, column) => ReadErr::Unreadable(Unread::Json { line, column }),
            JsonErr::Memory => ReadErr::Memory,
        }
    }
}

impl From<XmlErr> for ReadErr {
    ghost from_gives = { λ e r. r ≡ of_xml e };

    fn from(e: XmlErr) -> ReadErr {
        match e {
            XmlErr::NotXml(line, column) => ReadErr::Unreadable(Unread::Xml { line, column }),
            XmlErr::Memory => ReadErr::Memory,
        }
    }
}

/// The value that a text means in its form. `Unreadable` comes only where it means none, and says where the
/// reading stopped.
pub fn read_document(alloc: Global, source: &Source) -> Result<Value, ReadErr>
    ensures reads { IfOk result (λ v. TextReads (source_by source.now) (view v)) }
    ensures fails { IfErr result (λ e. ReadFails (source_by source.now) e) }
{
    match source.form {
        Form::Json => read_json(alloc, &source.bytes),
        Form::Xml => read_fpml(alloc, &source.bytes),
    }
}

// The value of a JSON text.
fn read_json(alloc: Global, bytes: &[u8]) -> Result<Value, ReadErr>
    ensures reads { IfOk result (λ v. Reads bytes.now (view v)) }
    ensures fails { IfErr result (λ e. ReadFails (json_text bytes.now) e) }
{
    Ok(parse(alloc, bytes)?)
}

/// The value of FpML XML. `Unreadable` comes only where the bytes mean none, and says where the reading stopped.
pub(crate) fn read_fpml(alloc: Global, bytes: &[u8]) -> Result<Value, ReadErr>
    ensures reads { IfOk result (λ v. XmlReads bytes.now (view v)) }
    ensures fails { IfErr result (λ e. ReadFails (xml_text bytes.now) e) }
{
    Ok(read_xml(alloc, bytes)?)
}
