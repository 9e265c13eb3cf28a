//! The rows of FpML XML: what a document means as JSON, or where reading stopped.
use crate::told::Told;
use crate::xml_texts::bytes_of;
use irs_json::Value;
use irs_xml::{XmlErr, read_xml};
use std::alloc::Global;

fn tell_json(told: &mut Told, alloc: Global, value: &Value) -> Option<()> {
    let text = value.to_string(alloc).ok()?;
    told.text(&text);
    Some(())
}

// The JSON text of a document, or `refused`.
fn tell_meaning(told: &mut Told, alloc: Global, bytes: &[u8]) -> Option<()> {
    match read_xml(alloc, bytes) {
        Ok(value) => tell_json(told, alloc, &value),
        Err(XmlErr::NotXml(_, _)) => {
            told.text("refused");
            Some(())
        }
        Err(XmlErr::Memory) => None,
    }
}

// The line and the column where reading stopped, or `none`.
fn tell_place(told: &mut Told, alloc: Global, bytes: &[u8]) -> Option<()> {
    match read_xml(alloc, bytes) {
        Ok(_) => told.text("none"),
        Err(XmlErr::NotXml(line, column)) => {
            told.number(line);
            told.text(":");
            told.number(column);
        }
        Err(XmlErr::Memory) => return None,
    }
    Some(())
}

/// Reports what is answered of a document in XML.
pub fn tell_xml(told: &mut Told, alloc: Global, question: &str, text: &str) -> Option<()> {
    let bytes = bytes_of(alloc, text)?;
    match question {
        "means" => tell_meaning(told, alloc, &bytes),
        "stops" => tell_place(told, alloc, &bytes),
        _ => None,
    }
}
