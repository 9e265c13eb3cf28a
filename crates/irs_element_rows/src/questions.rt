//! What a row asks, and who answers.
use crate::edits::make_edits;
use crate::file_rows::tell_files;
use crate::json_rows::tell_json;
use crate::leaf_rows::tell_leaf;
use crate::note_rows::tell_note;
use crate::order_rows::tell_order;
use crate::readers::Reader;
use crate::sentence_rows::tell_sentence;
use crate::sink_rows::tell_sinks;
use crate::told::Told;
use crate::xml_rows::tell_xml;
use irs_json::{Value, parse};
use std::fs;

/// What the rows of a file ask about.
#[derive(Clone, Copy)]
pub enum Subject {
    /// Documents, by one of their readers.
    Documents(Reader),
    /// The texts of leaves, by irs_elements.
    Leaves,
    /// JSON texts, by irs_json, and by irs_read the way to the swap.
    Json,
    /// Documents in FpML XML, by irs_xml.
    Xml,
    /// The order of broken rules, by irs_elements.
    Order,
    /// Files in memory and real ones, by irs_outside.
    Files,
    /// Sinks in memory, by irs_outside.
    Sinks,
    /// The sentences on what runs came to, by irs_main.
    Sentences,
    /// What a sentence adds, by irs_main and irs_locate.
    Notes,
}

/// What a row asks.
#[derive(Clone, Copy)]
pub struct Question<'a> {
    /// What it asks about.
    subject: Subject,
    /// The kind of question, or the file of a document.
    kind: &'a str,
    /// The subject of the question, or the edits of the document.
    given: &'a str,
}

// The document of a file.
fn document_of(rt: &HostRuntime, file: &str) -> Option<Value> {
    let text = fs::read_to_string(rt, file).ok()?;
    parse(rt.alloc(), text.as_bytes()).ok()
}

impl<'a> Question<'a> {
    /// The question of a kind, with its subject.
    pub fn new(subject: Subject, kind: &'a str, given: &'a str) -> Question<'a> {
        Question {
            subject,
            kind,
            given,
        }
    }

    // The lines of a document after its edits.
    fn tell_document(self, told: &mut Told, rt: &HostRuntime, reader: Reader) -> Option<()> {
        let mut document = document_of(rt, self.kind)?;
        make_edits(rt.alloc(), &mut document, self.given)?;
        reader.tell(told, rt.alloc(), &document)
    }

    /// Reports the answer: of a document its lines, else one line.
    pub fn tell(self, told: &mut Told, rt: &HostRuntime) -> Option<()> {
        let (alloc, kind, given) = (rt.alloc(), self.kind, self.given);
        match self.subject {
            Subject::Documents(reader) => return self.tell_document(told, rt, reader),
            Subject::Leaves => tell_leaf(told, alloc, kind, given)?,
            Subject::Json => tell_json(told, alloc, kind, given)?,
            Subject::Xml => tell_xml(told, alloc, kind, given)?,
            Subject::Order => tell_order(told, kind, given)?,
            Subject::Files => tell_files(told, rt, kind, given)?,
            Subject::Sinks => tell_sinks(told, alloc, kind, given)?,
            Subject::Sentences => tell_sentence(told, alloc, kind, given)?,
            Subject::Notes => tell_note(told, alloc, kind, given)?,
        }
        told.end_line();
        Some(())
    }
}
