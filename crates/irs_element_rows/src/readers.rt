//! What the readers and the command `audit` report of a document.
use crate::flow_lines::tell_flows;
use crate::swap_lines::tell_swap;
use crate::told::Told;
use crate::values::Tell;
use crate::words::words_of;
use irs_calendar::Calendars;
use irs_cli::{MemFiles, MemSink, run};
use irs_emit::emit_flows;
use irs_flows::{FlowErr, ShapeKind, read_flows};
use irs_json::Value;
use irs_read::{ReadErr, read_swap};
use irs_resets::Fixings;
use irs_rules::check_terms;
use irs_schedule::{Schedule, make_schedule};
use std::alloc::Global;

/// What reads a document.
#[derive(Clone, Copy)]
pub enum Reader {
    /// `read_swap` of irs_read: the terms of a swap.
    Terms,
    /// `read_flows` of irs_flows: cash flows.
    Flows,
    /// `run` of irs_cli: whether the cash flows among the terms agree with them.
    Audit,
    /// `emit_flows` of irs_emit: the cash flows of the schedule of a swap.
    Emit,
}

fn tell_terms(told: &mut Told, alloc: Global, document: &Value) -> Option<()> {
    match read_swap(alloc, document) {
        Ok(swap) => tell_swap(told, &swap),
        Err(ReadErr::Memory) => return None,
        Err(ReadErr::Broken(broken)) => {
            broken.tell(told);
            told.end_line();
        }
    }
    Some(())
}

// The name of a kind of fault, and a space.
fn kind_text(kind: ShapeKind) -> &'static str {
    match kind {
        ShapeKind::NotJson => "notjson ",
        ShapeKind::Missing => "missing ",
        ShapeKind::Kind => "kind ",
        ShapeKind::Unknown => "unknown ",
        ShapeKind::Profile => "profile ",
        ShapeKind::Value => "value ",
        ShapeKind::Count => "count ",
    }
}

fn tell_read_flows(told: &mut Told, alloc: Global, document: &Value) -> Option<()> {
    match read_flows(alloc, document) {
        Ok(flows) => tell_flows(told, &flows),
        Err(FlowErr::Memory) => return None,
        Err(FlowErr::Shape(kind, place)) => {
            told.text(kind_text(kind));
            place.tell(told);
            told.end_line();
        }
    }
    Some(())
}

// What the command `audit` prints of files.
fn tell_run(told: &mut Told, alloc: Global, words: &[String], files: &mut MemFiles) -> Option<()> {
    let mut out = MemSink::with_room(alloc, 100).ok()?;
    run(alloc, words, files, &mut out);
    told.lines(out.bytes());
    Some(())
}

// What the command `audit` prints, where the text is the terms and the cash flows.
fn tell_audited(told: &mut Told, alloc: Global, text: &str) -> Option<()> {
    let mut files = MemFiles::new(alloc);
    files.add("D", text.as_bytes()).ok()?;
    match words_of(alloc, "audit D - D") {
        Some(words) => tell_run(told, alloc, &words, &mut files),
        None => None,
    }
}

fn tell_audit(told: &mut Told, alloc: Global, document: &Value) -> Option<()> {
    let text = document.to_string(alloc).ok()?;
    tell_audited(told, alloc, &text)
}

// The schedule of a swap without calendars and fixings.
fn schedule_of(alloc: Global, document: &Value) -> Option<Schedule> {
    let Ok(swap) = read_swap(alloc, document) else {
        return None;
    };
    let calendars = Calendars::read(alloc, &[]).ok()?;
    match check_terms(&swap, &calendars) {
        Some(_) => None,
        None => make_schedule(alloc, &swap, &calendars, &Fixings::none()).ok(),
    }
}

fn tell_emitted(told: &mut Told, alloc: Global, document: &Value) -> Option<()> {
    let schedule = schedule_of(alloc, document)?;
    let flows = emit_flows(alloc, &schedule).ok()?;
    told.lines(&flows);
    Some(())
}

impl Reader {
    /// Reports the lines of a document: the first broken rule or the first fault with its place, or
    /// what was read. Of an audit it reports what the command prints, and also the cash flows that
    /// are emitted.
    pub fn tell(self, told: &mut Told, alloc: Global, document: &Value) -> Option<()> {
        match self {
            Reader::Terms => tell_terms(told, alloc, document),
            Reader::Flows => tell_read_flows(told, alloc, document),
            Reader::Audit => tell_audit(told, alloc, document),
            Reader::Emit => tell_emitted(told, alloc, document),
        }
    }
}
