//! What a run came to, by its status and the line that it printed.
use crate::order_rows::{broken_of, elem_of};
use irs_answers::{Refusal, Unread};
use irs_audit::{Departure, Field, RowKind};
use irs_calendar::CalErr;
use irs_cli::{Cause, Note, RunCause};
use irs_flows::{FlowErr, ShapeKind};
use irs_resets::FixErr;
use irs_terms::Place;

/// What a run came to that printed this line, without its end. `None` comes for a line that no run prints, and
/// for one with a rule or a field that the rows don't have.
pub fn cause_of(status: u8, line: &str) -> Option<RunCause> {
    match status {
        0 => Some(RunCause::Replied(done(line)?, Note::Nothing)),
        1 => Some(RunCause::Replied(not_agreed(line)?, Note::Nothing)),
        2 => Some(RunCause::Replied(Cause::Refused(refused(line)?), Note::Nothing)),
        3 => Some(RunCause::Replied(Cause::Refused(bad_file(line)?), Note::Nothing)),
        4 => Some(RunCause::BadWords),
        5 => Some(RunCause::NoFile(number_after(line, "no file ")?)),
        6 => Some(RunCause::PutFailed),
        7 => Some(RunCause::NoMemory),
        8 => Some(RunCause::TooLong(number_after(line, "too long ")?)),
        9 => Some(RunCause::NotText(number_after(line, "not text "))),
        _ => None,
    }
}

fn number_of(text: &str) -> Option<u32> {
    text.parse::<u32>().ok()
}

// The number that is all of a line after these words.
fn number_after(line: &str, words: &str) -> Option<u32> {
    number_of(line.strip_prefix(words)?)
}

// `yes ROWS UNFIXED`, or any other text.
fn done(line: &str) -> Option<Cause> {
    let Some(counts) = line.strip_prefix("yes ") else {
        return Some(Cause::Done);
    };
    let (_, unfixed) = counts.split_once(' ')?;
    match number_of(unfixed)? {
        0 => Some(Cause::Done),
        unfixed => Some(Cause::Uncompared(unfixed)),
    }
}

// `no STREAM KIND ROW FIELD`, or the first line of a list of breaks.
fn not_agreed(line: &str) -> Option<Cause> {
    let Some(rest) = line.strip_prefix("no ") else {
        return Some(Cause::Breaks);
    };
    let (stream, rest) = rest.split_once(' ')?;
    let (kind, rest) = rest.split_once(' ')?;
    let (row, field) = rest.split_once(' ')?;
    Some(Cause::NotAgreed(Departure {
        stream: stream.parse::<u8>().ok()?,
        kind: kind_of(kind)?,
        row: number_of(row)?,
        field: field_of(field)?,
    }))
}

fn kind_of(name: &str) -> Option<RowKind> {
    match name {
        "stream" => Some(RowKind::Stream),
        "exchange" => Some(RowKind::Exchange),
        "payment" => Some(RowKind::Payment),
        "period" => Some(RowKind::Period),
        "reset" => Some(RowKind::Reset),
        _ => None,
    }
}

// A field by its name; the rows have these.
fn field_of(name: &str) -> Option<Field> {
    match name {
        "missing" => Some(Field::Missing),
        "extra" => Some(Field::Extra),
        "amount" => Some(Field::Amount),
        _ => None,
    }
}

// `refused RULE STREAM PATH INDEX`; K1 has the place where the reading stopped after it.
fn refused(line: &str) -> Option<Refusal> {
    match line.strip_prefix("refused K1 0 document 0") {
        Some(rest) => Some(Refusal::Unreadable(unread(rest)?)),
        None => Some(Refusal::Rule(broken_of(line.strip_prefix("refused ")?)?)),
    }
}

// ` at LINE COLUMN` for JSON, and ` in XML at LINE COLUMN`.
fn unread(rest: &str) -> Option<Unread> {
    if let Some(place) = rest.strip_prefix(" in XML at ") {
        let (line, column) = line_and_column(place)?;
        return Some(Unread::Xml { line, column });
    }
    let (line, column) = line_and_column(rest.strip_prefix(" at ")?)?;
    Some(Unread::Json { line, column })
}

// `LINE COLUMN`.
fn line_and_column(place: &str) -> Option<(u32, u32)> {
    let (line, column) = place.split_once(' ')?;
    Some((number_of(line)?, number_of(column)?))
}

// A calendar, fixing or flow file that is at fault.
fn bad_file(line: &str) -> Option<Refusal> {
    if let Some(rest) = line.strip_prefix("bad calendar ") {
        Some(Refusal::Calendars(bad_calendar(rest)?))
    } else if let Some(rest) = line.strip_prefix("bad fixings ") {
        Some(Refusal::Fixings(bad_fixings(rest)?))
    } else {
        flows_at_fault(line.strip_prefix("bad flows ")?)
    }
}

// `FILE LINE FAULT`.
fn bad_calendar(text: &str) -> Option<CalErr> {
    let (file, rest) = text.split_once(' ')?;
    let (line, fault) = rest.split_once(' ')?;
    let (file, line) = (number_of(file)?, number_of(line)?);
    match fault {
        "syntax" => Some(CalErr::Syntax(file, line)),
        "repeat" => Some(CalErr::Repeat(file, line)),
        "toomany" => Some(CalErr::TooMany(file, line)),
        _ => None,
    }
}

// `LINE FAULT`.
fn bad_fixings(text: &str) -> Option<FixErr> {
    let (line, fault) = text.split_once(' ')?;
    let line = number_of(line)?;
    match fault {
        "syntax" => Some(FixErr::Syntax(line)),
        "repeat" => Some(FixErr::Repeat(line)),
        _ => None,
    }
}

// `KIND STREAM PATH INDEX`; `notjson` has the place where the reading stopped after it.
fn flows_at_fault(text: &str) -> Option<Refusal> {
    match text.strip_prefix("notjson 0 document 0") {
        Some(rest) => Some(Refusal::UnreadableFlows(unread(rest)?)),
        None => Some(Refusal::Flows(bad_flows(text)?)),
    }
}

// `KIND STREAM PATH INDEX`.
fn bad_flows(text: &str) -> Option<FlowErr> {
    let (kind, rest) = text.split_once(' ')?;
    let (stream, rest) = rest.split_once(' ')?;
    let (path, index) = rest.split_once(' ')?;
    let place = Place {
        stream: stream.parse::<u8>().ok()?,
        elem: elem_of(path)?,
        index: number_of(index)?,
    };
    Some(FlowErr::Shape(shape_of(kind)?, place))
}

fn shape_of(name: &str) -> Option<ShapeKind> {
    match name {
        "notjson" => Some(ShapeKind::NotJson),
        "missing" => Some(ShapeKind::Missing),
        "kind" => Some(ShapeKind::Kind),
        "unknown" => Some(ShapeKind::Unknown),
        "profile" => Some(ShapeKind::Profile),
        "value" => Some(ShapeKind::Value),
        "count" => Some(ShapeKind::Count),
        _ => None,
    }
}
