//! The sentence on what a run comes to, with the names of the files in question.
ghost use Rattle.irs_outside.specs.Outside.{Grew, GrewByFront, Rose};
ghost use Rattle.irs_audit.specs.Verdicts.{field_name, row_name};
ghost use Rattle.irs_terms.specs.Paths.{path_of};
ghost use Rattle.irs_cli.specs.declared.causes.RunCause.{RunCause as RunCauseSpec};
ghost use Rattle.irs_main.specs.Shown.{joined_texts};
ghost use Rattle.irs_main.specs.Private.Parts.{part_text, said, told_text};
ghost use Rattle.irs_main.specs.Sentences.{about as about_of, after_in as after_in_of};
ghost use Rattle.irs_main.specs.Sentences.{calendar_sentence as bad_calendar_of, bad_calendars as bad_calendars_of};
ghost use Rattle.irs_main.specs.Sentences.{bad_fixing as bad_fixing_of, fixings_sentence as bad_fixings_of};
ghost use Rattle.irs_main.specs.Sentences.{flows_sentence as bad_flows_of, bad_shape as bad_shape_of};
ghost use Rattle.irs_main.specs.Sentences.{some_break as some_break_of};
ghost use Rattle.irs_main.specs.Sentences.{column_stopped as column_stopped_of};
ghost use Rattle.irs_main.specs.Sentences.{departs as departs_of, ending as ending_of, help_hint as help_hint_of};
ghost use Rattle.irs_main.specs.Sentences.{is_of_field as is_of_field_of, is_silent as is_silent_of, is_unread as is_unread_of};
ghost use Rattle.irs_main.specs.Sentences.{line_stopped as line_stopped_of, no_document as no_document_of};
ghost use Rattle.irs_main.specs.Sentences.{no_flows as no_flows_of, unread_as as unread_as_of};
ghost use Rattle.irs_main.specs.Sentences.{no_memory as no_memory_of, no_text_sentence as no_text_of};
ghost use Rattle.irs_main.specs.Sentences.{of_field as of_field_of};
ghost use Rattle.irs_main.specs.Sentences.{index_told as index_told_of, not_agreed as not_agreed_of};
ghost use Rattle.irs_main.specs.Sentences.{number_unless_stream as number_unless_stream_of};
ghost use Rattle.irs_main.specs.Sentences.{number_unless_zero as number_unless_zero_of, rule_sentence as refused_of};
ghost use Rattle.irs_main.specs.Sentences.{refused_by as refused_by_of, replied as replied_of, run_sentence, sentence_of};
ghost use Rattle.irs_main.specs.Sentences.{stream_words as stream_words_of, told_texts, uncompared as uncompared_of};
ghost use Rattle.irs_main.specs.Sentences.{unless_stream as unless_stream_of, unless_zero as unless_zero_of};
ghost use Rattle.irs_main.specs.Sentences.{unreadable_sentence as unreadable_of, verb as verb_of};
ghost use Rattle.irs_cli.specs.Commands.{word_texts};
ghost use Rattle.std.specs.Prelude.{◌≡◌, ℕ, List, [], true, OnOk, OnErr};

use crate::cuts::is;
use crate::elements::{holder, name_words, possessive};
use crate::lookup::{after, before, row_of_rule, row_of_shape};
use crate::notes::{is_silent_reply, put_note};
use crate::parts::{Part, Sentence, of_parts, of_three, put_parts, short};
use crate::words::word_at;
use crate::wrong_words::{is_help, unlisted};
use irs_answers::{Refusal, Unread};
use irs_audit::Departure;
use irs_calendar::CalErr;
use irs_cli::{Cause, Role, RunCause, file_name};
use irs_flows::{FlowErr, ShapeKind};
use irs_outside::{PutFailed, Sink};
use irs_resets::FixErr;
use irs_terms::{Broken, Elem, Place, Rule};

// The first three parts of a sentence on a text, and the name of the text's file.
#[derive(Clone, Copy)]
struct Opening<'a> {
    first: &'a [u8],
    second: Part<'a>,
    third: &'a [u8],
    file: &'a [u8],
}

// ---- a broken rule

// The text, unless the number is 0.
fn unless_zero<'a>(number: u32, text: &'a [u8]) -> &'a [u8]
    ensures { result.now ≡ unless_zero_of number text.now }
{
    if number == 0 { b"" } else { text }
}

// The number, unless it is 0.
fn number_unless_zero<'a>(number: u32) -> Part<'a>
    ensures { part_text result ≡ number_unless_zero_of number }
{
    if number == 0 {
        Part::Text(b"")
    } else {
        Part::Number(number)
    }
}

// The index of a place, or 0 for a centre (K12), whose sentence doesn't give it.
fn index_told(rule: Rule, index: u32) -> u32
    ensures { result ≡ index_told_of rule index }
{
    if rule.number() == 12 { 0 } else { index }
}

// Whether the row is that of a text without a reading, a document or cash flows.
fn is_unread(row: usize) -> bool
    ensures { result ≡ is_unread_of row }
{
    row == row_of_rule(Rule::K1) || row == row_of_shape(ShapeKind::NotJson)
}

// What is said after the element of a text in the file of this name; an XML text without a reading has its
// own.
fn after_in<'a>(file: &[u8], row: usize) -> &'a [u8]
    ensures { result.now ≡ after_in_of file.now row }
{
    if file.ends_with(b".xml") && is_unread(row) {
        b" isn't XML that this program reads"
    } else {
        after(row)
    }
}

// The path of an element.
fn path_in<'a>(elem: Elem) -> &'a [u8]
    ensures { result.now ≡ path_of elem }
{
    &elem.path().as_bytes()[..]
}

// What a row of the table says of an element, after an opening of three parts.
fn about<'a>(
    opening: Opening<'a>,
    row: usize,
    stream: u32,
    path: &'a [u8],
    index: u32,
) -> Sentence<'a>
    ensures { said result
        ≡ joined_texts (about_of opening.entry.first.now (part_text opening.entry.second) opening.entry.third.now
        opening.entry.file.now row stream path.now index) }
{
    Sentence {
        parts: [
            Part::Text(opening.first),
            opening.second,
            Part::Text(opening.third),
            Part::Text(before(row)),
            Part::Text(holder(path)),
            Part::Text(possessive(holder(path))),
            Part::Text(name_words(path)),
            Part::Text(after_in(opening.file, row)),
            Part::Text(unless_zero(stream, b" (stream ")),
            number_unless_zero(stream),
            Part::Text(unless_zero(index, b", number ")),
            number_unless_zero(index),
            Part::Text(unless_zero(stream, b")")),
        ],
    }
}

// A rule is broken.
fn refused(words: &[String], broken: Broken) -> Sentence<'_>
    ensures { said result ≡ joined_texts (refused_of (word_texts words.now) broken) }
{
    let rule = broken.rule;
    let place = broken.place;
    let elem = place.elem;
    let opening = Opening {
        first: b"K",
        second: Part::Number(u32::from(rule.number())),
        third: b": ",
        file: file_name(words, Role::Document, 0),
    };
    let stream = u32::from(place.stream);
    about(
        opening,
        row_of_rule(rule),
        stream,
        path_in(elem),
        index_told(rule, place.index),
    )
}

// ---- a text without a reading

// The line where the reading stopped.
fn line_stopped<'a>(unread: Unread) -> Part<'a>
    ensures { part_text result ≡ line_stopped_of unread }
{
    match unread {
        Unread::Json { line, .. } => Part::Number(line),
        Unread::Xml { line, .. } => Part::Number(line),
    }
}

// The column where it stopped.
fn column_stopped<'a>(unread: Unread) -> Part<'a>
    ensures { part_text result ≡ column_stopped_of unread }
{
    match unread {
        Unread::Json { column, .. } => Part::Number(column),
        Unread::Xml { column, .. } => Part::Number(column),
    }
}

// What a row of the table says of a text without a reading, after an opening of three parts; and where the
// reading stopped.
fn unread_as<'a>(opening: Opening<'a>, row: usize, unread: Unread) -> Sentence<'a>
    ensures { said result
        ≡ joined_texts (unread_as_of opening.entry.first.now (part_text opening.entry.second) opening.entry.third.now
        opening.entry.file.now row unread) }
{
    of_parts(&[
        Part::Text(opening.first),
        opening.second,
        Part::Text(opening.third),
        Part::Text(before(row)),
        Part::Text(name_words(path_in(Elem::DOCUMENT))),
        Part::Text(after_in(opening.file, row)),
        Part::Text(b" (reading stopped at line "),
        line_stopped(unread),
        Part::Text(b", column "),
        column_stopped(unread),
        Part::Text(b")"),
    ])
}

// The document has no reading.
fn no_document(words: &[String], unread: Unread) -> Sentence<'_>
    ensures { said result ≡ joined_texts (no_document_of (word_texts words.now) unread) }
{
    let opening = Opening {
        first: b"K",
        second: Part::Number(u32::from(Rule::K1.number())),
        third: b": ",
        file: file_name(words, Role::Document, 0),
    };
    unread_as(opening, row_of_rule(Rule::K1), unread)
}

// The cash flows have no reading.
fn no_flows(words: &[String], unread: Unread) -> Sentence<'_>
    ensures { said result ≡ joined_texts (no_flows_of (word_texts words.now) unread) }
{
    let name = file_name(words, Role::Flows, 0);
    let opening = Opening {
        first: b"cash flows (",
        second: Part::Text(name),
        third: b"): ",
        file: name,
    };
    unread_as(opening, row_of_shape(ShapeKind::NotJson), unread)
}

// ---- a file at fault

// A line of the calendar file with that number is at fault.
fn bad_calendar<'a>(words: &'a [String], file: u32, line: u32, fault: &'a [u8]) -> Sentence<'a>
    ensures { said result ≡ joined_texts (bad_calendar_of (word_texts words.now) file line fault.now) }
{
    of_parts(&[
        Part::Text(b"calendar file "),
        Part::Number(file),
        Part::Text(b" ("),
        Part::Text(file_name(words, Role::Calendar, file.saturating_sub(1))),
        Part::Text(b"), line "),
        Part::Number(line),
        Part::Text(b": "),
        Part::Text(fault),
    ])
}

// A calendar file is at fault.
fn bad_calendars(words: &[String], e: CalErr) -> Sentence<'_>
    ensures { said result ≡ joined_texts (bad_calendars_of (word_texts words.now) e) }
{
    match e {
        CalErr::Syntax(file, line) => {
            bad_calendar(words, file, line, b"this line isn't allowed here")
        }
        CalErr::Repeat(file, line) => {
            bad_calendar(words, file, line, b"this centre is there already")
        }
        CalErr::TooMany(file, line) => {
            bad_calendar(words, file, line, b"a centre has at most 20,000 holidays")
        }
        CalErr::Memory => no_memory(),
    }
}

// A line of the fixing file is at fault.
fn bad_fixing<'a>(words: &'a [String], line: u32, fault: &'a [u8]) -> Sentence<'a>
    ensures { said result ≡ joined_texts (bad_fixing_of (word_texts words.now) line fault.now) }
{
    of_parts(&[
        Part::Text(b"fixing file ("),
        Part::Text(file_name(words, Role::Fixings, 0)),
        Part::Text(b"), line "),
        Part::Number(line),
        Part::Text(b": "),
        Part::Text(fault),
    ])
}

// The fixing file is at fault.
fn bad_fixings(words: &[String], e: FixErr) -> Sentence<'_>
    ensures { said result ≡ joined_texts (bad_fixings_of (word_texts words.now) e) }
{
    match e {
        FixErr::Syntax(line) => {
            bad_fixing(words, line, b"this line isn't DATE RATE TENOR INDEX")
        }
        FixErr::Repeat(line) => {
            bad_fixing(words, line, b"this date, tenor and index are there already")
        }
        FixErr::Memory => no_memory(),
    }
}

// The cash flows are out of shape.
fn bad_shape(words: &[String], kind: ShapeKind, place: Place) -> Sentence<'_>
    ensures { said result ≡ joined_texts (bad_shape_of (word_texts words.now) kind place) }
{
    let elem = place.elem;
    let name = file_name(words, Role::Flows, 0);
    let opening = Opening {
        first: b"cash flows (",
        second: Part::Text(name),
        third: b"): ",
        file: name,
    };
    let stream = u32::from(place.stream);
    about(
        opening,
        row_of_shape(kind),
        stream,
        path_in(elem),
        place.index,
    )
}

// The cash flows are at fault.
fn bad_flows(words: &[String], e: FlowErr) -> Sentence<'_>
    ensures { said result ≡ joined_texts (bad_flows_of (word_texts words.now) e) }
{
    match e {
        FlowErr::Shape(kind, place) => bad_shape(words, kind, place),
        FlowErr::Memory => no_memory(),
    }
}

// A task isn't carried out.
fn refused_by(words: &[String], refusal: Refusal) -> Sentence<'_>
    ensures { said result ≡ joined_texts (refused_by_of (word_texts words.now) refusal) }
{
    match refusal {
        Refusal::Unreadable(unread) => no_document(words, unread),
        Refusal::Rule(broken) => refused(words, broken),
        Refusal::Calendars(e) => bad_calendars(words, e),
        Refusal::Fixings(e) => bad_fixings(words, e),
        Refusal::UnreadableFlows(unread) => no_flows(words, unread),
        Refusal::Flows(e) => bad_flows(words, e),
        Refusal::Memory => no_memory(),
    }
}

// ---- cash flows that depart from the schedule

// Whether the departure is of a field, and not of a whole row.
fn is_of_field(field: &[u8]) -> bool
    ensures { result ≡ is_of_field_of field.now }
{
    !(is(field, "missing") || is(field, "extra"))
}

// What the cash flows do: the verb of a departure.
fn verb<'a>(field: &[u8]) -> &'a [u8]
    ensures { result.now ≡ verb_of field.now }
{
    if is(field, "missing") {
        b") lack "
    } else if is(field, "extra") {
        b") have "
    } else {
        b") depart from the schedule in "
    }
}

// The text where the departure is of a field.
fn of_field<'a>(field: &[u8], text: &'a [u8]) -> &'a [u8]
    ensures { result.now ≡ of_field_of field.now text.now }
{
    if is_of_field(field) { text } else { b"" }
}

// The text where the row isn't a stream as a whole.
fn unless_stream<'a>(kind: &[u8], text: &'a [u8]) -> &'a [u8]
    ensures { result.now ≡ unless_stream_of kind.now text.now }
{
    if is(kind, "stream") { b"" } else { text }
}

// The number of the row where that isn't a stream as a whole.
fn number_unless_stream<'a>(kind: &[u8], row: u32) -> Part<'a>
    ensures { part_text result ≡ number_unless_stream_of kind.now row }
{
    if is(kind, "stream") {
        Part::Text(b"")
    } else {
        Part::Number(row)
    }
}

// What comes before the number of the stream.
fn stream_words<'a>(kind: &[u8]) -> &'a [u8]
    ensures { result.now ≡ stream_words_of kind.now }
{
    if is(kind, "stream") {
        b"stream "
    } else {
        b" of stream "
    }
}

// What ends the sentence on a departure.
fn ending<'a>(field: &[u8]) -> &'a [u8]
    ensures { result.now ≡ ending_of field.now }
{
    if is(field, "extra") {
        b", and the schedule doesn't"
    } else {
        b""
    }
}

// The cash flows depart from the schedule, in a field or a row of these names.
fn departs<'a>(
    words: &'a [String],
    stream: u32,
    kind: &'a [u8],
    row: u32,
    field: &'a [u8],
) -> Sentence<'a>
    ensures { said result ≡ joined_texts (departs_of (word_texts words.now) stream kind.now row field.now) }
{
    of_parts(&[
        Part::Text(b"the cash flows ("),
        Part::Text(file_name(words, Role::Flows, 0)),
        Part::Text(verb(field)),
        Part::Text(of_field(field, field)),
        Part::Text(of_field(field, b" of ")),
        Part::Text(unless_stream(kind, kind)),
        Part::Text(unless_stream(kind, b" ")),
        number_unless_stream(kind, row),
        Part::Text(stream_words(kind)),
        Part::Number(stream),
        Part::Text(ending(field)),
    ])
}

// The name of the kind of row that departs.
fn kind_in<'a>(found: Departure) -> &'a [u8]
    ensures { result.now ≡ row_name found.kind }
{
    &found.kind.name().as_bytes()[..]
}

// The name of the field that departs.
fn field_in<'a>(found: Departure) -> &'a [u8]
    ensures { result.now ≡ field_name found.field }
{
    &found.field.name().as_bytes()[..]
}

// What an audit found.
fn not_agreed(words: &[String], found: Departure) -> Sentence<'_>
    ensures { said result ≡ joined_texts (not_agreed_of (word_texts words.now) found) }
{
    let stream = u32::from(found.stream);
    let (kind, field) = (kind_in(found), field_in(found));
    departs(words, stream, kind, found.row, field)
}

// The list of `breaks` has some.
fn some_break(words: &[String]) -> Sentence<'_>
    ensures { said result ≡ joined_texts (some_break_of (word_texts words.now)) }
{
    short(
        b"the cash flows (",
        file_name(words, Role::Flows, 0),
        b") depart from the schedule: each line of the list is one break",
    )
}

// ---- cash flows that agree as far as they were compared

// How many amounts weren't compared, as they lack a fixing.
fn uncompared(words: &[String], unfixed: u32) -> Sentence<'_>
    ensures { said result ≡ joined_texts (uncompared_of (word_texts words.now) unfixed) }
{
    of_parts(&[
        Part::Text(b"the cash flows ("),
        Part::Text(file_name(words, Role::Flows, 0)),
        Part::Text(b") agree, but amounts that lack a fixing weren't compared: "),
        Part::Number(unfixed),
    ])
}

// What a reply says.
fn replied(words: &[String], cause: Cause) -> Sentence<'_>
    ensures { said result ≡ joined_texts (replied_of (word_texts words.now) cause) }
{
    match cause {
        Cause::Done => short(b"", b"", b""),
        Cause::Uncompared(unfixed) => uncompared(words, unfixed),
        Cause::NotAgreed(found) => not_agreed(words, found),
        Cause::Breaks => some_break(words),
        Cause::Refused(refusal) => refused_by(words, refusal),
    }
}

// ---- a file that couldn't be read, memory that ran out, and a word that isn't text

// What is added where the name of a file asks for help.
fn help_hint<'a>(name: &[u8]) -> &'a [u8]
    ensures { result.now ≡ help_hint_of name.now }
{
    if is_help(name) {
        b" (irs --help explains the commands)"
    } else {
        b""
    }
}

// The file of this name couldn't be read.
fn unreadable(name: &[u8]) -> Sentence<'_>
    ensures { said result ≡ joined_texts (unreadable_of name.now) }
{
    short(b"couldn't be read: ", name, help_hint(name))
}

// Memory ran out.
fn no_memory<'a>() -> Sentence<'a>
    ensures { said result ≡ joined_texts no_memory_of }
{
    short(b"there wasn't enough memory", b"", b"")
}

// Which word isn't text, where its place is known.
fn no_text<'a>(place: Option<u32>) -> Sentence<'a>
    ensures { said result ≡ joined_texts (no_text_of place) }
{
    match place {
        None => short(b"a word of the command line isn't text", b"", b""),
        Some(n) => of_three(
            Part::Text(b"word "),
            Part::Number(n),
            Part::Text(b" isn't text"),
        ),
    }
}

// ---- what a run comes to

// The parts of the sentence without its note; they are empty where there is nothing to say but a note.
fn say<'a>(words: &'a [String], cause: &RunCause) -> Sentence<'a>
    ensures { said result ≡ joined_texts (told_texts (word_texts words.now) cause.now) }
{
    match cause {
        RunCause::Replied(cause, _) => replied(words, *cause),
        RunCause::BadWords => unlisted(words),
        RunCause::NoFile(place) => unreadable(word_at(words, *place as usize)),
        RunCause::PutFailed => short(b"the text couldn't be written to standard output", b"", b""),
        RunCause::NoMemory => no_memory(),
        RunCause::TooLong(place) => short(
            word_at(words, *place as usize),
            b" has more than 4,194,304 bytes",
            b"",
        ),
        RunCause::NotText(place) => no_text(*place),
    }
}

/// Whether there is nothing to say of what a run comes to. That is so where the command is done, and an audit has
/// compared each amount. As far as the command states amounts, each payment has its amount.
pub(crate) fn is_silent(cause: &RunCause) -> bool
    ensures { result ≡ is_silent_of cause.now }
{
    match cause {
        RunCause::Replied(cause, note) => is_silent_reply(*cause, note),
        RunCause::BadWords => false,
        RunCause::NoFile(_) => false,
        RunCause::PutFailed => false,
        RunCause::NoMemory => false,
        RunCause::TooLong(_) => false,
        RunCause::NotText(_) => false,
    }
}

/// Writes what a run comes to, in one sentence with its note, and nothing after a write that failed. `words` are
/// the words of the command line; the first is the command. The sentence is empty exactly where there
/// is nothing to say. It takes no memory.
pub fn put_sentence<S: Sink>(
    out: &mut S,
    words: &[String],
    cause: &RunCause,
) -> Result<(), PutFailed>
    ensures ok { OnOk result (Grew (S.written out.old) (S.written out.new) (run_sentence words.now cause.now)) }
    ensures quiet { OnOk result (S.faults out.new ≡ S.faults out.old) }
    ensures err { OnErr result (GrewByFront (S.written out.old) (S.written out.new) (run_sentence words.now cause.now)) }
    ensures rose { OnErr result (Rose (S.faults out.old) (S.faults out.new)) }
{
    put_told(out, words, cause)?;
    put_note(out, cause)
}

/// A law: the sentence is empty exactly where there is nothing to say.
pub fn silence_is_empty()
    ensures empty { (words : List (List ℕ)) (c : RunCauseSpec) → is_silent_of c ≡ true → sentence_of words c ≡ [] }
    ensures only { (words : List (List ℕ)) (c : RunCauseSpec) → sentence_of words c ≡ [] → is_silent_of c ≡ true }
{}

// Writes the sentence without its note.
fn put_told<S: Sink>(out: &mut S, words: &[String], cause: &RunCause) -> Result<(), PutFailed>
    ensures ok { OnOk result (Grew (S.written out.old) (S.written out.new) (told_text words.now cause.now)) }
    ensures quiet { OnOk result (S.faults out.new ≡ S.faults out.old) }
    ensures err { OnErr result (GrewByFront (S.written out.old) (S.written out.new) (told_text words.now cause.now)) }
    ensures rose { OnErr result (Rose (S.faults out.old) (S.faults out.new)) }
{
    let sentence = say(words, cause);
    put_parts(out, &sentence.parts)
}
