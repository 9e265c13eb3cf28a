//! The rows of what a sentence adds to what a reply says. Some have the payments that have no amount,
//! where a document breaks a rule, or how its text begins, and say the sentence. The others have a
//! document and a broken rule. They say the line of its element in FpML XML. Or they say the name of the
//! member that K4 or K5 means, or the text of the leaf. Or they say the sentence with the kind of the value (K3),
//! or with a roll and a day (K30). Or they say it with the centres that the calendar files have (K12).
use crate::order_rows::broken_of;
use crate::told::Told;
use crate::words::words_of;
use crate::xml_texts::bytes_of;
use irs_answers::{Front, Listed, Misfit, Note, Refusal, Spot, Unfixed, Unread};
use irs_base::{Names, Text, read_date};
use irs_cli::{Cause, RunCause};
use irs_elements::codes::roll;
use irs_json::parse;
use irs_locate::{Shape, kind_of, line_of, member_of, shape_at, text_of};
use irs_main::put_sentence;
use irs_outside::MemSink;
use irs_resets::tenor;
use irs_terms::Broken;
use itoa::Buffer;
use std::alloc::Global;

/// The most bytes of a sentence of the rows.
const ROOM: usize = 1024;

/// The words of the command in each row of a sentence.
const WORDS: &str = "breaks - terms.json - flows.json";

// Reports the sentence on what a run came to, or `none` where it is empty.
fn tell_said(told: &mut Told, alloc: Global, cause: &RunCause) -> Option<()> {
    let words = words_of(alloc, WORDS)?;
    let mut said = MemSink::with_room(alloc, ROOM).ok()?;
    put_sentence(&mut said, &words, cause).ok()?;
    if said.bytes().is_empty() {
        told.text("none");
    } else {
        told.bytes(said.bytes());
    }
    Some(())
}

// ---- payments without an amount

// A text, by the bytes that it has in the row.
fn index_of(alloc: Global, text: &str) -> Option<Text> {
    let bytes = bytes_of(alloc, text)?;
    Text::from_bytes(alloc, &bytes).ok()
}

// `COUNT PAYMENTS STREAM PAYMENT DAY TENOR INDEX`.
fn unfixed_of(alloc: Global, text: &str) -> Option<Unfixed> {
    let (count, rest) = text.split_once(' ')?;
    let (payments, rest) = rest.split_once(' ')?;
    let (stream, rest) = rest.split_once(' ')?;
    let (payment, rest) = rest.split_once(' ')?;
    let (day, rest) = rest.split_once(' ')?;
    let (tenor_text, index) = rest.split_once(' ')?;
    Some(Unfixed {
        count: count.parse::<u32>().ok()?,
        payments: payments.parse::<u32>().ok()?,
        stream: stream.parse::<u8>().ok()?,
        payment: payment.parse::<u32>().ok()?,
        index: index_of(alloc, index)?,
        tenor: tenor(tenor_text.as_bytes())?,
        day: read_date(day.as_bytes())?,
    })
}

// Reports the sentence where the payments of a text have no amount, after what else the run came to.
fn tell_amounts(told: &mut Told, alloc: Global, cause: Cause, text: &str) -> Option<()> {
    let unfixed = unfixed_of(alloc, text)?;
    let cause = RunCause::Replied(cause, Note::Unfixed(unfixed));
    tell_said(told, alloc, &cause)
}

// ---- a broken rule

// `-` for no line, or its number.
fn line_in(text: &str) -> Option<Option<u32>> {
    if text == "-" {
        return Some(None);
    }
    Some(Some(text.parse::<u32>().ok()?))
}

// `-` for no name, or the name of a member, a text or a centre as a JSON string.
fn name_in(alloc: Global, text: &str) -> Option<Option<Text>> {
    if text == "-" {
        return Some(None);
    }
    let value = parse(alloc, text.as_bytes()).ok()?;
    let name = value.as_str()?;
    Some(Some(Text::from_bytes(alloc, name.as_bytes()).ok()?))
}

// The spot with that line and that name: the text of a leaf for K6, a centre for K12, else a member. For K6
// it has the kind of the leaf too.
fn spot_with(broken: Broken, line: Option<u32>, name: Option<Text>) -> Spot {
    let (member, text, center) = match broken.rule.number() {
        6 => (None, name, None),
        12 => (None, None, name),
        _ => (name, None, None),
    };
    let kind = match broken.rule.number() {
        6 => kind_of(broken.place.elem),
        _ => None,
    };
    Spot {
        member,
        shape: None,
        text,
        kind,
        center,
        listed: None,
        misfit: None,
        line,
    }
}

// The spot that says the kind of a value, or a roll and a day.
fn spot_of(shape: Option<Shape>, misfit: Option<Misfit>) -> Spot {
    Spot {
        member: None,
        shape,
        text: None,
        kind: None,
        center: None,
        listed: None,
        misfit,
        line: None,
    }
}

// Reports the sentence on a broken rule with this spot.
fn tell_with(told: &mut Told, alloc: Global, broken: Broken, spot: Spot) -> Option<()> {
    let cause = Cause::Refused(Refusal::Rule(broken));
    let cause = RunCause::Replied(cause, Note::Spot(spot));
    tell_said(told, alloc, &cause)
}

// Reports the sentence with the kind of the value at the place in a JSON text.
fn tell_shape(told: &mut Told, alloc: Global, broken: Broken, text: &str) -> Option<()> {
    let document = parse(alloc, text.as_bytes()).ok()?;
    let shape = shape_at(&document, broken.place);
    tell_with(told, alloc, broken, spot_of(shape, None))
}

// Reports the sentence with `ROLL DAY`.
fn tell_roll(told: &mut Told, alloc: Global, broken: Broken, text: &str) -> Option<()> {
    let (code, day) = text.split_once(' ')?;
    let (roll, day) = (roll(code)?, read_date(day.as_bytes())?);
    tell_with(
        told,
        alloc,
        broken,
        spot_of(None, Some(Misfit { roll, day })),
    )
}

// Reports the sentence on a broken rule with `LINE NAME`.
fn tell_spot(told: &mut Told, alloc: Global, broken: Broken, text: &str) -> Option<()> {
    let (line, name) = text.split_once(' ')?;
    let spot = spot_with(broken, line_in(line)?, name_in(alloc, name)?);
    tell_with(told, alloc, broken, spot)
}

// `none` for no file, or `MORE` and the names of centres.
fn listed_in(alloc: Global, text: &str) -> Option<Listed> {
    if text == "none" {
        return Some(Listed::NoFile);
    }
    let words = words_of(alloc, text)?;
    let [more, others @ ..] = words.as_slice() else {
        return None;
    };
    let more = more.as_str().parse::<usize>().ok()?;
    let mut names = Names::new(alloc);
    for name in others {
        let name = Text::from_bytes(alloc, name.as_bytes()).ok()?;
        names.push(name).ok()?;
    }
    Some(Listed::Named(names, more))
}

// Reports the sentence with the centres that the calendar files have.
fn tell_listed(told: &mut Told, alloc: Global, broken: Broken, text: &str) -> Option<()> {
    let mut spot = spot_of(None, None);
    spot.listed = Some(listed_in(alloc, text)?);
    tell_with(told, alloc, broken, spot)
}

// Reports the line of the element of a broken rule in a document in XML.
fn tell_line(told: &mut Told, alloc: Global, broken: Broken, text: &str) -> Option<()> {
    let bytes = bytes_of(alloc, text)?;
    told.number(line_of(&bytes, broken.place));
    Some(())
}

// Reports the name of the member by which a JSON text breaks a rule, or `none`.
fn tell_member(told: &mut Told, alloc: Global, broken: Broken, text: &str) -> Option<()> {
    let document = parse(alloc, text.as_bytes()).ok()?;
    match member_of(&document, broken) {
        Some(name) => told.debug(&name),
        None => told.text("none"),
    }
    Some(())
}

// Reports the text of the leaf at the place of a broken rule in a JSON text, or `none`.
fn tell_text(told: &mut Told, alloc: Global, broken: Broken, text: &str) -> Option<()> {
    let document = parse(alloc, text.as_bytes()).ok()?;
    let mut digits = Buffer::new();
    match text_of(&document, broken.place, &mut digits) {
        Some(text) => told.debug(&text),
        None => told.text("none"),
    }
    Some(())
}

// A question on a broken rule: `QUESTION of RULE STREAM PATH INDEX`.
fn tell_of_rule(told: &mut Told, alloc: Global, question: &str, text: &str) -> Option<()> {
    let (question, broken) = question.split_once(" of ")?;
    let broken = broken_of(broken)?;
    match question {
        "sentence" => tell_spot(told, alloc, broken, text),
        "line" => tell_line(told, alloc, broken, text),
        "member" => tell_member(told, alloc, broken, text),
        "text" => tell_text(told, alloc, broken, text),
        "shape" => tell_shape(told, alloc, broken, text),
        "roll" => tell_roll(told, alloc, broken, text),
        "centres" => tell_listed(told, alloc, broken, text),
        _ => None,
    }
}

// ---- a document that isn't JSON

// Reports the sentence on a document that isn't JSON from its first byte on, with how its text begins: `mark` or
// `markup`.
fn tell_front(told: &mut Told, alloc: Global, text: &str) -> Option<()> {
    let front = match text {
        "mark" => Front::Mark,
        "markup" => Front::Markup,
        _ => return None,
    };
    let cause = Cause::Refused(Refusal::Unreadable(Unread::Json { line: 1, column: 1 }));
    let cause = RunCause::Replied(cause, Note::Front(front));
    tell_said(told, alloc, &cause)
}

/// Reports the sentence with what is added to it, the line of an element, the name of a member or the text
/// of a leaf.
pub fn tell_note(told: &mut Told, alloc: Global, question: &str, text: &str) -> Option<()> {
    match question {
        "done" => tell_amounts(told, alloc, Cause::Done, text),
        "uncompared" => tell_amounts(told, alloc, Cause::Uncompared(1), text),
        "breaks" => tell_amounts(told, alloc, Cause::Breaks, text),
        "begins" => tell_front(told, alloc, text),
        _ => tell_of_rule(told, alloc, question, text),
    }
}
