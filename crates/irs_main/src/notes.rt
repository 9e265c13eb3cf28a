//! What a sentence adds to what a reply says. It is how many payments have no amount, with the fixing that the
//! first of them lacks. Or it is where in its text a document breaks a rule, or how a text begins that isn't JSON.
ghost use Rattle.irs_outside.specs.Outside.{Grew, GrewByFront, Rose};
ghost use Rattle.irs_main.specs.Notes.{added as added_of, note_alone as alone_of, center_words as center_words_of};
ghost use Rattle.irs_main.specs.Notes.{day_intro as day_intro_of};
ghost use Rattle.irs_main.specs.Notes.{front_texts, front_words as front_words_of, is_fixed as is_fixed_of};
ghost use Rattle.irs_main.specs.Notes.{is_done as is_done_of, is_silent_reply as is_silent_reply_of};
ghost use Rattle.irs_main.specs.Notes.{line_number as line_number_of, line_words as line_words_of};
ghost use Rattle.irs_terms.specs.Elements.{name_or_empty as name_in_of};
ghost use Rattle.irs_main.specs.Notes.{member_words as member_words_of, note_of, noted};
ghost use Rattle.irs_main.specs.Notes.{roll_code as roll_code_of, roll_in as roll_in_of, roll_intro as roll_intro_of};
ghost use Rattle.irs_main.specs.Notes.{shape_of as shape_of_value, shape_words as shape_words_of, spot_added};
ghost use Rattle.irs_main.specs.Notes.{spot_on, spot_texts, tenor_count as tenor_count_of, tenor_gap as tenor_gap_of};
ghost use Rattle.irs_main.specs.Notes.{tenor_letter as tenor_letter_of, text_words as text_words_of};
ghost use Rattle.irs_main.specs.Notes.{unfixed_on, unit_letter as unit_letter_of};
ghost use Rattle.irs_main.specs.Notes.{value_in as value_in_of, value_intro as value_intro_of};
ghost use Rattle.irs_main.specs.Notes.{weekday_name as weekday_name_of};
ghost use Rattle.irs_main.specs.Shown.{joined_texts};
ghost use Rattle.irs_main.specs.Private.Parts.{dated_spot, part_text, said_by, unfixed_after};
ghost use Rattle.std.specs.Prelude.{◌≡◌, ◌∷◌, OnOk, OnErr};

use crate::centers::put_centers;
use crate::parts::{Part, put_parts};
use crate::values::value_words;
use crate::visible::dots;
use irs_answers::{Cause, Front, Leaf, Misfit, Note, Shape, Spot, Unfixed};
use irs_base::{Day, DayName, Text, day_digits};
use irs_cli::RunCause;
use irs_outside::{PutFailed, Sink};
use irs_terms::{Frequency, RollCode, Unit};

// ---- payments without an amount

// The letter of a unit.
fn unit_letter<'a>(unit: Unit) -> &'a [u8]
    ensures { result.now ≡ unit_letter_of unit }
{
    match unit {
        Unit::D => b"D",
        Unit::W => b"W",
        Unit::M => b"M",
        Unit::Y => b"Y",
        Unit::T => b"T",
    }
}

// A space before a tenor, where there is one.
fn tenor_gap<'a>(tenor: Option<Frequency>) -> &'a [u8]
    ensures { result.now ≡ tenor_gap_of tenor }
{
    match tenor {
        None => b"",
        Some(_) => b" ",
    }
}

// Its number of units.
fn tenor_count<'a>(tenor: Option<Frequency>) -> Part<'a>
    ensures { part_text result ≡ tenor_count_of tenor }
{
    match tenor {
        None => Part::Text(b""),
        Some(f) => Part::Number(u32::from(f.count)),
    }
}

// The letter of its unit.
fn tenor_letter<'a>(tenor: Option<Frequency>) -> &'a [u8]
    ensures { result.now ≡ tenor_letter_of tenor }
{
    match tenor {
        None => b"",
        Some(f) => unit_letter(f.unit),
    }
}

// How many payments have no amount, and the fixing that the first of them lacks, on the day of this text; `joint`
// comes before that.
fn unfixed_parts<'a>(joint: &'a [u8], unfixed: &'a Unfixed, day: &'a [u8]) -> [Part<'a>; 17]
    ensures { said_by result ≡ joined_texts (joint.now ∷ unfixed_on unfixed.now day.now) }
{
    let index = unfixed.index.as_slice();
    let tenor = unfixed.tenor;
    [
        Part::Text(joint),
        Part::Text(b"payments without an amount: "),
        Part::Number(unfixed.count),
        Part::Text(b" of "),
        Part::Number(unfixed.payments),
        Part::Text(b"; the first, payment "),
        Part::Number(unfixed.payment),
        Part::Text(b" of stream "),
        Part::Number(u32::from(unfixed.stream)),
        Part::Text(b", lacks a fixing for "),
        Part::Shown(index),
        Part::Text(dots(index)),
        Part::Text(tenor_gap(tenor)),
        tenor_count(tenor),
        Part::Text(tenor_letter(tenor)),
        Part::Text(b" on "),
        Part::Text(day),
    ]
}

// Writes that, after `joint`.
fn put_unfixed<S: Sink>(out: &mut S, joint: &[u8], unfixed: &Unfixed) -> Result<(), PutFailed>
    ensures ok { OnOk result (Grew (S.written out.old) (S.written out.new) (unfixed_after joint.now unfixed.now)) }
    ensures quiet { OnOk result (S.faults out.new ≡ S.faults out.old) }
    ensures err { OnErr result (GrewByFront (S.written out.old) (S.written out.new) (unfixed_after joint.now unfixed.now)) }
    ensures rose { OnErr result (Rose (S.faults out.old) (S.faults out.new)) }
{
    let day = day_digits(unfixed.day);
    put_parts(out, &unfixed_parts(joint, unfixed, &day))
}

// ---- where a document breaks a rule

// What comes before the name of a member, where there is one.
fn member_words<'a>(member: &Option<Text>) -> &'a [u8]
    ensures { result.now ≡ member_words_of member.now }
{
    match member {
        None => b"",
        Some(name) => match name.as_slice() {
            [] => b"; the name of the member is empty",
            [_, ..] => b"; the member is ",
        },
    }
}

// What comes before the text of a leaf, where there is one.
fn text_words<'a>(text: &Option<Text>) -> &'a [u8]
    ensures { result.now ≡ text_words_of text.now }
{
    match text {
        None => b"",
        Some(text) => match text.as_slice() {
            [] => b"; the text is empty",
            [_, ..] => b"; the text is ",
        },
    }
}

// What comes before the words for what a leaf has to be, where they are said.
fn value_intro<'a>(kind: Option<Leaf>) -> &'a [u8]
    ensures { result.now ≡ value_intro_of kind }
{
    match kind {
        None => b"",
        Some(_) => b"; it has to be ",
    }
}

// What a leaf has to be.
fn value_in<'a>(kind: Option<Leaf>) -> &'a [u8]
    ensures { result.now ≡ value_in_of kind }
{
    match kind {
        None => b"",
        Some(kind) => value_words(kind),
    }
}

// The kind of a value.
fn shape_of<'a>(shape: Shape) -> &'a [u8]
    ensures { result.now ≡ shape_of_value shape }
{
    match shape {
        Shape::Null => b"; it is null",
        Shape::Truth => b"; it is true or false",
        Shape::Whole => b"; it is a whole number",
        Shape::Fraction =>
            b"; it is a number with a point, an exponent or too many digits: write it as a text, in quotes: \"0.05\"",
        Shape::Text => b"; it is a text",
        Shape::List => b"; it is a list",
        Shape::Object => b"; it is an object",
    }
}

// The kind of the value, where there is one.
fn shape_words<'a>(shape: Option<Shape>) -> &'a [u8]
    ensures { result.now ≡ shape_words_of shape }
{
    match shape {
        None => b"",
        Some(shape) => shape_of(shape),
    }
}

// What comes before the name of a centre, where there is one.
fn center_words<'a>(center: &Option<Text>) -> &'a [u8]
    ensures { result.now ≡ center_words_of center.now }
{
    match center {
        None => b"",
        Some(_) => b"; the centre is ",
    }
}

// A weekday in a roll.
fn weekday_name<'a>(name: DayName) -> &'a [u8]
    ensures { result.now ≡ weekday_name_of name }
{
    match name {
        DayName::Mon => b"MON",
        DayName::Tue => b"TUE",
        DayName::Wed => b"WED",
        DayName::Thu => b"THU",
        DayName::Fri => b"FRI",
        DayName::Sat => b"SAT",
        DayName::Sun => b"SUN",
    }
}

// The code of a roll.
fn roll_code<'a>(roll: RollCode) -> Part<'a>
    ensures { part_text result ≡ roll_code_of roll }
{
    match roll {
        RollCode::Eom => Part::Text(b"EOM"),
        RollCode::Dom(day) => Part::Number(u32::from(day)),
        RollCode::Imm => Part::Text(b"IMM"),
        RollCode::OnWeekday(name) => Part::Text(weekday_name(name)),
        RollCode::NoRoll => Part::Text(b"NONE"),
    }
}

// What comes before the roll, where there is one.
fn roll_intro<'a>(misfit: Option<Misfit>) -> &'a [u8]
    ensures { result.now ≡ roll_intro_of misfit }
{
    match misfit {
        None => b"",
        Some(_) => b"; roll ",
    }
}

// The roll.
fn roll_in<'a>(misfit: Option<Misfit>) -> Part<'a>
    ensures { part_text result ≡ roll_in_of misfit }
{
    match misfit {
        None => Part::Text(b""),
        Some(misfit) => roll_code(misfit.roll),
    }
}

// What comes before the day that the roll doesn't fit.
fn day_intro<'a>(misfit: Option<Misfit>) -> &'a [u8]
    ensures { result.now ≡ day_intro_of misfit }
{
    match misfit {
        None => b"",
        Some(_) => b", day ",
    }
}

// The name or the text, empty where there is none.
fn name_in(name: &Option<Text>) -> &[u8]
    ensures { result.now ≡ name_in_of name.now }
{
    match name {
        None => b"",
        Some(name) => name.as_slice(),
    }
}

// What comes before the number of a line, where there is one.
fn line_words<'a>(line: Option<u32>) -> &'a [u8]
    ensures { result.now ≡ line_words_of line }
{
    match line {
        None => b"",
        Some(_) => b"; see line ",
    }
}

// The number of the line.
fn line_number<'a>(line: Option<u32>) -> Part<'a>
    ensures { part_text result ≡ line_number_of line }
{
    match line {
        None => Part::Text(b""),
        Some(line) => Part::Number(line),
    }
}

// The parts of a spot: the member, the kind of the value, the text and what it has to be. Then come the centre,
// the roll with the day of this text, and the line.
fn spot_parts<'a>(spot: &'a Spot, day: &'a [u8]) -> [Part<'a>; 18]
    ensures { said_by result ≡ joined_texts (spot_on spot.now day.now) }
{
    let member = name_in(&spot.member);
    let text = name_in(&spot.text);
    let center = name_in(&spot.center);
    [
        Part::Text(member_words(&spot.member)),
        Part::Shown(member),
        Part::Text(dots(member)),
        Part::Text(shape_words(spot.shape)),
        Part::Text(text_words(&spot.text)),
        Part::Shown(text),
        Part::Text(dots(text)),
        Part::Text(value_intro(spot.kind)),
        Part::Text(value_in(spot.kind)),
        Part::Text(center_words(&spot.center)),
        Part::Shown(center),
        Part::Text(dots(center)),
        Part::Text(roll_intro(spot.misfit)),
        roll_in(spot.misfit),
        Part::Text(day_intro(spot.misfit)),
        Part::Text(day),
        Part::Text(line_words(spot.line)),
        line_number(spot.line),
    ]
}

// Writes that, and then the centres that the calendar files have.
fn put_spot<S: Sink>(out: &mut S, spot: &Spot) -> Result<(), PutFailed>
    ensures ok { OnOk result (Grew (S.written out.old) (S.written out.new) (joined_texts (spot_added spot.now))) }
    ensures quiet { OnOk result (S.faults out.new ≡ S.faults out.old) }
    ensures err { OnErr result (GrewByFront (S.written out.old) (S.written out.new) (joined_texts (spot_added spot.now))) }
    ensures rose { OnErr result (Rose (S.faults out.old) (S.faults out.new)) }
{
    put_where(out, spot)?;
    put_centers(out, &spot.listed)
}

// Writes the former.
fn put_where<S: Sink>(out: &mut S, spot: &Spot) -> Result<(), PutFailed>
    ensures ok { OnOk result (Grew (S.written out.old) (S.written out.new) (joined_texts (spot_texts spot.now))) }
    ensures quiet { OnOk result (S.faults out.new ≡ S.faults out.old) }
    ensures err { OnErr result (GrewByFront (S.written out.old) (S.written out.new) (joined_texts (spot_texts spot.now))) }
    ensures rose { OnErr result (Rose (S.faults out.old) (S.faults out.new)) }
{
    match spot.misfit {
        None => put_parts(out, &spot_parts(spot, b"")),
        Some(misfit) => put_dated(out, spot, misfit.day),
    }
}

// The same with a day.
fn put_dated<S: Sink>(out: &mut S, spot: &Spot, day: Day) -> Result<(), PutFailed>
    ensures ok { OnOk result (Grew (S.written out.old) (S.written out.new) (dated_spot spot.now day)) }
    ensures quiet { OnOk result (S.faults out.new ≡ S.faults out.old) }
    ensures err { OnErr result (GrewByFront (S.written out.old) (S.written out.new) (dated_spot spot.now day)) }
    ensures rose { OnErr result (Rose (S.faults out.old) (S.faults out.new)) }
{
    let day = day_digits(day);
    put_parts(out, &spot_parts(spot, &day))
}

// ---- how a text begins that isn't JSON

// What is said of that.
fn front_words<'a>(front: Front) -> &'a [u8]
    ensures { result.now ≡ front_words_of front }
{
    match front {
        Front::Mark => b"; its text begins with a byte order mark",
        Front::Markup => b"; its text is XML, and a file of XML has a name that ends in .xml",
    }
}

// The same as parts.
fn front_parts<'a>(front: Front) -> [Part<'a>; 1]
    ensures { said_by result ≡ joined_texts (front_texts front) }
{
    [Part::Text(front_words(front))]
}

// Writes that.
fn put_front<S: Sink>(out: &mut S, front: Front) -> Result<(), PutFailed>
    ensures ok { OnOk result (Grew (S.written out.old) (S.written out.new) (joined_texts (front_texts front))) }
    ensures quiet { OnOk result (S.faults out.new ≡ S.faults out.old) }
    ensures err { OnErr result (GrewByFront (S.written out.old) (S.written out.new) (joined_texts (front_texts front))) }
    ensures rose { OnErr result (Rose (S.faults out.old) (S.faults out.new)) }
{
    put_parts(out, &front_parts(front))
}

// ---- what is added

/// Whether a reply with this note leaves nothing to say.
pub(crate) fn is_silent_reply(cause: Cause, note: &Note) -> bool
    ensures { result ≡ is_silent_reply_of cause note.now }
{
    is_done(cause) && is_fixed(note)
}

// Whether a reply says nothing without its note.
fn is_done(cause: Cause) -> bool
    ensures { result ≡ is_done_of cause }
{
    match cause {
        Cause::Done => true,
        Cause::Uncompared(_) => false,
        Cause::NotAgreed(_) => false,
        Cause::Breaks => false,
        Cause::Refused(_) => false,
    }
}

// Whether no payment lacks an amount.
fn is_fixed(note: &Note) -> bool
    ensures { result ≡ is_fixed_of note.now }
{
    match note {
        Note::Nothing => true,
        Note::Unfixed(_) => false,
        Note::Spot(_) => true,
        Note::Front(_) => true,
    }
}

/// Writes what is said after the sentence on what a run comes to.
pub(crate) fn put_note<S: Sink>(out: &mut S, cause: &RunCause) -> Result<(), PutFailed>
    ensures ok { OnOk result (Grew (S.written out.old) (S.written out.new) (joined_texts (note_of cause.now))) }
    ensures quiet { OnOk result (S.faults out.new ≡ S.faults out.old) }
    ensures err { OnErr result (GrewByFront (S.written out.old) (S.written out.new) (joined_texts (note_of cause.now))) }
    ensures rose { OnErr result (Rose (S.faults out.old) (S.faults out.new)) }
{
    match cause {
        RunCause::Replied(cause, note) => put_noted(out, *cause, note),
        RunCause::BadWords => put_parts(out, &[]),
        RunCause::NoFile(_) => put_parts(out, &[]),
        RunCause::PutFailed => put_parts(out, &[]),
        RunCause::NoMemory => put_parts(out, &[]),
        RunCause::TooLong(_) => put_parts(out, &[]),
        RunCause::NotText(_) => put_parts(out, &[]),
    }
}

// Writes what a note says after a reply.
fn put_noted<S: Sink>(out: &mut S, cause: Cause, note: &Note) -> Result<(), PutFailed>
    ensures ok { OnOk result (Grew (S.written out.old) (S.written out.new) (joined_texts (noted cause note.now))) }
    ensures quiet { OnOk result (S.faults out.new ≡ S.faults out.old) }
    ensures err { OnErr result (GrewByFront (S.written out.old) (S.written out.new) (joined_texts (noted cause note.now))) }
    ensures rose { OnErr result (Rose (S.faults out.old) (S.faults out.new)) }
{
    if is_done(cause) {
        put_alone(out, note)
    } else {
        put_added(out, note)
    }
}

// Writes what a note adds to a sentence.
fn put_added<S: Sink>(out: &mut S, note: &Note) -> Result<(), PutFailed>
    ensures ok { OnOk result (Grew (S.written out.old) (S.written out.new) (joined_texts (added_of note.now))) }
    ensures quiet { OnOk result (S.faults out.new ≡ S.faults out.old) }
    ensures err { OnErr result (GrewByFront (S.written out.old) (S.written out.new) (joined_texts (added_of note.now))) }
    ensures rose { OnErr result (Rose (S.faults out.old) (S.faults out.new)) }
{
    match note {
        Note::Nothing => put_parts(out, &[]),
        Note::Unfixed(unfixed) => put_unfixed(out, b"; ", unfixed),
        Note::Spot(spot) => put_spot(out, spot),
        Note::Front(front) => put_front(out, *front),
    }
}

// Writes what a note says where there is no sentence before it.
fn put_alone<S: Sink>(out: &mut S, note: &Note) -> Result<(), PutFailed>
    ensures ok { OnOk result (Grew (S.written out.old) (S.written out.new) (joined_texts (alone_of note.now))) }
    ensures quiet { OnOk result (S.faults out.new ≡ S.faults out.old) }
    ensures err { OnErr result (GrewByFront (S.written out.old) (S.written out.new) (joined_texts (alone_of note.now))) }
    ensures rose { OnErr result (Rose (S.faults out.old) (S.faults out.new)) }
{
    match note {
        Note::Nothing => put_parts(out, &[]),
        Note::Unfixed(unfixed) => put_unfixed(out, b"", unfixed),
        Note::Spot(_) => put_parts(out, &[]),
        Note::Front(_) => put_parts(out, &[]),
    }
}
