//! Where in the text of a document a rule is broken, beyond its place: what the sentence on a refusal adds. That it
//! is said is our rule.
ghost use Rattle.std.specs.Prelude.{◌≡◌, IfSome};
ghost use Rattle.irs_answers.specs.Due.{AreRead};
ghost use Rattle.irs_answers.specs.Forms.{source_by, files_given_by};
ghost use Rattle.irs_answers.specs.Notes.{IsCenterIf, IsKindAt, IsKindIf, IsLineIn, IsListIf, IsMemberIf, IsMemberIn};
ghost use Rattle.irs_answers.specs.Notes.{IsMisfitIf, IsShapeIf, IsShapeIn, IsSpot, IsTextIf, IsTextIn, is_of_center};
ghost use Rattle.irs_answers.specs.Notes.{is_of_member, is_of_roll, is_of_shape, is_of_text};

use crate::centers::center_at;
use crate::common::Common;
use crate::forms::{Form, Source, read_document};
use crate::listed::{Listed, listed_centers};
use crate::misfits::{Misfit, misfit_at};
use irs_base::{Memory, Text};
use irs_locate::{Leaf, Shape, kind_of, line_of, member_of, shape_at, text_of};
use irs_terms::{Broken, Elem, Place, Rule};
use itoa::Buffer;
use std::alloc::Global;

/// Where in the text of a document a rule is broken, beyond the place in the line.
#[derive(Drop)]
pub struct Spot {
    /// The name of the member, for K4 and K5.
    pub member: Option<Text>,
    /// The kind of the value that is there, for K3.
    pub shape: Option<Shape>,
    /// The text of the leaf, for K6.
    pub text: Option<Text>,
    /// The kind of leaf that it has to be, for K6.
    pub kind: Option<Leaf>,
    /// The name of the centre, for K12.
    pub center: Option<Text>,
    /// The centres that the calendar files have, for K12.
    pub listed: Option<Listed>,
    /// The roll and the day that it doesn't fit, for K30.
    pub misfit: Option<Misfit>,
    /// The line of the element in FpML XML, from 1.
    pub line: Option<u32>,
}

/// Where the document breaks a rule. The calendar files were read before.
pub(crate) fn spot_of(alloc: Global, document: &Source, common: &Common, broken: &Broken) -> Spot
    requires { AreRead common.now }
    ensures { IsSpot (source_by document.now) (files_given_by common.now.files).calendars broken.now result }
{
    Spot {
        member: member_in(alloc, document, broken),
        shape: shape_in(alloc, document, broken),
        text: text_in(alloc, document, broken),
        kind: kind_in(broken),
        center: center_in(alloc, document, broken),
        listed: listed_in(alloc, common, broken),
        misfit: misfit_in(alloc, document, broken),
        line: line_in(document, &broken.place),
    }
}

// The line of the element in FpML XML.
fn line_in(document: &Source, place: &Place) -> Option<u32>
    ensures { IsLineIn document.now.form document.now.bytes.items place.now result }
{
    match document.form {
        Form::Json => None,
        Form::Xml => Some(line_of(&document.bytes, *place)),
    }
}

// The name of the member that K4 or K5 means. The document is read again for these two rules alone.
fn member_in(alloc: Global, document: &Source, broken: &Broken) -> Option<Text>
    ensures { IsMemberIf (is_of_member broken.now.rule) (source_by document.now) broken.now result }
{
    if is_of_member(broken.rule) {
        named_member(alloc, document, *broken)
    } else {
        None
    }
}

// Whether the rule is about the name of a member.
fn is_of_member(rule: Rule) -> bool
    ensures { result ≡ is_of_member rule }
{
    let number = rule.number();
    number == 4 || number == 5
}

// The name of the member by which the document breaks the rule. None where it has no name, or memory ran out.
fn named_member(alloc: Global, document: &Source, broken: Broken) -> Option<Text>
    ensures { IfSome result (IsMemberIn (source_by document.now) broken) }
{
    let Ok(value) = read_document(alloc, document) else {
        return None;
    };
    let Some(name) = member_of(&value, broken) else {
        return None;
    };
    kept(alloc, name.as_bytes())
}

// The text of the leaf that K6 means. The document is read again for this rule alone.
fn text_in(alloc: Global, document: &Source, broken: &Broken) -> Option<Text>
    ensures { IsTextIf (is_of_text broken.now.rule) (source_by document.now) broken.now.place result }
{
    if is_of_text(broken.rule) {
        leaf_text(alloc, document, broken.place)
    } else {
        None
    }
}

// Whether the rule is about the text of a leaf.
fn is_of_text(rule: Rule) -> bool
    ensures { result ≡ is_of_text rule }
{
    rule.number() == 6
}

// The text of the leaf at the place. None where no leaf lies there, or memory ran out.
fn leaf_text(alloc: Global, document: &Source, place: Place) -> Option<Text>
    ensures { IfSome result (IsTextIn (source_by document.now) place) }
{
    let Ok(value) = read_document(alloc, document) else {
        return None;
    };
    let mut digits = Buffer::new();
    let Some(text) = text_of(&value, place, &mut digits) else {
        return None;
    };
    kept(alloc, text.as_bytes())
}

// The kind of leaf that K6 means.
fn kind_in(broken: &Broken) -> Option<Leaf>
    ensures { IsKindIf (is_of_text broken.now.rule) broken.now.place.elem result }
{
    if is_of_text(broken.rule) {
        leaf_kind(broken.place.elem)
    } else {
        None
    }
}

// The kind of leaf that the table of elements has for an element.
fn leaf_kind(elem: Elem) -> Option<Leaf>
    ensures { IsKindAt elem result }
{
    kind_of(elem)
}

// The kind of the value that K3 means. The document is read again for this rule alone.
fn shape_in(alloc: Global, document: &Source, broken: &Broken) -> Option<Shape>
    ensures { IsShapeIf (is_of_shape broken.now.rule) (source_by document.now) broken.now.place result }
{
    if is_of_shape(broken.rule) {
        value_shape(alloc, document, broken.place)
    } else {
        None
    }
}

// Whether the rule is about the kind of a value.
fn is_of_shape(rule: Rule) -> bool
    ensures { result ≡ is_of_shape rule }
{
    rule.number() == 3
}

// The kind of the value at the place. None where none lies there, or memory ran out.
fn value_shape(alloc: Global, document: &Source, place: Place) -> Option<Shape>
    ensures { IfSome result (IsShapeIn (source_by document.now) place) }
{
    let Ok(value) = read_document(alloc, document) else {
        return None;
    };
    let shape = shape_at(&value, place)?;
    Some(shape)
}

// The roll that K30 is about, and the day. The document is read again for this rule alone.
fn misfit_in(alloc: Global, document: &Source, broken: &Broken) -> Option<Misfit>
    ensures { IsMisfitIf (is_of_roll broken.now.rule) (source_by document.now) broken.now.place result }
{
    if is_of_roll(broken.rule) {
        misfit_at(alloc, document, broken.place)
    } else {
        None
    }
}

// Whether the rule is about a roll.
fn is_of_roll(rule: Rule) -> bool
    ensures { result ≡ is_of_roll rule }
{
    rule.number() == 30
}

// The name of the centre that K12 means. The document is read again for this rule alone.
fn center_in(alloc: Global, document: &Source, broken: &Broken) -> Option<Text>
    ensures { IsCenterIf (is_of_center broken.now.rule) (source_by document.now) broken.now.place result }
{
    if is_of_center(broken.rule) {
        center_at(alloc, document, broken.place)
    } else {
        None
    }
}

// The centres that the calendar files have, for a rule that is about the name of a centre.
fn listed_in(alloc: Global, common: &Common, broken: &Broken) -> Option<Listed>
    requires { AreRead common.now }
    ensures { IsListIf (is_of_center broken.now.rule) (files_given_by common.now.files).calendars result }
{
    if is_of_center(broken.rule) {
        listed_centers(alloc, common)
    } else {
        None
    }
}

// Whether the rule is about the name of a centre.
fn is_of_center(rule: Rule) -> bool
    ensures { result ≡ is_of_center rule }
{
    rule.number() == 12
}

/// The bytes as a text. None where memory ran out.
pub(crate) fn kept(alloc: Global, bytes: &[u8]) -> Option<Text>
    ensures { IfSome result (λ t. t ≡ bytes.now) }
{
    match Text::from_bytes(alloc, bytes) {
        Ok(text) => Some(text),
        Err(Memory) => None,
    }
}
