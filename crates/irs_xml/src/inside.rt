//! What is read of an element, and its value.
ghost use Rattle.irs_xml.specs.Private.Reading.{inside_view, begun as begun_of, finished, with_character, with_one};
ghost use Rattle.irs_xml.specs.Private.Reading.{GivesValue};
ghost use Rattle.irs_xml.specs.Characters.{is_white_space, is_white as is_white_of};
ghost use Rattle.irs_xml.specs.Private.TagViews.{setting_view};
ghost use Rattle.irs_xml.specs.Content.{key_of, leaf_value};
ghost use Rattle.serde_json.specs.Data.{object, put as put_member, string};
ghost use Rattle.serde_json.specs.View.{members_view, view};
ghost use Rattle.std.specs.Prelude.{◌≡◌, IfOk, OnOk, codes, map, string_bytes};

use crate::failure::Failure;
use crate::members::{put_child, setting_members};
use crate::settings::Setting;
use serde_json::{Map, Value};
use std::alloc::{AllocError, Global};

/// What was read of an element so far.
#[derive(Drop)]
pub(crate) struct Inside {
    /// The text directly in it.
    pub(crate) text: String,
    /// The members of its attributes and children.
    pub(crate) members: Map<String, Value>,
    pub(crate) has_child: bool,
}

/// An element of which only the tag was read.
pub(crate) fn begun(alloc: Global, settings: &[Setting<'_>]) -> Result<Inside, AllocError>
    ensures { IfOk result (λ i. inside_view i ≡ begun_of (map setting_view settings.now)) }
{
    Ok(Inside {
        text: String::new(alloc),
        members: setting_members(alloc, settings)?,
        has_child: false,
    })
}

/// Appends a character to the text.
pub(crate) fn push(inside: &mut Inside, c: char) -> Result<(), AllocError>
    ensures { OnOk result (inside_view inside.new ≡ with_character (inside_view inside.old) c) }
{
    inside.text.push(c)?;
    Ok(())
}

/// Adds a child to those that were read.
pub(crate) fn put(
    inside: &mut Inside,
    alloc: Global,
    name: String,
    value: Value,
) -> Result<(), AllocError>
    ensures { OnOk result (inside_view inside.new ≡ with_one (inside_view inside.old) (string_bytes name, view value)) }
{
    put_child(&mut inside.members, alloc, name, value)?;
    inside.has_child = true;
    Ok(())
}

/// The value of an element that was read to its end. One that isn't kept is the empty string.
pub(crate) fn finish(alloc: Global, kept: bool, inside: Inside) -> Result<Value, Failure>
    ensures { GivesValue view result (finished kept (inside_view inside)) }
{
    let Inside {
        text,
        members,
        has_child,
    } = inside;
    if !kept {
        return Ok(Value::String(String::new(alloc)));
    }
    if !has_child {
        return Ok(leaf(alloc, text, members)?);
    }
    if is_white(text.as_str()) {
        Ok(Value::Object(members))
    } else {
        Err(Failure::NotXml)
    }
}

// The value of an element without children.
fn leaf(alloc: Global, text: String, members: Map<String, Value>) -> Result<Value, AllocError>
    ensures { IfOk result (λ v. view v ≡ leaf_value (string_bytes text) (members_view members.entries)) }
{
    if members.is_empty() {
        return Ok(Value::String(text));
    }
    if is_white(text.as_str()) {
        return Ok(Value::Object(members));
    }
    with_text(alloc, text, members)
}

// An object with these members and a text.
fn with_text(
    alloc: Global,
    text: String,
    mut members: Map<String, Value>,
) -> Result<Value, AllocError>
    ensures { IfOk result (λ v. view v
        ≡ object (put_member (codes "#text") (string (string_bytes text)) (members_view members.entries))) }
{
    members.insert(String::from_str(alloc, "#text")?, Value::String(text))?;
    Ok(Value::Object(members))
}

// White space alone, or nothing.
fn is_white(text: &str) -> bool
    ensures { result ≡ is_white_of text.now }
{
    for byte in text.as_bytes() {
        if !is_space_byte(*byte) {
            return false;
        }
    }
    true
}

// Space, tab, LF or CR.
#[tactic(auto, unfolding(crate::specs::Characters::is_white_space))]
fn is_space_byte(byte: u8) -> bool
    ensures { result ≡ is_white_space byte }
{
    matches!(byte, b' ' | b'\t' | b'\n' | b'\r')
}

/// The name of an element's member: its local part, after a colon where the element is foreign.
pub(crate) fn key(alloc: Global, ours: bool, local: &str) -> Result<String, AllocError>
    ensures { IfOk result (λ name. string_bytes name ≡ key_of ours local.now) }
{
    if ours {
        return Ok(String::from_str(alloc, local)?);
    }
    let mut name = String::from_str(alloc, ":")?;
    name.push_str(local)?;
    Ok(name)
}
