//! Tags, after their `<`: XML 1.0 (fifth edition), 3.1 and 3.3.3.
ghost use Rattle.irs_xml.specs.Private.Reading.{Gives, Passes, Reads, Tries, equals_at, qname_at, quote_at, setting_at};
ghost use Rattle.irs_xml.specs.Private.Reading.{settings_at, tag_at, tag_end_at, value_at, value_character_at};
ghost use Rattle.irs_xml.specs.Characters.{is_white_space as is_space_of};
ghost use Rattle.irs_xml.specs.Content.{most_attributes};
ghost use Rattle.irs_xml.specs.Private.TagViews.{setting_view, tag_view};
ghost use Rattle.std.specs.Prelude.{◌≡◌, [], if◌then◌else◌, length, map, string_bytes};

use crate::chars::is_space;
use crate::failure::Failure;
use crate::reader::Reader;
use crate::references::reference;
use crate::settings::{Setting, Tag};
use std::alloc::Global;

/// The most attributes that a tag may have, declarations counted.
pub(crate) const MOST_ATTRIBUTES: usize = 64;

/// A tag, up to its `>`.
#[tactic(auto, unfolding(crate::specs::Private::Reading::tag_at))]
pub(crate) fn tag<'a>(reader: &mut Reader<'a>, alloc: Global) -> Result<Tag<'a>, Failure>
    ensures { Gives tag_view result reader.new (tag_at reader.old) }
{
    let Some((prefix, local)) = qname(reader) else {
        return Err(Failure::NotXml);
    };
    let (settings, is_empty) = settings(reader, alloc)?;
    Ok(Tag {
        prefix,
        local,
        settings,
        is_empty,
    })
}

// A prefix, empty where there is none, and a local part.
#[tactic(auto, unfolding(crate::specs::Private::Reading::qname_at))]
fn qname<'a>(reader: &mut Reader<'a>) -> Option<(&'a str, &'a str)>
    ensures { Reads (λ n. (n.0.now, n.1.now)) result reader.new (qname_at reader.old) }
{
    let first = reader.name()?;
    if reader.eat(b":") {
        Some((first, reader.name()?))
    } else {
        Some(("", first))
    }
}

// The attributes of a tag and its end, and whether it is the tag of an empty element.
fn settings<'a>(reader: &mut Reader<'a>, alloc: Global) -> Result<(Vec<Setting<'a>>, bool), Failure>
    ensures { Gives (λ x. (map setting_view x.0.items, x.1)) result reader.new (settings_at most_attributes [] reader.old) }
{
    let mut settings = Vec::new(alloc);
    let mut left = MOST_ATTRIBUTES;
    'attributes: loop {
        let has_gap = reader.gap();
        if let Some(is_empty) = tag_end(reader) {
            return Ok((settings, is_empty));
        }
        if !has_gap {
            return Err(Failure::NotXml);
        }
        if left == 0 {
            return Err(Failure::NotXml);
        }
        settings.push(setting(reader, alloc)?)?;
        left -= 1;
    }
}

// `>`, or `/>` of an empty element.
#[tactic(auto, unfolding(crate::specs::Private::Reading::tag_end_at))]
fn tag_end(reader: &mut Reader<'_>) -> Option<bool>
    ensures { Tries (λ b. b) result reader.old reader.new (tag_end_at reader.old) }
{
    if reader.eat(b">") {
        Some(false)
    } else if reader.eat(b"/>") {
        Some(true)
    } else {
        None
    }
}

// An attribute: its name, `=`, and its value in quotes.
#[tactic(auto, unfolding(crate::specs::Private::Reading::setting_at))]
fn setting<'a>(reader: &mut Reader<'a>, alloc: Global) -> Result<Setting<'a>, Failure>
    ensures { Gives setting_view result reader.new (setting_at reader.old) }
{
    let Some((prefix, local)) = qname(reader) else {
        return Err(Failure::NotXml);
    };
    let Some(()) = equals(reader) else {
        return Err(Failure::NotXml);
    };
    let Some(quote) = quote(reader) else {
        return Err(Failure::NotXml);
    };
    let value = value(reader, alloc, quote)?;
    Ok(Setting {
        prefix,
        local,
        value,
    })
}

/// `=`, with white space round it.
#[tactic(auto, unfolding(crate::specs::Private::Reading::equals_at))]
pub(crate) fn equals(reader: &mut Reader<'_>) -> Option<()>
    ensures { Passes result reader.new (equals_at reader.old) }
{
    reader.skip_space();
    if reader.eat(b"=") {
        reader.skip_space();
        Some(())
    } else {
        None
    }
}

/// A quote: `'` or `"`.
#[tactic(auto, unfolding(crate::specs::Private::Reading::quote_at))]
pub(crate) fn quote(reader: &mut Reader<'_>) -> Option<char>
    ensures { Reads (λ c. c) result reader.new (quote_at reader.old) }
{
    if reader.eat(b"'") {
        Some('\'')
    } else if reader.eat(b"\"") {
        Some('"')
    } else {
        None
    }
}

// What a value says, up to its quote. White space that isn't referred to is a space.
fn value(reader: &mut Reader<'_>, alloc: Global, quote: char) -> Result<String, Failure>
    ensures { Gives string_bytes result reader.new (value_at (length reader.old) quote [] reader.old) }
{
    let mut text = String::new(alloc);
    loop {
        let Some(c) = reader.next() else {
            return Err(Failure::NotXml);
        };
        if c == quote {
            return Ok(text);
        }
        let Some(named) = value_character(reader, c) else {
            return Err(Failure::NotXml);
        };
        text.push(named)?;
    }
}

// The character of a value that begins with this one, which is taken already.
#[tactic(auto, unfolding(crate::specs::Private::Reading::value_character_at))]
fn value_character(reader: &mut Reader<'_>, c: char) -> Option<char>
    ensures { Reads (λ d. d) result reader.new (value_character_at c reader.old) }
{
    match c {
        '<' => None,
        '&' => reference(reader),
        plain => Some(as_space(plain)),
    }
}

// White space as a space, and every other character as it is.
fn as_space(c: char) -> char
    ensures { result ≡ (if is_space_of c then 32 else c) }
{
    if is_space(c) { ' ' } else { c }
}
