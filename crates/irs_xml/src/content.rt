//! Elements and their content: XML 1.0 (fifth edition), 3 and 3.1.
ghost use Rattle.irs_xml.specs.Characters.{rest_after, seen};
ghost use Rattle.irs_xml.specs.Private.Reading.{inside_view, mark_view, PlainPieces, Gives, Passes, Reads, child_at};
ghost use Rattle.irs_xml.specs.Private.Reading.{closing_at, closing_name_at, content_at, element_at, filled_at};
ghost use Rattle.irs_xml.specs.Private.Reading.{mark_at, markup_at, piece_at};
ghost use Rattle.irs_xml.specs.Private.TagViews.{opening_view, scope_view, tag_view};
ghost use Rattle.irs_xml.specs.Content.{is_ours as is_ours_of};
ghost use Rattle.serde_json.specs.View.{view};
ghost use Rattle.std.specs.Prelude.{◌≡◌, OnOk, Some, length, string_bytes};

use crate::comments::{comment, data, instruction};
use crate::failure::Failure;
use crate::inside::{Inside, begun, finish, key, push, put};
use crate::namespaces::{declare_all, is_opened, is_same, namespace};
use crate::reader::Reader;
use crate::references::reference;
use crate::settings::{Declaration, Tag};
use crate::tags::tag;
use serde_json::Value;
use std::alloc::{AllocError, Global};

/// What comes next in content.
#[derive(Clone, Copy)]
pub(crate) enum Mark {
    /// `</`
    Ending,
    /// `<!--`
    Comment,
    /// `<![CDATA[`
    Section,
    /// `<?`
    Instruction,
    /// `<`
    Child,
    /// `&`
    Reference,
    /// A plain character.
    Character(char),
}

// What comes next, taken. No `]]>` may be in text.
#[tactic(auto, unfolding(crate::specs::Private::Reading::mark_at))]
fn next_mark(reader: &mut Reader<'_>) -> Option<Mark>
    ensures { Reads mark_view result reader.new (mark_at reader.old) }
{
    match reader.next()? {
        '<' => Some(markup(reader)),
        '&' => Some(Mark::Reference),
        ']' => if reader.eat(b"]>") {
            None
        } else {
            Some(Mark::Character(']'))
        },
        c => Some(Mark::Character(c)),
    }
}

// What comes next after `<`.
#[tactic(auto, unfolding(crate::specs::Private::Reading::markup_at))]
fn markup(reader: &mut Reader<'_>) -> Mark
    ensures { markup_at reader.old ≡ Some (mark_view result, reader.new) }
{
    if reader.eat(b"/") {
        Mark::Ending
    } else if reader.eat(b"!--") {
        Mark::Comment
    } else if reader.eat(b"![CDATA[") {
        Mark::Section
    } else if reader.eat(b"?") {
        Mark::Instruction
    } else {
        Mark::Child
    }
}

// The end of an end tag, which has the name of the start tag.
#[tactic(auto, unfolding(crate::specs::Private::Reading::closing_at))]
fn closing(reader: &mut Reader<'_>, tag: &Tag<'_>) -> Option<()>
    ensures { Passes result reader.new (closing_at (opening_view tag.now) reader.old) }
{
    closing_name(reader, tag.prefix, tag.local)?;
    reader.skip_space();
    if reader.eat(b">") { Some(()) } else { None }
}

// The name of the start tag is here, and is taken.
#[tactic(auto, unfolding(crate::specs::Private::Reading::closing_name_at))]
fn closing_name(reader: &mut Reader<'_>, prefix: &str, local: &str) -> Option<()>
    ensures { Passes result reader.new (closing_name_at prefix.now local.now reader.old) }
{
    if prefix.is_empty() {
        return take_name(reader, local);
    }
    take_name(reader, prefix)?;
    if !reader.eat(b":") {
        return None;
    }
    take_name(reader, local)
}

// The name is here, and is taken.
fn take_name(reader: &mut Reader<'_>, name: &str) -> Option<()>
    ensures { Passes result reader.new (rest_after (seen name.now) reader.old) }
{
    if reader.eat_name(name) {
        Some(())
    } else {
        None
    }
}

// The plain characters in front, taken and appended to the text.
fn plain(reader: &mut Reader<'_>, inside: &mut Inside) -> Result<(), AllocError>
    ensures { OnOk result (PlainPieces (inside_view inside.old) reader.old (inside_view inside.new) reader.new) }
{
    let run = reader.plain();
    inside.text.push_str(run)
}

// One piece of content, whose mark was read: whether it was the end.
#[cycle(element)]
#[tactic(auto, unfolding(crate::specs::Private::Reading::piece_at))]
fn piece<'a>(
    reader: &mut Reader<'a>,
    alloc: Global,
    scope: &mut Vec<Declaration<'a>>,
    root: &str,
    levels: u32,
    kept: bool,
    inside: &mut Inside,
    mark: Mark,
) -> Result<bool, Failure>
    ensures gives { Gives (λ ended. (ended, inside_view inside.new)) result reader.new
        (piece_at (child_at root.now levels kept (scope_view scope.old.items)) (inside_view inside.old) (mark_view mark) reader.old) }
    ensures scope { OnOk result (scope_view scope.new.items ≡ scope_view scope.old.items) }
{
    match mark {
        Mark::Ending => Ok(true),
        Mark::Comment => {
            let Some(()) = comment(reader) else {
                return Err(Failure::NotXml);
            };
            Ok(false)
        },
        Mark::Section => {
            data(reader, &mut inside.text)?;
            Ok(false)
        },
        Mark::Instruction => {
            let Some(()) = instruction(reader) else {
                return Err(Failure::NotXml);
            };
            Ok(false)
        },
        Mark::Child => {
            let (name, value) = child(reader, alloc, scope, root, levels, kept)?;
            put(inside, alloc, name, value)?;
            Ok(false)
        },
        Mark::Reference => {
            let Some(c) = reference(reader) else {
                return Err(Failure::NotXml);
            };
            push(inside, c)?;
            Ok(false)
        },
        Mark::Character(c) => {
            push(inside, c)?;
            Ok(false)
        },
    }
}

// Content, up to its `</`.
#[cycle(element)]
fn content<'a>(
    reader: &mut Reader<'a>,
    alloc: Global,
    scope: &mut Vec<Declaration<'a>>,
    root: &str,
    levels: u32,
    kept: bool,
    inside: &mut Inside,
) -> Result<(), Failure>
    ensures gives { Gives (λ _. inside_view inside.new) result reader.new
        (content_at (child_at root.now levels kept (scope_view scope.old.items)) (length reader.old) (inside_view inside.old) reader.old) }
    ensures scope { OnOk result (scope_view scope.new.items ≡ scope_view scope.old.items) }
{
    'pieces: loop {
        plain(reader, inside)?;
        let Some(next) = next_mark(reader) else {
            return Err(Failure::NotXml);
        };
        if piece(reader, alloc, scope, root, levels, kept, inside, next)? {
            return Ok(());
        }
    }
}

// What is in an element after its tag, and its end tag.
#[cycle(element)]
#[tactic(auto, unfolding(crate::specs::Private::Reading::filled_at))]
fn filled<'a>(
    reader: &mut Reader<'a>,
    alloc: Global,
    scope: &mut Vec<Declaration<'a>>,
    root: &str,
    levels: u32,
    kept: bool,
    inside: &mut Inside,
    tag: &Tag<'a>,
) -> Result<(), Failure>
    ensures gives { Gives (λ _. inside_view inside.new) result reader.new
        (filled_at (child_at root.now levels kept (scope_view scope.old.items)) (tag_view tag.now) (inside_view inside.old) reader.old) }
    ensures scope { OnOk result (scope_view scope.new.items ≡ scope_view scope.old.items) }
{
    if tag.is_empty {
        return Ok(());
    }
    content(reader, alloc, scope, root, levels, kept, inside)?;
    let Some(()) = closing(reader, tag) else {
        return Err(Failure::NotXml);
    };
    Ok(())
}

/// An element after its tag, in its own scope: its member's name, and its value.
#[cycle(element)]
#[tactic(auto, unfolding(crate::specs::Private::Reading::element_at))]
pub(crate) fn element<'a>(
    reader: &mut Reader<'a>,
    alloc: Global,
    scope: &mut Vec<Declaration<'a>>,
    root: &str,
    levels: u32,
    kept: bool,
    tag: &Tag<'a>,
) -> Result<(String, Value), Failure>
    ensures gives { Gives (λ m. (string_bytes m.0, view m.1)) result reader.new
        (element_at (child_at root.now levels) root.now kept (scope_view scope.old.items) (tag_view tag.now) reader.old) }
    ensures scope { OnOk result (scope_view scope.new.items ≡ scope_view scope.old.items) }
{
    let ours = is_ours(scope.as_slice(), root, tag);
    let kept = kept && ours;
    let mut inside = begun(alloc, tag.settings.as_slice())?;
    filled(reader, alloc, scope, root, levels, kept, &mut inside, tag)?;
    let value = finish(alloc, kept, inside)?;
    let name = key(alloc, ours, tag.local)?;
    Ok((name, value))
}

// The element's namespace is the root's.
fn is_ours(scope: &[Declaration<'_>], root: &str, tag: &Tag<'_>) -> bool
    ensures { result ≡ is_ours_of root.now (scope_view scope.now) (opening_view tag.now) }
{
    is_same(namespace(scope, tag.prefix), Some(root))
}

// An element after its `<`, which nests at most `levels` deep.
#[cycle(element)]
fn child<'a>(
    reader: &mut Reader<'a>,
    alloc: Global,
    scope: &mut Vec<Declaration<'a>>,
    root: &str,
    levels: u32,
    kept: bool,
) -> Result<(String, Value), Failure>
    ensures gives { Gives (λ m. (string_bytes m.0, view m.1)) result reader.new
        (child_at root.now levels kept (scope_view scope.old.items) reader.old) }
    ensures scope { OnOk result (scope_view scope.new.items ≡ scope_view scope.old.items) }
{
    if levels == 0 {
        return Err(Failure::NotXml);
    }
    let tag = tag(reader, alloc)?;
    let around = scope.as_slice();
    let outer = around.len();
    declare_all(scope, alloc, tag.settings.as_slice())?;
    let opened = is_opened(alloc, scope.as_slice(), &tag)?;
    if !opened {
        return Err(Failure::NotXml);
    }
    let member = element(reader, alloc, scope, root, levels - 1, kept, &tag)?;
    scope.truncate(outer);
    Ok(member)
}
