//! Documents: XML 1.0 (fifth edition), 2.1, 2.8 and 2.9.
ghost use Rattle.irs_xml.specs.Document.{is_fpml as is_fpml_of, root_key as root_key_of};
ghost use Rattle.irs_xml.specs.Tags.{namespace_of};
ghost use Rattle.irs_xml.specs.Private.Reading.{Gives, GivesValue, Passes, Takes, declaration_at, declared_at};
ghost use Rattle.irs_xml.specs.Private.Reading.{document_at, misc_at, name_behind, opening_at, pair_at, quoted_at};
ghost use Rattle.irs_xml.specs.Private.Reading.{root_at, root_by, standalone_at, word_at};
ghost use Rattle.irs_xml.specs.Private.TagViews.{scope_view, tag_view};
ghost use Rattle.serde_json.specs.Data.{member, no_members, object};
ghost use Rattle.serde_json.specs.View.{view};
ghost use Rattle.std.specs.Prelude.{◌≡◌, IfOk, Some, length, suc};

use crate::comments::{comment, instruction};
use crate::content::element;
use crate::failure::Failure;
use crate::namespaces::{declare_all, first_declarations, is_opened, namespace};
use crate::reader::Reader;
use crate::settings::{Declaration, Tag};
use crate::tags::{equals, quote, tag};
use serde_json::{Map, Value};
use std::alloc::{AllocError, Global};

// How many elements may nest below the root.
const LEVELS_BELOW: u32 = 62;

// What every namespace of FpML 5 begins with.
const FPML: &[u8] = b"http://www.fpml.org/FpML-5/";

// A word of the XML declaration.
#[derive(Clone, Copy)]
enum Word {
    /// `1.0`
    Version,
    /// `UTF-8`, in any case
    Encoding,
    /// `yes` or `no`
    Standalone,
}

/// A whole document.
#[tactic(auto, unfolding(crate::specs::Private::Reading::document_at))]
pub(crate) fn document(reader: &mut Reader<'_>, alloc: Global) -> Result<Value, Failure>
    ensures { GivesValue view result (document_at reader.old) }
{
    let Some(()) = declaration(reader) else {
        return Err(Failure::NotXml);
    };
    let Some(()) = misc(reader) else {
        return Err(Failure::NotXml);
    };
    if !reader.eat(b"<") {
        return Err(Failure::NotXml);
    }
    let value = root(reader, alloc)?;
    let Some(()) = misc(reader) else {
        return Err(Failure::NotXml);
    };
    match reader.next() {
        None => Ok(value),
        Some(_) => Err(Failure::NotXml),
    }
}

// The XML declaration, if there is one.
#[tactic(auto, unfolding(crate::specs::Private::Reading::declaration_at))]
fn declaration(reader: &mut Reader<'_>) -> Option<()>
    ensures { Passes result reader.new (declaration_at reader.old) }
{
    if opens(reader) {
        declared(reader)
    } else {
        Some(())
    }
}

// `<?xml` and white space after it are here, and are taken.
fn opens(reader: &mut Reader<'_>) -> bool
    ensures { Takes result reader.old reader.new (opening_at reader.old) }
{
    let mut ahead = reader.ahead();
    if !ahead.eat(b"<?xml") {
        return false;
    }
    if !ahead.gap() {
        return false;
    }
    reader.catch_up(&ahead);
    true
}

// What an XML declaration holds after its `<?xml`.
#[tactic(auto, unfolding(crate::specs::Private::Reading::declared_at))]
fn declared(reader: &mut Reader<'_>) -> Option<()>
    ensures { Passes result reader.new (declared_at reader.old) }
{
    if !reader.eat(b"version") {
        return None;
    }
    quoted(reader, Word::Version)?;
    pair(reader, b"encoding", Word::Encoding)?;
    pair(reader, b"standalone", Word::Standalone)?;
    reader.skip_space();
    if reader.eat(b"?>") { Some(()) } else { None }
}

// A name and its word, if the name is here after white space.
#[tactic(auto, unfolding(crate::specs::Private::Reading::pair_at))]
fn pair(reader: &mut Reader<'_>, name: &[u8], word: Word) -> Option<()>
    ensures { Passes result reader.new (pair_at name.now (word_at word) reader.old) }
{
    if names(reader, name) {
        quoted(reader, word)
    } else {
        Some(())
    }
}

// White space and the name are here, and are taken.
fn names(reader: &mut Reader<'_>, name: &[u8]) -> bool
    ensures { Takes result reader.old reader.new (name_behind name.now reader.old) }
{
    let mut ahead = reader.ahead();
    if !ahead.gap() {
        return false;
    }
    if !ahead.eat(name) {
        return false;
    }
    reader.catch_up(&ahead);
    true
}

// `=` and a word in quotes.
#[tactic(auto, unfolding(crate::specs::Private::Reading::quoted_at))]
fn quoted(reader: &mut Reader<'_>, word: Word) -> Option<()>
    ensures { Passes result reader.new (quoted_at (word_at word) reader.old) }
{
    equals(reader)?;
    let mark = quote(reader)?;
    take_word(reader, word)?;
    if reader.eat_char(mark) {
        Some(())
    } else {
        None
    }
}

// The word.
fn take_word(reader: &mut Reader<'_>, word: Word) -> Option<()>
    ensures { Passes result reader.new (word_at word reader.old) }
{
    let found = match word {
        Word::Version => reader.eat(b"1.0"),
        Word::Encoding => reader.eat_any_case(b"utf-8"),
        Word::Standalone => yes_or_no(reader),
    };
    if found { Some(()) } else { None }
}

// `yes` or `no`.
fn yes_or_no(reader: &mut Reader<'_>) -> bool
    ensures { Takes result reader.old reader.new (standalone_at reader.old) }
{
    reader.eat(b"yes") || reader.eat(b"no")
}

// White space, comments and instructions.
fn misc(reader: &mut Reader<'_>) -> Option<()>
    ensures { Passes result reader.new (misc_at (suc (length reader.old)) reader.old) }
{
    loop {
        reader.skip_space();
        if reader.eat(b"<!--") {
            comment(reader)?;
        } else if reader.eat(b"<?") {
            instruction(reader)?;
        } else {
            return Some(());
        }
    }
}

// The root element after its `<`: the document's value.
#[tactic(auto, unfolding(crate::specs::Private::Reading::root_at))]
fn root(reader: &mut Reader<'_>, alloc: Global) -> Result<Value, Failure>
    ensures { Gives view result reader.new (root_at reader.old) }
{
    let tag = tag(reader, alloc)?;
    let mut scope = first_declarations(alloc)?;
    declare_all(&mut scope, alloc, tag.settings.as_slice())?;
    let opened = is_opened(alloc, scope.as_slice(), &tag)?;
    if !opened {
        return Err(Failure::NotXml);
    }
    rooted(reader, alloc, &mut scope, &tag)
}

// The root element after its tag, in its own scope.
#[tactic(auto, unfolding(crate::specs::Private::Reading::root_by))]
fn rooted<'a>(
    reader: &mut Reader<'a>,
    alloc: Global,
    scope: &mut Vec<Declaration<'a>>,
    tag: &Tag<'a>,
) -> Result<Value, Failure>
    ensures { Gives view result reader.new
        (root_by (namespace_of (scope_view scope.old.items) (tag_view tag.now).0.prefix) (scope_view scope.old.items) (tag_view tag.now) reader.old) }
{
    let Some(space) = namespace(scope.as_slice(), tag.prefix) else {
        return Err(Failure::NotXml);
    };
    if !is_fpml(space) {
        return Err(Failure::NotXml);
    }
    let space = String::from_str(alloc, space)?;
    let (_, value) = element(
        reader,
        alloc,
        scope,
        space.as_str(),
        LEVELS_BELOW,
        true,
        tag,
    )?;
    Ok(one_member(alloc, tag.local, value)?)
}

// An object with one member, named by the root's local name.
fn one_member(alloc: Global, local: &str, value: Value) -> Result<Value, AllocError>
    ensures { IfOk result (λ v. view v ≡ object (member (root_key_of local.now) (view value) no_members)) }
{
    let mut members = Map::new(alloc);
    members.insert(String::from_str(alloc, root_key(local))?, value)?;
    Ok(Value::Object(members))
}

// The name of the value's one member.
fn root_key(local: &str) -> &'static str
    ensures { result.now ≡ root_key_of local.now }
{
    match local {
        "swap" => "swap",
        "trade" => "trade",
        _ => "dataDocument",
    }
}

// The namespace is one of FpML 5, or is none.
fn is_fpml(space: &str) -> bool
    ensures { result ≡ is_fpml_of (Some space.now) }
{
    space.is_empty() || space.as_bytes().starts_with(FPML)
}
