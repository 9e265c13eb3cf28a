//! Edits of a stream's document.
//!
//! An edit is at a place of a stream: the names on its way from the stream, `/` between them. `put
//! PLACE TEXT` replaces what is there by what the JSON text says, and `take PLACE` takes it away.
//! `add PLACE TEXT` adds what the JSON text says after the items there.
use crate::words::meaning_of;
use irs_json::{Value, parse};
use std::alloc::Global;

/// What an empty place is set to before an item is added there.
const NO_ITEMS: &str = "[]";

// What is at a place.
fn at<'a>(alloc: Global, stream: &'a mut Value, place: &str) -> Option<&'a mut Value> {
    let pointer = format!(in alloc; "/{place}").ok()?;
    stream.pointer_mut(&pointer)
}

// The value above a place, and the name of the place below it.
fn above<'a>(
    alloc: Global,
    stream: &'a mut Value,
    place: &'a str,
) -> Option<(&'a mut Value, &'a str)> {
    match place.rsplit_once('/') {
        Some((way, name)) => Some((at(alloc, stream, way)?, name)),
        None => Some((stream, place)),
    }
}

// Sets a place to what a JSON text says.
fn put(alloc: Global, stream: &mut Value, place: &str, text: &str) -> Option<()> {
    let (above, name) = above(alloc, stream, place)?;
    let members = above.as_object_mut()?;
    let value = parse(alloc, text.as_bytes()).ok()?;
    let name = String::from_str(alloc, name).ok()?;
    members.insert(name, value).ok()?;
    Some(())
}

// Takes away what is at a place.
fn take(alloc: Global, stream: &mut Value, place: &str) -> Option<()> {
    let (above, name) = above(alloc, stream, place)?;
    above.as_object_mut()?.remove(name);
    Some(())
}

// Adds what a JSON text says after the items at a place.
fn add(alloc: Global, stream: &mut Value, place: &str, text: &str) -> Option<()> {
    if at(alloc, stream, place).is_none() {
        put(alloc, stream, place, NO_ITEMS)?;
    }
    let items = at(alloc, stream, place)?.as_array_mut()?;
    items.push(parse(alloc, text.as_bytes()).ok()?).ok()
}

fn make(alloc: Global, stream: &mut Value, edit: &str) -> Option<()> {
    let (verb, rest) = edit.split_once(' ')?;
    if verb == "take" {
        return take(alloc, stream, rest);
    }
    let (place, text) = rest.split_once(' ')?;
    match verb {
        "put" => put(alloc, stream, place, text),
        "add" => add(alloc, stream, place, text),
        _ => None,
    }
}

// Makes edits, `;` between them, one after the other.
fn make_all(alloc: Global, stream: &mut Value, edits: &str) -> Option<()> {
    for edit in edits.split(" ; ") {
        make(alloc, stream, edit)?;
    }
    Some(())
}

// Makes the edits that a word means.
fn make_word(alloc: Global, words: &str, stream: &mut Value, word: &str) -> Option<()> {
    let meaning = meaning_of(alloc, words, word)?;
    make_all(alloc, stream, &meaning)
}

/// Makes edits, `;` between them, one after the other; each is an edit or a word for edits.
pub fn make_edits(alloc: Global, words: &str, stream: &mut Value, edits: &str) -> Option<()> {
    for word in edits.split(" ; ") {
        if !word.is_empty() {
            make_word(alloc, words, stream, word)?;
        }
    }
    Some(())
}
