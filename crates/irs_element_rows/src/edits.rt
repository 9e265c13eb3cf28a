//! Edits of a document.
use irs_json::{Value, parse};
use std::alloc::Global;

/// An edit at a place of a document. A place is the names on its way from the root, `/` between
/// them. An item of an array is named by its number from 0.
#[derive(Clone, Copy)]
enum Edit<'a> {
    /// `put PLACE TEXT`: what the JSON text says, in place of what is there.
    Put { place: &'a str, text: &'a str },
    /// `take PLACE`: nothing in place of what is there.
    Take { place: &'a str },
    /// `repeat TIMES PLACE`: in place of what is there, an array that has it TIMES times.
    Repeat { times: u32, place: &'a str },
}

// The edit of a text.
fn edit_of(text: &str) -> Option<Edit> {
    let (verb, rest) = text.split_once(' ')?;
    match verb {
        "put" => {
            let (place, text) = rest.split_once(' ')?;
            Some(Edit::Put { place, text })
        }
        "take" => Some(Edit::Take { place: rest }),
        "repeat" => {
            let (times, place) = rest.split_once(' ')?;
            let times = times.parse::<u32>().ok()?;
            Some(Edit::Repeat { times, place })
        }
        _ => None,
    }
}

// What is at a place.
fn at_mut<'a>(alloc: Global, document: &'a mut Value, place: &str) -> Option<&'a mut Value> {
    let pointer = format!(in alloc; "/{place}").ok()?;
    document.pointer_mut(&pointer)
}

// The object that holds a place, and the name that the place has in it.
fn holder<'d, 'p>(
    alloc: Global,
    document: &'d mut Value,
    place: &'p str,
) -> Option<(&'d mut Value, &'p str)> {
    match place.rsplit_once('/') {
        Some((way, name)) => Some((at_mut(alloc, document, way)?, name)),
        None => Some((document, place)),
    }
}

// Sets a name of an object to what a JSON text says.
fn put(alloc: Global, object: &mut Value, name: &str, text: &str) -> Option<()> {
    let members = object.as_object_mut()?;
    let name = String::from_str(alloc, name).ok()?;
    let value = parse(alloc, text.as_bytes()).ok()?;
    members.insert(name, value).is_ok().then_some(())
}

// A value, this number of times.
fn copies(alloc: Global, value: &Value, times: u32) -> Option<Vec<Value>> {
    let mut items = Vec::new(alloc);
    for _ in 0..times {
        items.push(value.clone().ok()?).ok()?;
    }
    Some(items)
}

// Makes the edit of a text.
fn make(alloc: Global, document: &mut Value, text: &str) -> Option<()> {
    match edit_of(text)? {
        Edit::Put { place, text } => {
            let (object, name) = holder(alloc, document, place)?;
            put(alloc, object, name, text)?;
        }
        Edit::Take { place } => {
            let (object, name) = holder(alloc, document, place)?;
            object.as_object_mut()?.remove(name);
        }
        Edit::Repeat { times, place } => {
            let found = at_mut(alloc, document, place)?;
            *found = Value::Array(copies(alloc, found, times)?);
        }
    }
    Some(())
}

/// Makes edits, `;` between them, one after the other.
pub fn make_edits(alloc: Global, document: &mut Value, edits: &str) -> Option<()> {
    for edit in edits.split(" ; ") {
        if !edit.is_empty() {
            make(alloc, document, edit)?;
        }
    }
    Some(())
}
