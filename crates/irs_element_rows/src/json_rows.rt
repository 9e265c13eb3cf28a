//! The rows of JSON texts. Each says whether a text is JSON, or what leaf a value is. Or it says
//! which members and items a value has, or which rule ends the way to its swap.
use crate::told::Told;
use crate::values::Tell;
use irs_json::{JsonErr, Value, child, items, leaf, members, parse};
use irs_read::first_in_document;
use std::alloc::Global;

// `JSON`, or why the bytes aren't JSON.
fn tell_parsed(told: &mut Told, alloc: Global, bytes: &[u8]) -> Option<()> {
    match parse(alloc, bytes) {
        Ok(_) => told.text("JSON"),
        Err(JsonErr::NotJson(line, column)) => {
            told.text("NotJson ");
            told.number(line);
            told.text(" ");
            told.number(column);
        }
        Err(JsonErr::Memory) => return None,
    }
    Some(())
}

// The bytes of numbers, a space between them.
fn bytes_of(alloc: Global, numbers: &str) -> Option<Vec<u8>> {
    let mut bytes = Vec::new(alloc);
    for number in numbers.split(' ') {
        bytes.push(number.parse::<u8>().ok()?).ok()?;
    }
    Some(bytes)
}

// The names of the members, a space between them.
fn tell_members(told: &mut Told, value: &Value) {
    match members(value) {
        Some(names) => {
            let mut is_first = true;
            for name in names {
                if !is_first {
                    told.text(" ");
                }
                told.text(name);
                is_first = false;
            }
        }
        None => told.text("absent"),
    }
}

fn tell_child(told: &mut Told, value: &Value, name: &str) {
    told.text(if child(value, name).is_some() {
        "stands"
    } else {
        "absent"
    });
}

// What is answered of a value.
fn tell_value(told: &mut Told, question: &str, value: &Value) -> Option<()> {
    match question {
        "leaf" => told.given(&leaf(value)),
        "members" => tell_members(told, value),
        "items" => told.number(items(value).count()),
        "broken" => first_in_document(value).tell(told),
        _ => return None,
    }
    Some(())
}

// What is answered of a value, or of one of its members: `child NAME`, `QUESTION of NAME`.
fn tell_part(told: &mut Told, question: &str, value: &Value) -> Option<()> {
    if let Some(name) = question.strip_prefix("child ") {
        tell_child(told, value, name);
        return Some(());
    }
    match question.split_once(" of ") {
        Some((question, name)) => tell_value(told, question, child(value, name)?),
        None => tell_value(told, question, value),
    }
}

/// Reports what is answered of a JSON text.
pub fn tell_json(told: &mut Told, alloc: Global, question: &str, text: &str) -> Option<()> {
    match question {
        "parse" => tell_parsed(told, alloc, text.as_bytes()),
        "parse bytes" => tell_parsed(told, alloc, &bytes_of(alloc, text)?),
        _ => tell_part(told, question, &parse(alloc, text.as_bytes()).ok()?),
    }
}
