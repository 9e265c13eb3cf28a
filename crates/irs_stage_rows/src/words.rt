//! Words for edits of a stream: each means edits at the elements of FpML.
//!
//! A line of the file `words` is a word with its arguments, ` = `, and the edits that it means. So
//! `paid $1 $2 = put paymentDates/paymentFrequency {"periodMultiplier":"$1", ..`. A word may be in
//! several lines with other numbers of arguments. A `$` is only before the number of an argument.
use std::alloc::Global;

// The numbers of the arguments of a line of `words`, in order.
const NUMBERS: [&str; 4] = ["1", "2", "3", "4"];

// Whether a line's head is the word of a text, with as many arguments.
fn is_head(head: &str, text: &str) -> bool {
    let (mut names, mut words) = (head.split(' '), text.split(' '));
    names.next() == words.next() && names.count() == words.count()
}

// The edits that the word of a text means with this number of arguments.
fn meaning<'a>(words: &'a str, text: &str) -> Option<&'a str> {
    for line in words.lines() {
        if let Some((head, meaning)) = line.split_once(" = ") {
            if is_head(head, text) {
                return Some(meaning);
            }
        }
    }
    None
}

// The argument whose number a part begins with, and what follows the number.
fn argument<'a>(part: &'a str, arguments: &'a str) -> Option<(&'a str, &'a str)> {
    for (number, argument) in NUMBERS.iter().zip(arguments.split(' ')) {
        if let Some(rest) = part.strip_prefix(*number) {
            return Some((argument, rest));
        }
    }
    None
}

// Appends a meaning with the arguments in their places.
fn push_filled(edits: &mut String, meaning: &str, arguments: &str) -> Option<()> {
    let mut parts = meaning.split('$');
    edits.push_str(parts.next()?).ok()?;
    for part in parts {
        let (argument, rest) = argument(part, arguments)?;
        edits.push_str(argument).ok()?;
        edits.push_str(rest).ok()?;
    }
    Some(())
}

/// The edits that a word with its arguments means; the text itself where it is no word.
pub fn meaning_of(alloc: Global, words: &str, text: &str) -> Option<String> {
    let Some(meaning) = meaning(words, text) else {
        return String::from_str(alloc, text).ok();
    };
    let (_, arguments) = text.split_once(' ').unwrap_or((text, ""));
    let mut edits = String::new(alloc);
    push_filled(&mut edits, meaning, arguments)?;
    Some(edits)
}
