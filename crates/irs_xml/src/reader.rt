//! The characters of a text, one after another.
ghost use Rattle.irs_xml.specs.Characters.{rest_after, seen};
ghost use Rattle.irs_xml.specs.Private.Reading.{EndsName, NameOf, SplitsName, Takes, after_any_case, gap_at, name_at};
ghost use Rattle.irs_xml.specs.Private.Reading.{skip_space as behind_space, Reads, PlainTaken, SplitsPlain, FirstOf};
ghost use Rattle.irs_xml.specs.Private.Reading.{Uncons};
ghost use Rattle.std.specs.Prelude.{◌≡◌, [], ◌∷◌, IfSome, Some};

use crate::chars::{is_ascii_name, is_name_char, is_name_start, is_plain, is_space};
use std::marker::Model;

/// What is left of a text. Each end of a line, CR LF or a CR alone, is read as one LF.
#[derive(Drop)]
pub(crate) struct Reader<'a> {
    rest: &'a str,
}

impl<'a> Model for Reader<'a> {
    ghost use Rattle.std.specs.Prelude.{ℕ, List};
    ghost use Rattle.irs_xml.specs.Characters.{seen};

    ghost Value = { List ℕ };

    ghost view = { λ r. seen r.rest.now };
}

impl<'a> Reader<'a> {
    pub(crate) fn new(text: &'a str) -> Reader<'a>
        ensures { result ≡ seen text.now }
    {
        Reader { rest: text }
    }

    /// The next character, taken.
    pub(crate) fn next(&mut self) -> Option<char>
        ensures { Uncons self.old result self.new }
    {
        let (first, rest) = first_of(self.rest)?;
        self.rest = rest;
        Some(first)
    }

    /// Passes over white space.
    pub(crate) fn skip_space(&mut self)
        ensures { self.new ≡ behind_space self.old }
    {
        while let Some((c, rest)) = first_of(self.rest) {
            if !is_space(c) {
                break;
            }
            self.rest = rest;
        }
    }

    /// White space is here, and is passed over.
    pub(crate) fn gap(&mut self) -> bool
        ensures { Takes result self.old self.new (gap_at self.old) }
    {
        match first_of(self.rest) {
            None => false,
            Some((c, rest)) => if is_space(c) {
                self.rest = rest;
                self.skip_space();
                true
            } else {
                false
            },
        }
    }

    /// The word is here, and is taken. Its bytes are ASCII characters.
    pub(crate) fn eat(&mut self, word: &[u8]) -> bool
        ensures { Takes result self.old self.new (rest_after word.now self.old) }
    {
        let mut ahead = Reader { rest: self.rest };
        for byte in word {
            if ahead.next() != Some(char::from(*byte)) {
                return false;
            }
        }
        self.rest = ahead.rest;
        true
    }

    /// The character is here, and is taken.
    pub(crate) fn eat_char(&mut self, c: char) -> bool
        ensures { Takes result self.old self.new (rest_after (c ∷ []) self.old) }
    {
        match first_of(self.rest) {
            None => false,
            Some((first, rest)) => if first == c {
                self.rest = rest;
                true
            } else {
                false
            },
        }
    }

    /// Another reader of what is left.
    pub(crate) fn ahead(&self) -> Reader<'a>
        ensures { result ≡ self.now }
    {
        Reader { rest: self.rest }
    }

    /// Goes on where the other reader is.
    pub(crate) fn catch_up(&mut self, other: &Reader<'a>)
        ensures { self.new ≡ other.now }
    {
        self.rest = other.rest;
    }

    /// How many bytes are left.
    pub(crate) fn left(&self) -> usize {
        self.rest.len()
    }

    /// The word, of small ASCII letters and signs, is here in any case, and is taken.
    pub(crate) fn eat_any_case(&mut self, word: &[u8]) -> bool
        ensures { Takes result self.old self.new (after_any_case word.now self.old) }
    {
        let mut ahead = Reader { rest: self.rest };
        for byte in word {
            if ahead.next().map(|c| c.to_ascii_lowercase()) != Some(char::from(*byte)) {
                return false;
            }
        }
        self.rest = ahead.rest;
        true
    }

    /// The name is here, and is taken.
    pub(crate) fn eat_name(&mut self, name: &str) -> bool
        ensures { Takes result self.old self.new (rest_after (seen name.now) self.old) }
    {
        if let Some(rest) = behind_name(self.rest, name) {
            self.rest = rest;
            return true;
        }
        let mut ahead = Reader { rest: self.rest };
        let mut word = Reader { rest: name };
        while let Some(c) = word.next() {
            if ahead.next() != Some(c) {
                return false;
            }
        }
        self.rest = ahead.rest;
        true
    }

    /// The plain characters in front, taken.
    pub(crate) fn plain(&mut self) -> &'a str
        ensures { PlainTaken result.now self.old self.new }
    {
        let (run, rest) = split_plain(self.rest);
        self.rest = rest;
        run
    }

    /// A name without a colon, taken.
    pub(crate) fn name(&mut self) -> Option<&'a str>
        ensures { Reads (λ n. n.now) result self.new (name_at self.old) }
    {
        let (name, rest) = split_name(self.rest)?;
        self.rest = rest;
        Some(name)
    }
}

// The plain characters in front, and what is after them.
fn split_plain(text: &str) -> (&str, &str)
    ensures { PlainTaken result.0.now (seen text.now) (seen result.1.now) }
{
    let left = plain_rest(text);
    text.split_at(text.len() - left.len())
}

// What is after the plain characters in front.
fn plain_rest(text: &str) -> &str
    ensures { SplitsPlain text.now result.now }
{
    let mut left = text;
    loop {
        match left.as_bytes().first() {
            Some(byte) if is_plain(*byte) => left = &left[1..],
            _ => return left,
        }
    }
}

// What is after the name, where it is in front and no LF follows it. Else None, which says nothing.
fn behind_name<'a>(text: &'a str, name: &str) -> Option<&'a str>
    ensures { IfSome result (λ rest. rest_after (seen name.now) (seen text.now) ≡ Some (seen rest.now)) }
{
    let rest = text.strip_prefix(name)?;
    match rest.strip_prefix('\n') {
        None => Some(rest),
        Some(_) => None,
    }
}

// A name at the front, and what is after it.
fn split_name(text: &str) -> Option<(&str, &str)>
    ensures { NameOf text.now result }
{
    let mut behind = text.chars();
    if !is_name_start(behind.next()?) {
        return None;
    }
    let left = name_rest(behind.as_str());
    Some(text.split_at(text.len() - left.len()))
}

// What is after the characters of a name.
fn name_rest(text: &str) -> &str
    ensures splits { SplitsName text.now result.now }
    ensures ends { EndsName result.now }
{
    let mut left = text;
    loop {
        match left.as_bytes().first() {
            Some(byte) if is_ascii_name(*byte) => left = &left[1..],
            _ => {
                let mut behind = left.chars();
                match behind.next() {
                    Some(c) if is_name_char(c) => left = behind.as_str(),
                    _ => return left,
                }
            }
        }
    }
}

// The first character and what is after it, CR LF and CR being one LF. Most are one byte.
fn first_of(text: &str) -> Option<(char, &str)>
    ensures { FirstOf text.now result }
{
    let byte = *text.as_bytes().first()?;
    if byte < 128 && byte != b'\r' {
        return Some((char::from(byte), &text[1..]));
    }
    first_decoded(text)
}

// The same for every character.
fn first_decoded(text: &str) -> Option<(char, &str)>
    ensures { FirstOf text.now result }
{
    let mut rest = text.chars();
    let first = rest.next()?;
    if first != '\r' {
        return Some((first, rest.as_str()));
    }
    match rest.as_str().strip_prefix('\n') {
        None => Some(('\n', rest.as_str())),
        Some(behind) => Some(('\n', behind)),
    }
}
