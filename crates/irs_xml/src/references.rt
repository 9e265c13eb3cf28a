//! References, after their `&`: XML 1.0 (fifth edition), 4.1 and 4.6.
ghost use Rattle.irs_xml.specs.Private.Reading.{Reads, character_at, number_at, reference_at};
ghost use Rattle.std.specs.Prelude.{◌<◌, ◌≤◌};

use crate::chars::is_char;
use crate::reader::Reader;

// One more than the last character: all numbers from here on are as good as this one.
const PAST_CHARACTERS: u32 = 0x11_0000;

/// The character that a reference names: one of the five predefined entities, or a character by its
/// number.
#[tactic(auto, unfolding(crate::specs::Private::Reading::reference_at))]
pub(crate) fn reference(reader: &mut Reader<'_>) -> Option<char>
    ensures { Reads (λ c. c) result reader.new (reference_at reader.old) }
{
    if reader.eat(b"lt;") {
        Some('<')
    } else if reader.eat(b"gt;") {
        Some('>')
    } else if reader.eat(b"amp;") {
        Some('&')
    } else if reader.eat(b"apos;") {
        Some('\'')
    } else if reader.eat(b"quot;") {
        Some('"')
    } else if reader.eat(b"#x") {
        character(reader, 16)
    } else if reader.eat(b"#") {
        character(reader, 10)
    } else {
        None
    }
}

// The character whose number these digits write, up to a semicolon.
#[tactic(auto, unfolding(crate::specs::Private::Reading::character_at))]
fn character(reader: &mut Reader<'_>, base: u32) -> Option<char>
    requires low { 2 ≤ base }
    requires high { base ≤ 36 }
    ensures { Reads (λ c. c) result reader.new (character_at base reader.old) }
{
    let c = char::from_u32(number(reader, base)?)?;
    if is_char(c) { Some(c) } else { None }
}

// One digit or more, and a semicolon.
fn number(reader: &mut Reader<'_>, base: u32) -> Option<u32>
    requires low { 2 ≤ base }
    requires high { base ≤ 36 }
    ensures { Reads (λ n. n) result reader.new (number_at base reader.old) }
{
    let mut number = reader.next()?.to_digit(base)?;
    loop {
        match reader.next()? {
            ';' => return Some(number),
            c => number = (number * base + c.to_digit(base)?).min(PAST_CHARACTERS),
        }
    }
}
