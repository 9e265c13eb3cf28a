//! Comments, processing instructions and CDATA sections, after what opens them: XML 1.0 (fifth
//! edition), 2.5, 2.6 and 2.7.
ghost use Rattle.irs_xml.specs.Private.Reading.{Gives, Passes, comment_at, data_at, instruction_at, past};
ghost use Rattle.std.specs.Prelude.{string_bytes};

use crate::failure::Failure;
use crate::reader::Reader;

/// Passes over a comment, which has no `--` but at its end.
#[tactic(auto, unfolding(crate::specs::Private::Reading::comment_at))]
pub(crate) fn comment(reader: &mut Reader<'_>) -> Option<()>
    ensures { Passes result reader.new (comment_at reader.old) }
{
    skip_past(reader, b"--")?;
    if reader.eat(b">") { Some(()) } else { None }
}

/// Passes over a processing instruction.
#[tactic(auto, unfolding(crate::specs::Private::Reading::instruction_at))]
pub(crate) fn instruction(reader: &mut Reader<'_>) -> Option<()>
    ensures { Passes result reader.new (instruction_at reader.old) }
{
    let target = reader.name()?;
    if target.eq_ignore_ascii_case("xml") {
        return None;
    }
    if reader.eat(b"?>") {
        return Some(());
    }
    if reader.gap() {
        skip_past(reader, b"?>")
    } else {
        None
    }
}

// Passes over what comes before the mark, and over the mark.
fn skip_past(reader: &mut Reader<'_>, mark: &[u8]) -> Option<()>
    ensures { Passes result reader.new (past mark.now reader.old) }
{
    while !reader.eat(mark) {
        reader.next()?;
    }
    Some(())
}

/// Appends the characters of a CDATA section to a text.
pub(crate) fn data(reader: &mut Reader<'_>, text: &mut String) -> Result<(), Failure>
    ensures { Gives (λ _. string_bytes text.new) result reader.new (data_at (string_bytes text.old) reader.old) }
{
    while !reader.eat(b"]]>") {
        let Some(c) = reader.next() else {
            return Err(Failure::NotXml);
        };
        text.push(c)?;
    }
    Ok(())
}
