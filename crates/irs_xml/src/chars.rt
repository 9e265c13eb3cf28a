//! Classes of characters: XML 1.0 (fifth edition), 2.2 and 2.3.
ghost use Rattle.irs_xml.specs.Characters.{is_char as is_char_of, is_white_space as is_space_of};
ghost use Rattle.irs_xml.specs.Characters.{is_name_char as is_name_char_of, is_name_start as is_name_start_of};
ghost use Rattle.irs_xml.specs.Private.Reading.{IsPlain};
ghost use Rattle.std.specs.Prelude.{◌≡◌, ◌<◌, IsTrue, true};

/// XML allows the character.
#[tactic(auto, unfolding(crate::specs::Characters::is_char))]
pub(crate) fn is_char(c: char) -> bool
    ensures { result ≡ is_char_of c }
{
    matches!(c, '\t' | '\n' | '\r' | ' '..='\u{D7FF}' | '\u{E000}'..='\u{FFFD}' | '\u{10000}'..='\u{10FFFF}')
}

/// White space: space, tab, LF, CR.
#[tactic(auto, unfolding(crate::specs::Characters::is_white_space))]
pub(crate) fn is_space(c: char) -> bool
    ensures { result ≡ is_space_of c }
{
    matches!(c, ' ' | '\t' | '\n' | '\r')
}

/// The first character of a name, which isn't a colon here.
#[tactic(auto, unfolding(crate::specs::Characters::is_name_start))]
pub(crate) fn is_name_start(c: char) -> bool
    ensures { result ≡ is_name_start_of c }
{
    matches!(
        c,
        'A'..='Z' | '_' | 'a'..='z' | '\u{00C0}'..='\u{00D6}' | '\u{00D8}'..='\u{00F6}' | '\u{00F8}'..='\u{02FF}'
            | '\u{370}'..='\u{37D}' | '\u{37F}'..='\u{1FFF}' | '\u{200C}'..='\u{200D}'
            | '\u{2070}'..='\u{218F}' | '\u{2C00}'..='\u{2FEF}' | '\u{3001}'..='\u{D7FF}'
            | '\u{F900}'..='\u{FDCF}' | '\u{FDF0}'..='\u{FFFD}' | '\u{10000}'..='\u{EFFFF}'
    )
}

/// A later character of a name, which isn't a colon here.
#[tactic(auto, unfolding(crate::specs::Characters::is_name_char))]
pub(crate) fn is_name_char(c: char) -> bool
    ensures { result ≡ is_name_char_of c }
{
    is_name_start(c)
        || matches!(c, '-' | '.' | '0'..='9' | '\u{B7}' | '\u{300}'..='\u{36F}' | '\u{203F}'..='\u{2040}')
}

/// A byte that is a character which XML allows, but for white space other than the space.
#[tactic(auto, unfolding(crate::specs::Characters::is_char))]
pub(crate) fn is_ascii_char(byte: u8) -> bool
    ensures { IsTrue result → ((byte < 128) × (is_char_of byte ≡ true)) }
{
    matches!(byte, b' '..=b'\x7F')
}

/// A byte that is a later character of a name.
#[tactic(auto, unfolding(crate::specs::Characters::is_name_char, crate::specs::Characters::is_name_start))]
pub(crate) fn is_ascii_name(byte: u8) -> bool
    ensures { IsTrue result → ((byte < 128) × (is_name_char_of byte ≡ true)) }
{
    matches!(byte, b'-' | b'.' | b'0'..=b'9' | b'A'..=b'Z' | b'_' | b'a'..=b'z')
}

/// A byte that is a character of text and begins nothing else there. It isn't CR.
pub(crate) fn is_plain(byte: u8) -> bool
    ensures { IsTrue result → IsPlain byte }
{
    byte < 128 && byte != b'\r' && byte != b'&' && byte != b'<' && byte != b']'
}
