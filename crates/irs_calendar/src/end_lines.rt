//! The end line of a calendar file or of a file of fixings.
//!
//! The last line of a file may be `# end N`, where N is the number of lines before it, in decimal. So
//! a file that lost a part shows it. If N is another number, the line is outside the grammar. In any
//! other place, and in any other form, such a line is a comment like others. The form is our rule.
ghost use Rattle.std.specs.Prelude.{◌≡◌, ◌+◌, ◌<◌, ◌∷◌, length};
ghost use Rattle.std.specs.List.{list_all};
ghost use Rattle.std.specs.Str.{bytes_eq};
ghost use Rattle.irs_base.specs.Texts.{lines_of, is_digit};
ghost use Rattle.irs_calendar.specs.Grammar.{end_line_text, has_no_zero_in_front, is_end_line, is_false_end, is_number};
ghost use Rattle.irs_calendar.specs.Grammar.{line_seen, seen_from};

use irs_base::{Line, split_line};

fn has_no_zero_in_front(digits: &[u8]) -> bool
    ensures { result ≡ has_no_zero_in_front digits.now }
{
    match digits {
        [] => false,
        [_] => true,
        [first, _, ..] => *first != b'0',
    }
}

fn are_digits(bytes: &[u8]) -> bool
    ensures { result ≡ list_all is_digit bytes.now }
{
    bytes.iter().all(|b| b'0' <= *b && *b <= b'9')
}

fn is_number(bytes: &[u8]) -> bool
    ensures { result ≡ is_number bytes.now }
{
    has_no_zero_in_front(bytes) && are_digits(bytes)
}

/// The line is `# end ` and a number.
fn is_end_line(line: &[u8]) -> bool
    ensures { result ≡ is_end_line line.now }
{
    line.len() > 6 && &line[..6] == b"# end ".as_slice() && is_number(&line[6..])
}

/// The line is the end line that counts that many lines before it.
fn is_end_behind(line: &[u8], before: u32) -> bool
    ensures { result ≡ bytes_eq line.now (end_line_text before) }
{
    let mut text = Line::new();
    text.push(b"# end ");
    text.push_number(before);
    line == text.bytes()
}

fn is_false_end(line: &[u8], before: u32) -> bool
    ensures { result ≡ is_false_end before line.now }
{
    is_end_line(line) && !is_end_behind(line, before)
}

/// A line as it is read.
fn line_seen(line: &[u8], before: u32, is_last: bool) -> &[u8]
    ensures { result.now ≡ line_seen is_last before line.now }
{
    if is_last && is_false_end(line, before) {
        b" #".as_slice()
    } else {
        line
    }
}

/// The first line as it is read after that many lines, and the bytes after its end.
pub fn split_seen(bytes: &[u8], before: u32) -> (&[u8], &[u8])
    requires { 0 < length bytes.now }
    ensures lines { seen_from before (lines_of bytes.now)
        ≡ result.0.now ∷ seen_from (before + 1) (lines_of result.1.now) }
    ensures shorter { length result.1.now < length bytes.now }
{
    let (line, more) = split_line(bytes);
    (line_seen(line, before, more.is_empty()), more)
}
