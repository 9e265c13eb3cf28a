//! The pieces of a text in XML: its tags, what is passed over, and plain bytes. Any bytes can be read so.
ghost use Rattle.irs_locate.specs.Lines.{ends_name as ends_name_of, first_name as first_name_of};
ghost use Rattle.irs_locate.specs.Lines.{is_quote as is_quote_of, local_name as local_name_of, mark_of, markup_of};
ghost use Rattle.irs_locate.specs.Lines.{past as past_of, past_all as past_all_of, piece_by as piece_by_of, piece_of};
ghost use Rattle.irs_locate.specs.Lines.{quote_after as quote_after_of, tag_end as tag_end_of, tag_piece};
ghost use Rattle.irs_locate.specs.Private.Seen.{mark_seen, piece_seen};
ghost use Rattle.std.specs.Prelude.{◌≡◌, ◌+◌, ◌<◌, ◌≤◌, IfSome, drop, length, option_map};
ghost use Rattle.std.specs.Str.{bytes_eq};

/// What a piece is.
#[derive(Clone, Copy)]
pub(crate) enum Mark<'a> {
    /// A byte outside of markup.
    Plain,
    /// A comment, a CDATA section, a processing instruction or a declaration.
    Passed,
    /// The tag that opens an element of that name.
    Opening(&'a [u8]),
    /// The tag of an element of that name that ends at once.
    Empty(&'a [u8]),
    /// A tag that ends an element.
    Closing,
}

/// A piece, and how many bytes it has.
#[derive(Clone, Copy)]
pub(crate) struct Piece<'a> {
    /// What it is.
    pub(crate) mark: Mark<'a>,
    /// How many bytes it has.
    pub(crate) size: usize,
}

// The text from this place on.
fn rest(text: &[u8], at: usize) -> &[u8]
    requires { at ≤ length text.now }
    ensures { result.now ≡ drop at text.now }
{
    &text[at..]
}

// How many bytes a text has up to the end of the first `word` in it.
fn past(word: &[u8], text: &[u8]) -> Option<usize>
    requires { 0 < length word.now }
    ensures is { result ≡ past_of word.now text.now }
    ensures within { IfSome result (λ n. n ≤ length text.now) }
{
    for i in 0..text.len() {
        if rest(text, i).starts_with(word) {
            return Some(i + word.len());
        }
    }
    None
}

// The same after as many bytes as are passed over, and with these.
fn past_all(passed: usize, word: &[u8], text: &[u8]) -> Option<usize>
    requires some { 0 < passed }
    requires long { passed ≤ length text.now }
    requires word { 0 < length word.now }
    ensures is { result ≡ past_all_of passed word.now text.now }
    ensures some { IfSome result (λ n. 0 < n) }
    ensures within { IfSome result (λ n. n ≤ length text.now) }
{
    match past(word, rest(text, passed)) {
        None => None,
        Some(n) => Some(n + passed),
    }
}

// `'` or `"`.
fn is_quote(b: u8) -> bool
    ensures { result ≡ is_quote_of b }
{
    b == b'\'' || b == b'"'
}

// The quote that is open after a byte; 0 is none.
fn quote_after(quote: u8, b: u8) -> u8
    ensures { result ≡ quote_after_of quote b }
{
    if quote == 0 {
        if is_quote(b) { b } else { 0 }
    } else if b == quote {
        0
    } else {
        quote
    }
}

// How many bytes a tag has up to its `>`. A `>` in quotes doesn't end it.
fn tag_end(text: &[u8]) -> Option<usize>
    ensures is { result ≡ tag_end_of 0 text.now }
    ensures some { IfSome result (λ n. 0 < n) }
    ensures within { IfSome result (λ n. n ≤ length text.now) }
{
    let mut quote = 0;
    for i in 0..text.len() {
        if quote == 0 && text[i] == b'>' {
            return Some(i + 1);
        }
        quote = quote_after(quote, text[i]);
    }
    None
}

// White space, `/` or `>`: what ends a name.
fn ends_name(b: u8) -> bool
    ensures { result ≡ ends_name_of b }
{
    b == b' ' || b == b'\t' || b == b'\n' || b == b'\r' || b == b'/' || b == b'>'
}

// The name that a text begins with.
fn first_name(text: &[u8]) -> &[u8]
    ensures { result.now ≡ first_name_of text.now }
{
    for i in 0..text.len() {
        if ends_name(text[i]) {
            return &text[..i];
        }
    }
    text
}

// A name without its prefix, which ends in `:`.
fn local_name(name: &[u8]) -> &[u8]
    ensures { result.now ≡ local_name_of name.now }
{
    for i in 0..name.len() {
        if name[i] == b':' {
            return &name[i + 1..];
        }
    }
    name
}

// The tag of an element, with this many bytes after its `<`. A `/` right before its `>` says that the
// element ends at once.
fn tag_mark(text: &[u8], n: usize) -> Mark<'_>
    requires some { 0 < n }
    requires within { n < length text.now }
    ensures { mark_seen result ≡ mark_of text.now n }
{
    let name = local_name(first_name(rest(text, 1)));
    if text[n - 1] == b'/' {
        Mark::Empty(name)
    } else {
        Mark::Opening(name)
    }
}

// The tag of an element that a text begins with, from its `<` on.
fn tag(text: &[u8]) -> Option<Piece<'_>>
    requires { 0 < length text.now }
    ensures is { option_map piece_seen result ≡ tag_piece text.now }
    ensures some { IfSome result (λ p. 0 < p.size) }
    ensures within { IfSome result (λ p. p.size ≤ length text.now) }
{
    match tag_end(rest(text, 1)) {
        None => None,
        Some(n) => Some(Piece {
            mark: tag_mark(text, n),
            size: n + 1,
        }),
    }
}

// A piece of that size.
fn piece_by(mark: Mark<'_>, size: Option<usize>) -> Option<Piece<'_>>
    ensures is { option_map piece_seen result ≡ piece_by_of (mark_seen mark.entry) size }
    ensures size { option_map (λ p. p.size) result ≡ size }
{
    match size {
        None => None,
        Some(size) => Some(Piece { mark, size }),
    }
}

// The markup that a text begins with, from its `<` on. `None` where it doesn't end.
#[tactic(auto, unfolding(crate::specs::Lines::markup_of))]
fn markup(text: &[u8]) -> Option<Piece<'_>>
    requires { 0 < length text.now }
    ensures is { option_map piece_seen result ≡ markup_of text.now }
    ensures some { IfSome result (λ p. 0 < p.size) }
    ensures within { IfSome result (λ p. p.size ≤ length text.now) }
{
    if text.starts_with(b"<!--") {
        piece_by(Mark::Passed, past_all(4, b"-->", text))
    } else if text.starts_with(b"<![CDATA[") {
        piece_by(Mark::Passed, past_all(9, b"]]>", text))
    } else if text.starts_with(b"<?") {
        piece_by(Mark::Passed, past_all(2, b"?>", text))
    } else if text.starts_with(b"<!") {
        piece_by(Mark::Passed, past_all(2, b">", text))
    } else if text.starts_with(b"</") {
        piece_by(Mark::Closing, past_all(2, b">", text))
    } else {
        tag(text)
    }
}

// The piece that a text begins with. `None` where there is no text, or where markup doesn't end.
#[tactic(auto, unfolding(crate::specs::Lines::piece_of))]
fn first_piece(text: &[u8]) -> Option<Piece<'_>>
    ensures is { option_map piece_seen result ≡ piece_of text.now }
    ensures some { IfSome result (λ p. 0 < p.size) }
    ensures within { IfSome result (λ p. p.size ≤ length text.now) }
{
    match text {
        [] => None,
        [first, ..] => if *first == b'<' {
            markup(text)
        } else {
            Some(Piece {
                mark: Mark::Plain,
                size: 1,
            })
        },
    }
}

/// The piece at a place of the text. `None` comes at its end, or where markup doesn't end.
pub(crate) fn piece_at(text: &[u8], at: usize) -> Option<Piece<'_>>
    requires { at ≤ length text.now }
    ensures is { option_map piece_seen result ≡ piece_of (drop at text.now) }
    ensures some { IfSome result (λ p. 0 < p.size) }
    ensures within { IfSome result (λ p. at + p.size ≤ length text.now) }
{
    first_piece(rest(text, at))
}

/// Whether two names are the same.
pub(crate) fn is_same(name: &[u8], other: &[u8]) -> bool
    ensures { result ≡ bytes_eq name.now other.now }
{
    name == other
}
