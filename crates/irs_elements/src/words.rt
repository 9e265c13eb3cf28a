//! Texts that are kept as they are: the name of a centre, the index of a rate, a currency.
ghost use Rattle.std.specs.{List.list_all, Prelude.◌≡◌};
ghost use Rattle.irs_elements.specs.Leaves as spec;

use irs_base::{MOST_INDEX, MOST_NAME};
use irs_terms::Currency;

/// Whether the text may name a business centre: 1 to 32 bytes from `!` to `~`.
pub fn is_center_name(text: &[u8]) -> bool
    ensures { result ≡ spec.is_center_name text.now }
{
    0 < text.len() && text.len() <= MOST_NAME && are_visible(text)
}

fn are_visible(text: &[u8]) -> bool
    ensures { result ≡ list_all spec.is_visible text.now }
{
    text.iter().all(|b| b'!' <= *b && *b <= b'~')
}

/// Whether the text may be the index of a rate: 1 to 128 bytes without control bytes, and without a
/// space at its ends.
pub fn is_index_name(text: &[u8]) -> bool
    ensures { result ≡ spec.is_index_name text.now }
{
    0 < text.len()
        && text.len() <= MOST_INDEX
        && are_no_controls(text)
        && text[0] != b' '
        && text[text.len() - 1] != b' '
}

fn are_no_controls(text: &[u8]) -> bool
    ensures { result ≡ list_all spec.is_no_control text.now }
{
    text.iter().all(|b| b' ' <= *b && *b != 127)
}

/// A currency: three capital letters.
pub fn currency(text: &[u8]) -> Option<Currency>
    ensures { result ≡ spec.currency_at text.now }
{
    match text {
        [a, b, c] if text.iter().all(|b| b'A' <= *b && *b <= b'Z') => Some(Currency {
            letters: [*a, *b, *c],
        }),
        _ => None,
    }
}
