//! Words that differ by one slip of the one who types.
ghost use Rattle.irs_main.specs.WrongWords.{IsSlip, is_exchanged as is_exchanged_of, is_slip as is_slip_of};
ghost use Rattle.std.specs.Prelude.{◌≡◌, ℕ, List, true};

use crate::cuts::is;

/// Whether one slip is between what was typed and what was meant. It is a letter left out, one too many, one
/// in place of another, or two neighbours exchanged.
pub(crate) fn is_slip(typed: &[u8], meant: &[u8]) -> bool
    ensures { result ≡ is_slip_of typed.now meant.now }
{
    match (typed, meant) {
        ([], []) => false,
        ([], [_, rest @ ..]) => is(rest, ""),
        ([_, rest @ ..], []) => is(rest, ""),
        ([t, typed_rest @ ..], [m, meant_rest @ ..]) => if *t == *m {
            is_slip(typed_rest, meant_rest)
        } else {
            typed == meant_rest
                || typed_rest == meant
                || typed_rest == meant_rest
                || is_exchanged(typed, meant)
        },
    }
}

// Whether the first two letters of two texts are exchanged, and the others are the same.
fn is_exchanged(text: &[u8], other: &[u8]) -> bool
    ensures { result ≡ is_exchanged_of text.now other.now }
{
    match (text, other) {
        ([a, b, rest @ ..], [c, d, others @ ..]) => *a == *d && *b == *c && rest == others,
        ([_, _, ..], [_]) => false,
        ([_, _, ..], []) => false,
        ([_], _) => false,
        ([], _) => false,
    }
}

/// A law: the test finds each slip, and nothing else.
pub fn slips_are_found()
    ensures found { (typed meant : List ℕ) → IsSlip typed meant → is_slip_of typed meant ≡ true }
    ensures only { (typed meant : List ℕ) → is_slip_of typed meant ≡ true → IsSlip typed meant }
{}
