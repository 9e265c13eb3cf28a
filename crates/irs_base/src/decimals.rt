//! Decimals: an optional sign, then digits with at most one point, at least one digit in all and at
//! most 18 before the point.
ghost use Rattle.std.specs.Prelude.{◌≡◌, ◌+◌, ◌*◌, ◌^◌, ◌<◌, ◌≤◌, ◌∷◌, List, ℕ, suc, ℤ, pos, neg_ℤ, length, drop};
ghost use Rattle.std.specs.Prelude.{unsigned_abs, IfSome, IfNone, IsTrue, ◌↔◌};
ghost use Rattle.std.specs.List.{list_all};
ghost use Rattle.irs_base.specs.Texts.{most_places, is_digit, AreDigits, AreParts, DecText, IsCutAtPoint, IsUnsigned};
ghost use Rattle.irs_base.specs.Texts.{is_zero, most_digits, number_after, number_of, padded};

use crate::digits::power_of_ten;

/// The most digits before the point.
const MOST_DIGITS: usize = 18;

fn all_digits(bytes: &[u8]) -> bool
    ensures { result ≡ list_all is_digit bytes.now }
{
    bytes.iter().all(|b| b'0' <= *b && *b <= b'9')
}

fn are_digits(bytes: &[u8]) -> bool
    ensures { IsTrue result ↔ AreDigits bytes.now }
{
    all_digits(bytes)
}

fn is_some_digit(whole: &[u8], fraction: &[u8]) -> bool
    ensures { IsTrue result ↔ (0 < length whole.now + length fraction.now) }
{
    !(whole.is_empty() && fraction.is_empty())
}

fn are_parts(whole: &[u8], fraction: &[u8]) -> bool
    ensures { IsTrue result ↔ AreParts whole.now fraction.now }
{
    are_digits(whole)
        && are_digits(fraction)
        && is_some_digit(whole, fraction)
        && whole.len() <= MOST_DIGITS
}

fn are_zeros_past(digits: &[u8], places: u8) -> bool
    ensures { result ≡ list_all is_zero (drop places digits.now) }
{
    digits.iter().skip(places as usize).all(|b| *b == b'0')
}

// What comes before the first point, and after it.
fn cut_at_point(text: &[u8]) -> (&[u8], &[u8])
    ensures { IsCutAtPoint text.now result.0.now result.1.now }
{
    for (i, b) in text.iter().enumerate() {
        if *b == b'.' {
            return (&text[..i], &text[i + 1..]);
        }
    }
    (text, &[])
}

/// The digits before and after the point of a decimal without sign. `None` comes exactly where the text
/// isn't one: digits with at most one point, at least one digit, at most 18 before the point. The limit is
/// our rule.
pub fn decimal_parts(text: &[u8]) -> Option<(&[u8], &[u8])>
    ensures cut { IfSome result (λ p. IsCutAtPoint text.now p.0.now p.1.now) }
    ensures parts { IfSome result (λ p. AreParts p.0.now p.1.now) }
    ensures none { IfNone result ((w f : List ℕ) → IsCutAtPoint text.now w f → AreParts w f → ⊥) }
{
    let (whole, fraction) = cut_at_point(text);
    if are_parts(whole, fraction) {
        Some((whole, fraction))
    } else {
        None
    }
}

// The first digit, a zero if there is none, and those after it.
fn first_digit(digits: &[u8]) -> (u8, &[u8])
    requires { AreDigits digits.now }
    ensures digit { result.0 ≤ 9 }
    ensures rest { AreDigits result.1.now }
    ensures padded { (k : ℕ) → padded (suc k) digits.now ≡ (48 + result.0) ∷ padded k result.1.now }
{
    match digits {
        [] => (0, digits),
        [first, rest @ ..] => (*first - b'0', rest),
    }
}

fn with_digit(n: u64, digit: u8) -> u64
    requires digit { digit ≤ 9 }
    requires fits { n < 10 ^ 18 }
    ensures { result ≡ 10 * n + digit }
{
    10 * n + u64::from(digit)
}

// The number that the first `count` digits spell after those of n, with zeros for digits that are absent;
// it is below 10^18.
#[tactic(auto, using(crate::proofs::DecimalLemmas::room_left))]
fn number_behind(n: u64, digits: &[u8], count: u8) -> u64
    requires digits { AreDigits digits.now }
    requires fits { (n + 1) * 10 ^ count ≤ 10 ^ 18 }
    ensures value { result ≡ number_after n (padded count digits.now) }
    ensures below { result + 1 ≤ (n + 1) * 10 ^ count }
{
    if count == 0 {
        return n;
    }
    let (digit, rest) = first_digit(digits);
    number_behind(with_digit(n, digit), rest, count - 1)
}

// The number that the first `count` digits spell.
fn first_number(digits: &[u8], count: u8) -> u64
    requires digits { AreDigits digits.now }
    requires few { count ≤ most_digits }
    ensures value { result ≡ number_of (padded count digits.now) }
    ensures below { result < 10 ^ count }
{
    number_behind(0, digits, count)
}

// Units, and parts of which 10^places make one: together, in parts.
fn with_parts(units: u64, parts: u64, places: u8) -> u128
    requires units { units < 10 ^ 18 }
    requires parts { parts < 10 ^ places }
    requires few { places ≤ most_places }
    ensures value { result ≡ units * 10 ^ places + parts }
    ensures below { result < 10 ^ 30 }
{
    u128::from(units) * u128::from(power_of_ten(places)) + u128::from(parts)
}

/// The number that the digits before a point and the first `places` after it spell, in units of
/// 10^-places. Absent digits count as zeros. It is below 10^30.
pub fn number_of_parts(whole: &[u8], fraction: &[u8], places: u8) -> u128
    requires whole { AreDigits whole.now }
    requires fraction { AreDigits fraction.now }
    requires short { length whole.now ≤ most_digits }
    requires few { places ≤ most_places }
    ensures value { result ≡ number_after (number_of whole.now) (padded places fraction.now) }
    ensures below { result < 10 ^ 30 }
{
    let units = first_number(whole, whole.len() as u8);
    let parts = first_number(fraction, places);
    with_parts(units, parts, places)
}

fn read_unsigned(text: &[u8], places: u8) -> Option<u128>
    requires { places ≤ most_places }
    ensures some { IfSome result (IsUnsigned text.now places) }
    ensures below { IfSome result (λ v. v < 10 ^ 30) }
    ensures none { IfNone result ((v : ℕ) → IsUnsigned text.now places v → ⊥) }
{
    let (whole, fraction) = decimal_parts(text)?;
    if !are_zeros_past(fraction, places) {
        return None;
    }
    Some(number_of_parts(whole, fraction, places))
}

// What follows a sign, if the text begins with it.
fn behind_sign(sign: u8, text: &[u8]) -> Option<&[u8]>
    ensures some { IfSome result (λ rest. text.now ≡ sign ∷ rest.now) }
    ensures none { IfNone result ((rest : List ℕ) → text.now ≡ sign ∷ rest → ⊥) }
{
    match text {
        [] => None,
        [first, rest @ ..] => { if *first == sign { Some(rest) } else { None } }
    }
}

fn positive(n: u128) -> i128
    requires { n < 10 ^ 30 }
    ensures value { result ≡ pos n }
    ensures size { unsigned_abs result ≡ n }
{
    n as i128
}

fn negative(n: u128) -> i128
    requires { n < 10 ^ 30 }
    ensures value { result ≡ neg_ℤ (pos n) }
    ensures size { unsigned_abs result ≡ n }
{
    -(n as i128)
}

/// The value of a decimal in units of 10^-places. `None`: the text is no decimal, has more than 18
/// digits before its point, or has a digit other than 0 past its places.
pub fn read_dec(text: &[u8], places: u8) -> Option<i128>
    requires { places ≤ most_places }
    ensures some { IfSome result (DecText text.now places) }
    ensures none { IfNone result ((v : ℤ) → DecText text.now places v → ⊥) }
    ensures size { IfSome result (λ v. unsigned_abs v < 10 ^ 30) }
{
    if let Some(digits) = behind_sign(b'+', text) {
        let n = read_unsigned(digits, places)?;
        return Some(positive(n));
    }
    if let Some(digits) = behind_sign(b'-', text) {
        let n = read_unsigned(digits, places)?;
        return Some(negative(n));
    }
    let n = read_unsigned(text, places)?;
    Some(positive(n))
}
