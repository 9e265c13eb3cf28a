//! How a sentence shows the words of a command line. A name may hold characters that a terminal obeys. They
//! are controls (C0, C1 and DEL), ends of lines, and characters that change the direction of a text. Each is
//! shown by its number in base 16. So a name can neither forge a line nor clear a screen.
ghost use Rattle.irs_base.specs.Lists.{Every};
ghost use Rattle.irs_main.specs.Shown.{hex_digit as hex_digit_of, is_control as is_control_of, shown as shown_of};
ghost use Rattle.irs_main.specs.Shown.{IsPrinted, shown_char as shown_char_of, turns_text as turns_text_of};
ghost use Rattle.irs_main.specs.Shown.{two_hex_digits};
ghost use Rattle.irs_cli.specs.Commands.{word_texts};
ghost use Rattle.std.specs.Prelude.{◌≡◌, ℕ, ◌<◌, ◌++◌, List, map, IfOk, OnOk, string_bytes};

use irs_base::Memory;
use std::alloc::Global;

/// The words of a command line as a sentence shows them. `Memory` comes where memory ran out.
pub fn shown_words(alloc: Global, words: &[String]) -> Result<Vec<String>, Memory>
    ensures { IfOk result (λ v. word_texts v.items ≡ map shown_of (word_texts words.now)) }
{
    let mut all = Vec::new(alloc);
    for word in words {
        all.push(shown(alloc, word.as_str())?)?;
    }
    Ok(all)
}

/// A law: no byte of a text as it is shown is a control, a line feed among them.
pub fn what_is_shown_is_one_line()
    ensures { (text : List ℕ) → Every IsPrinted (shown_of text) }
{}

// A text as it is shown.
fn shown(alloc: Global, text: &str) -> Result<String, Memory>
    ensures { IfOk result (λ s. string_bytes s ≡ shown_of text.now) }
{
    let mut shown = String::new(alloc);
    for c in text.chars() {
        push_shown(c, &mut shown)?;
    }
    Ok(shown)
}

// Appends a character as it is shown.
fn push_shown(c: char, text: &mut String) -> Result<(), Memory>
    ensures { OnOk result (string_bytes text.new ≡ string_bytes text.old ++ shown_char_of c) }
{
    let number = c as u32;
    if is_control(number) {
        text.push_str("\\x")?;
        push_two_digits(number, text)
    } else if turns_text(number) {
        text.push_str("\\u")?;
        push_two_digits(number / 256, text)?;
        push_two_digits(number, text)
    } else {
        Ok(text.push(c)?)
    }
}

// Whether a character is a control: U+0000 to U+001F, or U+007F to U+009F.
fn is_control(c: u32) -> bool
    ensures { result ≡ is_control_of c }
{
    c < 32 || (127 <= c && c <= 159)
}

// Whether a character turns the direction of a text or ends its line.
fn turns_text(c: u32) -> bool
    ensures { result ≡ turns_text_of c }
{
    c == 1_564
        || (8_206 <= c && c <= 8_207)
        || (8_232 <= c && c <= 8_238)
        || (8_294 <= c && c <= 8_297)
}

// Appends the two lowest digits of a number in base 16.
fn push_two_digits(number: u32, text: &mut String) -> Result<(), Memory>
    ensures { OnOk result (string_bytes text.new ≡ string_bytes text.old ++ two_hex_digits number) }
{
    text.push(char::from(hex_digit(number / 16 % 16)))?;
    Ok(text.push(char::from(hex_digit(number % 16)))?)
}

/// The digit of a number below 16.
pub(crate) fn hex_digit(number: u32) -> u8
    requires { number < 16 }
    ensures value { result ≡ hex_digit_of number }
    ensures ascii { result < 128 }
{
    let digit = number as u8;
    if digit < 10 { 48 + digit } else { 87 + digit }
}
