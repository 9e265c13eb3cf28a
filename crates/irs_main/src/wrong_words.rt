//! What is said of words that are no listed command: what is lacking, what is too much, or what may be meant.
ghost use Rattle.irs_main.specs.Private.Lookup.{texts as texts_in};
ghost use Rattle.irs_main.specs.Shown.{joined_texts};
ghost use Rattle.irs_main.specs.Private.Parts.{said};
ghost use Rattle.irs_main.specs.WrongWords.{commands, field_at as field_at_of, field_count as fields_of};
ghost use Rattle.irs_cli.specs.Commands.{word_texts};
ghost use Rattle.irs_main.specs.WrongWords.{helped as helped_of, is_help as is_help_of};
ghost use Rattle.irs_main.specs.WrongWords.{is_help_command as is_help_command_of, is_lacking as is_lacking_of};
ghost use Rattle.irs_main.specs.WrongWords.{lacking as lacking_of, misfit as misfit_of, most_told as most_told_of};
ghost use Rattle.irs_main.specs.WrongWords.{most_words as most_words_of, nearest as nearest_of};
ghost use Rattle.irs_main.specs.WrongWords.{takes_calendars as takes_calendars_of, unknown as unknown_of};
ghost use Rattle.irs_main.specs.WrongWords.{unlisted as unlisted_of, unlisted_as as unlisted_as_of};
ghost use Rattle.std.specs.Prelude.{◌≡◌, ◌≤◌, ◌+◌, length};

use crate::cuts::{front, is};
use crate::help::COMMANDS;
use crate::parts::{Sentence, of_five, short};
use crate::slips::is_slip;
use crate::usage::{needs, usage};
use crate::words::{command, word_at};
use irs_base::MOST_FILES;

// ---- the line of a command: its name and what it takes, with spaces between them

// The field at a place of a line, where its first has place 0; empty past the last one.
fn field_at(line: &[u8], place: usize) -> &[u8]
    ensures { result.now ≡ field_at_of line.now place }
{
    match line {
        [] => b"",
        [b, rest @ ..] => if place == 0 {
            front(b' ', line)
        } else if *b == b' ' {
            field_at(rest, place - 1)
        } else {
            field_at(rest, place)
        },
    }
}

// How many fields a line has.
fn fields(line: &[u8]) -> usize
    ensures value { result ≡ fields_of line.now }
    ensures some { 1 ≤ result }
    ensures within { result ≤ length line.now + 1 }
{
    match line {
        [] => 1,
        [b, rest @ ..] => if *b == b' ' {
            fields(rest) + 1
        } else {
            fields(rest)
        },
    }
}

// Whether the command takes calendars after its other words.
fn takes_calendars(usage: &[u8]) -> bool
    ensures { result ≡ takes_calendars_of usage.now }
{
    usage.ends_with(b" CAL..")
}

// The most words that the command takes, its name among them.
fn most_words(usage: &[u8]) -> usize
    ensures { result ≡ most_words_of usage.now }
{
    if takes_calendars(usage) {
        fields(usage) - 1 + MOST_FILES
    } else {
        fields(usage)
    }
}

// ---- words for help other than `--help` alone

/// Whether a word asks for help.
pub(crate) fn is_help(word: &[u8]) -> bool
    ensures { result ≡ is_help_of word.now }
{
    is(word, "--help") || is(word, "-h")
}

// Whether a word, as the command, asks for help.
fn is_help_command(word: &[u8]) -> bool
    ensures { result ≡ is_help_command_of word.now }
{
    is_help(word) || is(word, "help")
}

// What is said of words for help, with the line of the command if there is one.
fn helped(usage: &[u8]) -> Sentence<'_>
    ensures { said result ≡ joined_texts (helped_of usage.now) }
{
    if usage.is_empty() {
        short(b"irs --help explains the commands", b"", b"")
    } else {
        short(b"irs --help explains this command: ", usage, b"")
    }
}

// ---- a command that isn't listed

// The first of some commands with a name that is one slip away; empty where there is none.
fn nearest(lines: &[&'static str], typed: &[u8]) -> &'static [u8]
    ensures { result.now ≡ nearest_of (texts_in lines.now) typed.now }
{
    match lines {
        [] => b"",
        [first, rest @ ..] => if is_slip(typed, front(b' ', first.as_bytes())) {
            front(b' ', first.as_bytes())
        } else {
            nearest(rest, typed)
        },
    }
}

// The first listed command with a name that is one slip away; empty where there is none.
#[tactic(auto, using(crate::proofs::TableLaws::commands_are))]
fn nearest_command<'a>(typed: &[u8]) -> &'a [u8]
    ensures { result.now ≡ nearest_of commands typed.now }
{
    &nearest(&COMMANDS, typed)[..]
}

// What is said of a command that isn't listed, and the listed one that may be meant.
fn unknown<'a>(typed: &'a [u8], meant: &'a [u8]) -> Sentence<'a>
    ensures { said result ≡ joined_texts (unknown_of typed.now meant.now) }
{
    if meant.is_empty() {
        short(
            b"these words are no listed command: ",
            b"irs --help lists them",
            b"",
        )
    } else {
        of_five(b"no command ", typed, b": did you mean ", meant, b"?")
    }
}

// ---- words that don't fit a listed command

// Whether a word is lacking, and it is no calendar.
fn is_lacking(parameter: &[u8]) -> bool
    ensures { result ≡ is_lacking_of parameter.now }
{
    !(parameter.is_empty() || is(parameter, "CAL.."))
}

// What is said where the word of a parameter is lacking.
fn lacking<'a>(name: &'a [u8], parameter: &'a [u8]) -> Sentence<'a>
    ensures { said result ≡ joined_texts (lacking_of name.now parameter.now) }
{
    of_five(name, b" needs ", parameter, b": ", needs(parameter))
}

// How many calendars there may be, where the command takes any.
fn most_told<'a>(usage: &[u8]) -> &'a [u8]
    ensures { result.now ≡ most_told_of usage.now }
{
    if takes_calendars(usage) {
        b", with at most 16 calendar files"
    } else {
        b""
    }
}

// What is said of words that don't fit a listed command, which is called in this way.
fn misfit<'a>(words: &'a [String], usage: &'a [u8]) -> Sentence<'a>
    ensures { said result ≡ joined_texts (misfit_of (word_texts words.now) usage.now) }
{
    let parameter = field_at(usage, words.len());
    if is_help(word_at(words, words.len().saturating_sub(1))) {
        helped(usage)
    } else if is_lacking(parameter) {
        lacking(command(words), parameter)
    } else if words.len() > most_words(usage) {
        short(b"too many words for the command: ", usage, most_told(usage))
    } else {
        short(b"these words don't fit the command: ", usage, b"")
    }
}

// What is said of words that are no listed command, by the line of their command.
fn unlisted_as<'a>(words: &'a [String], usage: &'a [u8]) -> Sentence<'a>
    ensures { said result ≡ joined_texts (unlisted_as_of (word_texts words.now) usage.now) }
{
    if usage.is_empty() {
        unknown(command(words), nearest_command(command(words)))
    } else {
        misfit(words, usage)
    }
}

/// What is said of words that are no listed command.
pub(crate) fn unlisted(words: &[String]) -> Sentence<'_>
    ensures { said result ≡ joined_texts (unlisted_of (word_texts words.now)) }
{
    if is_help_command(command(words)) {
        helped(usage(word_at(words, 1)))
    } else {
        unlisted_as(words, usage(command(words)))
    }
}
