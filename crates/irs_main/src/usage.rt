//! How a command is called, and what its parameters have to be, for words that don't fit it.
ghost use Rattle.irs_main.specs.Private.Lookup.{texts};
ghost use Rattle.irs_main.specs.WrongWords.{commands, usage_line as line_of_name, parameter_lines, usage_of, needs_of};
ghost use Rattle.std.specs.Prelude.{◌≡◌, map};

use crate::cuts::{behind, front};
use crate::help::COMMANDS;

/// The parameters of the commands, by their names in COMMANDS, and what each has to be. CAL.. isn't among them,
/// as a command needs no calendar.
pub const PARAMETERS: [&str; 13] = [
    "DOC a file",
    "FIX a file or -",
    "FLOWS a file",
    "DAILY a file or -",
    "DATE a date YYYY-MM-DD",
    "FROM a date YYYY-MM-DD, or - for all",
    "STREAM a number from 1 to 8",
    "KIND plain or weighted",
    "STEP a number of days or weeks, such as 1D",
    "SIDE initial or final",
    "LOW a period such as 1M",
    "HIGH a period such as 3M",
    "N a number from 1 to 500",
];

// The line with this name, empty where there is none.
fn line_of(lines: &[&'static str], name: &[u8]) -> &'static [u8]
    ensures { result.now ≡ line_of_name (texts lines.now) name.now }
{
    match lines {
        [] => b"",
        [first, rest @ ..] => if front(b' ', first.as_bytes()) == name {
            first.as_bytes()
        } else {
            line_of(rest, name)
        },
    }
}

/// How the command with this name is called, empty where it isn't listed.
#[tactic(auto, using(crate::proofs::TableLaws::commands_are))]
pub(crate) fn usage<'a>(command: &[u8]) -> &'a [u8]
    ensures { result.now ≡ usage_of command.now }
{
    &line_of(&COMMANDS, command)[..]
}

/// What the parameter of this name has to be.
#[tactic(auto, using(crate::proofs::TableLaws::parameters_are))]
pub(crate) fn needs<'a>(name: &[u8]) -> &'a [u8]
    ensures { result.now ≡ needs_of name.now }
{
    behind(b' ', line_of(&PARAMETERS, name))
}

/// The listed commands are those of the specification.
#[tactic(auto, using(crate::proofs::TableLaws::commands_are))]
pub fn commands_listed()
    ensures { map (λ c. c.now) COMMANDS ≡ commands }
{}

/// The parameters are those of the specification.
#[tactic(auto, using(crate::proofs::TableLaws::parameters_are))]
pub fn parameters_listed()
    ensures { map (λ p. p.now) PARAMETERS ≡ parameter_lines }
{}
