//! The names of the files of a command, for the sentences: by the role of a file, from the table of commands.
ghost use Rattle.std.specs.Prelude.{◌≡◌, ◌≤◌, length, IfSome};
ghost use Rattle.irs_cli.specs.Commands.{Asked, Asks, Words, word_texts};
ghost use Rattle.irs_cli.specs.Given.{Each, IsNamed, file_name as file_name_of, roles_before as first_of_roles};
ghost use Rattle.irs_cli.specs.Given.{first_place as first_place_of, is_same_role, word_place as place_in_table};
ghost use Rattle.irs_cli.specs.Given.{role_number, word_from as word_from_of};

use crate::commands::{Kind, Role, kind_of};

/// The name of a file: the word that names the file with this role or, of several with it, that with this number,
/// from 0. It is empty where the words name no such file.
pub fn file_name(words: &[String], role: Role, number: u32) -> &[u8]
    ensures { result.now ≡ file_name_of (word_texts words.now) role number }
{
    match first_place(words, role) {
        Some(place) => word_from(words, place, number),
        None => &[],
    }
}

/// A law: each file of a command has the name that its role gives, of the first file with it or of a calendar.
#[tactic(auto, using(crate::proofs::NamedLemmas::all_named))]
pub fn files_are_named()
    ensures { (ws : Words) (a : Asked) → Asks ws a → Each (IsNamed ws) a.files }
{}

// The word this number of words after the place, where the command has place 0; empty past the last one.
fn word_from(words: &[String], place: usize, number: u32) -> &[u8]
    requires { place ≤ 65_535 }
    ensures { result.now ≡ word_from_of (word_texts words.now) place number }
{
    match words.get(place + number as usize) {
        Some(word) => word.as_bytes(),
        None => &[],
    }
}

// The place of the first word that names a file with the role, where the command has place 0. `None` comes where
// the first word is no command.
fn first_place(words: &[String], role: Role) -> Option<usize>
    ensures value { result ≡ first_place_of (word_texts words.now) role }
    ensures small { IfSome result (λ place. place ≤ 65_535) }
{
    let Some((word, _)) = words.split_first() else {
        return None;
    };
    match kind_of(word.as_str()) {
        Some(kind) => Some(place_in(kind, role)),
        None => None,
    }
}

// The same for the command that the first word names.
#[tactic(auto, using(crate::proofs::NamingLemmas::few_params, crate::proofs::NamingLemmas::few_roles))]
fn place_in(kind: Kind, role: Role) -> usize
    ensures value { result ≡ place_in_table kind role }
    ensures small { result ≤ 65_535 }
{
    kind.params() + 1 + first_of(kind.roles(), role)
}

// How many roles come before the first that is this one; all of them where none is, as for calendars.
fn first_of(roles: &[Role], role: Role) -> usize
    ensures value { result ≡ first_of_roles roles.now role }
    ensures within { result ≤ length roles.now }
{
    match roles {
        [] => 0,
        [first, rest @ ..] => if is_same(*first, role) {
            0
        } else {
            first_of(rest, role) + 1
        },
    }
}

// Whether two roles are the same.
fn is_same(role: Role, other: Role) -> bool
    ensures { result ≡ is_same_role role other }
{
    number(role) == number(other)
}

// The number of a role, in the order of their table.
fn number(role: Role) -> u8
    ensures { result ≡ role_number role }
{
    match role {
        Role::Document => 0,
        Role::Fixings => 1,
        Role::Flows => 2,
        Role::Calendar => 3,
    }
}
