//! The files that many runs of the same words have in common: the fixings and the calendars, read once.
ghost use Rattle.std.specs.Prelude.{◌≡◌, ℕ, List, map, IfOk, IfSome};
ghost use Rattle.irs_cli.specs.Commands.{word_texts};
ghost use Rattle.irs_cli.specs.Private.Fetching.{wanted_by};
ghost use Rattle.irs_cli.specs.Given.{IsCommon, belongs, files_with};

use crate::Files;
use crate::commands::{Named, Role, command_of};
use crate::fetching::fetch_all;
use irs_answers::Common;
use irs_base::Memory;
use std::alloc::Global;

/// The fixings and the calendars that the words name, read once for many runs. `None` comes where the words
/// are no listed command, a file can't be read or is too long, or memory ran out.
pub fn read_common<F: Files>(alloc: Global, words: &[String], files: &mut F) -> Option<Common>
    // What the source states of its files is the same afterwards.
    ensures told { (n : List ℕ) → F.told files.new n ≡ F.told files.old n }
    ensures common { IfSome result (IsCommon (word_texts words.now) (F.told files.old) (F.gives files.old)) }
{
    let Ok(Some(command)) = command_of(alloc, words) else {
        return None;
    };
    let Ok(names) = names_with(alloc, &command.files, false) else {
        return None;
    };
    let Ok(fetched) = fetch_all(alloc, &names, files) else {
        return None;
    };
    Some(Common::read(alloc, fetched))
}

/// The files that are a run's own, the document and the flows; or the others.
pub(crate) fn names_with<'w>(
    alloc: Global,
    names: &[Named<'w>],
    own: bool,
) -> Result<Vec<Named<'w>>, Memory>
    ensures { IfOk result (λ v. map wanted_by v.items ≡ files_with own (map wanted_by names.now)) }
{
    let mut found = Vec::new(alloc);
    for named in names {
        if belongs(own, named.role) {
            found.push(*named)?;
        }
    }
    Ok(found)
}

/// Whether a file is a run's own; or, with `own` false, whether it isn't.
fn belongs(own: bool, role: Role) -> bool
    ensures { result ≡ belongs own role }
{
    match role {
        Role::Document => own,
        Role::Fixings => !own,
        Role::Flows => own,
        Role::Calendar => !own,
    }
}
