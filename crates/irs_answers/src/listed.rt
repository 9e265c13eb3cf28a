//! The centres that the calendar files have, as a sentence lists them. That they are listed is our rule.
ghost use Rattle.std.specs.Prelude.{◌≡◌, IfOk, IfSome, take};
ghost use Rattle.irs_calendar.specs.Sections.{center_names};
ghost use Rattle.irs_answers.specs.Due.{AreRead};
ghost use Rattle.irs_answers.specs.Forms.{files_given_by};
ghost use Rattle.irs_answers.specs.Notes.{IsMaybeListOf, listed_centers, most_listed};

use crate::common::Common;
use irs_base::{Memory, Names};
use irs_calendar::Calendars;
use std::alloc::Global;

/// The most names that are listed.
const MOST_LISTED: usize = 16;

/// The centres that the calendar files have.
#[derive(Drop)]
pub enum Listed {
    /// No calendar file was given.
    NoFile,
    /// The first names in the order of the files, at most 16, and how many more there are.
    Named(Names, usize),
}

/// The centres that the calendar files have. None where there is a file and memory ran out.
pub(crate) fn listed_centers(alloc: Global, common: &Common) -> Option<Listed>
    requires { AreRead common.now }
    ensures { IsMaybeListOf (files_given_by common.now.files).calendars result }
{
    if common.files.calendars.is_empty() {
        return Some(Listed::NoFile);
    }
    let Ok(calendars) = common.calendars() else {
        return None;
    };
    list_of(alloc, calendars)
}

// The centres of calendars. None where memory ran out.
fn list_of(alloc: Global, calendars: &Calendars) -> Option<Listed>
    ensures { IfSome result (λ list. list ≡ listed_centers calendars.now) }
{
    let Ok(names) = first_names(alloc, calendars) else {
        return None;
    };
    let more = calendars.center_count().saturating_sub(MOST_LISTED);
    Some(Listed::Named(names, more))
}

// The first names, as many as are listed.
fn first_names(alloc: Global, calendars: &Calendars) -> Result<Names, Memory>
    ensures { IfOk result (λ names. names ≡ take most_listed (center_names calendars.now)) }
{
    let mut names = Names::new(alloc);
    for place in 0..MOST_LISTED {
        let Some(name) = calendars.center(place) else {
            return Ok(names);
        };
        names.push(name.copy(alloc)?)?;
    }
    Ok(names)
}
