//! The calendars and the fixings that tasks have in common, read once.
ghost use Rattle.std.specs.Prelude.{◌≡◌, ◌≤◌, length, map, option_map, IfSome, IfOk, IfErr, All};
ghost use Rattle.irs_base.specs.Limits.{most_bytes, most_files};
ghost use Rattle.irs_calendar.specs.Grammar.{spot_of, IsFirstCalendarFault, CalFiles};
ghost use Rattle.irs_answers.specs.Due.{AreRead, CalendarsRead, FixingsRead, AreGivenFixings, FixingsFail};
ghost use Rattle.irs_answers.specs.Forms.{IsWithinLimits, files_given_by};

use crate::files::TaskFiles;
use irs_calendar::{CalErr, Calendars};
use irs_resets::{FixErr, Fixings};
use std::alloc::Global;

/// The calendar files and the file of fixings of a task, and what each kind says: or its first fault. Tasks
/// over other documents can have them in common.
#[derive(Drop)]
pub struct Common {
    /// The files. The document and the flows don't count.
    pub files: TaskFiles,
    /// What the calendar files say.
    pub calendars: Result<Calendars, CalErr>,
    /// What the file of fixings says, no rates where there is no file.
    pub fixings: Result<Fixings, FixErr>,
}

impl Common {
    /// Reads the calendar files and the file of fixings.
    pub fn read(alloc: Global, files: TaskFiles) -> Common
        requires { IsWithinLimits (files_given_by files) }
        ensures files { result.files ≡ files }
        ensures read { AreRead result }
    {
        let calendars = read_calendars(alloc, &files.calendars);
        let fixings = read_fixings(alloc, &files.fixings);
        Common {
            files,
            calendars,
            fixings,
        }
    }

    /// The calendars, or the first fault of their files.
    pub(crate) fn calendars(&self) -> Result<&Calendars, CalErr>
        requires { AreRead self.now }
        ensures spelt { IfOk result (λ c. CalFiles (files_given_by self.now.files).calendars c.now) }
        ensures first { IfErr result (λ e. IfSome (spot_of e) (IsFirstCalendarFault (files_given_by self.now.files).calendars)) }
    {
        match &self.calendars {
            Ok(calendars) => Ok(calendars),
            Err(e) => Err(*e),
        }
    }

    /// The fixings, or the first fault of their file.
    pub(crate) fn fixings(&self) -> Result<&Fixings, FixErr>
        requires { AreRead self.now }
        ensures fixings { IfOk result (λ f. AreGivenFixings (files_given_by self.now.files).fixings f.now) }
        ensures fault { IfErr result (λ e. FixingsFail (files_given_by self.now.files).fixings e) }
    {
        match &self.fixings {
            Ok(fixings) => Ok(fixings),
            Err(e) => Err(*e),
        }
    }
}

// What calendar files say.
fn read_calendars(alloc: Global, files: &[Vec<u8>]) -> Result<Calendars, CalErr>
    requires few { length files.now ≤ most_files }
    requires short { All (λ f. length f.items ≤ most_bytes) files.now }
    ensures { CalendarsRead (map (λ f. f.items) files.now) result }
{
    Calendars::read(alloc, files)
}

// The fixings of a file, none where there is no file.
fn read_fixings(alloc: Global, bytes: &Option<Vec<u8>>) -> Result<Fixings, FixErr>
    requires { IfSome bytes.now (λ v. length v.items ≤ most_bytes) }
    ensures { FixingsRead (option_map (λ v. v.items) bytes.now) result }
{
    match bytes {
        Some(bytes) => Fixings::read(alloc, bytes),
        None => Ok(Fixings::none()),
    }
}
