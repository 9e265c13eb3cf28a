//! Calendar files: which days are business days in which centre.
//!
//! A file is a list of sections, possibly none. Each part of a section is on a line of its
//! own. They are `center NAME`, `cover DATE DATE`, `weekend` with 0 to 7 different names of MON to
//! SUN, and then the holidays. The holidays rise strictly inside the cover. The last line may be an
//! end line. The format is ours.
ghost use Rattle.std.specs.Prelude.{◌≡◌, ◌≤◌, List, [], length, map, Some, Ok, All, IsOk, IfOk, IfErr};
ghost use Rattle.std.specs.Prelude.{IfSome, None, option_copied, slice_get};
ghost use Rattle.irs_base.specs.Limits.{most_bytes, most_centers, most_files};
ghost use Rattle.irs_calendar.specs.GoodDays.{set_of_runs, SameDays};
ghost use Rattle.irs_calendar.specs.Private.Files.{sections_of, calendars_in, in_file, GivesAll};
ghost use Rattle.irs_calendar.specs.Sections.{center_names, is_named, AreDistinct, sections_named, day_set_of};
ghost use Rattle.irs_calendar.specs.Sections.{first_missing, CoversCommon};
ghost use Rattle.irs_calendar.specs.declared.sections.Section.{Section};
ghost use Rattle.irs_calendar.specs.declared.calendars.SelErr.TheVariants.{Memory as NoMemory};
ghost use Rattle.irs_calendar.specs.Grammar.{spot_of, SelFails, CalFiles, IsFirstCalendarFault, HaveOneFirstFault};
ghost use Rattle.irs_calendar.specs.Grammar.{AreSpeltOrFaulty, Spot};

use crate::chosen::chosen_days;
use crate::files::{FileErr, read_file};
use crate::machine::Fault;
use crate::section_list::SectionList;
use crate::sections::Section;
use crate::{GoodDays, RunSet};
use irs_base::{Memory, Names, Text};
use std::alloc::{AllocFailed, Global};
use std::marker::Model;
use thiserror::Error;

/// The first faulty line over the files in order, as file and line, both from 1; or out of memory.
/// On one line `Syntax` comes before the others.
#[derive(Clone, Copy, Debug, Error)]
pub enum CalErr {
    /// The line is outside the grammar. A file that ends inside an unfinished section has its fault at
    /// the line after its last one.
    #[error("calendar {0}, line {1}: not as a calendar is written")]
    Syntax(u32, u32),
    /// The line names a centre that has a section already, in this file or in an earlier one.
    #[error("calendar {0}, line {1}: the centre stands twice")]
    Repeat(u32, u32),
    /// The line is a centre's holiday number 20,001.
    #[error("calendar {0}, line {1}: too many holidays")]
    TooMany(u32, u32),
    /// Memory ran out.
    #[error("out of memory")]
    Memory,
}

/// Why no set of business days was selected.
#[derive(Clone, Copy, Debug, Error)]
pub enum SelErr {
    /// The first name that is in no file, as its position from 1.
    #[error("centre {0} is in no calendar")]
    NoCenter(u32),
    /// Memory ran out.
    #[error("out of memory")]
    Memory,
}

impl From<Memory> for SelErr {
    ghost from_gives = { λ _ e. e ≡ NoMemory };

    fn from(_e: Memory) -> SelErr {
        SelErr::Memory
    }
}

impl<T: Drop> From<AllocFailed<T>> for SelErr {
    ghost from_gives = { λ _ e. e ≡ NoMemory };

    fn from(_e: AllocFailed<T>) -> SelErr {
        SelErr::Memory
    }
}

/// The centres of calendar files, each with its cover, weekend and holidays; no two have the same
/// name. Contracts see the list of their sections.
#[derive(Drop)]
pub struct Calendars {
    sections: SectionList,
}

impl Model for Calendars {
    ghost use Rattle.std.specs.Prelude.{List};
    ghost use Rattle.irs_calendar.specs.declared.sections.Section.{Section};

    ghost Value = { List Section };

    ghost view = { λ c. c.sections };

    ghost use Rattle.irs_calendar.specs.Sections.{AreDistinct};

    ghost invariant = { λ c. AreDistinct c.sections };
}

/// The sections of one more file.
fn read_one(
    alloc: Global,
    done: SectionList,
    file: &[u8],
    number: u32,
) -> Result<SectionList, CalErr>
    requires { length file.now ≤ most_bytes }
    ensures { GivesAll result (in_file number (sections_of done file.now)) }
{
    match read_file(alloc, done, file) {
        Ok(sections) => Ok(sections),
        Err(FileErr::Fault(Fault::Syntax, line)) => Err(CalErr::Syntax(number, line)),
        Err(FileErr::Fault(Fault::Repeat, line)) => Err(CalErr::Repeat(number, line)),
        Err(FileErr::Fault(Fault::TooMany, line)) => Err(CalErr::TooMany(number, line)),
        Err(FileErr::Memory) => Err(CalErr::Memory),
    }
}

/// The sections with these names, in the order of the names.
fn pick<'a>(
    alloc: Global,
    sections: &'a SectionList,
    names: &[Text],
) -> Result<Vec<&'a Section>, SelErr>
    requires few { length names.now ≤ most_centers }
    requires distinct { AreDistinct sections.now }
    ensures found { IsOk result → first_missing sections.now 1 names.now ≡ None }
    ensures picked { IfOk result (λ v. map (λ s. s.now) v.items ≡ sections_named sections.now names.now) }
    ensures missing { IfErr result (λ e. SelFails e (first_missing sections.now 1 names.now)) }
{
    let mut picked: Vec<&Section> = Vec::new(alloc);
    let mut number: u32 = 1;
    for name in names {
        let Some(section) = sections.find(name.as_slice()) else {
            return Err(SelErr::NoCenter(number));
        };
        picked.push(section)?;
        number += 1;
    }
    Ok(picked)
}

/// The sections of the files, one after another.
fn read_all(alloc: Global, files: &[Vec<u8>]) -> Result<SectionList, CalErr>
    requires few { length files.now ≤ most_files }
    requires short { All (λ f. length f.items ≤ most_bytes) files.now }
    ensures { GivesAll result (calendars_in 1 [] (map (λ f. f.items) files.now)) }
{
    let mut done = SectionList::new(alloc);
    let mut number: u32 = 1;
    for file in files {
        done = read_one(alloc, done, file, number)?;
        number += 1;
    }
    Ok(done)
}

impl Calendars {
    /// The centres that the files spell.
    ///
    /// An error comes exactly at the first faulty line over the files in order, with the file and
    /// the line from 1. A file that ends inside an unfinished section has its fault at the line after
    /// its last one.
    pub fn read(alloc: Global, files: &[Vec<u8>]) -> Result<Calendars, CalErr>
        requires few { length files.now ≤ most_files }
        requires short { All (λ f. length f.items ≤ most_bytes) files.now }
        // The files spell the sections, by the grammar.
        ensures spelt { IfOk result (λ c. CalFiles (map (λ f. f.items) files.now) c) }
        // An error is at the first fault: the lines before it can go on, and with the faulty line
        // nothing can.
        ensures first { IfErr result (λ e. IfSome (spot_of e) (IsFirstCalendarFault (map (λ f. f.items) files.now))) }
        // Files that spell sections have no first fault, whatever the memory.
        ensures faultless { (ss : List Section) → CalFiles (map (λ f. f.items) files.now) ss
            → (s : Spot) → IsFirstCalendarFault (map (λ f. f.items) files.now) s → ⊥ }
        // Files spell sections or have a first fault, whatever the memory.
        ensures decided { AreSpeltOrFaulty (map (λ f. f.items) files.now) }
        // At most one fault is the first.
        ensures one_first { HaveOneFirstFault (map (λ f. f.items) files.now) }
    {
        let sections = read_all(alloc, files)?;
        Ok(Calendars { sections })
    }

    /// A section has that name. No memory is taken.
    pub fn has_center(&self, name: &Text) -> bool
        ensures { result ≡ is_named name.now self.now }
    {
        self.sections.has_name(name.as_slice())
    }

    /// How many centres there are. No memory is taken.
    pub fn center_count(&self) -> usize
        ensures { result ≡ length self.now }
    {
        self.sections.len()
    }

    /// The name of the centre at that place, counted from 0 in the order of the files; none past the last. No memory
    /// is taken.
    pub fn center(&self, place: usize) -> Option<&Text>
        ensures { option_copied result ≡ slice_get (center_names self.now) place }
    {
        self.sections.name_at(place)
    }

    /// The business days of the centres with these names. The cover is what their covers have in
    /// common. A day of it is a business day if no weekend list of theirs has its weekday and no
    /// holiday list has the day. `NoCenter` comes exactly with the first position, from 1, whose
    /// name is in no file.
    pub fn select(&self, alloc: Global, names: &Names) -> Result<RunSet, SelErr>
        requires { length names.now ≤ most_centers }
        ensures found { IsOk result → first_missing self.now 1 names.now ≡ None }
        ensures days { IfOk result (λ s. SameDays (⟦<RunSet as GoodDays>⟧.days s) (day_set_of self.now names.now)) }
        // A day is in the cover exactly where each named section's cover has it.
        ensures cover { IfOk result (λ s. CoversCommon (sections_named self.now names.now) (set_of_runs s)) }
        ensures missing { IfErr result (λ e. SelFails e (first_missing self.now 1 names.now)) }
    {
        let picked = pick(alloc, &self.sections, names.as_slice())?;
        let days = chosen_days(alloc, &picked)?;
        Ok(days)
    }
}
