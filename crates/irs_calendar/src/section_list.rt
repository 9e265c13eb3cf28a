//! The sections of calendar files in order, found by the names of their centres.
ghost use Rattle.std.specs.Prelude.{◌≡◌, [], ◌∷◌, ◌++◌, IfOk, length, slice_get};
ghost use Rattle.std.specs.Option.{option_copied};
ghost use Rattle.irs_calendar.specs.Sections.{center_names, is_named, section_named, AreDistinct};

use crate::sections::Section;
use irs_base::{Memory, Text};
use std::alloc::Global;
use std::collections::BTreeMap;
use std::marker::Model;

/// Sections in order, with the position of each name.
///
/// Names are looked up in an ordered map, so that files with very many short sections are read
/// about as fast as others.
#[derive(Drop)]
pub struct SectionList {
    sections: Vec<Section>,
    places: BTreeMap<Vec<u8>, usize>,
}

impl Model for SectionList {
    ghost use Rattle.std.specs.Prelude.{List};
    ghost use Rattle.irs_calendar.specs.declared.sections.Section.{Section};

    ghost Value = { List Section };

    ghost view = { λ l. l.sections.items };

    ghost use Rattle.irs_calendar.specs.Sections.{IsIndex};

    ghost invariant = { λ l. IsIndex l.places l.sections.items };
}

impl SectionList {
    /// No sections; it takes no memory.
    pub fn new(alloc: Global) -> SectionList
        ensures { result ≡ [] }
    {
        SectionList {
            sections: Vec::new(alloc),
            places: BTreeMap::new(alloc),
        }
    }

    /// A section has that name.
    pub fn has_name(&self, name: &[u8]) -> bool
        ensures { result ≡ is_named name.now self.now }
    {
        self.places.contains_key(name)
    }

    /// The section with that name, no two having the same.
    pub fn find(&self, name: &[u8]) -> Option<&Section>
        requires { AreDistinct self.now }
        ensures { option_copied result ≡ section_named self.now name.now }
    {
        match self.places.get(name) {
            Some(place) => Some(&self.sections[*place]),
            None => None,
        }
    }

    /// How many sections there are.
    pub fn len(&self) -> usize
        ensures { result ≡ length self.now }
    {
        self.sections.len()
    }

    /// The name of the section at that place, counted from 0.
    pub fn name_at(&self, place: usize) -> Option<&Text>
        ensures { option_copied result ≡ slice_get (center_names self.now) place }
    {
        match self.sections.get(place) {
            Some(section) => Some(&section.name),
            None => None,
        }
    }

    /// Appends a section.
    pub fn with(self, alloc: Global, section: Section) -> Result<SectionList, Memory>
        ensures { IfOk result (λ l. l ≡ self ++ section ∷ []) }
    {
        let SectionList {
            mut sections,
            mut places,
        } = self;
        let name = Vec::from_slice(alloc, section.name.as_slice())?;
        places.insert(name, sections.len())?;
        sections.push(section)?;
        Ok(SectionList { sections, places })
    }
}
