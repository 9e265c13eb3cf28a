//! The files of a task, by what they are to it.
ghost use Rattle.std.specs.Prelude.{◌≡◌};
ghost use Rattle.irs_answers.specs.Forms.{IsWithinLimits, files_given_by, given_with, no_files};

use crate::forms::Source;
use std::alloc::Global;

/// The files of a task, by what they are to it.
#[derive(Drop)]
pub struct TaskFiles {
    /// The document.
    pub document: Source,
    /// The file of fixings, where there is one.
    pub fixings: Option<Vec<u8>>,
    /// The cash flows; empty for a task without them.
    pub flows: Source,
    /// The calendar files, in order.
    pub calendars: Vec<Vec<u8>>,
}

impl TaskFiles {
    /// No file.
    pub fn new(alloc: Global) -> TaskFiles
        ensures { files_given_by result ≡ no_files }
    {
        TaskFiles {
            document: Source::empty(alloc),
            fixings: None,
            flows: Source::empty(alloc),
            calendars: Vec::new(alloc),
        }
    }

    /// The document and the flows alone, and the other files alone.
    pub(crate) fn split(self, alloc: Global) -> (TaskFiles, TaskFiles)
        ensures whole { given_with result.0 result.1 ≡ files_given_by self }
        ensures limits { IsWithinLimits (files_given_by self) → IsWithinLimits (files_given_by result.1) }
    {
        let TaskFiles {
            document,
            fixings,
            flows,
            calendars,
        } = self;
        let own = TaskFiles {
            document,
            fixings: None,
            flows,
            calendars: Vec::new(alloc),
        };
        let common = TaskFiles {
            document: Source::empty(alloc),
            fixings,
            flows: Source::empty(alloc),
            calendars,
        };
        (own, common)
    }
}
