//! Runs of business days, in order.
ghost use Rattle.std.specs.Prelude.{◌≡◌, ◌+◌, ◌<◌, [], ◌∷◌, length, slice_get};

use crate::Steps;
use irs_base::Day;
use std::marker::Model;
use std::sync::ledger::Ledger;

/// A first and a last day; each day from the first to the last is a business day.
#[derive(Clone, Copy)]
pub struct Run {
    /// The first business day of the run.
    pub first: Day,
    /// The last one; it is included.
    pub last: Day,
}

/// Where runs are kept.
#[derive(Drop)]
enum Stored {
    One(Run),
    Many(Vec<Run>),
}

/// Runs in order. A single one takes no memory.
#[derive(Drop)]
pub struct Runs {
    stored: Stored,
}

impl Model for Runs {
    ghost use Rattle.std.specs.Prelude.{List};
    ghost use Rattle.irs_calendar.specs.declared.runs.Run.{Run};

    ghost Value = { List Run };

    ghost use Rattle.irs_calendar.specs.GoodDays.{runs_in};

    ghost view = { λ r. runs_in r.stored };
}

impl Runs {
    /// A single run.
    pub fn one(run: Run) -> Runs
        ensures { result ≡ run ∷ [] }
    {
        Runs {
            stored: Stored::One(run),
        }
    }

    /// Runs that a list keeps.
    pub fn many(runs: Vec<Run>) -> Runs
        ensures { result ≡ runs.items }
    {
        Runs {
            stored: Stored::Many(runs),
        }
    }

    /// How many there are.
    pub fn count(&self) -> usize
        ensures { result ≡ length self.now }
    {
        match &self.stored {
            Stored::One(_) => 1,
            Stored::Many(runs) => runs.len(),
        }
    }

    /// The one call that reads a run, which is a step.
    pub fn read<L: Ledger>(&self, i: usize, steps: &mut Steps<L>) -> Run
        requires { i < length self.now }
        ensures run { slice_get self.now i ≡ Some result }
        ensures step { steps.new ≡ steps.old + 1 }
    {
        steps.tick();
        match &self.stored {
            Stored::One(run) => *run,
            Stored::Many(runs) => runs[i],
        }
    }
}
