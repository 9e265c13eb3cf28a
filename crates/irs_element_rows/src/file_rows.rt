//! The rows of files: each names a source of files and steps with it, ` ; ` between them. It says
//! what each fetch among the steps gives.
use crate::answers::Answers;
use crate::told::Told;
use irs_outside::{FetchErr, Files, MemFiles, RealFiles, SureFiles};
use std::alloc::Global;
use std::fs;

/// A source of files.
#[derive(Drop)]
enum Source<'r> {
    /// `memory`: files in memory, with calls that are to fail.
    Memory(MemFiles),
    /// `sure`: files in memory that never fail.
    Sure(SureFiles),
    /// `real`: the files of the system, in the folder where the program runs.
    Real {
        rt: &'r HostRuntime,
        files: RealFiles<'r, HostRuntime>,
    },
}

/// A step with a source of files.
#[derive(Clone, Copy)]
enum Step<'a> {
    /// `add NAME TEXT`: the name has the text.
    Add { name: &'a str, text: &'a str },
    /// `fail CALL`: that fetch, counted from 1, is to fail.
    Fail { call: u32 },
    /// `remove NAME`: the name has nothing.
    Remove { name: &'a str },
    /// `fetch MOST NAME`: the first bytes of the file, or all of it where it is shorter.
    Fetch { most: usize, name: &'a str },
}

fn source_of<'r>(rt: &'r HostRuntime, name: &str) -> Option<Source<'r>> {
    match name {
        "memory" => Some(Source::Memory(MemFiles::new(rt.alloc()))),
        "sure" => Some(Source::Sure(SureFiles::new(rt.alloc()))),
        "real" => Some(Source::Real {
            rt,
            files: RealFiles::new(rt),
        }),
        _ => None,
    }
}

fn step_of(text: &str) -> Option<Step> {
    let (verb, rest) = text.split_once(' ')?;
    match verb {
        "add" => {
            let (name, text) = rest.split_once(' ')?;
            Some(Step::Add { name, text })
        }
        "fail" => {
            let call = rest.parse::<u32>().ok()?;
            Some(Step::Fail { call })
        }
        "remove" => Some(Step::Remove { name: rest }),
        "fetch" => {
            let (most, name) = rest.split_once(' ')?;
            let most = most.parse::<usize>().ok()?;
            Some(Step::Fetch { most, name })
        }
        _ => None,
    }
}

impl<'r> Source<'r> {
    fn add(&mut self, name: &str, text: &str) -> Option<()> {
        match self {
            Source::Memory(files) => files.add(name, text.as_bytes()).ok(),
            Source::Sure(files) => files.add(name, text.as_bytes()).ok(),
            Source::Real { rt, .. } => fs::write(*rt, name, text.as_bytes()).ok(),
        }
    }

    // A call of files in memory is to fail; no other source can do so.
    fn fail_at(&mut self, call: u32) -> Option<()> {
        match self {
            Source::Memory(files) => files.fail_at(call).ok(),
            Source::Sure(_) | Source::Real { .. } => None,
        }
    }

    // Removes a real file; files in memory stay.
    fn remove(&mut self, name: &str) -> Option<()> {
        match self {
            Source::Memory(_) | Source::Sure(_) => None,
            Source::Real { rt, .. } => fs::remove_file(*rt, name).ok(),
        }
    }

    fn fetch(&mut self, alloc: Global, name: &str, most: usize) -> Result<Vec<u8>, FetchErr> {
        match self {
            Source::Memory(files) => files.fetch(alloc, name, most),
            Source::Sure(files) => files.fetch(alloc, name, most),
            Source::Real { files, .. } => files.fetch(alloc, name, most),
        }
    }

    // Takes the step of a text: a fetch reports the bytes of a file, or `failed`.
    fn step(&mut self, answers: &mut Answers, alloc: Global, text: &str) -> Option<()> {
        match step_of(text)? {
            Step::Add { name, text } => self.add(name, text),
            Step::Fail { call } => self.fail_at(call),
            Step::Remove { name } => self.remove(name),
            Step::Fetch { most, name } => tell_fetched(answers, &self.fetch(alloc, name, most)),
        }
    }

    fn tell_steps(&mut self, told: &mut Told, alloc: Global, steps: &str) -> Option<()> {
        let mut answers = Answers::new(told);
        for step in steps.split(" ; ") {
            self.step(&mut answers, alloc, step)?;
        }
        Some(())
    }
}

fn tell_fetched(answers: &mut Answers, fetched: &Result<Vec<u8>, FetchErr>) -> Option<()> {
    match fetched {
        Ok(bytes) => answers.quoted(bytes),
        Err(FetchErr::Failed) => answers.next().text("failed"),
        Err(FetchErr::Memory) => return None,
    }
    Some(())
}

/// Reports what the fetches among the steps with a source of files give.
pub fn tell_files(told: &mut Told, rt: &HostRuntime, name: &str, steps: &str) -> Option<()> {
    let mut source = source_of(rt, name)?;
    source.tell_steps(told, rt.alloc(), steps)
}
