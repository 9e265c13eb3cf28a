//! The rows of sinks: each names a sink and steps with it, ` ; ` between them. It says what each
//! write and each question among the steps gives.
use crate::answers::Answers;
use crate::told::Told;
use irs_outside::{MemSink, PutFailed, Sink, SureSink};
use std::alloc::Global;

/// A sink that is tried.
#[derive(Drop)]
enum Tried {
    /// `memory ROOM`: a sink in memory, with room for ROOM bytes.
    Memory(MemSink),
    /// `sure`: a sink that never fails.
    Sure(SureSink),
}

/// A step with a sink.
#[derive(Clone, Copy)]
enum Step<'a> {
    /// `fail CALL`: that write, counted from 1, is to fail.
    Fail { call: u32 },
    /// `put TIMES TEXT`: one write, of the text that number of times.
    Put { times: usize, text: &'a str },
    /// `bytes`: what the sink has.
    Bytes,
    /// `length`: how many bytes it has.
    Length,
    /// `byte PLACE`: the byte at a place, counted from 0.
    Byte { place: usize },
}

fn sink_of(alloc: Global, name: &str) -> Option<Tried> {
    let (kind, room) = name.split_once(' ').unwrap_or((name, "0"));
    let room = room.parse::<usize>().ok()?;
    match kind {
        "memory" => Some(Tried::Memory(MemSink::with_room(alloc, room).ok()?)),
        "sure" => Some(Tried::Sure(SureSink::new())),
        _ => None,
    }
}

fn step_of(text: &str) -> Option<Step> {
    let (verb, rest) = text.split_once(' ').unwrap_or((text, ""));
    match verb {
        "fail" => {
            let call = rest.parse::<u32>().ok()?;
            Some(Step::Fail { call })
        }
        "put" => {
            let (times, text) = rest.split_once(' ')?;
            let times = times.parse::<usize>().ok()?;
            Some(Step::Put { times, text })
        }
        "bytes" => Some(Step::Bytes),
        "length" => Some(Step::Length),
        "byte" => {
            let place = rest.parse::<usize>().ok()?;
            Some(Step::Byte { place })
        }
        _ => None,
    }
}

impl Tried {
    // A call of a sink in memory is to fail; no other sink can do so.
    fn fail_at(&mut self, call: u32) -> Option<()> {
        match self {
            Tried::Memory(sink) => {
                sink.fail_at(call);
                Some(())
            }
            Tried::Sure(_) => None,
        }
    }

    fn put(&mut self, bytes: &[u8]) -> Result<(), PutFailed> {
        match self {
            Tried::Memory(sink) => sink.put(bytes),
            Tried::Sure(sink) => sink.put(bytes),
        }
    }

    // The bytes that the sink keeps; a sure sink keeps none.
    fn bytes(&self) -> Option<&[u8]> {
        match self {
            Tried::Memory(sink) => Some(sink.bytes()),
            Tried::Sure(_) => None,
        }
    }

    // Writes a text a number of times, and reports whether all was written.
    fn tell_put(&mut self, told: &mut Told, alloc: Global, text: &str, times: usize) -> Option<()> {
        let whole = text.repeat(alloc, times).ok()?;
        told.text(match self.put(whole.as_bytes()) {
            Ok(()) => "whole",
            Err(PutFailed) => "failed",
        });
        Some(())
    }

    // Takes the step of a text: a write reports whether all was written, a question its answer.
    fn step(&mut self, answers: &mut Answers, alloc: Global, text: &str) -> Option<()> {
        match step_of(text)? {
            Step::Fail { call } => self.fail_at(call)?,
            Step::Put { times, text } => self.tell_put(answers.next(), alloc, text, times)?,
            Step::Bytes => answers.quoted(self.bytes()?),
            Step::Length => answers.next().number(self.bytes()?.len()),
            Step::Byte { place } => answers.quoted(&[*self.bytes()?.get(place)?]),
        }
        Some(())
    }

    fn tell_steps(&mut self, told: &mut Told, alloc: Global, steps: &str) -> Option<()> {
        let mut answers = Answers::new(told);
        for step in steps.split(" ; ") {
            self.step(&mut answers, alloc, step)?;
        }
        Some(())
    }
}

/// Reports what the writes and the questions among the steps with a sink give.
pub fn tell_sinks(told: &mut Told, alloc: Global, name: &str, steps: &str) -> Option<()> {
    let mut sink = sink_of(alloc, name)?;
    sink.tell_steps(told, alloc, steps)
}
