//! A sink in memory. Its room is taken beforehand, and a call can be marked to fail. It is for
//! tests and for callers that use the program as a library.
ghost use Rattle.std.specs.Prelude.{◌≡◌, ◌+◌, ◌-◌, ◌<◌, ◌≤◌, [], ◌++◌, take, length, Some, None, IfOk};
ghost use Rattle.std.specs.Prelude.{OnOk, OnErr};
ghost use Rattle.irs_outside.specs.Outside.{Rose, GrewByFront};
ghost use Rattle.irs_outside.specs.Private.Outside.{next_count, is_marked_at, IsMarkedPut};

use crate::{PutFailed, Sink};
use irs_base::Memory;
use std::alloc::Global;
use std::marker::Model;

/// Keeps what was written.
#[derive(Drop)]
pub struct MemSink {
    room: Vec<u8>,
    used: usize,
    calls: u64,
    marked: Option<u32>,
    faults: u64,
}

// Clauses see what was written, the bytes that still fit, and the counts.
impl Model for MemSink {
    ghost use Rattle.std.specs.Prelude.{◌≤◌, length};
    ghost use Rattle.irs_outside.specs.Outside.{SinkSeen};

    ghost Value = { SinkSeen };

    ghost use Rattle.irs_outside.specs.Outside.{sink_seen};

    ghost view = { sink_seen };

    ghost invariant = { λ s. s.used ≤ length s.room.items };
}

impl MemSink {
    /// Nothing is written, and there is room for that many bytes.
    pub fn with_room(alloc: Global, room: usize) -> Result<MemSink, Memory>
        ensures { IfOk result (λ s. s ≡ record { written = []; left = room; marked = None; calls = 0; faults = 0 }) }
    {
        Ok(MemSink {
            room: vec![in alloc; 0; room]?,
            used: 0,
            calls: 0,
            marked: None,
            faults: 0,
        })
    }

    /// What was written.
    pub fn bytes(&self) -> &[u8]
        ensures { result.now ≡ self.now.written }
    {
        &self.room[..self.used]
    }

    /// Marks the one call, counted from 1 over the life of this sink, that is to fail. The last one
    /// marked is meant.
    pub fn fail_at(&mut self, call: u32)
        ensures { self.new ≡ record self.old { marked = Some call } }
    {
        self.marked = Some(call);
    }

    // Whether the call that was counted last is the one that is to fail.
    fn is_marked(&self) -> bool
        ensures { result ≡ is_marked_at self.now.calls self.now.marked }
    {
        match self.marked {
            Some(call) => u64::from(call) == self.calls,
            None => false,
        }
    }

    // Appends bytes that fit.
    fn append(&mut self, bytes: &[u8])
        requires { length bytes.now ≤ self.old.left }
        ensures { self.new ≡ record self.old {
          written = self.old.written ++ bytes.now;
          left =
              self.old.left - length bytes.now;
        } }
    {
        let end = self.used + bytes.len();
        self.room[self.used..end].copy_from_slice(bytes);
        self.used = end;
    }

    // How many bytes more fit.
    fn left(&self) -> usize
        ensures { result ≡ self.now.left }
    {
        self.room.len() - self.used
    }
}

impl Sink for MemSink {
    ghost use Rattle.std.specs.Prelude.{Some};

    ghost written = { λ s. Some s.written };

    ghost faults = { λ s. s.faults };

    /// It fails exactly at the call that is marked, and where the bytes pass the room. The first
    /// appends nothing, the second what fits.
    fn put(&mut self, bytes: &[u8]) -> Result<(), PutFailed>
        ensures ok { OnOk result (self.new.written ≡ self.old.written ++ bytes.now) }
        ensures quiet { OnOk result (self.new.faults ≡ self.old.faults) }
        ensures err { OnErr result (GrewByFront (Some self.old.written) (Some self.new.written) bytes.now) }
        ensures rose { OnErr result (Rose self.old.faults self.new.faults) }
        ensures fits { OnOk result ((IsMarkedPut self.old → ⊥) × (length bytes.now ≤ self.old.left)) }
        ensures marked { IsMarkedPut self.old → self.new.written ≡ self.old.written }
        ensures full { OnErr result ((IsMarkedPut self.old → ⊥)
            → (self.old.left < length bytes.now)
            × (self.new.written ≡ self.old.written ++ take self.old.left bytes.now)) }
        ensures calls { self.new.calls ≡ next_count self.old.calls }
        ensures same { self.new.marked ≡ self.old.marked }
        ensures room { length self.new.written + self.new.left ≡ length self.old.written + self.old.left }
    {
        self.calls = self.calls.saturating_add(1);
        if self.is_marked() {
            self.faults = self.faults.saturating_add(1);
            return Err(PutFailed);
        }
        let left = self.left();
        if bytes.len() <= left {
            self.append(bytes);
            return Ok(());
        }
        self.append(&bytes[..left]);
        self.faults = self.faults.saturating_add(1);
        Err(PutFailed)
    }
}
