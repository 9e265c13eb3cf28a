//! A page: the pieces of a text wait on it, and go to a sink together, without memory.
//!
//! A text of many short lines takes one write a page, not one a line.
ghost use Rattle.std.specs.Prelude.{◌≡◌, ℕ, ◌+◌, ◌<◌, ◌≤◌, List, [], ◌++◌, length, take, IsOk, OnOk, OnErr};
ghost use Rattle.irs_cli.specs.Pages.{page_size};
ghost use Rattle.irs_cli.specs.Private.Pages.{Through};
ghost use Rattle.irs_outside.specs.Outside.{Rose, Grew, GrewByFront};

use crate::{PutFailed, Sink};
use std::marker::Model;

// The most bytes that wait.
const PAGE: usize = 4_096;

/// Bytes that wait to be written, at most 4,096. Contracts see these bytes.
#[derive(Drop)]
pub(crate) struct Page {
    room: [u8; PAGE],
    used: usize,
}

impl Model for Page {
    ghost Value = { List ℕ };

    ghost view = { λ p. take p.used p.room };

    ghost invariant = { λ p. p.used ≤ page_size };
}

impl Page {
    /// The page on which nothing waits.
    pub(crate) fn new() -> Page
        ensures { result ≡ [] }
    {
        Page {
            room: [0; PAGE],
            used: 0,
        }
    }

    /// Appends bytes to those that wait. Where they don't fit, what waits is written first.
    pub(crate) fn add<S: Sink>(&mut self, out: &mut S, bytes: &[u8]) -> Result<(), PutFailed>
        requires { length bytes.now ≤ page_size }
        // Of what waited and the new bytes, all was written except what waits now.
        ensures ok { OnOk result (Through (S.written out.old) (S.written out.new) self.new (self.old ++ bytes.now)) }
        ensures quiet { OnOk result (S.faults out.new ≡ S.faults out.old) }
        // A write failed, and a front of what waited was written.
        ensures err { OnErr result (GrewByFront (S.written out.old) (S.written out.new) self.old) }
        ensures rose { OnErr result (Rose (S.faults out.old) (S.faults out.new)) }
        // Bytes that fit wait too, and nothing is written.
        ensures fits { length self.old + length bytes.now ≤ page_size
            → IsOk result × (out.new ≡ out.old) × (self.new ≡ self.old ++ bytes.now) }
        // Bytes that don't fit wait alone.
        ensures alone { page_size < length self.old + length bytes.now → OnOk result (self.new ≡ bytes.now) }
    {
        if bytes.len() > PAGE - self.used {
            self.put(out)?;
        }
        self.push(bytes);
        Ok(())
    }

    /// Writes what waits. After that nothing waits, also where the write failed.
    pub(crate) fn put<S: Sink>(&mut self, out: &mut S) -> Result<(), PutFailed>
        ensures ok { OnOk result (Grew (S.written out.old) (S.written out.new) self.old) }
        ensures quiet { OnOk result (S.faults out.new ≡ S.faults out.old) }
        ensures err { OnErr result (GrewByFront (S.written out.old) (S.written out.new) self.old) }
        ensures rose { OnErr result (Rose (S.faults out.old) (S.faults out.new)) }
        ensures empty { self.new ≡ [] }
    {
        let waiting = self.used;
        self.used = 0;
        out.put(&self.room[..waiting])
    }

    // Appends bytes that fit to those that wait.
    fn push(&mut self, bytes: &[u8])
        requires { length self.old + length bytes.now ≤ page_size }
        ensures { self.new ≡ self.old ++ bytes.now }
    {
        let end = self.used + bytes.len();
        self.room[self.used..end].copy_from_slice(bytes);
        self.used = end;
    }
}
