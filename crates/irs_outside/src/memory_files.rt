//! Files in memory, with calls that are to fail: for tests, and for whoever uses the program as a
//! library.
ghost use Rattle.std.specs.Prelude.{◌≡◌, ◌≢◌, ℕ, List, [], ◌∷◌, ◌++◌, take, Some, None, IfOk};
ghost use Rattle.std.specs.Prelude.{IfSome, IsErrOf, OnOk, OnErr};
ghost use Rattle.irs_outside.specs.Outside.{IsFrontUnder, Rose, file_under, marked_calls, calls_so_far, faults_so_far};
ghost use Rattle.irs_outside.specs.Outside.{last_failed};
ghost use Rattle.irs_outside.specs.Private.Outside.{next_count, IsMarked};

use crate::file_map::FileMap;
use crate::{FetchErr, Files};
use irs_base::Memory;
use std::alloc::Global;

/// A map of names to bytes, and the calls that are to fail.
#[derive(Drop)]
pub struct MemFiles {
    kept: FileMap,
    marked: Vec<u64>,
    calls: u64,
    faults: u64,
    failed: Option<String>,
}

impl MemFiles {
    /// No file, and no call that is to fail.
    pub fn new(alloc: Global) -> MemFiles
        ensures files { (n : List ℕ) → file_under result n ≡ None }
        ensures marked { marked_calls result ≡ [] }
        ensures calls { calls_so_far result ≡ 0 }
        ensures faults { faults_so_far result ≡ 0 }
        ensures failed { last_failed result ≡ None }
    {
        MemFiles {
            kept: FileMap::new(alloc),
            marked: Vec::new(alloc),
            calls: 0,
            faults: 0,
            failed: None,
        }
    }

    /// Adds bytes under a name, and replaces those it had. Where no memory is found the files stay
    /// as they were.
    pub fn add(&mut self, name: &str, bytes: &[u8]) -> Result<(), Memory>
        ensures under { OnOk result (file_under self.new name.now ≡ Some bytes.now) }
        ensures beside { OnOk result ((n : List ℕ) → n ≢ name.now → file_under self.new n ≡ file_under self.old n) }
        ensures err { OnErr result ((n : List ℕ) → file_under self.new n ≡ file_under self.old n) }
        ensures marked { marked_calls self.new ≡ marked_calls self.old }
        ensures calls { calls_so_far self.new ≡ calls_so_far self.old }
        ensures faults { faults_so_far self.new ≡ faults_so_far self.old }
        ensures failed { last_failed self.new ≡ last_failed self.old }
    {
        self.kept.add(name, bytes)
    }

    /// Marks a call, counted from 1 over the life of these files, that is to fail. Calls that were
    /// marked before stay so.
    pub fn fail_at(&mut self, call: u32) -> Result<(), Memory>
        ensures ok { OnOk result (marked_calls self.new ≡ marked_calls self.old ++ call ∷ []) }
        ensures err { OnErr result (marked_calls self.new ≡ marked_calls self.old) }
        ensures files { (n : List ℕ) → file_under self.new n ≡ file_under self.old n }
        ensures calls { calls_so_far self.new ≡ calls_so_far self.old }
        ensures faults { faults_so_far self.new ≡ faults_so_far self.old }
        ensures failed { last_failed self.new ≡ last_failed self.old }
    {
        self.marked.push(u64::from(call))?;
        Ok(())
    }
}

impl Files for MemFiles {
    ghost told = { file_under };

    ghost gives = { λ m name most bytes. IsFrontUnder (file_under m name) most bytes };

    ghost faults = { faults_so_far };

    ghost failed = { last_failed };

    /// `Failed` comes exactly at a call that is marked and at a name that isn't there.
    fn fetch(&mut self, alloc: Global, name: &str, most: usize) -> Result<Vec<u8>, FetchErr>
        ensures bytes { IfOk result (λ b. IfSome (file_under self.old name.now) (λ xs. b.items ≡ take most xs)) }
        ensures told { (n : List ℕ) → file_under self.new n ≡ file_under self.old n }
        ensures gave { IfOk result (λ b. IsFrontUnder (file_under self.old name.now) most b.items) }
        ensures same { (n : List ℕ) (k : ℕ) (b : List ℕ) → IsFrontUnder (file_under self.new n) k b
            → IsFrontUnder (file_under self.old n) k b }
        ensures rose { IsErrOf result FetchErr.Failed → Rose (faults_so_far self.old) (faults_so_far self.new) }
        ensures failed { IsErrOf result FetchErr.Failed → last_failed self.new ≡ Some name.now }
        ensures quiet { (IsErrOf result FetchErr.Failed → ⊥)
            → (faults_so_far self.new ≡ faults_so_far self.old) × (last_failed self.new ≡ last_failed self.old) }
        // The call is counted, whatever it answers.
        ensures calls { calls_so_far self.new ≡ next_count (calls_so_far self.old) }
        ensures marked { marked_calls self.new ≡ marked_calls self.old }
        ensures present { OnOk result ((IsMarked self.old → ⊥) × (file_under self.old name.now ≢ None)) }
        ensures absent { IsErrOf result FetchErr.Failed → (file_under self.old name.now ≢ None) → IsMarked self.old }
        ensures count { IsErrOf result FetchErr.Failed → faults_so_far self.new ≡ next_count (faults_so_far self.old) }
    {
        self.calls = self.calls.saturating_add(1);
        let asked = String::from_str(alloc, name)?;
        if !self.marked.contains(&self.calls) {
            if let Some(bytes) = self.kept.front(alloc, name, most)? {
                return Ok(bytes);
            }
        }
        self.faults = self.faults.saturating_add(1);
        self.failed = Some(asked);
        Err(FetchErr::Failed)
    }
}
