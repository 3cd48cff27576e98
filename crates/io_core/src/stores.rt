//! Files in memory.

ghost use Rattle.std.specs.Prelude.{◌≡◌, ◌≢◌, ◌≤◌, ◌<◌, ◌↔◌, ◌⊎◌, ℕ, List, [], Some, None, length};
ghost use Rattle.std.specs.Prelude.{IfOk, IfErr, OnOk, IsErrOf, IsSomeAnd, MatchOption};
ghost use Rattle.io_core.specs.Asked.{AddsName};
ghost use Rattle.io_core.specs.CallPlan.{FailsNext, planned, called, faulted};
ghost use Rattle.io_core.specs.Count.{IsCount};
ghost use Rattle.io_core.specs.Held.{first_file, file_or_empty};

use crate::asked::add_name;
use crate::faults::ReadError;
use crate::plan::Plan;
use crate::traits::Files;
use std::alloc::Global;
use std::marker::Model;
use term_core::{Name, Seq};

/// Files in memory. The calls that were chosen fail, and so does a name without a file.
///
/// Each call of `read` counts, whatever it answers.
#[derive(Drop)]
pub struct MemFiles {
    files: Seq<(Name, Seq<u8>)>,
    asked: Seq<Name>,
    plan: Plan,
}

/// Files in memory that never fail. A name without a file reads as the empty file.
#[derive(Drop)]
pub struct SureFiles {
    files: Seq<(Name, Seq<u8>)>,
    asked: Seq<Name>,
}

impl Model for MemFiles {
    ghost use Rattle.io_core.specs.Held.{PlannedFiles};

    ghost Value = { PlannedFiles };

    ghost view = { λ s. record { files = s.files; asked = s.asked; plan = s.plan } };
}

impl Model for SureFiles {
    ghost use Rattle.io_core.specs.Held.{HeldFiles};

    ghost Value = { HeldFiles };

    ghost view = { λ s. record { files = s.files; asked = s.asked } };
}

impl MemFiles {
    /// The first file of a name counts. The calls in `fails`, counted from 1, are to fail.
    pub fn new(files: Seq<(Name, Seq<u8>)>, fails: Seq<u64>) -> MemFiles
        ensures held { (n : List ℕ) → ⟦<MemFiles as Files>⟧.held result n ≡ first_file files n }
        ensures faults { ⟦<MemFiles as Files>⟧.faults result ≡ 0 }
        ensures asked { ⟦<MemFiles as Files>⟧.asked result ≡ [] }
        ensures plan { result.plan ≡ planned fails }
    {
        let fails = fails.into_vec();
        let alloc = *fails.allocator();
        MemFiles {
            files,
            asked: Seq::new(alloc),
            plan: Plan::new(Seq::from_vec(fails)),
        }
    }
}

impl SureFiles {
    /// The first file of a name counts.
    pub fn new(files: Seq<(Name, Seq<u8>)>) -> SureFiles
        ensures held { (n : List ℕ)
            → ⟦<SureFiles as Files>⟧.held result n ≡ Some (file_or_empty files n) }
        ensures faults { ⟦<SureFiles as Files>⟧.faults result ≡ 0 }
        ensures asked { ⟦<SureFiles as Files>⟧.asked result ≡ [] }
    {
        let files = files.into_vec();
        let alloc = *files.allocator();
        SureFiles {
            files: Seq::from_vec(files),
            asked: Seq::new(alloc),
        }
    }
}

impl Files for MemFiles {
    ghost held = { λ s n. first_file s.files n };

    ghost faults = { λ s. s.plan.faults };

    ghost asked = { λ s. s.asked };

    fn read(&mut self, alloc: Global, name: &str, limit: usize) -> Result<Vec<u8>, ReadError>
        ensures files { self.new.files ≡ self.old.files }

        // The call fails if and only if the plan says so or no file has the name.
        ensures planned { FailsNext self.old.plan
            → IsErrOf result ReadError.Failed ⊎ IsErrOf result ReadError.OutOfMemory }
        ensures failed { IsErrOf result ReadError.Failed
            → FailsNext self.old.plan ⊎ (first_file self.old.files name.now ≡ None) }
        ensures told { IfOk result (λ v. first_file self.old.files name.now ≡ Some v.items) }
        ensures within { IfOk result (λ v. length v.items ≤ limit) }
        ensures too_long { IsErrOf result ReadError.TooLong
            → IsSomeAnd (first_file self.old.files name.now) (λ h. limit < length h) }

        // Each call is counted, and each fault.
        ensures called { result ≢ Err ReadError.Failed → self.new.plan ≡ called self.old.plan }
        ensures faulted { IsErrOf result ReadError.Failed
            → self.new.plan ≡ faulted (called self.old.plan) }
        ensures bound { IsCount self.old.plan.faults }

        // The name is added, whatever the answer. Only want of memory may leave the names.
        ensures asks { OnOk result (AddsName self.old.asked self.new.asked name.now) }
        ensures asks_err { IfErr result (λ e. e ≢ ReadError.OutOfMemory
            → AddsName self.old.asked self.new.asked name.now) }
        ensures asks_memory { IsErrOf result ReadError.OutOfMemory
            → AddsName self.old.asked self.new.asked name.now ⊎ (self.new.asked ≡ self.old.asked) }
    {
        let fails = self.plan.next_fails();
        add_name(alloc, &mut self.asked, name)?;
        match find_file(self.files.as_slice(), name.as_bytes()) {
            Some(bytes) if !fails => copy_within(alloc, bytes, limit),
            _ => {
                self.plan.count_fault();
                Err(ReadError::Failed)
            }
        }
    }
}

impl Files for SureFiles {
    ghost held = { λ s n. Some (file_or_empty s.files n) };

    ghost faults = { λ _. 0 };

    ghost asked = { λ s. s.asked };

    fn read(&mut self, alloc: Global, name: &str, limit: usize) -> Result<Vec<u8>, ReadError> {
        add_name(alloc, &mut self.asked, name)?;
        let bytes = find_file(self.files.as_slice(), name.as_bytes()).unwrap_or(&[]);
        copy_within(alloc, bytes, limit)
    }
}

/// The bytes of the first file of the name.
fn find_file<'a>(files: &'a [(Name, Seq<u8>)], name: &[u8]) -> Option<&'a [u8]>
    ensures { MatchOption result (first_file files.now name.now ≡ None)
        (λ b. first_file files.now name.now ≡ Some b.now) }
{
    for file in files {
        if name == file.0.as_bytes() {
            return Some(file.1.as_slice());
        }
    }
    None
}

/// A copy of the bytes, if they are at most `limit`.
fn copy_within(alloc: Global, bytes: &[u8], limit: usize) -> Result<Vec<u8>, ReadError>
    ensures ok { IfOk result (λ v. v.items ≡ bytes.now) }
    ensures too_long { IsErrOf result ReadError.TooLong ↔ (limit < length bytes.now) }
    ensures memory { IfErr result (λ e. e ≢ ReadError.Failed) }
{
    if bytes.len() > limit {
        return Err(ReadError::TooLong);
    }
    Ok(Vec::from_slice(alloc, bytes)?)
}
