//! Sinks in memory.

ghost use Rattle.std.specs.Prelude.{◌≡◌, ◌≢◌, ℕ, List, [], ◌++◌, Some, length, IfOk, OnOk, OnErr};
ghost use Rattle.std.specs.Prelude.{IsErrOf};
ghost use Rattle.io_core.specs.CallPlan.{FailsNext, planned, called, faulted};
ghost use Rattle.io_core.specs.Count.{IsCount};

use crate::faults::WriteError;
use crate::plan::Plan;
use crate::traits::Sink;
use std::alloc::Global;
use std::marker::Model;
use term_core::Seq;

/// A sink in memory that takes each piece whole. The calls that were chosen fail.
///
/// Each call of `write` counts, whatever it answers. An empty piece is taken by each of them.
#[derive(Drop)]
pub struct MemSink {
    bytes: Vec<u8>,
    plan: Plan,
}

/// A sink in memory that never fails.
#[derive(Drop)]
pub struct SureSink {
    bytes: Vec<u8>,
}

impl Model for MemSink {
    ghost use Rattle.io_core.specs.Piece.{PlannedBytes};

    ghost Value = { PlannedBytes };

    ghost view = { λ s. record { bytes = s.bytes.items; plan = s.plan } };
}

impl Model for SureSink {
    ghost use Rattle.std.specs.Prelude.{ℕ, List};

    ghost Value = { List ℕ };

    ghost view = { λ s. s.bytes.items };
}

impl MemSink {
    /// The calls in `fails`, counted from 1, are to fail.
    pub fn new(alloc: Global, fails: Seq<u64>) -> MemSink
        ensures written { ⟦<MemSink as Sink>⟧.written result ≡ Some [] }
        ensures faults { ⟦<MemSink as Sink>⟧.faults result ≡ 0 }
        ensures plan { result.plan ≡ planned fails }
    {
        MemSink {
            bytes: Vec::new(alloc),
            plan: Plan::new(fails),
        }
    }

    /// All that was written.
    pub fn bytes(&self) -> &[u8]
        ensures { ⟦<MemSink as Sink>⟧.written self.now ≡ Some result.now }
    {
        self.bytes.as_slice()
    }
}

impl SureSink {
    pub fn new(alloc: Global) -> SureSink
        ensures written { ⟦<SureSink as Sink>⟧.written result ≡ Some [] }
        ensures faults { ⟦<SureSink as Sink>⟧.faults result ≡ 0 }
    {
        SureSink {
            bytes: Vec::new(alloc),
        }
    }

    /// All that was written.
    pub fn bytes(&self) -> &[u8]
        ensures { ⟦<SureSink as Sink>⟧.written self.now ≡ Some result.now }
    {
        self.bytes.as_slice()
    }
}

impl Sink for MemSink {
    ghost written = { λ s. Some s.bytes };

    ghost faults = { λ s. s.plan.faults };

    fn write(&mut self, _alloc: Global, piece: &[u8]) -> Result<usize, WriteError>
        ensures whole { IfOk result (λ n. n ≡ length piece.now) }
        ensures appended { OnOk result (self.new.bytes ≡ self.old.bytes ++ piece.now) }
        ensures kept { OnErr result (self.new.bytes ≡ self.old.bytes) }

        // The call fails if and only if the plan says so and the piece isn't empty.
        ensures empty { piece.now ≡ [] → result ≡ Ok 0 }
        ensures planned { FailsNext self.old.plan
            → piece.now ≢ [] → IsErrOf result WriteError.Failed }
        ensures failed { IsErrOf result WriteError.Failed → FailsNext self.old.plan }

        // Each call is counted, and each fault.
        ensures called { result ≢ Err WriteError.Failed → self.new.plan ≡ called self.old.plan }
        ensures faulted { IsErrOf result WriteError.Failed
            → self.new.plan ≡ faulted (called self.old.plan) }
        ensures bound { IsCount self.old.plan.faults }
    {
        let fails = self.plan.next_fails();
        if piece.is_empty() {
            return Ok(0);
        }
        if fails {
            self.plan.count_fault();
            return Err(WriteError::Failed);
        }
        self.bytes.extend_from_slice(piece)?;
        Ok(piece.len())
    }
}

impl Sink for SureSink {
    ghost written = { λ s. Some s };

    ghost faults = { λ _. 0 };

    fn write(&mut self, _alloc: Global, piece: &[u8]) -> Result<usize, WriteError> {
        if piece.is_empty() {
            return Ok(0);
        }
        self.bytes.extend_from_slice(piece)?;
        Ok(piece.len())
    }
}
