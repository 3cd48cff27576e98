//! Which calls of a store or sink in memory are to fail.

ghost use Rattle.std.specs.Prelude.{◌≡◌, ◌↔◌, IsTrue};
ghost use Rattle.io_core.specs.Count.{IsCount};
ghost use Rattle.io_core.specs.CallPlan.{FailsNext, planned, called, faulted};

use std::marker::Model;
use term_core::Seq;

/// Which calls are to fail, counted from 1, and what was counted so far.
#[derive(Drop)]
pub(crate) struct Plan {
    fails: Seq<u64>,
    calls: u64,
    faults: u64,
}

impl Model for Plan {
    ghost use Rattle.io_core.specs.CallPlan.{CallPlan};

    ghost Value = { CallPlan };

    ghost view = { λ p. record { fails = p.fails; calls = p.calls; faults = p.faults } };
}

impl Plan {
    pub(crate) fn new(fails: Seq<u64>) -> Plan
        ensures { result ≡ planned fails }
    {
        Plan {
            fails,
            calls: 0,
            faults: 0,
        }
    }

    /// Counts a call, and answers whether it is to fail.
    pub(crate) fn next_fails(&mut self) -> bool
        ensures answer { IsTrue result ↔ FailsNext self.old }
        ensures counted { self.new ≡ called self.old }
        ensures bound { IsCount self.old.faults }
    {
        let _faults = self.faults;
        self.calls = self.calls.saturating_add(1);
        self.fails.as_slice().contains(&self.calls)
    }

    pub(crate) fn count_fault(&mut self)
        ensures { self.new ≡ faulted self.old }
    {
        self.faults = self.faults.saturating_add(1);
    }
}
