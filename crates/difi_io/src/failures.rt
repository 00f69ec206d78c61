ghost use Rattle.std.specs.Prelude.{◌≡◌, ◌≤◌, ◌↔◌, Contains, IsTrue};
ghost use Rattle.difi_io.specs.Faults.{counted, Rose};

use crate::Failed;

/// Which calls are to fail, by their numbers from 1, how many calls came, and how many of them
/// failed. Both counts stop at 2^64 - 1.
#[derive(Debug, Drop)]
pub(crate) struct Failures {
    pub listed: Vec<u64>,
    pub calls: u64,
    pub faults: u64,
}

impl Failures {
    /// No call came so far.
    pub fn new(listed: Vec<u64>) -> Self
        ensures { result ≡ record { listed = listed; calls = 0; faults = 0 } }
    {
        Failures {
            listed,
            calls: 0,
            faults: 0,
        }
    }

    /// Counts a call, and tells whether its number is listed.
    pub fn next_is_listed(&mut self) -> bool
        ensures listed { IsTrue result ↔ Contains self.old.listed.items (counted self.old.calls) }
        ensures counts { self.new ≡ record self.old { calls = counted self.old.calls } }
    {
        self.calls = self.calls.saturating_add(1);
        self.listed.contains(&self.calls)
    }

    /// Counts a fault, and gives it.
    pub fn count_fault(&mut self) -> Failed
        ensures counts { self.new ≡ record self.old { faults = counted self.old.faults } }
        ensures later { self.old.faults ≤ self.new.faults }
        ensures rose { Rose self.old.faults self.new.faults }
    {
        self.faults = self.faults.saturating_add(1);
        Failed
    }
}
