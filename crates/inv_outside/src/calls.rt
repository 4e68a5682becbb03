ghost use Rattle.std.specs.Prelude.{◌≡◌, ◌≤◌, ◌↔◌, IsTrue};
ghost use Rattle.inv_outside.specs.Outside.{no_calls, NextFails, after_call, after_fault};

use std::marker::Model;

/// Which calls are to fail, and how many were made and failed. Both counts stay at the last `u64`.
#[derive(Drop)]
pub struct Calls {
    failing: Vec<u64>,
    made: u64,
    failed: u64,
}

impl Model for Calls {
    ghost use Rattle.inv_outside.specs.Outside.{CallLog};

    ghost Value = { CallLog };

    ghost view = { λ c. record { failing = c.failing.items; calls = c.made; faults = c.failed } };
}

impl Calls {
    /// No call yet. The numbers of the calls that are to fail count from 1.
    pub fn new(failing: Vec<u64>) -> Calls
        ensures is { result ≡ no_calls failing.items }
    {
        Calls {
            failing,
            made: 0,
            failed: 0,
        }
    }

    /// Whether the next call is to fail.
    pub fn next_fails(&self) -> bool
        ensures is { IsTrue result ↔ NextFails self.now }
    {
        let failing = self.failing.as_slice();
        match self.made.checked_add(1) {
            Some(number) => failing.contains(&number),
            None => false,
        }
    }

    /// Counts a call that did not fail.
    pub fn count_call(&mut self)
        ensures is { self.new ≡ after_call self.old }
    {
        self.made = self.made.saturating_add(1);
    }

    /// Counts a call that failed.
    pub fn count_fault(&mut self)
        ensures is { self.new ≡ after_fault self.old }
        ensures later { self.old.faults ≤ self.new.faults }
    {
        self.made = self.made.saturating_add(1);
        self.failed = self.failed.saturating_add(1);
    }
}
