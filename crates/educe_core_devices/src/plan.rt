//! Which calls of a device over memory fail, and how many bytes a call moves at most.
ghost use Rattle.std.specs.Prelude.{◌≡◌, ◌≤◌, min, IfOk, IsErr, IsTrue, ◌↔◌, OnOk, OnErr};
ghost use Rattle.educe_core_devices.specs.Devices.{Rose};

use crate::devices::Failed;
use std::alloc::{AllocError, Global};

/// What is planned for the calls of a device, and how far they have come.
#[derive(Drop)]
pub struct Plan {
    /// How many bytes a call moves at most.
    step: usize,
    /// The numbers of the calls that fail, from 0.
    failing: Vec<u32>,
    /// How many calls there were.
    calls: u64,
    /// How many of them failed.
    faults: u64,
    ghost moves: { 1 ≤ step },
}

impl Plan {
    ghost use Rattle.educe_core_devices.specs.Plan as spec;

    /// The plan by which a call moves at most `step` bytes and the calls of these numbers fail.
    pub fn new(alloc: Global, step: usize, failing: &[u32]) -> Result<Plan, AllocError>
        requires { 1 ≤ step }
        ensures { IfOk result (spec.IsNew step failing.now) }
    {
        let failing = failing.to_vec(alloc)?;
        Ok(Plan {
            step,
            failing,
            calls: 0,
            faults: 0,
        })
    }

    /// Whether the next call fails.
    fn fails_next(&self) -> bool
        ensures { result ≡ spec.fails_next self.now }
    {
        self.failing.iter().any(|n| u64::from(*n) == self.calls)
    }

    /// Counts a call that could move so many bytes, and says how many it moves.
    pub fn call(&mut self, most: usize) -> Result<usize, Failed>
        ensures count { IfOk result (λ n. n ≡ min self.old.step most) }
        ensures planned { IsErr result ↔ IsTrue (spec.fails_next self.old) }
        ensures counted { spec.IsCounted self.old self.new }
        ensures kept { OnOk result (self.new.faults ≡ self.old.faults) }
        ensures rose { OnErr result (Rose self.old.faults self.new.faults) }
        ensures rising { self.old.faults ≤ self.new.faults }
        ensures may { OnErr result (IsTrue (spec.may_fail self.old)) }
    {
        let fails = self.fails_next();
        self.calls = self.calls.saturating_add(1);
        if fails {
            self.faults = self.faults.saturating_add(1);
            return Err(Failed);
        }
        Ok(self.step.min(most))
    }
}
