//! What a run reads from and writes to.
ghost use Rattle.std.specs.Prelude.{◌≡◌, ◌<◌, ◌≤◌, ℕ, List, Option, Bool, IsTrue, IfOk, OnOk, OnErr, IsErrOf, length, take};
ghost use Rattle.educe_core_devices.specs.Devices.{Rose, ahead, behind, EndsOnNothing, TakesSome};

use std::alloc::AllocError;

/// A device failed.
#[derive(Clone, Copy, Debug, PartialEq, Eq)]
pub struct Failed;

/// Why a write took nothing.
#[derive(Clone, Copy, Debug, PartialEq, Eq)]
pub enum Stopped {
    /// The device failed.
    Failed,
    /// Memory did not suffice.
    NoMemory,
}

impl From<Failed> for Stopped {
    ghost use Rattle.educe_core_devices.specs.declared.devices.Stopped.TheVariants.{Failed as Fault};

    ghost from_gives = { λ _ stopped. stopped ≡ Fault };

    fn from(_: Failed) -> Stopped {
        Stopped::Failed
    }
}

impl From<AllocError> for Stopped {
    ghost use Rattle.educe_core_devices.specs.declared.devices.Stopped.TheVariants.{NoMemory};

    ghost from_gives = { λ _ stopped. stopped ≡ NoMemory };

    fn from(_: AllocError) -> Stopped {
        Stopped::NoMemory
    }
}

/// Where bytes come from.
pub trait Source {
    /// The bytes that are left, where the source reports them.
    ghost left: { Self → Option (List ℕ) };

    /// How often a call has failed, up to the last value of a `u64`.
    ghost faults: { Self → ℕ };

    /// Whether some later call may fail.
    ghost may_fail: { Self → Bool };

    /// Moves bytes that are left to the front of the room, and says how many.
    fn read(&mut self, room: &mut [u8]) -> Result<usize, Failed>
        ensures bound { IfOk result (λ n. n ≤ length room.new) }
        ensures moved { IfOk result (λ n. left self.old ≡ ahead (take n room.new) (left self.new)) }
        // Into nonempty room nothing comes only at the end.
        ensures end { IfOk result (λ n. EndsOnNothing n room.new (left self.new)) }
        ensures failed { OnErr result (left self.new ≡ left self.old) }
        ensures kept { OnOk result (faults self.new ≡ faults self.old) }
        ensures rose { OnErr result (Rose (faults self.old) (faults self.new)) }
        ensures rising { faults self.old ≤ faults self.new }
        ensures may { OnErr result (IsTrue (may_fail self.old)) }
        ensures never { IsTrue (may_fail self.new) → IsTrue (may_fail self.old) };
}

/// Where bytes go.
pub trait Sink {
    /// The bytes that the sink holds, where it reports them.
    ghost held: { Self → Option (List ℕ) };

    /// How often a call has failed, up to the last value of a `u64`.
    ghost faults: { Self → ℕ };

    /// Whether some later call may fail.
    ghost may_fail: { Self → Bool };

    /// Appends the first bytes of the piece, and says how many.
    fn write(&mut self, piece: &[u8]) -> Result<usize, Stopped>
        ensures bound { IfOk result (λ n. n ≤ length piece.now) }
        ensures some { IfOk result (λ n. TakesSome n piece.now) }
        ensures appended { IfOk result (λ n.
            held self.new ≡ behind (held self.old) (take n piece.now)) }
        ensures stopped { OnErr result (held self.new ≡ held self.old) }
        ensures kept { OnOk result (faults self.new ≡ faults self.old) }
        ensures no_memory { IsErrOf result Stopped.NoMemory → faults self.new ≡ faults self.old }
        ensures rose { IsErrOf result Stopped.Failed → Rose (faults self.old) (faults self.new) }
        ensures rising { faults self.old ≤ faults self.new }
        ensures may { IsErrOf result Stopped.Failed → IsTrue (may_fail self.old) }
        ensures never { IsTrue (may_fail self.new) → IsTrue (may_fail self.old) };
}
