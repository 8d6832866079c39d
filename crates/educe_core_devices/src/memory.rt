//! Devices over memory, whose failures are planned.
ghost use Rattle.std.specs.Prelude.{◌≡◌, ◌≤◌, [], vec_len, IfOk, Some, false};
ghost use Rattle.educe_core_devices.specs.Plan.{IsNew, may_fail};

use crate::devices::{Failed, Sink, Source, Stopped};
use crate::plan::Plan;
use std::alloc::{AllocError, Global};

/// A source over bytes in memory.
#[derive(Drop)]
pub struct MemorySource {
    bytes: Vec<u8>,
    taken: usize,
    plan: Plan,
    ghost within: { taken ≤ vec_len bytes },
}

impl MemorySource {
    ghost use Rattle.educe_core_devices.specs.Memory.{source_left, source_plan};

    /// A source of these bytes, of which a call moves at most `step`. The calls whose numbers,
    /// from 0, stand in `failing` fail.
    pub fn new(
        alloc: Global,
        bytes: &[u8],
        step: usize,
        failing: &[u32],
    ) -> Result<MemorySource, AllocError>
        requires { 1 ≤ step }
        ensures left { IfOk result (λ source. source_left source ≡ Some bytes.now) }
        ensures plan { IfOk result (λ source. IsNew step failing.now (source_plan source)) }
        ensures sure { IfOk result (λ source.
            failing.now ≡ [] → may_fail (source_plan source) ≡ false) }
    {
        let plan = Plan::new(alloc, step, failing)?;
        let bytes = bytes.to_vec(alloc)?;
        Ok(MemorySource {
            bytes,
            taken: 0,
            plan,
        })
    }
}

impl Source for MemorySource {
    ghost use Rattle.std.specs.Prelude.{◌<◌, IsErr, IsTrue, ◌↔◌, OnOk, OnErr, take, length};
    ghost use Rattle.educe_core_devices.specs.Devices.{Rose, ahead, EndsOnNothing};
    ghost use Rattle.educe_core_devices.specs.Plan.{IsCounted, fails_next, may_fail};
    ghost use Rattle.educe_core_devices.specs.Memory.{source_left, source_plan};

    ghost left = { source_left };

    ghost faults = { λ source. (source_plan source).faults };

    ghost may_fail = { λ source. may_fail (source_plan source) };

    fn read(&mut self, room: &mut [u8]) -> Result<usize, Failed>
        ensures bound { IfOk result (λ n. n ≤ length room.new) }
        ensures moved { IfOk result (λ n.
            source_left self.old ≡ ahead (take n room.new) (source_left self.new)) }
        ensures end { IfOk result (λ n. EndsOnNothing n room.new (source_left self.new)) }
        ensures failed { OnErr result (source_left self.new ≡ source_left self.old) }
        ensures kept { OnOk result
            ((source_plan self.new).faults ≡ (source_plan self.old).faults) }
        ensures rose { OnErr result
            (Rose (source_plan self.old).faults (source_plan self.new).faults) }
        ensures rising { (source_plan self.old).faults ≤ (source_plan self.new).faults }
        ensures may { OnErr result (IsTrue (may_fail (source_plan self.old))) }
        ensures never { IsTrue (may_fail (source_plan self.new)) →
            IsTrue (may_fail (source_plan self.old)) }
        ensures step { IfOk result (λ n. n ≤ (source_plan self.old).step) }
        ensures planned { IsErr result ↔ IsTrue (fails_next (source_plan self.old)) }
        ensures counted { IsCounted (source_plan self.old) (source_plan self.new) }
    {
        let rest = &self.bytes[self.taken..];
        let count = self.plan.call(room.len().min(rest.len()))?;
        room[..count].copy_from_slice(&rest[..count]);
        self.taken += count;
        Ok(count)
    }
}

/// A sink over memory.
#[derive(Drop)]
pub struct MemorySink {
    bytes: Vec<u8>,
    plan: Plan,
}

impl MemorySink {
    ghost use Rattle.educe_core_devices.specs.Memory.{sink_held, sink_plan};

    /// An empty sink, of which a call takes at most `step` bytes. The calls whose numbers, from 0,
    /// stand in `failing` fail.
    pub fn new(alloc: Global, step: usize, failing: &[u32]) -> Result<MemorySink, AllocError>
        requires { 1 ≤ step }
        ensures held { IfOk result (λ sink. sink_held sink ≡ Some []) }
        ensures plan { IfOk result (λ sink. IsNew step failing.now (sink_plan sink)) }
        ensures sure { IfOk result (λ sink.
            failing.now ≡ [] → may_fail (sink_plan sink) ≡ false) }
    {
        let plan = Plan::new(alloc, step, failing)?;
        Ok(MemorySink {
            bytes: Vec::new(alloc),
            plan,
        })
    }

    /// What the sink holds.
    pub fn bytes(&self) -> &[u8]
        ensures { Some result.now ≡ sink_held self.now }
    {
        self.bytes.as_slice()
    }
}

impl Sink for MemorySink {
    ghost use Rattle.std.specs.Prelude.{◌<◌, IsErrOf, IsTrue, ◌↔◌, OnOk, OnErr, take, length};
    ghost use Rattle.educe_core_devices.specs.Devices.{Rose, behind, TakesSome};
    ghost use Rattle.educe_core_devices.specs.Plan.{IsCounted, fails_next, may_fail};
    ghost use Rattle.educe_core_devices.specs.Memory.{sink_held, sink_plan};

    ghost held = { sink_held };

    ghost faults = { λ sink. (sink_plan sink).faults };

    ghost may_fail = { λ sink. may_fail (sink_plan sink) };

    fn write(&mut self, piece: &[u8]) -> Result<usize, Stopped>
        ensures bound { IfOk result (λ n. n ≤ length piece.now) }
        ensures some { IfOk result (λ n. TakesSome n piece.now) }
        ensures appended { IfOk result (λ n.
            sink_held self.new ≡ behind (sink_held self.old) (take n piece.now)) }
        ensures stopped { OnErr result (sink_held self.new ≡ sink_held self.old) }
        ensures kept { OnOk result
            ((sink_plan self.new).faults ≡ (sink_plan self.old).faults) }
        ensures no_memory { IsErrOf result Stopped.NoMemory →
            (sink_plan self.new).faults ≡ (sink_plan self.old).faults }
        ensures rose { IsErrOf result Stopped.Failed →
            Rose (sink_plan self.old).faults (sink_plan self.new).faults }
        ensures rising { (sink_plan self.old).faults ≤ (sink_plan self.new).faults }
        ensures may { IsErrOf result Stopped.Failed → IsTrue (may_fail (sink_plan self.old)) }
        ensures never { IsTrue (may_fail (sink_plan self.new)) →
            IsTrue (may_fail (sink_plan self.old)) }
        ensures step { IfOk result (λ n. n ≤ (sink_plan self.old).step) }
        ensures planned { IsErrOf result Stopped.Failed ↔
            IsTrue (fails_next (sink_plan self.old)) }
        ensures counted { IsCounted (sink_plan self.old) (sink_plan self.new) }
    {
        let count = self.plan.call(piece.len())?;
        self.bytes.extend_from_slice(&piece[..count])?;
        Ok(count)
    }
}
