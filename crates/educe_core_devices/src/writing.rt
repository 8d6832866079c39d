//! The writing of a text.
ghost use Rattle.std.specs.Prelude.{◌≡◌, ℕ, take, IsErrOf, OnOk, IsTrue};
ghost use Rattle.educe_core_devices.specs.Devices.{Rose, behind, change};
ghost use Rattle.educe_core_devices.specs.Status.{Delivers};

use crate::devices::{Sink, Stopped};
use crate::status::Status;

/// Writes the rest of the bytes until none is left.
fn write_all<K: Sink>(sink: &mut K, bytes: &[u8]) -> Result<(), Stopped>
    ensures whole { OnOk result (K.held sink.new ≡ behind (K.held sink.old) bytes.now) }
    ensures front { (n : ℕ) × (K.held sink.new ≡ behind (K.held sink.old) (take n bytes.now)) }
    ensures kept { OnOk result (K.faults sink.new ≡ K.faults sink.old) }
    ensures no_memory { IsErrOf result Stopped.NoMemory → K.faults sink.new ≡ K.faults sink.old }
    ensures rose { IsErrOf result Stopped.Failed → Rose (K.faults sink.old) (K.faults sink.new) }
    ensures may { IsErrOf result Stopped.Failed → IsTrue (K.may_fail sink.old) }
{
    let mut rest = bytes;
    while !rest.is_empty() {
        let count = sink.write(rest)?;
        rest = &rest[count..];
    }
    Ok(())
}

/// Writes a text. The answer is the given status, where nothing stops the writing.
pub fn deliver<K: Sink>(sink: &mut K, text: &str, status: Status) -> Status
    ensures { Delivers (change (K.held sink.old) (K.held sink.new)
        (K.faults sink.old) (K.faults sink.new) (K.may_fail sink.old))
        text.now status result }
{
    match write_all(sink, text.as_bytes()) {
        Ok(()) => status,
        Err(Stopped::Failed) => Status::WriteFault,
        Err(Stopped::NoMemory) => Status::NoMemory,
    }
}
