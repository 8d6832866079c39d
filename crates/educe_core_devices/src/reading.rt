//! The reading of the whole input.
ghost use Rattle.std.specs.Prelude.{◌≡◌, ◌+◌, ◌<◌, ◌≤◌, ◌++◌, take, length, vec_len, IfOk, IsErrOf, OnOk, IsTrue};
ghost use Rattle.educe_core_devices.specs.Devices.{Rose, ahead, IsAtEnd, TakesAtMost, EndsOnNothing};

use crate::devices::{Source, Stopped};
use educe_tokens::SOURCE_LIMIT;
use std::alloc::Global;

/// How many bytes a read has room for at most.
const ROOM: usize = 4096;

/// Reads once into the room, and adds what came to the input. The answer is how many bytes came.
fn read_once<S: Source>(
    source: &mut S,
    room: &mut [u8],
    input: &mut Vec<u8>,
) -> Result<usize, Stopped>
    ensures bound { IfOk result (λ n. n ≤ length room.new) }
    ensures added { IfOk result (λ n. input.new.items ≡ input.old.items ++ take n room.new) }
    ensures moved { IfOk result (λ n.
        S.left source.old ≡ ahead (take n room.new) (S.left source.new)) }
    ensures end { IfOk result (λ n. EndsOnNothing n room.new (S.left source.new)) }
    ensures most { TakesAtMost (length room.new) (S.left source.old) (S.left source.new) }
    ensures kept { OnOk result (S.faults source.new ≡ S.faults source.old) }
    ensures no_memory { IsErrOf result Stopped.NoMemory →
        S.faults source.new ≡ S.faults source.old }
    ensures rose { IsErrOf result Stopped.Failed →
        Rose (S.faults source.old) (S.faults source.new) }
    ensures may { IsErrOf result Stopped.Failed → IsTrue (S.may_fail source.old) }
    ensures never { IsTrue (S.may_fail source.new) → IsTrue (S.may_fail source.old) }
{
    let count = source.read(room)?;
    input.extend_from_slice(&room[..count])?;
    Ok(count)
}

/// Reads until the source ends, or until one byte more than the limit has come.
pub fn read_input<S: Source>(alloc: Global, source: &mut S) -> Result<Vec<u8>, Stopped>
    ensures taken { IfOk result (λ input.
        S.left source.old ≡ ahead input.items (S.left source.new)) }
    ensures limit { IfOk result (λ input. vec_len input ≤ SOURCE_LIMIT + 1) }
    ensures end { IfOk result (λ input. vec_len input ≤ SOURCE_LIMIT →
        IsAtEnd (S.left source.new)) }
    ensures most { TakesAtMost (SOURCE_LIMIT + 1) (S.left source.old) (S.left source.new) }
    ensures kept { OnOk result (S.faults source.new ≡ S.faults source.old) }
    ensures no_memory { IsErrOf result Stopped.NoMemory →
        S.faults source.new ≡ S.faults source.old }
    ensures rose { IsErrOf result Stopped.Failed →
        Rose (S.faults source.old) (S.faults source.new) }
    ensures may { IsErrOf result Stopped.Failed → IsTrue (S.may_fail source.old) }
{
    let mut input = Vec::new(alloc);
    let mut room = [0; ROOM];
    while input.len() <= SOURCE_LIMIT {
        let most = ROOM.min(SOURCE_LIMIT + 1 - input.len());
        let count = read_once(source, &mut room[..most], &mut input)?;
        if count == 0 {
            break;
        }
    }
    Ok(input)
}
