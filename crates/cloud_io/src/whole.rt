ghost use Rattle.std.specs.Prelude.{◌≡◌};
ghost use Rattle.cloud_io.specs.Counts.{HasCause, HasCauses};
ghost use Rattle.cloud_io.specs.Whole.{ReadsWhole, ReadsTo, WritesWhole};

use crate::faults::{Failed, ReadFault};
use crate::inputs::Inputs;
use crate::sink::Sink;
use std::alloc::Global;

/// The bytes that one read asks for.
const PIECE: usize = 65536;

/// Reads the file of the name from its start to its end, if it has at most `most` bytes.
///
/// It keeps at most `most` bytes, besides a piece of 64 KiB. Each read but the last gives at least one
/// byte, so it makes at most `most + 1` reads.
pub fn read_all<I: Inputs>(
    alloc: Global,
    inputs: &mut I,
    name: &str,
    most: u64,
) -> Result<Vec<u8>, ReadFault>
    ensures files { I.files inputs.new ≡ I.files inputs.old }
    ensures told { ReadsWhole (I.files inputs.old) name.now most result }
    ensures opened { ReadsTo (I.files inputs.old) (I.opened inputs.old) (I.opened inputs.new) name.now most result }
    ensures causes { HasCauses (I.faults inputs.old) (I.faults inputs.new)
        (I.missing inputs.old) (I.missing inputs.new) ReadFault.Failed ReadFault.NoFile result }
{
    let mut buffer = vec![in alloc; 0u8; PIECE]?;
    let piece = buffer.as_mut_slice();
    let mut bytes = Vec::new(alloc);
    let file = inputs.open_input(name)?;
    loop {
        let n = inputs.read(file, piece)?;
        if n == 0 {
            return Ok(bytes);
        }
        if (bytes.len() + n) as u64 > most {
            return Err(ReadFault::TooLong { most });
        }
        bytes.extend_from_slice(&piece[..n])?;
    }
}

/// Writes all bytes, or a prefix of them where the sink fails.
pub fn write_all<K: Sink>(sink: &mut K, bytes: &[u8]) -> Result<(), Failed>
    ensures appends { WritesWhole (K.contents sink.old) (K.contents sink.new) bytes.now result }
    ensures cause { HasCause (K.faults sink.old) (K.faults sink.new) result }
{
    let mut done = 0;
    while done < bytes.len() {
        done += sink.write(&bytes[done..])?;
    }
    Ok(())
}
