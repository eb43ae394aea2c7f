ghost use Rattle.std.specs.Prelude.{◌≡◌, IsErr, OnOk, OnErr};
ghost use Rattle.std.specs.Io.KnownBytes.{Appends};
ghost use Rattle.prefsql_io.specs.Counts.{HasCause};
ghost use Rattle.prefsql_io.specs.Streams.{AppendsLess};

use crate::{Failed, Sink};

/// Writes all the bytes, or fails after a front of them that is less than all. After a write that
/// failed no other is tried. It takes no memory.
pub fn write_all<O: Sink>(out: &mut O, bytes: &[u8]) -> Result<(), Failed>
    ensures all { OnOk result (Appends (O.written out.old) (O.written out.new) bytes.now) }
    ensures less { OnErr result (AppendsLess (O.written out.old) (O.written out.new) bytes.now) }
    ensures cause { HasCause (O.faults out.old) (O.faults out.new) (IsErr result) }
    ensures kept { OnOk result (O.faults out.new ≡ O.faults out.old) }
{
    let mut at = 0;
    while at < bytes.len() {
        at += out.write(&bytes[at..])?;
    }
    Ok(())
}
