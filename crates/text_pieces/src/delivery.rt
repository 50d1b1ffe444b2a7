// A whole text, from its first piece to the flush.

ghost use Rattle.std.specs.Prelude.{◌≡◌, ◌<◌, ◌+◌, ◌-◌, ◌^◌, true, length, OnOk, OnErr, IfErr};
ghost use Rattle.std.specs.Io.KnownBytes.{Appends, Keeps};
ghost use Rattle.text_pieces.specs.Devices.{AppendsBeginning, faults_in};
ghost use Rattle.text_pieces.specs.Transfers.{WhereDevice, UnlessDevice, device_faults_in};

use crate::device::{DeviceFault, Sink};
use crate::pieces::Pieces;
use crate::text::Text;
use crate::transfer::TransferFault;
use std::alloc::Global;

/// How many bytes a push has, but for the last one.
const PIECE: usize = 65_536;

// Pushes a text in pieces as long as the buffer, and flushes.
fn pass_text<T: Text, K: Sink>(text: &T, buffer: &mut [u8], sink: &mut K) -> Result<(), DeviceFault>
    requires room { 0 < length buffer.old }
    requires below { K.faults sink.old < 2 ^ 32 - 1 }
    ensures written { OnOk result (Appends (K.contents sink.old) (K.contents sink.new) (T.bytes text.now)) }
    ensures flushed { OnOk result (K.flushed sink.new ≡ true) }
    ensures beginning { OnErr result (AppendsBeginning (K.contents sink.old) (K.contents sink.new) (T.bytes text.now)) }
    ensures faults { K.faults sink.new ≡ K.faults sink.old + faults_in result }
{
    let mut out = Pieces::new(buffer, sink);
    text.write(&mut out);
    out.end()
}

/// Pushes a text and nothing else, in pieces of 65,536 bytes, and flushes. The buffer is all the memory that it takes, before the
/// first push; a text that is shorter than it is one push.
///
/// The condition: the sink's count of faults is below `u32::MAX`.
///
/// - `OutOfMemory`: the buffer was refused. Nothing was pushed.
/// - `Device`: a push or the flush was answered by a fault. A beginning of the text was pushed.
pub fn deliver<T: Text, K: Sink>(alloc: Global, text: &T, sink: &mut K) -> Result<(), TransferFault>
    requires { K.faults sink.old < 2 ^ 32 - 1 }
    ensures written { OnOk result (Appends (K.contents sink.old) (K.contents sink.new) (T.bytes text.now)) }
    ensures flushed { OnOk result (K.flushed sink.new ≡ true) }
    ensures beginning { IfErr result (WhereDevice (AppendsBeginning (K.contents sink.old) (K.contents sink.new) (T.bytes text.now))) }
    ensures unwritten { IfErr result (UnlessDevice (Keeps (K.contents sink.old) (K.contents sink.new))) }
    ensures faults { K.faults sink.new ≡ K.faults sink.old + device_faults_in result }
{
    let Ok(mut buffer) = vec![in alloc; 0u8; PIECE] else {
        return Err(TransferFault::OutOfMemory);
    };
    match pass_text(text, &mut buffer, sink) {
        Ok(()) => Ok(()),
        Err(DeviceFault) => Err(TransferFault::Device),
    }
}
