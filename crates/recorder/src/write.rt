//! The octets of a capture on their way to a sink.

ghost use Rattle.std.specs.Prelude.{◌≡◌, is_err, OnOk, OnErr};
ghost use Rattle.std.specs.Io.KnownBytes.{Appends};
ghost use Rattle.devices.specs.Streams.{counted, TakesFront};
ghost use Rattle.capture.specs.Capture.{our_header_octets};
ghost use Rattle.recorder.specs.Captured.{record_octets};

use capture::{file_head, record_head};
use clock::Moment;
use devices::{Sink, write_all};
use std::io::Result;

/// Writes the header that a capture begins with. An error is a failure of the sink, and then it took a front of that.
pub fn write_head<C: Sink>(capture: &mut C) -> Result<()>
    ensures failures { C.failures capture.new ≡ counted (is_err result) (C.failures capture.old) }
    ensures ok { OnOk result (Appends (C.taken capture.old) (C.taken capture.new) our_header_octets) }
    ensures err { OnErr result (TakesFront (C.taken capture.old) (C.taken capture.new) our_header_octets) }
{
    write_all(capture, &file_head())
}

/// Writes the record of a frame that went out at this moment: its head, and the octets of the frame. An error is a failure of the sink, and then it
/// took a front of these.
pub fn write_record<C: Sink>(moment: Moment, frame: &[u8], capture: &mut C) -> Result<()>
    ensures failures { C.failures capture.new ≡ counted (is_err result) (C.failures capture.old) }
    ensures ok { OnOk result (Appends (C.taken capture.old) (C.taken capture.new) (record_octets moment frame.now)) }
    ensures err { OnErr result (TakesFront (C.taken capture.old) (C.taken capture.new) (record_octets moment frame.now)) }
{
    write_all(capture, &record_head(moment, frame.len()))?;
    write_all(capture, frame)
}
