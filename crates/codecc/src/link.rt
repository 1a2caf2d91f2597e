//! Frames of Ethernet II (RFC 894).

ghost use Rattle.std.specs.Prelude.{◌≡◌, true};
ghost use Rattle.ether.specs.Frame.{IsParsed};
ghost use Rattle.codecc.specs.Calls.{Parses, frame_fault, emitted, after_emit};
ghost use Rattle.codecc.specs.Link.{told_frame, frame_header, frame_len};

use crate::convert::{NO_ROOM, has_room, told};
use crate::types::CodecEther;
use ether::{EtherView, FrameFault, HEADER_LEN, Mac};

/// Reads the head of a frame into `ether`, and answers 0; or -1 where there are fewer than 14 octets.
#[unsafe(no_mangle)]
pub extern "C" fn codec_ether_parse(frame: &[u8], ether: &mut CodecEther) -> i64
    ensures { Parses (IsParsed frame.now) frame_fault told_frame result ether.old ether.new }
{
    match EtherView::parse(frame) {
        Ok(view) => {
            let Mac(destination) = view.destination();
            let Mac(source) = view.source();
            *ether = CodecEther {
                payload_len: view.payload().len(),
                kind: view.kind(),
                destination,
                source,
            };
            0
        }
        Err(FrameFault::Short) => -1,
    }
}

/// Writes the head into the first 14 octets of `out`, before the payload, which stands there already, and answers the length of the frame, in
/// octets; or -12 where `out` has fewer. A short frame is not padded.
#[unsafe(no_mangle)]
pub extern "C" fn codec_ether_emit(ether: &CodecEther, out: &mut [u8]) -> i64
    ensures answer { result ≡ emitted true (frame_len ether.now) out.old }
    ensures octets { out.new ≡ after_emit true (frame_len ether.now) (frame_header ether.now) out.old }
{
    if !has_room(HEADER_LEN, ether.payload_len, out) {
        return NO_ROOM;
    }
    out[..HEADER_LEN].copy_from_slice(&head(ether));
    told(HEADER_LEN + ether.payload_len)
}

/// The octets of the head.
fn head(ether: &CodecEther) -> [u8; HEADER_LEN]
    ensures { result ≡ frame_header ether.now }
{
    let [d0, d1, d2, d3, d4, d5] = ether.destination;
    let [s0, s1, s2, s3, s4, s5] = ether.source;
    let [high, low] = ether.kind.to_be_bytes();
    [d0, d1, d2, d3, d4, d5, s0, s1, s2, s3, s4, s5, high, low]
}
