//! Datagrams of UDP (RFC 768).

ghost use Rattle.std.specs.Prelude.{◌≡◌, ◌<◌, ◌+◌, ◌^◌};
ghost use Rattle.udp.specs.Datagram.{IsParsed};
ghost use Rattle.udp.specs.Sent.{checksum_field};
ghost use Rattle.codecc.specs.Calls.{Parses, udp_fault, addr_of, emitted, after_emit};
ghost use Rattle.codecc.specs.User.{told_user_datagram, user_datagram_fits, user_datagram_len, user_header, written_user_header};

use crate::convert::{NO_ROOM, UNFIT, addr_of, has_room};
use crate::types::CodecUdp;
use ipv4::{Protocol, sum_between};
use udp::{HEADER_LEN, UdpFault, UdpView};

/// Reads the header of a UDP datagram, which came from `src` for `dst`, into `udp`, and answers 0; or -7 where the octets have not the form of
/// one, and else -8 where there is a checksum and it is wrong. What stands behind its length is padding.
#[unsafe(no_mangle)]
pub extern "C" fn codec_udp_parse(src: u32, dst: u32, octets: &[u8], udp: &mut CodecUdp) -> i64
    ensures { Parses (IsParsed (addr_of src) (addr_of dst) octets.now) udp_fault told_user_datagram result udp.old udp.new }
{
    match UdpView::parse(addr_of(src), addr_of(dst), octets) {
        Ok(view) => {
            let checksum = view.checksum();
            *udp = CodecUdp {
                source: view.source(),
                destination: view.destination(),
                payload_len: view.payload().len() as u16,
                checksum,
                unsummed: u8::from(checksum == 0),
            };
            0
        }
        Err(UdpFault::UpperHeader) => -7,
        Err(UdpFault::UpperSum) => -8,
    }
}

/// Writes the header of a UDP datagram from `src` for `dst` into the first 8 octets of `out`, before the payload, which stands there already,
/// and answers its length, in octets. The checksum is computed, or 0 where `unsummed` is another number than 0. -11 where the length is over
/// 65,535, and else -12 where `out` is too short.
#[unsafe(no_mangle)]
pub extern "C" fn codec_udp_emit(src: u32, dst: u32, udp: &CodecUdp, out: &mut [u8]) -> i64
    ensures answer { result ≡ emitted (user_datagram_fits udp.now) (user_datagram_len udp.now) out.old }
    ensures octets { out.new ≡ after_emit (user_datagram_fits udp.now) (user_datagram_len udp.now) (written_user_header (addr_of src) (addr_of dst) udp.now out.old) out.old }
{
    let payload = usize::from(udp.payload_len);
    let len = HEADER_LEN + payload;
    if len > 65_535 {
        return UNFIT;
    }
    if !has_room(HEADER_LEN, payload, out) {
        return NO_ROOM;
    }
    out[..HEADER_LEN].copy_from_slice(&header(udp, 0));
    if udp.unsummed == 0 {
        let sum = sum_between(Protocol::UDP, addr_of(src), addr_of(dst), &out[..len]);
        out[..HEADER_LEN].copy_from_slice(&header(udp, checksum_field(u16::MAX - sum)));
    }
    len as i64
}

/// A checksum as it goes out: 0 would say that there is none.
fn checksum_field(checksum: u16) -> u16
    ensures { result ≡ checksum_field checksum }
{
    if checksum == 0 { u16::MAX } else { checksum }
}

/// The header with this checksum.
fn header(udp: &CodecUdp, checksum: u16) -> [u8; HEADER_LEN]
    requires { 8 + udp.now.payload_len < 2 ^ 16 }
    ensures { result ≡ user_header udp.now checksum }
{
    let [source_high, source_low] = udp.source.to_be_bytes();
    let [destination_high, destination_low] = udp.destination.to_be_bytes();
    let [len_high, len_low] = (8 + udp.payload_len).to_be_bytes();
    let [checksum_high, checksum_low] = checksum.to_be_bytes();
    [
        source_high,
        source_low,
        destination_high,
        destination_low,
        len_high,
        len_low,
        checksum_high,
        checksum_low,
    ]
}
