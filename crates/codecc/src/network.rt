//! Datagrams of IPv4 (RFC 791 section 3.1).

ghost use Rattle.std.specs.Prelude.{◌≡◌, ◌+◌, ◌<◌, ◌≤◌, ◌^◌, ◌↔◌, IsTrue, ◌++◌, length, drop, true};
ghost use Rattle.ipv4.specs.Datagram.{Datagram, IsParsed, flag, header_octets};
ghost use Rattle.ipv4.specs.Reading.{has_place};
ghost use Rattle.codecc.specs.Calls.{Parses, ipv4_fault, emitted, after_emit};
ghost use Rattle.codecc.specs.Network.{told_datagram, datagram_fits, datagram_len, fixed_header, written_header, is_set, is_header_len};

use crate::convert::{NO_ROOM, UNFIT, has_room, number_of, put};
use crate::types::CodecIpv4;
use ipv4::{HEADER_LEN, Ipv4Fault, Ipv4View, MAX_PAYLOAD};

/// Reads the header of a datagram into `ipv4`, and answers 0; or -4 where the octets have not the form of a datagram, and else -5 where the
/// header's checksum is wrong. What stands behind the total length is padding.
#[unsafe(no_mangle)]
pub extern "C" fn codec_ipv4_parse(octets: &[u8], ipv4: &mut CodecIpv4) -> i64
    ensures { Parses (IsParsed octets.now) ipv4_fault told_datagram result ipv4.old ipv4.new }
{
    match Ipv4View::parse(octets) {
        Ok(view) => {
            *ipv4 = told(&view);
            0
        }
        Err(Ipv4Fault::IpHeader) => -4,
        Err(Ipv4Fault::IpSum) => -5,
    }
}

/// A datagram as it is told.
fn told(view: &Ipv4View<'_>) -> CodecIpv4
    ensures { result ≡ told_datagram view.now }
{
    let header = view.header();
    let payload = view.payload();
    CodecIpv4 {
        source: number_of(view.source()),
        destination: number_of(view.destination()),
        header_len: header.len() as u16,
        payload_len: payload.len() as u16,
        identification: view.identification(),
        offset: view.offset(),
        checksum: view.checksum(),
        flags: flag(is_reserved_set(header), 4)
            + flag(view.dont_fragment(), 2)
            + flag(view.more_fragments(), 1),
        service: view.service(),
        ttl: view.ttl(),
        protocol: view.protocol().0,
    }
}

/// Whether the reserved bit of a header is set.
fn is_reserved_set(header: &[u8]) -> bool
    requires { 20 ≤ length header.now }
    ensures { (d : Datagram) → header.now ≡ header_octets d → d.offset < 2 ^ 13 → result ≡ d.reserved }
{
    header[6] >= 128
}

/// What a flag is worth where it is set, and else 0.
fn flag(set: bool, worth: u8) -> u8
    ensures value { result ≡ flag set worth }
    ensures bound { result ≤ worth }
{
    if set { worth } else { 0 }
}

/// Writes the header without its options into the first 20 octets of `out`, before options and payload, which stand there already, with the
/// checksum that it computes, and answers the total length, in octets. -11 where a field can't be written: a length of the header that isn't
/// 20, 24 and so on to 60, over 7 flags, an offset over 8,191, a total length over 65,535, a payload that ends past octet 65,515 of the whole,
/// or with more fragments behind it one that is empty or no multiple of eight octets. Else -12 where `out` is too short.
#[unsafe(no_mangle)]
pub extern "C" fn codec_ipv4_emit(ipv4: &CodecIpv4, out: &mut [u8]) -> i64
    ensures answer { result ≡ emitted (datagram_fits ipv4.now) (datagram_len ipv4.now) out.old }
    ensures octets { out.new ≡ after_emit (datagram_fits ipv4.now) (datagram_len ipv4.now) (written_header ipv4.now out.old) out.old }
{
    if !fits(ipv4) {
        return UNFIT;
    }
    let header = usize::from(ipv4.header_len);
    if !has_room(header, usize::from(ipv4.payload_len), out) {
        return NO_ROOM;
    }
    write(ipv4, out);
    i64::from(ipv4.header_len) + i64::from(ipv4.payload_len)
}

/// Writes the header without its options, with the checksum that it computes.
fn write(ipv4: &CodecIpv4, out: &mut [u8])
    requires fits { datagram_fits ipv4.now ≡ true }
    requires room { datagram_len ipv4.now ≤ length out.old }
    ensures { out.new ≡ written_header ipv4.now out.old ++ drop 20 out.old }
{
    put(&fixed(ipv4, 0), out);
    let checksum = inet_sum::checksum(&out[..usize::from(ipv4.header_len)]);
    put(&fixed(ipv4, checksum), out);
}

/// Whether the fields can be written.
fn fits(ipv4: &CodecIpv4) -> bool
    ensures { result ≡ datagram_fits ipv4.now }
{
    is_header_len(ipv4.header_len)
        && ipv4.flags < 8
        && u32::from(ipv4.header_len) + u32::from(ipv4.payload_len) < 65_536
        && has_place(ipv4)
}

/// Whether a header may have this length.
pub(crate) fn is_header_len(len: u16) -> bool
    ensures { result ≡ is_header_len len }
{
    len >= 20 && len <= 60 && len % 4 == 0
}

/// Whether the payload has its place in the whole.
fn has_place(ipv4: &CodecIpv4) -> bool
    ensures { result ≡ has_place (is_set ipv4.now.flags 1) ipv4.now.offset ipv4.now.payload_len }
{
    let is_last = ipv4.flags % 2 == 0;
    let is_whole = ipv4.payload_len > 0 && ipv4.payload_len % 8 == 0;
    (is_last || is_whole)
        && 8 * usize::from(ipv4.offset) + usize::from(ipv4.payload_len) <= MAX_PAYLOAD
}

/// The header without its options, with this checksum.
fn fixed(ipv4: &CodecIpv4, checksum: u16) -> [u8; HEADER_LEN]
    requires { datagram_fits ipv4.now ≡ true }
    ensures { result ≡ fixed_header ipv4.now checksum }
{
    let [s0, s1, s2, s3] = ipv4.source.to_be_bytes();
    let [d0, d1, d2, d3] = ipv4.destination.to_be_bytes();
    let [total_high, total_low] = (ipv4.header_len + ipv4.payload_len).to_be_bytes();
    let [identification_high, identification_low] = ipv4.identification.to_be_bytes();
    let [fragment_high, fragment_low] = (8_192 * u16::from(ipv4.flags) + ipv4.offset).to_be_bytes();
    let [checksum_high, checksum_low] = checksum.to_be_bytes();
    [
        64 + (ipv4.header_len / 4) as u8,
        ipv4.service,
        total_high,
        total_low,
        identification_high,
        identification_low,
        fragment_high,
        fragment_low,
        ipv4.ttl,
        ipv4.protocol,
        checksum_high,
        checksum_low,
        s0,
        s1,
        s2,
        s3,
        d0,
        d1,
        d2,
        d3,
    ]
}
