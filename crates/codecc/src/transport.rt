//! Segments of TCP (RFC 9293 section 3.1).

ghost use Rattle.std.specs.Prelude.{◌≡◌, ◌+◌, ◌<◌, ◌≤◌, ◌^◌, ◌++◌, length, drop, true};
ghost use Rattle.tcp_segment.specs.Segment.{Segment, HasForm, IsParsed};
ghost use Rattle.codecc.specs.Calls.{Parses, segment_fault, addr_of, emitted, after_emit};
ghost use Rattle.codecc.specs.Network.{is_header_len};
ghost use Rattle.codecc.specs.Transport.{told_segment, told_blocks, block_at, told_or_none, segment_fits, segment_len, segment_header, written_segment_header};

use crate::convert::{NO_ROOM, UNFIT, addr_of, has_room, put};
use crate::network::is_header_len;
use crate::types::{CodecBlock, CodecTcp};
use ipv4::{Addr, Protocol, sum_between};
use tcp_segment::{Block, SegmentFault, Seq, TcpView};

/// The length of a header without options, in octets.
const FIXED_LEN: usize = 20;

/// Reads the header of a segment, which came from `src` for `dst`, into `tcp`, and answers 0; or -7 where the octets have not the form of a
/// segment, and else -8 where the checksum is wrong.
#[unsafe(no_mangle)]
pub extern "C" fn codec_tcp_parse(src: u32, dst: u32, octets: &[u8], tcp: &mut CodecTcp) -> i64
    ensures { Parses (IsParsed (addr_of src) (addr_of dst) octets.now) segment_fault (told_segment octets.now) result tcp.old tcp.new }
{
    match TcpView::parse(addr_of(src), addr_of(dst), octets) {
        Ok(view) => {
            *tcp = told(&view, octets);
            0
        }
        Err(SegmentFault::UpperHeader) => -7,
        Err(SegmentFault::UpperSum) => -8,
    }
}

/// A segment as it is told.
fn told(view: &TcpView<'_>, octets: &[u8]) -> CodecTcp
    requires { HasForm view.now octets.now }
    ensures { result ≡ told_segment octets.now view.now }
{
    let Seq(number) = view.number();
    let Seq(acknowledgement) = view.acknowledgement();
    let reported = view.blocks();
    let blocks = told_blocks(reported.as_slice());
    CodecTcp {
        number,
        acknowledgement,
        mss: told_or_none(view.mss_option()),
        shift: told_or_none(view.scale_option().map(u16::from)),
        blocks,
        source: view.source(),
        destination: view.destination(),
        header_len: 4 * u16::from(TcpView::offset_in(octets)),
        payload_len: view.payload().len() as u16,
        window: view.window(),
        checksum: TcpView::checksum_in(octets),
        urgent: view.urgent(),
        flags: octets[13],
        sacks: u8::from(view.is_sack_permitted()),
        block_count: reported.len() as u8,
    }
}

/// A number of an option, and -1 where there is none.
fn told_or_none(number: Option<u16>) -> i32
    ensures { result ≡ told_or_none number }
{
    match number {
        Some(number) => i32::from(number),
        None => -1,
    }
}

/// Blocks as they are told, and zeros behind them.
fn told_blocks(blocks: &[Block]) -> [CodecBlock; 4]
    ensures { result ≡ told_blocks blocks.now }
{
    [
        told_block(blocks, 0),
        told_block(blocks, 1),
        told_block(blocks, 2),
        told_block(blocks, 3),
    ]
}

/// The block of a place as it is told; zeros where there is none.
fn told_block(blocks: &[Block], place: usize) -> CodecBlock
    ensures { result ≡ block_at blocks.now place }
{
    match blocks.get(place) {
        Some(block) => CodecBlock {
            left: block.left.0,
            right: block.right.0,
        },
        None => CodecBlock { left: 0, right: 0 },
    }
}

/// Writes the header of a segment from `src` for `dst` without its options into the first 20 octets of `out`, before options and payload, which
/// stand there already, with the checksum that it computes, and answers the length of the segment, in octets. -11 where a field can't be written:
/// a length of the header that isn't 20, 24 and so on to 60, or a length over 65,535. Else -12 where `out` is too short.
#[unsafe(no_mangle)]
pub extern "C" fn codec_tcp_emit(src: u32, dst: u32, tcp: &CodecTcp, out: &mut [u8]) -> i64
    ensures answer { result ≡ emitted (segment_fits tcp.now) (segment_len tcp.now) out.old }
    ensures octets { out.new ≡ after_emit (segment_fits tcp.now) (segment_len tcp.now) (written_segment_header (addr_of src) (addr_of dst) tcp.now out.old) out.old }
{
    let header = usize::from(tcp.header_len);
    let payload = usize::from(tcp.payload_len);
    let len = header + payload;
    if !is_header_len(tcp.header_len) || len > 65_535 {
        return UNFIT;
    }
    if !has_room(header, payload, out) {
        return NO_ROOM;
    }
    write(addr_of(src), addr_of(dst), tcp, out);
    len as i64
}

/// Writes the header without its options, with the checksum that it computes.
fn write(src: Addr, dst: Addr, tcp: &CodecTcp, out: &mut [u8])
    requires fits { segment_fits tcp.now ≡ true }
    requires room { segment_len tcp.now ≤ length out.old }
    ensures { out.new ≡ written_segment_header src dst tcp.now out.old ++ drop 20 out.old }
{
    let len = usize::from(tcp.header_len) + usize::from(tcp.payload_len);
    put(&fixed(tcp, 0), out);
    let sum = sum_between(Protocol::TCP, src, dst, &out[..len]);
    put(&fixed(tcp, u16::MAX - sum), out);
}

/// The header without its options, with this checksum.
fn fixed(tcp: &CodecTcp, checksum: u16) -> [u8; FIXED_LEN]
    requires { tcp.now.header_len ≤ 60 }
    ensures { result ≡ segment_header tcp.now checksum }
{
    let [source_high, source_low] = tcp.source.to_be_bytes();
    let [destination_high, destination_low] = tcp.destination.to_be_bytes();
    let [n0, n1, n2, n3] = tcp.number.to_be_bytes();
    let [a0, a1, a2, a3] = tcp.acknowledgement.to_be_bytes();
    let control = 4_096 * (tcp.header_len / 4) + u16::from(tcp.flags);
    let [offset, flags] = control.to_be_bytes();
    let [window_high, window_low] = tcp.window.to_be_bytes();
    let [checksum_high, checksum_low] = checksum.to_be_bytes();
    let [urgent_high, urgent_low] = tcp.urgent.to_be_bytes();
    [
        source_high,
        source_low,
        destination_high,
        destination_low,
        n0,
        n1,
        n2,
        n3,
        a0,
        a1,
        a2,
        a3,
        offset,
        flags,
        window_high,
        window_low,
        checksum_high,
        checksum_low,
        urgent_high,
        urgent_low,
    ]
}
