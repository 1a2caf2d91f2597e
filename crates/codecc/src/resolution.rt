//! Packets of the Address Resolution Protocol (RFC 826).

ghost use Rattle.std.specs.Prelude.{◌≡◌};
ghost use Rattle.arp.specs.Packet.{IsParsed};
ghost use Rattle.codecc.specs.Calls.{Parses, arp_fault, emitted, after_emit};
ghost use Rattle.codecc.specs.Resolution.{told_packet, is_operation, packet_octets};

use crate::convert::{NO_ROOM, UNFIT, addr_of, number_of};
use crate::types::CodecArp;
use arp::{ArpFault, ArpPacket, LEN, Operation};
use ether::Mac;

/// Reads a packet into `arp`, and answers 0; or -7 where the octets are none: fewer than 28, of other kinds of addresses, or neither a request
/// nor a reply. What stands behind it is padding.
#[unsafe(no_mangle)]
pub extern "C" fn codec_arp_parse(octets: &[u8], arp: &mut CodecArp) -> i64
    ensures { Parses (IsParsed octets.now) arp_fault told_packet result arp.old arp.new }
{
    match ArpPacket::parse(octets) {
        Ok(packet) => {
            let Mac(sender_mac) = packet.sender_mac;
            let Mac(target_mac) = packet.target_mac;
            *arp = CodecArp {
                sender_addr: number_of(packet.sender_addr),
                target_addr: number_of(packet.target_addr),
                operation: match packet.operation {
                    Operation::Request => 1,
                    Operation::Reply => 2,
                },
                sender_mac,
                target_mac,
            };
            0
        }
        Err(ArpFault::UpperHeader) => -7,
    }
}

/// Writes the packet into the first 28 octets of `out`, and answers 28; or -11 where the operation is neither 1 nor 2, and else -12 where `out`
/// has fewer.
#[unsafe(no_mangle)]
pub extern "C" fn codec_arp_emit(arp: &CodecArp, out: &mut [u8]) -> i64
    ensures answer { result ≡ emitted (is_operation arp.now.operation) 28 out.old }
    ensures octets { out.new ≡ after_emit (is_operation arp.now.operation) 28 (packet_octets arp.now) out.old }
{
    let operation = match arp.operation {
        1 => Operation::Request,
        2 => Operation::Reply,
        _ => return UNFIT,
    };
    if out.len() < LEN {
        return NO_ROOM;
    }
    let packet = ArpPacket {
        operation,
        sender_mac: Mac(arp.sender_mac),
        sender_addr: addr_of(arp.sender_addr),
        target_mac: Mac(arp.target_mac),
        target_addr: addr_of(arp.target_addr),
    };
    packet.emit(out);
    28
}
