//! A packet, and the octets that spell it.

ghost use Rattle.std.specs.Prelude.{◌≡◌, ◌+◌, ◌≤◌, ◌++◌, length, take, drop, IfSome, IfNone};
ghost use Rattle.arp.specs.declared.packet.Operation.{Operation};
ghost use Rattle.arp.specs.Packet.{operation_number, spelling, Spells, IsParsed, request_of, reply_to};

use byteorder::{BigEndian, ByteOrder};
use ether::Mac;
use ipv4::Addr;
use thiserror::Error;

/// The length of a packet, in octets.
pub const LEN: usize = 28;

/// What a packet begins with: hardware type 1 (Ethernet), protocol type 0x0800 (IPv4), and the lengths
/// of their addresses, in octets.
const ETHERNET_AND_IPV4: [u8; 6] = [0, 1, 0x08, 0, 6, 4];

/// Why octets are no packet.
#[derive(Clone, Copy, PartialEq, Eq, Debug, Error)]
pub enum ArpFault {
    /// They have not the form of one.
    #[error("F7 UpperHeader")]
    UpperHeader,
}

/// What a packet is for.
#[derive(Clone, Copy, PartialEq, Eq, Debug)]
pub enum Operation {
    /// The sender asks for the target's MAC.
    Request,
    /// The sender tells its MAC.
    Reply,
}

impl Operation {
    /// The operation with this number, where there is one.
    fn with_number(number: u16) -> Option<Operation>
        ensures some { IfSome result (λ operation. operation_number operation ≡ number) }
        ensures none { IfNone result ((operation : Operation) → operation_number operation ≡ number → ⊥) }
    {
        match number {
            1 => Some(Operation::Request),
            2 => Some(Operation::Reply),
            _ => None,
        }
    }

    /// Its number.
    fn number(self) -> u16
        ensures { result ≡ operation_number self }
    {
        match self {
            Operation::Request => 1,
            Operation::Reply => 2,
        }
    }
}

/// A packet for IPv4 over Ethernet (RFC 826).
#[derive(Clone, Copy, PartialEq, Eq, Debug)]
pub struct ArpPacket {
    /// What it is for.
    pub operation: Operation,
    /// The interface that it comes from.
    pub sender_mac: Mac,
    /// The address of that interface.
    pub sender_addr: Addr,
    /// The interface that it is for; zeros in a request.
    pub target_mac: Mac,
    /// The address of that interface.
    pub target_addr: Addr,
}

impl ArpPacket {
    /// The packet that these octets spell; what stands behind 28 octets is padding. `UpperHeader` where
    /// they spell none: there are fewer, or they are not for IPv4 over Ethernet, or the operation is
    /// neither 1 nor 2.
    pub fn parse(octets: &[u8]) -> Result<ArpPacket, ArpFault>
        ensures { IsParsed octets.now result }
    {
        if octets.len() < LEN || !octets.starts_with(&ETHERNET_AND_IPV4) {
            return Err(ArpFault::UpperHeader);
        }
        let Some(operation) = Operation::with_number(BigEndian::read_u16(&octets[6..])) else {
            return Err(ArpFault::UpperHeader);
        };
        Ok(ArpPacket {
            operation,
            sender_mac: mac_at(octets, 8),
            sender_addr: Addr::at(octets, 14),
            target_mac: mac_at(octets, 18),
            target_addr: Addr::at(octets, 24),
        })
    }

    /// Writes the packet into the first 28 octets of `out`. What stands behind them stays.
    pub fn emit(&self, out: &mut [u8])
        requires { LEN ≤ length out.old }
        ensures octets { out.new ≡ spelling self.now ++ drop LEN out.old }
        ensures spelled { Spells self.now out.new }
    {
        out[..6].copy_from_slice(&ETHERNET_AND_IPV4);
        BigEndian::write_u16(&mut out[6..8], self.operation.number());
        out[8..14].copy_from_slice(&self.sender_mac.0);
        out[14..18].copy_from_slice(&self.sender_addr.0);
        out[18..24].copy_from_slice(&self.target_mac.0);
        out[24..LEN].copy_from_slice(&self.target_addr.0);
    }

    /// The request by which an interface with this MAC and address asks who has `target_addr`. It goes
    /// out to every interface of the link.
    pub fn request(sender_mac: Mac, sender_addr: Addr, target_addr: Addr) -> ArpPacket
        ensures { result ≡ request_of sender_mac sender_addr target_addr }
    {
        ArpPacket {
            operation: Operation::Request,
            sender_mac,
            sender_addr,
            target_mac: Mac([0; 6]),
            target_addr,
        }
    }

    /// The reply that tells the sender of this packet that its target has this MAC.
    pub fn reply(&self, mac: Mac) -> ArpPacket
        ensures { result ≡ reply_to self.now mac }
    {
        ArpPacket {
            operation: Operation::Reply,
            sender_mac: mac,
            sender_addr: self.target_addr,
            target_mac: self.sender_mac,
            target_addr: self.sender_addr,
        }
    }
}

/// The MAC in the six octets from `at` on.
fn mac_at(octets: &[u8], at: usize) -> Mac
    requires { at + 6 ≤ length octets.now }
    ensures { result.0 ≡ take 6 (drop at octets.now) }
{
    let mut mac = [0; 6];
    mac.copy_from_slice(&octets[at..at + 6]);
    Mac(mac)
}
