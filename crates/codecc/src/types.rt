//! What C programs are told of octets, and what they have written. Addresses and ports are plain numbers.

/// The head of a frame (RFC 894): `struct codec_ether`.
#[derive(Clone, Copy, Debug)]
#[repr(C)]
pub struct CodecEther {
    /// How many octets stand behind the head.
    pub payload_len: usize,
    /// What they are.
    pub kind: u16,
    /// The interface that the frame is for.
    pub destination: [u8; 6],
    /// The interface that it comes from.
    pub source: [u8; 6],
}

/// A packet for IPv4 over Ethernet (RFC 826): `struct codec_arp`.
#[derive(Clone, Copy, Debug)]
#[repr(C)]
pub struct CodecArp {
    /// The sender's address.
    pub sender_addr: u32,
    /// The target's address.
    pub target_addr: u32,
    /// What the packet is for: 1 is a request, and 2 a reply.
    pub operation: u16,
    /// The sender's MAC.
    pub sender_mac: [u8; 6],
    /// The target's MAC.
    pub target_mac: [u8; 6],
}

/// The header of a datagram (RFC 791 section 3.1): `struct codec_ipv4`.
#[derive(Clone, Copy, Debug)]
#[repr(C)]
pub struct CodecIpv4 {
    /// The address that it comes from.
    pub source: u32,
    /// The address that it is for.
    pub destination: u32,
    /// The length of the header with its options, in octets.
    pub header_len: u16,
    /// The length of the payload without any padding, in octets.
    pub payload_len: u16,
    /// What the fragments of one datagram have in common.
    pub identification: u16,
    /// Where the payload stands in that of the whole datagram, in units of eight octets.
    pub offset: u16,
    /// The checksum that was read.
    pub checksum: u16,
    /// 4: the reserved bit; 2: it may not be cut into fragments; 1: fragments of the same datagram follow behind it.
    pub flags: u8,
    /// The type of service.
    pub service: u8,
    /// How many routers it may still pass.
    pub ttl: u8,
    /// What the payload is.
    pub protocol: u8,
}

/// What an error quotes of the datagram that caused it (RFC 792): `struct codec_quote`.
#[derive(Clone, Copy, Debug)]
#[repr(C)]
pub struct CodecQuote {
    /// The address that it came from.
    pub source: u32,
    /// The address that it was for.
    pub destination: u32,
    /// The four octets behind the ports: a segment's number.
    pub number: u32,
    /// The port that it came from.
    pub source_port: u16,
    /// The port that it went to.
    pub destination_port: u16,
    /// What its payload was.
    pub protocol: u8,
    /// 1 where the data begin with a quote, and else 0, with all the others 0.
    pub is_there: u8,
}

/// The header of a message (RFC 792): `struct codec_icmp`.
#[derive(Clone, Copy, Debug)]
#[repr(C)]
pub struct CodecIcmp {
    /// How many octets stand behind the header.
    pub payload_len: usize,
    /// What the data quote, which counts in an error.
    pub quote: CodecQuote,
    /// The checksum that was read.
    pub checksum: u16,
    /// The identifier of an echo, or what another type has in its place.
    pub identifier: u16,
    /// The number of an echo, or what another type has in its place.
    pub number: u16,
    /// The type.
    pub kind: u8,
    /// The code.
    pub code: u8,
}

/// The header of a UDP datagram (RFC 768): `struct codec_udp`.
#[derive(Clone, Copy, Debug)]
#[repr(C)]
pub struct CodecUdp {
    /// The port that it comes from.
    pub source: u16,
    /// The port that it goes to.
    pub destination: u16,
    /// The length of the payload without any padding, in octets.
    pub payload_len: u16,
    /// The checksum that was read, 0 where there is none.
    pub checksum: u16,
    /// 1 where there is no checksum, and else 0.
    pub unsummed: u8,
}

/// Octets that the sender of a segment holds ahead of a gap (RFC 2018 section 3): `struct codec_block`.
#[derive(Clone, Copy, Debug)]
#[repr(C)]
pub struct CodecBlock {
    /// The number of the first of them.
    pub left: u32,
    /// The number behind the last of them.
    pub right: u32,
}

/// The header of a segment (RFC 9293 section 3.1): `struct codec_tcp`.
#[derive(Clone, Copy, Debug)]
#[repr(C)]
pub struct CodecTcp {
    /// The number of its first octet, or of its SYN.
    pub number: u32,
    /// The number that the sender expects next.
    pub acknowledgement: u32,
    /// The size in the MSS option that was read, and -1 where there is none.
    pub mss: i32,
    /// The shift in the window scale option that was read, and -1 where there is none.
    pub shift: i32,
    /// The blocks that an option reports, and zeros behind them.
    pub blocks: [CodecBlock; 4],
    /// The port that it comes from.
    pub source: u16,
    /// The port that it goes to.
    pub destination: u16,
    /// The length of the header with its options, in octets.
    pub header_len: u16,
    /// The length of the payload, in octets.
    pub payload_len: u16,
    /// The window.
    pub window: u16,
    /// The checksum that was read.
    pub checksum: u16,
    /// The urgent pointer.
    pub urgent: u16,
    /// The control bits: 1 FIN, 2 SYN, 4 RST, 8 PSH, 16 ACK, 32 URG, 64 ECE, 128 CWR.
    pub flags: u8,
    /// 1 where an option that was read permits selective acknowledgements, and else 0.
    pub sacks: u8,
    /// How many blocks were reported.
    pub block_count: u8,
}
