//! Laws of the definitions that the contracts of this crate cite: each is the contract of a function that does nothing.

ghost use Rattle.std.specs.Prelude.{◌≡◌, ℕ, ◌<◌, ◌+◌, ◌*◌, ◌/◌, ◌^◌, pos, true, List, ◌++◌, length};
ghost use Rattle.arp.specs.Packet as arp;
ghost use Rattle.ether.specs.Frame as ether;
ghost use Rattle.icmp.specs.Message as icmp;
ghost use Rattle.icmp.specs.Reading.{quote_in};
ghost use Rattle.ipv4.specs.declared.addr.Addr.{Addr};
ghost use Rattle.ipv4.specs.Datagram as ipv4;
ghost use Rattle.tcp_segment.specs.Options.{HeaderOption, AreOptions, joined};
ghost use Rattle.tcp_segment.specs.Segment as tcp;
ghost use Rattle.udp.specs.declared.head.Head as udp_head;
ghost use Rattle.udp.specs.Datagram as udp;
ghost use Rattle.udp.specs.Sent as udp_sent;
ghost use Rattle.codecc.specs.declared.types.CodecArp.{CodecArp};
ghost use Rattle.codecc.specs.declared.types.CodecEther.{CodecEther};
ghost use Rattle.codecc.specs.Resolution.{told_packet, is_operation, packet_octets};
ghost use Rattle.codecc.specs.declared.types.CodecIcmp.{CodecIcmp};
ghost use Rattle.codecc.specs.declared.types.CodecIpv4.{CodecIpv4};
ghost use Rattle.codecc.specs.declared.types.CodecTcp.{CodecTcp};
ghost use Rattle.codecc.specs.declared.types.CodecUdp.{CodecUdp};
ghost use Rattle.codecc.specs.Calls.{Parses, arp_fault, segment_fault, frame_fault, icmp_fault, ipv4_fault, udp_fault};
ghost use Rattle.codecc.specs.Control.{told_message, told_quote, message_checksum, message_header};
ghost use Rattle.codecc.specs.Link.{told_frame, frame_header};
ghost use Rattle.codecc.specs.Network.{told_datagram, datagram_fits, datagram_of, is_header_len, fixed_header, header_checksum};
ghost use Rattle.codecc.specs.Transport.{segment_checksum, segment_header, segment_of, told_segment, with_options_told};
ghost use Rattle.codecc.specs.User.{told_user_datagram, user_checksum, user_header};

/// The head that is written before a payload parses to what was written (RFC 894).
pub fn frames_read_back()
    ensures { (c old : CodecEther) (payload : List ℕ) → length c.destination ≡ 6 → length c.source ≡ 6 → c.kind < 2 ^ 16
        → let head = record c { payload_len = length payload } in
        Parses (ether.IsParsed (frame_header head ++ payload)) frame_fault told_frame (pos 0) old head }
{}

/// The header that is written before data, with its checksum, parses to what was written (RFC 792).
pub fn messages_read_back()
    ensures { (c old : CodecIcmp) (payload : List ℕ) → c.kind < 2 ^ 8 → c.code < 2 ^ 8 → c.identifier < 2 ^ 16 → c.number < 2 ^ 16
        → let head = record c { payload_len = length payload; quote = told_quote (quote_in payload); checksum = message_checksum c payload } in
        Parses (icmp.IsParsed (message_header head head.checksum ++ payload)) icmp_fault told_message (pos 0) old head }
{}

/// The header that is written before a payload, with its checksum or without, parses to what was written (RFC 768).
pub fn user_datagrams_read_back()
    ensures summed { (src dst : Addr) (c old : CodecUdp) (payload : List ℕ) → udp_sent.CanBeSent src dst (record { source = c.source; destination = c.destination }) payload
        → let head = record c { payload_len = length payload; unsummed = 0 } in
        let checksum = user_checksum src dst head payload in
        Parses (udp.IsParsed src dst (user_header head checksum ++ payload)) udp_fault told_user_datagram (pos 0) old (record head { checksum = checksum }) }
    ensures unsummed { (src dst : Addr) (c old : CodecUdp) (payload : List ℕ) → c.source < 2 ^ 16 → c.destination < 2 ^ 16 → 8 + length payload < 2 ^ 16
        → let head = record c { payload_len = length payload; unsummed = 1; checksum = 0 } in
        Parses (udp.IsParsed src dst (user_header head (user_checksum src dst head payload) ++ payload)) udp_fault told_user_datagram (pos 0) old head }
{}

/// The header that is written before options and a payload, with its checksum, parses to what was written, whatever padding follows (RFC 791 section
/// 3.1).
pub fn datagrams_read_back()
    ensures { (c old : CodecIpv4) (options payload padding : List ℕ) → c.source < 2 ^ 32 → c.destination < 2 ^ 32 → c.flags < 8
        → let sized = record c { header_len = 20 + length options; payload_len = length payload } in
        let head = record sized { checksum = header_checksum sized options } in
        ipv4.IsDatagram (datagram_of head options payload)
        → Parses (ipv4.IsParsed (fixed_header head head.checksum ++ options ++ payload ++ padding)) ipv4_fault told_datagram (pos 0) old head }
{}

/// The header that is written before well-formed options and octets, with its checksum, parses to what was written, and to what the options tell (RFC
/// 9293 section 3.1).
pub fn segments_read_back()
    ensures { (src dst : Addr) (c old : CodecTcp) (options : List HeaderOption) (padding octets : List ℕ) → length src.0 ≡ 4 → length dst.0 ≡ 4
        → tcp.FieldsFit (segment_of c options octets) → c.flags < 2 ^ 8 → AreOptions options padding
        → c.header_len ≡ 20 + length (joined options ++ padding) → is_header_len c.header_len ≡ true → c.header_len + length octets < 2 ^ 16
        → let behind = (joined options ++ padding) ++ octets in
        let checksum = segment_checksum src dst c behind in
        let written = segment_header c checksum ++ behind in
        Parses (tcp.IsParsed src dst written) segment_fault (told_segment written) (pos 0) old (with_options_told c checksum (segment_of c options octets)) }
{}

/// A packet that is written parses to what was written, whatever padding follows (RFC 826).
pub fn packets_read_back()
    ensures { (c old : CodecArp) (padding : List ℕ) → length c.sender_mac ≡ 6 → length c.target_mac ≡ 6 → c.sender_addr < 2 ^ 32 → c.target_addr < 2 ^ 32
        → is_operation c.operation ≡ true → Parses (arp.IsParsed (packet_octets c ++ padding)) arp_fault told_packet (pos 0) old c }
{}

/// The fields that an emit takes are those of a datagram (RFC 791 section 3.1), where each is of its own width.
pub fn fields_fit()
    ensures { (c : CodecIpv4) (options payload : List ℕ) → c.header_len ≡ 20 + length options → c.payload_len ≡ length payload
        → c.service < 2 ^ 8 → c.identification < 2 ^ 16 → c.ttl < 2 ^ 8 → c.protocol < 2 ^ 8 → c.checksum < 2 ^ 16
        → datagram_fits c ≡ true → ipv4.IsDatagram (datagram_of c options payload) }
{}
