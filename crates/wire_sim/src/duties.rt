//! Laws of what two hosts come to by the segments that they give each other: functions with nothing to do, whose contracts are the laws. By `laws::every_segment_arrives` each segment arrives as it was sent.

ghost use Rattle.wire_sim.specs.Duties.{EveryConnectAsks, EveryUnheardConnectIsRefused, EveryRefusalIsTold, EverySynOpens, EverySynAckOpens, EveryAckConfirms, EveryShutdownEnds, EveryFirstFinCloses, EveryLastFinCloses, EveryLastAckEnds};

/// A `connect` to a port at which nobody listens, whose frames are delivered both ways, is told ECONNREFUSED (RFC 9293 sections 3.5.2, 3.10.7.1 and 3.10.7.3). Its SYN leaves the other host's table as
/// it was, and a reset waits there that acknowledges it. That reset ends the connection, where it is still in SYN-SENT, and each call of its socket is then told so.
pub fn unheard_connects_are_refused()
    ensures asks { EveryConnectAsks }
    ensures answered { EveryUnheardConnectIsRefused }
    ensures told { EveryRefusalIsTold }
{}

/// A `connect` to a listener with a place, whose frames are delivered both ways, leads both ends to ESTABLISHED in three steps (RFC 9293 section 3.5, figure 6). Its SYN opens a connection in
/// SYN-RECEIVED behind all others, whose SYN-ACK is due; that opens the one that asked, whose acknowledgement is due; and that opens the listener's, which is then the last of those offered for
/// `accept`. Each step says by its numbers what the next one needs.
pub fn heard_connects_open()
    ensures syn { EverySynOpens }
    ensures syn_ack { EverySynAckOpens }
    ensures acknowledgement { EveryAckConfirms }
{}

/// A `shutdown` at each side, whose frames are delivered both ways, leads to TIME-WAIT at the one that closed first and to CLOSED at the other, where all octets are acknowledged before (RFC 9293
/// section 3.6, figure 12). The first FIN leads the other end to CLOSE-WAIT; its own FIN, which acknowledges that, leads the first end to TIME-WAIT; and the acknowledgement that is due there ends
/// the other one, which leaves the table where its caller closed it. Each step says by its numbers what the next one needs.
pub fn closes_meet()
    ensures shuts { EveryShutdownEnds }
    ensures first { EveryFirstFinCloses }
    ensures last { EveryLastFinCloses }
    ensures acknowledgement { EveryLastAckEnds }
{}
