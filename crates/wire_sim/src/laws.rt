//! Laws over the definitions alone: functions with nothing to do, whose contracts are the laws.

ghost use Rattle.wire_sim.specs.Runs.{EveryRunIsLawful, EveryRunIsTallied, EveryRunIsReached, EveryMomentIsLawful, FairIsUnrefused};
ghost use Rattle.wire_sim.specs.Coverage.{EveryConnectionIsListed, EveryOpeningIsUnique, EveryOctetIsCovered};
ghost use Rattle.wire_sim.specs.HostRuns.{EveryHostRuns, EveryTableIsKept, EveryDeadlineLiesNear, EveryErrorStays, EverySocketTellsOn, EveryMessageHasItsCause};
ghost use Rattle.wire_sim.specs.Windows.{QuietReadersLeaveAWindow};
ghost use Rattle.wire_sim.specs.Holding.{EveryOpeningIsBegun, EveryHoldingIsNoted};
ghost use Rattle.wire_sim.specs.Notes.{EveryNoteIsTraced, EveryDelayIsTraced};
ghost use Rattle.wire_sim.specs.Rounds.{EveryRoundIsARun};
ghost use Rattle.wire_sim.specs.Exchanges.{EveryClockIsKept, EveryHostIsKept, EveryRoundIsAnExchange, EveryReaderReads};
ghost use Rattle.wire_sim.specs.Progress.{EveryRoundMovesData};
ghost use Rattle.wire_sim.specs.RoomyRuns.{EveryRoomyRunIsARun, EveryStepLeavesRoom, EveryRunLeavesRoom, EveryBareRunHasRoom, EveryRoundHasRoom};
ghost use Rattle.wire_sim.specs.Datagrams.{EveryRunKeepsDatagrams, EveryDatagramIsTraced};
ghost use Rattle.wire_sim.specs.Neighbours.{EveryNeighbourIsTheOtherHost, EveryKnownHopIsTheOtherHost, EveryOpenConnectionLeadsToTheOther};
ghost use Rattle.wire_sim.specs.Passage.{EveryFrameIsHeardAsSent, EveryFrameIsMetAsSent, EverySegmentArrives, EveryHostStays};

/// In every run of a world of two hosts, over every list of socket calls, ticks, emissions and fair deliveries in any order, for
/// every pair of endpoints, every epoch and both directions, what was read at one end begins what was written at the other, and the
/// end was told only where the writer closed its side and all that it wrote was read.
pub fn every_run_is_lawful()
    ensures { EveryRunIsLawful }
{}

/// What a world counts beside its openings is how much was written, read off the trace.
pub fn every_run_is_tallied()
    ensures { EveryRunIsTallied }
{}

/// A list of events that is given in turn to a world that a run led to leads to one that a run leads to.
pub fn every_run_is_reached()
    ensures { EveryRunIsReached }
{}

/// The law of the stream holds at every moment of such a list: after each of its events, whether it was taken or refused.
pub fn every_moment_is_lawful()
    ensures { EveryMomentIsLawful }
{}

/// A round, and a beginning of one, is a list of events given in turn, so the law of the stream holds at every moment within it.
pub fn every_round_is_a_run()
    ensures { EveryRoundIsARun }
{}

/// A round is an exchange between its two hosts (`round_law`), the writer's and the reader's, and then the reads of the reader. Each frame that went out is brought as it was emitted, at the moment that its hearer keeps. One that is refused would
/// open a pair a second time: in a round nothing is written, and no epoch rises.
pub fn every_round_is_an_exchange()
    ensures { EveryRoundIsAnExchange }
{}

/// Where a reader's socket has octets to be read, of a connection that is past its opening and not CLOSED, the reads of a round read some (RFC 9293 section 3.10.3).
pub fn every_reader_reads()
    ensures { EveryReaderReads }
{}

/// A round moves data (RFC 9293 sections 3.4, 3.8.1, 3.8.6 and 3.10): from a world in which nothing is due at either host and each has heard the other lately, two sockets are each other's ends and the only live connections, the reader holds no octets of
/// its own, the writer's timers expired under twelve times, and less was read than was written, more is read than before, or the writer holds fewer octets; and neither connection ends: whatever the size of the buffers. So no host is safe by silence.
pub fn every_round_moves_data()
    ensures { EveryRoundMovesData }
{}

/// Each host of a world is one that a list of its own events leads to, from a new one that was set up with its MAC, its address, its routes and its sizes: calls that can be made of it and are
/// not refused, ticks, deliveries and emissions. So whatever `host` says of every such list, as that an echo reply has its request, is so of it, and so is whatever it says of a
/// host that has run so (`HasRun` there), as that what is due comes up; where it asks for a sound host too, `World::sound` says that both are.
pub fn every_host_runs()
    ensures { EveryHostRuns }
{}

/// The table of each host of a world is in order, nothing of it is over, who is offered is ready, and each of its connections keeps its timers and its
/// congestion window: so at every moment of every run, and no law of tables or of connections has a premise that a world doesn't give. No timer of a connection runs until later than a minute past
/// the moment that its host's clock shows, and no wait is counted from a later one.
pub fn every_table_is_kept()
    ensures { EveryTableIsKept }
{}

/// What the clock of a side shows is the moment that its host keeps: none but a tick moves either, and that moves both to the later of the two. And each host that is sound, as all are that an event finds, keeps of itself
/// what the law of a round asks of every host (`round_law`).
pub fn every_clock_is_kept()
    ensures clocks { EveryClockIsKept }
    ensures hosts { EveryHostIsKept }
{}

/// So no deadline of the timers of a connection lies more than a day past the moment that its host's clock shows, and none more than 240,000 ms, the time that TIME-WAIT lasts (RFC 9293 section 3.4.2), where no connection of the host asks a silent
/// peer whether it is there; at whatever moments the host was ticked.
pub fn every_deadline_lies_near()
    ensures { EveryDeadlineLiesNear }
{}

/// An open connection of which nothing is due, and that has nothing to be read, leaves its peer a window of all that the buffers of its host hold, or of the 65,535 octets of it that 16 bits can tell, but for a segment (RFC 9293 sections 3.8.6.2.2 and 3.8.6.3), also before it has spoken.
/// For whatever frame comes, what is heard of it has no more octets than a segment may have.
pub fn quiet_readers_leave_a_window()
    ensures { QuietReadersLeaveAWindow }
{}

/// The error that a connection tells it tells for good, whatever happens in the world: whatever entry has its id then is one of a connection that tells it, and so does the socket that the id names.
pub fn every_error_stays()
    ensures entry { EveryErrorStays }
    ensures socket { EverySocketTellsOn }
{}

/// A frame that goes out of a host of a world, and that somebody hears as an ICMP message (RFC 792), has its cause in what was delivered to that host before: an echo reply
/// the request from there with its identifier, number and data; any other message the datagram, or the fragment zero, that it is the error about.
pub fn every_message_has_its_cause()
    ensures { EveryMessageHasItsCause }
{}

/// Every connection in a host's table has an opening of its side, its id and its pair (RFC 9293 section 3.3.1: a pair of endpoints names
/// a connection), and it is the one that the law of the stream reads for that pair in the opening's epoch.
pub fn every_connection_is_listed()
    ensures { EveryConnectionIsListed }
{}

/// No two openings are of one socket of a side, nor of one pair in one epoch at a side.
pub fn every_opening_is_unique()
    ensures { EveryOpeningIsUnique }
{}

/// No octet escapes the law of the stream: what was sent, read, closed and told to end on a socket is what the law reads of the socket's
/// opening, also once it left the table; where it has no opening, nothing was sent or read on it and no end was told.
pub fn every_octet_is_covered()
    ensures { EveryOctetIsCovered }
{}

/// An event adds one opening at most, and only where it makes a side's host hold a pair that it did not hold: the opening names the side,
/// the pair, the entry and the event's place. Its epoch is the one that the pair is in, and the next one exactly where a connect opens it
/// while the other host does not hold the pair.
pub fn every_opening_is_begun()
    ensures { EveryOpeningIsBegun }
{}

/// Wherever an event makes a side's host hold the pair of two endpoints that it did not hold, it adds just that opening.
pub fn every_holding_is_noted()
    ensures { EveryHoldingIsNoted }
{}

/// Each frame in the network went out at one place in the trace. It has a note exactly where it carries a segment (RFC 9293 section 3.1), of that
/// segment's pair: the epoch that the pair was in there, and how many octets each side had written for it in that epoch.
pub fn every_note_is_traced()
    ensures { EveryNoteIsTraced }
{}

/// Whether a frame is late can be told by the trace and the openings alone. A delivery is refused for another epoch exactly where the epoch of
/// the frame's pair rose since the frame went out, and as stale exactly where it did not and a side wrote the limit or more since.
pub fn every_delay_is_traced()
    ensures { EveryDelayIsTraced }
{}

/// No rule refuses an event exactly where it is fair. Of a delivery these are four facts: the other side emitted the frame, its pair is still in
/// the epoch in which it went out, neither end took the limit or more from its caller since, and it opens no pair a second time in one epoch.
pub fn fair_is_unrefused()
    ensures { FairIsUnrefused }
{}

/// In every run of a world, over every list of events in any order, with frames lost, repeated and in any order: each datagram that was read of a
/// UDP socket has the source, and begins with the octets, as many as the buffer had room for, of one that the other host accepted from its
/// callers for the end at which it was read, as long as that host accepted no more than the 65,536 that have an identification each (RFC 768,
/// RFC 791 section 3.2).
pub fn every_run_keeps_datagrams()
    ensures { EveryRunKeepsDatagrams }
{}

/// What was accepted and read in a run are the calls of its trace that were answered so, in order: for whom and which octets each datagram was
/// that was accepted, from whom and which octets each that was read.
pub fn every_datagram_is_traced()
    ensures { EveryDatagramIsTraced }
{}

/// Each segment that is delivered (RFC 9293 section 3.1) is the very one that the sender's host had to send as its frame went out. Where it is for the host that it
/// comes to, the connection of its two ends takes it, and where there is none, it is met as that segment, or dropped for want of room alone. Else it is for
/// another interface or another address, and dropped as that and nothing else.
pub fn every_segment_arrives()
    ensures { EverySegmentArrives }
{}

/// Each frame in the network went out of its sender's host in the run that led there, and whoever receives it hears what that host had to send then: the segment, the ICMP
/// message, the whole UDP datagram or the fragment of one, or the ARP packet; or that it is for another interface or another address. No frame is malformed.
pub fn every_frame_is_heard_as_sent()
    ensures { EveryFrameIsHeardAsSent }
{}

/// So a frame that is delivered is met as what it was sent as. It is dropped for another interface or another address exactly where it is for one, else it is
/// taken, or there was no room for what it says.
pub fn every_frame_is_met_as_sent()
    ensures { EveryFrameIsMetAsSent }
{}

/// No event changes the MAC, the address or the routes of a host of a world.
pub fn every_host_stays()
    ensures { EveryHostStays }
{}

/// Each neighbour that a host of a world knows (RFC 826) is the other host: its address, with its MAC, and never another one. So a next hop whose MAC is
/// known is the other host, whatever address it leads to.
pub fn every_neighbour_is_the_other_host()
    ensures pairs { EveryNeighbourIsTheOtherHost }
    ensures hops { EveryKnownHopIsTheOtherHost }
{}

/// The next hop of each connection that is past its opening and not CLOSED is the other host, whatever the routes are: something of it went out, and no other MAC is ever known.
pub fn every_open_connection_leads_to_the_other_host()
    ensures { EveryOpenConnectionLeadsToTheOther }
{}

/// What is seen of a run of a world with its room is a run of a world, so that each law over runs holds of it.
pub fn every_roomy_run_is_a_run()
    ensures { EveryRoomyRunIsARun }
{}

/// What room lasts for: a world with room for so many elements in each list, and one more, has room for so many after a step.
pub fn every_step_leaves_room()
    ensures { EveryStepLeavesRoom }
{}

/// A world with room for as many elements as there are events, and so many more, has room for so many after the run.
pub fn every_run_leaves_room()
    ensures { EveryRunLeavesRoom }
{}

/// Where a world has room for a list of events that neither read octets, put frames into the network nor own octets, none of them is refused for
/// want of memory, in whatever order and however many they are.
pub fn every_bare_run_has_room()
    ensures { EveryBareRunHasRoom }
{}

/// A round that begins in a world with room for 258 events stops for want of memory only at an emission or a receive, which want octets of their own: at no tick, and at no
/// delivery.
pub fn every_round_has_room()
    ensures { EveryRoundHasRoom }
{}
