//! Laws over the definitions alone: functions with nothing to do, whose contracts are the laws.

ghost use Rattle.settling_law.specs.Settling.{EveryTwoEndsFallSilent};
ghost use Rattle.settling_law.specs.Hosts.{EveryTwoHostsFallSilent};

/// In every reached world: of two open connections that are each other's ends only so many frames go out, where no call is made on them and no tick does anything to them, whatever else happens to the two hosts, whichever sends first
/// each time, and whichever of their frames is lost, as long as those that come do so in order, both connections stay open, and no reset goes out between their ends. So no ACK answers an ACK without end (RFC 9293 section 3.10.7.4).
pub fn two_ends_of_a_world_fall_silent()
    ensures { EveryTwoEndsFallSilent }
{}

/// In every reached world in which each connection that has anything to send is open, and one of two that are each other's ends: only so many frames go out of the two hosts, segments, datagrams, control replies and requests for neighbours, where no call is
/// made and no tick comes, whichever host sends first each time, and whichever frames are lost, as long as those that come do so in order, each of these connections stays open or closes and has nothing more to send, no other one has anything to send,
/// and no reset goes out between their ends (RFC 9293 section 3.10.7.4, RFC 1122 sections 2.3.2.1 and 3.2.2).
pub fn two_hosts_fall_silent()
    ensures { EveryTwoHostsFallSilent }
{}
