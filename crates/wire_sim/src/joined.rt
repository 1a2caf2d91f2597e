//! Laws of two connections of a world that are each other's ends: functions with nothing to do, whose contracts are the laws. By them `window_law` speaks of every run of a world.

ghost use Rattle.wire_sim.specs.TwoEnds.{EveryEndKnowsTheOther, EveryAcknowledgementIsHeard, EveryAcknowledgementDrawsNone};

/// At every moment of every run of a world, whatever was lost, repeated or reordered: of two open connections that are each other's ends, RCV.NXT of the one lies between SND.UNA and SND.NXT of the other, and none has more outstanding than
/// the other told, but for a number that only a probe of a closed window took; nor does the window that it believes end any further (RFC 9293 sections 3.4 and 3.8.6).
pub fn every_end_knows_the_other()
    ensures { EveryEndKnowsTheOther }
{}

/// An acknowledgement alone that the one sends is read by the other if it comes at once, whatever windows both have, and the other then knows as acknowledged all that its sender received. Nor does it draw one, where none was owed: but where what only its
/// sender's probe took is known as taken to the other end alone, it draws one, and the answer tells it (RFC 9293 sections 3.8.6.1 and 3.10.7.4).
pub fn every_acknowledgement_is_heard()
    ensures heard { EveryAcknowledgementIsHeard }
    ensures draws { EveryAcknowledgementDrawsNone }
{}
