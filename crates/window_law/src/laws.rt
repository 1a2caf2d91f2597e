//! Laws over the definitions alone: functions with nothing to do, whose contracts are the laws.

ghost use Rattle.window_law.specs.Windows.{EveryTalkAgrees, EachAcknowledgementIsHeard, AcknowledgementsDrawNone};

/// Over every run of two connections, and a network that loses, repeats and reorders what they send, from nothing on and whichever end opens, or both: as long as both are open, the one has nothing outstanding past
/// the edge that the other told, but for a number that only a probe of a closed window took; its window ends no further, nor does one that a segment tells which may still come, and both count it in the same units
/// (RFC 9293 sections 3.4 and 3.8.6, RFC 7323 section 2.3).
pub fn windows_agree()
    ensures { EveryTalkAgrees }
{}

/// As long as both are open, an acknowledgement alone that the one sends is read by the other if it comes at once, whatever windows both have; and the other then knows as acknowledged all that its sender received
/// (RFC 9293 sections 3.8.6.1 and 3.10.7.4).
pub fn each_acknowledgement_is_heard()
    ensures { EachAcknowledgementIsHeard }
{}

/// Nor does it draw one, where none was owed, so that ACK doesn't answer ACK without end: but where what only its sender's probe took is known as taken to the other end alone, it draws one, and the answer tells it (RFC 9293 section 3.10.7.4).
pub fn acknowledgements_draw_none()
    ensures { AcknowledgementsDrawNone }
{}
