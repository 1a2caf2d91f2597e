//! Laws over the definitions alone: functions with nothing to do, whose contracts are the laws.

ghost use Rattle.silence_law.specs.Silence.{EveryTalkFallsSilent};

/// In every reached state of two open connections: where their callers call nothing and the clock stands, and the network brings what goes out from then on in order, or loses some of it, both fall silent after so many segments, whichever end
/// acts first each time. So no ACK answers an ACK without end (RFC 9293 section 3.10.7.4).
pub fn two_ends_fall_silent()
    ensures { EveryTalkFallsSilent }
{}
