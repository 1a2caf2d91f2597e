//! Laws over the definitions alone: functions with nothing to do, whose contracts are the laws.

ghost use Rattle.stream_law.specs.ChannelSteps.{EveryChannelIsLawful};
ghost use Rattle.stream_law.specs.Pairing.{EveryPairingIsLawful};

/// In every run of one channel, whatever is lost, repeated or reordered, what was read begins what was written, and the end
/// was told only where the writer closed its side and all that it wrote was read.
pub fn every_channel_is_lawful()
    ensures { EveryChannelIsLawful }
{}

/// Of two connections, seen as the contracts of `tcp_state` show them, and a network between them that loses, repeats
/// and reorders segments: after every list of moves the octets read at either end begin the octets written at the other, and the
/// end was told only where the other closed its side and all that it wrote was read.
pub fn every_pairing_is_lawful()
    ensures { EveryPairingIsLawful }
{}
