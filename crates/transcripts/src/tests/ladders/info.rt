//! The ladder of an answer of several lines.

/// Each line of the answer is one of the ladder, two columns in. Nothing went out yet, so no window is known, no time is measured and no timer runs; a segment
/// has 536 octets (RFC 9293 section 3.7.1), four of them are the congestion window (RFC 5681 section 3.1), and the timeout is a second (RFC 6298 section 2.1).
pub const INFO: &str =
    "      a                                                                        b
a socket tcp
  id 1
a info 1
  E6 ENOTCONN
a connect 1 80 5
  started
a info 1
  state SYN-SENT
  in_flight 0
  held 0
  unsent 0
  readable 0
  kept 0
  peer_window 0
  own_window 0
  smss 536
  cwnd 2144
  ssthresh 65535
  srtt_8 none
  rttvar_4 none
  rto 1000
  expiries 0
  resent 0
  error none
  retransmission none
  probe none
  delayed_ack none
  override none
  ends none
a state 1
  SYN-SENT
";
