//! Laws of what goes out by what the peer reports that it keeps ahead of a gap (RFC 2018, RFC 6675): each is the contract of a function that does nothing.

ghost use Rattle.std.specs.Prelude.{◌≡◌, ◌≢◌, ℕ, ◌+◌, ◌<◌, ◌≤◌, ◌==◌, ◌&&◌, ◌||◌, ◌⊎◌, true, false, List, [], ◌++◌, drop, Some};
ghost use Rattle.ipv4.specs.declared.addr.Endpoint.{Endpoint};
ghost use Rattle.clock.specs.declared.moment.Moment.{Moment};
ghost use Rattle.clock.specs.Moments.{has_come};
ghost use Rattle.stream_buf.specs.Ranges.{covered};
ghost use Rattle.stream_buf.specs.Scoreboard.{is_reported, is_lost};
ghost use Rattle.congestion.specs.Window.{is_recovering};
ghost use Rattle.congestion.specs.Events.Event.{Loss};
ghost use Rattle.tcp_segment.specs.Segment.{Segment};
ghost use Rattle.tcp_segment.specs.Wire.{past};
ghost use Rattle.tcp_halves.specs.Halves.{Room};
ghost use Rattle.tcp_halves.specs.Stream.{outstanding, is_new_ack};
ghost use Rattle.tcp_state.specs.declared.emission.Due.{Due};
ghost use Rattle.tcp_state.specs.declared.emission.Stretch.{Stretch};
ghost use Rattle.tcp_state.specs.View.{View, IsSound, is_opening, is_closed, opened_actively};
ghost use Rattle.tcp_state.specs.Timing.{KeepsTime, probes};
ghost use Rattle.tcp_state.specs.Congestion.Signal.{Counts, Both};
ghost use Rattle.tcp_state.specs.Selective.{selects, repairs_gaps, counts_pipe, pipe, allowance, tolerance, loss_end};
ghost use Rattle.tcp_state.specs.Network.{in_network};
ghost use Rattle.tcp_state.specs.Due.{first_due, again, is_missing, numbers_of};
ghost use Rattle.tcp_state.specs.Arrival.{opened_passively, is_counted_duplicate, is_rejected, reports_loss, after_heard};
ghost use Rattle.tcp_state.specs.Duties.{acknowledges};
ghost use Rattle.tcp_state.specs.Edges.{Event, after_event, congestion_event_by};
ghost use Rattle.congestion.specs.Events.{Event as WindowEvent};

/// What is reported is not sent again before an expiry (RFC 2018 section 5.1): no octet of a segment that goes out again is reported. An expiry forgets what was, for the peer may have let it go (section 8).
pub fn what_is_reported_is_not_sent_again()
    ensures resent { (v : View) (stretch : Stretch) (place : ℕ) → IsSound v → first_due v ≡ Some (Due.Text stretch) → stretch.offset < outstanding v.sending → stretch.offset ≤ place → place < stretch.offset + stretch.count
        → is_reported v.resend.reported place ≡ false }
    ensures expiry { (v : View) (now : Moment) → IsSound v → KeepsTime v → has_come v.timers.retransmission now ≡ true → is_closed (after_event v (Event.Ticks now)).state ≡ false → (after_event v (Event.Ticks now)).resend.reported ≡ [] }
{}

/// Nothing is let go by a report (RFC 2018 section 8): octets are held until an acknowledgement moves SND.UNA past them, or the connection ends. A segment leaves of them those from where SND.UNA is then, so one that doesn't move
/// it leaves all of them, whatever it reports; past the opening it moves SND.UNA to its acknowledgement alone, where that is of what is outstanding. Nothing else moves it, or leaves fewer: a send alone adds some, behind those that are held.
pub fn what_is_reported_is_still_held()
    ensures acknowledged { (v : View) (s : Segment) (now : Moment) → IsSound v → is_closed (after_event v (Event.Hears s now)).state ≡ false
        → let w = after_event v (Event.Hears s now) in w.sending.held ≡ drop (past w.sending.una v.sending.una) v.sending.held }
    ensures unmoved { (v : View) (s : Segment) (now : Moment) → IsSound v → let w = after_event v (Event.Hears s now) in w.sending.una ≡ v.sending.una → is_closed w.state ≡ false → w.sending.held ≡ v.sending.held }
    ensures moved { (v : View) (s : Segment) (now : Moment) → is_opening v.state ≡ false → is_closed (after_event v (Event.Hears s now)).state ≡ false
        → let w = after_event v (Event.Hears s now) in (w.sending.una ≡ v.sending.una) ⊎ ((acknowledges v s ≡ true) × (is_new_ack v.sending s.acknowledgement ≡ true) × (w.sending.una ≡ s.acknowledgement)) }
    ensures others { (v : View) (e : Event) → is_closed (after_event v e).state ≡ false → ((s : Segment) × (now : Moment) × (e ≡ Event.Hears s now))
        ⊎ (((after_event v e).sending.una ≡ v.sending.una) × (((after_event v e).sending.held ≡ v.sending.held) ⊎ ((octets : List ℕ) × (more : List ℕ) × (now : Moment) × (e ≡ Event.Sends octets now) × ((after_event v e).sending.held ≡ v.sending.held ++ more)))) }
{}

/// Reports are taken where both sides' SYNs say so, and nowhere else (RFC 2018 section 2): without them nothing is ever reported, so that what goes out again stands at the resend mark, and the congestion window alone says how much may be outstanding; and no report tells a loss.
pub fn nothing_is_reported_unasked()
    ensures opened { (room : Room) (local peer : Endpoint) (isn : ℕ) (now : Moment) → (opened_actively room local peer isn now).resend.reported ≡ [] }
    ensures accepted { (room : Room) (local peer : Endpoint) (isn : ℕ) (syn : Segment) (now : Moment) → (opened_passively room local peer isn syn now).resend.reported ≡ [] }
    ensures stays { (v : View) (e : Event) → selects v ≡ false → v.resend.reported ≡ [] → (after_event v e).resend.reported ≡ [] }
    ensures losses { (v : View) (e : Event) → selects v ≡ false → ((flight : ℕ) → congestion_event_by v e ≢ Counts (Loss flight)) × ((first behind : WindowEvent) → congestion_event_by v e ≢ Both first behind) }
{}

/// A report that tells the loss of what is at SND.UNA begins a recovery up to all that is outstanding, and sends that first segment again, whatever is in the network (RFC 6675 section 5, steps 4.1 and 4.3).
pub fn reports_tell_losses()
    ensures { (v : View) (s : Segment) (now : Moment) → IsSound v → reports_loss v s ≡ true → is_counted_duplicate v s ≡ false → (is_closed v.state || is_rejected v s) ≡ false → is_closed (after_event v (Event.Hears s now)).state ≡ false
        → let w = after_event v (Event.Hears s now) in (first_due w ≡ Some (Due.Text (again w 0))) × (w.resend.recover ≡ outstanding w.sending) × (w.resend.once ≡ true) × (is_recovering w.congestion ≡ true) }
{}

/// A segment that reports octets which nothing reported counts as a duplicate ACK, whatever else it brings (RFC 6675 section 2): outside a recovery, where all is acknowledged that was outstanding when the last one began or the timer expired, and no closed window
/// is probed. So an ACK of new octets that reports is the first of those that count behind it. Where what is at SND.UNA is lost by what is reported then, a recovery begins at once, and it goes out again (section 5, step 2).
pub fn what_reports_counts_as_a_duplicate()
    ensures counted { (v : View) (s : Segment) (now : Moment) → (is_closed v.state || is_rejected v s) ≡ false → is_recovering v.congestion ≡ false → v.resend.recover ≡ 0 → probes v ≡ false
        → let w = after_event v (Event.Hears s now) in is_closed w.state ≡ false → covered (let x = after_heard v s in x.resend.reported) < covered w.resend.reported → 0 < w.congestion.duplicates }
    ensures lost { (v : View) (s : Segment) (now : Moment) → IsSound v → (is_closed v.state || is_rejected v s) ≡ false → is_recovering v.congestion ≡ false → v.resend.recover ≡ 0 → probes v ≡ false
        → let w = after_event v (Event.Hears s now) in is_closed w.state ≡ false → covered (let x = after_heard v s in x.resend.reported) < covered w.resend.reported → 0 < loss_end w
        → (first_due w ≡ Some (Due.Text (again w 0))) × (is_recovering w.congestion ≡ true) }
{}

/// In a recovery that reports rule, what goes out again is missing, but for the first segment, and the network has room for a segment beside what is in it; and so it has for new octets, in that recovery and outside of one (RFC 6675 section 5, step C). What is
/// lost is missing: it isn't reported, and more is past it than is tolerated (section 4, `IsLost`).
pub fn the_network_has_room_for_it()
    ensures again { (v : View) (stretch : Stretch) → repairs_gaps v ≡ true → v.resend.once ≡ false → first_due v ≡ Some (Due.Text stretch) → stretch.offset < outstanding v.sending
        → (is_missing v stretch.offset ≡ true) × (pipe v + v.sending.smss ≤ v.congestion.cwnd) }
    ensures new { (v : View) (stretch : Stretch) → IsSound v → counts_pipe v ≡ true → first_due v ≡ Some (Due.Text stretch) → outstanding v.sending ≤ stretch.offset → 0 < stretch.count → pipe v + numbers_of stretch ≤ v.congestion.cwnd }
    ensures lost { (v : View) (place : ℕ) → IsSound v → is_reported v.resend.reported place ≡ false → is_lost (tolerance v) v.resend.reported place ≡ true → is_missing v place ≡ true }
    ensures unreported { (v : View) → v.resend.reported ≡ [] → is_recovering v.congestion ≡ false → pipe v ≡ outstanding v.sending }
    ensures window { (v : View) → v.resend.reported ≡ [] → is_recovering v.congestion ≡ false → counts_pipe v ≡ true → allowance v ≡ v.congestion.cwnd }
{}

/// What is in the network is counted place by place (RFC 6675 section 4, `SetPipe`): of the places that are outstanding and aren't reported, each once that isn't lost, and each once more that went out again.
pub fn each_place_in_the_network_counts()
    ensures { (v : View) → IsSound v → pipe v ≡ in_network v (outstanding v.sending) }
{}
