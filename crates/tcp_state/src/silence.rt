//! Laws of a peer that says nothing. Functions with nothing to do, whose contracts are the laws.

ghost use Rattle.std.specs.Prelude.{◌≡◌, ◌≢◌, ℕ, ◌+◌, ◌*◌, ◌<◌, ◌≤◌, ◌⊎◌, ◌↔◌, min, true, false, [], Option, Some, None};
ghost use Rattle.ipv4.specs.declared.addr.Endpoint.{Endpoint};
ghost use Rattle.tcp_segment.specs.Segment.{Segment};
ghost use Rattle.clock.specs.declared.moment.Moment.{Moment};
ghost use Rattle.clock.specs.Moments.{after};
ghost use Rattle.tcp_halves.specs.Halves.{Room};
ghost use Rattle.tcp_state.specs.declared.calls.Refusal.{Refusal};
ghost use Rattle.tcp_state.specs.declared.connection.Fate.{Fate};
ghost use Rattle.tcp_state.specs.declared.emission.Due.{Due};
ghost use Rattle.tcp_state.specs.declared.state.State.{State};
ghost use Rattle.tcp_state.specs.View.{View, IsSound, is_closed, is_at_end, opened_actively};
ghost use Rattle.tcp_state.specs.Alive.{rests};
ghost use Rattle.tcp_state.specs.Timing.{after_tick};
ghost use Rattle.tcp_state.specs.Arrival.{opened_passively, fate};
ghost use Rattle.tcp_state.specs.Due.{first_due};
ghost use Rattle.tcp_state.specs.Edges.{Event, after_event};

/// A peer is asked whether it is there where its caller wanted that, nothing of ours waits for it, and nothing came from it for as long as the caller said, a day at most (RFC 9293 section 3.8.4, RFC 1122 section 4.2.3.6):
/// then a tick makes a probe due, and none does before. The answer to the first is waited for as long as the retransmission timeout, that to each further one twice as long as that to the one before, a minute at most. Twelve
/// are due at most: where nothing came after the last, the next tick ends the connection, and every call reports ETIMEDOUT. Whatever is heard of the peer begins its time anew, and so does the call by which its caller wants
/// it asked or no longer. At first it isn't asked, and nothing but that call changes it. Nothing of ours waits where no octets are held in
/// ESTABLISHED, CLOSE-WAIT or FIN-WAIT-2.
pub fn silent_peers_are_asked()
    ensures rest { (v : View) → (rests v ≡ true) ↔ ((v.sending.held ≡ []) × ((v.state ≡ State.Established) ⊎ ((v.state ≡ State.CloseWait) ⊎ (v.state ≡ State.FinWait2)))) }
    ensures unasked { (v : View) (now : Moment) → v.alive.every ≡ None → (after_tick v now).alive ≡ v.alive }
    ensures busy { (v : View) (now : Moment) → rests v ≡ false → (after_tick v now).alive ≡ v.alive }
    ensures early { (v : View) (every : ℕ) (now : Moment) → v.alive.every ≡ Some every → v.alive.unanswered ≡ 0 → now.0 < (after v.alive.since (min 86400000 every)).0 → (after_tick v now).alive ≡ v.alive }
    ensures asks { (v : View) (every : ℕ) (now : Moment) → rests v ≡ true → v.alive.every ≡ Some every → v.alive.unanswered ≡ 0 → (after v.alive.since (min 86400000 every)).0 ≤ now.0
        → is_closed (after_tick v now).state ≡ false → (after_tick v now).alive ≡ record v.alive { since = now; wait = v.resend.timeout.rto; unanswered = 1; owed = true } }
    ensures awaits { (v : View) (every : ℕ) (now : Moment) → v.alive.every ≡ Some every → 0 < v.alive.unanswered → now.0 < (after v.alive.since (min 60000 v.alive.wait)).0 → (after_tick v now).alive ≡ v.alive }
    ensures again { (v : View) (every : ℕ) (now : Moment) → rests v ≡ true → v.alive.every ≡ Some every → 0 < v.alive.unanswered → v.alive.unanswered < 12 → (after v.alive.since (min 60000 v.alive.wait)).0 ≤ now.0
        → is_closed (after_tick v now).state ≡ false
        → (after_tick v now).alive ≡ record v.alive { since = now; wait = min 60000 (2 * v.alive.wait); unanswered = v.alive.unanswered + 1; owed = true } }
    ensures ends { (v : View) (every : ℕ) (now : Moment) → rests v ≡ true → v.alive.every ≡ Some every → 12 ≤ v.alive.unanswered → (after v.alive.since (min 60000 v.alive.wait)).0 ≤ now.0 → is_at_end v now ≡ false
        → ((after_tick v now).state ≡ State.Closed) × ((after_tick v now).pending_error ≡ Some Refusal.ETIMEDOUT) }
    ensures heard { (v : View) (s : Segment) (now : Moment) → is_closed v.state ≡ false → fate v s ≢ Fate.Rejected
        → (after_event v (Event.Hears s now)).alive ≡ record { every = v.alive.every; since = now; wait = 0; unanswered = 0; owed = false } }
    ensures set { (v : View) (every : Option ℕ) (now : Moment)
        → after_event v (Event.SetsKeepAlive every now) ≡ record v { alive = record { every = every; since = now; wait = 0; unanswered = 0; owed = false } } }
    ensures opened { (room : Room) (local peer : Endpoint) (isn : ℕ) (now : Moment) → (opened_actively room local peer isn now).alive.every ≡ None }
    ensures accepted { (room : Room) (local peer : Endpoint) (isn : ℕ) (syn : Segment) (now : Moment) → (opened_passively room local peer isn syn now).alive.every ≡ None }
    ensures others { (v : View) (e : Event) → ((after_event v e).alive.every ≡ v.alive.every) ⊎ ((every : Option ℕ) × (now : Moment) × (e ≡ Event.SetsKeepAlive every now)) }
{}

/// Where nothing of ours waits for the peer, a probe that is due goes out, or an acknowledgement before it; where something waits, none goes out. A probe pays no acknowledgement, neither one that is owed nor one that is
/// delayed, since the peer need not read what it tells. Once out it is due no more.
pub fn probes_of_a_silent_peer_go_out()
    ensures goes { (v : View) → IsSound v → rests v ≡ true → v.alive.owed ≡ true → (first_due v ≡ Some Due.Ack) ⊎ (first_due v ≡ Some Due.KeepAlive) }
    ensures alone { (v : View) → first_due v ≡ Some Due.KeepAlive → rests v ≡ true }
    ensures pays_none { (v : View) (now : Moment) → first_due v ≡ Some Due.KeepAlive
        → ((after_event v (Event.Emits now)).owes_ack ≡ v.owes_ack) × ((after_event v (Event.Emits now)).delays_ack ≡ v.delays_ack) × ((after_event v (Event.Emits now)).alive.owed ≡ false) }
{}
