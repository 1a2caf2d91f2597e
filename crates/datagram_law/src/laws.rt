//! Laws over the definitions alone: functions with nothing to do, whose contracts are the laws.

ghost use Rattle.std.specs.Prelude.{◌≡◌, ◌≢◌, ℕ, ◌+◌, ◌%◌, ◌<◌, ◌≤◌, false, List, [], ◌∷◌, ◌++◌, All, Bool, Contains, length, slice_get, take, Some, Result, Ok};
ghost use Rattle.std.specs.List.{Any};
ghost use Rattle.clock.specs.declared.moment.Moment.{Moment};
ghost use Rattle.ipv4.specs.declared.addr.Addr.{Addr};
ghost use Rattle.ipv4.specs.declared.addr.Endpoint.{Endpoint};
ghost use Rattle.ipv4.specs.Datagram.{Datagram};
ghost use Rattle.udp.specs.declared.fault.UdpFault.{UdpFault};
ghost use Rattle.udp.specs.Datagram.{UserDatagram, IsParsed};
ghost use Rattle.udp.specs.Fragments.{count_of};
ghost use Rattle.udp.specs.Reading.{datagram_or_fault};
ghost use Rattle.udp.specs.declared.cutting.Part.{Part};
ghost use Rattle.udp_socket.specs.Emission.{after_part, brought, due_octets, due_part, fragment_of, octets_of, peer_at};
ghost use Rattle.udp_socket.specs.SocketView.{Outgoing, SocketView, after_read, new_socket, read_answer, read_buffer, with_received, with_sent};
ghost use Rattle.udp_socket.specs.Waits.{after_giving_up};
ghost use Rattle.reassembly.specs.declared.assembled.Assembled.TheVariants.{Whole};
ghost use Rattle.reassembly.specs.declared.assembled.Whole as wholes;
ghost use Rattle.reassembly.specs.Events.{Event, after_event, after_events};
ghost use Rattle.reassembly.specs.Fragments.{end_of};
ghost use Rattle.reassembly.specs.Places.{AnswersTake, outcome_at, place_for};
ghost use Rattle.reassembly.specs.Reassembly.{PoolView, new_pool};
ghost use Rattle.reassembly.specs.Reassembly.Outcome.{Completes, GivesUp};
ghost use Rattle.datagram_law.specs.Accepted.{Accepted, AreFew, AreInTurn, CameFrom, IsInWidths, datagram_of};
ghost use Rattle.datagram_law.specs.Carried.{Carries, IsOf, IsOfOne, IsWholeOfOne, accepted_of};
ghost use Rattle.datagram_law.specs.Pools.{IsPoolOf, TakesOfOne};
ghost use Rattle.datagram_law.specs.Sockets.{IsSocketOf};

/// Of at most 65,536 datagrams whose identifications are drawn in turn no two have the same one.
pub fn identifications_are_unique()
    ensures { (accepted : List Accepted) (i j : ℕ) (a b : Accepted) → AreInTurn accepted → AreFew accepted
        → slice_get accepted i ≡ Some a → slice_get accepted j ≡ Some b → a.identification ≡ b.identification → i ≡ j }
{}

/// What came is what was accepted, and no more: nothing where nothing was, and of a single one its own source, peer and octets.
pub fn what_came_was_accepted()
    ensures none { (source local : Endpoint) (octets : List ℕ) → CameFrom [] source local octets → ⊥ }
    ensures one { (a : Accepted) (source local : Endpoint) (octets : List ℕ) → CameFrom (a ∷ []) source local octets
        → (source ≡ a.source) × (local ≡ a.peer) × (octets ≡ a.octets) }
    ensures each { (accepted : List Accepted) (a : Accepted) → Contains accepted a → CameFrom accepted a.source a.peer a.octets }
{}

/// What is accepted later takes nothing back: what is of one that was accepted before stays so, and a datagram that has the next
/// identification may be accepted behind the others.
pub fn more_may_be_accepted()
    ensures in_turn { (accepted : List Accepted) (a : Accepted) → AreInTurn accepted → IsInWidths a → a.identification ≡ length accepted % 65536
        → AreInTurn (accepted ++ a ∷ []) }
    ensures before { (accepted more : List Accepted) → AreInTurn (accepted ++ more) → AreInTurn accepted }
    ensures of_one { (accepted more : List Accepted) (d : Datagram) → IsOfOne accepted d → IsOfOne (accepted ++ more) d }
    ensures came { (accepted more : List Accepted) (source local : Endpoint) (octets : List ℕ)
        → CameFrom accepted source local octets → CameFrom (accepted ++ more) source local octets }
    ensures pool { (accepted more : List Accepted) (pool : PoolView) → IsPoolOf accepted pool → IsPoolOf (accepted ++ more) pool }
{}

/// The datagram of IPv4 that carries a fragment of what was accepted, as a UDP socket cuts it, is of this one (RFC 791 section 3.2).
pub fn parts_are_of_one()
    ensures { (accepted : List Accepted) (source : Endpoint) (o : Outgoing) (number : ℕ) (part : Part) (d : Datagram)
        → Contains accepted (accepted_of source o) → number < count_of (8 + length o.octets)
        → part ≡ record { identification = o.identification; fragment = fragment_of o number }
        → Carries source.addr o.peer.addr part (octets_of source o number) d
        → IsOfOne accepted d }
{}

/// A new pool is of what was accepted, and stays so whatever of it is taken, whatever moments are told and however often the oldest gives way.
pub fn pools_are_of_what_was_accepted()
    ensures new { (accepted : List Accepted) (number octets : ℕ) → IsPoolOf accepted (new_pool number octets) }
    ensures event { (accepted : List Accepted) (pool : PoolView) (event : Event) → IsPoolOf accepted pool → TakesOfOne accepted event
        → IsPoolOf accepted (after_event pool event) }
{}

/// Of fragments of at most 65,536 accepted datagrams, lost, repeated and in any order, no datagram is put together but one of these,
/// whatever room the places of the pool have, and none is given up by a fragment that ends within that room (RFC 791 section 3.2).
pub fn wholes_are_of_one()
    ensures answered { (accepted : List Accepted) (number octets : ℕ) (events : List Event) (now : Moment) (d : Datagram) (whole : wholes.Whole)
        → AreInTurn accepted → AreFew accepted → All (TakesOfOne accepted) events → IsOfOne accepted d
        → AnswersTake now d (after_events number octets events) (Whole whole)
        → IsWholeOfOne accepted d whole.octets.now }
    ensures completed { (accepted : List Accepted) (pool : PoolView) (now : Moment) (d : Datagram) (place : ℕ) (payload quote : List ℕ)
        → AreInTurn accepted → AreFew accepted → IsPoolOf accepted pool → IsOfOne accepted d
        → place_for d pool ≡ Some place → outcome_at now d pool place ≡ Completes payload quote
        → IsWholeOfOne accepted d payload }
    ensures kept { (accepted : List Accepted) (pool : PoolView) (now : Moment) (d : Datagram) (place : ℕ)
        → AreInTurn accepted → AreFew accepted → IsPoolOf accepted pool → IsOfOne accepted d → end_of d ≤ pool.octets
        → place_for d pool ≡ Some place → outcome_at now d pool place ≢ GivesUp }
{}

/// Of one more this is not so, so the bound is the least: the last of 65,537 has the identification of the first, and fragments of both may be
/// put together to what has the right checksum, is read as a UDP datagram, and was accepted from nobody.
pub fn more_may_be_mixed()
    ensures { (accepted : List Accepted) × (pool : PoolView) × (now : Moment) × (d : Datagram) × (place : ℕ) × (payload : List ℕ) × (quote : List ℕ) × (u : UserDatagram)
        × AreInTurn accepted × (length accepted ≡ 65537) × IsPoolOf accepted pool × IsOfOne accepted d
        × (place_for d pool ≡ Some place) × (outcome_at now d pool place ≡ Completes payload quote)
        × (datagram_or_fault d.source d.destination payload ≡ Ok u)
        × (CameFrom accepted (record { addr = d.source; port = u.source }) (record { addr = d.destination; port = u.destination }) u.payload → ⊥) }
{}

/// A datagram of one that was accepted carries UDP, and has the whole of it where it is no fragment (RFC 791 section 3.2).
pub fn datagrams_are_of_one()
    ensures protocol { (accepted : List Accepted) (d : Datagram) → IsOfOne accepted d → d.protocol ≡ 17 }
    ensures whole { (accepted : List Accepted) (d : Datagram) → IsOfOne accepted d → d.more_fragments ≡ false → d.offset ≡ 0 → IsWholeOfOne accepted d d.payload }
{}

/// The whole of an accepted datagram is read as that one: its source, its destination and its payload are those of one that was
/// accepted for this endpoint (RFC 768).
pub fn wholes_are_read()
    ensures parsed { (accepted : List Accepted) (d : Datagram) (payload : List ℕ) (answer : Result UserDatagram UdpFault)
        → AreInTurn accepted → IsWholeOfOne accepted d payload → IsParsed d.source d.destination payload answer
        → Any (λ a. IsOf a d × (answer ≡ Ok (datagram_of a))) accepted }
    ensures read { (accepted : List Accepted) (d : Datagram) (payload : List ℕ) → AreInTurn accepted → IsWholeOfOne accepted d payload
        → Any (λ a. IsOf a d × (datagram_or_fault d.source d.destination payload ≡ Ok (datagram_of a))) accepted }
    ensures came { (accepted : List Accepted) (d : Datagram) (payload : List ℕ) (u : UserDatagram)
        → AreInTurn accepted → IsWholeOfOne accepted d payload → datagram_or_fault d.source d.destination payload ≡ Ok u
        → CameFrom accepted (record { addr = d.source; port = u.source }) (record { addr = d.destination; port = u.destination }) u.payload }
{}

/// A UDP socket keeps to what was accepted, whatever befalls it: datagrams are accepted behind those that wait, fragments go out of any of
/// them, datagrams are given up, and of the other host's come and are read (RFC 768). What is accepted later, at either host, changes nothing of that.
pub fn sockets_keep_to_what_was_accepted()
    ensures new { (own other : List Accepted) (local : Endpoint) → IsSocketOf own other local new_socket }
    ensures sends { (own other : List Accepted) (local peer : Endpoint) (s : SocketView) (now : Moment) (identification : ℕ) (octets : List ℕ)
        → IsSocketOf own other local s
        → IsSocketOf (own ++ record { source = local; peer = peer; identification = identification; octets = octets } ∷ []) other local
        (with_sent s now peer identification octets) }
    ensures brought { (own other : List Accepted) (local : Endpoint) (s : SocketView) (place : ℕ)
        → IsSocketOf own other local s → IsSocketOf own other local (brought place s) }
    ensures emits { (own other : List Accepted) (local : Endpoint) (s : SocketView) (place : ℕ)
        → IsSocketOf own other local s → IsSocketOf own other local (after_part (brought place s)) }
    ensures gives_up { (own other : List Accepted) (local : Endpoint) (s : SocketView) (lost : Addr → Bool) (now : Moment)
        → IsSocketOf own other local s → IsSocketOf own other local (after_giving_up s lost now) }
    ensures receives { (own other : List Accepted) (local source : Endpoint) (s : SocketView) (octets : List ℕ)
        → IsSocketOf own other local s → CameFrom other source local octets → IsSocketOf own other local (with_received s source octets) }
    ensures reads { (own other : List Accepted) (local : Endpoint) (s : SocketView) → IsSocketOf own other local s → IsSocketOf own other local (after_read s) }
    ensures more { (own other more further : List Accepted) (local : Endpoint) (s : SocketView)
        → IsSocketOf own other local s → IsSocketOf (own ++ more) (other ++ further) local s }
{}

/// So what goes out of such a socket is of one that its host accepted, whatever place it is of.
pub fn due_is_of_one()
    ensures { (own other : List Accepted) (local peer : Endpoint) (s : SocketView) (place : ℕ) (part : Part) (d : Datagram)
        → IsSocketOf own other local s → peer_at place s.outbox ≡ Some peer → due_part (brought place s) ≡ Some part
        → Carries local.addr peer.addr part (due_octets local (brought place s)) d
        → IsOfOne own d }
{}

/// And what a reader is told is the source of one that the other host accepted for this socket, with the first of its octets, as many as
/// there is room for.
pub fn reads_are_of_one()
    ensures { (own other : List Accepted) (local source : Endpoint) (s : SocketView) (buffer : List ℕ) (len : ℕ)
        → IsSocketOf own other local s → read_answer s.inbox (length buffer) ≡ Some (len, source)
        → (octets : List ℕ) × CameFrom other source local octets × (take len (read_buffer s.inbox buffer) ≡ take (length buffer) octets) }
{}
