//! The scripts of the folder `examples`, each with all that it prints. A file there has the same lines without the arrows.

/// examples/handshake.txt
const HANDSHAKE: &str = "# Two hosts open a connection, and a sends five octets to b.
#
# b makes a socket and is told its id. Then it takes connections at port 80.
b socket tcp -> id 1
b bind 1 80 -> ok
b listen 1 1 -> ok
# a makes a socket too. Each host counts its own ids, so it has the id 1 again.
a socket tcp -> id 1
# a asks for a connection to port 80 of b. The last number is the one at which a's numbers begin.
# Nothing has gone out yet.
a connect 1 80 100 -> started
a state 1 -> SYN-SENT
# a doesn't know b's MAC yet. So its first frame asks every host on the link who has 10.0.0.2 (ARP). It lies in the bag
# with the index 0 and has 60 octets, the least that a frame has.
a emit -> frame 0 60
# Until that is answered the SYN waits, and nobody is asked again within a second.
a emit -> none
# b takes the request, learns from it where a is, and answers. The last number counts only for a frame that opens a connection.
b deliver 0 0 -> taken
b emit -> frame 1 60
a deliver 1 0 -> taken
# Now a's SYN goes out. Its header has 28 octets: it tells the greatest segment that a takes, and that a scales windows.
a emit -> frame 2 62
# b takes it. The last number is the one at which b's numbers begin.
b deliver 2 300 -> taken
# b answers with a SYN of its own that acknowledges a's. Until that is acknowledged nothing can be accepted.
b accept 1 -> E8 EAGAIN
b emit -> frame 3 62
# With that a's side stands, and a acknowledges b's SYN.
a deliver 3 0 -> taken
a state 1 -> ESTABLISHED
a emit -> frame 4 60
b deliver 4 0 -> taken
# Now b's side stands too. b is told the new socket's id, and the address and the port of its peer.
b accept 1 -> id 2 10.0.0.1 49152
b state 2 -> ESTABLISHED
# a sends five octets. The frame has headers of 14, 20 and 20 octets, these five, and one zero that fills it up to 60.
a send 1 hello -> sent 5
a emit -> frame 5 60
b deliver 5 0 -> taken
# b reads them, and then there is nothing more to read.
b recv 2 100 -> octets hello
b recv 2 100 -> E8 EAGAIN
# b acknowledges them. That waits for octets to ride on, and goes out alone after 200 milliseconds.
b emit -> none
b tick 200 -> ok
b emit -> frame 6 60
a deliver 6 0 -> taken
# Neither side has anything left to say.
a emit -> none
b emit -> none
";

/// examples/loss_repaired.txt
const LOSS_REPAIRED: &str =
    "# A frame with octets is lost. A second later they go out again, and b reads them once.
#
# First the two hosts open a connection: pass lets frames go both ways, and tells how many each side sent. By the first two
# frames a learns b's MAC (ARP).
b socket tcp -> id 1
b bind 1 80 -> ok
b listen 1 1 -> ok
a socket tcp -> id 1
a connect 1 80 100 -> started
pass 300 -> a 1 b 1
pass 300 -> a 1 b 1
pass 300 -> a 1 b 0
b accept 1 -> id 2 10.0.0.1 49152
# a sends five octets. Their frame lies in the bag and isn't delivered: it is lost.
a send 1 hello -> sent 5
a emit -> frame 5 60
b recv 2 100 -> E8 EAGAIN
# a waits for the acknowledgement. One millisecond before a second is over, nothing is due.
a emit -> none
a tick 999 -> ok
a emit -> none
# At 1,000 milliseconds the same octets go out again, and now they arrive.
a tick 1000 -> ok
a emit -> frame 6 60
b deliver 6 0 -> taken
b recv 2 100 -> octets hello
# 200 milliseconds later b acknowledges them, and nothing goes out again, however long a waits.
b tick 200 -> ok
b emit -> frame 7 60
a deliver 7 0 -> taken
a tick 9000 -> ok
a emit -> none
# The lost frame turns up after all. b has read these octets and takes them for no others:
# it only tells a once more how far it has come.
b deliver 5 0 -> taken
b recv 2 100 -> E8 EAGAIN
b emit -> frame 8 60
a deliver 8 0 -> taken
a emit -> none
";

/// examples/simultaneous_close.txt
const SIMULTANEOUS_CLOSE: &str = "# Both sides close before either hears of it.
#
# First the two hosts open a connection.
b socket tcp -> id 1
b bind 1 80 -> ok
b listen 1 1 -> ok
a socket tcp -> id 1
a connect 1 80 100 -> started
pass 300 -> a 1 b 1
pass 300 -> a 1 b 1
pass 300 -> a 1 b 0
b accept 1 -> id 2 10.0.0.1 49152
# Each closes its side, and from then on gives no more octets.
a shutdown 1 -> ok
b shutdown 2 -> ok
a send 1 x -> E12 EPIPE
a state 1 -> FIN-WAIT-1
b state 2 -> FIN-WAIT-1
# Both ends are under way at once, as frames without octets.
a emit -> frame 5 60
b emit -> frame 6 60
b deliver 5 0 -> taken
a deliver 6 0 -> taken
# Each side has heard the other's end, and its own isn't acknowledged yet.
a state 1 -> CLOSING
b state 2 -> CLOSING
# Both read the end.
a recv 1 100 -> end
b recv 2 100 -> end
# The acknowledgements cross too.
a emit -> frame 7 60
b emit -> frame 8 60
b deliver 7 0 -> taken
a deliver 8 0 -> taken
a state 1 -> TIME-WAIT
b state 2 -> TIME-WAIT
# Both wait 240,000 milliseconds, twice the time that a segment may live.
a tick 239999 -> ok
a state 1 -> TIME-WAIT
a tick 240000 -> ok
b tick 240000 -> ok
a state 1 -> CLOSED
b state 2 -> CLOSED
# The end can still be read, and nothing goes out any more.
a recv 1 100 -> end
b recv 2 100 -> end
pass 0 -> a 0 b 0
";

/// examples/reset.txt
const RESET: &str = "# A connection is refused, and another one is reset.
#
# Nobody listens at port 81 of b. When a has learnt b's MAC, its SYN goes out and is answered by a reset, and a's calls
# answer ECONNREFUSED.
a socket tcp -> id 1
a connect 1 81 100 -> started
pass 0 -> a 1 b 1
pass 0 -> a 1 b 1
a state 1 -> CLOSED
a recv 1 100 -> E9 ECONNREFUSED
a send 1 x -> E9 ECONNREFUSED
# The error stays until a gives the socket back. After that its id names nothing.
a recv 1 100 -> E9 ECONNREFUSED
a close 1 -> ok
a recv 1 100 -> E1 EBADF
# At port 80 b takes a connection. a's first port was 49152, so this one comes from the next, and it knows b's MAC.
b socket tcp -> id 1
b bind 1 80 -> ok
b listen 1 1 -> ok
a socket tcp -> id 2
a connect 2 80 100 -> started
pass 300 -> a 1 b 1
pass 300 -> a 1 b 0
b accept 1 -> id 2 10.0.0.1 49153
# a sends five octets. They arrive and are acknowledged after 200 milliseconds, but b's caller doesn't read them.
a send 2 hello -> sent 5
pass 0 -> a 1 b 0
b tick 200 -> ok
pass 0 -> a 0 b 1
a state 2 -> ESTABLISHED
# b's caller gives the socket back. Since octets are unread, a is told by a reset that they were lost.
b close 2 -> ok
b emit -> frame 9 60
a deliver 9 0 -> taken
a state 2 -> CLOSED
# All of a's calls on the connection tell ECONNRESET now.
a recv 2 100 -> E10 ECONNRESET
a send 2 x -> E10 ECONNRESET
a shutdown 2 -> E10 ECONNRESET
a connect 2 80 100 -> E10 ECONNRESET
a close 2 -> ok
a recv 2 100 -> E1 EBADF
";

/// examples/old_segment_refused.txt
const OLD_SEGMENT_REFUSED: &str =
    "# Frames that are too old are not delivered: a host could not tell them from new ones.
#
# A frame is stale once an end took 16 octets more from its caller. This line must come first.
limit 16 -> ok
# The two hosts open a connection. Its first frame, a's SYN, has the index 2: by the first two a learnt b's MAC.
b socket tcp -> id 1
b bind 1 80 -> ok
b listen 1 1 -> ok
a socket tcp -> id 1
a connect 1 80 100 -> started
pass 300 -> a 1 b 1
pass 300 -> a 1 b 1
pass 300 -> a 1 b 0
b accept 1 -> id 2 10.0.0.1 49152
# Both callers give their sockets back, and b's connection ends.
a close 1 -> ok
pass 0 -> a 1 b 1
b close 2 -> ok
pass 0 -> a 0 b 1
pass 0 -> a 1 b 0
# The SYN comes once more. b still listens at port 80 and would open the same connection a second time.
b deliver 2 900 -> U4 SecondOpening
# When a has waited long enough, its port is free. a opens a second connection between the same ports.
a tick 240000 -> ok
a socket tcp -> id 2
a bind 2 49152 -> ok
a connect 2 80 5000 -> started
# From now on every frame of the first connection is one of an earlier epoch of these ports.
b deliver 2 900 -> U3 OtherEpoch
b deliver 4 900 -> U3 OtherEpoch
pass 700 -> a 1 b 1
pass 700 -> a 1 b 0
b accept 1 -> id 3 10.0.0.1 49152
b deliver 2 900 -> U3 OtherEpoch
# a sends five octets, and b reads them.
a send 2 hello -> sent 5
a emit -> frame 12 60
b deliver 12 0 -> taken
b recv 3 100 -> octets hello
# a's caller gives 15 octets more. The frame may still come again, and changes nothing.
a fill 2 15 -> sent 15
b deliver 12 0 -> taken
b recv 3 100 -> E8 EAGAIN
# With the 16th it is stale.
a fill 2 1 -> sent 1
b deliver 12 0 -> U2 Stale
# What was refused changed nothing: the connection goes on.
pass 0 -> a 0 b 1
pass 0 -> a 1 b 0
b recv 3 100 -> octets xxxxxxxxxxxxxxxx
";

/// examples/datagrams.txt
const DATAGRAMS: &str =
    "# Two hosts exchange datagrams (UDP): one that fits a frame, one in fragments, and one that nobody waits for.
#
# b waits for datagrams at port 5001. A UDP socket has no connection, and its state is always the same.
b socket udp -> id 1
b bind 1 5001 -> ok
b state 1 -> DATAGRAM
# a sends five octets. Its socket wasn't bound, so it is given the first dynamic port.
a socket udp -> id 1
a sendto 1 5001 hello -> sent 5
# a doesn't know b's MAC yet: the datagram waits until b has answered the request for it.
pass 0 -> a 1 b 1
a emit -> frame 2 60
b deliver 2 0 -> taken
# b reads at most so many octets as it says. What is left of a datagram is lost.
b recvfrom 1 4 -> octets hell from 10.0.0.1 49152
b recvfrom 1 100 -> E8 EAGAIN
# b answers to where it came from.
b sendto 1 49152 welcome -> sent 7
b emit -> frame 3 60
a deliver 3 0 -> taken
a recvfrom 1 100 -> octets welcome from 10.0.0.2 5001
# With its header of 8 octets a datagram of 3,000 fills two frames and a bit: it goes out in three fragments.
a fillto 1 5001 3000 -> sent 3000
a emit -> frame 4 1514
a emit -> frame 5 1514
a emit -> frame 6 82
a emit -> none
# They may come in any order and more than once. b reads nothing until all are there.
b deliver 6 0 -> taken
b deliver 4 0 -> taken
b deliver 4 0 -> taken
b countfrom 1 4000 -> E8 EAGAIN
b deliver 5 0 -> taken
b countfrom 1 4000 -> octets 3000 from 10.0.0.1 49152
# Of the next one two fragments are lost. After a minute b gives it up, and tells a so (time exceeded).
a fillto 1 5001 3000 -> sent 3000
a emit -> frame 7 1514
a emit -> frame 8 1514
a emit -> frame 9 82
b deliver 7 0 -> taken
b tick 59999 -> ok
b emit -> none
b tick 60000 -> ok
b emit -> frame 10 70
a deliver 10 0 -> taken
# Nobody waits at port 9. b tells a (port unreachable), and a's caller hears nothing of it.
a socket udp -> id 2
a sendto 2 9 hi -> sent 2
pass 0 -> a 1 b 1
a recvfrom 2 100 -> E8 EAGAIN
# A datagram has at most 65,507 octets.
a fillto 2 9 65508 -> E13 EMSGSIZE
# For connections there are TCP sockets.
a send 2 hi -> E18 EDESTADDRREQ
a connect 2 80 100 -> E17 EOPNOTSUPP
";

/// examples/simultaneous_open.txt
const SIMULTANEOUS_OPEN: &str = "# Both sides ask for the same connection, and neither listens.
#
# Each binds its socket to a port and connects it to the other's port. The last numbers are those at which their numbers begin.
a socket tcp -> id 1
a bind 1 4000 -> ok
a connect 1 5000 100 -> started
b socket tcp -> id 1
b bind 1 5000 -> ok
b connect 1 4000 200 -> started
# a asks who has b's address (ARP). By that b learns where a is, and it answers.
a emit -> frame 0 60
b deliver 0 0 -> taken
b emit -> frame 1 60
a deliver 1 0 -> taken
# The two SYNs are under way at once: each side hears a SYN where it waits for an answer to its own.
a emit -> frame 2 62
b emit -> frame 3 62
b deliver 2 0 -> taken
a deliver 3 0 -> taken
a state 1 -> SYN-RECEIVED
b state 1 -> SYN-RECEIVED
# Nobody has acknowledged a's SYN yet, so a's caller can't send.
a send 1 hello -> E8 EAGAIN
# Each sends its SYN once more, now with an acknowledgement of the other's.
a emit -> frame 4 62
b emit -> frame 5 62
b deliver 4 0 -> taken
a deliver 5 0 -> taken
# Neither takes a SYN twice. Each only says how far it has come, and so acknowledges the other's SYN.
a emit -> frame 6 60
b emit -> frame 7 60
b deliver 6 0 -> taken
a deliver 7 0 -> taken
a state 1 -> ESTABLISHED
b state 1 -> ESTABLISHED
# That is one connection, and either side may send.
b send 1 hello -> sent 5
b emit -> frame 8 60
a deliver 8 0 -> taken
a recv 1 100 -> octets hello
";

/// examples/backlog.txt
const BACKLOG: &str = "# Three connections are asked for at a listener where two may wait.
#
# The hosts don't use the window scale option. So the frame of a SYN has 60 octets, as that of an acknowledgement has.
noscale -> ok
b socket tcp -> id 1
b bind 1 80 -> ok
b listen 1 2 -> ok
a socket tcp -> id 1
a socket tcp -> id 2
a socket tcp -> id 3
a connect 1 80 100 -> started
a connect 2 80 200 -> started
a connect 3 80 300 -> started
# By the first two frames a learns b's MAC (ARP).
pass 300 -> a 1 b 1
# The SYNs go out in order of id. At b there is no room for the third one, which is dropped.
a emit -> frame 2 60
a emit -> frame 3 60
a emit -> frame 4 60
b deliver 2 300 -> taken
b deliver 3 300 -> taken
b deliver 4 300 -> drop F9
# b answers both. Its second answer arrives first, and is acknowledged first.
b emit -> frame 5 60
b emit -> frame 6 60
a deliver 6 0 -> taken
a emit -> frame 7 60
b deliver 7 0 -> taken
a deliver 5 0 -> taken
a emit -> frame 8 60
b deliver 8 0 -> taken
# b accepts in the order in which its SYNs were acknowledged. The ids are in the order in which a's SYNs came.
b accept 1 -> id 3 10.0.0.1 49153
# One waits still. So there is room for a's third SYN, which comes again after a second.
a tick 1000 -> ok
a emit -> frame 9 60
b deliver 9 300 -> taken
b emit -> frame 10 60
a deliver 10 0 -> taken
a emit -> frame 11 60
b deliver 11 0 -> taken
b accept 1 -> id 2 10.0.0.1 49152
# b gives its listener back. The connection that still waits there is reset, and those that were accepted go on.
b close 1 -> ok
b emit -> frame 12 60
a deliver 12 0 -> taken
a recv 3 100 -> E10 ECONNRESET
b state 2 -> ESTABLISHED
b state 3 -> ESTABLISHED
";

/// The examples, each alone.
pub const TRANSCRIPTS: &[&[&str]] = &[
    &[HANDSHAKE],
    &[LOSS_REPAIRED],
    &[SIMULTANEOUS_CLOSE],
    &[RESET],
    &[OLD_SEGMENT_REFUSED],
    &[DATAGRAMS],
    &[SIMULTANEOUS_OPEN],
    &[BACKLOG],
];
