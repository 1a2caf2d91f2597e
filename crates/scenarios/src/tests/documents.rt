//! A client with its loop, to which `docs/EMBEDDING.md` leads. By it a client and a listener come to a connection.

use super::stations::{CLIENT, ONE, SERVER, Side, Station, TWO, config};
use clock::Moment;
use ether::Mac;
use host::{Config, Host, Kind, SocketId, SocketState};
use ipv4::{Addr, Endpoint, Prefix};
use routes::{Hop, Routes};
use std::alloc::Global;
use tcp_segment::Seq;
use tcp_state::State;

/// The link of your program: it gives a frame that arrived, if there is one, and sends a frame or loses it.
trait Link {
    fn recv(&mut self, frame: &mut [u8; 1514]) -> Option<usize>;

    fn send(&mut self, frame: &[u8]);
}

/// A host at 10.0.0.1 on the link 10.0.0.0/24, and its socket, which opens a connection to port 80 of 10.0.0.2.
fn client(alloc: Global, now: Moment, isn: Seq) -> Option<(Host, SocketId)> {
    let mut routes = Routes::new();
    let link = Prefix::new(Addr([10, 0, 0, 0]), 24).ok()?;
    routes.add(link, Hop::Direct).ok()?;
    let config = Config::new(Mac([2, 0, 0, 0, 0, 1]), Addr([10, 0, 0, 1]), routes).ok()?;
    let mut host = Host::new(alloc, config).ok()?;
    let id = host.socket(Kind::Tcp).ok()?;
    let peer = Endpoint {
        addr: Addr([10, 0, 0, 2]),
        port: 80,
    };
    host.connect(now, isn, id, peer).ok()?;
    Some((host, id))
}

/// The most frames that one turn sends.
const MOST: usize = 64;

/// One turn: takes a frame that arrived, and sends those that are due.
fn turn<L: Link>(host: &mut Host, link: &mut L, now: Moment, isn: Seq) {
    let mut frame = [0; 1514];
    host.tick(now);
    if let Some(len) = link.recv(&mut frame) {
        let _ = host.deliver(now, isn, &frame[..len.min(1514)]);
    }
    for _ in 0..MOST {
        let Some(len) = host.next_frame(now, &mut frame) else {
            return;
        };
        link.send(&frame[..len]);
    }
}

/// The other end of the link is a host too.
impl Link for Station {
    fn recv(&mut self, frame: &mut [u8; 1514]) -> Option<usize> {
        self.host.next_frame(Moment(0), frame)
    }

    fn send(&mut self, frame: &[u8]) {
        let _ = self.hear(7, frame);
    }
}

/// A client opens a connection to a listener, whose MAC it learns first: its state then, and the connection that the listener
/// takes, with its peer.
fn meet(alloc: Global, listener: &mut Station) -> Option<(SocketState, (SocketId, Endpoint))> {
    let now = Moment(0);
    let (mut host, id) = client(alloc, now, Seq(5))?;
    for _ in 0..3 {
        turn(&mut host, listener, now, Seq(0));
    }
    Some((host.state(id).ok()?, listener.host.accept(ONE).ok()?))
}

#[test]
fn the_documents_connect_two_hosts(rt: HostRuntime) {
    let mut listener = Station::new(&rt, rt.alloc(), config(&rt, Side::B));
    assert!(rt; listener.host.socket(Kind::Tcp) == Ok(ONE));
    assert!(rt; listener.host.bind(ONE, SERVER) == Ok(()));
    assert!(rt; listener.host.listen(ONE, 1) == Ok(()));
    let met = meet(rt.alloc(), &mut listener);
    let established = SocketState::Stream(State::Established);
    assert!(rt; met == Some((established, (TWO, CLIENT))));
}
