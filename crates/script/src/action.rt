//! What a script's line has one host do.

ghost use Rattle.std.specs.Prelude.{◌≡◌, ◌≢◌, [], ◌∷◌, map};
ghost use Rattle.script.specs.Keywords.{keyword_of};
ghost use Rattle.script.specs.Actions.{action_of, said_by, id_of, kind_of, switch_of, moment_of, isn_of, port_of, octets_of};

use crate::words::{Text, number};
use clock::Moment;
use host::{Kind, SocketId};
use tcp_segment::Seq;

/// The greatest count of octets, and the greatest MAX, of a line.
const MOST_OCTETS: u64 = 2_000_000;

/// What a line has one host do.
#[derive(Debug, Drop)]
pub enum Action<'a> {
    /// Make a socket.
    Socket(Kind),
    /// Bind a socket to the host's own address and a port.
    Bind {
        id: SocketId,
        port: u16,
    },
    /// Let a socket take connections.
    Listen {
        id: SocketId,
        backlog: usize,
    },
    /// Take a connection that waits at a listener.
    Accept {
        id: SocketId,
    },
    /// Open a connection to a port of the other host.
    Connect {
        id: SocketId,
        port: u16,
        isn: Seq,
    },
    /// Give a text to a connection.
    Send {
        id: SocketId,
        text: Text<'a>,
    },
    /// Give so many octets `x` to a connection.
    Fill {
        id: SocketId,
        count: usize,
    },
    /// Read at most so many octets, and show them.
    Recv {
        id: SocketId,
        most: usize,
    },
    /// Read at most so many octets, and show how many there were.
    Count {
        id: SocketId,
        most: usize,
    },
    /// Give a text as a datagram for a port of the other host.
    SendTo {
        id: SocketId,
        port: u16,
        text: Text<'a>,
    },
    /// Give so many octets `x` as a datagram for a port of the other host.
    FillTo {
        id: SocketId,
        port: u16,
        count: usize,
    },
    /// Read at most so many octets of the first datagram, and show them and where it came from.
    RecvFrom {
        id: SocketId,
        most: usize,
    },
    /// Read at most so many octets of the first datagram, and show how many there were and where it came from.
    CountFrom {
        id: SocketId,
        most: usize,
    },
    /// Close our side of a connection: what was given goes out first, then the end.
    Shutdown {
        id: SocketId,
    },
    /// Let small segments of a connection go out at once from now on, or wait.
    NoDelay {
        id: SocketId,
        on: bool,
    },
    /// Give a socket back: its id is gone, and its connection ends by itself.
    Close {
        id: SocketId,
    },
    /// Abort a socket: its id is gone, and the peer of its connection is owed a reset.
    Abort {
        id: SocketId,
    },
    /// Ask for a socket's state.
    State {
        id: SocketId,
    },
    /// Ask what a socket is ready for.
    Ready {
        id: SocketId,
    },
    /// Ask how a socket's connection stands.
    Info {
        id: SocketId,
    },
    /// Tell the moment, in milliseconds.
    Tick(Moment),
    /// Emit a frame, where one is due.
    Emit,
    /// Take the frame with this index, and an initial sequence number for the connection that it may open.
    Deliver {
        index: usize,
        isn: Seq,
    },
}

/// The first word of an action.
#[derive(Clone, Copy, Debug, PartialEq, Eq)]
pub enum Keyword {
    /// `socket`
    Socket,
    /// `bind`
    Bind,
    /// `listen`
    Listen,
    /// `accept`
    Accept,
    /// `connect`
    Connect,
    /// `send`
    Send,
    /// `fill`
    Fill,
    /// `recv`
    Recv,
    /// `count`
    Count,
    /// `sendto`
    SendTo,
    /// `fillto`
    FillTo,
    /// `recvfrom`
    RecvFrom,
    /// `countfrom`
    CountFrom,
    /// `shutdown`
    Shutdown,
    /// `nodelay`
    NoDelay,
    /// `close`
    Close,
    /// `abort`
    Abort,
    /// `state`
    State,
    /// `ready`
    Ready,
    /// `info`
    Info,
    /// `tick`
    Tick,
    /// `emit`
    Emit,
    /// `deliver`
    Deliver,
}

impl Keyword {
    /// The keyword that `word` is.
    pub fn parse(word: &[u8]) -> Option<Keyword>
        ensures { result ≡ keyword_of word.now }
    {
        let keyword = match word {
            b"socket" => Keyword::Socket,
            b"bind" => Keyword::Bind,
            b"listen" => Keyword::Listen,
            b"accept" => Keyword::Accept,
            b"connect" => Keyword::Connect,
            b"send" => Keyword::Send,
            b"fill" => Keyword::Fill,
            b"recv" => Keyword::Recv,
            b"count" => Keyword::Count,
            b"sendto" => Keyword::SendTo,
            b"fillto" => Keyword::FillTo,
            b"recvfrom" => Keyword::RecvFrom,
            b"countfrom" => Keyword::CountFrom,
            b"shutdown" => Keyword::Shutdown,
            b"nodelay" => Keyword::NoDelay,
            b"close" => Keyword::Close,
            b"abort" => Keyword::Abort,
            b"state" => Keyword::State,
            b"ready" => Keyword::Ready,
            b"info" => Keyword::Info,
            b"tick" => Keyword::Tick,
            b"emit" => Keyword::Emit,
            b"deliver" => Keyword::Deliver,
            _ => return None,
        };
        Some(keyword)
    }
}

impl<'a> Action<'a> {
    /// What the words of a line say, without the host's name before them.
    pub fn parse(words: &[&'a [u8]]) -> Option<Action<'a>>
        ensures { result ≡ action_of (map (λ word. word.now) words.now) }
    {
        let (first, arguments) = words.split_first()?;
        with_arguments(Keyword::parse(first)?, arguments)
    }
}

/// What a keyword says with the words after it.
fn with_arguments<'a>(keyword: Keyword, arguments: &[&'a [u8]]) -> Option<Action<'a>>
    ensures { result ≡ said_by keyword (map (λ word. word.now) arguments.now) }
{
    match arguments {
        [] => with_none(keyword),
        [word] => with_one(keyword, word),
        [first, second] => with_two(keyword, first, second),
        [first, second, third] => with_three(keyword, first, second, third),
        _ => None,
    }
}

fn with_none<'a>(keyword: Keyword) -> Option<Action<'a>>
    ensures { result ≡ said_by keyword [] }
{
    match keyword {
        Keyword::Emit => Some(Action::Emit),
        _ => None,
    }
}

fn with_one<'a>(keyword: Keyword, word: &'a [u8]) -> Option<Action<'a>>
    ensures { result ≡ said_by keyword (word.entry.now ∷ []) }
{
    match keyword {
        Keyword::Socket => Some(Action::Socket(socket_kind(word)?)),
        Keyword::Accept => Some(Action::Accept {
            id: socket_id(word)?,
        }),
        Keyword::Shutdown => Some(Action::Shutdown {
            id: socket_id(word)?,
        }),
        Keyword::Close => Some(Action::Close {
            id: socket_id(word)?,
        }),
        Keyword::Abort => Some(Action::Abort {
            id: socket_id(word)?,
        }),
        Keyword::State => Some(Action::State {
            id: socket_id(word)?,
        }),
        Keyword::Ready => Some(Action::Ready {
            id: socket_id(word)?,
        }),
        Keyword::Info => Some(Action::Info {
            id: socket_id(word)?,
        }),
        Keyword::Tick => Some(Action::Tick(moment(word)?)),
        _ => None,
    }
}

fn with_two<'a>(keyword: Keyword, first: &'a [u8], second: &'a [u8]) -> Option<Action<'a>>
    ensures { result ≡ said_by keyword (first.entry.now ∷ second.entry.now ∷ []) }
{
    if let Keyword::Deliver = keyword {
        let index = number(first, u64::MAX)? as usize;
        return Some(Action::Deliver {
            index,
            isn: initial(second)?,
        });
    }
    on_socket(keyword, first, second)
}

/// The actions of two arguments, the first of which is a socket.
fn on_socket<'a>(keyword: Keyword, first: &'a [u8], second: &'a [u8]) -> Option<Action<'a>>
    ensures { keyword ≢ Keyword.Deliver → result ≡ said_by keyword (first.entry.now ∷ second.entry.now ∷ []) }
{
    let id = socket_id(first)?;
    match keyword {
        Keyword::Bind => Some(Action::Bind {
            id,
            port: port(second)?,
        }),
        Keyword::Listen => Some(Action::Listen {
            id,
            backlog: number(second, u64::MAX)? as usize,
        }),
        Keyword::Send => Some(Action::Send {
            id,
            text: Text::new(second)?,
        }),
        Keyword::Fill => Some(Action::Fill {
            id,
            count: octets(second)?,
        }),
        Keyword::Recv => Some(Action::Recv {
            id,
            most: octets(second)?,
        }),
        Keyword::Count => Some(Action::Count {
            id,
            most: octets(second)?,
        }),
        Keyword::RecvFrom => Some(Action::RecvFrom {
            id,
            most: octets(second)?,
        }),
        Keyword::NoDelay => Some(Action::NoDelay {
            id,
            on: switch(second)?,
        }),
        Keyword::CountFrom => Some(Action::CountFrom {
            id,
            most: octets(second)?,
        }),
        _ => None,
    }
}

fn with_three<'a>(
    keyword: Keyword,
    first: &'a [u8],
    second: &'a [u8],
    third: &'a [u8],
) -> Option<Action<'a>>
    ensures { result ≡ said_by keyword (first.entry.now ∷ second.entry.now ∷ third.entry.now ∷ []) }
{
    match keyword {
        Keyword::Connect => Some(Action::Connect {
            id: socket_id(first)?,
            port: port(second)?,
            isn: initial(third)?,
        }),
        Keyword::SendTo => Some(Action::SendTo {
            id: socket_id(first)?,
            port: port(second)?,
            text: Text::new(third)?,
        }),
        Keyword::FillTo => Some(Action::FillTo {
            id: socket_id(first)?,
            port: port(second)?,
            count: octets(third)?,
        }),
        _ => None,
    }
}

fn socket_kind(word: &[u8]) -> Option<Kind>
    ensures { result ≡ kind_of word.now }
{
    match word {
        b"tcp" => Some(Kind::Tcp),
        b"udp" => Some(Kind::Udp),
        _ => None,
    }
}

/// Whether a word says `on` or `off`.
fn switch(word: &[u8]) -> Option<bool>
    ensures { result ≡ switch_of word.now }
{
    match word {
        b"on" => Some(true),
        b"off" => Some(false),
        _ => None,
    }
}

/// The id of a socket.
pub fn socket_id(word: &[u8]) -> Option<SocketId>
    ensures { result ≡ id_of word.now }
{
    Some(SocketId(number(word, u64::MAX)?))
}

fn moment(word: &[u8]) -> Option<Moment>
    ensures { result ≡ moment_of word.now }
{
    Some(Moment(number(word, u64::MAX)?))
}

/// An initial sequence number.
pub fn initial(word: &[u8]) -> Option<Seq>
    ensures { result ≡ isn_of word.now }
{
    Some(Seq(number(word, u64::from(u32::MAX))? as u32))
}

fn port(word: &[u8]) -> Option<u16>
    ensures { result ≡ port_of word.now }
{
    Some(number(word, u64::from(u16::MAX))? as u16)
}

fn octets(word: &[u8]) -> Option<usize>
    ensures { result ≡ octets_of word.now }
{
    Some(number(word, MOST_OCTETS)? as usize)
}
