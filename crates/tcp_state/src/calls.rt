//! What a caller does with a connection that is open: it sends, receives and closes its side (RFC 9293 section 3.10).

ghost use Rattle.std.specs.Prelude.{◌≡◌, ◌<◌, ◌≤◌, ◌++◌, false, length, take, drop, if◌then◌else◌, ◌||◌, ◌==◌, Ok, Err, OnOk, OnErr, is_some};
ghost use Rattle.std.specs.Result.{result_err};
ghost use Rattle.tcp_state.specs.View.{is_opening, is_read_closed, is_write_closed};
ghost use Rattle.tcp_halves.specs.Stream.{send_room};
ghost use Rattle.tcp_state.specs.Calls.{send_answer, with_octets, after_send, recv_answer, after_recv, recv_count, shutdown_refusal, after_shutdown, after_set_nodelay};

use crate::connection::Connection;
use clock::Moment;
use retransmit::TimerKind;
use thiserror::Error;

/// Why a connection refuses a call, by its POSIX name. Its text is in words: the number and the name that a caller of a host sees are that host's.
#[derive(Clone, Copy, Debug, PartialEq, Eq, Error)]
pub enum Refusal {
    /// The connection is opening, so that it has no side to close.
    #[error("the connection is opening")]
    ENOTCONN,
    /// The connection is opening, there is no room, or nothing is readable.
    #[error("nothing can be done at the moment")]
    EAGAIN,
    /// The peer refused the connection.
    #[error("the peer refused the connection")]
    ECONNREFUSED,
    /// The peer reset the connection.
    #[error("the peer reset the connection")]
    ECONNRESET,
    /// Our side is closed.
    #[error("our side is closed")]
    EPIPE,
    /// The peer did not answer for too long.
    #[error("the peer did not answer for too long")]
    ETIMEDOUT,
}

/// What a receive answers.
#[derive(Clone, Copy, Debug, PartialEq, Eq)]
pub enum Received {
    /// So many octets stand at the buffer's front.
    Octets(usize),
    /// The peer closed its side, and all that it wrote was read.
    EndOfStream,
}

impl Connection {
    /// Takes as many of the octets as there is room for, and says how many (POSIX `send`).
    ///
    /// `EAGAIN` while the connection is opening, `EPIPE` once our side is closed, `EAGAIN` where octets are given and there is no room.
    pub fn send(&mut self, now: Moment, octets: &[u8]) -> Result<usize, Refusal>
        ensures answer { result ≡ send_answer self.old octets.now }
        ensures after { self.new ≡ after_send self.old octets.now now }
    {
        self.ask_error()?;
        if self.state.is_opening() {
            return Err(Refusal::EAGAIN);
        }
        if self.state.is_write_closed() {
            return Err(Refusal::EPIPE);
        }
        let count = octets.len().min(self.sender.room());
        if count == 0 && !octets.is_empty() {
            return Err(Refusal::EAGAIN);
        }
        self.take(now, &octets[..count]);
        Ok(count)
    }

    /// Takes octets, for which there is room, and begins the clock for them.
    fn take(&mut self, now: Moment, octets: &[u8])
        requires opened { (is_opening self.old.state || is_write_closed self.old.state) ≡ false }
        requires room { length octets.now ≤ send_room self.old.sending }
        ensures { self.new ≡ with_octets self.old octets.now now }
    {
        if !octets.is_empty() {
            self.sender.append(octets);
            self.update_timers(false, now);
        }
    }

    /// Moves the first readable octets into `buffer`, which is not empty (POSIX `recv`). The end of the stream is answered where nothing
    /// is readable and the peer's FIN has come behind all its octets.
    ///
    /// `EAGAIN` while the connection is opening, and where nothing is readable before the end.
    pub fn recv(&mut self, buffer: &mut [u8]) -> Result<Received, Refusal>
        requires { 0 < length buffer.old }
        ensures answer { result ≡ recv_answer self.old (length buffer.old) }
        ensures after { self.new ≡ after_recv self.old (length buffer.old) }
        ensures octets { buffer.new ≡ (if is_some self.old.pending_error || is_opening self.old.state || (length self.old.receiving.readable == 0) then buffer.old else take (recv_count self.old (length buffer.old)) self.old.receiving.readable ++ drop (recv_count self.old (length buffer.old)) buffer.old) }
    {
        self.ask_error()?;
        if self.state.is_opening() {
            return Err(Refusal::EAGAIN);
        }
        if self.receiver.is_empty() {
            return self.end();
        }
        Ok(Received::Octets(self.receiver.read(buffer)))
    }

    /// The pending error, which every call reports from now on, if there is one.
    pub fn error(&self) -> Option<Refusal>
        ensures { result ≡ self.now.pending_error }
    {
        self.pending_error
    }

    /// Refuses a call with the pending error.
    fn ask_error(&self) -> Result<(), Refusal>
        ensures { result_err result ≡ self.now.pending_error }
    {
        match self.pending_error {
            Some(error) => Err(error),
            None => Ok(()),
        }
    }

    /// What a receive answers where nothing is readable.
    fn end(&self) -> Result<Received, Refusal>
        ensures { result ≡ (if is_read_closed self.now.state then Ok Received.EndOfStream else Err Refusal.EAGAIN) }
    {
        if self.state.is_read_closed() {
            Ok(Received::EndOfStream)
        } else {
            Err(Refusal::EAGAIN)
        }
    }

    /// Closes our side (RFC 9293 section 3.10.4): a FIN follows the octets that are held. Closed again, it stays so.
    ///
    /// `ENOTCONN` while the connection is opening.
    pub fn shutdown(&mut self, now: Moment) -> Result<(), Refusal>
        ensures refused { result_err result ≡ shutdown_refusal self.old }
        ensures ok { OnOk result (self.new ≡ after_shutdown self.old now) }
        ensures err { OnErr result (self.new ≡ self.old) }
    {
        self.ask_error()?;
        if self.state.is_opening() {
            return Err(Refusal::ENOTCONN);
        }
        self.state = self.state.beyond_shutdown();
        self.update_timers(false, now);
        Ok(())
    }

    /// Whether small segments go out without waiting for what is outstanding, from now on (RFC 9293 section 3.7.4, RFC 1122 section
    /// 4.2.3.4); at first they wait. Full segments and the rules of both windows stay as they are.
    pub fn set_nodelay(&mut self, now: Moment, on: bool)
        ensures { self.new ≡ after_set_nodelay self.old on now }
    {
        self.is_undelayed = on;
        if !self.awaits_more() {
            self.timers.clear(TimerKind::Override);
        }
        self.update_timers(false, now);
    }
}
