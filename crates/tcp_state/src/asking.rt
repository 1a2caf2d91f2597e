//! What a caller may ask of a connection before it sends or reads: what the call would answer. Nothing changes.

ghost use Rattle.std.specs.Prelude.{◌≡◌};
ghost use Rattle.tcp_state.specs.Asking.{len_answer, room_answer};
ghost use Rattle.tcp_state.specs.Calls.{recv_answer};

use crate::calls::{Received, Refusal};
use crate::connection::Connection;

impl Connection {
    /// What `recv` would answer with a buffer of so many octets.
    pub fn would_recv(&self, len: usize) -> Result<Received, Refusal>
        ensures { result ≡ recv_answer self.now len }
    {
        if let Some(error) = self.pending_error {
            return Err(error);
        }
        if self.state.is_opening() {
            return Err(Refusal::EAGAIN);
        }
        if !self.receiver.is_empty() {
            return Ok(Received::Octets(len.min(self.receiver.readable_len())));
        }
        if self.state.is_read_closed() {
            Ok(Received::EndOfStream)
        } else {
            Err(Refusal::EAGAIN)
        }
    }

    /// How many octets `recv` would give at most: 0 where it would be `EAGAIN` or answer the end of the stream. Refused with the pending error.
    pub fn recv_len(&self) -> Result<usize, Refusal>
        ensures { result ≡ len_answer self.now }
    {
        if let Some(error) = self.pending_error {
            return Err(error);
        }
        if self.state.is_opening() {
            return Ok(0);
        }
        Ok(self.receiver.readable_len())
    }

    /// How many octets `send` would take at most: 0 where it would be `EAGAIN`. Refused with the pending error, and by `EPIPE` once our side is closed.
    pub fn send_room(&self) -> Result<usize, Refusal>
        ensures { result ≡ room_answer self.now }
    {
        if let Some(error) = self.pending_error {
            return Err(error);
        }
        if self.state.is_opening() {
            return Ok(0);
        }
        if self.state.is_write_closed() {
            return Err(Refusal::EPIPE);
        }
        Ok(self.sender.room())
    }
}
