//! Leaving a socket: closing it (POSIX.1-2017 close, RFC 9293 section 3.10.4), or aborting it (section 3.10.5).

ghost use Rattle.std.specs.Prelude.{◌≡◌};
ghost use Rattle.std.specs.Result.{result_err, OnOk, OnErr};

use crate::entry::SocketId;
use crate::refusal::Refusal;
use crate::role::Leave;
use crate::sockets::Sockets;
use crate::table;

#[tactic(auto, using(crate::proofs::Firsts::firsts))]
impl Sockets {
    ghost use Rattle.sockets.specs.Calls.{close_refusal, after_close, after_abort, after_leaving, after_socket_left};

    /// Closes a socket: its id names none any more. EBADF.
    ///
    /// A socket without a connection is gone, a UDP socket with its datagrams, and each connection that waits at a listener is aborted. A connection is gone where it
    /// is CLOSED or in SYN-SENT, and aborted in SYN-RECEIVED or where octets are unread. Else our side is closed, and it goes on
    /// without a socket until it ends.
    pub fn close(&mut self, id: SocketId) -> Result<(), Refusal>
        ensures refused { result_err result ≡ close_refusal self.old id }
        ensures ok { OnOk result (self.new ≡ after_close self.old id) }
        ensures err { OnErr result (self.new ≡ self.old) }
    {
        self.leave(Leave::Close, id)
    }

    /// Aborts a socket: its id names none any more. EBADF.
    ///
    /// A connection past SYN-SENT is aborted, whatever is unread or waits to go out: one reset is owed to its peer, <SEQ=SND.NXT><CTL=RST>. All else goes as by `close`.
    pub fn abort(&mut self, id: SocketId) -> Result<(), Refusal>
        ensures refused { result_err result ≡ close_refusal self.old id }
        ensures ok { OnOk result (self.new ≡ after_abort self.old id) }
        ensures err { OnErr result (self.new ≡ self.old) }
    {
        self.leave(Leave::Abort, id)
    }

    /// Its caller leaves a socket. EBADF.
    fn leave(&mut self, how: Leave, id: SocketId) -> Result<(), Refusal>
        ensures refused { result_err result ≡ close_refusal self.old id }
        ensures ok { OnOk result (self.new ≡ after_leaving self.old how id) }
        ensures err { OnErr result (self.new ≡ self.old) }
    {
        self.leave_socket(how, id)?;
        table::offer_no_more(&mut self.offered, &self.entries, id);
        table::forsake(
            &mut self.entries,
            &mut self.ends,
            &mut self.outlook,
            self.kept,
            id,
        );
        Ok(())
    }

    /// Leaves a socket alone, and not what waits at it. EBADF.
    fn leave_socket(&mut self, how: Leave, id: SocketId) -> Result<(), Refusal>
        ensures refused { result_err result ≡ close_refusal self.old id }
        ensures ok { OnOk result (self.new ≡ after_socket_left self.old how id) }
        ensures err { OnErr result (self.new ≡ self.old) }
    {
        let place = self.socket_place(id)?;
        let kept = self.kept;
        self.outlook.turn_to(&self.entries, place);
        let fate = self.entries[place].role.leave(how, kept);
        table::settle(
            &mut self.entries,
            &mut self.ends,
            &mut self.outlook,
            place,
            fate,
        );
        Ok(())
    }
}
