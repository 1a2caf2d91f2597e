//! What is told of the connection of a socket.

ghost use Rattle.std.specs.Prelude.{◌≡◌};
ghost use Rattle.sockets.specs.Info.{role_info, info_answer};

use crate::entry::SocketId;
use crate::refusal::Refusal;
use crate::role::Role;
use crate::sockets::Sockets;
use tcp_state::Info;

#[tactic(auto, using(crate::proofs::Firsts::firsts))]
impl Sockets {
    /// What is so of a socket's connection, in any state. Nothing changes.
    ///
    /// EBADF; EOPNOTSUPP of a UDP socket, and where the socket listens; ENOTCONN where it has had no connection.
    pub fn info(&self, id: SocketId) -> Result<Info, Refusal>
        ensures { result ≡ info_answer self.now id }
    {
        let place = self.socket_place(id)?;
        self.entries[place].role.info()
    }
}

impl Role {
    /// What is so of the connection, where this is one.
    fn info(&self) -> Result<Info, Refusal>
        ensures { result ≡ role_info self.now }
    {
        match self {
            Role::Connected { connection, .. } => Ok(connection.info()),
            Role::Idle { .. } => Err(Refusal::ENOTCONN),
            Role::Listener { .. } | Role::Datagrams { .. } => Err(Refusal::EOPNOTSUPP),
        }
    }
}
