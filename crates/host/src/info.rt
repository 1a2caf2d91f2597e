//! What is told of the connection of a socket.

ghost use Rattle.std.specs.Prelude.{◌≡◌};
ghost use Rattle.sockets.specs.Info.{info_answer};

use crate::host::Host;
use sockets::{Info, Refusal, SocketId};

impl Host {
    /// What is so of a socket's connection. EBADF, EOPNOTSUPP, ENOTCONN. See `Sockets::info`.
    pub fn info(&self, id: SocketId) -> Result<Info, Refusal>
        ensures { result ≡ info_answer self.now.sockets id }
    {
        self.layers.sockets.info(id)
    }
}
