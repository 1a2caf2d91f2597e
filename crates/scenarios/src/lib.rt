//! Scenarios of the stack, played through the public calls of its crates: the two ends of a connection (`tcp_state`), two
//! hosts (`host`), a world of both (`wire_sim`), whose network may lose frames, a link over two sockets (`udp_link`), and a copy over a link
//! (`copier`). There is no code here but tests.
#![tactic(auto)]

#[cfg(test)]
mod tests;
