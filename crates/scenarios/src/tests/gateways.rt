//! The next hop, by the longest prefix (RFC 1812 section 5.2.4.3): the destination itself where the way is direct, and else the gateway.

use super::octets::{
    ASKED_BACK, FAR_ECHO, FAR_ECHO_OF_B, FAR_ECHOED, FAR_PROTOCOL, GATEWAY_REPLY,
    NEAR_GATEWAY_ASKED, NEIGHBOUR_ASKED,
};
use super::stations::Side::{A, B};
use super::stations::{
    Act, FRESH, GATEWAYS, NEAR_GATEWAY, NEIGHBOURS, ONE, ROUTED, Scenario, Step, THREE, TWO,
};
use host::Refusal;
use host::SocketState::Stream;
use ipv4::{Addr, Endpoint};
use tcp_state::State;

/// On the link.
const DIRECT: Endpoint = Endpoint {
    addr: Addr([10, 1, 2, 3]),
    port: 80,
};

/// Behind 10.0.0.9.
const NEAR: Endpoint = Endpoint {
    addr: Addr([10, 2, 0, 1]),
    port: 80,
};

/// Behind 10.0.0.1, if there is a way.
const OFF: Endpoint = Endpoint {
    addr: Addr([11, 0, 0, 1]),
    port: 80,
};

const DIRECT_AND_NEAR: &[Step] = &[
    (B, Act::Socket(ONE)),
    (B, Act::Connect(5, ONE, DIRECT, Ok(()))),
    (B, Act::Sends(NEIGHBOUR_ASKED)),
    (B, Act::Socket(TWO)),
    (B, Act::Connect(5, TWO, NEAR, Ok(()))),
    (B, Act::Sends(NEAR_GATEWAY_ASKED)),
    (B, Act::Socket(THREE)),
];

const OFF_BY_THE_OTHER: &[Step] = &[
    (B, Act::Connect(5, THREE, OFF, Ok(()))),
    (B, Act::Sends(ASKED_BACK)),
    (B, Act::Emit(None)),
];

const OFF_BY_NOTHING: &[Step] = &[
    (B, Act::Connect(5, THREE, OFF, Err(Refusal::ENETUNREACH))),
    (B, Act::State(THREE, Ok(Stream(State::Closed)))),
    (B, Act::Emit(None)),
];

/// The reply is for the host that asked, on its way to the gateway.
const ECHO_BY_THE_GATEWAY: &[Step] = &[
    (A, Act::Hear(0, GATEWAY_REPLY, Ok(()))),
    (A, Act::Hear(0, FAR_ECHO, Ok(()))),
    (A, Act::Sends(FAR_ECHOED)),
    (A, Act::Emit(None)),
];

/// Where no route leads back, neither a request nor a datagram that nothing takes is answered.
const NO_WAY_BACK: &[Step] = &[
    (B, Act::Hear(0, FAR_ECHO_OF_B, Ok(()))),
    (B, Act::Hear(0, FAR_PROTOCOL, Ok(()))),
    (B, Act::Deadline(None)),
    (B, Act::Emit(None)),
];

pub(super) const SCENARIOS: &[Scenario] = &[
    Scenario {
        name: "each hop is asked for",
        hosts: GATEWAYS,
        parts: &[DIRECT_AND_NEAR, OFF_BY_THE_OTHER],
    },
    Scenario {
        name: "without the last route nothing is begun",
        hosts: NEAR_GATEWAY,
        parts: &[DIRECT_AND_NEAR, OFF_BY_NOTHING],
    },
    Scenario {
        name: "an echo goes by the gateway",
        hosts: ROUTED,
        parts: &[ECHO_BY_THE_GATEWAY],
    },
    Scenario {
        name: "what has no way back is taken",
        hosts: FRESH,
        parts: &[NEIGHBOURS, NO_WAY_BACK],
    },
];
