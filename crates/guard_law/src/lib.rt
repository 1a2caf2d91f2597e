//! What a host on its guard gives those that open a connection, over definitions alone: what it answered within a second keeps its place, and it makes way where room is wanting.
#![tactic(auto)]

pub mod laws;
