//! A world of two hosts, joined by a bag of frames that may be lost, repeated and reordered, and the hosts themselves.
#![tactic(auto)]

pub mod duties;
mod event;
mod hosts;
pub mod joined;
pub mod laws;
mod room;
mod world;

pub use event::{Answer, Call, Event, Happening, Opening, Unfair, WorldFault};
pub use hosts::{address, config, mac};
pub use sides::Side;
pub use world::World;
