//! The commands of `hostd` on texts, from sources to sinks: the run of a script, its ladder and its capture, and what a frame or the frames of a
//! capture say.
#![tactic(auto)]

pub mod captured;
pub mod fault;
pub mod frame;
mod input;
pub mod laddered;
pub mod laws;
mod output;
mod recording;
pub mod sim;
