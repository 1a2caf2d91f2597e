//! The law of datagrams between hosts, over its definitions alone: what a host accepted, the fragments in which it goes out, and what
//! another host makes of those that reach it, however often and in whatever order.
#![tactic(auto)]

pub mod laws;
