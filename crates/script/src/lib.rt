//! The language of scripts: what a script's lines say, which event of a world each action is, and how an answer is shown.
#![tactic(auto)]

mod action;
mod answer;
mod events;
mod fault;
mod info;
mod lines;
mod words;

pub use action::Action;
pub use answer::{Style, show, show_unfair};
pub use events::event;
pub use fault::ScriptFault;
pub use lines::{Command, Item, Script, Setting};
pub use words::split_lines;
