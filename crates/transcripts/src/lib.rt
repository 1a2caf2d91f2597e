//! Transcripts: whole scripts with their ladders and captures, frames, copies, and the words of a command line, played through the public calls of
//! `commands`. There is no code here but tests.
#![tactic(auto)]

#[cfg(test)]
mod tests;
