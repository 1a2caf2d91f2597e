//! `replay`: plays rows of events on worlds of two hosts, one by one and then at once. What is refused for want of memory it gives again, once. It prints
//! the rows with their answers: the same, whichever one growth of memory is refused.
#![tactic(auto)]

mod failure;
mod player;
mod rows;

use failure::Failure;
use player::Player;
use rows::{DATAGRAMS, GREETING, Row};
use std::io::Print;
use std::process::ExitCode;

fn main(rt: HostRuntime) -> ExitCode {
    let mut player = Player::new(rt.alloc());
    match replay(&rt, &mut player) {
        Ok(()) => ExitCode::SUCCESS,
        Err(failure) => {
            let _ = eprintln!(rt; "replay: {failure}");
            ExitCode::FAILURE
        }
    }
}

/// Plays each row.
fn replay(rt: &impl Print, player: &mut Player) -> Result<(), Failure> {
    play(rt, player, &GREETING)?;
    play(rt, player, &DATAGRAMS)
}

/// Plays a row and prints its lines, and how many of them were answered so.
fn play(rt: &impl Print, player: &mut Player, row: &Row) -> Result<(), Failure> {
    let mut world = player.world()?;
    for line in row.lines {
        player.step(&mut world, line)?;
        println!(rt; "{}: {}", line.0, line.1)?;
    }
    row.compare_frame(&world)?;
    // Where memory is refused to one of its events, those behind it are answered otherwise.
    if !player.run(row)? && !player.run(row)? {
        return Err(Failure::NoMemory);
    }
    let answered = row.lines.len();
    println!(rt; "{answered} of {answered}")?;
    Ok(())
}
