//! Plays scenes of whole runs: what is outside clients, what they are started with, and what is wanted of it.
#![tactic(auto)]

mod acts;
mod answers;
mod asks;
mod counted;
mod keeping;
mod lines;
mod nodes;
mod outside_clients;
mod place;
mod prepares;
mod runs;
mod scripts;
mod wants;

use outside_clients::OutsideClients;
use std::io;
use std::process::ExitCode;
use t_scene_files::play_folder;

fn main(rt: HostRuntime) -> io::Result<ExitCode> {
    let mut stage = OutsideClients::new(rt.alloc());
    let played = play_folder(&rt, &mut stage);
    drop(stage);
    played
}
