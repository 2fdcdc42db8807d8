//! Plays scenes of calls: what bytes are read as, and where they are refused; the root of a tree, and what a certificate is checked to say;
//! what a replay of a command is judged to be, whose names its files get, how contents are repaired, and products of the field.
#![tactic(auto)]

mod answers;
mod bytes;
mod calls;
mod certificates;
mod changes;
mod checks;
mod clashes;
mod field;
mod frames;
mod given;
mod images;
mod jobs;
mod judged;
mod judgements;
mod judging;
mod kinds;
mod logs;
mod looks;
mod names;
mod parts;
mod readers;
mod repairs;
mod said;
mod texts;
mod values;
mod words;

use calls::Calls;
use std::io;
use std::process::ExitCode;
use t_scene_files::play_folder;

fn main(rt: HostRuntime) -> io::Result<ExitCode> {
    let mut stage = Calls::new(rt.alloc());
    let played = play_folder(&rt, &mut stage);
    drop(stage);
    played
}
