// The files of a folder.

use crate::player::play;
use crate::report::Report;
use crate::stage::Stage;
use program_words::given_words;
use std::process::ExitCode;
use std::rt::{Env, Files};
use std::{fs, io};

/// How the name of a file ends that has one wrong line in each scene. It is played so that this is seen to be found.
const WRONG: &str = ".wrong";

/// The names of what stands in the folder, in order.
fn names_of_files<R: Files + AllocGlobal + Clone + Drop>(rt: &R) -> io::Result<Vec<String>> {
    let mut names = Vec::new(rt.alloc());
    for entry in fs::read_dir(rt, ".")? {
        names.push(String::from_str(rt.alloc(), entry?.file_name())?)?;
    }
    names.sort()?;
    Ok(names)
}

/// Plays a file, and shows what is wrong and how many scenes there are; whether nothing is wrong.
fn play_file<R: Files + AllocGlobal + Print, S: Stage>(
    rt: &R,
    stage: &mut S,
    name: &str,
    scenes: &mut u32,
) -> io::Result<bool> {
    let Ok(text) = fs::read_to_string(rt, name) else {
        println!(rt; "{name}: this is no file of text")?;
        return Ok(false);
    };
    let mut report = Report::new(rt.alloc(), name)?;
    let played = play(rt.alloc(), stage, &mut report, &text);
    drop(text);
    let shown = show(rt, name, &report);
    *scenes = scenes.saturating_add(report.scenes);
    let is_right = report.wrong == wanted_wrong(name, report.scenes);
    drop(report);
    played?;
    shown?;
    Ok(is_right)
}

/// Shows what is wrong, and how many scenes there are.
fn show<R: Print>(rt: &R, name: &str, report: &Report) -> io::Result<()> {
    rt.print(&report.text)?;
    let (scenes, wrong) = (report.scenes, report.wrong);
    println!(rt; "{name}: {scenes} scenes, {wrong} lines are wrong")
}

/// How many lines are to be wrong in a file of so many scenes: in one for which this is wanted, one in each scene.
fn wanted_wrong(name: &str, count: u32) -> u32 {
    if name.ends_with(WRONG) { count } else { 0 }
}

/// Plays each file, and shows how many scenes there are in all; whether nothing is wrong.
fn play_all<R: Files + AllocGlobal + Print, S: Stage>(
    rt: &R,
    stage: &mut S,
    names: &[String],
) -> io::Result<bool> {
    let mut scenes = 0;
    let mut is_right = !names.is_empty();
    for name in names {
        is_right = play_file(rt, stage, name, &mut scenes)? && is_right;
    }
    let files = names.len();
    println!(rt; "{scenes} scenes in {files} files")?;
    Ok(is_right)
}

/// Plays the scenes of each file of the folder that the program is started in, in the order of the files' names, or of the files that its
/// words name, and shows what is wrong with its place, and how many scenes each file has. It ends with 0 where nothing is wrong.
pub fn play_folder<R: Files + Env + AllocGlobal + Print + Clone + Drop, S: Stage>(
    rt: &R,
    stage: &mut S,
) -> io::Result<ExitCode> {
    let words = given_words(rt)?;
    let names = if words.is_empty() {
        names_of_files(rt)?
    } else {
        words
    };
    let played = play_all(rt, stage, &names);
    drop(names);
    match played? {
        true => Ok(ExitCode::SUCCESS),
        false => Ok(ExitCode::FAILURE),
    }
}
