//! Programs that run apart: what each way keeps from them that this machine has. Which it has not is printed, and left out.

use crate::tests::{captured, job, remove_work, told};
use child_runner::{ApartWish, ChildRunner};
use cmd_capture::{Job, JobRows, Words};
use std::net::TcpListener;
use std::os::unix::fs::symlink;
use std::rt::HostRuntime;
use std::test::Fail;
use std::time::Duration;
use std::{env, fs, thread};
use vol_tree::Content;

/// What is told where everything is kept away, and where files are not.
const APART: &str = "runs programs apart: processes, network, files";

const SPLIT: &str =
    "runs programs apart: processes, network; not files: there is no /usr/bin/bwrap that can be used";

/// No folder: whoever is to show it cannot keep files away.
const NO_FOLDER: &str = "/no-such-folder";

/// A runner of a surrogate that keeps programs apart in `work`. They see the folder `shown`, where one is named.
fn apart_in<'a>(
    rt: &'a HostRuntime,
    work: &str,
    shown: &str,
) -> Result<ChildRunner<'a, HostRuntime>, Fail> {
    let mut wish = ApartWish::none(rt.alloc());
    wish.is_wanted = true;
    if !shown.is_empty() {
        wish.shown.push(String::from_str(rt.alloc(), shown)?)?;
    }
    let mut runner = ChildRunner::at_surrogate(rt, "surrogate", Duration::from_secs(20));
    runner.keep_apart(work.as_bytes(), &wish, Vec::new(rt.alloc()));
    drop(wish);
    Ok(runner)
}

/// The same where this machine has that way; else it is named.
fn by_way<'a>(
    rt: &'a HostRuntime,
    work: &str,
    way: &str,
) -> Result<Option<ChildRunner<'a, HostRuntime>>, Fail> {
    let shown = if way == APART { "" } else { NO_FOLDER };
    let runner = apart_in(rt, work, shown)?;
    if runner.kept() == way {
        return Ok(Some(runner));
    }
    println!(rt; "left out, since this machine has it not: {way}")?;
    drop(runner);
    remove(rt, work)?;
    Ok(None)
}

/// Removes the folder of runs, where it is there.
fn remove(rt: &HostRuntime, work: &str) -> Result<(), Fail> {
    if fs::exists(rt, work)? {
        remove_work(rt, work)?;
    }
    Ok(())
}

/// What the script leaves where it runs so, in the file `c`.
fn left_by(
    rt: &HostRuntime,
    runner: &mut ChildRunner<HostRuntime>,
    work: &str,
    script: &str,
) -> Result<String, Fail> {
    let job = job(rt, "/bin/sh", "", script)?;
    let text = told(rt, runner, work, &job);
    drop(job);
    let text = text?;
    match text.strip_prefix("0 a/ a/b=old c=") {
        Some(left) => Ok(String::from_str(rt.alloc(), left)?),
        None => Ok(text),
    }
}

/// Whether the script leaves this in `c`, this way, where the machine has it.
fn leaves(
    rt: &HostRuntime,
    work: &str,
    way: &str,
    script: &str,
    wanted: &str,
) -> Result<bool, Fail> {
    let Some(mut runner) = by_way(rt, work, way)? else {
        return Ok(true);
    };
    let left = left_by(rt, &mut runner, work, script);
    drop(runner);
    let left = left?;
    remove(rt, work)?;
    if left.as_str() != wanted {
        println!(rt; "{way}: left {left:?}")?;
    }
    Ok(left.as_str() == wanted)
}

/// What came of the job that runs this way, where the machine has it.
fn told_by(rt: &HostRuntime, work: &str, way: &str, job: &Job) -> Result<Option<String>, Fail> {
    let Some(mut runner) = by_way(rt, work, way)? else {
        return Ok(None);
    };
    let text = told(rt, &mut runner, work, job);
    drop(runner);
    let text = text?;
    remove(rt, work)?;
    Ok(Some(text))
}

/// What it leaves running writes on as long as it runs: into this folder, where files are not kept away, and else nowhere.
#[test]
fn nothing_is_left_running(rt: HostRuntime) -> Result<(), Fail> {
    let here = env::current_dir(&rt)?;
    let script = format!(in rt.alloc();
        "setsid sh -c 'for i in $(seq 400); do date +%N > {}/apart_rest; \
        sleep 0.02; done' 2> /dev/null & sleep 0.2; echo > c",
        here.as_str()
    )?;
    for way in [APART, SPLIT] {
        assert!(rt; leaves(&rt, "work_rest", way, script.as_str(), "\n")?);
        thread::sleep(&rt, Duration::from_millis(200));
        if fs::exists(&rt, "apart_rest")? {
            let first = fs::read_to_string(&rt, "apart_rest")?;
            thread::sleep(&rt, Duration::from_millis(200));
            assert!(rt; fs::read_to_string(&rt, "apart_rest")? == first);
            fs::remove_file(&rt, "apart_rest")?;
            assert!(rt; way == SPLIT);
        }
    }
    Ok(())
}

/// It sees no socket, and whoever listens here is not reached, as far as there is a shell that connects.
#[test]
fn the_network_is_kept_away(rt: HostRuntime) -> Result<(), Fail> {
    let listener = TcpListener::bind(&rt, "127.0.0.1:0")?;
    let port = listener.local_addr()?.port();
    let script = format!(in rt.alloc();
        "cat /proc/net/tcp | wc -l > c; [ -x /bin/bash ] && \
        /bin/bash -c '< /dev/tcp/127.0.0.1/{port}' 2> /dev/null && echo reached >> c; exit 0"
    )?;
    assert!(rt; leaves(&rt, "work_net", APART, script.as_str(), "1\n")?);
    assert!(rt; leaves(&rt, "work_net", SPLIT, script.as_str(), "1\n")?);
    drop(listener);
    Ok(())
}

/// Its own folder is all that it sees of WORK; the system can be read, and folders of its own be written.
#[test]
fn files_are_kept_away(rt: HostRuntime) -> Result<(), Fail> {
    let Some(mut runner) = by_way(&rt, "work_wall", APART)? else {
        return Ok(());
    };
    let made = fs::create_dir(&rt, "work_wall/other");
    let script = "ls -A .. | wc -l > c; for x in .. /etc /home /run /usr; do \
        touch $x/apart_x 2> /dev/null && echo $x >> c; done; ls -A /root | wc -l >> c; \
        printf x > /tmp/apart_x; cat /tmp/apart_x >> c; stat -c %a . >> c";
    let left = left_by(&rt, &mut runner, "work_wall", script);
    drop(runner);
    let left = left?;
    made?;
    assert!(rt; left.as_str() == "1\n0\nx700\n");
    assert!(rt; !fs::exists(&rt, "/tmp/apart_x")?);
    fs::remove_dir(&rt, "work_wall/other")?;
    remove(&rt, "work_wall")
}

/// Not one variable more, and not one less, also where a shell would drop it or add another.
#[test]
fn it_has_its_own_variables_alone(rt: HostRuntime) -> Result<(), Fail> {
    for (variables, wanted) in [
        ("env=A.B=c d|env=-i=1", "0 c=A.B=c d,-i=1,"),
        ("env=PWD=/x|env=A=", "0 c=PWD=/x,A=,"),
        ("env=LD_PRELOAD=./none", "0 c=LD_PRELOAD=./none,"),
    ] {
        for way in [APART, SPLIT] {
            let job = env_job(&rt, variables)?;
            let text = told_by(&rt, "work_env", way, &job);
            drop(job);
            if let Some(text) = text? {
                assert!(rt; text.as_str() == wanted);
            }
        }
    }
    Ok(())
}

/// The job of a shell with these variables, joined by `|`, that tells what it was given.
fn env_job(rt: &HostRuntime, variables: &str) -> Result<Job, Fail> {
    let script = "/usr/bin/tr '\\000' , < /proc/$$/environ > c 2> /dev/null";
    let mut words = Words::new(rt.alloc());
    for word in variables.split('|') {
        words.push(Content::of(rt.alloc(), word.as_bytes())?)?;
    }
    for word in ["--", "/bin/sh", "-c", script] {
        words.push(Content::of(rt.alloc(), word.as_bytes())?)?;
    }
    let command = captured(rt, &words, "");
    drop(words);
    let rows = JobRows::new(rt.alloc());
    Ok(Job::new(rt.alloc(), command?, rows)?)
}

/// Its status, 128 more than the signal that ended it, and none where there is no such program. The way to WORK may have a link.
#[test]
fn it_ends_as_it_does_by_itself(rt: HostRuntime) -> Result<(), Fail> {
    fs::create_dir(&rt, "apart_real")?;
    symlink(&rt, "apart_real", "apart_link")?;
    for way in [APART, SPLIT] {
        for (program, script, wanted) in [
            ("/bin/sh", "exit 7", "7 a/ a/b=old"),
            ("/bin/sh", "kill -9 $$", "137 a/ a/b=old"),
            ("/bin/sh", "ln -s /etc c", "the run failed, 1"),
            ("/bin/no-such-program", "", "the run failed, 1"),
        ] {
            let job = job(&rt, program, "a", script)?;
            let text = told_by(&rt, "apart_link/work_ends", way, &job);
            drop(job);
            if let Some(text) = text? {
                assert!(rt; text.as_str() == wanted);
            }
        }
    }
    fs::remove_file(&rt, "apart_link")?;
    fs::remove_dir(&rt, "apart_real")?;
    Ok(())
}

/// What comes of that program, where its folder is shown.
fn ran_shown(rt: &HostRuntime, here: &str) -> Result<String, Fail> {
    let program = format!(in rt.alloc(); "{here}/a=sh")?;
    let job = job(rt, program.as_str(), "", "printf x > c");
    drop(program);
    let job = job?;
    let text = told_shown(rt, here, &job);
    drop(job);
    text
}

fn told_shown(rt: &HostRuntime, here: &str, job: &Job) -> Result<String, Fail> {
    let mut runner = apart_in(rt, "work_shown", here)?;
    let text = told(rt, &mut runner, "work_shown", job);
    drop(runner);
    text
}

/// A program in a folder that is shown, with a sign in its name that stands in variables, too.
#[test]
fn what_is_shown_is_run(rt: HostRuntime) -> Result<(), Fail> {
    let here = fs::canonicalize(&rt, ".")?;
    fs::copy(&rt, "/bin/sh", "a=sh")?;
    let text = ran_shown(&rt, here.as_str());
    drop(here);
    assert!(rt; text?.as_str() == "0 a/ a/b=old c=x");
    remove(&rt, "work_shown")?;
    fs::remove_file(&rt, "a=sh")?;
    Ok(())
}

/// A file of one byte more than may be.
#[test]
fn a_file_has_its_limit(rt: HostRuntime) -> Result<(), Fail> {
    if !fs::exists(&rt, "/usr/bin/prlimit")? {
        println!(rt; "left out, since this machine has no prlimit")?;
        return Ok(());
    }
    let script = "truncate -s 134217729 d 2> /dev/null; echo $? > c; rm -f d";
    assert!(rt; leaves(&rt, "work_size", APART, script, "153\n")?);
    assert!(rt; leaves(&rt, "work_size", SPLIT, script, "153\n")?);
    Ok(())
}
