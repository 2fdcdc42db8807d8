//! The right to run a file: it goes from a run to the next, it is its owner's, and a link has none.

use crate::tests::{job, job_on, outcome_of, ran, ran_job};
use cmd_capture::{Job, Outcome};
use std::rt::HostRuntime;
use std::test::Fail;
use std::time::Duration;
use work_area::rows_of;

/// A script that makes a file.
const SCRIPT: &str = "printf '#!/bin/sh\\nprintf ran > c\\n' > build.sh";

/// A program, by the compiler where the machine has one, and else a script.
const BUILT: &str = "if [ -x /usr/bin/cc ]; then printf 'int main(void) { return 7; }' > m.c && \
    /usr/bin/cc -o app m.c && rm m.c; else printf '#!/bin/sh\\nexit 7\\n' > app && chmod +x app; fi";

/// What the script leaves.
fn left_by(rt: &HostRuntime, work: &str, script: &str) -> Result<Outcome, Fail> {
    let job = job(rt, "/bin/sh", "", script)?;
    let outcome = outcome_of(rt, work, &job);
    drop(job);
    Ok(outcome?)
}

/// The job that runs the script on what was left.
fn next_job(rt: &HostRuntime, left: &Outcome, script: &str) -> Result<Job, Fail> {
    job_on(rt, script, rows_of(rt.alloc(), &left.rows)?)
}

/// Runs the first script, and the second one on what that left. Shows what came of the second.
fn ran_twice(
    rt: &HostRuntime,
    work: &str,
    scripts: (&str, &str),
    longest: Option<Duration>,
) -> Result<String, Fail> {
    let left = left_by(rt, work, scripts.0)?;
    let job = next_job(rt, &left, scripts.1);
    drop(left);
    let job = job?;
    let text = ran_job(rt, work, &job, longest);
    drop(job);
    text
}

/// At a client.
fn ran_then(rt: &HostRuntime, work: &str, first: &str, then: &str) -> Result<String, Fail> {
    ran_twice(rt, work, (first, then), None)
}

#[test]
fn a_script_is_run_by_its_own_name(rt: HostRuntime) -> Result<(), Fail> {
    let first = format!(in rt.alloc(); "{SCRIPT} && chmod +x build.sh")?;
    let then = "./build.sh && rm build.sh";
    let near = ran_then(&rt, "work_script", first.as_str(), then)?;
    assert!(rt; near.as_str() == "0 a/ a/b=old c=ran");
    let longest = Some(Duration::from_secs(20));
    let far = ran_twice(&rt, "work_script", (first.as_str(), then), longest)?;
    assert!(rt; far.as_str() == "0 a/ a/b=old c=ran");
    Ok(())
}

#[test]
fn a_script_that_was_not_let_be_run_is_not_run(rt: HostRuntime) -> Result<(), Fail> {
    let then = "./build.sh 2> c; s=$?; rm c build.sh; exit $s";
    let text = ran_then(&rt, "work_no_script", SCRIPT, then)?;
    assert!(rt; text.as_str() == "126 a/ a/b=old");
    Ok(())
}

#[test]
fn what_was_built_runs(rt: HostRuntime) -> Result<(), Fail> {
    let text = ran_then(&rt, "work_app", BUILT, "./app; s=$?; rm app; exit $s")?;
    assert!(rt; text.as_str() == "7 a/ a/b=old");
    Ok(())
}

/// A file is written with its owner's right to run it and with no one else's, whoever had it in the run before, and it has the time of all
/// inputs.
#[test]
fn the_right_is_the_owner_s_alone(rt: HostRuntime) -> Result<(), Fail> {
    let then = "case $(stat -c %A,%Y f) in -rwx??-??-,946684800) rm f;; esac; printf x > g";
    let text = ran_then(&rt, "work_owner", "printf x > f; chmod 777 f", then)?;
    assert!(rt; text.as_str() == "0 a/ a/b=old g=x");
    Ok(())
}

#[test]
fn a_file_that_is_written_keeps_its_right(rt: HostRuntime) -> Result<(), Fail> {
    let first = "printf x > f; printf x > g; chmod +x f g";
    let text = ran_then(&rt, "work_keeps", first, "printf y > f; chmod -x g")?;
    assert!(rt; text.as_str() == "0 a/ a/b=old f*y g=x");
    Ok(())
}

/// Also where nobody may read the file.
#[test]
fn another_s_right_is_not_the_owner_s(rt: HostRuntime) -> Result<(), Fail> {
    let script = "rm -r a; : > n; chmod 011 n; : > o; chmod 100 o";
    let text = ran(&rt, "work_others", script)?;
    assert!(rt; text.as_str() == "0 n= o*");
    Ok(())
}

/// A link that is left is a fault, whatever it names; one that was made and removed lets be run what it named, and two names of one
/// file have one right.
#[test]
fn a_link_has_no_right_of_its_own(rt: HostRuntime) -> Result<(), Fail> {
    let link = "rm -r a; printf x > t; ln -s t l; chmod +x l";
    let left = ran(&rt, "work_link", link)?;
    assert!(rt; left.as_str() == "the run failed, 1");
    let removed = format!(in rt.alloc(); "{link}; rm l")?;
    let text = ran(&rt, "work_link", removed.as_str())?;
    assert!(rt; text.as_str() == "0 t*x");
    let text = ran(
        &rt,
        "work_link",
        "rm -r a; printf x > t; ln t s; chmod +x s",
    )?;
    assert!(rt; text.as_str() == "0 s*x t*x");
    Ok(())
}
