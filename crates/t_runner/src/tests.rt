// What no contract says: what becomes of programs that are started, and of the folders that they leave.
use child_runner::{ChildRunner, MAX_BESIDE};
use cmd_capture::{Command, Job, JobRow, JobRows, Outcome, RunError, Runner, Words, capture};
use std::alloc::AllocError;
use std::fs::{self, File, Permissions};
use std::os::unix::fs::{MetadataExt, PermissionsExt, chown, symlink};
use std::test::Fail;
use std::time::{Duration, Instant};
use std::{env, io, thread};
use vol_tree::{Content, Node, Path};

pub(crate) fn content(rt: &HostRuntime, text: &str) -> Result<Content, AllocError> {
    Content::of(rt.alloc(), text.as_bytes())
}

/// The words that run the script as the shell `program`, with one variable.
pub(crate) fn words(rt: &HostRuntime, program: &str, script: &str) -> Result<Words, AllocError> {
    let mut words = Words::new(rt.alloc());
    for word in [
        "env=PATH=/usr/bin:/bin",
        "--",
        program,
        "-c",
        script,
        "name",
        "two words",
    ] {
        words.push(content(rt, word)?)?;
    }
    Ok(words)
}

/// The command of these words in the folder `cwd`.
pub(crate) fn captured(rt: &HostRuntime, words: &Words, cwd: &str) -> Result<Command, Fail> {
    let cwd = Path::read(rt.alloc(), cwd.as_bytes())?;
    let captured = capture(rt.alloc(), words, &cwd);
    drop(cwd);
    Ok(captured?)
}

fn push_row(rt: &HostRuntime, rows: &mut JobRows, path: &str, node: Node) -> Result<(), Fail> {
    let path = Path::read(rt.alloc(), path.as_bytes())?;
    rows.push(JobRow { path, node })?;
    Ok(())
}

/// A folder `a` and a file `a/b`.
fn rows(rt: &HostRuntime) -> Result<JobRows, Fail> {
    let mut rows = JobRows::new(rt.alloc());
    push_row(rt, &mut rows, "a", Node::Folder)?;
    push_row(rt, &mut rows, "a/b", Node::file(content(rt, "old")?))?;
    Ok(rows)
}

pub(crate) fn job(rt: &HostRuntime, program: &str, cwd: &str, script: &str) -> Result<Job, Fail> {
    let words = words(rt, program, script)?;
    let command = captured(rt, &words, cwd);
    drop(words);
    let command = command?;
    let rows = rows(rt)?;
    Ok(Job::new(rt.alloc(), command, rows)?)
}

/// The job of a shell that runs the script on these rows.
pub(crate) fn job_on(rt: &HostRuntime, script: &str, rows: JobRows) -> Result<Job, Fail> {
    let words = words(rt, "/bin/sh", script)?;
    let command = captured(rt, &words, "");
    drop(words);
    Ok(Job::new(rt.alloc(), command?, rows)?)
}

/// The status and the rows, folders with `/` behind them and files with their contents,
/// behind `*` where they may be run, and else behind `=`. What is no text of UTF-8 is shown as such a text.
fn shown(rt: &HostRuntime, outcome: &Outcome) -> Result<String, Fail> {
    let mut text = format!(in rt.alloc(); "{}", outcome.status)?;
    for row in outcome.rows.as_slice() {
        text.push(' ')?;
        text.push_str(&String::from_utf8_lossy(rt.alloc(), row.path.bytes())?)?;
        match &row.node {
            Node::Folder => text.push('/')?,
            Node::File { content, exec } => {
                text.push(if *exec { '*' } else { '=' })?;
                text.push_str(str::from_utf8(content.bytes())?)?;
            }
        }
    }
    Ok(text)
}

/// How many entries the folder has.
fn count(rt: &HostRuntime, folder: &str) -> Result<usize, Fail> {
    Ok(fs::read_dir(rt, folder)?.count())
}

/// What came of the job in `work`, with the count of a fault.
pub(crate) fn told(
    rt: &HostRuntime,
    runner: &mut ChildRunner<HostRuntime>,
    work: &str,
    job: &Job,
) -> Result<String, Fail> {
    match runner.run(work.as_bytes(), job) {
        Ok(outcome) => {
            let text = shown(rt, &outcome);
            drop(outcome);
            text
        }
        Err(error) => Ok(format!(in rt.alloc(); "{error}, {}", runner.faults())?),
    }
}

/// What the job leaves in `work`, by a client's runner of its own.
pub(crate) fn outcome_of(rt: &HostRuntime, work: &str, job: &Job) -> Result<Outcome, RunError> {
    let mut runner = ChildRunner::at_client(rt, "client");
    let outcome = runner.run(work.as_bytes(), job);
    drop(runner);
    outcome
}

/// What came of the job in `work`, by a client's runner of its own.
fn told_once(rt: &HostRuntime, work: &str, job: &Job) -> Result<String, Fail> {
    let mut runner = ChildRunner::at_client(rt, "client");
    let text = told(rt, &mut runner, work, job);
    drop(runner);
    text
}

/// What came of two jobs in `work`, by one runner of a client.
fn told_both(
    rt: &HostRuntime,
    work: &str,
    first: &Job,
    second: &Job,
) -> Result<(String, String), Fail> {
    let mut runner = ChildRunner::at_client(rt, "client");
    match told(rt, &mut runner, work, first) {
        Ok(first) => {
            let second = told(rt, &mut runner, work, second);
            drop(runner);
            Ok((first, second?))
        }
        Err(fail) => {
            drop(runner);
            Err(fail)
        }
    }
}

/// Runs the job in `work`, where it leaves nothing, and shows what came of it. At a surrogate it may run `longest`.
pub(crate) fn ran_job(
    rt: &HostRuntime,
    work: &str,
    job: &Job,
    longest: Option<Duration>,
) -> Result<String, Fail> {
    let mut runner = match longest {
        Some(longest) => ChildRunner::at_surrogate(rt, "surrogate", longest),
        None => ChildRunner::at_client(rt, "client"),
    };
    let text = told(rt, &mut runner, work, job);
    drop(runner);
    let text = text?;
    remove_work(rt, work)?;
    Ok(text)
}

/// Whether the folder soon has so many entries: a removal may go on beside, on a machine that has other work.
fn has_soon(rt: &HostRuntime, folder: &str, entries: usize) -> Result<bool, Fail> {
    for _ in 0..200 {
        if count(rt, folder)? == entries {
            return Ok(true);
        }
        thread::sleep(rt, Duration::from_millis(100));
    }
    Ok(false)
}

/// Removes a WORK in which nothing is left soon.
pub(crate) fn remove_work(rt: &HostRuntime, work: &str) -> Result<(), Fail> {
    let _is_empty = has_soon(rt, work, 0)?;
    fs::remove_dir(rt, work)?;
    Ok(())
}

/// Runs the script in the shell `program`, in the folder `cwd` of what `work` has.
fn ran_in(
    rt: &HostRuntime,
    work: &str,
    program: &str,
    cwd: &str,
    script: &str,
) -> Result<String, Fail> {
    let job = job(rt, program, cwd, script)?;
    let text = ran_job(rt, work, &job, None);
    drop(job);
    text
}

/// Runs the script in the shell.
pub(crate) fn ran(rt: &HostRuntime, work: &str, script: &str) -> Result<String, Fail> {
    ran_in(rt, work, "/bin/sh", "", script)
}

/// Runs the script in the shell `program` at a surrogate, where it may run two seconds.
fn ran_far(rt: &HostRuntime, work: &str, program: &str, script: &str) -> Result<String, Fail> {
    let job = job(rt, program, "", script)?;
    let text = ran_job(rt, work, &job, Some(Duration::from_secs(2)));
    drop(job);
    text
}

#[test]
fn the_shell_makes_a_file(rt: HostRuntime) -> Result<(), Fail> {
    let text = ran(&rt, "work_made", "printf new > c; exit 3")?;
    assert!(rt; text.as_str() == "3 a/ a/b=old c=new");
    Ok(())
}

#[test]
fn a_child_writes_removes_and_makes_folders(rt: HostRuntime) -> Result<(), Fail> {
    let script = "rm a/b && mkdir a/b && printf 1 > a/b/c && mkdir -p a.d/e && printf 2 > a/z";
    let text = ran(&rt, "work_changed", script)?;
    assert!(rt; text.as_str() == "0 a/ a/b/ a/b/c=1 a/z=2 a.d/ a.d/e/");
    Ok(())
}

/// Its input is the empty device, whatever this process reads.
#[test]
fn it_has_its_words_and_variables_in_its_folder(rt: HostRuntime) -> Result<(), Fail> {
    let script = "printf '%s,' $0 \"$@\" > w; readlink /proc/$$/fd/0 | tr '\\n' , > v; \
        printf '%s,' $PATH \"$HOME\" $(cat) >> v; echo x";
    let text = ran_in(&rt, "work_words", "/bin/sh", "a", script)?;
    let wanted = "0 a/ a/b=old a/v=/dev/null,/usr/bin:/bin,, a/w=name,two words,";
    assert!(rt; text.as_str() == wanted);
    Ok(())
}

#[test]
fn what_is_no_outcome_is_a_fault(rt: HostRuntime) -> Result<(), Fail> {
    for script in [
        "ln -s /etc c",
        "ln -s b a/c",
        "mkfifo c",
        "kill -9 $$",
        "printf 1 > $(printf 'c\\377')",
        "p=a; for i in 1 2 3 4 5 6 7 8; do p=$p/a/a/a/a; done; mkdir -p $p",
        "truncate -s 33554430 c",
    ] {
        let text = ran(&rt, "work_fault", script)?;
        assert!(rt; text.as_str() == "the run failed, 1");
    }
    Ok(())
}

#[test]
fn what_does_not_exist_is_not_started(rt: HostRuntime) -> Result<(), Fail> {
    let text = ran_in(&rt, "work_missing", "/bin/no-such-program", "", "")?;
    assert!(rt; text.as_str() == "the run failed, 1");
    Ok(())
}

/// Whether the process whose number stands in the file has ended; its parent may still have to ask for it. The file is removed.
fn has_ended(rt: &HostRuntime, file: &str) -> Result<bool, Fail> {
    let number = fs::read_to_string(rt, file)?;
    fs::remove_file(rt, file)?;
    let status = format!(in rt.alloc(); "/proc/{}/status", number.trim())?;
    for _ in 0..100 {
        match fs::read_to_string(rt, status.as_str()) {
            Ok(text) if !text.contains("State:\tZ") => thread::sleep(rt, Duration::from_millis(20)),
            _ => return Ok(true),
        }
    }
    Ok(false)
}

#[test]
fn what_runs_too_long_is_ended_with_its_group(rt: HostRuntime) -> Result<(), Fail> {
    let start = Instant::now(&rt)?;
    let script = "echo $$ > ../../long_own; sleep 40 & echo $! > ../../long_child; exec sleep 40";
    let text = ran_far(&rt, "work_long", "/bin/sh", script)?;
    assert!(rt; text.as_str() == "the run failed, 1");
    assert!(rt; has_ended(&rt, "long_own")?);
    assert!(rt; has_ended(&rt, "long_child")?);
    assert!(rt; start.elapsed(&rt)? < Duration::from_secs(30));
    Ok(())
}

#[test]
fn what_is_left_of_a_group_ends_at_a_surrogate(rt: HostRuntime) -> Result<(), Fail> {
    let script = "sleep 40 & echo $! > ../../group_child; printf '%s,' $0 \"$@\" > c; exit 3";
    let text = ran_far(&rt, "work_group", "/bin/sh", script)?;
    assert!(rt; text.as_str() == "3 a/ a/b=old c=name,two words,");
    assert!(rt; has_ended(&rt, "group_child")?);
    let text = ran_far(&rt, "work_group", "/bin/sh", "kill -9 $$")?;
    assert!(rt; text.as_str() == "the run failed, 1");
    Ok(())
}

/// A file of no form that the system runs, and one that no one may run.
#[test]
fn what_cannot_be_started_is_not_run_at_a_surrogate(rt: HostRuntime) -> Result<(), Fail> {
    fs::write(&rt, "no_form", "exit 0\n")?;
    fs::set_permissions(&rt, "no_form", Permissions::from_mode(0o755))?;
    let here = env::current_dir(&rt)?;
    let no_form = format!(in rt.alloc(); "{}/no_form", here.as_str())?;
    for program in [no_form.as_str(), "/etc/passwd", "/bin/no-such-program"] {
        let text = ran_far(&rt, "work_form", program, "")?;
        assert!(rt; text.as_str() == "the run failed, 1");
    }
    fs::remove_file(&rt, "no_form")?;
    Ok(())
}

/// What it prints is more than a pipe holds, and what it leaves running holds the pipe open.
#[test]
fn what_prints_much_and_leaves_a_program_is_not_waited_for(rt: HostRuntime) -> Result<(), Fail> {
    let start = Instant::now(&rt)?;
    let text = ran(
        &rt,
        "work_print",
        "sleep 9 & printf '%70000s\\n' .; printf 1 > c",
    )?;
    assert!(rt; text.as_str() == "0 a/ a/b=old c=1");
    assert!(rt; start.elapsed(&rt)? < Duration::from_secs(8));
    Ok(())
}

#[test]
fn inputs_have_one_time_and_the_folder_is_its_owner_s(rt: HostRuntime) -> Result<(), Fail> {
    let script = "t=$(stat -c %Y . a a/b); printf '%s,' $t $(stat -c %a .) > a/b";
    let text = ran(&rt, "work_times", script)?;
    assert!(rt; text.as_str() == "0 a/ a/b=946684800,946684800,946684800,700,");
    Ok(())
}

/// Files that their owner may not write, or not read, are read all the same, and 100,000 bytes are all read.
#[test]
fn files_are_read_whole(rt: HostRuntime) -> Result<(), Fail> {
    let script = "chmod 444 a/b; : > n; chmod 000 n; printf '%100000s' . > s";
    let text = ran(&rt, "work_whole", script)?;
    assert!(rt; text.starts_with("0 a/ a/b=old n= s= "));
    assert!(rt; text.len() == 19 + 100_000 - 1);
    Ok(())
}

/// A file without the folder that it stands in.
#[test]
fn what_cannot_be_written_is_a_fault(rt: HostRuntime) -> Result<(), Fail> {
    let mut rows = JobRows::new(rt.alloc());
    push_row(&rt, &mut rows, "a/b", Node::file(content(&rt, "old")?))?;
    let job = job_on(&rt, "exit 0", rows)?;
    let text = ran_job(&rt, "work_odd", &job, None);
    drop(job);
    assert!(rt; text?.as_str() == "the run failed, 1");
    Ok(())
}

/// Runs a job with a file of 1,000,000 bytes at a surrogate.
fn ran_large(rt: &HostRuntime, longest: Duration) -> Result<String, Fail> {
    let bytes = vec![in rt.alloc(); b'x'; 1_000_000]?;
    let content = Content::of(rt.alloc(), bytes.as_slice())?;
    drop(bytes);
    let mut rows = JobRows::new(rt.alloc());
    push_row(rt, &mut rows, "a", Node::file(content))?;
    let job = job_on(rt, "rm a; printf 1 > c", rows)?;
    let text = ran_job(rt, "work_large", &job, Some(longest));
    drop(job);
    text
}

/// Such a file takes a second of a run's time.
#[test]
fn a_large_job_has_less_time(rt: HostRuntime) -> Result<(), Fail> {
    let text = ran_large(&rt, Duration::from_secs(1))?;
    assert!(rt; text.as_str() == "the run failed, 1");
    let text = ran_large(&rt, Duration::from_secs(41))?;
    assert!(rt; text.as_str() == "0 c=1");
    Ok(())
}

/// Puts a pipe and a file in each other's place, some ten thousand times a second, and ends with the folder, or after two seconds.
/// (Where the machine has no such program, nothing is put there.)
const SWAPS: &str = "[ -p ../swap_p ] || mkfifo ../swap_p; rm -f ../swap_on; : > ../swap_f; : > z; \
    perl -e '$end = time + 2; open F, q(>../swap_on); while (time < $end) { \
    for (q(../swap_p), q(../swap_f)) { \
    unlink q(../swap_t); link $_, q(../swap_t); rename q(../swap_t), q(z) or exit } }' 2> ../swap_e & \
    for i in $(seq 50); do [ -e ../swap_on ] && break; sleep 0.02; done";

/// What it leaves running puts a pipe in a file's place while the folder is read, and nobody writes to it.
#[test]
fn a_pipe_in_a_file_s_place_is_not_waited_for(rt: HostRuntime) -> Result<(), Fail> {
    let start = Instant::now(&rt)?;
    for _ in 0..8 {
        let job = job(&rt, "/bin/sh", "", SWAPS)?;
        let text = told_once(&rt, "work_swap", &job);
        drop(job);
        drop(text?);
    }
    assert!(rt; start.elapsed(&rt)? < Duration::from_secs(40));
    thread::sleep(&rt, Duration::from_secs(2));
    for file in ["swap_p", "swap_f", "swap_e", "swap_on", "swap_t"] {
        let place = format!(in rt.alloc(); "work_swap/{file}")?;
        let _removed = fs::remove_file(&rt, place.as_str());
    }
    // what it left running may have put something there at each try of a removal
    assert!(rt; is_cleared_to(&rt, "work_swap", 0)?);
    fs::remove_dir(&rt, "work_swap")?;
    Ok(())
}

/// Writes into its folder by both names of it, a second and a half long.
const LOOPS: &str =
    "(for i in $(seq 15); do echo x > late; echo x > $PWD/late; sleep 0.1; done) 2> ../late & echo a > c";

/// What comes of two scripts of the shell, by one runner of a client.
fn ran_both(
    rt: &HostRuntime,
    work: &str,
    first: &str,
    second: &str,
) -> Result<(String, String), Fail> {
    let first = job(rt, "/bin/sh", "", first)?;
    let second = match job(rt, "/bin/sh", "", second) {
        Ok(second) => second,
        Err(fail) => {
            drop(first);
            return Err(fail);
        }
    };
    let texts = told_both(rt, work, &first, &second);
    drop(first);
    drop(second);
    texts
}

/// What one command left running writes on, and no other command finds it.
#[test]
fn a_loop_left_running_meets_no_other_job(rt: HostRuntime) -> Result<(), Fail> {
    let (first, second) = ran_both(&rt, "work_late", LOOPS, "sleep 0.3; printf b > b")?;
    let are_well = first.starts_with("0 a/ a/b=old c=a\n") && second.as_str() == "0 a/ a/b=old b=b";
    drop(first);
    drop(second);
    assert!(rt; are_well);
    thread::sleep(&rt, Duration::from_millis(1500));
    fs::remove_file(&rt, "work_late/late")?;
    assert!(rt; is_cleared_to(&rt, "work_late", 0)?);
    fs::remove_dir(&rt, "work_late")?;
    Ok(())
}

/// A folder that refuses its removal, and a link to a folder elsewhere, which keeps its rights and what it holds.
#[test]
fn a_link_is_removed_as_a_link(rt: HostRuntime) -> Result<(), Fail> {
    fs::create_dir(&rt, "linked_to")?;
    fs::write(&rt, "linked_to/kept", "")?;
    fs::set_permissions(&rt, "linked_to", Permissions::from_mode(0o750))?;
    let script =
        "ln -s ../../linked_to l; mkdir d; ln -s ../../../linked_to d/l; : > d/f; chmod 500 d";
    let text = ran(&rt, "work_linked", script)?;
    assert!(rt; text.as_str() == "the run failed, 1");
    assert!(rt; fs::metadata(&rt, "linked_to")?.permissions().mode() & 0o777 == 0o750);
    fs::remove_file(&rt, "linked_to/kept")?;
    fs::remove_dir(&rt, "linked_to")?;
    Ok(())
}

/// Whether or not it may be listed, and the run's own folder, too.
#[test]
fn a_folder_without_rights_is_read_and_removed(rt: HostRuntime) -> Result<(), Fail> {
    for script in [
        "mkdir -p a/c/d; chmod 000 a/c/d a/c a",
        "mkdir -p a/c/d; chmod 100 a/c; chmod 600 a; chmod 000 .",
    ] {
        let text = ran(&rt, "work_rights", script)?;
        assert!(rt; text.as_str() == "0 a/ a/b=old a/c/ a/c/d/");
    }
    Ok(())
}

/// The library walks a chain of folders from its top again for each of them. A program of the system does not, and goes on beside
/// where two seconds are too few for it, with what other programs leave of the machine: then the shell removes the rest.
#[test]
fn a_chain_of_3072_folders_is_removed(rt: HostRuntime) -> Result<(), Fail> {
    let script = "p=d; for i in 1 2 3 4 5 6 7 8 9 10; do p=$p/$p; done; \
        mkdir -p x/$p y/$p z/$p; mv x y/$p; mv y z/$p";
    let job = job(&rt, "/bin/sh", "", script)?;
    let text = told_once(&rt, "work_chain", &job);
    drop(job);
    assert!(rt; text?.as_str() == "the run failed, 1");
    let rest = "for i in 1 2 3 4 5; do rm -rf ../../work_chain/left-* && break; done 2>&1";
    let text = ran(&rt, "work_rest", rest)?;
    assert!(rt; text.as_str() == "0 a/ a/b=old");
    remove_work(&rt, "work_chain")
}

/// Nothing that takes names of text alone can name them.
#[test]
fn names_that_are_no_text_are_removed_without_rights(rt: HostRuntime) -> Result<(), Fail> {
    let script = "n=$(printf 'b\\377'); mkdir -p $n/e; : > $n/e/f; chmod 000 $n/e $n";
    drop(ran(&rt, "work_no_text", script)?);
    Ok(())
}

#[test]
fn it_reads_2000_files_and_32_folders(rt: HostRuntime) -> Result<(), Fail> {
    let script = "p=a; for i in 1 2 3 4 5 6 7; do p=$p/a/a/a/a; done; mkdir -p $p/a/a/a; \
        i=0; while [ $i -lt 2000 ]; do : > f$i; i=$((i + 1)); done";
    let text = ran(&rt, "work_many", script)?;
    assert!(rt; text.as_bytes().iter().filter(|b| **b == b'=').count() == 2001);
    assert!(rt; text.as_bytes().iter().filter(|b| **b == b' ').count() == 2001 + 32);
    Ok(())
}

/// How many programs that this one started run or were not asked for; none where the system does not tell.
fn programs_here(rt: &HostRuntime) -> Option<usize> {
    let numbers = fs::read_to_string(rt, "/proc/thread-self/children").ok()?;
    Some(numbers.split_whitespace().count())
}

/// Each is removed behind its answer. What removes is asked for by a later run, so that not more of them gather than may go on.
#[test]
fn removals_that_ended_do_not_gather(rt: HostRuntime) -> Result<(), Fail> {
    let job = name_job(&rt)?;
    let mut runner = ChildRunner::at_client(&rt, "client");
    let gone = goes_on_beside(&rt, &mut runner, &job);
    thread::sleep(&rt, Duration::from_millis(500));
    let _cleared = runner.clear(b"work_gather");
    let left = programs_here(&rt).unwrap_or(0);
    drop(runner);
    drop(job);
    assert!(rt; gone?);
    assert!(rt; left == 0);
    remove_work(&rt, "work_gather")
}

/// Whether the job runs twelve times, never more removals go on beside than may, and all of them end soon.
fn goes_on_beside(
    rt: &HostRuntime,
    runner: &mut ChildRunner<HostRuntime>,
    job: &Job,
) -> Result<bool, Fail> {
    for _ in 0..12 {
        let text = told(rt, runner, "work_gather", job)?;
        if !text.starts_with("0 n=run-") || programs_here(rt).unwrap_or(0) > MAX_BESIDE {
            return Ok(false);
        }
    }
    has_soon(rt, "work_gather", 0)
}

/// The job that tells the name of its folder.
fn name_job(rt: &HostRuntime) -> Result<Job, Fail> {
    job(rt, "/bin/sh", "", "rm -r a; printf ${PWD##*/} > n")
}

/// The name of the folder in which a runner of its own runs that job.
fn name_in(rt: &HostRuntime, work: &str) -> Result<String, Fail> {
    let job = name_job(rt)?;
    let text = told_once(rt, work, &job);
    drop(job);
    let text = text?;
    match text.strip_prefix("0 n=") {
        Some(name) => Ok(String::from_str(rt.alloc(), name)?),
        None => Err(Fail::from("no name")),
    }
}

/// Locks the file, which is made where it is missing.
fn locked(rt: &HostRuntime, place: &str) -> Result<File, Fail> {
    let file = File::options().write(true).create(true).open(rt, place)?;
    match file.try_lock() {
        Ok(()) => Ok(file),
        Err(error) => {
            drop(file);
            Err(Fail::from(io::Error::from(error)))
        }
    }
}

#[test]
fn a_job_has_one_name_unless_it_is_taken(rt: HostRuntime) -> Result<(), Fail> {
    let name = name_in(&rt, "work_name")?;
    assert!(rt; name.len() == 20 && name.starts_with("run-"));
    assert!(rt; name_in(&rt, "work_name")? == name);
    let next = format!(in rt.alloc(); "{name}-1")?;
    let lock = format!(in rt.alloc(); "work_name/{name}.lock")?;
    let held = locked(&rt, lock.as_str())?;
    assert!(rt; name_in(&rt, "work_name")? == next);
    drop(held);
    assert!(rt; name_in(&rt, "work_name")? == name);
    // what a run left that was cut off, and what is no folder, are put aside and removed behind the run
    let folder = format!(in rt.alloc(); "work_name/{name}")?;
    make(&rt, "work_name", name.as_str())?;
    assert!(rt; name_in(&rt, "work_name")? == name);
    fs::write(&rt, folder.as_str(), "")?;
    assert!(rt; name_in(&rt, "work_name")? == name);
    make(&rt, "work_name", name.as_str())?;
    make(&rt, "work_name", next.as_str())?;
    assert!(rt; is_cleared_to(&rt, "work_name", 0)?);
    fs::remove_dir(&rt, "work_name")?;
    Ok(())
}

/// What the command leaves running writes into its folder as soon as that has another name, so that no removal ends.
#[test]
fn a_job_keeps_its_name_where_its_folder_stays(rt: HostRuntime) -> Result<(), Fail> {
    let script = "rm -r a; old=$PWD; printf ${PWD##*/} > n; (while [ -d $old ]; do :; done; i=0; \
        while [ $i -lt 99999 ]; do : > f$i; i=$((i + 1)); done) 2> ../../stays_told & :";
    let job = job(&rt, "/bin/sh", "", script)?;
    let both = told_both(&rt, "work_stays", &job, &job);
    drop(job);
    let (first, second) = both?;
    assert!(rt; first.starts_with("0 n=run-"));
    assert!(rt; first == second);
    assert!(rt; is_cleared_to(&rt, "work_stays", 0)?);
    fs::remove_file(&rt, "stays_told")?;
    fs::remove_dir(&rt, "work_stays")?;
    Ok(())
}

/// Whether runners clear the folder soon but for so many entries.
fn is_cleared_to(rt: &HostRuntime, work: &str, entries: usize) -> Result<bool, Fail> {
    for _ in 0..200 {
        if is_cleared(rt, work) && count(rt, work)? == entries {
            return Ok(true);
        }
        thread::sleep(rt, Duration::from_millis(100));
    }
    Ok(false)
}

/// Then a folder keeps its place, and the next run of its job has the next name.
#[test]
fn folders_that_wait_have_64_names(rt: HostRuntime) -> Result<(), Fail> {
    let name = name_in(&rt, "work_full")?;
    assert!(rt; has_soon(&rt, "work_full", 0)?);
    for number in 0..64 {
        let left = format!(in rt.alloc(); "left-{number}/c")?;
        make(&rt, "work_full", left.as_str())?;
    }
    assert!(rt; name_in(&rt, "work_full")? == name);
    assert!(rt; has_soon(&rt, "work_full", 65)?);
    let next = format!(in rt.alloc(); "{name}-1")?;
    assert!(rt; name_in(&rt, "work_full")? == next);
    assert!(rt; is_cleared_to(&rt, "work_full", 0)?);
    fs::remove_dir(&rt, "work_full")?;
    Ok(())
}

/// Whether a runner clears the folder.
fn is_cleared(rt: &HostRuntime, work: &str) -> bool {
    let mut runner = ChildRunner::at_surrogate(rt, "surrogate", Duration::from_secs(2));
    let cleared = runner.clear(work.as_bytes());
    drop(runner);
    cleared.is_ok()
}

#[test]
fn what_runs_left_is_cleared_and_nothing_else(rt: HostRuntime) -> Result<(), Fail> {
    fs::write(&rt, "work_file", "")?;
    assert!(rt; !is_cleared(&rt, "work_file"));
    fs::remove_file(&rt, "work_file")?;
    assert!(rt; is_cleared(&rt, "work_left"));
    for name in [
        "run-0123456789abcdef/c",
        "run-0123456789abcdef-12",
        "run-fedcba9876543210-1/c",
    ] {
        make(&rt, "work_left", name)?;
    }
    drop(locked(&rt, "work_left/run-0123456789abcdef.lock")?);
    drop(locked(&rt, "work_left/run-0000000000000000-7.lock")?);
    let held = locked(&rt, "work_left/run-fedcba9876543210-1.lock")?;
    let others = [
        "run-0123456789abcdef-01",
        "run-0123456789abcdef-",
        "run-0123456789ABCDEF",
        "run-0123456789abcde",
        "run-4194305-0",
        "other",
    ];
    for name in others {
        make(&rt, "work_left", name)?;
    }
    symlink(&rt, "other", "work_left/run-1111111111111111")?;
    assert!(rt; is_cleared_to(&rt, "work_left", others.len() + 3)?);
    assert!(rt; fs::exists(&rt, "work_left/run-fedcba9876543210-1/c")?);
    drop(held);
    assert!(rt; is_cleared_to(&rt, "work_left", others.len() + 1)?);
    fs::remove_dir_all(&rt, "work_left")?;
    Ok(())
}

/// A removal that goes on holds the lock of its folder, and no other program takes part in it.
#[test]
fn what_waits_for_its_removal_is_cleared_unless_it_is_locked(rt: HostRuntime) -> Result<(), Fail> {
    for name in ["left-0/c", "left-7/c", "left-64", "left-", "left-x"] {
        make(&rt, "work_waits", name)?;
    }
    drop(locked(&rt, "work_waits/left-3.lock")?);
    let held = locked(&rt, "work_waits/left-7.lock")?;
    assert!(rt; is_cleared_to(&rt, "work_waits", 5)?);
    assert!(rt; fs::exists(&rt, "work_waits/left-7/c")?);
    drop(held);
    assert!(rt; is_cleared_to(&rt, "work_waits", 3)?);
    fs::remove_dir_all(&rt, "work_waits")?;
    Ok(())
}

/// What comes of a short job in this WORK.
fn used(rt: &HostRuntime, work: &str) -> Result<String, Fail> {
    let job = job(rt, "/bin/sh", "", "rm -r a; printf 1 > c")?;
    let text = told_once(rt, work, &job);
    drop(job);
    text
}

/// Whether nobody runs anything in this WORK or clears it.
fn is_refused(rt: &HostRuntime, work: &str) -> Result<bool, Fail> {
    Ok(used(rt, work)?.as_str() == "the run failed, 1" && !is_cleared(rt, work))
}

/// Makes a folder with these rights.
fn make_with(rt: &HostRuntime, place: &str, mode: u32) -> Result<(), Fail> {
    fs::create_dir(rt, place)?;
    fs::set_permissions(rt, place, Permissions::from_mode(mode))?;
    Ok(())
}

#[test]
fn a_folder_that_others_may_write_is_no_work(rt: HostRuntime) -> Result<(), Fail> {
    for mode in [0o777, 0o757, 0o775] {
        make_with(&rt, "work_shared", mode)?;
        assert!(rt; is_refused(&rt, "work_shared")?);
        fs::remove_dir(&rt, "work_shared")?;
    }
    for mode in [0o1777, 0o1775, 0o755, 0o700] {
        make_with(&rt, "work_shared", mode)?;
        assert!(rt; used(&rt, "work_shared")?.as_str() == "0 c=1");
        remove_work(&rt, "work_shared")?;
    }
    Ok(())
}

#[test]
fn a_link_is_no_work(rt: HostRuntime) -> Result<(), Fail> {
    make_with(&rt, "work_behind", 0o755)?;
    for place in ["work_behind", "work_nowhere"] {
        symlink(&rt, place, "work_by_link")?;
        assert!(rt; is_refused(&rt, "work_by_link")?);
        assert!(rt; is_refused(&rt, "work_by_link/")?);
        fs::remove_file(&rt, "work_by_link")?;
    }
    assert!(rt; used(&rt, "work_behind/")?.as_str() == "0 c=1");
    remove_work(&rt, "work_behind")?;
    Ok(())
}

/// Gives what stands there to another user, where that may be done.
fn is_given(rt: &HostRuntime, place: &str) -> Result<bool, Fail> {
    let other = fs::metadata(rt, place)?.uid().wrapping_add(1);
    match chown(rt, place, Some(other), None) {
        Ok(()) => Ok(true),
        Err(error) => {
            println!(rt; "left out: what belongs to another user: {error}")?;
            drop(error);
            Ok(false)
        }
    }
}

#[test]
fn another_user_s_folder_is_no_work(rt: HostRuntime) -> Result<(), Fail> {
    for mode in [0o755, 0o1777] {
        make_with(&rt, "work_foreign", mode)?;
        if is_given(&rt, "work_foreign")? {
            assert!(rt; is_refused(&rt, "work_foreign")?);
        }
        fs::remove_dir(&rt, "work_foreign")?;
    }
    Ok(())
}

/// Its owner could put another file in its place while it is locked.
#[test]
fn another_user_s_lock_is_passed_over(rt: HostRuntime) -> Result<(), Fail> {
    let name = name_in(&rt, "work_locks")?;
    let lock = format!(in rt.alloc(); "work_locks/{name}.lock")?;
    drop(locked(&rt, lock.as_str())?);
    if is_given(&rt, lock.as_str())? {
        let next = format!(in rt.alloc(); "{name}-1")?;
        assert!(rt; name_in(&rt, "work_locks")? == next);
        assert!(rt; is_cleared_to(&rt, "work_locks", 1)?);
        assert!(rt; fs::exists(&rt, lock.as_str())?);
    }
    fs::remove_file(&rt, lock.as_str())?;
    remove_work(&rt, "work_locks")?;
    Ok(())
}

/// Makes the folder in `work`.
fn make(rt: &HostRuntime, work: &str, name: &str) -> Result<(), Fail> {
    let folder = format!(in rt.alloc(); "{work}/{name}")?;
    fs::create_dir_all(rt, folder.as_str())?;
    Ok(())
}
