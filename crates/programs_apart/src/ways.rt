// How programs are started: by themselves, as the head of a group, or apart from the rest of the machine.
ghost use Rattle.std.specs.Prelude.{◌≡◌, ◌<◌, ◌+◌, ℕ, List, ◌∷◌, [], ◌++◌, map, length, take, IfOk, OnOk, string_bytes, codes};
ghost use Rattle.std.specs.Process.{command_program, command_args};
ghost use Rattle.programs_apart.specs.Starting.{started_program, first_words, inner_words, limits, assigned, rights};
ghost use Rattle.programs_apart.specs.Starting.{place_words, places_words, view_words, folder_words, split_words};

use crate::groups::LEADER;
use cmd_capture::Env;
use folder_reading::{HostTrouble, text_of};
use std::alloc::{AllocError, Global};
use std::process::Command;

/// What starts a program apart from other processes and from the network.
const SPLITTER: &str = "/usr/bin/unshare";

/// What starts a program apart from files, too.
const WALLER: &str = "/usr/bin/bwrap";

/// What each process may have: bytes of a file, processes of an ordinary user, bytes of data, no dump, open files.
const LIMITS: &[&str] = &[
    "/usr/bin/prlimit",
    "--fsize=134217728",
    "--nproc=512",
    "--data=4294967296",
    "--core=0",
    "--nofile=1024",
    "--",
];

/// What sets the variables that follow, and no others.
const SETTER: &[&str] = &["/usr/bin/env", "-i", "--"];

/// The rights that root keeps: without them archives of other users' files cannot be unpacked.
const ROOT_RIGHTS: &[&str] = &[
    "--cap-drop",
    "ALL",
    "--cap-add",
    "CAP_CHOWN",
    "--cap-add",
    "CAP_FOWNER",
    "--cap-add",
    "CAP_FSETID",
    "--cap-add",
    "CAP_DAC_OVERRIDE",
    "--cap-add",
    "CAP_SETUID",
    "--cap-add",
    "CAP_SETGID",
];

/// Another user has no rights, among users of its own.
const USER_RIGHTS: &[&str] = &["--unshare-user", "--disable-userns"];

/// What is kept away, and the system, to be read.
const SYSTEM: &[&str] = &[
    "--unshare-pid",
    "--unshare-net",
    "--unshare-ipc",
    "--unshare-cgroup-try",
    "--die-with-parent",
    "--ro-bind",
    "/",
    "/",
    "--dev",
    "/dev",
    "--proc",
    "/proc",
];

/// The devices, which are made anew.
const DEVICES: &str = "/dev";

/// What is kept away where files are not. The shell is process 1, which feels no signal that it does not wait for; the program is
/// another, and ends by signals as ever.
const ROOT_SPLIT: &[&str] = &[
    "--pid",
    "--net",
    "--ipc",
    "--fork",
    "--kill-child",
    "--mount-proc",
    "--",
    "/bin/sh",
    "-c",
    "\"$@\"; exit $?",
    "-",
    "/usr/bin/setpriv",
    "--bounding-set=-all,+chown,+fowner,+fsetid,+dac_override,+setuid,+setgid",
];

/// The same for another user, among users of its own.
const USER_SPLIT: &[&str] = &[
    "--user",
    "--map-current-user",
    "--pid",
    "--net",
    "--ipc",
    "--fork",
    "--kill-child",
    "--mount-proc",
    "--",
    "/bin/sh",
    "-c",
    "\"$@\"; exit $?",
    "-",
];

/// How a program is started.
#[derive(Drop)]
pub enum Way {
    /// By itself.
    Plain,
    /// As the head of a group of its own, with limits where those can be set.
    Led(bool),
    /// Apart from other processes and from the network.
    Split(Bounds),
    /// Apart from other processes, from the network and from files.
    Apart(Walls),
}

/// Who starts a program, and whether it has limits.
#[derive(Clone, Copy)]
pub struct Bounds {
    /// Whether this is root.
    pub is_root: bool,
    /// Whether limits can be set.
    pub is_limited: bool,
}

/// What a program finds that is kept apart from files. Each place is one without links.
#[derive(Drop)]
pub struct Walls {
    pub bounds: Bounds,
    /// The folder in which runs have their places.
    pub work: String,
    /// The folders of its own, which are empty and may be written.
    pub own: Vec<String>,
    /// The folders that are empty for it.
    pub hidden: Vec<String>,
    /// The folders that it sees, also within those.
    pub shown: Vec<String>,
    /// The files that are empty for it.
    pub masked: Vec<String>,
}

/// What a program finds at a place.
#[derive(Clone, Copy)]
pub(crate) enum Seen {
    /// A folder of its own, which is empty and may be written.
    Own,
    /// An empty folder.
    Hidden,
    /// What stands there, to be read.
    Shown,
    /// An empty file.
    Masked,
    /// What stands there.
    Given,
    /// What was put there before, to be read from now on.
    Sealed,
}

/// What starts the program: itself, or what runs it, with all that stands before the program's own words. It starts in `cwd`, which
/// lies in the run's `folder`. Where words set variables for it, they are these.
pub(crate) fn called(
    alloc: Global,
    way: &Way,
    folder: &str,
    cwd: &str,
    variables: &Env,
    program: &str,
) -> Result<Command, HostTrouble>
    ensures program { IfOk result (λ start. command_program start ≡ started_program way.now program.now) }
    ensures words { IfOk result (λ start. command_args start ≡ first_words way.now folder.now cwd.now variables.now program.now) }
{
    match way {
        Way::Plain => Ok(Command::new(alloc, program)?),
        Way::Led(is_limited) => Ok(led(alloc, *is_limited, program)?),
        Way::Split(bounds) => split_off(alloc, *bounds, variables, program),
        Way::Apart(walls) => walled(alloc, walls, folder, cwd, variables, program),
    }
}

/// The program as the head of a group.
fn led(alloc: Global, is_limited: bool, program: &str) -> Result<Command, AllocError>
    ensures program { IfOk result (λ start. command_program start ≡ codes "/usr/bin/setsid") }
    ensures words { IfOk result (λ start. command_args start ≡ limits is_limited ++ program.now ∷ []) }
{
    let mut start = Command::new(alloc, LEADER)?;
    add_limits(&mut start, is_limited)?;
    start.arg(program)?;
    Ok(start)
}

/// The program apart from other processes and from the network.
fn split_off(
    alloc: Global,
    bounds: Bounds,
    variables: &Env,
    program: &str,
) -> Result<Command, HostTrouble>
    ensures program { IfOk result (λ start. command_program start ≡ codes "/usr/bin/unshare") }
    ensures words { IfOk result (λ start. command_args start
        ≡ split_words bounds.is_root ++ inner_words bounds.is_limited variables.now ++ program.now ∷ []) }
{
    let mut start = Command::new(alloc, SPLITTER)?;
    add_split(&mut start, bounds.is_root)?;
    add_inner(&mut start, bounds.is_limited, variables)?;
    start.arg(program)?;
    Ok(start)
}

/// The program apart from files, too.
fn walled(
    alloc: Global,
    walls: &Walls,
    folder: &str,
    cwd: &str,
    variables: &Env,
    program: &str,
) -> Result<Command, HostTrouble>
    ensures program { IfOk result (λ start. command_program start ≡ codes "/usr/bin/bwrap") }
    ensures words { IfOk result (λ start. command_args start ≡ view_words walls.now ++ folder_words walls.now folder.now cwd.now
        ++ inner_words walls.now.bounds.is_limited variables.now ++ program.now ∷ []) }
{
    let mut start = Command::new(alloc, WALLER)?;
    add_view(&mut start, walls)?;
    add_folder(&mut start, walls, folder, cwd)?;
    add_inner(&mut start, walls.bounds.is_limited, variables)?;
    start.arg(program)?;
    Ok(start)
}

/// Adds the system as the program sees it.
fn add_view(start: &mut Command, walls: &Walls) -> Result<(), AllocError>
    ensures program { OnOk result (command_program start.new ≡ command_program start.old) }
    ensures words { OnOk result (command_args start.new ≡ command_args start.old ++ view_words walls.now) }
{
    add_rights(start, walls.bounds.is_root)?;
    add_texts(start, SYSTEM)?;
    add_places(start, Seen::Own, walls.own.as_slice())?;
    add_places(start, Seen::Hidden, walls.hidden.as_slice())?;
    add_places(start, Seen::Shown, walls.shown.as_slice())?;
    add_places(start, Seen::Masked, walls.masked.as_slice())
}

/// Adds the run's folder in an empty WORK, and where the program starts.
fn add_folder(start: &mut Command, walls: &Walls, folder: &str, cwd: &str) -> Result<(), AllocError>
    ensures program { OnOk result (command_program start.new ≡ command_program start.old) }
    ensures words { OnOk result (command_args start.new ≡ command_args start.old ++ folder_words walls.now folder.now cwd.now) }
{
    add_place(start, Seen::Hidden, walls.work.as_str())?;
    add_place(start, Seen::Given, folder)?;
    add_place(start, Seen::Sealed, walls.work.as_str())?;
    add_places(start, Seen::Sealed, walls.hidden.as_slice())?;
    add_place(start, Seen::Sealed, DEVICES)?;
    add_texts(start, &["--chdir", cwd, "--"])
}

/// Adds who the program is.
fn add_rights(start: &mut Command, is_root: bool) -> Result<(), AllocError>
    ensures program { OnOk result (command_program start.new ≡ command_program start.old) }
    ensures words { OnOk result (command_args start.new ≡ command_args start.old ++ rights is_root) }
{
    if is_root {
        return add_texts(start, ROOT_RIGHTS);
    }
    add_texts(start, USER_RIGHTS)
}

/// Adds what keeps other processes and the network away.
fn add_split(start: &mut Command, is_root: bool) -> Result<(), AllocError>
    ensures program { OnOk result (command_program start.new ≡ command_program start.old) }
    ensures words { OnOk result (command_args start.new ≡ command_args start.old ++ split_words is_root) }
{
    if is_root {
        return add_texts(start, ROOT_SPLIT);
    }
    add_texts(start, USER_SPLIT)
}

/// Adds what stands inside: limits, variables and a session.
fn add_inner(start: &mut Command, is_limited: bool, variables: &Env) -> Result<(), HostTrouble>
    ensures program { OnOk result (command_program start.new ≡ command_program start.old) }
    ensures words { OnOk result (command_args start.new ≡ command_args start.old ++ inner_words is_limited variables.now) }
{
    add_limits(start, is_limited)?;
    add_texts(start, SETTER)?;
    add_assigned(start, variables)?;
    start.arg(LEADER)?;
    Ok(())
}

/// Adds the limits, where they can be set.
fn add_limits(start: &mut Command, is_limited: bool) -> Result<(), AllocError>
    ensures program { OnOk result (command_program start.new ≡ command_program start.old) }
    ensures words { OnOk result (command_args start.new ≡ command_args start.old ++ limits is_limited) }
{
    if is_limited {
        return add_texts(start, LIMITS);
    }
    Ok(())
}

/// Adds each variable with its value as a word.
fn add_assigned(start: &mut Command, variables: &Env) -> Result<(), HostTrouble>
    ensures program { OnOk result (command_program start.new ≡ command_program start.old) }
    ensures words { OnOk result (command_args start.new ≡ command_args start.old ++ map assigned variables.now) }
{
    for i in 0..variables.len() {
        add_assignment(start, variables, i)?;
    }
    Ok(())
}

/// Adds variable `i`, counted from 0, with its value as a word.
fn add_assignment(start: &mut Command, variables: &Env, i: usize) -> Result<(), HostTrouble>
    requires { i < length variables.now }
    ensures program { OnOk result (command_program start.new ≡ command_program start.old) }
    ensures words { (args : List (List ℕ)) → command_args start.old ≡ args ++ map assigned (take i variables.now)
        → OnOk result (command_args start.new ≡ args ++ map assigned (take (i + 1) variables.now)) }
{
    let Some((key, value)) = variables.get(i) else {
        unreachable!()
    };
    assign(start, text_of(key.bytes())?, text_of(value.bytes())?)
}

/// Adds the variable with its value.
fn assign(start: &mut Command, key: &str, value: &str) -> Result<(), HostTrouble>
    ensures program { OnOk result (command_program start.new ≡ command_program start.old) }
    ensures words { OnOk result (command_args start.new ≡ command_args start.old ++ assigned (key.now, value.now) ∷ []) }
{
    let word = assignment(*start.allocator(), key, value)?;
    start.arg(word.as_str())?;
    Ok(())
}

/// A variable with its value as one word.
fn assignment(alloc: Global, key: &str, value: &str) -> Result<String, AllocError>
    ensures { IfOk result (λ word. string_bytes word ≡ assigned (key.now, value.now)) }
{
    let mut word = String::from_str(alloc, key)?;
    word.push_str("=")?;
    word.push_str(value)?;
    Ok(word)
}

/// Adds the words for these places.
fn add_places(start: &mut Command, seen: Seen, places: &[String]) -> Result<(), AllocError>
    ensures program { OnOk result (command_program start.new ≡ command_program start.old) }
    ensures words { OnOk result (command_args start.new ≡ command_args start.old ++ places_words seen (map string_bytes places.now)) }
{
    for place in places {
        add_place(start, seen, place.as_str())?;
    }
    Ok(())
}

/// Adds the words for a place.
fn add_place(start: &mut Command, seen: Seen, place: &str) -> Result<(), AllocError>
    ensures program { OnOk result (command_program start.new ≡ command_program start.old) }
    ensures words { OnOk result (command_args start.new ≡ command_args start.old ++ place_words seen place.now) }
{
    match seen {
        Seen::Own => add_texts(
            start,
            &["--perms", "1777", "--size", "268435456", "--tmpfs", place],
        ),
        Seen::Hidden => add_texts(start, &["--tmpfs", place]),
        Seen::Shown => add_texts(start, &["--ro-bind", place, place]),
        Seen::Masked => add_texts(start, &["--ro-bind", "/dev/null", place]),
        Seen::Given => add_texts(start, &["--bind", place, place]),
        Seen::Sealed => add_texts(start, &["--remount-ro", place]),
    }
}

/// Adds the words.
fn add_texts(start: &mut Command, words: &[&str]) -> Result<(), AllocError>
    ensures program { OnOk result (command_program start.new ≡ command_program start.old) }
    ensures words { OnOk result (command_args start.new ≡ command_args start.old ++ map (λ word. word.now) words.now) }
{
    for word in words {
        start.arg(*word)?;
    }
    Ok(())
}
