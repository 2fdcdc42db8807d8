// Images that cannot be written, images that two programs want, images of others, and pieces behind an image.
use crate::serving::serve_a_client_from;
use outside::{KeepError, Keeper};
use real_edge::FileKeeper;
use std::fs::{self, File};
use std::io;
use std::net::Net;
use std::process::Processes;
use std::rt::{Env, Files};
use std::time::Clock;
use t_tcp_probe::{
    CLIENT, IMAGE, SERVED, SERVER, WORK, command_of, forget, free_address, lone_client_by,
    print_ended, print_ended_at, run_lone_client, spawned, type_to,
};

/// The file beside a server's image that a save writes.
const SERVED_BESIDE: &str = "served.new";

/// An image in a folder that is not there, and this folder.
const NOWHERE: &str = "nowhere/image";

const NO_FOLDER: &str = "nowhere";

/// Starts a program whose files can take no byte, as on a full disk.
const WITHOUT_ROOM: &str = "trap '' XFSZ; ulimit -f 0; exec \"$@\"";

/// Runs a client, then one that cannot keep what it logs, since its files take no byte, and one that goes on from the first.
pub(crate) fn fill_the_disk<R: Processes + Files + Env + AllocGlobal + Net + Clock + Print>(
    rt: &R,
) -> io::Result<()> {
    forget(rt);
    println!(rt; "-- a client on a full disk")?;
    run_lone_client(rt)?;
    let mut client = lone_client_by(rt, WITHOUT_ROOM)?;
    type_to(&mut client);
    print_ended(rt, CLIENT, client)?;
    run_lone_client(rt)
}

/// Serves a client while the server's image cannot be written: the server ends before it answers.
pub(crate) fn serve_unkept<
    R: Processes + Files<File = File> + Env + AllocGlobal + Net + Clock + Print,
>(rt: &R) -> io::Result<()> {
    forget(rt);
    println!(rt; "-- a server that cannot keep")?;
    fs::create_dir(rt, SERVED_BESIDE)?;
    let mut keeper = FileKeeper::new(rt.alloc(), rt);
    let shown = serve_and_load(rt, &mut keeper);
    drop(keeper);
    shown
}

fn serve_and_load<R: Processes + Files<File = File> + Env + AllocGlobal + Net + Clock + Print>(
    rt: &R,
    keeper: &mut FileKeeper<'_, R>,
) -> io::Result<()> {
    serve_a_client_from(rt, keeper)?;
    print_trouble(rt, keeper)?;
    fs::remove_dir(rt, SERVED_BESIDE)?;
    print_load(rt, SERVED, keeper)
}

/// Prints what the keeper's call met that failed last.
fn print_trouble<R: Files<File = File> + Print>(
    rt: &R,
    keeper: &FileKeeper<'_, R>,
) -> io::Result<()> {
    match keeper.trouble() {
        Some(trouble) => println!(rt; "keeper: {trouble}"),
        None => println!(rt; "keeper: no trouble"),
    }
}

/// Runs a client on an image that another keeper has, and again once it is free.
pub(crate) fn share_an_image<
    R: Processes + Files<File = File> + Env + AllocGlobal + Net + Clock + Print,
>(rt: &R) -> io::Result<()> {
    forget(rt);
    println!(rt; "-- two programs on one image")?;
    let mut keeper = FileKeeper::new(rt.alloc(), rt);
    let held = hold_the_image(rt, &mut keeper);
    drop(keeper);
    held?;
    run_lone_client(rt)
}

/// Loads the image twice, and lets another keeper and a client try.
fn hold_the_image<R: Processes + Files<File = File> + Env + AllocGlobal + Net + Clock + Print>(
    rt: &R,
    keeper: &mut FileKeeper<'_, R>,
) -> io::Result<()> {
    print_load(rt, IMAGE, keeper)?;
    print_load(rt, IMAGE, keeper)?;
    print_another_load(rt)?;
    run_lone_client(rt)
}

fn print_another_load<R: Files<File = File> + AllocGlobal + Print>(rt: &R) -> io::Result<()> {
    let mut keeper = FileKeeper::new(rt.alloc(), rt);
    let printed = print_refused_load(rt, &mut keeper);
    drop(keeper);
    printed
}

fn print_refused_load<R: Files<File = File> + Print>(
    rt: &R,
    keeper: &mut FileKeeper<'_, R>,
) -> io::Result<()> {
    print_load(rt, IMAGE, keeper)?;
    print_trouble(rt, keeper)
}

pub(crate) fn print_load<R: Files<File = File> + Print>(
    rt: &R,
    image: &str,
    keeper: &mut FileKeeper<'_, R>,
) -> io::Result<()> {
    let loaded = keeper.load(image.as_bytes());
    let came = match &loaded {
        Ok(Some(_)) => "an image",
        Ok(None) => "no image",
        Err(KeepError::Failed) => "failed",
        Err(KeepError::Memory) => "no memory",
    };
    drop(loaded);
    println!(rt; "keeper: {came}")
}

/// Runs a server on an image that a keeper has.
pub(crate) fn share_a_served_image<
    R: Processes + Files<File = File> + Env + AllocGlobal + Net + Clock + Print,
>(rt: &R) -> io::Result<()> {
    let mut keeper = FileKeeper::new(rt.alloc(), rt);
    let loaded = print_load(rt, SERVED, &mut keeper);
    let shown = loaded.and_then(|()| run_server(rt));
    drop(keeper);
    shown
}

/// Runs a server at a free address that nobody calls, and prints how it ends.
fn run_server<R: Processes + Files + Env + AllocGlobal + Net + Clock + Print>(
    rt: &R,
) -> io::Result<()> {
    let address = free_address(rt)?;
    let shown = run_server_at(rt, &address);
    drop(address);
    shown
}

pub(crate) fn run_server_at<R: Processes + Files + Env + AllocGlobal + Print>(
    rt: &R,
    address: &str,
) -> io::Result<()> {
    let command = command_of(rt, SERVER, &["run", address, SERVED, "1"])?;
    let server = spawned(rt, command)?;
    print_ended_at(rt, SERVER, address, server)
}

/// Runs a client on the image of another number, and a server on what is no image.
pub(crate) fn run_on_other_images<R: Processes + Files + Env + AllocGlobal + Net + Clock + Print>(
    rt: &R,
) -> io::Result<()> {
    println!(rt; "-- images of others")?;
    let words = ["run", "2", IMAGE, "127.0.0.1:1", "-", WORK];
    let command = command_of(rt, CLIENT, &words)?;
    let client = spawned(rt, command)?;
    print_ended(rt, CLIENT, client)?;
    fs::write(rt, SERVED, b"no image")?;
    run_server(rt)
}

/// Saves an image and appends two pieces, and one more to an image in no folder.
pub(crate) fn append_pieces<R: Files<File = File> + AllocGlobal + Print>(rt: &R) -> io::Result<()> {
    forget(rt);
    println!(rt; "-- pieces behind an image")?;
    let mut keeper = FileKeeper::new(rt.alloc(), rt);
    let shown = append_and_load(rt, &mut keeper);
    drop(keeper);
    shown
}

fn append_and_load<R: Files<File = File> + Print>(
    rt: &R,
    keeper: &mut FileKeeper<'_, R>,
) -> io::Result<()> {
    let saved = keeper.save(IMAGE.as_bytes(), b"an image");
    print_kept(rt, saved)?;
    for piece in [" and a piece", " and another"] {
        let appended = keeper.append(IMAGE.as_bytes(), piece.as_bytes());
        print_kept(rt, appended)?;
    }
    print_bytes(rt, keeper)?;
    let appended = keeper.append(NOWHERE.as_bytes(), b"a piece");
    print_kept(rt, appended)?;
    let made = fs::exists(rt, NO_FOLDER)?;
    println!(rt; "a folder was made: {made}")?;
    print_bytes(rt, keeper)
}

fn print_kept<R: Print>(rt: &R, kept: Result<(), KeepError>) -> io::Result<()> {
    let came = match kept {
        Ok(()) => "kept",
        Err(KeepError::Failed) => "failed",
        Err(KeepError::Memory) => "no memory",
    };
    println!(rt; "keeper: {came}")
}

/// Prints what the image has, where that is text.
fn print_bytes<R: Files<File = File> + Print>(
    rt: &R,
    keeper: &mut FileKeeper<'_, R>,
) -> io::Result<()> {
    let loaded = keeper.load(IMAGE.as_bytes());
    let text = match &loaded {
        Ok(Some(bytes)) => str::from_utf8(bytes).unwrap_or("no text"),
        Ok(None) => "no image",
        Err(_) => "failed",
    };
    let printed = println!(rt; "keeper: {text}");
    drop(loaded);
    printed
}
