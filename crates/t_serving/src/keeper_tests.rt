//! Images as files: rights, links, locks, and what is told of a failure, of the standard streams, too.
ghost use Rattle.std.specs.Prelude.{refl};

use outside::{KeepError, Keeper, Sink, Source};
use real_edge::{FileKeeper, StdSink, StdSource, SteadyRead, SteadyWrite, Trouble, write_down};
use std::alloc::{AllocError, Global};
use std::cell::Cell;
use std::fs::{self, Metadata, OpenFile, Permissions};
use std::io::{self, Read, Write};
use std::os::unix::fs::{PermissionsExt, symlink};
use std::test::Fail;

/// A file that takes two bytes at most a write, and knows how many were written when it was synced last.
#[derive(Drop)]
struct Counted {
    written: usize,
    synced: Cell<usize>,
}

impl Write for Counted {
    fn write(&mut self, buf: &[u8]) -> io::Result<usize> {
        let count = buf.len().min(2);
        self.written = self.written.saturating_add(count);
        Ok(count)
    }

    fn flush(&mut self) -> io::Result<()> {
        Ok(())
    }
}

impl OpenFile for Counted {
    fn metadata(&self) -> io::Result<Metadata> {
        Ok(Metadata::of_file(0))
    }

    fn set_len(&self, _size: u64) -> io::Result<()> {
        Ok(())
    }

    fn sync_all(&self) -> io::Result<()> {
        self.synced.set(self.written);
        Ok(())
    }

    fn sync_data(&self) -> io::Result<()> {
        Ok(())
    }
}

#[test]
fn what_is_written_down_is_synced_behind_its_last_byte(rt: HostRuntime) -> Result<(), Fail> {
    let mut file = Counted {
        written: 0,
        synced: Cell::new(0),
    };
    write_down(&mut file, b"an image")?;
    assert_eq!(rt; (file.written, file.synced.get()), (8, 8));
    Ok(())
}

/// The rights of a file, without what kind it is.
fn rights(rt: &HostRuntime, name: &str) -> io::Result<u32> {
    Ok(fs::symlink_metadata(rt, name)?.permissions().mode() & 0o7777)
}

/// Whether the text is what the file has.
fn has(rt: &HostRuntime, name: &str, text: &str) -> io::Result<bool> {
    let read = fs::read(rt, name)?;
    Ok(read.as_slice() == text.as_bytes())
}

/// Saves the text under the name by a keeper of its own.
fn save(rt: &HostRuntime, name: &str, text: &str) -> Result<(), KeepError> {
    let mut keeper = FileKeeper::new(rt.alloc(), rt);
    let saved = keeper.save(name.as_bytes(), text.as_bytes());
    drop(keeper);
    saved
}

/// Appends it.
fn append(rt: &HostRuntime, name: &str, text: &str) -> Result<(), KeepError> {
    let mut keeper = FileKeeper::new(rt.alloc(), rt);
    let appended = keeper.append(name.as_bytes(), text.as_bytes());
    drop(keeper);
    appended
}

#[test]
fn images_are_for_their_owner_alone(rt: HostRuntime) -> Result<(), Fail> {
    assert!(rt; save(&rt, "edge_saved", "one").is_ok());
    assert!(rt; append(&rt, "edge_appended", "one").is_ok());
    for name in [
        "edge_saved",
        "edge_saved.lock",
        "edge_appended",
        "edge_appended.lock",
    ] {
        assert_eq!(rt; rights(&rt, name)?, 0o600, "{name}");
    }
    fs::set_permissions(&rt, "edge_saved", Permissions::from_mode(0o640))?;
    assert!(rt; save(&rt, "edge_saved", "two").is_ok());
    assert!(rt; append(&rt, "edge_saved", " and three").is_ok());
    assert_eq!(rt; rights(&rt, "edge_saved")?, 0o640);
    assert!(rt; has(&rt, "edge_saved", "two and three")?);
    Ok(())
}

#[test]
fn no_save_is_written_through_a_link(rt: HostRuntime) -> Result<(), Fail> {
    fs::write(&rt, "edge_victim", "of another")?;
    symlink(&rt, "edge_victim", "edge_linked.new")?;
    assert!(rt; save(&rt, "edge_linked", "one").is_ok());
    assert!(rt; has(&rt, "edge_victim", "of another")?);
    symlink(&rt, "edge_victim", "edge_link")?;
    assert!(rt; save(&rt, "edge_link", "two").is_ok());
    assert!(rt; has(&rt, "edge_victim", "of another")?);
    assert!(rt; fs::symlink_metadata(&rt, "edge_link")?.is_file());
    assert_eq!(rt; rights(&rt, "edge_link")?, 0o600);
    Ok(())
}

/// What a keeper tells after a load and a save of this name; nothing where it tells nothing.
fn told(rt: &HostRuntime, name: &str) -> Result<String, AllocError> {
    let mut keeper = FileKeeper::new(rt.alloc(), rt);
    let loaded = keeper.load(name.as_bytes());
    drop(loaded);
    let saved = keeper.save(name.as_bytes(), b"an image");
    drop(saved);
    let text = match keeper.trouble() {
        Some(trouble) => format!(in rt.alloc(); "{trouble}"),
        None => Ok(String::new(rt.alloc())),
    };
    drop(keeper);
    text
}

/// Whether a keeper tells this of the name.
fn tells(rt: &HostRuntime, name: &str, wanted: &str) -> Result<bool, AllocError> {
    let text = told(rt, name)?;
    let is_told = text.as_str() == wanted;
    drop(text);
    Ok(is_told)
}

/// Whether this is told of an image that another keeper has.
fn tells_beside_another(rt: &HostRuntime, name: &str, wanted: &str) -> Result<bool, AllocError> {
    let mut other = FileKeeper::new(rt.alloc(), rt);
    let loaded = other.load(name.as_bytes());
    drop(loaded);
    let is_told = tells(rt, name, wanted);
    drop(other);
    is_told
}

#[test]
fn what_failed_is_told(rt: HostRuntime) -> Result<(), Fail> {
    assert!(rt; tells(&rt, "edge_free", "")?);
    let held = "edge_held.lock is held by another program";
    assert!(rt; tells_beside_another(&rt, "edge_held", held)?);
    let nowhere = "cannot lock edge_nowhere/i.lock: No such file or directory (os error 2)";
    assert!(rt; tells(&rt, "edge_nowhere/i", nowhere)?);
    fs::create_dir(&rt, "edge_full.new")?;
    let full = "cannot write edge_full.new: Is a directory (os error 21)";
    assert!(rt; tells(&rt, "edge_full", full)?);
    fs::create_dir(&rt, "edge_folder")?;
    let folder = "cannot rename edge_folder.new to edge_folder: Is a directory (os error 21)";
    assert!(rt; tells(&rt, "edge_folder", folder)?);
    Ok(())
}

/// Loads the images of these names by one keeper, and gives whether each is then one that another program has.
fn are_held(rt: &HostRuntime, names: &[&str], wanted: &[&str]) -> Result<bool, AllocError> {
    let mut keeper = FileKeeper::new(rt.alloc(), rt);
    for name in names {
        drop(keeper.load(name.as_bytes()));
    }
    let held = names
        .iter()
        .zip(wanted)
        .try_fold(true, |held, (name, wanted)| {
            tells(rt, name, wanted).map(|is_told| held && is_told)
        });
    drop(keeper);
    held
}

#[test]
fn a_keeper_has_each_lock_that_it_took(rt: HostRuntime) -> Result<(), Fail> {
    let names = ["edge_first", "edge_second", "edge_nowhere/i", "edge_first"];
    let held = [
        "edge_first.lock is held by another program",
        "edge_second.lock is held by another program",
        "cannot lock edge_nowhere/i.lock: No such file or directory (os error 2)",
        "edge_first.lock is held by another program",
    ];
    assert!(rt; are_held(&rt, &names, &held)?);
    assert!(rt; tells(&rt, "edge_first", "")? && tells(&rt, "edge_second", "")?);
    Ok(())
}

#[test]
fn streams_of_bytes_are_given_and_taken(rt: HostRuntime) -> Result<(), Fail> {
    let mut input = StdSource::new(b"text".as_slice());
    let mut piece = [0; 3];
    let read = input.read(&mut piece);
    drop(input);
    assert!(rt; read.is_ok_and(|count| count == 3) && piece == *b"tex");
    let mut output = StdSink::new(Vec::new(rt.alloc()));
    let written = output.write(b"text");
    drop(output);
    assert!(rt; written.is_ok_and(|count| count == 4));
    Ok(())
}

/// A stream that is a folder to read, and full to write.
#[derive(Drop)]
struct Broken;

impl Read for Broken {
    fn read(&mut self, _buf: &mut [u8]) -> io::Result<usize> {
        Err(io::Error::from_raw_os_error(21))
    }
}

impl Write for Broken {
    fn write(&mut self, _buf: &[u8]) -> io::Result<usize> {
        Err(io::Error::from_raw_os_error(28))
    }

    fn flush(&mut self) -> io::Result<()> {
        Ok(())
    }
}

impl SteadyRead for Broken {
    ghost steady = { λ _ _ _. refl };
}

impl SteadyWrite for Broken {
    ghost steady = { λ _ _ _. refl };
}

/// Whether this is what is told.
fn is_told(alloc: Global, trouble: Option<&Trouble>, wanted: &str) -> Result<bool, AllocError> {
    match trouble {
        Some(trouble) => {
            let text = format!(in alloc; "{trouble}")?;
            let is_told = text.as_str() == wanted;
            drop(text);
            Ok(is_told)
        }
        None => Ok(false),
    }
}

#[test]
fn a_stream_that_failed_is_told(rt: HostRuntime) -> Result<(), Fail> {
    let mut input = StdSource::new(Broken);
    let quiet = input.trouble().is_none();
    let read = input.read(&mut [0; 4]).is_err();
    let wanted = "standard input: Is a directory (os error 21)";
    let told = is_told(rt.alloc(), input.trouble(), wanted)?;
    drop(input);
    assert!(rt; quiet && read && told);
    let mut output = StdSink::new(Broken);
    let written = output.write(b"text").is_err();
    let wanted = "standard output: No space left on device (os error 28)";
    let told = is_told(rt.alloc(), output.trouble(), wanted)?;
    drop(output);
    assert!(rt; written && told);
    Ok(())
}
