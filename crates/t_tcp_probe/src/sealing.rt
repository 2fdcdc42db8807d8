// Keys of clients as files, asks that are sealed by them, and the answers to those.
use crate::calling::{answer_of, first_answer_of};
use sealed_frames::{Way, is_sealable, open_answer, seal, tag_of};
use std::alloc::Global;
use std::fs::{self, Permissions};
use std::io::{self, ErrorKind};
use std::net::Net;
use std::os::unix::fs::PermissionsExt;
use std::rt::Files;
use std::time::Clock;
use wire_frames::{FrameError, Message, read};

/// Leads a client to its key, and a server or a surrogate to those of all clients.
pub const KEY: &str = "HAURPIKO_KEY";

pub const KEYS: &str = "HAURPIKO_KEYS";

/// The folder of the keys.
pub const KEY_FOLDER: &str = "keys";

/// The rights to a key file.
pub const OWNERS_ALONE: u32 = 0o600;

/// A client's key, and the file that has it.
#[derive(Clone, Copy)]
pub struct ClientKey {
    pub file: &'static str,
    pub text: &'static str,
    pub key: [u8; 32],
}

/// The keys of clients 1, 2 and 3. Other clients are strangers.
pub const FIRST_KEY: ClientKey = ClientKey {
    file: "keys/1.key",
    text: "1111111111111111111111111111111111111111111111111111111111111111\n",
    key: [0x11; 32],
};

pub const SECOND_KEY: ClientKey = ClientKey {
    file: "keys/2.key",
    text: "2222222222222222222222222222222222222222222222222222222222222222\n",
    key: [0x22; 32],
};

pub const THIRD_KEY: ClientKey = ClientKey {
    file: "keys/3.key",
    text: "3333333333333333333333333333333333333333333333333333333333333333\n",
    key: [0x33; 32],
};

/// All of them.
const CLIENT_KEYS: [ClientKey; 3] = [FIRST_KEY, SECOND_KEY, THIRD_KEY];

/// Writes all of them into a new folder, for their owner alone.
///
/// # Errors
///
/// The platform's.
pub fn keep_keys<R: Files>(rt: &R) -> io::Result<()> {
    fs::create_dir(rt, KEY_FOLDER)?;
    for kept in CLIENT_KEYS {
        write_with_rights(rt, kept.file, kept.text, OWNERS_ALONE)?;
    }
    Ok(())
}

/// Writes a file, to which there are these rights then.
///
/// # Errors
///
/// The platform's.
pub fn write_with_rights<R: Files>(rt: &R, file: &str, text: &str, rights: u32) -> io::Result<()> {
    fs::write(rt, file, text.as_bytes())?;
    fs::set_permissions(rt, file, Permissions::from_mode(rights))
}

/// Removes the keys and their folder.
pub(crate) fn forget_keys<R: Files>(rt: &R) {
    for kept in CLIENT_KEYS {
        let _removed = fs::remove_file(rt, kept.file);
    }
    let _removed = fs::remove_dir(rt, KEY_FOLDER);
}

/// A frame that asks, whose key seals it, and which way it goes.
#[derive(Clone, Copy)]
pub struct SealedAsk<'a> {
    pub frame: &'a [u8],
    pub by: ClientKey,
    pub way: Way,
}

impl<'a> SealedAsk<'a> {
    /// The frame with its seal.
    ///
    /// # Errors
    ///
    /// `InvalidInput` where the frame cannot be sealed, and want of memory.
    pub fn bytes(&self, alloc: Global) -> io::Result<Vec<u8>> {
        if !is_sealable(self.frame) {
            return Err(io::Error::from(ErrorKind::InvalidInput));
        }
        Ok(seal(alloc, &self.by.key, &self.way, self.frame)?)
    }

    /// Prints what these bytes are as an answer to it.
    ///
    /// # Errors
    ///
    /// The platform's.
    pub fn print_answer<R: AllocGlobal + Print>(
        &self,
        rt: &R,
        name: &str,
        bytes: &[u8],
    ) -> io::Result<()> {
        let asked = tag_of(&self.by.key, &self.way, self.frame);
        match open_answer(&self.by.key, &asked, bytes) {
            Ok(frame) => print_opened(rt, name, frame),
            Err(_) if bytes.is_empty() => println!(rt; "{name}: no answer"),
            Err(refusal) => println!(rt; "{name}: {refusal}"),
        }
    }
}

fn print_opened<R: AllocGlobal + Print>(rt: &R, name: &str, frame: &[u8]) -> io::Result<()> {
    let message = read(rt.alloc(), frame);
    let printed = print_message(rt, name, &message);
    drop(message);
    printed
}

fn print_message<R: Print>(
    rt: &R,
    name: &str,
    message: &Result<Message, FrameError>,
) -> io::Result<()> {
    match message {
        Ok(Message::Malformed { code, offset }) => println!(rt;
            "{name}: Malformed {code} {offset} under its key"
        ),
        Ok(reply) => {
            let kind = reply.kind();
            println!(rt; "{name}: {kind:?} under its key")
        }
        Err(refused) => println!(rt; "{name}: {refused}"),
    }
}

/// Asks, and prints the answer.
///
/// # Errors
///
/// The platform's.
pub fn ask_sealed<R: AllocGlobal + Net + Print>(
    rt: &R,
    name: &str,
    address: &str,
    ask: &SealedAsk<'_>,
) -> io::Result<()> {
    let bytes = ask.bytes(rt.alloc())?;
    let answer = answer_of(rt, address, &bytes);
    drop(bytes);
    let answer = answer?;
    let printed = ask.print_answer(rt, name, &answer);
    drop(answer);
    printed
}

/// Asks with plain bytes once a peer listens that takes none, and prints whether it answers.
///
/// # Errors
///
/// The platform's.
pub fn ask_plainly<R: AllocGlobal + Net + Clock + Print>(
    rt: &R,
    name: &str,
    address: &str,
    bytes: &[u8],
) -> io::Result<()> {
    let answer = first_answer_of(rt, address, bytes)?;
    let count = answer.len();
    drop(answer);
    match count {
        0 => println!(rt; "{name}: no answer"),
        _ => println!(rt; "{name}: an answer of {count} bytes"),
    }
}
