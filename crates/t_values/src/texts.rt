//! The texts of refusals.

use mod_log::LogError;
use shell_lang::LineError;
use std::alloc::{AllocError, Global};
use std::rt::HostRuntime;
use std::test::Fail;
use wire_frames::FrameError;

#[test]
fn refused_lines_have_texts(rt: HostRuntime) -> Result<(), Fail> {
    let rows = [
        (LineError::BadWord(3), "word 3 breaks the rule of words"),
        (LineError::OpenQuote, "a quoted word is not closed"),
        (LineError::UnknownWord, "no such command"),
        (LineError::WrongCount(2), "2 words follow the command"),
        (LineError::Memory, "out of memory"),
    ];
    for (refusal, text) in &rows {
        assert!(rt; refusal.to_string(rt.alloc())?.as_str() == *text);
    }
    Ok(())
}

#[test]
fn refused_frames_have_texts(rt: HostRuntime) -> Result<(), Fail> {
    let rows = [
        (
            FrameError::BadLength,
            "the frame is too short, too long, or not as long as it says",
        ),
        (FrameError::BadVersion, "the frame has another version"),
        (FrameError::BadKind, "the frame is of no known kind"),
        (
            FrameError::BadClient,
            "the frame's client number does not fit its kind",
        ),
        (FrameError::BadField(15), "the field at byte 15 is faulty"),
        (FrameError::Trailing(16), "bytes are left from byte 16 on"),
        (FrameError::Memory, "out of memory"),
    ];
    for (refusal, text) in &rows {
        assert!(rt; refusal.to_string(rt.alloc())?.as_str() == *text);
    }
    Ok(())
}

/// Whether the refusal says this.
fn says(alloc: Global, refusal: LogError, text: &str) -> Result<bool, AllocError> {
    let said = refusal.to_string(alloc);
    drop(refusal);
    let said = said?;
    let same = said.as_str() == text;
    drop(said);
    Ok(same)
}

#[test]
fn refusals_of_a_log_say_what_was_counted(rt: HostRuntime) -> Result<(), Fail> {
    let large = LogError::EntryTooLarge {
        effects: 4097,
        bytes: 6,
    };
    assert!(rt; says(rt.alloc(), large, "an entry of 4097 effects with 6 bytes")?);
    let full = LogError::LogFull {
        entries: 1024,
        bytes: 34850,
    };
    assert!(rt; says(rt.alloc(), full, "1024 entries and 34850 bytes in the log")?);
    Ok(())
}
