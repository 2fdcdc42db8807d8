// Frames: what they are read as, and whether one answers another.
ghost use Rattle.wire_frames.specs.Frame.{IsValid};

use crate::answers::Answer;
use crate::readers::Told;
use crate::texts::put_text;
use std::alloc::{AllocError, Global};
use std::mem;
use t_scene_files::Fault;
use vol_tree::TryCopy;
use wire_frames::{FrameError, Message, echoes, read, write};

/// Reads a frame.
pub(crate) fn read_frame(alloc: Global, frame: &[u8], told: &mut Told) -> Result<Answer, Fault> {
    match read(alloc, frame) {
        Ok(message) => {
            let done = tell_message(alloc, &message, told);
            drop(message);
            done?;
            Ok(Answer::Read)
        }
        Err(error) => refused(error),
    }
}

fn refused(error: FrameError) -> Result<Answer, Fault> {
    match error {
        FrameError::BadLength => Ok(Answer::BadLength),
        FrameError::BadVersion => Ok(Answer::BadVersion),
        FrameError::BadKind => Ok(Answer::BadKind),
        FrameError::BadClient => Ok(Answer::BadClient),
        FrameError::BadField(place) => Ok(Answer::Field(place)),
        FrameError::Trailing(place) => Ok(Answer::Trailing(place)),
        FrameError::Memory => Err(Fault::Memory),
    }
}

/// A message by its kind, its client and its number; what is written of a copy.
fn tell_message(alloc: Global, message: &Message, told: &mut Told) -> Result<(), AllocError>
    requires { IsValid message.now }
{
    let (kind, client, number) = (message.kind(), message.client(), message.number());
    put_text(
        &mut told.text,
        format!(in alloc; "{kind:?} {client} {number}")?,
    )?;
    let copy = message.copy()?;
    let written = write(alloc, &copy);
    drop(copy);
    drop(mem::replace(&mut told.written, written?));
    Ok(())
}

const NO_FRAME: Fault = Fault::Line("the bytes are refused");

/// Whether the reply that one frame spells answers the request that the other does.
pub(crate) fn answers(alloc: Global, request: &[u8], reply: &[u8]) -> Result<bool, Fault> {
    match read(alloc, request) {
        Ok(request) => {
            let answers = answers_message(alloc, &request, reply);
            drop(request);
            answers
        }
        Err(error) => {
            drop(error);
            Err(NO_FRAME)
        }
    }
}

fn answers_message(alloc: Global, request: &Message, reply: &[u8]) -> Result<bool, Fault> {
    match read(alloc, reply) {
        Ok(reply) => {
            let answers = echoes(request, &reply);
            drop(reply);
            Ok(answers)
        }
        Err(error) => {
            drop(error);
            Err(NO_FRAME)
        }
    }
}

/// The frame that has this behind its length.
pub(crate) fn framed(alloc: Global, payload: &[u8]) -> Result<Vec<u8>, AllocError> {
    let size = u32::try_from(payload.len()).unwrap_or(u32::MAX);
    let mut frame = Vec::new(alloc);
    frame.extend_from_slice(&size.to_be_bytes())?;
    frame.extend_from_slice(payload)?;
    Ok(frame)
}
