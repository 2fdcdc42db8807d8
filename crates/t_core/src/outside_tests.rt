//! Objects in memory whose calls fail as they were told to. Each scene ends its objects itself, so that the tests hold
//! numbers and truths alone.

use outside::{
    Failed, KeepError, KeepFail, Keeper, MemKeeper, MemPort, MemSink, MemSource, Port, PortError,
    Sink, SinkError, Source, write_all,
};
use std::alloc::{AllocError, Global};
use std::rt::HostRuntime;
use std::test::Fail;

/// A source of these bytes, whose calls of these numbers fail.
fn source_of(alloc: Global, bytes: &[u8], fails: &[u32]) -> Result<MemSource, AllocError> {
    let bytes = bytes.to_vec(alloc)?;
    let fails = fails.to_vec(alloc)?;
    Ok(MemSource::new(alloc, bytes, fails))
}

/// What four reads of three bytes come to, and what the buffer holds after the third.
fn four_reads(alloc: Global) -> Result<([Result<usize, Failed>; 4], [u8; 3]), AllocError> {
    let mut source = source_of(alloc, b"abcde", &[1])?;
    let mut buffer = [0; 3];
    let first = source.read(&mut buffer);
    let second = source.read(&mut buffer);
    let third = source.read(&mut buffer);
    let held = buffer;
    let fourth = source.read(&mut buffer);
    drop(source);
    Ok(([first, second, third, fourth], held))
}

#[test]
fn a_named_read_takes_nothing(rt: HostRuntime) -> Result<(), Fail> {
    let (reads, held) = four_reads(rt.alloc())?;
    assert!(rt; reads == [Ok(3), Err(Failed), Ok(2), Ok(0)]);
    assert!(rt; held == *b"dec");
    Ok(())
}

/// What two writes of a whole text and one of a piece come to.
type Writes = ([Result<(), SinkError>; 2], Result<usize, SinkError>);

/// Writes to a sink whose second call fails, and whether it then holds this.
fn three_writes(alloc: Global, held: &[u8]) -> Result<(Writes, bool), AllocError> {
    let mut sink = MemSink::new(alloc, [1].to_vec(alloc)?);
    let first = write_all(&mut sink, b"one ");
    let second = write_all(&mut sink, b"two ");
    let third = sink.write(b"three");
    let same = sink.bytes() == held;
    drop(sink);
    Ok((([first, second], third), same))
}

#[test]
fn a_named_write_adds_nothing(rt: HostRuntime) -> Result<(), Fail> {
    let ((texts, piece), same) = three_writes(rt.alloc(), b"one three")?;
    assert!(rt; texts == [Ok(()), Err(SinkError::Failed)]);
    assert!(rt; piece == Ok(5));
    assert!(rt; same);
    Ok(())
}

/// A port with these frames, whose calls of these numbers fail.
fn port_of(alloc: Global, frames: &[&[u8]], fails: &[u32]) -> Result<MemPort, AllocError> {
    let fails = fails.to_vec(alloc)?;
    let mut held = Vec::new(alloc);
    for frame in frames {
        held.push(frame.to_vec(alloc)?)?;
    }
    Ok(MemPort::new(alloc, held, fails))
}

/// Whether the next take comes to this.
fn takes(port: &mut MemPort, expected: Result<Option<&[u8]>, PortError>) -> bool {
    let taken = port.take();
    let same = match (&taken, expected) {
        (Ok(Some(frame)), Ok(Some(bytes))) => frame.as_slice() == bytes,
        (Ok(None), Ok(None)) => true,
        (Err(error), Err(named)) => *error == named,
        _ => false,
    };
    drop(taken);
    same
}

/// Whether each take of a port with three frames comes to what it has to, what the answers between them come to, and
/// whether the port then has the answers that it has to have.
fn takes_and_answers(
    alloc: Global,
) -> Result<([bool; 5], [Result<(), PortError>; 3], [bool; 2]), AllocError> {
    let mut port = port_of(alloc, &[b"one", b"two", b"three"], &[1, 3, 6])?;
    let one = takes(&mut port, Ok(Some(b"one")));
    let failed = takes(&mut port, Err(PortError::Failed));
    let three = takes(&mut port, Ok(Some(b"three")));
    let lost = port.answer(b"lost");
    let kept = port.answer(b"kept");
    let none = takes(&mut port, Ok(None));
    let none_again = takes(&mut port, Ok(None));
    let answered = [
        port.answered(0).is_none(),
        port.answered(1) == Some(b"kept".as_slice()),
    ];
    let again = port.answer(b"again");
    drop(port);
    let taken = [one, failed, three, none, none_again];
    Ok((taken, [lost, kept, again], answered))
}

#[test]
fn a_named_take_uses_up_its_frame(rt: HostRuntime) -> Result<(), Fail> {
    let (taken, answers, answered) = takes_and_answers(rt.alloc())?;
    assert!(rt; taken == [true; 5]);
    let failed = Err(PortError::Failed);
    assert!(rt; answers == [failed, Ok(()), failed]);
    assert!(rt; answered == [true; 2]);
    Ok(())
}

/// A call that fails, and leaves so many bytes of a piece; 255 stands for the whole.
fn fail(call: u32, part: u32) -> KeepFail {
    KeepFail {
        call,
        leaves_new: part == 255,
        part,
    }
}

/// Whether the image is loaded so.
fn loads(keeper: &mut MemKeeper, expected: Option<&[u8]>) -> bool {
    let loaded = keeper.load(b"img");
    let same = match (&loaded, expected) {
        (Ok(Some(image)), Some(bytes)) => image.as_slice() == bytes,
        (Ok(None), None) => true,
        _ => false,
    };
    drop(loaded);
    same
}

/// What four saves come to of which the second and the third fail, and whether each image is the one that it has to be.
fn saves(alloc: Global) -> Result<([Result<(), KeepError>; 4], [bool; 4]), AllocError> {
    let fails = [fail(2, 0), fail(3, 255)].to_vec(alloc)?;
    let mut keeper = MemKeeper::new(alloc, fails);
    let new = loads(&mut keeper, None);
    let one = keeper.save(b"img", b"one");
    let two = keeper.save(b"img", b"two");
    let still_one = keeper.image(b"img") == Some(b"one".as_slice());
    let three = keeper.save(b"img", b"three");
    let four = keeper.save(b"other", b"four");
    let has_three = loads(&mut keeper, Some(b"three"));
    let no_other = keeper.image(b"none").is_none();
    drop(keeper);
    Ok((
        [one, two, three, four],
        [new, still_one, has_three, no_other],
    ))
}

#[test]
fn a_named_save_leaves_the_old_image_or_the_new(rt: HostRuntime) -> Result<(), Fail> {
    let (saved, images) = saves(rt.alloc())?;
    let failed = Err(KeepError::Failed);
    assert!(rt; saved == [Ok(()), failed, failed, Ok(())]);
    assert!(rt; images == [true; 4]);
    Ok(())
}

/// What seven appends and a save come to of which the third to the sixth append fail, and whether each image is the one that
/// it has to be.
fn appends(alloc: Global) -> Result<([Result<(), KeepError>; 8], [bool; 3]), AllocError> {
    let fails = [fail(2, 0), fail(3, 2), fail(4, 9), fail(5, 255)].to_vec(alloc)?;
    let mut keeper = MemKeeper::new(alloc, fails);
    let one = keeper.append(b"img", b"one");
    let two = keeper.append(b"img", b"two");
    let none = keeper.append(b"img", b"none");
    let has_two = keeper.image(b"img") == Some(b"onetwo".as_slice());
    let part = keeper.append(b"img", b"part");
    let more = keeper.append(b"img", b"more");
    let whole = keeper.append(b"img", b"whole");
    let four = keeper.append(b"other", b"four");
    let has_whole = loads(&mut keeper, Some(b"onetwopamorewhole"));
    let new = keeper.save(b"img", b"new");
    let has_new = keeper.image(b"img") == Some(b"new".as_slice());
    drop(keeper);
    Ok((
        [one, two, none, part, more, whole, four, new],
        [has_two, has_whole, has_new],
    ))
}

#[test]
fn a_named_append_leaves_a_front_of_its_piece(rt: HostRuntime) -> Result<(), Fail> {
    let (kept, images) = appends(rt.alloc())?;
    let failed = Err(KeepError::Failed);
    let expected = [
        Ok(()),
        Ok(()),
        failed,
        failed,
        failed,
        failed,
        Ok(()),
        Ok(()),
    ];
    assert!(rt; kept == expected);
    assert!(rt; images == [true; 3]);
    Ok(())
}

/// Whether this is the text, which ends here.
fn is_text(text: String, expected: &str) -> bool {
    let same = text.as_str() == expected;
    drop(text);
    same
}

#[test]
fn refusals_have_texts(rt: HostRuntime) -> Result<(), Fail> {
    let alloc = rt.alloc();
    assert!(rt; is_text(Failed.to_string(alloc)?, "the outside failed"));
    assert!(rt; is_text(SinkError::Failed.to_string(alloc)?, "the write failed"));
    assert!(rt; is_text(SinkError::Memory.to_string(alloc)?, "out of memory"));
    assert!(rt; is_text(PortError::Failed.to_string(alloc)?, "the connection failed"));
    assert!(rt; is_text(PortError::Memory.to_string(alloc)?, "out of memory"));
    assert!(rt; is_text(KeepError::Failed.to_string(alloc)?, "the keeper failed"));
    assert!(rt; is_text(KeepError::Memory.to_string(alloc)?, "out of memory"));
    Ok(())
}
