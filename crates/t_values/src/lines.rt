//! Lines cut from the pieces that they come in, and copies of what is listed.

use shell_lang::{Child, Children, LineBuffer};
use std::alloc::{AllocError, Global};
use std::rt::HostRuntime;
use vol_tree::{Content, TryCopy};

#[test]
fn lines_are_cut(rt: HostRuntime) -> Result<(), AllocError> {
    let mut buffer = LineBuffer::new(rt.alloc());
    buffer.add(b"a\n\nb")?;
    assert!(rt; buffer.first_line() == Some(b"a".as_slice()));
    buffer.pass(2);
    assert!(rt; buffer.first_line() == Some(b"".as_slice()));
    buffer.pass(1);
    assert!(rt; buffer.first_line() == None);
    buffer.add(b"c\nd")?;
    assert!(rt; buffer.first_line() == Some(b"bc".as_slice()));
    buffer.pass(3);
    assert!(rt; buffer.bytes() == b"d".as_slice());
    Ok(())
}

/// A folder of this name.
fn folder(alloc: Global, name: &[u8]) -> Result<Child, AllocError> {
    Ok(Child {
        name: Content::of(alloc, name)?,
        folder: true,
    })
}

/// Whether a copy of a child is the folder `hi`.
fn is_copied(child: &Child) -> Result<bool, AllocError> {
    let copy = child.copy()?;
    let same = copy.folder && copy.name.bytes() == b"hi".as_slice();
    drop(copy);
    Ok(same)
}

/// Whether a copy of a listing has the folder `hi` alone.
fn are_copied(children: &Children) -> Result<bool, AllocError> {
    let copy = children.copy()?;
    let same = match copy.as_slice() {
        [child] => is_copied(child),
        _ => Ok(false),
    };
    drop(copy);
    same
}

/// Whether such a folder, and a listing of it, are copied.
fn each_is_copied(alloc: Global) -> Result<(bool, bool), AllocError> {
    let child = folder(alloc, b"hi")?;
    let one = is_copied(&child);
    let mut children = Children::new(alloc);
    let pushed = children.push(child);
    let all = are_copied(&children);
    drop(children);
    pushed?;
    Ok((one?, all?))
}

#[test]
fn children_are_copied(rt: HostRuntime) -> Result<(), AllocError> {
    assert!(rt; each_is_copied(rt.alloc())? == (true, true));
    Ok(())
}
