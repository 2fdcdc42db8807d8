// Who reads which bytes.

use crate::answers::Answer;
use crate::frames::read_frame;
use crate::images::{read_clients, read_servers};
use crate::jobs::read_job;
use crate::kinds::Kind;
use crate::logs::{read_command, read_entry, read_origin, read_sketched, read_sketches};
use crate::values::{
    read_base, read_content, read_effect, read_effects, read_parent, read_path, read_row, read_rows,
};
use std::alloc::Global;
use t_scene_files::Fault;

/// Bytes, what they are looked at as, and what stood behind that in its line.
#[derive(Clone, Copy)]
pub(crate) struct Subject<'a> {
    pub(crate) alloc: Global,
    pub(crate) kind: Kind,
    pub(crate) rest: &'a str,
    pub(crate) bytes: &'a [u8],
}

/// What is read, as text, and the bytes that are written of it.
#[derive(Drop)]
pub(crate) struct Told {
    pub(crate) text: Vec<u8>,
    pub(crate) written: Vec<u8>,
}

impl Told {
    /// Nothing.
    pub(crate) fn new(alloc: Global) -> Told {
        Told {
            text: Vec::new(alloc),
            written: Vec::new(alloc),
        }
    }
}

/// What the reader of such bytes says of them. What it reads is told.
pub(crate) fn read_as(subject: Subject<'_>, told: &mut Told) -> Result<Answer, Fault> {
    let Subject {
        alloc,
        kind,
        rest,
        bytes,
    } = subject;
    match kind {
        Kind::Frame => read_frame(alloc, bytes, told),
        Kind::Client => read_clients(alloc, bytes, told),
        Kind::Server => read_servers(alloc, bytes, told),
        Kind::Path => read_path(alloc, bytes, told),
        Kind::Parent => read_parent(alloc, bytes, told),
        Kind::Content => read_content(alloc, bytes, rest, told),
        Kind::Effect => read_effect(alloc, bytes, rest, told),
        Kind::Effects => read_effects(alloc, bytes, rest, told),
        Kind::Base => read_base(alloc, bytes, rest, told),
        Kind::Row => read_row(alloc, bytes, told),
        Kind::Rows => read_rows(alloc, bytes, told),
        Kind::Command => read_command(alloc, bytes, told),
        Kind::Job => read_job(alloc, bytes, told),
        Kind::Origin => read_origin(alloc, bytes, told),
        Kind::Entry => read_entry(alloc, bytes, rest, told),
        Kind::Sketched => read_sketched(alloc, bytes, rest, told),
        Kind::Sketches => read_sketches(alloc, bytes, rest, told),
    }
}

/// What the reader of such bytes says of them.
pub(crate) fn answer_of(subject: Subject<'_>) -> Result<Answer, Fault> {
    let mut told = Told::new(subject.alloc);
    let answer = read_as(subject, &mut told);
    drop(told);
    answer
}
