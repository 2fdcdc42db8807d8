// Bytes that are looked at.

use crate::frames::framed;
use crate::kinds::{Kind, Look};
use crate::looks::look_at;
use crate::readers::Subject;
use std::alloc::Global;
use std::mem;
use t_scene_files::{Fault, Line, Report};

/// The bytes that a scene speaks of.
#[derive(Drop)]
pub(crate) struct Bytes {
    alloc: Global,
    kind: Kind,
    /// What stood behind the kind in its line.
    rest: String,
    bytes: Vec<u8>,
    /// Whether there are any, and whether they were looked at.
    is_given: bool,
    is_looked_at: bool,
}

const NO_BYTES: Fault = Fault::Line("there are no bytes");

const NOT_LOOKED_AT: Fault = Fault::Line("the last bytes are not looked at");

impl Bytes {
    /// No bytes.
    pub(crate) fn new(alloc: Global) -> Bytes {
        Bytes {
            alloc,
            kind: Kind::Frame,
            rest: String::new(alloc),
            bytes: Vec::new(alloc),
            is_given: false,
            is_looked_at: true,
        }
    }

    /// From here on these bytes are looked at.
    fn give(&mut self, kind: Kind, rest: String, bytes: Vec<u8>) {
        self.kind = kind;
        drop(mem::replace(&mut self.rest, rest));
        drop(mem::replace(&mut self.bytes, bytes));
        self.is_given = true;
        self.is_looked_at = false;
    }

    /// From here on the block of the line is looked at.
    pub(crate) fn give_block(&mut self, kind: Kind, line: &Line<'_>) -> Result<(), Fault> {
        if !self.is_looked_at {
            return Err(NOT_LOOKED_AT);
        }
        let rest = String::from_str(self.alloc, line.rest)?;
        let bytes = line.block.to_vec(self.alloc)?;
        self.give(kind, rest, bytes);
        Ok(())
    }

    /// From here on the frame is looked at that has the block behind its length.
    pub(crate) fn give_payload(&mut self, block: &[u8]) -> Result<(), Fault> {
        if !self.is_looked_at {
            return Err(NOT_LOOKED_AT);
        }
        let frame = framed(self.alloc, block)?;
        self.give(Kind::Frame, String::new(self.alloc), frame);
        Ok(())
    }

    /// Looks at the bytes as the line says.
    pub(crate) fn look(
        &mut self,
        report: &mut Report,
        look: Look,
        line: &Line<'_>,
    ) -> Result<(), Fault> {
        if !self.is_given {
            return Err(NO_BYTES);
        }
        self.is_looked_at = true;
        let subject = Subject {
            alloc: self.alloc,
            kind: self.kind,
            rest: &self.rest,
            bytes: &self.bytes,
        };
        look_at(report, subject, look, line)?;
        report.look();
        Ok(())
    }

    /// There are no bytes.
    pub(crate) fn begin(&mut self) {
        let fresh = Bytes::new(self.alloc);
        drop(mem::replace(self, fresh));
    }

    pub(crate) fn is_looked_at(&self) -> bool {
        self.is_looked_at
    }
}
