//! Copies of messages.

use crate::message::Message;
use std::alloc::AllocError;
use vol_tree::TryCopy;

impl TryCopy for Message {
    fn copy(&self) -> Result<Message, AllocError> {
        let client = self.client();
        let number = self.number();
        Ok(match self {
            Message::Store { entries, .. } => Message::Store {
                client,
                number,
                entries: entries.copy()?,
            },
            Message::Operate { entry, .. } => Message::Operate {
                client,
                entry: entry.copy()?,
            },
            Message::Pull { .. } => Message::Pull { client, number },
            Message::Accepted { upto, .. } => Message::Accepted {
                client,
                number,
                upto: *upto,
            },
            Message::Stale {
                upto,
                path,
                theirs,
                ours,
                ..
            } => Message::Stale {
                client,
                number,
                upto: *upto,
                path: path.copy()?,
                theirs: *theirs,
                ours: *ours,
            },
            Message::Unfit {
                upto,
                index,
                fault,
                ..
            } => Message::Unfit {
                client,
                number,
                upto: *upto,
                index: *index,
                fault: fault.copy()?,
            },
            Message::Gap { last, .. } => Message::Gap {
                client,
                number,
                last: *last,
            },
            Message::Snapshot { last, rows, .. } => Message::Snapshot {
                client,
                number,
                last: *last,
                rows: rows.copy()?,
            },
            Message::Done { .. } => Message::Done { client, number },
            Message::Declined { cause, .. } => Message::Declined {
                client,
                number,
                cause: cause.copy()?,
            },
            Message::Full {
                upto,
                index,
                fault,
                ..
            } => Message::Full {
                client,
                number,
                upto: *upto,
                index: *index,
                fault: fault.copy()?,
            },
            Message::Malformed { code, offset } => Message::Malformed {
                code: *code,
                offset: *offset,
            },
        })
    }
}
