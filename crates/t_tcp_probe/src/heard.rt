// Asks that go by on their way to a peer, and what can be done with them.
use crate::calling::answer_of;
use crate::ending::print_ended;
use crate::starting::CLIENT;
use outside::Port;
use real_edge::TcpPort;
use std::io::{self, ErrorKind};
use std::net::Net;
use std::process::{Child, Processes};
use std::time::Clock;

/// An ask that went by, and the answer to it, as they stood on the link.
#[derive(Debug, Drop)]
pub struct Heard {
    pub ask: Vec<u8>,
    pub answer: Vec<u8>,
}

impl Heard {
    /// Carries the next ask at the port to the peer at this address, and its answer back.
    ///
    /// # Errors
    ///
    /// `NotConnected` where none comes or its answer does not go, and the platform's.
    pub fn carry<R: AllocGlobal + Net + Clock>(
        rt: &R,
        port: &mut TcpPort<'_, R>,
        address: &str,
    ) -> io::Result<Heard> {
        let Ok(Some(ask)) = port.take() else {
            return Err(io::Error::from(ErrorKind::NotConnected));
        };
        match answer_of(rt, address, &ask) {
            Ok(answer) => Heard { ask, answer }.handed_back(port),
            Err(error) => {
                drop(ask);
                Err(error)
            }
        }
    }

    /// Carries one ask of a client that was started at the port, and prints how the client ends.
    ///
    /// # Errors
    ///
    /// As `carry`.
    pub fn of_client<R: AllocGlobal + Net + Clock + Processes + Print>(
        rt: &R,
        mut port: TcpPort<'_, R>,
        client: Child<R::Started>,
        address: &str,
    ) -> io::Result<Heard> {
        let heard = Heard::carry(rt, &mut port, address);
        drop(port);
        let printed = print_ended(rt, CLIENT, client);
        let heard = heard?;
        match printed {
            Ok(()) => Ok(heard),
            Err(error) => {
                drop(heard);
                Err(error)
            }
        }
    }

    /// It, once its answer went to who asked at the port.
    fn handed_back<R: Net + Clock>(self, port: &mut TcpPort<'_, R>) -> io::Result<Heard> {
        match port.answer(&self.answer) {
            Ok(()) => Ok(self),
            Err(_) => {
                drop(self);
                Err(io::Error::from(ErrorKind::NotConnected))
            }
        }
    }

    /// Asks once more with the very same bytes, and prints whether the answer is the same.
    ///
    /// # Errors
    ///
    /// The platform's.
    pub fn repeat<R: AllocGlobal + Net + Print>(
        &self,
        rt: &R,
        name: &str,
        address: &str,
    ) -> io::Result<()> {
        let answer = answer_of(rt, address, &self.ask)?;
        let is_same = answer.as_slice() == self.answer.as_slice();
        drop(answer);
        if is_same {
            println!(rt; "{name}: the same answer")
        } else {
            println!(rt; "{name}: another answer")
        }
    }
}
