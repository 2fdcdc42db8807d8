// Connections over TCP.
ghost use Rattle.std.specs.Prelude.{◌≡◌, ◌-◌, ◌↔◌, None, Ok, Err, IfOk, OnErr};
ghost use Rattle.outside.specs.Outside.{Told, CountsFault};
ghost use Rattle.outside.specs.Port.{AddsTalks, talks_begun, AnswersLast, most_connections};

use crate::connections::Connections;
use crate::faults::count_fault;
use crate::logged_port::PeerPort;
use outside::{MOST_CONNECTIONS, Port, PortError};
use sealed_frames::SealError;
use std::alloc::Global;
use std::io;
use std::net::{Net, SocketAddr};
use std::time::Clock;

/// Takes connections over TCP, each with one frame and its answer. The frames of many come in side by side, and their answers go
/// out so: the first one that is whole is taken first, and no peer is waited for while another one is there.
#[derive(Drop)]
pub struct TcpPort<'a, N: Net + Clock> {
    connections: Connections<'a, N>,
    /// The address at which it listens.
    pub address: &'a str,
    left: u32,
    faults: u64,
}

impl<'a, N: Net + Clock> TcpPort<'a, N> {
    /// Listens at the address, as `127.0.0.1:7001`, and takes 65,536 connections there.
    ///
    /// # Errors
    ///
    /// The platform's, where the address is of no form or in use.
    pub fn bind(alloc: Global, net: &'a N, address: &'a str) -> io::Result<TcpPort<'a, N>>
        ensures { IfOk result (λ port. (port.left ≡ most_connections) × (port.faults ≡ 0) × (port.address.now ≡ address.now)) }
    {
        Ok(TcpPort {
            connections: Connections::listen(alloc, net, address)?,
            address,
            left: MOST_CONNECTIONS,
            faults: 0,
        })
    }

    /// The number of the port, which the system chose where the address had 0.
    ///
    /// # Errors
    ///
    /// The platform's.
    pub fn number(&self) -> io::Result<u16> {
        self.connections.number()
    }

    /// Takes no connection more, sends what is left of the answers, and lets their peers end.
    pub fn finish(self) {
        self.connections.finish();
    }
}

/// What came of a connection, where a failure is counted. Want of memory for a frame ends its connection alone.
fn counted<T>(came: io::Result<T>, faults: &mut u64) -> Result<T, PortError>
    ensures ok { IfOk came (λ value. result ≡ Ok value) }
    ensures err { OnErr came (result ≡ Err PortError.Failed) }
    ensures cause { CountsFault PortError.Failed faults.old faults.new result }
{
    match came {
        Ok(value) => Ok(value),
        Err(_) => {
            count_fault(faults);
            Err(PortError::Failed)
        }
    }
}

impl<'a, N: Net + Clock> PeerPort for TcpPort<'a, N> {
    fn peer(&self) -> Option<SocketAddr> {
        self.connections.peer()
    }

    fn refusal(&self) -> Option<SealError> {
        None
    }
}

impl<'a, N: Net + Clock> Port for TcpPort<'a, N> {
    ghost tells = { λ p. record { left = p.left; talks = None; faults = p.faults } };

    fn take(&mut self) -> Result<Option<Vec<u8>>, PortError>
        ensures left { self.new.left ≡ self.old.left - 1 }
        ensures none { (result ≡ Ok None) ↔ (self.old.left ≡ 0) }
        ensures talks { AddsTalks None None (talks_begun result) }
        ensures cause { CountsFault PortError.Failed self.old.faults self.new.faults result }
    {
        if self.left == 0 {
            return Ok(None);
        }
        self.left -= 1;
        let came = self.connections.take();
        let frame = counted(came, &mut self.faults)?;
        Ok(Some(frame))
    }

    fn answer(&mut self, frame: &[u8]) -> Result<(), PortError>
        ensures left { self.new.left ≡ self.old.left }
        ensures talks { Told None None (AnswersLast frame.now result) }
        ensures cause { CountsFault PortError.Failed self.old.faults self.new.faults result }
    {
        let sent = self.connections.answer(frame);
        counted(sent, &mut self.faults)
    }
}
