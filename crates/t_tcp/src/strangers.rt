// Peers that send no message.
use outside::Port;
use real_edge::TcpPort;
use std::io;
use std::net::Net;
use std::process::Processes;
use std::rt::{Env, Files};
use std::time::Clock;
use t_tcp_probe::{CLIENT, address_of, bound, call_on, print_answer, print_ended, start_client_at};

/// A peer that connects, sends these bytes, and listens.
#[derive(Clone, Copy)]
pub(crate) struct Visit {
    pub(crate) name: &'static str,
    pub(crate) bytes: &'static [u8],
}

/// Peers that send no message, each in another way.
pub(crate) const VISITS: [Visit; 5] = [
    Visit {
        name: "nothing",
        bytes: b"",
    },
    Visit {
        name: "half a length",
        bytes: b"\0\0",
    },
    Visit {
        name: "half a frame",
        bytes: b"\0\0\0\x2d\x03\x01\x01",
    },
    Visit {
        name: "a length over the limit",
        bytes: b"\x03\xff\xff\xfd and more",
    },
    Visit {
        name: "a scan",
        bytes: b"GET / HTTP/1.0\r\n\r\n",
    },
];

/// What is no reply to the first entry of client 1: nothing, half a length, a refusal of the frame, the acceptance of
/// another entry, one for another client, one that is cut short, a length over the limit, and a request.
pub(crate) const FALSE_REPLIES: [&[u8]; 8] = [
    b"",
    b"\0\0",
    b"\0\0\0\x10\x03\x1f\0\0\0\0\0\0\0\0\0\x01\0\0\0\0",
    b"\0\0\0\x13\x03\x11\x01\0\0\0\0\0\0\0\x02\0\0\0\0\0\0\0\x02",
    b"\0\0\0\x13\x03\x11\x02\0\0\0\0\0\0\0\x01\0\0\0\0\0\0\0\x01",
    b"\0\0\0\x13\x03\x11\x01\0\0\0\0\0\0\0\x01\0\0\0\0\0\0\0",
    b"\x03\xff\xff\xfd and more",
    b"\0\0\0\x0b\x03\x03\x01\0\0\0\0\0\0\0\x01",
];

/// Calls on the port as each of the strangers.
pub(crate) fn call_all<R: AllocGlobal + Net + Clock>(
    rt: &R,
    port: &TcpPort<'_, R>,
) -> io::Result<Vec<R::Stream>> {
    let address = address_of(rt.alloc(), port)?;
    let mut streams = Vec::new(rt.alloc());
    let called = add_all(rt, &address, &mut streams);
    drop(address);
    match called {
        Ok(()) => Ok(streams),
        Err(error) => {
            drop(streams);
            Err(error)
        }
    }
}

fn add_all<R: Net>(rt: &R, address: &str, streams: &mut Vec<R::Stream>) -> io::Result<()> {
    for stranger in VISITS {
        let stream = call_on(rt, address, stranger.bytes)?;
        streams.push(stream)?;
    }
    Ok(())
}

/// Prints what each stranger was answered that was served.
pub(crate) fn print_answers<R: AllocGlobal + Net + Print>(
    rt: &R,
    served: io::Result<()>,
    streams: Vec<R::Stream>,
) -> io::Result<()> {
    if let Err(error) = served {
        drop(streams);
        return Err(error);
    }
    for (stranger, stream) in VISITS.iter().zip(streams) {
        print_answer(rt, stranger.name, stream)?;
    }
    Ok(())
}

/// Answers each ask of a client by one of these, and prints how it ends.
pub(crate) fn mislead_by<R: Processes + Files + Env + AllocGlobal + Net + Clock + Print>(
    rt: &R,
    replies: &[&[u8]; 8],
) -> io::Result<()> {
    let mut port = bound(rt)?;
    match start_client_at(rt, &port) {
        Ok(client) => {
            answer_by(&mut port, replies);
            drop(port);
            print_ended(rt, CLIENT, client)
        }
        Err(error) => {
            drop(port);
            Err(error)
        }
    }
}

/// Answers asks at the port, one by each of these.
pub(crate) fn answer_by<R: Net + Clock>(port: &mut TcpPort<'_, R>, replies: &[&[u8]]) {
    for reply in replies {
        if let Ok(Some(_frame)) = port.take() {
            let _answered = port.answer(reply);
        }
    }
}
