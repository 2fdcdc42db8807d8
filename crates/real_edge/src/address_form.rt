// Whether an address has the form of one.

/// What an address lacks that is to have the form HOST:PORT.
#[derive(Clone, Copy, Debug, PartialEq, Eq)]
pub enum AddressFault {
    /// There is no `:`.
    NoPort,
    /// Nothing stands before the last one.
    NoHost,
    /// What stands behind it is no number from 1 to 65535.
    OtherPort,
}

/// What the address lacks, where it lacks something.
pub fn address_fault(address: &str) -> Option<AddressFault> {
    let Some((host, port)) = address.rsplit_once(':') else {
        return Some(AddressFault::NoPort);
    };
    if host.is_empty() {
        return Some(AddressFault::NoHost);
    }
    if is_port(port) {
        None
    } else {
        Some(AddressFault::OtherPort)
    }
}

/// Whether a text is the number of a port.
fn is_port(text: &str) -> bool {
    matches!(text.parse::<u16>(), Ok(number) if number > 0)
}

/// Tells on standard error that one of the addresses that a word joins has no form of one, in a line that begins with the program's
/// name and what the word is.
pub fn tell_addresses<R: Eprint>(rt: &R, program: &str, what: &str, word: &[u8]) {
    let Ok(word) = str::from_utf8(word) else {
        return;
    };
    for address in word.split(',') {
        let fault = match address_fault(address) {
            None => continue,
            Some(AddressFault::NoPort) => "has no port",
            Some(AddressFault::NoHost) => "has no host",
            Some(AddressFault::OtherPort) => "has no port from 1 to 65535",
        };
        let _ = eprintln!(rt; "{program}: {what} {address} {fault}: it is HOST:PORT");
    }
}
