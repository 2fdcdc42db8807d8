//! Which bytes are the file of a key, and which addresses are of this machine alone.

use crate::{is_loopback, key_in};
use std::rt::HostRuntime;
use std::test::Fail;

/// The file of a key, each byte of which is 0x1f.
const FILE: &[u8] = b"1f1f1f1f1f1f1F1f1f1f1f1f1f1f1f1f1f1f1f1f1f1f1f1f1f1f1f1f1f1f1f1F\n";

#[test]
fn a_key_has_64_digits_and_a_line_end(rt: HostRuntime) -> Result<(), Fail> {
    assert!(rt; key_in(FILE) == Some([0x1f; 32]));
    let none: [&[u8]; 5] = [
        b"",
        &FILE[..64],
        b"1f1f1f1f1f1f1f1f1f1f1f1f1f1f1f1f1f1f1f1f1f1f1f1f1f1f1f1f1f1f1f1f ",
        b"1f1f1f1f1f1f1f1f1f1f1f1f1f1f1f1f1f1f1f1f1f1f1f1f1f1f1f1f1f1f1f1g\n",
        b"1f1f1f1f1f1f1f1f1f1f1f1f1f1f1f1f1f1f1f1f1f1f1f1f1f1f1f1f1f1f1f1f\n\n",
    ];
    for text in none {
        assert!(rt; key_in(text).is_none());
    }
    Ok(())
}

#[test]
fn only_literals_are_of_this_machine_alone(rt: HostRuntime) -> Result<(), Fail> {
    for here in ["127.0.0.1:7001", "127.8.9.10:0", "[::1]:7001"] {
        assert!(rt; is_loopback(here));
    }
    let elsewhere = [
        "0.0.0.0:7001",
        "128.0.0.1:7001",
        "[::]:7001",
        "[::ffff:127.0.0.1]:7001",
        "localhost:7001",
        "127.0.0.1",
        "",
    ];
    for address in elsewhere {
        assert!(rt; !is_loopback(address));
    }
    Ok(())
}
