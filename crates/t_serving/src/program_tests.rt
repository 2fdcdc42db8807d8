//! What the program of a server, and that of a surrogate, show beside their runs.

use crate::probe::shows;
use std::test::Fail;

/// What a server says of its version.
const SERVER_VERSION: &str = "\
server 0.1.0
frames: version 3; images: written: version 2; read: versions 1 and 2
kit: rattle-kit-13f logic dac8208d650f15bf
";

/// And a surrogate of its own.
const SURROGATE_VERSION: &str = "\
surrogate 0.1.0
frames: version 3
kit: rattle-kit-13f logic dac8208d650f15bf
";

#[test]
fn each_page_of_a_server_has_its_text(rt: HostRuntime) -> Result<(), Fail> {
    let pages = &server_prog::PAGES;
    let help = "Usage: server run LISTEN IMAGE COUNT\n";
    assert!(rt; shows(rt.alloc(), pages, "--help", help)?);
    assert!(rt; shows(rt.alloc(), pages, "--version", SERVER_VERSION)?);
    Ok(())
}

#[test]
fn each_page_of_a_surrogate_has_its_text(rt: HostRuntime) -> Result<(), Fail> {
    let pages = &surrogate_prog::PAGES;
    let help = "Usage: surrogate run LISTEN SERVER WORK COUNT\n";
    assert!(rt; shows(rt.alloc(), pages, "--help", help)?);
    assert!(rt; shows(rt.alloc(), pages, "--version", SURROGATE_VERSION)?);
    Ok(())
}
