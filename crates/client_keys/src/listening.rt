// Who may be reached without keys.
use std::env::{self, VarError};
use std::net::SocketAddr;
use std::rt::Env;
use thiserror::Error;

/// Says whether whoever reaches a program without keys may run commands there: 0 or 1.
const OPEN: &str = "HAURPIKO_OPEN";

/// Why the environment does not say it.
#[derive(Clone, Copy, Debug, PartialEq, Eq, Error)]
pub enum OpenError {
    /// Memory ran out.
    #[error("out of memory")]
    Memory,
    /// It has another value.
    #[error("HAURPIKO_OPEN is neither 0 nor 1")]
    Value,
}

/// Whether the environment lets whoever reaches a program without keys run commands there. Where it says nothing, it does not.
///
/// # Errors
///
/// `Value` where the variable is neither 0 nor 1, and want of memory.
pub fn may_be_open<R: Env + AllocGlobal>(host: &R) -> Result<bool, OpenError> {
    match env::var(host, OPEN) {
        Ok(value) => {
            let said = said(value.as_str());
            drop(value);
            said
        }
        Err(VarError::NotPresent) => Ok(false),
        Err(VarError::NotUnicode) => Err(OpenError::Value),
        Err(VarError::OutOfMemory) => Err(OpenError::Memory),
    }
}

/// What a value of the variable says.
fn said(value: &str) -> Result<bool, OpenError> {
    match value {
        "0" => Ok(false),
        "1" => Ok(true),
        _ => Err(OpenError::Value),
    }
}

/// Whether an address with its port is reached from this machine alone: a literal of 127.0.0.0/8 or ::1. A name is taken for elsewhere.
pub fn is_loopback(address: &str) -> bool {
    match address.parse::<SocketAddr>() {
        Ok(address) => address.ip().is_loopback(),
        Err(_) => false,
    }
}
