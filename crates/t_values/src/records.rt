//! A record that is written by itself.

use std::alloc::{AllocError, Global};
use std::rt::HostRuntime;
use store_image::{ClientRecord, write_client_record};

/// The record that entry 3 was acknowledged: its size, its kind, and the number.
const ACKED: [u8; 13] = [0, 0, 0, 9, 2, 0, 0, 0, 0, 0, 0, 0, 3];

/// Whether the record of this acknowledged number is written so.
fn is_written_so(alloc: Global, number: u64, by_hand: &[u8]) -> Result<bool, AllocError> {
    let record = ClientRecord::Acked(number);
    let written = write_client_record(alloc, &record);
    drop(record);
    let written = written?;
    let same = written.as_slice() == by_hand;
    drop(written);
    Ok(same)
}

#[test]
fn a_number_is_written_as_by_hand(rt: HostRuntime) -> Result<(), AllocError> {
    assert!(rt; is_written_so(rt.alloc(), 3, &ACKED)?);
    Ok(())
}
