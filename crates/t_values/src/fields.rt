//! Fields, items and records in bytes that were written by hand.

ghost use Rattle.std.specs.Prelude.{◌≡◌, ℕ, ◌-◌, ◌++◌, [], ◌∷◌, length, nat_le, nat_lt, slice_index};
ghost use Rattle.std.specs.Int.{w8, w16};
ghost use Rattle.byte_fields.specs.Field.{digits, number_at, ruled};

use byte_fields::{
    Item, Spelled, TakeError, Taken, is_torn, put_each, put_u16, put_u32, put_u64, take_all,
    take_each, take_until_end, u8_at, u16_at, u32_at,
};
use std::alloc::{AllocError, Global};
use std::marker::Model;
use std::rt::HostRuntime;

/// What the bytes from here on may come to together.
#[derive(Clone, Copy)]
struct Room {
    left: u8,
}

impl Item<Room> for u8 {
    ghost item_at = { λ room. ruled (λ byte. nat_le byte room.left) (number_at w8) };

    ghost after = { λ room byte. record { left = room.left - byte } };

    #[tactic(auto, unfolding(byte_fields::specs::Field::ruled))]
    fn take_next(
        _alloc: Global,
        bytes: &[u8],
        at: usize,
        room: &mut Room,
    ) -> Result<(u8, usize), TakeError> {
        let (byte, next) = u8_at(bytes, at)?;
        if byte > room.left {
            return Err(TakeError::At(at));
        }
        room.left -= byte;
        Ok((byte, next))
    }
}

/// Bytes, each above the one before.
#[derive(Drop)]
struct Rising {
    bytes: Vec<u8>,
}

impl Model for Rising {
    ghost use Rattle.std.specs.Prelude.{ℕ, List};

    ghost Value = { List ℕ };

    ghost view = { λ rising. rising.bytes.items };
}

impl Rising {
    /// The last byte, or 0.
    fn last(&self) -> u8
        ensures { result ≡ slice_index self.now (length self.now - 1) }
    {
        if self.bytes.is_empty() {
            return 0;
        }
        self.bytes[self.bytes.len() - 1]
    }
}

impl Taken<u8> for Rising {
    ghost item_at = { λ seen. ruled (λ byte. nat_lt (slice_index seen (length seen - 1)) byte) (number_at w8) };

    ghost after = { λ seen byte. seen ++ byte ∷ [] };

    #[tactic(auto, unfolding(byte_fields::specs::Field::ruled))]
    fn take_next(&mut self, _alloc: Global, bytes: &[u8], at: usize) -> Result<usize, TakeError> {
        let (byte, next) = u8_at(bytes, at)?;
        if byte <= self.last() {
            return Err(TakeError::At(at));
        }
        self.bytes.push(byte)?;
        Ok(next)
    }
}

/// Two bytes.
#[derive(Clone, Copy)]
struct Mark {
    number: u16,
}

impl Spelled for Mark {
    ghost spelling = { λ mark. digits w16 mark.number };

    ghost fits = { λ _. Unit {0} };

    #[tactic(auto, using(byte_fields::proofs::Fronts::front_unchanged))]
    fn put(&self, out: &mut Vec<u8>) -> Result<(), AllocError> {
        put_u16(out, self.number)
    }
}

#[test]
fn items_are_taken_with_the_state_behind_them(rt: HostRuntime) -> Result<(), TakeError> {
    let mut room = Room { left: 10 };
    let (items, next) = take_each::<Room, u8>(rt.alloc(), &[9, 3, 7, 1], 1, 2, &mut room)?;
    assert!(rt; items.as_slice() == [3, 7].as_slice());
    assert!(rt; (next, room.left) == (3, 0));
    Ok(())
}

#[test]
fn items_are_taken_into_the_state(rt: HostRuntime) -> Result<(), TakeError> {
    let mut rising = Rising {
        bytes: Vec::new(rt.alloc()),
    };
    let next = take_all::<u8, Rising>(rt.alloc(), &[9, 3, 7, 1], 1, 2, &mut rising)?;
    assert!(rt; next == 3);
    assert!(rt; rising.bytes.as_slice() == [3, 7].as_slice());
    let refused = take_all::<u8, Rising>(rt.alloc(), &[9, 3, 7, 1], 3, 1, &mut rising);
    assert!(rt; refused == Err(TakeError::At(3)));
    Ok(())
}

#[test]
fn records_are_taken_up_to_a_torn_one(rt: HostRuntime) -> Result<(), TakeError> {
    let bytes = [9, 0, 0, 0, 1, 3, 0, 0, 0, 1, 7, 0, 0, 0, 2, 8];
    for (end, torn, taken) in [(16, 11, 2), (13, 11, 2), (11, 11, 2), (10, 6, 1), (5, 1, 0)] {
        let mut rising = Rising {
            bytes: Vec::new(rt.alloc()),
        };
        let at = take_until_end::<u8, Rising>(rt.alloc(), &bytes[..end], 1, &mut rising)?;
        assert!(rt; at == torn);
        assert!(rt; is_torn(&bytes[..end], at));
        assert!(rt; rising.bytes.as_slice() == &[3, 7][..taken]);
    }
    Ok(())
}

#[test]
fn whole_records_are_refused_where_they_are_faulty(rt: HostRuntime) {
    let falls = [0, 0, 0, 1, 3, 0, 0, 0, 1, 3];
    let leaves_a_byte = [0, 0, 0, 1, 3, 0, 0, 0, 2, 7, 8];
    let has_no_byte = [0, 0, 0, 1, 3, 0, 0, 0, 0];
    for (bytes, place) in [
        (falls.as_slice(), 9),
        (leaves_a_byte.as_slice(), 10),
        (has_no_byte.as_slice(), 9),
    ] {
        let mut rising = Rising {
            bytes: Vec::new(rt.alloc()),
        };
        let refused = take_until_end::<u8, Rising>(rt.alloc(), bytes, 0, &mut rising);
        assert!(rt; refused == Err(TakeError::At(place)));
    }
}

#[test]
fn items_are_put_in_order(rt: HostRuntime) -> Result<(), AllocError> {
    let mut out = Vec::new(rt.alloc());
    put_each::<Mark>(&[Mark { number: 258 }, Mark { number: 3 }], &mut out)?;
    assert!(rt; out.as_slice() == [1, 2, 0, 3].as_slice());
    Ok(())
}

#[test]
fn numbers_are_put_high_byte_first(rt: HostRuntime) -> Result<(), AllocError> {
    let mut out = Vec::new(rt.alloc());
    put_u16(&mut out, 258)?;
    put_u32(&mut out, 7)?;
    put_u64(&mut out, 65_536)?;
    assert!(rt; out.as_slice() == [1, 2, 0, 0, 0, 7, 0, 0, 0, 0, 0, 1, 0, 0].as_slice());
    Ok(())
}

#[test]
fn a_field_is_faulty_where_the_bytes_end(rt: HostRuntime) {
    assert!(rt; u16_at(&[9, 1, 2], 1) == Ok((258, 3)));
    assert!(rt; u16_at(&[9, 1, 2], 2) == Err(TakeError::At(2)));
    assert!(rt; u32_at(&[0, 0, 1], 0) == Err(TakeError::At(0)));
}
