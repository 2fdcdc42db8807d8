// The first bytes of a name as one number, by which most names are told apart.
ghost use Rattle.std.specs.Prelude.{◌≡◌, get_or};
ghost use Rattle.byte_fields.specs.Codec.{IsBytes};
ghost use Rattle.tree_slots.specs.Head.{head_bytes, name_head};

/// How many bytes a head has.
const HEAD: usize = 8;

/// The first bytes of a name as one number, the first byte highest; behind the name's end are zeros. Names whose heads differ are
/// in the order of their heads.
pub(crate) fn head_of(name: &[u8]) -> u64
    requires { IsBytes name.now }
    ensures { result ≡ name_head head_bytes name.now }
{
    let mut head: u64 = 0;
    for k in 0..HEAD {
        head = head * 256 + byte_of(name, k) as u64;
    }
    head
}

/// Byte `k` of a name, and zero behind its end.
fn byte_of(name: &[u8], k: usize) -> u8
    ensures { result ≡ get_or name.now k 0 }
{
    match name.get(k) {
        Some(byte) => *byte,
        None => 0,
    }
}
