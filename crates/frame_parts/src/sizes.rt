// How many bytes a part is to have.
ghost use Rattle.std.specs.Prelude.{◌≡◌};
ghost use Rattle.frame_parts.specs.Sizes.{next_size, size_after};

/// How many bytes the first part has that has any.
pub const FIRST_SIZE: u32 = 8_192;

/// The fewest that one has behind it.
pub const LEAST_SIZE: u32 = 1_024;

/// The most that one has.
pub const MOST_SIZE: u32 = 1_048_576;

/// Within fewer seconds a part was quick.
const QUICK_SECONDS: u64 = 4;

/// Beyond so many seconds it was slow.
const SLOW_SECONDS: u64 = 15;

/// What became of a part that was sent.
#[derive(Clone, Copy)]
pub enum Outcome {
    /// Its answer came after so many seconds.
    Answered(u64),
    /// The link broke before its answer came.
    Broke,
}

/// How many bytes the part behind one of so many bytes has. The first part has none: its answer says what is there.
pub fn next_size(size: u32, outcome: Outcome) -> u32
    ensures { result ≡ next_size size outcome }
{
    match outcome {
        Outcome::Broke => LEAST_SIZE.max(size / 2),
        Outcome::Answered(seconds) => size_after(size, seconds),
    }
}

/// The same behind a part that was answered after so many seconds.
fn size_after(size: u32, seconds: u64) -> u32
    ensures { result ≡ size_after size seconds }
{
    if size == 0 {
        return FIRST_SIZE;
    }
    if seconds < QUICK_SECONDS {
        return MOST_SIZE.min(size.saturating_mul(2));
    }
    if seconds > SLOW_SECONDS {
        return LEAST_SIZE.max(size / 2);
    }
    size
}
