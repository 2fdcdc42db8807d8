// Numbers as words.
ghost use Rattle.std.specs.Prelude.{◌≡◌, ◌≤◌, IfSome};
ghost use Rattle.program_words.specs.Numbers.{printed_number};
ghost use Rattle.program_words.specs.Inside.{begins_as_number};

/// The number that a word prints, where it is one from `low` to `high`. A word with a leading zero or a sign prints none.
pub fn printed_number(word: &str, low: u32, high: u32) -> Option<u32>
    requires { 1 ≤ low }
    ensures number { result ≡ printed_number low high word.now }
    ensures range { IfSome result (λ n. (low ≤ n) × (n ≤ high)) }
{
    if !begins_as_number(word.as_bytes()) {
        return None;
    }
    match word.parse::<u32>() {
        Ok(number) if low <= number && number <= high => Some(number),
        _ => None,
    }
}

/// Whether it begins with a digit from 1 to 9.
fn begins_as_number(word: &[u8]) -> bool
    ensures { result ≡ begins_as_number word.now }
{
    matches!(word, [b'1'..=b'9', ..])
}
