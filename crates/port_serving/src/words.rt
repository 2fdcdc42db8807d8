// How many connections a run takes.
ghost use Rattle.std.specs.Prelude.{◌≡◌, ◌≤◌, IfSome};
ghost use Rattle.outside.specs.Port.{most_connections};
ghost use Rattle.port_serving.specs.Words.{count_of};

use outside::MOST_CONNECTIONS;
use program_words::printed_number;

/// How many connections the word of a count says, from 1 to 65,536; `None` for any other word.
pub fn connection_count(word: &str) -> Option<u32>
    ensures count { result ≡ count_of word.now }
    ensures range { IfSome result (λ count. (1 ≤ count) × (count ≤ most_connections)) }
{
    printed_number(word, 1, MOST_CONNECTIONS)
}
