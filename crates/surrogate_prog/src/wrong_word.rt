// Which word is wrong.
use crate::program::NAME;
use port_serving::connection_count;

/// Tells on standard error which of the words behind the program's name is wrong.
pub(crate) fn tell_wrong_word<R: Eprint>(rt: &R, words: &[String]) {
    let wrong = wrong_word(words);
    let _ = eprintln!(rt; "{NAME}: {wrong}");
}

/// What is wrong with words of no form.
fn wrong_word(words: &[String]) -> &'static str {
    let [run, listen, server, work, count] = words else {
        return "the words are run LISTEN SERVER WORK COUNT";
    };
    if run.as_bytes() != b"run".as_slice() {
        "the first word is run"
    } else if listen.is_empty() {
        "LISTEN is empty"
    } else if server.is_empty() {
        "SERVER is empty"
    } else if work.is_empty() {
        "WORK is empty"
    } else if connection_count(count.as_str()).is_none() {
        "COUNT is from 1 to 65536"
    } else {
        "the words are run LISTEN SERVER WORK COUNT"
    }
}
