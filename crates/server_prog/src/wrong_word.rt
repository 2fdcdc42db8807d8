// Which word is wrong.
use crate::program::NAME;
use port_serving::connection_count;
use program_words::is_path_text;

/// Tells on standard error which of the words behind the program's name is wrong.
pub(crate) fn tell_wrong_word<R: Eprint>(rt: &R, words: &[String]) {
    let wrong = wrong_word(words);
    let _ = eprintln!(rt; "{NAME}: {wrong}");
}

/// What is wrong with words of no form.
fn wrong_word(words: &[String]) -> &'static str {
    let Some((first, rest)) = words.split_first() else {
        return "the first word is run, root or prove";
    };
    match first.as_bytes() {
        b"run" => wrong_of_run(rest),
        b"root" => wrong_of_root(rest),
        b"prove" => wrong_of_prove(rest),
        _ => "the first word is run, root or prove",
    }
}

fn wrong_of_run(words: &[String]) -> &'static str {
    let [listen, image, count] = words else {
        return "the words are run LISTEN IMAGE COUNT";
    };
    if listen.is_empty() {
        "LISTEN is empty"
    } else if image.is_empty() {
        "IMAGE is empty"
    } else if connection_count(count.as_str()).is_none() {
        "COUNT is from 1 to 65536"
    } else {
        "the words are run LISTEN IMAGE COUNT"
    }
}

fn wrong_of_root(words: &[String]) -> &'static str {
    match words {
        [_image] => "IMAGE is empty",
        _ => "the words are root IMAGE",
    }
}

fn wrong_of_prove(words: &[String]) -> &'static str {
    let [image, path] = words else {
        return "the words are prove IMAGE PATH";
    };
    if image.is_empty() {
        "IMAGE is empty"
    } else if path.as_bytes().first() == Some(&b'/') {
        "PATH has no / at its front"
    } else if !is_path_text(path.as_bytes()) {
        "PATH is names joined by /"
    } else {
        "the words are prove IMAGE PATH"
    }
}
