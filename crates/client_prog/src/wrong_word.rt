// Which word is wrong.
use crate::words::{is_number, seed_of};
use client_drill::MAX_STEPS;
use client_proof::root_of_word;
use client_shelf::are_apart;
use program_words::{is_path_text, printed_number};
use std::fmt::{self, Display, Formatter};
use surrogate_pool::are_addresses;

/// What is wrong with words of no form.
#[derive(Clone, Copy, Debug, PartialEq, Eq)]
pub(crate) enum WrongWord {
    /// The first word names no form.
    First,
    /// There are more or fewer words than these.
    Count(&'static str),
    /// The word that is called so is empty.
    Empty(&'static str),
    /// The word that is called so is no client's number.
    Number(&'static str),
    /// The addresses of surrogates are none.
    Surrogate,
    Seed,
    Steps,
    /// Both clients have one number.
    SameNumber,
    /// One image is the other, or belongs to it.
    SameImage,
    Root,
    /// The path begins with a slash.
    Slash,
    Path,
}

impl Display for WrongWord {
    fn fmt<W: fmt::Write>(&self, f: &mut Formatter<W>) -> fmt::Result {
        match self {
            WrongWord::First => f.write_str("the first word is run, shelve, check or drill"),
            WrongWord::Count(words) => write!(f, "the words are {words}"),
            WrongWord::Empty(word) => write!(f, "{word} is empty"),
            WrongWord::Number(word) => write!(f, "{word} is from 1 to 64"),
            WrongWord::Surrogate => {
                f.write_str("SURROGATE is one address, or up to eight joined by ',', or -")
            }
            WrongWord::Seed => f.write_str("SEED is from 0 to 65535"),
            WrongWord::Steps => write!(f, "COUNT is from 1 to {MAX_STEPS}"),
            WrongWord::SameNumber => f.write_str("NEW is another number than NUMBER"),
            WrongWord::SameImage => {
                f.write_str("NEWIMAGE is another file than IMAGE, and none that belongs to it")
            }
            WrongWord::Root => f.write_str("ROOT is 64 hexadecimal digits"),
            WrongWord::Slash => f.write_str("PATH has no / at its front"),
            WrongWord::Path => f.write_str("PATH is names joined by /"),
        }
    }
}

/// What is wrong with the words, where that is known.
pub(crate) fn wrong_word(words: &[String]) -> Option<WrongWord> {
    let Some((first, rest)) = words.split_first() else {
        return Some(WrongWord::First);
    };
    match first.as_bytes() {
        b"run" => wrong_of_run(rest),
        b"drill" => wrong_of_drill(rest),
        b"shelve" => wrong_of_shelve(rest),
        b"check" => wrong_of_check(rest),
        _ => Some(WrongWord::First),
    }
}

/// The first of the words that are called so that is empty.
fn first_empty(words: &[(&'static str, &String)]) -> Option<WrongWord> {
    let (name, _word) = words.iter().find(|(_name, word)| word.is_empty())?;
    Some(WrongWord::Empty(*name))
}

fn wrong_of_run(words: &[String]) -> Option<WrongWord> {
    let [number, image, server, surrogate, work] = words else {
        return Some(WrongWord::Count("run NUMBER IMAGE SERVER SURROGATE WORK"));
    };
    if !is_number(number.as_str()) {
        return Some(WrongWord::Number("NUMBER"));
    }
    let empty = first_empty(&[("IMAGE", image), ("SERVER", server), ("WORK", work)]);
    if empty.is_none() && !are_addresses(surrogate.as_bytes()) {
        return Some(WrongWord::Surrogate);
    }
    empty
}

fn wrong_of_drill(words: &[String]) -> Option<WrongWord> {
    let [seed, count] = words else {
        return Some(WrongWord::Count("drill SEED COUNT"));
    };
    if seed_of(seed.as_str()).is_none() {
        Some(WrongWord::Seed)
    } else if printed_number(count.as_str(), 1, MAX_STEPS).is_none() {
        Some(WrongWord::Steps)
    } else {
        None
    }
}

fn wrong_of_shelve(words: &[String]) -> Option<WrongWord> {
    let [number, image, new, new_image, server, folder] = words else {
        return Some(WrongWord::Count("shelve NUMBER IMAGE NEW NEWIMAGE SERVER FOLDER"));
    };
    if !is_number(number.as_str()) {
        return Some(WrongWord::Number("NUMBER"));
    }
    if !is_number(new.as_str()) {
        return Some(WrongWord::Number("NEW"));
    }
    if number.as_bytes() == new.as_bytes() {
        return Some(WrongWord::SameNumber);
    }
    let names = [
        ("IMAGE", image),
        ("NEWIMAGE", new_image),
        ("SERVER", server),
        ("FOLDER", folder),
    ];
    let empty = first_empty(&names);
    if empty.is_none() && !are_apart(image.as_bytes(), new_image.as_bytes()) {
        return Some(WrongWord::SameImage);
    }
    empty
}

fn wrong_of_check(words: &[String]) -> Option<WrongWord> {
    let [root, path] = words else {
        return Some(WrongWord::Count("check ROOT PATH"));
    };
    if root_of_word(root.as_bytes()).is_none() {
        Some(WrongWord::Root)
    } else if path.as_bytes().first() == Some(&b'/') {
        Some(WrongWord::Slash)
    } else if !is_path_text(path.as_bytes()) {
        Some(WrongWord::Path)
    } else {
        None
    }
}
