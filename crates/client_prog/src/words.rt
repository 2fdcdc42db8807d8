//! The words behind the name of the client program: their forms, and what they say.

ghost use Rattle.std.specs.Prelude.{◌≡◌, ◌≤◌, IfSome, MatchOption, None, Some, is_some, map};
ghost use Rattle.program_words.specs.Numbers.{printed_number};
ghost use Rattle.std.specs.Option.{option_copied};
ghost use Rattle.std.specs.String.{string_bytes};
ghost use Rattle.wire_frames.specs.Limits.{max_client};
ghost use Rattle.client_drill.specs.Limits.{max_steps};
ghost use Rattle.client_shelf.specs.Shelving.{said, IsShelving};
ghost use Rattle.client_prog.specs.Words.{run_of, is_run, address_of, drill_of, seed_of};
ghost use Rattle.client_prog.specs.Words.{shelve_of, is_shelve, checked_by, check_of, form_of};
ghost use Rattle.client_prog.specs.Inside.{run_said, drill_said, IsSaid, IsForm};

use client_drill::MAX_STEPS;
use client_proof::root_of_word;
use client_shelf::{Shelving, are_apart};
use program_words::{is_path_text, printed_number};
use surrogate_pool::are_addresses;
use wire_frames::CLIENTS;

/// The greatest seed of a drill.
const MAX_SEED: u32 = 65_535;

/// What the words behind the program's name ask for.
#[derive(Debug, Drop)]
pub enum Form<'a> {
    /// To answer the lines of an input.
    Run(RunWords<'a>),
    /// To make a large run, and tell what came of it.
    Drill(DrillWords),
    /// To set a stuck log aside.
    Shelve(Shelving<'a>),
    /// To check a certificate.
    Check(CheckWords<'a>),
}

/// What the words of a run say.
#[derive(Debug, Drop)]
pub struct RunWords<'a> {
    /// The number of the client, from 1 to 64.
    pub client: u8,
    /// The name of the client's image, which is not empty.
    pub image: &'a [u8],
    /// The address of the server, which is not empty.
    pub server: &'a [u8],
    /// The addresses of the surrogates, joined by commas, where there are any: at most eight, and none is empty.
    pub surrogate: Option<&'a [u8]>,
    /// The work folder, which is not empty.
    pub work: &'a [u8],
}

/// What the words of a drill say.
#[derive(Debug, Drop)]
pub struct DrillWords {
    /// The number from which it is made.
    pub seed: u16,
    /// Of how many steps it is, from 1 to 1,000.
    pub count: u32,
}

/// What the words of a check say.
#[derive(Debug, Drop)]
pub struct CheckWords<'a> {
    /// The root of the volume.
    pub root: [u8; 32],
    /// The text of a path.
    pub path: &'a [u8],
}

/// What the words ask for; `None` where they are of no form.
pub fn form_of(words: &[String]) -> Option<Form<'_>>
    ensures { MatchOption result (form_of (map string_bytes words.now) ≡ None)
        (λ form. IsForm form (map string_bytes words.now)) }
{
    if let Some(run) = run_words(words) {
        return Some(Form::Run(run));
    }
    if let Some(drill) = drill_words(words) {
        return Some(Form::Drill(drill));
    }
    if let Some(asked) = shelve_words(words) {
        return Some(Form::Shelve(asked));
    }
    match check_words(words) {
        Some(check) => Some(Form::Check(check)),
        None => None,
    }
}

/// Takes apart the words `run NUMBER IMAGE SERVER SURROGATE WORK`, of which `-` is no surrogate; `None` for any others.
fn run_words(words: &[String]) -> Option<RunWords<'_>>
    ensures form { MatchOption result (run_of (map string_bytes words.now) ≡ None)
        (λ run. run_of (map string_bytes words.now) ≡ Some (run_said run)) }
    ensures range { IfSome result (λ run. (1 ≤ run.client) × (run.client ≤ max_client)) }
{
    let [run, number, image, server, surrogate, work] = words else {
        return None;
    };
    let (image, server, work) = (image.as_bytes(), server.as_bytes(), work.as_bytes());
    let surrogate = surrogate.as_bytes();
    if !is_run(run.as_bytes(), image, server, surrogate, work) {
        return None;
    }
    match printed_number(number.as_str(), 1, u32::from(CLIENTS)) {
        Some(client) => Some(RunWords {
            client: client as u8,
            image,
            server,
            surrogate: address_of(surrogate),
            work,
        }),
        None => None,
    }
}

fn is_run(run: &[u8], image: &[u8], server: &[u8], surrogate: &[u8], work: &[u8]) -> bool
    ensures { result ≡ is_run run.now image.now server.now surrogate.now work.now }
{
    run == b"run".as_slice()
        && !image.is_empty()
        && !server.is_empty()
        && are_addresses(surrogate)
        && !work.is_empty()
}

/// The addresses that a word joins; `-` is none.
fn address_of(word: &[u8]) -> Option<&[u8]>
    ensures { option_copied result ≡ address_of word.now }
{
    if word == b"-".as_slice() {
        return None;
    }
    Some(word)
}

/// Takes apart the words `drill SEED COUNT`; `None` for any others.
fn drill_words(words: &[String]) -> Option<DrillWords>
    ensures form { MatchOption result (drill_of (map string_bytes words.now) ≡ None)
        (λ drill. drill_of (map string_bytes words.now) ≡ Some (drill_said drill)) }
    ensures range { IfSome result (λ drill. (1 ≤ drill.count) × (drill.count ≤ max_steps)) }
{
    let [drill, seed, count] = words else {
        return None;
    };
    if drill.as_bytes() != b"drill".as_slice() {
        return None;
    }
    let seed = seed_of(seed.as_str())?;
    match printed_number(count.as_str(), 1, MAX_STEPS) {
        Some(count) => Some(DrillWords { seed, count }),
        None => None,
    }
}

/// Whether a word prints the number of a client.
pub(crate) fn is_number(word: &str) -> bool
    ensures { result ≡ is_some (printed_number 1 max_client word.now) }
{
    printed_number(word, 1, u32::from(CLIENTS)).is_some()
}

/// The seed that a word prints: `0`, or a number without a leading zero.
pub(crate) fn seed_of(word: &str) -> Option<u16>
    ensures { result ≡ seed_of word.now }
{
    if word.as_bytes() == b"0".as_slice() {
        return Some(0);
    }
    match printed_number(word, 1, MAX_SEED) {
        Some(seed) => Some(seed as u16),
        None => None,
    }
}

/// Takes apart the words `shelve NUMBER IMAGE NEW NEWIMAGE SERVER FOLDER`; `None` for any others.
fn shelve_words(words: &[String]) -> Option<Shelving<'_>>
    ensures form { MatchOption result (shelve_of (map string_bytes words.now) ≡ None)
        (λ asked. shelve_of (map string_bytes words.now) ≡ Some (said asked)) }
    ensures range { IfSome result (λ asked. IsShelving (said asked)) }
{
    let [shelve, number, image, new, new_image, server, folder] = words else {
        return None;
    };
    let (image, new_image) = (image.as_bytes(), new_image.as_bytes());
    let (server, folder) = (server.as_bytes(), folder.as_bytes());
    if !is_shelve(shelve.as_bytes(), image, new_image, server, folder) {
        return None;
    }
    let client = printed_number(number.as_str(), 1, u32::from(CLIENTS))?;
    let new_client = printed_number(new.as_str(), 1, u32::from(CLIENTS))?;
    if new_client == client {
        return None;
    }
    Some(Shelving {
        client: client as u8,
        image,
        new_client: new_client as u8,
        new_image,
        server,
        folder,
    })
}

fn is_shelve(shelve: &[u8], image: &[u8], new_image: &[u8], server: &[u8], folder: &[u8]) -> bool
    ensures { result ≡ is_shelve shelve.now image.now new_image.now server.now folder.now }
{
    shelve == b"shelve".as_slice()
        && !image.is_empty()
        && !new_image.is_empty()
        && !server.is_empty()
        && !folder.is_empty()
        && are_apart(image, new_image)
}

/// Takes apart the words `check ROOT PATH`; `None` for any others.
fn check_words(words: &[String]) -> Option<CheckWords<'_>>
    ensures { MatchOption result (check_of (map string_bytes words.now) ≡ None) (IsSaid (check_of (map string_bytes words.now))) }
{
    let [check, root, path] = words else {
        return None;
    };
    if check.as_bytes() != b"check".as_slice() {
        return None;
    }
    root_and_path(root.as_str(), path.as_str())
}

/// What two words say of a check; `None` where the first is no root, or the second no path.
fn root_and_path<'a>(root: &str, path: &'a str) -> Option<CheckWords<'a>>
    ensures { MatchOption result (checked_by root.now path.now ≡ None) (IsSaid (checked_by root.now path.now)) }
{
    if !is_path_text(path.as_bytes()) {
        return None;
    }
    match root_of_word(root.as_bytes()) {
        Some(root) => Some(CheckWords {
            root,
            path: path.as_bytes(),
        }),
        None => None,
    }
}
