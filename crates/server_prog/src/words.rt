// A server's words.
ghost use Rattle.std.specs.Prelude.{◌≡◌, ◌≤◌, [], ◌∷◌, IfSome, MatchOption, None, Some, map};
ghost use Rattle.std.specs.String.{string_bytes};
ghost use Rattle.outside.specs.Port.{most_connections};
ghost use Rattle.server_prog.specs.Words.{server_run_of, is_server_run, is_root_word, is_prove_word, run_said, form_of, HasForm};

use port_serving::connection_count;
use program_words::is_path_text;

/// What the words ask for.
#[derive(Debug, Drop)]
pub enum Form<'a> {
    /// To serve connections.
    Run(RunWords<'a>),
    /// To write the root of the volume that is kept under this name, which is not empty.
    Root(&'a str),
    /// To write the certificate of a path, told by its text, in the volume that is kept under the first name, which is not empty.
    Prove(&'a str, &'a str),
}

impl<'a> Form<'a> {
    /// The name under which the server is kept.
    pub(crate) fn image(&self) -> &'a str {
        match self {
            Form::Run(run) => run.image,
            Form::Root(image) | Form::Prove(image, _) => image,
        }
    }
}

/// What the words of a run say.
#[derive(Debug, Drop)]
pub struct RunWords<'a> {
    /// The address at which the server listens, which is not empty.
    pub address: &'a str,
    /// The name under which it is kept, which is not empty.
    pub image: &'a str,
    /// How many connections it takes at most, from 1 to 65,536.
    pub count: u32,
}

/// The form that the words have; `None` where they have none.
pub fn form_of(words: &[String]) -> Option<Form<'_>>
    ensures { MatchOption result (form_of (map string_bytes words.now) ≡ None) (HasForm (map string_bytes words.now)) }
{
    match words {
        [root, image] => root_form(root.as_str(), image.as_str()),
        [prove, image, path] => prove_form(prove.as_str(), image.as_str(), path.as_str()),
        _ => Some(Form::Run(run_words(words)?)),
    }
}

/// What the words `root IMAGE` ask for; `None` for any others.
fn root_form<'a>(root: &str, image: &'a str) -> Option<Form<'a>>
    ensures { MatchOption result (form_of (root.now ∷ image.now ∷ []) ≡ None) (HasForm (root.now ∷ image.now ∷ [])) }
{
    if is_root(root.as_bytes(), image.as_bytes()) {
        return Some(Form::Root(image));
    }
    None
}

/// What the words `prove IMAGE PATH` ask for; `None` for any others.
fn prove_form<'a>(prove: &str, image: &'a str, path: &'a str) -> Option<Form<'a>>
    ensures { MatchOption result (form_of (prove.now ∷ image.now ∷ path.now ∷ []) ≡ None)
        (HasForm (prove.now ∷ image.now ∷ path.now ∷ [])) }
{
    if is_prove(prove.as_bytes(), image.as_bytes()) && is_path_text(path.as_bytes()) {
        return Some(Form::Prove(image, path));
    }
    None
}

/// Takes apart the words `run LISTEN IMAGE COUNT`; `None` for any others.
fn run_words(words: &[String]) -> Option<RunWords<'_>>
    ensures form { MatchOption result (server_run_of (map string_bytes words.now) ≡ None)
        (λ run. server_run_of (map string_bytes words.now) ≡ Some (run_said run)) }
    ensures range { IfSome result (λ run. (1 ≤ run.count) × (run.count ≤ most_connections)) }
{
    let [run, address, image, count] = words else {
        return None;
    };
    if !is_run(run.as_bytes(), address.as_bytes(), image.as_bytes()) {
        return None;
    }
    match connection_count(count.as_str()) {
        Some(count) => Some(RunWords {
            address: address.as_str(),
            image: image.as_str(),
            count,
        }),
        None => None,
    }
}

fn is_run(run: &[u8], address: &[u8], image: &[u8]) -> bool
    ensures { result ≡ is_server_run run.now address.now image.now }
{
    run == b"run".as_slice() && !address.is_empty() && !image.is_empty()
}

fn is_root(root: &[u8], image: &[u8]) -> bool
    ensures { result ≡ is_root_word root.now image.now }
{
    root == b"root".as_slice() && !image.is_empty()
}

fn is_prove(prove: &[u8], image: &[u8]) -> bool
    ensures { result ≡ is_prove_word prove.now image.now }
{
    prove == b"prove".as_slice() && !image.is_empty()
}
