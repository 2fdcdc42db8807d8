// A surrogate's words.
ghost use Rattle.std.specs.Prelude.{◌≡◌, ◌≤◌, IfSome, MatchOption, None, Some, map};
ghost use Rattle.std.specs.String.{string_bytes};
ghost use Rattle.outside.specs.Port.{most_connections};
ghost use Rattle.surrogate_prog.specs.Words.{surrogate_run_of, is_surrogate_run, run_said, form_of, HasForm};

use port_serving::connection_count;

/// What the words ask for.
#[derive(Debug, Drop)]
pub enum Form<'a> {
    /// To serve connections.
    Run(RunWords<'a>),
}

/// What the words of a run say.
#[derive(Debug, Drop)]
pub struct RunWords<'a> {
    /// The address at which the surrogate listens, which is not empty.
    pub address: &'a str,
    /// The address of its server, which is not empty.
    pub server: &'a str,
    /// The folder in which commands are run, which is not empty.
    pub work: &'a str,
    /// How many connections it takes at most, from 1 to 65,536.
    pub count: u32,
}

/// The form that the words have; `None` where they have none.
pub fn form_of(words: &[String]) -> Option<Form<'_>>
    ensures { MatchOption result (form_of (map string_bytes words.now) ≡ None) (HasForm (map string_bytes words.now)) }
{
    Some(Form::Run(run_words(words)?))
}

/// Takes apart the words `run LISTEN SERVER WORK COUNT`; `None` for any others.
fn run_words(words: &[String]) -> Option<RunWords<'_>>
    ensures form { MatchOption result (surrogate_run_of (map string_bytes words.now) ≡ None)
        (λ run. surrogate_run_of (map string_bytes words.now) ≡ Some (run_said run)) }
    ensures range { IfSome result (λ run. (1 ≤ run.count) × (run.count ≤ most_connections)) }
{
    let [run, address, server, work, count] = words else {
        return None;
    };
    if !is_run(
        run.as_bytes(),
        address.as_bytes(),
        server.as_bytes(),
        work.as_bytes(),
    ) {
        return None;
    }
    match connection_count(count.as_str()) {
        Some(count) => Some(RunWords {
            address: address.as_str(),
            server: server.as_str(),
            work: work.as_str(),
            count,
        }),
        None => None,
    }
}

fn is_run(run: &[u8], address: &[u8], server: &[u8], work: &[u8]) -> bool
    ensures { result ≡ is_surrogate_run run.now address.now server.now work.now }
{
    run == b"run".as_slice() && !address.is_empty() && !server.is_empty() && !work.is_empty()
}
