// The numbers that follow from a seed.
ghost use Rattle.std.specs.Prelude.{◌≡◌, ◌<◌};
ghost use Rattle.client_drill.specs.Drill.{next, number_at, is_job};

/// The number behind one.
pub(crate) fn next(x: u32) -> u32
    requires { x < 65537 }
    ensures value { result ≡ next x }
    ensures below { result < 65537 }
{
    (75 * x + 74) % 65_537
}

/// Number `i` of a seed.
pub(crate) fn number_at(seed: u16, i: u32) -> u32
    ensures value { result ≡ number_at seed i }
    ensures below { result < 65537 }
{
    let mut x = u32::from(seed);
    for _ in 0..i {
        x = next(x);
    }
    x
}

/// Whether the step of a number runs a job.
pub(crate) fn is_job(x: u32) -> bool
    ensures { result ≡ is_job x }
{
    x % 4 == 3
}
