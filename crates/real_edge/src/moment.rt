// When something was told.
ghost use Rattle.std.specs.Prelude.{◌≡◌, IfSome};
ghost use Rattle.httpdate.specs.Date.{unix_secs};

use httpdate::HttpDate;
use std::fmt::{self, Display, Formatter};
use std::time::{Clock, SystemTime, UNIX_EPOCH};

/// The months, as dates of HTTP name them.
const MONTHS: [&[u8]; 12] = [
    b"Jan", b"Feb", b"Mar", b"Apr", b"May", b"Jun", b"Jul", b"Aug", b"Sep", b"Oct", b"Nov", b"Dec",
];

/// A moment, which is shown as ISO 8601 has it, in UTC and to the second.
#[derive(Clone, Copy)]
pub(crate) struct Moment {
    date: HttpDate,
}

/// The moment that it is now, where the clock tells it.
pub(crate) fn moment_now<C: Clock>(clock: &C) -> Option<Moment> {
    let since = match SystemTime::now(clock) {
        Ok(now) => now.duration_since(UNIX_EPOCH).ok()?,
        Err(_) => return None,
    };
    moment_at(since.as_secs())
}

/// The moment so many seconds after the beginning of 1970.
fn moment_at(seconds: u64) -> Option<Moment>
    ensures { IfSome result (λ moment. unix_secs moment.date ≡ seconds) }
{
    match HttpDate::from_unix_secs(seconds) {
        Ok(date) => Some(Moment { date }),
        Err(_) => None,
    }
}

/// The number of the month with this name.
fn month_number(name: &[u8]) -> usize {
    match MONTHS.iter().position(|month| *month == name) {
        Some(place) => place.saturating_add(1),
        None => 0,
    }
}

impl Display for Moment {
    fn fmt<W: fmt::Write>(&self, f: &mut Formatter<W>) -> fmt::Result {
        // as `Mon, 30 Nov 2026 21:08:00 GMT`
        let text = self.date.to_bytes();
        let (day, month, year, time) = (&text[5..7], &text[8..11], &text[12..16], &text[17..25]);
        let month = month_number(month);
        show(year, f)?;
        write!(f, "-{month:02}-")?;
        show(day, f)?;
        f.write_char('T')?;
        show(time, f)?;
        f.write_char('Z')
    }
}

/// Shows letters and figures.
fn show<W: fmt::Write>(text: &[u8], f: &mut Formatter<W>) -> fmt::Result {
    f.write_str(str::from_utf8(text).unwrap_or("?"))
}
